// Whether trees are those of statements of the grammar.
ghost use Rattle.std.specs.Prelude.{◌≡◌, ◌&&◌, ◌||◌, map};
ghost use Rattle.std.specs.List.{list_all};
ghost use Rattle.f66_tree.specs.Views.{formula_of, formulas_of, par_of, declared_of, entry_of, entries_of, field_then, fields_of, act_of};
ghost use Rattle.f66_tree.specs.Fields.{NoField};
ghost use Rattle.f66_tree.specs.Syntax.{Many};
ghost use Rattle.f66_tree.specs.Built.{is_constant};
ghost use Rattle.f66_names.specs.Shapes.{is_capital, is_digit, is_name, level, left_level, right_level, stands, stand_all, are_arguments, is_named, is_place, is_parameter, is_item, are_items, are_some_items, is_printed, are_printed, is_declared, are_declared, is_branch, is_stop, has_shape};

use f66_tree::{Counting, Declared, Entry, Expr, Field, Name, Operator, Par, StmtKind};

const GREATEST: i64 = 2_147_483_647;

/// Whether a statement is the tree of a text of the grammar (X3.9-1966, section 7).
pub fn has_shape(kind: &StmtKind) -> bool
    ensures { result ≡ has_shape (act_of kind.now) }
{
    match kind {
        StmtKind::Assign(target, value) => is_place(target) && stands(0, value),
        StmtKind::Computed(_, index) => is_name(index),
        StmtKind::Sign(e, _, _, _) => stands(0, e),
        StmtKind::When(test, inner) => stands(0, test) && (is_branch(inner) && has_shape(inner)),
        StmtKind::Loop(_, counting) => {
            let Counting {
                variable,
                first,
                last,
                step,
            } = &**counting;
            is_counting_form(variable, first, last, step)
        }
        StmtKind::Stop(number) => is_stop(*number),
        StmtKind::Read(unit, _, list) => is_parameter(unit) && are_items(list),
        StmtKind::Write(unit, _, list) => is_parameter(unit) && are_items(list),
        StmtKind::Format(fields) => are_printed(fields),
        StmtKind::Typed(_, list) => are_declared(list),
        StmtKind::Dimension(list) => are_declared(list),
        _ => true,
    }
}

/// Whether a variable and the parameters of a DO have their forms.
pub fn is_counting_form(variable: &Name, first: &Par, last: &Par, step: &Par) -> bool
    ensures { result ≡ (is_name variable.now && (is_parameter (par_of first.now) && (is_parameter (par_of last.now) && is_parameter (par_of step.now)))) }
{
    is_name(variable) && (is_parameter(first) && (is_parameter(last) && is_parameter(step)))
}

/// Whether an expression is a text of the grammar at a level, of which 0 is a whole expression.
#[cycle(stands)]
pub fn stands(at: u8, e: &Expr) -> bool
    ensures { result ≡ stands at (formula_of e.now) }
{
    match e {
        Expr::Int(value) => is_constant(*value),
        Expr::Truth(_) => true,
        Expr::Letter(_) => false,
        Expr::Ref(name) => is_name(name),
        Expr::Item(item) => {
            let (name, list) = &**item;
            is_name(name) && are_arguments(list)
        }
        Expr::Group(a) => stands(0, a),
        Expr::Plus(a) => at <= 4 && stands(5, a),
        Expr::Minus(a) => at <= 4 && stands(5, a),
        Expr::Not(a) => at <= 2 && stands(3, a),
        Expr::Pair(operator, operands) => {
            let (a, b) = &**operands;
            at <= level(*operator)
                && (stands(left_level(*operator), a) && stands(right_level(*operator), b))
        }
    }
}

#[cycle(stands)]
fn stand_all(list: &[Expr]) -> bool
    ensures { result ≡ stand_all (formulas_of list.now) }
{
    for e in list {
        if !stands(0, e) {
            return false;
        }
    }
    true
}

#[cycle(stands)]
fn are_arguments(list: &[Expr]) -> bool
    ensures { result ≡ are_arguments (formulas_of list.now) }
{
    !list.is_empty() && stand_all(list)
}

fn level(operator: Operator) -> u8
    ensures { result ≡ level operator }
{
    match operator {
        Operator::Or => 0,
        Operator::And => 1,
        Operator::Add | Operator::Sub => 4,
        Operator::Mul | Operator::Div => 5,
        Operator::Power => 6,
        _ => 3,
    }
}

fn left_level(operator: Operator) -> u8
    ensures { result ≡ left_level operator }
{
    match operator {
        Operator::Or => 0,
        Operator::And => 1,
        Operator::Add | Operator::Sub => 4,
        Operator::Mul | Operator::Div => 5,
        Operator::Power => 7,
        _ => 4,
    }
}

fn right_level(operator: Operator) -> u8
    ensures { result ≡ right_level operator }
{
    match operator {
        Operator::Or => 1,
        Operator::And => 2,
        Operator::Add | Operator::Sub => 5,
        Operator::Mul | Operator::Div => 6,
        Operator::Power => 7,
        _ => 4,
    }
}

fn is_constant(value: i64) -> bool
    ensures { result ≡ is_constant value }
{
    0 <= value && value <= GREATEST
}

fn is_capital(c: u8) -> bool
    ensures { result ≡ is_capital c }
{
    b'A' <= c && c <= b'Z'
}

fn is_digit(c: u8) -> bool
    ensures { result ≡ is_digit c }
{
    b'0' <= c && c <= b'9'
}

fn are_letters_and_digits(text: &[u8]) -> bool
    ensures { result ≡ list_all (λ c. is_capital c || is_digit c) text.now }
{
    text.iter().all(|c| is_capital(*c) || is_digit(*c))
}

/// Whether a name is a capital with capitals and digits behind it (X3.9-1966, section 3.5).
pub fn is_name(name: &Name) -> bool
    ensures { result ≡ is_name name.now }
{
    match name.as_bytes() {
        [first, rest @ ..] => is_capital(*first) && are_letters_and_digits(rest),
        [] => false,
    }
}

fn is_named(e: &Expr) -> bool
    ensures { result ≡ is_named (formula_of e.now) }
{
    matches!(e, Expr::Ref(_) | Expr::Item(_))
}

/// Whether an expression is a variable, or a name with arguments or subscripts.
pub fn is_place(e: &Expr) -> bool
    ensures { result ≡ is_place (formula_of e.now) }
{
    is_named(e) && stands(7, e)
}

fn is_parameter(par: &Par) -> bool
    ensures { result ≡ is_parameter (par_of par.now) }
{
    match par {
        Par::Number(value) => is_constant(*value),
        Par::Variable(name) => is_name(name),
    }
}

#[cycle(are_items)]
fn is_item(entry: &Entry) -> bool
    ensures { result ≡ is_item (entry_of entry.now) }
{
    match entry {
        Entry::Item(e) => is_place(e),
        Entry::Many(list, variable, first, last, step) => {
            are_counted(list, variable, first, last, step)
        }
    }
}

/// Whether an implied DO has an item or more, and its variable and parameters have their forms.
#[cycle(are_items)]
fn are_counted(list: &[Entry], variable: &Name, first: &Par, last: &Par, step: &Par) -> bool
    ensures { result ≡ is_item (Many (entries_of list.now) variable.now (par_of first.now) (par_of last.now) (par_of step.now)) }
{
    are_some_items(list) && is_counting_form(variable, first, last, step)
}

#[cycle(are_items)]
fn are_some_items(list: &[Entry]) -> bool
    ensures { result ≡ are_some_items (entries_of list.now) }
{
    !list.is_empty() && are_items(list)
}

#[cycle(are_items)]
fn are_items(list: &[Entry]) -> bool
    ensures { result ≡ are_items (entries_of list.now) }
{
    for entry in list {
        if !is_item(entry) {
            return false;
        }
    }
    true
}

/// Whether a card may have this character.
pub fn is_printed(c: u8) -> bool
    ensures { result ≡ is_printed c }
{
    b' ' <= c && c <= b'~'
}

fn are_all_printed(text: &[u8]) -> bool
    ensures { result ≡ list_all is_printed text.now }
{
    text.iter().all(|c| is_printed(*c))
}

#[cycle(are_printed)]
fn is_printed_field(field: &Field) -> bool
    ensures { result ≡ are_printed (field_then field.now NoField) }
{
    match field {
        Field::Chars(text) => are_all_printed(text.as_bytes()),
        Field::Group(_, inside) => are_printed(inside),
        _ => true,
    }
}

/// Whether the texts of a format have characters alone that a card may have.
#[cycle(are_printed)]
fn are_printed(fields: &[Field]) -> bool
    ensures { result ≡ are_printed (fields_of fields.now) }
{
    for field in fields {
        if !is_printed_field(field) {
            return false;
        }
    }
    true
}

fn are_parameters(list: &[Par]) -> bool
    ensures { result ≡ list_all is_parameter (map par_of list.now) }
{
    for par in list {
        if !is_parameter(par) {
            return false;
        }
    }
    true
}

fn is_declared(declared: &Declared) -> bool
    ensures { result ≡ is_declared (declared_of declared.now) }
{
    is_name(&declared.name) && are_parameters(&declared.sizes)
}

fn are_all_declared(list: &[Declared]) -> bool
    ensures { result ≡ list_all is_declared (map declared_of list.now) }
{
    for declared in list {
        if !is_declared(declared) {
            return false;
        }
    }
    true
}

/// Whether a list has a name or more, with their dimensions (section 7.2.1).
pub fn are_declared(list: &[Declared]) -> bool
    ensures { result ≡ are_declared (map declared_of list.now) }
{
    !list.is_empty() && are_all_declared(list)
}

fn is_branch(kind: &StmtKind) -> bool
    ensures { result ≡ is_branch (act_of kind.now) }
{
    match kind {
        StmtKind::When(_, _) | StmtKind::Loop(_, _) => false,
        StmtKind::Format(_) | StmtKind::Typed(_, _) | StmtKind::Dimension(_) => false,
        StmtKind::Common(_) | StmtKind::Equivalence(_) | StmtKind::Preset(_) => false,
        _ => true,
    }
}

fn is_stop(number: Option<u16>) -> bool
    ensures { result ≡ is_stop number }
{
    match number {
        None => true,
        Some(n) => n <= 32767,
    }
}
