// The types of names, subscripts, targets and the items of lists.
ghost use Rattle.std.specs.Prelude.{◌≡◌};
ghost use Rattle.f66_tree.specs.Views.{formula_of, formulas_of, par_of, entry_of, entries_of};
ghost use Rattle.f66_tree.specs.Syntax.{Item, Many};
ghost use Rattle.f66_tree.specs.Built.{is_arithmetic};
ghost use Rattle.f66_names.specs.Kinds.{is_number, is_index, is_times, is_plus_or_minus, is_multiple, is_shifted, is_subscript, are_subscripts, same_kind, may_be, is_connective, operand, outcome, takes_kind, is_counting, is_listed, counts, is_entry, are_entries};
ghost use Rattle.f66_names.specs.DeclarationViews.{context_in};

use crate::declarations::Declarations;
use crate::sorts::{is_array, is_counter, is_foreign, is_integer, kind_of};
use f66_tree::{Entry, Expr, Name, Operator, Par, Way};
use ground::Kind;

/// Whether the variable and the parameters of a DO are integers (section 7.1.2.8).
pub fn counts(
    declarations: &Declarations,
    variable: &Name,
    first: &Par,
    last: &Par,
    step: &Par,
) -> bool
    ensures { result ≡ counts (context_in declarations.now) variable.now (par_of first.now) (par_of last.now) (par_of step.now) }
{
    is_integer(kind_of(declarations, variable))
        && (is_counting(declarations, first)
            && (is_counting(declarations, last) && is_counting(declarations, step)))
}

/// Whether a name may have values of a type.
pub fn may_be(declarations: &Declarations, name: &Name, kind: Kind) -> bool
    ensures { result ≡ may_be (context_in declarations.now) name.now kind }
{
    same_kind(kind_of(declarations, name), kind) || is_foreign(declarations, name)
}

/// Whether two types are one.
pub fn same_kind(a: Kind, b: Kind) -> bool
    ensures { result ≡ same_kind a b }
{
    match (a, b) {
        (Kind::Integer, Kind::Integer) | (Kind::Logical, Kind::Logical) => true,
        (Kind::Integer, Kind::Logical) | (Kind::Logical, Kind::Integer) => false,
    }
}

fn is_connective(operator: Operator) -> bool
    ensures { result ≡ is_connective operator }
{
    matches!(operator, Operator::And | Operator::Or)
}

fn is_arithmetic(operator: Operator) -> bool
    ensures { result ≡ is_arithmetic operator }
{
    matches!(
        operator,
        Operator::Add | Operator::Sub | Operator::Mul | Operator::Div | Operator::Power
    )
}

/// The type that an operator asks of its operands (section 6).
pub fn operand(operator: Operator) -> Kind
    ensures { result ≡ operand operator }
{
    if is_connective(operator) {
        Kind::Logical
    } else {
        Kind::Integer
    }
}

/// The type of what an operator makes.
pub fn outcome(operator: Operator) -> Kind
    ensures { result ≡ outcome operator }
{
    if is_arithmetic(operator) {
        Kind::Integer
    } else {
        Kind::Logical
    }
}

/// Whether an expression is an integer constant without a sign.
pub fn is_number(e: &Expr) -> bool
    ensures { result ≡ is_number (formula_of e.now) }
{
    matches!(e, Expr::Int(_))
}

fn is_index(declarations: &Declarations, e: &Expr) -> bool
    ensures { result ≡ is_index (context_in declarations.now) (formula_of e.now) }
{
    match e {
        Expr::Ref(name) => is_counter(declarations, name),
        _ => false,
    }
}

fn is_times(operator: Operator) -> bool
    ensures { result ≡ is_times operator }
{
    matches!(operator, Operator::Mul)
}

fn is_plus_or_minus(operator: Operator) -> bool
    ensures { result ≡ is_plus_or_minus operator }
{
    matches!(operator, Operator::Add | Operator::Sub)
}

/// Whether it is `v` or `c*v`.
fn is_multiple(declarations: &Declarations, e: &Expr) -> bool
    ensures { result ≡ is_multiple (context_in declarations.now) (formula_of e.now) }
{
    match e {
        Expr::Ref(name) => is_counter(declarations, name),
        Expr::Pair(operator, operands) => {
            let (a, b) = &**operands;
            is_times(*operator) && (is_number(a) && is_index(declarations, b))
        }
        _ => false,
    }
}

/// Whether it is `v` or `c*v` with a constant added or taken off.
fn is_shifted(declarations: &Declarations, e: &Expr) -> bool
    ensures { result ≡ is_shifted (context_in declarations.now) (formula_of e.now) }
{
    match e {
        Expr::Pair(operator, operands) => {
            let (a, b) = &**operands;
            is_plus_or_minus(*operator) && (is_multiple(declarations, a) && is_number(b))
        }
        _ => false,
    }
}

/// Whether it has one of the seven forms of a subscript (section 5.1.3.3).
fn is_subscript(declarations: &Declarations, e: &Expr) -> bool
    ensures { result ≡ is_subscript (context_in declarations.now) (formula_of e.now) }
{
    is_number(e) || (is_multiple(declarations, e) || is_shifted(declarations, e))
}

/// Whether each has one of the seven forms of a subscript (section 5.1.3.3).
pub fn are_subscripts(declarations: &Declarations, list: &[Expr]) -> bool
    ensures { result ≡ are_subscripts (context_in declarations.now) (formulas_of list.now) }
{
    for e in list {
        if !is_subscript(declarations, e) {
            return false;
        }
    }
    true
}

/// Whether a target takes a value of this type, or is none.
pub fn takes_kind(declarations: &Declarations, target: &Expr, kind: Kind) -> bool
    ensures { result ≡ takes_kind (context_in declarations.now) (formula_of target.now) kind }
{
    match target {
        Expr::Ref(name) => { is_array(declarations, name) || may_be(declarations, name, kind) }
        Expr::Item(item) => {
            let (name, list) = &**item;
            takes_element(declarations, name, list, kind)
        }
        _ => true,
    }
}

fn takes_element(declarations: &Declarations, name: &Name, list: &[Expr], kind: Kind) -> bool
    ensures { result ≡ takes_kind (context_in declarations.now) (Item name.now (formulas_of list.now)) kind }
{
    !is_array(declarations, name)
        || (are_subscripts(declarations, list) && may_be(declarations, name, kind))
}

/// Whether a parameter of a DO, or the unit of a READ or WRITE, is an integer (sections 7.1.2.8 and 7.1.3.2).
pub fn is_counting(declarations: &Declarations, par: &Par) -> bool
    ensures { result ≡ is_counting (context_in declarations.now) (par_of par.now) }
{
    match par {
        Par::Number(_) => true,
        Par::Variable(name) => is_counter(declarations, name),
    }
}

fn is_listed(way: Way, declarations: &Declarations, e: &Expr) -> bool
    ensures { result ≡ is_listed way (context_in declarations.now) (formula_of e.now) }
{
    match e {
        Expr::Item(item) => {
            let (name, list) = &**item;
            is_listed_element(way, declarations, name, list)
        }
        _ => true,
    }
}

/// Whether it is an element, or into what is none is read, which is another rule.
fn is_listed_element(way: Way, declarations: &Declarations, name: &Name, list: &[Expr]) -> bool
    ensures { result ≡ is_listed way (context_in declarations.now) (Item name.now (formulas_of list.now)) }
{
    match way {
        Way::Writing => is_array(declarations, name) && are_subscripts(declarations, list),
        Way::Reading => !is_array(declarations, name) || are_subscripts(declarations, list),
    }
}

#[cycle(are_entries)]
fn is_entry(way: Way, declarations: &Declarations, entry: &Entry) -> bool
    ensures { result ≡ is_entry way (context_in declarations.now) (entry_of entry.now) }
{
    match entry {
        Entry::Item(e) => is_listed(way, declarations, e),
        Entry::Many(list, variable, first, last, step) => {
            are_counted(way, declarations, list, variable, first, last, step)
        }
    }
}

/// Whether the list of an implied DO has the types that it is to have, and its variable and parameters are integers.
#[cycle(are_entries)]
fn are_counted(
    way: Way,
    declarations: &Declarations,
    list: &[Entry],
    variable: &Name,
    first: &Par,
    last: &Par,
    step: &Par,
) -> bool
    ensures { result
        ≡ is_entry way (context_in declarations.now) (Many (entries_of list.now) variable.now (par_of first.now) (par_of last.now) (par_of step.now)) }
{
    are_entries(way, declarations, list) && counts(declarations, variable, first, last, step)
}

/// Whether the items of a READ or WRITE have the types that they are to have (section 7.1.3).
#[cycle(are_entries)]
pub fn are_entries(way: Way, declarations: &Declarations, list: &[Entry]) -> bool
    ensures { result ≡ are_entries way (context_in declarations.now) (entries_of list.now) }
{
    for entry in list {
        if !is_entry(way, declarations, entry) {
            return false;
        }
    }
    true
}
