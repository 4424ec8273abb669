// The types of expressions, and where statements have others than they ask for.
ghost use Rattle.std.specs.Prelude.{◌≡◌, ◌||◌};
ghost use Rattle.ground.specs.declared.value.Kind.TheVariants.{Integer, Logical};
ghost use Rattle.f66_tree.specs.Views.{formula_of, formulas_of, act_of};
ghost use Rattle.f66_tree.specs.Syntax.{Item};
ghost use Rattle.f66_tree.specs.Units.{kind_of as kind_by_name};
ghost use Rattle.f66_names.specs.DeclarationViews.{context_in};
ghost use Rattle.f66_names.specs.Sorts.{name_form};
ghost use Rattle.unit_rules.specs.Types.{kind_applied, kind_seen, is_whole, is_letter, fits, are_integers, are_actuals, are_passed, assigns, clashes};

use f66_names::{
    Declarations, NameForm, are_entries, are_subscripts, counts, form_of, is_array, is_counter,
    is_counting, is_integer, kind_of, may_be, operand, outcome, same_kind, takes_kind,
};
use f66_tree::{Counting, Expr, Name, StmtKind, Way};
use ground::Kind;

/// Whether a statement has an operand, a subscript, an argument or a value of another type than it asks for
/// (X3.9-1966, sections 5.1.3.3, 6, 7.1, 8.2 and 8.4).
pub fn clashes(declarations: &Declarations, kind: &StmtKind) -> bool
    ensures { result ≡ clashes (context_in declarations.now) (act_of kind.now) }
{
    match kind {
        StmtKind::Assign(target, value) => !takes_value(declarations, target, value),
        StmtKind::Sign(e, _, _, _) => !fits(declarations, e, Kind::Integer),
        StmtKind::When(test, inner) => {
            !fits(declarations, test, Kind::Logical) || clashes(declarations, inner)
        }
        StmtKind::Invoke(_, list) => !are_passed(declarations, list),
        StmtKind::Computed(_, index) => !is_counter(declarations, index),
        StmtKind::Loop(_, counting) => {
            let Counting {
                variable,
                first,
                last,
                step,
            } = &**counting;
            !counts(declarations, variable, first, last, step)
        }
        StmtKind::Read(unit, _, list) => {
            !(is_counting(declarations, unit) && are_entries(Way::Reading, declarations, list))
        }
        StmtKind::Write(unit, _, list) => {
            !(is_counting(declarations, unit) && are_entries(Way::Writing, declarations, list))
        }
        _ => false,
    }
}

fn takes_value(declarations: &Declarations, target: &Expr, value: &Expr) -> bool
    ensures { result
        ≡ (assigns (context_in declarations.now) (formula_of target.now) (formula_of value.now) Integer
        || assigns (context_in declarations.now) (formula_of target.now) (formula_of value.now) Logical) }
{
    assigns(declarations, target, value, Kind::Integer)
        || assigns(declarations, target, value, Kind::Logical)
}

fn assigns(declarations: &Declarations, target: &Expr, value: &Expr, kind: Kind) -> bool
    ensures { result ≡ assigns (context_in declarations.now) (formula_of target.now) (formula_of value.now) kind }
{
    takes_kind(declarations, target, kind) && fits(declarations, value, kind)
}

/// The type of the values of a name with parentheses.
fn kind_applied(declarations: &Declarations, name: &Name) -> Kind
    ensures { result ≡ kind_applied (name_form (context_in declarations.now) name.now) (kind_by_name (context_in declarations.now) name.now) }
{
    match form_of(declarations, name) {
        NameForm::Intrinsic(_) => Kind::Integer,
        _ => kind_of(declarations, name),
    }
}

/// The type that an expression has where it has one.
pub fn kind_seen(declarations: &Declarations, e: &Expr) -> Kind
    ensures { result ≡ kind_seen (context_in declarations.now) (formula_of e.now) }
{
    match e {
        Expr::Int(_) | Expr::Letter(_) | Expr::Plus(_) | Expr::Minus(_) => Kind::Integer,
        Expr::Truth(_) | Expr::Not(_) => Kind::Logical,
        Expr::Ref(name) => kind_of(declarations, name),
        Expr::Item(item) => kind_applied(declarations, &item.0),
        Expr::Group(a) => kind_seen(declarations, a),
        Expr::Pair(operator, _) => outcome(*operator),
    }
}

fn is_whole(declarations: &Declarations, e: &Expr) -> bool
    ensures { result ≡ is_whole (context_in declarations.now) (formula_of e.now) }
{
    match e {
        Expr::Ref(name) => is_array(declarations, name),
        _ => false,
    }
}

fn is_letter(e: &Expr) -> bool
    ensures { result ≡ is_letter (formula_of e.now) }
{
    matches!(e, Expr::Letter(_))
}

/// Whether an expression may have a type (sections 6, 8.2 and 8.3).
#[cycle(fits)]
pub fn fits(declarations: &Declarations, e: &Expr, kind: Kind) -> bool
    ensures { result ≡ fits (context_in declarations.now) (formula_of e.now) kind }
{
    match e {
        Expr::Int(_) => same_kind(Kind::Integer, kind),
        Expr::Truth(_) => same_kind(Kind::Logical, kind),
        Expr::Letter(_) => false,
        Expr::Ref(name) => !is_array(declarations, name) && may_be(declarations, name, kind),
        Expr::Item(item) => {
            let (name, list) = &**item;
            fits_item(declarations, name, list, kind)
        }
        Expr::Group(a) => fits(declarations, a, kind),
        Expr::Plus(a) => same_kind(Kind::Integer, kind) && fits(declarations, a, Kind::Integer),
        Expr::Minus(a) => same_kind(Kind::Integer, kind) && fits(declarations, a, Kind::Integer),
        Expr::Not(a) => same_kind(Kind::Logical, kind) && fits(declarations, a, Kind::Logical),
        Expr::Pair(operator, operands) => {
            let (a, b) = &**operands;
            let asked = operand(*operator);
            same_kind(outcome(*operator), kind)
                && (fits(declarations, a, asked) && fits(declarations, b, asked))
        }
    }
}

/// Whether an element, or a function's value, may have a type.
#[cycle(fits)]
fn fits_item(declarations: &Declarations, name: &Name, list: &[Expr], kind: Kind) -> bool
    ensures { result ≡ fits (context_in declarations.now) (Item name.now (formulas_of list.now)) kind }
{
    match form_of(declarations, name) {
        NameForm::Array(_) => are_subscripts(declarations, list)
            && may_be(declarations, name, kind),
        NameForm::Intrinsic(_) => {
            is_integer(kind_of(declarations, name))
                && are_integers(declarations, list)
                && same_kind(Kind::Integer, kind)
        }
        NameForm::Plain => may_be(declarations, name, kind) && are_actuals(declarations, list),
    }
}

#[cycle(fits)]
fn are_integers(declarations: &Declarations, list: &[Expr]) -> bool
    ensures { result ≡ are_integers (context_in declarations.now) (formulas_of list.now) }
{
    for e in list {
        if !fits(declarations, e, Kind::Integer) {
            return false;
        }
    }
    true
}

/// Whether each is an array, or an expression of a type (section 8.3.2).
#[cycle(fits)]
fn are_actuals(declarations: &Declarations, list: &[Expr]) -> bool
    ensures { result ≡ are_actuals (context_in declarations.now) (formulas_of list.now) }
{
    for e in list {
        let kind = kind_seen(declarations, e);
        if !(is_whole(declarations, e) || fits(declarations, e, kind)) {
            return false;
        }
    }
    true
}

/// Whether each is one that a CALL may hand over (section 8.4.2).
fn are_passed(declarations: &Declarations, list: &[Expr]) -> bool
    ensures { result ≡ are_passed (context_in declarations.now) (formulas_of list.now) }
{
    for e in list {
        let kind = kind_seen(declarations, e);
        if !(is_letter(e) || (is_whole(declarations, e) || fits(declarations, e, kind))) {
            return false;
        }
    }
    true
}
