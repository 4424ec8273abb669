// What is stored into.
ghost use Rattle.std.specs.Prelude.{◌≡◌, List, Some, None};
ghost use Rattle.efl_tree.specs.Syntax.{EflExpr, EflPlace, Up, Down, Assign};
ghost use Rattle.efl_types.specs.Signatures.{Names as NamesSeen};
ghost use Rattle.efl_types.specs.Types.{target_type};
ghost use Rattle.efl_types.specs.Expressions.{store_faults, store_wants};
ghost use Rattle.efl_scoped.specs.Numbers.{Table};
ghost use Rattle.efl_expressions.specs.declared.types.Structure as structures;
ghost use Rattle.efl_expressions.specs.Forms.{form_of};
ghost use Rattle.efl_expressions.specs.FirstRule.{first_rule};
ghost use Rattle.efl_expressions.specs.Checks.{IsChecked};
ghost use Rattle.efl_places.specs.Checks.{IsPlaced};

use crate::Placed;
use efl_expressions::{
    Checked, Form, fit_sides, fits, form, lower, operand, rule_if, value_form, wants,
};
use efl_tree::EflOperator;
use efl_types::TypeRule;
use ground::Kind;

/// The form of what is stored into: a call has no type there.
pub fn stored_form(place: &Placed) -> Form
    ensures { (f : Table) (ss : List structures.Structure) (n : NamesSeen) (p : EflPlace) → IsPlaced f ss n p place.now → form_of (target_type n p) ≡ result }
{
    if place.is_call {
        Form::NoType
    } else {
        form(&place.kind)
    }
}

/// What a place breaks by being stored into: a call may not be.
fn call_rule(place: &Placed) -> Option<TypeRule>
    ensures { (f : Table) (ss : List structures.Structure) (n : NamesSeen) (p : EflPlace) → IsPlaced f ss n p place.now → result ≡ first_rule (store_faults n p) }
{
    rule_if(place.is_call, TypeRule::NotAssignable)
}

/// What a place breaks by being stored into where a kind is asked for.
pub fn store_rule(kind: Kind, place: &Placed) -> Option<TypeRule>
    ensures { (f : Table) (ss : List structures.Structure) (n : NamesSeen) (p : EflPlace) → IsPlaced f ss n p place.now → result ≡ first_rule (store_wants n kind p) }
{
    let clash = rule_if(!fits(kind, stored_form(place)), TypeRule::TypeClash);
    lower(call_rule(place), clash)
}

/// Of `++` and `--`.
pub fn counted(place: &Placed) -> Checked
    ensures up { (f : Table) (ss : List structures.Structure) (n : NamesSeen) (p : EflPlace) → IsPlaced f ss n p place.now → IsChecked n (Up p) result }
    ensures down { (f : Table) (ss : List structures.Structure) (n : NamesSeen) (p : EflPlace) → IsPlaced f ss n p place.now → IsChecked n (Down p) result }
{
    Checked {
        form: value_form(stored_form(place)),
        rule: lower(store_rule(Kind::Integer, place), place.rule),
    }
}

/// Of an assignment.
pub fn assigned(operator: Option<EflOperator>, place: &Placed, value: Checked) -> Checked
    ensures { (f : Table) (ss : List structures.Structure) (n : NamesSeen) (p : EflPlace) (a : EflExpr) → IsPlaced f ss n p place.now → IsChecked n a value →
        IsChecked n (Assign operator p a) result }
{
    match operator {
        None => assigned_plainly(place, value),
        Some(operator) => assigned_by(operator, place, value),
    }
}

/// Of `=`.
fn assigned_plainly(place: &Placed, value: Checked) -> Checked
    ensures { (f : Table) (ss : List structures.Structure) (n : NamesSeen) (p : EflPlace) (a : EflExpr) → IsPlaced f ss n p place.now → IsChecked n a value →
        IsChecked n (Assign None p a) result }
{
    let target = stored_form(place);
    let clash = rule_if(!fit_sides(target, value.form), TypeRule::TypeClash);
    let inner = lower(place.rule, value.rule);
    Checked {
        form: value_form(target),
        rule: lower(call_rule(place), lower(clash, inner)),
    }
}

/// Of an operator and `=`.
fn assigned_by(operator: EflOperator, place: &Placed, value: Checked) -> Checked
    ensures { (f : Table) (ss : List structures.Structure) (n : NamesSeen) (p : EflPlace) (a : EflExpr) → IsPlaced f ss n p place.now → IsChecked n a value →
        IsChecked n (Assign (Some operator) p a) result }
{
    let kind = operand(operator);
    let inner = lower(place.rule, value.rule);
    let clash = wants(kind, value.form);
    Checked {
        form: value_form(stored_form(place)),
        rule: lower(store_rule(kind, place), lower(clash, inner)),
    }
}
