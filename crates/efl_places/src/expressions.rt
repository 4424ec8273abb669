// Whole expressions.
ghost use Rattle.std.specs.Prelude.{◌≡◌, ◌≢◌, ◌++◌, ◌==◌, length, List, Option, not};
ghost use Rattle.ground.specs.declared.value.Kind.TheVariants as kinds;
ghost use Rattle.efl_tree.specs.Syntax.{EflSteps, Member, EflExprs, NoExpr, EflPlace as EflPlaceSeen, At, Call};
ghost use Rattle.efl_tree.specs.Views.{expr_of, exprs_of, place_of, step_then, steps_of};
ghost use Rattle.efl_scope.specs.DataTypes.{DataType as TypeSeen};
ghost use Rattle.efl_types.specs.declared.rule.TypeRule.TheVariants as rules;
ghost use Rattle.efl_types.specs.Signatures.{Names as NamesSeen, Callee as CalleeSeen, many};
ghost use Rattle.efl_types.specs.Expressions.{when, all_want, subscript_faults, gives_value as gives_value_seen, take_actuals, actual_faults, faults, faults_of_all};
ghost use Rattle.efl_types.specs.Statements.{value_faults};
ghost use Rattle.efl_scoped.specs.Numbers.{Table};
ghost use Rattle.efl_expressions.specs.declared.types.Structure as structures;
ghost use Rattle.efl_expressions.specs.FirstRule.{first_rule};
ghost use Rattle.efl_expressions.specs.TypeViews.{IsType};
ghost use Rattle.efl_names.specs.NameViews.{Stands, AreTypes, IsTypeIfAny, IsCallee};
ghost use Rattle.efl_places.specs.Checks.{IsTyped, IsPlaced, IsNamed, IsReached, GoesOn, takes_if};

use crate::actuals::{fits_formal, formal_at};
use crate::places::{Named, Reached, are_none, are_some, at_end, count_rule, entered, laid_over};
use crate::stores::{assigned, counted};
use crate::typed::valued;
use crate::{Placed, Typed, called_type, checked, gives_value};
use efl_expressions::{
    Applied, DataType, form, grouped, lower, negated, nothing, number, paired, rule_if, signed,
    takes, truth, wants,
};
use efl_names::{Callee, Names};
use efl_tree::{EflExpr, EflPlace, EflStep};
use efl_types::TypeRule;
use ground::Kind;

/// The check of an expression.
#[cycle(check)]
pub fn check<'a>(e: &EflExpr, names: &Names<'_, 'a>) -> Typed<'a>
    ensures { (f : Table) (n : NamesSeen) → Stands f n names.now → IsTyped f names.now.structures.now.list.items n (expr_of e.now) result }
{
    match e {
        EflExpr::Int(_) => valued(number()),
        EflExpr::Truth(_) => valued(truth()),
        EflExpr::At(place) => named_place(&check_place(place, &*names)),
        EflExpr::Call(name, list) => check_empty_call(name.as_bytes(), list, &*names),
        EflExpr::Group(a) => valued(grouped(checked(&check(a, &*names)))),
        EflExpr::Plus(a) => valued(signed(checked(&check(a, &*names)))),
        EflExpr::Minus(a) => valued(signed(checked(&check(a, &*names)))),
        EflExpr::Not(a) => valued(negated(checked(&check(a, &*names)))),
        EflExpr::Up(place) => valued(counted(&check_place(place, &*names))),
        EflExpr::Down(place) => valued(counted(&check_place(place, &*names))),
        EflExpr::Pair(operator, a, b) => {
            let left = checked(&check(a, &*names));
            let right = checked(&check(b, &*names));
            valued(paired(*operator, left, right))
        }
        EflExpr::Assign(operator, place, a) => {
            let target = check_place(place, &*names);
            let value = checked(&check(a, &*names));
            valued(assigned(*operator, &target, value))
        }
    }
}

/// A place as a value, or as an actual.
fn named_place<'a>(place: &Placed<'a>) -> Typed<'a>
    ensures { (f : Table) (ss : List structures.Structure) (n : NamesSeen) (p : EflPlaceSeen) → IsPlaced f ss n p place.now → IsTyped f ss n (At p) result }
{
    Typed {
        kind: place.kind,
        is_element: !place.is_call && place.is_subscripted,
        rule: place.rule,
    }
}

/// The check of a place.
#[cycle(check)]
pub fn check_place<'a>(place: &EflPlace, names: &Names<'_, 'a>) -> Placed<'a>
    ensures { (f : Table) (n : NamesSeen) → Stands f n names.now → IsPlaced f names.now.structures.now.list.items n (place_of place.now) result }
{
    let name = check_named(place.first.as_bytes(), &place.subscripts, &*names);
    let start = Reached {
        kind: name.kind,
        is_subscripted: are_some(&place.subscripts),
        rule: name.rule,
    };
    let last = check_steps(&place.steps, &*names, start);
    at_end(name.is_call, are_none(&place.steps), last)
}

/// A name by itself, with subscripts, or a call.
#[cycle(check)]
fn check_named<'a>(name: &[u8], list: &[EflExpr], names: &Names<'_, 'a>) -> Named<'a>
    ensures { (f : Table) (n : NamesSeen) → Stands f n names.now → IsNamed f names.now.structures.now.list.items n name.now (exprs_of list.now) result }
{
    if list.is_empty() {
        Named {
            kind: names.variable_type(name),
            is_call: false,
            rule: names.variable_rule(name),
        }
    } else {
        check_applied(name, list, &*names)
    }
}

/// A name with something in its parentheses.
#[cycle(check)]
fn check_applied<'a>(name: &[u8], list: &[EflExpr], names: &Names<'_, 'a>) -> Named<'a>
    ensures { (f : Table) (n : NamesSeen) → Stands f n names.now → exprs_of list.now ≢ NoExpr → IsNamed f names.now.structures.now.list.items n name.now (exprs_of list.now) result }
{
    match names.applied(name) {
        Applied::Indexes(kind) => Named {
            kind: names.structures.subscripted(&kind, list.len()),
            is_call: false,
            rule: check_subscripts(&kind, list, &*names),
        },
        Applied::Calls(kind) => {
            let callee = names.callee(name);
            Named {
                kind: called_type(&callee),
                is_call: true,
                rule: check_call(&kind, &callee, list, &*names),
            }
        }
    }
}

/// A call with empty parentheses, or as an act within an expression.
#[cycle(check)]
fn check_empty_call<'a>(name: &[u8], list: &[EflExpr], names: &Names<'_, 'a>) -> Typed<'a>
    ensures { (f : Table) (n : NamesSeen) → Stands f n names.now → IsTyped f names.now.structures.now.list.items n (Call name.now (exprs_of list.now)) result }
{
    match names.applied(name) {
        Applied::Indexes(_) => Typed {
            kind: nothing(),
            is_element: false,
            rule: lower(Some(TypeRule::TypeClash), check_formals(&[], list, &*names)),
        },
        Applied::Calls(kind) => {
            let callee = names.callee(name);
            Typed {
                kind: called_type(&callee),
                is_element: false,
                rule: check_call(&kind, &callee, list, &*names),
            }
        }
    }
}

/// A call where a value is asked for, of the type of a declared scalar of its name.
#[cycle(check)]
fn check_call<'a>(
    kind: &DataType<'a>,
    callee: &Callee<'_, 'a>,
    list: &[EflExpr],
    names: &Names<'_, 'a>,
) -> Option<TypeRule>
    ensures { (f : Table) (n : NamesSeen) (t : TypeSeen) (c : CalleeSeen) → Stands f n names.now →
        IsType f names.now.structures.now.list.items t kind.now → IsCallee f names.now.structures.now.list.items c callee.now →
        result ≡ first_rule ((when (not (gives_value_seen t c)) rules.TypeClash ++ actual_faults n c (exprs_of list.now)) ++ faults_of_all n (exprs_of list.now)) }
{
    let clash = rule_if(!gives_value(form(kind), callee), TypeRule::TypeClash);
    lower(clash, check_actuals(callee, list, &*names))
}

/// The actuals of a call.
#[cycle(check)]
pub fn check_actuals<'a>(
    callee: &Callee<'_, 'a>,
    list: &[EflExpr],
    names: &Names<'_, 'a>,
) -> Option<TypeRule>
    ensures { (f : Table) (n : NamesSeen) (c : CalleeSeen) → Stands f n names.now → IsCallee f names.now.structures.now.list.items c callee.now →
        result ≡ first_rule (actual_faults n c (exprs_of list.now) ++ faults_of_all n (exprs_of list.now)) }
{
    match callee {
        Callee::Missing => lower(
            Some(TypeRule::MissingUnit),
            check_formals(&[], list, &*names),
        ),
        Callee::Procedure(formals, _) => check_procedure(formals, list, &*names),
        Callee::Intrinsic(arity) => {
            let count = rule_if(!takes(*arity, list.len()), TypeRule::WrongCount);
            lower(count, check_integers(list, &*names))
        }
    }
}

/// The actuals of a procedure whose formals have these types.
#[cycle(check)]
fn check_procedure<'a>(
    formals: &[DataType<'a>],
    list: &[EflExpr],
    names: &Names<'_, 'a>,
) -> Option<TypeRule>
    ensures { (f : Table) (n : NamesSeen) (ts : List TypeSeen) → Stands f n names.now → AreTypes f names.now.structures.now.list.items ts formals.now →
        result ≡ first_rule (when (not (length ts == many (exprs_of list.now))) rules.WrongCount ++ when (not (take_actuals n ts (exprs_of list.now))) rules.TypeClash ++ faults_of_all n (exprs_of list.now)) }
{
    let count = rule_if(formals.len() != list.len(), TypeRule::WrongCount);
    lower(count, check_formals(formals, list, &*names))
}

/// Actuals, pair by pair with formals of these types up to the shorter list.
#[cycle(check)]
fn check_formals<'a>(
    formals: &[DataType<'a>],
    list: &[EflExpr],
    names: &Names<'_, 'a>,
) -> Option<TypeRule>
    ensures { (f : Table) (n : NamesSeen) (ts : List TypeSeen) → Stands f n names.now → AreTypes f names.now.structures.now.list.items ts formals.now →
        result ≡ first_rule (when (not (take_actuals n ts (exprs_of list.now))) rules.TypeClash ++ faults_of_all n (exprs_of list.now)) }
{
    let mut rule = None;
    for (i, e) in list.iter().enumerate() {
        rule = lower(rule, check_actual(&formal_at(formals, i), e, &*names));
    }
    rule
}

/// An actual of a formal, where there is one.
#[cycle(check)]
fn check_actual<'a>(
    formal: &Option<DataType<'a>>,
    e: &EflExpr,
    names: &Names<'_, 'a>,
) -> Option<TypeRule>
    ensures { (f : Table) (n : NamesSeen) (o : Option TypeSeen) → Stands f n names.now → IsTypeIfAny f names.now.structures.now.list.items o formal.now →
        result ≡ first_rule (when (not (takes_if n o (expr_of e.now))) rules.TypeClash ++ faults n (expr_of e.now)) }
{
    let actual = check(e, &*names);
    let fits = fits_formal(names.structures, formal, &actual);
    lower(rule_if(!fits, TypeRule::TypeClash), actual.rule)
}

/// The subscripts of something of this type.
#[cycle(check)]
fn check_subscripts<'a>(
    kind: &DataType<'a>,
    list: &[EflExpr],
    names: &Names<'_, 'a>,
) -> Option<TypeRule>
    ensures { (f : Table) (n : NamesSeen) (t : TypeSeen) → Stands f n names.now → IsType f names.now.structures.now.list.items t kind.now →
        result ≡ first_rule (subscript_faults n t (exprs_of list.now) ++ faults_of_all n (exprs_of list.now)) }
{
    lower(count_rule(kind, list.len()), check_integers(list, &*names))
}

/// A list of integers.
#[cycle(check)]
fn check_integers<'a>(list: &[EflExpr], names: &Names<'_, 'a>) -> Option<TypeRule>
    ensures { (f : Table) (n : NamesSeen) → Stands f n names.now →
        result ≡ first_rule (all_want n kinds.Integer (exprs_of list.now) ++ faults_of_all n (exprs_of list.now)) }
{
    let mut rule = None;
    for e in list {
        rule = lower(rule, check_value(Kind::Integer, e, &*names));
    }
    rule
}

/// A value of this kind.
#[cycle(check)]
pub fn check_value<'a>(kind: Kind, e: &EflExpr, names: &Names<'_, 'a>) -> Option<TypeRule>
    ensures { (f : Table) (n : NamesSeen) → Stands f n names.now → result ≡ first_rule (value_faults n kind (expr_of e.now)) }
{
    let value = checked(&check(e, &*names));
    lower(wants(kind, value.form), value.rule)
}

/// Steps from where others have led.
#[cycle(check)]
fn check_steps<'a>(list: &[EflStep], names: &Names<'_, 'a>, start: Reached<'a>) -> Reached<'a>
    ensures { (f : Table) (n : NamesSeen) (t : TypeSeen) → Stands f n names.now → IsType f names.now.structures.now.list.items t start.entry.kind →
        IsReached f names.now.structures.now.list.items n t start.entry (steps_of list.now) result }
{
    let mut at = start;
    for step in list {
        at = check_step(step, &*names, at);
    }
    at
}

/// A step.
#[cycle(check)]
fn check_step<'a>(step: &EflStep, names: &Names<'_, 'a>, at: Reached<'a>) -> Reached<'a>
    ensures { (f : Table) (n : NamesSeen) (t : TypeSeen) (rest : EflSteps) → Stands f n names.now → IsType f names.now.structures.now.list.items t at.entry.kind →
        GoesOn f names.now.structures.now.list.items n t at.entry (step_then step.now rest) rest result }
{
    match step {
        EflStep::Member(name, list) => check_member(name.as_bytes(), list, &*names, &at),
        EflStep::Overlay(name) => laid_over(name.as_bytes(), &*names, &at),
    }
}

/// A step to a member.
#[cycle(check)]
fn check_member<'a>(
    name: &[u8],
    list: &[EflExpr],
    names: &Names<'_, 'a>,
    at: &Reached<'a>,
) -> Reached<'a>
    ensures { (f : Table) (n : NamesSeen) (t : TypeSeen) (rest : EflSteps) → Stands f n names.now → IsType f names.now.structures.now.list.items t at.now.kind →
        GoesOn f names.now.structures.now.list.items n t at.now (Member name.now (exprs_of list.now) rest) rest result }
{
    let member = names.structures.member(name, &at.kind);
    let inner = check_subscripts(&member, list, &*names);
    entered(names.structures, &*at, &member, list.len(), inner)
}
