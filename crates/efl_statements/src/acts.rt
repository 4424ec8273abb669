// Acts, values, and the value of a `return`.
ghost use Rattle.std.specs.Prelude.{◌≡◌, ◌++◌, ◌||◌, not, List};
ghost use Rattle.efl_tree.specs.Syntax.{EflExpr as ExprSeen};
ghost use Rattle.efl_tree.specs.Views.{expr_of, exprs_of, expr_if_any};
ghost use Rattle.efl_types.specs.Signatures.{Names as NamesSeen, Callee as CalleeSeen, is_variable};
ghost use Rattle.efl_types.specs.Types.{type_of};
ghost use Rattle.efl_types.specs.Expressions.{faults};
ghost use Rattle.efl_types.specs.Statements.{act_faults, act_if as act_if_seen, invoke_faults, may_be_called as may_be_called_seen, value_if as value_if_seen, return_faults, returns};
ghost use Rattle.efl_scoped.specs.Numbers.{Table};
ghost use Rattle.efl_expressions.specs.declared.types.Structure as structures;
ghost use Rattle.efl_expressions.specs.Forms.{form_of};
ghost use Rattle.efl_expressions.specs.FirstRule.{first_rule};
ghost use Rattle.efl_names.specs.NameViews.{Stands, IsCallee, result_of};

use efl_expressions::{Form, lower, rule_if, wants, wants_single};
use efl_names::{Callee, Names, Outcome};
use efl_places::{check, check_actuals, check_value, checked};
use efl_tree::EflExpr;
use efl_types::TypeRule;
use ground::Kind;

/// What an act breaks.
pub fn act_rule(e: &EflExpr, names: &Names) -> Option<TypeRule>
    ensures { (f : Table) (n : NamesSeen) → Stands f n names.now → result ≡ first_rule (act_faults n (expr_of e.now)) }
{
    match e {
        EflExpr::Call(name, list) => invoke_rule(name.as_bytes(), list, names),
        EflExpr::Int(_)
        | EflExpr::Truth(_)
        | EflExpr::At(_)
        | EflExpr::Group(_)
        | EflExpr::Plus(_)
        | EflExpr::Minus(_)
        | EflExpr::Not(_)
        | EflExpr::Up(_)
        | EflExpr::Down(_)
        | EflExpr::Pair(_, _, _)
        | EflExpr::Assign(_, _, _) => check(e, names).rule,
    }
}

/// What a call breaks that is a statement: no declared variable has the name.
fn invoke_rule(name: &[u8], list: &[EflExpr], names: &Names) -> Option<TypeRule>
    ensures { (f : Table) (n : NamesSeen) → Stands f n names.now → result ≡ first_rule (invoke_faults n name.now (exprs_of list.now)) }
{
    let callee = names.callee(name);
    let actuals = check_actuals(&callee, list, names);
    let clash = rule_if(is_no_act(name, &callee, names), TypeRule::TypeClash);
    lower(clash, actuals)
}

/// Whether a call may be no statement: a declared variable has the name, or it gives something.
fn is_no_act<'a>(name: &[u8], callee: &Callee<'_, 'a>, names: &Names<'_, 'a>) -> bool
    ensures { (f : Table) (n : NamesSeen) (c : CalleeSeen) → Stands f n names.now → IsCallee f names.now.structures.now.list.items c callee.now →
        result ≡ (is_variable n name.now || not (may_be_called_seen c)) }
{
    names.is_variable(name) || !may_be_called(callee)
}

/// Whether a call may be a statement: it gives nothing.
fn may_be_called(callee: &Callee) -> bool
    ensures { (f : Table) (ss : List structures.Structure) (c : CalleeSeen) → IsCallee f ss c callee.now → result ≡ may_be_called_seen c }
{
    match callee {
        Callee::Missing | Callee::Procedure(_, Outcome::Nothing) => true,
        _ => false,
    }
}

/// What an act breaks, where there is one.
pub fn act_if(e: &Option<EflExpr>, names: &Names) -> Option<TypeRule>
    ensures { (f : Table) (n : NamesSeen) → Stands f n names.now → result ≡ first_rule (act_if_seen n (expr_if_any e.now)) }
{
    match e {
        None => None,
        Some(e) => act_rule(e, names),
    }
}

/// What a value of this kind breaks, where there is one.
pub fn value_if(kind: Kind, e: &Option<EflExpr>, names: &Names) -> Option<TypeRule>
    ensures { (f : Table) (n : NamesSeen) → Stands f n names.now → result ≡ first_rule (value_if_seen n kind (expr_if_any e.now)) }
{
    match e {
        None => None,
        Some(e) => check_value(kind, e, names),
    }
}

/// What `return` breaks.
pub fn return_rule(e: &Option<EflExpr>, names: &Names) -> Option<TypeRule>
    ensures { (f : Table) (n : NamesSeen) → Stands f n names.now → result ≡ first_rule (return_faults n (expr_if_any e.now)) }
{
    match e {
        None => None,
        Some(e) => returned_rule(e, names),
    }
}

/// What the value of a `return` breaks.
fn returned_rule(e: &EflExpr, names: &Names) -> Option<TypeRule>
    ensures { (f : Table) (n : NamesSeen) → Stands f n names.now → result ≡ first_rule (returns n n.result (expr_of e.now) ++ faults n (expr_of e.now)) }
{
    let value = checked(&check(e, names));
    lower(given_rule(names.outcome, value.form), value.rule)
}

/// What a value of this form breaks by being given by a procedure that gives this.
fn given_rule(outcome: Outcome, value: Form) -> Option<TypeRule>
    ensures { (n : NamesSeen) (e : ExprSeen) → n.result ≡ result_of outcome → form_of (type_of n e) ≡ value → result ≡ first_rule (returns n n.result e) }
{
    match outcome {
        Outcome::Nothing => Some(TypeRule::TypeClash),
        Outcome::Gives(kind) => wants(kind, value),
        Outcome::Unknown => wants_single(value),
    }
}
