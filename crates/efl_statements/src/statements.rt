// Statements, without those in them.
ghost use Rattle.std.specs.Prelude.{◌≡◌, ◌++◌, not, map};
ghost use Rattle.ground.specs.declared.value.Kind.TheVariants as kinds;
ghost use Rattle.efl_tree.specs.Views.{kind_of, expr_of, expr_if_any, write_item_of, read_item_of};
ghost use Rattle.efl_tree.specs.Syntax.{Write, Read};
ghost use Rattle.efl_types.specs.declared.rule.TypeRule.TheVariants as rules;
ghost use Rattle.efl_types.specs.Signatures.{Names as NamesSeen, variable_type};
ghost use Rattle.efl_types.specs.Types.{fits as fits_seen};
ghost use Rattle.efl_types.specs.Expressions.{when, variable_faults};
ghost use Rattle.efl_types.specs.Statements.{statement_faults, value_faults, act_if as act_if_seen, value_if as value_if_seen};
ghost use Rattle.efl_scoped.specs.Numbers.{Table};
ghost use Rattle.efl_expressions.specs.FirstRule.{first_rule};
ghost use Rattle.efl_names.specs.NameViews.{Stands};

use crate::acts::{act_if, act_rule, return_rule, value_if};
use crate::items::{read_fit, taken_rules, written_fit, written_rules};
use efl_expressions::{fits, form, lower, rule_if};
use efl_names::Names;
use efl_places::check_value;
use efl_tree::{EflExpr, EflKind, ReadItem, WriteItem};
use efl_types::TypeRule;
use ground::Kind;

/// What a statement breaks by itself.
pub fn statement_rule(kind: &EflKind, names: &Names) -> Option<TypeRule>
    ensures { (f : Table) (n : NamesSeen) → Stands f n names.now → result ≡ first_rule (statement_faults n (kind_of kind.now)) }
{
    match kind {
        EflKind::Act(e) => act_rule(e, names),
        EflKind::If(e, _, _) => check_value(Kind::Logical, e, names),
        EflKind::While(e, _) => check_value(Kind::Logical, e, names),
        EflKind::For(first, test, step, _) => for_rule(first, test, step, names),
        EflKind::Do(name, first, last, step, _) => {
            let range = range_rule(first, last, step, names);
            lower(counter_rule(name.as_bytes(), names), range)
        }
        EflKind::Switch(e, _) => check_value(Kind::Integer, e, names),
        EflKind::Return(e) => return_rule(e, names),
        EflKind::Write(unit, list) => write_rule(unit, list, names),
        EflKind::Read(unit, list) => read_rule(unit, list, names),
        EflKind::Empty
        | EflKind::Block(_, _)
        | EflKind::Repeat(_, _)
        | EflKind::Break(_, _)
        | EflKind::Next(_, _)
        | EflKind::Goto(_) => None,
    }
}

/// What the acts and the condition of `for` break.
fn for_rule(
    first: &Option<EflExpr>,
    test: &Option<EflExpr>,
    step: &Option<EflExpr>,
    names: &Names,
) -> Option<TypeRule>
    ensures { (f : Table) (n : NamesSeen) → Stands f n names.now →
        result ≡ first_rule (act_if_seen n (expr_if_any first.now) ++ value_if_seen n kinds.Logical (expr_if_any test.now) ++ act_if_seen n (expr_if_any step.now)) }
{
    let last = act_if(step, names);
    let inner = lower(value_if(Kind::Logical, test, names), last);
    let begin = act_if(first, names);
    lower(begin, inner)
}

/// What the variable of `do` breaks.
fn counter_rule(name: &[u8], names: &Names) -> Option<TypeRule>
    ensures { (f : Table) (n : NamesSeen) → Stands f n names.now →
        result ≡ first_rule (when (not (fits_seen kinds.Integer (variable_type n name.now))) rules.TypeClash ++ variable_faults n name.now) }
{
    let is_integer = fits(Kind::Integer, form(&names.variable_type(name)));
    let clash = rule_if(!is_integer, TypeRule::TypeClash);
    lower(clash, names.variable_rule(name))
}

/// What the values of `do` break.
fn range_rule(
    first: &EflExpr,
    last: &EflExpr,
    step: &Option<EflExpr>,
    names: &Names,
) -> Option<TypeRule>
    ensures { (f : Table) (n : NamesSeen) → Stands f n names.now →
        result ≡ first_rule (value_faults n kinds.Integer (expr_of first.now) ++ value_faults n kinds.Integer (expr_of last.now) ++ value_if_seen n kinds.Integer (expr_if_any step.now)) }
{
    let end = check_value(Kind::Integer, last, names);
    let inner = lower(end, value_if(Kind::Integer, step, names));
    let begin = check_value(Kind::Integer, first, names);
    lower(begin, inner)
}

/// What `write` breaks.
fn write_rule(unit: &Option<EflExpr>, list: &[WriteItem], names: &Names) -> Option<TypeRule>
    ensures { (f : Table) (n : NamesSeen) → Stands f n names.now →
        result ≡ first_rule (statement_faults n (Write (expr_if_any unit.now) (map write_item_of list.now))) }
{
    let format = rule_if(!written_fit(list), TypeRule::BadFormat);
    let inner = lower(written_rules(list, names), format);
    lower(value_if(Kind::Integer, unit, names), inner)
}

/// What `read` breaks.
fn read_rule(unit: &Option<EflExpr>, list: &[ReadItem], names: &Names) -> Option<TypeRule>
    ensures { (f : Table) (n : NamesSeen) → Stands f n names.now →
        result ≡ first_rule (statement_faults n (Read (expr_if_any unit.now) (map read_item_of list.now))) }
{
    let format = rule_if(!read_fit(list), TypeRule::BadFormat);
    let inner = lower(taken_rules(list, names), format);
    lower(value_if(Kind::Integer, unit, names), inner)
}
