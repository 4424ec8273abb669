// Places: a name with what is in its parentheses, and the steps behind it.
ghost use Rattle.std.specs.Prelude.{◌≡◌, ◌++◌, ◌&&◌, not, List};
ghost use Rattle.efl_tree.specs.Syntax.{Text, EflExprs, EflSteps, Path, Member, Overlay};
ghost use Rattle.efl_tree.specs.Views.{exprs_of, steps_of};
ghost use Rattle.efl_scope.specs.DataTypes.{DataType as TypeSeen};
ghost use Rattle.efl_types.specs.Signatures.{Names as NamesSeen, many};
ghost use Rattle.efl_types.specs.Types.{named_type, member_type, ends};
ghost use Rattle.efl_types.specs.Expressions.{when, has_subscripts, takes_subscripts as takes_subscripts_seen, subscript_faults, faults_of_all};
ghost use Rattle.efl_types.specs.declared.rule.TypeRule.TheVariants.{WrongCount};
ghost use Rattle.efl_scoped.specs.Numbers.{Table};
ghost use Rattle.efl_expressions.specs.declared.types.Structure as structures;
ghost use Rattle.efl_expressions.specs.TypeViews.{IsType};
ghost use Rattle.efl_expressions.specs.FirstRule.{first_rule};
ghost use Rattle.efl_places.specs.declared.places.Named as nameds;
ghost use Rattle.efl_places.specs.declared.places.Reached as reacheds;
ghost use Rattle.efl_names.specs.NameViews.{Stands};
ghost use Rattle.efl_places.specs.Checks.{IsNamed, IsReached, IsPlaced, GoesOn};

use efl_expressions::{DataType, Structures, form, has_member, lower, rule_if, takes_subscripts};
use efl_names::Names;
use efl_tree::{EflExpr, EflStep};
use efl_types::TypeRule;

/// What the check of a place tells: its type, whether it is a call, whether its last part has subscripts, and the first rule that it
/// breaks.
#[derive(Clone, Copy, Drop)]
pub struct Placed<'a> {
    pub kind: DataType<'a>,
    pub is_call: bool,
    pub is_subscripted: bool,
    pub rule: Option<TypeRule>,
}

/// What the check of a name tells, with what is in its parentheses.
#[derive(Clone, Copy, Drop)]
pub struct Named<'a> {
    pub kind: DataType<'a>,
    pub is_call: bool,
    pub rule: Option<TypeRule>,
}

/// Where steps have led: a type, whether subscripts stand right before, and the first rule that was broken.
#[derive(Clone, Copy, Drop)]
pub struct Reached<'a> {
    pub kind: DataType<'a>,
    pub is_subscripted: bool,
    pub rule: Option<TypeRule>,
}

/// What a wrong count of subscripts breaks.
pub fn count_rule(kind: &DataType, count: usize) -> Option<TypeRule>
    ensures { (f : Table) (ss : List structures.Structure) (t : TypeSeen) (es : EflExprs) → IsType f ss t kind.now → count ≡ many es →
        result ≡ first_rule (when (has_subscripts es && not (takes_subscripts_seen t (many es))) WrongCount) }
{
    if count == 0 {
        return None;
    }
    rule_if(!takes_subscripts(kind, count), TypeRule::WrongCount)
}

/// A step to a member, whose so many subscripts break this rule.
pub fn entered<'a>(
    structures: &Structures<'a>,
    at: &Reached<'a>,
    member: &DataType<'a>,
    count: usize,
    inner: Option<TypeRule>,
) -> Reached<'a>
    ensures { (f : Table) (n : NamesSeen) (t : TypeSeen) (x : Text) (es : EflExprs) (rest : EflSteps) →
        IsType f structures.now.list.items t at.now.kind → IsType f structures.now.list.items (member_type x t) member.now → count ≡ many es →
        inner ≡ first_rule (subscript_faults n (member_type x t) es ++ faults_of_all n es) →
        GoesOn f structures.now.list.items n t at.now (Member x es rest) rest result }
{
    let is_there = has_member(form(&at.kind), form(member));
    let clash = rule_if(!is_there, TypeRule::TypeClash);
    Reached {
        kind: structures.subscripted(member, count),
        is_subscripted: count != 0,
        rule: lower(at.rule, lower(clash, inner)),
    }
}

/// A step to a structure that begins there.
pub fn laid_over<'a>(name: &[u8], names: &Names<'_, 'a>, at: &Reached<'a>) -> Reached<'a>
    ensures { (f : Table) (n : NamesSeen) (t : TypeSeen) (rest : EflSteps) → Stands f n names.now →
        IsType f names.now.structures.now.list.items t at.now.kind →
        GoesOn f names.now.structures.now.list.items n t at.now (Overlay name.now rest) rest result }
{
    let structure = names.structure(name);
    let lies = names.structures.may_lie(&at.kind, &structure);
    Reached {
        kind: structure,
        is_subscripted: false,
        rule: lower(at.rule, rule_if(!lies, TypeRule::TypeClash)),
    }
}

/// A place whose steps have led here. No step stands behind a call.
pub fn at_end<'a>(is_call: bool, is_end: bool, last: Reached<'a>) -> Placed<'a>
    ensures { (f : Table) (ss : List structures.Structure) (n : NamesSeen) (x : Text) (es : EflExprs) (steps : EflSteps) (name : nameds.Named) (start : reacheds.Reached) →
        IsNamed f ss n x es name → name.is_call ≡ is_call → ends steps ≡ is_end → start.rule ≡ name.rule → has_subscripts es ≡ start.is_subscripted →
        IsReached f ss n (named_type n x es) start steps last.entry → IsPlaced f ss n (Path x es steps) result }
{
    Placed {
        kind: last.kind,
        is_call: are_both(is_call, is_end),
        is_subscripted: last.is_subscripted,
        rule: lower(
            rule_if(are_both(is_call, !is_end), TypeRule::TypeClash),
            last.rule,
        ),
    }
}

fn are_both(one: bool, other: bool) -> bool
    ensures { result ≡ (one && other) }
{
    one && other
}

/// Whether something stands in parentheses.
pub fn are_some(list: &[EflExpr]) -> bool
    ensures { has_subscripts (exprs_of list.now) ≡ result }
{
    !list.is_empty()
}

/// Whether no step comes.
pub fn are_none(steps: &[EflStep]) -> bool
    ensures { ends (steps_of steps.now) ≡ result }
{
    steps.is_empty()
}
