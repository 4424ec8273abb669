// The rule with the smallest number that a part of a statement breaks: a condition, a value, the words of a DO.
ghost use Rattle.std.specs.Prelude.{◌≡◌, ◌&&◌, IfOk};
ghost use Rattle.ground.specs.declared.value.Kind.TheVariants.{Integer, Logical};
ghost use Rattle.rule_table.specs.FaultRules.{first_rule};
ghost use Rattle.f66_tree.specs.Syntax.{Ref, Assign};
ghost use Rattle.f66_tree.specs.Views.{formula_of};
ghost use Rattle.f66_names.specs.ActViews.{act_said};
ghost use Rattle.f66_names.specs.DeclarationViews.{context_in, acts_in};
ghost use Rattle.f66_names.specs.Shapes.{is_name, stands};
ghost use Rattle.unit_rules.specs.Types.{assigns, clashes};
ghost use Rattle.unit_rules.specs.UnitRules.{breaks_rule};

use crate::UnitNames;
use crate::rules::broken_rule;
use crate::types::fits;
use crate::used::part_rule;
use f66_names::{
    Declarations, Saying, Use, counts, is_array, is_counting_form, is_name, may_be, stands,
};
use f66_tree::{Expr, Name};
use ground::Kind;
use rule_table::Rule;
use std::alloc::{AllocError, Global};

/// The rule with the smallest number that a statement or a part of one breaks, the i-th that the unit says, of those on names,
/// types, counts, constants and stores (X3.9-1966, sections 3.5, 5 to 8 and 10.1). A list of uses serves one saying after another.
pub fn saying_rule<'a>(
    alloc: Global,
    names: &UnitNames,
    i: usize,
    saying: &Saying<'a>,
    uses: &mut Vec<Use<'a>>,
) -> Result<Option<Rule>, AllocError>
    ensures { IfOk result
        (λ o. o ≡ first_rule (breaks_rule (context_in names.now.declarations) (acts_in names.now.declarations) i (act_said saying.now))) }
{
    let declarations = &names.declarations;
    match *saying {
        Saying::Act(kind) => broken_rule(alloc, names, i, kind, uses),
        Saying::Condition(e) => {
            let clashing = !fits(declarations, e, Kind::Logical);
            part_rule(names, saying, !stands(0, e), clashing, false, uses)
        }
        Saying::Value(e) => {
            let clashing = !fits(declarations, e, Kind::Integer);
            part_rule(names, saying, !stands(0, e), clashing, false, uses)
        }
        Saying::Counting(variable, first, last, step) => {
            let misformed = !is_counting_form(variable, first, last, step);
            let clashing = !counts(declarations, variable, first, last, step);
            let stored = is_array(declarations, variable);
            part_rule(names, saying, misformed, clashing, stored, uses)
        }
        Saying::Returned(name, e) => {
            let misformed = !is_returned_form(name, e);
            let clashing = clashes_returned(declarations, name, e);
            let stored = is_array(declarations, name);
            part_rule(names, saying, misformed, clashing, stored, uses)
        }
    }
}

fn is_returned_form(name: &Name, value: &Expr) -> bool
    ensures { result ≡ (is_name name.now && stands 0 (formula_of value.now)) }
{
    is_name(name) && stands(0, value)
}

/// Whether a function returns a value of another type than its own.
fn clashes_returned(declarations: &Declarations, name: &Name, value: &Expr) -> bool
    ensures { result ≡ clashes (context_in declarations.now) (Assign (Ref name.now) (formula_of value.now)) }
{
    !(returns(declarations, name, value, Kind::Integer)
        || returns(declarations, name, value, Kind::Logical))
}

fn returns(declarations: &Declarations, name: &Name, value: &Expr, kind: Kind) -> bool
    ensures { result ≡ assigns (context_in declarations.now) (Ref name.now) (formula_of value.now) kind }
{
    (is_array(declarations, name) || may_be(declarations, name, kind))
        && fits(declarations, value, kind)
}
