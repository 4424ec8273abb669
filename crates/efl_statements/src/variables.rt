// The variables of one type.
ghost use Rattle.std.specs.Prelude.{◌≡◌, IfOk, OnOk};
ghost use Rattle.std.specs.Str.{bytes_eq};
ghost use Rattle.efl_tree.specs.Views.{var_of, vars_of};
ghost use Rattle.efl_scope.specs.DataTypes.{DataType};
ghost use Rattle.efl_scope.specs.ScopeRules.{holds};
ghost use Rattle.efl_types.specs.Declarations.{size_faults, variable_sizes};
ghost use Rattle.efl_scoped.specs.Numbers.{Grows};
ghost use Rattle.efl_scoped.specs.Told.{Tells};
ghost use Rattle.efl_scoped.specs.Seen.{table_of};
ghost use Rattle.efl_expressions.specs.FirstRule.{first_rule};

use crate::sizes::size_rule;
use efl_expressions::lower;
use efl_scoped::{Pairs, Summary, bounded};
use efl_tree::{EflName, EflVar};
use efl_types::TypeRule;
use std::alloc::AllocError;

/// What variables of one type break by their bounds, some of them formals, where this is told of the type.
pub fn variables_rule(
    formals: &[EflName],
    kind: Summary,
    list: &[EflVar],
    numbers: &mut Pairs,
) -> Result<Option<TypeRule>, AllocError>
    ensures kept { OnOk result (Grows (table_of numbers.old) (table_of numbers.new)) }
    ensures first { IfOk result (λ rule. (t : DataType) → Tells (table_of numbers.old) t kind → rule ≡ first_rule (variable_sizes formals.now t (vars_of list.now))) }
{
    let mut rule = None;
    for variable in list {
        let own = variable_rule(formals, kind, variable, numbers)?;
        rule = lower(rule, own);
    }
    Ok(rule)
}

fn variable_rule(
    formals: &[EflName],
    kind: Summary,
    variable: &EflVar,
    numbers: &mut Pairs,
) -> Result<Option<TypeRule>, AllocError>
    ensures kept { OnOk result (Grows (table_of numbers.old) (table_of numbers.new)) }
    ensures first { IfOk result (λ rule. (t : DataType) → Tells (table_of numbers.old) t kind →
        rule ≡ first_rule (size_faults (holds formals.now variable.now.name) t (var_of variable.now))) }
{
    let told = bounded(kind, &variable.bounds, numbers)?;
    let is_formal = is_among(formals, variable.name.as_bytes());
    Ok(size_rule(is_formal, &variable.bounds, told))
}

/// Whether a name is one of these.
fn is_among(names: &[EflName], name: &[u8]) -> bool
    ensures { result ≡ holds names.now name.now }
{
    names.iter().any(|other| is_same(name, other.as_bytes()))
}

fn is_same(one: &[u8], other: &[u8]) -> bool
    ensures { result ≡ bytes_eq one.now other.now }
{
    one == other
}
