// The clauses of a switch.
ghost use Rattle.std.specs.Prelude.{◌≡◌, ◌||◌, ◌++◌, not, cond, true, false, Bool, ℤ, IfOk, OnOk, List, []};
ghost use Rattle.std.specs.HashSet.{contains};
ghost use Rattle.std.specs.Ordering.{int_eq};
ghost use Rattle.efl_types.specs.Statements.{clause_faults};
ghost use Rattle.efl_expressions.specs.FirstRule.{first_rule};
ghost use Rattle.efl_statements.specs.Clauses.{Has, Adds, AreChosen};

use crate::truths::{are_both, is_either};
use efl_expressions::rule_if;
use efl_types::TypeRule;
use std::alloc::{AllocError, Global};
use std::collections::HashSet;

/// The constants of the clauses before, and whether one of these was the default. Contracts see by `AreChosen` which they are.
#[derive(Drop)]
pub struct Chosen {
    pub constants: HashSet<i64>,
    pub has_default: bool,
}

impl Chosen {
    /// No clauses. It takes no memory.
    pub fn new(alloc: Global) -> Chosen
        ensures { AreChosen [] false result }
    {
        Chosen {
            constants: HashSet::new(alloc),
            has_default: false,
        }
    }
}

/// What a clause breaks that comes with its constants, and maybe as the default.
pub fn clause_rule(
    chosen: &mut Chosen,
    constants: &[i64],
    is_default: bool,
) -> Result<Option<TypeRule>, AllocError>
    ensures first { IfOk result (λ rule. (before : List ℤ) (seen : Bool) → AreChosen before seen chosen.old → rule ≡ first_rule (clause_faults constants.now is_default before seen)) }
    ensures chosen { OnOk result ((before : List ℤ) (seen : Bool) → AreChosen before seen chosen.old → AreChosen (before ++ constants.now) (seen || is_default) chosen.new) }
{
    let again = add_all(&mut chosen.constants, constants)?;
    let twice = are_both(is_default, chosen.has_default);
    let broken = is_either(again, twice);
    let seen = is_either(chosen.has_default, is_default);
    chosen.has_default = seen;
    Ok(rule_if(broken, TypeRule::DuplicateCase))
}

/// Constants come: whether one was there before it.
fn add_all(chosen: &mut HashSet<i64>, constants: &[i64]) -> Result<bool, AllocError>
    ensures { IfOk result (λ again. (before : List ℤ) → Has before chosen.old → Adds before constants.now chosen.new again) }
{
    let mut again = false;
    for constant in constants {
        let is_new = add(chosen, constant)?;
        again = is_either(again, !is_new);
    }
    Ok(again)
}

/// A constant comes: whether it was not there.
fn add(chosen: &mut HashSet<i64>, constant: &i64) -> Result<bool, AllocError>
    ensures added { IfOk result (λ added. added ≡ not (contains int_eq chosen.old constant.now)) }
    ensures updates { IfOk result (λ added. (q : ℤ) → contains int_eq chosen.new q ≡ cond (int_eq constant.now q) true (contains int_eq chosen.old q)) }
{
    Ok(chosen.insert(*constant)?)
}
