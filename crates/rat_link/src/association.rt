// The association of a unit.
ghost use Rattle.std.specs.Prelude.{◌≡◌, OnOk, IfErr};
ghost use Rattle.std.specs.List.{list_any};
ghost use Rattle.f66_tree.specs.Views.{act_of, routine_of};
ghost use Rattle.f66_program.specs.Association.{IsBadUnit};
ghost use Rattle.storage_assoc.specs.Associating.{IsBadFault};
ghost use Rattle.storage_assoc.specs.Naming.{IsReady};
ghost use Rattle.rat_link.specs.Linking.{IsRefusalBy, is_limit_refusal};
ghost use Rattle.rat_link.specs.Ties.{is_tying};

use f66_tree::{Stmt, StmtKind, Unit};
use ground::{FaultKind, Refusal};
use std::alloc::Global;
use storage_assoc::associate;

/// Whether COMMON and EQUIVALENCE of a unit agree with one another; else BadEquivalence at the first statement up to which they do not
/// (X3.9-1966, sections 7.2.1.3 and 7.2.1.4). `said` is what the unit says.
// The limit on storage is that of all units together, and is asked of them.
pub fn check_association(alloc: Global, said: &Unit) -> Result<(), Refusal>
    requires ready { IsReady (routine_of said.now) }
    ensures well { OnOk result (¬ IsBadUnit (routine_of said.now)) }
    ensures refused { IfErr result (IsRefusalBy (IsBadFault (routine_of said.now))) }
{
    if !has_ties(&said.statements) {
        return Ok(());
    }
    if let Err(refusal) = associate(alloc, said) {
        if is_limit(&refusal) {
            return Ok(());
        }
        return Err(refusal);
    }
    Ok(())
}

/// Whether a statement is a COMMON or an EQUIVALENCE.
fn has_ties(statements: &[Stmt]) -> bool
    ensures { result ≡ list_any (λ s. is_tying (act_of s.kind)) statements.now }
{
    statements.iter().any(|s| is_tying(&s.kind))
}

fn is_tying(kind: &StmtKind) -> bool
    ensures { result ≡ is_tying (act_of kind.now) }
{
    matches!(kind, StmtKind::Common(_) | StmtKind::Equivalence(_))
}

fn is_limit(refusal: &Refusal) -> bool
    ensures { result ≡ is_limit_refusal refusal.now }
{
    match refusal {
        Refusal::Fault(fault) => matches!(fault.kind, FaultKind::Limit),
        Refusal::Memory => false,
    }
}
