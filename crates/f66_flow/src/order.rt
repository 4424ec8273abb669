// The first executable statement and the first DATA of a unit, and the last executable statement.
ghost use Rattle.std.specs.Prelude.{◌≡◌};
ghost use Rattle.rule_table.specs.Words.{first_place, last_place};
ghost use Rattle.f66_tree.specs.Views.{act_of};
ghost use Rattle.f66_flow.specs.Acts as acts;

use crate::forms::{is_data, is_executable};
use f66_tree::Stmt;

#[tactic(auto, using(rule_table::proofs::WordLemmas::place_steps))]
pub(crate) fn first_executable(statements: &[Stmt]) -> Option<usize>
    ensures { result ≡ first_place (λ s. acts.is_executable (act_of s.kind)) statements.now }
{
    for (i, statement) in statements.iter().enumerate() {
        if is_executable(&statement.kind) {
            return Some(i);
        }
    }
    None
}

#[tactic(auto, using(rule_table::proofs::WordLemmas::place_steps))]
pub(crate) fn first_data(statements: &[Stmt]) -> Option<usize>
    ensures { result ≡ first_place (λ s. acts.is_data (act_of s.kind)) statements.now }
{
    for (i, statement) in statements.iter().enumerate() {
        if is_data(&statement.kind) {
            return Some(i);
        }
    }
    None
}

#[tactic(auto, using(rule_table::proofs::WordLemmas::place_steps))]
pub(crate) fn last_executable(statements: &[Stmt]) -> Option<usize>
    ensures { result ≡ last_place (λ s. acts.is_executable (act_of s.kind)) statements.now }
{
    let mut last = None;
    for (i, statement) in statements.iter().enumerate() {
        if is_executable(&statement.kind) {
            last = Some(i);
        }
    }
    last
}
