// Where the places of a program's procedures pass the limit.
ghost use Rattle.std.specs.Prelude.{◌≡◌, map};
ghost use Rattle.efl_tree.specs.Views.{procedure_of, stmts_of};
ghost use Rattle.efl_types.specs.Whole.{begins_at as begins_at_seen};
ghost use Rattle.efl_storage.specs.Counted.{passed_by};

use efl_tree::{EflProcedure, EflStmt};
use ground::{Fault, Place};

/// How many places the variables of a program may have.
const LIMIT: u64 = 1_000_000;

/// The number of this limit.
const STORAGE: u64 = 8;

/// The fault at the first procedure that passes the limit, with those before it.
pub fn passed(places: &[u64], procedures: &[EflProcedure]) -> Option<Fault>
    ensures { result ≡ passed_by places.now 0 0 (map procedure_of procedures.now) }
{
    let mut sum: u64 = 0;
    for (unit, procedure) in procedures.iter().enumerate() {
        sum = sum.saturating_add(places.get(unit).copied().unwrap_or(0));
        if sum > LIMIT {
            return Some(Fault::limit(begins_at(&procedure.body, procedure.finish), STORAGE));
        }
    }
    None
}

/// The place of the first statement, or of `end`.
fn begins_at(body: &[EflStmt], finish: Place) -> Place
    ensures { result ≡ begins_at_seen (stmts_of body.now) finish }
{
    match body.first() {
        None => finish,
        Some(statement) => statement.place,
    }
}
