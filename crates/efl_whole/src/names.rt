// The names of procedures, and how many are the main.
ghost use Rattle.std.specs.Prelude.{◌≡◌, ◌||◌, [], map, is_none, is_some};
ghost use Rattle.efl_tree.specs.Syntax.{Text};
ghost use Rattle.efl_tree.specs.Views.{procedure_of, stmts_of};
ghost use Rattle.efl_types.specs.Whole.{number_of, begins_at as begins_at_seen, mains, main_fault as main_fault_seen, first_taken as first_taken_seen};
ghost use Rattle.rule_table.specs.Words.{is_below as is_below_seen};
ghost use Rattle.efl_types.specs.Signatures.{known as known_seen};
ghost use Rattle.efl_whole.specs.CallViews.{numbers_of};
ghost use Rattle.efl_whole.specs.Names.{takes_name, taken_from, main_behind};

use crate::numbers::Numbers;
use efl_expressions::known;
use efl_tree::{EflName, EflProcedure, EflStmt};
use ground::Place;
use rule_table::is_below;

/// Where the first procedure stands that has the name of an earlier one or of an intrinsic function.
pub fn first_taken(numbers: &Numbers, procedures: &[EflProcedure]) -> Option<Place>
    requires { (x : Text) → numbers_of numbers.now x ≡ number_of (map procedure_of procedures.now) x }
    ensures { result ≡ first_taken_seen [] (map procedure_of procedures.now) }
{
    taken(&*numbers, procedures)
}

fn taken(numbers: &Numbers, procedures: &[EflProcedure]) -> Option<Place>
    ensures { result ≡ taken_from (numbers_of numbers.now) 0 (map procedure_of procedures.now) }
{
    for (number, procedure) in procedures.iter().enumerate() {
        if is_taken(&*numbers, number, &procedure.name) {
            return Some(procedure.place);
        }
    }
    None
}

fn is_taken(numbers: &Numbers, number: usize, name: &Option<EflName>) -> bool
    ensures { result ≡ takes_name (numbers_of numbers.now) number name.now }
{
    match name {
        None => false,
        Some(name) => is_name_taken(numbers, number, name.as_bytes()),
    }
}

fn is_name_taken(numbers: &Numbers, number: usize, name: &[u8]) -> bool
    ensures { result ≡ (is_below_seen number (numbers_of numbers.now name.now) || is_some (known_seen name.now)) }
{
    is_below(number, numbers.number(name)) || is_intrinsic(name)
}

fn is_intrinsic(name: &[u8]) -> bool
    ensures { result ≡ is_some (known_seen name.now) }
{
    match known(name) {
        None => false,
        Some(_) => true,
    }
}

/// Where the second main begins, or where a text without a main ends.
pub fn main_fault(procedures: &[EflProcedure], finish: Place) -> Option<Place>
    ensures { result ≡ main_fault_seen finish (mains (map procedure_of procedures.now)) }
{
    let mut found = false;
    for procedure in procedures {
        if is_main(&procedure.name) {
            if found {
                return Some(begins_at(&procedure.body, procedure.finish));
            }
            found = true;
        }
    }
    if found { None } else { Some(finish) }
}

fn is_main(name: &Option<EflName>) -> bool
    ensures { result ≡ is_none name.now }
{
    match name {
        None => true,
        Some(_) => false,
    }
}

/// The place of the first statement, or of `end`.
fn begins_at(body: &[EflStmt], finish: Place) -> Place
    ensures { result ≡ begins_at_seen (stmts_of body.now) finish }
{
    match body.first() {
        None => finish,
        Some(statement) => statement.place,
    }
}
