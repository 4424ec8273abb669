// The numbers of the plans of a unit's formats.
ghost use Rattle.std.specs.Prelude.{◌≡◌, ◌+◌, ℕ, nat_eq, Option, IfOk, OnOk};
ghost use Rattle.std.specs.HashMap.{get};
ghost use Rattle.std.specs.Option.{option_or};
ghost use Rattle.f66_tree.specs.Views.{act_of, lines_of};
ghost use Rattle.code_emit.specs.Plans.{find_plan, format_count, formats_count, plan_by};

use crate::rooms::plus;
use f66_tree::{Stmt, StmtKind};
use rule_table::note_number;
use std::alloc::{AllocError, Global};
use std::collections::HashMap;

/// The numbers of a unit's formats by their labels, and that of the next unit's first format.
#[derive(Drop)]
pub struct Plans {
    pub numbers: HashMap<u32, u32>,
    pub end: u32,
}

/// The plans of the formats among some statements, of which the first has this number.
pub fn plans_of(alloc: Global, statements: &[Stmt], first: u32) -> Result<Plans, AllocError>
    ensures numbers { IfOk result (λ plans. (l : ℕ) → get nat_eq plans.numbers l ≡ find_plan l first (lines_of statements.now)) }
    ensures end { IfOk result (λ plans. plans.end ≡ first + formats_count (lines_of statements.now)) }
{
    let mut numbers = HashMap::new(alloc);
    let mut end = first;
    for statement in statements {
        end = note_format(&mut numbers, statement, end)?;
    }
    Ok(Plans { numbers, end })
}

/// Notes a statement that is a format, with its number; the number of the next format.
fn note_format(
    numbers: &mut HashMap<u32, u32>,
    statement: &Stmt,
    number: u32,
) -> Result<u32, AllocError>
    ensures next { IfOk result (λ n. n ≡ number + format_count (act_of statement.now.kind)) }
    ensures noted { OnOk result ((l : ℕ) (other : Option ℕ) →
        option_or (get nat_eq numbers.new l) other ≡ option_or (get nat_eq numbers.old l) (plan_by l statement.now.label (act_of statement.now.kind) number other)) }
{
    let StmtKind::Format(_) = statement.kind else {
        return Ok(number);
    };
    if let Some(label) = statement.label {
        note_number(numbers, label, number)?;
    }
    plus(number, 1)
}
