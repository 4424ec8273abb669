// Where the code of each statement stands in its unit, and how long the code of a unit is.
ghost use Rattle.std.specs.Prelude.{◌≡◌, IfOk};
ghost use Rattle.f66_tree.specs.Views.{act_of, entries_of, formulas_of, line_of, par_of};
ghost use Rattle.code_gen.specs.Statements.{unit_size};
ghost use Rattle.code_emit.specs.Places.{size_at, starts};
ghost use Rattle.code_emit.specs.Sizes.{act_size, actuals_size, invoked_size, record_size};
ghost use Rattle.code_emit.specs.Turns.{AreNoted};

use crate::body::is_note;
use crate::coded_unit::NamedUnit;
use crate::counting::Counting;
use crate::labels::Labels;
use crate::prologue::prologue_size;
use crate::rooms::plus;
use crate::sizes::{actuals_size, counting_size, list_size, par_size, place_size, value_size};
use crate::turns::size_of_turns;
use f66_tree::{Entry, Expr, Name, Par, Stmt, StmtKind};
use std::alloc::{AllocError, Global};

fn record_size<U: NamedUnit>(unit: &U, par: &Par, list: &[Entry]) -> Result<u32, AllocError>
    ensures { IfOk result (λ n. n ≡ record_size (U.layout unit.now) (U.number unit.now) (par_of par.now) (entries_of list.now)) }
{
    let size = list_size(unit, list)?;
    let both = plus(par_size(par), size)?;
    plus(both, 2)
}

fn invoked_size<U: NamedUnit>(unit: &U, name: &Name, list: &[Expr]) -> Result<u32, AllocError>
    ensures { IfOk result (λ n. n ≡ invoked_size ((U.layout unit.now).linked.find name.now) (actuals_size (U.layout unit.now) (U.number unit.now) (formulas_of list.now))) }
{
    match unit.callee(name) {
        None => Ok(0),
        Some(_) => {
            let size = actuals_size(unit, list)?;
            plus(size, 1)
        }
    }
}

/// How long the code of a statement is behind its Begin.
fn act_size<U: NamedUnit>(unit: &U, kind: &StmtKind) -> Result<u32, AllocError>
    ensures { IfOk result (λ n. n ≡ act_size (U.layout unit.now) (U.number unit.now) (act_of kind.now)) }
{
    match kind {
        StmtKind::Assign(target, value) => {
            let place = place_size(unit, target)?;
            let size = value_size(unit, value)?;
            let both = plus(place, size)?;
            plus(both, 1)
        }
        StmtKind::Goto(_) => Ok(1),
        StmtKind::Computed(_, _) => Ok(3),
        StmtKind::Sign(e, _, _, _) => {
            let size = value_size(unit, e)?;
            plus(size, 1)
        }
        StmtKind::When(test, inner) => {
            let size = value_size(unit, test)?;
            let rest = act_size(unit, inner)?;
            let both = plus(size, rest)?;
            plus(both, 2)
        }
        StmtKind::Loop(_, counted) => {
            let f66_tree::Counting {
                variable,
                first,
                last,
                step,
            } = &**counted;
            let counting = Counting {
                variable,
                first,
                last,
                step,
            };
            Ok(counting_size(counting))
        }
        StmtKind::Invoke(name, list) => invoked_size(unit, name, list),
        StmtKind::Stop(_) => Ok(1),
        StmtKind::Return => Ok(1),
        StmtKind::Read(par, _, list) => record_size(unit, par, list),
        StmtKind::Write(par, _, list) => record_size(unit, par, list),
        _ => Ok(0),
    }
}

/// How long the code of a statement is.
fn statement_size<U: NamedUnit>(
    unit: &U,
    labels: &Labels<'_>,
    statement: &Stmt,
) -> Result<u32, AllocError>
    requires { AreNoted labels.now.turns 0 ((U.layout unit.now).lines (U.number unit.now)) }
    ensures { IfOk result (λ n. n ≡ size_at (U.layout unit.now) (U.number unit.now) (line_of statement.now)) }
{
    if is_note(&statement.kind) {
        return Ok(0);
    }
    let act = act_size(unit, &statement.kind)?;
    let turns = size_of_turns(unit, labels.ending(statement))?;
    let both = plus(act, turns)?;
    plus(both, 1)
}

/// How far behind its entry the code of each statement of a unit begins, and the end of their code; and how long the unit's code is.
#[derive(Drop)]
pub struct Places {
    pub starts: Vec<u32>,
    pub size: u32,
}

/// Where the code of a unit's statements stands, wherever the unit is entered.
pub fn places_of<U: NamedUnit>(
    alloc: Global,
    unit: &U,
    labels: &Labels<'_>,
) -> Result<Places, AllocError>
    requires { AreNoted labels.now.turns 0 ((U.layout unit.now).lines (U.number unit.now)) }
    ensures starts { IfOk result (λ places. places.starts.items ≡ starts (U.layout unit.now) (U.number unit.now)) }
    ensures size { IfOk result (λ places. places.size ≡ unit_size (U.layout unit.now) (U.number unit.now)) }
{
    let statements = unit.statements();
    let mut starts = Vec::new(alloc);
    let first = prologue_size(unit)?;
    let mut at = first;
    for statement in statements {
        starts.push(at)?;
        let long = statement_size(unit, labels, statement)?;
        at = plus(at, long)?;
    }
    starts.push(at)?;
    let size = plus(at, 1)?;
    Ok(Places { starts, size })
}
