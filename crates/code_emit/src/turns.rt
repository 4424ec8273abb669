// The code of the turns of DO loops, behind the statement at which they end.
ghost use Rattle.std.specs.Prelude.{◌≡◌, ◌++◌, ◌∷◌, [], IfOk, OnOk, drop, length, map};
ghost use Rattle.stack_code.specs.Views.{code_of};
ghost use Rattle.code_gen.specs.Statements.{turns_code, turns_size};
ghost use Rattle.code_emit.specs.Turns.{closer_in};

use crate::acts::limit_of;
use crate::coded_unit::{CodedUnit, NamedUnit, Turn};
use crate::operators::put;
use crate::rooms::plus;
use crate::variables::put_base;
use stack_code::Op;
use std::alloc::AllocError;

/// How many statements there are from one on.
pub(crate) fn count_from<U: NamedUnit>(unit: &U, statement: usize) -> Result<u32, AllocError>
    ensures { IfOk result (λ n. n ≡ length (drop statement ((U.layout unit.now).lines (U.number unit.now)))) }
{
    let count = unit.statements().len().saturating_sub(statement);
    match u32::try_from(count) {
        Ok(count) => Ok(count),
        Err(_) => Err(AllocError),
    }
}

/// How many instructions turns have.
pub(crate) fn size_of_turns<U: NamedUnit>(unit: &U, turns: &[Turn<'_>]) -> Result<u32, AllocError>
    ensures { IfOk result (λ n. n ≡ turns_size (map (closer_in ((U.layout unit.now).lines (U.number unit.now))) turns.now)) }
{
    match u32::try_from(turns.len()) {
        Ok(count) => plus(count, count),
        Err(_) => Err(AllocError),
    }
}

fn put_turn<U: CodedUnit>(unit: &U, ops: &mut Vec<Op>, turn: &Turn<'_>) -> Result<(), AllocError>
    ensures { OnOk result (code_of ops.new.items ≡ code_of ops.old.items ++ turns_code (U.layout unit.now) (U.number unit.now) (closer_in ((U.layout unit.now).lines (U.number unit.now)) turn.now ∷ [])) }
{
    let key = count_from(unit, turn.behind)?;
    let limit = limit_of(unit, key)?;
    let step = plus(limit, 1)?;
    put_base(unit, ops, turn.variable)?;
    put(ops, Op::LoopTurn(limit, step, unit.place(turn.behind)))
}

/// Puts the code of turns.
pub(crate) fn put_turns<U: CodedUnit>(
    unit: &U,
    ops: &mut Vec<Op>,
    turns: &[Turn<'_>],
) -> Result<(), AllocError>
    ensures { OnOk result (code_of ops.new.items ≡ code_of ops.old.items ++ turns_code (U.layout unit.now) (U.number unit.now) (map (closer_in ((U.layout unit.now).lines (U.number unit.now))) turns.now)) }
{
    for turn in turns {
        put_turn(unit, ops, turn)?;
    }
    Ok(())
}
