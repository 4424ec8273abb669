// The code of the statements of a unit.
ghost use Rattle.std.specs.Prelude.{◌≡◌, ◌+◌, ◌++◌, ◌∷◌, OnOk, drop, length};
ghost use Rattle.f66_tree.specs.Units as units;
ghost use Rattle.f66_tree.specs.Views.{act_of, line_of};
ghost use Rattle.stack_code.specs.Instructions.{Begin};
ghost use Rattle.stack_code.specs.Views.{code_of};
ghost use Rattle.code_gen.specs.Statements.{act_code, body_code, body_size, enders, line_size, stop, turns_code, turns_place};

use crate::acts::put_leave;
use crate::coded_unit::CodedUnit;
use crate::operators::put;
use crate::statements::{Stand, put_act};
use crate::turns::{count_from, put_turns, size_of_turns};
use f66_tree::{Stmt, StmtKind};
use stack_code::Op;
use std::alloc::{AllocError, Global};

/// Whether a statement is one that is not executed.
pub(crate) fn is_note(kind: &StmtKind) -> bool
    ensures { result ≡ units.is_note (act_of kind.now) }
{
    matches!(
        kind,
        StmtKind::Format(_)
            | StmtKind::Typed(_, _)
            | StmtKind::Dimension(_)
            | StmtKind::Common(_)
            | StmtKind::Equivalence(_)
            | StmtKind::Preset(_)
    )
}

/// Puts the code of a statement that is executed, of which the next one has this number.
fn put_executed<U: CodedUnit>(
    alloc: Global,
    unit: &U,
    ops: &mut Vec<Op>,
    statement: &Stmt,
    behind: usize,
) -> Result<(), AllocError>
    requires { length ops.old.items + (line_size (U.layout unit.now) (U.number unit.now) (line_of statement.now) + body_size (U.layout unit.now) (U.number unit.now) (drop behind ((U.layout unit.now).lines (U.number unit.now)))) ≡ stop (U.layout unit.now) (U.number unit.now) }
    ensures { OnOk result (code_of ops.new.items ≡ code_of ops.old.items ++ (Begin statement.now.place ∷ (act_code (U.layout unit.now) (U.number unit.now) (length (drop behind ((U.layout unit.now).lines (U.number unit.now)))) (turns_place (U.layout unit.now) (U.number unit.now) (line_of statement.now) (drop behind ((U.layout unit.now).lines (U.number unit.now)))) statement.now.place (act_of statement.now.kind) ++ turns_code (U.layout unit.now) (U.number unit.now) (enders (U.layout unit.now) (U.number unit.now) (line_of statement.now))))) }
{
    let turns = unit.turns(statement);
    let size = size_of_turns(unit, turns)?;
    let key = count_from(unit, behind)?;
    let after = unit.place(behind);
    let next = after - size;
    let place = statement.place;
    let stand = Stand { key, next, place };
    put(ops, Op::Begin(place))?;
    put_act(alloc, unit, ops, stand, &statement.kind)?;
    put_turns(unit, ops, turns)
}

/// Puts the code of a statement, of which the next one has this number.
fn put_statement<U: CodedUnit>(
    alloc: Global,
    unit: &U,
    ops: &mut Vec<Op>,
    statement: &Stmt,
    behind: usize,
) -> Result<(), AllocError>
    requires { length ops.old.items + body_size (U.layout unit.now) (U.number unit.now) (line_of statement.now ∷ drop behind ((U.layout unit.now).lines (U.number unit.now))) ≡ stop (U.layout unit.now) (U.number unit.now) }
    ensures size { OnOk result (length ops.new.items + body_size (U.layout unit.now) (U.number unit.now) (drop behind ((U.layout unit.now).lines (U.number unit.now))) ≡ stop (U.layout unit.now) (U.number unit.now)) }
    ensures code { OnOk result (code_of ops.new.items ++ body_code (U.layout unit.now) (U.number unit.now) (drop behind ((U.layout unit.now).lines (U.number unit.now))) ≡ code_of ops.old.items ++ body_code (U.layout unit.now) (U.number unit.now) (line_of statement.now ∷ drop behind ((U.layout unit.now).lines (U.number unit.now)))) }
{
    if is_note(&statement.kind) {
        return Ok(());
    }
    put_executed(alloc, unit, ops, statement, behind)
}

/// Puts the code of a unit's statements.
pub(crate) fn put_body<U: CodedUnit>(
    alloc: Global,
    unit: &U,
    ops: &mut Vec<Op>,
) -> Result<(), AllocError>
    requires { length ops.old.items + body_size (U.layout unit.now) (U.number unit.now) ((U.layout unit.now).lines (U.number unit.now)) ≡ stop (U.layout unit.now) (U.number unit.now) }
    ensures { OnOk result (code_of ops.new.items ≡ code_of ops.old.items ++ body_code (U.layout unit.now) (U.number unit.now) ((U.layout unit.now).lines (U.number unit.now))) }
{
    let statements = unit.statements();
    let mut behind = 0;
    for statement in statements {
        behind += 1;
        put_statement(alloc, unit, ops, statement, behind)?;
    }
    put_leave(unit, ops)
}
