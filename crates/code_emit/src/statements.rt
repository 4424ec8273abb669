// The code of a statement, behind its Begin.
ghost use Rattle.std.specs.Prelude.{◌≡◌, ◌+◌, ◌++◌, OnOk, length};
ghost use Rattle.f66_tree.specs.Views.{act_of};
ghost use Rattle.stack_code.specs.Views.{code_of};
ghost use Rattle.code_gen.specs.Statements.{act_code, act_size};

use crate::acts::{put_assign, put_computed, put_invoke, put_leave, put_loop, put_sign, put_stop};
use crate::coded_unit::CodedUnit;
use crate::counting::Counting;
use crate::operators::put;
use crate::records::put_record;
use crate::values::put_value;
use f66_tree::{StmtKind, Way};
use ground::Place;
use stack_code::Op;
use std::alloc::{AllocError, Global};

/// A statement in its unit: how many statements stand behind it, the instruction at which it goes on, and its place.
#[derive(Clone, Copy)]
pub(crate) struct Stand {
    pub key: u32,
    pub next: u32,
    pub place: Place,
}

/// Puts the code of what a statement says.
pub(crate) fn put_act<U: CodedUnit>(
    alloc: Global,
    unit: &U,
    ops: &mut Vec<Op>,
    stand: Stand,
    kind: &StmtKind,
) -> Result<(), AllocError>
    requires { length ops.old.items + act_size (U.layout unit.now) (U.number unit.now) (act_of kind.now) ≡ stand.next }
    ensures { OnOk result (code_of ops.new.items ≡ code_of ops.old.items ++ act_code (U.layout unit.now) (U.number unit.now) stand.key stand.next stand.place (act_of kind.now)) }
{
    match kind {
        StmtKind::Assign(target, value) => put_assign(unit, ops, target, value),
        StmtKind::Goto(label) => put(ops, Op::Jump(unit.target(*label))),
        StmtKind::Computed(labels, index) => put_computed(alloc, unit, ops, labels, index),
        StmtKind::Sign(e, below, zero, above) => put_sign(unit, ops, e, *below, *zero, *above),
        StmtKind::When(test, inner) => {
            put_value(unit, ops, test)?;
            put(ops, Op::JumpFalse(stand.next))?;
            put(ops, Op::Begin(stand.place))?;
            put_act(alloc, unit, ops, stand, inner)
        }
        StmtKind::Loop(_, counted) => {
            let f66_tree::Counting {
                variable,
                first,
                last,
                step,
            } = &**counted;
            let counting = Counting {
                variable,
                first,
                last,
                step,
            };
            put_loop(unit, ops, stand.key, counting)
        }
        StmtKind::Invoke(name, list) => put_invoke(unit, ops, name, list),
        StmtKind::Stop(number) => put_stop(ops, *number),
        StmtKind::Return => put_leave(unit, ops),
        StmtKind::Read(par, label, list) => {
            put_record(unit, ops, Way::Reading, par, unit.plan(*label), list)
        }
        StmtKind::Write(par, label, list) => {
            put_record(unit, ops, Way::Writing, par, unit.plan(*label), list)
        }
        _ => Ok(()),
    }
}
