// The constants of a clause.
ghost use Rattle.std.specs.Prelude.{◌≡◌, IfOk, OnOk};
ghost use Rattle.f66_tree.specs.declared.expression.Operator.TheVariants.{Eq};
ghost use Rattle.f66_tree.specs.Syntax.{Pair as PairOf};
ghost use Rattle.f66_tree.specs.Views.{formula_of};
ghost use Rattle.efl_routes.specs.Statements.{signed};
ghost use Rattle.efl_emit.specs.Names.{emission_of, made_of, operand_of};
ghost use Rattle.efl_emit.specs.Cases.{Tests, ring_of_cases};
ghost use Rattle.efl_emit.specs.Words.{LeavesOne};

use crate::{Emitter, Naming, Operand, operand_expr, put_choice};
use f66_tree::{Expr, Operator, paired};
use ground::Place;
use std::alloc::{AllocError, Global};

/// The least constant of a clause.
const LEAST: i64 = -2_147_483_647;

/// Jumps to a label where none of a clause's constants is the value.
pub fn emit_cases(
    out: &mut Emitter,
    naming: &Naming,
    place: Place,
    value: Operand,
    tests: &[i64],
    others: u32,
) -> Result<(), AllocError>
    ensures { OnOk result (LeavesOne (made_of naming.now) (ring_of_cases naming.now place (operand_of value) tests.now) others (emission_of out.old) (emission_of out.new)) }
{
    let found = out.fresh_label(naming)?;
    put_tests(out, place, value, tests, found)?;
    out.put_jump(place, others)?;
    out.put_here(place, found)
}

// A jump for each constant, where it is the value.
fn put_tests(
    out: &mut Emitter,
    place: Place,
    value: Operand,
    tests: &[i64],
    found: u32,
) -> Result<(), AllocError>
    ensures { OnOk result (Tests place (operand_of value) tests.now found (emission_of out.old) (emission_of out.new)) }
{
    for test in tests {
        let equal = equal_to(out.alloc(), value, *test)?;
        put_choice(out, place, equal, found)?;
    }
    Ok(())
}

// That a value is this constant.
fn equal_to(alloc: Global, value: Operand, test: i64) -> Result<Expr, AllocError>
    ensures { IfOk result (λ e. formula_of e ≡ PairOf Eq (operand_of value) (signed test)) }
{
    let value = operand_expr(value)?;
    let test = signed(alloc, test)?;
    paired(alloc, Operator::Eq, value, test)
}

// A constant, below zero with a sign of its own.
fn signed(alloc: Global, constant: i64) -> Result<Expr, AllocError>
    ensures { IfOk result (λ e. formula_of e ≡ signed constant) }
{
    if LEAST <= constant && constant < 0 {
        Ok(Expr::Minus(Box::new(alloc, Expr::Int(-constant))?))
    } else {
        Ok(Expr::Int(constant))
    }
}
