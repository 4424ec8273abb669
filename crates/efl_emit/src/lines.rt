// Single statements of FORTRAN.
ghost use Rattle.std.specs.Prelude.{◌≡◌, IfOk, OnOk};
ghost use Rattle.f66_tree.specs.Syntax.{unlabelled_line, Assign, Goto, Ref, When};
ghost use Rattle.f66_tree.specs.Views.{formula_of};
ghost use Rattle.efl_typed_tree.specs.Views.{site_of};
ghost use Rattle.efl_emit.specs.Emitted.{Puts};
ghost use Rattle.efl_emit.specs.Names.{emission_of, home_of, operand_of, temp_of};
ghost use Rattle.efl_emit.specs.Parts.{IsSet, place_formula};

use crate::{Emitter, Evaluated, Naming, Operand, operand_expr, plus, temporary};
use efl_typed_tree::Scalar;
use f66_tree::{Expr, StmtKind};
use ground::{Kind, Place};
use std::alloc::AllocError;

/// A temporary gets a value.
pub fn set_temporary(
    out: &mut Emitter,
    place: Place,
    kind: Kind,
    number: usize,
    value: Expr,
) -> Result<Evaluated, AllocError>
    ensures { IfOk result (λ r. IsSet place kind number (formula_of value) r (emission_of out.old) (emission_of out.new)) }
{
    let next = plus(number, 1)?;
    let name = temporary(kind, number);
    out.put(place, StmtKind::Assign(Expr::Ref(name), value))?;
    let operand = Operand::Temp(kind, number);
    Ok(Evaluated { operand, next })
}

/// The value of a variable goes into a temporary.
pub fn load(
    out: &mut Emitter,
    naming: &Naming,
    place: Place,
    variable: Scalar,
    number: usize,
) -> Result<Evaluated, AllocError>
    ensures { IfOk result (λ r. IsSet place variable.kind number (place_formula naming.now (site_of variable)) r (emission_of out.old) (emission_of out.new)) }
{
    let name = naming.home(variable.variable)?;
    set_temporary(out, place, variable.kind, number, Expr::Ref(name))
}

/// A variable gets the value of an operand.
pub fn store(
    out: &mut Emitter,
    naming: &Naming,
    place: Place,
    variable: usize,
    operand: Operand,
) -> Result<(), AllocError>
    ensures { OnOk result (Puts (unlabelled_line place (Assign (Ref (home_of naming.now variable)) (operand_of operand))) (emission_of out.old) (emission_of out.new)) }
{
    let name = naming.home(variable)?;
    let value = operand_expr(operand)?;
    out.put(place, StmtKind::Assign(Expr::Ref(name), value))
}

/// IF (test) GO TO label
pub fn put_choice(out: &mut Emitter, place: Place, test: Expr, label: u32) -> Result<(), AllocError>
    ensures { OnOk result (Puts (unlabelled_line place (When (formula_of test) (Goto label))) (emission_of out.old) (emission_of out.new)) }
{
    let jump = Box::new(out.alloc(), StmtKind::Goto(label))?;
    out.put(place, StmtKind::When(test, jump))
}
