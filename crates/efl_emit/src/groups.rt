// The value of an intrinsic function: a statement has 60 arguments at most.
ghost use Rattle.std.specs.Prelude.{◌≡◌, ◌≤◌, length, IfOk};
ghost use Rattle.f66_tree.specs.Views.{formulas_of};
ghost use Rattle.efl_routes.specs.Expressions.{intrinsic_name as name_of_intrinsic};
ghost use Rattle.efl_typed_tree.specs.Views.{intrinsic_of};
ghost use Rattle.efl_emit.specs.Names.{emission_of};
ghost use Rattle.efl_emit.specs.Parts.{HasRoom, IsGathered, IsOfGroup};

use crate::{Emitter, Evaluated, intrinsic_name, operand_expr, set_temporary};
use efl_typed_tree::Intrinsic;
use f66_tree::{Expr, applied};
use ground::{Kind, List, Place};
use std::alloc::AllocError;

/// A temporary gets what an intrinsic function gives of these values, by statements one after another.
pub fn set_gathered(
    out: &mut Emitter,
    place: Place,
    intrinsic: Intrinsic,
    number: usize,
    list: List<Expr>,
) -> Result<Evaluated, AllocError>
    ensures { IfOk result (λ r. IsGathered place (name_of_intrinsic (intrinsic_of intrinsic)) number (formulas_of list.items) r (emission_of out.old) (emission_of out.new)) }
{
    let mut rest = list.into_iter();
    let mut group = Vec::new(out.alloc());
    while let Some(e) = rest.next() {
        group = with_room(out, place, intrinsic, number, group)?;
        group.push(e)?;
    }
    set_group(out, place, intrinsic, number, group)
}

// Arguments with room for one more: of 60 the temporary gets the value, and is the first of the next ones.
fn with_room(
    out: &mut Emitter,
    place: Place,
    intrinsic: Intrinsic,
    number: usize,
    group: List<Expr>,
) -> Result<List<Expr>, AllocError>
    ensures { IfOk result (λ more. HasRoom place (name_of_intrinsic (intrinsic_of intrinsic)) number group.items more.items (emission_of out.old) (emission_of out.new)) }
{
    if group.len() < 60 {
        return Ok(group);
    }
    let so_far = set_group(out, place, intrinsic, number, group)?;
    let mut more = Vec::new(out.alloc());
    more.push(operand_expr(so_far.operand)?)?;
    Ok(more)
}

// The temporary gets what the function gives of these arguments.
fn set_group(
    out: &mut Emitter,
    place: Place,
    intrinsic: Intrinsic,
    number: usize,
    group: List<Expr>,
) -> Result<Evaluated, AllocError>
    ensures { IfOk result (λ r. IsOfGroup place (name_of_intrinsic (intrinsic_of intrinsic)) number group.items r (emission_of out.old) (emission_of out.new)) }
{
    let name = intrinsic_name(out.alloc(), intrinsic)?;
    set_temporary(out, place, Kind::Integer, number, applied(name, group)?)
}
