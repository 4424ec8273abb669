// The order in which the code of units stands.
ghost use Rattle.std.specs.Prelude.{◌≡◌, ◌∷◌, IfOk};
ghost use Rattle.code_layout.specs.Order.{others_of};

use std::alloc::{AllocError, Global};

/// The number of the main, and behind it those of the other units.
pub(crate) fn order_of(alloc: Global, main: usize, units: usize) -> Result<Vec<usize>, AllocError>
    ensures { IfOk result (λ v. v.items ≡ main ∷ others_of main units) }
{
    let mut order = Vec::new(alloc);
    order.push(main)?;
    for unit in 0..units {
        if unit != main {
            order.push(unit)?;
        }
    }
    Ok(order)
}
