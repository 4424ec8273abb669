// The labelled common blocks of a program.
ghost use Rattle.std.specs.Prelude.{◌≡◌, ℕ, List, IfOk, Some, map};
ghost use Rattle.std.specs.List.{list_any};
ghost use Rattle.f66_tree.specs.Views.{routine_of};
ghost use Rattle.f66_program.specs.Linking.{unit_names_block};
ghost use Rattle.storage_assoc.specs.Listings.{IsListing, has_name};

use f66_tree::Unit;
use std::alloc::{AllocError, Global};
use storage_assoc::{Listing, add_labels, no_names};

/// The names of the labelled common blocks of units, each once, numbered from 1 on (X3.9-1966, section 10.2.1).
pub(crate) fn labels_of<'a>(alloc: Global, units: &'a [Unit]) -> Result<Listing<'a>, AllocError>
    ensures listing { IfOk result (λ l. IsListing 1 l) }
    ensures listed { IfOk result (λ l. (q : List ℕ) → has_name l q ≡ list_any (unit_names_block (Some q)) (map routine_of units.now)) }
{
    let mut labels = no_names(alloc);
    for unit in units {
        add_labels(&mut labels, &unit.statements)?;
    }
    Ok(labels)
}
