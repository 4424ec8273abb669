// Names with numbers, in the order in which they are listed.
ghost use Rattle.std.specs.Prelude.{◌≡◌, ◌<◌, ◌^◌, ◌||◌, ℕ, List, OnOk, false};
ghost use Rattle.std.specs.Str.{bytes_eq};
ghost use Rattle.storage_assoc.specs.Listings.{IsListing, has_name};

use name_tables::value_of;
use std::alloc::{AllocError, Global};
use std::collections::HashMap;

/// Names, each once, with their numbers, which count from a first one on.
#[derive(Drop)]
pub struct Listing<'a> {
    pub numbers: HashMap<&'a [u8], usize>,
    pub names: Vec<&'a [u8]>,
}

/// No names.
pub fn no_names<'a>(alloc: Global) -> Listing<'a>
    ensures listing { (first : ℕ) → IsListing first result }
    ensures none { (q : List ℕ) → has_name result q ≡ false }
{
    Listing {
        numbers: HashMap::new(alloc),
        names: Vec::new(alloc),
    }
}

/// Whether a name is listed.
pub(crate) fn is_listed(listing: &Listing, name: &[u8]) -> bool
    ensures { result ≡ has_name listing.now name.now }
{
    value_of(&listing.numbers, name).is_some()
}

/// Lists a name, where it is not yet listed.
pub(crate) fn list_name<'a>(
    first: usize,
    listing: &mut Listing<'a>,
    name: &'a [u8],
) -> Result<(), AllocError>
    requires few { first < 2 ^ 62 }
    requires listing { IsListing first listing.old }
    ensures listing { OnOk result (IsListing first listing.new) }
    ensures listed { OnOk result ((q : List ℕ) → has_name listing.new q ≡ (has_name listing.old q || bytes_eq q name.now)) }
{
    if is_listed(listing, name) {
        return Ok(());
    }
    let number = first + listing.names.len();
    listing.numbers.insert(name, number)?;
    listing.names.push(name)?;
    Ok(())
}
