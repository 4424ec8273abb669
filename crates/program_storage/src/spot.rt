// Where a name has its places.

/// Where a name has its places: the number of the first, and how many there are. The others follow it.
#[derive(Clone, Copy)]
pub struct Spot {
    pub first: usize,
    pub size: usize,
}
