// The parameters of a DO.

use f66_tree::Par;

/// The parameters of a DO.
#[derive(Drop)]
pub struct Range {
    pub first: Par,
    pub last: Par,
    pub step: Par,
}
