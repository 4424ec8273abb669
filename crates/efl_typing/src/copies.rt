// Copies of what a typed statement has from its text.
ghost use Rattle.std.specs.Prelude.{◌≡◌, IfOk};

use ground::{List, Text};
use std::alloc::{AllocError, Global};

pub fn copied_labels(alloc: Global, labels: &[Text]) -> Result<List<Text>, AllocError>
    ensures { IfOk result (λ copy. copy.items ≡ labels.now) }
{
    labels.to_vec(alloc)
}

pub fn copied_tests(alloc: Global, tests: &[i64]) -> Result<List<i64>, AllocError>
    ensures { IfOk result (λ copy. copy.items ≡ tests.now) }
{
    tests.to_vec(alloc)
}
