// What goes from one token of a text to the next.
ghost use Rattle.std.specs.Prelude.{◌≡◌, []};

use crate::macros::Macros;
use crate::output::Output;
use indexmap::IndexSet;
use std::alloc::Global;

/// The number of bytes of a text and of all its includes, each time that they are included.
const BYTE_LIMIT: usize = 4_194_304;

/// The tokens made, the macros so far, the different names of files in the order of their first use, and how many more
/// bytes may come.
#[derive(Drop)]
pub struct Gathering {
    pub output: Output,
    pub macros: Macros,
    pub files: IndexSet<Vec<u8>>,
    pub room: usize,
}

impl Gathering {
    pub fn new(alloc: Global) -> Self
        ensures tokens { result.output.tokens.items ≡ [] }
        ensures left { result.output.left ≡ 200000 }
        ensures macros { result.macros.entries ≡ [] }
        ensures files { result.files.keys ≡ [] }
        ensures room { result.room ≡ 4194304 }
    {
        Gathering {
            output: Output::new(alloc),
            macros: Macros::new(alloc),
            files: IndexSet::new(alloc),
            room: BYTE_LIMIT,
        }
    }
}
