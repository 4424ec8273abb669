// Why a text is not gathered.
ghost use Rattle.std.specs.Prelude.{◌≡◌};
ghost use Rattle.macro_define.specs.declared.refusal.TextRefusal.TheVariants.{Memory as NoMemory};

use ground::{Fault, Memory, Text};
use std::alloc::AllocError;
use thiserror::Error;

/// A fault, with the name of the file of its place, or of the whole text's at line 0; a fetch that failed; or want of
/// memory.
#[derive(Debug, Drop, Error)]
pub enum TextRefusal {
    #[error("a fault of the text")]
    Fault(Fault, Text),
    #[error("a fetch failed")]
    Library,
    #[error("want of memory")]
    Memory,
}

impl From<AllocError> for TextRefusal {
    ghost from_gives = { λ _ refusal. refusal ≡ NoMemory };

    fn from(_: AllocError) -> Self {
        TextRefusal::Memory
    }
}

impl From<Memory> for TextRefusal {
    ghost from_gives = { λ _ refusal. refusal ≡ NoMemory };

    fn from(_: Memory) -> Self {
        TextRefusal::Memory
    }
}
