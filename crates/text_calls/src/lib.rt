//! The public calls of the crates `free_scan` and `macro_define` once more, under the same contracts: wrong bodies are
//! tried on these, which take less time to check than those crates.
#![tactic(auto)]

ghost use Rattle.std.specs.Prelude.{◌≡◌, ◌<◌, length, IfOk};
ghost use Rattle.free_scan.specs.Tokens.{scanned};
ghost use Rattle.macro_define.specs.Gathered.{HasCause};
ghost use Rattle.macro_define.specs.GatherAnswers.{EndsText, IsGathered};

use free_scan::{Scanned, scan};
use ground::{Dialect, Memory};
use macro_define::{Gathered, TextRefusal, gather};
use ports::Library;
use std::alloc::Global;

/// The tokens of a text, as `scan` gives them.
pub fn scan_text(alloc: Global, dialect: Dialect, text: &[u8], file: u16) -> Result<Scanned, Memory>
    requires { length text.now < 4294967295 }
    ensures tokens { IfOk result (λ all. all.tokens.items ≡ (scanned dialect text.now file).tokens) }
    ensures fault { IfOk result (λ all. all.fault ≡ (scanned dialect text.now file).fault) }
{
    let all = scan(alloc, dialect, text, file)?;
    Ok(all)
}

/// The tokens of a text with its macros and includes, as `gather` gives them.
pub fn gather_text<L: Library>(
    alloc: Global,
    dialect: Dialect,
    name: &str,
    library: &mut L,
) -> Result<Gathered, TextRefusal>
    ensures text { IsGathered (L.files library.old) (λ names. L.fetches library.old names library.new) dialect name.now result }
    ensures ended { IfOk result (λ all. EndsText all.tokens.items) }
    ensures same { L.files library.new ≡ L.files library.old }
    ensures becomes { L.becomes library.old library.new }
    ensures cause { HasCause (L.faults library.old) (L.faults library.new) result }
{
    let gathered = gather(alloc, dialect, name, library)?;
    Ok(gathered)
}
