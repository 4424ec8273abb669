// The work of each layer on the text of a file: how many tokens, units or statements it makes.

use anyhow::{Result, bail};
use f66_check::check_unit;
use f66_tree::Unit;
use free_scan::scan;
use front::{Made, Translated, translate_text};
use ground::{Dialect, Fault};
use macro_define::{Gathered, TextRefusal, gather};
use ports::FileLibrary;
use rat_descent::parse;
use std::fs;

/// The tokens of the file alone.
pub fn scanned(rt: &HostRuntime, dialect: Dialect, path: &str) -> Result<usize> {
    let text = fs::read(rt, path)?;
    if text.len() >= 4_294_967_295 {
        bail!("the text is too long");
    }
    match scan(rt.alloc(), dialect, &text, 0) {
        Ok(all) => Ok(all.tokens.len()),
        Err(_) => bail!("out of memory"),
    }
}

/// The tokens with macros and includes.
pub fn gathered(rt: &HostRuntime, dialect: Dialect, path: &str) -> Result<usize> {
    let mut library = FileLibrary::new(rt);
    match gather(rt.alloc(), dialect, path, &mut library) {
        Ok(all) => Ok(all.tokens.len()),
        Err(refusal) => refused(refusal),
    }
}

/// The units of the tree.
pub fn parsed(rt: &HostRuntime, dialect: Dialect, path: &str) -> Result<usize> {
    if let Dialect::Efl = dialect {
        bail!("EFL has no tree yet");
    }
    let mut library = FileLibrary::new(rt);
    match gather(rt.alloc(), dialect, path, &mut library) {
        Ok(Gathered { tokens, files: _ }) => {
            let program = parse(rt.alloc(), &tokens)?;
            Ok(program.units.len())
        }
        Err(refusal) => refused(refusal),
    }
}

/// The statements of the units that the text becomes.
pub fn compiled(rt: &HostRuntime, dialect: Dialect, path: &str) -> Result<usize> {
    let mut library = FileLibrary::new(rt);
    match translate_text(rt.alloc(), dialect, path, &mut library) {
        Ok(translated) => Ok(statements(&translated.made.units)),
        Err(refusal) => refused(refusal),
    }
}

/// The statements of those units once they have been checked.
pub fn checked(rt: &HostRuntime, dialect: Dialect, path: &str) -> Result<usize> {
    let mut library = FileLibrary::new(rt);
    match translate_text(rt.alloc(), dialect, path, &mut library) {
        Ok(Translated { made, files: _ }) => statements_checked(rt, made),
        Err(refusal) => refused(refusal),
    }
}

fn statements_checked(rt: &HostRuntime, made: Made) -> Result<usize> {
    let Made { units, finish: _ } = made;
    let mut count: usize = 0;
    for unit in units {
        let unit = check_unit(rt.alloc(), unit)?;
        count = count.saturating_add(unit.unit().statements.len());
    }
    Ok(count)
}

/// The statements of all units.
fn statements(units: &[Unit]) -> usize {
    let mut count: usize = 0;
    for unit in units {
        count = count.saturating_add(unit.statements.len());
    }
    count
}

fn refused(refusal: TextRefusal) -> Result<usize> {
    match refusal {
        TextRefusal::Fault(
            Fault {
                kind,
                place,
                number: _,
            },
            _,
        ) => bail!(
            "fault {} {} at line {}",
            kind.number(),
            kind.word(),
            place.line
        ),
        TextRefusal::Library => bail!("a fetch failed"),
        TextRefusal::Memory => bail!("out of memory"),
    }
}
