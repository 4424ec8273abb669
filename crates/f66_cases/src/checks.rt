// Units with their first faults, worked out by hand from the rules of FORTRAN.

use crate::reading::{at, statement, unit};
use crate::subprograms::SUBPROGRAMS;
use crate::units::{ENDS, EXPRESSIONS, PAIRS, STATEMENTS, STORES};
use f66_check::check_unit;
use f66_tree::{Header, Unit};
use ground::{Fault, Refusal};
use std::alloc::{AllocError, Global};
use std::process::Abort;
use std::test::Fail;

/// The fault's word and line, with the number of a limit between them.
pub(crate) fn fault_shown(alloc: Global, fault: Fault) -> Result<String, AllocError> {
    let word = fault.kind.word();
    let line = fault.place.line;
    if fault.number == 0 {
        return Ok(format!(in alloc; "{word} at {line}")?);
    }
    let limit = fault.number;
    Ok(format!(in alloc; "{word} {limit} at {line}")?)
}

/// What the checks of a unit answer.
fn outcome(alloc: Global, unit: Unit) -> Result<String, Fail> {
    match check_unit(alloc, unit) {
        Ok(_) => Ok("sound".to_string(alloc)?),
        Err(Refusal::Fault(fault)) => Ok(fault_shown(alloc, fault)?),
        Err(Refusal::Memory) => Err("memory")?,
    }
}

fn expect(rt: &impl Abort, alloc: Global, row: &str) -> Result<(), Fail> {
    let (text, wanted) = row.split_once(" | ").ok_or("no bar")?;
    let found = outcome(alloc, unit(alloc, text)?)?;
    assert_eq!(rt; found.as_str(), wanted, "{text}");
    Ok(())
}

fn expect_all(rt: &impl Abort, alloc: Global, rows: &str) -> Result<(), Fail> {
    for row in rows.lines() {
        if !row.is_empty() && !row.starts_with('#') {
            expect(rt, alloc, row)?;
        }
    }
    Ok(())
}

#[test]
fn first_faults(rt: HostRuntime) -> Result<(), Fail> {
    expect_all(&rt, rt.alloc(), EXPRESSIONS)?;
    expect_all(&rt, rt.alloc(), STATEMENTS)?;
    expect_all(&rt, rt.alloc(), STORES)?;
    expect_all(&rt, rt.alloc(), PAIRS)?;
    expect_all(&rt, rt.alloc(), SUBPROGRAMS)?;
    expect_all(&rt, rt.alloc(), ENDS)
}

/// Units of 20,000 statements, of which the last alone is at fault.
#[derive(Clone, Copy)]
enum Long {
    /// Its name is a function's in the first statement.
    Named,
    /// Jumps to their own labels, and at last one that leads nowhere.
    Jumping,
    /// 5,000 ranges that end together, then branches within the innermost one and behind it, and at last one into it.
    Nested,
}

fn text_of(alloc: Global, long: Long, line: u32) -> Result<String, AllocError> {
    let text = match (long, line) {
        (Long::Named, 1) => format!(in alloc; "SET K, 7 2 MOD@2")?,
        (Long::Named, 20000) => format!(in alloc; "10 SELECT MOD 10")?,
        (Long::Named, _) => format!(in alloc; "SET K, K 1 +")?,
        (Long::Jumping, 20000) => format!(in alloc; "{line} GO 30000")?,
        (Long::Jumping, _) => format!(in alloc; "{line} GO {line}")?,
        (Long::Nested, 1..=5000) => format!(in alloc; "{line} DO 15000 I 1 9 1")?,
        (Long::Nested, 5001..=14999) => format!(in alloc; "{line} IF true ? GO 15000")?,
        (Long::Nested, 15000) => format!(in alloc; "{line} CONTINUE")?,
        (Long::Nested, 20000) => format!(in alloc; "{line} GO 10000")?,
        (Long::Nested, _) => format!(in alloc; "{line} GO 19999")?,
    };
    Ok(text)
}

fn long_unit(alloc: Global, long: Long) -> Result<Unit, AllocError> {
    let mut statements = Vec::new(alloc);
    for line in 1..=20000 {
        let text = text_of(alloc, long, line)?;
        let next = statement(alloc, &text, line)?;
        statements.push(next)?;
    }
    Ok(Unit {
        header: Header::Main,
        statements,
        place: at(0),
    })
}

#[test]
fn long_units(rt: HostRuntime) -> Result<(), Fail> {
    for (long, wanted) in [
        (Long::Named, "DuplicateName at 20000"),
        (Long::Jumping, "BadLabel at 20000"),
        (Long::Nested, "DoNesting at 20000"),
    ] {
        let unit = long_unit(rt.alloc(), long)?;
        let found = outcome(rt.alloc(), unit)?;
        assert_eq!(rt; found.as_str(), wanted);
    }
    Ok(())
}
