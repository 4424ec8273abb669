// The counts that a call shows, beside those of a runner that is made here of the same text and run over the same input.

ghost use Rattle.linker.specs.Rules.{program_of};
ghost use Rattle.machine.specs.Runs.{IsSoundProgram};

use crate::calling::{Pieces, Texts, library_of, shown, source_of};
use crate::eft_in_memory;
use f66_tree::Unit;
use front::translate_text;
use ground::{Dialect, List, Place};
use machine::load;
use ports::{MemSink, MemSource};
use std::alloc::Global;
use std::process::Abort;
use std::test::Fail;

// A row is a text, an input and a limit of steps.
type Row<'a> = (Texts<'a>, Pieces<'a>, u64);

// The words that run p.r with its counts and a limit.
fn counting_words(alloc: Global, steps: u64) -> Result<Vec<String>, Fail> {
    let mut words = Vec::new(alloc);
    words.push(String::from_str(alloc, "run")?)?;
    words.push(String::from_str(alloc, "--count")?)?;
    words.push(format!(in alloc; "--steps={steps}")?)?;
    words.push(String::from_str(alloc, "ratfor")?)?;
    words.push(String::from_str(alloc, "p.r")?)?;
    Ok(words)
}

fn sink(alloc: Global) -> Result<MemSink, Fail> {
    Ok(MemSink::new(alloc, 4096, Vec::new(alloc)).map_err(|_| "want of memory")?)
}

// The first line that a call shows on diag, and the records.
fn told(alloc: Global, row: Row<'_>) -> Result<(String, String), Fail> {
    let (texts, pieces, steps) = row;
    let words = counting_words(alloc, steps)?;
    let mut library = library_of(alloc, texts, 0)?;
    let mut input = source_of(alloc, pieces, 0)?;
    let mut out = sink(alloc)?;
    let mut diag = sink(alloc)?;
    eft_in_memory(alloc, &words, &mut library, &mut input, &mut out, &mut diag);
    let lines = shown(alloc, diag.bytes())?;
    let line = lines.lines().next().ok_or("no line")?;
    Ok((String::from_str(alloc, line)?, shown(alloc, out.bytes())?))
}

// The line of the counts that a runner has which is loaded with units.
fn counted_of(
    alloc: Global,
    units: &List<Unit>,
    finish: Place,
    steps: u64,
    input: &mut MemSource,
    out: &mut MemSink,
) -> Result<String, Fail>
    requires { IsSoundProgram (program_of units.now.items finish) }
{
    let mut runner = load(alloc, units, finish, steps)?;
    let _end = runner.run(input, out);
    let begun = runner.begun();
    let executed = runner.executed();
    Ok(format!(in alloc; "statements {begun} instructions {executed}")?)
}

// The same line of a runner that is made here of the units of the text, and the records that it writes.
fn counted(alloc: Global, row: Row<'_>) -> Result<(String, String), Fail> {
    let (texts, pieces, steps) = row;
    let mut library = library_of(alloc, texts, 0)?;
    let mut input = source_of(alloc, pieces, 0)?;
    let mut out = sink(alloc)?;
    let line = match translate_text(alloc, Dialect::Ratfor, "p.r", &mut library) {
        Ok(translated) => {
            let made = &translated.made;
            counted_of(alloc, &made.units, made.finish, steps, &mut input, &mut out)?
        }
        Err(_refusal) => Err("a text that is refused")?,
    };
    Ok((line, shown(alloc, out.bytes())?))
}

fn expect_same(rt: &impl Abort, alloc: Global, row: Row<'_>) -> Result<(), Fail> {
    let (line, records) = told(alloc, row)?;
    let (line_here, records_here) = counted(alloc, row)?;
    assert_eq!(rt; line.as_str(), line_here.as_str());
    assert_eq!(rt; records.as_str(), records_here.as_str());
    Ok(())
}

// By hand: the assignment is Begin, Spot, PushInt, PushInt, Add and Store; the WRITE Begin, PushInt, WriteStart, Spot, PutItem and
// Finish; and the STOP Begin and Halt. So 3 statements begin, and 6 + 6 + 2 instructions are executed.
const THREE: Texts<'static> = &[(
    "p.r",
    b"k = 2 + 3\nwrite(6,9) k\n9 format(i11)\nstop\nend\n",
)];

// Records are read up to the end of the input.
const ECHO: Texts<'static> = &[(
    "p.r",
    b"10 read(5,9) k\n9 format(i3)\nwrite(6,9) k\ngoto 10\nend\n",
)];

// A loop, a subroutine and a list with an implied DO.
const CALLS: Texts<'static> = &[(
    "p.r",
    b"do i = 1, 3\ncall twice(i, j)\nwrite(6,9) (j, i, k = 1, 2)\n9 format(4i3)\nstop 5\nend\nsubroutine twice(m, n)\nn = m + m\nreturn\nend\n",
)];

#[test]
fn of_three_statements(rt: HostRuntime) -> Result<(), Fail> {
    let (line, records) = told(rt.alloc(), (THREE, &[], 1000))?;
    assert_eq!(rt; line.as_str(), "statements 3 instructions 14");
    assert_eq!(rt; records.as_str(), "          5\n");
    Ok(())
}

// A run that ends, one at its limit, and one that is trapped.
#[test]
fn of_a_runner(rt: HostRuntime) -> Result<(), Fail> {
    let alloc = rt.alloc();
    expect_same(&rt, alloc, (THREE, &[], 1000))?;
    expect_same(&rt, alloc, (THREE, &[], 2))?;
    expect_same(&rt, alloc, (ECHO, &[b"  1\n  2\n", b"  3\n"], 1000))?;
    expect_same(&rt, alloc, (CALLS, &[], 1000))?;
    expect_same(&rt, alloc, (CALLS, &[], 7))
}
