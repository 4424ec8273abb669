// Statements by a format over a source and a sink, worked out by hand from the standard.
ghost use Rattle.std.specs.Prelude.{◌≡◌, ◌≤◌, OnOk, true, false};
ghost use Rattle.f66_tree.specs.declared.editing.Way.TheVariants.{Reading, Writing};
ghost use Rattle.f66_tree.specs.Turns.{is_over};
ghost use Rattle.f66_tree.specs.Views.{fields_of};
ghost use Rattle.format_io.specs.Places.{depth};
ghost use Rattle.format_io.specs.OneField.{one};

use crate::formats::fields_in;
use crate::records::{LONGEST, READ, WRITTEN};
use f66_tree::{Field, Way};
use format_io::{Plan, plan};
use ground::{Kind, List, Memory, Trap, Value};
use ports::{MemSink, MemSource};
use record_flow::{Break, Flow, Stop};
use std::alloc::{AllocError, Global};
use std::process::Abort;
use std::test::Fail;

/// How many bytes the records of a test may have.
const ROOM: usize = 300;

/// The statement in progress, the records to read and those written.
#[derive(Drop)]
struct Run {
    flow: Flow,
    input: MemSource,
    out: MemSink,
}

/// What ends a run before its end.
#[derive(Clone, Copy)]
enum Cut {
    Stopped(Stop),
    Broken(Break),
    Memory,
}

impl From<Stop> for Cut {
    fn from(stop: Stop) -> Self {
        Cut::Stopped(stop)
    }
}

impl From<Break> for Cut {
    fn from(broken: Break) -> Self {
        Cut::Broken(broken)
    }
}

impl From<Memory> for Cut {
    fn from(_: Memory) -> Self {
        Cut::Memory
    }
}

impl From<AllocError> for Cut {
    fn from(_: AllocError) -> Self {
        Cut::Memory
    }
}

/// Whether groups nest at most so deep in a field.
fn nests_within(field: &Field, levels: u8) -> bool
    ensures { result ≡ true → depth (one field.now) ≤ levels }
{
    match field {
        Field::Group(_, inside) => {
            if levels == 0 {
                return false;
            }
            for part in inside {
                if !nests_within(part, levels - 1) {
                    return false;
                }
            }
            true
        }
        Field::Whole(_, _) => true,
        Field::Truth(_, _) => true,
        Field::Letter(_) => true,
        Field::Skip(_) => true,
        Field::Chars(_) => true,
        Field::Slash => true,
    }
}

fn is_shallow(fields: &List<Field>) -> bool
    ensures { result ≡ true → depth (fields_of fields.now.items) ≤ 2 }
{
    for field in fields {
        if !nests_within(field, 2) {
            return false;
        }
    }
    true
}

fn planned(alloc: Global, text: &str) -> Result<Plan, Cut> {
    let fields = fields_in(alloc, text)?;
    if !is_shallow(&fields) {
        return Err(Cut::Broken(Break::Wrong));
    }
    Ok(plan(alloc, &fields)?)
}

/// A source of these bytes, in one piece.
fn source_of(alloc: Global, bytes: &[u8]) -> Result<MemSource, AllocError> {
    let mut pieces = Vec::new(alloc);
    if !bytes.is_empty() {
        pieces.push(bytes.to_vec(alloc)?)?;
    }
    Ok(MemSource::new(pieces, Vec::new(alloc)))
}

/// A run over the records of an input.
fn run_over(alloc: Global, input: &[u8]) -> Result<Run, Cut> {
    Ok(Run {
        flow: Flow::new(alloc)?,
        input: source_of(alloc, input)?,
        out: MemSink::new(alloc, ROOM, Vec::new(alloc))?,
    })
}

/// The values of a WRITE, `T`, `F` or numbers, or such of the types of a READ, `I` and `L`.
fn values_of(alloc: Global, text: &str) -> Result<Vec<Value>, AllocError> {
    let mut values = Vec::new(alloc);
    for word in text.split_whitespace() {
        values.push(value_of(word))?;
    }
    Ok(values)
}

fn value_of(word: &str) -> Value {
    match word {
        "T" | "L" => Value::Log(true),
        "F" => Value::Log(false),
        _ => Value::Int(word.parse::<i64>().unwrap_or(0)),
    }
}

fn kind_of(value: Value) -> Kind {
    match value {
        Value::Int(_) => Kind::Integer,
        Value::Log(_) => Kind::Logical,
    }
}

fn show(value: Value, shown: &mut String) -> Result<(), AllocError> {
    match value {
        Value::Int(n) => write!(shown, "{n} ")?,
        Value::Log(holds) => shown.push_str(if holds { "T " } else { "F " })?,
    }
    Ok(())
}

/// The items of a WRITE go out.
fn put_all(run: &mut Run, plan: &Plan, items: &[Value]) -> Result<(), Cut>
    requires way { run.old.flow.stand.way ≡ Writing }
    requires going { is_over run.old.flow.stand.mark ≡ false }
    ensures { OnOk result (is_over run.new.flow.stand.mark ≡ false) }
{
    for item in items {
        run.flow
            .due(plan, kind_of(*item), &mut run.input, &mut run.out)?;
        run.flow.put(*item)?;
    }
    Ok(())
}

/// The items of a READ come in, of the types of these values, and are shown.
fn take_all(run: &mut Run, plan: &Plan, items: &[Value], shown: &mut String) -> Result<(), Cut>
    requires way { run.old.flow.stand.way ≡ Reading }
    requires going { is_over run.old.flow.stand.mark ≡ false }
    ensures { OnOk result (is_over run.new.flow.stand.mark ≡ false) }
{
    for item in items {
        run.flow
            .due(plan, kind_of(*item), &mut run.input, &mut run.out)?;
        let value = run.flow.take()?;
        show(value, shown)?;
    }
    Ok(())
}

/// A whole WRITE.
fn write(alloc: Global, run: &mut Run, format: &str, items: &str) -> Result<(), Cut> {
    let items = values_of(alloc, items)?;
    let plan = planned(alloc, format)?;
    run.flow.open(Way::Writing, &mut run.input)?;
    put_all(run, &plan, &items)?;
    run.flow.close(&plan, &mut run.input, &mut run.out)?;
    Ok(())
}

/// A whole READ, whose values are shown.
fn read(
    alloc: Global,
    run: &mut Run,
    format: &str,
    types: &str,
    shown: &mut String,
) -> Result<(), Cut> {
    let types = values_of(alloc, types)?;
    let plan = planned(alloc, format)?;
    run.flow.open(Way::Reading, &mut run.input)?;
    take_all(run, &plan, &types, shown)?;
    run.flow.close(&plan, &mut run.input, &mut run.out)?;
    Ok(())
}

/// Shows the records written, with `/` behind each, and the name of the trap, or what else ended the run.
fn show_end(end: Result<(), Cut>, out: &MemSink, shown: &mut String) -> Result<(), AllocError> {
    for byte in out.bytes() {
        shown.push(if *byte == b'\n' { '/' } else { *byte as char })?;
    }
    match end {
        Ok(()) => {}
        Err(Cut::Stopped(Stop::Trapped(trap))) => shown.push_str(trap.word())?,
        Err(Cut::Stopped(Stop::Input)) => shown.push_str("no read")?,
        Err(Cut::Stopped(Stop::Output)) => shown.push_str("no put")?,
        Err(Cut::Broken(Break::Trapped(trap))) => shown.push_str(trap.word())?,
        Err(Cut::Broken(Break::Wrong)) => shown.push_str("wrong")?,
        Err(Cut::Memory) => return Err(AllocError),
    }
    Ok(())
}

/// What one WRITE of a new run shows.
fn wrote(alloc: Global, format: &str, items: &str) -> Result<String, Fail> {
    let mut run = run_over(alloc, b"").ok().ok_or("memory")?;
    let end = write(alloc, &mut run, format, items);
    let mut shown = String::new(alloc);
    show_end(end, &run.out, &mut shown)?;
    Ok(shown)
}

/// What one READ from this input shows, and a second one of one character, which tells how far the first one came.
fn took(alloc: Global, input: &[u8], format: &str, types: &str) -> Result<String, Fail> {
    let mut run = run_over(alloc, input).ok().ok_or("memory")?;
    let mut shown = String::new(alloc);
    let mut end = read(alloc, &mut run, format, types, &mut shown);
    if end.is_ok() {
        shown.push_str("then ")?;
        end = read(alloc, &mut run, "A1", "I", &mut shown);
    }
    show_end(end, &run.out, &mut shown)?;
    Ok(shown)
}

fn expect_written(rt: &impl Abort, alloc: Global, row: &str) -> Result<(), Fail> {
    let (format, rest) = row.split_once(" | ").ok_or("no bar")?;
    let (items, wanted) = rest.split_once(" | ").ok_or("no second bar")?;
    let found = wrote(alloc, format, items)?;
    match wanted.split_once(" | ") {
        Some((end, length)) => {
            assert!(rt; found.as_str().ends_with(end), "{format} {items}");
            let length = length.parse::<usize>().unwrap_or(0);
            assert_eq!(rt; found.len(), length, "{format} {items}");
        }
        None => assert_eq!(rt; found.as_str(), wanted, "{format} {items}"),
    }
    Ok(())
}

#[test]
fn written(rt: HostRuntime) -> Result<(), Fail> {
    for row in WRITTEN.lines() {
        if !row.is_empty() && !row.starts_with('#') {
            expect_written(&rt, rt.alloc(), row)?;
        }
    }
    Ok(())
}

/// The bytes of records that have `/` behind each.
fn bytes_of(alloc: Global, text: &str) -> Result<Vec<u8>, AllocError> {
    let mut bytes = Vec::new(alloc);
    for byte in text.as_bytes() {
        bytes.push(if *byte == b'/' { b'\n' } else { *byte })?;
    }
    Ok(bytes)
}

fn expect_read(rt: &impl Abort, alloc: Global, row: &str) -> Result<(), Fail> {
    let (format, rest) = row.split_once(" | ").ok_or("no bar")?;
    let (types, rest) = rest.split_once(" | ").ok_or("no second bar")?;
    let (input, wanted) = rest.split_once(" | ").ok_or("no third bar")?;
    let input = bytes_of(alloc, input)?;
    let found = took(alloc, &input, format, types)?;
    assert_eq!(rt; found.as_str().trim_end(), wanted, "{format} {types}");
    Ok(())
}

#[test]
fn taken(rt: HostRuntime) -> Result<(), Fail> {
    for row in READ.lines() {
        if !row.is_empty() && !row.starts_with('#') {
            expect_read(&rt, rt.alloc(), row)?;
        }
    }
    Ok(())
}

fn expect_longest(rt: &impl Abort, alloc: Global, input: &[u8], row: &str) -> Result<(), Fail> {
    let (format, rest) = row.split_once(" | ").ok_or("no bar")?;
    let (types, wanted) = rest.split_once(" | ").ok_or("no second bar")?;
    let found = took(alloc, input, format, types)?;
    assert_eq!(rt; found.as_str(), wanted, "{format} {types}");
    Ok(())
}

/// A record of 65,535 bytes comes in whole, a READ goes past its end, and one more byte is LongRecord.
#[test]
fn longest_records(rt: HostRuntime) -> Result<(), Fail> {
    let mut input = vec![in rt.alloc(); b' '; 65534]?;
    input.push(b'7')?;
    for row in LONGEST.lines() {
        if !row.is_empty() {
            expect_longest(&rt, rt.alloc(), &input, row)?;
        }
    }
    input.push(b'8')?;
    let long = took(rt.alloc(), &input, "A1", "I")?;
    assert_eq!(rt; long.as_str(), "LongRecord");
    Ok(())
}

fn in_turn(alloc: Global, run: &mut Run, shown: &mut String) -> Result<(), Cut> {
    write(alloc, run, "I2/I2", "9")?;
    read(alloc, run, "I1", "I I", shown)?;
    write(alloc, run, "L2", "T F")?;
    read(alloc, run, "I2", "I", shown)?;
    read(alloc, run, "I2", "I", shown)
}

/// Statements that read and that write, in one run.
#[test]
fn statements_in_turn(rt: HostRuntime) -> Result<(), Fail> {
    let mut run = run_over(rt.alloc(), b"12\n34\n56").ok().ok_or("memory")?;
    let mut shown = String::new(rt.alloc());
    let end = in_turn(rt.alloc(), &mut run, &mut shown);
    show_end(end, &run.out, &mut shown)?;
    assert_eq!(rt; shown.as_str(), "1 3 56  9// T/ F/EndOfInput");
    Ok(())
}

/// Where no edit is due nothing goes out and nothing comes in.
#[test]
fn nothing_due(rt: HostRuntime) -> Result<(), Fail> {
    let mut run = run_over(rt.alloc(), b"12").ok().ok_or("memory")?;
    assert!(rt; run.flow.open(Way::Writing, &mut run.input).is_ok());
    assert_eq!(rt; run.flow.put(Value::Int(1)), Err(Break::Wrong));
    assert!(rt; run.flow.open(Way::Reading, &mut run.input).is_ok());
    assert_eq!(rt; run.flow.take(), Err(Break::Wrong));
    let end = run.flow.open(Way::Reading, &mut run.input);
    assert!(rt; matches!(end, Err(Stop::Trapped(Trap::EndOfInput))));
    Ok(())
}
