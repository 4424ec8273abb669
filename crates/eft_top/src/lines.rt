// The lines that diag gets. They take no memory: after a run none may be wanted.
ghost use Rattle.std.specs.Prelude.{◌++◌, ℕ, List};
ghost use Rattle.eft_top.specs.Delivery.{Delivers, IsWriting};
ghost use Rattle.eft_top.specs.Lines.{at_line, counts_line, fault_line, limit_line, limit_part, stop_line, trap_line};

use crate::octal::{ROOM, octal_digits};
use crate::puts::LineWriter;
use ground::{Fault, Trap};
use itoa::Buffer;
use ports::{Failed, Sink};

/// The line of a fault in the file of this name.
pub fn put_fault<D: Sink>(diag: &mut D, fault: Fault, file: &[u8]) -> Result<(), Failed>
    ensures { Delivers D.puts D.faults diag.old diag.new (fault_line fault file.now) result }
{
    let mut number = Buffer::new();
    let mut line = LineWriter::new(diag);
    line.add(b"fault ", diag);
    line.add(number.format(fault.kind.number()).as_bytes(), diag);
    line.add(b" ", diag);
    line.add(fault.kind.word().as_bytes(), diag);
    add_limit(&mut line, fault.number, diag);
    end_at(line, file, fault.place.line, diag)
}

/// The number of a limit; other faults have none.
fn add_limit<D: Sink>(line: &mut LineWriter, limit: u64, diag: &mut D)
    ensures { (begun : D) (head : List ℕ) → IsWriting D.puts D.faults begun head diag.old line.old → IsWriting D.puts D.faults begun (head ++ limit_part limit) diag.new line.new }
{
    if limit != 0 {
        let mut number = Buffer::new();
        line.add(b" ", diag);
        line.add(number.format(limit).as_bytes(), diag);
    }
}

/// The line of a trap within a statement of this line of the file.
pub fn put_trap<D: Sink>(diag: &mut D, trap: Trap, file: &[u8], line: u32) -> Result<(), Failed>
    ensures { Delivers D.puts D.faults diag.old diag.new (trap_line trap file.now line) result }
{
    let mut number = Buffer::new();
    let mut text = LineWriter::new(diag);
    text.add(b"trap ", diag);
    text.add(number.format(trap.number()).as_bytes(), diag);
    text.add(b" ", diag);
    text.add(trap.word().as_bytes(), diag);
    end_at(text, file, line, diag)
}

/// A line ends with the line of a file.
fn end_at<D: Sink>(mut text: LineWriter, file: &[u8], line: u32, diag: &mut D) -> Result<(), Failed>
    ensures { (begun : D) (head : List ℕ) → IsWriting D.puts D.faults begun head diag.old text → Delivers D.puts D.faults begun diag.new (head ++ at_line file.now line) result }
{
    let mut number = Buffer::new();
    text.add(b" at ", diag);
    text.add(file, diag);
    text.add(b":", diag);
    text.add(number.format(line).as_bytes(), diag);
    text.add(b"\n", diag);
    text.end(diag)
}

/// The line of a STOP with a number.
pub fn put_stop<D: Sink>(diag: &mut D, number: u16) -> Result<(), Failed>
    ensures { Delivers D.puts D.faults diag.old diag.new (stop_line number) result }
{
    let mut digits = [0u8; ROOM];
    let start = octal_digits(number, &mut digits);
    let mut line = LineWriter::new(diag);
    line.add(b"stop ", diag);
    line.add(&digits[start..], diag);
    line.add(b"\n", diag);
    line.end(diag)
}

/// The line of a run that would go on after its limit of steps.
pub fn put_limit<D: Sink>(diag: &mut D, limit: u64) -> Result<(), Failed>
    ensures { Delivers D.puts D.faults diag.old diag.new (limit_line limit) result }
{
    let mut number = Buffer::new();
    let mut line = LineWriter::new(diag);
    line.add(b"step limit ", diag);
    line.add(number.format(limit).as_bytes(), diag);
    line.add(b"\n", diag);
    line.end(diag)
}

/// The line of how many statements began and how many instructions were executed.
pub fn put_counts<D: Sink>(diag: &mut D, begun: u64, executed: u64) -> Result<(), Failed>
    ensures { Delivers D.puts D.faults diag.old diag.new (counts_line begun executed) result }
{
    let mut number = Buffer::new();
    let mut line = LineWriter::new(diag);
    line.add(b"statements ", diag);
    line.add(number.format(begun).as_bytes(), diag);
    line.add(b" instructions ", diag);
    line.add(number.format(executed).as_bytes(), diag);
    line.add(b"\n", diag);
    line.end(diag)
}
