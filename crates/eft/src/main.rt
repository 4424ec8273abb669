//! The program: it hands the words, the files and the streams to the one call, and ends with its code.
#![tactic(auto)]

use eft_top::{Status, eft};
use ports::{FileLibrary, StreamSink, StreamSource};
use std::io::{BufWriter, IsTerminal, Write};
use std::process::ExitCode;
use std::{env, io};

// How many bytes of records go out at once where neither input nor output is a terminal, on which each goes out by itself.
const BLOCK: usize = 65_536;

// How many bytes the lines for standard error have room for from the beginning, so that none is lost for want of memory: a file's name
// has at most 4,096.
const LINES: usize = 8_192;

// How large a block is taken and given back before all others. The C library asks the system for each block that is larger than the
// largest one that came back to it, and gives it back to the system. Smaller ones it keeps, so that lists which are gone lend their
// pages to those that come.
const KEPT: usize = 16_777_216;

fn main(rt: HostRuntime) -> ExitCode {
    // Where there is no room for it, things go on as they would without it.
    let _ = Vec::<u8>::with_capacity(rt.alloc(), KEPT);
    let mut told = Vec::new(rt.alloc());
    let status = match run(&rt, &mut told) {
        Ok(status) => status,
        Err(_) => fixed(Status::Memory, b"out of memory\n", &mut told),
    };
    // The lines stand behind the records, also where both go to one place.
    match rt.stderr().write_all(&told) {
        Ok(()) => ExitCode::from(status.code()),
        Err(_) => ExitCode::from(Status::OutputFault.code()),
    }
}

// What the words ask for. Its records go to standard output, and the lines for standard error to a list; an error is want of memory.
fn run(rt: &HostRuntime, told: &mut Vec<u8>) -> io::Result<Status> {
    told.reserve(LINES)?;
    let words = words(rt)?;
    let room = if rt.stdin().is_terminal() || rt.stdout().is_terminal() {
        0
    } else {
        BLOCK
    };
    let mut records = BufWriter::with_capacity(rt.alloc(), room, rt.stdout())?;
    let status = eft(
        rt.alloc(),
        &words,
        &mut FileLibrary::new(rt),
        &mut StreamSource::new(rt.stdin()),
        &mut StreamSink::new(&mut records),
        &mut StreamSink::new(&mut *told),
    );
    match records.flush() {
        Ok(()) => Ok(status),
        Err(_) => Ok(fixed(Status::OutputFault, b"output fault\n", told)),
    }
}

// A status with its line, in place of what was told.
fn fixed(status: Status, line: &[u8], told: &mut Vec<u8>) -> Status {
    told.clear();
    let _ = told.extend_from_slice(line);
    status
}

// The words after the program's name; none where one isn't text, since that fits no command.
fn words(rt: &HostRuntime) -> io::Result<Vec<String>> {
    let mut words = Vec::new(rt.alloc());
    match env::args(rt) {
        Ok(all) => {
            for word in all.skip(1) {
                words.push(word)?;
            }
        }
        Err(error) if error.kind() == io::ErrorKind::OutOfMemory => return Err(error),
        Err(_) => {}
    }
    Ok(words)
}
