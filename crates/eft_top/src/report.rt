// What a call has to show on diag.
ghost use Rattle.std.specs.Prelude.{◌≡◌, ◌++◌};
ghost use Rattle.eft_top.specs.Delivery.{Delivers};
ghost use Rattle.eft_top.specs.Outcome.{HasFault};
ghost use Rattle.eft_top.specs.Report.{IsReport, counts_at, line_at, line_bytes, report_bytes, status_at};

use crate::Status;
use crate::lines::{put_counts, put_fault, put_limit, put_stop, put_trap};
use crate::puts::put_all;
use front::name_of;
use ground::{Fault, List, Place, Text, Trap};
use ports::{Failed, Sink};
use runner::End;

/// A line for diag, which takes no memory to be put.
#[derive(Drop)]
pub enum Line {
    /// One that the program has.
    Fixed(&'static str),
    /// That of a fault in the file of a name.
    Fault(Fault, Text),
    /// That of a trap, with the names of the files.
    Trap(Trap, Place, List<Text>),
    /// That of a STOP with a number.
    Stop(u16),
    /// That of a run at its limit of steps.
    Limit(u64),
}

impl Line {
    /// Puts it.
    pub fn put<D: Sink>(&self, diag: &mut D) -> Result<(), Failed>
        ensures { Delivers D.puts D.faults diag.old diag.new (line_bytes self.now) result }
    {
        match self {
            Line::Fixed(text) => put_all(diag, text.as_bytes()),
            Line::Fault(fault, name) => put_fault(diag, *fault, name.as_bytes()),
            Line::Trap(trap, place, files) => {
                put_trap(diag, *trap, name_of(files, place.file), place.line)
            }
            Line::Stop(number) => put_stop(diag, *number),
            Line::Limit(limit) => put_limit(diag, *limit),
        }
    }
}

/// How many statements of a run began, and how many instructions were executed.
#[derive(Clone, Copy)]
pub struct Counts {
    pub begun: u64,
    pub executed: u64,
}

/// A status, and what diag gets: the counts, where they are asked for, and a line.
#[derive(Drop)]
pub struct Report {
    pub status: Status,
    pub counts: Option<Counts>,
    pub line: Line,
}

impl Report {
    /// Puts what diag gets.
    pub fn put<D: Sink>(&self, diag: &mut D) -> Result<(), Failed>
        ensures { Delivers D.puts D.faults diag.old diag.new (report_bytes self.now) result }
    {
        let Some(counts) = self.counts else {
            return self.line.put(diag);
        };
        match put_counts(diag, counts.begun, counts.executed) {
            Ok(()) => self.line.put(diag),
            Err(Failed) => Err(Failed),
        }
    }

    /// A status whose line says all.
    pub fn fixed(status: Status, line: &'static str) -> Report
        ensures status { result.status ≡ status }
        ensures line { report_bytes result ≡ line.entry.now }
    {
        Report {
            status,
            counts: None,
            line: Line::Fixed(line),
        }
    }

    /// A fault in the file of this name.
    pub fn of_fault(fault: Fault, file: Text) -> Report
        ensures { IsReport result (HasFault fault file) }
    {
        Report {
            status: Status::SourceFault,
            counts: None,
            line: Line::Fault(fault, file),
        }
    }

    /// The end of a run with this limit of steps, where files have these names. Where a put has failed its counts are not shown.
    pub fn of_end(end: End, limit: u64, files: List<Text>, counts: Option<Counts>) -> Report
        ensures status { result.status ≡ status_at end }
        ensures line { report_bytes result ≡ counts_at counts end ++ line_at files.items limit end }
    {
        match end {
            End::Done => Report {
                status: Status::Done,
                counts,
                line: Line::Fixed(""),
            },
            End::Stopped(number) => Report {
                status: Status::Stopped(number),
                counts,
                line: Line::Stop(number),
            },
            End::Trapped(trap, place) => Report {
                status: Status::Trapped(trap),
                counts,
                line: Line::Trap(trap, place, files),
            },
            End::StepLimit => Report {
                status: Status::StepLimit,
                counts,
                line: Line::Limit(limit),
            },
            End::InputFault => Report {
                status: Status::InputFault,
                counts,
                line: Line::Fixed("input fault\n"),
            },
            End::OutputFault => Report::fixed(Status::OutputFault, "output fault\n"),
        }
    }
}
