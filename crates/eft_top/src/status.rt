// How a call of the program ends.
ghost use Rattle.std.specs.Prelude.{◌≡◌};
ghost use Rattle.eft_top.specs.Codes.{exit_code};

use ground::Trap;

/// How a call of the program ends.
#[derive(Clone, Copy, Debug, PartialEq, Eq)]
pub enum Status {
    /// All was done that was asked for.
    Done,
    /// The words are not a command.
    Usage,
    /// The text has a fault.
    SourceFault,
    /// A fetch from the library failed.
    LibraryFault,
    /// A read of the input failed where a record was wanted.
    InputFault,
    /// A put on out or on diag failed.
    OutputFault,
    /// The run was at its limit of steps.
    StepLimit,
    /// Want of memory.
    Memory,
    /// The program stopped with this number.
    Stopped(u16),
    /// The run ended by a fault of its own.
    Trapped(Trap),
}

impl Status {
    /// The exit code of the process.
    pub fn code(&self) -> u8
        ensures { result ≡ exit_code self.now }
    {
        match self {
            Status::Done => 0,
            Status::Usage => 2,
            Status::SourceFault => 3,
            Status::LibraryFault => 4,
            Status::InputFault => 5,
            Status::OutputFault => 6,
            Status::StepLimit => 7,
            Status::Memory => 8,
            Status::Stopped(_) => 9,
            Status::Trapped(trap) => 10 + trap.number(),
        }
    }
}
