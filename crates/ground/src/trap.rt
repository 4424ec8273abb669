// What ends a run by a fault of its own.
ghost use Rattle.std.specs.Prelude.{◌≡◌};
ghost use Rattle.ground.specs.TrapNames.{trap_number, trap_word};

/// What a run can trap on, in the order of the numbers from 1 on.
#[derive(Clone, Copy, Debug, PartialEq, Eq)]
pub enum Trap {
    /// A result has a magnitude above 2147483647.
    Overflow,
    /// A divisor, or the second operand of MOD, is zero.
    Division,
    /// An exponent is negative, or zero is raised to zero.
    Power,
    /// A subscript is outside its bounds, or a place is past its variable's last one.
    Subscript,
    /// A place that is read holds nothing, or a content of the other type.
    Undefined,
    /// A record is wanted and none is left.
    EndOfInput,
    /// An input field is no integer of the range, or no truth value.
    BadField,
    /// A character outside 32 to 126 is read or written as one.
    BadCharacter,
    /// A DO parameter is below one, or the first exceeds the second.
    BadDo,
    /// The index of a computed GO TO names none of its labels.
    BadBranch,
    /// Something is stored into a dummy whose actual is a value.
    ValueArgument,
    /// A READ is not on unit 5, or a WRITE not on unit 6.
    BadUnit,
    /// The edit that is met does not fit the item, or no edit for it comes.
    FormatMismatch,
    /// An output record would pass 132 characters, or an input record has more than 65,535 bytes.
    LongRecord,
}

impl Trap {
    /// The trap's number, from 1 to 14.
    pub fn number(self) -> u8
        ensures { result ≡ trap_number self }
    {
        match self {
            Trap::Overflow => 1,
            Trap::Division => 2,
            Trap::Power => 3,
            Trap::Subscript => 4,
            Trap::Undefined => 5,
            Trap::EndOfInput => 6,
            Trap::BadField => 7,
            Trap::BadCharacter => 8,
            Trap::BadDo => 9,
            Trap::BadBranch => 10,
            Trap::ValueArgument => 11,
            Trap::BadUnit => 12,
            Trap::FormatMismatch => 13,
            Trap::LongRecord => 14,
        }
    }

    /// The trap's name, as a report shows it.
    pub fn word(self) -> &'static str
        ensures { result.now ≡ trap_word self }
    {
        match self {
            Trap::Overflow => "Overflow",
            Trap::Division => "Division",
            Trap::Power => "Power",
            Trap::Subscript => "Subscript",
            Trap::Undefined => "Undefined",
            Trap::EndOfInput => "EndOfInput",
            Trap::BadField => "BadField",
            Trap::BadCharacter => "BadCharacter",
            Trap::BadDo => "BadDo",
            Trap::BadBranch => "BadBranch",
            Trap::ValueArgument => "ValueArgument",
            Trap::BadUnit => "BadUnit",
            Trap::FormatMismatch => "FormatMismatch",
            Trap::LongRecord => "LongRecord",
        }
    }
}
