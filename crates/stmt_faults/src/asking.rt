// What is asked of numbers and names.
ghost use Rattle.std.specs.Prelude.{◌≡◌};
ghost use Rattle.stmt_reader.specs.Faults.{asked_number};
ghost use Rattle.stmt_faults.specs.Asking.{asked_of};

use f66_tree::Name;

/// The greatest number.
const GREATEST: u32 = 2_147_483_647;

/// The characters that a name may have (X3.9-1966, section 3.5).
const LONGEST: usize = 6;

/// What is asked: whether a number is too large, or a name too long.
#[derive(Clone, Copy)]
pub enum Asked {
    TooLarge,
    TooLong,
}

impl Asked {
    /// Of a label or a count.
    pub fn of_count(self, n: u32) -> bool
        ensures { result ≡ (asked_of self).number n }
    {
        match self {
            Asked::TooLarge => n > GREATEST,
            Asked::TooLong => false,
        }
    }

    /// Of an integer constant.
    pub fn of_number(self, n: i64) -> bool
        ensures { result ≡ asked_number (asked_of self) n }
    {
        match self {
            Asked::TooLarge => n > i64::from(GREATEST),
            Asked::TooLong => false,
        }
    }

    /// Of a name.
    pub fn of_name(self, name: &Name) -> bool
        ensures { result ≡ (asked_of self).name name.now }
    {
        match self {
            Asked::TooLarge => false,
            Asked::TooLong => name.as_bytes().len() > LONGEST,
        }
    }
}
