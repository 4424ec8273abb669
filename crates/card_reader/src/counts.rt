// What is counted against the limits of a deck.
ghost use Rattle.std.specs.Prelude.{◌≡◌, ◌≤◌};
ghost use Rattle.card_reader.specs.Reading.{after_end as counts_after_end, after_initial as counts_after_initial, passed as passed_by, units_begun as units_begun_by};

/// The units and statements so far, and whether the last unit has not come to its END line.
#[derive(Clone, Copy)]
pub struct Counts {
    pub unfinished: bool,
    pub units: u32,
    pub statements: u32,
}

impl Counts {
    fn units_begun(self) -> u32
        requires { self.units ≤ 600 }
        ensures { result ≡ units_begun_by self }
    {
        if self.unfinished {
            self.units
        } else {
            self.units + 1
        }
    }

    pub fn after_initial(self) -> Counts
        requires units { self.units ≤ 600 }
        requires statements { self.statements ≤ 2000000 }
        ensures { result ≡ counts_after_initial self }
    {
        Counts {
            unfinished: true,
            units: self.units_begun(),
            statements: self.statements + 1,
        }
    }

    pub fn after_end(self) -> Counts
        requires units { self.units ≤ 600 }
        ensures { result ≡ counts_after_end self }
    {
        Counts {
            unfinished: false,
            units: self.units_begun(),
            statements: self.statements,
        }
    }

    /// The number of the limit that is passed.
    pub fn passed(self) -> Option<u64>
        ensures { result ≡ passed_by self }
    {
        if self.units > 600 {
            Some(5)
        } else if self.statements > 2_000_000 {
            Some(12)
        } else {
            None
        }
    }
}
