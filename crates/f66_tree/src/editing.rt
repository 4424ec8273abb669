// What formatted editing speaks of: the ways, the edits that take an item, and the turns of a statement.

/// What a statement does with records (X3.9-1966, section 7.1.3).
#[derive(Clone, Copy, Debug, PartialEq, Eq)]
pub enum Way {
    Reading,
    Writing,
}

/// An edit that takes an item: `Iw`, `Lw` and `A1` (section 7.2.3).
#[derive(Clone, Copy, Debug, PartialEq, Eq)]
pub enum EditKind {
    Whole,
    Truth,
    Letter,
}

/// What comes next in a statement: an edit that is ready for an item, or the end of a record.
#[derive(Clone, Copy, Debug, PartialEq, Eq)]
pub enum Turn {
    Ready(EditKind),
    RecordDone,
}

/// Where a statement stands between two turns.
#[derive(Clone, Copy, Debug, PartialEq, Eq)]
pub enum Mark {
    /// Nothing is due.
    Between,
    /// An edit of this width waits for its item.
    Due(EditKind, u16),
    /// The record in hand is complete.
    Complete,
    /// The statement has ended.
    Over,
}
