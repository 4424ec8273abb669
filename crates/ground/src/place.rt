// Where a part of a text stands.

/// A line of a file. Files have numbers in the order of their first use, from 0; lines count from 1, and line 0
/// stands for the whole file.
#[derive(Clone, Copy, Debug, PartialEq, Eq)]
pub struct Place {
    pub file: u16,
    pub line: u32,
}
