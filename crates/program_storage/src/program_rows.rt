// The rows of a program, and the links between them.

use crate::unit_rows::UnitRows;
use offset_classes::Link;

/// The rows of the units of a program, how many places each row of the program has, and the links between rows.
#[derive(Drop)]
pub struct ProgramRows<'a> {
    pub units: Vec<UnitRows<'a>>,
    pub sizes: Vec<usize>,
    pub links: Vec<Link>,
}
