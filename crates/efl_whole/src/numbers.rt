// The numbers of procedures by their names, and the first procedure whose name is taken.
ghost use Rattle.std.specs.Prelude.{◌≡◌, ℕ, IfOk, OnOk, map, Some, None, if◌then◌else◌};
ghost use Rattle.std.specs.Option.{option_or};
ghost use Rattle.std.specs.Str.{bytes_eq};
ghost use Rattle.rule_table.specs.Words.{is_some_and};
ghost use Rattle.efl_tree.specs.Syntax.{Text};
ghost use Rattle.efl_tree.specs.Views.{procedure_of};
ghost use Rattle.efl_types.specs.Whole.{number_of};
ghost use Rattle.efl_whole.specs.CallViews.{numbers_of as numbers_seen};

use efl_tree::{EflName, EflProcedure};
use rule_table::note;
use std::alloc::{AllocError, Global};
use std::collections::HashMap;

/// The number of the first procedure of each name, which contracts see by `numbers_of`.
#[derive(Drop)]
pub struct Numbers<'a> {
    pub table: HashMap<&'a [u8], usize>,
}

impl<'a> Numbers<'a> {
    /// The number of the first procedure of a name.
    pub fn number(&self, name: &[u8]) -> Option<usize>
        ensures { result ≡ numbers_seen self.now name.now }
    {
        match self.table.get(name) {
            None => None,
            Some(number) => Some(*number),
        }
    }
}

/// The numbers of procedures.
pub fn numbers_of<'a>(
    alloc: Global,
    procedures: &'a [EflProcedure],
) -> Result<Numbers<'a>, AllocError>
    ensures { IfOk result (λ numbers. (x : Text) → numbers_seen numbers x ≡ number_of (map procedure_of procedures.now) x) }
{
    let mut numbers = Numbers {
        table: HashMap::new(alloc),
    };
    for (number, procedure) in procedures.iter().enumerate() {
        note_name(&procedure.name, number, &mut numbers)?;
    }
    Ok(numbers)
}

fn note_name<'a>(
    name: &'a Option<EflName>,
    number: usize,
    numbers: &mut Numbers<'a>,
) -> Result<(), AllocError>
    ensures { OnOk result ((x : Text) →
        numbers_seen numbers.new x ≡ option_or (numbers_seen numbers.old x) (if is_some_and (bytes_eq x) name.now then Some number else None)) }
{
    match name {
        None => Ok(()),
        Some(name) => note(&mut numbers.table, name.as_bytes(), number),
    }
}
