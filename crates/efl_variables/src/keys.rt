// The numbers of variables, which the same procedure, block and name alone share.
ghost use Rattle.std.specs.Prelude.{◌≡◌, ℕ, List, Some, IfOk, reverse};
ghost use Rattle.efl_scoped.specs.Seen.{table_of};
ghost use Rattle.efl_variables.specs.Keys.{list_number, key_of, IsTextNumber, IsKey};

use efl_scoped::Pairs;
use std::alloc::AllocError;

/// The number of a variable of a procedure, by that of the place of its block.
pub fn key(unit: usize, home: usize, name: &[u8], numbers: &mut Pairs) -> Result<usize, AllocError>
    ensures { IfOk result (λ n. IsKey (table_of numbers.old) unit home name.now (table_of numbers.new) n) }
{
    let block = numbers.number(unit, home)?;
    let word = name_number(name, numbers)?;
    numbers.number(block, word)
}

fn name_number(name: &[u8], numbers: &mut Pairs) -> Result<usize, AllocError>
    ensures { IfOk result (λ n. IsTextNumber (table_of numbers.old) (reverse name.now) (table_of numbers.new) n) }
{
    let mut number = 0;
    for letter in name {
        number = numbers.number(*letter as usize, number)?;
    }
    Ok(number)
}

/// The number of a pair, if it has one.
pub fn find(a: usize, b: usize, numbers: &Pairs) -> Option<usize>
    ensures { result ≡ table_of numbers.now a b }
{
    numbers.table.get(&(a, b)).copied()
}

/// The number of a variable of a procedure, by that of the place of its block, if it has one.
pub fn find_key(unit: usize, home: usize, name: &[u8], numbers: &Pairs) -> Option<usize>
    ensures { (h : List ℕ) → list_number (table_of numbers.now) h ≡ Some home → result ≡ key_of (table_of numbers.now) unit h name.now }
{
    let block = find(unit, home, numbers)?;
    let word = find_name(name, numbers)?;
    find(block, word, numbers)
}

fn find_name(name: &[u8], numbers: &Pairs) -> Option<usize>
    ensures { result ≡ list_number (table_of numbers.now) (reverse name.now) }
{
    let mut number = 0;
    for letter in name {
        number = find(*letter as usize, number, numbers)?;
    }
    Some(number)
}
