// The names and labels of FORTRAN that stand for those of EFL.
ghost use Rattle.std.specs.Prelude.{◌≡◌, ◌<◌, IfOk};
ghost use Rattle.efl_routes.specs.Expressions.{intrinsic_name as name_of_intrinsic};
ghost use Rattle.efl_emit.specs.Names.{callee_of, digit_at, home_of, label_of, name_at, number_of, own_of, temp_of};
ghost use Rattle.efl_typed_tree.specs.Views.{intrinsic_of};

use efl_typed_tree::Intrinsic;
use f66_tree::Name;
use ground::{Kind, List, Text};
use std::alloc::{AllocError, Global};
use std::collections::HashMap;

/// The names of a unit's variables and of the procedures, its own, its labels, and the first label that is made.
#[derive(Drop)]
pub struct Naming<'a> {
    /// The name of each variable, by its number.
    pub homes: List<Name>,
    /// The name of each procedure, by its number.
    pub callees: List<Name>,
    pub own: Name,
    /// The label that each label of the source has.
    pub labels: HashMap<&'a [u8], u32>,
    pub first: u32,
}

impl<'a> Naming<'a> {
    pub fn home(&self, variable: usize) -> Result<Name, AllocError>
        ensures { IfOk result (λ name. name ≡ home_of self.now variable) }
    {
        name_at(&self.homes, variable)
    }

    pub fn callee(&self, procedure: usize) -> Result<Name, AllocError>
        ensures { IfOk result (λ name. name ≡ callee_of self.now procedure) }
    {
        name_at(&self.callees, procedure)
    }

    pub fn own(&self) -> Result<Name, AllocError>
        ensures { IfOk result (λ name. name ≡ own_of self.now) }
    {
        self.own.copy()
    }

    pub fn label(&self, label: &Text) -> u32
        ensures { result ≡ label_of self.now label.now }
    {
        match self.labels.get(label.as_bytes()) {
            None => 0,
            Some(label) => *label,
        }
    }
}

// The name with this number, and the empty one past the last.
fn name_at(names: &[Name], number: usize) -> Result<Name, AllocError>
    ensures { IfOk result (λ name. name ≡ name_at names.now number) }
{
    match names.get(number) {
        None => Ok(Name::new(Text::empty())),
        Some(name) => name.copy(),
    }
}

/// The name of a temporary.
pub fn temporary(kind: Kind, number: usize) -> Name
    ensures { result ≡ temp_of kind number }
{
    let number = last_digits(kind, number);
    let text = [
        b'Z',
        digit(number, 10_000),
        digit(number, 1_000),
        digit(number, 100),
        digit(number, 10),
        digit(number, 1),
    ];
    Name::new(Text::short(&text))
}

// The last five digits of the number in a temporary's name.
fn last_digits(kind: Kind, number: usize) -> usize
    ensures small { result < 100000 }
    ensures first { digit_at result 10000 ≡ digit_at (number_of kind number) 10000 }
    ensures second { digit_at result 1000 ≡ digit_at (number_of kind number) 1000 }
    ensures third { digit_at result 100 ≡ digit_at (number_of kind number) 100 }
    ensures fourth { digit_at result 10 ≡ digit_at (number_of kind number) 10 }
    ensures last { digit_at result 1 ≡ digit_at (number_of kind number) 1 }
{
    let pair = 2 * (number % 50_000);
    match kind {
        Kind::Integer => pair,
        Kind::Logical => pair + 1,
    }
}

/// The digit of a number at a unit, by its code.
pub fn digit(number: usize, unit: usize) -> u8
    requires { 0 < unit }
    ensures { result ≡ digit_at number unit }
{
    48 + (number / unit % 10) as u8
}

/// The name of an intrinsic function.
pub fn intrinsic_name(alloc: Global, intrinsic: Intrinsic) -> Result<Name, AllocError>
    ensures { IfOk result (λ name. name ≡ name_of_intrinsic (intrinsic_of intrinsic)) }
{
    let word = match intrinsic {
        Intrinsic::Iabs => b"IABS".as_slice(),
        Intrinsic::Mod => b"MOD".as_slice(),
        Intrinsic::Isign => b"ISIGN".as_slice(),
        Intrinsic::Idim => b"IDIM".as_slice(),
        Intrinsic::Max0 => b"MAX0".as_slice(),
        Intrinsic::Min0 => b"MIN0".as_slice(),
    };
    Ok(Name::new(Text::from_slice(alloc, word)?))
}
