// The header of a unit.
ghost use Rattle.std.specs.Prelude.{◌≡◌, [], IfOk, List};
ghost use Rattle.ground.specs.declared.value.Kind.TheVariants as kinds;
ghost use Rattle.f66_tree.specs.Views.{header_of as header_seen};
ghost use Rattle.efl_tree.specs.Syntax.{EflProcedure as Procedure};
ghost use Rattle.efl_tree.specs.Views.{procedure_of};
ghost use Rattle.efl_scope.specs.Marks.{Located, number_of};
ghost use Rattle.efl_scope.specs.Scopes.{Variable};
ghost use Rattle.efl_types.specs.Signatures.{Result as Given};
ghost use Rattle.efl_variables.specs.Numbered.{AreVariables};
ghost use Rattle.efl_emit.specs.Names.{home_of, temp_of};
ghost use Rattle.efl_lowered.specs.Lowering.{dummies, header_of, named_header, or_spare};
ghost use Rattle.efl_units.specs.Results.{kind_given};
ghost use Rattle.efl_units.specs.NamesSeen.{naming_in};

use crate::{given_kind, word_of};
use efl_emit::{Naming, temporary};
use efl_tree::{EflName, EflProcedure};
use efl_variables::Variables;
use f66_tree::{Header, Name};
use ground::{Kind, List};
use std::alloc::{AllocError, Global};

/// The first line of the unit of a procedure, which has room for so many temporaries.
pub fn header(
    alloc: Global,
    naming: &Naming,
    variables: &Variables,
    unit: usize,
    procedure: &EflProcedure,
    room: usize,
) -> Result<Header, AllocError>
    ensures { IfOk result (λ header. (xs : List Located) → AreVariables xs variables.now → header_seen header ≡ header_of (naming_in naming.now room) xs unit (procedure_of procedure.now)) }
{
    if procedure.name.is_none() {
        return Ok(Header::Main);
    }
    let list = dummies(alloc, naming, variables, unit, &procedure.formals)?;
    named_header(naming, unit, given_kind(&procedure.result), list, room)
}

// The first line of the unit of a procedure that has a name.
fn named_header(
    naming: &Naming,
    unit: usize,
    given: Option<Kind>,
    list: List<Name>,
    room: usize,
) -> Result<Header, AllocError>
    ensures { IfOk result (λ header. (r : Given) → kind_given r ≡ given → header_seen header ≡ named_header (naming_in naming.now room) unit r list.items) }
{
    let name = naming.callee(unit)?;
    match given {
        None => Ok(Header::Sub(name, list)),
        Some(kind) => Ok(Header::Func(Some(word_of(kind)), name, or_spare(list, room)?)),
    }
}

// A function of FORTRAN has a dummy at least: one that nothing uses, behind the temporaries.
fn or_spare(mut list: List<Name>, room: usize) -> Result<List<Name>, AllocError>
    ensures { IfOk result (λ all. all.items ≡ or_spare (temp_of kinds.Integer room) list.items) }
{
    if !list.is_empty() {
        return Ok(list);
    }
    list.push(temporary(Kind::Integer, room))?;
    Ok(list)
}

// The names of the formals of a procedure.
fn dummies(
    alloc: Global,
    naming: &Naming,
    variables: &Variables,
    unit: usize,
    formals: &[EflName],
) -> Result<List<Name>, AllocError>
    ensures { IfOk result (λ names. (xs : List Located) (u : Procedure) → AreVariables xs variables.now → u.formals ≡ formals.now → names.items ≡ dummies (naming_in naming.now 0) xs unit u) }
{
    let mut names = Vec::new(alloc);
    for formal in formals {
        let number = formal_number(variables, unit, formal.as_bytes());
        let name = naming.home(number)?;
        names.push(name)?;
    }
    Ok(names)
}

// The number of a variable of this name in the outer block of a procedure.
fn formal_number(variables: &Variables, unit: usize, name: &[u8]) -> usize
    ensures { (xs : List Located) (v : Variable) → AreVariables xs variables.now → v.home ≡ [] → v.name ≡ name.now → result ≡ number_of xs unit v }
{
    variables.number(unit, Some(0), name).unwrap_or(0)
}
