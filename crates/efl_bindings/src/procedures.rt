// The procedures that names before parentheses call.
ghost use Rattle.std.specs.Prelude.{◌≡◌, IfOk, OnOk, map, Some, None, if◌then◌else◌};
ghost use Rattle.std.specs.Option.{option_or};
ghost use Rattle.std.specs.Str.{bytes_eq};
ghost use Rattle.rule_table.specs.Words.{is_some_and};
ghost use Rattle.efl_tree.specs.Syntax.{Text};
ghost use Rattle.efl_tree.specs.Views.{type_of, type_if_any, procedure_of};
ghost use Rattle.efl_types.specs.Signatures.{result_of};
ghost use Rattle.efl_typed.specs.Typing.{given_kind};
ghost use Rattle.efl_bindings.specs.Bindings.{procedure_in, AreProcedures};

use efl_tree::{EflName, EflProcedure, EflType};
use ground::Kind;
use rule_table::note;
use std::alloc::{AllocError, Global};
use std::collections::HashMap;

/// The first procedure of each name: its number, and the type of its value.
#[derive(Drop)]
pub struct Procedures<'a> {
    pub table: HashMap<&'a [u8], (usize, Kind)>,
}

impl<'a> Procedures<'a> {
    /// The first procedure of a name.
    pub fn procedure(&self, name: &[u8]) -> Option<(usize, Kind)>
        ensures { result ≡ procedure_in self.now name.now }
    {
        match self.table.get(name) {
            None => None,
            Some(procedure) => Some(*procedure),
        }
    }
}

/// The procedures of a list by their names.
pub fn procedures_of<'a>(
    alloc: Global,
    list: &'a [EflProcedure],
) -> Result<Procedures<'a>, AllocError>
    ensures { IfOk result (λ procedures. AreProcedures (map procedure_of list.now) procedures) }
{
    let mut procedures = Procedures {
        table: HashMap::new(alloc),
    };
    for (number, procedure) in list.iter().enumerate() {
        let kind = given_kind(&procedure.result);
        note_name(&procedure.name, number, kind, &mut procedures)?;
    }
    Ok(procedures)
}

fn note_name<'a>(
    name: &'a Option<EflName>,
    number: usize,
    kind: Kind,
    procedures: &mut Procedures<'a>,
) -> Result<(), AllocError>
    ensures { OnOk result ((x : Text) →
        procedure_in procedures.new x ≡ option_or (procedure_in procedures.old x) (if is_some_and (bytes_eq x) name.now then Some (number, kind) else None)) }
{
    match name {
        None => Ok(()),
        Some(name) => note(&mut procedures.table, name.as_bytes(), (number, kind)),
    }
}

/// The type of what a procedure of this type gives.
fn given_kind(kind: &Option<EflType>) -> Kind
    ensures { result ≡ given_kind (result_of (type_if_any kind.now)) }
{
    match kind {
        None => Kind::Integer,
        Some(kind) => given_by(kind),
    }
}

fn given_by(kind: &EflType) -> Kind
    ensures { result ≡ given_kind (result_of (Some (type_of kind.now))) }
{
    match kind {
        EflType::Logical => Kind::Logical,
        EflType::Integer
        | EflType::Real(_)
        | EflType::Complex(_)
        | EflType::Named(_)
        | EflType::Shape(_, _) => Kind::Integer,
    }
}
