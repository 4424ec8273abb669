// What the productions of programs, procedures and headers make.
ghost use Rattle.std.specs.Prelude.{◌≡◌, [], None, Some, reverse, IfOk};
ghost use Rattle.efl_tree.specs.Views.{decls_of, stmts_of, type_if_any, procedure_of};
ghost use Rattle.efl_parse_values.specs.Values.{value, values, at, header as header_val, heading as heading_val, procedure as procedure_val, program as program_val};
ghost use Rattle.efl_parse_values.specs.Parts.{place_in, name_in, type_in, as_names, heading_name, decls_in, body_in, as_procedures};
ghost use Rattle.efl_parse_statements.specs.Statements.{made};

use efl_parse_values::{
    Header, Item, Lists, ProcedureValue, Value, into_lists, into_name, into_type, ordered,
    place_of, pop_value, skip, take_place,
};
use efl_tree::{EflDecl, EflName, EflProcedure, EflProgram, EflStmt};
use ground::{List, Place};
use std::alloc::{AllocError, Global};

pub fn program_by(alloc: Global, parts: &mut Vec<Value>) -> Result<Value, AllocError>
    ensures { IfOk result (λ v. value v ≡ program_val (record { procedures = as_procedures (at 1 (values parts.old.items)); finish = place_in (at 0 (values parts.old.items)) })) }
{
    let finish = take_place(pop_value(parts));
    let procedures: List<EflProcedure> = ordered(alloc, pop_value(parts));
    Ok(Value::Procedure(ProcedureValue::Program(EflProgram { procedures, finish })))
}

/// A procedure with this header.
fn make(
    alloc: Global,
    header: Value,
    declarations: List<EflDecl>,
    body: List<EflStmt>,
    finish: Place,
) -> Result<Value, AllocError>
    ensures { IfOk result (λ v. value v ≡ procedure_val (made (value header) (decls_of declarations.items) (stmts_of body.items) finish)) }
{
    match header {
        Value::Procedure(ProcedureValue::Header(header)) => {
            let Header {
                place,
                result,
                name,
                mut formals,
            } = Box::into_inner(header);
            formals.reverse();
            procedure_value(
                alloc,
                EflProcedure {
                    result,
                    name,
                    formals,
                    declarations,
                    body,
                    place,
                    finish,
                },
            )
        }
        other => {
            drop(other);
            procedure_value(
                alloc,
                EflProcedure {
                    result: None,
                    name: None,
                    formals: Vec::new(alloc),
                    declarations,
                    body,
                    place: finish,
                    finish,
                },
            )
        }
    }
}

fn procedure_value(alloc: Global, procedure: EflProcedure) -> Result<Value, AllocError>
    ensures { IfOk result (λ v. value v ≡ procedure_val (procedure_of procedure)) }
{
    let procedure = Box::new(alloc, procedure)?;
    Ok(Value::Procedure(ProcedureValue::Procedure(procedure)))
}

pub fn procedure_by(alloc: Global, parts: &mut Vec<Value>) -> Result<Value, AllocError>
    ensures { IfOk result (λ v. value v ≡ procedure_val (made (at 4 (values parts.old.items)) (decls_in (at 2 (values parts.old.items))) (body_in (at 2 (values parts.old.items))) (place_in (at 1 (values parts.old.items))))) }
{
    skip(parts);
    let finish = take_place(pop_value(parts));
    let Lists {
        mut declarations,
        mut body,
    } = into_lists(alloc, pop_value(parts));
    declarations.reverse();
    body.reverse();
    skip(parts);
    let header = pop_value(parts);
    make(alloc, header, declarations, body, finish)
}

fn header_value(alloc: Global, header: Header) -> Result<Value, AllocError>
    ensures { IfOk result (λ v. value v ≡ header_val header.place (type_if_any header.result) header.name (reverse header.formals.items)) }
{
    Ok(Value::Procedure(ProcedureValue::Header(Box::new(alloc, header)?)))
}

pub fn typed_header_by(alloc: Global, parts: &mut Vec<Value>) -> Result<Value, AllocError>
    ensures { IfOk result (λ v. value v ≡ header_val (place_in (at 3 (values parts.old.items))) (Some (type_in (at 3 (values parts.old.items)))) (Some (name_in (at 1 (values parts.old.items)))) (as_names (at 0 (values parts.old.items)))) }
{
    let formals = EflName::into_list(alloc, pop_value(parts));
    let name = into_name(pop_value(parts));
    skip(parts);
    let kind = pop_value(parts);
    let place = place_of(&kind);
    let result = Some(into_type(kind));
    let name = Some(name);
    header_value(
        alloc,
        Header {
            place,
            result,
            name,
            formals,
        },
    )
}

fn into_heading(alloc: Global, part: Value) -> (Option<EflName>, Vec<EflName>)
    ensures name { result.0 ≡ heading_name (value part) }
    ensures formals { reverse result.1.items ≡ as_names (value part) }
{
    match part {
        Value::Procedure(ProcedureValue::Heading(name, formals)) => (name, formals),
        other => (None, EflName::into_list(alloc, other)),
    }
}

pub fn plain_header_by(alloc: Global, parts: &mut Vec<Value>) -> Result<Value, AllocError>
    ensures { IfOk result (λ v. value v ≡ header_val (place_in (at 1 (values parts.old.items))) None (heading_name (at 0 (values parts.old.items))) (as_names (at 0 (values parts.old.items)))) }
{
    let (name, formals) = into_heading(alloc, pop_value(parts));
    let place = take_place(pop_value(parts));
    let result = None;
    header_value(
        alloc,
        Header {
            place,
            result,
            name,
            formals,
        },
    )
}

pub fn named_heading_by(alloc: Global, parts: &mut Vec<Value>) -> Result<Value, AllocError>
    ensures { IfOk result (λ v. value v ≡ heading_val (Some (name_in (at 1 (values parts.old.items)))) (as_names (at 0 (values parts.old.items)))) }
{
    let formals = EflName::into_list(alloc, pop_value(parts));
    let name = into_name(pop_value(parts));
    Ok(Value::Procedure(ProcedureValue::Heading(Some(name), formals)))
}

pub fn main_heading(alloc: Global) -> Value
    ensures { value result ≡ heading_val None [] }
{
    Value::Procedure(ProcedureValue::Heading(None, Vec::new(alloc)))
}
