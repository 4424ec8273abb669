// The unit of a procedure.
ghost use Rattle.std.specs.Prelude.{◌≡◌, ◌<◌, [], ◌++◌, length, slice_get, IfOk, List, OnOk, Some};
ghost use Rattle.f66_tree.specs.Syntax.{Line};
ghost use Rattle.f66_tree.specs.Views.{lines_of as lines_seen, routine_of};
ghost use Rattle.routes.specs.Code.{all_code};
ghost use Rattle.routes.specs.Units.{ending};
ghost use Rattle.efl_routes.specs.Statements.{all_route};
ghost use Rattle.efl_tree.specs.Syntax.{EflProgram};
ghost use Rattle.efl_tree.specs.Views.{procedure_of};
ghost use Rattle.efl_scope.specs.Marks.{program_variables};
ghost use Rattle.efl_typed.specs.Typing.{bodies_of};
ghost use Rattle.efl_typed_tree.specs.Views.{stmts_of};
ghost use Rattle.efl_variables.specs.Numbered.{AreVariables};
ghost use Rattle.efl_emit.specs.Names.{callee_of, home_of, label_of, made_of, own_of, temp_of};
ghost use Rattle.efl_lowered.specs.Needs.{all_need};
ghost use Rattle.efl_lowered.specs.Lowering.{lines_of, typed_of, unit_of};
ghost use Rattle.efl_units.specs.NamesSeen.{naming_in};
ghost use Rattle.efl_units.specs.TypedViews.{AreOfKind, AreTyped};

use crate::{OfKind, Typed, header, put_types, typed_names, word_of};
use efl_emit::{Naming, emit_body};
use efl_room::needs;
use efl_tree::EflProcedure;
use efl_typed_tree::TypedStmt;
use efl_variables::Variables;
use f66_tree::{Stmt, StmtKind, Unit};
use ground::{Kind, List, Place};
use std::alloc::{AllocError, Global};

/// The unit of the procedure with this number.
pub fn unit(
    alloc: Global,
    naming: &Naming,
    typed: &Typed,
    variables: &Variables,
    number: usize,
    procedure: &EflProcedure,
    body: &[TypedStmt],
) -> Result<Unit, AllocError>
    ensures { IfOk result (λ unit. (p : EflProgram) → AreVariables (program_variables p) variables.now → AreTyped p typed.now → slice_get p.procedures number ≡ Some (procedure_of procedure.now) →
        stmts_of body.now ≡ bodies_of p number → own_of naming.now ≡ callee_of naming.now number →
        routine_of unit ≡ unit_of (naming_in naming.now (all_need (bodies_of p number) 0)) p number (procedure_of procedure.now)) }
{
    let room = needs(body)?;
    let header = header(alloc, naming, variables, number, procedure, room)?;
    let statements = unit_lines(alloc, naming, typed, number, procedure, body, room)?;
    Ok(Unit {
        header,
        statements,
        place: procedure.place,
    })
}

// Type statements, those of the body, and what ends the unit.
fn unit_lines(
    alloc: Global,
    naming: &Naming,
    typed: &Typed,
    number: usize,
    procedure: &EflProcedure,
    body: &[TypedStmt],
    room: usize,
) -> Result<List<Stmt>, AllocError>
    ensures { IfOk result (λ lines. (p : EflProgram) → AreTyped p typed.now → number < length p.procedures → stmts_of body.now ≡ bodies_of p number → own_of naming.now ≡ callee_of naming.now number →
        lines_seen lines.items ≡ lines_of (naming_in naming.now room) p number (procedure_of procedure.now)) }
{
    let mut lines = Vec::new(alloc);
    put_typed(
        alloc,
        naming,
        Kind::Integer,
        &typed.integers,
        number,
        procedure.place,
        room,
        &mut lines,
    )?;
    put_typed(
        alloc,
        naming,
        Kind::Logical,
        &typed.logicals,
        number,
        procedure.place,
        room,
        &mut lines,
    )?;
    put_body(alloc, naming, body, &mut lines)?;
    put_ending(procedure.name.is_none(), procedure.finish, &mut lines)?;
    Ok(lines)
}

// The type statements of a type.
fn put_typed(
    alloc: Global,
    naming: &Naming,
    kind: Kind,
    typed: &OfKind,
    number: usize,
    place: Place,
    room: usize,
    lines: &mut List<Stmt>,
) -> Result<(), AllocError>
    ensures { OnOk result ((p : EflProgram) → AreOfKind p kind typed.now → number < length p.procedures → lines_seen lines.new.items ≡ lines_seen lines.old.items ++ typed_of (naming_in naming.now room) p number kind place) }
{
    match typed.variables.get(number) {
        None => Ok(()),
        Some(variables) => match typed.functions.get(number) {
            None => Ok(()),
            Some(functions) => {
                let names = typed_names(alloc, naming, kind, variables, room, functions)?;
                put_types(alloc, place, word_of(kind), &names, lines)
            }
        },
    }
}

// The statements of a body.
fn put_body(
    alloc: Global,
    naming: &Naming,
    body: &[TypedStmt],
    lines: &mut List<Stmt>,
) -> Result<(), AllocError>
    ensures { OnOk result ((next : List Line) → lines_seen lines.new.items ++ next
        ≡ lines_seen lines.old.items ++ all_code (made_of naming.now) (all_route (home_of naming.now) temp_of (callee_of naming.now) (label_of naming.now) (own_of naming.now) (stmts_of body.now) [] 0) 0 [] next) }
{
    let mut code = emit_body(alloc, body, naming)?;
    lines.append(&mut code)?;
    Ok(())
}

// STOP in a main, and else RETURN.
fn put_ending(is_main: bool, place: Place, lines: &mut List<Stmt>) -> Result<(), AllocError>
    ensures { OnOk result (lines_seen lines.new.items ≡ lines_seen lines.old.items ++ ending is_main place) }
{
    let kind = if is_main {
        StmtKind::Stop(None)
    } else {
        StmtKind::Return
    };
    lines.push(Stmt {
        label: None,
        place,
        kind,
    })?;
    Ok(())
}
