// The units of FORTRAN that say what those of Ratfor say.
ghost use Rattle.std.specs.Prelude.{◌≡◌, ◌∷◌, [], ◌++◌, map, IfOk, OnOk};
ghost use Rattle.f66_tree.specs.Views.{act_of, header_of, lines_of, routine_of};
ghost use Rattle.f66_names.specs.ActViews.{act_said, acts_of};
ghost use Rattle.rat_tree.specs.Views.{commands, rat_routine_of};
ghost use Rattle.rat_check.specs.Parts.{unit_parts};
ghost use Rattle.rat_check.specs.PartViews.{part_of, parts_seen};
ghost use Rattle.rat_said.specs.Said.{part_lines, said_line, said_lines, said_routine};

use f66_names::Saying;
use f66_tree::{
    Counting, Expr, Header, Name, Stmt, StmtKind, Unit, copy_expr, copy_kind, copy_par,
};
use ground::List;
use rat_check::{Part, sayings_into};
use rat_tree::RatUnit;
use std::alloc::{AllocError, Global};

/// The unit of FORTRAN that says what a unit of these parts says, statement by statement in reading order.
pub fn said_unit<'a>(
    alloc: Global,
    unit: &'a RatUnit,
    parts: &[Part<'a>],
) -> Result<Unit, AllocError>
    requires { parts_seen parts.now ≡ unit_parts (commands unit.now.body.items) }
    ensures { IfOk result (λ said. routine_of said ≡ said_routine (rat_routine_of unit.now)) }
{
    let statements = statements_of(alloc, &unit.header, parts)?;
    let header = copy_header(alloc, &unit.header)?;
    Ok(Unit {
        header,
        statements,
        place: unit.place,
    })
}

/// What the parts of a unit say.
fn statements_of<'a>(
    alloc: Global,
    header: &'a Header,
    parts: &[Part<'a>],
) -> Result<List<Stmt>, AllocError>
    ensures { IfOk result (λ list. lines_of list.items ≡ said_lines (header_of header.now) (parts_seen parts.now)) }
{
    // Most parts say one thing.
    let mut statements = Vec::with_capacity(alloc, parts.len())?;
    let mut sayings = Vec::new(alloc);
    for part in parts {
        add_part(alloc, header, part, &mut sayings, &mut statements)?;
    }
    Ok(statements)
}

/// Adds what a part says, which the list of sayings gets.
fn add_part<'a>(
    alloc: Global,
    header: &'a Header,
    part: &Part<'a>,
    sayings: &mut Vec<Saying<'a>>,
    statements: &mut List<Stmt>,
) -> Result<(), AllocError>
    ensures { OnOk result (lines_of statements.new.items ≡ lines_of statements.old.items ++ part_lines (header_of header.now) (part_of part.now)) }
{
    sayings_into(header, part.form, sayings)?;
    if sayings.is_empty() {
        add(part, StmtKind::Continue, statements)
    } else {
        add_sayings(alloc, part, sayings, statements)
    }
}

fn add_sayings(
    alloc: Global,
    part: &Part,
    sayings: &[Saying],
    statements: &mut List<Stmt>,
) -> Result<(), AllocError>
    ensures { OnOk result (lines_of statements.new.items ≡ lines_of statements.old.items ++ map (said_line (part_of part.now)) (acts_of sayings.now)) }
{
    for saying in sayings {
        add(part, kind_said(alloc, saying)?, statements)?;
    }
    Ok(())
}

pub(crate) fn add(
    part: &Part,
    kind: StmtKind,
    statements: &mut List<Stmt>,
) -> Result<(), AllocError>
    ensures { OnOk result (lines_of statements.new.items ≡ lines_of statements.old.items ++ said_line (part_of part.now) (act_of kind) ∷ []) }
{
    statements.push(Stmt {
        label: part.label,
        place: part.place,
        kind,
    })?;
    Ok(())
}

/// A statement that says the same.
pub(crate) fn kind_said(alloc: Global, saying: &Saying) -> Result<StmtKind, AllocError>
    ensures { IfOk result (λ kind. act_of kind ≡ act_said saying.now) }
{
    match *saying {
        Saying::Act(kind) => copy_kind(alloc, kind),
        Saying::Condition(e) => {
            let test = copy_expr(alloc, e)?;
            let nothing = Box::new(alloc, StmtKind::Continue)?;
            Ok(StmtKind::When(test, nothing))
        }
        Saying::Value(e) => {
            let value = copy_expr(alloc, e)?;
            Ok(StmtKind::Sign(value, 0, 0, 0))
        }
        Saying::Counting(variable, first, last, step) => {
            let variable = variable.copy()?;
            let first = copy_par(first)?;
            let last = copy_par(last)?;
            let step = copy_par(step)?;
            let counting = Counting {
                variable,
                first,
                last,
                step,
            };
            Ok(StmtKind::Loop(0, Box::new(alloc, counting)?))
        }
        Saying::Returned(name, e) => {
            let name = name.copy()?;
            let value = copy_expr(alloc, e)?;
            Ok(StmtKind::Assign(Expr::Ref(name), value))
        }
    }
}

pub(crate) fn copy_header(alloc: Global, header: &Header) -> Result<Header, AllocError>
    ensures { IfOk result (λ copy. header_of copy ≡ header_of header.now) }
{
    match header {
        Header::Main => Ok(Header::Main),
        Header::Block => Ok(Header::Block),
        Header::Sub(name, dummies) => {
            let name = name.copy()?;
            let dummies = copy_names(alloc, dummies)?;
            Ok(Header::Sub(name, dummies))
        }
        Header::Func(word, name, dummies) => {
            let name = name.copy()?;
            let dummies = copy_names(alloc, dummies)?;
            Ok(Header::Func(*word, name, dummies))
        }
    }
}

fn copy_names(alloc: Global, names: &[Name]) -> Result<List<Name>, AllocError>
    ensures { IfOk result (λ copies. copies.items ≡ names.now) }
{
    let mut copies = Vec::new(alloc);
    for name in names {
        let copy = name.copy()?;
        copies.push(copy)?;
    }
    Ok(copies)
}
