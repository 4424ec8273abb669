// The statements of a unit.
ghost use Rattle.std.specs.Prelude.{◌≡◌, ◌+◌, ◌++◌, ◌≤◌, ◌<◌, [], length, true, false, IfOk, OnOk};
ghost use Rattle.f66_tree.specs.Units.{is_main, is_note, name_of};
ghost use Rattle.f66_tree.specs.Views.{act_of, header_of, lines_of};
ghost use Rattle.rat_tree.specs.Views.{commands};
ghost use Rattle.rat_lower.specs.Code.{all_labels, declared_if, end_unless, ends_itself, ends_so, is_transfer};
ghost use Rattle.name_alloc.specs.MadeNames.{next_name};
ghost use Rattle.name_alloc.specs.Numbers.{starting};
ghost use Rattle.rat_lower.specs.Emitted.{Adds, labels_past};
ghost use Rattle.rat_lower.specs.Lowered.{IsUnitCode};

use crate::{Around, Maker, emit_all, have_switch, put};
use f66_tree::{Declared, Header, Stmt, StmtKind, TypeWord};
use ground::{List, Memory, Place};
use name_alloc::Names;
use rat_tree::RatStmt;
use std::alloc::{AllocError, Global};

/// The statements of FORTRAN that do what a unit with this header and body does whose text ends at `finish`. The next of `names` is to hold
/// the values of its switches, and `taken` are its labels, which those that are made differ from.
pub fn lower_body(
    alloc: Global,
    names: Names,
    taken: &[u32],
    header: &Header,
    body: List<RatStmt>,
    place: Place,
    finish: Place,
) -> Result<List<Stmt>, Memory>
    requires room { length taken.now + all_labels (commands body.items) ≤ 77000 }
    requires none_made { names.numbers.made ≡ [] }
    requires few_names { length names.kept < 99999 }
    requires no_labels { names.labels ≡ starting 23000 }
    ensures code { IfOk result (λ code. IsUnitCode (labels_past taken.now) (next_name names) (record { header = header_of header.now; body = commands body.items; place = place }) finish (lines_of code.items)) }
    ensures ends { IfOk result (λ code. ends_itself (header_of header.now) (lines_of code.items) ≡ true) }
{
    let mut maker = Maker::new(alloc, names, header, taken)?;
    unit_code(&mut maker, header, body, place, finish)
}

// The statements of a unit, by a maker that has made no label yet.
fn unit_code(
    maker: &mut Maker,
    header: &Header,
    body: List<RatStmt>,
    place: Place,
    finish: Place,
) -> Result<List<Stmt>, Memory>
    requires room { maker.old.made + length maker.old.taken + all_labels (commands body.items) ≤ 77000 }
    requires none_made { maker.old.made ≡ 0 }
    requires own { maker.old.own ≡ name_of (header_of header.now) }
    ensures code { IfOk result (λ code. IsUnitCode (labels_past maker.old.taken) maker.old.spare (record { header = header_of header.now; body = commands body.items; place = place }) finish (lines_of code.items)) }
    ensures ends { IfOk result (λ code. ends_itself (header_of header.now) (lines_of code.items) ≡ true) }
{
    // Most statements become one.
    let mut code = Vec::with_capacity(maker.alloc(), body.len())?;
    put_unit(maker, &mut code, header, body, place, finish)?;
    Ok(code)
}

// All statements of a unit.
fn put_unit(
    maker: &mut Maker,
    code: &mut List<Stmt>,
    header: &Header,
    body: List<RatStmt>,
    place: Place,
    finish: Place,
) -> Result<(), Memory>
    requires room { maker.old.made + length maker.old.taken + all_labels (commands body.items) ≤ 77000 }
    requires none_made { maker.old.made ≡ 0 }
    requires own { maker.old.own ≡ name_of (header_of header.now) }
    requires none_put { code.old.items ≡ [] }
    ensures code { OnOk result (IsUnitCode (labels_past maker.old.taken) maker.old.spare (record { header = header_of header.now; body = commands body.items; place = place }) finish (lines_of code.new.items)) }
    ensures ends { OnOk result (ends_itself (header_of header.now) (lines_of code.new.items) ≡ true) }
{
    put_spare(maker, code, place, have_switch(&body))?;
    emit_all(maker, code, body, &Around::Outside)?;
    put_end(code, finish, header)?;
    Ok(())
}

// INTEGER spare, where switches use it
fn put_spare(
    maker: &Maker,
    code: &mut List<Stmt>,
    place: Place,
    used: bool,
) -> Result<(), AllocError>
    ensures { OnOk result (Adds (lines_of code.old.items) (lines_of code.new.items) (declared_if used place maker.now.spare)) }
{
    if !used {
        return Ok(());
    }
    let alloc = maker.alloc();
    let name = maker.spare()?;
    let sizes = Vec::new(alloc);
    let mut list = Vec::new(alloc);
    list.push(Declared { name, sizes })?;
    put(code, None, place, StmtKind::Typed(TypeWord::Integer, list))
}

// A STOP in a main, and a RETURN in another unit, unless the last statement that is executed is a transfer. BLOCK DATA has none.
fn put_end(code: &mut List<Stmt>, place: Place, header: &Header) -> Result<(), AllocError>
    ensures { OnOk result (lines_of code.new.items ≡ lines_of code.old.items
        ++ end_unless (is_main (header_of header.now)) (ends_itself (header_of header.now) (lines_of code.old.items)) place) }
{
    match header {
        Header::Block => Ok(()),
        Header::Main => put_last(code, place, true),
        Header::Sub(_, _) | Header::Func(_, _, _) => put_last(code, place, false),
    }
}

fn put_last(code: &mut List<Stmt>, place: Place, main: bool) -> Result<(), AllocError>
    ensures { OnOk result (lines_of code.new.items ≡ lines_of code.old.items ++ end_unless main (ends_so false (lines_of code.old.items)) place) }
{
    if ends_so(code) {
        return Ok(());
    }
    let kind = if main {
        StmtKind::Stop(None)
    } else {
        StmtKind::Return
    };
    code.push(Stmt {
        label: None,
        place,
        kind,
    })?;
    Ok(())
}

// Whether the last statement that is executed is a transfer.
fn ends_so(code: &[Stmt]) -> bool
    ensures { result ≡ ends_so false (lines_of code.now) }
{
    let mut ends = false;
    for statement in code {
        if !is_note(&statement.kind) {
            ends = is_transfer(&statement.kind);
        }
    }
    ends
}

fn is_note(kind: &StmtKind) -> bool
    ensures { result ≡ is_note (act_of kind.now) }
{
    matches!(
        kind,
        StmtKind::Format(_)
            | StmtKind::Typed(_, _)
            | StmtKind::Dimension(_)
            | StmtKind::Common(_)
            | StmtKind::Equivalence(_)
            | StmtKind::Preset(_)
    )
}

fn is_transfer(kind: &StmtKind) -> bool
    ensures { result ≡ is_transfer (act_of kind.now) }
{
    matches!(
        kind,
        StmtKind::Goto(_)
            | StmtKind::Computed(_, _)
            | StmtKind::Sign(_, _, _, _)
            | StmtKind::Stop(_)
            | StmtKind::Return
    )
}
