// Statements.
ghost use Rattle.std.specs.Prelude.{◌≡◌, IfOk, map};
ghost use Rattle.f66_tree.specs.Views.{par_of, entry_of, act_of, line_of};

use crate::{
    Area, Declared, Expr, Field, Name, Par, PresetPart, TypeWord, copy_areas, copy_declarations,
    copy_expr, copy_exprs, copy_fields, copy_groups, copy_par, copy_presets,
};
use ground::{List, Place};
use std::alloc::{AllocError, Global};

/// A statement of a unit. A label of zero is BadLabel, and is in no sound unit.
#[derive(Drop)]
pub struct Stmt {
    pub label: Option<u32>,
    pub place: Place,
    pub kind: StmtKind,
}

/// What a statement says (X3.9-1966, section 7).
#[derive(Drop)]
pub enum StmtKind {
    Assign(Expr, Expr),
    Goto(u32),
    /// The computed GO TO: its labels and its index.
    Computed(List<u32>, Name),
    /// The arithmetic IF, by the sign of an integer.
    Sign(Expr, u32, u32, u32),
    /// The logical IF.
    When(Expr, Box<StmtKind>),
    /// DO: its last statement's label, and what it counts. This stands in a box, so that other statements are small.
    Loop(u32, Box<Counting>),
    Invoke(Name, List<Expr>),
    Continue,
    /// STOP, with the value of its octal digits where it has them.
    Stop(Option<u16>),
    Return,
    /// READ: the unit, the format's label, and the list.
    Read(Par, u32, List<Entry>),
    Write(Par, u32, List<Entry>),
    Format(List<Field>),
    Typed(TypeWord, List<Declared>),
    Dimension(List<Declared>),
    Common(List<Area>),
    Equivalence(List<List<Expr>>),
    Preset(List<PresetPart>),
}

/// What a DO counts (section 7.1.2.8): its variable, and its parameters.
#[derive(Drop)]
pub struct Counting {
    pub variable: Name,
    pub first: Par,
    pub last: Par,
    pub step: Par,
}

/// What READ and WRITE go over: an item, or an implied DO with its list, variable and parameters.
#[derive(Drop)]
pub enum Entry {
    Item(Expr),
    Many(List<Entry>, Name, Par, Par, Par),
}

#[cycle(copy_entries)]
fn copy_entry(alloc: Global, entry: &Entry) -> Result<Entry, AllocError>
    ensures { IfOk result (λ r. entry_of r ≡ entry_of entry.now) }
{
    match entry {
        Entry::Item(e) => Ok(Entry::Item(copy_expr(alloc, e)?)),
        Entry::Many(list, variable, first, last, step) => {
            let list = copy_entries(alloc, list)?;
            let variable = variable.copy()?;
            let first = copy_par(first)?;
            let last = copy_par(last)?;
            let step = copy_par(step)?;
            Ok(Entry::Many(list, variable, first, last, step))
        }
    }
}

/// The same list of a READ or WRITE once more.
#[cycle(copy_entries)]
pub fn copy_entries(alloc: Global, list: &[Entry]) -> Result<List<Entry>, AllocError>
    ensures { IfOk result (λ r. map entry_of r.items ≡ map entry_of list.now) }
{
    let mut copies = Vec::new(alloc);
    for entry in list {
        let copy = copy_entry(alloc, entry)?;
        copies.push(copy)?;
    }
    Ok(copies)
}

fn copy_counting(counting: &Counting) -> Result<Counting, AllocError>
    ensures variable { IfOk result (λ r. r.variable ≡ counting.now.variable) }
    ensures first { IfOk result (λ r. par_of r.first ≡ par_of counting.now.first) }
    ensures last { IfOk result (λ r. par_of r.last ≡ par_of counting.now.last) }
    ensures step { IfOk result (λ r. par_of r.step ≡ par_of counting.now.step) }
{
    let variable = counting.variable.copy()?;
    let first = copy_par(&counting.first)?;
    let last = copy_par(&counting.last)?;
    let step = copy_par(&counting.step)?;
    Ok(Counting {
        variable,
        first,
        last,
        step,
    })
}

/// What the statement says, once more.
pub fn copy_kind(alloc: Global, kind: &StmtKind) -> Result<StmtKind, AllocError>
    ensures { IfOk result (λ r. act_of r ≡ act_of kind.now) }
{
    match kind {
        StmtKind::When(test, inner) => {
            let test = copy_expr(alloc, test)?;
            let inner = copy_kind(alloc, inner)?;
            Ok(StmtKind::When(test, Box::new(alloc, inner)?))
        }
        StmtKind::Format(fields) => Ok(StmtKind::Format(copy_fields(alloc, fields)?)),
        StmtKind::Typed(word, list) => Ok(StmtKind::Typed(*word, copy_declarations(alloc, list)?)),
        StmtKind::Dimension(list) => Ok(StmtKind::Dimension(copy_declarations(alloc, list)?)),
        StmtKind::Common(list) => Ok(StmtKind::Common(copy_areas(alloc, list)?)),
        StmtKind::Equivalence(list) => Ok(StmtKind::Equivalence(copy_groups(alloc, list)?)),
        StmtKind::Preset(list) => Ok(StmtKind::Preset(copy_presets(alloc, list)?)),
        StmtKind::Read(unit, format, list) => {
            let unit = copy_par(unit)?;
            Ok(StmtKind::Read(unit, *format, copy_entries(alloc, list)?))
        }
        StmtKind::Write(unit, format, list) => {
            let unit = copy_par(unit)?;
            Ok(StmtKind::Write(unit, *format, copy_entries(alloc, list)?))
        }
        StmtKind::Loop(label, counting) => {
            let counting = copy_counting(counting)?;
            Ok(StmtKind::Loop(*label, Box::new(alloc, counting)?))
        }
        StmtKind::Assign(left, right) => {
            let left = copy_expr(alloc, left)?;
            Ok(StmtKind::Assign(left, copy_expr(alloc, right)?))
        }
        StmtKind::Invoke(name, list) => {
            let name = name.copy()?;
            Ok(StmtKind::Invoke(name, copy_exprs(alloc, list)?))
        }
        StmtKind::Goto(label) => Ok(StmtKind::Goto(*label)),
        StmtKind::Computed(labels, index) => {
            let labels = labels.clone()?;
            Ok(StmtKind::Computed(labels, index.copy()?))
        }
        StmtKind::Sign(e, below, zero, above) => Ok(StmtKind::Sign(
            copy_expr(alloc, e)?,
            *below,
            *zero,
            *above,
        )),
        StmtKind::Continue => Ok(StmtKind::Continue),
        StmtKind::Stop(number) => Ok(StmtKind::Stop(*number)),
        StmtKind::Return => Ok(StmtKind::Return),
    }
}

/// The same statement once more.
pub fn copy_statement(alloc: Global, statement: &Stmt) -> Result<Stmt, AllocError>
    ensures { IfOk result (λ r. line_of r ≡ line_of statement.now) }
{
    let kind = copy_kind(alloc, &statement.kind)?;
    Ok(Stmt {
        label: statement.label,
        place: statement.place,
        kind,
    })
}
