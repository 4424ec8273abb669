// Units of FORTRAN that say in brief what those of Ratfor say. Whoever asks what a unit mentions, and not where, needs no more: linking
// a program of many units that use each name a hundred times would else copy each statement.
ghost use Rattle.std.specs.Prelude.{◌≡◌, ◌++◌, ◌∷◌, [], List, None, map, IfOk, OnOk};
ghost use Rattle.f66_tree.specs.Syntax.{Line};
ghost use Rattle.f66_tree.specs.Units.{is_note};
ghost use Rattle.f66_tree.specs.Views.{header_of, lines_of, routine_of};
ghost use Rattle.f66_names.specs.ActViews.{act_said, acts_of};
ghost use Rattle.f66_program.specs.Mentions.{context_of};
ghost use Rattle.f66_mentions.specs.UnitViews.{context_in};
ghost use Rattle.rat_tree.specs.Views.{commands, rat_routine_of};
ghost use Rattle.rat_check.specs.Parts.{unit_parts};
ghost use Rattle.rat_check.specs.PartViews.{part_of, parts_seen};
ghost use Rattle.spared_units.specs.Spared.{Spared};
ghost use Rattle.rat_said.specs.Brief.{IsTold, declared_lines, declared_routine};
ghost use Rattle.rat_said.specs.Said.{said_line, said_lines, said_routine};
ghost use Rattle.rat_said.specs.Seen.{Tells};

use crate::said::{add, copy_header, kind_said};
use crate::variables::{Seen, are_seen, is_told_by_uses, none_seen, see_all};
use f66_mentions::{UnitNames, names_of};
use f66_names::{Saying, Use, collect_in_saying};
use f66_tree::{Header, Stmt, StmtKind, Unit};
use ground::List;
use rat_check::{Part, sayings_into};
use rat_tree::RatUnit;
use std::alloc::{AllocError, Global};

/// A unit that says what a unit of these parts says: its declarations in their order, and behind them statements that mention the same
/// names, of which one that mentions only variables that were mentioned is left out.
pub fn brief_unit<'a>(
    alloc: Global,
    unit: &'a RatUnit,
    parts: &[Part<'a>],
) -> Result<Unit, AllocError>
    requires { parts_seen parts.now ≡ unit_parts (commands unit.now.body.items) }
    ensures { IfOk result (λ brief. Spared None (said_routine (rat_routine_of unit.now)) (routine_of brief)) }
{
    let mut brief = declared_unit(alloc, unit, parts)?;
    let mut told = told_by(alloc, &brief, &unit.header, parts)?;
    brief.statements.append(&mut told)?;
    Ok(brief)
}

/// The declarations alone of what a unit of these parts says.
fn declared_unit<'a>(
    alloc: Global,
    unit: &'a RatUnit,
    parts: &[Part<'a>],
) -> Result<Unit, AllocError>
    requires { parts_seen parts.now ≡ unit_parts (commands unit.now.body.items) }
    ensures { IfOk result (λ declared. routine_of declared ≡ declared_routine (said_routine (rat_routine_of unit.now))) }
{
    let statements = declarations_in(alloc, &unit.header, parts)?;
    let header = copy_header(alloc, &unit.header)?;
    Ok(Unit {
        header,
        statements,
        place: unit.place,
    })
}

fn declarations_in<'a>(
    alloc: Global,
    header: &'a Header,
    parts: &[Part<'a>],
) -> Result<List<Stmt>, AllocError>
    ensures { IfOk result (λ list. lines_of list.items ≡ declared_lines (said_lines (header_of header.now) (parts_seen parts.now))) }
{
    let mut declarations = Vec::new(alloc);
    let mut sayings = Vec::new(alloc);
    for part in parts {
        sayings_into(header, part.form, &mut sayings)?;
        add_declarations(alloc, part, &sayings, &mut declarations)?;
    }
    Ok(declarations)
}

fn add_declarations(
    alloc: Global,
    part: &Part,
    sayings: &[Saying],
    declarations: &mut List<Stmt>,
) -> Result<(), AllocError>
    ensures { OnOk result (lines_of declarations.new.items
        ≡ lines_of declarations.old.items ++ declared_lines (map (said_line (part_of part.now)) (acts_of sayings.now))) }
{
    for saying in sayings {
        if is_declaration(saying) {
            add(part, kind_said(alloc, saying)?, declarations)?;
        }
    }
    Ok(())
}

fn is_declaration(saying: &Saying) -> bool
    ensures { result ≡ is_note (act_said saying.now) }
{
    match *saying {
        Saying::Act(kind) => matches!(
            kind,
            StmtKind::Format(_)
                | StmtKind::Typed(_, _)
                | StmtKind::Dimension(_)
                | StmtKind::Common(_)
                | StmtKind::Equivalence(_)
                | StmtKind::Preset(_)
        ),
        Saying::Condition(_)
        | Saying::Value(_)
        | Saying::Counting(_, _, _, _)
        | Saying::Returned(_, _) => false,
    }
}

/// Of what the parts say the statements that are executed, but for those that mention nothing more. `declared` has the declarations.
fn told_by<'a>(
    alloc: Global,
    declared: &Unit,
    header: &'a Header,
    parts: &[Part<'a>],
) -> Result<List<Stmt>, AllocError>
    ensures { IfOk result (λ told. IsTold (context_of (routine_of declared.now)) (said_lines (header_of header.now) (parts_seen parts.now)) (lines_of told.items)) }
{
    let names = names_of(alloc, declared)?;
    let mut teller = Teller {
        told: Vec::new(alloc),
        seen: none_seen(alloc),
        uses: Vec::new(alloc),
    };
    let mut sayings = Vec::new(alloc);
    for part in parts {
        sayings_into(header, part.form, &mut sayings)?;
        tell_all(alloc, &names, part, &sayings, &mut teller)?;
    }
    Ok(teller.told)
}

/// Statements that were told, and the variables that they mention.
#[derive(Drop)]
pub struct Teller<'a> {
    pub told: List<Stmt>,
    pub seen: Seen<'a>,
    /// What the last statement uses. Its list serves all.
    pub uses: Vec<Use<'a>>,
}

fn tell_all<'a>(
    alloc: Global,
    names: &UnitNames,
    part: &Part<'a>,
    sayings: &[Saying<'a>],
    teller: &mut Teller<'a>,
) -> Result<(), AllocError>
    ensures { OnOk result ((said : List Line) → Tells (context_in names.now) said teller.old → Tells (context_in names.now) (said ++ map (said_line (part_of part.now)) (acts_of sayings.now)) teller.new) }
{
    for saying in sayings {
        tell(alloc, names, part, saying, teller)?;
    }
    Ok(())
}

/// Tells a statement that is executed, unless it mentions only variables that were seen.
fn tell<'a>(
    alloc: Global,
    names: &UnitNames,
    part: &Part<'a>,
    saying: &Saying<'a>,
    teller: &mut Teller<'a>,
) -> Result<(), AllocError>
    ensures { OnOk result ((said : List Line) → Tells (context_in names.now) said teller.old → Tells (context_in names.now) (said ++ said_line (part_of part.now) (act_said saying.now) ∷ []) teller.new) }
{
    if is_declaration(saying) {
        return Ok(());
    }
    if !is_told_by_uses(saying) {
        return add(part, kind_said(alloc, saying)?, &mut teller.told);
    }
    teller.uses.clear();
    collect_in_saying(saying, &mut teller.uses)?;
    if are_seen(names, &teller.seen, &teller.uses) {
        return Ok(());
    }
    add(part, kind_said(alloc, saying)?, &mut teller.told)?;
    see_all(names, &teller.uses, &mut teller.seen)
}
