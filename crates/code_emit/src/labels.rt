// Where the labels of a unit are, and the DO loops that end at each.
ghost use Rattle.std.specs.Prelude.{◌≡◌, ℕ, nat_eq, if◌then◌else◌, List, [], ◌∷◌, ◌++◌, IfOk, OnOk, map};
ghost use Rattle.std.specs.HashMap.{get};
ghost use Rattle.rule_table.specs.Words.{first_place};
ghost use Rattle.f66_tree.specs.Syntax.{Text, Line};
ghost use Rattle.f66_tree.specs.Execution.{closers, closers_at, has_label};
ghost use Rattle.f66_tree.specs.Views.{act_of, lines_of};
ghost use Rattle.code_gen.specs.Statements.{ends_by};
ghost use Rattle.code_emit.specs.Turns.{AreNoted, AreNumbered, closer_in, loop_by, loop_of, noted};

use crate::coded_unit::Turn;
use f66_tree::{Name, Stmt, StmtKind};
use rule_table::note_number;
use std::alloc::{AllocError, Global};
use std::collections::HashMap;

/// The number of the first statement of a unit that has each label, and the loops that end at each label, the innermost first.
#[derive(Drop)]
pub struct Labels<'a> {
    pub numbers: HashMap<u32, usize>,
    pub turns: HashMap<u32, Vec<Turn<'a>>>,
}

impl<'a> Labels<'a> {
    fn turns_at(&self, label: u32) -> &[Turn<'_>]
        ensures { (lines : List Line) → AreNoted self.now.turns 0 lines → map (closer_in lines) result.now ≡ closers label lines }
    {
        let Some(turns) = self.turns.get(&label) else {
            return &[];
        };
        turns
    }

    /// The loops that end at a statement, the innermost first.
    pub fn ending(&self, statement: &Stmt) -> &[Turn<'_>]
        ensures { (lines : List Line) → AreNoted self.now.turns 0 lines → map (closer_in lines) result.now ≡ ends_by (act_of statement.now.kind) (closers_at statement.now.label lines) }
    {
        if let StmtKind::Loop(_, _) = statement.kind {
            return &[];
        }
        match statement.label {
            None => &[],
            Some(label) => self.turns_at(label),
        }
    }
}

/// The labels of a unit with these statements.
#[tactic(auto, using(crate::proofs::TurnLemmas::numbered))]
pub fn labels_of<'a>(alloc: Global, statements: &'a [Stmt]) -> Result<Labels<'a>, AllocError>
    ensures numbers { IfOk result (λ labels. AreNumbered labels.numbers (lines_of statements.now)) }
    ensures turns { IfOk result (λ labels. AreNoted labels.turns 0 (lines_of statements.now)) }
{
    let numbers = numbers_of(alloc, statements)?;
    let turns = turns_by_label(alloc, statements)?;
    Ok(Labels { numbers, turns })
}

/// The number of the first statement with each label.
fn numbers_of(alloc: Global, statements: &[Stmt]) -> Result<HashMap<u32, usize>, AllocError>
    ensures { IfOk result (λ numbers. (l : ℕ) → get nat_eq numbers l ≡ first_place (λ s. has_label l s.label) statements.now) }
{
    let mut numbers = HashMap::new(alloc);
    for (number, statement) in statements.iter().enumerate() {
        if let Some(label) = statement.label {
            note_number(&mut numbers, label, number)?;
        }
    }
    Ok(numbers)
}

/// The loops that end at each label, the innermost first.
fn turns_by_label<'a>(
    alloc: Global,
    statements: &'a [Stmt],
) -> Result<HashMap<u32, Vec<Turn<'a>>>, AllocError>
    ensures { IfOk result (λ table. AreNoted table 0 (lines_of statements.now)) }
{
    let mut table = HashMap::new(alloc);
    for index in (0..statements.len()).rev() {
        match loop_at(&statements[index].kind) {
            Some((label, variable)) => {
                let behind = index + 1;
                note_turn(alloc, &mut table, label, Turn { variable, behind })?;
            }
            None => {}
        }
    }
    Ok(table)
}

/// The last label of a DO, and its variable.
fn loop_at(kind: &StmtKind) -> Option<(u32, &Name)>
    ensures { (l behind : ℕ) (found : List (Text × ℕ)) → loop_by l (act_of kind.now) behind found ≡ loop_of l result behind found }
{
    match kind {
        StmtKind::Loop(end, counting) => Some((*end, &counting.variable)),
        _ => None,
    }
}

/// Notes one more loop at its label, behind those that are there.
fn note_turn<'a>(
    alloc: Global,
    table: &mut HashMap<u32, Vec<Turn<'a>>>,
    label: u32,
    turn: Turn<'a>,
) -> Result<(), AllocError>
    ensures { OnOk result ((l : ℕ) → noted l table.new ≡ (if nat_eq label l then noted l table.old ++ turn.entry ∷ [] else noted l table.old)) }
{
    let mut list = match table.remove(&label) {
        Some(list) => list,
        None => Vec::new(alloc),
    };
    list.push(turn)?;
    table.insert(label, list)?;
    Ok(())
}
