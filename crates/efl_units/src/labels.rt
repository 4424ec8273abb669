// The numbers of the labels of a body.
ghost use Rattle.std.specs.Prelude.{◌≡◌, ◌+◌, ◌++◌, IfOk, OnOk};
ghost use Rattle.efl_typed_tree.specs.Views.{clauses_of, stmt_of, stmts_of};
ghost use Rattle.efl_lowered.specs.Labels.{all_labels, clause_labels, labels_of};
ghost use Rattle.efl_units.specs.Numbered.{adding, adding_all, none_numbered, numbered_of, other_labels};

use efl_typed_tree::{TypedClause, TypedKind, TypedStmt};
use ground::Text;
use rule_table::note;
use std::alloc::{AllocError, Global};
use std::collections::HashMap;

/// The labels so far, each with one more than its first place among them, and how many they are: contracts see them by `numbered_of`.
#[derive(Drop)]
pub struct Labels<'a> {
    pub table: HashMap<&'a [u8], u32>,
    pub count: u32,
}

impl<'a> Labels<'a> {
    // More labels than have numbers are refused as want of memory.
    fn add(&mut self, label: &'a Text) -> Result<(), AllocError>
        ensures { OnOk result (numbered_of self.new ≡ adding label.now (numbered_of self.old)) }
    {
        let Some(count) = self.count.checked_add(1) else {
            return Err(AllocError);
        };
        note(&mut self.table, label.as_bytes(), count)?;
        self.count = count;
        Ok(())
    }

    /// The number behind all labels.
    pub fn first_free(&self) -> Result<u32, AllocError>
        ensures { IfOk result (λ free. free ≡ (numbered_of self.now).count + 1) }
    {
        self.count.checked_add(1).ok_or(AllocError)
    }
}

/// The labels of a body.
pub fn labels_in<'a>(alloc: Global, body: &'a [TypedStmt]) -> Result<Labels<'a>, AllocError>
    ensures { IfOk result (λ labels. numbered_of labels ≡ adding_all (all_labels (stmts_of body.now)) none_numbered) }
{
    let mut labels = Labels {
        table: HashMap::new(alloc),
        count: 0,
    };
    add_list(body, &mut labels)?;
    Ok(labels)
}

#[cycle(labels)]
fn add_list<'a>(list: &'a [TypedStmt], labels: &mut Labels<'a>) -> Result<(), AllocError>
    ensures { OnOk result (numbered_of labels.new ≡ adding_all (all_labels (stmts_of list.now)) (numbered_of labels.old)) }
{
    for statement in list {
        add_statement(statement, labels)?;
    }
    Ok(())
}

#[cycle(labels)]
fn add_statement<'a>(statement: &'a TypedStmt, labels: &mut Labels<'a>) -> Result<(), AllocError>
    ensures { OnOk result (numbered_of labels.new ≡ adding_all (labels_of (stmt_of statement.now)) (numbered_of labels.old)) }
{
    add_each(&statement.labels, labels)?;
    match &statement.kind {
        TypedKind::Empty => Ok(()),
        TypedKind::Block(list) => add_list(list, labels),
        TypedKind::Act(_) => Ok(()),
        TypedKind::If(_, body, other) => add_if(body, other, labels),
        TypedKind::While(_, body) => add_statement(body, labels),
        TypedKind::For(_, _, _, body) => add_statement(body, labels),
        TypedKind::Repeat(body, _) => add_statement(body, labels),
        TypedKind::Do(_, _, body) => add_statement(body, labels),
        TypedKind::Switch(_, list) => add_clauses(list, labels),
        TypedKind::Break(_, _) => Ok(()),
        TypedKind::Next(_, _) => Ok(()),
        TypedKind::Return(_) => Ok(()),
        TypedKind::Goto(label) => labels.add(label),
        TypedKind::Write(_, _) => Ok(()),
        TypedKind::Read(_, _) => Ok(()),
    }
}

#[cycle(labels)]
fn add_if<'a>(
    body: &'a TypedStmt,
    other: &'a Option<Box<TypedStmt>>,
    labels: &mut Labels<'a>,
) -> Result<(), AllocError>
    ensures { OnOk result (numbered_of labels.new ≡ adding_all (labels_of (stmt_of body.now) ++ other_labels other.now) (numbered_of labels.old)) }
{
    add_statement(body, labels)?;
    match other {
        None => Ok(()),
        Some(other) => add_statement(other, labels),
    }
}

#[cycle(labels)]
fn add_clauses<'a>(list: &'a [TypedClause], labels: &mut Labels<'a>) -> Result<(), AllocError>
    ensures { OnOk result (numbered_of labels.new ≡ adding_all (clause_labels (clauses_of list.now)) (numbered_of labels.old)) }
{
    for clause in list {
        add_list(&clause.body, labels)?;
    }
    Ok(())
}

// The labels before a statement.
fn add_each<'a>(list: &'a [Text], labels: &mut Labels<'a>) -> Result<(), AllocError>
    ensures { OnOk result (numbered_of labels.new ≡ adding_all list.now (numbered_of labels.old)) }
{
    for label in list {
        labels.add(label)?;
    }
    Ok(())
}
