// The labels that stand directly in a list of statements.
ghost use Rattle.std.specs.Prelude.{◌≡◌, OnOk};
ghost use Rattle.f66_tree.specs.Views.{act_of};
ghost use Rattle.f66_tree.specs.Units.{is_note};
ghost use Rattle.rat_tree.specs.Views.{command, commands};
ghost use Rattle.rat_check.specs.Parts.{target_of};
ghost use Rattle.rat_check.specs.Survey.{adding_all};

use crate::LabelSet;
use f66_tree::StmtKind;
use rat_tree::{RatKind, RatStmt};
use std::alloc::AllocError;

/// The labels that stand directly in a list.
pub fn add_targets(list: &[RatStmt], labels: &mut LabelSet) -> Result<(), AllocError>
    ensures { OnOk result (labels.new ≡ adding_all (commands list.now) labels.old) }
{
    for statement in list {
        if let Some(label) = target_of(statement) {
            labels.insert(label)?;
        }
    }
    Ok(())
}

// The label of a statement that a jump may go to.
fn target_of(statement: &RatStmt) -> Option<u32>
    ensures { result ≡ target_of (command statement.now) }
{
    match &statement.kind {
        RatKind::Plain(kind) if is_note(kind) => None,
        _ => statement.label,
    }
}

fn is_note(kind: &StmtKind) -> bool
    ensures { result ≡ is_note (act_of kind.now) }
{
    matches!(
        kind,
        StmtKind::Format(_)
            | StmtKind::Typed(_, _)
            | StmtKind::Dimension(_)
            | StmtKind::Common(_)
            | StmtKind::Equivalence(_)
            | StmtKind::Preset(_)
    )
}
