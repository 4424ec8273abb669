// Where labels lead.
ghost use Rattle.std.specs.Prelude.{◌≡◌, ℕ, IfOk, nat_eq, option_map, option_copied};
ghost use Rattle.std.specs.HashMap.{get};
ghost use Rattle.std.proofs.Props.{props};
ghost use Rattle.rule_table.specs.Words.{first_place};
ghost use Rattle.f66_tree.specs.Views.{line_of, lines_of};
ghost use Rattle.f66_tree.specs.Execution.{has_label};
ghost use Rattle.f66_flow.specs.Ranges as ranges;

use f66_tree::Stmt;
use rule_table::note_number;
use std::alloc::{AllocError, Global};
use std::collections::HashMap;

/// A unit's statements, with the place of the statement that each label names: the first that has it (X3.9-1966,
/// section 3.4).
#[derive(Drop)]
pub struct Labels<'a> {
    pub statements: &'a [Stmt],
    pub places: HashMap<u32, usize>,
    ghost named: { (l : ℕ) → get nat_eq places l ≡ ranges.label_place (lines_of statements.now) l } by { Prim.hlevel props },
}

impl<'a> Labels<'a> {
    /// The place of the statement that a label names.
    pub(crate) fn place(&self, label: u32) -> Option<usize>
        ensures { result ≡ ranges.label_place (lines_of self.now.statements.now) label }
    {
        self.places.get(&label).copied()
    }

    /// The statement that a label names.
    pub(crate) fn statement(&self, label: u32) -> Option<&'a Stmt>
        ensures { option_map line_of (option_copied result) ≡ ranges.named (lines_of self.now.statements.now) label }
    {
        match self.place(label) {
            Some(place) => self.statements.get(place),
            None => None,
        }
    }
}

/// The labels of a unit's statements.
pub(crate) fn labels_of<'a>(alloc: Global, statements: &'a [Stmt]) -> Result<Labels<'a>, AllocError>
    ensures { IfOk result (λ labels. labels.statements.now ≡ statements.now) }
{
    let places = label_places(alloc, statements)?;
    Ok(Labels { statements, places })
}

/// The place of the first statement with each label.
fn label_places(alloc: Global, statements: &[Stmt]) -> Result<HashMap<u32, usize>, AllocError>
    ensures { IfOk result (λ places. (l : ℕ) → get nat_eq places l ≡ first_place (λ s. has_label l s.label) statements.now) }
{
    let mut places = HashMap::new(alloc);
    for (i, statement) in statements.iter().enumerate() {
        if let Some(label) = statement.label {
            note_number(&mut places, label, i)?;
        }
    }
    Ok(places)
}
