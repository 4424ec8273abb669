// What a walk over a unit has seen so far.
ghost use Rattle.std.specs.Prelude.{◌≡◌, OnOk, IfOk, length, take};
ghost use Rattle.std.specs.List.{list_all};
ghost use Rattle.rat_tree.specs.Views.{commands};
ghost use Rattle.rat_check.specs.Parts.{part, reaches};
ghost use Rattle.rat_check.specs.FormViews.{form_of, depth_of};
ghost use Rattle.rat_check.specs.PartViews.{survey_of};
ghost use Rattle.rat_check.specs.Survey.{is_among, starting, noting, reaching, adding_all};

use crate::{Around, Form, LabelSet, Part, add_targets};
use f66_tree::StmtKind;
use ground::Place;
use rat_tree::RatStmt;
use std::alloc::{AllocError, Global};

/// What a walk over a unit has seen so far.
#[derive(Drop)]
pub struct Survey<'a> {
    /// The labels that stand directly in the lists around.
    pub reach: LabelSet,
    pub parts: Vec<Part<'a>>,
}

impl<'a> Survey<'a> {
    /// Before the first part, with memory for so many.
    pub fn with_room(alloc: Global, parts: usize) -> Result<Survey<'a>, AllocError>
        ensures { IfOk result (λ survey. survey_of survey ≡ starting) }
    {
        let parts = Vec::with_capacity(alloc, parts)?;
        Ok(Survey {
            reach: LabelSet::new(alloc),
            parts,
        })
    }

    /// A part comes.
    pub fn note(
        &mut self,
        around: &Around,
        label: Option<u32>,
        place: Place,
        form: Form<'a>,
    ) -> Result<(), AllocError>
        ensures { OnOk result (survey_of self.new ≡ noting (survey_of self.old) (part (depth_of around.now) (is_among self.old.reach) label place (form_of form.entry))) }
    {
        let part = Part {
            label,
            place,
            form,
            inside: form.finds_loop(around),
            reached: self.reaches(form),
        };
        self.parts.push(part)?;
        Ok(())
    }

    /// A list of statements begins, whose labels they can reach. It gives how many labels were in reach before.
    pub fn enter(&mut self, list: &[RatStmt]) -> Result<usize, AllocError>
        ensures outside { IfOk result (λ outside. outside ≡ length self.old.reach) }
        ensures inside { OnOk result (survey_of self.new ≡ reaching (adding_all (commands list.now) self.old.reach) (survey_of self.old)) }
    {
        let outside = self.reach.len();
        add_targets(list, &mut self.reach)?;
        Ok(outside)
    }

    /// A list ends: so many labels stay in reach.
    pub fn leave(&mut self, outside: usize)
        ensures { survey_of self.new ≡ reaching (take outside self.old.reach) (survey_of self.old) }
    {
        self.reach.truncate(outside);
    }

    fn reaches(&self, form: Form) -> bool
        ensures { result ≡ reaches (is_among self.now.reach) (form_of form.entry) }
    {
        match form {
            Form::Statement(StmtKind::Goto(label)) => self.reach.contains(*label),
            Form::Statement(StmtKind::Computed(labels, _)) => self.reaches_all(labels),
            _ => true,
        }
    }

    fn reaches_all(&self, labels: &[u32]) -> bool
        ensures { result ≡ list_all (is_among self.now.reach) labels.now }
    {
        labels.iter().all(|label| self.reach.contains(*label))
    }
}
