// What stands before a part of a unit.
ghost use Rattle.std.specs.Prelude.{◌≡◌, ◌+◌, ◌<◌, ◌^◌, [], length, OnOk, IfOk};
ghost use Rattle.f66_tree.specs.Syntax.{Header};
ghost use Rattle.rat_check.specs.Rules.{nothing_before, behind};
ghost use Rattle.rat_check.specs.Said.{said_by};
ghost use Rattle.rat_check.specs.FormViews.{form_of};
ghost use Rattle.rat_check.specs.PartViews.{part_of, before_of};
ghost use Rattle.rat_check.specs.Survey.{adding_if};

use crate::{LabelSet, Part};
use std::alloc::{AllocError, Global};

/// What stands before a part.
#[derive(Drop)]
pub struct Before {
    /// The labels of the parts.
    pub labels: LabelSet,
    /// Whether no specification comes any more.
    pub begun: bool,
    /// How much was said of names.
    pub said: usize,
}

impl Before {
    /// Nothing stands before the first part. It takes no memory.
    pub fn new(alloc: Global) -> Before
        ensures labels { result.labels ≡ [] }
        ensures before { before_of result ≡ nothing_before }
    {
        Before {
            labels: LabelSet::new(alloc),
            begun: false,
            said: 0,
        }
    }

    /// A part, which says so much of names, stands before the next ones too.
    pub fn add(&mut self, part: &Part, said: usize) -> Result<(), AllocError>
        requires within { self.old.said + said < 2 ^ 64 }
        ensures labels { OnOk result (self.new.labels ≡ adding_if part.now.label self.old.labels) }
        ensures before { (h : Header) → said ≡ length (said_by h (form_of part.now.form)) → OnOk result (before_of self.new ≡ behind h (before_of self.old) (part_of part.now)) }
    {
        self.begun = self.begun || part.form.begins(part.label);
        self.said += said;
        self.labels.insert_if(part.label)
    }
}
