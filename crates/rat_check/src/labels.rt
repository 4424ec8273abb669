// Sets of labels.
ghost use Rattle.std.specs.Prelude.{◌≡◌, [], length, take, OnOk, IfOk};
ghost use Rattle.rat_check.specs.Survey.{is_among, adding, adding_if};

use ground::List;
use indexmap::IndexSet;
use std::alloc::{AllocError, Global};
use std::marker::Model;

/// Labels in the order in which they came, so that those that came last can be dropped. Contracts see the list.
#[derive(Drop)]
pub struct LabelSet {
    labels: IndexSet<u32>,
}

impl Model for LabelSet {
    ghost use Rattle.std.specs.Prelude.{List, ℕ};

    ghost Value = { List ℕ };

    ghost view = { λ s. s.labels.keys };
}

impl LabelSet {
    /// No labels. It takes no memory.
    pub fn new(alloc: Global) -> LabelSet
        ensures { result ≡ [] }
    {
        LabelSet {
            labels: IndexSet::new(alloc),
        }
    }

    pub fn contains(&self, label: u32) -> bool
        ensures { result ≡ is_among self.now label }
    {
        self.labels.contains(&label)
    }

    pub fn len(&self) -> usize
        ensures { result ≡ length self.now }
    {
        self.labels.len()
    }

    pub fn insert(&mut self, label: u32) -> Result<(), AllocError>
        ensures { OnOk result (self.new ≡ adding label self.old) }
    {
        self.labels.insert(label)?;
        Ok(())
    }

    pub fn insert_if(&mut self, label: Option<u32>) -> Result<(), AllocError>
        ensures { OnOk result (self.new ≡ adding_if label self.old) }
    {
        match label {
            None => Ok(()),
            Some(label) => self.insert(label),
        }
    }

    /// The labels as a list.
    pub fn into_list(self, alloc: Global) -> Result<List<u32>, AllocError>
        ensures { IfOk result (λ list. list.items ≡ self) }
    {
        self.labels.into_iter().collect(alloc)
    }

    /// Drops all but the first labels.
    pub fn truncate(&mut self, len: usize)
        ensures { self.new ≡ take len self.old }
    {
        self.labels.truncate(len);
    }
}
