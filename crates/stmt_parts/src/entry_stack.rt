// The entries before in a list of READ or WRITE, and what may come next.
ghost use Rattle.std.specs.Prelude.{◌≡◌, ◌∷◌, ◌++◌, ◌&&◌, [], map, OnOk, MatchOption};
ghost use Rattle.f66_tree.specs.Views.{entry_of};
ghost use Rattle.stmt_reader.specs.Entries.{all_in};
ghost use Rattle.stmt_parts.specs.EntryStates.{around_onto, entries_if, entries_in, has_some};

use f66_tree::{Entry, Name, Par};
use ground::List;
use std::alloc::{AllocError, Global};
use std::mem;
use stmt_reader::Token;

/// The entries before: in the innermost list, and in those around it, the innermost last.
#[derive(Drop)]
pub struct Lists {
    here: List<Entry>,
    around: List<List<Entry>>,
}

/// The parameters of an implied DO that stand before a further one.
#[derive(Drop)]
pub enum Few {
    None,
    One(Par),
    Two(Par, Par),
}

/// The parameters of an implied DO so far.
#[derive(Drop)]
pub enum Control {
    One(Par),
    Two(Par, Par),
    Three(Par, Par, Par),
}

/// What may come next.
#[derive(Drop)]
pub enum Stage {
    /// An entry.
    Wants,
    /// More of an item, with so many parentheses open in it.
    Within(usize, List<Token>),
    /// A comma or the end behind an entry.
    Behind,
    /// A parameter of an implied DO with this variable.
    Counts(Name, Few),
    /// A comma or the end behind a parameter.
    Counted(Name, Control),
    /// No list begins so.
    Lost,
}

impl Lists {
    /// No list is begun.
    pub fn new(alloc: Global) -> Lists
        ensures here { entries_in result.here ≡ [] }
        ensures around { around_onto result.around.items [] ≡ [] }
    {
        Lists {
            here: Vec::new(alloc),
            around: Vec::new(alloc),
        }
    }

    /// Begins a list in this one.
    #[tactic(auto, using(crate::proofs::EntryLemmas::around_last))]
    pub fn open(&mut self, alloc: Global) -> Result<(), AllocError>
        ensures here { OnOk result (entries_in self.new.here ≡ []) }
        ensures around { OnOk result (around_onto self.new.around.items [] ≡ entries_in self.old.here ∷ around_onto self.old.around.items []) }
    {
        let outer = mem::replace(&mut self.here, Vec::new(alloc));
        self.around.push(outer)?;
        Ok(())
    }

    /// Ends the innermost list, and gives it, if there is one around it.
    pub fn close(&mut self) -> Option<List<Entry>>
        ensures { MatchOption result (around_onto self.old.around.items [] ≡ []) (λ inner. (entries_in inner ≡ entries_in self.old.here)
            × (around_onto self.old.around.items [] ≡ entries_in self.new.here ∷ around_onto self.new.around.items [])) }
    {
        match self.around.pop() {
            None => None,
            Some(outer) => Some(mem::replace(&mut self.here, outer)),
        }
    }

    /// Adds an entry to the innermost list.
    pub fn add(&mut self, entry: Entry) -> Result<(), AllocError>
        ensures here { OnOk result (entries_in self.new.here ≡ entries_in self.old.here ++ entry_of entry ∷ []) }
        ensures around { OnOk result (self.new.around ≡ self.old.around) }
    {
        self.here.push(entry)?;
        Ok(())
    }

    /// Whether an entry stands in the innermost list, and a list around it.
    pub fn is_begun(&self) -> bool
        ensures { result ≡ (has_some (entries_in self.now.here) && has_some (around_onto self.now.around.items [])) }
    {
        has_entries(&self.here) && has_lists(&self.around)
    }

    /// The entries, if no list is open.
    #[tactic(auto, using(crate::proofs::EntryLemmas::all_some))]
    pub fn into_entries(self) -> Option<List<Entry>>
        ensures { entries_if result ≡ all_in (entries_in self.here) (around_onto self.around.items []) }
    {
        if has_lists(&self.around) {
            return None;
        }
        Some(self.here)
    }
}

fn has_entries(list: &[Entry]) -> bool
    ensures { result ≡ has_some (map entry_of list.now) }
{
    match list {
        [] => false,
        [_, ..] => true,
    }
}

#[tactic(auto, using(crate::proofs::EntryLemmas::some_around))]
fn has_lists(lists: &[List<Entry>]) -> bool
    ensures { result ≡ has_some (around_onto lists.now []) }
{
    match lists {
        [] => false,
        [_, ..] => true,
    }
}
