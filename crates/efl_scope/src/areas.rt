// The areas of a procedure, each with the types of its variables, and whether they agree with those of another.
ghost use Rattle.std.specs.Prelude.{◌≡◌};
ghost use Rattle.efl_scope.specs.AreaViews.{agreeing_of, sort_agrees, sorts_agree};

use std::collections::HashMap;

/// What agreement asks of a type: its number, which the same types share, and whether it has a fault.
#[derive(Clone, Copy)]
pub struct Sort {
    pub number: usize,
    pub faulty: bool,
}

/// The areas of a procedure, each with the sorts of its variables.
#[derive(Drop)]
pub struct AreaLists<'a> {
    pub table: HashMap<&'a [u8], Vec<Sort>>,
}

/// The lists of a procedure, and of each area that of the first procedure that has it. Contracts see by `agreeing_of` which agree.
#[derive(Clone, Copy, Drop)]
pub struct Areas<'c, 'a> {
    pub firsts: &'c AreaLists<'a>,
    pub own: &'c AreaLists<'a>,
}

impl<'c, 'a> Areas<'c, 'a> {
    /// Whether the procedure's list of an area agrees with the first one.
    pub fn agrees(&self, area: &[u8]) -> bool
        ensures { result ≡ agreeing_of self.now area.now }
    {
        match self.firsts.table.get(area) {
            None => false,
            Some(first) => match self.own.table.get(area) {
                None => do_agree(first, &[]),
                Some(list) => do_agree(first, list),
            },
        }
    }
}

/// Whether lists agree, sort by sort.
fn do_agree(first: &[Sort], list: &[Sort]) -> bool
    ensures { result ≡ sorts_agree first.now list.now }
{
    if first.len() != list.len() {
        return false;
    }
    for i in 0..first.len() {
        if !do_sorts_agree(first[i], list[i]) {
            return false;
        }
    }
    true
}

/// What has a fault agrees with anything.
fn do_sorts_agree(first: Sort, other: Sort) -> bool
    ensures { result ≡ sort_agrees first other }
{
    first.faulty || other.faulty || first.number == other.number
}
