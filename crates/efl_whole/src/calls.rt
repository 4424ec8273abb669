// The calls of a program so far, and where a part is.
ghost use Rattle.std.specs.Prelude.{◌≡◌, OnOk};
ghost use Rattle.efl_scope.specs.Uses.{Applied};
ghost use Rattle.efl_whole.specs.Calls.{no_calls, called_as, calling, using};
ghost use Rattle.efl_whole.specs.CallViews.{calls_of, site_of};

use crate::numbers::Numbers;
use crate::roles::{Role, Scopes, look_up};
use call_cycles::Edge;
use efl_tree::EflName;
use ground::Place;
use std::alloc::{AllocError, Global};

/// Calls from procedures to others, which go by their numbers, and where they stand.
#[derive(Drop)]
pub struct Calls {
    pub edges: Vec<Edge>,
    pub places: Vec<Place>,
}

/// Where a part is: the procedures by their names, the number of its own, and the blocks.
#[derive(Clone, Copy, Drop)]
pub struct Site<'c, 'a> {
    pub numbers: &'c Numbers<'a>,
    pub unit: usize,
    pub scopes: &'c Scopes<'c, 'a>,
}

impl Calls {
    /// No calls. It takes no memory.
    pub fn new(alloc: Global) -> Calls
        ensures { calls_of result ≡ no_calls }
    {
        Calls {
            edges: Vec::new(alloc),
            places: Vec::new(alloc),
        }
    }

    /// A name before parentheses, in a part that stands there.
    pub fn apply(&mut self, site: &Site, place: Place, name: &EflName) -> Result<(), AllocError>
        ensures { OnOk result (calls_of self.new ≡ using (site_of site.now) place (Applied name.now) (calls_of self.old)) }
    {
        let called = called(site, name);
        self.call(site, place, called)
    }

    /// A call of the procedure with this number, if there is one.
    fn call(&mut self, site: &Site, place: Place, called: Option<usize>) -> Result<(), AllocError>
        ensures { OnOk result (calls_of self.new ≡ calling (site_of site.now) place called (calls_of self.old)) }
    {
        match called {
            None => Ok(()),
            Some(to) => {
                self.edges.push(Edge {
                    from: site.unit,
                    to,
                })?;
                self.places.push(place)?;
                Ok(())
            }
        }
    }
}

/// The procedure that is called by a name before parentheses.
fn called(site: &Site, name: &EflName) -> Option<usize>
    ensures { result ≡ called_as ((site_of site.now).numbers name.now) ((site_of site.now).roles name.now) }
{
    match look_up(site.scopes, name.as_bytes()) {
        Some(Role::Indexed) => None,
        _ => site.numbers.number(name.as_bytes()),
    }
}
