// Where a block declares its variables.
ghost use Rattle.std.specs.Prelude.{◌≡◌, List};
ghost use Rattle.efl_scope.specs.Scopes.{Variable};
ghost use Rattle.efl_scope.specs.Marks.{Located, number_of};
ghost use Rattle.efl_bindings.specs.Declarations.{IsHome};

use efl_variables::Variables;

/// Where a block declares its variables: its procedure, the number of its place, and all variables.
#[derive(Clone, Copy, Drop)]
pub struct Home<'c> {
    pub unit: usize,
    pub place: Option<usize>,
    pub variables: &'c Variables,
}

impl Home<'_> {
    /// The number of its variable of a name.
    pub fn number(&self, name: &[u8]) -> usize
        ensures { (xs : List Located) (v : Variable) → IsHome xs v.home self.now → v.name ≡ name.now → result ≡ number_of xs self.now.unit v }
    {
        match self.variables.number(self.unit, self.place, name) {
            None => 0,
            Some(number) => number,
        }
    }
}
