// What the code of a unit goes by.
ghost use Rattle.std.specs.Prelude.{◌≡◌, ℕ, drop, map};
ghost use Rattle.f66_tree.specs.Units.{is_main, kind_of, sizes_of};
ghost use Rattle.f66_tree.specs.Views.{line_of, lines_of, par_of};
ghost use Rattle.code_gen.specs.Layout.{Layout};
ghost use Rattle.code_gen.specs.Expressions.{base_code};
ghost use Rattle.code_gen.specs.Statements.{enders, place_of, target};
ghost use Rattle.code_emit.specs.Names.{base_of, callee_of, preset_in};
ghost use Rattle.code_emit.specs.Turns.{closer_in};

use f66_tree::{Name, Par, Stmt};
use ground::{Kind, Value};

/// Where a name has its places: so many storage units from a first one on, or those of an actual.
#[derive(Clone, Copy)]
pub enum Base {
    Own(u32, u32),
    Dummy(u32),
}

/// A unit that is called: the instruction that is its entry, and the storage units of its own name.
#[derive(Clone, Copy)]
pub struct Callee {
    pub entry: u32,
    pub first: u32,
    pub size: u32,
}

/// A DO that ends somewhere: its variable, and the number of the statement behind it. Statements count from 0 on.
#[derive(Clone, Copy)]
pub struct Turn<'a> {
    pub variable: &'a Name,
    pub behind: usize,
}

/// A unit whose names have their places, in a layout of its program.
pub trait NamedUnit {
    ghost layout: { Self → Layout };

    /// Which of the program's units it is.
    ghost number: { Self → ℕ };

    /// Its statements.
    fn statements(&self) -> &[Stmt]
        ensures { lines_of result.now ≡ (layout self.now).lines (number self.now) };

    /// Where a name has its places.
    fn base(&self, name: &Name) -> Base
        ensures { base_of result ≡ base_code (layout self.now) (number self.now) name.now };

    /// The type of a name.
    fn kind(&self, name: &Name) -> Kind
        ensures { result ≡ kind_of ((layout self.now).linked.context (number self.now)) name.now };

    /// The dimensions of a name, of which a variable has none.
    fn sizes(&self, name: &Name) -> &[Par]
        ensures { map par_of result.now ≡ sizes_of name.now ((layout self.now).linked.context (number self.now)).notes };

    /// The unit that a name calls.
    fn callee(&self, name: &Name) -> Option<Callee>
        ensures { result ≡ callee_of (layout self.now) name.now };

    /// The first of the storage units that are spare.
    fn spare(&self) -> u32
        ensures { result ≡ (layout self.now).spare (number self.now) };

    /// The first of the storage units that keep the limits and steps of DO statements.
    fn loops(&self) -> u32
        ensures { result ≡ (layout self.now).loops (number self.now) };

    /// Whether it is the main.
    fn is_main(&self) -> bool
        ensures { result ≡ is_main ((layout self.now).linked.context (number self.now)).header };

    /// The initial values of the program's storage units.
    fn presets(&self) -> &[(u32, Value)]
        ensures { map preset_in result.now ≡ (layout self.now).presets };
}

/// A unit whose statements have their places too.
pub trait CodedUnit: NamedUnit {
    /// The instruction at which the code from a statement on begins.
    fn place(&self, statement: usize) -> u32
        ensures { result ≡ place_of (Self.layout self.now) (Self.number self.now) (drop statement ((Self.layout self.now).lines (Self.number self.now))) };

    /// The instruction to which a branch to a label goes.
    fn target(&self, label: u32) -> u32
        ensures { result ≡ target (Self.layout self.now) (Self.number self.now) label };

    /// The loops that end at a statement, the innermost first.
    fn turns(&self, statement: &Stmt) -> &[Turn<'_>]
        ensures { map (closer_in ((Self.layout self.now).lines (Self.number self.now))) result.now ≡ enders (Self.layout self.now) (Self.number self.now) (line_of statement.now) };

    /// The plan of the format with a label.
    fn plan(&self, label: u32) -> u32
        ensures { result ≡ (Self.layout self.now).plan (Self.number self.now) label };
}
