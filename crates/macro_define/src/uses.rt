// The texts of macros that are under way, one within another.
ghost use Rattle.std.specs.Prelude.{◌≡◌, ◌==◌, [], ◌++◌, ◌∷◌, false, IfSome, MatchOption, OnOk};
ghost use Rattle.std.specs.List.{list_any};

use std::alloc::{AllocError, Global};
use std::collections::HashMap;
use std::marker::Model;

/// A text that is under way: the number of its macro, and the place of its next token.
#[derive(Clone, Copy, Debug)]
pub struct Use {
    pub number: usize,
    pub next: usize,
}

/// The texts that are under way, the outermost first. No two are of one macro.
#[derive(Drop)]
pub struct Uses {
    stack: Vec<Use>,
    /// Where in the stack the text of a macro stands, or stood if it has ended.
    places: HashMap<usize, usize>,
}

impl Model for Uses {
    ghost use Rattle.std.specs.Prelude.{List};
    ghost use Rattle.macro_define.specs.declared.uses.Use.{Use};
    ghost use Rattle.macro_define.specs.Placed.{IsPlaced};

    ghost Value = { List Use };

    ghost view = { λ uses. uses.stack.items };

    ghost invariant = { λ uses. IsPlaced uses.stack.items uses.places };
}

impl Uses {
    /// Takes no memory.
    pub fn new(alloc: Global) -> Self
        ensures { result ≡ [] }
    {
        Uses {
            stack: Vec::new(alloc),
            places: HashMap::new(alloc),
        }
    }

    /// Whether the text of this macro is under way.
    pub fn has(&self, number: usize) -> bool
        ensures { result ≡ list_any (λ u. u.number == number) self.now }
    {
        let Some(place) = self.places.get(&number) else {
            return false;
        };
        match self.stack.get(*place) {
            Some(other) => other.number == number,
            None => false,
        }
    }

    /// Adds a text, of a macro that has none under way, as the innermost.
    pub fn push(&mut self, text: Use) -> Result<(), AllocError>
        requires { list_any (λ u. u.number == text.number) self.old ≡ false }
        ensures { OnOk result (self.new ≡ self.old ++ text ∷ []) }
    {
        self.places.insert(text.number, self.stack.len())?;
        self.stack.push(text)?;
        Ok(())
    }

    /// Takes the innermost text.
    pub fn pop(&mut self) -> Option<Use>
        ensures text { MatchOption result ((self.old ≡ []) × (self.new ≡ [])) (λ text. self.old ≡ self.new ++ text ∷ []) }
        ensures ended { IfSome result (λ text. list_any (λ u. u.number == text.number) self.new ≡ false) }
    {
        self.stack.pop()
    }
}
