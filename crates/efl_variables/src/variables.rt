// The variables of a program, each with its number.
ghost use Rattle.std.specs.Prelude.{◌≡◌, ℕ, List, [], ◌∷◌, ◌++◌, not, Some, None, IfOk, OnOk};
ghost use Rattle.std.specs.List.{list_any};
ghost use Rattle.rule_table.specs.Words.{first_place};
ghost use Rattle.efl_scope.specs.Marks.{Located, same_located};
ghost use Rattle.efl_scoped.specs.Seen.{table_of};
ghost use Rattle.efl_variables.specs.Keys.{list_number, key as key_seen};
ghost use Rattle.efl_variables.specs.Numbered.{AreVariables, IsListed, scalar_kind, with_one};

use crate::keys::{find, find_key, key};
use efl_scoped::Pairs;
use ground::{Kind, Text};
use std::alloc::{AllocError, Global};
use std::collections::HashMap;

/// A variable: its procedure's number, the number of the place of its block, where the outermost has 0, its name, and its type where it
/// is a scalar.
#[derive(Drop)]
pub struct Variable {
    pub unit: usize,
    pub home: usize,
    pub name: Text,
    pub kind: Option<Kind>,
}

/// Variables by their numbers. Contracts see by `AreVariables` which they are.
#[derive(Drop)]
pub struct Variables {
    pub numbers: Pairs,
    pub seen: HashMap<usize, usize>,
    pub list: Vec<Variable>,
}

impl Variables {
    /// No variables. It takes no memory.
    pub fn new(alloc: Global) -> Variables
        ensures { AreVariables [] result }
    {
        Variables {
            numbers: Pairs::new(alloc),
            seen: HashMap::new(alloc),
            list: Vec::new(alloc),
        }
    }

    /// A variable is met. Whether it was not there.
    pub fn meet(
        &mut self,
        alloc: Global,
        unit: usize,
        home: usize,
        name: &[u8],
        kind: Option<Kind>,
    ) -> Result<bool, AllocError>
        ensures { IfOk result (λ is_new. (xs : List Located) (x : Located) → x.unit ≡ unit → list_number (table_of self.old.numbers) x.variable.home ≡ Some home → x.variable.name ≡ name.now →
            scalar_kind x.variable.kind ≡ kind → AreVariables xs self.old → AreVariables (with_one xs x) self.new × (is_new ≡ not (list_any (same_located x) xs))) }
    {
        let number = key(unit, home, name, &mut self.numbers)?;
        if self.seen.contains_key(&number) {
            return Ok(false);
        }
        let name = Text::from_slice(alloc, name)?;
        self.add(
            number,
            Variable {
                unit,
                home,
                name,
                kind,
            },
        )?;
        Ok(true)
    }

    /// A variable with this number is listed.
    fn add(&mut self, number: usize, variable: Variable) -> Result<(), AllocError>
        ensures { OnOk result ((xs : List Located) (x : Located) → key_seen (table_of self.old.numbers) x ≡ Some number → first_place (same_located x) xs ≡ None →
            IsListed (table_of self.old.numbers) x variable → AreVariables xs self.old → AreVariables (xs ++ x ∷ []) self.new) }
    {
        self.seen.insert(number, self.list.len())?;
        self.list.push(variable)?;
        Ok(())
    }

    /// The number of the place with this number in its list within another place, which it gets where it has none.
    pub fn place_within(&mut self, step: usize, outside: usize) -> Result<usize, AllocError>
        ensures known { OnOk result ((xs : List Located) → AreVariables xs self.old → AreVariables xs self.new) }
        ensures numbered { IfOk result (λ n. (h : List ℕ) → list_number (table_of self.old.numbers) h ≡ Some outside → list_number (table_of self.new.numbers) (step ∷ h) ≡ Some n) }
        ensures kept { OnOk result ((h : List ℕ) (k : ℕ) → list_number (table_of self.old.numbers) h ≡ Some k → list_number (table_of self.new.numbers) h ≡ Some k) }
    {
        self.numbers.number(step, outside)
    }

    /// That number, if it has one.
    pub fn place_at(&self, step: usize, outside: Option<usize>) -> Option<usize>
        ensures { (h : List ℕ) → list_number (table_of self.now.numbers) h ≡ outside → result ≡ list_number (table_of self.now.numbers) (step ∷ h) }
    {
        find(step, outside?, &self.numbers)
    }

    /// The number of a variable.
    pub fn number(&self, unit: usize, home: Option<usize>, name: &[u8]) -> Option<usize>
        ensures { (xs : List Located) (x : Located) → AreVariables xs self.now → x.unit ≡ unit → list_number (table_of self.now.numbers) x.variable.home ≡ home → x.variable.name ≡ name.now →
            result ≡ first_place (same_located x) xs }
    {
        let number = find_key(unit, home?, name, &self.numbers)?;
        self.seen.get(&number).copied()
    }
}
