// What the names of a part mean.
ghost use Rattle.std.specs.Prelude.{◌≡◌, List};
ghost use Rattle.efl_tree.specs.Syntax.{Text};
ghost use Rattle.efl_scope.specs.DataTypes.{DataType as TypeSeen, is_large as is_large_seen};
ghost use Rattle.efl_scope.specs.Scopes.{structured, shape_named, implicit_type, Meaning as MeaningSeen, meaning};
ghost use Rattle.efl_types.specs.Signatures.{Names as NamesSeen, variable_type as variable_type_seen, applied as applied_seen, callee as callee_seen, is_variable as is_variable_seen};
ghost use Rattle.efl_types.specs.Expressions.{variable_faults, undeclared_faults};
ghost use Rattle.efl_scoped.specs.Numbers.{Table};
ghost use Rattle.efl_scoped.specs.Told.{Tells};
ghost use Rattle.efl_expressions.specs.declared.types.Structure as structures;
ghost use Rattle.efl_expressions.specs.TypeViews.{IsType};
ghost use Rattle.efl_expressions.specs.NameViews.{IsApplied};
ghost use Rattle.efl_expressions.specs.FirstRule.{first_rule};
ghost use Rattle.efl_names.specs.NameViews.{Stands, IsCallee};

use crate::{Callee, Letters, Outcome, Units};
use efl_expressions::{
    Applied, Blocks, DataType, Meaning, Structures, before_parentheses, form, lacks_type, look_up,
    lower, rule_if, structure_named, variable_type,
};
use efl_scoped::Summary;
use efl_types::TypeRule;

/// The names of a part, with the structures of the program. Contracts see by `Stands` which names they are.
#[derive(Clone, Copy, Drop)]
pub struct Names<'c, 'a> {
    pub structures: &'c Structures<'a>,
    pub blocks: &'c Blocks<'c, 'a>,
    pub letters: &'c Letters<'a>,
    pub units: &'c Units<'a>,
    /// What the procedure of the part gives.
    pub outcome: Outcome,
}

impl<'c, 'a> Names<'c, 'a> {
    /// The type that the letter of a name gives.
    pub fn implicit(&self, name: &[u8]) -> DataType<'a>
        ensures { (f : Table) (n : NamesSeen) → Stands f n self.now → IsType f self.now.structures.now.list.items (implicit_type n.implied name.now) result }
    {
        self.letters.implicit(name)
    }

    /// The type of a name without parentheses.
    pub fn variable_type(&self, name: &[u8]) -> DataType<'a>
        ensures { (f : Table) (n : NamesSeen) → Stands f n self.now → IsType f self.now.structures.now.list.items (variable_type_seen n name.now) result }
    {
        variable_type(self.blocks, name, &self.implicit(name))
    }

    /// What a name without parentheses breaks.
    pub fn variable_rule(&self, name: &[u8]) -> Option<TypeRule>
        ensures { (f : Table) (n : NamesSeen) → Stands f n self.now → result ≡ first_rule (variable_faults n name.now) }
    {
        match look_up(self.blocks, name) {
            Some(_) => None,
            None => undeclared_rule(&self.implicit(name)),
        }
    }

    /// What a name before parentheses is.
    pub fn applied(&self, name: &[u8]) -> Applied<'a>
        ensures { (f : Table) (n : NamesSeen) → Stands f n self.now → IsApplied f self.now.structures.now.list.items (applied_seen n name.now) result }
    {
        before_parentheses(self.blocks, name)
    }

    /// The type that a structure's name gives.
    pub fn structure(&self, name: &[u8]) -> DataType<'a>
        ensures { (f : Table) (n : NamesSeen) → Stands f n self.now → IsType f self.now.structures.now.list.items (structured (shape_named n.blocks name.now)) result }
    {
        structure_named(self.blocks, name)
    }

    /// What a name before parentheses calls.
    pub fn callee(&self, name: &[u8]) -> Callee<'c, 'a>
        ensures { (f : Table) (n : NamesSeen) → Stands f n self.now → IsCallee f self.now.structures.now.list.items (callee_seen n name.now) result }
    {
        self.units.callee(name)
    }

    /// Whether a name is a variable's that is declared, or a formal's.
    pub fn is_variable(&self, name: &[u8]) -> bool
        ensures { (f : Table) (n : NamesSeen) → Stands f n self.now → result ≡ is_variable_seen n name.now }
    {
        match look_up(self.blocks, name) {
            Some(Meaning::Variable(_)) => true,
            _ => false,
        }
    }
}

/// What a variable that isn't declared breaks, of this type.
fn undeclared_rule(kind: &DataType) -> Option<TypeRule>
    ensures { (f : Table) (ss : List structures.Structure) (t : TypeSeen) → IsType f ss t kind.now → result ≡ first_rule (undeclared_faults t None) }
{
    let missing = rule_if(lacks_type(form(kind)), TypeRule::OutOfProfileType);
    lower(
        missing,
        rule_if(is_large(kind.summary), TypeRule::LargeVariable),
    )
}

/// Whether something has more places than a variable may have.
pub fn is_large(summary: Summary) -> bool
    ensures { (f : Table) (t : TypeSeen) → Tells f t summary → result ≡ is_large_seen t }
{
    summary.places > 32767
}
