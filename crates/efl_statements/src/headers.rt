// Headers: the formals that no declaration has, the type, and how many formals there are.
ghost use Rattle.std.specs.Prelude.{◌≡◌, ◌∷◌, List, [], IfOk, is_some, flat_map};
ghost use Rattle.efl_tree.specs.Views.{procedure_of, type_if_any};
ghost use Rattle.efl_scope.specs.Scopes.{Implied, Variable, implied_of, undeclared};
ghost use Rattle.efl_types.specs.Declarations.{formal_faults, header_faults, is_shape as is_shape_seen};
ghost use Rattle.efl_scoped.specs.Numbers.{Table};
ghost use Rattle.efl_expressions.specs.declared.types.Structure as structures;
ghost use Rattle.efl_expressions.specs.TypeViews.{IsType};
ghost use Rattle.efl_expressions.specs.NameViews.{entry_in};
ghost use Rattle.efl_expressions.specs.FirstRule.{first_rule};
ghost use Rattle.efl_names.specs.NameViews.{AreLetters};
ghost use Rattle.efl_blocks.specs.declared.types.Types as collections;
ghost use Rattle.efl_blocks.specs.OuterViews.{AreRules};
ghost use Rattle.efl_statements.specs.Headers.{HasNames};

use efl_blocks::name_declared;
use efl_expressions::{Block, Blocks, DataType, form, lacks_type, look_up, lower, rule_if};
use efl_names::{Letters, is_large};
use efl_tree::{EflName, EflProcedure, EflType};
use efl_types::TypeRule;
use std::alloc::{AllocError, Global};

/// What a header breaks, where letters have the types that the procedure gives them.
pub fn header_rule(
    alloc: Global,
    procedure: &EflProcedure,
    letters: &Letters,
) -> Result<Option<TypeRule>, AllocError>
    ensures { IfOk result (λ rule. (y : collections.Types) → AreRules y (implied_of (procedure_of procedure.now)) letters.now →
        rule ≡ first_rule (header_faults (procedure_of procedure.now))) }
{
    let mut declared = Block::new(alloc);
    name_declared(&procedure.declarations, &mut declared)?;
    let formals = formals_rule(&procedure.formals, &declared, letters);
    let shape = rule_if(is_shape(&procedure.result), TypeRule::TypeClash);
    let count = rule_if(32 < procedure.formals.len(), TypeRule::WrongCount);
    let inner = lower(shape, count);
    Ok(lower(formals, inner))
}

/// What those of the formals break whose names no declared variable has.
fn formals_rule(formals: &[EflName], declared: &Block, letters: &Letters) -> Option<TypeRule>
    ensures { (f : Table) (ss : List structures.Structure) (rules : List Implied) (vs : List Variable) → AreLetters f ss rules letters.now → HasNames vs declared.now →
        result ≡ first_rule (flat_map formal_faults (undeclared rules vs formals.now)) }
{
    let mut rule = None;
    for formal in formals {
        let own = formal_rule(formal.as_bytes(), declared, letters);
        rule = lower(rule, own);
    }
    rule
}

fn formal_rule(name: &[u8], declared: &Block, letters: &Letters) -> Option<TypeRule>
    ensures { (f : Table) (ss : List structures.Structure) (rules : List Implied) (vs : List Variable) → AreLetters f ss rules letters.now → HasNames vs declared.now →
        result ≡ first_rule (flat_map formal_faults (undeclared rules vs (name.now ∷ []))) }
{
    if is_declared(name, declared) {
        return None;
    }
    implicit_rule(&letters.implicit(name))
}

/// What a formal of this type breaks.
fn implicit_rule(kind: &DataType) -> Option<TypeRule>
    ensures { (f : Table) (ss : List structures.Structure) (v : Variable) → IsType f ss v.kind kind.now → result ≡ first_rule (formal_faults v) }
{
    let missing = rule_if(lacks_type(form(kind)), TypeRule::OutOfProfileType);
    let large = rule_if(is_large(kind.summary), TypeRule::LargeVariable);
    lower(missing, large)
}

/// Whether a block has a name.
fn is_declared(name: &[u8], declared: &Block) -> bool
    ensures { result ≡ is_some (entry_in declared.now name.now) }
{
    look_up(&Blocks::Inside(declared, &Blocks::Outside), name).is_some()
}

/// Whether a procedure's type is a structure's.
fn is_shape(kind: &Option<EflType>) -> bool
    ensures { result ≡ is_shape_seen (type_if_any kind.now) }
{
    matches!(kind, Some(EflType::Shape(_, _)))
}
