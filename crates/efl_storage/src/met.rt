// The undeclared variables that parts meet.
ghost use Rattle.std.specs.Prelude.{◌≡◌, List, OnOk};
ghost use Rattle.efl_tree.specs.Syntax.{Text, EflProcedure as ProcedureSeen};
ghost use Rattle.efl_tree.specs.Views.{expr_of, decl_kind_of, kind_of};
ghost use Rattle.efl_scope.specs.Scopes.{Blocks as BlocksSeen, implicit_type, implied_of};
ghost use Rattle.efl_scope.specs.ScopeRules.{holds};
ghost use Rattle.efl_scope.specs.Uses.{uses_declared};
ghost use Rattle.efl_scope.specs.Parts.{States, Until};
ghost use Rattle.efl_scoped.specs.Numbers.{Table};
ghost use Rattle.efl_expressions.specs.declared.types.Structure as structures;
ghost use Rattle.efl_variables.specs.Numbered.{scalar_kind as kind_seen};
ghost use Rattle.efl_storage.specs.Named.{texts_of};
ghost use Rattle.efl_storage.specs.Parts.{Sees, undeclared_places, TakesName, TakesNames, TakesUses, CountsPart};

use crate::kinds::scalar_kind;
use crate::named::{named_by_condition, named_by_declaration, named_by_statement};
use crate::storage::Storage;
use efl_expressions::{Blocks, look_up};
use efl_names::Letters;
use efl_tree::{EflDeclKind, EflExpr, EflKind, EflName};
use ground::Kind;
use std::alloc::{AllocError, Global};

/// The number of the place of a procedure's outer block.
const TOP: usize = 0;

/// What a part sees of its procedure: its number, its formals, the types that letters give, and the blocks around the part. Contracts
/// see by `Sees` which part it is.
#[derive(Clone, Copy, Drop)]
pub struct Sight<'s, 'a> {
    pub unit: usize,
    pub formals: &'s [EflName],
    pub letters: &'s Letters<'a>,
    pub blocks: &'s Blocks<'s, 'a>,
}

/// A statement comes, without those in it.
pub fn take_statement(
    alloc: Global,
    kind: &EflKind,
    sight: &Sight,
    storage: &mut Storage,
) -> Result<(), AllocError>
    ensures { OnOk result ((labels : List Text) → CountsPart sight.now (States labels (kind_of kind.now)) storage.old storage.new) }
{
    let names = named_by_statement(alloc, kind)?;
    meet_names(alloc, &names, sight, storage)
}

/// The condition of an `until` comes.
pub fn take_condition(
    alloc: Global,
    e: &EflExpr,
    sight: &Sight,
    storage: &mut Storage,
) -> Result<(), AllocError>
    ensures { OnOk result (CountsPart sight.now (Until (expr_of e.now)) storage.old storage.new) }
{
    let names = named_by_condition(alloc, e)?;
    meet_names(alloc, &names, sight, storage)
}

/// What a declaration uses comes.
pub fn take_uses(
    alloc: Global,
    kind: &EflDeclKind,
    sight: &Sight,
    storage: &mut Storage,
) -> Result<(), AllocError>
    ensures { OnOk result (TakesUses sight.now (uses_declared (decl_kind_of kind.now)) storage.old storage.new) }
{
    let names = named_by_declaration(alloc, kind)?;
    meet_names(alloc, &names, sight, storage)
}

fn meet_names(
    alloc: Global,
    names: &[&[u8]],
    sight: &Sight,
    storage: &mut Storage,
) -> Result<(), AllocError>
    ensures { OnOk result (TakesNames sight.now (texts_of names.now) storage.old storage.new) }
{
    for name in names {
        meet_name(alloc, name, sight, storage)?;
    }
    Ok(())
}

/// An undeclared name is a variable of the outer block.
fn meet_name(
    alloc: Global,
    name: &[u8],
    sight: &Sight,
    storage: &mut Storage,
) -> Result<(), AllocError>
    ensures { OnOk result (TakesName sight.now name.now storage.old storage.new) }
{
    match look_up(sight.blocks, name) {
        Some(_) => Ok(()),
        None => {
            let kind = implicit_kind(name, sight);
            let places = places(name, sight);
            storage.meet_named(alloc, sight.unit, TOP, name, kind, places)
        }
    }
}

/// The type of a name that is not declared, where it is a scalar.
fn implicit_kind(name: &[u8], sight: &Sight) -> Option<Kind>
    ensures { (f : Table) (ss : List structures.Structure) (us : List ProcedureSeen) (u : ProcedureSeen) (bs : BlocksSeen) → Sees f ss us u bs sight.now →
        kind_seen (implicit_type (implied_of u) name.now) ≡ result }
{
    scalar_kind(&sight.letters.implicit(name))
}

/// How many places count of a name that is not declared.
fn places(name: &[u8], sight: &Sight) -> u64
    ensures { (f : Table) (ss : List structures.Structure) (us : List ProcedureSeen) (u : ProcedureSeen) (bs : BlocksSeen) → Sees f ss us u bs sight.now →
        result ≡ undeclared_places u name.now }
{
    if is_formal(name, sight.formals) {
        return 0;
    }
    sight.letters.implicit(name).summary.places
}

/// Whether a name is a formal's.
pub fn is_formal(name: &[u8], formals: &[EflName]) -> bool
    ensures { result ≡ holds formals.now name.now }
{
    for formal in formals {
        if name == formal.as_bytes() {
            return true;
        }
    }
    false
}
