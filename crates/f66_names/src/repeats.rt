// Names that are declared twice.
ghost use Rattle.std.specs.Prelude.{◌≡◌, ◌||◌, ◌&&◌, List, ℕ, IfOk, OnOk, map, filter, is_some};
ghost use Rattle.std.specs.HashMap.{get_by};
ghost use Rattle.std.specs.List.{list_any};
ghost use Rattle.std.specs.Str.{bytes_eq};
ghost use Rattle.rule_table.specs.Words.{repeats, is_below, first_place};
ghost use Rattle.f66_tree.specs.Views.{declared_of, act_of};
ghost use Rattle.f66_names.specs.Declaring.{is_sized, types, sizes};
ghost use Rattle.f66_names.specs.NameRules.{retypes, resizes, redeclares};
ghost use Rattle.f66_names.specs.DeclarationViews.{acts_in};

use crate::declarations::Declarations;
use crate::tables::{declared_in, typed_in};
use f66_tree::{Declared, StmtKind};
use rule_table::{is_below, note};
use std::alloc::{AllocError, Global};
use std::collections::HashMap;

/// Whether the statement with the number i gives a name a type or dimensions that an earlier statement gave it too, or
/// gives them twice (X3.9-1966, section 7.2.1).
pub fn redeclares(
    alloc: Global,
    declarations: &Declarations,
    i: usize,
    kind: &StmtKind,
) -> Result<bool, AllocError>
    ensures { IfOk result (λ b. b ≡ redeclares (acts_in declarations.now) i (act_of kind.now)) }
{
    let retyped = retypes(alloc, declarations, i, typed_in(kind))?;
    let resized = resizes(alloc, declarations, i, declared_in(kind))?;
    Ok(retyped || resized)
}

#[tactic(auto, using(crate::proofs::DeclaredLemmas::declared_steps))]
fn retypes(
    alloc: Global,
    declarations: &Declarations,
    i: usize,
    list: &[Declared],
) -> Result<bool, AllocError>
    ensures { IfOk result (λ b. b ≡ retypes (acts_in declarations.now) i (map declared_of list.now)) }
{
    let twice = repeats(alloc, list)?;
    Ok(are_some_typed(declarations, i, list) || twice)
}

#[tactic(auto, using(crate::proofs::DeclaredLemmas::declared_steps))]
fn resizes(
    alloc: Global,
    declarations: &Declarations,
    i: usize,
    list: &[Declared],
) -> Result<bool, AllocError>
    ensures { IfOk result (λ b. b ≡ resizes (acts_in declarations.now) i (filter is_sized (map declared_of list.now))) }
{
    let twice = repeats_sized(alloc, list)?;
    Ok(are_some_sized(declarations, i, list) || twice)
}

/// Notes a name, and says whether it was noted before.
pub fn note_repeat<'a>(
    seen: &mut HashMap<&'a [u8], bool>,
    name: &'a [u8],
) -> Result<bool, AllocError>
    ensures known { IfOk result (λ b. b ≡ is_some (get_by (λ k. bytes_eq name.now k.now) seen.old)) }
    ensures noted { OnOk result
        ((q : List ℕ) → is_some (get_by (λ k. bytes_eq q k.now) seen.new)
        ≡ (is_some (get_by (λ k. bytes_eq q k.now) seen.old) || bytes_eq q name.now)) }
{
    let known = seen.contains_key(name);
    note(seen, name, true)?;
    Ok(known)
}

/// The same of a name that has dimensions.
fn note_sized_repeat<'a>(
    seen: &mut HashMap<&'a [u8], bool>,
    declared: &'a Declared,
) -> Result<bool, AllocError>
    ensures known { IfOk result
        (λ b. b ≡ (is_sized (declared_of declared.now) && is_some (get_by (λ k. bytes_eq declared.now.name k.now) seen.old))) }
    ensures noted { OnOk result
        ((q : List ℕ) → is_some (get_by (λ k. bytes_eq q k.now) seen.new)
        ≡ (is_some (get_by (λ k. bytes_eq q k.now) seen.old) || (is_sized (declared_of declared.now) && bytes_eq q declared.now.name))) }
{
    if declared.sizes.is_empty() {
        return Ok(false);
    }
    note_repeat(seen, declared.name.as_bytes())
}

fn repeats(alloc: Global, list: &[Declared]) -> Result<bool, AllocError>
    ensures { IfOk result (λ b. b ≡ repeats (map (λ d. d.name) list.now)) }
{
    let mut seen = HashMap::new(alloc);
    for declared in list {
        if note_repeat(&mut seen, declared.name.as_bytes())? {
            return Ok(true);
        }
    }
    Ok(false)
}

fn repeats_sized(alloc: Global, list: &[Declared]) -> Result<bool, AllocError>
    ensures { IfOk result (λ b. b ≡ repeats (map (λ d. d.name) (filter (λ d. is_sized (declared_of d)) list.now))) }
{
    let mut seen = HashMap::new(alloc);
    for declared in list {
        if note_sized_repeat(&mut seen, declared)? {
            return Ok(true);
        }
    }
    Ok(false)
}

fn was_typed(declarations: &Declarations, i: usize, declared: &Declared) -> bool
    ensures { result ≡ is_below i (first_place (types declared.now.name) (acts_in declarations.now)) }
{
    is_below(i, declarations.typed.get(declared.name.as_bytes()).copied())
}

fn was_sized(declarations: &Declarations, i: usize, declared: &Declared) -> bool
    ensures { result ≡ (is_sized (declared_of declared.now) && is_below i (first_place (sizes declared.now.name) (acts_in declarations.now))) }
{
    !declared.sizes.is_empty()
        && is_below(i, declarations.sized.get(declared.name.as_bytes()).copied())
}

fn are_some_typed(declarations: &Declarations, i: usize, list: &[Declared]) -> bool
    ensures { result ≡ list_any (λ d. is_below i (first_place (types d.name) (acts_in declarations.now))) list.now }
{
    list.iter().any(|d| was_typed(declarations, i, d))
}

fn are_some_sized(declarations: &Declarations, i: usize, list: &[Declared]) -> bool
    ensures { result ≡ list_any (λ d. is_sized (declared_of d) && is_below i (first_place (sizes d.name) (acts_in declarations.now))) list.now }
{
    list.iter().any(|d| was_sized(declarations, i, d))
}
