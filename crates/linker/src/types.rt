// A unit with the types of its names.
ghost use Rattle.std.specs.Prelude.{◌≡◌, ℕ, List, IfOk, OnOk, Some, None, if◌then◌else◌, map};
ghost use Rattle.std.specs.HashMap.{get_by};
ghost use Rattle.std.specs.List.{list_any};
ghost use Rattle.std.specs.Option.{option_or};
ghost use Rattle.std.specs.Str.{bytes_eq};
ghost use Rattle.std.proofs.Props.{props};
ghost use Rattle.rule_table.specs.Words.{find_map};
ghost use Rattle.f66_tree.specs.Views.{act_of, declared_of};
ghost use Rattle.linker.specs.Types.{type_given};

use f66_mentions::{UnitNames, names_of};
use f66_tree::{Declared, Stmt, StmtKind, TypeWord, Unit};
use rule_table::note;
use std::alloc::{AllocError, Global};
use std::collections::HashMap;

/// A unit with the tables of its names, and the types that its statements give them.
#[derive(Drop)]
pub(crate) struct TypedUnit<'a> {
    pub(crate) names: UnitNames<'a>,
    pub(crate) words: HashMap<&'a [u8], TypeWord>,
    ghost words_are: { (q : List ℕ) → get_by (λ k. bytes_eq q k.now) words ≡ find_map (type_given q) (map (λ s. act_of s.kind) names.unit.now.statements.items) } by { Prim.hlevel props },
}

/// The tables of a unit's names with their types.
pub(crate) fn typed_of<'a>(alloc: Global, unit: &'a Unit) -> Result<TypedUnit<'a>, AllocError>
    ensures { IfOk result (λ t. t.names.unit.now ≡ unit.now) }
{
    let words = words_of(alloc, &unit.statements)?;
    let names = names_of(alloc, unit)?;
    Ok(TypedUnit { names, words })
}

/// The types that statements give names.
pub fn words_of<'a>(
    alloc: Global,
    statements: &'a [Stmt],
) -> Result<HashMap<&'a [u8], TypeWord>, AllocError>
    ensures { IfOk result (λ t. (q : List ℕ) → get_by (λ k. bytes_eq q k.now) t ≡ find_map (type_given q) (map (λ s. act_of s.kind) statements.now)) }
{
    let mut words = HashMap::new(alloc);
    for statement in statements {
        note_in(&mut words, &statement.kind)?;
    }
    Ok(words)
}

/// Notes the type that a statement gives names.
fn note_in<'a>(
    words: &mut HashMap<&'a [u8], TypeWord>,
    kind: &'a StmtKind,
) -> Result<(), AllocError>
    ensures { OnOk result ((q : List ℕ) → get_by (λ k. bytes_eq q k.now) words.new ≡ option_or (get_by (λ k. bytes_eq q k.now) words.old) (type_given q (act_of kind.now))) }
{
    match kind {
        StmtKind::Typed(word, list) => note_list(words, list, *word),
        _ => Ok(()),
    }
}

fn note_list<'a>(
    words: &mut HashMap<&'a [u8], TypeWord>,
    list: &'a [Declared],
    word: TypeWord,
) -> Result<(), AllocError>
    ensures { OnOk result ((q : List ℕ) → get_by (λ k. bytes_eq q k.now) words.new
        ≡ option_or (get_by (λ k. bytes_eq q k.now) words.old) (if list_any (λ d. bytes_eq q d.name) (map declared_of list.now) then Some word else None)) }
{
    for declared in list {
        note(words, declared.name.as_bytes(), word)?;
    }
    Ok(())
}
