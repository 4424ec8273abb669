// The table of macros, and the replacement of their names.
ghost use Rattle.std.specs.Prelude.{◌≡◌, ◌+◌, ◌-◌, ◌*◌, ◌^◌, ◌<◌, ◌==◌, false, [], ◌++◌, ◌∷◌, length, slice_get, IfOk, IfSome, OnOk, option_map};
ghost use Rattle.std.specs.List.{list_any};
ghost use Rattle.std.specs.Option.{option_copied};
ghost use Rattle.macro_define.specs.Made.{Came, Goes, and_then, made};
ghost use Rattle.macro_define.specs.Macros.{key as key_of, kind_made, macro_of as macro_of_kind, number_of as number_of_name, replaced, text_of, token_made};
ghost use Rattle.macro_define.specs.Plain.{IsLone, lone_made};
ghost use Rattle.macro_define.specs.Uses.{in_progress, still_made, table, used};

use crate::output::Output;
use crate::plain::may_name_macro;
use crate::uses::{Use, Uses};
use ground::{Dialect, Fault, FaultKind, Place, Refusal, Token, TokenKind};
use indexmap::IndexMap;
use std::alloc::{AllocError, Global};

/// The texts of macros by their names, in the order of the first define of each. A name is as it is compared.
pub type Macros = IndexMap<Vec<u8>, Vec<TokenKind>>;

/// Up to so many macros are looked through sooner than a name is hashed.
const FEW: usize = 8;

/// Adds what a token makes: itself, or what the macro that it names stands for (Kernighan's and Feldman's macros).
pub fn add_token(
    alloc: Global,
    dialect: Dialect,
    macros: &Macros,
    token: Token,
    output: &mut Output,
) -> Result<(), Refusal>
    ensures { Came (token_made dialect (table macros.now) token (made output.old)) result (made output.new) }
{
    // Most texts define no macro.
    if macros.is_empty() {
        return output.put(token);
    }
    match macro_of(alloc, dialect, macros, &token.kind)? {
        Some(number) => replace(alloc, dialect, macros, number, token.place, output),
        None => output.put(token),
    }
}

/// The name of a macro as it is compared: as written in Ratfor, without case in EFL.
pub fn key(alloc: Global, dialect: Dialect, name: &[u8]) -> Result<Vec<u8>, AllocError>
    ensures { IfOk result (λ v. v.items ≡ key_of dialect name.now) }
{
    match dialect {
        Dialect::Ratfor => Vec::from_slice(alloc, name),
        Dialect::Efl => name
            .iter()
            .map(|byte| byte.to_ascii_lowercase())
            .collect(alloc),
    }
}

/// The number of a macro.
pub fn number_of(macros: &Macros, key: &[u8]) -> Option<usize>
    ensures number { result ≡ number_of_name (table macros.now) key.now }
    ensures within { IfSome result (λ n. n < length (table macros.now)) }
{
    if macros.len() <= FEW {
        return number_among(macros, key);
    }
    macros.get_index_of(key)
}

/// The same of a table that is looked through.
#[tactic(auto, using(crate::proofs::TableLemmas::number_from_keys))]
fn number_among(macros: &Macros, key: &[u8]) -> Option<usize>
    ensures { result ≡ number_of_name (table macros.now) key.now }
{
    for (number, name) in macros.keys().enumerate() {
        if key == name.as_slice() {
            return Some(number);
        }
    }
    None
}

/// The number of the macro that a token names.
fn macro_of(
    alloc: Global,
    dialect: Dialect,
    macros: &Macros,
    kind: &TokenKind,
) -> Result<Option<usize>, AllocError>
    ensures number { IfOk result (λ found. found ≡ macro_of_kind dialect (table macros.now) kind.now) }
    ensures within { IfOk result (λ found. IfSome found (λ n. n < length (table macros.now))) }
{
    match kind {
        TokenKind::Word(name) => number_named(alloc, dialect, macros, name.as_bytes()),
        _ => Ok(None),
    }
}

/// The number of the macro with a name as written.
fn number_named(
    alloc: Global,
    dialect: Dialect,
    macros: &Macros,
    name: &[u8],
) -> Result<Option<usize>, AllocError>
    ensures number { IfOk result (λ found. found ≡ number_of_name (table macros.now) (key_of dialect name.now)) }
    ensures within { IfOk result (λ found. IfSome found (λ n. n < length (table macros.now))) }
{
    match dialect {
        Dialect::Ratfor => Ok(number_of(macros, name)),
        Dialect::Efl => {
            let key = key(alloc, dialect, name)?;
            Ok(number_of(macros, &key))
        }
    }
}

/// Adds what a macro stands for.
fn replace(
    alloc: Global,
    dialect: Dialect,
    macros: &Macros,
    number: usize,
    place: Place,
    output: &mut Output,
) -> Result<(), Refusal>
    requires { number < length (table macros.now) }
    ensures { Came (replaced dialect (table macros.now) place (length (table macros.now)) [] number (made output.old)) result (made output.new) }
{
    // Most macros stand for one token.
    if let Some(kind) = lone_kind(dialect, macros, number) {
        return put_lone(kind, place, output);
    }
    let mut uses = Uses::new(alloc);
    begin(dialect, macros, number, place, &mut uses, output)?;
    while let Some(innermost) = uses.pop() {
        go_on(alloc, dialect, macros, innermost, place, &mut uses, output)?;
    }
    Ok(())
}

/// The text of a macro.
fn text_at(macros: &Macros, number: usize) -> Option<&[TokenKind]>
    ensures { IfSome result (λ text. text.now ≡ text_of (table macros.now) number) }
{
    let (_, text) = macros.get_index(number)?;
    Some(text.as_slice())
}

/// The one token of a macro's text, where it has no more and this names no macro.
fn lone_kind(dialect: Dialect, macros: &Macros, number: usize) -> Option<&TokenKind>
    ensures { IfSome result (λ kind. IsLone dialect (table macros.now) number kind.now) }
{
    match text_at(macros, number)? {
        [kind] if !may_name_macro(dialect, macros, kind) => Some(kind),
        _ => None,
    }
}

/// Adds the one token that a macro stands for.
fn put_lone(kind: &TokenKind, place: Place, output: &mut Output) -> Result<(), Refusal>
    ensures { Came (lone_made place kind.now (made output.old)) result (made output.new) }
{
    output.count(place)?;
    output.put(Token {
        kind: kind.clone()?,
        place,
    })
}

/// Goes on with the innermost text, which is taken from the uses: adds what its next token makes, if it has one.
fn go_on(
    alloc: Global,
    dialect: Dialect,
    macros: &Macros,
    innermost: Use,
    place: Place,
    uses: &mut Uses,
    output: &mut Output,
) -> Result<(), Refusal>
    requires { list_any (λ u. u.number == innermost.number) uses.old ≡ false }
    ensures made { Goes (still_made dialect (table macros.now) place [] (uses.old ++ innermost ∷ []) (made output.old)) result
        (still_made dialect (table macros.now) place [] uses.new (made output.new)) }
    ensures nearer { OnOk result (2 * output.new.left + length uses.new < 2 * output.old.left + length uses.old + 1) }
{
    let Some(kind) = next_kind(macros, innermost) else {
        return Ok(());
    };
    let next = innermost.next + 1;
    uses.push(Use { next, ..innermost })?;
    add_kind(alloc, dialect, macros, kind, place, uses, output)
}

/// Begins a macro's text.
fn begin(
    dialect: Dialect,
    macros: &Macros,
    number: usize,
    place: Place,
    uses: &mut Uses,
    output: &mut Output,
) -> Result<(), Refusal>
    requires { number < length (table macros.now) }
    ensures made { Goes (and_then (used dialect (table macros.now) place (in_progress [] uses.old) number (made output.old))
        (still_made dialect (table macros.now) place [] uses.old)) result
        (still_made dialect (table macros.now) place [] uses.new (made output.new)) }
    ensures nearer { OnOk result (2 * output.new.left + length uses.new < 2 * output.old.left + length uses.old) }
{
    if uses.has(number) {
        return Err(Refusal::Fault(Fault::new(place, FaultKind::MacroLoop)));
    }
    output.count(place)?;
    uses.push(Use { number, next: 0 })?;
    Ok(())
}

/// The next token of a text that is under way.
fn next_kind(macros: &Macros, innermost: Use) -> Option<&TokenKind>
    ensures kind { option_copied result ≡ slice_get (text_of (table macros.now) innermost.number) innermost.next }
    ensures within { IfSome result (λ _. innermost.next + 1 < 2 ^ 64) }
{
    let (_, text) = macros.get_index(innermost.number)?;
    if innermost.next < text.len() {
        Some(&text[innermost.next])
    } else {
        None
    }
}

/// Adds what a token of a macro's text makes, or begins the text of the macro that it names.
fn add_kind(
    alloc: Global,
    dialect: Dialect,
    macros: &Macros,
    kind: &TokenKind,
    place: Place,
    uses: &mut Uses,
    output: &mut Output,
) -> Result<(), Refusal>
    ensures made { Goes (and_then (kind_made dialect (table macros.now) place
        (used dialect (table macros.now) place (in_progress [] uses.old)) kind.now (made output.old))
        (still_made dialect (table macros.now) place [] uses.old)) result
        (still_made dialect (table macros.now) place [] uses.new (made output.new)) }
    ensures nearer { OnOk result (2 * output.new.left + length uses.new < 2 * output.old.left + length uses.old) }
{
    match macro_of(alloc, dialect, macros, kind)? {
        Some(number) => begin(dialect, macros, number, place, uses, output),
        None => output.put(Token {
            kind: kind.clone()?,
            place,
        }),
    }
}
