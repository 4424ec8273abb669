// The rules of headers.
ghost use Rattle.std.specs.Prelude.{◌≡◌, ◌∷◌, ◌&&◌, IfOk};
ghost use Rattle.std.specs.List.{list_any, list_all};
ghost use Rattle.std.specs.Str.{bytes_eq};
ghost use Rattle.rule_table.specs.Words.{repeats};
ghost use Rattle.rule_table.specs.FaultRules.{first_rule};
ghost use Rattle.f66_tree.specs.Views.{header_of, declared_of, act_of};
ghost use Rattle.f66_names.specs.Declaring.{is_sized};
ghost use Rattle.f66_names.specs.DeclarationViews.{context_in};
ghost use Rattle.f66_names.specs.NameRules.{is_long as is_long_text};
ghost use Rattle.f66_names.specs.Shapes.{is_name as is_name_text};
ghost use Rattle.f66_names.specs.Sorts.{is_real_by_letter as would_be_real};
ghost use Rattle.unit_rules.specs.Heads.{has_dummies, header_names, header_values, gives_other, breaks_header, is_own, is_settled, declares_own};

use f66_names::{
    Declarations, declared_in, is_long, is_name, is_other, is_real_by_letter, note_repeat, typed_in,
};
use f66_tree::{Declared, Header, Name, StmtKind};
use rule_table::Rule;
use std::alloc::{AllocError, Global};
use std::collections::HashMap;

/// The rule with the smallest number that a header breaks, of those on names and types (X3.9-1966, sections 3.5, 5.3, 8.3.1,
/// 8.4.1 and 8.5).
pub fn header_rule(alloc: Global, declarations: &Declarations) -> Result<Option<Rule>, AllocError>
    ensures { IfOk result (λ o. o ≡ first_rule (breaks_header (context_in declarations.now))) }
{
    let header = declarations.header;
    let twice = repeat_names(alloc, header)?;
    if !(has_dummies(header) && are_names(header)) {
        return Ok(Some(Rule::Syntax));
    }
    if has_long_name(header) {
        return Ok(Some(Rule::NameTooLong));
    }
    if gives_other(header) || has_real_value(declarations, header) {
        return Ok(Some(Rule::OutOfProfileType));
    }
    if twice {
        return Ok(Some(Rule::DuplicateName));
    }
    Ok(None)
}

fn has_dummies(header: &Header) -> bool
    ensures { result ≡ has_dummies (header_of header.now) }
{
    match header {
        Header::Func(_, _, dummies) => !dummies.is_empty(),
        _ => true,
    }
}

fn are_all_names(list: &[Name]) -> bool
    ensures { result ≡ list_all is_name_text list.now }
{
    list.iter().all(|name| is_name(name))
}

fn are_names(header: &Header) -> bool
    ensures { result ≡ list_all is_name_text (header_names (header_of header.now)) }
{
    match header {
        Header::Sub(own, dummies) => is_name(own) && are_all_names(dummies),
        Header::Func(_, own, dummies) => is_name(own) && are_all_names(dummies),
        Header::Main | Header::Block => true,
    }
}

fn are_some_long(list: &[Name]) -> bool
    ensures { result ≡ list_any is_long_text list.now }
{
    list.iter().any(|name| is_long(name))
}

fn has_long_name(header: &Header) -> bool
    ensures { result ≡ list_any is_long_text (header_names (header_of header.now)) }
{
    match header {
        Header::Sub(own, dummies) => is_long(own) || are_some_long(dummies),
        Header::Func(_, own, dummies) => is_long(own) || are_some_long(dummies),
        Header::Main | Header::Block => false,
    }
}

/// Whether a function's type is outside the profile.
fn gives_other(header: &Header) -> bool
    ensures { result ≡ gives_other (header_of header.now) }
{
    match header {
        Header::Func(Some(word), _, _) => is_other(*word),
        _ => false,
    }
}

fn are_some_real(declarations: &Declarations, list: &[Name]) -> bool
    ensures { result ≡ list_any (would_be_real (context_in declarations.now)) list.now }
{
    list.iter()
        .any(|name| is_real_by_letter(declarations, name))
}

/// Whether a dummy or a function's own name would be real.
fn has_real_value(declarations: &Declarations, header: &Header) -> bool
    ensures { result ≡ list_any (would_be_real (context_in declarations.now)) (header_values (header_of header.now)) }
{
    match header {
        Header::Sub(_, dummies) => are_some_real(declarations, dummies),
        Header::Func(_, own, dummies) => {
            is_real_by_letter(declarations, own) || are_some_real(declarations, dummies)
        }
        Header::Main | Header::Block => false,
    }
}

/// Whether a name stands twice in a header.
fn repeat_names(alloc: Global, header: &Header) -> Result<bool, AllocError>
    ensures { IfOk result (λ b. b ≡ repeats (header_names (header_of header.now))) }
{
    match header {
        Header::Sub(own, dummies) => repeat_behind(alloc, own, dummies),
        Header::Func(_, own, dummies) => repeat_behind(alloc, own, dummies),
        Header::Main | Header::Block => Ok(false),
    }
}

fn is_among(list: &[Name], name: &Name) -> bool
    ensures { result ≡ list_any (bytes_eq name.now) list.now }
{
    list.iter().any(|other| name.is_same(other))
}

fn repeat_behind(alloc: Global, own: &Name, list: &[Name]) -> Result<bool, AllocError>
    ensures { IfOk result (λ b. b ≡ repeats (own.now ∷ list.now)) }
{
    let again = is_among(list, own);
    let twice = repeats(alloc, list)?;
    Ok(again || twice)
}

fn repeats(alloc: Global, list: &[Name]) -> Result<bool, AllocError>
    ensures { IfOk result (λ b. b ≡ repeats list.now) }
{
    let mut seen = HashMap::new(alloc);
    for name in list {
        if note_repeat(&mut seen, name.as_bytes())? {
            return Ok(true);
        }
    }
    Ok(false)
}

/// Whether a name is the unit's own.
fn is_own(header: &Header, name: &Name) -> bool
    ensures { result ≡ is_own (header_of header.now) name.now }
{
    match header {
        Header::Sub(own, _) => name.is_same(own),
        Header::Func(_, own, _) => name.is_same(own),
        Header::Main | Header::Block => false,
    }
}

/// Whether no type statement gives a name a type.
fn is_settled(header: &Header, name: &Name) -> bool
    ensures { result ≡ is_settled (header_of header.now) name.now }
{
    match header {
        Header::Sub(own, _) => name.is_same(own),
        Header::Func(Some(_), own, _) => name.is_same(own),
        _ => false,
    }
}

fn are_some_settled(header: &Header, list: &[Declared]) -> bool
    ensures { result ≡ list_any (λ d. is_settled (header_of header.now) d.name) list.now }
{
    list.iter().any(|d| is_settled(header, &d.name))
}

fn is_own_sized(header: &Header, declared: &Declared) -> bool
    ensures { result ≡ (is_sized (declared_of declared.now) && is_own (header_of header.now) declared.now.name) }
{
    !declared.sizes.is_empty() && is_own(header, &declared.name)
}

fn are_some_own(header: &Header, list: &[Declared]) -> bool
    ensures { result ≡ list_any (λ d. is_sized (declared_of d) && is_own (header_of header.now) d.name) list.now }
{
    list.iter().any(|d| is_own_sized(header, d))
}

/// Whether a statement declares the unit's own name where it may not: a type that is settled, or dimensions (sections 8.3.1
/// and 8.4.1).
#[tactic(auto, using(f66_names::proofs::DeclaredLemmas::declared_steps))]
pub fn declares_own(header: &Header, kind: &StmtKind) -> bool
    ensures { result ≡ declares_own (header_of header.now) (act_of kind.now) }
{
    let typed = are_some_settled(header, typed_in(kind));
    typed || are_some_own(header, declared_in(kind))
}
