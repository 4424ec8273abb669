// The rules of names: their lengths, types and counts.
ghost use Rattle.std.specs.Prelude.{◌≡◌, ◌||◌, not, map};
ghost use Rattle.std.specs.List.{list_any};
ghost use Rattle.f66_tree.specs.Views.{declared_of, act_of};
ghost use Rattle.f66_names.specs.Declaring.{is_sized};
ghost use Rattle.f66_names.specs.Uses.{uses_in};
ghost use Rattle.f66_names.specs.UseViews.{use_of};
ghost use Rattle.f66_names.specs.Sorts.{is_real_by_letter};
ghost use Rattle.f66_names.specs.NameRules.{has_name, is_long, gives_other, has_other_type, has_many_sizes, has_wrong_sizes, miscounts_by, miscounts, has_wrong_count};
ghost use Rattle.f66_names.specs.DeclarationViews.{context_in};

use crate::declarations::Declarations;
use crate::sorts::{form_of, is_other, is_real_by_letter, takes};
use crate::tables::declared_in;
use crate::uses::Use;
use crate::{Manner, NameForm};
use f66_tree::{Declared, Name, StmtKind};

/// Whether a name of a statement has more than six characters (X3.9-1966, section 3.5).
#[tactic(auto, using(rule_table::proofs::WordLemmas::list_any_map))]
pub fn has_long_name(kind: &StmtKind, uses: &[Use]) -> bool
    requires { map use_of uses.now ≡ uses_in (act_of kind.now) }
    ensures { result ≡ has_name is_long (act_of kind.now) }
{
    has_long_declaration(declared_in(kind)) || has_long_use(uses)
}

/// Whether a statement gives a type outside the profile, or has a name of one (section 5.3).
#[tactic(auto, using(rule_table::proofs::WordLemmas::list_any_map))]
pub fn has_other_type(declarations: &Declarations, kind: &StmtKind, uses: &[Use]) -> bool
    requires { map use_of uses.now ≡ uses_in (act_of kind.now) }
    ensures { result ≡ has_other_type (context_in declarations.now) (act_of kind.now) }
{
    gives_other(kind)
        || (has_other_declaration(declarations, declared_in(kind))
            || has_other_use(declarations, uses))
}

/// Whether a statement has too many or too few dimensions, subscripts or arguments (sections 5.1.3.1 and 8.2).
#[tactic(auto, using(rule_table::proofs::WordLemmas::list_any_map))]
pub fn has_wrong_count(declarations: &Declarations, kind: &StmtKind, uses: &[Use]) -> bool
    requires { map use_of uses.now ≡ uses_in (act_of kind.now) }
    ensures { result ≡ has_wrong_count (context_in declarations.now) (act_of kind.now) }
{
    has_wrong_sizes(kind) || has_wrong_use(declarations, uses)
}

/// Whether a name has more than six characters.
pub fn is_long(name: &Name) -> bool
    ensures { result ≡ is_long name.now }
{
    name.as_bytes().len() > 6
}

/// Whether a name that is used has more than six characters.
#[tactic(auto, using(rule_table::proofs::WordLemmas::list_any_map))]
pub fn has_long_use(uses: &[Use]) -> bool
    ensures { result ≡ list_any (λ u. is_long u.name) (map use_of uses.now) }
{
    are_some_long(uses)
}

fn are_some_long(uses: &[Use]) -> bool
    ensures { result ≡ list_any (λ u. is_long u.name.now) uses.now }
{
    uses.iter().any(|u| is_long(u.name))
}

fn has_long_declaration(list: &[Declared]) -> bool
    ensures { result ≡ list_any (λ d. is_long d.name) list.now }
{
    list.iter().any(|d| is_long(&d.name))
}

fn gives_other(kind: &StmtKind) -> bool
    ensures { result ≡ gives_other (act_of kind.now) }
{
    match kind {
        StmtKind::Typed(word, _) => is_other(*word),
        _ => false,
    }
}

/// Whether a name that is used would be real.
#[tactic(auto, using(rule_table::proofs::WordLemmas::list_any_map))]
pub fn has_other_use(declarations: &Declarations, uses: &[Use]) -> bool
    ensures { result ≡ list_any (λ u. is_real_by_letter (context_in declarations.now) u.name) (map use_of uses.now) }
{
    are_some_other(declarations, uses)
}

fn are_some_other(declarations: &Declarations, uses: &[Use]) -> bool
    ensures { result ≡ list_any (λ u. is_real_by_letter (context_in declarations.now) u.name.now) uses.now }
{
    uses.iter().any(|u| is_real_by_letter(declarations, u.name))
}

fn has_other_declaration(declarations: &Declarations, list: &[Declared]) -> bool
    ensures { result ≡ list_any (λ d. is_real_by_letter (context_in declarations.now) d.name) list.now }
{
    list.iter()
        .any(|d| is_real_by_letter(declarations, &d.name))
}

/// Whether a name has more than three dimensions (section 5.1.3).
pub fn has_many_sizes(declared: &Declared) -> bool
    ensures { result ≡ has_many_sizes (declared_of declared.now) }
{
    declared.sizes.len() > 3
}

fn has_unfit_sizes(declared: &Declared) -> bool
    ensures { result ≡ (not (is_sized (declared_of declared.now)) || has_many_sizes (declared_of declared.now)) }
{
    declared.sizes.is_empty() || has_many_sizes(declared)
}

fn are_some_many(list: &[Declared]) -> bool
    ensures { result ≡ list_any (λ d. has_many_sizes (declared_of d)) list.now }
{
    list.iter().any(|d| has_many_sizes(d))
}

fn are_some_unfit(list: &[Declared]) -> bool
    ensures { result ≡ list_any (λ d. not (is_sized (declared_of d)) || has_many_sizes (declared_of d)) list.now }
{
    list.iter().any(|d| has_unfit_sizes(d))
}

#[tactic(auto, using(rule_table::proofs::WordLemmas::list_any_map))]
fn has_wrong_sizes(kind: &StmtKind) -> bool
    ensures { result ≡ has_wrong_sizes (act_of kind.now) }
{
    match kind {
        StmtKind::Typed(_, list) => are_some_many(list),
        StmtKind::Dimension(list) => are_some_unfit(list),
        _ => false,
    }
}

fn miscounts_by(form: NameForm, manner: Manner) -> bool
    ensures { result ≡ miscounts_by form manner }
{
    match manner {
        Manner::Alone => false,
        Manner::With(count) => !takes(form, count),
        Manner::Stored(count) => match form {
            NameForm::Array(_) => !takes(form, count),
            NameForm::Intrinsic(_) | NameForm::Plain => false,
        },
    }
}

fn miscounts(declarations: &Declarations, used: &Use) -> bool
    ensures { result ≡ miscounts (context_in declarations.now) (use_of used.now) }
{
    // A name that stands alone has no count that could be wrong.
    match used.manner {
        Manner::Alone => false,
        manner => miscounts_by(form_of(declarations, used.name), manner),
    }
}

/// Whether subscripts or arguments are too many or too few.
#[tactic(auto, using(rule_table::proofs::WordLemmas::list_any_map))]
pub fn has_wrong_use(declarations: &Declarations, uses: &[Use]) -> bool
    ensures { result ≡ list_any (miscounts (context_in declarations.now)) (map use_of uses.now) }
{
    are_some_wrong(declarations, uses)
}

fn are_some_wrong(declarations: &Declarations, uses: &[Use]) -> bool
    ensures { result ≡ list_any (λ u. miscounts (context_in declarations.now) (use_of u)) uses.now }
{
    uses.iter().any(|u| miscounts(declarations, u))
}
