// The classes of names.
ghost use Rattle.std.specs.Prelude.{◌≡◌, ℕ, List, IfOk, OnOk, map, Some, None, option_map};
ghost use Rattle.std.specs.HashMap.{get_by};
ghost use Rattle.std.specs.Option.{option_or};
ghost use Rattle.std.specs.Str.{bytes_eq};
ghost use Rattle.rule_table.specs.Words.{find_map};
ghost use Rattle.f66_tree.specs.Views.{header_of};
ghost use Rattle.f66_names.specs.ActViews.{act_said};
ghost use Rattle.f66_names.specs.UseViews.{use_of};
ghost use Rattle.f66_names.specs.DeclarationViews.{context_in, acts_in};
ghost use Rattle.unit_rules.specs.Roles.{role_by, role_used, role_given, role_called, role_in, role_listed, role_held, role_of, same_role, has_other_role};

use crate::called::called_in_saying;
use crate::judged::judged_uses_into;
use crate::more_uses::more_uses_of_saying;
use f66_names::{Declarations, Manner, NameForm, Saying, Use, form_of};
use f66_tree::{Header, Name};
use name_tables::value_of;
use rule_table::note;
use std::alloc::{AllocError, Global};
use std::collections::HashMap;

/// The classes of names that exclude each other (X3.9-1966, section 10.1).
#[derive(Clone, Copy, Debug, PartialEq, Eq)]
pub enum Role {
    Variable,
    Function,
    Subroutine,
}

/// The first class of each name of a unit.
pub fn role_table<'a>(
    alloc: Global,
    declarations: &Declarations<'a>,
) -> Result<HashMap<&'a [u8], Role>, AllocError>
    ensures { IfOk result
        (λ m. (q : List ℕ) → get_by (λ k. bytes_eq q k.now) m ≡ role_of (context_in declarations.now) (acts_in declarations.now) q) }
{
    let mut table = HashMap::new(alloc);
    note_held(&mut table, declarations.header)?;
    let mut uses = Vec::new(alloc);
    for saying in declarations.sayings {
        note_roles(alloc, &mut table, declarations, saying, &mut uses)?;
    }
    Ok(table)
}

/// The class that a header gives each of its names.
pub fn held_table<'a>(
    alloc: Global,
    header: &'a Header,
) -> Result<HashMap<&'a [u8], Role>, AllocError>
    ensures { IfOk result (λ m. (q : List ℕ) → get_by (λ k. bytes_eq q k.now) m ≡ role_held (header_of header.now) q) }
{
    let mut table = HashMap::new(alloc);
    note_held(&mut table, header)?;
    Ok(table)
}

/// Notes the classes that a header gives its names.
fn note_held<'a>(table: &mut HashMap<&'a [u8], Role>, header: &'a Header) -> Result<(), AllocError>
    ensures { OnOk result
        ((q : List ℕ) → get_by (λ k. bytes_eq q k.now) table.new
        ≡ option_or (get_by (λ k. bytes_eq q k.now) table.old) (role_held (header_of header.now) q)) }
{
    match header {
        Header::Sub(own, dummies) => {
            note(table, own.as_bytes(), Role::Subroutine)?;
            note_dummies(table, dummies)
        }
        Header::Func(_, own, dummies) => {
            note(table, own.as_bytes(), Role::Variable)?;
            note_dummies(table, dummies)
        }
        Header::Main | Header::Block => Ok(()),
    }
}

fn note_dummies<'a>(table: &mut HashMap<&'a [u8], Role>, list: &'a [Name]) -> Result<(), AllocError>
    ensures { OnOk result
        ((q : List ℕ) → get_by (λ k. bytes_eq q k.now) table.new
        ≡ option_or (get_by (λ k. bytes_eq q k.now) table.old) (role_listed q list.now)) }
{
    for dummy in list {
        note(table, dummy.as_bytes(), Role::Variable)?;
    }
    Ok(())
}

/// Notes the classes that a statement or a part of one uses names in, which the list gets.
fn note_roles<'a>(
    alloc: Global,
    table: &mut HashMap<&'a [u8], Role>,
    declarations: &Declarations<'a>,
    saying: &Saying<'a>,
    uses: &mut Vec<Use<'a>>,
) -> Result<(), AllocError>
    ensures { OnOk result
        ((q : List ℕ) → get_by (λ k. bytes_eq q k.now) table.new
        ≡ option_or (get_by (λ k. bytes_eq q k.now) table.old) (role_in (context_in declarations.now) q (act_said saying.now))) }
{
    judged_uses_into(declarations, saying, uses)?;
    let more = more_uses_of_saying(alloc, declarations, saying)?;
    note_called(table, called_in_saying(saying))?;
    note_used(table, declarations, uses)?;
    note_used(table, declarations, &more)
}

fn note_called<'a>(
    table: &mut HashMap<&'a [u8], Role>,
    called: Option<&'a Name>,
) -> Result<(), AllocError>
    ensures { OnOk result
        ((q : List ℕ) → get_by (λ k. bytes_eq q k.now) table.new
        ≡ option_or (get_by (λ k. bytes_eq q k.now) table.old) (role_called q (option_map (λ n. n.now) called.entry))) }
{
    match called {
        Some(name) => note(table, name.as_bytes(), Role::Subroutine),
        None => Ok(()),
    }
}

fn note_used<'a>(
    table: &mut HashMap<&'a [u8], Role>,
    declarations: &Declarations<'a>,
    uses: &[Use<'a>],
) -> Result<(), AllocError>
    ensures { OnOk result
        ((q : List ℕ) → get_by (λ k. bytes_eq q k.now) table.new
        ≡ option_or (get_by (λ k. bytes_eq q k.now) table.old) (find_map (role_given (context_in declarations.now) q) (map use_of uses.now))) }
{
    for used in uses {
        note_use(table, declarations, used)?;
    }
    Ok(())
}

fn note_use<'a>(
    table: &mut HashMap<&'a [u8], Role>,
    declarations: &Declarations<'a>,
    used: &Use<'a>,
) -> Result<(), AllocError>
    ensures { OnOk result
        ((q : List ℕ) → get_by (λ k. bytes_eq q k.now) table.new
        ≡ option_or (get_by (λ k. bytes_eq q k.now) table.old) (role_given (context_in declarations.now) q (use_of used.now))) }
{
    // A store says nothing of a name's class.
    if let Manner::Stored(_) = used.manner {
        return Ok(());
    }
    // Most names have their first class by then.
    if value_of(table, used.name.as_bytes()).is_some() {
        return Ok(());
    }
    match role_used(declarations, used) {
        Some(role) => note(table, used.name.as_bytes(), role),
        None => Ok(()),
    }
}

/// The class that a name is used in.
pub fn role_used(declarations: &Declarations, used: &Use) -> Option<Role>
    ensures { result ≡ role_used (context_in declarations.now) (use_of used.now) }
{
    role_by(form_of(declarations, used.name), used.manner)
}

fn role_by(form: NameForm, manner: Manner) -> Option<Role>
    ensures { result ≡ role_by form manner }
{
    match form {
        NameForm::Array(_) => None,
        NameForm::Intrinsic(_) | NameForm::Plain => match manner {
            Manner::Alone => Some(Role::Variable),
            Manner::With(_) => Some(Role::Function),
            Manner::Stored(_) => None,
        },
    }
}

fn same_role(a: Role, b: Role) -> bool
    ensures { result ≡ same_role a b }
{
    match (a, b) {
        (Role::Variable, Role::Variable) => true,
        (Role::Function, Role::Function) => true,
        (Role::Subroutine, Role::Subroutine) => true,
        _ => false,
    }
}

/// Whether a name is used in a class that is not its first one.
pub fn has_other_role(used: Option<Role>, first: Option<Role>) -> bool
    ensures { result ≡ has_other_role used first }
{
    match used {
        None => false,
        Some(role) => match first {
            Some(first) => !same_role(role, first),
            None => true,
        },
    }
}
