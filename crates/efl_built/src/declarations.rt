// Declarations that are not built yet.
ghost use Rattle.std.specs.Prelude.{◌≡◌};
ghost use Rattle.std.specs.List.{list_any};
ghost use Rattle.efl_tree.specs.Views.{type_of, var_of, vars_of, decl_kind_of, decls_of};
ghost use Rattle.efl_built.specs.Unbuilt.{is_plain as is_plain_seen, has_bounds as has_bounds_seen, unbuilt_declaration};
ghost use Rattle.efl_built.specs.Walks.{first_declared as first_declared_seen};

use efl_tree::{EflDecl, EflDeclKind, EflType, EflVar};
use ground::Place;

/// Where the first declaration stands that is not built.
pub fn first_declared(list: &[EflDecl]) -> Option<Place>
    ensures { result ≡ first_declared_seen (decls_of list.now) }
{
    for declaration in list {
        if is_declaration_unbuilt(&declaration.kind) {
            return Some(declaration.place);
        }
    }
    None
}

fn is_declaration_unbuilt(kind: &EflDeclKind) -> bool
    ensures { result ≡ unbuilt_declaration (decl_kind_of kind.now) }
{
    match kind {
        EflDeclKind::Implicit(_, kind) => !is_plain(kind),
        EflDeclKind::Variables(None, kind, list) => !is_plain(kind) || have_bounds(list),
        EflDeclKind::Variables(Some(_), _, _)
        | EflDeclKind::Initial(_)
        | EflDeclKind::Area(_, _)
        | EflDeclKind::Structure(_, _) => true,
    }
}

fn is_plain(kind: &EflType) -> bool
    ensures { result ≡ is_plain_seen (type_of kind.now) }
{
    match kind {
        EflType::Integer | EflType::Logical => true,
        EflType::Real(_) | EflType::Complex(_) | EflType::Named(_) | EflType::Shape(_, _) => false,
    }
}

/// Whether a variable has bounds.
fn have_bounds(list: &[EflVar]) -> bool
    ensures { result ≡ list_any has_bounds_seen (vars_of list.now) }
{
    for variable in list {
        if has_bounds(variable) {
            return true;
        }
    }
    false
}

fn has_bounds(variable: &EflVar) -> bool
    ensures { result ≡ has_bounds_seen (var_of variable.now) }
{
    !variable.bounds.is_empty()
}
