// The variables of a block with what each of them is, by the types that structures before them give.
ghost use Rattle.std.specs.Prelude.{◌≡◌, OnOk, IfOk, ℕ};
ghost use Rattle.efl_tree.specs.Views.{type_of, vars_of, groups_of, decl_kind_of, decl_of, decls_of};
ghost use Rattle.efl_whole.specs.Roles.{inside, type_role as type_role_seen, named_role, variable_role, with_variables, behind_type, behind_groups, behind_kind, hide_variables as hide_variables_seen, hide_groups as hide_groups_seen, hide_by as hide_by_seen, hide_all as hide_all_seen, no_letters, letter_role, list_group as list_group_seen, list_groups as list_groups_seen, list_by as list_by_seen, list_all as list_all_seen, with_letter, with_letters, with_structure, listed, starting};
ghost use Rattle.efl_whole.specs.RoleViews.{roles_of, scope_of, letters_of, listed_of};

use crate::roles::{Role, Roles, Scopes, look_up};
use efl_tree::{EflBound, EflDecl, EflDeclKind, EflGroup, EflName, EflType, EflVar};
use std::alloc::{AllocError, Global};

/// The letters from one to another, by which undeclared formals are of a structure or not.
#[derive(Clone, Copy, Drop)]
pub struct LetterRange {
    pub first: u8,
    pub last: u8,
    pub role: Role,
}

/// What the letters of undeclared formals make them.
#[derive(Drop)]
pub struct Letters {
    pub list: Vec<LetterRange>,
}

/// What was seen of the declarations of a block: its names as its types see them, its variables, and what letters give.
#[derive(Drop)]
pub struct Listed<'a> {
    pub names: Roles<'a>,
    pub variables: Roles<'a>,
    pub letters: Letters,
}

/// The variables of a block with these declarations, among these scopes.
pub fn list_block<'a>(
    alloc: Global,
    declarations: &'a [EflDecl],
    outside: &Scopes<'_, 'a>,
) -> Result<Listed<'a>, AllocError>
    ensures { IfOk result (λ l. listed_of l ≡ listed (scope_of outside.now) (decls_of declarations.now)) }
{
    let mut names = Roles::new(alloc);
    hide_all(declarations, &mut names)?;
    let mut block = Listed {
        names,
        variables: Roles::new(alloc),
        letters: Letters {
            list: Vec::new(alloc),
        },
    };
    list_all(declarations, outside, &mut block)?;
    Ok(block)
}

/// The variables of declarations hide what is around.
fn hide_all<'a>(list: &'a [EflDecl], names: &mut Roles<'a>) -> Result<(), AllocError>
    ensures { OnOk result (roles_of names.new ≡ hide_all_seen (decls_of list.now) (roles_of names.old)) }
{
    for declaration in list {
        hide_by(&declaration.kind, names)?;
    }
    Ok(())
}

fn hide_by<'a>(kind: &'a EflDeclKind, names: &mut Roles<'a>) -> Result<(), AllocError>
    ensures { OnOk result (roles_of names.new ≡ hide_by_seen (decl_kind_of kind.now) (roles_of names.old)) }
{
    match kind {
        EflDeclKind::Variables(_, _, list) => hide_variables(list, names),
        EflDeclKind::Area(_, groups) => hide_groups(groups, names),
        _ => Ok(()),
    }
}

fn hide_groups<'a>(groups: &'a [EflGroup], names: &mut Roles<'a>) -> Result<(), AllocError>
    ensures { OnOk result (roles_of names.new ≡ hide_groups_seen (groups_of groups.now) (roles_of names.old)) }
{
    for group in groups {
        hide_variables(&group.variables, names)?;
    }
    Ok(())
}

fn hide_variables<'a>(list: &'a [EflVar], names: &mut Roles<'a>) -> Result<(), AllocError>
    ensures { OnOk result (roles_of names.new ≡ hide_variables_seen (vars_of list.now) (roles_of names.old)) }
{
    for variable in list {
        names.declare(variable.name.as_bytes(), Role::Single)?;
    }
    Ok(())
}

/// Variables come, which are this where they have no bounds.
fn declare_all<'a>(role: Role, list: &'a [EflVar], roles: &mut Roles<'a>) -> Result<(), AllocError>
    ensures { OnOk result (roles_of roles.new ≡ with_variables role (vars_of list.now) (roles_of roles.old)) }
{
    for variable in list {
        roles.declare(variable.name.as_bytes(), bounded(role, &variable.bounds))?;
    }
    Ok(())
}

/// A variable with bounds is an array.
fn bounded(role: Role, bounds: &[EflBound]) -> Role
    ensures { result ≡ variable_role role bounds.now }
{
    if bounds.is_empty() {
        role
    } else {
        Role::Indexed
    }
}

/// The variables of declarations come.
fn list_all<'a>(
    list: &'a [EflDecl],
    outside: &Scopes<'_, 'a>,
    block: &mut Listed<'a>,
) -> Result<(), AllocError>
    ensures { OnOk result (listed_of block.new ≡ list_all_seen (scope_of outside.now) (decls_of list.now) (listed_of block.old)) }
{
    for declaration in list {
        list_by(&declaration.kind, outside, block)?;
    }
    Ok(())
}

fn list_by<'a>(
    kind: &'a EflDeclKind,
    outside: &Scopes<'_, 'a>,
    block: &mut Listed<'a>,
) -> Result<(), AllocError>
    ensures { OnOk result (listed_of block.new ≡ list_by_seen (scope_of outside.now) (decl_kind_of kind.now) (listed_of block.old)) }
{
    match kind {
        EflDeclKind::Implicit(ranges, kind) => {
            let role = type_role(kind, &block.names, outside);
            add_letters(role, ranges, &mut block.letters)?;
            know_type(kind, &mut block.names)
        }
        EflDeclKind::Initial(_) => Ok(()),
        EflDeclKind::Variables(_, kind, list) => list_group(kind, list, outside, block),
        EflDeclKind::Area(_, groups) => list_groups(groups, outside, block),
        EflDeclKind::Structure(name, groups) => know_structure(name, groups, &mut block.names),
    }
}

/// The variables of groups come.
fn list_groups<'a>(
    groups: &'a [EflGroup],
    outside: &Scopes<'_, 'a>,
    block: &mut Listed<'a>,
) -> Result<(), AllocError>
    ensures { OnOk result (listed_of block.new ≡ list_groups_seen (scope_of outside.now) (groups_of groups.now) (listed_of block.old)) }
{
    for group in groups {
        list_group(&group.kind, &group.variables, outside, block)?;
    }
    Ok(())
}

/// Variables of a type come, and then its structures.
fn list_group<'a>(
    kind: &'a EflType,
    list: &'a [EflVar],
    outside: &Scopes<'_, 'a>,
    block: &mut Listed<'a>,
) -> Result<(), AllocError>
    ensures { OnOk result (listed_of block.new ≡ list_group_seen (scope_of outside.now) (type_of kind.now) (vars_of list.now) (listed_of block.old)) }
{
    let role = type_role(kind, &block.names, outside);
    declare_all(role, list, &mut block.variables)?;
    know_type(kind, &mut block.names)
}

/// What a variable of a type is, in a block with these names.
fn type_role<'c, 'a>(kind: &EflType, names: &'c Roles<'a>, outside: &'c Scopes<'c, 'a>) -> Role
    ensures { result ≡ type_role_seen (inside (roles_of names.now) (scope_of outside.now)) (type_of kind.now) }
{
    match kind {
        EflType::Named(name) => {
            let scopes = Scopes::Inside(names, outside);
            of_structure(look_up(&scopes, name.as_bytes()))
        }
        EflType::Shape(_, _) => Role::Indexed,
        _ => Role::Single,
    }
}

/// What a variable is whose type is a name of this role.
fn of_structure(role: Option<Role>) -> Role
    ensures { result ≡ named_role role }
{
    match role {
        Some(Role::Structure) => Role::Indexed,
        _ => Role::Single,
    }
}

/// Ranges of letters come.
fn add_letters(role: Role, ranges: &[(u8, u8)], letters: &mut Letters) -> Result<(), AllocError>
    ensures { OnOk result (letters_of letters.new ≡ with_letters role ranges.now (letters_of letters.old)) }
{
    for range in ranges {
        add_range(role, range, letters)?;
    }
    Ok(())
}

fn add_range(role: Role, range: &(u8, u8), letters: &mut Letters) -> Result<(), AllocError>
    ensures { OnOk result (letters_of letters.new ≡ with_letter role range.now (letters_of letters.old)) }
{
    letters.list.push(LetterRange {
        first: range.0,
        last: range.1,
        role,
    })?;
    Ok(())
}

/// What a letter makes an undeclared formal: as the latest range says.
pub fn by_letter(letters: &Letters, letter: u8) -> Role
    ensures { result ≡ letters_of letters.now letter }
{
    let mut role = Role::Single;
    for range in &letters.list {
        if range.first <= letter && letter <= range.last {
            role = range.role;
        }
    }
    role
}

/// The structures of a type become known.
#[cycle(know_type)]
fn know_type<'a>(kind: &'a EflType, names: &mut Roles<'a>) -> Result<(), AllocError>
    ensures { OnOk result (roles_of names.new ≡ behind_type (type_of kind.now) (roles_of names.old)) }
{
    match kind {
        EflType::Shape(name, groups) => {
            know_groups(groups, names)?;
            names.know_if_any(name)
        }
        _ => Ok(()),
    }
}

#[cycle(know_type)]
fn know_groups<'a>(groups: &'a [EflGroup], names: &mut Roles<'a>) -> Result<(), AllocError>
    ensures { OnOk result (roles_of names.new ≡ behind_groups (groups_of groups.now) (roles_of names.old)) }
{
    for group in groups {
        know_type(&group.kind, names)?;
    }
    Ok(())
}

fn know_structure<'a>(
    name: &'a EflName,
    groups: &'a [EflGroup],
    names: &mut Roles<'a>,
) -> Result<(), AllocError>
    ensures { OnOk result (roles_of names.new ≡ with_structure name.now (behind_groups (groups_of groups.now) (roles_of names.old))) }
{
    know_groups(groups, names)?;
    names.know(name.as_bytes())
}

/// The structures of a declaration become known.
pub fn know_by<'a>(kind: &'a EflDeclKind, names: &mut Roles<'a>) -> Result<(), AllocError>
    ensures { OnOk result (roles_of names.new ≡ behind_kind (decl_kind_of kind.now) (roles_of names.old)) }
{
    match kind {
        EflDeclKind::Implicit(_, kind) | EflDeclKind::Variables(_, kind, _) => {
            know_type(kind, names)
        }
        EflDeclKind::Initial(_) => Ok(()),
        EflDeclKind::Area(_, groups) => know_groups(groups, names),
        EflDeclKind::Structure(name, groups) => know_structure(name, groups, names),
    }
}
