// The declarations of a block.
ghost use Rattle.std.specs.Prelude.{◌≡◌, OnOk, IfOk, map};
ghost use Rattle.efl_tree.specs.Views.{decl_kind_of, decl_of, decls_of, groups_of, type_of, vars_of};
ghost use Rattle.efl_scope.specs.ScopeRules.{Names, area_of};
ghost use Rattle.efl_scope.specs.Uses.{uses_declared};
ghost use Rattle.efl_scope.specs.Sights.{anew, either, nothing_declared, list_declared, names_declared, area_declared, declaration_noted, clashes, or_rule as or_rule_of, rule_declared, rule_of_uses, with_area, noting, groups_seen, list_seen, listed_seen, seeing_type, seeing_members, seeing_name, declaration_seen, declarations_seen, opening_seen};
ghost use Rattle.efl_scope.specs.AreaViews.{agreeing_of};
ghost use Rattle.efl_scope.specs.NameViews.{chain_of, declared_of, names_in};
ghost use Rattle.efl_scope.specs.BlockViews.{kinds_of, known_of};
ghost use Rattle.efl_scope.specs.WalkViews.{walk_of, sight_of, opened_of};

use crate::{
    Areas, Blocks, Declared, Flaw, Kinds, NameChain, NameSet, ScopeRule, Walk, declare_groups,
    declare_list, declare_type, declare_variables, is_declaration_flawed, note_group, or_rule,
    see_members, see_type, type_rule,
};
use efl_tree::{EflDecl, EflDeclKind, EflGroup, EflName, EflType};
use ground::Text;
use std::alloc::{AllocError, Global};

/// A block whose declarations come.
#[derive(Drop)]
pub struct Opened<'a> {
    pub declared: Declared<'a>,
    pub kinds: Kinds<'a>,
}

/// The declarations of a block that begins with these names, where these areas agree and formals have these other names. It gives
/// the names behind them.
pub fn see_block_declarations<'a>(
    alloc: Global,
    agreeing: &Areas,
    formals: &NameChain<'_, 'a>,
    list: &'a [EflDecl],
    kinds: Kinds<'a>,
    outside: &Blocks<'_, 'a>,
    walk: &mut Walk<'a>,
) -> Result<Kinds<'a>, AllocError>
    ensures { IfOk result (λ after.
        sight_of after outside.now walk.new
        ≡ (declarations_seen (agreeing_of agreeing.now) (chain_of formals.now) (decls_of list.now) (opening_seen (kinds_of kinds.entry (known_of outside.now)) (walk_of walk.old))).sight) }
{
    let mut block = Opened {
        declared: Declared::new(alloc),
        kinds,
    };
    see_declarations(alloc, agreeing, formals, list, &mut block, outside, walk)?;
    Ok(block.kinds)
}

/// The declarations of a block, where these areas agree, and formals have these names.
fn see_declarations<'a>(
    alloc: Global,
    agreeing: &Areas,
    formals: &NameChain<'_, 'a>,
    list: &'a [EflDecl],
    block: &mut Opened<'a>,
    outside: &Blocks<'_, 'a>,
    walk: &mut Walk<'a>,
) -> Result<(), AllocError>
    ensures { OnOk result
        (opened_of block.new outside.now walk.new
        ≡ declarations_seen (agreeing_of agreeing.now) (chain_of formals.now) (decls_of list.now) (opened_of block.old outside.now walk.old)) }
{
    for declaration in list {
        see_declaration(alloc, agreeing, formals, declaration, block, outside, walk)?;
    }
    Ok(())
}

fn see_declaration<'a>(
    alloc: Global,
    agreeing: &Areas,
    formals: &NameChain<'_, 'a>,
    declaration: &'a EflDecl,
    block: &mut Opened<'a>,
    outside: &Blocks<'_, 'a>,
    walk: &mut Walk<'a>,
) -> Result<(), AllocError>
    ensures { OnOk result
        (opened_of block.new outside.now walk.new
        ≡ declaration_seen (agreeing_of agreeing.now) (chain_of formals.now) (decl_of declaration.now) (opened_of block.old outside.now walk.old)) }
{
    declare_names(alloc, formals, &declaration.kind, &mut block.declared)?;
    let again = block.declared.again;
    note_declaration(agreeing, declaration, again, &block.kinds, &*outside, walk)?;
    see_groups(alloc, formals, &declaration.kind, block, outside, walk)
}

/// The names of a declaration come.
fn declare_names<'a>(
    alloc: Global,
    formals: &NameChain<'_, 'a>,
    kind: &'a EflDeclKind,
    declared: &mut Declared<'a>,
) -> Result<(), AllocError>
    ensures { OnOk result
        (declared_of declared.new ≡ names_declared (chain_of formals.now) (decl_kind_of kind.now) (anew (declared_of declared.old))) }
{
    declared.again = false;
    match kind {
        EflDeclKind::Implicit(_, kind) => declare_type(kind, formals, declared),
        EflDeclKind::Initial(_) => Ok(()),
        EflDeclKind::Variables(None, kind, list) => {
            declare_type(kind, formals, declared)?;
            declare_variables(list, &NameChain::Outside, declared)
        }
        EflDeclKind::Variables(Some(_), kind, list) => {
            declare_type(kind, formals, declared)?;
            declare_variables(list, formals, declared)
        }
        EflDeclKind::Area(_, groups) => declare_area(alloc, formals, groups, declared),
        EflDeclKind::Structure(name, groups) => {
            declare_groups(groups, formals, declared)?;
            declared.declare(formals, name.as_bytes())
        }
    }
}

/// An area's declaration, which asks for the structures of its list.
fn declare_area<'a>(
    alloc: Global,
    formals: &NameChain<'_, 'a>,
    groups: &'a [EflGroup],
    declared: &mut Declared<'a>,
) -> Result<(), AllocError>
    ensures { OnOk result
        (declared_of declared.new ≡ area_declared (chain_of formals.now) (groups_of groups.now) (declared_of declared.old)) }
{
    let again = stands_again(alloc, &declared.names, &*formals, groups)?;
    declared.again = declared.again || again;
    Ok(())
}

/// Whether a structure of an area's list stands again.
fn stands_again<'a, 'c>(
    alloc: Global,
    names: &'c NameSet<'a>,
    formals: &'c NameChain<'c, 'a>,
    groups: &'a [EflGroup],
) -> Result<bool, AllocError>
    ensures { IfOk result (λ again.
        again ≡ (list_declared (either (names_in names.now) (chain_of formals.now)) (groups_of groups.now) nothing_declared).again) }
{
    let others = NameChain::Inside(names, formals);
    let mut listed = Declared::new(alloc);
    declare_list(groups, &others, &mut listed)?;
    Ok(listed.again)
}

/// A declaration by itself, of which it is known whether it declares a name again.
fn note_declaration<'a, 'c>(
    agreeing: &Areas,
    declaration: &'a EflDecl,
    again: bool,
    kinds: &'c Kinds<'a>,
    outside: &'c Blocks<'c, 'a>,
    walk: &mut Walk<'a>,
) -> Result<(), AllocError>
    ensures { OnOk result
        (walk_of walk.new
        ≡ declaration_noted (agreeing_of agreeing.now) (decl_of declaration.now) (kinds_of kinds.now (known_of outside.now)) again (walk_of walk.old)) }
{
    let known = Blocks::Inside(kinds, outside);
    let rule = declaration_rule(agreeing, &walk.areas, &declaration.kind, &known, again);
    walk.note(declaration.place, rule);
    walk.take_area(&declaration.kind)
}

fn declaration_rule(
    agreeing: &Areas,
    areas: &NameSet,
    kind: &EflDeclKind,
    known: &Blocks,
    again: bool,
) -> Option<ScopeRule>
    ensures { result ≡ rule_declared (agreeing_of agreeing.now) (names_in areas.now) (decl_kind_of kind.now) (known_of known.now) again }
{
    match kind {
        EflDeclKind::Implicit(_, kind) => type_rule(kind, known, again),
        EflDeclKind::Initial(_) => presets_rule(kind, known),
        EflDeclKind::Variables(None, kind, _) => type_rule(kind, known, again),
        EflDeclKind::Variables(Some(area), kind, _) => {
            area_rule(type_rule(kind, known, again), agreeing, areas, area)
        }
        EflDeclKind::Area(area, _) => {
            let duplicate = or_rule(None, again, ScopeRule::DuplicateName);
            area_rule(duplicate, agreeing, areas, area)
        }
        EflDeclKind::Structure(_, _) => or_rule(None, again, ScopeRule::DuplicateName),
    }
}

/// What a declaration of an area breaks first: this, or that the lists of the area do not agree.
fn area_rule(
    before: Option<ScopeRule>,
    agreeing: &Areas,
    areas: &NameSet,
    area: &Text,
) -> Option<ScopeRule>
    ensures { result ≡ or_rule_of before (clashes (agreeing_of agreeing.now) (names_in areas.now) area.now) ScopeRule.CommonMismatch }
{
    let clashes = !areas.contains(area.as_bytes()) && !agreeing.agrees(area.as_bytes());
    or_rule(before, clashes, ScopeRule::CommonMismatch)
}

fn presets_rule(kind: &EflDeclKind, known: &Blocks) -> Option<ScopeRule>
    ensures { result ≡ rule_of_uses (known_of known.now) (uses_declared (decl_kind_of kind.now)) }
{
    let laid = is_declaration_flawed(kind, known, Flaw::LaidOver);
    let out = or_rule(None, laid, ScopeRule::OutOfProfileType);
    let misused = is_declaration_flawed(kind, known, Flaw::Misused);
    or_rule(out, misused, ScopeRule::DuplicateName)
}

/// What stands within a declaration: groups, and structures that become known.
fn see_groups<'a>(
    alloc: Global,
    formals: &NameChain<'_, 'a>,
    kind: &'a EflDeclKind,
    block: &mut Opened<'a>,
    outside: &Blocks<'_, 'a>,
    walk: &mut Walk<'a>,
) -> Result<(), AllocError>
    ensures { OnOk result
        (opened_of block.new outside.now walk.new ≡ groups_seen (chain_of formals.now) (decl_kind_of kind.now) (opened_of block.old outside.now walk.old)) }
{
    match kind {
        EflDeclKind::Implicit(_, kind) => {
            see_type(alloc, true, kind, &mut block.kinds, outside, walk)
        }
        EflDeclKind::Initial(_) => Ok(()),
        EflDeclKind::Variables(_, kind, _) => {
            see_type(alloc, true, kind, &mut block.kinds, outside, walk)
        }
        EflDeclKind::Area(_, groups) => see_list(alloc, formals, groups, block, outside, walk),
        EflDeclKind::Structure(name, groups) => {
            see_members(alloc, true, groups, &mut block.kinds, outside, walk)?;
            block.kinds.know(name.as_bytes())
        }
    }
}

/// The groups of an area's list.
fn see_list<'a>(
    alloc: Global,
    formals: &NameChain<'_, 'a>,
    groups: &'a [EflGroup],
    block: &mut Opened<'a>,
    outside: &Blocks<'_, 'a>,
    walk: &mut Walk<'a>,
) -> Result<(), AllocError>
    ensures { OnOk result
        (opened_of block.new outside.now walk.new ≡ list_seen (chain_of formals.now) (groups_of groups.now) (opened_of block.old outside.now walk.old)) }
{
    for group in groups {
        see_listed(alloc, &*formals, group, block, &*outside, walk)?;
    }
    Ok(())
}

fn see_listed<'a>(
    alloc: Global,
    formals: &NameChain<'_, 'a>,
    group: &'a EflGroup,
    block: &mut Opened<'a>,
    outside: &Blocks<'_, 'a>,
    walk: &mut Walk<'a>,
) -> Result<(), AllocError>
    ensures { OnOk result
        (opened_of block.new outside.now walk.new
        ≡ listed_seen (chain_of formals.now) (type_of group.now.kind) (vars_of group.now.variables.items) group.now.place (opened_of block.old outside.now walk.old)) }
{
    declare_type(&group.kind, &*formals, &mut block.declared)?;
    note_group(
        group,
        &*formals,
        &mut block.declared,
        &block.kinds,
        &*outside,
        walk,
    )?;
    see_type(alloc, true, &group.kind, &mut block.kinds, &*outside, walk)
}
