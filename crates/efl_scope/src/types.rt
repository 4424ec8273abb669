// Types: the structures that they declare, and their groups.
ghost use Rattle.std.specs.Prelude.{◌≡◌, OnOk, map};
ghost use Rattle.efl_tree.specs.Views.{type_of, groups_of, group_then, vars_of};
ghost use Rattle.efl_scope.specs.Parts.{names_of};
ghost use Rattle.efl_scope.specs.ScopeRules.{is_out, no_name};
ghost use Rattle.efl_scope.specs.Sights.{type_declared, groups_declared, list_declared, adding_all, rule_of_type, type_seen, members_seen, declaring_all, anew, noting};
ghost use Rattle.efl_scope.specs.NameViews.{chain_of, declared_of, names_in};
ghost use Rattle.efl_scope.specs.BlockViews.{kinds_of, known_of};
ghost use Rattle.efl_scope.specs.WalkViews.{walk_of, sight_of};

use crate::{
    Blocks, Declared, Kinds, NameChain, ScopeRule, Walk, add_variables, declare_if_any,
    declare_variables, is_structure, know_if_any, or_rule,
};
use efl_tree::{EflGroup, EflType};
use std::alloc::{AllocError, Global};

/// Whether a type is real, complex, or a name that is no structure's.
pub fn is_out(kind: &EflType, known: &Blocks) -> bool
    ensures { result ≡ is_out (known_of known.now) (type_of kind.now) }
{
    match kind {
        EflType::Real(_) | EflType::Complex(_) => true,
        EflType::Named(name) => !is_structure(known, name.as_bytes()),
        EflType::Integer | EflType::Logical | EflType::Shape(_, _) => false,
    }
}

/// What a type with the names behind it breaks, of which it is known whether one stands again.
pub fn type_rule(kind: &EflType, known: &Blocks, again: bool) -> Option<ScopeRule>
    ensures { result ≡ rule_of_type (known_of known.now) (type_of kind.now) again }
{
    let out = or_rule(None, is_out(kind, known), ScopeRule::OutOfProfileType);
    or_rule(out, again, ScopeRule::DuplicateName)
}

/// The structures of a type come.
#[cycle(declare_type)]
pub fn declare_type<'a>(
    kind: &'a EflType,
    others: &NameChain,
    declared: &mut Declared<'a>,
) -> Result<(), AllocError>
    ensures { OnOk result (declared_of declared.new ≡ type_declared (chain_of others.now) (type_of kind.now) (declared_of declared.old)) }
{
    match kind {
        EflType::Shape(name, groups) => {
            declare_groups(groups, &*others, declared)?;
            declare_if_any(name, &*others, declared)
        }
        _ => Ok(()),
    }
}

/// The structures of groups come.
#[cycle(declare_type)]
pub fn declare_groups<'a>(
    groups: &'a [EflGroup],
    others: &NameChain,
    declared: &mut Declared<'a>,
) -> Result<(), AllocError>
    ensures { OnOk result
        (declared_of declared.new ≡ groups_declared (chain_of others.now) (groups_of groups.now) (declared_of declared.old)) }
{
    for group in groups {
        declare_type(&group.kind, &*others, declared)?;
    }
    Ok(())
}

/// An area's list comes, of which structures alone are asked for.
pub fn declare_list<'a>(
    groups: &'a [EflGroup],
    others: &NameChain,
    declared: &mut Declared<'a>,
) -> Result<(), AllocError>
    ensures { OnOk result (declared_of declared.new ≡ list_declared (chain_of others.now) (groups_of groups.now) (declared_of declared.old)) }
{
    for group in groups {
        declare_type(&group.kind, others, declared)?;
        add_variables(&group.variables, &mut declared.names)?;
    }
    Ok(())
}

/// The groups of a type, of which structures become known where names are kept.
#[cycle(see_type)]
pub fn see_type<'a>(
    alloc: Global,
    kept: bool,
    kind: &'a EflType,
    kinds: &mut Kinds<'a>,
    outside: &Blocks<'_, 'a>,
    walk: &mut Walk<'a>,
) -> Result<(), AllocError>
    ensures { OnOk result (sight_of kinds.new outside.now walk.new ≡ type_seen kept (type_of kind.now) (sight_of kinds.old outside.now walk.old)) }
{
    match kind {
        EflType::Shape(name, groups) => {
            see_members(alloc, kept, groups, kinds, &*outside, walk)?;
            know_if_any(kept, name, kinds)
        }
        _ => Ok(()),
    }
}

/// The groups of a shape.
#[cycle(see_type)]
pub fn see_members<'a>(
    alloc: Global,
    kept: bool,
    groups: &'a [EflGroup],
    kinds: &mut Kinds<'a>,
    outside: &Blocks<'_, 'a>,
    walk: &mut Walk<'a>,
) -> Result<(), AllocError>
    ensures { OnOk result
        (sight_of kinds.new outside.now walk.new ≡ members_seen kept no_name (groups_of groups.now) (sight_of kinds.old outside.now walk.old)) }
{
    let mut declared = Declared::new(alloc);
    for group in groups {
        note_group(
            group,
            &NameChain::Outside,
            &mut declared,
            &*kinds,
            &*outside,
            walk,
        )?;
        see_type(alloc, kept, &group.kind, kinds, &*outside, walk)?;
    }
    Ok(())
}

/// A group by itself, whose names are to stand neither before nor in the other sets.
pub fn note_group<'a, 'c>(
    group: &'a EflGroup,
    others: &NameChain,
    declared: &mut Declared<'a>,
    kinds: &'c Kinds<'a>,
    outside: &'c Blocks<'c, 'a>,
    walk: &mut Walk<'a>,
) -> Result<(), AllocError>
    ensures names { OnOk result
        (declared_of declared.new ≡ declaring_all (chain_of others.now) (names_of (vars_of group.now.variables.items)) (anew (declared_of declared.old))) }
    ensures part { OnOk result
        (walk_of walk.new ≡ noting group.now.place (rule_of_type (kinds_of kinds.now (known_of outside.now)) (type_of group.now.kind) declared.new.again) (walk_of walk.old)) }
{
    declared.again = false;
    declare_variables(&group.variables, others, declared)?;
    let known = Blocks::Inside(kinds, outside);
    walk.note(group.place, type_rule(&group.kind, &known, declared.again));
    Ok(())
}
