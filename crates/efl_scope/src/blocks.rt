// Which names are structures' in a block and in those around it.
ghost use Rattle.std.specs.Prelude.{◌≡◌, OnOk, Some, unwrap_or, map};
ghost use Rattle.efl_tree.specs.Views.{vars_of, groups_of, decl_of, decls_of, decl_kind_of};
ghost use Rattle.efl_scope.specs.Parts.{names_of};
ghost use Rattle.efl_scope.specs.ScopeRules.{Names};
ghost use Rattle.efl_scope.specs.Sights.{with_name, without_name, without_names, knowing_if, hiding_list, hiding_by, hiding};
ghost use Rattle.efl_scope.specs.BlockViews.{kinds_of, known_of};

use efl_tree::{EflDecl, EflDeclKind, EflGroup, EflName, EflVar};
use std::alloc::{AllocError, Global};
use std::collections::HashMap;

/// Of the names of a block those that are structures', and those that are variables'. Contracts see by `kinds_of` what it makes of
/// the structures around.
#[derive(Drop)]
pub struct Kinds<'a> {
    pub table: HashMap<&'a [u8], bool>,
}

impl<'a> Kinds<'a> {
    /// No names. It takes no memory.
    pub fn new(alloc: Global) -> Kinds<'a>
        ensures { (known : Names) → kinds_of result known ≡ known }
    {
        Kinds {
            table: HashMap::new(alloc),
        }
    }

    /// Whether a name of the block is a structure's.
    pub fn kind(&self, name: &[u8]) -> Option<bool>
        ensures { (known : Names) → unwrap_or result (known name.now) ≡ kinds_of self.now known name.now }
    {
        match self.table.get(name) {
            Some(kind) => Some(*kind),
            None => None,
        }
    }

    /// A structure becomes known.
    pub fn know(&mut self, name: &'a [u8]) -> Result<(), AllocError>
        ensures { OnOk result ((known : Names) → kinds_of self.new known ≡ with_name name.now (kinds_of self.old known)) }
    {
        self.table.insert(name, true)?;
        Ok(())
    }

    /// A variable hides structures around.
    pub fn hide(&mut self, name: &'a [u8]) -> Result<(), AllocError>
        ensures { OnOk result ((known : Names) → kinds_of self.new known ≡ without_name name.now (kinds_of self.old known)) }
    {
        self.table.insert(name, false)?;
        Ok(())
    }
}

/// A structure becomes known where it has a name and names are kept.
pub fn know_if_any<'a>(
    kept: bool,
    name: &'a Option<EflName>,
    kinds: &mut Kinds<'a>,
) -> Result<(), AllocError>
    ensures { OnOk result ((known : Names) → kinds_of kinds.new known ≡ knowing_if kept name.now (kinds_of kinds.old known)) }
{
    if !kept {
        return Ok(());
    }
    match name {
        None => Ok(()),
        Some(name) => kinds.know(name.as_bytes()),
    }
}

/// A block and those around it, from the inside out.
#[derive(Clone, Copy, Drop)]
pub enum Blocks<'c, 'a> {
    Outside,
    Inside(&'c Kinds<'a>, &'c Blocks<'c, 'a>),
}

/// Whether a name is a structure's.
pub fn is_structure(blocks: &Blocks, name: &[u8]) -> bool
    ensures { result ≡ known_of blocks.now name.now }
{
    match blocks {
        Blocks::Outside => false,
        Blocks::Inside(kinds, outside) => match kinds.kind(name) {
            Some(kind) => kind,
            None => is_structure(outside, name),
        },
    }
}

/// The variables of a block hide structures around.
pub fn hide_declared<'a>(list: &'a [EflDecl], kinds: &mut Kinds<'a>) -> Result<(), AllocError>
    ensures { OnOk result ((known : Names) → kinds_of kinds.new known ≡ hiding (decls_of list.now) (kinds_of kinds.old known)) }
{
    for declaration in list {
        hide_by(&declaration.kind, kinds)?;
    }
    Ok(())
}

fn hide_by<'a>(kind: &'a EflDeclKind, kinds: &mut Kinds<'a>) -> Result<(), AllocError>
    ensures { OnOk result ((known : Names) → kinds_of kinds.new known ≡ hiding_by (decl_kind_of kind.now) (kinds_of kinds.old known)) }
{
    match kind {
        EflDeclKind::Variables(_, _, list) => hide_variables(list, kinds),
        EflDeclKind::Area(_, groups) => hide_groups(groups, kinds),
        _ => Ok(()),
    }
}

fn hide_groups<'a>(groups: &'a [EflGroup], kinds: &mut Kinds<'a>) -> Result<(), AllocError>
    ensures { OnOk result ((known : Names) → kinds_of kinds.new known ≡ hiding_list (groups_of groups.now) (kinds_of kinds.old known)) }
{
    for group in groups {
        hide_variables(&group.variables, kinds)?;
    }
    Ok(())
}

fn hide_variables<'a>(list: &'a [EflVar], kinds: &mut Kinds<'a>) -> Result<(), AllocError>
    ensures { OnOk result ((known : Names) → kinds_of kinds.new known ≡ without_names (names_of (vars_of list.now)) (kinds_of kinds.old known)) }
{
    for variable in list {
        kinds.hide(variable.name.as_bytes())?;
    }
    Ok(())
}
