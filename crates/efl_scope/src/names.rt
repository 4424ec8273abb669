// Sets of names, and the names that a block declares.
ghost use Rattle.std.specs.Prelude.{◌≡◌, OnOk, map};
ghost use Rattle.efl_tree.specs.Views.{vars_of};
ghost use Rattle.efl_scope.specs.Parts.{names_of};
ghost use Rattle.efl_scope.specs.ScopeRules.{no_name};
ghost use Rattle.efl_scope.specs.Sights.{with_name, with_names, nothing_declared, declaring, declaring_all, declaring_if, adding_all};
ghost use Rattle.efl_scope.specs.NameViews.{names_in, chain_of, declared_of};

use efl_tree::{EflName, EflVar};
use ground::Text;
use std::alloc::{AllocError, Global};
use std::collections::HashMap;

/// A set of names, which contracts see as a test by `names_in`.
#[derive(Drop)]
pub struct NameSet<'a> {
    pub table: HashMap<&'a [u8], ()>,
}

impl<'a> NameSet<'a> {
    /// No names. It takes no memory.
    pub fn new(alloc: Global) -> NameSet<'a>
        ensures { names_in result ≡ no_name }
    {
        NameSet {
            table: HashMap::new(alloc),
        }
    }

    pub fn contains(&self, name: &[u8]) -> bool
        ensures { result ≡ names_in self.now name.now }
    {
        self.table.contains_key(name)
    }

    pub fn insert(&mut self, name: &'a [u8]) -> Result<(), AllocError>
        ensures { OnOk result (names_in self.new ≡ with_name name.now (names_in self.old)) }
    {
        self.table.insert(name, ())?;
        Ok(())
    }
}

/// Adds the names of variables.
pub fn add_variables<'a>(list: &'a [EflVar], names: &mut NameSet<'a>) -> Result<(), AllocError>
    ensures { OnOk result (names_in names.new ≡ with_names (names_of (vars_of list.now)) (names_in names.old)) }
{
    for variable in list {
        names.insert(variable.name.as_bytes())?;
    }
    Ok(())
}

/// Adds labels.
pub fn add_labels<'a>(list: &'a [Text], names: &mut NameSet<'a>) -> Result<(), AllocError>
    ensures { OnOk result (names_in names.new ≡ with_names list.now (names_in names.old)) }
{
    for label in list {
        names.insert(label.as_bytes())?;
    }
    Ok(())
}

/// Sets of names from the inside out.
#[derive(Clone, Copy, Drop)]
pub enum NameChain<'c, 'a> {
    Outside,
    Inside(&'c NameSet<'a>, &'c NameChain<'c, 'a>),
}

/// Whether a name is in one of the sets.
pub fn has_name(chain: &NameChain, name: &[u8]) -> bool
    ensures { result ≡ chain_of chain.now name.now }
{
    match chain {
        NameChain::Outside => false,
        NameChain::Inside(names, outside) => names.contains(name) || has_name(outside, name),
    }
}

/// The names that a block, a shape or a header declares so far, and whether one that came latest stood there before.
#[derive(Drop)]
pub struct Declared<'a> {
    pub names: NameSet<'a>,
    pub again: bool,
}

impl<'a> Declared<'a> {
    /// No names. It takes no memory.
    pub fn new(alloc: Global) -> Declared<'a>
        ensures { declared_of result ≡ nothing_declared }
    {
        Declared {
            names: NameSet::new(alloc),
            again: false,
        }
    }

    /// A name comes, which is to stand neither there nor in the other sets.
    pub fn declare(&mut self, others: &NameChain, name: &'a [u8]) -> Result<(), AllocError>
        ensures { OnOk result (declared_of self.new ≡ declaring (chain_of others.now) name.now (declared_of self.old)) }
    {
        self.again = self.again || (self.names.contains(name) || has_name(others, name));
        self.names.insert(name)
    }
}

/// The names of variables come.
pub fn declare_variables<'a>(
    list: &'a [EflVar],
    others: &NameChain,
    declared: &mut Declared<'a>,
) -> Result<(), AllocError>
    ensures { OnOk result
        (declared_of declared.new ≡ declaring_all (chain_of others.now) (names_of (vars_of list.now)) (declared_of declared.old)) }
{
    for variable in list {
        declared.declare(others, variable.name.as_bytes())?;
    }
    Ok(())
}

/// The names of formals come.
pub fn declare_formals<'a>(
    list: &'a [EflName],
    declared: &mut Declared<'a>,
) -> Result<(), AllocError>
    ensures { OnOk result (declared_of declared.new ≡ declaring_all no_name list.now (declared_of declared.old)) }
{
    for formal in list {
        declared.declare(&NameChain::Outside, formal.as_bytes())?;
    }
    Ok(())
}

/// Labels come.
pub fn declare_labels<'a>(list: &'a [Text], declared: &mut Declared<'a>) -> Result<(), AllocError>
    ensures { OnOk result (declared_of declared.new ≡ declaring_all no_name list.now (declared_of declared.old)) }
{
    for label in list {
        declared.declare(&NameChain::Outside, label.as_bytes())?;
    }
    Ok(())
}

/// The name of a structure comes, where it has one.
pub fn declare_if_any<'a>(
    name: &'a Option<EflName>,
    others: &NameChain,
    declared: &mut Declared<'a>,
) -> Result<(), AllocError>
    ensures { OnOk result (declared_of declared.new ≡ declaring_if (chain_of others.now) name.now (declared_of declared.old)) }
{
    match name {
        None => Ok(()),
        Some(name) => declared.declare(others, name.as_bytes()),
    }
}
