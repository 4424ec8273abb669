// What the names of blocks are, as far as calls ask.
ghost use Rattle.std.specs.Prelude.{◌≡◌, OnOk};
ghost use Rattle.efl_whole.specs.Roles.{no_role, with_variable, with_structure, with_structure_if};
ghost use Rattle.efl_whole.specs.RoleViews.{roles_of, scope_of};

use efl_tree::EflName;
use rule_table::note;
use std::alloc::{AllocError, Global};
use std::collections::HashMap;

/// What a name is in its block.
#[derive(Clone, Copy, Drop)]
pub enum Role {
    Structure,
    /// A variable that parentheses lead into: an array or a structure.
    Indexed,
    /// Another variable.
    Single,
}

/// The names of a block. Contracts see by `roles_of` what each of them is.
#[derive(Drop)]
pub struct Roles<'a> {
    pub table: HashMap<&'a [u8], Role>,
}

impl<'a> Roles<'a> {
    /// No names. It takes no memory.
    pub fn new(alloc: Global) -> Roles<'a>
        ensures { roles_of result ≡ no_role }
    {
        Roles {
            table: HashMap::new(alloc),
        }
    }

    /// What a name is.
    pub fn role(&self, name: &[u8]) -> Option<Role>
        ensures { result ≡ roles_of self.now name.now }
    {
        match self.table.get(name) {
            None => None,
            Some(role) => Some(*role),
        }
    }

    /// A variable comes, where no name like it is there.
    pub fn declare(&mut self, name: &'a [u8], role: Role) -> Result<(), AllocError>
        ensures { OnOk result (roles_of self.new ≡ with_variable name.now role (roles_of self.old)) }
    {
        note(&mut self.table, name, role)
    }

    /// A structure comes.
    pub fn know(&mut self, name: &'a [u8]) -> Result<(), AllocError>
        ensures { OnOk result (roles_of self.new ≡ with_structure name.now (roles_of self.old)) }
    {
        self.table.insert(name, Role::Structure)?;
        Ok(())
    }

    /// A structure comes, where it has a name.
    pub fn know_if_any(&mut self, name: &'a Option<EflName>) -> Result<(), AllocError>
        ensures { OnOk result (roles_of self.new ≡ with_structure_if name.now (roles_of self.old)) }
    {
        match name {
            None => Ok(()),
            Some(name) => self.know(name.as_bytes()),
        }
    }
}

/// A block and those around it, from the inside out.
#[derive(Clone, Copy, Drop)]
pub enum Scopes<'c, 'a> {
    Outside,
    Inside(&'c Roles<'a>, &'c Scopes<'c, 'a>),
}

/// What a name is: an inner block hides the outer ones.
pub fn look_up(scopes: &Scopes, name: &[u8]) -> Option<Role>
    ensures { result ≡ scope_of scopes.now name.now }
{
    match scopes {
        Scopes::Outside => None,
        Scopes::Inside(roles, outside) => match roles.role(name) {
            Some(role) => Some(role),
            None => look_up(outside, name),
        },
    }
}
