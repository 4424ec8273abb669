// The areas that the variables of a procedure's outer block are in.
ghost use Rattle.std.specs.Prelude.{◌≡◌, ◌+◌, [], length, None, option_map, IfOk, OnOk, if◌then◌else◌};
ghost use Rattle.std.specs.Option.{option_or};
ghost use Rattle.std.specs.Str.{bytes_eq};
ghost use Rattle.efl_tree.specs.Syntax.{Text as Word, EflProcedure};
ghost use Rattle.efl_tree.specs.Views.{decl_kind_of, decls_of, groups_of, vars_of};
ghost use Rattle.efl_scope.specs.DataTypes.{DataType};
ghost use Rattle.efl_scope.specs.Scopes.{Blocks, declared_by, group_variables};
ghost use Rattle.efl_initial_values.specs.Owners.{shared_in, AreAreas};
ghost use Rattle.efl_initial_values.specs.Surveys.{Adds, Notes, count_in, note_if, noted_in, one_if, shared_as, variables_of};

use efl_tree::{EflDecl, EflDeclKind, EflGroup, EflVar};
use ground::Text;
use std::alloc::{AllocError, Global};
use std::collections::HashMap;

/// A variable of an area: the area's name, and the variable's number in it.
#[derive(Clone, Copy, Drop)]
pub struct Shared<'a> {
    pub area: &'a [u8],
    pub number: usize,
}

/// The variables of the outer block of a procedure, with the area that each is in. Contracts see by `AreAreas` which they are.
#[derive(Drop)]
pub struct Areas<'a> {
    pub table: HashMap<&'a [u8], Option<Shared<'a>>>,
}

/// The names of the variables of each area, as they come.
#[derive(Drop)]
pub struct Members<'a> {
    pub table: HashMap<&'a [u8], Vec<&'a [u8]>>,
}

impl<'a> Areas<'a> {
    /// No variables. It takes no memory.
    fn new(alloc: Global) -> Areas<'a>
        ensures { (x : Word) → noted_in result x ≡ None }
    {
        Areas {
            table: HashMap::new(alloc),
        }
    }

    /// The area of a variable of the outer block, with its number there.
    pub fn get(&self, name: &[u8]) -> Option<Shared<'a>>
        ensures { option_map (λ s. (s.area.now, s.number)) result ≡ shared_in self.now name.now }
    {
        match self.table.get(name) {
            None => None,
            Some(shared) => *shared,
        }
    }

    /// A name is noted, where it was not.
    fn note(&mut self, name: &'a [u8], shared: Option<Shared<'a>>) -> Result<(), AllocError>
        ensures { OnOk result ((x : Word) → noted_in self.new x ≡ option_or (noted_in self.old x) (note_if (bytes_eq x name.now) (shared_as shared.entry))) }
    {
        if !self.table.contains_key(name) {
            self.table.insert(name, shared)?;
        }
        Ok(())
    }
}

impl<'a> Members<'a> {
    /// No areas. It takes no memory.
    fn new(alloc: Global) -> Members<'a>
        ensures { (q : Word) → count_in result q ≡ 0 }
    {
        Members {
            table: HashMap::new(alloc),
        }
    }

    /// A variable of an area comes, and gets its number.
    fn add(&mut self, alloc: Global, area: &'a [u8], name: &'a [u8]) -> Result<usize, AllocError>
        ensures number { IfOk result (λ n. n ≡ count_in self.old area.now) }
        ensures counted { OnOk result ((q : Word) → count_in self.new q ≡ count_in self.old q + one_if (bytes_eq q area.now)) }
    {
        let mut list = self.take(alloc, area);
        let number = list.len();
        list.push(name)?;
        self.put(area, list)?;
        Ok(number)
    }

    /// Takes an area's list out, which is to come back.
    fn take(&mut self, alloc: Global, area: &[u8]) -> Vec<&'a [u8]>
        ensures taken { length result.items ≡ count_in self.old area.now }
        ensures others { (q : Word) → count_in self.new q ≡ (if bytes_eq area.now q then 0 else count_in self.old q) }
    {
        match self.table.remove(area) {
            Some(list) => list,
            None => Vec::new(alloc),
        }
    }

    fn put(&mut self, area: &'a [u8], list: Vec<&'a [u8]>) -> Result<(), AllocError>
        ensures { OnOk result ((q : Word) → count_in self.new q ≡ (if bytes_eq area.now q then length list.entry.items else count_in self.old q)) }
    {
        self.table.insert(area, list)?;
        Ok(())
    }
}

/// The areas of the variables that these declarations of a procedure's outer block declare.
pub fn areas_of<'a>(alloc: Global, declarations: &'a [EflDecl]) -> Result<Areas<'a>, AllocError>
    ensures { IfOk result (λ areas. (u : EflProcedure) → u.declarations ≡ decls_of declarations.now → AreAreas u areas) }
{
    let mut members = Members::new(alloc);
    let mut areas = Areas::new(alloc);
    for declaration in declarations {
        add_declared(alloc, &declaration.kind, &mut members, &mut areas)?;
    }
    Ok(areas)
}

fn add_declared<'a>(
    alloc: Global,
    kind: &'a EflDeclKind,
    members: &mut Members<'a>,
    areas: &mut Areas<'a>,
) -> Result<(), AllocError>
    ensures { OnOk result ((bs : Blocks) → Adds (declared_by [] bs (decl_kind_of kind.now)) members.old areas.old members.new areas.new) }
{
    match kind {
        EflDeclKind::Variables(area, _, list) => {
            add_variables(alloc, area_bytes(area), list, members, areas)
        }
        EflDeclKind::Area(area, groups) => {
            add_groups(alloc, area.as_bytes(), groups, members, areas)
        }
        _ => Ok(()),
    }
}

fn area_bytes(area: &Option<Text>) -> Option<&[u8]>
    ensures { option_map (λ a. a.now) result ≡ area.now }
{
    match area {
        None => None,
        Some(area) => Some(area.as_bytes()),
    }
}

fn add_groups<'a>(
    alloc: Global,
    area: &'a [u8],
    groups: &'a [EflGroup],
    members: &mut Members<'a>,
    areas: &mut Areas<'a>,
) -> Result<(), AllocError>
    ensures { OnOk result ((bs : Blocks) → Adds (group_variables area.now bs (groups_of groups.now)) members.old areas.old members.new areas.new) }
{
    for group in groups {
        add_variables(alloc, Some(area), &group.variables, members, areas)?;
    }
    Ok(())
}

fn add_variables<'a>(
    alloc: Global,
    area: Option<&'a [u8]>,
    list: &'a [EflVar],
    members: &mut Members<'a>,
    areas: &mut Areas<'a>,
) -> Result<(), AllocError>
    ensures { OnOk result ((t : DataType) → Adds (variables_of (option_map (λ a. a.now) area.entry) t (vars_of list.now)) members.old areas.old members.new areas.new) }
{
    for variable in list {
        add_variable(alloc, area, variable.name.as_bytes(), members, areas)?;
    }
    Ok(())
}

fn add_variable<'a>(
    alloc: Global,
    area: Option<&'a [u8]>,
    name: &'a [u8],
    members: &mut Members<'a>,
    areas: &mut Areas<'a>,
) -> Result<(), AllocError>
    ensures { OnOk result (Notes (option_map (λ a. a.now) area.entry) name.now members.old areas.old members.new areas.new) }
{
    match area {
        None => areas.note(name, None),
        Some(area) => {
            let number = members.add(alloc, area, name)?;
            areas.note(name, Some(Shared { area, number }))
        }
    }
}
