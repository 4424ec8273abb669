// What specification statements declare.
ghost use Rattle.std.specs.Prelude.{◌≡◌, IfOk, map};
ghost use Rattle.f66_tree.specs.Views.{formula_of, par_of, declared_of, area_of, initial_of, preset_of};

use crate::{Expr, Name, copy_expr, copy_exprs};
use ground::List;
use std::alloc::{AllocError, Global};

/// A constant or a variable: a parameter of DO, a dimension, a unit number.
#[derive(Debug, Drop)]
pub enum Par {
    Number(i64),
    Variable(Name),
}

/// A name with its dimensions, of which a variable has none.
#[derive(Drop)]
pub struct Declared {
    pub name: Name,
    pub sizes: List<Par>,
}

/// A word that gives a type. Other stands for the types that are outside the profile.
#[derive(Clone, Copy, Debug, PartialEq, Eq)]
pub enum TypeWord {
    Integer,
    Logical,
    Other,
}

/// A common block, with no name where it is blank common (X3.9-1966, section 7.2.1.3).
#[derive(Drop)]
pub struct Area {
    pub name: Option<Name>,
    pub list: List<Declared>,
}

/// Places and the values that DATA gives them, each value with its count (section 7.2.2).
#[derive(Drop)]
pub struct PresetPart {
    pub places: List<Expr>,
    pub values: List<(u32, Expr)>,
}

/// The same parameter once more.
pub fn copy_par(par: &Par) -> Result<Par, AllocError>
    ensures { IfOk result (λ r. par_of r ≡ par_of par.now) }
{
    match par {
        Par::Number(value) => Ok(Par::Number(*value)),
        Par::Variable(name) => Ok(Par::Variable(name.copy()?)),
    }
}

fn copy_pars(alloc: Global, list: &[Par]) -> Result<List<Par>, AllocError>
    ensures { IfOk result (λ r. map par_of r.items ≡ map par_of list.now) }
{
    let mut copies = Vec::new(alloc);
    for par in list {
        let copy = copy_par(par)?;
        copies.push(copy)?;
    }
    Ok(copies)
}

fn copy_declared(alloc: Global, declared: &Declared) -> Result<Declared, AllocError>
    ensures { IfOk result (λ r. declared_of r ≡ declared_of declared.now) }
{
    let name = declared.name.copy()?;
    let sizes = copy_pars(alloc, &declared.sizes)?;
    Ok(Declared { name, sizes })
}

/// The same declarations once more.
pub fn copy_declarations(alloc: Global, list: &[Declared]) -> Result<List<Declared>, AllocError>
    ensures { IfOk result (λ r. map declared_of r.items ≡ map declared_of list.now) }
{
    let mut copies = Vec::new(alloc);
    for declared in list {
        let copy = copy_declared(alloc, declared)?;
        copies.push(copy)?;
    }
    Ok(copies)
}

fn copy_area(alloc: Global, area: &Area) -> Result<Area, AllocError>
    ensures { IfOk result (λ r. area_of r ≡ area_of area.now) }
{
    let list = copy_declarations(alloc, &area.list)?;
    match &area.name {
        Some(name) => {
            let name = name.copy()?;
            Ok(Area {
                name: Some(name),
                list,
            })
        }
        None => Ok(Area { name: None, list }),
    }
}

/// The same common blocks once more.
pub fn copy_areas(alloc: Global, list: &[Area]) -> Result<List<Area>, AllocError>
    ensures { IfOk result (λ r. map area_of r.items ≡ map area_of list.now) }
{
    let mut copies = Vec::new(alloc);
    for area in list {
        let copy = copy_area(alloc, area)?;
        copies.push(copy)?;
    }
    Ok(copies)
}

/// The same groups of an EQUIVALENCE once more.
pub fn copy_groups(alloc: Global, list: &[List<Expr>]) -> Result<List<List<Expr>>, AllocError>
    ensures { IfOk result (λ r. map (λ group. map formula_of group.items) r.items ≡ map (λ group. map formula_of group.items) list.now) }
{
    let mut copies = Vec::new(alloc);
    for group in list {
        let copy = copy_exprs(alloc, group)?;
        copies.push(copy)?;
    }
    Ok(copies)
}

fn copy_values(alloc: Global, list: &[(u32, Expr)]) -> Result<List<(u32, Expr)>, AllocError>
    ensures { IfOk result (λ r. map initial_of r.items ≡ map initial_of list.now) }
{
    let mut copies = Vec::new(alloc);
    for (count, value) in list {
        let copy = copy_expr(alloc, value)?;
        copies.push((*count, copy))?;
    }
    Ok(copies)
}

fn copy_preset(alloc: Global, part: &PresetPart) -> Result<PresetPart, AllocError>
    ensures { IfOk result (λ r. preset_of r ≡ preset_of part.now) }
{
    let places = copy_exprs(alloc, &part.places)?;
    let values = copy_values(alloc, &part.values)?;
    Ok(PresetPart { places, values })
}

/// The same parts of a DATA once more.
pub fn copy_presets(alloc: Global, list: &[PresetPart]) -> Result<List<PresetPart>, AllocError>
    ensures { IfOk result (λ r. map preset_of r.items ≡ map preset_of list.now) }
{
    let mut copies = Vec::new(alloc);
    for part in list {
        let copy = copy_preset(alloc, part)?;
        copies.push(copy)?;
    }
    Ok(copies)
}
