// Types, variables and declarations, taken out of values.
ghost use Rattle.std.specs.Prelude.{◌≡◌, ◌∷◌, ℕ, ℤ, List, map, reverse, refl};
ghost use Rattle.efl_tree.specs.declared.declaration.EflBound.{EflBound as Bound};
ghost use Rattle.efl_tree.specs.declared.declaration.EflConst.{EflConst as Constant};
ghost use Rattle.efl_tree.specs.Syntax.{EflVar as Var, EflGroups, EflPreset as Preset};
ghost use Rattle.efl_tree.specs.Views.{type_of, var_of, vars_of, group_then, groups_of, preset_of, decl_kind_of};
ghost use Rattle.efl_parse_values.specs.Values.{value, bounds, vars, groups, data_list, presets, groups_if_any};
ghost use Rattle.efl_parse_values.specs.Parts.{type_in, bound_in, as_bounds, var_in, as_vars, with_group, as_groups, groups_part, outline_groups, constant_in, constant_part, datum_in, as_data, is_listed, preset_in, as_presets, decl_in};

use crate::expressions::into_path;
use crate::lists::Item;
use crate::value::{DeclarationValue, TypeValue, Value};
use crate::words::NOWHERE;
use efl_tree::{EflBound, EflConst, EflDeclKind, EflGroup, EflName, EflPreset, EflType, EflVar};
use ground::{List, Text};
use std::alloc::Global;

impl Item for EflBound {
    ghost Plain = { List Bound };

    ghost plain = { λ xs. xs };

    ghost more = { λ x rest. x ∷ rest };

    ghost listed = { λ xs. bounds xs };

    ghost list_in = { as_bounds };

    ghost with_item = { λ v rest. bound_in v ∷ rest };

    ghost plain_more = { λ x xs. refl };

    fn into_item(_alloc: Global, part: Value) -> EflBound
        ensures { (rest : List Bound) → result ∷ rest ≡ bound_in (value part) ∷ rest }
    {
        take_bound(part)
    }

    fn into_list(alloc: Global, part: Value) -> Vec<EflBound>
        ensures { (reverse result.items) ≡ as_bounds (value part) }
    {
        match part {
            Value::Type(TypeValue::Bounds(list)) => list,
            other => {
                drop(other);
                Vec::new(alloc)
            }
        }
    }

    fn list_value(list: Vec<EflBound>) -> Value
        ensures { value result ≡ bounds ((reverse list.items)) }
    {
        Value::Type(TypeValue::Bounds(list))
    }
}

impl Item for EflVar {
    ghost Plain = { List Var };

    ghost plain = { λ xs. map var_of xs };

    ghost more = { λ x rest. var_of x ∷ rest };

    ghost listed = { λ xs. vars xs };

    ghost list_in = { as_vars };

    ghost with_item = { λ v rest. var_in v ∷ rest };

    ghost plain_more = { λ x xs. refl };

    fn into_item(alloc: Global, part: Value) -> EflVar
        ensures { (rest : List Var) → var_of result ∷ rest ≡ var_in (value part) ∷ rest }
    {
        into_var(alloc, part)
    }

    fn into_list(alloc: Global, part: Value) -> Vec<EflVar>
        ensures { map var_of (reverse result.items) ≡ as_vars (value part) }
    {
        match part {
            Value::Type(TypeValue::Vars(list)) => list,
            Value::Type(TypeValue::Outline(_, list)) => list,
            other => {
                drop(other);
                Vec::new(alloc)
            }
        }
    }

    fn list_value(list: Vec<EflVar>) -> Value
        ensures { value result ≡ vars (map var_of (reverse list.items)) }
    {
        Value::Type(TypeValue::Vars(list))
    }
}

impl Item for EflGroup {
    ghost Plain = { EflGroups };

    ghost plain = { groups_of };

    ghost more = { group_then };

    ghost listed = { λ xs. groups xs };

    ghost list_in = { as_groups };

    ghost with_item = { with_group };

    ghost plain_more = { λ x xs. refl };

    fn into_item(alloc: Global, part: Value) -> EflGroup
        ensures { (rest : EflGroups) → group_then result rest ≡ with_group (value part) rest }
    {
        into_group(alloc, part)
    }

    fn into_list(alloc: Global, part: Value) -> Vec<EflGroup>
        ensures { groups_of (reverse result.items) ≡ as_groups (value part) }
    {
        match part {
            Value::Type(TypeValue::Groups(list)) => list,
            other => {
                drop(other);
                Vec::new(alloc)
            }
        }
    }

    fn list_value(list: Vec<EflGroup>) -> Value
        ensures { value result ≡ groups (groups_of (reverse list.items)) }
    {
        Value::Type(TypeValue::Groups(list))
    }
}

impl Item for (u32, EflConst) {
    ghost Plain = { List (ℕ × Constant) };

    ghost plain = { λ xs. xs };

    ghost more = { λ x rest. x ∷ rest };

    ghost listed = { λ xs. data_list xs };

    ghost list_in = { as_data };

    ghost with_item = { λ v rest. datum_in v ∷ rest };

    ghost plain_more = { λ x xs. refl };

    fn into_item(_alloc: Global, part: Value) -> (u32, EflConst)
        ensures { (rest : List (ℕ × Constant)) → result ∷ rest ≡ datum_in (value part) ∷ rest }
    {
        take_datum(part)
    }

    fn into_list(alloc: Global, part: Value) -> Vec<(u32, EflConst)>
        ensures { (reverse result.items) ≡ as_data (value part) }
    {
        match part {
            Value::Declaration(DeclarationValue::Data(list)) => list,
            Value::Declaration(DeclarationValue::Values(_, list)) => list,
            other => {
                drop(other);
                Vec::new(alloc)
            }
        }
    }

    fn list_value(list: Vec<(u32, EflConst)>) -> Value
        ensures { value result ≡ data_list ((reverse list.items)) }
    {
        Value::Declaration(DeclarationValue::Data(list))
    }
}

impl Item for EflPreset {
    ghost Plain = { List Preset };

    ghost plain = { λ xs. map preset_of xs };

    ghost more = { λ x rest. preset_of x ∷ rest };

    ghost listed = { λ xs. presets xs };

    ghost list_in = { as_presets };

    ghost with_item = { λ v rest. preset_in v ∷ rest };

    ghost plain_more = { λ x xs. refl };

    fn into_item(alloc: Global, part: Value) -> EflPreset
        ensures { (rest : List Preset) → preset_of result ∷ rest ≡ preset_in (value part) ∷ rest }
    {
        into_preset(alloc, part)
    }

    fn into_list(alloc: Global, part: Value) -> Vec<EflPreset>
        ensures { map preset_of (reverse result.items) ≡ as_presets (value part) }
    {
        match part {
            Value::Declaration(DeclarationValue::Presets(list)) => list,
            other => {
                drop(other);
                Vec::new(alloc)
            }
        }
    }

    fn list_value(list: Vec<EflPreset>) -> Value
        ensures { value result ≡ presets (map preset_of (reverse list.items)) }
    {
        Value::Declaration(DeclarationValue::Presets(list))
    }
}

pub fn into_type(part: Value) -> EflType
    ensures { type_of result ≡ type_in (value part) }
{
    match part {
        Value::Type(TypeValue::Typed(_, kind)) => kind,
        other => {
            drop(other);
            EflType::Integer
        }
    }
}

fn take_bound(part: Value) -> EflBound
    ensures { result ≡ bound_in (value part) }
{
    match part {
        Value::Type(TypeValue::Bound(bound)) => bound,
        other => {
            drop(other);
            EflBound {
                low: None,
                high: None,
            }
        }
    }
}

fn into_var(alloc: Global, part: Value) -> EflVar
    ensures { var_of result ≡ var_in (value part) }
{
    match part {
        Value::Type(TypeValue::Var(variable)) => variable,
        other => {
            drop(other);
            EflVar {
                name: EflName::new(Text::empty()),
                bounds: Vec::new(alloc),
            }
        }
    }
}

fn into_group(alloc: Global, part: Value) -> EflGroup
    ensures { (rest : EflGroups) → group_then result rest ≡ with_group (value part) rest }
{
    match part {
        Value::Type(TypeValue::Group(group)) => group,
        other => {
            drop(other);
            EflGroup {
                kind: EflType::Integer,
                variables: Vec::new(alloc),
                place: NOWHERE,
            }
        }
    }
}

/// Groups in order.
pub fn into_groups_if_any(part: Value) -> Option<List<EflGroup>>
    ensures { groups_if_any result ≡ groups_part (value part) }
{
    match part {
        Value::Type(TypeValue::Groups(mut list)) => {
            list.reverse();
            Some(list)
        }
        other => {
            drop(other);
            None
        }
    }
}

/// The groups in order, if any, and the variables.
pub fn into_outline(alloc: Global, part: Value) -> (Option<List<EflGroup>>, Vec<EflVar>)
    ensures groups { groups_if_any result.0 ≡ outline_groups (value part) }
    ensures variables { vars_of (reverse result.1.items) ≡ as_vars (value part) }
{
    match part {
        Value::Type(TypeValue::Outline(groups, variables)) => (groups, variables),
        other => (None, EflVar::into_list(alloc, other)),
    }
}

pub fn take_constant(part: Value) -> EflConst
    ensures { result ≡ constant_in (value part) }
{
    match part {
        Value::Declaration(DeclarationValue::Constant(constant)) => constant,
        other => {
            drop(other);
            EflConst::Int(0)
        }
    }
}

pub fn take_constant_if_any(part: Value) -> Option<EflConst>
    ensures { result ≡ constant_part (value part) }
{
    match part {
        Value::Declaration(DeclarationValue::Constant(constant)) => Some(constant),
        other => {
            drop(other);
            None
        }
    }
}

fn take_datum(part: Value) -> (u32, EflConst)
    ensures { result ≡ datum_in (value part) }
{
    match part {
        Value::Declaration(DeclarationValue::Datum(count, constant)) => (count, constant),
        other => {
            drop(other);
            (1, EflConst::Int(0))
        }
    }
}

/// The values of a preset, and whether they stand in parentheses.
pub fn into_values(alloc: Global, part: Value) -> (bool, Vec<(u32, EflConst)>)
    ensures listed { result.0 ≡ is_listed (value part) }
    ensures values { reverse result.1.items ≡ as_data (value part) }
{
    match part {
        Value::Declaration(DeclarationValue::Values(listed, list)) => (listed, list),
        other => (false, <(u32, EflConst)>::into_list(alloc, other)),
    }
}

fn into_preset(alloc: Global, part: Value) -> EflPreset
    ensures { preset_of result ≡ preset_in (value part) }
{
    match part {
        Value::Declaration(DeclarationValue::Preset(preset)) => Box::into_inner(preset),
        other => {
            drop(other);
            EflPreset {
                place: into_path(alloc, Value::Nothing),
                values: Vec::new(alloc),
                listed: false,
            }
        }
    }
}

pub fn into_decl(alloc: Global, part: Value) -> EflDeclKind
    ensures { decl_kind_of result ≡ decl_in (value part) }
{
    match part {
        Value::Declaration(DeclarationValue::Declared(kind)) => Box::into_inner(kind),
        Value::Declaration(DeclarationValue::Declaration(declaration)) => {
            Box::into_inner(declaration).kind
        }
        other => {
            drop(other);
            EflDeclKind::Variables(None, EflType::Integer, Vec::new(alloc))
        }
    }
}
