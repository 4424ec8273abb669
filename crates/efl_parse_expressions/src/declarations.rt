// What the productions of declarations make.
ghost use Rattle.std.specs.Prelude.{◌≡◌, ◌∷◌, [], None, Some, false, true, reverse, map, IfOk};
ghost use Rattle.efl_tree.specs.declared.declaration.EflConst.TheVariants.{Int as IntConstant, Truth as TruthConstant};
ghost use Rattle.efl_tree.specs.Syntax.{Variables, Initial, Shape};
ghost use Rattle.efl_tree.specs.Views.{type_of, vars_of, groups_of, decl_kind_of, preset_of};
ghost use Rattle.efl_parse_values.specs.Values.{value, values, at, range, constant, datum, preset, preset_values, declared, declaration, outline, groups_if_any};
ghost use Rattle.efl_parse_values.specs.Parts.{place_in, name_in, letter_in, letter_part, integer_in, type_in, is_true, as_groups, as_vars, outline_groups, constant_in, constant_part, datum_in, as_data, is_listed, as_path, preset_in, as_presets, decl_in};
ghost use Rattle.efl_parse_expressions.specs.Declared.{letters as letters_so, outlined as outlined_so, counted as counted_so, signed as signed_so};

use crate::types::{shape, signed};
use efl_parse_values::{
    CountValue, DeclarationValue, Item, TypeValue, Value, into_decl, into_name, into_outline,
    into_path, into_type, into_values, more_by, ordered, place_of, pop_value, skip, take_constant,
    take_constant_if_any, take_integer, take_letter, take_letter_if_any, take_number, take_place,
    take_truth,
};
use efl_tree::{EflConst, EflDecl, EflDeclKind, EflGroup, EflName, EflPreset, EflType, EflVar};
use ground::{List, Place};
use std::alloc::{AllocError, Global};

fn declaration_value(alloc: Global, kind: EflDeclKind, place: Place) -> Result<Value, AllocError>
    ensures { IfOk result (λ v. value v ≡ declaration place (decl_kind_of kind)) }
{
    let declaration = Box::new(alloc, EflDecl { kind, place })?;
    Ok(Value::Declaration(DeclarationValue::Declaration(declaration)))
}

fn declared_value(alloc: Global, kind: EflDeclKind) -> Result<Value, AllocError>
    ensures { IfOk result (λ v. value v ≡ declared (decl_kind_of kind)) }
{
    let kind = Box::new(alloc, kind)?;
    Ok(Value::Declaration(DeclarationValue::Declared(kind)))
}

/// Variables of a type, in no common area.
fn variables(kind: EflType, list: List<EflVar>) -> EflDeclKind
    ensures { decl_kind_of result ≡ Variables None (type_of kind) (vars_of list.items) }
{
    EflDeclKind::Variables(None, kind, list)
}

pub fn base_by(alloc: Global, parts: &mut Vec<Value>) -> Result<Value, AllocError>
    ensures { IfOk result (λ v. value v ≡ declaration (place_in (at 2 (values parts.old.items))) (Variables None (type_in (at 2 (values parts.old.items))) (as_vars (at 1 (values parts.old.items))))) }
{
    skip(parts);
    let list = ordered::<EflVar>(alloc, pop_value(parts));
    let part = pop_value(parts);
    let place = place_of(&part);
    declaration_value(alloc, variables(into_type(part), list), place)
}

/// What is declared behind `struct`.
pub fn struct_by(alloc: Global, parts: &mut Vec<Value>) -> Result<Value, AllocError>
    ensures { IfOk result (λ v. value v ≡ declaration (place_in (at 1 (values parts.old.items))) (decl_in (at 0 (values parts.old.items)))) }
{
    let kind = into_decl(alloc, pop_value(parts));
    declaration_value(alloc, kind, take_place(pop_value(parts)))
}

pub fn initial_by(alloc: Global, parts: &mut Vec<Value>) -> Result<Value, AllocError>
    ensures { IfOk result (λ v. value v ≡ declaration (place_in (at 3 (values parts.old.items))) (Initial (preset_in (at 2 (values parts.old.items)) ∷ as_presets (at 1 (values parts.old.items))))) }
{
    skip(parts);
    let list = ordered::<EflPreset>(alloc, more_by::<EflPreset>(alloc, parts)?);
    let place = take_place(pop_value(parts));
    declaration_value(alloc, EflDeclKind::Initial(list), place)
}

/// Variables of a shape with no name.
pub fn shape_variables_by(alloc: Global, parts: &mut Vec<Value>) -> Result<Value, AllocError>
    ensures { IfOk result (λ v. value v ≡ declared (Variables None (Shape None (as_groups (at 2 (values parts.old.items)))) (as_vars (at 1 (values parts.old.items))))) }
{
    skip(parts);
    let list = ordered::<EflVar>(alloc, pop_value(parts));
    let groups = ordered::<EflGroup>(alloc, pop_value(parts));
    declared_value(alloc, variables(shape(None, groups), list))
}

fn outlined(name: EflName, groups: Option<List<EflGroup>>, list: List<EflVar>) -> EflDeclKind
    ensures { decl_kind_of result ≡ outlined_so name (groups_if_any groups) (vars_of list.items) }
{
    match groups {
        None => variables(EflType::Named(name), list),
        Some(groups) => with_groups(name, groups, list),
    }
}

fn with_groups(name: EflName, groups: List<EflGroup>, list: List<EflVar>) -> EflDeclKind
    ensures { decl_kind_of result ≡ outlined_so name (Some (groups_of groups.items)) (vars_of list.items) }
{
    if list.is_empty() {
        EflDeclKind::Structure(name, groups)
    } else {
        variables(shape(Some(name), groups), list)
    }
}

/// A structure's name, and what stands behind it.
pub fn struct_named_by(alloc: Global, parts: &mut Vec<Value>) -> Result<Value, AllocError>
    ensures { IfOk result (λ v. value v ≡ declared (outlined_so (name_in (at 1 (values parts.old.items))) (outline_groups (at 0 (values parts.old.items))) (as_vars (at 0 (values parts.old.items))))) }
{
    let (groups, mut list) = into_outline(alloc, pop_value(parts));
    list.reverse();
    let name = into_name(pop_value(parts));
    declared_value(alloc, outlined(name, groups, list))
}

pub fn struct_variables_by(alloc: Global, parts: &mut Vec<Value>) -> Value
    ensures { value result ≡ outline None (as_vars (at 1 (values parts.old.items))) }
{
    skip(parts);
    let list = EflVar::into_list(alloc, pop_value(parts));
    Value::Type(TypeValue::Outline(None, list))
}

pub fn struct_shape_by(alloc: Global, parts: &mut Vec<Value>) -> Value
    ensures { value result ≡ outline (Some (as_groups (at 1 (values parts.old.items)))) (as_vars (at 0 (values parts.old.items))) }
{
    let list = EflVar::into_list(alloc, pop_value(parts));
    let groups = ordered::<EflGroup>(alloc, pop_value(parts));
    Value::Type(TypeValue::Outline(Some(groups), list))
}

fn letters(first: u8, last: Option<u8>) -> (u8, u8)
    ensures { result ≡ letters_so first last }
{
    match last {
        None => (first, first),
        Some(last) => (first, last),
    }
}

pub fn range_by(parts: &mut Vec<Value>) -> Value
    ensures { value result ≡ range (letters_so (letter_in (at 1 (values parts.old.items))) (letter_part (at 0 (values parts.old.items)))) }
{
    let last = take_letter_if_any(pop_value(parts));
    let first = take_letter(pop_value(parts));
    Value::Count(CountValue::Range(letters(first, last)))
}

pub fn preset_by(alloc: Global, parts: &mut Vec<Value>) -> Result<Value, AllocError>
    ensures { IfOk result (λ v. value v ≡ preset (record { place = as_path (at 2 (values parts.old.items)); values = as_data (at 0 (values parts.old.items)); listed = is_listed (at 0 (values parts.old.items)) })) }
{
    let (listed, mut values) = into_values(alloc, pop_value(parts));
    values.reverse();
    skip(parts);
    let place = into_path(alloc, pop_value(parts));
    let preset = EflPreset {
        place,
        values,
        listed,
    };
    Ok(Value::Declaration(DeclarationValue::Preset(Box::new(alloc, preset)?)))
}

pub fn one_value_by(alloc: Global, parts: &mut Vec<Value>) -> Result<Value, AllocError>
    ensures { IfOk result (λ v. value v ≡ preset_values false ((1, constant_in (at 0 (values parts.old.items))) ∷ [])) }
{
    let mut list = Vec::new(alloc);
    list.push((1, take_constant(pop_value(parts))))?;
    Ok(Value::Declaration(DeclarationValue::Values(false, list)))
}

pub fn listed_values_by(alloc: Global, parts: &mut Vec<Value>) -> Result<Value, AllocError>
    ensures { IfOk result (λ v. value v ≡ preset_values true (datum_in (at 2 (values parts.old.items)) ∷ as_data (at 1 (values parts.old.items)))) }
{
    skip(parts);
    let (_, list) = into_values(alloc, more_by::<(u32, EflConst)>(alloc, parts)?);
    Ok(Value::Declaration(DeclarationValue::Values(true, list)))
}

fn counted(part: Value, constant: Option<EflConst>) -> (u32, EflConst)
    ensures { result ≡ counted_so (value part) constant }
{
    match constant {
        None => (1, EflConst::Int(take_integer(part))),
        Some(constant) => (take_number(part), constant),
    }
}

pub fn number_datum_by(parts: &mut Vec<Value>) -> Value
    ensures { value result ≡ datum (counted_so (at 1 (values parts.old.items)) (constant_part (at 0 (values parts.old.items)))).0 (counted_so (at 1 (values parts.old.items)) (constant_part (at 0 (values parts.old.items)))).1 }
{
    let constant = take_constant_if_any(pop_value(parts));
    let (count, constant) = counted(pop_value(parts), constant);
    Value::Declaration(DeclarationValue::Datum(count, constant))
}

pub fn other_datum_by(parts: &mut Vec<Value>) -> Value
    ensures { value result ≡ datum 1 (constant_in (at 0 (values parts.old.items))) }
{
    Value::Declaration(DeclarationValue::Datum(1, take_constant(pop_value(parts))))
}

fn constant_value(part: EflConst) -> Value
    ensures { value result ≡ constant part }
{
    Value::Declaration(DeclarationValue::Constant(part))
}

pub fn number_constant_by(parts: &mut Vec<Value>) -> Value
    ensures { value result ≡ constant (IntConstant (integer_in (at 0 (values parts.old.items)))) }
{
    constant_value(EflConst::Int(take_integer(pop_value(parts))))
}

pub fn signed_constant_by(parts: &mut Vec<Value>) -> Value
    ensures { value result ≡ constant (IntConstant (signed_so (at 1 (values parts.old.items)) (integer_in (at 0 (values parts.old.items))))) }
{
    let number = take_integer(pop_value(parts));
    constant_value(EflConst::Int(signed(pop_value(parts), number)))
}

pub fn truth_constant_by(parts: &mut Vec<Value>) -> Value
    ensures { value result ≡ constant (TruthConstant (is_true (at 0 (values parts.old.items)))) }
{
    constant_value(EflConst::Truth(take_truth(pop_value(parts))))
}
