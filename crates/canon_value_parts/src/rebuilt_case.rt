//! The value of a case, put together from its payload by the kind of its type.

ghost use Rattle.std.specs.Prelude.{ℕ, ◌≡◌, ◌≤◌, ◌<◌, [], IfErr, IfOk, length, string_bytes};
ghost use Rattle.canon_lowering.specs.Copies.{case_members};
ghost use Rattle.canon_model.specs.Shape.{Cases, case_count, member_count, of_cases, of_names, of_option, of_result};
ghost use Rattle.canon_types.specs.Depth.{variant_cases};
ghost use Rattle.canon_types.specs.Table.{Knows, shape_of};
ghost use Rattle.canon_plan.specs.Plan.{IsCaseKind};
ghost use Rattle.canon_value_parts.specs.Plan.{IsCaseRebuilt};
ghost use Rattle.canon_value_parts.specs.Resources.{all_resources, resources};
ghost use Rattle.canon_val.specs.Value.{IsCase, IsFirst, case_names, unboxed};

use canon_context::Fault;
use canon_types::{ComponentTypes, InterfaceType, TypeEnumIndex, TypeVariantIndex};
use canon_val::Val;
use std::alloc::Global;

/// The value of case `tag` of the type, with this payload or none. A payload and a name want memory.
pub fn rebuild_case(
    alloc: Global,
    types: &ComponentTypes,
    ty: &InterfaceType,
    tag: u32,
    values: Vec<Val>,
) -> Result<Val, Fault>
    requires known { Knows types.now ty.now }
    requires kind { IsCaseKind ty.now (shape_of types.now ty.now) }
    requires tag { tag < case_count (variant_cases (shape_of types.now ty.now)) }
    requires count { length values.items ≡ member_count (case_members (variant_cases (shape_of types.now ty.now)) tag) }
    ensures ok { IfOk result (IsCaseRebuilt (shape_of types.now ty.now) tag values.items) }
    ensures resources { IfOk result (λ v. resources v ≡ all_resources values.items) }
    ensures err { IfErr result (λ e. e ≡ Fault.OutOfMemory) }
{
    match ty {
        InterfaceType::Variant(i) => variant_value(alloc, types, *i, tag, values),
        InterfaceType::Enum(i) => enum_value(types, *i, tag),
        InterfaceType::Option(_) => option_value(alloc, values),
        // A result is left.
        _ => result_value(alloc, tag, values),
    }
}

fn variant_value(
    alloc: Global,
    types: &ComponentTypes,
    i: TypeVariantIndex,
    tag: u32,
    values: Vec<Val>,
) -> Result<Val, Fault>
    requires known { Knows types.now (InterfaceType.Variant i) }
    requires tag { tag < case_count (variant_cases (shape_of types.now (InterfaceType.Variant i))) }
    requires few { length values.items ≤ 1 }
    ensures ok { IfOk result (IsCase of_cases (variant_cases (shape_of types.now (InterfaceType.Variant i))) tag values.items) }
    ensures err { IfErr result (λ e. e ≡ Fault.OutOfMemory) }
{
    let name = case_name(types, i, tag)?;
    match boxed(alloc, values) {
        Ok(payload) => Ok(Val::Variant(name, payload)),
        Err(fault) => Err(fault),
    }
}

/// The name of case `tag` of a variant.
fn case_name(types: &ComponentTypes, i: TypeVariantIndex, tag: u32) -> Result<String, Fault>
    requires known { Knows types.now (InterfaceType.Variant i) }
    requires tag { tag < case_count (variant_cases (shape_of types.now (InterfaceType.Variant i))) }
    ensures ok { IfOk result (λ name. IsFirst (string_bytes name) (case_names (variant_cases (shape_of types.now (InterfaceType.Variant i)))) tag) }
    ensures err { IfErr result (λ e. e ≡ Fault.OutOfMemory) }
{
    let (name, _) = types.variant(i).cases.get_index(tag as usize).unwrap();
    Ok(name.clone()?)
}

fn enum_value(types: &ComponentTypes, i: TypeEnumIndex, tag: u32) -> Result<Val, Fault>
    requires known { Knows types.now (InterfaceType.Enum i) }
    requires tag { tag < case_count (variant_cases (shape_of types.now (InterfaceType.Enum i))) }
    ensures ok { IfOk result (IsCase of_names (variant_cases (shape_of types.now (InterfaceType.Enum i))) tag []) }
    ensures err { IfErr result (λ e. e ≡ Fault.OutOfMemory) }
{
    let name = types.enum_(i).names.get_index(tag as usize).unwrap();
    Ok(Val::Enum(name.clone()?))
}

fn option_value(alloc: Global, values: Vec<Val>) -> Result<Val, Fault>
    requires few { length values.items ≤ 1 }
    ensures ok { (cs : Cases) → length values.items < case_count cs → IfOk result (IsCase of_option cs (length values.items) values.items) }
    ensures err { IfErr result (λ e. e ≡ Fault.OutOfMemory) }
{
    match boxed(alloc, values) {
        Ok(payload) => Ok(Val::Option(payload)),
        Err(fault) => Err(fault),
    }
}

fn result_value(alloc: Global, tag: u32, values: Vec<Val>) -> Result<Val, Fault>
    requires few { length values.items ≤ 1 }
    ensures ok { (cs : Cases) → case_count cs ≡ 2 → tag < 2 → IfOk result (IsCase of_result cs tag values.items) }
    ensures err { IfErr result (λ e. e ≡ Fault.OutOfMemory) }
{
    match boxed(alloc, values) {
        Ok(payload) => {
            if tag == 0 {
                Ok(Val::Result(Ok(payload)))
            } else {
                Ok(Val::Result(Err(payload)))
            }
        }
        Err(fault) => Err(fault),
    }
}

/// The payload, if there is one, in a box.
fn boxed(alloc: Global, values: Vec<Val>) -> Result<Option<Box<Val>>, Fault>
    requires few { length values.items ≤ 1 }
    ensures ok { IfOk result (λ p. values.items ≡ unboxed p) }
    ensures err { IfErr result (λ e. e ≡ Fault.OutOfMemory) }
{
    let mut values = values;
    match values.pop() {
        Some(value) => match Box::new(alloc, value) {
            Ok(payload) => Ok(Some(payload)),
            Err(_) => Err(Fault::OutOfMemory),
        },
        None => Ok(None),
    }
}
