//! A value, put together from its members by the kind of its type.

ghost use Rattle.std.specs.Prelude.{◌≡◌, ◌++◌, ◌%◌, ◌∷◌, [], IfErr, IfOk, List, OnOk, length, string_bytes};
ghost use Rattle.canon_model.specs.Shape.{member_count, of_fields};
ghost use Rattle.canon_types.specs.Depth.{product_members};
ghost use Rattle.canon_types.specs.Table.{Knows, shape_of};
ghost use Rattle.canon_value_parts.specs.Elements.{by_turns};
ghost use Rattle.canon_plan.specs.Plan.{IsKind};
ghost use Rattle.canon_value_parts.specs.Plan.{IsRebuilt, parts_of};
ghost use Rattle.canon_value_parts.specs.Resources.{all_resources, resources};
ghost use Rattle.canon_val.specs.Value.{IsPairs, IsProduct, member_names, names_in, values_in};

use crate::lists::keep;
use canon_context::Fault;
use canon_types::{ComponentTypes, InterfaceType, RecordField, TypeRecordIndex};
use canon_val::Val;
use std::alloc::Global;

/// The value of the type that has these members. Its names are the type's; they want memory.
pub fn rebuild(
    alloc: Global,
    types: &ComponentTypes,
    ty: &InterfaceType,
    values: Vec<Val>,
) -> Result<Val, Fault>
    requires known { Knows types.now ty.now }
    requires kind { IsKind ty.now (shape_of types.now ty.now) }
    requires count { length values.items ≡ member_count (parts_of (shape_of types.now ty.now) (length values.items)) }
    ensures ok { IfOk result (IsRebuilt (shape_of types.now ty.now) values.items) }
    ensures resources { IfOk result (λ v. resources v ≡ all_resources values.items) }
    ensures err { IfErr result (λ e. e ≡ Fault.OutOfMemory) }
{
    match ty {
        InterfaceType::Record(i) => rebuild_record(alloc, types, *i, values),
        InterfaceType::Tuple(_) => Ok(Val::Tuple(values)),
        InterfaceType::FixedLengthList(_) => Ok(Val::FixedLengthList(values)),
        InterfaceType::Map(_) => rebuild_map(alloc, values),
        // The one kind that is left is a list.
        _ => Ok(Val::List(values)),
    }
}

/// A record of these values, with the names of its type.
fn rebuild_record(
    alloc: Global,
    types: &ComponentTypes,
    i: TypeRecordIndex,
    values: Vec<Val>,
) -> Result<Val, Fault>
    requires known { Knows types.now (InterfaceType.Record i) }
    requires count { length values.items ≡ member_count (product_members (shape_of types.now (InterfaceType.Record i))) }
    ensures ok { IfOk result (IsProduct of_fields (member_names (product_members (shape_of types.now (InterfaceType.Record i)))) values.items) }
    ensures err { IfErr result (λ e. e ≡ Fault.OutOfMemory) }
{
    let fields = &types.record(i).fields;
    let mut named = Vec::with_capacity(alloc, fields.len())?;
    let mut k = 0;
    for value in values {
        keep_field(&mut named, &fields[k], value)?;
        k += 1;
    }
    Ok(Val::Record(named))
}

/// A map of these keys and values, which stand by turns.
fn rebuild_map(alloc: Global, values: Vec<Val>) -> Result<Val, Fault>
    requires even { length values.items % 2 ≡ 0 }
    ensures ok { IfOk result (λ v. (pairs : List (Val × Val)) × IsPairs pairs v × (by_turns pairs ≡ values.items)) }
    ensures err { IfErr result (λ e. e ≡ Fault.OutOfMemory) }
{
    let count = values.len() / 2;
    let mut pairs = Vec::with_capacity(alloc, count)?;
    let mut rest = values.into_iter();
    for _ in 0..count {
        let Some(key) = rest.next() else { continue };
        let Some(value) = rest.next() else { continue };
        keep(&mut pairs, (key, value))?;
    }
    Ok(Val::Map(pairs))
}

/// Adds the value of a field at the end, under the field's name.
fn keep_field(named: &mut Vec<(String, Val)>, field: &RecordField, value: Val) -> Result<(), Fault>
    ensures names { OnOk result (names_in named.new.items ≡ names_in named.old.items ++ string_bytes field.now.name ∷ []) }
    ensures values { OnOk result (values_in named.new.items ≡ values_in named.old.items ++ value ∷ []) }
    ensures err { IfErr result (λ e. e ≡ Fault.OutOfMemory) }
{
    let name = field.name.clone()?;
    keep(named, (name, value))
}
