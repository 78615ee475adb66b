//! Reads the types of a script, and adds them to a table of types.

ghost use Rattle.std.specs.Prelude.{◌≡◌, ◌≢◌, List, Option, Some, Err, Ok, IfOk, option_and_then};
ghost use Rattle.serde_json.specs.View.{view, items_view};
ghost use Rattle.canon_json.specs.Json.{ReadsAs};
ghost use Rattle.canon_json.specs.declared.error.ScriptError.TheVariants as refused;
ghost use Rattle.canon_layout.specs.Asked as spec;
ghost use Rattle.canon_layout.specs.Entries.{entry_by};

use crate::readers::{
    Cases, Fields, Names, Types, counted_type_of, payload_pair_of, type_of_json, type_pair_of,
};
use crate::words::{Kind, kind_named};
use canon_json::{ScriptError, each_of, only_member, u32_of};
use canon_types::{InterfaceType, TypeBuilder, TypeError, TypeResourceTableIndex};
use serde_json::Value;
use std::alloc::Global;

/// Adds the types of these entries, each over those before it. After an error the table may hold those of the first of them.
pub fn add_entries(
    alloc: Global,
    builder: &mut TypeBuilder,
    items: &[Value],
) -> Result<Vec<InterfaceType>, ScriptError>
    ensures { ReadsAs (λ types. spec.listed_so_far builder.new types.items) result (spec.types_over builder.old (items_view items.now)) }
{
    let mut types = Vec::new(alloc);
    for item in items {
        let ty = add_entry(alloc, builder, &types, item)?;
        types.push(ty)?;
    }
    Ok(types)
}

/// Adds the type of an entry over those before it.
pub fn add_entry(
    alloc: Global,
    builder: &mut TypeBuilder,
    before: &[InterfaceType],
    v: &Value,
) -> Result<InterfaceType, ScriptError>
    ensures { ReadsAs (spec.grown builder.new before.now) result (spec.add_entry (spec.listed_so_far builder.old before.now) (view v.now)) }
{
    let Some((member, form)) = only_member(v) else {
        return Err(ScriptError::BadScript);
    };
    let Some(kind) = kind_named(member) else {
        return Err(ScriptError::BadScript);
    };
    match kind {
        Kind::List => add_list(builder, before, form),
        Kind::Option => add_option(builder, before, form),
        Kind::Map => add_map(builder, before, form),
        Kind::Record => add_record(alloc, builder, before, form),
        Kind::Tuple => add_tuple(alloc, builder, before, form),
        Kind::Variant => add_variant(alloc, builder, before, form),
        Kind::Enum => add_enum(alloc, builder, before, form),
        Kind::Flags => add_flags(alloc, builder, before, form),
        Kind::Result => add_result(builder, before, form),
        Kind::Fixed => add_fixed(builder, before, form),
        Kind::Own => add_own(builder, before, form),
        Kind::Borrow => add_borrow(builder, before, form),
    }
}

fn add_list(
    builder: &mut TypeBuilder,
    before: &[InterfaceType],
    form: &Value,
) -> Result<InterfaceType, ScriptError>
    ensures { ReadsAs (spec.grown builder.new before.now) result (option_and_then (spec.entry_added (spec.listed_so_far builder.old before.now)) (entry_by Kind.List before.now (view form.now))) }
{
    let element = type_of_json(form, before)?;
    accepted(builder.add_list(element))
}

fn add_option(
    builder: &mut TypeBuilder,
    before: &[InterfaceType],
    form: &Value,
) -> Result<InterfaceType, ScriptError>
    ensures { ReadsAs (spec.grown builder.new before.now) result (option_and_then (spec.entry_added (spec.listed_so_far builder.old before.now)) (entry_by Kind.Option before.now (view form.now))) }
{
    let some = type_of_json(form, before)?;
    accepted(builder.add_option(some))
}

fn add_map(
    builder: &mut TypeBuilder,
    before: &[InterfaceType],
    form: &Value,
) -> Result<InterfaceType, ScriptError>
    ensures { ReadsAs (spec.grown builder.new before.now) result (option_and_then (spec.entry_added (spec.listed_so_far builder.old before.now)) (entry_by Kind.Map before.now (view form.now))) }
{
    let Some((key, value)) = type_pair_of(form, before) else {
        return Err(ScriptError::BadScript);
    };
    accepted(builder.add_map(key, value))
}

fn add_record(
    alloc: Global,
    builder: &mut TypeBuilder,
    before: &[InterfaceType],
    form: &Value,
) -> Result<InterfaceType, ScriptError>
    ensures { ReadsAs (spec.grown builder.new before.now) result (option_and_then (spec.entry_added (spec.listed_so_far builder.old before.now)) (entry_by Kind.Record before.now (view form.now))) }
{
    let fields = each_of(alloc, &Fields { before }, Some(form))?;
    accepted(builder.add_record(fields))
}

fn add_tuple(
    alloc: Global,
    builder: &mut TypeBuilder,
    before: &[InterfaceType],
    form: &Value,
) -> Result<InterfaceType, ScriptError>
    ensures { ReadsAs (spec.grown builder.new before.now) result (option_and_then (spec.entry_added (spec.listed_so_far builder.old before.now)) (entry_by Kind.Tuple before.now (view form.now))) }
{
    let types = each_of(alloc, &Types { before }, Some(form))?;
    accepted(builder.add_tuple(types))
}

fn add_variant(
    alloc: Global,
    builder: &mut TypeBuilder,
    before: &[InterfaceType],
    form: &Value,
) -> Result<InterfaceType, ScriptError>
    ensures { ReadsAs (spec.grown builder.new before.now) result (option_and_then (spec.entry_added (spec.listed_so_far builder.old before.now)) (entry_by Kind.Variant before.now (view form.now))) }
{
    let cases = each_of(alloc, &Cases { before }, Some(form))?;
    accepted(builder.add_variant(cases))
}

fn add_enum(
    alloc: Global,
    builder: &mut TypeBuilder,
    before: &[InterfaceType],
    form: &Value,
) -> Result<InterfaceType, ScriptError>
    ensures { ReadsAs (spec.grown builder.new before.now) result (option_and_then (spec.entry_added (spec.listed_so_far builder.old before.now)) (entry_by Kind.Enum before.now (view form.now))) }
{
    let names = each_of(alloc, &Names, Some(form))?;
    accepted(builder.add_enum(names))
}

fn add_flags(
    alloc: Global,
    builder: &mut TypeBuilder,
    before: &[InterfaceType],
    form: &Value,
) -> Result<InterfaceType, ScriptError>
    ensures { ReadsAs (spec.grown builder.new before.now) result (option_and_then (spec.entry_added (spec.listed_so_far builder.old before.now)) (entry_by Kind.Flags before.now (view form.now))) }
{
    let names = each_of(alloc, &Names, Some(form))?;
    accepted(builder.add_flags(names))
}

fn add_result(
    builder: &mut TypeBuilder,
    before: &[InterfaceType],
    form: &Value,
) -> Result<InterfaceType, ScriptError>
    ensures { ReadsAs (spec.grown builder.new before.now) result (option_and_then (spec.entry_added (spec.listed_so_far builder.old before.now)) (entry_by Kind.Result before.now (view form.now))) }
{
    let Some((ok, err)) = payload_pair_of(form, before) else {
        return Err(ScriptError::BadScript);
    };
    accepted(builder.add_result(ok, err))
}

fn add_fixed(
    builder: &mut TypeBuilder,
    before: &[InterfaceType],
    form: &Value,
) -> Result<InterfaceType, ScriptError>
    ensures { ReadsAs (spec.grown builder.new before.now) result (option_and_then (spec.entry_added (spec.listed_so_far builder.old before.now)) (entry_by Kind.Fixed before.now (view form.now))) }
{
    let Some((element, size)) = counted_type_of(form, before) else {
        return Err(ScriptError::BadScript);
    };
    accepted(builder.add_fixed_length_list(element, size))
}

fn add_own(
    builder: &mut TypeBuilder,
    before: &[InterfaceType],
    form: &Value,
) -> Result<InterfaceType, ScriptError>
    ensures { ReadsAs (spec.grown builder.new before.now) result (option_and_then (spec.entry_added (spec.listed_so_far builder.old before.now)) (entry_by Kind.Own before.now (view form.now))) }
{
    let Some(resource) = u32_of(form) else {
        return Err(ScriptError::BadScript);
    };
    accepted(builder.add_own(TypeResourceTableIndex::from_u32(resource)))
}

fn add_borrow(
    builder: &mut TypeBuilder,
    before: &[InterfaceType],
    form: &Value,
) -> Result<InterfaceType, ScriptError>
    ensures { ReadsAs (spec.grown builder.new before.now) result (option_and_then (spec.entry_added (spec.listed_so_far builder.old before.now)) (entry_by Kind.Borrow before.now (view form.now))) }
{
    let Some(resource) = u32_of(form) else {
        return Err(ScriptError::BadScript);
    };
    accepted(builder.add_borrow(TypeResourceTableIndex::from_u32(resource)))
}

/// A builder's answer, where every refusal is the script's fault except out of memory.
pub(crate) fn accepted<T>(answer: Result<T, TypeError>) -> Result<T, ScriptError>
    ensures ok { IfOk result (λ x. answer ≡ Ok x) }
    ensures bad_script { result ≡ Err refused.BadScript → (e : TypeError) × (answer ≡ Err e) × (e ≢ TypeError.OutOfMemory) }
{
    match answer {
        Ok(x) => Ok(x),
        Err(TypeError::OutOfMemory) => Err(ScriptError::OutOfMemory),
        Err(_) => Err(ScriptError::BadScript),
    }
}
