//! The lines that the command `layout` prints for types and functions.

ghost use Rattle.std.specs.Prelude.{◌≡◌, ◌≤◌, ◌<◌, ◌^◌, ◌++◌, All, Some, IfSome, OnOk, false, codes, length, option_map, slice_get, string_bytes};
ghost use Rattle.serde_json.specs.View.{view};
ghost use Rattle.canon_abi.specs.Abi.{HasInfo};
ghost use Rattle.canon_json.specs.Json.{ReadsAs};
ghost use Rattle.canon_model.specs.Layout.{members_end};
ghost use Rattle.canon_model.specs.Shape.{Cases};
ghost use Rattle.canon_types.specs.Keeps.{field_members, fields_type};
ghost use Rattle.canon_types.specs.Table.{HasFunc, Knows, all_shapes, fields_in, members_of, parts, shape_of};
ghost use Rattle.canon_layout.specs.Asked.{layout_of};
ghost use Rattle.canon_layout.specs.Lines as spec;

use crate::listing::listing_of_json;
use crate::words::type_word;
use canon_json::ScriptError;
use canon_types::{
    ComponentTypes, InterfaceType, MAX_FLAT_PARAMS, MAX_FLAT_RESULTS, RecordField, TypeFuncIndex,
    VariantInfo,
};
use serde_json::Value;
use std::alloc::{AllocError, Global};

/// The most functions of a table.
const MAX_FUNCS: u32 = 1_048_576;

/// The line of each type and of each function that a JSON value asks for. Answers BadScript where the value asks for
/// none.
pub fn layout_lines(alloc: Global, v: &Value) -> Result<String, ScriptError>
    ensures { ReadsAs (λ text. string_bytes text) result (option_map spec.layout_text (layout_of (view v.now))) }
{
    let (table, types) = listing_of_json(alloc, v)?;
    let mut text = String::new(alloc);
    print_types(&mut text, &table, &types)?;
    print_funcs(&mut text, &table)?;
    Ok(text)
}

fn print_types(
    text: &mut String,
    table: &ComponentTypes,
    types: &[InterfaceType],
) -> Result<(), AllocError>
    requires { All (Knows table.now) types.now }
    ensures { OnOk result (string_bytes text.new ≡ string_bytes text.old ++ spec.type_lines table.now 0 types.now) }
{
    for (i, ty) in types.iter().enumerate() {
        print_type(text, table, i, ty)?;
    }
    Ok(())
}

fn print_type(
    text: &mut String,
    table: &ComponentTypes,
    i: usize,
    ty: &InterfaceType,
) -> Result<(), AllocError>
    requires { Knows table.now ty.now }
    ensures { OnOk result (string_bytes text.new ≡ string_bytes text.old ++ spec.type_line table.now i ty.now) }
{
    write!(text, "type {i} ")?;
    text.push_str(type_word(ty))?;
    print_numbers(text, table, ty)?;
    print_parts(text, table, ty)?;
    text.push_str("\n")
}

#[tactic(auto, using(crate::proofs::Told::flat_told, crate::proofs::Told::flat_untold))]
fn print_numbers(
    text: &mut String,
    table: &ComponentTypes,
    ty: &InterfaceType,
) -> Result<(), AllocError>
    requires { Knows table.now ty.now }
    ensures { OnOk result (string_bytes text.new ≡ string_bytes text.old ++ spec.numbers_text (shape_of table.now ty.now)) }
{
    let abi = table.canonical_abi(ty);
    let size = abi.size(false);
    let align = abi.align(false);
    write!(text, " size {size} align {align} flat ")?;
    match abi.flat {
        Some(flat) => write!(text, "{flat}"),
        None => text.push_str("-"),
    }
}

/// Where the parts of a record, a tuple or a variant stand.
fn print_parts(
    text: &mut String,
    table: &ComponentTypes,
    ty: &InterfaceType,
) -> Result<(), AllocError>
    requires { Knows table.now ty.now }
    ensures { OnOk result (string_bytes text.new ≡ string_bytes text.old ++ spec.parts_text (shape_of table.now ty.now)) }
{
    match ty {
        InterfaceType::Record(i) => print_fields(text, table, &table.record(*i).fields),
        InterfaceType::Tuple(i) => print_members(text, table, &table.tuple(*i).types),
        InterfaceType::Variant(i) => print_cases(text, &table.variant(*i).info),
        InterfaceType::Enum(i) => print_cases(text, &table.enum_(*i).info),
        InterfaceType::Option(i) => print_cases(text, &table.option(*i).info),
        InterfaceType::Result(i) => print_cases(text, &table.result(*i).info),
        InterfaceType::List(i) => {
            let _list = table.list(*i); // the type at this index is a list
            Ok(())
        }
        InterfaceType::Map(i) => {
            let _map = table.map(*i); // the type at this index is a map
            Ok(())
        }
        InterfaceType::Flags(i) => {
            let _flags = table.flags(*i); // the type at this index is flags
            Ok(())
        }
        InterfaceType::FixedLengthList(i) => {
            // the type at this index is a fixed-length list
            let _list = table.fixed_length_list(*i);
            Ok(())
        }
        _ => Ok(()),
    }
}

/// Where each field begins.
fn print_fields(
    text: &mut String,
    table: &ComponentTypes,
    fields: &[RecordField],
) -> Result<(), AllocError>
    requires known { All (Knows table.now) (parts (fields_type fields.now)) }
    requires fits { members_end false 0 (field_members table.now fields.now) < 2 ^ 32 }
    ensures { OnOk result (string_bytes text.new ≡ string_bytes text.old ++ codes " at" ++ spec.offsets_text 0 (field_members table.now fields.now)) }
{
    text.push_str(" at")?;
    let mut end = 0u64;
    for field in fields {
        let start = table.canonical_abi(&field.ty).next_field32_size(&mut end);
        write!(text, " {start}")?;
    }
    Ok(())
}

/// Where each member begins.
fn print_members(
    text: &mut String,
    table: &ComponentTypes,
    types: &[InterfaceType],
) -> Result<(), AllocError>
    requires known { All (Knows table.now) types.now }
    requires fits { members_end false 0 (members_of table.now types.now) < 2 ^ 32 }
    ensures { OnOk result (string_bytes text.new ≡ string_bytes text.old ++ codes " at" ++ spec.offsets_text 0 (members_of table.now types.now)) }
{
    text.push_str(" at")?;
    let mut end = 0u64;
    for ty in types {
        let start = table.canonical_abi(ty).next_field32_size(&mut end);
        write!(text, " {start}")?;
    }
    Ok(())
}

/// The discriminant's bytes, and where a payload begins.
fn print_cases(text: &mut String, info: &VariantInfo) -> Result<(), AllocError>
    ensures { (cases : Cases) → HasInfo info.now cases → OnOk result (string_bytes text.new ≡ string_bytes text.old ++ spec.cases_text cases) }
{
    let tag = info.size.byte_size();
    let payload = info.payload_offset(false);
    write!(text, " tag {tag} payload {payload}")
}

fn print_funcs(text: &mut String, table: &ComponentTypes) -> Result<(), AllocError>
    requires { length table.now.funcs ≤ MAX_FUNCS }
    ensures { OnOk result (string_bytes text.new ≡ string_bytes text.old ++ spec.func_lines table.now 0 table.now.funcs) }
{
    for i in 0..MAX_FUNCS {
        let func = TypeFuncIndex::from_u32(i);
        if !table.contains_func(func) {
            break;
        }
        print_func(text, table, func)?;
    }
    Ok(())
}

fn print_func(text: &mut String, table: &ComponentTypes, i: TypeFuncIndex) -> Result<(), AllocError>
    requires { HasFunc table.now i }
    ensures { OnOk result (IfSome (slice_get table.now.funcs i) (λ f. string_bytes text.new ≡ string_bytes text.old ++ spec.func_line table.now i f)) }
{
    let number = i.as_u32();
    let func = table.func(i);
    write!(text, "func {number} params ")?;
    let params = InterfaceType::Tuple(func.params);
    print_passed(text, table, &params, u64::from(MAX_FLAT_PARAMS))?;
    text.push_str(" results ")?;
    let results = InterfaceType::Tuple(func.results);
    print_passed(text, table, &results, u64::from(MAX_FLAT_RESULTS))?;
    text.push_str("\n")
}

/// How values of a type are passed where so many words go flat, which are at most 16.
fn print_passed(
    text: &mut String,
    table: &ComponentTypes,
    ty: &InterfaceType,
    most: u64,
) -> Result<(), AllocError>
    requires known { Knows table.now ty.now }
    requires few { most ≤ 16 }
    ensures { OnOk result (string_bytes text.new ≡ string_bytes text.old ++ spec.passed_text most (shape_of table.now ty.now)) }
{
    let abi = table.canonical_abi(ty);
    match abi.flat_count(most) {
        Some(flat) => write!(text, "flat {flat}"),
        None => {
            let size = abi.size(false);
            let align = abi.align(false);
            write!(text, "memory {size} {align}")
        }
    }
}
