//! Each kind of entry is found by its number, with the numbers of its layout.

use super::{add_variant, field, lies, names, resource};
use canon_types::{
    ComponentTypes, DiscriminantSize, InterfaceType, TypeBuilder, TypeEnumIndex,
    TypeFixedLengthListIndex, TypeFlagsIndex, TypeFuncIndex, TypeListIndex, TypeMapIndex,
    TypeOptionIndex, TypeRecordIndex, TypeResourceTableIndex, TypeResultIndex, TypeTupleIndex,
    TypeVariantIndex,
};
use std::alloc::Global;

/// What one function tells of a table of types, to which another adds the types.
fn with_types<
    A: Copy,
    R: Copy,
    F: FnOnce(Global, &mut TypeBuilder) -> Option<A>,
    L: FnOnce(&ComponentTypes, A) -> R,
>(alloc: Global, add: F, tell: L) -> Option<R>
    requires add { F.IsAlwaysCallable add }
    requires tell { L.IsAlwaysCallable tell }
{
    let mut builder = TypeBuilder::new(alloc);
    let added = add(alloc, &mut builder)?;
    Some(tell(&builder.finish(), added))
}

/// Adds three of a list, and a map.
fn add_fixed_and_map(builder: &mut TypeBuilder, element: &InterfaceType) -> Option<()> {
    builder.add_fixed_length_list(*element, 3).ok()?;
    builder
        .add_map(InterfaceType::U8, InterfaceType::String)
        .ok()?;
    Some(())
}

/// Adds a list of u16, three of it, and a map. Gives the list.
fn add_lists(_alloc: Global, builder: &mut TypeBuilder) -> Option<InterfaceType> {
    let element = builder.add_list(InterfaceType::U16).ok()?;
    add_fixed_and_map(builder, &element)?;
    Some(element)
}

/// Whether the list is found, the three lists, the map, and no list by the map's number.
fn tell_lists(types: &ComponentTypes, element: InterfaceType) -> [bool; 4] {
    let past = InterfaceType::List(TypeListIndex::from_u32(2));
    [
        is_list(types, &element),
        is_fixed(types, &element),
        is_map(types),
        !types.contains(&past),
    ]
}

fn is_list(types: &ComponentTypes, element: &InterfaceType) -> bool {
    let list = TypeListIndex::from_u32(0);
    if !types.contains(&InterfaceType::List(list)) {
        return false;
    }
    *element == InterfaceType::List(list) && types.list(list).element == InterfaceType::U16
}

fn is_fixed(types: &ComponentTypes, element: &InterfaceType) -> bool {
    let fixed = TypeFixedLengthListIndex::from_u32(1);
    if !types.contains(&InterfaceType::FixedLengthList(fixed)) {
        return false;
    }
    let three = types.fixed_length_list(fixed);
    (three.element, three.size) == (*element, 3) && lies(&three.abi, 24, 4, Some(6))
}

fn is_map(types: &ComponentTypes) -> bool {
    let map = TypeMapIndex::from_u32(2);
    if !types.contains(&InterfaceType::Map(map)) {
        return false;
    }
    let pairs = types.map(map);
    (pairs.key, pairs.value) == (InterfaceType::U8, InterfaceType::String)
        && (pairs.entry_abi.size32, pairs.value_offset32) == (12, 4)
        && (pairs.entry_abi.size64, pairs.value_offset64) == (24, 8)
}

#[test]
fn elements_of_lists_are_found(rt: HostRuntime) {
    assert!(rt; with_types(rt.alloc(), add_lists, tell_lists) == Some([true; 4]));
}

/// Adds a tuple of two members, a record of a field, and nine flags.
fn add_members(alloc: Global, builder: &mut TypeBuilder) -> Option<()> {
    let members = [InterfaceType::U8, InterfaceType::U64].to_vec(alloc).ok()?;
    builder.add_tuple(members).ok()?;
    let score = field(alloc, "score", InterfaceType::U32)?;
    let fields = vec![in alloc; score].ok()?;
    builder.add_record(fields).ok()?;
    builder.add_flags(names(alloc, 9)?).ok()?;
    Some(())
}

/// Whether the tuple is found, the record, and the flags.
fn tell_members(types: &ComponentTypes, _added: ()) -> [bool; 3] {
    [is_pair(types), is_record(types), is_flags(types)]
}

fn is_pair(types: &ComponentTypes) -> bool {
    let tuple = TypeTupleIndex::from_u32(0);
    if !types.contains(&InterfaceType::Tuple(tuple)) {
        return false;
    }
    let pair = types.tuple(tuple);
    pair.types.len() == 2 && lies(&pair.abi, 16, 8, Some(2))
}

fn is_record(types: &ComponentTypes) -> bool {
    let record = TypeRecordIndex::from_u32(1);
    if !types.contains(&InterfaceType::Record(record)) {
        return false;
    }
    let score = types.record(record);
    score.fields.len() == 1 && lies(&score.abi, 4, 4, Some(1))
}

fn is_flags(types: &ComponentTypes) -> bool {
    let flags = TypeFlagsIndex::from_u32(2);
    if !types.contains(&InterfaceType::Flags(flags)) {
        return false;
    }
    let nine = types.flags(flags);
    nine.names.len() == 9 && lies(&nine.abi, 2, 2, Some(1))
}

#[test]
fn members_and_fields_are_found(rt: HostRuntime) {
    assert!(rt; with_types(rt.alloc(), add_members, tell_members) == Some([true; 3]));
}

/// Adds a variant, an enum of 257 names, an option and a result.
fn add_cases(alloc: Global, builder: &mut TypeBuilder) -> Option<()> {
    add_variant(alloc, builder)?;
    builder.add_enum(names(alloc, 257)?).ok()?;
    builder.add_option(InterfaceType::Char).ok()?;
    builder
        .add_result(Some(InterfaceType::U64), Some(InterfaceType::String))
        .ok()?;
    Some(())
}

/// Whether the variant is found, the enum, the option, and the result.
fn tell_cases(types: &ComponentTypes, _added: ()) -> [bool; 4] {
    [
        is_variant(types),
        is_enum(types),
        is_option(types),
        is_result(types),
    ]
}

fn is_variant(types: &ComponentTypes) -> bool {
    let variant = TypeVariantIndex::from_u32(0);
    if !types.contains(&InterfaceType::Variant(variant)) {
        return false;
    }
    let two = types.variant(variant);
    two.cases.len() == 2 && two.info.payload_offset32 == 8
}

fn is_enum(types: &ComponentTypes) -> bool {
    let enumeration = TypeEnumIndex::from_u32(1);
    if !types.contains(&InterfaceType::Enum(enumeration)) {
        return false;
    }
    let names = types.enum_(enumeration);
    names.names.len() == 257 && names.info.size == DiscriminantSize::Size2
}

fn is_option(types: &ComponentTypes) -> bool {
    let option = TypeOptionIndex::from_u32(2);
    if !types.contains(&InterfaceType::Option(option)) {
        return false;
    }
    let maybe = types.option(option);
    maybe.ty == InterfaceType::Char
        && (
            maybe.abi.size32,
            maybe.abi.flat,
            maybe.info.payload_offset32,
        ) == (8, Some(2), 4)
}

fn is_result(types: &ComponentTypes) -> bool {
    let result = TypeResultIndex::from_u32(3);
    if !types.contains(&InterfaceType::Result(result)) {
        return false;
    }
    let outcome = types.result(result);
    (outcome.ok, outcome.err) == (Some(InterfaceType::U64), Some(InterfaceType::String))
        && (
            outcome.abi.size32,
            outcome.abi.flat,
            outcome.info.payload_offset32,
        ) == (16, Some(3), 8)
        && (outcome.abi.size64, outcome.info.payload_offset64) == (24, 8)
}

#[test]
fn cases_and_their_payloads_are_found(rt: HostRuntime) {
    assert!(rt; with_types(rt.alloc(), add_cases, tell_cases) == Some([true; 4]));
}

/// A resource type and a function type.
type Entries = (TypeResourceTableIndex, TypeFuncIndex);

/// Adds a resource type, and an async function that takes an own handle of it and a string and gives a bool.
fn add_function(alloc: Global, builder: &mut TypeBuilder) -> Option<Entries> {
    let table = builder.add_resource_table(resource(7)).ok()?;
    let own = builder.add_own(table).ok()?;
    let params = [own, InterfaceType::String].to_vec(alloc).ok()?;
    let results = [InterfaceType::Bool].to_vec(alloc).ok()?;
    let func = builder.add_func(params, results, true).ok()?;
    Some((table, func))
}

/// Whether the resource type is found, the function with its tuples, and no second function.
fn tell_functions(types: &ComponentTypes, added: Entries) -> [bool; 3] {
    let (table, func) = added;
    let own = InterfaceType::Own(table);
    [
        types.contains(&own) && types.resource_table(table) == &resource(7),
        is_signature(types, func),
        !types.contains_func(TypeFuncIndex::from_u32(1)),
    ]
}

fn is_signature(types: &ComponentTypes, func: TypeFuncIndex) -> bool {
    if !types.contains_func(func) {
        return false;
    }
    let signature = types.func(func);
    let (params, results) = (
        types.tuple(signature.params),
        types.tuple(signature.results),
    );
    signature.async_ && params.abi.flat == Some(3) && results.types.len() == 1
}

#[test]
fn functions_and_resource_tables_are_found(rt: HostRuntime) {
    assert!(rt; with_types(rt.alloc(), add_function, tell_functions) == Some([true; 3]));
}
