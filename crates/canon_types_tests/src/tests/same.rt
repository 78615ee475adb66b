//! Types of two components, which are the same or differ in one thing. One function owns both tables.

use super::{add_kinds, field, name, names, one};
use canon_same::{is_same, is_same_func};
use canon_types::{
    InstanceType, InterfaceType, ResourceKind, RuntimeInstance, StoreId, TypeBuilder,
    TypeFuncIndex, TypeResourceTable, TypeResourceTableIndex,
};
use std::alloc::Global;

/// The types of a store of this number.
fn in_store(builder: TypeBuilder, store: u64) -> InstanceType {
    InstanceType::new(builder.finish(), StoreId::from_u64(store))
}

/// Whether the types that the two add, each to a table of its own, are the same. The second table has a list before them.
fn compare<
    F: FnOnce(Global, &mut TypeBuilder) -> Option<InterfaceType>,
    L: FnOnce(Global, &mut TypeBuilder) -> Option<InterfaceType>,
>(alloc: Global, add: F, add_other: L) -> Option<bool>
    requires add { F.IsAlwaysCallable add }
    requires add_other { L.IsAlwaysCallable add_other }
{
    let mut builder = TypeBuilder::new(alloc);
    let ty = add(alloc, &mut builder)?;
    let read = in_store(builder, 0);
    let mut builder = TypeBuilder::new(alloc);
    builder.add_list(InterfaceType::Bool).ok()?;
    let other = add_other(alloc, &mut builder)?;
    let written = in_store(builder, 1);
    tell(&read, &ty, &written, &other)
}

/// Whether two types are the same. None where one isn't of its table.
fn tell(
    read: &InstanceType,
    ty: &InterfaceType,
    written: &InstanceType,
    other: &InterfaceType,
) -> Option<bool> {
    if !read.types().contains(ty) || !written.types().contains(other) {
        return None;
    }
    Some(is_same(read, ty, written, other))
}

/// How many of eight kinds, from the first on, are the same in two tables, of which the second has a list before them.
fn count_same(alloc: Global) -> Option<usize> {
    let mut builder = TypeBuilder::new(alloc);
    let kinds = add_kinds(alloc, &mut builder)?;
    let read = in_store(builder, 0);
    let mut builder = TypeBuilder::new(alloc);
    builder.add_list(InterfaceType::Bool).ok()?;
    let others = add_kinds(alloc, &mut builder)?;
    let written = in_store(builder, 1);
    for (k, ty) in kinds.iter().enumerate() {
        if tell(&read, ty, &written, &others[k]) != Some(true) {
            return Some(k);
        }
    }
    Some(8)
}

#[test]
fn each_kind_is_the_same_in_another_table(rt: HostRuntime) {
    assert!(rt; count_same(rt.alloc()) == Some(8));
}

fn bytes(_alloc: Global, builder: &mut TypeBuilder) -> Option<InterfaceType> {
    builder.add_list(InterfaceType::U8).ok()
}

fn three_bytes(_alloc: Global, builder: &mut TypeBuilder) -> Option<InterfaceType> {
    builder.add_fixed_length_list(InterfaceType::U8, 3).ok()
}

fn four_bytes(_alloc: Global, builder: &mut TypeBuilder) -> Option<InterfaceType> {
    builder.add_fixed_length_list(InterfaceType::U8, 4).ok()
}

fn map(_alloc: Global, builder: &mut TypeBuilder) -> Option<InterfaceType> {
    builder
        .add_map(InterfaceType::U8, InterfaceType::String)
        .ok()
}

fn pair(alloc: Global, builder: &mut TypeBuilder) -> Option<InterfaceType> {
    let members = [InterfaceType::U8, InterfaceType::String];
    builder.add_tuple(members.to_vec(alloc).ok()?).ok()
}

fn pairs(alloc: Global, builder: &mut TypeBuilder) -> Option<InterfaceType> {
    let pair = pair(alloc, builder)?;
    builder.add_list(pair).ok()
}

fn maybe(_alloc: Global, builder: &mut TypeBuilder) -> Option<InterfaceType> {
    builder.add_option(InterfaceType::U8).ok()
}

/// A record of these two fields.
fn record(
    alloc: Global,
    builder: &mut TypeBuilder,
    first: (&str, InterfaceType),
    second: (&str, InterfaceType),
) -> Option<InterfaceType> {
    let one = field(alloc, first.0, first.1)?;
    let two = field(alloc, second.0, second.1)?;
    builder.add_record(vec![in alloc; one, two].ok()?).ok()
}

fn score(alloc: Global, builder: &mut TypeBuilder) -> Option<InterfaceType> {
    let (name, score) = (
        ("name", InterfaceType::String),
        ("score", InterfaceType::U32),
    );
    record(alloc, builder, name, score)
}

fn score_first(alloc: Global, builder: &mut TypeBuilder) -> Option<InterfaceType> {
    let (name, score) = (
        ("name", InterfaceType::String),
        ("score", InterfaceType::U32),
    );
    record(alloc, builder, score, name)
}

fn points(alloc: Global, builder: &mut TypeBuilder) -> Option<InterfaceType> {
    let (name, points) = (
        ("name", InterfaceType::String),
        ("points", InterfaceType::U32),
    );
    record(alloc, builder, name, points)
}

fn signed_score(alloc: Global, builder: &mut TypeBuilder) -> Option<InterfaceType> {
    let (name, score) = (
        ("name", InterfaceType::String),
        ("score", InterfaceType::S32),
    );
    record(alloc, builder, name, score)
}

#[test]
fn types_of_another_kind_or_length_differ(rt: HostRuntime) {
    let alloc = rt.alloc();
    assert!(rt; compare(alloc, three_bytes, three_bytes) == Some(true));
    assert!(rt; compare(alloc, three_bytes, four_bytes) == Some(false));
    assert!(rt; compare(alloc, bytes, three_bytes) == Some(false));
    assert!(rt; compare(alloc, map, map) == Some(true));
    // a map lies as a list of pairs does, and is another type
    assert!(rt; compare(alloc, map, pairs) == Some(false));
    assert!(rt; compare(alloc, bytes, maybe) == Some(false));
}

#[test]
fn records_with_another_name_type_or_order_differ(rt: HostRuntime) {
    let alloc = rt.alloc();
    assert!(rt; compare(alloc, score, score) == Some(true));
    assert!(rt; compare(alloc, score, points) == Some(false));
    assert!(rt; compare(alloc, score, signed_score) == Some(false));
    assert!(rt; compare(alloc, score, score_first) == Some(false));
}

/// An enum of so many names, or flags of them.
fn named(
    alloc: Global,
    builder: &mut TypeBuilder,
    count: u32,
    is_enum: bool,
) -> Option<InterfaceType> {
    let names = names(alloc, count)?;
    if is_enum {
        builder.add_enum(names).ok()
    } else {
        builder.add_flags(names).ok()
    }
}

fn two_names(alloc: Global, builder: &mut TypeBuilder) -> Option<InterfaceType> {
    named(alloc, builder, 2, true)
}

fn three_names(alloc: Global, builder: &mut TypeBuilder) -> Option<InterfaceType> {
    named(alloc, builder, 3, true)
}

fn two_flags(alloc: Global, builder: &mut TypeBuilder) -> Option<InterfaceType> {
    named(alloc, builder, 2, false)
}

/// A variant of two cases of these names, of which the second has a payload or none.
fn variant(
    alloc: Global,
    builder: &mut TypeBuilder,
    payload: Option<InterfaceType>,
) -> Option<InterfaceType> {
    let none = name(alloc, "0")?;
    let some = name(alloc, "1")?;
    let cases = vec![in alloc; (none, None), (some, payload)].ok()?;
    builder.add_variant(cases).ok()
}

fn bare_variant(alloc: Global, builder: &mut TypeBuilder) -> Option<InterfaceType> {
    variant(alloc, builder, None)
}

fn variant_of_a_byte(alloc: Global, builder: &mut TypeBuilder) -> Option<InterfaceType> {
    variant(alloc, builder, Some(InterfaceType::U8))
}

fn ok_byte(_alloc: Global, builder: &mut TypeBuilder) -> Option<InterfaceType> {
    builder.add_result(Some(InterfaceType::U8), None).ok()
}

fn failed_byte(_alloc: Global, builder: &mut TypeBuilder) -> Option<InterfaceType> {
    builder.add_result(None, Some(InterfaceType::U8)).ok()
}

#[test]
fn types_with_another_case_or_payload_differ(rt: HostRuntime) {
    let alloc = rt.alloc();
    assert!(rt; compare(alloc, two_names, two_names) == Some(true));
    assert!(rt; compare(alloc, two_names, three_names) == Some(false));
    assert!(rt; compare(alloc, two_names, two_flags) == Some(false));
    // an enum lies as a variant without payloads does, and is another type
    assert!(rt; compare(alloc, two_names, bare_variant) == Some(false));
    assert!(rt; compare(alloc, bare_variant, variant_of_a_byte) == Some(false));
    assert!(rt; compare(alloc, variant_of_a_byte, variant_of_a_byte) == Some(true));
    assert!(rt; compare(alloc, ok_byte, failed_byte) == Some(false));
}

/// An own handle of a resource of this kind, whose table is the second.
fn own_of(builder: &mut TypeBuilder, kind: ResourceKind) -> Option<InterfaceType> {
    for instance in [1, 2] {
        builder
            .add_resource_table(TypeResourceTable {
                instance: RuntimeInstance::from_u32(instance),
                kind,
                defined_here: false,
            })
            .ok()?;
    }
    builder.add_own(TypeResourceTableIndex::from_u32(1)).ok()
}

/// Whether own handles of resources of these kinds are the same in stores of these numbers.
fn compare_owns(alloc: Global, kinds: [ResourceKind; 2], stores: [u64; 2]) -> Option<bool> {
    let mut builder = TypeBuilder::new(alloc);
    let ty = own_of(&mut builder, kinds[0])?;
    let read = in_store(builder, stores[0]);
    let mut builder = TypeBuilder::new(alloc);
    let other = own_of(&mut builder, kinds[1])?;
    let written = in_store(builder, stores[1]);
    tell(&read, &ty, &written, &other)
}

#[test]
fn own_handles_are_the_same_by_the_types_of_their_resources(rt: HostRuntime) {
    let alloc = rt.alloc();
    let (host, dynamic) = (ResourceKind::Host(1), ResourceKind::HostDynamic(1));
    let guest = ResourceKind::Guest { id: 1, dtor: None };
    assert!(rt; compare_owns(alloc, [host, host], [0, 1]) == Some(true));
    assert!(rt; compare_owns(alloc, [dynamic, dynamic], [0, 1]) == Some(true));
    assert!(rt; compare_owns(alloc, [host, ResourceKind::Host(2)], [0, 1]) == Some(false));
    assert!(rt; compare_owns(alloc, [host, dynamic], [0, 1]) == Some(false));
    // what an instance defines is of its store
    assert!(rt; compare_owns(alloc, [guest, guest], [0, 1]) == Some(false));
    assert!(rt; compare_owns(alloc, [guest, guest], [3, 3]) == Some(true));
}

/// Adds a function from one type to another.
fn func(
    alloc: Global,
    builder: &mut TypeBuilder,
    types: [InterfaceType; 2],
    async_: bool,
) -> Option<TypeFuncIndex> {
    let params = one(alloc, &types[0])?;
    let results = one(alloc, &types[1])?;
    builder.add_func(params, results, async_).ok()
}

/// Whether a function from a text to a byte is the same as another.
fn compare_funcs(alloc: Global, types: [InterfaceType; 2], async_: bool) -> Option<bool> {
    let mut builder = TypeBuilder::new(alloc);
    let text_to_byte = [InterfaceType::String, InterfaceType::U8];
    let index = func(alloc, &mut builder, text_to_byte, false)?;
    let read = in_store(builder, 0);
    let mut builder = TypeBuilder::new(alloc);
    let other = func(alloc, &mut builder, types, async_)?;
    let written = in_store(builder, 1);
    if !read.types().contains_func(index) || !written.types().contains_func(other) {
        return None;
    }
    let (func, other) = (read.types().func(index), written.types().func(other));
    Some(is_same_func(&read, func, &written, other))
}

#[test]
fn functions_are_the_same_by_their_parameters_and_results(rt: HostRuntime) {
    let alloc = rt.alloc();
    let same = compare_funcs(alloc, [InterfaceType::String, InterfaceType::U8], false);
    let same_async = compare_funcs(alloc, [InterfaceType::String, InterfaceType::U8], true);
    let other_params = compare_funcs(alloc, [InterfaceType::U8, InterfaceType::U8], false);
    let other_results = compare_funcs(alloc, [InterfaceType::String, InterfaceType::String], false);
    assert!(rt; same == Some(true) && same_async == Some(true));
    assert!(rt; other_params == Some(false) && other_results == Some(false));
}

/// 49 tuples, each of two lists of the one before: written out, the last has 2^49 bytes.
fn doubled(alloc: Global, builder: &mut TypeBuilder) -> Option<InterfaceType> {
    let mut ty = InterfaceType::U8;
    for _ in 0..49 {
        let list = builder.add_list(ty).ok()?;
        let members = [list, list];
        ty = builder.add_tuple(members.to_vec(alloc).ok()?).ok()?;
    }
    Some(ty)
}

#[test]
fn types_that_are_shared_are_compared_once(rt: HostRuntime) {
    assert!(rt; compare(rt.alloc(), doubled, doubled) == Some(true));
}
