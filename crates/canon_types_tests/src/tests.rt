//! Types that are added to a table, and types that are refused. One function owns each table, and gives back small values that a test asserts
//! on.

mod look_ups;
mod same;

use canon_types::{
    CanonicalAbiInfo, ComponentTypes, InstanceType, InterfaceType, RecordField, ResourceKind,
    RuntimeInstance, StoreId, TypeBuilder, TypeError, TypeResourceTable, TypeResourceTableIndex,
    TypeTupleIndex,
};
use std::alloc::Global;

fn names(alloc: Global, count: u32) -> Option<Vec<String>> {
    let mut names = Vec::new(alloc);
    for i in 0..count {
        let name = format!(in alloc; "{i}").ok()?;
        names.push(name).ok()?;
    }
    Some(names)
}

fn name(alloc: Global, text: &str) -> Option<String> {
    String::from_str(alloc, text).ok()
}

fn field(alloc: Global, text: &str, ty: InterfaceType) -> Option<RecordField> {
    let name = name(alloc, text)?;
    Some(RecordField { name, ty })
}

/// Whether a type has these numbers.
fn lies(abi: &CanonicalAbiInfo, size: u32, align: u32, flat: Option<u8>) -> bool {
    (abi.size32, abi.align32, abi.flat) == (size, align, flat)
}

/// Whether a type has these numbers where pointers have 64 bits.
fn lies_wide(abi: &CanonicalAbiInfo, size: u32, align: u32) -> bool {
    (abi.size64, abi.align64) == (size, align)
}

/// The size of a type. None where it isn't of the table.
fn size_of(types: &ComponentTypes, ty: &InterfaceType) -> Option<u32> {
    if !types.contains(ty) {
        return None;
    }
    Some(types.canonical_abi(ty).size32)
}

/// The size of an enum of so many names.
fn enum_size(alloc: Global, count: u32) -> Option<u32> {
    let names = names(alloc, count)?;
    let mut builder = TypeBuilder::new(alloc);
    let ty = builder.add_enum(names).ok()?;
    size_of(&builder.finish(), &ty)
}

#[test]
fn discriminants_of_enums_have_1_2_or_4_bytes(rt: HostRuntime) {
    // By CanonicalABI.md's discriminant_type: one byte up to 2^8 cases, two up to 2^16, else four.
    for (count, size) in [(256, 1), (257, 2), (65_536, 2), (65_537, 4)] {
        assert!(rt; enum_size(rt.alloc(), count) == Some(size), "{count}");
    }
}

/// What a type that is added answers.
type Added = Result<InterfaceType, TypeError>;

/// What an enum and flags of so many names answer.
fn add_names(alloc: Global, enum_count: u32, flag_count: u32) -> Option<[Added; 2]> {
    let cases = names(alloc, enum_count)?;
    let flags = names(alloc, flag_count)?;
    let mut builder = TypeBuilder::new(alloc);
    Some([builder.add_enum(cases), builder.add_flags(flags)])
}

/// Whether an enum of so many names is added.
fn has_room(alloc: Global, count: u32) -> Option<bool> {
    let names = names(alloc, count)?;
    Some(TypeBuilder::new(alloc).add_enum(names).is_ok())
}

#[test]
fn a_large_enum_is_added_and_one_name_more_is_too_many(rt: HostRuntime) {
    let alloc = rt.alloc();
    assert!(rt; has_room(alloc, 1_048_576) == Some(true));
    assert!(rt; add_names(alloc, 1_048_577, 8_161) == Some([Err(TypeError::TooManyNames); 2]));
}

/// What a list of a type that isn't there, an own handle of one and an empty tuple answer.
fn add_nothings(alloc: Global) -> [Added; 3] {
    let unknown = InterfaceType::Tuple(TypeTupleIndex::from_u32(5));
    let mut builder = TypeBuilder::new(alloc);
    [
        builder.add_list(unknown),
        builder.add_own(TypeResourceTableIndex::from_u32(0)),
        builder.add_tuple(Vec::new(alloc)),
    ]
}

#[test]
fn a_type_of_no_table_and_an_empty_type_are_refused(rt: HostRuntime) {
    let refused = [
        Err(TypeError::UnknownIndex),
        Err(TypeError::UnknownIndex),
        Err(TypeError::Empty),
    ];
    assert!(rt; add_nothings(rt.alloc()) == refused);
}

fn same_names(alloc: Global) -> Option<Vec<String>> {
    let first = name(alloc, "a")?;
    let second = name(alloc, "a")?;
    vec![in alloc; first, second].ok()
}

fn same_fields(alloc: Global) -> Option<Vec<RecordField>> {
    let first = field(alloc, "a", InterfaceType::U8)?;
    let second = field(alloc, "a", InterfaceType::U8)?;
    vec![in alloc; first, second].ok()
}

/// What an enum and a record answer that have a name twice.
fn add_repeated(alloc: Global) -> Option<[Added; 2]> {
    let names = same_names(alloc)?;
    let fields = same_fields(alloc)?;
    let mut builder = TypeBuilder::new(alloc);
    Some([builder.add_enum(names), builder.add_record(fields)])
}

#[test]
fn a_repeated_name_is_refused(rt: HostRuntime) {
    assert!(rt; add_repeated(rt.alloc()) == Some([Err(TypeError::RepeatedName); 2]));
}

/// 99 lists, each of the one before.
fn nested_list(builder: &mut TypeBuilder) -> Option<InterfaceType> {
    let mut ty = InterfaceType::U8;
    for _ in 0..99 {
        ty = builder.add_list(ty).ok()?;
    }
    Some(ty)
}

/// What a list of such a list answers.
fn add_hundredth_list(alloc: Global) -> Option<Added> {
    let mut builder = TypeBuilder::new(alloc);
    let ty = nested_list(&mut builder)?;
    Some(builder.add_list(ty))
}

#[test]
fn the_hundredth_nested_list_is_too_deep(rt: HostRuntime) {
    assert!(rt; add_hundredth_list(rt.alloc()) == Some(Err(TypeError::TooDeep)));
}

/// The size of the largest list of u64 of fixed length, and what a longer one answers.
fn add_fixed_length_lists(alloc: Global) -> Option<(Option<u32>, Added)> {
    let mut builder = TypeBuilder::new(alloc);
    let ty = builder.add_fixed_length_list(InterfaceType::U64, 536_870_911);
    let larger = builder.add_fixed_length_list(InterfaceType::U64, 536_870_912);
    Some((size_of(&builder.finish(), &ty.ok()?), larger))
}

#[test]
fn a_fixed_length_list_past_32_bits_is_too_large(rt: HostRuntime) {
    let size = Some(4_294_967_288);
    assert!(rt; add_fixed_length_lists(rt.alloc()) == Some((size, Err(TypeError::SizeTooLarge))));
}

/// What a list of so many texts of fixed length answers.
fn add_texts(alloc: Global, count: u32) -> Added {
    TypeBuilder::new(alloc).add_fixed_length_list(InterfaceType::String, count)
}

#[test]
fn a_fixed_length_list_is_too_large_by_its_size_with_pointers_of_64_bits(rt: HostRuntime) {
    // A text takes 8 bytes, or 16 where pointers have 64 bits: 300,000,000 of them take 2,400,000,000 or 4,800,000,000.
    let alloc = rt.alloc();
    assert!(rt; add_texts(alloc, 300_000_000) == Err(TypeError::SizeTooLarge));
    assert!(rt; add_texts(alloc, 268_435_456) == Err(TypeError::SizeTooLarge));
    assert!(rt; add_texts(alloc, 268_435_455).is_ok());
}

fn resource(instance: u32) -> TypeResourceTable {
    TypeResourceTable {
        instance: RuntimeInstance::from_u32(instance),
        kind: ResourceKind::Host(1),
        defined_here: false,
    }
}

/// A list of borrows of a resource of the last instance.
fn borrow_list(builder: &mut TypeBuilder) -> Option<InterfaceType> {
    let table = builder.add_resource_table(resource(255)).ok()?;
    let borrow = builder.add_borrow(table).ok()?;
    builder.add_list(borrow).ok()
}

/// One type.
fn one(alloc: Global, ty: &InterfaceType) -> Option<Vec<InterfaceType>> {
    vec![in alloc; *ty].ok()
}

/// What a function with such a list as its result answers, whether one is added with the list as its parameter, and what a resource of one
/// instance more answers.
fn add_borrows(
    alloc: Global,
    builder: &mut TypeBuilder,
) -> Option<(Option<TypeError>, bool, Option<TypeError>)> {
    let list = borrow_list(builder)?;
    let results = one(alloc, &list)?;
    let params = one(alloc, &list)?;
    let deep = builder.add_func(Vec::new(alloc), results, false).err();
    let is_taken = builder.add_func(params, Vec::new(alloc), false).is_ok();
    let large = builder.add_resource_table(resource(256)).err();
    Some((deep, is_taken, large))
}

#[test]
fn a_function_answers_no_borrow(rt: HostRuntime) {
    let alloc = rt.alloc();
    let told = add_borrows(alloc, &mut TypeBuilder::new(alloc));
    let (deep, large) = (TypeError::BorrowInResult, TypeError::TooManyTypes);
    assert!(rt; told == Some((Some(deep), true, Some(large))));
}

/// Adds a record of a name and a score.
fn add_record(alloc: Global, builder: &mut TypeBuilder) -> Option<InterfaceType> {
    let name = field(alloc, "name", InterfaceType::String)?;
    let score = field(alloc, "score", InterfaceType::U32)?;
    let fields = vec![in alloc; name, score].ok()?;
    builder.add_record(fields).ok()
}

/// Adds a variant of two cases, of which the second has a u64.
fn add_variant(alloc: Global, builder: &mut TypeBuilder) -> Option<InterfaceType> {
    let none = name(alloc, "none")?;
    let some = name(alloc, "some")?;
    let cases = vec![in alloc; (none, None), (some, Some(InterfaceType::U64))].ok()?;
    builder.add_variant(cases).ok()
}

/// Adds a record, a variant, a map, an option, a result, flags, a tuple and own handles.
fn add_kinds(alloc: Global, builder: &mut TypeBuilder) -> Option<[InterfaceType; 8]> {
    let record = add_record(alloc, builder)?;
    let variant = add_variant(alloc, builder)?;
    let map = builder.add_map(InterfaceType::U8, InterfaceType::String);
    let option = builder.add_option(InterfaceType::Char);
    let outcome = builder.add_result(Some(InterfaceType::U8), None);
    let flags = builder.add_flags(names(alloc, 33)?);
    let members = [record, variant, InterfaceType::Bool].to_vec(alloc).ok()?;
    let tuple = builder.add_tuple(members);
    let table = builder.add_resource_table(resource(0)).ok()?;
    let own = builder.add_own(table);
    Some([
        record,
        variant,
        map.ok()?,
        option.ok()?,
        outcome.ok()?,
        flags.ok()?,
        tuple.ok()?,
        own.ok()?,
    ])
}

/// The sizes, alignments and words of these kinds.
const KINDS: [(u32, u32, Option<u8>); 8] = [
    (12, 4, Some(3)),
    (16, 8, Some(2)),
    (8, 4, Some(2)),
    (8, 4, Some(2)),
    (2, 1, Some(2)),
    (8, 4, Some(2)),
    (40, 8, Some(6)),
    (4, 4, Some(1)),
];

/// Their sizes and alignments where pointers have 64 bits.
const WIDE_KINDS: [(u32, u32); 8] = [
    (24, 8),
    (16, 8),
    (16, 8),
    (8, 4),
    (2, 1),
    (8, 4),
    (48, 8),
    (4, 4),
];

/// How many of these types, from the first on, have their numbers.
fn count_told(types: &ComponentTypes, kinds: &[InterfaceType; 8]) -> usize {
    for (k, (size, align, flat)) in KINDS.iter().enumerate() {
        let ty = &kinds[k];
        if !types.contains(ty) {
            return k;
        }
        let abi = types.canonical_abi(ty);
        let (wide_size, wide_align) = WIDE_KINDS[k];
        if !lies(abi, *size, *align, *flat) || !lies_wide(abi, wide_size, wide_align) {
            return k;
        }
    }
    8
}

/// How many of the kinds have their numbers, and whether the types of an instance have the first.
fn kinds_told(alloc: Global) -> Option<(usize, bool)> {
    let mut builder = TypeBuilder::new(alloc);
    let kinds = add_kinds(alloc, &mut builder)?;
    let types = builder.finish();
    let count = count_told(&types, &kinds);
    let instance = InstanceType::new(types, StoreId::from_u64(7));
    Some((count, instance.types().contains(&kinds[0])))
}

#[test]
fn each_kind_is_added_with_its_numbers(rt: HostRuntime) {
    assert!(rt; kinds_told(rt.alloc()) == Some((8, true)));
}
