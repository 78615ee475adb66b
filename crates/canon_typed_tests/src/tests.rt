//! Each Rust type once: its numbers, its size in the host, and the component types that are its own. One function owns each table of types, and
//! gives back what another tells of it. Each test compares what is told at once.

ghost use Rattle.std.specs.Prelude.{◌≡◌, IfSome, slice_set};
ghost use Rattle.canon_types.specs.Table.{Knows};

use canon_resources::{HostResource, HostResourceType, Resource, ResourceAny, ResourceDynamic};
use canon_typed::{
    ComponentType, ComponentVariant, FixedList, Float32Bits, Float64Bits, TypecheckFailed,
    typecheck_record,
};
use canon_types::{
    DiscriminantSize, HostType, InstanceType, InterfaceType, RecordField, ResourceKind,
    ResourceType, RuntimeInstance, StoreId, TypeBuilder, TypeResourceTable,
};
use std::alloc::Global;
use std::collections::HashMap;

struct Door;

impl HostType for Door {
    ghost ID = { 7 };

    const ID: u32 = 7;
}

struct Window;

impl HostType for Window {
    ghost ID = { 8 };

    const ID: u32 = 8;
}

/// The kind of the resources that are doors.
struct Doors;

impl HostResourceType<()> for Doors {
    ghost use Rattle.canon_types.specs.declared.resource.ResourceType.TheVariants.{Host};
    ghost use Rattle.canon_resources.specs.Types.{as_host};
    ghost use Rattle.canon_resources.specs.TypeLaws.{as_host_its, as_host_no_other};

    ghost checked = { as_host 7 };

    ghost type_of = { λ d. Host 7 };

    ghost its_types_pass = { λ d. as_host_its 7 };

    ghost no_others_pass = { λ ty d e. as_host_no_other 7 ty d e };

    fn typecheck(ty: ResourceType) -> Option<()> {
        if ty.is_host::<Door>() { Some(()) } else { None }
    }

    fn resource_type(_: ()) -> ResourceType {
        ResourceType::host::<Door>()
    }
}

/// Whether a type has these numbers.
fn lies<T: ComponentType>(size: u32, align: u32, flat: Option<u8>) -> bool {
    match T::abi() {
        Some(abi) => { abi.size32 == size && abi.align32 == align && T::flatten_count() == flat }
        None => false,
    }
}

/// Whether a type has these numbers where pointers have 64 bits.
fn lies_wide<T: ComponentType>(size: u32, align: u32) -> bool {
    match T::abi() {
        Some(abi) => abi.size64 == size && abi.align64 == align,
        None => false,
    }
}

/// Whether a component type of the table is the Rust type's.
fn passes<T: ComponentType>(ty: &InterfaceType, types: &InstanceType) -> bool {
    types.types().contains(ty) && T::typecheck(ty, types).is_ok()
}

/// Whether it is refused.
fn fails<T: ComponentType>(ty: &InterfaceType, types: &InstanceType) -> bool {
    types.types().contains(ty) && T::typecheck(ty, types) == Err(TypecheckFailed)
}

/// The bytes of a value in the host.
fn host<T: ComponentType>() -> u64 {
    T::host_size()
}

/// Whether the constants are these, and the call says the same of the unit.
fn tells<T: ComponentType>(is_unit: bool, may_require_realloc: bool) -> bool {
    T::IS_RUST_UNIT_TYPE == is_unit
        && T::is_unit_type() == is_unit
        && T::MAY_REQUIRE_REALLOC == may_require_realloc
}

/// Whether the discriminant has this size, and the payload begins there.
fn has_case<T: ComponentVariant>(size: DiscriminantSize, payload_offset: u32) -> bool {
    match T::info() {
        Some(info) => info.size == size && info.payload_offset32 == payload_offset,
        None => false,
    }
}

// Sizes, alignments and words by CanonicalABI.md's elem_size, alignment and flatten_type.
#[test]
fn scalars_have_the_numbers_of_their_component_types(rt: HostRuntime) {
    let narrow = [
        lies::<bool>(1, 1, Some(1)),
        lies::<i8>(1, 1, Some(1)),
        lies::<u8>(1, 1, Some(1)),
        lies::<i16>(2, 2, Some(1)),
        lies::<u16>(2, 2, Some(1)),
    ];
    let wide = [
        lies::<i32>(4, 4, Some(1)),
        lies::<u32>(4, 4, Some(1)),
        lies::<char>(4, 4, Some(1)),
        lies::<i64>(8, 8, Some(1)),
        lies::<u64>(8, 8, Some(1)),
        lies::<Float32Bits>(4, 4, Some(1)),
        lies::<Float64Bits>(8, 8, Some(1)),
    ];
    assert!(rt; (narrow, wide) == ([true; 5], [true; 7]));
}

#[test]
fn texts_lists_and_handles_have_the_numbers_of_their_component_types(rt: HostRuntime) {
    let pointers = [
        lies::<String>(8, 4, Some(2)),
        lies::<Vec<u64>>(8, 4, Some(2)),
        lies::<HashMap<u8, u64>>(8, 4, Some(2)),
    ];
    let handles = [
        lies::<ResourceAny>(4, 4, Some(1)),
        lies::<Resource<Door>>(4, 4, Some(1)),
        lies::<ResourceDynamic>(4, 4, Some(1)),
        lies::<HostResource<Doors, ()>>(4, 4, Some(1)),
    ];
    assert!(rt; (pointers, handles) == ([true; 3], [true; 4]));
}

#[test]
fn types_with_parts_have_the_numbers_of_their_component_types(rt: HostRuntime) {
    let cases = [
        lies::<Option<u64>>(16, 8, Some(2)),
        lies::<Option<u8>>(2, 1, Some(2)),
        lies::<Result<u8, String>>(12, 4, Some(3)),
        lies::<Result<(), u16>>(4, 2, Some(2)),
        lies::<Result<(), ()>>(1, 1, Some(1)),
    ];
    let tuples = [
        lies::<()>(0, 1, Some(0)),
        lies::<(u16,)>(2, 2, Some(1)),
        lies::<(u8, u32)>(8, 4, Some(2)),
        lies::<(u8, u32, u8)>(12, 4, Some(3)),
        lies::<(u8, u8, u16, u64)>(16, 8, Some(4)),
        lies::<(u8, u8, u8, u8, u8)>(5, 1, Some(5)),
        lies::<(String, String, u8, u8, u8, u8)>(20, 4, Some(8)),
    ];
    let others = [
        lies::<Box<u16>>(2, 2, Some(1)),
        lies::<&u16>(2, 2, Some(1)),
        lies::<FixedList<u16, 5>>(10, 2, Some(5)),
        lies::<FixedList<u8, 17>>(17, 1, None),
    ];
    assert!(rt; (cases, tuples, others) == ([true; 5], [true; 7], [true; 4]));
}

#[test]
fn types_have_larger_numbers_where_pointers_have_64_bits(rt: HostRuntime) {
    // A pointer and a length take 8 bytes each. What has no pointer has the same numbers.
    let pointers = [
        lies_wide::<String>(16, 8),
        lies_wide::<Vec<u64>>(16, 8),
        lies_wide::<HashMap<u8, u64>>(16, 8),
    ];
    let others = [
        lies_wide::<bool>(1, 1),
        lies_wide::<u64>(8, 8),
        lies_wide::<ResourceAny>(4, 4),
    ];
    let parts = [
        lies_wide::<Option<String>>(24, 8),
        lies_wide::<Result<u8, String>>(24, 8),
        lies_wide::<(String, u32)>(24, 8),
        lies_wide::<FixedList<String, 3>>(48, 8),
    ];
    assert!(rt; (pointers, others, parts) == ([true; 3], [true; 3], [true; 4]));
}

/// A list of 2^32 items of 8 bytes.
type TooLarge = FixedList<FixedList<u64, 65_536>, 65_536>;

#[test]
fn a_type_that_is_too_large_has_no_numbers(rt: HostRuntime) {
    let missing = [
        TooLarge::abi().is_none(),
        TooLarge::flatten_count().is_none(),
        Option::<TooLarge>::flatten_count().is_none(),
        Option::<TooLarge>::info().is_none(),
        Result::<u8, TooLarge>::info().is_none(),
    ];
    assert!(rt; missing == [true; 5]);
}

/// A list of 2^28 texts, which take 2^31 bytes, or 2^32 where pointers have 64 bits.
type ManyTexts = FixedList<FixedList<String, 65_536>, 4_096>;

#[test]
fn a_type_that_is_too_large_with_pointers_of_64_bits_has_no_numbers(rt: HostRuntime) {
    let missing = [
        ManyTexts::abi().is_none(),
        ManyTexts::flatten_count().is_none(),
        Option::<ManyTexts>::info().is_none(),
    ];
    assert!(rt; missing == [true; 3]);
}

#[test]
fn a_case_has_its_discriminant_and_its_payload_a_place(rt: HostRuntime) {
    let option = has_case::<Option<u64>>(DiscriminantSize::Size1, 8);
    let result = has_case::<Result<u16, ()>>(DiscriminantSize::Size1, 2);
    assert!(rt; (option, result) == (true, true));
}

// By the table of docs/TYPED.md: a text or a list has 24 bytes, a reference 8, a case 8 beside its larger payload.
#[test]
fn values_have_a_size_in_the_host(rt: HostRuntime) {
    let scalars = [
        host::<u8>(),
        host::<i16>(),
        host::<char>(),
        host::<Float64Bits>(),
        host::<bool>(),
    ];
    let lists = [
        host::<String>(),
        host::<Vec<u8>>(),
        host::<HashMap<u8, u8>>(),
        host::<FixedList<u8, 3>>(),
    ];
    let parts = [
        host::<Box<String>>(),
        host::<&String>(),
        host::<Option<u32>>(),
        host::<Result<u8, String>>(),
        host::<()>(),
        host::<(u8, String, u32)>(),
    ];
    let handles = [
        host::<ResourceAny>(),
        host::<ResourceDynamic>(),
        host::<Resource<Door>>(),
        host::<HostResource<Doors, ()>>(),
    ];
    assert!(rt; (scalars, lists) == ([1, 2, 4, 8, 1], [24; 4]));
    assert!(rt; (parts, handles) == ([8, 8, 12, 32, 0, 29], [24; 4]));
}

// Only `()` is the unit. A scalar or a handle asks for no block; a text, a list or a map may; the others as one of their parts.
#[test]
fn constants_of_plain_types(rt: HostRuntime) {
    let scalars = [
        tells::<bool>(false, false),
        tells::<char>(false, false),
        tells::<i8>(false, false),
        tells::<u8>(false, false),
        tells::<i16>(false, false),
        tells::<u16>(false, false),
        tells::<i32>(false, false),
        tells::<u32>(false, false),
        tells::<i64>(false, false),
        tells::<u64>(false, false),
        tells::<Float32Bits>(false, false),
        tells::<Float64Bits>(false, false),
    ];
    let handles = [
        tells::<ResourceAny>(false, false),
        tells::<ResourceDynamic>(false, false),
        tells::<Resource<Door>>(false, false),
        tells::<HostResource<Doors, ()>>(false, false),
    ];
    let lists = [
        tells::<String>(false, true),
        tells::<Vec<u8>>(false, true),
        tells::<HashMap<u8, u8>>(false, true),
        tells::<FixedList<u8, 3>>(false, true),
    ];
    assert!(rt; (scalars, handles, lists) == ([true; 12], [true; 4], [true; 4]));
}

#[test]
fn constants_of_types_with_parts(rt: HostRuntime) {
    let pointers = [
        tells::<Box<u8>>(false, false),
        tells::<Box<String>>(false, true),
        tells::<&u8>(false, false),
        tells::<&String>(false, true),
        tells::<Box<()>>(false, false),
        tells::<&()>(false, false),
    ];
    let cases = [
        tells::<Option<u8>>(false, false),
        tells::<Option<String>>(false, true),
        tells::<Result<u8, u8>>(false, false),
        tells::<Result<(), ()>>(false, false),
        tells::<Result<String, u8>>(false, true),
        tells::<Result<u8, String>>(false, true),
    ];
    assert!(rt; (pointers, cases) == ([true; 6], [true; 6]));
}

#[test]
fn constants_of_tuples(rt: HostRuntime) {
    let short = [
        tells::<()>(true, false),
        tells::<((),)>(false, false),
        tells::<(u8,)>(false, false),
        tells::<(String,)>(false, true),
    ];
    let longer = [
        tells::<(u8, u8)>(false, false),
        tells::<(String, u8)>(false, true),
        tells::<(u8, String)>(false, true),
        tells::<(u8, u8, u8)>(false, false),
        tells::<(String, u8, u8)>(false, true),
        tells::<(u8, String, u8)>(false, true),
        tells::<(u8, u8, String)>(false, true),
    ];
    assert!(rt; (short, longer) == ([true; 4], [true; 7]));
}

#[test]
fn constants_of_long_tuples(rt: HostRuntime) {
    let of_4 = [
        tells::<(u8, u8, u8, u8)>(false, false),
        tells::<(String, u8, u8, u8)>(false, true),
        tells::<(u8, String, u8, u8)>(false, true),
        tells::<(u8, u8, String, u8)>(false, true),
        tells::<(u8, u8, u8, String)>(false, true),
    ];
    let of_5 = [
        tells::<(u8, u8, u8, u8, u8)>(false, false),
        tells::<(String, u8, u8, u8, u8)>(false, true),
        tells::<(u8, String, u8, u8, u8)>(false, true),
        tells::<(u8, u8, String, u8, u8)>(false, true),
        tells::<(u8, u8, u8, String, u8)>(false, true),
        tells::<(u8, u8, u8, u8, String)>(false, true),
    ];
    assert!(rt; (of_4, of_5) == ([true; 5], [true; 6]));
}

#[test]
fn constants_of_the_longest_tuples(rt: HostRuntime) {
    let of_6 = [
        tells::<(u8, u8, u8, u8, u8, u8)>(false, false),
        tells::<(String, u8, u8, u8, u8, u8)>(false, true),
        tells::<(u8, String, u8, u8, u8, u8)>(false, true),
        tells::<(u8, u8, String, u8, u8, u8)>(false, true),
        tells::<(u8, u8, u8, String, u8, u8)>(false, true),
        tells::<(u8, u8, u8, u8, String, u8)>(false, true),
        tells::<(u8, u8, u8, u8, u8, String)>(false, true),
    ];
    assert!(rt; of_6 == [true; 7]);
}

/// What one function tells of a table of types, to which another adds the types.
fn with_types<
    A: Drop,
    R,
    F: FnOnce(Global, &mut TypeBuilder) -> Option<A>,
    L: FnOnce(&InstanceType, &A) -> R,
>(alloc: Global, add: F, tell: L) -> Option<R>
    requires add { F.IsAlwaysCallable add }
    requires tell { L.IsAlwaysCallable tell }
{
    let mut builder = TypeBuilder::new(alloc);
    let added = add(alloc, &mut builder)?;
    let types = InstanceType::new(builder.finish(), StoreId::from_u64(1));
    Some(tell(&types, &added))
}

/// Whether scalars are those of their names.
fn tell_scalars(types: &InstanceType) -> [bool; 12] {
    [
        passes::<bool>(&InterfaceType::Bool, types),
        passes::<char>(&InterfaceType::Char, types),
        passes::<i8>(&InterfaceType::S8, types),
        passes::<u8>(&InterfaceType::U8, types),
        passes::<i16>(&InterfaceType::S16, types),
        passes::<u16>(&InterfaceType::U16, types),
        passes::<i32>(&InterfaceType::S32, types),
        passes::<u32>(&InterfaceType::U32, types),
        passes::<i64>(&InterfaceType::S64, types),
        passes::<u64>(&InterfaceType::U64, types),
        passes::<Float32Bits>(&InterfaceType::Float32, types),
        passes::<Float64Bits>(&InterfaceType::Float64, types),
    ]
}

/// Whether texts and references are those of their names.
fn tell_texts(types: &InstanceType) -> [bool; 3] {
    [
        passes::<String>(&InterfaceType::String, types),
        passes::<Box<String>>(&InterfaceType::String, types),
        passes::<&u8>(&InterfaceType::U8, types),
    ]
}

/// Whether others are refused.
fn tell_others(types: &InstanceType) -> [bool; 5] {
    [
        fails::<&u8>(&InterfaceType::S8, types),
        fails::<u8>(&InterfaceType::S8, types),
        fails::<u32>(&InterfaceType::Float32, types),
        fails::<Vec<u8>>(&InterfaceType::String, types),
        fails::<()>(&InterfaceType::U8, types),
    ]
}

#[test]
fn plain_types_are_those_of_their_names(rt: HostRuntime) {
    let types = InstanceType::new(TypeBuilder::new(rt.alloc()).finish(), StoreId::from_u64(1));
    let told = (
        tell_scalars(&types),
        tell_texts(&types),
        tell_others(&types),
    );
    assert!(rt; told == ([true; 12], [true; 3], [true; 5]));
}

/// Adds a list, a map and a list of three items.
fn add_lists(_alloc: Global, builder: &mut TypeBuilder) -> Option<[InterfaceType; 3]> {
    let bytes = builder.add_list(InterfaceType::U8).ok()?;
    let map = builder
        .add_map(InterfaceType::U8, InterfaceType::String)
        .ok()?;
    let three = builder.add_fixed_length_list(InterfaceType::U8, 3).ok()?;
    Some([bytes, map, three])
}

fn tell_lists(types: &InstanceType, added: &[InterfaceType; 3]) -> [bool; 8] {
    let [bytes, map, three] = added;
    [
        passes::<Vec<u8>>(bytes, types),
        fails::<Vec<i8>>(bytes, types),
        passes::<HashMap<u8, String>>(map, types),
        fails::<HashMap<String, u8>>(map, types),
        passes::<FixedList<u8, 3>>(three, types),
        fails::<FixedList<u8, 4>>(three, types),
        fails::<FixedList<u8, 3>>(bytes, types),
        fails::<Vec<u8>>(three, types),
    ]
}

#[test]
fn lists_and_maps_are_those_of_their_parts(rt: HostRuntime) {
    assert!(rt; with_types(rt.alloc(), add_lists, tell_lists) == Some([true; 8]));
}

/// Adds an option, a result with one payload and one with two, and a pair.
fn add_cases(alloc: Global, builder: &mut TypeBuilder) -> Option<[InterfaceType; 4]> {
    let some = builder.add_option(InterfaceType::U8).ok()?;
    let bad = builder.add_result(None, Some(InterfaceType::String)).ok()?;
    let both = builder.add_result(Some(InterfaceType::U8), Some(InterfaceType::String));
    let both = both.ok()?;
    let members = [InterfaceType::U8, InterfaceType::String];
    let pair = builder.add_tuple(members.to_vec(alloc).ok()?).ok()?;
    Some([some, bad, both, pair])
}

fn tell_cases(types: &InstanceType, added: &[InterfaceType; 4]) -> [bool; 10] {
    let [some, bad, both, pair] = added;
    [
        passes::<Option<u8>>(some, types),
        fails::<Option<i8>>(some, types),
        passes::<Result<(), String>>(bad, types),
        fails::<Result<u8, String>>(bad, types),
        passes::<Result<u8, String>>(both, types),
        fails::<Result<(), String>>(both, types),
        passes::<(u8, String)>(pair, types),
        fails::<(String, u8)>(pair, types),
        fails::<(u8,)>(pair, types),
        fails::<(u8, String, u8)>(pair, types),
    ]
}

#[test]
fn cases_and_tuples_are_those_of_their_parts(rt: HostRuntime) {
    assert!(rt; with_types(rt.alloc(), add_cases, tell_cases) == Some([true; 10]));
}

/// The members of the longest tuple.
const MEMBERS: [InterfaceType; 6] = [
    InterfaceType::U8,
    InterfaceType::String,
    InterfaceType::Char,
    InterfaceType::Bool,
    InterfaceType::S64,
    InterfaceType::U16,
];

/// Adds a tuple of so many of these, from the first on.
fn add_members(alloc: Global, builder: &mut TypeBuilder, count: usize) -> Option<InterfaceType> {
    let members = MEMBERS.get(..count)?.to_vec(alloc).ok()?;
    builder.add_tuple(members).ok()
}

/// Adds tuples of one, three, four, five and six members.
fn add_tuples(alloc: Global, builder: &mut TypeBuilder) -> Option<[InterfaceType; 5]> {
    let one = add_members(alloc, builder, 1)?;
    let three = add_members(alloc, builder, 3)?;
    let four = add_members(alloc, builder, 4)?;
    let five = add_members(alloc, builder, 5)?;
    let six = add_members(alloc, builder, 6)?;
    Some([one, three, four, five, six])
}

/// Which are those of short tuples.
fn tell_short(types: &InstanceType, added: &[InterfaceType; 5]) -> [bool; 9] {
    let [one, three, four, _, _] = added;
    [
        passes::<(u8,)>(one, types),
        fails::<(i8,)>(one, types),
        fails::<()>(one, types),
        fails::<(u8,)>(three, types),
        passes::<(u8, String, char)>(three, types),
        fails::<(u8, char, String)>(three, types),
        fails::<(u8, String, char)>(four, types),
        passes::<(u8, String, char, bool)>(four, types),
        fails::<(u8, String, char, u8)>(four, types),
    ]
}

/// Which are those of long ones.
fn tell_long(types: &InstanceType, added: &[InterfaceType; 5]) -> [bool; 7] {
    let [_, _, _, five, six] = added;
    [
        fails::<(u8, String, char, bool)>(five, types),
        passes::<(u8, String, char, bool, i64)>(five, types),
        fails::<(bool, String, char, u8, i64)>(five, types),
        fails::<(u8, String, char, bool, i64)>(six, types),
        passes::<(u8, String, char, bool, i64, u16)>(six, types),
        fails::<(u8, String, char, bool, u16, i64)>(six, types),
        fails::<(u8, String, char, bool, i64, u16)>(five, types),
    ]
}

// Each passes where its members do, in order, and fails where one doesn't or where there are more or fewer.
#[test]
fn tuples_are_those_of_their_members(rt: HostRuntime) {
    let alloc = rt.alloc();
    assert!(rt; with_types(alloc, add_tuples, tell_short) == Some([true; 9]));
    assert!(rt; with_types(alloc, add_tuples, tell_long) == Some([true; 7]));
}

/// A resource type of the host.
fn resource(kind: ResourceKind) -> TypeResourceTable {
    TypeResourceTable {
        instance: RuntimeInstance::from_u32(0),
        kind,
        defined_here: false,
    }
}

/// Adds own handles of doors, borrows of doors, and own handles of another type.
fn add_handles(_alloc: Global, builder: &mut TypeBuilder) -> Option<[InterfaceType; 3]> {
    let door = builder.add_resource_table(resource(ResourceKind::Host(7)));
    let door = door.ok()?;
    let dynamic = builder.add_resource_table(resource(ResourceKind::HostDynamic(3)));
    let dynamic = dynamic.ok()?;
    let own = builder.add_own(door).ok()?;
    let borrow = builder.add_borrow(door).ok()?;
    let other = builder.add_own(dynamic).ok()?;
    Some([own, borrow, other])
}

fn tell_handles(types: &InstanceType, added: &[InterfaceType; 3]) -> [bool; 13] {
    let [own, borrow, other] = added;
    [
        passes::<Resource<Door>>(own, types),
        passes::<Resource<Door>>(borrow, types),
        fails::<Resource<Window>>(own, types),
        fails::<Resource<Door>>(other, types),
        passes::<ResourceDynamic>(other, types),
        fails::<ResourceDynamic>(own, types),
        passes::<ResourceAny>(own, types),
        passes::<ResourceAny>(other, types),
        fails::<ResourceAny>(&InterfaceType::U32, types),
        passes::<HostResource<Doors, ()>>(own, types),
        passes::<HostResource<Doors, ()>>(borrow, types),
        fails::<HostResource<Doors, ()>>(other, types),
        fails::<HostResource<Doors, ()>>(&InterfaceType::U32, types),
    ]
}

#[test]
fn handles_are_those_of_their_resource_types(rt: HostRuntime) {
    assert!(rt; with_types(rt.alloc(), add_handles, tell_handles) == Some([true; 13]));
}

/// The items of a list of three, the second of which was changed; none where there aren't three.
fn changed(items: Vec<u8>) -> Option<Vec<u8>>
    ensures { IfSome result (λ now. now.items ≡ slice_set items.items 1 9) }
{
    let mut list = FixedList::<u8, 3>::new(items)?;
    list.items_mut()[1] = 9;
    Some(list.into_items())
}

/// Whether two items aren't three.
fn two_are_refused(alloc: Global) -> Option<bool> {
    let items = [1, 2].to_vec(alloc).ok()?;
    Some(FixedList::<u8, 3>::new(items).is_none())
}

/// Whether the items of a list of three are these.
fn three_are_held(alloc: Global) -> Option<bool> {
    let items = [1, 2, 3].to_vec(alloc).ok()?;
    let list = FixedList::<u8, 3>::new(items)?;
    Some(list.items() == [1, 2, 3].as_slice())
}

/// Whether one of them is changed.
fn one_is_changed(alloc: Global) -> Option<bool> {
    let items = changed([1, 2, 3].to_vec(alloc).ok()?)?;
    Some(items.as_slice() == [1, 9, 3].as_slice())
}

#[test]
fn a_list_of_fixed_length_has_as_many_items(rt: HostRuntime) {
    let alloc = rt.alloc();
    let told = [
        two_are_refused(alloc),
        three_are_held(alloc),
        one_is_changed(alloc),
    ];
    assert!(rt; told == [Some(true); 3]);
}

/// Whether a type is a `u8`: a test that asks for a type of the table, as `ComponentType::typecheck` does.
fn is_u8(ty: &InterfaceType, types: &InstanceType) -> Result<(), TypecheckFailed>
    requires { Knows types.now.types ty.now }
{
    u8::typecheck(ty, types)
}

/// Whether it is a list of `u8`.
fn is_bytes(ty: &InterfaceType, types: &InstanceType) -> Result<(), TypecheckFailed>
    requires { Knows types.now.types ty.now }
{
    Vec::<u8>::typecheck(ty, types)
}

fn field(alloc: Global, name: &str, ty: InterfaceType) -> Option<RecordField> {
    let name = String::from_str(alloc, name).ok()?;
    Some(RecordField { name, ty })
}

/// Adds a record of an id and a content, and says so by their names.
fn add_record(alloc: Global, builder: &mut TypeBuilder) -> Option<(InterfaceType, [String; 2])> {
    let names = [
        String::from_str(alloc, "id").ok()?,
        String::from_str(alloc, "content").ok()?,
    ];
    let bytes = builder.add_list(InterfaceType::U8).ok()?;
    let id = field(alloc, "id", InterfaceType::U8)?;
    let content = field(alloc, "content", bytes)?;
    let fields = vec![in alloc; id, content].ok()?;
    Some((builder.add_record(fields).ok()?, names))
}

/// What the record answers to the tests of its parts, and to others. None where it isn't of the table.
fn tell_record(
    types: &InstanceType,
    added: &(InterfaceType, [String; 2]),
) -> Option<[Result<(), TypecheckFailed>; 2]> {
    let (ty, names) = added;
    if !types.types().contains(ty) {
        return None;
    }
    Some([
        typecheck_record(ty, types, names, &[is_u8, is_bytes]),
        typecheck_record(ty, types, names, &[is_u8, is_u8]),
    ])
}

#[test]
fn a_records_parts_may_ask_for_a_type_of_the_table(rt: HostRuntime) {
    let told = with_types(rt.alloc(), add_record, tell_record);
    assert!(rt; told == Some(Some([Ok(()), Err(TypecheckFailed)])));
}
