//! The table of a component's types, and how they are looked up.

ghost use Rattle.std.specs.Prelude.{◌≡◌, ◌≢◌, ◌<◌, ◌≤◌, ◌^◌, false, true, map, None, Some, nat_lt, slice_get, MatchOption, length, All, IfOk, IfErr, OnErr, IsTrue, ◌↔◌};
ghost use Rattle.std.specs.Result.{result_err};
ghost use Rattle.std.specs.List.{list_all, list_any};
ghost use Rattle.canon_abi.specs.Abi.{HasInfo, HasLayout};
ghost use Rattle.canon_types.specs.Depth.{depth, deepest, has_borrow, member_borrows, variant_cases};
ghost use Rattle.canon_types.specs.Keeps.{ArePlain, Finds, HasPair, IsEntry, KeepsLayout, definition_of, enum_type, fixed_list_type, flags_type, list_type, map_type, option_type, record_type, result_type, tuple_type, variant_type};
ghost use Rattle.canon_types.specs.Refusal.{empty_type_table, is_full_for, is_unit_type, parts_refusal, with_definition};
ghost use Rattle.canon_types.specs.Valid.{HoldNoBorrow, IsValidTable, NamesDiffer};
ghost use Rattle.canon_types.specs.Table.{HasFunc, HasResource, IsDefined, IsOver, Knows, all_shapes, defined_shape, has, is_enum, is_fixed_list, is_flags, is_list, is_map, is_option, is_record, is_result, is_tuple, is_variant, knows, members_of, shape_of, types_of, parts};

mod adding;
mod builder;
mod names;

use crate::{
    InterfaceType, TypeEnum, TypeEnumIndex, TypeError, TypeFixedLengthList,
    TypeFixedLengthListIndex, TypeFlags, TypeFlagsIndex, TypeFunc, TypeFuncIndex, TypeList,
    TypeListIndex, TypeMap, TypeMapIndex, TypeOption, TypeOptionIndex, TypeRecord, TypeRecordIndex,
    TypeResourceTable, TypeResourceTableIndex, TypeResult, TypeResultIndex, TypeTuple,
    TypeTupleIndex, TypeVariant, TypeVariantIndex,
};
pub use builder::TypeBuilder;
use canon_abi::CanonicalAbiInfo;
use std::alloc::Global;
use std::marker::Model;

/// The most entries of a table.
const MAX_ENTRIES: usize = 1_048_576;

/// The deepest type that is taken.
const MAX_DEPTH: u32 = 100;

/// The numbers of the types without a definition, and of lists and maps.
#[derive(Drop)]
struct PlainAbis {
    scalar1: CanonicalAbiInfo,
    scalar2: CanonicalAbiInfo,
    scalar4: CanonicalAbiInfo,
    scalar8: CanonicalAbiInfo,
    pointer_pair: CanonicalAbiInfo,
}

/// A type that has parts or names.
#[derive(Drop)]
enum Item {
    List(TypeList),
    Map(TypeMap),
    Record(TypeRecord),
    Tuple(TypeTuple),
    Variant(TypeVariant),
    Enum(TypeEnum),
    Option(TypeOption),
    Result(TypeResult),
    Flags(TypeFlags),
    FixedLengthList(TypeFixedLengthList),
}

/// A type, with its depth, and whether a borrowed handle occurs in it.
#[derive(Drop)]
struct Entry {
    item: Item,
    depth: u32,
    has_borrow: bool,
}

/// A tuple with its depth, and whether a borrowed handle occurs in it, as it is before it is an entry.
#[derive(Drop)]
struct TupleEntry {
    tuple: TypeTuple,
    depth: u32,
    has_borrow: bool,
}

/// The types of a component. Contracts see the definitions, functions and resource tables in the order in which they
/// were added.
#[derive(Drop)]
pub struct ComponentTypes {
    plain: PlainAbis,
    entries: Vec<Entry>,
    funcs: Vec<TypeFunc>,
    resources: Vec<TypeResourceTable>,
}

impl Model for ComponentTypes {
    ghost use Rattle.canon_types.specs.Table.{TypeTable};
    ghost use Rattle.canon_types.specs.Keeps.{table, KeepsTable};

    ghost Value = { TypeTable };

    ghost view = { table };

    ghost invariant = { KeepsTable };
}

impl ComponentTypes {
    /// Whether this is a type of the table.
    pub fn contains(&self, ty: &InterfaceType) -> bool
        ensures { result ≡ knows self.now ty.now }
    {
        match ty {
            InterfaceType::List(i) => self.get_list(*i).is_some(),
            InterfaceType::Map(i) => self.get_map(*i).is_some(),
            InterfaceType::Record(i) => self.get_record(*i).is_some(),
            InterfaceType::Tuple(i) => self.get_tuple(*i).is_some(),
            InterfaceType::Variant(i) => self.get_variant(*i).is_some(),
            InterfaceType::Enum(i) => self.get_enum(*i).is_some(),
            InterfaceType::Option(i) => self.get_option(*i).is_some(),
            InterfaceType::Result(i) => self.get_result(*i).is_some(),
            InterfaceType::Flags(i) => self.get_flags(*i).is_some(),
            InterfaceType::FixedLengthList(i) => self.get_fixed_length_list(*i).is_some(),
            InterfaceType::Own(t) | InterfaceType::Borrow(t) => self.has_resource(*t),
            _ => true,
        }
    }

    /// Whether the table has this function type.
    pub fn contains_func(&self, i: TypeFuncIndex) -> bool
        ensures { IsTrue result ↔ HasFunc self.now i }
    {
        (i.as_u32() as usize) < self.funcs.len()
    }

    /// The numbers of a type of the table.
    pub fn canonical_abi(&self, ty: &InterfaceType) -> &CanonicalAbiInfo
        requires { Knows self.now ty.now }
        ensures { HasLayout result.now (shape_of self.now ty.now) }
    {
        match ty {
            InterfaceType::Bool | InterfaceType::S8 | InterfaceType::U8 => &self.plain.scalar1,
            InterfaceType::S16 | InterfaceType::U16 => &self.plain.scalar2,
            InterfaceType::S32
            | InterfaceType::U32
            | InterfaceType::Float32
            | InterfaceType::Char
            | InterfaceType::Own(_)
            | InterfaceType::Borrow(_) => &self.plain.scalar4,
            InterfaceType::S64 | InterfaceType::U64 | InterfaceType::Float64 => &self.plain.scalar8,
            InterfaceType::String => &self.plain.pointer_pair,
            InterfaceType::List(i) => self.list_abi(*i),
            InterfaceType::Map(i) => self.map_abi(*i),
            InterfaceType::Record(i) => &self.record(*i).abi,
            InterfaceType::Tuple(i) => &self.tuple(*i).abi,
            InterfaceType::Variant(i) => &self.variant(*i).abi,
            InterfaceType::Enum(i) => &self.enum_(*i).abi,
            InterfaceType::Option(i) => &self.option(*i).abi,
            InterfaceType::Result(i) => &self.result(*i).abi,
            InterfaceType::Flags(i) => &self.flags(*i).abi,
            InterfaceType::FixedLengthList(i) => &self.fixed_length_list(*i).abi,
        }
    }

    fn list_abi(&self, i: TypeListIndex) -> &CanonicalAbiInfo
        requires { Knows self.now (InterfaceType.List i) }
        ensures { HasLayout result.now (shape_of self.now (InterfaceType.List i)) }
    {
        let _list = self.list(i); // the type at this index is a list
        &self.plain.pointer_pair
    }

    fn map_abi(&self, i: TypeMapIndex) -> &CanonicalAbiInfo
        requires { Knows self.now (InterfaceType.Map i) }
        ensures { HasLayout result.now (shape_of self.now (InterfaceType.Map i)) }
    {
        let _map = self.map(i); // the type at this index is a map
        &self.plain.pointer_pair
    }

    /// The list type of a number.
    pub fn list(&self, i: TypeListIndex) -> &TypeList
        requires { Knows self.now (InterfaceType.List i) }
        ensures entry { IsDefined self.now (InterfaceType.List i) (list_type result.now) }
    {
        self.get_list(i).unwrap()
    }

    /// The map type of a number.
    pub fn map(&self, i: TypeMapIndex) -> &TypeMap
        requires { Knows self.now (InterfaceType.Map i) }
        ensures entry { IsDefined self.now (InterfaceType.Map i) (map_type result.now) }
        ensures pair { HasPair result.now (shape_of self.now (InterfaceType.Map i)) }
    {
        self.get_map(i).unwrap()
    }

    /// The record type of a number.
    pub fn record(&self, i: TypeRecordIndex) -> &TypeRecord
        requires { Knows self.now (InterfaceType.Record i) }
        ensures entry { IsDefined self.now (InterfaceType.Record i) (record_type result.now) }
        ensures names { NamesDiffer (record_type result.now) }
        ensures abi { HasLayout result.now.abi (shape_of self.now (InterfaceType.Record i)) }
    {
        self.get_record(i).unwrap()
    }

    /// The tuple type of a number.
    pub fn tuple(&self, i: TypeTupleIndex) -> &TypeTuple
        requires { Knows self.now (InterfaceType.Tuple i) }
        ensures entry { IsDefined self.now (InterfaceType.Tuple i) (tuple_type result.now) }
        ensures abi { HasLayout result.now.abi (shape_of self.now (InterfaceType.Tuple i)) }
        ensures types { result.now.types.items ≡ types_of self.now i }
    {
        self.get_tuple(i).unwrap()
    }

    /// The variant type of a number.
    pub fn variant(&self, i: TypeVariantIndex) -> &TypeVariant
        requires { Knows self.now (InterfaceType.Variant i) }
        ensures entry { IsDefined self.now (InterfaceType.Variant i) (variant_type result.now) }
        ensures names { NamesDiffer (variant_type result.now) }
        ensures abi { HasLayout result.now.abi (shape_of self.now (InterfaceType.Variant i)) }
        ensures info { HasInfo result.now.info (variant_cases (shape_of self.now (InterfaceType.Variant i))) }
    {
        self.get_variant(i).unwrap()
    }

    /// The enum type of a number.
    pub fn enum_(&self, i: TypeEnumIndex) -> &TypeEnum
        requires { Knows self.now (InterfaceType.Enum i) }
        ensures entry { IsDefined self.now (InterfaceType.Enum i) (enum_type result.now) }
        ensures names { NamesDiffer (enum_type result.now) }
        ensures abi { HasLayout result.now.abi (shape_of self.now (InterfaceType.Enum i)) }
        ensures info { HasInfo result.now.info (variant_cases (shape_of self.now (InterfaceType.Enum i))) }
    {
        self.get_enum(i).unwrap()
    }

    /// The option type of a number.
    pub fn option(&self, i: TypeOptionIndex) -> &TypeOption
        requires { Knows self.now (InterfaceType.Option i) }
        ensures entry { IsDefined self.now (InterfaceType.Option i) (option_type result.now) }
        ensures abi { HasLayout result.now.abi (shape_of self.now (InterfaceType.Option i)) }
        ensures info { HasInfo result.now.info (variant_cases (shape_of self.now (InterfaceType.Option i))) }
    {
        self.get_option(i).unwrap()
    }

    /// The result type of a number.
    pub fn result(&self, i: TypeResultIndex) -> &TypeResult
        requires { Knows self.now (InterfaceType.Result i) }
        ensures entry { IsDefined self.now (InterfaceType.Result i) (result_type result.now) }
        ensures abi { HasLayout result.now.abi (shape_of self.now (InterfaceType.Result i)) }
        ensures info { HasInfo result.now.info (variant_cases (shape_of self.now (InterfaceType.Result i))) }
    {
        self.get_result(i).unwrap()
    }

    /// The flags type of a number.
    pub fn flags(&self, i: TypeFlagsIndex) -> &TypeFlags
        requires { Knows self.now (InterfaceType.Flags i) }
        ensures entry { IsDefined self.now (InterfaceType.Flags i) (flags_type result.now) }
        ensures names { NamesDiffer (flags_type result.now) }
        ensures abi { HasLayout result.now.abi (shape_of self.now (InterfaceType.Flags i)) }
    {
        self.get_flags(i).unwrap()
    }

    /// The fixed-length list type of a number.
    pub fn fixed_length_list(&self, i: TypeFixedLengthListIndex) -> &TypeFixedLengthList
        requires { Knows self.now (InterfaceType.FixedLengthList i) }
        ensures entry { IsDefined self.now (InterfaceType.FixedLengthList i) (fixed_list_type result.now) }
        ensures abi { HasLayout result.now.abi (shape_of self.now (InterfaceType.FixedLengthList i)) }
    {
        self.get_fixed_length_list(i).unwrap()
    }

    /// The function type of a number.
    pub fn func(&self, i: TypeFuncIndex) -> &TypeFunc
        requires { HasFunc self.now i }
        ensures found { slice_get self.now.funcs i ≡ Some result.now }
        ensures known { IsOver self.now result.now }
        ensures results { HoldNoBorrow self.now result.now }
    {
        &self.funcs[i.as_u32() as usize]
    }

    /// The resource table of a number.
    pub fn resource_table(&self, i: TypeResourceTableIndex) -> &TypeResourceTable
        requires { HasResource self.now i }
        ensures found { slice_get self.now.resources i ≡ Some result.now }
        ensures instance { result.now.instance < 256 }
    {
        &self.resources[i.as_u32() as usize]
    }

    /// What holds of every table: names differ, no borrowed handle is answered, and instances have numbers below 256.
    pub fn laws(&self)
        ensures { IsValidTable self.now }
    {
        let _count = self.funcs.len(); // reading a field gives the table's invariant
    }

    /// Whether the table has this resource table.
    fn has_resource(&self, i: TypeResourceTableIndex) -> bool
        ensures { result ≡ nat_lt i (length self.now.resources) }
    {
        (i.as_u32() as usize) < self.resources.len()
    }

    fn get_list(&self, i: TypeListIndex) -> Option<&TypeList>
        ensures { MatchOption result (has is_list self.now i ≡ false) (λ x. Finds self.now i (Item.List x.now)) }
    {
        match self.item(i.as_u32())? {
            Item::List(found) => Some(found),
            _ => None,
        }
    }

    fn get_map(&self, i: TypeMapIndex) -> Option<&TypeMap>
        ensures { MatchOption result (has is_map self.now i ≡ false) (λ x. Finds self.now i (Item.Map x.now)) }
    {
        match self.item(i.as_u32())? {
            Item::Map(found) => Some(found),
            _ => None,
        }
    }

    fn get_record(&self, i: TypeRecordIndex) -> Option<&TypeRecord>
        ensures { MatchOption result (has is_record self.now i ≡ false) (λ x. Finds self.now i (Item.Record x.now)) }
    {
        match self.item(i.as_u32())? {
            Item::Record(found) => Some(found),
            _ => None,
        }
    }

    fn get_tuple(&self, i: TypeTupleIndex) -> Option<&TypeTuple>
        ensures { MatchOption result (has is_tuple self.now i ≡ false) (λ x. Finds self.now i (Item.Tuple x.now)) }
    {
        match self.item(i.as_u32())? {
            Item::Tuple(found) => Some(found),
            _ => None,
        }
    }

    fn get_variant(&self, i: TypeVariantIndex) -> Option<&TypeVariant>
        ensures { MatchOption result (has is_variant self.now i ≡ false) (λ x. Finds self.now i (Item.Variant x.now)) }
    {
        match self.item(i.as_u32())? {
            Item::Variant(found) => Some(found),
            _ => None,
        }
    }

    fn get_enum(&self, i: TypeEnumIndex) -> Option<&TypeEnum>
        ensures { MatchOption result (has is_enum self.now i ≡ false) (λ x. Finds self.now i (Item.Enum x.now)) }
    {
        match self.item(i.as_u32())? {
            Item::Enum(found) => Some(found),
            _ => None,
        }
    }

    fn get_option(&self, i: TypeOptionIndex) -> Option<&TypeOption>
        ensures { MatchOption result (has is_option self.now i ≡ false) (λ x. Finds self.now i (Item.Option x.now)) }
    {
        match self.item(i.as_u32())? {
            Item::Option(found) => Some(found),
            _ => None,
        }
    }

    fn get_result(&self, i: TypeResultIndex) -> Option<&TypeResult>
        ensures { MatchOption result (has is_result self.now i ≡ false) (λ x. Finds self.now i (Item.Result x.now)) }
    {
        match self.item(i.as_u32())? {
            Item::Result(found) => Some(found),
            _ => None,
        }
    }

    fn get_flags(&self, i: TypeFlagsIndex) -> Option<&TypeFlags>
        ensures { MatchOption result (has is_flags self.now i ≡ false) (λ x. Finds self.now i (Item.Flags x.now)) }
    {
        match self.item(i.as_u32())? {
            Item::Flags(found) => Some(found),
            _ => None,
        }
    }

    fn get_fixed_length_list(&self, i: TypeFixedLengthListIndex) -> Option<&TypeFixedLengthList>
        ensures { MatchOption result (has is_fixed_list self.now i ≡ false) (λ x. Finds self.now i (Item.FixedLengthList x.now)) }
    {
        match self.item(i.as_u32())? {
            Item::FixedLengthList(found) => Some(found),
            _ => None,
        }
    }

    fn item(&self, index: u32) -> Option<&Item>
        ensures { MatchOption result (slice_get self.now.definitions index ≡ None) (λ x. Finds self.now index x.now) }
    {
        let entry = self.entries.get(index as usize)?;
        Some(&entry.item)
    }

    fn new(alloc: Global) -> Self
        ensures { result ≡ empty_type_table }
    {
        ComponentTypes {
            plain: plain_abis(),
            entries: Vec::new(alloc),
            funcs: Vec::new(alloc),
            resources: Vec::new(alloc),
        }
    }

    /// Tests the types that a new type is to have as parts.
    fn check_parts(&self, parts: &[InterfaceType], is_empty: bool) -> Result<(), TypeError>
        ensures { result_err result ≡ parts_refusal self.now parts.now is_empty }
    {
        if !self.all_known(parts) {
            return Err(TypeError::UnknownIndex);
        }
        if is_empty || self.any_unit(parts) {
            return Err(TypeError::Empty);
        }
        Ok(())
    }

    fn all_known(&self, types: &[InterfaceType]) -> bool
        ensures { result ≡ list_all (knows self.now) types.now }
    {
        types.iter().all(|ty| self.contains(ty))
    }

    fn any_unit(&self, types: &[InterfaceType]) -> bool
        ensures { result ≡ list_any (is_unit_type self.now) types.now }
    {
        types.iter().any(|ty| self.is_unit(ty))
    }

    /// Whether this is a tuple without members.
    fn is_unit(&self, ty: &InterfaceType) -> bool
        ensures { result ≡ is_unit_type self.now ty.now }
    {
        match ty {
            InterfaceType::Tuple(i) => match self.get_tuple(*i) {
                Some(tuple) => tuple.types.is_empty(),
                None => false,
            },
            _ => false,
        }
    }

    /// Whether so many further entries are too many.
    fn is_full_for(&self, more: usize) -> bool
        requires { more < 2 ^ 32 }
        ensures { result ≡ is_full_for more self.now }
    {
        let types = self.entries.len().saturating_add(self.funcs.len());
        types
            .saturating_add(self.resources.len())
            .saturating_add(more)
            > MAX_ENTRIES
    }

    /// The depth of the deepest of these types.
    fn deepest(&self, types: &[InterfaceType]) -> u32
        requires { All (Knows self.now) types.now }
        ensures { result ≡ deepest (members_of self.now types.now) }
    {
        let mut deepest = 0;
        for ty in types {
            deepest = deepest.max(self.depth(ty));
        }
        deepest
    }

    fn depth(&self, ty: &InterfaceType) -> u32
        requires { Knows self.now ty.now }
        ensures { result ≡ depth (shape_of self.now ty.now) }
    {
        match ty.place() {
            Some(place) => self.entries[place as usize].depth,
            None => 1,
        }
    }

    /// Whether a borrowed handle occurs in one of these types.
    fn any_borrow(&self, types: &[InterfaceType]) -> bool
        requires { All (Knows self.now) types.now }
        ensures { result ≡ member_borrows (members_of self.now types.now) }
    {
        for ty in types {
            if self.has_borrow(ty) {
                return true;
            }
        }
        false
    }

    fn has_borrow(&self, ty: &InterfaceType) -> bool
        requires { Knows self.now ty.now }
        ensures { result ≡ has_borrow (shape_of self.now ty.now) }
    {
        match ty.place() {
            Some(place) => self.entries[place as usize].has_borrow,
            None => ty.is_borrow(),
        }
    }
}

fn plain_abis() -> PlainAbis
    ensures { ArePlain result }
{
    PlainAbis {
        scalar1: CanonicalAbiInfo::SCALAR1,
        scalar2: CanonicalAbiInfo::SCALAR2,
        scalar4: CanonicalAbiInfo::SCALAR4,
        scalar8: CanonicalAbiInfo::SCALAR8,
        pointer_pair: CanonicalAbiInfo::POINTER_PAIR,
    }
}
