//! The types of values, and the definitions of those that have parts or names.

ghost use Rattle.std.specs.Prelude.{◌≡◌};
ghost use Rattle.canon_types.specs.Table.{place, plain_shape};
ghost use Rattle.canon_types.specs.Depth.{has_borrow};

use crate::{
    RuntimeInstance, TypeEnumIndex, TypeFixedLengthListIndex, TypeFlagsIndex, TypeListIndex,
    TypeMapIndex, TypeOptionIndex, TypeRecordIndex, TypeResourceTableIndex, TypeResultIndex,
    TypeTupleIndex, TypeVariantIndex,
};
use canon_abi::{CanonicalAbiInfo, VariantInfo};
use indexmap::{IndexMap, IndexSet};

/// The type of a value. Types with parts or names stand in a table.
#[derive(Clone, Copy, Debug, PartialEq, Eq)]
pub enum InterfaceType {
    Bool,
    S8,
    U8,
    S16,
    U16,
    S32,
    U32,
    S64,
    U64,
    Float32,
    Float64,
    Char,
    String,
    Record(TypeRecordIndex),
    Variant(TypeVariantIndex),
    List(TypeListIndex),
    Tuple(TypeTupleIndex),
    Map(TypeMapIndex),
    Flags(TypeFlagsIndex),
    Enum(TypeEnumIndex),
    Option(TypeOptionIndex),
    Result(TypeResultIndex),
    Own(TypeResourceTableIndex),
    Borrow(TypeResourceTableIndex),
    FixedLengthList(TypeFixedLengthListIndex),
}

impl InterfaceType {
    /// The number of the type's definition, if it has one.
    pub(crate) fn place(&self) -> Option<u32>
        ensures { result ≡ place self.now }
    {
        match self {
            InterfaceType::Record(i) => Some(i.as_u32()),
            InterfaceType::Variant(i) => Some(i.as_u32()),
            InterfaceType::List(i) => Some(i.as_u32()),
            InterfaceType::Tuple(i) => Some(i.as_u32()),
            InterfaceType::Map(i) => Some(i.as_u32()),
            InterfaceType::Flags(i) => Some(i.as_u32()),
            InterfaceType::Enum(i) => Some(i.as_u32()),
            InterfaceType::Option(i) => Some(i.as_u32()),
            InterfaceType::Result(i) => Some(i.as_u32()),
            InterfaceType::FixedLengthList(i) => Some(i.as_u32()),
            _ => None,
        }
    }

    /// Whether this is a borrowed handle.
    pub(crate) fn is_borrow(&self) -> bool
        ensures { result ≡ has_borrow (plain_shape self.now) }
    {
        matches!(self, InterfaceType::Borrow(_))
    }
}

/// A list of any length.
#[derive(Drop)]
pub struct TypeList {
    /// The type of its elements.
    pub element: InterfaceType,
}

/// A map, which lies in memory as a list of pairs of key and value.
#[derive(Drop)]
pub struct TypeMap {
    /// The type of the keys.
    pub key: InterfaceType,
    /// The type of the values.
    pub value: InterfaceType,
    /// Of a pair.
    pub entry_abi: CanonicalAbiInfo,
    /// Where the value begins in a pair.
    pub value_offset32: u32,
    /// The same, with pointers of 64 bits.
    pub value_offset64: u32,
}

impl TypeMap {
    ghost use Rattle.std.specs.Prelude.{◌≡◌};
    ghost use Rattle.canon_types.specs.Keeps.{value_offset_in};

    /// Where the value begins in a pair, for pointers of 64 bits where `wide`, else of 32.
    pub fn value_offset(&self, wide: bool) -> u32
        ensures { result ≡ value_offset_in wide self.now }
    {
        if wide {
            self.value_offset64
        } else {
            self.value_offset32
        }
    }
}

/// A field of a record.
#[derive(Drop)]
pub struct RecordField {
    /// Its name.
    pub name: String,
    /// Its type.
    pub ty: InterfaceType,
}

/// A record.
#[derive(Drop)]
pub struct TypeRecord {
    /// Its fields, in order.
    pub fields: Vec<RecordField>,
    /// How it lies.
    pub abi: CanonicalAbiInfo,
}

/// The members of a tuple type. Only a function's parameters or results have none.
#[derive(Drop)]
pub struct TypeTuple {
    /// The types of its members, in order.
    pub types: Vec<InterfaceType>,
    /// How it lies.
    pub abi: CanonicalAbiInfo,
}

/// A variant, with its cases in order.
#[derive(Drop)]
pub struct TypeVariant {
    /// The name of each case, with the type of its payload, where it has one.
    pub cases: IndexMap<String, Option<InterfaceType>>,
    /// How it lies.
    pub abi: CanonicalAbiInfo,
    /// Its discriminant, and where a payload begins.
    pub info: VariantInfo,
}

/// An enum: cases without payloads.
#[derive(Drop)]
pub struct TypeEnum {
    /// The names of its cases, in order.
    pub names: IndexSet<String>,
    /// How it lies.
    pub abi: CanonicalAbiInfo,
    /// Its discriminant, and where a payload would begin.
    pub info: VariantInfo,
}

/// An option: nothing, or a value.
#[derive(Drop)]
pub struct TypeOption {
    /// The type of the value.
    pub ty: InterfaceType,
    /// How it lies.
    pub abi: CanonicalAbiInfo,
    /// Its discriminant, and where the value begins.
    pub info: VariantInfo,
}

/// A result: ok or an error, each with a value or without.
#[derive(Drop)]
pub struct TypeResult {
    /// The type of the value of ok, where it has one.
    pub ok: Option<InterfaceType>,
    /// The type of the value of an error, where it has one.
    pub err: Option<InterfaceType>,
    /// How it lies.
    pub abi: CanonicalAbiInfo,
    /// Its discriminant, and where the value begins.
    pub info: VariantInfo,
}

/// Flags: names, each of which is set or not.
#[derive(Drop)]
pub struct TypeFlags {
    /// The names in order.
    pub names: IndexSet<String>,
    /// How they lie.
    pub abi: CanonicalAbiInfo,
}

/// A list of `size` elements.
#[derive(Drop)]
pub struct TypeFixedLengthList {
    /// The type of its elements.
    pub element: InterfaceType,
    /// How many there are.
    pub size: u32,
    /// How it lies.
    pub abi: CanonicalAbiInfo,
}

/// The type of a function: its parameters and its results, as tuples of its table.
#[derive(Clone, Copy, Debug, PartialEq, Eq)]
pub struct TypeFunc {
    /// The types of the parameters.
    pub params: TypeTupleIndex,
    /// The types of the results.
    pub results: TypeTupleIndex,
    /// Whether the type is async.
    pub async_: bool,
}

/// Who implements a resource: the host, by a number, or an instance of the component.
#[derive(Clone, Copy, Debug, PartialEq, Eq)]
pub enum ResourceKind {
    /// The host, by the number of a `HostType`.
    Host(u32),
    /// The host, by a number alone.
    HostDynamic(u32),
    /// The instance that defines it, as its resource of number `id`, with its destructor's core function.
    Guest { id: u32, dtor: Option<u32> },
}

/// A table of an instance's handles of one resource.
#[derive(Clone, Copy, Debug, PartialEq, Eq)]
pub struct TypeResourceTable {
    /// The instance whose handles these are.
    pub instance: RuntimeInstance,
    /// Who implements the resource.
    pub kind: ResourceKind,
    /// Whether the instance defines the resource itself.
    pub defined_here: bool,
}
