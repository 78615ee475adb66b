//! What a type's values are lifted as, by its shape: kinds of types that lie alike are lifted alike. A walk has one arm for each.

ghost use Rattle.std.specs.Prelude.{◌≡◌, ◌<◌, ◌^◌};
ghost use Rattle.canon_lowering.specs.Copies.{copies};
ghost use Rattle.canon_model.specs.Shape.{member_count};
ghost use Rattle.canon_types.specs.Depth.{product_members};
ghost use Rattle.canon_types.specs.Table.{HasTuple, Knows, TypeTable, shape_of, tuple_members};
ghost use Rattle.canon_plan.specs.Element.{IsKnown, list_shape, row_of};
ghost use Rattle.canon_plan.specs.Plan.{AreKnown, IsSlot, Plans, shapes_of};

use crate::case_plan::{enum_plan, option_plan, result_plan, variant_plan};
use crate::element::Element;
use canon_types::{
    ComponentTypes, InterfaceType, TypeFixedLengthListIndex, TypeFlagsIndex, TypeListIndex,
    TypeMapIndex, TypeRecordIndex, TypeResourceTableIndex, TypeTupleIndex, VariantInfo,
};

/// Where the types of values in a row stand.
#[derive(Clone, Copy)]
pub enum Slots {
    /// The fields of a record.
    Fields(TypeRecordIndex),
    /// The members of a tuple.
    Places(TypeTupleIndex),
    /// So many items of one type.
    Items(InterfaceType, u64),
    /// A payload: none, or one of this type.
    Empty,
    Single(InterfaceType),
    /// Of so many pairs of a map, each key and then its value.
    Pairs(TypeMapIndex, u64),
}

/// One of them: its type, and how many bytes its name has; where there are no names, none.
#[derive(Clone, Copy)]
pub struct Slot {
    /// The type.
    pub ty: InterfaceType,
    /// The bytes of the name that are charged.
    pub name_length: u64,
}

/// The type of a handle: whether it is an own or a borrow handle, and of which resource.
#[derive(Clone, Copy)]
pub struct HandleType {
    /// Whether it is an own handle, and no borrow.
    pub owned: bool,
    /// The table of the resource's type.
    pub resource: TypeResourceTableIndex,
}

/// What the values of a type are lifted as.
pub enum Plan {
    /// A number, a bool or a char: one word.
    Scalar,
    /// A text, in a block of its own.
    Text,
    /// A handle of this type.
    Handle(HandleType),
    /// A list or a map, whose elements stand in a block of their own.
    List(Element),
    /// Members in a row: of a record, a tuple or a list of fixed length.
    Members(Slots),
    /// A case: the bytes of its discriminant, and where its payload begins.
    Case(VariantInfo),
    /// Flags, by their type.
    Flags(TypeFlagsIndex),
}

/// How many there are.
pub fn slot_count(types: &ComponentTypes, slots: &Slots) -> u64
    requires known { AreKnown types.now slots.now }
    ensures { result ≡ member_count (shapes_of types.now slots.now) }
{
    match slots {
        Slots::Fields(i) => types.record(*i).fields.len() as u64,
        Slots::Places(i) => types.tuple(*i).types.len() as u64,
        Slots::Items(_, count) => *count,
        Slots::Empty => 0,
        Slots::Single(_) => 1,
        Slots::Pairs(_, count) => 2 * *count,
    }
}

/// The one of this number.
pub fn slot_of(types: &ComponentTypes, slots: &Slots, k: u64) -> Slot
    requires known { AreKnown types.now slots.now }
    requires inside { k < member_count (shapes_of types.now slots.now) }
    ensures { IsSlot types.now (shapes_of types.now slots.now) k result }
{
    match slots {
        Slots::Fields(i) => field_slot(types, *i, k),
        Slots::Places(i) => place_slot(types, *i, k),
        Slots::Items(ty, _) => Slot {
            ty: *ty,
            name_length: 0,
        },
        Slots::Single(ty) => Slot {
            ty: *ty,
            name_length: 0,
        },
        Slots::Empty => unreachable!(),
        Slots::Pairs(i, count) => pair_slot(types, *i, *count, k),
    }
}

fn field_slot(types: &ComponentTypes, i: TypeRecordIndex, k: u64) -> Slot
    requires known { Knows types.now (InterfaceType.Record i) }
    requires inside { k < member_count (product_members (shape_of types.now (InterfaceType.Record i))) }
    ensures { IsSlot types.now (product_members (shape_of types.now (InterfaceType.Record i))) k result }
{
    let field = &types.record(i).fields[k as usize];
    Slot {
        ty: field.ty,
        name_length: field.name.len() as u64,
    }
}

fn place_slot(types: &ComponentTypes, i: TypeTupleIndex, k: u64) -> Slot
    requires known { HasTuple types.now i }
    requires inside { k < member_count (tuple_members types.now i) }
    ensures { IsSlot types.now (tuple_members types.now i) k result }
{
    Slot {
        ty: types.tuple(i).types[k as usize],
        name_length: 0,
    }
}

/// Of so many pairs of a map, a key or a value.
fn pair_slot(types: &ComponentTypes, i: TypeMapIndex, count: u64, k: u64) -> Slot
    requires known { Knows types.now (InterfaceType.Map i) }
    requires inside { k < member_count (row_of (shape_of types.now (InterfaceType.Map i)) count) }
    ensures { IsSlot types.now (row_of (shape_of types.now (InterfaceType.Map i)) count) k result }
{
    let _ = count;
    let map = types.map(i);
    if k % 2 == 0 {
        return Slot {
            ty: map.key,
            name_length: 0,
        };
    }
    Slot {
        ty: map.value,
        name_length: 0,
    }
}

/// So many elements of a list, as members.
pub fn slots_of(element: &Element, count: u64) -> Slots
    requires few { count < 2 ^ 32 }
    ensures known { (t : TypeTable) → IsKnown t element.now → AreKnown t result }
    ensures shapes { (t : TypeTable) → shapes_of t result ≡ row_of (list_shape t element.now) count }
{
    match element {
        Element::Item(ty) => Slots::Items(*ty, count),
        Element::Pair(i) => Slots::Pairs(*i, count),
    }
}

/// What values of the type are lifted as.
pub fn plan_of(types: &ComponentTypes, ty: &InterfaceType) -> Plan
    requires known { Knows types.now ty.now }
    ensures { Plans types.now ty.now result }
{
    match ty {
        InterfaceType::Record(i) => fields_plan(types, *i),
        InterfaceType::Tuple(i) => places_plan(types, *i),
        InterfaceType::FixedLengthList(i) => fixed_plan(types, *i),
        InterfaceType::List(i) => list_plan(types, *i),
        InterfaceType::Variant(i) => variant_plan(types, *i),
        InterfaceType::Enum(i) => enum_plan(types, *i),
        InterfaceType::Option(i) => option_plan(types, *i),
        InterfaceType::Result(i) => result_plan(types, *i),
        InterfaceType::Map(i) => map_plan(types, *i),
        InterfaceType::String => Plan::Text,
        InterfaceType::Flags(i) => Plan::Flags(*i),
        InterfaceType::Own(i) => Plan::Handle(HandleType {
            owned: true,
            resource: *i,
        }),
        InterfaceType::Borrow(i) => Plan::Handle(HandleType {
            owned: false,
            resource: *i,
        }),
        _ => Plan::Scalar,
    }
}

fn fields_plan(types: &ComponentTypes, i: TypeRecordIndex) -> Plan
    requires known { Knows types.now (InterfaceType.Record i) }
    ensures { Plans types.now (InterfaceType.Record i) result }
{
    let _record = types.record(i); // the type at this index is a record
    Plan::Members(Slots::Fields(i))
}

fn places_plan(types: &ComponentTypes, i: TypeTupleIndex) -> Plan
    requires known { Knows types.now (InterfaceType.Tuple i) }
    ensures { Plans types.now (InterfaceType.Tuple i) result }
{
    let _tuple = types.tuple(i); // the type at this index is a tuple
    Plan::Members(Slots::Places(i))
}

fn fixed_plan(types: &ComponentTypes, i: TypeFixedLengthListIndex) -> Plan
    requires known { Knows types.now (InterfaceType.FixedLengthList i) }
    ensures { Plans types.now (InterfaceType.FixedLengthList i) result }
{
    let list = types.fixed_length_list(i);
    Plan::Members(Slots::Items(list.element, u64::from(list.size)))
}

fn list_plan(types: &ComponentTypes, i: TypeListIndex) -> Plan
    requires known { Knows types.now (InterfaceType.List i) }
    ensures { Plans types.now (InterfaceType.List i) result }
{
    Plan::List(Element::Item(types.list(i).element))
}

fn map_plan(types: &ComponentTypes, i: TypeMapIndex) -> Plan
    requires known { Knows types.now (InterfaceType.Map i) }
    ensures { Plans types.now (InterfaceType.Map i) result }
{
    let _map = types.map(i); // the type at this index is a map
    Plan::List(Element::Pair(i))
}
