//! The members of a value that has some, whatever its type's kind: what a walk over them sees.

ghost use Rattle.std.specs.Prelude.{[], length, ◌<◌, ◌^◌, ◌∷◌, ◌≡◌};
ghost use Rattle.canon_lowering.specs.Copies.{copies};
ghost use Rattle.canon_model.specs.Shape.{member, member_count, no_members};
ghost use Rattle.canon_types.specs.Depth.{product_members};
ghost use Rattle.canon_types.specs.Table.{HasTuple, Knows, TypeTable, shape_of, tuple_members};
ghost use Rattle.canon_plan.specs.Element.{IsKnown, list_shape, row_of};
ghost use Rattle.canon_value_parts.specs.Elements.{by_turns, element_in, list_length, values_listed};
ghost use Rattle.canon_val.specs.Value.{names_in, no_names, values_in};
ghost use Rattle.canon_value_parts.specs.View.{AreFew, HaveKnownTypes, IsMember, viewed_names, viewed_shapes, viewed_values};

use crate::elements::Elements;
use canon_types::{ComponentTypes, InterfaceType, TypeMapIndex, TypeRecordIndex, TypeTupleIndex};
use canon_val::Val;

/// Values in a row, and where their types stand.
#[derive(Clone, Copy)]
pub enum Members<'a> {
    /// The fields of a record, each with its name.
    Fields(TypeRecordIndex, &'a [(String, Val)]),
    /// The members of a tuple.
    Places(TypeTupleIndex, &'a [Val]),
    /// Items of one type.
    Items(InterfaceType, &'a [Val]),
    /// The payload of a case that has none.
    Empty,
    /// A payload.
    Single(InterfaceType, &'a Val),
    /// Of a map, each key and then its value.
    Pairs(TypeMapIndex, &'a [(Val, Val)]),
}

/// One of them: its type, the value, and whether it has its type's name.
#[derive(Clone, Copy)]
pub struct Member<'a> {
    /// The type.
    pub ty: InterfaceType,
    /// The value.
    pub value: &'a Val,
    /// Whether it has the name of its field; true of a member without one.
    pub is_named: bool,
}

/// How many there are.
pub fn count_of(members: &Members<'_>) -> usize
    requires few { AreFew members.now }
    ensures { result ≡ length (viewed_values members.now) }
{
    match members {
        Members::Fields(_, values) => values.len(),
        Members::Places(_, values) => values.len(),
        Members::Items(_, values) => values.len(),
        Members::Empty => 0,
        Members::Single(_, _) => 1,
        Members::Pairs(_, pairs) => turns(pairs),
    }
}

/// The one of this number.
pub fn member_of<'a>(types: &ComponentTypes, members: &Members<'a>, k: usize) -> Member<'a>
    requires known { HaveKnownTypes types.now members.now }
    requires inside { k < length (viewed_values members.now) }
    ensures { IsMember types.now (viewed_shapes types.now members.now) (viewed_names members.now) (viewed_values members.now) k result }
{
    match members {
        Members::Fields(i, values) => field_of(types, *i, values, k),
        Members::Places(i, values) => place_of(types, *i, values, k),
        Members::Items(ty, values) => item_of(types, *ty, values, k),
        Members::Single(ty, value) => single_of(types, *ty, value, k),
        Members::Empty => unreachable!(),
        Members::Pairs(i, pairs) => pair_of(types, *i, pairs, k),
    }
}

fn field_of<'a>(
    types: &ComponentTypes,
    i: TypeRecordIndex,
    values: &'a [(String, Val)],
    k: usize,
) -> Member<'a>
    requires known { Knows types.now (InterfaceType.Record i) }
    requires count { length values.now ≡ member_count (product_members (shape_of types.now (InterfaceType.Record i))) }
    requires inside { k < length values.now }
    ensures { IsMember types.now (product_members (shape_of types.now (InterfaceType.Record i))) (names_in values.now) (values_in values.now) k result }
{
    let (name, value) = &values[k];
    let field = &types.record(i).fields[k];
    let is_named = *name == field.name;
    Member {
        ty: field.ty,
        value,
        is_named,
    }
}

fn place_of<'a>(
    types: &ComponentTypes,
    i: TypeTupleIndex,
    values: &'a [Val],
    k: usize,
) -> Member<'a>
    requires known { HasTuple types.now i }
    requires count { length values.now ≡ member_count (tuple_members types.now i) }
    requires inside { k < length values.now }
    ensures { IsMember types.now (tuple_members types.now i) (no_names values.now) values.now k result }
{
    Member {
        ty: types.tuple(i).types[k],
        value: &values[k],
        is_named: true,
    }
}

/// Of values of one type; any table that knows the type will do.
fn item_of<'a>(types: &ComponentTypes, ty: InterfaceType, values: &'a [Val], k: usize) -> Member<'a>
    requires known { Knows types.now ty }
    requires inside { k < length values.now }
    ensures { IsMember types.now (copies (length values.now) (shape_of types.now ty)) (no_names values.now) values.now k result }
{
    let _ = types;
    Member {
        ty,
        value: &values[k],
        is_named: true,
    }
}

/// Of one value alone.
fn single_of<'a>(types: &ComponentTypes, ty: InterfaceType, value: &'a Val, k: usize) -> Member<'a>
    requires known { Knows types.now ty }
    requires inside { k < 1 }
    ensures { IsMember types.now (member [] (shape_of types.now ty) no_members) ([] ∷ []) (value.now ∷ []) k result }
{
    let _ = types;
    let _ = k;
    Member {
        ty,
        value,
        is_named: true,
    }
}

/// How many keys and values there are.
fn turns(pairs: &[(Val, Val)]) -> usize
    requires few { length pairs.now < 2 ^ 32 }
    ensures { result ≡ length (by_turns pairs.now) }
{
    2 * pairs.len()
}

/// Of a map's pairs, a key or a value.
fn pair_of<'a>(
    types: &ComponentTypes,
    i: TypeMapIndex,
    pairs: &'a [(Val, Val)],
    k: usize,
) -> Member<'a>
    requires known { Knows types.now (InterfaceType.Map i) }
    requires few { length pairs.now < 2 ^ 32 }
    requires inside { k < length (by_turns pairs.now) }
    ensures { IsMember types.now (row_of (shape_of types.now (InterfaceType.Map i)) (length pairs.now)) (no_names (by_turns pairs.now)) (by_turns pairs.now) k result }
{
    let map = types.map(i);
    let (key, value) = &pairs[k / 2];
    if k % 2 == 0 {
        Member {
            ty: map.key,
            value: key,
            is_named: true,
        }
    } else {
        Member {
            ty: map.value,
            value,
            is_named: true,
        }
    }
}

/// The elements of a list, as members.
pub fn members_in<'a>(list: &Elements<'a>) -> Members<'a>
    requires few { list_length list.now < 2 ^ 32 }
    ensures known { (t : TypeTable) → IsKnown t (element_in list.now) → HaveKnownTypes t result }
    ensures shapes { (t : TypeTable) → viewed_shapes t result ≡ row_of (list_shape t (element_in list.now)) (list_length list.now) }
    ensures names { viewed_names result ≡ no_names (values_listed list.now) }
    ensures values { viewed_values result ≡ values_listed list.now }
{
    match list {
        Elements::Items(ty, items) => Members::Items(*ty, items),
        Elements::Pairs(i, pairs) => Members::Pairs(*i, pairs),
    }
}
