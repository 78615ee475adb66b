//! A value as the shape of its type sees it: kinds of types that lie alike are seen alike. A walk has one arm for each.

ghost use Rattle.std.specs.Prelude.{◌≡◌};
ghost use Rattle.canon_model.specs.Shape.{string};
ghost use Rattle.canon_types.specs.Table.{Knows, shape_of};
ghost use Rattle.canon_plan.specs.NoHandle.{IsScalarType};
ghost use Rattle.canon_plan.specs.Plan.{typed_handle};
ghost use Rattle.canon_value_parts.specs.Viewed.{Viewed};

use crate::case_view::{Case, enum_view, option_view, result_view, variant_view};
use crate::elements::Elements;
use crate::members::Members;
use crate::scalar::scalar_word;
use canon_context::Fault;
use canon_plan::HandleType;
use canon_resources::ResourceAny;
use canon_types::{
    ComponentTypes, InterfaceType, TypeFixedLengthListIndex, TypeFlagsIndex, TypeListIndex,
    TypeMapIndex, TypeRecordIndex, TypeResourceTableIndex, TypeTupleIndex,
};
use canon_val::Val;

/// What a value is by the shape of its type.
pub enum View<'a> {
    /// A scalar's word.
    Scalar(u64),
    /// A text, in a block of its own.
    Text(&'a String),
    /// A resource where a handle of this type is wanted.
    Handle(HandleType, ResourceAny),
    /// The elements of a list or a map, which stand in a block of their own.
    List(Elements<'a>),
    /// Members in a row: of a record, a tuple or a list of fixed length.
    Members(Members<'a>),
    /// A case with its payload: of a variant, an enum, an option or a result.
    Case(Case<'a>),
    /// The names of flags that are set.
    Flags(&'a Vec<String>),
}

/// The view of a value that has this place. Answers `TypeMismatch`, `LengthMismatch`, `UnknownCase`, `PayloadExpected` or
/// `PayloadNotExpected` where the value isn't of the type; names of fields aren't tested.
pub fn view_of<'a>(
    types: &ComponentTypes,
    ty: &InterfaceType,
    value: &'a Val,
    place: u64,
) -> Result<View<'a>, Fault>
    requires known { Knows types.now ty.now }
    ensures { Viewed types.now ty.now value.now place result }
{
    match ty {
        InterfaceType::Record(i) => fields_view(types, *i, value, place),
        InterfaceType::Tuple(i) => places_view(types, *i, value, place),
        InterfaceType::FixedLengthList(i) => fixed_view(types, *i, value, place),
        InterfaceType::List(i) => list_view(types, *i, value, place),
        InterfaceType::Variant(i) => variant_view(types, *i, value, place),
        InterfaceType::Enum(i) => enum_view(types, *i, value, place),
        InterfaceType::Option(i) => option_view(types, *i, value, place),
        InterfaceType::Result(i) => result_view(types, *i, value, place),
        InterfaceType::Map(i) => map_view(types, *i, value, place),
        InterfaceType::String => text_view(types, value, place),
        InterfaceType::Flags(i) => flags_view(types, *i, value, place),
        InterfaceType::Own(i) => handle_view(types, true, *i, value, place),
        InterfaceType::Borrow(i) => handle_view(types, false, *i, value, place),
        _ => scalar_view(types, ty, value, place),
    }
}

fn scalar_view<'a>(
    types: &ComponentTypes,
    ty: &InterfaceType,
    value: &'a Val,
    place: u64,
) -> Result<View<'a>, Fault>
    requires scalar { IsScalarType ty.now }
    ensures { Viewed types.now ty.now value.now place result }
{
    let _ = types;
    match scalar_word(value, ty) {
        Some(word) => Ok(View::Scalar(word.get_u64())),
        None => Err(Fault::TypeMismatch(place)),
    }
}

fn text_view<'a>(types: &ComponentTypes, value: &'a Val, place: u64) -> Result<View<'a>, Fault>
    ensures { Viewed types.now InterfaceType.String value.now place result }
{
    let _ = types;
    match value {
        Val::String(text) => Ok(View::Text(text)),
        _ => Err(Fault::TypeMismatch(place)),
    }
}

fn handle_view<'a>(
    types: &ComponentTypes,
    owned: bool,
    resource: TypeResourceTableIndex,
    value: &'a Val,
    place: u64,
) -> Result<View<'a>, Fault>
    ensures { Viewed types.now (typed_handle owned resource) value.now place result }
{
    let _ = types;
    match value {
        Val::Resource(any) => Ok(View::Handle(HandleType { owned, resource }, *any)),
        _ => Err(Fault::TypeMismatch(place)),
    }
}

/// Which names are set isn't looked at.
fn flags_view<'a>(
    types: &ComponentTypes,
    i: TypeFlagsIndex,
    value: &'a Val,
    place: u64,
) -> Result<View<'a>, Fault>
    requires known { Knows types.now (InterfaceType.Flags i) }
    ensures { Viewed types.now (InterfaceType.Flags i) value.now place result }
{
    let _flags = types.flags(i); // the type at this index is flags
    match value {
        Val::Flags(names) => Ok(View::Flags(names)),
        _ => Err(Fault::TypeMismatch(place)),
    }
}

fn list_view<'a>(
    types: &ComponentTypes,
    i: TypeListIndex,
    value: &'a Val,
    place: u64,
) -> Result<View<'a>, Fault>
    requires known { Knows types.now (InterfaceType.List i) }
    ensures { Viewed types.now (InterfaceType.List i) value.now place result }
{
    let element = types.list(i).element;
    match value {
        Val::List(items) => Ok(View::List(Elements::Items(element, items))),
        _ => Err(Fault::TypeMismatch(place)),
    }
}

fn map_view<'a>(
    types: &ComponentTypes,
    i: TypeMapIndex,
    value: &'a Val,
    place: u64,
) -> Result<View<'a>, Fault>
    requires known { Knows types.now (InterfaceType.Map i) }
    ensures { Viewed types.now (InterfaceType.Map i) value.now place result }
{
    let _map = types.map(i); // the type at this index is a map
    match value {
        Val::Map(pairs) => Ok(View::List(Elements::Pairs(i, pairs))),
        _ => Err(Fault::TypeMismatch(place)),
    }
}

fn fixed_view<'a>(
    types: &ComponentTypes,
    i: TypeFixedLengthListIndex,
    value: &'a Val,
    place: u64,
) -> Result<View<'a>, Fault>
    requires known { Knows types.now (InterfaceType.FixedLengthList i) }
    ensures { Viewed types.now (InterfaceType.FixedLengthList i) value.now place result }
{
    let list = types.fixed_length_list(i);
    let Val::FixedLengthList(values) = value else {
        return Err(Fault::TypeMismatch(place));
    };
    if values.len() as u64 != u64::from(list.size) {
        return Err(Fault::LengthMismatch(place));
    }
    Ok(View::Members(Members::Items(list.element, values)))
}

fn fields_view<'a>(
    types: &ComponentTypes,
    i: TypeRecordIndex,
    value: &'a Val,
    place: u64,
) -> Result<View<'a>, Fault>
    requires known { Knows types.now (InterfaceType.Record i) }
    ensures { Viewed types.now (InterfaceType.Record i) value.now place result }
{
    let count = types.record(i).fields.len();
    let Val::Record(values) = value else {
        return Err(Fault::TypeMismatch(place));
    };
    if values.len() != count {
        return Err(Fault::LengthMismatch(place));
    }
    Ok(View::Members(Members::Fields(i, values)))
}

fn places_view<'a>(
    types: &ComponentTypes,
    i: TypeTupleIndex,
    value: &'a Val,
    place: u64,
) -> Result<View<'a>, Fault>
    requires known { Knows types.now (InterfaceType.Tuple i) }
    ensures { Viewed types.now (InterfaceType.Tuple i) value.now place result }
{
    let count = types.tuple(i).types.len();
    let Val::Tuple(values) = value else {
        return Err(Fault::TypeMismatch(place));
    };
    if values.len() != count {
        return Err(Fault::LengthMismatch(place));
    }
    Ok(View::Members(Members::Places(i, values)))
}
