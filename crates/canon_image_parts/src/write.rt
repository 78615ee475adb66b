//! The image of a value, written field by field at the end of some bytes.

ghost use Rattle.std.specs.Prelude.{ℕ, [], ◌+◌, ◌++◌, ◌∷◌, ◌<◌, ◌^◌, ◌≡◌, ◌≤◌, IfErr, List, OnOk, length, map, slice_index, string_bytes};
ghost use Rattle.canon_model.specs.Image.{le_bytes};
ghost use Rattle.canon_model.specs.Layout.{flags_size};
ghost use Rattle.canon_model.specs.Shape.{list, member_count, of_items, string};
ghost use Rattle.canon_resources.specs.Held.{Any};
ghost use Rattle.canon_types.specs.Depth.{element_shape};
ghost use Rattle.canon_types.specs.Table.{Knows, shape_of};
ghost use Rattle.canon_plan.specs.Element.{IsKnown, IsMap, list_shape};
ghost use Rattle.canon_plan.specs.Plan.{shape_of_handle};
ghost use Rattle.canon_plan.specs.declared.plan.HandleType.{HandleType};
ghost use Rattle.canon_value_parts.specs.Elements.{element_in, list_value};
ghost use Rattle.canon_value_parts.specs.Flags.{IsFlagsType, flag_names};
ghost use Rattle.canon_value_parts.specs.View.{AreFew, HaveKnownTypes, viewed_names, viewed_shapes, viewed_values};
ghost use Rattle.canon_value_parts.specs.Viewed.{IsCaseSeen};
ghost use Rattle.canon_value_parts.specs.Words.{IsWordOf};
ghost use Rattle.canon_val.specs.declared.val.Val.TheVariants as val;
ghost use Rattle.canon_image_parts.specs.Written.{IsImaged, IsNumberedImage, MarksTo, PairsWriteTo, PartsWriteTo, WritesTo, sink};

use crate::ImageError;
use canon_context::Fault;
use canon_plan::has_no_handle;
use canon_resources::ResourceAny;
use canon_types::{ComponentTypes, InterfaceType, TypeFlagsIndex, TypeMapIndex};
use canon_val::Val;
use canon_value_parts::{
    Case, Elements, Members, View, count_of, mark_byte, member_of, number_of, view_of,
};
use std::alloc::Global;

/// The image of a value (`image` of canon_image).
pub fn image_of(
    alloc: Global,
    types: &ComponentTypes,
    ty: &InterfaceType,
    val: &Val,
) -> Result<Vec<u8>, ImageError>
    requires known { Knows types.now ty.now }
    ensures is { IsImaged (shape_of types.now ty.now) val.now result }
{
    if !has_no_handle(types, ty) {
        return Err(ImageError::Resource);
    }
    let mut resources = Vec::new(alloc);
    image_listed(alloc, types, ty, val, &mut resources)
}

/// The image of a value whose resources are added to a list, where each has its number (`image_with_resources` of canon_image).
pub fn image_listed(
    alloc: Global,
    types: &ComponentTypes,
    ty: &InterfaceType,
    val: &Val,
    resources: &mut Vec<ResourceAny>,
) -> Result<Vec<u8>, ImageError>
    requires known { Knows types.now ty.now }
    ensures is { IsNumberedImage resources.old.items resources.new.items (shape_of types.now ty.now) val.now result }
{
    let mut bytes = Vec::new(alloc);
    match write_value(types, ty, val, 0, resources, &mut bytes) {
        Ok(_) => Ok(bytes),
        Err(Fault::OutOfMemory) => Err(ImageError::OutOfMemory),
        Err(fault) => Err(ImageError::NotOfType(fault)),
    }
}

/// Adds the image of a value that has this place, and answers the next one's place.
#[cycle(write)]
fn write_value(
    types: &ComponentTypes,
    ty: &InterfaceType,
    value: &Val,
    place: u64,
    resources: &mut Vec<ResourceAny>,
    bytes: &mut Vec<u8>,
) -> Result<u64, Fault>
    requires known { Knows types.now ty.now }
    ensures writes { WritesTo (sink bytes.old.items resources.old.items) (sink bytes.new.items resources.new.items) (shape_of types.now ty.now) value.now place result }
{
    match view_of(types, ty, value, place) {
        Ok(View::Scalar(word)) => write_scalar(types, ty, value, word, place, bytes),
        Ok(View::Text(text)) => write_text(text, place, bytes),
        Ok(View::List(elements)) => write_list(types, &elements, place, resources, bytes),
        Ok(View::Members(members)) => {
            write_parts(
                types,
                &members,
                place,
                place.saturating_add(1),
                resources,
                bytes,
            )
        }
        Ok(View::Case(case)) => write_case(types, ty, value, &case, place, resources, bytes),
        Ok(View::Handle(_handle, resource)) => write_handle(resource, place, resources, bytes),
        Ok(View::Flags(names)) => write_names(types, ty, names, place, bytes),
        Err(fault) => Err(fault),
    }
}

/// Adds the images of the members of a value that has this place; the first has the place `first`. The name of each is tested
/// just before it.
#[cycle(write)]
fn write_parts(
    types: &ComponentTypes,
    members: &Members<'_>,
    place: u64,
    first: u64,
    resources: &mut Vec<ResourceAny>,
    bytes: &mut Vec<u8>,
) -> Result<u64, Fault>
    requires known { HaveKnownTypes types.now members.now }
    requires count { length (viewed_values members.now) ≡ member_count (viewed_shapes types.now members.now) }
    ensures writes { PartsWriteTo (sink bytes.old.items resources.old.items) (sink bytes.new.items resources.new.items) place (viewed_shapes types.now members.now) (viewed_names members.now) (viewed_values members.now) first result }
{
    let mut next = first;
    for k in 0..count_of(members) {
        let member = member_of(types, members, k);
        if !member.is_named {
            return Err(Fault::FieldName(place));
        }
        match write_value(types, &member.ty, member.value, next, resources, bytes) {
            Ok(after) => next = after,
            Err(fault) => return Err(fault),
        }
    }
    Ok(next)
}

#[cycle(write)]
fn write_list(
    types: &ComponentTypes,
    elements: &Elements<'_>,
    place: u64,
    resources: &mut Vec<ResourceAny>,
    bytes: &mut Vec<u8>,
) -> Result<u64, Fault>
    requires known { IsKnown types.now (element_in elements.now) }
    ensures writes { WritesTo (sink bytes.old.items resources.old.items) (sink bytes.new.items resources.new.items) (list_shape types.now (element_in elements.now)) (list_value elements.now) place result }
{
    match elements {
        Elements::Items(ty, items) => write_items(types, ty, items, place, resources, bytes),
        Elements::Pairs(i, pairs) => write_map(types, *i, pairs, place, resources, bytes),
    }
}

/// Adds the number of the items of a list that has this place, and their images.
#[cycle(write)]
fn write_items(
    types: &ComponentTypes,
    ty: &InterfaceType,
    items: &Vec<Val>,
    place: u64,
    resources: &mut Vec<ResourceAny>,
    bytes: &mut Vec<u8>,
) -> Result<u64, Fault>
    requires known { Knows types.now ty.now }
    ensures writes { WritesTo (sink bytes.old.items resources.old.items) (sink bytes.new.items resources.new.items) (list of_items (shape_of types.now ty.now)) (val.List items.now) place result }
{
    match put_number(bytes, items.len() as u64, 8) {
        Ok(()) => {
            let members = Members::Items(*ty, items);
            write_parts(
                types,
                &members,
                place,
                place.saturating_add(1),
                resources,
                bytes,
            )
        }
        Err(fault) => Err(fault),
    }
}

/// Adds the number of the pairs of a map that has this place, and their images.
#[cycle(write)]
fn write_map(
    types: &ComponentTypes,
    i: TypeMapIndex,
    pairs: &Vec<(Val, Val)>,
    place: u64,
    resources: &mut Vec<ResourceAny>,
    bytes: &mut Vec<u8>,
) -> Result<u64, Fault>
    requires known { Knows types.now (InterfaceType.Map i) }
    requires map { IsMap (shape_of types.now (InterfaceType.Map i)) }
    ensures writes { WritesTo (sink bytes.old.items resources.old.items) (sink bytes.new.items resources.new.items) (shape_of types.now (InterfaceType.Map i)) (val.Map pairs.now) place result }
{
    match put_number(bytes, pairs.len() as u64, 8) {
        Ok(()) => write_pairs(types, i, pairs, place.saturating_add(1), resources, bytes),
        Err(fault) => Err(fault),
    }
}

/// Adds the image of each key and its value.
#[cycle(write)]
fn write_pairs(
    types: &ComponentTypes,
    i: TypeMapIndex,
    pairs: &Vec<(Val, Val)>,
    first: u64,
    resources: &mut Vec<ResourceAny>,
    bytes: &mut Vec<u8>,
) -> Result<u64, Fault>
    requires known { Knows types.now (InterfaceType.Map i) }
    requires map { IsMap (shape_of types.now (InterfaceType.Map i)) }
    ensures writes { PairsWriteTo (sink bytes.old.items resources.old.items) (sink bytes.new.items resources.new.items) (element_shape (shape_of types.now (InterfaceType.Map i))) pairs.now.items first result }
{
    let map = types.map(i);
    let mut next = first;
    for (key, value) in pairs {
        match write_value(types, &map.key, key, next, resources, bytes) {
            Ok(after) => next = after,
            Err(fault) => return Err(fault),
        }
        match write_value(types, &map.value, value, next, resources, bytes) {
            Ok(after) => next = after,
            Err(fault) => return Err(fault),
        }
    }
    Ok(next)
}

/// Adds the number of a value's case, and the image of its payload.
#[cycle(write)]
fn write_case(
    types: &ComponentTypes,
    ty: &InterfaceType,
    value: &Val,
    case: &Case<'_>,
    place: u64,
    resources: &mut Vec<ResourceAny>,
    bytes: &mut Vec<u8>,
) -> Result<u64, Fault>
    requires seen { IsCaseSeen types.now (shape_of types.now ty.now) value.now case.now }
    ensures writes { WritesTo (sink bytes.old.items resources.old.items) (sink bytes.new.items resources.new.items) (shape_of types.now ty.now) value.now place result }
{
    let _ = ty;
    let _ = value;
    let size = case.info.size.byte_size();
    match put_number(bytes, u64::from(case.tag), size) {
        Ok(()) => write_parts(
            types,
            &case.payload,
            place,
            place.saturating_add(1),
            resources,
            bytes,
        ),
        Err(fault) => Err(fault),
    }
}

/// Adds the bytes of the word of a scalar.
fn write_scalar(
    types: &ComponentTypes,
    ty: &InterfaceType,
    value: &Val,
    word: u64,
    place: u64,
    bytes: &mut Vec<u8>,
) -> Result<u64, Fault>
    requires known { Knows types.now ty.now }
    requires word { IsWordOf ty.now value.now word }
    ensures writes { (xs : List Any) → WritesTo (sink bytes.old.items xs) (sink bytes.new.items xs) (shape_of types.now ty.now) value.now place result }
{
    let _ = value;
    let size = types.canonical_abi(ty).size32;
    match put_number(bytes, word, size) {
        Ok(()) => Ok(place.saturating_add(1)),
        Err(fault) => Err(fault),
    }
}

/// Adds the resource of a handle to the list, and its number there to the bytes.
fn write_handle(
    resource: ResourceAny,
    place: u64,
    resources: &mut Vec<ResourceAny>,
    bytes: &mut Vec<u8>,
) -> Result<u64, Fault>
    ensures writes { (h : HandleType) → WritesTo (sink bytes.old.items resources.old.items) (sink bytes.new.items resources.new.items) (shape_of_handle h) (val.Resource resource) place result }
{
    let number = resources.len() as u64;
    if number > 0xffff_ffff {
        return Err(Fault::OutOfMemory);
    }
    match put_number(bytes, number, 4) {
        Ok(()) => match keep(resources, resource) {
            Ok(()) => Ok(place.saturating_add(1)),
            Err(fault) => Err(fault),
        },
        Err(fault) => Err(fault),
    }
}

/// Adds a resource to a list.
fn keep(resources: &mut Vec<ResourceAny>, resource: ResourceAny) -> Result<(), Fault>
    ensures ok { OnOk result (resources.new.items ≡ resources.old.items ++ resource ∷ []) }
    ensures err { IfErr result (λ e. e ≡ Fault.OutOfMemory) }
{
    match resources.push(resource) {
        Ok(()) => Ok(()),
        Err(_) => Err(Fault::OutOfMemory),
    }
}

/// Adds the number of a text's bytes, and these.
fn write_text(text: &String, place: u64, bytes: &mut Vec<u8>) -> Result<u64, Fault>
    ensures writes { (xs : List Any) → WritesTo (sink bytes.old.items xs) (sink bytes.new.items xs) string (val.String text.now) place result }
{
    let spelled = text.as_bytes();
    match put_number(bytes, spelled.len() as u64, 8) {
        Ok(()) => match append(bytes, spelled) {
            Ok(()) => Ok(place.saturating_add(1)),
            Err(fault) => Err(fault),
        },
        Err(fault) => Err(fault),
    }
}

/// Adds the bits of flags of these names, as a value of the type.
fn write_names(
    types: &ComponentTypes,
    ty: &InterfaceType,
    set: &Vec<String>,
    place: u64,
    bytes: &mut Vec<u8>,
) -> Result<u64, Fault>
    requires known { Knows types.now ty.now }
    requires kind { IsFlagsType ty.now }
    ensures writes { (xs : List Any) → WritesTo (sink bytes.old.items xs) (sink bytes.new.items xs) (shape_of types.now ty.now) (val.Flags set.now) place result }
{
    match ty {
        InterfaceType::Flags(i) => write_flags(types, *i, set, place, bytes),
        _ => unreachable!(),
    }
}

/// Adds them: the first name's bit is the lowest one. Answers `UnknownFlag` for a name that isn't one of the type's.
fn write_flags(
    types: &ComponentTypes,
    i: TypeFlagsIndex,
    set: &Vec<String>,
    place: u64,
    bytes: &mut Vec<u8>,
) -> Result<u64, Fault>
    requires known { Knows types.now (InterfaceType.Flags i) }
    ensures writes { (xs : List Any) → WritesTo (sink bytes.old.items xs) (sink bytes.new.items xs) (shape_of types.now (InterfaceType.Flags i)) (val.Flags set.now) place result }
{
    let size = types.flags(i).abi.size32 as usize;
    let at = bytes.len();
    match bytes.resize(at + size, 0) {
        Ok(()) => mark_names(types, i, set, place, bytes, at as u64),
        Err(_) => Err(Fault::OutOfMemory),
    }
}

/// Sets the bits of these names in bytes that are zero.
fn mark_names(
    types: &ComponentTypes,
    i: TypeFlagsIndex,
    set: &Vec<String>,
    place: u64,
    memory: &mut [u8],
    at: u64,
) -> Result<u64, Fault>
    requires known { Knows types.now (InterfaceType.Flags i) }
    requires room { at + flags_size (length (flag_names types.now i)) ≤ length memory.old }
    requires zeros { (j : ℕ) → at ≤ j → j < at + flags_size (length (flag_names types.now i)) → slice_index memory.old j ≡ 0 }
    ensures marks { MarksTo memory.old memory.new at (flag_names types.now i) (map (λ s. string_bytes s) set.now.items) place result }
{
    for name in set {
        let Some(k) = number_of(types, i, name) else {
            return Err(Fault::UnknownFlag(place));
        };
        mark_byte(memory, at, k);
    }
    Ok(place.saturating_add(1))
}

/// Adds the lowest bytes of a number, the lowest first.
fn put_number(bytes: &mut Vec<u8>, number: u64, size: u32) -> Result<(), Fault>
    requires few { size ≤ 8 }
    ensures ok { OnOk result (bytes.new.items ≡ bytes.old.items ++ le_bytes size number) }
    ensures err { IfErr result (λ e. e ≡ Fault.OutOfMemory) }
{
    let all = number.to_le_bytes();
    append(bytes, &all[..size as usize])
}

fn append(bytes: &mut Vec<u8>, more: &[u8]) -> Result<(), Fault>
    ensures ok { OnOk result (bytes.new.items ≡ bytes.old.items ++ more.now) }
    ensures err { IfErr result (λ e. e ≡ Fault.OutOfMemory) }
{
    match bytes.extend_from_slice(more) {
        Ok(()) => Ok(()),
        Err(_) => Err(Fault::OutOfMemory),
    }
}
