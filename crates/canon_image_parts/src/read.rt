//! A value read from its image, field by field.

ghost use Rattle.std.specs.Prelude.{[], ◌++◌, ◌+◌, ◌<◌, ◌^◌, ◌∷◌, ◌≡◌, ◌≤◌, ◌↔◌, IfErr, IfOk, IsTrue, OnOk, Some, drop, false, length, true};
ghost use Rattle.canon_abi.specs.Abi.{HasInfo};
ghost use Rattle.canon_lowering.specs.Storing.{narrow};
ghost use Rattle.canon_model.specs.Layout.{flags_size};
ghost use Rattle.canon_model.specs.Memory.{num};
ghost use Rattle.canon_model.specs.Shape.{bool, list, of_items, string};
ghost use Rattle.canon_plan.specs.NoHandle.{IsScalarType, scalar_type};
ghost use Rattle.canon_plan.specs.Element.{IsKnown, IsMap, list_shape};
ghost use Rattle.canon_plan.specs.Plan.{AreKnown, IsCaseKind, IsVariant, shape_of_handle, shapes_of};
ghost use Rattle.canon_plan.specs.declared.plan.HandleType.{HandleType};
ghost use Rattle.canon_types.specs.Depth.{element_shape, variant_cases};
ghost use Rattle.canon_types.specs.Table.{Knows, shape_of};
ghost use Rattle.canon_value_parts.specs.Flags.{flag_names};
ghost use Rattle.canon_image_parts.specs.Read.{IsNumberedRead, IsRead, NumberReadTo, PairsReadTo, PartsReadTo, ReadsTo};

use crate::ImageError;
use canon_bytes::load_tag;
use canon_plan::{Element, Plan, Slots, case_of, has_no_handle, plan_of, slot_count, slot_of};
use canon_resources::{ResourceAny, ResourceType};
use canon_types::{ComponentTypes, InterfaceType, TypeFlagsIndex, TypeMapIndex, VariantInfo};
use canon_val::Val;
use canon_value_parts::{Marks, flags_of, load_scalar, rebuild, rebuild_case};
use std::alloc::Global;

/// The value whose image these bytes are (`read_image` of canon_image).
pub fn read_whole(
    alloc: Global,
    types: &ComponentTypes,
    ty: &InterfaceType,
    bytes: &[u8],
) -> Result<Val, ImageError>
    requires known { Knows types.now ty.now }
    ensures is { IsRead (shape_of types.now ty.now) bytes.now result }
{
    if !has_no_handle(types, ty) {
        return Err(ImageError::Resource);
    }
    read_numbered(alloc, types, ty, bytes)
}

/// The value whose image these bytes are, with a borrow of its number in the place of each resource (`read_numbered_image` of canon_image).
pub fn read_numbered(
    alloc: Global,
    types: &ComponentTypes,
    ty: &InterfaceType,
    bytes: &[u8],
) -> Result<Val, ImageError>
    requires known { Knows types.now ty.now }
    ensures is { IsNumberedRead (shape_of types.now ty.now) bytes.now result }
{
    let mut at = 0;
    match read_value(alloc, types, ty, bytes, &mut at) {
        Ok(value) => {
            if at < bytes.len() as u64 {
                return Err(ImageError::Trailing(at));
            }
            Ok(value)
        }
        Err(error) => Err(error),
    }
}

/// The value from place `at` on, which moves past it.
#[cycle(read)]
fn read_value(
    alloc: Global,
    types: &ComponentTypes,
    ty: &InterfaceType,
    bytes: &[u8],
    at: &mut u64,
) -> Result<Val, ImageError>
    requires known { Knows types.now ty.now }
    requires inside { at.old ≤ length bytes.now }
    ensures reads { ReadsTo bytes.now at.old at.new (shape_of types.now ty.now) result }
{
    match plan_of(types, ty) {
        Plan::Scalar => read_scalar(types, ty, bytes, at),
        Plan::Text => read_text(alloc, bytes, at),
        Plan::List(element) => read_list(alloc, types, &element, bytes, at),
        Plan::Members(members) => match read_parts(alloc, types, &members, bytes, at) {
            Ok(values) => match rebuild(alloc, types, ty, values) {
                Ok(value) => Ok(value),
                Err(_) => Err(ImageError::OutOfMemory),
            },
            Err(error) => Err(error),
        },
        Plan::Handle(_handle) => read_handle(bytes, at),
        Plan::Flags(i) => read_flags(alloc, types, i, bytes, at),
        Plan::Case(info) => read_case(alloc, types, ty, &info, bytes, at),
    }
}

/// The members of a value, one after another. Room is asked for at most by the bytes that remain.
#[cycle(read)]
fn read_parts(
    alloc: Global,
    types: &ComponentTypes,
    members: &Slots,
    bytes: &[u8],
    at: &mut u64,
) -> Result<Vec<Val>, ImageError>
    requires known { AreKnown types.now members.now }
    requires inside { at.old ≤ length bytes.now }
    ensures reads { PartsReadTo bytes.now at.old at.new (shapes_of types.now members.now) result }
{
    let count = slot_count(types, members);
    let mut values = match Vec::with_capacity(alloc, room_for(count, bytes, *at)) {
        Ok(values) => values,
        Err(_) => return Err(ImageError::OutOfMemory),
    };
    for k in 0..count {
        let member = slot_of(types, members, k);
        match read_value(alloc, types, &member.ty, bytes, at) {
            Ok(value) => match keep(&mut values, value) {
                Ok(()) => {}
                Err(error) => return Err(error),
            },
            Err(error) => return Err(error),
        }
    }
    Ok(values)
}

/// A list or a map: its count, and its elements.
#[cycle(read)]
fn read_list(
    alloc: Global,
    types: &ComponentTypes,
    element: &Element,
    bytes: &[u8],
    at: &mut u64,
) -> Result<Val, ImageError>
    requires known { IsKnown types.now element.now }
    requires inside { at.old ≤ length bytes.now }
    ensures reads { ReadsTo bytes.now at.old at.new (list_shape types.now element.now) result }
{
    match element {
        Element::Item(ty) => read_items(alloc, types, ty, bytes, at),
        Element::Pair(i) => read_map(alloc, types, *i, bytes, at),
    }
}

#[cycle(read)]
fn read_items(
    alloc: Global,
    types: &ComponentTypes,
    ty: &InterfaceType,
    bytes: &[u8],
    at: &mut u64,
) -> Result<Val, ImageError>
    requires known { Knows types.now ty.now }
    requires inside { at.old ≤ length bytes.now }
    ensures reads { ReadsTo bytes.now at.old at.new (list of_items (shape_of types.now ty.now)) result }
{
    match read_count(bytes, at) {
        Ok(count) => match read_parts(alloc, types, &Slots::Items(*ty, count), bytes, at) {
            Ok(items) => Ok(Val::List(items)),
            Err(error) => Err(error),
        },
        Err(error) => Err(error),
    }
}

#[cycle(read)]
fn read_map(
    alloc: Global,
    types: &ComponentTypes,
    i: TypeMapIndex,
    bytes: &[u8],
    at: &mut u64,
) -> Result<Val, ImageError>
    requires known { Knows types.now (InterfaceType.Map i) }
    requires map { IsMap (shape_of types.now (InterfaceType.Map i)) }
    requires inside { at.old ≤ length bytes.now }
    ensures reads { ReadsTo bytes.now at.old at.new (shape_of types.now (InterfaceType.Map i)) result }
{
    match read_count(bytes, at) {
        Ok(count) => match read_pairs(alloc, types, i, count, bytes, at) {
            Ok(pairs) => Ok(Val::Map(pairs)),
            Err(error) => Err(error),
        },
        Err(error) => Err(error),
    }
}

/// So many pairs of a key and a value. Room is asked for at most by the bytes that remain.
#[cycle(read)]
fn read_pairs(
    alloc: Global,
    types: &ComponentTypes,
    i: TypeMapIndex,
    count: u64,
    bytes: &[u8],
    at: &mut u64,
) -> Result<Vec<(Val, Val)>, ImageError>
    requires known { Knows types.now (InterfaceType.Map i) }
    requires inside { at.old ≤ length bytes.now }
    ensures reads { PairsReadTo bytes.now at.old at.new (element_shape (shape_of types.now (InterfaceType.Map i))) count result }
{
    let map = types.map(i);
    let mut pairs = match Vec::with_capacity(alloc, room_for(count, bytes, *at)) {
        Ok(pairs) => pairs,
        Err(_) => return Err(ImageError::OutOfMemory),
    };
    for _ in 0..count {
        let key = match read_value(alloc, types, &map.key, bytes, at) {
            Ok(key) => key,
            Err(error) => return Err(error),
        };
        match read_value(alloc, types, &map.value, bytes, at) {
            Ok(value) => match keep(&mut pairs, (key, value)) {
                Ok(()) => {}
                Err(error) => return Err(error),
            },
            Err(error) => return Err(error),
        }
    }
    Ok(pairs)
}

/// A case by its number, and its payload.
#[cycle(read)]
fn read_case(
    alloc: Global,
    types: &ComponentTypes,
    ty: &InterfaceType,
    info: &VariantInfo,
    bytes: &[u8],
    at: &mut u64,
) -> Result<Val, ImageError>
    requires known { Knows types.now ty.now }
    requires kind { IsCaseKind ty.now (shape_of types.now ty.now) }
    requires variant { IsVariant (shape_of types.now ty.now) }
    requires info { HasInfo info.now (variant_cases (shape_of types.now ty.now)) }
    requires inside { at.old ≤ length bytes.now }
    ensures reads { ReadsTo bytes.now at.old at.new (shape_of types.now ty.now) result }
{
    let size = u64::from(info.size.byte_size());
    if bytes.len() as u64 - *at < size {
        return Err(ImageError::Truncated(*at));
    }
    let tag = load_tag(bytes, info.size, *at);
    let Some(case) = case_of(types, ty, tag) else {
        return Err(ImageError::Malformed(*at));
    };
    *at += size;
    match read_parts(alloc, types, &case.payload, bytes, at) {
        Ok(values) => match rebuild_case(alloc, types, ty, tag, values) {
            Ok(value) => Ok(value),
            Err(_) => Err(ImageError::OutOfMemory),
        },
        Err(error) => Err(error),
    }
}

/// A number, a bool or a char.
fn read_scalar(
    types: &ComponentTypes,
    ty: &InterfaceType,
    bytes: &[u8],
    at: &mut u64,
) -> Result<Val, ImageError>
    requires known { Knows types.now ty.now }
    requires scalar { IsScalarType ty.now }
    requires inside { at.old ≤ length bytes.now }
    ensures reads { ReadsTo bytes.now at.old at.new (shape_of types.now ty.now) result }
{
    let size = u64::from(types.canonical_abi(ty).size32);
    if bytes.len() as u64 - *at < size {
        return Err(ImageError::Truncated(*at));
    }
    if !is_spelled(ty, bytes[*at as usize]) {
        return Err(ImageError::Malformed(*at));
    }
    match load_scalar(bytes, ty, *at) {
        Ok(value) => {
            *at += size;
            Ok(value)
        }
        Err(_) => Err(ImageError::Malformed(*at)),
    }
}

/// Whether this first byte may stand for a value of the scalar type: a bool is 0 or 1.
fn is_spelled(ty: &InterfaceType, byte: u8) -> bool
    ensures no { result ≡ false → (scalar_type ty.now ≡ Some bool) × (2 ≤ byte) }
    ensures least { result ≡ true → scalar_type ty.now ≡ Some bool → byte < 2 }
{
    match ty {
        InterfaceType::Bool => byte < 2,
        _ => true,
    }
}

/// A handle: the number of its resource.
fn read_handle(bytes: &[u8], at: &mut u64) -> Result<Val, ImageError>
    requires inside { at.old ≤ length bytes.now }
    ensures reads { (h : HandleType) → ReadsTo bytes.now at.old at.new (shape_of_handle h) result }
{
    match read_number(bytes, at) {
        Ok(number) => {
            let resource = ResourceAny::new_borrow(number, ResourceType::host_dynamic(0));
            Ok(Val::Resource(resource))
        }
        Err(error) => Err(error),
    }
}

/// A text: the number of its bytes, and these.
fn read_text(alloc: Global, bytes: &[u8], at: &mut u64) -> Result<Val, ImageError>
    requires inside { at.old ≤ length bytes.now }
    ensures reads { ReadsTo bytes.now at.old at.new string result }
{
    match read_count(bytes, at) {
        Ok(count) => {
            if bytes.len() as u64 - *at < count {
                return Err(ImageError::Truncated(*at));
            }
            let start = *at as usize;
            match std::str::from_utf8(&bytes[start..start + count as usize]) {
                Ok(text) => match String::from_str(alloc, text) {
                    Ok(text) => {
                        *at += count;
                        Ok(Val::String(text))
                    }
                    Err(_) => Err(ImageError::OutOfMemory),
                },
                Err(_) => Err(ImageError::Malformed(*at)),
            }
        }
        Err(error) => Err(error),
    }
}

/// Flags: the bits past the last name are 0.
fn read_flags(
    alloc: Global,
    types: &ComponentTypes,
    i: TypeFlagsIndex,
    bytes: &[u8],
    at: &mut u64,
) -> Result<Val, ImageError>
    requires known { Knows types.now (InterfaceType.Flags i) }
    requires inside { at.old ≤ length bytes.now }
    ensures reads { ReadsTo bytes.now at.old at.new (shape_of types.now (InterfaceType.Flags i)) result }
{
    let flags = types.flags(i);
    let size = u64::from(flags.abi.size32);
    if bytes.len() as u64 - *at < size {
        return Err(ImageError::Truncated(*at));
    }
    if has_spare(bytes, *at, flags.names.len(), flags.abi.size32) {
        return Err(ImageError::Malformed(*at));
    }
    let mut fuel = u64::MAX;
    // The names of a type have fewer than 2^64 bytes in all, so that the fuel is enough.
    match flags_of(alloc, types, &mut fuel, i, &Marks::Bytes(bytes, *at)) {
        Ok(value) => {
            *at += size;
            Ok(value)
        }
        Err(_) => Err(ImageError::OutOfMemory),
    }
}

/// Whether a bit from this number on is set in so many bytes.
fn has_spare(bytes: &[u8], at: u64, first: usize, size: u32) -> bool
    requires inside { at + size ≤ length bytes.now }
    ensures some { result ≡ true → 2 ^ first ≤ num (narrow bytes.now) at size }
    ensures none { result ≡ false → num (narrow bytes.now) at size < 2 ^ first }
{
    for k in first..size as usize * 8 {
        if bytes[at as usize + k / 8] >> (k % 8) & 1 == 1 {
            return true;
        }
    }
    false
}

/// The count in the next 8 bytes.
fn read_count(bytes: &[u8], at: &mut u64) -> Result<u64, ImageError>
    requires inside { at.old ≤ length bytes.now }
    ensures reads { NumberReadTo bytes.now at.old at.new 8 result }
{
    if bytes.len() as u64 - *at < 8 {
        return Err(ImageError::Truncated(*at));
    }
    let start = *at as usize;
    let mut count = [0u8; 8];
    count.copy_from_slice(&bytes[start..start + 8]);
    *at += 8;
    Ok(u64::from_le_bytes(count))
}

/// The number in the next 4 bytes.
fn read_number(bytes: &[u8], at: &mut u64) -> Result<u32, ImageError>
    requires inside { at.old ≤ length bytes.now }
    ensures reads { NumberReadTo bytes.now at.old at.new 4 result }
{
    if bytes.len() as u64 - *at < 4 {
        return Err(ImageError::Truncated(*at));
    }
    let start = *at as usize;
    let mut number = [0u8; 4];
    number.copy_from_slice(&bytes[start..start + 4]);
    *at += 4;
    Ok(u32::from_le_bytes(number))
}

/// How many elements of at least one byte remain, at most so many.
fn room_for(count: u64, bytes: &[u8], at: u64) -> usize
    requires inside { at ≤ length bytes.now }
    ensures few { result ≤ count }
    ensures inside { at + result ≤ length bytes.now }
{
    let left = bytes.len() as u64 - at;
    if count < left {
        count as usize
    } else {
        left as usize
    }
}

fn keep<T: Drop>(items: &mut Vec<T>, item: T) -> Result<(), ImageError>
    ensures ok { OnOk result (items.new.items ≡ items.old.items ++ item ∷ []) }
    ensures err { IfErr result (λ e. e ≡ ImageError.OutOfMemory) }
{
    match items.push(item) {
        Ok(()) => Ok(()),
        Err(_) => Err(ImageError::OutOfMemory),
    }
}
