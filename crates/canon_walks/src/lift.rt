//! Values in words, lifted.

ghost use Rattle.std.specs.Prelude.{ℕ, ◌≡◌, ◌≤◌, ◌<◌, ◌+◌, ◌^◌, IfErr, IfOk, IfSome, IsNone, length, slice_index};
ghost use Rattle.canon_lowering.specs.Storing.{narrow};
ghost use Rattle.canon_model.specs.Layout.{flat, members_flat};
ghost use Rattle.canon_model.specs.Memory.{Memory, low};
ghost use Rattle.canon_model.specs.Reach.{FlatFault, ValuesFault, flat_reach, values_reach, word};
ghost use Rattle.canon_model.specs.Shape.{string};
ghost use Rattle.canon_model.specs.Text.{Encoding};
ghost use Rattle.canon_types.specs.Table.{HasTuple, Knows, plain_shape, shape_of, tuple_members};
ghost use Rattle.canon_abi.specs.Options.{encoding_of};
ghost use Rattle.canon_plan.specs.NoHandle.{IsScalarType};
ghost use Rattle.canon_context.specs.Lifter.{IsOneOrigin};
ghost use Rattle.canon_model.specs.Leaves.{flat_leaves, leaf, members_flat_leaves, values_leaves};
ghost use Rattle.canon_passing.specs.Passed.{LiftsHandles};
ghost use Rattle.canon_value_parts.specs.Resources.{TakesHandle, all_resources, resources};
ghost use Rattle.canon_plan.specs.Plan.{type_of_handle};
ghost use Rattle.canon_plan.specs.Element.{IsKnown, list_shape};
ghost use Rattle.canon_value_parts.specs.Lifts.{ArePartsLifted, AreValues, IsNoChar, IsOfWord, LiftsTo, PartsLiftTo};
ghost use Rattle.canon_context.specs.Told.{IsNoRefusal, IsPlace, LiftBlames, ToldAt};
ghost use Rattle.canon_plan.specs.Plan.{AreKnown, IsCaseKind, IsVariant, shapes_of};
ghost use Rattle.canon_context.specs.declared.fault.At.TheVariants as place;
ghost use Rattle.canon_context.specs.declared.fault.Fault.TheVariants as fault;

use crate::load::load_items;
use canon_context::{At, Fault, Source, charge, charge_each};
use canon_ledger::Ledger;
use canon_memory::ValRaw;
use canon_plan::{
    Element, HandleType, Plan, Slots, VAL_COST, case_of, flat_words, plan_of, slot_count, slot_of,
};
use canon_string::load_text;
use canon_types::{InterfaceType, TypeTupleIndex};
use canon_val::Val;
use canon_value_parts::{keep, lift_flags, rebuild, rebuild_case, take_handle};
use std::alloc::Global;

/// Lifts a function's parameters or results from words in a row (CanonicalABI.md, "lift_flat_values"), however many may go so.
pub fn lift_values_near(
    alloc: Global,
    source: &Source<'_>,
    ledger: &mut Ledger,
    fuel: &mut u64,
    ty: TypeTupleIndex,
    src: &[ValRaw],
) -> Result<Vec<Val>, Fault>
    requires one_origin { IsOneOrigin source.now }
    requires tuple { HasTuple source.now.types.now ty }
    requires words { length src.now ≡ members_flat (tuple_members source.now.types.now ty) }
    ensures ok { (most : ℕ) → members_flat (tuple_members source.now.types.now ty) ≤ most
        → IfOk result (λ values. AreValues most (encoding_of source.now.encoding) (narrow source.now.memory.now) (tuple_members source.now.types.now ty) src.now fuel.old fuel.new values.items) }
    ensures cause { (most : ℕ) → members_flat (tuple_members source.now.types.now ty) ≤ most
        → IfErr result (LiftBlames (ToldAt (ValuesFault (encoding_of source.now.encoding) (narrow source.now.memory.now) src.now most (tuple_members source.now.types.now ty)))
        (fuel.old < values_reach (encoding_of source.now.encoding) (narrow source.now.memory.now) src.now most (tuple_members source.now.types.now ty))) }
    ensures falls { fuel.new ≤ fuel.old }
    ensures handles { (most : ℕ) → members_flat (tuple_members source.now.types.now ty) ≤ most
        → LiftsHandles (λ vs. all_resources vs.items) source.now.instance.now ledger.old ledger.new (values_leaves (narrow source.now.memory.now) src.now most (tuple_members source.now.types.now ty)) result }
{
    let mut next = 0;
    let members = Slots::Places(ty);
    lift_parts(alloc, source, ledger, fuel, &members, src, &mut next)
}

/// Lifts a value from the words from `at` on, which moves past them.
#[cycle(lift)]
pub fn lift_value(
    alloc: Global,
    source: &Source<'_>,
    ledger: &mut Ledger,
    fuel: &mut u64,
    ty: &InterfaceType,
    src: &[ValRaw],
    at: &mut usize,
) -> Result<Val, Fault>
    requires one_origin { IsOneOrigin source.now }
    requires known { Knows source.now.types.now ty.now }
    requires room { at.old + flat (shape_of source.now.types.now ty.now) ≤ length src.now }
    ensures lifts { LiftsTo (encoding_of source.now.encoding) (narrow source.now.memory.now) src.now at.old at.new fuel.old fuel.new (shape_of source.now.types.now ty.now) result }
    ensures scalar { IsScalarType ty.now → at.old < 2 ^ 32 → IfErr result (λ e. e ≡ Fault.InvalidChar (place.Word at.old)) }
    ensures falls { fuel.new ≤ fuel.old }
    ensures handles { LiftsHandles resources source.now.instance.now ledger.old ledger.new (flat_leaves (narrow source.now.memory.now) src.now (shape_of source.now.types.now ty.now) at.old) result }
{
    match plan_of(source.types, ty) {
        Plan::Scalar => lift_scalar(ty, src, at),
        Plan::Text => lift_string(alloc, source, fuel, src, at),
        Plan::Handle(handle) => lift_handle(source, ledger, handle, src, at),
        Plan::List(element) => match lift_list(alloc, source, ledger, fuel, &element, src, at) {
            Ok(items) => rebuild(alloc, source.types, ty, items),
            Err(fault) => Err(fault),
        },
        Plan::Members(members) => {
            charge_each(fuel, slot_count(source.types, &members), VAL_COST)?;
            match lift_parts(alloc, source, ledger, fuel, &members, src, at) {
                Ok(values) => rebuild(alloc, source.types, ty, values),
                Err(fault) => Err(fault),
            }
        }
        Plan::Flags(i) => lift_flags(alloc, source, fuel, i, src, at),
        Plan::Case(_) => lift_case(alloc, source, ledger, fuel, ty, src, at),
    }
}

/// The value of a type of cases (CanonicalABI.md, "lift_flat_variant"). A payload is charged before it is lifted, and the
/// case's name after it. The words past the payload aren't read.
#[cycle(lift)]
fn lift_case(
    alloc: Global,
    source: &Source<'_>,
    ledger: &mut Ledger,
    fuel: &mut u64,
    ty: &InterfaceType,
    src: &[ValRaw],
    at: &mut usize,
) -> Result<Val, Fault>
    requires one_origin { IsOneOrigin source.now }
    requires known { Knows source.now.types.now ty.now }
    requires kind { IsCaseKind ty.now (shape_of source.now.types.now ty.now) }
    requires variant { IsVariant (shape_of source.now.types.now ty.now) }
    requires room { at.old + flat (shape_of source.now.types.now ty.now) ≤ length src.now }
    ensures lifts { LiftsTo (encoding_of source.now.encoding) (narrow source.now.memory.now) src.now at.old at.new fuel.old fuel.new (shape_of source.now.types.now ty.now) result }
    ensures falls { fuel.new ≤ fuel.old }
    ensures handles { LiftsHandles resources source.now.instance.now ledger.old ledger.new (flat_leaves (narrow source.now.memory.now) src.now (shape_of source.now.types.now ty.now) at.old) result }
{
    let index = *at;
    let tag = src[index].get_u32();
    let Some(case) = case_of(source.types, ty, tag) else {
        return Err(Fault::BadDiscriminant(word_at(index), tag));
    };
    charge_each(fuel, slot_count(source.types, &case.payload), VAL_COST)?;
    let mut next = index + 1;
    match lift_parts(alloc, source, ledger, fuel, &case.payload, src, &mut next) {
        Ok(values) => {
            charge(fuel, case.name_length)?;
            *at = index + flat_words(source.types, ty) as usize;
            rebuild_case(alloc, source.types, ty, tag, values)
        }
        Err(fault) => Err(fault),
    }
}

fn lift_scalar(ty: &InterfaceType, src: &[ValRaw], at: &mut usize) -> Result<Val, Fault>
    requires scalar { IsScalarType ty.now }
    requires room { at.old < length src.now }
    ensures lifts { (enc : Encoding) (m : Memory) (fuel : ℕ) → LiftsTo enc m src.now at.old at.new fuel fuel (plain_shape ty.now) result }
    ensures unrefused { IfErr result IsNoRefusal }
    ensures char { at.old < 2 ^ 32 → IfErr result (λ e. e ≡ Fault.InvalidChar (place.Word at.old)) }
{
    let index = *at;
    *at += 1;
    match scalar_of(&src[index], ty) {
        Some(value) => Ok(value),
        None => Err(Fault::InvalidChar(word_at(index))),
    }
}

/// The place of a word; its index stays at the last number of a `u32`.
fn word_at(index: usize) -> At
    ensures { IsPlace result (word index) }
{
    At::Word(index.min(0xffff_ffff) as u32)
}

/// The scalar that a word stands for; none where it should be a char and isn't.
fn scalar_of(word: &ValRaw, ty: &InterfaceType) -> Option<Val>
    requires { IsScalarType ty.now }
    ensures value { IfSome result (IsOfWord ty.now word.now) }
    ensures none { IsNone result → IsNoChar ty.now word.now }
{
    match ty {
        InterfaceType::Bool => Some(Val::Bool(word.get_u32() != 0)),
        InterfaceType::S8 => Some(Val::S8(((word.get_u32() % 256) as u8).cast_signed())),
        InterfaceType::U8 => Some(Val::U8((word.get_u32() % 256) as u8)),
        InterfaceType::S16 => Some(Val::S16(((word.get_u32() % 65536) as u16).cast_signed())),
        InterfaceType::U16 => Some(Val::U16((word.get_u32() % 65536) as u16)),
        InterfaceType::S32 => Some(Val::S32(word.get_i32())),
        InterfaceType::U32 => Some(Val::U32(word.get_u32())),
        InterfaceType::S64 => Some(Val::S64(word.get_u64().cast_signed())),
        InterfaceType::U64 => Some(Val::U64(word.get_u64())),
        InterfaceType::Float32 => Some(Val::Float32(word.get_f32())),
        InterfaceType::Float64 => Some(Val::Float64(word.get_f64())),
        // The one scalar that is left is a char.
        _ => char_of(word),
    }
}

fn char_of(word: &ValRaw) -> Option<Val>
    ensures value { IfSome result (IsOfWord InterfaceType.Char word.now) }
    ensures none { IsNone result → IsNoChar InterfaceType.Char word.now }
{
    match char::from_u32(word.get_u32()) {
        Some(c) => Some(Val::Char(c)),
        None => None,
    }
}

/// Lifts members from words in a row: of a product or of a list of fixed length, or a function's parameters or results. The bytes of a name are
/// charged after its member.
#[cycle(lift)]
fn lift_parts(
    alloc: Global,
    source: &Source<'_>,
    ledger: &mut Ledger,
    fuel: &mut u64,
    members: &Slots,
    src: &[ValRaw],
    at: &mut usize,
) -> Result<Vec<Val>, Fault>
    requires one_origin { IsOneOrigin source.now }
    requires known { AreKnown source.now.types.now members.now }
    requires room { at.old + members_flat (shapes_of source.now.types.now members.now) ≤ length src.now }
    ensures lifts { PartsLiftTo (encoding_of source.now.encoding) (narrow source.now.memory.now) src.now at.old at.new fuel.old fuel.new (shapes_of source.now.types.now members.now) result }
    ensures falls { fuel.new ≤ fuel.old }
    ensures handles { LiftsHandles (λ vs. all_resources vs.items) source.now.instance.now ledger.old ledger.new (members_flat_leaves (narrow source.now.memory.now) src.now (shapes_of source.now.types.now members.now) at.old) result }
{
    let count = slot_count(source.types, members);
    let mut values = Vec::with_capacity(alloc, count as usize)?;
    for k in 0..count {
        let member = slot_of(source.types, members, k);
        let value = lift_value(alloc, source, ledger, fuel, &member.ty, src, at)?;
        charge(fuel, member.name_length)?;
        keep(&mut values, value)?;
    }
    Ok(values)
}

/// The pointer and the length that two words in a row stand for.
fn pointer_and_length(src: &[ValRaw], index: usize) -> (u64, u64)
    requires room { index + 2 ≤ length src.now }
    ensures pointer { result.0 ≡ low (slice_index src.now index) }
    ensures count { result.1 ≡ low (slice_index src.now (index + 1)) }
{
    let pointer = u64::from(src[index].get_u32());
    let length = u64::from(src[index + 1].get_u32());
    (pointer, length)
}

/// Lifts a text by the two words of its pointer and its length.
fn lift_string(
    alloc: Global,
    source: &Source<'_>,
    fuel: &mut u64,
    src: &[ValRaw],
    at: &mut usize,
) -> Result<Val, Fault>
    requires room { at.old + 2 ≤ length src.now }
    ensures lifts { LiftsTo (encoding_of source.now.encoding) (narrow source.now.memory.now) src.now at.old at.new fuel.old fuel.new string result }
    ensures unrefused { IfErr result IsNoRefusal }
    ensures falls { fuel.new ≤ fuel.old }
{
    let index = *at;
    *at += 2;
    let (pointer, length) = pointer_and_length(src, index);
    match load_text(alloc, source, fuel, pointer, length, word_at(index)) {
        Ok(text) => Ok(Val::String(text)),
        Err(fault) => Err(fault),
    }
}

/// Lifts the resource whose handle is a word's low half (CanonicalABI.md, "lift_own", "lift_borrow").
fn lift_handle(
    source: &Source<'_>,
    ledger: &mut Ledger,
    handle: HandleType,
    src: &[ValRaw],
    at: &mut usize,
) -> Result<Val, Fault>
    requires one_origin { IsOneOrigin source.now }
    requires known { Knows source.now.types.now (type_of_handle handle) }
    requires room { at.old < length src.now }
    ensures takes { TakesHandle source.now.instance.now ledger.old ledger.new (leaf handle.owned handle.resource (low (slice_index src.now at.old))) result }
    ensures passes { at.new ≡ at.old + 1 }
{
    let index = *at;
    *at += 1;
    take_handle(source, ledger, handle, src[index].get_u32())
}

/// Lifts the members of a list or a map by the two words of its pointer and its length.
fn lift_list(
    alloc: Global,
    source: &Source<'_>,
    ledger: &mut Ledger,
    fuel: &mut u64,
    element: &Element,
    src: &[ValRaw],
    at: &mut usize,
) -> Result<Vec<Val>, Fault>
    requires one_origin { IsOneOrigin source.now }
    requires known { IsKnown source.now.types.now element.now }
    requires room { at.old + 2 ≤ length src.now }
    ensures ok { IfOk result (λ items. ArePartsLifted (encoding_of source.now.encoding) (narrow source.now.memory.now) src.now at.old at.new fuel.old fuel.new (list_shape source.now.types.now element.now) items.items) }
    ensures err { IfErr result (LiftBlames (ToldAt (FlatFault (encoding_of source.now.encoding) (narrow source.now.memory.now) src.now (list_shape source.now.types.now element.now) at.old))
        (fuel.old < flat_reach (encoding_of source.now.encoding) (narrow source.now.memory.now) src.now (list_shape source.now.types.now element.now) at.old)) }
    ensures falls { fuel.new ≤ fuel.old }
    ensures handles { LiftsHandles (λ vs. all_resources vs.items) source.now.instance.now ledger.old ledger.new (flat_leaves (narrow source.now.memory.now) src.now (list_shape source.now.types.now element.now) at.old) result }
{
    let index = *at;
    *at += 2;
    let (pointer, length) = pointer_and_length(src, index);
    load_items(
        alloc,
        source,
        ledger,
        fuel,
        element,
        pointer,
        length,
        word_at(index),
    )
}
