//! Values in memory, lifted.

ghost use Rattle.std.specs.Prelude.{◌≡◌, ◌≤◌, ◌<◌, ◌+◌, ◌*◌, ◌%◌, ◌^◌, IfErr, IfOk, false, length};
ghost use Rattle.canon_abi.specs.Abi.{HasInfo};
ghost use Rattle.canon_lowering.specs.Storing.{narrow};
ghost use Rattle.canon_model.specs.Layout.{align, members_align, members_end, size};
ghost use Rattle.canon_model.specs.Leaves.{leaf, list_leaves, members_reach_leaves, reach_leaves};
ghost use Rattle.canon_model.specs.Memory.{Inside, num};
ghost use Rattle.canon_model.specs.Reach.{MemberFault, StoredFault, members_reach, reach_cost};
ghost use Rattle.canon_model.specs.Shape.{string};
ghost use Rattle.canon_types.specs.Depth.{element_shape, variant_cases};
ghost use Rattle.canon_types.specs.Table.{HasTuple, Knows, shape_of, tuple_members};
ghost use Rattle.canon_abi.specs.Options.{encoding_of};
ghost use Rattle.canon_plan.specs.NoHandle.{IsScalarType};
ghost use Rattle.canon_context.specs.Lifter.{IsOneOrigin};
ghost use Rattle.canon_plan.specs.Element.{IsKnown, ItemsFault, element_cost, items_reach, list_shape};
ghost use Rattle.canon_context.specs.Told.{Exactly, IsNoRefusal, LiftBlames, place_of};
ghost use Rattle.canon_value_parts.specs.Loads.{AreCharged, AreLoaded, IsLoaded, charged_reach};
ghost use Rattle.canon_passing.specs.Passed.{LiftsHandles};
ghost use Rattle.canon_value_parts.specs.Resources.{TakesHandle, all_resources, resources};
ghost use Rattle.canon_plan.specs.Plan.{type_of_handle};
ghost use Rattle.canon_context.specs.declared.fault.At.TheVariants as place;
ghost use Rattle.canon_context.specs.declared.fault.Fault.TheVariants as fault;
ghost use Rattle.canon_plan.specs.Plan.{AreKnown, IsCaseKind, IsVariant, shapes_of};
ghost use Rattle.canon_value_parts.specs.Plan.{ArePartsLoaded, IsListLoaded};

use canon_bytes::{ends_inside, load_tag, load_u32};
use canon_context::{At, Fault, Source, charge, charge_each};
use canon_ledger::Ledger;
use canon_plan::{
    Element, HandleType, Plan, Slots, VAL_COST, case_of, element_abi, element_cost, plan_of,
    slot_count, slot_of, slots_of,
};
use canon_string::load_text;
use canon_types::{InterfaceType, TypeTupleIndex, VariantInfo};
use canon_val::Val;
use canon_value_parts::{keep, load_flags, load_scalar, rebuild, rebuild_case, take_handle};
use std::alloc::Global;

/// The value of a type at an address. The members of a product or of a list of fixed length are charged first.
#[cycle(load)]
pub fn load_value(
    alloc: Global,
    source: &Source<'_>,
    ledger: &mut Ledger,
    fuel: &mut u64,
    ty: &InterfaceType,
    at: u64,
) -> Result<Val, Fault>
    requires one_origin { IsOneOrigin source.now }
    requires known { Knows source.now.types.now ty.now }
    requires aligned { at % align false (shape_of source.now.types.now ty.now) ≡ 0 }
    requires inside { at + size false (shape_of source.now.types.now ty.now) ≤ length source.now.memory.now }
    ensures ok { IfOk result (IsLoaded (encoding_of source.now.encoding) (narrow source.now.memory.now) (shape_of source.now.types.now ty.now) at fuel.old fuel.new) }
    ensures err { IfErr result (LiftBlames (Exactly (StoredFault (encoding_of source.now.encoding) (narrow source.now.memory.now) (shape_of source.now.types.now ty.now) at))
        (fuel.old < reach_cost (encoding_of source.now.encoding) (narrow source.now.memory.now) (shape_of source.now.types.now ty.now) at)) }
    ensures scalar { IsScalarType ty.now → IfErr result (λ e. e ≡ Fault.InvalidChar (place.Address at)) }
    ensures falls { fuel.new ≤ fuel.old }
    ensures handles { LiftsHandles resources source.now.instance.now ledger.old ledger.new (reach_leaves (narrow source.now.memory.now) (shape_of source.now.types.now ty.now) at) result }
{
    match plan_of(source.types, ty) {
        Plan::Scalar => load_scalar(source.memory, ty, at),
        Plan::Text => load_string(alloc, source, fuel, at),
        Plan::Handle(handle) => load_handle(source, ledger, handle, at),
        Plan::List(element) => match load_list(alloc, source, ledger, fuel, &element, at) {
            Ok(items) => rebuild(alloc, source.types, ty, items),
            Err(fault) => Err(fault),
        },
        Plan::Members(members) => {
            charge_each(fuel, slot_count(source.types, &members), VAL_COST)?;
            match load_parts(alloc, source, ledger, fuel, &members, at) {
                Ok(values) => rebuild(alloc, source.types, ty, values),
                Err(fault) => Err(fault),
            }
        }
        Plan::Flags(i) => load_flags(alloc, source, fuel, i, at),
        Plan::Case(info) => load_case(alloc, source, ledger, fuel, ty, &info, at),
    }
}

/// The value of a type of cases (CanonicalABI.md, "load_variant"). A payload is charged before it is loaded, and the
/// case's name after it.
#[cycle(load)]
fn load_case(
    alloc: Global,
    source: &Source<'_>,
    ledger: &mut Ledger,
    fuel: &mut u64,
    ty: &InterfaceType,
    info: &VariantInfo,
    at: u64,
) -> Result<Val, Fault>
    requires one_origin { IsOneOrigin source.now }
    requires known { Knows source.now.types.now ty.now }
    requires kind { IsCaseKind ty.now (shape_of source.now.types.now ty.now) }
    requires variant { IsVariant (shape_of source.now.types.now ty.now) }
    requires info { HasInfo info.now (variant_cases (shape_of source.now.types.now ty.now)) }
    requires aligned { at % align false (shape_of source.now.types.now ty.now) ≡ 0 }
    requires inside { at + size false (shape_of source.now.types.now ty.now) ≤ length source.now.memory.now }
    ensures ok { IfOk result (IsLoaded (encoding_of source.now.encoding) (narrow source.now.memory.now) (shape_of source.now.types.now ty.now) at fuel.old fuel.new) }
    ensures err { IfErr result (LiftBlames (Exactly (StoredFault (encoding_of source.now.encoding) (narrow source.now.memory.now) (shape_of source.now.types.now ty.now) at))
        (fuel.old < reach_cost (encoding_of source.now.encoding) (narrow source.now.memory.now) (shape_of source.now.types.now ty.now) at)) }
    ensures falls { fuel.new ≤ fuel.old }
    ensures handles { LiftsHandles resources source.now.instance.now ledger.old ledger.new (reach_leaves (narrow source.now.memory.now) (shape_of source.now.types.now ty.now) at) result }
{
    let tag = load_tag(source.memory, info.size, at);
    let Some(case) = case_of(source.types, ty, tag) else {
        return Err(Fault::BadDiscriminant(At::Address(at), tag));
    };
    charge_each(fuel, slot_count(source.types, &case.payload), VAL_COST)?;
    let start = at + u64::from(info.payload_offset32);
    match load_parts(alloc, source, ledger, fuel, &case.payload, start) {
        Ok(values) => {
            charge(fuel, case.name_length)?;
            rebuild_case(alloc, source.types, ty, tag, values)
        }
        Err(fault) => Err(fault),
    }
}

/// Members from an address on: of a product, of a list or one of fixed length, or a function's parameters or results. The bytes of a name are
/// charged before its member.
#[cycle(load)]
fn load_parts(
    alloc: Global,
    source: &Source<'_>,
    ledger: &mut Ledger,
    fuel: &mut u64,
    members: &Slots,
    at: u64,
) -> Result<Vec<Val>, Fault>
    requires one_origin { IsOneOrigin source.now }
    requires known { AreKnown source.now.types.now members.now }
    requires aligned { at % members_align false (shapes_of source.now.types.now members.now) ≡ 0 }
    requires inside { at + members_end false 0 (shapes_of source.now.types.now members.now) ≤ length source.now.memory.now }
    ensures ok { IfOk result (λ vs. AreCharged (encoding_of source.now.encoding) (narrow source.now.memory.now) (shapes_of source.now.types.now members.now) 0 at fuel.old fuel.new vs.items) }
    ensures err { IfErr result (LiftBlames (Exactly (MemberFault (encoding_of source.now.encoding) (narrow source.now.memory.now) (shapes_of source.now.types.now members.now) 0 at))
        (fuel.old < charged_reach (encoding_of source.now.encoding) (narrow source.now.memory.now) (shapes_of source.now.types.now members.now) 0 at)) }
    ensures falls { fuel.new ≤ fuel.old }
    ensures handles { LiftsHandles (λ vs. all_resources vs.items) source.now.instance.now ledger.old ledger.new (members_reach_leaves (narrow source.now.memory.now) (shapes_of source.now.types.now members.now) 0 at) result }
{
    let count = slot_count(source.types, members);
    let mut values = Vec::with_capacity(alloc, count as usize)?;
    let mut end = 0u64;
    for k in 0..count {
        let member = slot_of(source.types, members, k);
        let start = source
            .types
            .canonical_abi(&member.ty)
            .next_field32_size(&mut end);
        charge(fuel, member.name_length)?;
        let value = load_value(alloc, source, ledger, fuel, &member.ty, at + start)?;
        keep(&mut values, value)?;
    }
    Ok(values)
}

/// The parameters or the results of a function, at an address.
pub fn load_members(
    alloc: Global,
    source: &Source<'_>,
    ledger: &mut Ledger,
    fuel: &mut u64,
    i: TypeTupleIndex,
    at: u64,
) -> Result<Vec<Val>, Fault>
    requires one_origin { IsOneOrigin source.now }
    requires known { HasTuple source.now.types.now i }
    requires aligned { at % members_align false (tuple_members source.now.types.now i) ≡ 0 }
    requires inside { at + members_end false 0 (tuple_members source.now.types.now i) ≤ length source.now.memory.now }
    ensures ok { IfOk result (λ vs. AreLoaded (encoding_of source.now.encoding) (narrow source.now.memory.now) (tuple_members source.now.types.now i) 0 at fuel.old fuel.new vs.items) }
    ensures err { IfErr result (LiftBlames (Exactly (MemberFault (encoding_of source.now.encoding) (narrow source.now.memory.now) (tuple_members source.now.types.now i) 0 at))
        (fuel.old < members_reach (encoding_of source.now.encoding) (narrow source.now.memory.now) (tuple_members source.now.types.now i) 0 at)) }
    ensures falls { fuel.new ≤ fuel.old }
    ensures handles { LiftsHandles (λ vs. all_resources vs.items) source.now.instance.now ledger.old ledger.new (members_reach_leaves (narrow source.now.memory.now) (tuple_members source.now.types.now i) 0 at) result }
{
    load_parts(alloc, source, ledger, fuel, &Slots::Places(i), at)
}

/// The resource whose handle stands at an address (CanonicalABI.md, "lift_own", "lift_borrow").
fn load_handle(
    source: &Source<'_>,
    ledger: &mut Ledger,
    handle: HandleType,
    at: u64,
) -> Result<Val, Fault>
    requires one_origin { IsOneOrigin source.now }
    requires known { Knows source.now.types.now (type_of_handle handle) }
    requires inside { at + 4 ≤ length source.now.memory.now }
    ensures takes { TakesHandle source.now.instance.now ledger.old ledger.new (leaf handle.owned handle.resource (num (narrow source.now.memory.now) at 4)) result }
{
    take_handle(source, ledger, handle, load_u32(source.memory, at))
}

/// The text whose pointer and length stand at an address (CanonicalABI.md, "load_string").
fn load_string(alloc: Global, source: &Source<'_>, fuel: &mut u64, at: u64) -> Result<Val, Fault>
    requires inside { at + 8 ≤ length source.now.memory.now }
    ensures ok { IfOk result (IsLoaded (encoding_of source.now.encoding) (narrow source.now.memory.now) string at fuel.old fuel.new) }
    ensures err { IfErr result (LiftBlames (Exactly (StoredFault (encoding_of source.now.encoding) (narrow source.now.memory.now) string at))
        (fuel.old < reach_cost (encoding_of source.now.encoding) (narrow source.now.memory.now) string at)) }
    ensures unrefused { IfErr result IsNoRefusal }
    ensures falls { fuel.new ≤ fuel.old }
{
    let pointer = u64::from(load_u32(source.memory, at));
    let length = u64::from(load_u32(source.memory, at + 4));
    match load_text(alloc, source, fuel, pointer, length, At::Address(at)) {
        Ok(text) => Ok(Val::String(text)),
        Err(fault) => Err(fault),
    }
}

/// The members of the list or map whose pointer and length stand at an address (CanonicalABI.md, "load_list").
#[cycle(load)]
fn load_list(
    alloc: Global,
    source: &Source<'_>,
    ledger: &mut Ledger,
    fuel: &mut u64,
    element: &Element,
    at: u64,
) -> Result<Vec<Val>, Fault>
    requires one_origin { IsOneOrigin source.now }
    requires known { IsKnown source.now.types.now element.now }
    requires inside { at + 8 ≤ length source.now.memory.now }
    ensures ok { IfOk result (λ vs. ArePartsLoaded (encoding_of source.now.encoding) (narrow source.now.memory.now) (list_shape source.now.types.now element.now) at fuel.old fuel.new vs.items) }
    ensures err { IfErr result (LiftBlames (Exactly (StoredFault (encoding_of source.now.encoding) (narrow source.now.memory.now) (list_shape source.now.types.now element.now) at))
        (fuel.old < reach_cost (encoding_of source.now.encoding) (narrow source.now.memory.now) (list_shape source.now.types.now element.now) at)) }
    ensures falls { fuel.new ≤ fuel.old }
    ensures handles { LiftsHandles (λ vs. all_resources vs.items) source.now.instance.now ledger.old ledger.new (reach_leaves (narrow source.now.memory.now) (list_shape source.now.types.now element.now) at) result }
{
    let pointer = u64::from(load_u32(source.memory, at));
    let length = u64::from(load_u32(source.memory, at + 4));
    load_items(
        alloc,
        source,
        ledger,
        fuel,
        element,
        pointer,
        length,
        At::Address(at),
    )
}

/// The members of the list or map of this length at this pointer, which stands at `at` (CanonicalABI.md, "load_list_from_range"):
/// it is tested that they end inside memory, then the list is charged, and then the alignment is tested. Room for them is made
/// after that alone: out of memory comes only where they are inside memory and paid for.
#[cycle(load)]
pub fn load_items(
    alloc: Global,
    source: &Source<'_>,
    ledger: &mut Ledger,
    fuel: &mut u64,
    element: &Element,
    pointer: u64,
    length: u64,
    at: At,
) -> Result<Vec<Val>, Fault>
    requires one_origin { IsOneOrigin source.now }
    requires known { IsKnown source.now.types.now element.now }
    requires narrow_length { length < 2 ^ 32 }
    ensures ok { IfOk result (λ vs. IsListLoaded (encoding_of source.now.encoding) (narrow source.now.memory.now) (list_shape source.now.types.now element.now) pointer length fuel.old fuel.new vs.items) }
    ensures err { IfErr result (LiftBlames (Exactly (ItemsFault (encoding_of source.now.encoding) (narrow source.now.memory.now) (list_shape source.now.types.now element.now) (place_of at) pointer length))
        (fuel.old < items_reach (encoding_of source.now.encoding) (narrow source.now.memory.now) (list_shape source.now.types.now element.now) pointer length)) }
    ensures room { IfErr result (λ e. e ≡ Fault.OutOfMemory
        → Inside (narrow source.now.memory.now) pointer (length * size false (element_shape (list_shape source.now.types.now element.now)))
        × (length * element_cost (list_shape source.now.types.now element.now) ≤ fuel.old)) }
    ensures falls { fuel.new ≤ fuel.old }
    ensures handles { LiftsHandles (λ vs. all_resources vs.items) source.now.instance.now ledger.old ledger.new
        (list_leaves (narrow source.now.memory.now) (reach_leaves (narrow source.now.memory.now) (element_shape (list_shape source.now.types.now element.now)))
        (element_shape (list_shape source.now.types.now element.now)) pointer length) result }
{
    let abi = element_abi(source.types, element);
    if !ends_inside(source.memory, pointer, length, abi.size32) {
        return Err(Fault::PointerOutOfBounds(at));
    }
    charge_each(fuel, length, element_cost(element))?;
    if pointer % u64::from(abi.align32) != 0 {
        return Err(Fault::PointerMisaligned(at));
    }
    let members = slots_of(element, length);
    load_parts(alloc, source, ledger, fuel, &members, pointer)
}
