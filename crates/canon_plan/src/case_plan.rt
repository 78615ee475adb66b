//! The cases of a type, by their numbers: where the payload stands, and what the name costs.

ghost use Rattle.std.specs.Prelude.{◌≡◌};
ghost use Rattle.canon_types.specs.Table.{Knows, shape_of};
ghost use Rattle.canon_plan.specs.CasePlan.{IsPayload, TellsCase};
ghost use Rattle.canon_plan.specs.Plan.{IsCaseKind, Plans};

use crate::plan::{Plan, Slots};
use canon_types::{
    ComponentTypes, InterfaceType, TypeEnumIndex, TypeOptionIndex, TypeResultIndex,
    TypeVariantIndex,
};

/// A case: its payload, and how many bytes of its name are charged; of an option's and a result's, none.
#[derive(Clone, Copy)]
pub struct CaseSlots {
    /// The type of its payload, or none.
    pub payload: Slots,
    /// The bytes of its name that are charged.
    pub name_length: u64,
}

/// The case of this number; none where the type has no such case.
pub fn case_of(types: &ComponentTypes, ty: &InterfaceType, tag: u32) -> Option<CaseSlots>
    requires known { Knows types.now ty.now }
    requires kind { IsCaseKind ty.now (shape_of types.now ty.now) }
    ensures { TellsCase types.now (shape_of types.now ty.now) tag result }
{
    match ty {
        InterfaceType::Variant(i) => variant_case(types, *i, tag),
        InterfaceType::Enum(i) => enum_case(types, *i, tag),
        InterfaceType::Option(i) => option_case(types, *i, tag),
        InterfaceType::Result(i) => result_case(types, *i, tag),
        _ => unreachable!(),
    }
}

fn variant_case(types: &ComponentTypes, i: TypeVariantIndex, tag: u32) -> Option<CaseSlots>
    requires known { Knows types.now (InterfaceType.Variant i) }
    ensures { TellsCase types.now (shape_of types.now (InterfaceType.Variant i)) tag result }
{
    let (name, payload) = types.variant(i).cases.get_index(tag as usize)?;
    Some(CaseSlots {
        payload: payload_slots(*payload),
        name_length: name.len() as u64,
    })
}

fn enum_case(types: &ComponentTypes, i: TypeEnumIndex, tag: u32) -> Option<CaseSlots>
    requires known { Knows types.now (InterfaceType.Enum i) }
    ensures { TellsCase types.now (shape_of types.now (InterfaceType.Enum i)) tag result }
{
    let name = types.enum_(i).names.get_index(tag as usize)?;
    Some(CaseSlots {
        payload: Slots::Empty,
        name_length: name.len() as u64,
    })
}

fn option_case(types: &ComponentTypes, i: TypeOptionIndex, tag: u32) -> Option<CaseSlots>
    requires known { Knows types.now (InterfaceType.Option i) }
    ensures { TellsCase types.now (shape_of types.now (InterfaceType.Option i)) tag result }
{
    let some = types.option(i).ty;
    match tag {
        0 => Some(unnamed(Slots::Empty)),
        1 => Some(unnamed(Slots::Single(some))),
        _ => None,
    }
}

fn result_case(types: &ComponentTypes, i: TypeResultIndex, tag: u32) -> Option<CaseSlots>
    requires known { Knows types.now (InterfaceType.Result i) }
    ensures { TellsCase types.now (shape_of types.now (InterfaceType.Result i)) tag result }
{
    let result = types.result(i);
    match tag {
        0 => Some(unnamed(payload_slots(result.ok))),
        1 => Some(unnamed(payload_slots(result.err))),
        _ => None,
    }
}

/// A case whose name is free.
fn unnamed(payload: Slots) -> CaseSlots
    ensures payload { result.payload ≡ payload }
    ensures free { result.name_length ≡ 0 }
{
    CaseSlots {
        payload,
        name_length: 0,
    }
}

fn payload_slots(ty: Option<InterfaceType>) -> Slots
    ensures { IsPayload ty result }
{
    match ty {
        Some(ty) => Slots::Single(ty),
        None => Slots::Empty,
    }
}

/// The plan of a variant: how its cases lie.
pub fn variant_plan(types: &ComponentTypes, i: TypeVariantIndex) -> Plan
    requires known { Knows types.now (InterfaceType.Variant i) }
    ensures { Plans types.now (InterfaceType.Variant i) result }
{
    Plan::Case(types.variant(i).info)
}

/// The plan of an enum, whose cases have no payloads.
pub fn enum_plan(types: &ComponentTypes, i: TypeEnumIndex) -> Plan
    requires known { Knows types.now (InterfaceType.Enum i) }
    ensures { Plans types.now (InterfaceType.Enum i) result }
{
    Plan::Case(types.enum_(i).info)
}

/// The plan of an option: the cases 0, for none, and 1.
pub fn option_plan(types: &ComponentTypes, i: TypeOptionIndex) -> Plan
    requires known { Knows types.now (InterfaceType.Option i) }
    ensures { Plans types.now (InterfaceType.Option i) result }
{
    Plan::Case(types.option(i).info)
}

/// The plan of a result: the cases 0, for ok, and 1.
pub fn result_plan(types: &ComponentTypes, i: TypeResultIndex) -> Plan
    requires known { Knows types.now (InterfaceType.Result i) }
    ensures { Plans types.now (InterfaceType.Result i) result }
{
    Plan::Case(types.result(i).info)
}
