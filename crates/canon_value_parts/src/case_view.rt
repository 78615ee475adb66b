//! A value as a case of its type: the case's number, and its payload as no member or one.

ghost use Rattle.std.specs.Prelude.{IfErr, IfOk};
ghost use Rattle.canon_types.specs.Table.{Knows};
ghost use Rattle.canon_value_parts.specs.CaseView.{IsPayloadViewed, Misses};
ghost use Rattle.canon_value_parts.specs.Viewed.{Viewed};

use crate::members::Members;
use crate::view::View;
use canon_context::Fault;
use canon_types::{
    ComponentTypes, InterfaceType, TypeEnumIndex, TypeOptionIndex, TypeResultIndex,
    TypeVariantIndex, VariantInfo,
};
use canon_val::Val;

/// How the type's cases lie, the number of the value's, and its payload.
#[derive(Clone, Copy)]
pub struct Case<'a> {
    /// How the type's cases lie.
    pub info: VariantInfo,
    /// The number of the value's case.
    pub tag: u32,
    /// The payload: one value, or none.
    pub payload: Members<'a>,
}

pub(crate) fn variant_view<'a>(
    types: &ComponentTypes,
    i: TypeVariantIndex,
    value: &'a Val,
    place: u64,
) -> Result<View<'a>, Fault>
    requires known { Knows types.now (InterfaceType.Variant i) }
    ensures { Viewed types.now (InterfaceType.Variant i) value.now place result }
{
    let variant = types.variant(i);
    let Val::Variant(name, payload) = value else {
        return Err(Fault::TypeMismatch(place));
    };
    let Some((tag, _, ty)) = variant.cases.get_full(name.as_str()) else {
        return Err(Fault::UnknownCase(place));
    };
    match payload_of(*ty, payload, place) {
        Ok(payload) => Ok(View::Case(Case {
            info: variant.info,
            tag: tag as u32,
            payload,
        })),
        Err(fault) => Err(fault),
    }
}

pub(crate) fn enum_view<'a>(
    types: &ComponentTypes,
    i: TypeEnumIndex,
    value: &'a Val,
    place: u64,
) -> Result<View<'a>, Fault>
    requires known { Knows types.now (InterfaceType.Enum i) }
    ensures { Viewed types.now (InterfaceType.Enum i) value.now place result }
{
    let names = types.enum_(i);
    let Val::Enum(name) = value else {
        return Err(Fault::TypeMismatch(place));
    };
    let Some(tag) = names.names.get_index_of(name.as_str()) else {
        return Err(Fault::UnknownCase(place));
    };
    Ok(View::Case(Case {
        info: names.info,
        tag: tag as u32,
        payload: Members::Empty,
    }))
}

pub(crate) fn option_view<'a>(
    types: &ComponentTypes,
    i: TypeOptionIndex,
    value: &'a Val,
    place: u64,
) -> Result<View<'a>, Fault>
    requires known { Knows types.now (InterfaceType.Option i) }
    ensures { Viewed types.now (InterfaceType.Option i) value.now place result }
{
    let option = types.option(i);
    let Val::Option(payload) = value else {
        return Err(Fault::TypeMismatch(place));
    };
    match payload {
        None => Ok(View::Case(Case {
            info: option.info,
            tag: 0,
            payload: Members::Empty,
        })),
        Some(payload) => Ok(View::Case(Case {
            info: option.info,
            tag: 1,
            payload: Members::Single(option.ty, payload),
        })),
    }
}

pub(crate) fn result_view<'a>(
    types: &ComponentTypes,
    i: TypeResultIndex,
    value: &'a Val,
    place: u64,
) -> Result<View<'a>, Fault>
    requires known { Knows types.now (InterfaceType.Result i) }
    ensures { Viewed types.now (InterfaceType.Result i) value.now place result }
{
    let types = types.result(i);
    let Val::Result(payload) = value else {
        return Err(Fault::TypeMismatch(place));
    };
    let (tag, ty, payload) = match payload {
        Ok(payload) => (0, types.ok, payload),
        Err(payload) => (1, types.err, payload),
    };
    match payload_of(ty, payload, place) {
        Ok(payload) => Ok(View::Case(Case {
            info: types.info,
            tag,
            payload,
        })),
        Err(fault) => Err(fault),
    }
}

/// The payload of a value that has this place, where its case has one exactly if the value has.
fn payload_of<'a>(
    ty: Option<InterfaceType>,
    payload: &'a Option<Box<Val>>,
    place: u64,
) -> Result<Members<'a>, Fault>
    ensures ok { IfOk result (IsPayloadViewed ty payload.now) }
    ensures err { IfErr result (Misses ty payload.now place) }
{
    match payload {
        None => match ty {
            None => Ok(Members::Empty),
            Some(_) => Err(Fault::PayloadExpected(place)),
        },
        Some(payload) => match ty {
            None => Err(Fault::PayloadNotExpected(place)),
            Some(ty) => Ok(Members::Single(ty, payload)),
        },
    }
}
