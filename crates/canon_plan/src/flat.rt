//! How many words a type has. `CanonicalAbiInfo` tells up to 16 only; a value may be lowered to more.

ghost use Rattle.std.specs.Prelude.{◌≡◌, ◌<◌, ◌^◌, All};
ghost use Rattle.canon_model.specs.Layout.{cases_flat, flat, members_flat};
ghost use Rattle.canon_types.specs.Keeps.{field_members, fields_type};
ghost use Rattle.canon_types.specs.Laid.{unnamed_cases};
ghost use Rattle.canon_types.specs.Table.{Knows, KnowsPayload, all_shapes, members_of, parts, shape_of};

use canon_types::{ComponentTypes, InterfaceType, RecordField};

/// The number of words of a type (CanonicalABI.md, "flatten_type").
#[cycle(flat)]
pub fn flat_words(types: &ComponentTypes, ty: &InterfaceType) -> u64
    requires known { Knows types.now ty.now }
    requires few { flat (shape_of types.now ty.now) < 2 ^ 64 }
    ensures { result ≡ flat (shape_of types.now ty.now) }
{
    match types.canonical_abi(ty).flat {
        Some(words) => u64::from(words),
        None => many_words(types, ty),
    }
}

/// The same of a type that has more than 16.
#[cycle(flat)]
fn many_words(types: &ComponentTypes, ty: &InterfaceType) -> u64
    requires known { Knows types.now ty.now }
    requires many { 16 < flat (shape_of types.now ty.now) }
    requires few { flat (shape_of types.now ty.now) < 2 ^ 64 }
    ensures { result ≡ flat (shape_of types.now ty.now) }
{
    match ty {
        InterfaceType::Record(i) => field_words(types, &types.record(*i).fields),
        InterfaceType::Tuple(i) => member_words(types, &types.tuple(*i).types),
        InterfaceType::FixedLengthList(i) => {
            let list = types.fixed_length_list(*i);
            u64::from(list.size) * flat_words(types, &list.element)
        }
        InterfaceType::Variant(i) => {
            let payloads = types.variant(*i).cases.values();
            1 + payload_words(types, payloads.as_slice())
        }
        InterfaceType::Option(i) => 1 + flat_words(types, &types.option(*i).ty),
        InterfaceType::Result(i) => {
            let result = types.result(*i);
            1 + payload_words(types, &[result.ok, result.err])
        }
        InterfaceType::Flags(i) => (types.flags(*i).names.len() as u64).div_ceil(32),
        _ => unreachable!(),
    }
}

#[cycle(flat)]
fn field_words(types: &ComponentTypes, fields: &[RecordField]) -> u64
    requires known { All (Knows types.now) (parts (fields_type fields.now)) }
    requires few { members_flat (field_members types.now fields.now) < 2 ^ 64 }
    ensures { result ≡ members_flat (field_members types.now fields.now) }
{
    let mut words = 0;
    for field in fields {
        words += flat_words(types, &field.ty);
    }
    words
}

#[cycle(flat)]
fn member_words(types: &ComponentTypes, members: &[InterfaceType]) -> u64
    requires known { All (Knows types.now) members.now }
    requires few { members_flat (members_of types.now members.now) < 2 ^ 64 }
    ensures { result ≡ members_flat (members_of types.now members.now) }
{
    let mut words = 0;
    for member in members {
        words += flat_words(types, member);
    }
    words
}

/// Of the longest of these payloads.
#[cycle(flat)]
fn payload_words(types: &ComponentTypes, payloads: &[Option<InterfaceType>]) -> u64
    requires known { All (KnowsPayload types.now) payloads.now }
    requires few { cases_flat (unnamed_cases (all_shapes types.now) payloads.now) < 2 ^ 64 }
    ensures { result ≡ cases_flat (unnamed_cases (all_shapes types.now) payloads.now) }
{
    let mut words = 0u64;
    for payload in payloads {
        let Some(ty) = payload else {
            continue;
        };
        words = words.max(flat_words(types, ty));
    }
    words
}
