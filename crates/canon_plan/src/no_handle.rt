//! Whether a type reaches no handle.

ghost use Rattle.std.specs.Prelude.{◌≡◌, All, filter_map};
ghost use Rattle.canon_types.specs.Keeps.{field_members, fields_type};
ghost use Rattle.canon_types.specs.Table.{Knows, members_of, parts, shape_of};
ghost use Rattle.canon_plan.specs.NoHandle.{have_no_handle, has_no_handle};

use canon_types::{ComponentTypes, InterfaceType, RecordField};

/// Whether the type reaches no handle: no `own` and no `borrow`, at any depth.
#[cycle(no_handle)]
pub fn has_no_handle(types: &ComponentTypes, ty: &InterfaceType) -> bool
    requires { Knows types.now ty.now }
    ensures { result ≡ has_no_handle (shape_of types.now ty.now) }
{
    match ty {
        InterfaceType::Bool
        | InterfaceType::S8
        | InterfaceType::U8
        | InterfaceType::S16
        | InterfaceType::U16
        | InterfaceType::S32
        | InterfaceType::U32
        | InterfaceType::S64
        | InterfaceType::U64
        | InterfaceType::Float32
        | InterfaceType::Float64
        | InterfaceType::Char
        | InterfaceType::String => true,
        InterfaceType::List(i) => has_no_handle(types, &types.list(*i).element),
        InterfaceType::FixedLengthList(i) => {
            has_no_handle(types, &types.fixed_length_list(*i).element)
        }
        InterfaceType::Record(i) => fields_have_no_handle(types, &types.record(*i).fields),
        InterfaceType::Tuple(i) => members_have_no_handle(types, &types.tuple(*i).types),
        InterfaceType::Map(i) => {
            let map = types.map(*i);
            has_no_handle(types, &map.key) && has_no_handle(types, &map.value)
        }
        InterfaceType::Variant(i) => {
            payloads_have_no_handle(types, types.variant(*i).cases.values().as_slice())
        }
        InterfaceType::Option(i) => has_no_handle(types, &types.option(*i).ty),
        InterfaceType::Result(i) => {
            let result = types.result(*i);
            payloads_have_no_handle(types, &[result.ok, result.err])
        }
        InterfaceType::Enum(i) => {
            let _names = types.enum_(*i); // the type at this index is an enum
            true
        }
        InterfaceType::Flags(i) => {
            let _names = types.flags(*i); // the type at this index is flags
            true
        }
        InterfaceType::Own(_) | InterfaceType::Borrow(_) => false,
    }
}

#[cycle(no_handle)]
fn fields_have_no_handle(types: &ComponentTypes, fields: &[RecordField]) -> bool
    requires { All (Knows types.now) (parts (fields_type fields.now)) }
    ensures { result ≡ have_no_handle (field_members types.now fields.now) }
{
    for field in fields {
        if !has_no_handle(types, &field.ty) {
            return false;
        }
    }
    true
}

#[cycle(no_handle)]
fn members_have_no_handle(types: &ComponentTypes, members: &[InterfaceType]) -> bool
    requires { All (Knows types.now) members.now }
    ensures { result ≡ have_no_handle (members_of types.now members.now) }
{
    for member in members {
        if !has_no_handle(types, member) {
            return false;
        }
    }
    true
}

#[cycle(no_handle)]
fn payloads_have_no_handle(types: &ComponentTypes, payloads: &[Option<InterfaceType>]) -> bool
    requires { All (Knows types.now) (filter_map (λ p. p) payloads.now) }
    ensures { result ≡ have_no_handle (members_of types.now (filter_map (λ p. p) payloads.now)) }
{
    for payload in payloads {
        let Some(ty) = payload else { continue };
        if !has_no_handle(types, ty) {
            return false;
        }
    }
    true
}
