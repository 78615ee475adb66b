//! Whether a type reaches a text, a list or a map.

ghost use Rattle.std.specs.Prelude.{◌≡◌, All, filter_map};
ghost use Rattle.canon_types.specs.Keeps.{field_members, fields_type};
ghost use Rattle.canon_types.specs.Table.{Knows, members_of, parts, shape_of};
ghost use Rattle.canon_context.specs.Quiet.{has_block, have_block};

use canon_types::{ComponentTypes, InterfaceType, RecordField};

/// Whether the type reaches a text, a list or a map, at any depth.
#[cycle(block)]
pub fn has_block(types: &ComponentTypes, ty: &InterfaceType) -> bool
    requires { Knows types.now ty.now }
    ensures { result ≡ has_block (shape_of types.now ty.now) }
{
    match ty {
        InterfaceType::Bool
        | InterfaceType::S8
        | InterfaceType::U8
        | InterfaceType::S16
        | InterfaceType::U16
        | InterfaceType::S32
        | InterfaceType::U32
        | InterfaceType::S64
        | InterfaceType::U64
        | InterfaceType::Float32
        | InterfaceType::Float64
        | InterfaceType::Char
        | InterfaceType::Own(_)
        | InterfaceType::Borrow(_) => false,
        InterfaceType::String => true,
        InterfaceType::List(i) => {
            let _element = types.list(*i); // the type at this index is a list
            true
        }
        InterfaceType::FixedLengthList(i) => {
            has_block(types, &types.fixed_length_list(*i).element)
        }
        InterfaceType::Record(i) => fields_have_block(types, &types.record(*i).fields),
        InterfaceType::Tuple(i) => members_have_block(types, &types.tuple(*i).types),
        InterfaceType::Map(i) => {
            let _entry = types.map(*i); // the type at this index is a map
            true
        }
        InterfaceType::Variant(i) => {
            payloads_have_block(types, types.variant(*i).cases.values().as_slice())
        }
        InterfaceType::Option(i) => has_block(types, &types.option(*i).ty),
        InterfaceType::Result(i) => {
            let result = types.result(*i);
            payloads_have_block(types, &[result.ok, result.err])
        }
        InterfaceType::Enum(i) => {
            let _names = types.enum_(*i); // the type at this index is an enum
            false
        }
        InterfaceType::Flags(i) => {
            let _names = types.flags(*i); // the type at this index is flags
            false
        }
    }
}

#[cycle(block)]
fn fields_have_block(types: &ComponentTypes, fields: &[RecordField]) -> bool
    requires { All (Knows types.now) (parts (fields_type fields.now)) }
    ensures { result ≡ have_block (field_members types.now fields.now) }
{
    for field in fields {
        if has_block(types, &field.ty) {
            return true;
        }
    }
    false
}

#[cycle(block)]
fn members_have_block(types: &ComponentTypes, members: &[InterfaceType]) -> bool
    requires { All (Knows types.now) members.now }
    ensures { result ≡ have_block (members_of types.now members.now) }
{
    for member in members {
        if has_block(types, member) {
            return true;
        }
    }
    false
}

#[cycle(block)]
fn payloads_have_block(types: &ComponentTypes, payloads: &[Option<InterfaceType>]) -> bool
    requires { All (Knows types.now) (filter_map (λ p. p) payloads.now) }
    ensures { result ≡ have_block (members_of types.now (filter_map (λ p. p) payloads.now)) }
{
    for payload in payloads {
        let Some(ty) = payload else { continue };
        if has_block(types, ty) {
            return true;
        }
    }
    false
}
