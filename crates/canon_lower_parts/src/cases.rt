//! Cases, stored: a number, and the type and the place of the payload behind it.

ghost use Rattle.std.specs.Prelude.{◌≡◌, ◌≤◌, ◌<◌, ◌+◌, false, length};
ghost use Rattle.canon_abi.specs.Abi.{HasInfo};
ghost use Rattle.canon_context.specs.Core.{component_types};
ghost use Rattle.canon_lower_parts.specs.CasePuts.{IsVariantShape, IsCasePut, IsOptionPut, IsResultPut, pick};
ghost use Rattle.canon_model.specs.Layout.{size};
ghost use Rattle.canon_model.specs.Shape.{case_count};
ghost use Rattle.canon_types.specs.Depth.{variant_cases};
ghost use Rattle.canon_types.specs.Table.{Knows, shape_of};
ghost use Rattle.canon_typed.specs.Types.{IsOptionOf, IsResultOf};

use crate::put::put;
use canon_context::LowerContext;
use canon_memory::Guest;
use canon_typed::ComponentType;
use canon_types::{InterfaceType, TypeResult, VariantInfo};

/// Writes the number of a case where a value of the type begins (CanonicalABI.md, "store_variant"), and answers where its payload
/// begins.
pub(crate) fn put_case<D, G: Guest>(
    cx: &mut LowerContext<'_, D, G>,
    ty: InterfaceType,
    info: VariantInfo,
    tag: u32,
    offset: u64,
) -> u64
    requires cases { IsVariantShape (shape_of (component_types cx.old.core.now) ty) }
    requires info { HasInfo info (variant_cases (shape_of (component_types cx.old.core.now) ty)) }
    requires tag { tag < case_count (variant_cases (shape_of (component_types cx.old.core.now) ty)) }
    requires room { offset + size false (shape_of (component_types cx.old.core.now) ty) ≤ length cx.old.core.now.memory }
    ensures put { IsCasePut cx.old.core.now cx.new.core.now (variant_cases (shape_of (component_types cx.old.core.now) ty)) offset tag result }
    ensures same_reference { cx.new.core.ghost_name ≡ cx.old.core.ghost_name }
    ensures same_options { cx.new.options ≡ cx.old.options }
{
    let _memory = cx.core.memory(); // memory has at most 2^32 bytes
    let _ = ty;
    put(cx, offset, u64::from(tag), info.size.byte_size());
    offset + u64::from(info.payload_offset32)
}

/// Writes the number of an option's case, and answers the type of its payload, and where that begins.
pub fn put_option<T: ComponentType, D, G: Guest>(
    cx: &mut LowerContext<'_, D, G>,
    ty: InterfaceType,
    tag: u32,
    offset: u64,
) -> (InterfaceType, u64)
    requires known { Knows (component_types cx.old.core.now) ty }
    requires fits { IsOptionOf T.fits cx.old.core.now.component.types ty }
    requires tag { tag < 2 }
    requires room { offset + size false (shape_of (component_types cx.old.core.now) ty) ≤ length cx.old.core.now.memory }
    ensures put { IsOptionPut T.fits cx.old.core.now cx.new.core.now ty offset tag result.0 result.1 }
    ensures same_reference { cx.new.core.ghost_name ≡ cx.old.core.ghost_name }
    ensures same_options { cx.new.options ≡ cx.old.options }
{
    let InterfaceType::Option(i) = ty else {
        unreachable!()
    };
    let option = cx.types().option(i);
    let (some, info) = (option.ty, option.info);
    let inner = put_case(cx, ty, info, tag, offset);
    (some, inner)
}

/// The type of the payload of a result's case, if it has one.
fn payload_at(of: &TypeResult, tag: u32) -> Option<InterfaceType>
    ensures is { result ≡ pick tag of.now.ok of.now.err }
{
    if tag == 0 { of.ok } else { of.err }
}

/// Writes the number of a result's case, and answers the type of its payload, and where that begins. The payloads are of the types
/// `A` and `B`; `T` and `E` say which of them is the unit, which stands for none.
pub fn put_result<
    A: ComponentType,
    B: ComponentType,
    T: ComponentType,
    E: ComponentType,
    D,
    G: Guest,
>(
    cx: &mut LowerContext<'_, D, G>,
    ty: InterfaceType,
    tag: u32,
    offset: u64,
) -> (Option<InterfaceType>, u64)
    requires known { Knows (component_types cx.old.core.now) ty }
    requires fits { IsResultOf T.is_unit A.fits E.is_unit B.fits cx.old.core.now.component.types ty }
    requires tag { tag < 2 }
    requires room { offset + size false (shape_of (component_types cx.old.core.now) ty) ≤ length cx.old.core.now.memory }
    ensures put { IsResultPut T.is_unit A.fits E.is_unit B.fits cx.old.core.now cx.new.core.now ty offset tag result.0 result.1 }
    ensures same_reference { cx.new.core.ghost_name ≡ cx.old.core.ghost_name }
    ensures same_options { cx.new.options ≡ cx.old.options }
{
    let InterfaceType::Result(i) = ty else {
        unreachable!()
    };
    let result = cx.types().result(i);
    let (part, info) = (payload_at(result, tag), result.info);
    let inner = put_case(cx, ty, info, tag, offset);
    (part, inner)
}
