//! Resources, for which the guest is given handles.

ghost use Rattle.std.specs.Prelude.{◌≡◌, ◌≤◌, ◌<◌, ◌+◌, ◌^◌, IfOk, false, length};
ghost use Rattle.canon_context.specs.Core.{component_types};
ghost use Rattle.canon_context.specs.Faults.{faulted as as_fault};
ghost use Rattle.canon_lower_parts.specs.Handles.{GivesNumber, handle_gives};
ghost use Rattle.canon_lower_parts.specs.Stores.{TypedStores};
ghost use Rattle.canon_lower_parts.specs.Words.{TypedLowers};
ghost use Rattle.canon_model.specs.Layout.{flat, size};
ghost use Rattle.canon_types.specs.Table.{Knows, shape_of};
ghost use Rattle.canon_typed.specs.Meaning.{IsHandle};
ghost use Rattle.canon_typed.specs.Types.{IsHandleType};

use crate::put::put;
use canon_context::{Fault, LowerContext};
use canon_memory::{Guest, ValRaw};
use canon_resources::{ResourceAny, ResourceFault};
use canon_types::InterfaceType;

/// A refusal of the ledger as a fault.
pub(crate) fn faulted(answer: Result<u32, ResourceFault>) -> Result<u32, Fault>
    ensures fault { result ≡ as_fault answer }
    ensures narrow { IfOk result (λ h. h < 2 ^ 32) }
{
    match answer {
        Ok(number) => Ok(number),
        Err(refusal) => Err(Fault::from(refusal)),
    }
}

/// Passes a resource through the ledger (CanonicalABI.md, "lower_own" and "lower_borrow"), and answers the number that the guest is
/// given.
fn give_handle<D, G: Guest>(
    cx: &mut LowerContext<'_, D, G>,
    ty: InterfaceType,
    resource: ResourceAny,
) -> Result<u32, Fault>
    requires known { Knows (component_types cx.old.core.now) ty }
    requires fits { IsHandleType cx.old.core.now.component.types ty }
    ensures gives { GivesNumber cx.old.core.now cx.new.core.now (handle_gives cx.old.core.now.component.types (shape_of (component_types cx.old.core.now) ty) resource) result }
    ensures same_reference { cx.new.core.ghost_name ≡ cx.old.core.ghost_name }
    ensures same_options { cx.new.options ≡ cx.old.options }
{
    match ty {
        InterfaceType::Own(t) => faulted(cx.core.lower_own(resource, t)),
        InterfaceType::Borrow(t) => faulted(cx.core.lower_borrow(resource, t)),
        _ => unreachable!(),
    }
}

/// Lowers the handle that the guest is given for a resource.
pub fn lower_resource<D, G: Guest>(
    cx: &mut LowerContext<'_, D, G>,
    ty: InterfaceType,
    resource: ResourceAny,
    dst: &mut [ValRaw],
) -> Result<(), Fault>
    requires known { Knows (component_types cx.old.core.now) ty }
    requires fits { IsHandleType cx.old.core.now.component.types ty }
    requires words { length dst.old ≡ flat (shape_of (component_types cx.old.core.now) ty) }
    ensures lowers { TypedLowers G.seen G.moves cx.old.options cx.old.core.now cx.new.core.now (shape_of (component_types cx.old.core.now) ty) dst.new 0 IsHandle
        (handle_gives cx.old.core.now.component.types (shape_of (component_types cx.old.core.now) ty) resource) result }
    ensures count { length dst.new ≡ length dst.old }
    ensures same_reference { cx.new.core.ghost_name ≡ cx.old.core.ghost_name }
    ensures same_options { cx.new.options ≡ cx.old.options }
{
    let _memory = cx.core.memory(); // memory has at most 2^32 bytes
    match give_handle(cx, ty, resource) {
        Ok(number) => {
            dst[0] = ValRaw::u32(number);
            Ok(())
        }
        Err(fault) => Err(fault),
    }
}

/// Stores the handle that the guest is given for a resource: four bytes at an address.
pub fn store_resource<D, G: Guest>(
    cx: &mut LowerContext<'_, D, G>,
    ty: InterfaceType,
    resource: ResourceAny,
    offset: u64,
) -> Result<(), Fault>
    requires known { Knows (component_types cx.old.core.now) ty }
    requires fits { IsHandleType cx.old.core.now.component.types ty }
    requires room { offset + size false (shape_of (component_types cx.old.core.now) ty) ≤ length cx.old.core.now.memory }
    ensures stores { TypedStores G.seen G.moves cx.old.options cx.old.core.now cx.new.core.now (shape_of (component_types cx.old.core.now) ty) offset IsHandle
        (handle_gives cx.old.core.now.component.types (shape_of (component_types cx.old.core.now) ty) resource) result }
    ensures same_reference { cx.new.core.ghost_name ≡ cx.old.core.ghost_name }
    ensures same_options { cx.new.options ≡ cx.old.options }
{
    let _memory = cx.core.memory(); // memory has at most 2^32 bytes
    match give_handle(cx, ty, resource) {
        Ok(number) => {
            put(cx, offset, u64::from(number), 4);
            Ok(())
        }
        Err(fault) => Err(fault),
    }
}
