//! Handles of resources, as values pass them to a guest.

ghost use Rattle.std.specs.Prelude.{◌≡◌};
ghost use Rattle.canon_context.specs.Core.{component_types};
ghost use Rattle.canon_context.specs.Lifter.{IsOneOrigin};
ghost use Rattle.canon_resources.specs.Parts.{LeafLifts, passed};
ghost use Rattle.canon_plan.specs.Plan.{type_of_handle};
ghost use Rattle.canon_types.specs.Table.{HasResource, Knows};
ghost use Rattle.canon_model.specs.Leaves.{leaf};
ghost use Rattle.canon_passing.specs.Passed.{GivesHandle, told_fault};
ghost use Rattle.canon_value_parts.specs.Resources.{TakesHandle};

use canon_context::{Core, Fault, Source};
use canon_ledger::{Ledger, ResourceFault};
use canon_memory::Guest;
use canon_plan::HandleType;
use canon_resources::{ResourceAny, lift_borrow, lift_own};
use canon_types::InstanceType;
use canon_val::Val;

/// Passes a resource through the ledger where a handle of this type is wanted, and answers the number that the guest is given. Want
/// of the ledger's memory is reported as its fault, so that a walk can tell it from a shortage of the guest's (`told`).
pub fn give_handle<T, G: Guest>(
    core: &mut Core<T, G>,
    handle: HandleType,
    resource: ResourceAny,
) -> Result<u32, Fault>
    requires known { Knows (component_types core.old) (type_of_handle handle) }
    ensures gives { GivesHandle core.old core.new (passed handle.owned handle.resource resource) result }
{
    let given = if handle.owned {
        core.lower_own(resource, handle.resource)
    } else {
        core.lower_borrow(resource, handle.resource)
    };
    match given {
        Ok(number) => Ok(number),
        Err(refusal) => Err(Fault::Resource(refusal)),
    }
}

/// Takes a handle of the guest through the ledger, where one of this type stands, and answers the resource that the host is given.
pub fn take_handle(
    source: &Source<'_>,
    ledger: &mut Ledger,
    handle: HandleType,
    index: u32,
) -> Result<Val, Fault>
    requires one_origin { IsOneOrigin source.now }
    requires known { Knows source.now.types.now (type_of_handle handle) }
    ensures takes { TakesHandle source.now.instance.now ledger.old ledger.new (leaf handle.owned handle.resource index) result }
{
    match taken(source.instance, ledger, handle, index) {
        Ok(resource) => Ok(Val::Resource(resource)),
        Err(refusal) => Err(told(Fault::Resource(refusal))),
    }
}

/// The resource, or the ledger's refusal.
fn taken(
    types: &InstanceType,
    ledger: &mut Ledger,
    handle: HandleType,
    index: u32,
) -> Result<ResourceAny, ResourceFault>
    requires known { HasResource types.now.types handle.resource }
    ensures lifts { LeafLifts types.now ledger.old ledger.new (leaf handle.owned handle.resource index) result }
{
    let _table = types.types().resource_table(handle.resource); // its instance is below 256
    let _instances = ledger.instances(); // the ledger has 257 tables
    if handle.owned {
        lift_own(ledger, types, index, handle.resource)
    } else {
        lift_borrow(ledger, types, index, handle.resource)
    }
}

/// A fault as callers see it: out of memory is one.
pub fn told(fault: Fault) -> Fault
    ensures { result ≡ told_fault fault }
{
    match fault {
        Fault::Resource(ResourceFault::OutOfMemory) => Fault::OutOfMemory,
        _ => fault,
    }
}
