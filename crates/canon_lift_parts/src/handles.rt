//! Handles of resources.

ghost use Rattle.std.specs.Prelude.{◌≡◌, false, true};
ghost use Rattle.canon_context.specs.Core.{component_types};
ghost use Rattle.canon_context.specs.Faults.{resource_fault};
ghost use Rattle.canon_context.specs.Lifter.{IsAfterSteps, IsOneOrigin};
ghost use Rattle.canon_resources.specs.Parts.{LeafLifts};
ghost use Rattle.canon_model.specs.Leaves.{leaf};
ghost use Rattle.canon_types.specs.Table.{HasResource, Knows};
ghost use Rattle.canon_typed.specs.Types.{IsHandleType};
ghost use Rattle.canon_reading.specs.Handles.{HandleLifts, leaf_of};

use canon_context::{Fault, LiftContext, Lifter, Source};
use canon_ledger::{Ledger, ResourceFault};
use canon_resources::{ResourceAny, lift_borrow, lift_own};
use canon_types::{InstanceType, InterfaceType, TypeResourceTableIndex};
use std::alloc::Global;

/// A handle of the guest's, own or borrowed.
#[derive(Drop)]
pub struct Handle {
    /// The table of its resource's type.
    pub ty: TypeResourceTableIndex,
    /// Whether it is an own handle, and no borrow.
    pub owned: bool,
    /// Its index in the instance's table.
    pub index: u32,
}

/// Takes a handle through the ledger.
fn taken(
    types: &InstanceType,
    ledger: &mut Ledger,
    handle: &Handle,
) -> Result<ResourceAny, ResourceFault>
    requires known { HasResource types.now.types handle.now.ty }
    ensures lifts { LeafLifts types.now ledger.old ledger.new (leaf handle.now.owned handle.now.ty handle.now.index) result }
{
    let _table = types.types().resource_table(handle.ty); // its instance is below 256
    let _instances = ledger.instances(); // the ledger has 257 tables
    if handle.owned {
        lift_own(ledger, types, handle.index, handle.ty)
    } else {
        lift_borrow(ledger, types, handle.index, handle.ty)
    }
}

/// A refusal of the ledger as a fault.
pub fn refused(refusal: ResourceFault) -> Fault
    ensures { result ≡ resource_fault refusal }
{
    match refusal {
        ResourceFault::OutOfMemory => Fault::OutOfMemory,
        _ => Fault::Resource(refusal),
    }
}

impl Lifter for Handle {
    type Lifted = ResourceAny;

    ghost ready = { λ l o. HasResource o.types.types l.ty };

    ghost gives = { λ l o before fuel r after left. HandleLifts o.types before after (leaf l.owned l.ty l.index) r × (left ≡ fuel) };

    fn lift(
        &self,
        _alloc: Global,
        source: &Source<'_>,
        ledger: &mut Ledger,
        fuel: &mut u64,
    ) -> Result<ResourceAny, Fault>
        requires one_origin { IsOneOrigin source.now }
        requires ready { HasResource source.now.instance.now.types self.now.ty }
        ensures gives { HandleLifts source.now.instance.now ledger.old ledger.new (leaf self.now.owned self.now.ty self.now.index) result × (fuel.new ≡ fuel.old) }
        ensures steps { IsAfterSteps ledger.old ledger.new }
    {
        match taken(source.instance, ledger, self) {
            Ok(resource) => Ok(resource),
            Err(refusal) => Err(refused(refusal)),
        }
    }
}

/// Lifts the handle of a number (CanonicalABI.md, "lift_own", "lift_borrow").
pub fn lift_any<U, G>(
    alloc: Global,
    cx: &mut LiftContext<'_, U, G>,
    ty: InterfaceType,
    index: u32,
) -> Result<ResourceAny, Fault>
    requires known { Knows (component_types cx.old.core.now) ty }
    requires handle { IsHandleType cx.old.core.now.component.types ty }
    ensures lifts { HandleLifts cx.old.core.now.component.types cx.old.core.now.ledger cx.new.core.now.ledger (leaf_of ty index) result }
    ensures same_fuel { cx.new.fuel ≡ cx.old.fuel }
    ensures same_core { cx.new.core.now ≡ record cx.old.core.now { ledger = cx.new.core.now.ledger } }
    ensures same_reference { cx.new.core.ghost_name ≡ cx.old.core.ghost_name }
    ensures same_options { cx.new.options ≡ cx.old.options }
{
    match ty {
        InterfaceType::Own(ty) => cx.lift_by(
            alloc,
            &Handle {
                ty,
                owned: true,
                index,
            },
        ),
        InterfaceType::Borrow(ty) => cx.lift_by(
            alloc,
            &Handle {
                ty,
                owned: false,
                index,
            },
        ),
        _ => unreachable!(),
    }
}
