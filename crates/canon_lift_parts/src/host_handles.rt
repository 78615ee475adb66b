//! Resources of the host: what the host gets is the representation behind a handle of the guest's, and no table of the host changes.

ghost use Rattle.std.specs.Prelude.{◌≡◌, Bool, Some, true, false, ℕ};
ghost use Rattle.canon_context.specs.Core.{component_types};
ghost use Rattle.canon_context.specs.Lifter.{IsAfterSteps, IsOneOrigin};
ghost use Rattle.canon_resources.specs.Parts.{LeafMoves};
ghost use Rattle.canon_model.specs.Leaves.{leaf};
ghost use Rattle.canon_resources.specs.Types.{as_host};
ghost use Rattle.canon_types.specs.Resource.{as_host_dynamic, resource_type_at};
ghost use Rattle.canon_types.specs.Table.{HasResource, Knows};
ghost use Rattle.canon_types.specs.declared.resource.ResourceType.{ResourceType as Kind};
ghost use Rattle.canon_reading.specs.Handles.{leaf_of};
ghost use Rattle.canon_reading.specs.HostHandles.{HeldLifts, IsHandleWith, IsMadeBy, IsOfKind, RepLifts};
ghost use Rattle.canon_reading.specs.Ways.{rep_parts};

use crate::handles::{Handle, refused};
use canon_context::{Fault, LiftContext, Lifter, Source};
use canon_handles::TypedResourceIndex;
use canon_ledger::{Ledger, ResourceFault};
use canon_resources::{
    HostResource, HostResourceType, HostType, Resource, ResourceDynamic, ResourceType, lend_at,
    table_for, take_at,
};
use canon_types::{InstanceType, InterfaceType};
use std::alloc::Global;

/// Takes an own handle out of the guest's table, or lends a borrow from there, and answers the representation.
fn taken_rep(
    types: &InstanceType,
    ledger: &mut Ledger,
    handle: &Handle,
) -> Result<u32, ResourceFault>
    requires known { HasResource types.now.types handle.now.ty }
    ensures moves { LeafMoves ledger.old ledger.new (rep_parts types.now (leaf handle.now.owned handle.now.ty handle.now.index)) result }
{
    let _table = types.types().resource_table(handle.ty); // its instance is below 256
    let _instances = ledger.instances(); // the ledger has 257 tables
    let table = table_for(ledger, types, handle.ty);
    let (ty, index) = (handle.ty, handle.index);
    if handle.owned {
        take_at(ledger, table, TypedResourceIndex::Component { ty, index })
    } else {
        lend_at(ledger, table, TypedResourceIndex::Component { ty, index })
    }
}

/// A handle whose representation is lifted.
#[derive(Drop)]
struct Represented {
    handle: Handle,
}

impl Lifter for Represented {
    type Lifted = u32;

    ghost ready = { λ l o. HasResource o.types.types l.handle.ty };

    ghost gives = { λ l o before fuel r after left. RepLifts o.types before after (leaf l.handle.owned l.handle.ty l.handle.index) r × (left ≡ fuel) };

    fn lift(
        &self,
        _alloc: Global,
        source: &Source<'_>,
        ledger: &mut Ledger,
        fuel: &mut u64,
    ) -> Result<u32, Fault>
        requires one_origin { IsOneOrigin source.now }
        requires ready { HasResource source.now.instance.now.types self.now.handle.ty }
        ensures gives { RepLifts source.now.instance.now ledger.old ledger.new (leaf self.now.handle.owned self.now.handle.ty self.now.handle.index) result × (fuel.new ≡ fuel.old) }
        ensures steps { IsAfterSteps ledger.old ledger.new }
    {
        match taken_rep(source.instance, ledger, &self.handle) {
            Ok(rep) => Ok(rep),
            Err(refusal) => Err(refused(refusal)),
        }
    }
}

/// A resource of the host that a representation makes.
pub trait OfRepresentation: Drop {
    // the resource types that it can be of
    ghost wanted: { Kind → Type 0 };

    // it is the resource of such a type, own or borrowed, and a representation
    ghost made: { Kind → Bool → ℕ → Self → Type 0 };

    /// The resource of this type, own or borrowed, and representation.
    fn make(kind: ResourceType, owned: bool, rep: u32) -> Self
    where
        Self: Sized,
        requires { wanted kind }
        ensures { made kind owned rep result };
}

impl<T: HostResourceType<D>, D: Copy> OfRepresentation for HostResource<T, D> {
    ghost wanted = { IsOfKind T.checked };

    ghost made = { IsMadeBy T.checked };

    fn make(kind: ResourceType, owned: bool, rep: u32) -> HostResource<T, D> {
        match T::typecheck(kind) {
            Some(ty) if owned => HostResource::new_own(rep, ty),
            Some(ty) => HostResource::new_borrow(rep, ty),
            None => unreachable!(),
        }
    }
}

impl<T: HostType> OfRepresentation for Resource<T> {
    ghost wanted = { IsOfKind (as_host T.ID) };

    ghost made = { IsMadeBy (as_host T.ID) };

    fn make(_kind: ResourceType, owned: bool, rep: u32) -> Resource<T> {
        if owned {
            Resource::new_own(rep)
        } else {
            Resource::new_borrow(rep)
        }
    }
}

impl OfRepresentation for ResourceDynamic {
    ghost wanted = { IsOfKind as_host_dynamic };

    ghost made = { IsMadeBy as_host_dynamic };

    fn make(kind: ResourceType, owned: bool, rep: u32) -> ResourceDynamic {
        match kind.as_host_dynamic() {
            Some(ty) if owned => ResourceDynamic::new_own(rep, ty),
            Some(ty) => ResourceDynamic::new_borrow(rep, ty),
            None => unreachable!(),
        }
    }
}

/// Lifts the resource of a handle of the guest's.
fn lift_made<R: OfRepresentation, U, G>(
    alloc: Global,
    cx: &mut LiftContext<'_, U, G>,
    handle: Handle,
) -> Result<R, Fault>
    requires known { HasResource (component_types cx.old.core.now) handle.ty }
    requires fits { (kind : Kind) → resource_type_at cx.old.core.now.component.types handle.ty ≡ Some kind → R.wanted kind }
    ensures lifts { HeldLifts R.made cx.old.core.now.component.types cx.old.core.now.ledger cx.new.core.now.ledger (leaf handle.owned handle.ty handle.index) result }
    ensures same_fuel { cx.new.fuel ≡ cx.old.fuel }
    ensures same_core { cx.new.core.now ≡ record cx.old.core.now { ledger = cx.new.core.now.ledger } }
    ensures same_reference { cx.new.core.ghost_name ≡ cx.old.core.ghost_name }
    ensures same_options { cx.new.options ≡ cx.old.options }
{
    let kind = cx.instance_type().resource_type(handle.ty);
    let owned = handle.owned;
    match cx.lift_by(alloc, &Represented { handle }) {
        Ok(rep) => Ok(R::make(kind, owned, rep)),
        Err(fault) => Err(fault),
    }
}

/// Lifts the resource of the handle of a number.
pub fn lift_held<R: OfRepresentation, U, G>(
    alloc: Global,
    cx: &mut LiftContext<'_, U, G>,
    ty: InterfaceType,
    index: u32,
) -> Result<R, Fault>
    requires known { Knows (component_types cx.old.core.now) ty }
    requires fits { IsHandleWith R.wanted cx.old.core.now.component.types ty }
    ensures lifts { HeldLifts R.made cx.old.core.now.component.types cx.old.core.now.ledger cx.new.core.now.ledger (leaf_of ty index) result }
    ensures same_fuel { cx.new.fuel ≡ cx.old.fuel }
    ensures same_core { cx.new.core.now ≡ record cx.old.core.now { ledger = cx.new.core.now.ledger } }
    ensures same_reference { cx.new.core.ghost_name ≡ cx.old.core.ghost_name }
    ensures same_options { cx.new.options ≡ cx.old.options }
{
    match ty {
        InterfaceType::Own(ty) => lift_made(
            alloc,
            cx,
            Handle {
                ty,
                owned: true,
                index,
            },
        ),
        InterfaceType::Borrow(ty) => lift_made(
            alloc,
            cx,
            Handle {
                ty,
                owned: false,
                index,
            },
        ),
        _ => unreachable!(),
    }
}
