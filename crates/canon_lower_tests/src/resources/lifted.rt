//! Resources, lifted from handles of the guest's (CanonicalABI.md, "lift_own", "lift_borrow").

ghost use Rattle.canon_context.specs.Core.{SameButLedger};

use super::doors::{Door, Doors, with_handles};
use canon_context::LiftContext;
use canon_lift::Lift;
use canon_memory::ValRaw;
use canon_resources::{HostResource, Resource, ResourceAny, ResourceDynamic, ResourceState};
use canon_test_core::{TestCore, has_words};
use canon_types::{InterfaceType, OptionsIndex, ResourceKind};
use std::alloc::Global;

/// The index of a new handle of the guest's, of a resource of the representation 9, where this is a type of handles.
fn handle_in(core: &mut TestCore, ty: &InterfaceType) -> Option<u32>
    ensures same { SameButLedger core.old core.new }
{
    if !core.component().types.types().contains(ty) {
        return None;
    }
    match ty {
        InterfaceType::Own(table) | InterfaceType::Borrow(table) => {
            core.resource_new(*table, 9).ok()
        }
        _ => None,
    }
}

/// What a handle of the guest's is lifted to, within a scope.
fn given<T: Lift>(alloc: Global, core: &mut TestCore, ty: &InterfaceType) -> Option<T> {
    let words = [ValRaw::u32(handle_in(core, ty)?)];
    core.enter().ok()?;
    if !has_words::<T>(core, ty, &words) {
        return None;
    }
    let mut cx = LiftContext::new(core, OptionsIndex::from_u32(0));
    T::linear_lift_from_flat(alloc, &mut cx, *ty, &words, 0).ok()
}

/// The representation and the state of a door that is lifted.
fn door(alloc: Global, core: &mut TestCore, ty: &InterfaceType) -> Option<(u32, ResourceState)> {
    let door = given::<Resource<Door>>(alloc, core, ty)?;
    Some((door.rep(), door.state()))
}

/// The same of one of a kind of resources.
fn one_of_a_kind(
    alloc: Global,
    core: &mut TestCore,
    ty: &InterfaceType,
) -> Option<(u32, ResourceState)> {
    let door = given::<HostResource<Doors, ()>>(alloc, core, ty)?;
    Some((door.rep(), door.state()))
}

/// The representation and the number of one that has a number, and whether it is owned.
fn one_of_a_number(
    alloc: Global,
    core: &mut TestCore,
    ty: &InterfaceType,
) -> Option<(u32, u32, bool)> {
    let resource = given::<ResourceDynamic>(alloc, core, ty)?;
    Some((resource.rep(), resource.ty(), resource.owned()))
}

/// Whether one of any type has an index of the host's table, and whether it is owned.
fn one_of_any_type(alloc: Global, core: &mut TestCore, ty: &InterfaceType) -> Option<(bool, bool)> {
    let resource = given::<ResourceAny>(alloc, core, ty)?;
    Some((resource.host_index().is_some(), resource.owned()))
}

#[test]
fn own_handles_and_borrows_are_lifted(rt: HostRuntime) {
    let alloc = rt.alloc();
    let kind = ResourceKind::Host(7);
    let number = ResourceKind::HostDynamic(5);
    let owned = Some((9, ResourceState::NotInTable));
    let lent = Some((9, ResourceState::Borrow));
    assert!(rt; with_handles(alloc, kind, true, door) == owned);
    assert!(rt; with_handles(alloc, kind, false, door) == lent);
    assert!(rt; with_handles(alloc, kind, true, one_of_a_kind) == owned);
    assert!(rt; with_handles(alloc, kind, false, one_of_a_kind) == lent);
    assert!(rt; with_handles(alloc, number, true, one_of_a_number) == Some((9, 5, true)));
    assert!(rt; with_handles(alloc, number, false, one_of_a_number) == Some((9, 5, false)));
    assert!(rt; with_handles(alloc, kind, true, one_of_any_type) == Some((true, true)));
}
