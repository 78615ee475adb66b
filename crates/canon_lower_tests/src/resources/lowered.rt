//! Resources, for which the guest is given handles (CanonicalABI.md, "lower_own", "lower_borrow"). The first index of a table is 1.

use super::doors::{Door, Doors, with_handles};
use canon_context::{Fault, LowerContext};
use canon_lower::Lower;
use canon_memory::ValRaw;
use canon_resources::{
    HostResource, Resource, ResourceAny, ResourceDynamic, ResourceFault, ResourceState,
    ResourceType,
};
use canon_test_core::{TestCore, word_count};
use canon_types::{InterfaceType, OptionsIndex, ResourceKind};
use std::alloc::Global;

/// What lowering a value of one word answers: the word, which was 9 before, and how many handles live then; or the fault.
type Lowered = Result<(ValRaw, u64), Fault>;

/// Lowers a value of one word, within a scope. None where it isn't of this type.
fn lowered_in<T: Lower>(core: &mut TestCore, ty: &InterfaceType, value: &mut T) -> Option<Lowered> {
    let Some(1) = word_count::<T>(core, ty) else {
        return None;
    };
    core.enter().ok()?;
    let mut words = [ValRaw::u64(9)];
    let mut cx = LowerContext::new(core, OptionsIndex::from_u32(0));
    Some(match value.linear_lower_to_flat(&mut cx, *ty, &mut words) {
        Ok(()) => Ok((words[0], core.live())),
        Err(fault) => Err(fault),
    })
}

/// Lowers a value of one word into a core of its own.
fn lowered<T: Lower>(
    alloc: Global,
    kind: ResourceKind,
    owned: bool,
    value: &mut T,
) -> Option<Lowered> {
    with_handles(alloc, kind, owned, |_, core, ty| {
        lowered_in(core, ty, value)
    })
}

/// Lowers a resource of the host's table: itself as an own handle, or one that is shared as a borrow.
fn any_lowered_in(core: &mut TestCore, ty: &InterfaceType, owned: bool) -> Option<Lowered> {
    let index = core.host_resource_lower_own(9, None, None).ok()?;
    let mut door = ResourceAny::new(index, ResourceType::host::<Door>(), true);
    if owned {
        lowered_in(core, ty, &mut door)
    } else {
        lowered_in(core, ty, &mut &door)
    }
}

/// The same in a core of its own.
fn any_lowered(alloc: Global, owned: bool) -> Option<Lowered> {
    with_handles(alloc, ResourceKind::Host(7), owned, |_, core, ty| {
        any_lowered_in(core, ty, owned)
    })
}

/// What lowering an own door answers, its state then, and what lowering it again does.
fn lowered_twice(alloc: Global) -> (Option<Lowered>, ResourceState, Option<Lowered>) {
    let kind = ResourceKind::Host(7);
    let mut door = Resource::<Door>::new_own(9);
    let first = lowered(alloc, kind, true, &mut door);
    let state = door.state();
    (first, state, lowered(alloc, kind, true, &mut door))
}

#[test]
fn an_own_resource_is_given_away_once(rt: HostRuntime) {
    let (first, state, again) = lowered_twice(rt.alloc());
    assert!(rt; first == Some(Ok((ValRaw::u32(1), 1))));
    assert!(rt; state == ResourceState::Taken);
    let consumed = Fault::Resource(ResourceFault::HostConsumed);
    assert!(rt; again == Some(Err(consumed)));
}

// Where a resource of the host's is lent, its handle there, its lend, and the guest's borrow handle are live.
#[test]
fn a_resource_that_is_lent_stands_in_the_hosts_table(rt: HostRuntime) {
    let mut door = HostResource::<Doors, ()>::new_own(9, ());
    let lent = lowered(rt.alloc(), ResourceKind::Host(7), false, &mut door);
    assert!(rt; lent == Some(Ok((ValRaw::u32(1), 3))));
    assert!(rt; matches!(door.state(), ResourceState::Index(_)));
}

#[test]
fn a_resource_of_a_number_is_given_away(rt: HostRuntime) {
    let mut resource = ResourceDynamic::new_own(9, 5);
    let given = lowered(
        rt.alloc(),
        ResourceKind::HostDynamic(5),
        true,
        &mut resource,
    );
    assert!(rt; given == Some(Ok((ValRaw::u32(1), 1))));
}

#[test]
fn a_resource_of_any_type_leaves_the_hosts_table_or_is_lent(rt: HostRuntime) {
    for (owned, live) in [(true, 1), (false, 3)] {
        assert!(rt; any_lowered(rt.alloc(), owned) == Some(Ok((ValRaw::u32(1), live))));
    }
}
