//! Drops of resources that no script shows: a script makes no borrow of a guest's resource, and drops nothing once the store is trapped.

use super::{CallStore, with_store};
use canon_func::{Error, resource_drop};
use canon_resources::{ResourceAny, ResourceType};
use canon_types::{RuntimeInstance, StoreId};
use canon_value::Fault;
use std::alloc::Global;

/// A resource of representation 7 that the guest gave to the host, with the destructor 5.
fn given(store: &mut CallStore) -> Option<ResourceAny> {
    let instance = RuntimeInstance::from_u32(0);
    let core = store.core_mut();
    let index = core
        .host_resource_lower_own(7, Some(5), Some(instance))
        .ok()?;
    let ty = ResourceType::guest(StoreId::from_u64(1), instance, 4);
    Some(ResourceAny::new(index, ty, true))
}

/// What three drops answer, and how many handles live after each.
#[derive(Clone, Copy)]
struct Dropped {
    borrow: (Result<(), Error>, u64),
    first: (Result<(), Error>, u64),
    second: (Result<(), Error>, u64),
}

/// Drops a borrow that the host made itself, and then two own handles.
fn drop_each(_alloc: Global, store: &mut CallStore) -> Option<Dropped> {
    let first = given(store)?;
    let second = given(store)?;
    let borrow = ResourceAny::new_borrow(7, first.ty());
    Some(Dropped {
        borrow: (resource_drop(borrow, store), store.live_handles()),
        first: (resource_drop(first, store), store.live_handles()),
        second: (resource_drop(second, store), store.live_handles()),
    })
}

#[test]
fn a_destructor_that_traps_shuts_the_store(rt: HostRuntime) {
    let trap = Error::Fault(Fault::GuestTrap);
    let is_shut = match with_store(rt.alloc(), 1, &[], drop_each) {
        Some(dropped) => [
            // A borrow runs no destructor: that would trap.
            dropped.borrow == (Ok(()), 2),
            dropped.first == (Err(trap), 1),
            dropped.second == (Err(Error::CannotEnterComponent), 1),
        ],
        None => [false; 3],
    };
    assert!(rt; is_shut == [true; 3]);
}
