//! Handles of a core and of its contexts, each call once.

use super::{TestCore, own_handle, with_core};
use canon_handles::{CurrentScope, Scope, TypedResourceIndex};
use canon_ledger::{HostResourceIndex, ResourceFault};
use canon_resources::ResourceAny;
use canon_types::{
    InterfaceType, OptionsIndex, ResourceType, RuntimeInstance, TypeResourceTableIndex,
};
use canon_value::{Fault, LiftContext, LowerContext};
use std::alloc::Global;

/// What a core answers of a handle of the host: as it is made, asked for, refused by a limit, and dropped twice.
#[derive(Clone, Copy)]
struct HostHandle {
    made: Result<HostResourceIndex, ResourceFault>,
    live: u64,
    rep: Result<u32, ResourceFault>,
    has_slot: bool,
    refused: Result<HostResourceIndex, ResourceFault>,
    is_dropped: bool,
    dropped_twice: Result<Option<u32>, ResourceFault>,
    left: u64,
}

fn host_handle(
    _alloc: Global,
    core: &mut TestCore,
    _number: TypeResourceTableIndex,
) -> Option<HostHandle> {
    let index = HostResourceIndex::new(1, 0);
    let made = core.tables().host_resource_lower_own(7, None, None);
    let live = core.live();
    let rep = core.resource_rep(TypedResourceIndex::Host(1));
    let has_slot = matches!(core.slot(index), Ok(Some(_)));
    core.set_handle_limit(0);
    let refused = core.tables().host_resource_lower_own(7, None, None);
    let is_dropped = matches!(core.host_resource_drop(index), Ok(Some((7, _))));
    let dropped_twice = core.resource_drop(TypedResourceIndex::Host(1));
    Some(HostHandle {
        made,
        live,
        rep,
        has_slot,
        refused,
        is_dropped,
        dropped_twice,
        left: core.live(),
    })
}

#[test]
fn a_core_moves_handles_of_the_host(rt: HostRuntime) {
    let is_moved = match with_core(rt.alloc(), host_handle) {
        Some(handle) => [
            handle.made == Ok(HostResourceIndex::new(1, 0)) && handle.live == 1,
            handle.rep == Ok(7),
            handle.has_slot,
            handle.refused == Err(ResourceFault::HandleLimit),
            handle.is_dropped,
            handle.dropped_twice == Err(ResourceFault::UnknownHandle(1)),
            handle.left == 0,
        ],
        None => [false; 7],
    };
    assert!(rt; is_moved == [true; 7]);
}

/// Whether a scope is opened as the first, is told while it is open, and may end; and whether it is closed.
fn scope_steps(
    _alloc: Global,
    core: &mut TestCore,
    _number: TypeResourceTableIndex,
) -> Option<[bool; 5]> {
    let scope = Scope::Id(0);
    let is_entered = core.enter() == Ok(scope);
    let is_current = core.current() == Some(CurrentScope::Id(scope));
    let has_context = core.context(scope).is_some();
    let may_end = core.validate_scope_exit() == Ok(());
    if !core.can_leave() {
        return None;
    }
    core.leave();
    let is_closed = core.current().is_none();
    Some([is_entered, is_current, has_context, may_end, is_closed])
}

#[test]
fn a_core_opens_and_closes_a_scope(rt: HostRuntime) {
    assert!(rt; with_core(rt.alloc(), scope_steps) == Some([true; 5]));
}

/// What a core answers where a handle of the host is made and lent to the guest.
#[derive(Clone, Copy)]
struct Lent {
    made: Result<HostResourceIndex, Fault>,
    lent: Result<u32, ResourceFault>,
    is_lifted: bool,
    given: Result<u32, ResourceFault>,
}

fn lend(_alloc: Global, core: &mut TestCore, ty: TypeResourceTableIndex) -> Option<Lent> {
    let types = core.component().types.types();
    if core.component().options.is_empty() || !types.contains(&InterfaceType::Own(ty)) {
        return None;
    }
    core.enter().ok()?;
    let mut cx = LowerContext::new(core, OptionsIndex::from_u32(0));
    let made = cx.host_resource_lower_own(7, None, None);
    // The guest is given a borrow of it, and the host a borrow of that; while it is lent it isn't given away.
    let lent = core.lower_borrow(own_handle(0), ty);
    let is_lifted = core.lift_borrow(1, ty).is_ok();
    let given = core.lower_own(own_handle(0), ty);
    Some(Lent {
        made,
        lent,
        is_lifted,
        given,
    })
}

#[test]
fn a_core_lowers_and_lifts_handles(rt: HostRuntime) {
    let is_lent = match with_core(rt.alloc(), lend) {
        Some(told) => [
            told.made == Ok(HostResourceIndex::new(1, 0)),
            told.lent == Ok(1),
            told.is_lifted,
            told.given == Err(ResourceFault::StillLent(1)),
        ],
        None => [false; 4],
    };
    assert!(rt; is_lent == [true; 4]);
}

/// What a core answers where a handle of the host is made, given to the guest and taken back.
#[derive(Clone, Copy)]
struct Given {
    made: Result<HostResourceIndex, Fault>,
    given: Result<u32, ResourceFault>,
    back: Result<ResourceAny, ResourceFault>,
}

fn give(_alloc: Global, core: &mut TestCore, ty: TypeResourceTableIndex) -> Option<Given> {
    let types = core.component().types.types();
    if core.component().options.is_empty() || !types.contains(&InterfaceType::Own(ty)) {
        return None;
    }
    let mut cx = LowerContext::new(core, OptionsIndex::from_u32(0));
    let made = cx.host_resource_lower_own(7, None, None);
    let given = core.lower_own(own_handle(0), ty);
    let back = core.lift_own(1, ty);
    Some(Given { made, given, back })
}

#[test]
fn a_core_gives_an_own_handle_away_and_takes_it_back(rt: HostRuntime) {
    let is_given = match with_core(rt.alloc(), give) {
        Some(told) => [
            told.made == Ok(HostResourceIndex::new(1, 0)),
            told.given == Ok(1),
            told.back == Ok(own_handle(1)),
        ],
        None => [false; 3],
    };
    assert!(rt; is_given == [true; 3]);
}

/// What contexts answer of handles of a component: their type twice, two that are made and two that are lifted.
#[derive(Clone, Copy)]
struct GuestHandles {
    types: [ResourceType; 2],
    made: [Result<u32, Fault>; 2],
    borrowed: Result<u32, Fault>,
    taken: Result<(u32, Option<u32>, Option<RuntimeInstance>), Fault>,
}

fn guest_handles(
    _alloc: Global,
    core: &mut TestCore,
    ty: TypeResourceTableIndex,
) -> Option<GuestHandles> {
    let types = core.component().types.types();
    if core.component().options.is_empty() || !types.contains(&InterfaceType::Own(ty)) {
        return None;
    }
    core.enter().ok()?;
    let mut cx = LowerContext::new(core, OptionsIndex::from_u32(0));
    let first = cx.resource_type(ty);
    let own = cx.guest_resource_lower_own(ty, 7);
    let borrow = cx.guest_resource_lower_borrow(ty, 8);
    let mut cx = LiftContext::new(core, OptionsIndex::from_u32(0));
    let second = cx.resource_type(ty);
    let borrowed = cx.guest_resource_lift_borrow(ty, 2);
    Some(GuestHandles {
        types: [first, second],
        made: [own, borrow],
        borrowed,
        taken: cx.guest_resource_lift_own(ty, 1),
    })
}

#[test]
fn contexts_move_handles_of_a_component(rt: HostRuntime) {
    let is_moved = match with_core(rt.alloc(), guest_handles) {
        Some(told) => [
            told.types == [ResourceType::host_dynamic(5); 2],
            told.made == [Ok(1), Ok(2)],
            told.borrowed == Ok(8),
            told.taken == Ok((7, None, None)),
        ],
        None => [false; 4],
    };
    assert!(rt; is_moved == [true; 4]);
}

/// What contexts answer of handles of the host: two that are made, the end of the call twice, and two that are lifted.
#[derive(Clone, Copy)]
struct HostHandles {
    made: [Result<HostResourceIndex, Fault>; 2],
    ended: [Result<(), Fault>; 2],
    lifted: [Result<u32, Fault>; 2],
}

fn host_handles(
    _alloc: Global,
    core: &mut TestCore,
    _number: TypeResourceTableIndex,
) -> Option<HostHandles> {
    if core.component().options.is_empty() {
        return None;
    }
    core.enter().ok()?;
    let mut cx = LiftContext::new(core, OptionsIndex::from_u32(0));
    let own = cx.host_resource_lower_own(7, None, None);
    let borrow = cx.host_resource_lower_borrow(8);
    let lift_ended = cx.validate_scope_exit();
    let mut cx = LowerContext::new(core, OptionsIndex::from_u32(0));
    let lower_ended = cx.validate_scope_exit();
    let lifted = [
        cx.host_resource_lift_borrow(HostResourceIndex::new(2, 0)),
        cx.host_resource_lift_own(HostResourceIndex::new(1, 0)),
    ];
    Some(HostHandles {
        made: [own, borrow],
        ended: [lift_ended, lower_ended],
        lifted,
    })
}

#[test]
fn contexts_move_handles_of_the_host(rt: HostRuntime) {
    let (own, borrow) = (HostResourceIndex::new(1, 0), HostResourceIndex::new(2, 0));
    let remain = Err(Fault::Resource(ResourceFault::BorrowsRemain));
    let is_moved = match with_core(rt.alloc(), host_handles) {
        Some(told) => [
            told.made == [Ok(own), Ok(borrow)],
            told.ended == [remain; 2],
            told.lifted == [Ok(8), Ok(7)],
        ],
        None => [false; 3],
    };
    assert!(rt; is_moved == [true; 3]);
}
