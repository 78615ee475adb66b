//! Handles that are lent in the scope of a call, and what a handle is refused for.

use super::with_ledger;
use canon_handles::{CurrentScope, Scope, TypedResource, TypedResourceIndex};
use canon_ledger::{KnownTypes, Ledger, ResourceFault, ResourceTables};

fn new_own(ledger: &mut Ledger, rep: u32) -> Result<u32, ResourceFault> {
    let current_scope = ledger.current();
    let mut tables = ResourceTables {
        ledger,
        types: KnownTypes::none(),
        current_scope,
    };
    tables.resource_new(TypedResource::Host(rep))
}

fn lower_own(ledger: &mut Ledger, rep: u32) -> Result<u32, ResourceFault> {
    let current_scope = ledger.current();
    let mut tables = ResourceTables {
        ledger,
        types: KnownTypes::none(),
        current_scope,
    };
    tables.resource_lower_own(TypedResource::Host(rep))
}

fn lower_borrow(ledger: &mut Ledger, rep: u32) -> Result<u32, ResourceFault> {
    let current_scope = ledger.current();
    let mut tables = ResourceTables {
        ledger,
        types: KnownTypes::none(),
        current_scope,
    };
    tables.resource_lower_borrow(TypedResource::Host(rep))
}

fn rep(ledger: &mut Ledger, index: u32) -> Result<u32, ResourceFault> {
    let current_scope = ledger.current();
    let mut tables = ResourceTables {
        ledger,
        types: KnownTypes::none(),
        current_scope,
    };
    tables.resource_rep(TypedResourceIndex::Host(index))
}

fn drop_handle(ledger: &mut Ledger, index: u32) -> Result<Option<u32>, ResourceFault> {
    let current_scope = ledger.current();
    let mut tables = ResourceTables {
        ledger,
        types: KnownTypes::none(),
        current_scope,
    };
    tables.resource_drop(TypedResourceIndex::Host(index))
}

fn lift_own(ledger: &mut Ledger, index: u32) -> Result<u32, ResourceFault> {
    let current_scope = ledger.current();
    let mut tables = ResourceTables {
        ledger,
        types: KnownTypes::none(),
        current_scope,
    };
    tables.resource_lift_own(TypedResourceIndex::Host(index))
}

fn lift_borrow(ledger: &mut Ledger, index: u32) -> Result<u32, ResourceFault> {
    let current_scope = ledger.current();
    let mut tables = ResourceTables {
        ledger,
        types: KnownTypes::none(),
        current_scope,
    };
    tables.resource_lift_borrow(TypedResourceIndex::Host(index))
}

fn exit(ledger: &mut Ledger) -> Result<(), ResourceFault> {
    let current_scope = ledger.current();
    let mut tables = ResourceTables {
        ledger,
        types: KnownTypes::none(),
        current_scope,
    };
    tables.validate_scope_exit()
}

// The lenders and the borrow count of a scope.
fn counts(ledger: &Ledger, number: u64) -> Option<(usize, u64)> {
    match ledger.context(Scope::Id(number)) {
        None => None,
        Some(context) => Some((context.lenders().len(), context.borrow_count())),
    }
}

fn is_empty(ledger: &Ledger, number: u64) -> Option<bool> {
    match ledger.context(Scope::Id(number)) {
        None => None,
        Some(context) => Some(context.is_empty()),
    }
}

fn leave(ledger: &mut Ledger) -> bool {
    if !ledger.can_leave() {
        return false;
    }
    ledger.leave();
    true
}

/// Whether a handle that is lent stays until the call ends.
fn lent_until_the_end(ledger: &mut Ledger) -> Option<[bool; 4]> {
    let scope = Scope::Id(0);
    let entered = (
        ledger.instances(),
        new_own(ledger, 7),
        ledger.enter(),
        ledger.current(),
        is_empty(ledger, 0),
    );
    let lent = (
        lift_borrow(ledger, 1),
        counts(ledger, 0),
        ledger.live(),
        lift_own(ledger, 1),
        drop_handle(ledger, 1),
        leave(ledger),
    );
    let left = (
        exit(ledger),
        ledger.live(),
        leave(ledger),
        ledger.current(),
        counts(ledger, 0),
    );
    let lifted = (lift_own(ledger, 1), ledger.live());
    let current = Some(CurrentScope::Id(scope));
    let own = Err(ResourceFault::StillLent(1));
    let dropped = Err(ResourceFault::StillLent(1));
    Some([
        entered == (256, Ok(1), Ok(scope), current, Some(true)),
        lent == (Ok(7), Some((1, 0)), 2, own, dropped, false),
        left == (Ok(()), 1, true, None, None),
        lifted == (Ok(7), 0),
    ])
}

#[test]
fn a_lent_handle_stays_until_the_call_ends(rt: HostRuntime) {
    assert!(rt; with_ledger(rt.alloc(), 0, lent_until_the_end) == Some([true; 4]));
}

/// Whether a borrow handle isn't lifted as an own one.
fn borrow_as_own(ledger: &mut Ledger) -> Option<[bool; 2]> {
    let lowered = (
        ledger.enter(),
        lower_borrow(ledger, 7),
        lift_own(ledger, 1),
        counts(ledger, 0),
        rep(ledger, 1),
    );
    let left = (
        exit(ledger),
        drop_handle(ledger, 1),
        exit(ledger),
        rep(ledger, 1),
    );
    let as_own = Err(ResourceFault::BorrowAsOwn);
    let entered = Ok(Scope::Id(0));
    let remain = Err(ResourceFault::BorrowsRemain);
    let unknown = Err(ResourceFault::UnknownHandle(1));
    Some([
        lowered == (entered, Ok(1), as_own, Some((0, 1)), Ok(7)),
        left == (remain, Ok(None), Ok(()), unknown),
    ])
}

#[test]
fn a_borrow_handle_is_not_lifted_as_own(rt: HostRuntime) {
    assert!(rt; with_ledger(rt.alloc(), 0, borrow_as_own) == Some([true; 2]));
}

/// Whether nothing is lent where no scope is open, and no handle is made past a limit.
fn outside_a_scope(ledger: &mut Ledger) -> Option<[bool; 2]> {
    let refused = (
        lower_own(ledger, 7),
        lift_borrow(ledger, 1),
        lower_borrow(ledger, 7),
        exit(ledger),
        ledger.live(),
    );
    ledger.set_limit(0);
    let told = (new_own(ledger, 8), drop_handle(ledger, 1));
    let lifted = Err(ResourceFault::NoScope);
    let lowered = Err(ResourceFault::NoScope);
    let left = Err(ResourceFault::NoScope);
    Some([
        refused == (Ok(1), lifted, lowered, left, 1),
        told == (Err(ResourceFault::HandleLimit), Ok(Some(7))),
    ])
}

#[test]
fn no_own_handle_is_lent_outside_a_scope(rt: HostRuntime) {
    assert!(rt; with_ledger(rt.alloc(), 0, outside_a_scope) == Some([true; 2]));
}

/// Whether an own handle stays where the generation can't grow.
fn nothing_removed(ledger: &mut Ledger) -> Option<bool> {
    let told = (new_own(ledger, 7), lift_own(ledger, 1), rep(ledger, 1));
    let exhausted = Err(ResourceFault::GenerationExhausted);
    Some(told == (Ok(1), exhausted, Ok(7)))
}

#[test]
fn nothing_is_removed_after_the_last_generation(rt: HostRuntime) {
    assert!(rt; with_ledger(rt.alloc(), 4_294_967_292, nothing_removed) == Some(true));
}
