//! Single steps of the ledger, in its top open scope.

ghost use Rattle.std.specs.Prelude.{◌≡◌, ◌<◌, IfSome, length};
ghost use Rattle.canon_ledger.specs.Books.{DidSurely};
ghost use Rattle.canon_ledger.specs.Handles.{top_scope};
ghost use Rattle.canon_ledger.specs.Ledger.{Did, host_resource_drop, host_resource_lift_borrow, host_resource_lift_own, host_resource_lower_own, resource_drop, resource_lift_borrow, resource_lift_own, resource_lower_borrow, resource_new, validate_scope_exit, with_its_slot};
ghost use Rattle.canon_ledger.specs.Places.{SamePlaces};

use canon_abi::RuntimeInstance;
use canon_handles::{CurrentScope, Scope, TypedResource, TypedResourceIndex};
use canon_ledger::{HostResourceIndex, Ledger, ResourceFault, TableSlot};

/// The number of the top open scope.
fn top(ledger: &Ledger) -> Option<u64>
    ensures number { result ≡ top_scope ledger.now.handles }
    ensures scope_open { IfSome result (λ k. k < length ledger.now.handles.scopes) }
{
    match ledger.current() {
        None => None,
        Some(CurrentScope::Id(Scope::Id(number))) => Some(number),
    }
}

/// Takes an own handle out of a table.
#[tactic(auto, using(canon_ledger::proofs::HoldsLemmas::same_lift_own))]
pub fn take_at(
    ledger: &mut Ledger,
    table: u32,
    index: TypedResourceIndex,
) -> Result<u32, ResourceFault>
    requires { table < length ledger.old.handles.tables }
    ensures step { DidSurely (resource_lift_own ledger.old table index) result ledger.new }
    ensures places { SamePlaces ledger.old ledger.new }
{
    ledger.lift_own_at(table, index)
}

/// Lends a handle of a table.
#[tactic(auto, using(canon_ledger::proofs::HoldsLemmas::same_lift_borrow))]
pub fn lend_at(
    ledger: &mut Ledger,
    table: u32,
    index: TypedResourceIndex,
) -> Result<u32, ResourceFault>
    requires { table < length ledger.old.handles.tables }
    ensures step { Did (resource_lift_borrow (top_scope ledger.old.handles) ledger.old table index) result ledger.old ledger.new }
    ensures places { SamePlaces ledger.old ledger.new }
{
    match top(ledger) {
        None => ledger.lift_borrow_in_none(table, index),
        Some(number) => ledger.lift_borrow_at(table, index, number),
    }
}

/// Takes an own handle of the host out.
pub fn take_host(ledger: &mut Ledger, index: HostResourceIndex) -> Result<u32, ResourceFault>
    ensures step { DidSurely (host_resource_lift_own ledger.old index) result ledger.new }
    ensures places { SamePlaces ledger.old ledger.new }
{
    if ledger.is_stale(&index) {
        return Err(ResourceFault::HostDeallocated);
    }
    let table = ledger.host_table();
    take_at(ledger, table, TypedResourceIndex::Host(index.index()))
}

/// Lends a handle of the host.
pub fn lend_host(ledger: &mut Ledger, index: HostResourceIndex) -> Result<u32, ResourceFault>
    ensures step { Did (host_resource_lift_borrow (top_scope ledger.old.handles) ledger.old index) result ledger.old ledger.new }
    ensures places { SamePlaces ledger.old ledger.new }
{
    if ledger.is_stale(&index) {
        return Err(ResourceFault::HostDeallocated);
    }
    let table = ledger.host_table();
    lend_at(ledger, table, TypedResourceIndex::Host(index.index()))
}

/// Puts an own handle into a table.
#[tactic(auto, using(canon_ledger::proofs::HoldsLemmas::same_new))]
pub fn insert_own(
    ledger: &mut Ledger,
    table: u32,
    resource: TypedResource,
) -> Result<u32, ResourceFault>
    requires { table < length ledger.old.handles.tables }
    ensures step { Did (resource_new ledger.old table resource) result ledger.old ledger.new }
    ensures places { SamePlaces ledger.old ledger.new }
{
    ledger.new_at(table, resource)
}

/// Puts a borrow handle of the top open scope into a table.
#[tactic(auto, using(canon_ledger::proofs::HoldsLemmas::same_lower_borrow))]
pub fn insert_borrow(
    ledger: &mut Ledger,
    table: u32,
    resource: TypedResource,
) -> Result<u32, ResourceFault>
    requires { table < length ledger.old.handles.tables }
    ensures step { Did (resource_lower_borrow (top_scope ledger.old.handles) ledger.old table resource) result ledger.old ledger.new }
    ensures places { SamePlaces ledger.old ledger.new }
{
    match top(ledger) {
        None => Err(ResourceFault::NoScope),
        Some(number) => ledger.lower_borrow_at(table, resource, number),
    }
}

/// Puts an own handle into the host's table, with what the host keeps of its index.
#[tactic(auto, using(canon_ledger::proofs::HoldsLemmas::same_host_lower_own))]
pub fn insert_host(
    ledger: &mut Ledger,
    rep: u32,
    dtor: Option<u32>,
    instance: Option<RuntimeInstance>,
) -> Result<u32, ResourceFault>
    ensures step { Did (host_resource_lower_own ledger.old rep dtor instance) result ledger.old ledger.new }
    ensures places { SamePlaces ledger.old ledger.new }
{
    ledger.host_lower_own(rep, dtor, instance)
}

/// Removes a handle of a table: gives the representation of an own handle.
#[tactic(auto, using(canon_ledger::proofs::HoldsLemmas::same_drop))]
pub fn drop_at(
    ledger: &mut Ledger,
    table: u32,
    index: TypedResourceIndex,
) -> Result<Option<u32>, ResourceFault>
    requires { table < length ledger.old.handles.tables }
    ensures step { DidSurely (resource_drop ledger.old table index) result ledger.new }
    ensures places { SamePlaces ledger.old ledger.new }
{
    ledger.drop_at(table, index)
}

/// A removed own handle's representation, with what the host keeps of its index.
fn with_its_slot(slot: Option<TableSlot>, rep: Option<u32>) -> Option<(u32, TableSlot)>
    ensures { result ≡ with_its_slot slot rep }
{
    match slot {
        Some(slot) => match rep {
            Some(rep) => Some((rep, slot)),
            None => None,
        },
        None => None,
    }
}

/// Removes a handle of the host: gives the representation of an own handle with the slot of its index.
pub fn drop_host(
    ledger: &mut Ledger,
    index: HostResourceIndex,
) -> Result<Option<(u32, TableSlot)>, ResourceFault>
    ensures step { DidSurely (host_resource_drop ledger.old index) result ledger.new }
    ensures places { SamePlaces ledger.old ledger.new }
{
    if ledger.is_stale(&index) {
        return Err(ResourceFault::HostDeallocated);
    }
    let slot = ledger.slot(index.index());
    let table = ledger.host_table();
    let rep = match drop_at(ledger, table, TypedResourceIndex::Host(index.index())) {
        Ok(rep) => rep,
        Err(fault) => return Err(fault),
    };
    Ok(with_its_slot(slot, rep))
}

/// The end of the call of the top open scope.
#[tactic(auto, using(canon_ledger::proofs::HoldsLemmas::same_exit))]
pub fn exit_scope(ledger: &mut Ledger) -> Result<(), ResourceFault>
    ensures step { DidSurely (validate_scope_exit (top_scope ledger.old.handles) ledger.old) result ledger.new }
    ensures places { SamePlaces ledger.old ledger.new }
{
    match top(ledger) {
        None => Err(ResourceFault::NoScope),
        Some(number) => ledger.exit(number),
    }
}
