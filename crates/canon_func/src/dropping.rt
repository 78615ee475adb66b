//! How the host drops a resource.

ghost use Rattle.std.specs.Prelude.{◌≡◌, IfErr, IfNone, IfSome, MatchResult, Ok, Err, true};
ghost use Rattle.canon_ledger.specs.Handles.{can_leave};
ghost use Rattle.canon_ledger.specs.Ledger as ledger;
ghost use Rattle.canon_resources.specs.Held.{host_index};
ghost use Rattle.canon_context.specs.Asks.{SameButHandles};
ghost use Rattle.canon_context.specs.Core.{SameButLedger};
ghost use Rattle.canon_func.specs.Drop.{Failed, IsDrop, Ran, Removes, destructor_of, drop_refusal, names_instance};

use crate::{Error, Store};
use canon_ledger::{HostResourceIndex, TableSlot};
use canon_memory::{Guest, GuestFault};
use canon_resources::ResourceAny;
use canon_value::{Core, Fault};

/// A destructor that is to run: a core function, and the representation that it is given.
#[derive(Clone, Copy)]
pub(crate) struct Destructor {
    func: u32,
    rep: u32,
}

/// Whether a slot names an instance.
fn names_instance(slot: Option<TableSlot>) -> bool
    ensures { result ≡ names_instance slot }
{
    match slot {
        Some(slot) => slot.instance.is_some(),
        None => false,
    }
}

/// Why a handle isn't dropped, before a scope is entered, if it isn't.
fn refusal<T, G, I>(index: HostResourceIndex, store: &Store<T, G, I>) -> Option<Error>
    ensures { result ≡ drop_refusal store.now.core.ledger store.now.trapped index }
{
    let slot = match store.core().slot(index) {
        Ok(slot) => slot,
        Err(fault) => return Some(Error::Fault(Fault::Resource(fault))),
    };
    if names_instance(slot) && store.is_trapped() {
        return Some(Error::CannotEnterComponent);
    }
    None
}

/// The destructor of a removed own handle, where its slot has one.
fn destructor_of(removed: Option<(u32, TableSlot)>) -> Option<Destructor>
    ensures { result ≡ destructor_of removed }
{
    match removed {
        Some((rep, slot)) => slot.dtor.map(|func| Destructor { func, rep }),
        None => None,
    }
}

/// Enters a scope and removes a handle in it. Answers the destructor that is to run there. A refusal leaves the scope.
fn remove<T, G>(
    index: HostResourceIndex,
    core: &mut Core<T, G>,
) -> Result<Option<Destructor>, Error>
    ensures removes { Removes core.old.ledger index core.new.ledger result }
    ensures same { SameButLedger core.old core.new }
{
    let Ok(_scope) = core.enter() else {
        return Err(Error::Fault(Fault::OutOfMemory));
    };
    match core.host_resource_drop(index) {
        Ok(removed) => Ok(destructor_of(removed)),
        Err(fault) => {
            core.leave();
            Err(Error::Fault(Fault::Resource(fault)))
        }
    }
}

/// Runs a destructor, where there is one.
fn run<T, G: Guest>(destructor: Option<Destructor>, core: &mut Core<T, G>) -> Result<(), Error>
    ensures ran { Ran G.seen G.moves G.leaves destructor core.old core.new result }
    ensures failed { IfErr result (Failed G.seen destructor core.old core.new) }
    ensures same { core.new ≡ record core.old { guest = core.new.guest; memory = core.new.memory } }
{
    let Some(Destructor { func, rep }) = destructor else {
        return Ok(());
    };
    match core.dtor(func, rep) {
        Ok(()) => Ok(()),
        Err(GuestFault::Trap) => Err(Error::Fault(Fault::GuestTrap)),
        Err(GuestFault::OutOfMemory) => Err(Error::Fault(Fault::OutOfMemory)),
    }
}

/// Runs a destructor, where there is one, in the scope that was entered, and then leaves it. That of one that fails stays open.
fn finish<T, G: Guest>(
    destructor: Option<Destructor>,
    entered: &mut Core<T, G>,
) -> Result<(), Error>
    requires { can_leave entered.old.ledger.handles ≡ true }
    ensures ran { Ran G.seen G.moves G.leaves destructor entered.old entered.new result }
    ensures failed { IfErr result (Failed G.seen destructor entered.old entered.new) }
    ensures scope { MatchResult result (λ _. entered.new.ledger ≡ ledger.leave entered.old.ledger) (λ _. entered.new.ledger ≡ entered.old.ledger) }
    ensures same { entered.new ≡ record entered.old { guest = entered.new.guest; memory = entered.new.memory; ledger = entered.new.ledger } }
{
    match run(destructor, entered) {
        Ok(()) => {
            entered.leave();
            Ok(())
        }
        Err(error) => Err(error),
    }
}

/// Drops a resource, as wasmtime's `ResourceAny::resource_drop`: removes its handle from the host's table, and runs the
/// destructor of an own handle, both in a scope of their own. A borrow that the host made itself has no handle, and nothing is done.
///
/// Answers `HostDeallocated` where the handle's index is stale, and then `CannotEnterComponent` where its slot names an
/// instance and the store is trapped; both change nothing. A refusal of the removal is answered as it is. `GuestTrap` says that the
/// destructor trapped: then the handle is gone, its scope stays open, and the store is trapped. The same is left where the
/// destructor is out of memory; where there is no memory for the scope, nothing changes.
pub fn resource_drop<T, G: Guest, I>(
    r: ResourceAny,
    store: &mut Store<T, G, I>,
) -> Result<(), Error>
    ensures no_handle { IfNone (host_index r.handle) ((result ≡ Ok tt) × (store.new ≡ store.old)) }
    ensures refused { IfSome (host_index r.handle) (λ x. IfSome (drop_refusal store.old.core.ledger store.old.trapped x) (λ e. (result ≡ Err e) × (store.new ≡ store.old))) }
    ensures drops { IfSome (host_index r.handle) (λ x. IfNone (drop_refusal store.old.core.ledger store.old.trapped x) (IsDrop G.seen G.moves G.leaves x store.old store.new result)) }
    ensures same { SameButHandles store.old.core store.new.core }
    ensures turns { store.new.turns ≡ store.old.turns }
    ensures imports { store.new.imports ≡ store.old.imports }
{
    let Some(index) = r.host_index() else {
        return Ok(());
    };
    if let Some(error) = refusal(index, store) {
        return Err(error);
    }
    let destructor = match remove(index, store.core_mut()) {
        Ok(destructor) => destructor,
        Err(error) => return Err(error),
    };
    match finish(destructor, store.core_mut()) {
        Ok(()) => Ok(()),
        Err(error) => {
            store.trap();
            Err(error)
        }
    }
}
