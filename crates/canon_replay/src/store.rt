//! The store in which recorded calls are made again.

ghost use Rattle.std.specs.Prelude.{◌≡◌, IfErr, IfOk};
ghost use Rattle.canon_context.specs.Component.{IsComponent};
ghost use Rattle.canon_recording.specs.Recordings.{served_asks};
ghost use Rattle.canon_replay.specs.Stores.{IsNewStore};

use crate::imports::ReplayImports;
use canon_func::Store;
use canon_memory::{Events, Journaled, Memory};
use canon_recording::{ReplayError, Served};
use canon_replay_guest::ReplayGuest;
use canon_types::StoreId;
use canon_value::{Component, Core};
use std::alloc::Global;

/// A store of the guest that replays, with its journal, and of the imports that answer as recorded.
pub type ReplayStore = Store<(), Journaled<ReplayGuest>, ReplayImports>;

/// The number of the store.
const STORE: u64 = 0;

/// A store in which nothing was done, of a component, the recorded events of each call, and the recorded asks. Memory is empty.
pub(crate) fn store_of(
    alloc: Global,
    c: Component,
    events: Vec<Events>,
    asks: Vec<Served>,
    fuel: u64,
    turns: u64,
) -> Result<ReplayStore, ReplayError>
    requires sound { IsComponent c }
    ensures new { IfOk result (λ s. IsNewStore c events.items (served_asks asks.items) fuel turns s) }
    ensures short { IfErr result (λ e. e ≡ ReplayError.OutOfMemory) }
{
    let Ok(memory) = Memory::new(alloc, 0) else {
        return Err(ReplayError::OutOfMemory);
    };
    let guest = Journaled::new(alloc, ReplayGuest::new(alloc, events));
    let imports = ReplayImports::new(alloc, asks);
    let id = StoreId::from_u64(STORE);
    match Core::new(alloc, id, (), guest, memory, c, 0, fuel) {
        Ok(core) => Ok(Store::new(core, imports, turns)),
        Err(_) => Err(ReplayError::OutOfMemory),
    }
}
