//! What of a recording goes to the guest, to the imports and to the calls.

ghost use Rattle.std.specs.Prelude.{◌≡◌, ◌++◌, ◌∷◌, [], IfErr, IfOk, OnOk, map};
ghost use Rattle.canon_recording.specs.Recordings.{calls_in, served_asks};
ghost use Rattle.canon_replay.specs.Calls.{asks_of_calls, events_of_call, told_again, told_call};

use canon_memory::Events;
use canon_recording::{Recorded, Recording, ReplayError, Served};
use canon_val::Val;
use std::alloc::Global;

/// A call that is made again: its export, its parameters, and the recorded results.
#[derive(Drop)]
pub(crate) struct Again {
    pub(crate) export: u32,
    pub(crate) params: Vec<Val>,
    pub(crate) results: Vec<Val>,
}

/// The events of each call, the asks that were served, in order, and the calls.
#[derive(Drop)]
pub(crate) struct Parts {
    pub(crate) events: Vec<Events>,
    pub(crate) asks: Vec<Served>,
    pub(crate) calls: Vec<Again>,
}

/// The parts of a recording.
pub(crate) fn parts_of(alloc: Global, r: Recording) -> Result<Parts, ReplayError>
    ensures parts { IfOk result (λ p. (p.events.items ≡ map events_of_call (calls_in r)) × (served_asks p.asks.items ≡ asks_of_calls (calls_in r)) × (map told_again p.calls.items ≡ map told_call (calls_in r))) }
    ensures short { IfErr result (λ e. e ≡ ReplayError.OutOfMemory) }
{
    let mut parts = Parts {
        events: Vec::new(alloc),
        asks: Vec::new(alloc),
        calls: Vec::new(alloc),
    };
    for call in r.calls {
        add(&mut parts, call)?;
    }
    Ok(parts)
}

/// Adds the parts of a call.
fn add(parts: &mut Parts, call: Recorded) -> Result<(), ReplayError>
    ensures adds { OnOk result ((parts.new.events.items ≡ parts.old.events.items ++ call.events ∷ []) × (parts.new.asks.items ≡ parts.old.asks.items ++ call.served.items)
        × (parts.new.calls.items ≡ parts.old.calls.items ++ (record { export = call.export; params = call.params; results = call.results }) ∷ [])) }
    ensures short { IfErr result (λ e. e ≡ ReplayError.OutOfMemory) }
{
    let Recorded {
        export,
        params,
        events,
        mut served,
        results,
    } = call;
    keep(&mut parts.events, events)?;
    if parts.asks.append(&mut served).is_err() {
        return Err(ReplayError::OutOfMemory);
    }
    let again = Again {
        export,
        params,
        results,
    };
    keep(&mut parts.calls, again)
}

fn keep<T: Drop>(items: &mut Vec<T>, item: T) -> Result<(), ReplayError>
    ensures ok { OnOk result (items.new.items ≡ items.old.items ++ item ∷ []) }
    ensures short { IfErr result (λ e. e ≡ ReplayError.OutOfMemory) }
{
    match items.push(item) {
        Ok(()) => Ok(()),
        Err(_) => Err(ReplayError::OutOfMemory),
    }
}
