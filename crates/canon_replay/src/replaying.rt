//! A recording, played again.

ghost use Rattle.std.specs.Prelude.{◌≡◌, ◌<◌, ◌^◌, All, IfErr, IfOk, length};
ghost use Rattle.canon_context.specs.Component.{IsComponent};
ghost use Rattle.canon_recording.specs.Fits.{FitsComponent, IsRecordable};
ghost use Rattle.canon_recording.specs.Recordings.{calls_in};
ghost use Rattle.canon_replay.specs.Calls.{HasEvents, IsReady, IsReplayed, ReplaysFrom, all_made};
ghost use Rattle.canon_replay.specs.Stores.{guest_in_store};
ghost use Rattle.canon_replay.specs.declared.again.Again.{Again};

use crate::again::{Again, parts_of};
use crate::calls::make_again;
use crate::outcome::Outcome;
use crate::store::{ReplayStore, store_of};
use canon_recording::{Recording, ReplayError};
use canon_value::Component;
use std::alloc::Global;

/// Makes the calls of a recording again, without their guest, in a store of the component whose memory is empty and whose calls have this
/// fuel, and this many turns. The guest does what was recorded of it, and the imports answer as recorded. Only memory may be wanting.
pub fn replay(
    alloc: Global,
    c: Component,
    r: Recording,
    fuel: u64,
    turns: u64,
) -> Result<Outcome, ReplayError>
    requires sound { IsComponent c }
    requires recordable { IsRecordable c }
    requires fits { FitsComponent c (calls_in r) }
    ensures is { IsReplayed c (calls_in r) fuel turns result }
{
    match parts_of(alloc, r) {
        Ok(parts) => match store_of(alloc, c, parts.events, parts.asks, fuel, turns) {
            Ok(mut store) => replay_calls(alloc, &mut store, parts.calls),
            Err(error) => Err(error),
        },
        Err(error) => Err(error),
    }
}

/// Makes calls again, one after another, up to the first that isn't as it was recorded.
fn replay_calls(
    alloc: Global,
    store: &mut ReplayStore,
    calls: Vec<Again>,
) -> Result<Outcome, ReplayError>
    requires ready { IsReady 0 store.old }
    requires known { All (λ (a : Again). a.export < length store.old.core.component.exports.items) calls.items }
    requires count { length calls.items ≡ length (guest_in_store store.old).recorded }
    requires few_calls { length calls.items < 2 ^ 32 }
    requires events { All HasEvents (guest_in_store store.old).recorded }
    ensures replays { IfOk result (λ o. ReplaysFrom 0 (all_made (guest_in_store store.old).recorded 0 calls.items) store.old o) }
    ensures short { IfErr result (λ e. e ≡ ReplayError.OutOfMemory) }
{
    let mut k: u32 = 0;
    for call in calls {
        match make_again(alloc, store, k, call) {
            Ok(None) => k += 1,
            Ok(Some(outcome)) => return Ok(outcome),
            Err(error) => return Err(error),
        }
    }
    Ok(Outcome::Same)
}
