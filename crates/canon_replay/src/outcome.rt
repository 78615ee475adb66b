//! How a replay ends.

ghost use Rattle.std.specs.Prelude.{◌≡◌, ◌<◌, ◌^◌, length};
ghost use Rattle.canon_replay_guest.specs.Replaying.{call_events};
ghost use Rattle.canon_replay.specs.Outcomes.{has_passed, outcome_at, place_in_call};

use canon_replay_guest::{ReplayGuest, Stop};

/// How a replay ended. Calls are counted from 0, and the events of each call.
#[derive(Clone, Copy, Debug, PartialEq, Eq)]
pub enum Outcome {
    /// Each call was made, and answered Ok with the recorded results, bit for bit.
    Same,
    /// The request at this event of this call isn't the recorded one; or the call's answer isn't, and `event` is the number of events
    /// before that.
    Differs { call: u32, event: u32 },
    /// The answer of `realloc` that is recorded at this event isn't lawful, or not below 2^32.
    Unlawful { call: u32, event: u32 },
}

/// Where the guest is in call k, as an outcome.
pub(crate) fn outcome_at(guest: &ReplayGuest, k: u32) -> Outcome
    requires few { length (call_events guest.now.recorded k) < 2 ^ 32 }
    ensures { result ≡ outcome_at k guest.now }
{
    let event = place_in_call(guest, k) as u32;
    if guest.call() == u64::from(k) && guest.stop() == Some(Stop::Unlawful) {
        Outcome::Unlawful { call: k, event }
    } else {
        Outcome::Differs { call: k, event }
    }
}

/// How many recorded events of call k the guest passed.
pub(crate) fn place_in_call(guest: &ReplayGuest, k: u32) -> u64
    ensures { result ≡ place_in_call k guest.now }
{
    let call = guest.call();
    let count = guest.event_count(u64::from(k));
    if call < u64::from(k) {
        return 0;
    }
    if call == u64::from(k) && guest.at() < count {
        guest.at()
    } else {
        count
    }
}

/// Whether it passed all recorded events of call k, and didn't trap.
pub(crate) fn has_passed(guest: &ReplayGuest, k: u32) -> bool
    ensures { result ≡ has_passed k guest.now }
{
    guest.stop().is_none()
        && guest.call() == u64::from(k)
        && guest.event_count(u64::from(k)) <= guest.at()
}
