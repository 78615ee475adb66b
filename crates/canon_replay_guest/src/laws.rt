//! Laws of what a guest that replays does.

ghost use Rattle.canon_replay_guest.specs.Fitting.{NeverUnfit};
ghost use Rattle.canon_replay_guest.specs.Following.{ChainPasses, MovesFollow};

/// What calls in a row that don't trap tell is alike the recorded events that they pass, one by one: the same but for the memory in which the
/// guest is started or resumed.
pub fn calls_pass()
    ensures { ChainPasses }
{}

/// From before one of the recorded calls on, whatever is asked of it, a guest that replays follows what is recorded of that call; or it
/// trapped at the place where it is, and tells why; or requests were made past the call's last recorded event.
pub fn moves_follow()
    ensures { MovesFollow }
{}

/// Where a step is recorded behind each start and each resume, and recorded memories don't become shorter, nor longer than 2^32 bytes, a
/// guest that replays never traps as unfit, whatever is asked of it.
pub fn never_unfit()
    ensures { NeverUnfit }
{}
