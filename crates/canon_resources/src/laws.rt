//! Laws of the definitions.

ghost use Rattle.canon_resources.specs.Laws.{LeavesAreDetermined, LeavesAreSteps, LeavesCompose, LiftsAreTakes, StopsArePartway, StopsCompose, StopsExclude, StopsStay};

/// Handles that cross, and those that cross after them, compose; so do those that stop on the way. What is refused
/// does not cross.
pub fn leaves_compose()
    ensures whole { LeavesCompose }
    ensures part { StopsCompose }
    ensures first_part { StopsStay }
    ensures exclude { StopsExclude }
{}

/// The ledger and the parts determine what is answered and left.
pub fn leaves_are_determined()
    ensures { LeavesAreDetermined }
{}

/// Handles that cross are accepted steps of the ledger, and those that stop are accepted up to some step.
pub fn leaves_are_steps()
    ensures whole { LeavesAreSteps }
    ensures part { StopsArePartway }
{}

/// What is lifted crosses with some handles.
pub fn lifts_are_takes()
    ensures { LiftsAreTakes }
{}
