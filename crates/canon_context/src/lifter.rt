//! What is lifted from a core: memory, its types and its ledger at once.

ghost use Rattle.std.specs.Prelude.{ℕ, Result};
ghost use Rattle.canon_context.specs.Lifter.{IsAfterSteps, IsOneOrigin, Origin, origin_of};
ghost use Rattle.canon_context.specs.declared.fault.Fault.{Fault};
ghost use Rattle.canon_ledger.specs.Ledger.{LedgerState};

use crate::{Fault, Source};
use canon_ledger::Ledger;
use std::alloc::Global;

/// Something that is lifted from the words or the memory of a guest, with the handles in it taken through the ledger. A core lends
/// these to it at once (`LiftContext::lift_by`). A lifter does nothing to the ledger but steps of it.
pub trait Lifter {
    /// What it is lifted to.
    type Lifted;

    // when it can be lifted
    ghost ready: { Self → Origin → Type 0 };

    // what lifting it does, to the ledger and the fuel too
    ghost gives: { Self → Origin → LedgerState → ℕ → Result Self.Lifted Fault → LedgerState → ℕ → Type 0 };

    /// Lifts it.
    fn lift(
        &self,
        alloc: Global,
        source: &Source<'_>,
        ledger: &mut Ledger,
        fuel: &mut u64,
    ) -> Result<Self::Lifted, Fault>
        requires one_origin { IsOneOrigin source.now }
        requires ready { ready self.now (origin_of source.now) }
        ensures gives { gives self.now (origin_of source.now) ledger.old fuel.old result ledger.new fuel.new }
        ensures steps { IsAfterSteps ledger.old ledger.new };
}
