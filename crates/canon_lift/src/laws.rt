//! The laws of lifting, as contracts.

ghost use Rattle.std.specs.Prelude.{IsTrue};
ghost use Rattle.canon_reading.specs.Laws.{LiftsExactly};

use crate::Lift;

/// A value of a type whose values have trees is lifted exactly where a tree of the type stands, at a price within the fuel, whose
/// handles the ledger accepts.
pub fn lifts_exactly<T: Lift>()
    ensures { IsTrue T.is_told → LiftsExactly T.fits T.reading T.lifts T.cost }
{}
