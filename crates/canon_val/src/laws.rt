//! The law of equality, as a contract.

ghost use Rattle.canon_val.specs.Laws.{ValueEquality};

/// `==` of values is an equivalence, and true of equal values alone.
pub fn value_equality()
    ensures { ValueEquality }
{}
