//! Laws of types that are the same.

ghost use Rattle.canon_same.specs.Laws.{SameIsEquivalence, SameLiesAlike};

/// Each type is the same as itself; which of two comes first doesn't matter; and what is the same as a type is the same as
/// whatever that type is the same as.
pub fn same_is_equivalence()
    ensures { SameIsEquivalence }
{}

/// Types that are the same lie alike in memory and in words.
pub fn same_lies_alike()
    ensures { SameLiesAlike }
{}
