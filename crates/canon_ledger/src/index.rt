//! The indexes by which the host names its handles.

ghost use Rattle.std.specs.Prelude.{◌≡◌};

use std::marker::Model;

/// An index of the host's table, with the generation in which it was given: the index in the low 32
/// bits, and the generation in the high 32. Contracts see the two.
#[derive(Clone, Copy, Debug, PartialEq, Eq)]
pub struct HostResourceIndex {
    number: u64,
}

impl Model for HostResourceIndex {
    ghost use Rattle.std.specs.Prelude.{◌^◌};
    ghost use Rattle.std.proofs.Math.Nat.{mod-add-div'};
    ghost use Rattle.canon_ledger.specs.Index.{GivenIndex, packed, unpacked};

    ghost Value = { GivenIndex };

    ghost view = { λ a. unpacked a.number };

    ghost inverse = { λ x. record { number = packed x } };

    ghost inverse_ok = { λ a h. λ i. record { number = mod-add-div' a.number (2 ^ 32) i } };
}

impl HostResourceIndex {
    /// An index with its generation.
    pub fn new(idx: u32, generation: u32) -> Self
        ensures index { result.index ≡ idx }
        ensures generation { result.generation ≡ generation }
    {
        HostResourceIndex {
            number: (generation as u64) * 4_294_967_296 + idx as u64,
        }
    }

    /// The index in the host's table.
    pub fn index(&self) -> u32
        ensures { result ≡ self.now.index }
    {
        (self.number % 4_294_967_296) as u32
    }

    /// The generation in which it was given.
    pub fn generation(&self) -> u32
        ensures { result ≡ self.now.generation }
    {
        (self.number / 4_294_967_296) as u32
    }
}
