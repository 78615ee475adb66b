//! The count of the live handles of a store, and its limit.

ghost use Rattle.std.specs.Prelude.{◌≡◌};

use std::marker::Model;

/// The live handles of all the tables of a store, and how many there may be. A handle is live as
/// long as its entry stands, and each lend of an own handle counts as one more.
#[derive(Debug, Drop)]
pub struct HandleCounter {
    live: u64,
    limit: u64,
}

impl Model for HandleCounter {
    ghost use Rattle.canon_handles.specs.Table.{Counter};

    ghost Value = { Counter };

    ghost view = { λ a. record { live = a.live; limit = a.limit } };
}

impl HandleCounter {
    ghost use Rattle.canon_handles.specs.Table.{with_limit, one_more, one_less, is_at_limit};
    ghost use Rattle.std.specs.Prelude.{◌<◌, ◌^◌, false};

    /// A counter with no live handles.
    pub fn new(limit: u64) -> Self
        ensures { result ≡ record { live = 0; limit = limit } }
    {
        HandleCounter { live: 0, limit }
    }

    /// How many live handles there may be.
    pub fn limit(&self) -> u64
        ensures { result ≡ self.now.limit }
    {
        self.limit
    }

    /// Sets how many live handles there may be. A lower limit refuses nothing that exists.
    pub fn set_limit(&mut self, limit: u64)
        ensures { self.new ≡ with_limit self.old limit }
    {
        self.limit = limit;
    }

    /// The number of live handles.
    pub fn live(&self) -> u64
        ensures { result ≡ self.now.live }
    {
        self.live
    }

    pub(crate) fn is_at_limit(&self) -> bool
        ensures { result ≡ is_at_limit self.now }
    {
        self.live >= self.limit
    }

    pub(crate) fn add(&mut self)
        requires { is_at_limit self.old ≡ false }
        ensures more { self.new ≡ one_more self.old }
        ensures small { self.new.live < 2 ^ 64 }
    {
        let _limit = self.limit; // the limit is below 2^64, and `live` is below the limit
        self.live += 1;
    }

    pub(crate) fn take(&mut self)
        requires { 0 < self.old.live }
        ensures { self.new ≡ one_less self.old }
    {
        self.live -= 1;
    }
}
