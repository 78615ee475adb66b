//! A guest whose events are kept, or aren't.

ghost use Rattle.std.specs.Prelude.{◌≡◌, option_map};
ghost use Rattle.canon_events.specs.Guest.{journal_kept, maybe_journaled, without_journal};

use canon_memory::{Event, Guest, GuestFault, Journaled, Memory, Step, ValRaw};
use std::alloc::{AllocError, Global};

/// A guest, with its journal where one is kept.
#[derive(Drop)]
pub enum MaybeJournaled<G> {
    /// No journal is kept.
    Plain(G),
    /// One is kept: it takes a copy of memory at each start, ask, resume and return.
    Kept(Journaled<G>),
}

impl<G> MaybeJournaled<G> {
    /// A guest that has done nothing yet, and whether its events are kept.
    pub fn new(alloc: Global, guest: G, keeps_events: bool) -> Self
        ensures { result ≡ maybe_journaled guest keeps_events }
    {
        if keeps_events {
            MaybeJournaled::Kept(Journaled::new(alloc, guest))
        } else {
            MaybeJournaled::Plain(guest)
        }
    }

    /// The events so far, in order, where they are kept.
    pub fn journal(&self) -> Option<&[Event]>
        ensures { option_map (λ events. events.now) result ≡ journal_kept self.now }
    {
        match self {
            MaybeJournaled::Plain(_) => None,
            MaybeJournaled::Kept(guest) => Some(guest.events().as_slice()),
        }
    }

    /// Forgets the events so far.
    pub fn clear_journal(&mut self)
        ensures { self.new ≡ without_journal self.old }
    {
        match self {
            MaybeJournaled::Plain(_) => {}
            MaybeJournaled::Kept(guest) => {
                let _events = guest.take_journal();
            }
        }
    }
}

impl<G: Guest> Guest for MaybeJournaled<G> {
    ghost use Rattle.canon_events.specs.Guest.{MaybeMoves, maybe_goes_on, maybe_seen, maybe_stays};

    ghost seen = { λ g. maybe_seen G.seen g };

    ghost moves = { λ g events h. MaybeMoves G.moves g events h };

    ghost leaves = { λ m n. G.leaves m n };

    ghost stays = { λ g. maybe_stays G.moves G.stays g };

    ghost goes_on = { λ g h k xs ys p q. maybe_goes_on G.moves G.goes_on g h k xs ys p q };

    fn start(
        &mut self,
        memory: &mut Memory,
        func: u32,
        words: &[ValRaw],
    ) -> Result<Step, GuestFault> {
        match self {
            MaybeJournaled::Plain(guest) => guest.start(memory, func, words),
            MaybeJournaled::Kept(guest) => guest.start(memory, func, words),
        }
    }

    fn resume(&mut self, memory: &mut Memory, words: &[ValRaw]) -> Result<Step, GuestFault> {
        match self {
            MaybeJournaled::Plain(guest) => guest.resume(memory, words),
            MaybeJournaled::Kept(guest) => guest.resume(memory, words),
        }
    }

    fn realloc(
        &mut self,
        memory: &mut Memory,
        old: u64,
        old_size: u64,
        align: u32,
        new_size: u64,
    ) -> Result<u64, GuestFault> {
        match self {
            MaybeJournaled::Plain(guest) => guest.realloc(memory, old, old_size, align, new_size),
            MaybeJournaled::Kept(guest) => guest.realloc(memory, old, old_size, align, new_size),
        }
    }

    fn hold(&mut self, start: u64, size: u32) -> Result<(), AllocError> {
        match self {
            MaybeJournaled::Plain(guest) => guest.hold(start, size),
            MaybeJournaled::Kept(guest) => guest.hold(start, size),
        }
    }

    fn post_return(
        &mut self,
        memory: &mut Memory,
        func: u32,
        words: &[ValRaw],
    ) -> Result<(), GuestFault> {
        match self {
            MaybeJournaled::Plain(guest) => guest.post_return(memory, func, words),
            MaybeJournaled::Kept(guest) => guest.post_return(memory, func, words),
        }
    }

    fn dtor(&mut self, memory: &mut Memory, func: u32, rep: u32) -> Result<(), GuestFault> {
        match self {
            MaybeJournaled::Plain(guest) => guest.dtor(memory, func, rep),
            MaybeJournaled::Kept(guest) => guest.dtor(memory, func, rep),
        }
    }
}
