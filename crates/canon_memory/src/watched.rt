//! A guest whose answers of `realloc` are tested against their law.

ghost use Rattle.std.specs.Prelude.{◌≡◌, ◌+◌, ◌≤◌, List, [], ◌∷◌, ◌++◌, length};
ghost use Rattle.std.proofs.Common.{refl, ◌∙◌};
ghost use Rattle.canon_memory.specs.Watch.{WatchedMoves, Watching, along_both, watched_guest};

use crate::law::{AnswerMark, LiveBlock, mark_answer, shot};
use crate::{Guest, GuestFault, Memory, Step, ValRaw};
use std::alloc::{AllocError, Global};
use std::marker::Model;

/// A guest, and what was seen of its answers of `realloc`: each is tested, over the blocks that it gave since it
/// last ran and the places that it was told to hold.
#[derive(Drop)]
pub struct Watched<G> {
    guest: G,
    whole: bool,
    // the places that it was told to hold since it last ran
    held: Vec<LiveBlock>,
    // the blocks that it gave since it last ran
    live: Vec<LiveBlock>,
    marks: Vec<AnswerMark>,
    shortages: u64,
    // a copy of memory as it was before the last answer, kept for its room
    before: Vec<u8>,
}

impl<G> Model for Watched<G> {
    ghost Value = { Watching G };

    ghost view = { λ w. record { guest = w.guest; whole = w.whole; held = w.held.items; live = w.live.items; marks = w.marks.items; shortages = w.shortages } };
}

impl<G> Watched<G> {
    ghost use Rattle.std.specs.Prelude.{◌≡◌, ◌≤◌, [], false, true};
    ghost use Rattle.std.specs.Borrow.{Lends, sem};
    ghost use Rattle.canon_memory.specs.Counts.{Rose};
    ghost use Rattle.canon_memory.specs.contracts.watched.Watched.{the_row};

    /// A guest that has given nothing yet. Every byte is watched: each request costs a copy of all memory.
    pub fn new(alloc: Global, guest: G) -> Self
        ensures { result ≡ record { guest = guest; whole = true; held = []; live = []; marks = []; shortages = 0 } }
    {
        Watched {
            guest,
            whole: true,
            held: Vec::new(alloc),
            live: Vec::new(alloc),
            marks: Vec::new(alloc),
            shortages: 0,
            before: Vec::new(alloc),
        }
    }

    /// The same, but no byte outside the blocks is watched, and no answer is marked as tidy. A request costs a copy of memory up
    /// to where the last block or place ends that lives, so the first one for parameters costs none.
    pub fn lawful_only(alloc: Global, guest: G) -> Self
        ensures { result ≡ record { guest = guest; whole = false; held = []; live = []; marks = []; shortages = 0 } }
    {
        Watched {
            guest,
            whole: false,
            held: Vec::new(alloc),
            live: Vec::new(alloc),
            marks: Vec::new(alloc),
            shortages: 0,
            before: Vec::new(alloc),
        }
    }

    /// The guest itself.
    pub fn guest(&self) -> &G
        ensures { result.now ≡ self.now.guest }
    {
        &self.guest
    }

    /// The guest itself, to be changed. What it answers there isn't tested.
    pub fn guest_mut(&mut self) -> &mut G
        ensures* writes_back { sem 𝓛 (Lends (the_row G.row) G.row self.entry result (λ g. record self.old { guest = g })) }
        ensures value { result.now ≡ self.old.guest }
    {
        &mut self.guest
    }

    /// The marks of its answers so far.
    pub fn marks(&self) -> &[AnswerMark]
        ensures { result.now ≡ self.now.marks }
    {
        &self.marks
    }

    /// Forgets the marks.
    pub fn clear_marks(&mut self)
        ensures { self.new ≡ record self.old { marks = [] } }
    {
        self.marks.clear();
    }

    /// No block lives, and no place is held.
    fn let_go(&mut self)
        ensures { self.new ≡ record self.old { held = []; live = [] } }
    {
        self.held.clear();
        self.live.clear();
    }

    /// Counts want of memory.
    fn count(&mut self, fault: GuestFault) -> GuestFault
        ensures same { result ≡ fault }
        ensures kept { self.new ≡ record self.old { shortages = self.new.shortages } }
        ensures trap { fault ≡ GuestFault.Trap → self.new ≡ self.old }
        ensures later { self.old.shortages ≤ self.new.shortages }
        ensures rose { fault ≡ GuestFault.OutOfMemory → Rose self.old.shortages self.new.shortages }
    {
        if fault == GuestFault::OutOfMemory {
            self.shortages = self.shortages.saturating_add(1);
        }
        fault
    }
}

#[tactic(auto, using(crate::proofs::Watch::after_step))]
impl<G: Guest> Guest for Watched<G> {
    ghost use Rattle.std.specs.Prelude.{◌≡◌, ◌<◌, ◌^◌, IfOk, IsFalse, OnErr, OnOk, []};
    ghost use Rattle.canon_memory.specs.Guest.{Goes, HasCause, HoldsPlace, IsHeld, MovesByNone, OnAnswer, Reallocates, guest_in, moment};
    ghost use Rattle.canon_memory.specs.Journal.{dtor_events, post_events, realloc_events, resume_events, start_events};
    ghost use Rattle.canon_memory.specs.Realloc.{block, call};
    ghost use Rattle.canon_memory.specs.Watch.{Lists, Marks, WatchedMoves, other_blocks, watched_seen};

    ghost seen = { λ w. watched_seen G.seen w };

    ghost moves = { λ w events x. WatchedMoves G.moves w events x };

    ghost leaves = { λ m n. G.leaves m n };

    ghost stays = { λ w. record { moves = G.stays (watched_guest w); live = refl; whole = refl; shortages = refl } };

    ghost goes_on = { λ u v w xs ys f g. record { moves = G.goes_on (watched_guest u) (watched_guest v) (watched_guest w) xs ys f.moves g.moves; live = along_both _ _ _ xs ys f.live g.live; whole = g.whole ∙ f.whole; shortages = g.shortages ∙ f.shortages } };

    fn start(
        &mut self,
        memory: &mut Memory,
        func: u32,
        words: &[ValRaw],
    ) -> Result<Step, GuestFault>
        ensures width { memory.new.wide ≡ memory.old.wide }
        ensures goes { Goes (moment (watched_seen G.seen self.old) memory.old.bytes) (moment (watched_seen G.seen self.new) memory.new.bytes) [] (start_events func words.now memory.old.bytes memory.new.bytes result) }
        ensures moves { OnAnswer result (WatchedMoves G.moves (guest_in self.old memory.old) (start_events func words.now memory.old.bytes memory.new.bytes result) (guest_in self.new memory.new)) }
        ensures cause { HasCause (watched_seen G.seen self.old) (watched_seen G.seen self.new) result }
        ensures let_go { (self.new.held ≡ []) × (self.new.live ≡ []) × (self.new.whole ≡ self.old.whole) }
    {
        self.let_go();
        match self.guest.start(memory, func, words) {
            Ok(step) => Ok(step),
            Err(fault) => Err(self.count(fault)),
        }
    }

    fn resume(&mut self, memory: &mut Memory, words: &[ValRaw]) -> Result<Step, GuestFault>
        ensures width { memory.new.wide ≡ memory.old.wide }
        ensures goes { Goes (moment (watched_seen G.seen self.old) memory.old.bytes) (moment (watched_seen G.seen self.new) memory.new.bytes) [] (resume_events words.now memory.old.bytes memory.new.bytes result) }
        ensures moves { OnAnswer result (WatchedMoves G.moves (guest_in self.old memory.old) (resume_events words.now memory.old.bytes memory.new.bytes result) (guest_in self.new memory.new)) }
        ensures cause { HasCause (watched_seen G.seen self.old) (watched_seen G.seen self.new) result }
        ensures let_go { (self.new.held ≡ []) × (self.new.live ≡ []) × (self.new.whole ≡ self.old.whole) }
    {
        self.let_go();
        match self.guest.resume(memory, words) {
            Ok(step) => Ok(step),
            Err(fault) => Err(self.count(fault)),
        }
    }

    fn realloc(
        &mut self,
        memory: &mut Memory,
        old: u64,
        old_size: u64,
        align: u32,
        new_size: u64,
    ) -> Result<u64, GuestFault>
        requires aligned { 0 < align }
        requires narrow { old < 2 ^ 32 }
        requires old_sized { old_size < 2 ^ 32 }
        requires new_sized { new_size < 2 ^ 32 }
        ensures narrow { IsFalse memory.old.wide → IfOk result (λ answer. answer < 2 ^ 32) }
        ensures width { memory.new.wide ≡ memory.old.wide }
        ensures does { Reallocates (moment (watched_seen G.seen self.old) memory.old.bytes) (moment (watched_seen G.seen self.new) memory.new.bytes) (call old old_size align new_size) result }
        ensures moves { OnAnswer result (WatchedMoves G.moves (guest_in self.old memory.old) (realloc_events (call old old_size align new_size) memory.old.bytes result) (guest_in self.new memory.new)) }
        ensures unlists { IfOk result (λ _. self.new.held ≡ other_blocks self.old.held (block old old_size)) }
        ensures exact { IfOk result (λ answer. Marks self.old self.new memory.old.bytes memory.new.bytes (call old old_size align new_size) answer) }
        ensures kept { OnErr result ((self.new.marks ≡ self.old.marks) × (self.new.held ≡ self.old.held) × (self.new.live ≡ self.old.live) × (self.new.whole ≡ self.old.whole)) }
    {
        let seen = shot(
            &self.held,
            &self.live,
            old + old_size,
            self.whole,
            memory.as_slice(),
        );
        self.before.clear();
        let is_copied = self.before.extend_from_slice(seen).is_ok();
        if !is_copied || self.live.reserve(1).is_err() || self.marks.reserve(1).is_err() {
            return Err(self.count(GuestFault::OutOfMemory));
        }
        match self.guest.realloc(memory, old, old_size, align, new_size) {
            Ok(answer) => {
                mark_answer(
                    &mut self.held,
                    &mut self.live,
                    &mut self.marks,
                    old,
                    old_size,
                    align,
                    new_size,
                    answer,
                    self.whole,
                    &self.before,
                    memory.as_slice(),
                );
                Ok(answer)
            }
            Err(fault) => Err(self.count(fault)),
        }
    }

    fn hold(&mut self, start: u64, size: u32) -> Result<(), AllocError>
        ensures holds { HoldsPlace (watched_seen G.seen self.old) (watched_seen G.seen self.new) (block start size) result }
        ensures moves { OnOk result (MovesByNone (λ w events x. WatchedMoves G.moves w events x) self.old self.new) }
        ensures lists { Lists self.old self.new (block start size) result }
        ensures inner { OnOk result (IsHeld (G.seen self.old.guest) (G.seen self.new.guest) (block start size)) }
    {
        if let Err(error) = self.held.reserve(1) {
            self.count(GuestFault::OutOfMemory);
            return Err(error);
        }
        match self.guest.hold(start, size) {
            Ok(()) => {
                let _ = self.held.push(LiveBlock::new(start, u64::from(size)));
                Ok(())
            }
            Err(error) => {
                self.count(GuestFault::OutOfMemory);
                Err(error)
            }
        }
    }

    fn post_return(
        &mut self,
        memory: &mut Memory,
        func: u32,
        words: &[ValRaw],
    ) -> Result<(), GuestFault>
        ensures width { memory.new.wide ≡ memory.old.wide }
        ensures goes { Goes (moment (watched_seen G.seen self.old) memory.old.bytes) (moment (watched_seen G.seen self.new) memory.new.bytes) [] (post_events func words.now memory.old.bytes result) }
        ensures moves { OnAnswer result (WatchedMoves G.moves (guest_in self.old memory.old) (post_events func words.now memory.old.bytes result) (guest_in self.new memory.new)) }
        ensures leaves { OnOk result (G.leaves memory.old.bytes memory.new.bytes) }
        ensures cause { HasCause (watched_seen G.seen self.old) (watched_seen G.seen self.new) result }
        ensures let_go { (self.new.held ≡ []) × (self.new.live ≡ []) × (self.new.whole ≡ self.old.whole) }
    {
        self.let_go();
        match self.guest.post_return(memory, func, words) {
            Ok(()) => Ok(()),
            Err(fault) => Err(self.count(fault)),
        }
    }

    fn dtor(&mut self, memory: &mut Memory, func: u32, rep: u32) -> Result<(), GuestFault>
        ensures width { memory.new.wide ≡ memory.old.wide }
        ensures goes { Goes (moment (watched_seen G.seen self.old) memory.old.bytes) (moment (watched_seen G.seen self.new) memory.new.bytes) [] (dtor_events func rep memory.old.bytes result) }
        ensures moves { OnAnswer result (WatchedMoves G.moves (guest_in self.old memory.old) (dtor_events func rep memory.old.bytes result) (guest_in self.new memory.new)) }
        ensures leaves { OnOk result (G.leaves memory.old.bytes memory.new.bytes) }
        ensures cause { HasCause (watched_seen G.seen self.old) (watched_seen G.seen self.new) result }
        ensures let_go { (self.new.held ≡ []) × (self.new.live ≡ []) × (self.new.whole ≡ self.old.whole) }
    {
        self.let_go();
        match self.guest.dtor(memory, func, rep) {
            Ok(()) => Ok(()),
            Err(fault) => Err(self.count(fault)),
        }
    }
}
