//! A guest that does what was recorded of one.

ghost use Rattle.std.specs.Prelude.{◌≡◌, ◌↔◌, ◌<◌, ◌^◌, ◌%◌, ◌+◌, ◌≤◌, IsTrue};
ghost use Rattle.canon_replay_guest.specs.Moves.{ReplayMoves, replay_moves_nothing, replay_moves_then};
ghost use Rattle.canon_replay_guest.specs.Replaying.{replay_seen};

use crate::live::LiveBlocks;
use crate::recorded::{
    answer_of, copy_kept, event_at, events_of, grow_to, is_post, is_resume, is_start, read_words,
    start_of, take_step,
};
use crate::stop::Stop;
use canon_memory::{Event, Events, Guest, GuestFault, Memory, Step, ValRaw};
use std::alloc::{AllocError, Global};
use std::marker::Model;

/// The number of addresses.
const ADDRESSES: u64 = 1 << 32;

/// A guest that does what was recorded of one, call by call. It compares each request with the recorded one, never the memory in which it is
/// made, and traps where they differ; `realloc` answers as recorded, if that is lawful. Once it trapped it traps at each call, and tells why
/// and where it trapped first.
#[derive(Drop)]
pub struct ReplayGuest {
    alloc: Global,
    calls: Vec<Events>,
    call: u64,
    at: u64,
    stop: Option<Stop>,
    live: LiveBlocks,
    traps: u64,
    shortages: u64,
}

impl Model for ReplayGuest {
    ghost use Rattle.canon_replay_guest.specs.Replaying.{Replaying};

    ghost Value = { Replaying };

    ghost view = { λ g. record { recorded = g.calls.items; call = g.call; at = g.at; stop = g.stop; live = g.live; traps = g.traps; shortages = g.shortages } };
}

impl ReplayGuest {
    ghost use Rattle.std.specs.Prelude.{◌≡◌, ◌≤◌, ◌<◌, ◌^◌, ◌↔◌, None, List, ℕ, [], IsTrue, length};
    ghost use Rattle.std.specs.Option.{option_map};
    ghost use Rattle.canon_memory.specs.Realloc.{call};
    ghost use Rattle.canon_replay_guest.specs.Lawful.{IsLawfulAnswer};
    ghost use Rattle.canon_replay_guest.specs.Leaves.{AnswersAsRecorded, Began, DoesEnd, DoesStep, IsLater, ReallocatesAsRecorded, StepsAsRecorded, run_out};
    ghost use Rattle.canon_replay_guest.specs.Moves.{destroys, posts, resumes, starts};
    ghost use Rattle.canon_replay_guest.specs.Replaying.{IsOpened, call_events, events_now, next_event, stopped_for, trapped_again, wanted_length};

    /// A guest to which these events were recorded, call by call.
    pub fn new(alloc: Global, calls: Vec<Events>) -> Self
        ensures { result ≡ record { recorded = calls.items; call = 0; at = 0; stop = None; live = []; traps = 0; shortages = 0 } }
    {
        ReplayGuest {
            alloc,
            calls,
            call: 0,
            at: 0,
            stop: None,
            live: LiveBlocks::new(alloc),
            traps: 0,
            shortages: 0,
        }
    }

    /// Why it trapped first, if it did.
    pub fn stop(&self) -> Option<Stop>
        ensures { result ≡ self.now.stop }
    {
        self.stop
    }

    /// The number of the call that it is at.
    pub fn call(&self) -> u64
        ensures { result ≡ self.now.call }
    {
        self.call
    }

    /// How many recorded events of that call it passed. Where it trapped, the event there is the one that it trapped at.
    pub fn at(&self) -> u64
        ensures { result ≡ self.now.at }
    {
        self.at
    }

    /// How many events are recorded of a call.
    pub fn event_count(&self, call: u64) -> u64
        ensures { result ≡ length (call_events self.now.recorded call) }
    {
        events_of(&self.calls, call).len() as u64
    }

    /// The recorded event that comes next.
    fn next(&self) -> Option<&Event>
        ensures { option_map (λ e. e.now) result ≡ next_event self.now }
    {
        event_at(&self.calls, self.call, self.at)
    }

    /// How many events are recorded of the call that it is at.
    fn count(&self) -> u64
        ensures { result ≡ length (events_now self.now) }
    {
        events_of(&self.calls, self.call).len() as u64
    }

    /// Traps for a reason.
    fn trap(&mut self, why: Stop) -> GuestFault
        ensures fault { result ≡ GuestFault.Trap }
        ensures stops { self.new ≡ stopped_for self.old why }
        ensures later { IsLater self.old self.new }
    {
        self.stop = Some(why);
        self.trap_again()
    }

    /// Traps, for the same reason as before.
    fn trap_again(&mut self) -> GuestFault
        ensures fault { result ≡ GuestFault.Trap }
        ensures counts { self.new ≡ trapped_again self.old }
        ensures later { IsLater self.old self.new }
    {
        self.traps = self.traps.saturating_add(1);
        GuestFault::Trap
    }

    /// Counts want of memory.
    fn run_out(&mut self) -> GuestFault
        ensures fault { result ≡ GuestFault.OutOfMemory }
        ensures counts { self.new ≡ run_out self.old }
        ensures later { IsLater self.old self.new }
    {
        self.shortages = self.shortages.saturating_add(1);
        GuestFault::OutOfMemory
    }

    /// Goes to the next call, where the events of this one are passed.
    fn open(&mut self)
        ensures opens { IsOpened self.old self.new }
        ensures later { IsLater self.old self.new }
    {
        if self.count() <= self.at && self.call < self.calls.len() as u64 {
            self.call += 1;
            self.at = 0;
        }
    }

    /// The length that memory is given before the next event.
    fn wanted(&self, len: u64) -> u64
        ensures { result ≡ wanted_length self.now len }
    {
        if self.at == 0 {
            start_of(events_of(&self.calls, self.call), len)
        } else {
            len
        }
    }

    /// Opens the next call, where this one is over, and grows memory to the length in which it is started.
    fn begin(&mut self, memory: &mut Memory) -> Result<(), GuestFault>
        ensures began { Began self.old memory.old.bytes self.new memory.new.bytes result }
        ensures no_shorter { length memory.old.bytes ≤ length memory.new.bytes }
        ensures later { IsLater self.old self.new }
        ensures width { memory.new.wide ≡ memory.old.wide }
    {
        if self.stop.is_some() {
            return Err(self.trap_again());
        }
        self.open();
        let len = self.wanted(memory.len());
        match grow_to(memory, len) {
            Ok(()) => Ok(()),
            Err(GuestFault::Trap) => Err(self.trap(Stop::Unfit)),
            Err(GuestFault::OutOfMemory) => Err(self.run_out()),
        }
    }

    /// Makes the recorded step after the next event.
    fn step(&mut self, memory: &mut Memory) -> Result<Step, GuestFault>
        requires { self.old.at < length (events_now self.old) }
        ensures stepped { StepsAsRecorded self.old memory.old.bytes self.new memory.new.bytes result }
        ensures no_shorter { length memory.old.bytes ≤ length memory.new.bytes }
        ensures later { IsLater self.old self.new }
        ensures width { memory.new.wide ≡ memory.old.wide }
    {
        let _count = self.count();
        let event = event_at(&self.calls, self.call, self.at + 1);
        match take_step(self.alloc, event, memory) {
            Ok(step) => {
                self.at += 2;
                self.live.clear();
                Ok(step)
            }
            Err(GuestFault::Trap) => Err(self.trap(Stop::Unfit)),
            Err(GuestFault::OutOfMemory) => Err(self.run_out()),
        }
    }

    /// Whether an answer is lawful in a memory of `len` bytes.
    fn is_lawful(
        &self,
        len: u64,
        old: u64,
        old_size: u64,
        align: u32,
        new_size: u64,
        answer: u64,
    ) -> bool
        requires aligned { 0 < align }
        requires narrow { old < 2 ^ 32 }
        requires old_sized { old_size < 2 ^ 32 }
        requires new_sized { new_size < 2 ^ 32 }
        ensures { IsTrue result ↔ IsLawfulAnswer self.now.live len (call old old_size align new_size) answer }
    {
        if !is_placed(len, align, new_size, answer) || old + old_size.min(new_size) > len {
            return false;
        }
        self.live.is_free(old, old_size, answer, new_size)
    }

    /// Gives the recorded answer, if it is lawful, and copies the first bytes of the old block.
    fn answer(
        &mut self,
        memory: &mut Memory,
        old: u64,
        old_size: u64,
        align: u32,
        new_size: u64,
    ) -> Result<u64, GuestFault>
        requires aligned { 0 < align }
        requires narrow { old < 2 ^ 32 }
        requires old_sized { old_size < 2 ^ 32 }
        requires new_sized { new_size < 2 ^ 32 }
        ensures answers { AnswersAsRecorded self.old memory.old.bytes (call old old_size align new_size) self.new memory.new.bytes result }
        ensures later { IsLater self.old self.new }
        ensures width { memory.new.wide ≡ memory.old.wide }
    {
        let _count = self.count();
        let Some(answer) = answer_of(self.next(), old, old_size, align, new_size) else {
            return Err(self.trap(Stop::Differs));
        };
        if !self.is_lawful(memory.len(), old, old_size, align, new_size, answer) {
            return Err(self.trap(Stop::Unlawful));
        }
        if self.live.relist(old, old_size, answer, new_size).is_err() {
            return Err(self.run_out());
        }
        copy_kept(memory, old, answer, old_size.min(new_size));
        self.at += 1;
        Ok(answer)
    }

    /// Starts, if that is recorded, and makes the recorded step.
    fn run(&mut self, memory: &mut Memory, func: u32, words: &[ValRaw]) -> Result<Step, GuestFault>
        ensures does { DoesStep (starts func words.now) self.old memory.old.bytes self.new memory.new.bytes result }
        ensures no_shorter { length memory.old.bytes ≤ length memory.new.bytes }
        ensures later { IsLater self.old self.new }
        ensures width { memory.new.wide ≡ memory.old.wide }
    {
        self.begin(memory)?;
        if !is_start(self.next(), func, words) {
            read_words(words);
            return Err(self.trap(Stop::Differs));
        }
        self.step(memory)
    }

    /// Goes on, if that is recorded, and makes the recorded step.
    fn go_on(&mut self, memory: &mut Memory, words: &[ValRaw]) -> Result<Step, GuestFault>
        ensures does { DoesStep (resumes words.now) self.old memory.old.bytes self.new memory.new.bytes result }
        ensures no_shorter { length memory.old.bytes ≤ length memory.new.bytes }
        ensures later { IsLater self.old self.new }
        ensures width { memory.new.wide ≡ memory.old.wide }
    {
        if self.stop.is_some() {
            return Err(self.trap_again());
        }
        self.open();
        if !is_resume(self.next(), words) {
            read_words(words);
            return Err(self.trap(Stop::Differs));
        }
        self.step(memory)
    }

    /// Gives the recorded answer to a request.
    fn give(
        &mut self,
        memory: &mut Memory,
        old: u64,
        old_size: u64,
        align: u32,
        new_size: u64,
    ) -> Result<u64, GuestFault>
        requires aligned { 0 < align }
        requires narrow { old < 2 ^ 32 }
        requires old_sized { old_size < 2 ^ 32 }
        requires new_sized { new_size < 2 ^ 32 }
        ensures does { ReallocatesAsRecorded self.old memory.old.bytes (call old old_size align new_size) self.new memory.new.bytes result }
        ensures later { IsLater self.old self.new }
        ensures width { memory.new.wide ≡ memory.old.wide }
    {
        self.begin(memory)?;
        self.answer(memory, old, old_size, align, new_size)
    }

    /// Ends a call, if that is recorded.
    fn end(&mut self, func: u32, words: &[ValRaw]) -> Result<(), GuestFault>
        ensures does { (memory : List ℕ) → DoesEnd (posts func words.now) self.old memory self.new result }
        ensures later { IsLater self.old self.new }
    {
        if self.stop.is_some() {
            return Err(self.trap_again());
        }
        self.open();
        if !is_post(self.next(), func, words) {
            read_words(words);
            return Err(self.trap(Stop::Differs));
        }
        let _count = self.count();
        self.at += 1;
        self.live.clear();
        Ok(())
    }

    /// Traps, since no destructor is recorded.
    fn refuse(&mut self, func: u32, rep: u32) -> Result<(), GuestFault>
        ensures does { (memory : List ℕ) → DoesEnd (destroys func rep) self.old memory self.new result }
        ensures later { IsLater self.old self.new }
    {
        if self.stop.is_some() {
            return Err(self.trap_again());
        }
        self.open();
        Err(self.trap(Stop::Differs))
    }
}

/// Whether an answer is below 2^32 and aligned, and its block ends inside a memory of `len` bytes.
fn is_placed(len: u64, align: u32, new_size: u64, answer: u64) -> bool
    requires aligned { 0 < align }
    requires new_sized { new_size < 2 ^ 32 }
    ensures { IsTrue result ↔ ((answer < 2 ^ 32) × (answer % align ≡ 0) × (answer + new_size ≤ len)) }
{
    answer < ADDRESSES && answer % u64::from(align) == 0 && answer + new_size <= len
}

impl Guest for ReplayGuest {
    ghost use Rattle.std.specs.Prelude.{IfOk, IsFalse};
    ghost use Rattle.canon_memory.specs.Guest.{OnAnswer, Reallocates, guest_in, moment};
    ghost use Rattle.canon_memory.specs.Journal.{realloc_events};
    ghost use Rattle.canon_memory.specs.Realloc.{call};
    ghost use Rattle.canon_replay_guest.specs.Leaves.{IsCopied};

    ghost seen = { replay_seen };

    ghost moves = { λ g events h. ReplayMoves g events h };

    ghost leaves = { λ m n. n ≡ m };

    ghost stays = { λ g. replay_moves_nothing g };

    ghost goes_on = { λ g h k xs ys f e. replay_moves_then g h k xs ys f e };

    fn start(
        &mut self,
        memory: &mut Memory,
        func: u32,
        words: &[ValRaw],
    ) -> Result<Step, GuestFault> {
        self.run(memory, func, words)
    }

    fn resume(&mut self, memory: &mut Memory, words: &[ValRaw]) -> Result<Step, GuestFault> {
        self.go_on(memory, words)
    }

    fn realloc(
        &mut self,
        memory: &mut Memory,
        old: u64,
        old_size: u64,
        align: u32,
        new_size: u64,
    ) -> Result<u64, GuestFault>
        requires aligned { 0 < align }
        requires narrow { old < 2 ^ 32 }
        requires old_sized { old_size < 2 ^ 32 }
        requires new_sized { new_size < 2 ^ 32 }
        ensures narrow { IsFalse memory.old.wide → IfOk result (λ answer. answer < 2 ^ 32) }
        ensures width { memory.new.wide ≡ memory.old.wide }
        ensures does { Reallocates (moment (replay_seen self.old) memory.old.bytes) (moment (replay_seen self.new) memory.new.bytes) (call old old_size align new_size) result }
        ensures moves { OnAnswer result (ReplayMoves (guest_in self.old memory.old) (realloc_events (call old old_size align new_size) memory.old.bytes result) (guest_in self.new memory.new)) }
        ensures copied { IfOk result (λ answer. IsCopied memory.old.bytes (call old old_size align new_size) answer memory.new.bytes) }
    {
        self.give(memory, old, old_size, align, new_size)
    }

    fn hold(&mut self, _start: u64, _size: u32) -> Result<(), AllocError> {
        Ok(())
    }

    fn post_return(
        &mut self,
        _memory: &mut Memory,
        func: u32,
        words: &[ValRaw],
    ) -> Result<(), GuestFault> {
        self.end(func, words)
    }

    fn dtor(&mut self, _memory: &mut Memory, func: u32, rep: u32) -> Result<(), GuestFault> {
        self.refuse(func, rep)
    }
}
