//! A guest together with the journal of what it was asked and did.

ghost use Rattle.std.specs.Prelude.{◌≡◌, ◌+◌, List, ◌∷◌, [], ◌++◌, length, Some, IfOk, OnOk, OnErr};
ghost use Rattle.canon_memory.specs.declared.event.Event.TheVariants as event;
ghost use Rattle.std.proofs.Common.{refl, ◌∙◌};
ghost use Rattle.canon_memory.specs.Guest.{JournaledMoves, Recorded, of_guest};
ghost use Rattle.canon_memory.specs.Journal.{step_event, trap_event};

use crate::{Bytes, Event, Events, Guest, GuestFault, Memory, MemoryError, Step, ValRaw, Words};
use std::alloc::{AllocError, Global};
use std::marker::Model;
use std::mem;

/// A guest, and the journal of what it was asked and did. Contracts see both, and how often want of memory was answered,
/// by the guest or because the journal had no room.
#[derive(Drop)]
pub struct Journaled<G> {
    alloc: Global,
    guest: G,
    events: Events,
    shortages: u64,
}

impl<G> Model for Journaled<G> {
    ghost Value = { Recorded G };

    ghost view = { λ j. record { guest = j.guest; events = j.events; shortages = j.shortages } };
}

impl<G> Journaled<G> {
    ghost use Rattle.std.specs.Prelude.{◌≡◌, ◌≤◌, ◌-◌, ◌∷◌, ◌++◌, [], OnErr, OnOk, length, take};
    ghost use Rattle.std.specs.Borrow.{Lends, sem};
    ghost use Rattle.canon_memory.specs.Counts.{Rose};
    ghost use Rattle.canon_memory.specs.Journal.{step_event};
    ghost use Rattle.canon_memory.specs.contracts.journaled.Journaled.{the_row};

    /// A guest that has done nothing yet.
    pub fn new(alloc: Global, guest: G) -> Self
        ensures { result ≡ record { guest = guest; events = []; shortages = 0 } }
    {
        Journaled {
            alloc,
            guest,
            events: Events::new(alloc),
            shortages: 0,
        }
    }

    /// The guest itself.
    pub fn guest(&self) -> &G
        ensures { result.now ≡ self.now.guest }
    {
        &self.guest
    }

    /// The guest itself, to be changed. What is done to it there isn't in the journal.
    pub fn guest_mut(&mut self) -> &mut G
        ensures* writes_back { sem 𝓛 (Lends (the_row G.row) G.row self.entry result (λ g. record self.old { guest = g })) }
        ensures value { result.now ≡ self.old.guest }
    {
        &mut self.guest
    }

    /// The events so far, in order.
    pub fn events(&self) -> &Events
        ensures { result.now ≡ self.now.events }
    {
        &self.events
    }

    /// The events so far, which the journal gives up.
    pub fn take_journal(&mut self) -> Events
        ensures taken { result ≡ self.old.events }
        ensures left { self.new ≡ record self.old { events = [] } }
    {
        mem::replace(&mut self.events, Events::new(self.alloc))
    }

    /// Counts that want of memory is answered.
    fn run_out(&mut self)
        ensures guest { self.new.guest ≡ self.old.guest }
        ensures events { self.new.events ≡ self.old.events }
        ensures later { self.old.shortages ≤ self.new.shortages }
        ensures rose { Rose self.old.shortages self.new.shortages }
    {
        self.shortages = self.shortages.saturating_add(1);
    }

    /// Puts what the guest did in the place of the trap. Where memory runs out, takes the event before it away too.
    fn conclude(&mut self, memory: &Memory, step: &Step) -> Result<(), MemoryError>
        requires { 2 ≤ length self.old.events }
        ensures guest { self.new.guest ≡ self.old.guest }
        ensures told { OnOk result (self.new.events ≡ take (length self.old.events - 1) self.old.events ++ step_event step.now memory.now.bytes ∷ []) }
        ensures untold { OnErr result (self.new.events ≡ take (length self.old.events - 2) self.old.events) }
        ensures later { self.old.shortages ≤ self.new.shortages }
        ensures same { OnOk result (self.new.shortages ≡ self.old.shortages) }
        ensures rose { OnErr result (Rose self.old.shortages self.new.shortages) }
    {
        match event_of(self.alloc, step, memory) {
            Ok(event) => {
                self.events.replace_last(event);
                Ok(())
            }
            Err(error) => {
                self.events.drop_both();
                self.run_out();
                Err(error)
            }
        }
    }

    /// Leaves a call's event and its trap, or takes both away where the guest had no memory.
    fn fail(&mut self, fault: GuestFault) -> GuestFault
        requires { 2 ≤ length self.old.events }
        ensures fault { result ≡ fault }
        ensures trap { fault ≡ GuestFault.Trap → self.new ≡ self.old }
        ensures short { fault ≡ GuestFault.OutOfMemory → self.new ≡ record self.old { events = take (length self.old.events - 2) self.old.events; shortages = self.new.shortages } }
        ensures later { self.old.shortages ≤ self.new.shortages }
        ensures rose { fault ≡ GuestFault.OutOfMemory → Rose self.old.shortages self.new.shortages }
    {
        if fault == GuestFault::OutOfMemory {
            self.events.drop_both();
            self.run_out();
        }
        fault
    }
}

#[tactic(auto, using(crate::proofs::Last::both_dropped, crate::proofs::Last::last_dropped, crate::proofs::Last::last_replaced, crate::proofs::Last::one_dropped, crate::proofs::Last::one_replaced))]
impl<G: Guest> Guest for Journaled<G> {
    ghost seen = { λ j. record (G.seen j.guest) { journal = Some j.events; shortages = j.shortages } };

    ghost moves = { λ j events k. JournaledMoves G.moves j events k };

    ghost leaves = { λ m n. G.leaves m n };

    ghost stays = { λ j. record { moves = G.stays (of_guest j); shortages = refl } };

    ghost goes_on = { λ i j k xs ys f g. record { moves = G.goes_on (of_guest i) (of_guest j) (of_guest k) xs ys f.moves g.moves; shortages = g.shortages ∙ f.shortages } };

    fn start(
        &mut self,
        memory: &mut Memory,
        func: u32,
        words: &[ValRaw],
    ) -> Result<Step, GuestFault> {
        if begin_start(self.alloc, &mut self.events, memory, func, words).is_err() {
            self.run_out();
            return Err(GuestFault::OutOfMemory);
        }
        match self.guest.start(memory, func, words) {
            Ok(step) => {
                if self.conclude(memory, &step).is_err() {
                    return Err(GuestFault::OutOfMemory);
                }
                Ok(step)
            }
            Err(fault) => Err(self.fail(fault)),
        }
    }

    fn resume(&mut self, memory: &mut Memory, words: &[ValRaw]) -> Result<Step, GuestFault> {
        if begin_resume(self.alloc, &mut self.events, memory, words).is_err() {
            self.run_out();
            return Err(GuestFault::OutOfMemory);
        }
        match self.guest.resume(memory, words) {
            Ok(step) => {
                if self.conclude(memory, &step).is_err() {
                    return Err(GuestFault::OutOfMemory);
                }
                Ok(step)
            }
            Err(fault) => Err(self.fail(fault)),
        }
    }

    fn realloc(
        &mut self,
        memory: &mut Memory,
        old: u64,
        old_size: u64,
        align: u32,
        new_size: u64,
    ) -> Result<u64, GuestFault> {
        let trap = Event::Trap {
            asked: Some((old, old_size, align, new_size)),
            len: memory.len(),
        };
        if self.events.push(trap).is_err() {
            self.run_out();
            return Err(GuestFault::OutOfMemory);
        }
        match self.guest.realloc(memory, old, old_size, align, new_size) {
            Ok(answer) => {
                self.events.replace_last(Event::Realloc {
                    old,
                    old_size,
                    align,
                    new_size,
                    answer,
                });
                Ok(answer)
            }
            Err(GuestFault::Trap) => Err(GuestFault::Trap),
            Err(GuestFault::OutOfMemory) => {
                self.events.drop_last();
                self.run_out();
                Err(GuestFault::OutOfMemory)
            }
        }
    }

    fn hold(&mut self, start: u64, size: u32) -> Result<(), AllocError> {
        match self.guest.hold(start, size) {
            Ok(()) => Ok(()),
            Err(error) => {
                self.run_out();
                Err(error)
            }
        }
    }

    fn post_return(
        &mut self,
        memory: &mut Memory,
        func: u32,
        words: &[ValRaw],
    ) -> Result<(), GuestFault> {
        if begin_post(self.alloc, &mut self.events, memory, func, words).is_err() {
            self.run_out();
            return Err(GuestFault::OutOfMemory);
        }
        match self.guest.post_return(memory, func, words) {
            Ok(()) => {
                self.events.drop_last();
                Ok(())
            }
            Err(fault) => Err(self.fail(fault)),
        }
    }

    fn dtor(&mut self, memory: &mut Memory, func: u32, rep: u32) -> Result<(), GuestFault> {
        if begin(&mut self.events, Event::Dtor { func, rep }, memory).is_err() {
            self.run_out();
            return Err(GuestFault::OutOfMemory);
        }
        match self.guest.dtor(memory, func, rep) {
            Ok(()) => {
                self.events.drop_last();
                Ok(())
            }
            Err(fault) => Err(self.fail(fault)),
        }
    }
}

/// Adds a call's event, and the trap that stays where the guest traps.
fn begin(events: &mut Events, first: Event, memory: &Memory) -> Result<(), MemoryError>
    ensures ok { OnOk result (events.new ≡ events.old ++ first ∷ trap_event (length memory.now.bytes) ∷ []) }
    ensures err { OnErr result (events.new ≡ events.old) }
{
    let trap = Event::Trap {
        asked: None,
        len: memory.len(),
    };
    events.push_both(first, trap)
}

fn begin_start(
    alloc: Global,
    events: &mut Events,
    memory: &Memory,
    func: u32,
    words: &[ValRaw],
) -> Result<(), MemoryError>
    ensures ok { OnOk result (events.new ≡ events.old ++ event.Start func words.now memory.now.bytes ∷ trap_event (length memory.now.bytes) ∷ []) }
    ensures err { OnErr result (events.new ≡ events.old) }
{
    let start = Event::Start {
        func,
        words: Words::from_slice(alloc, words)?,
        memory: Bytes::from_slice(alloc, memory.as_slice())?,
    };
    begin(events, start, memory)
}

fn begin_resume(
    alloc: Global,
    events: &mut Events,
    memory: &Memory,
    words: &[ValRaw],
) -> Result<(), MemoryError>
    ensures ok { OnOk result (events.new ≡ events.old ++ event.Resume words.now memory.now.bytes ∷ trap_event (length memory.now.bytes) ∷ []) }
    ensures err { OnErr result (events.new ≡ events.old) }
{
    let resume = Event::Resume {
        words: Words::from_slice(alloc, words)?,
        memory: Bytes::from_slice(alloc, memory.as_slice())?,
    };
    begin(events, resume, memory)
}

fn begin_post(
    alloc: Global,
    events: &mut Events,
    memory: &Memory,
    func: u32,
    words: &[ValRaw],
) -> Result<(), MemoryError>
    ensures ok { OnOk result (events.new ≡ events.old ++ event.Post func words.now ∷ trap_event (length memory.now.bytes) ∷ []) }
    ensures err { OnErr result (events.new ≡ events.old) }
{
    let post = Event::Post {
        func,
        words: Words::from_slice(alloc, words)?,
    };
    begin(events, post, memory)
}

fn event_of(alloc: Global, step: &Step, memory: &Memory) -> Result<Event, MemoryError>
    ensures { IfOk result (λ e. e ≡ step_event step.now memory.now.bytes) }
{
    let memory = Bytes::from_slice(alloc, memory.as_slice())?;
    match step {
        Step::Return(words) => {
            let words = Words::from_slice(alloc, words.as_slice())?;
            Ok(Event::Return { words, memory })
        }
        Step::Import { index, words } => {
            let words = Words::from_slice(alloc, words.as_slice())?;
            Ok(Event::Ask {
                index: *index,
                words,
                memory,
            })
        }
    }
}
