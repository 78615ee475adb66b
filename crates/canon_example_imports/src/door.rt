//! The guest: a door. It stands for the code that an embedder's engine runs in the guest's memory.

ghost use Rattle.std.specs.Prelude.{◌≡◌, ◌≤◌, [], IfOk, None, false, length};
ghost use Rattle.canon_memory.specs.Counts.{Rose};

use crate::component::{CLOCK, DIARY};
use canon_memory::{Guest, GuestFault, Memory, Step, ValRaw, Words};
use std::alloc::{AllocError, Global};

/// Where in its memory the guest writes what it did.
const TEXT: u32 = 16;

/// How many bytes that has.
const TEXT_LEN: u32 = 6;

/// What the guest has asked its host for.
#[derive(Drop)]
enum Asked {
    /// The time.
    Time,
    /// A line in the diary.
    Line,
}

/// The guest. When it opens or closes, it asks for the time, has the host write down that time and what it did, and returns what the host answers.
#[derive(Drop)]
pub struct Door {
    alloc: Global,
    asked: Option<Asked>,
    traps: u64,
    shortages: u64,
}

impl Door {
    pub fn new(alloc: Global) -> Self
        ensures { (result.asked ≡ None) × (result.traps ≡ 0) × (result.shortages ≡ 0) }
    {
        Door {
            alloc,
            asked: None,
            traps: 0,
            shortages: 0,
        }
    }

    /// Counts a fault.
    fn count(&mut self, fault: GuestFault) -> GuestFault
        ensures same { result ≡ fault }
        ensures traps { self.old.traps ≤ self.new.traps }
        ensures shortages { self.old.shortages ≤ self.new.shortages }
        ensures trap { fault ≡ GuestFault.Trap → Rose self.old.traps self.new.traps }
        ensures shortage { fault ≡ GuestFault.OutOfMemory → Rose self.old.shortages self.new.shortages }
    {
        match fault {
            GuestFault::Trap => self.traps = self.traps.saturating_add(1),
            GuestFault::OutOfMemory => self.shortages = self.shortages.saturating_add(1),
        }
        fault
    }

    /// Asks for the import of this number.
    fn ask(&mut self, asked: Asked, index: u32, words: &[ValRaw]) -> Result<Step, GuestFault>
        ensures asks { IfOk result (λ step. step ≡ Step.Import index words.now) }
        ensures counts { (self.new.traps ≡ self.old.traps) × (self.new.shortages ≡ self.old.shortages) }
    {
        match Words::from_slice(self.alloc, words) {
            Ok(words) => {
                self.asked = Some(asked);
                Ok(Step::Import { index, words })
            }
            Err(_) => Err(GuestFault::OutOfMemory),
        }
    }

    /// Writes what it does into its memory, and asks for the time.
    fn swing(&mut self, memory: &mut Memory, words: &[ValRaw]) -> Result<Step, GuestFault>
        ensures length { length memory.new.bytes ≡ length memory.old.bytes }
        ensures width { memory.new.wide ≡ memory.old.wide }
        ensures counts { (self.new.traps ≡ self.old.traps) × (self.new.shortages ≡ self.old.shortages) }
    {
        let [open] = words else {
            return Err(GuestFault::Trap);
        };
        let text = if open.get_u32() == 0 {
            b"closed"
        } else {
            b"opened"
        };
        if memory.len() < u64::from(TEXT + TEXT_LEN) {
            return Err(GuestFault::Trap);
        }
        let place = TEXT as usize..(TEXT + TEXT_LEN) as usize;
        memory.as_slice_mut()[place].copy_from_slice(text);
        self.ask(Asked::Time, CLOCK, &[])
    }

    /// Goes on with what the host answered.
    fn go_on(&mut self, words: &[ValRaw]) -> Result<Step, GuestFault>
        ensures counts { (self.new.traps ≡ self.old.traps) × (self.new.shortages ≡ self.old.shortages) }
    {
        let [answer] = words else {
            return Err(GuestFault::Trap);
        };
        match self.asked.take() {
            Some(Asked::Time) => {
                // A text crosses as its pointer and its length.
                let line = [*answer, ValRaw::u32(TEXT), ValRaw::u32(TEXT_LEN)];
                self.ask(Asked::Line, DIARY, &line)
            }
            Some(Asked::Line) => match Words::from_slice(self.alloc, words) {
                Ok(words) => Ok(Step::Return(words)),
                Err(_) => Err(GuestFault::OutOfMemory),
            },
            None => Err(GuestFault::Trap),
        }
    }
}

impl Guest for Door {
    ghost seen = { λ g. record { journal = None; marks = []; live = []; holds = false; traps = g.traps; shortages = g.shortages } };

    ghost moves = { λ _ _ _. Unit {0} };

    ghost leaves = { λ before after. after ≡ before };

    ghost stays = { λ _. record {} };

    ghost goes_on = { λ _ _ _ _ _ _ _. record {} };

    fn start(
        &mut self,
        memory: &mut Memory,
        _func: u32,
        words: &[ValRaw],
    ) -> Result<Step, GuestFault> {
        match self.swing(memory, words) {
            Ok(step) => Ok(step),
            Err(fault) => Err(self.count(fault)),
        }
    }

    fn resume(&mut self, _memory: &mut Memory, words: &[ValRaw]) -> Result<Step, GuestFault> {
        match self.go_on(words) {
            Ok(step) => Ok(step),
            Err(fault) => Err(self.count(fault)),
        }
    }

    // No text or list is passed to it, so it is asked for no block.
    fn realloc(
        &mut self,
        _memory: &mut Memory,
        _old: u64,
        _old_size: u64,
        _align: u32,
        _new_size: u64,
    ) -> Result<u64, GuestFault> {
        Err(self.count(GuestFault::Trap))
    }

    fn hold(&mut self, _start: u64, _size: u32) -> Result<(), AllocError> {
        Ok(())
    }

    fn post_return(
        &mut self,
        _memory: &mut Memory,
        _func: u32,
        _words: &[ValRaw],
    ) -> Result<(), GuestFault> {
        Ok(())
    }

    fn dtor(&mut self, _memory: &mut Memory, _func: u32, _rep: u32) -> Result<(), GuestFault> {
        Ok(())
    }
}
