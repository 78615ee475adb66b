//! The smallest guest. Contracts see no journal of it.

ghost use Rattle.std.specs.Prelude.{◌≡◌, [], None, false};

use canon_memory::{Guest, GuestFault, Memory, Step, ValRaw, Words};
use std::alloc::{AllocError, Global};

/// A guest that returns the words that it is started with. It has no import, and no block to give.
#[derive(Drop)]
pub struct Echo {
    alloc: Global,
    traps: u64,
    shortages: u64,
}

impl Echo {
    pub fn new(alloc: Global) -> Self
        ensures { (result.traps ≡ 0) × (result.shortages ≡ 0) }
    {
        Echo {
            alloc,
            traps: 0,
            shortages: 0,
        }
    }
}

impl Guest for Echo {
    ghost use Rattle.std.specs.Prelude.{◌≡◌, ◌≤◌, [], IfOk, OnErr, Err};
    ghost use Rattle.canon_scripted.specs.Scripted.{raised_count};

    ghost seen = { λ g. record { journal = None; marks = []; live = []; holds = false; traps = g.traps; shortages = g.shortages } };

    ghost moves = { λ _ _ _. Unit {0} };

    ghost leaves = { λ before after. after ≡ before };

    ghost stays = { λ _. record {} };

    ghost goes_on = { λ _ _ _ _ _ _ _. record {} };

    fn start(
        &mut self,
        _memory: &mut Memory,
        _func: u32,
        words: &[ValRaw],
    ) -> Result<Step, GuestFault>
        ensures returns { IfOk result (λ step. (step ≡ Step.Return words.now) × (self.new ≡ self.old)) }
        ensures short { OnErr result ((result ≡ Err GuestFault.OutOfMemory) × (self.new ≡ record self.old { shortages = raised_count self.old.shortages })) }
        ensures counts { (self.new.traps ≡ self.old.traps) × (self.old.shortages ≤ self.new.shortages) }
        ensures memory { _memory.new ≡ _memory.old }
    {
        match Words::from_slice(self.alloc, words) {
            Ok(words) => Ok(Step::Return(words)),
            Err(_) => {
                self.shortages = self.shortages.saturating_add(1);
                Err(GuestFault::OutOfMemory)
            }
        }
    }

    fn resume(&mut self, _memory: &mut Memory, _words: &[ValRaw]) -> Result<Step, GuestFault>
        ensures trap { result ≡ Err GuestFault.Trap }
        ensures counts { self.new ≡ record self.old { traps = raised_count self.old.traps } }
        ensures later { self.old.traps ≤ self.new.traps }
        ensures memory { _memory.new ≡ _memory.old }
    {
        self.traps = self.traps.saturating_add(1);
        Err(GuestFault::Trap)
    }

    fn realloc(
        &mut self,
        _memory: &mut Memory,
        _old: u64,
        _old_size: u64,
        _align: u32,
        _new_size: u64,
    ) -> Result<u64, GuestFault>
        ensures trap { result ≡ Err GuestFault.Trap }
        ensures counts { self.new ≡ record self.old { traps = raised_count self.old.traps } }
        ensures later { self.old.traps ≤ self.new.traps }
        ensures memory { _memory.new ≡ _memory.old }
    {
        self.traps = self.traps.saturating_add(1);
        Err(GuestFault::Trap)
    }

    fn hold(&mut self, _start: u64, _size: u32) -> Result<(), AllocError> {
        Ok(())
    }

    fn post_return(
        &mut self,
        _memory: &mut Memory,
        _func: u32,
        _words: &[ValRaw],
    ) -> Result<(), GuestFault> {
        Ok(())
    }

    fn dtor(&mut self, _memory: &mut Memory, _func: u32, _rep: u32) -> Result<(), GuestFault> {
        Ok(())
    }
}
