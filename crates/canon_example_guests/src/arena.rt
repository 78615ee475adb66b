//! A guest whose answers are lawful.

ghost use Rattle.std.specs.Prelude.{◌≡◌, [], None, false, replicate, true};
ghost use Rattle.canon_example_guests.specs.Arena.{Counts};

use crate::blocks::Blocks;
use canon_memory::{Guest, GuestFault, Memory, Step, ValRaw, Words};
use std::alloc::{AllocError, Global};

/// A guest that is passed a text, and returns the text's length as it was passed, which for UTF-8 is how many bytes it has. It gives each block
/// behind all others, and takes none back.
#[derive(Drop)]
pub struct Arena {
    alloc: Global,
    blocks: Blocks,
    answers: u64,
    traps: u64,
    shortages: u64,
}

impl Arena {
    /// A guest whose first block is given from `top` on.
    pub fn new(alloc: Global, top: u64) -> Self
        ensures blocks { result.blocks ≡ record { top = top; live = [] } }
        ensures counts { (result.answers ≡ 0) × (result.traps ≡ 0) × (result.shortages ≡ 0) }
    {
        Arena {
            alloc,
            blocks: Blocks::new(alloc, top),
            answers: 0,
            traps: 0,
            shortages: 0,
        }
    }

    /// Counts a fault.
    fn count(&mut self, fault: GuestFault) -> GuestFault
        ensures same { result ≡ fault }
        ensures counts { Counts fault self.old self.new }
    {
        match fault {
            GuestFault::Trap => self.traps = self.traps.saturating_add(1),
            GuestFault::OutOfMemory => self.shortages = self.shortages.saturating_add(1),
        }
        fault
    }
}

impl Guest for Arena {
    ghost use Rattle.std.specs.Prelude.{◌≡◌, ◌≢◌, ◌↔◌, ◌+◌, ◌<◌, ◌^◌, IfOk, IsOk, Err, drop, length};
    ghost use Rattle.canon_memory.specs.Realloc.{ReallocLaw, call};
    ghost use Rattle.canon_scripted.specs.Allocator.{DoesPlace, new_placed};
    ghost use Rattle.canon_example_guests.specs.Arena.{CountsAnswer, Starts};

    // Each answer is marked as lawful and tidy, and the live blocks are those of the list.
    ghost seen = { λ g. record { journal = None; marks = replicate g.answers (record { lawful = true; tidy = true }); live = g.blocks.live; holds = false; traps = g.traps; shortages = g.shortages } };

    ghost moves = { λ _ _ _. Unit {0} };

    ghost leaves = { λ before after. after ≡ before };

    ghost stays = { λ _. record {} };

    ghost goes_on = { λ _ _ _ _ _ _ _. record {} };

    fn start(
        &mut self,
        _memory: &mut Memory,
        _func: u32,
        words: &[ValRaw],
    ) -> Result<Step, GuestFault>
        ensures returns { IfOk result (λ step. step ≡ Step.Return (drop 1 words.now)) }
        ensures trap { (result ≡ Err GuestFault.Trap) ↔ (length words.now ≢ 2) }
        ensures counts { Starts result self.old self.new }
        ensures memory { _memory.new ≡ _memory.old }
    {
        let [_pointer, len] = words else {
            return Err(self.count(GuestFault::Trap));
        };
        match Words::from_slice(self.alloc, &[*len]) {
            Ok(words) => Ok(Step::Return(words)),
            Err(_) => Err(self.count(GuestFault::OutOfMemory)),
        }
    }

    fn resume(&mut self, _memory: &mut Memory, _words: &[ValRaw]) -> Result<Step, GuestFault>
        ensures trap { result ≡ Err GuestFault.Trap }
        ensures counts { Starts result self.old self.new }
        ensures memory { _memory.new ≡ _memory.old }
    {
        Err(self.count(GuestFault::Trap))
    }

    fn realloc(
        &mut self,
        memory: &mut Memory,
        _old: u64,
        old_size: u64,
        align: u32,
        new_size: u64,
    ) -> Result<u64, GuestFault>
        requires aligned { 0 < align }
        ensures narrow { IfOk result (λ at. at < 2 ^ 32) }
        ensures placed { old_size ≡ 0 → self.old.answers + 1 < 2 ^ 64 → DoesPlace (new_placed (length memory.old.bytes) self.old.blocks (call 0 0 align new_size)) self.old.blocks self.new.blocks result }
        ensures grows_none { 0 < old_size → result ≡ Err GuestFault.Trap }
        ensures few { self.old.answers + 1 ≡ 2 ^ 64 → result ≡ Err GuestFault.Trap }
        ensures counts { CountsAnswer result self.old self.new }
        ensures memory { memory.new ≡ memory.old }
        ensures lawful { IfOk result (λ at. ReallocLaw self.old.blocks.live self.new.blocks.live memory.old.bytes memory.new.bytes (call _old old_size align new_size) at) }
    {
        // It grows no block.
        if old_size > 0 || self.answers == u64::MAX {
            return Err(self.count(GuestFault::Trap));
        }
        match self.blocks.give(memory.len(), align, new_size) {
            Ok(at) => {
                self.answers += 1;
                Ok(at)
            }
            Err(fault) => Err(self.count(fault)),
        }
    }

    fn hold(&mut self, _start: u64, _size: u32) -> Result<(), AllocError> {
        Ok(())
    }

    fn post_return(
        &mut self,
        _memory: &mut Memory,
        _func: u32,
        _words: &[ValRaw],
    ) -> Result<(), GuestFault>
        ensures ok { IsOk result }
        ensures same { self.new ≡ self.old }
        ensures memory { _memory.new ≡ _memory.old }
    {
        Ok(())
    }

    fn dtor(&mut self, _memory: &mut Memory, _func: u32, _rep: u32) -> Result<(), GuestFault>
        ensures ok { IsOk result }
        ensures same { self.new ≡ self.old }
        ensures memory { _memory.new ≡ _memory.old }
    {
        Ok(())
    }
}
