//! A guest that returns what it is passed.

ghost use Rattle.std.specs.Prelude.{◌≡◌, [], None, false, replicate, true};

use crate::Arena;
use canon_memory::{Guest, GuestFault, Memory, Step, ValRaw};
use std::alloc::{AllocError, Global};

/// Where the pointer and the length of a returned list lie.
const RESULT: u32 = 0;

/// Where an arena's first block is given from: behind these two.
const TOP: u64 = 8;

/// A guest that is passed a list, and returns the same list: it writes the pointer and the length that it was passed into its memory, and
/// returns where they lie. Blocks are given by an arena.
#[derive(Drop)]
pub struct Mirror {
    arena: Arena,
}

impl Mirror {
    pub fn new(alloc: Global) -> Self
        ensures blocks { result.arena.blocks ≡ record { top = 8; live = [] } }
        ensures counts { (result.arena.answers ≡ 0) × (result.arena.traps ≡ 0) × (result.arena.shortages ≡ 0) }
    {
        Mirror {
            arena: Arena::new(alloc, TOP),
        }
    }
}

impl Guest for Mirror {
    ghost use Rattle.std.specs.Prelude.{◌≡◌, ◌≢◌, ◌<◌, ◌↔◌, ◌⊎◌, ◌+◌, ◌%◌, ◌^◌, ◌++◌, ◌∷◌, [], IfOk, Err, drop, length, slice_index};
    ghost use Rattle.std.specs.Int.{to_le_bytes, w32};
    ghost use Rattle.canon_memory.specs.Realloc.{ReallocLaw, call};
    ghost use Rattle.canon_scripted.specs.Allocator.{DoesPlace, new_placed};
    ghost use Rattle.canon_example_guests.specs.Arena.{CountsAnswer, Starts};

    ghost seen = { λ g. record { journal = None; marks = replicate g.arena.answers (record { lawful = true; tidy = true }); live = g.arena.blocks.live; holds = false; traps = g.arena.traps; shortages = g.arena.shortages } };

    ghost moves = { λ _ _ _. Unit {0} };

    ghost leaves = { λ before after. after ≡ before };

    ghost stays = { λ _. record {} };

    ghost goes_on = { λ _ _ _ _ _ _ _. record {} };

    fn start(
        &mut self,
        memory: &mut Memory,
        func: u32,
        words: &[ValRaw],
    ) -> Result<Step, GuestFault>
        ensures returns { IfOk result (λ step. step ≡ Step.Return (0 ∷ [])) }
        ensures trap { (result ≡ Err GuestFault.Trap) ↔ ((length words.now ≢ 2) ⊎ (length memory.old.bytes < 8)) }
        ensures counts { Starts result self.old.arena self.new.arena }
        ensures length { length memory.new.bytes ≡ length memory.old.bytes }
        ensures width { memory.new.wide ≡ memory.old.wide }
        ensures memory { IfOk result (λ step. memory.new ≡ record memory.old { bytes = to_le_bytes w32 (slice_index words.now 0 % 2 ^ 32) ++ to_le_bytes w32 (slice_index words.now 1 % 2 ^ 32) ++ drop 8 memory.old.bytes }) }
    {
        let [pointer, len] = words else {
            return self.arena.start(memory, func, &[]);
        };
        if memory.len() < TOP {
            return self.arena.start(memory, func, &[]);
        }
        let bytes = memory.as_slice_mut();
        bytes[0..4].copy_from_slice(&pointer.get_u32().to_le_bytes());
        bytes[4..8].copy_from_slice(&len.get_u32().to_le_bytes());
        // An arena returns the second of two words.
        let place = [*len, ValRaw::u32(RESULT)];
        self.arena.start(memory, func, &place)
    }

    fn resume(&mut self, memory: &mut Memory, words: &[ValRaw]) -> Result<Step, GuestFault> {
        self.arena.resume(memory, words)
    }

    fn realloc(
        &mut self,
        memory: &mut Memory,
        old: u64,
        old_size: u64,
        align: u32,
        new_size: u64,
    ) -> Result<u64, GuestFault>
        requires aligned { 0 < align }
        ensures narrow { IfOk result (λ at. at < 2 ^ 32) }
        ensures placed { old_size ≡ 0 → self.old.arena.answers + 1 < 2 ^ 64 → DoesPlace (new_placed (length memory.old.bytes) self.old.arena.blocks (call 0 0 align new_size)) self.old.arena.blocks self.new.arena.blocks result }
        ensures grows_none { 0 < old_size → result ≡ Err GuestFault.Trap }
        ensures few { self.old.arena.answers + 1 ≡ 2 ^ 64 → result ≡ Err GuestFault.Trap }
        ensures counts { CountsAnswer result self.old.arena self.new.arena }
        ensures memory { memory.new ≡ memory.old }
        ensures lawful { IfOk result (λ at. ReallocLaw self.old.arena.blocks.live self.new.arena.blocks.live memory.old.bytes memory.new.bytes (call old old_size align new_size) at) }
    {
        self.arena.realloc(memory, old, old_size, align, new_size)
    }

    fn hold(&mut self, _start: u64, _size: u32) -> Result<(), AllocError> {
        Ok(())
    }

    fn post_return(
        &mut self,
        memory: &mut Memory,
        func: u32,
        words: &[ValRaw],
    ) -> Result<(), GuestFault> {
        self.arena.post_return(memory, func, words)
    }

    fn dtor(&mut self, memory: &mut Memory, func: u32, rep: u32) -> Result<(), GuestFault> {
        self.arena.dtor(memory, func, rep)
    }
}
