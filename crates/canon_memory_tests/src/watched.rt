//! What is seen of guests that keep the law of `realloc`, and of some that break it.

ghost use Rattle.std.specs.Prelude.{◌≡◌, ◌<◌, ◌^◌, [], IsFalse, None, false, length, replicate};

use canon_memory::{Guest, GuestFault, Memory, Step, ValRaw, Watched, Words};
use std::alloc::{AllocError, Global};

/// A guest that answers the first `realloc` with one address and the others with another, whatever they ask for. Where memory isn't wide
/// it answers their low halves. It may add 1 to byte 0 each time. It marks nothing.
#[derive(Drop)]
struct Giver {
    alloc: Global,
    first: u64,
    later: u64,
    scribbles: bool,
    answers: u64,
    traps: u64,
}

impl Guest for Giver {
    ghost seen = { λ g. record { journal = None; marks = replicate g.answers (record { lawful = false; tidy = false }); live = []; holds = false; traps = g.traps; shortages = 0 } };

    ghost moves = { λ _ _ _. Unit {0} };

    ghost leaves = { λ m n. n ≡ m };

    ghost stays = { λ _. record {} };

    ghost goes_on = { λ _ _ _ _ _ _ _. record {} };

    fn start(
        &mut self,
        _memory: &mut Memory,
        _func: u32,
        _words: &[ValRaw],
    ) -> Result<Step, GuestFault> {
        Ok(Step::Return(Words::new(self.alloc)))
    }

    fn resume(&mut self, _memory: &mut Memory, _words: &[ValRaw]) -> Result<Step, GuestFault> {
        Ok(Step::Return(Words::new(self.alloc)))
    }

    fn realloc(
        &mut self,
        memory: &mut Memory,
        _old: u64,
        _old_size: u64,
        _align: u32,
        _new_size: u64,
    ) -> Result<u64, GuestFault> {
        if self.answers == u64::MAX {
            self.traps = self.traps.saturating_add(1);
            return Err(GuestFault::Trap);
        }
        if self.scribbles {
            scribble(memory);
        }
        let at = if self.answers == 0 {
            self.first
        } else {
            self.later
        };
        self.answers += 1;
        Ok(address(at, memory.is_wide()))
    }

    fn hold(&mut self, _start: u64, _size: u32) -> Result<(), AllocError> {
        Ok(())
    }

    fn post_return(
        &mut self,
        _memory: &mut Memory,
        _func: u32,
        _words: &[ValRaw],
    ) -> Result<(), GuestFault> {
        Ok(())
    }

    fn dtor(&mut self, _memory: &mut Memory, _func: u32, _rep: u32) -> Result<(), GuestFault> {
        Ok(())
    }
}

/// The number, or its low half where memory isn't wide.
fn address(at: u64, wide: bool) -> u64
    ensures { IsFalse wide → result < 2 ^ 32 }
{
    if wide { at } else { at % (1 << 32) }
}

/// Adds 1 to byte 0.
fn scribble(memory: &mut Memory)
    ensures length { length memory.new.bytes ≡ length memory.old.bytes }
    ensures width { memory.new.wide ≡ memory.old.wide }
{
    if let Some(byte) = memory.as_slice_mut().first_mut() {
        *byte = byte.wrapping_add(1);
    }
}

/// Of two answers, whether they were lawful, and whether they were tidy.
type Marks = Option<([bool; 2], [bool; 2])>;

fn marks_of(guest: &Watched<Giver>) -> Marks {
    match guest.marks() {
        [a, b] => Some(([a.lawful, b.lawful], [a.tidy, b.tidy])),
        _ => None,
    }
}

fn watched_giver(alloc: Global, first: u64, later: u64, scribbles: bool) -> Watched<Giver> {
    let giver = Giver {
        alloc,
        first,
        later,
        scribbles,
        answers: 0,
        traps: 0,
    };
    Watched::new(alloc, giver)
}

/// The same of a guest of whose bytes only those in the blocks are watched.
fn asked_lawful_only(alloc: Global, first: u64, later: u64) -> Marks {
    let mut memory = Memory::new(alloc, 64).ok()?;
    let giver = Giver {
        alloc,
        first,
        later,
        scribbles: true,
        answers: 0,
        traps: 0,
    };
    let mut guest = Watched::lawful_only(alloc, giver);
    let _first = guest.realloc(&mut memory, 0, 0, 4, 8);
    let _later = guest.realloc(&mut memory, 0, 0, 4, 8);
    marks_of(&guest)
}

#[test]
fn no_answer_is_tidy_where_only_blocks_are_watched(rt: HostRuntime) {
    let told = [
        asked_lawful_only(rt.alloc(), 16, 24),
        asked_lawful_only(rt.alloc(), 0, 24),
    ];
    assert!(rt;
        told == [
            Some(([true, true], [false, false])),
            Some(([true, false], [false, false]))
        ]
    );
}

/// What is seen of a guest that is asked for two blocks of 8 bytes, aligned to 4, in a memory of 64 bytes.
fn asked_twice(alloc: Global, first: u64, later: u64, scribbles: bool) -> Marks {
    let mut memory = Memory::new(alloc, 64).ok()?;
    let mut guest = watched_giver(alloc, first, later, scribbles);
    let _first = guest.realloc(&mut memory, 0, 0, 4, 8);
    let _later = guest.realloc(&mut memory, 0, 0, 4, 8);
    marks_of(&guest)
}

#[test]
fn blocks_apart_are_lawful_and_tidy(rt: HostRuntime) {
    assert!(rt; asked_twice(rt.alloc(), 16, 24, false) == Some(([true, true], [true, true])));
}

#[test]
fn a_block_given_twice_is_unlawful(rt: HostRuntime) {
    assert!(rt; asked_twice(rt.alloc(), 16, 16, false) == Some(([true, false], [true, true])));
}

#[test]
fn a_block_that_meets_another_is_unlawful(rt: HostRuntime) {
    assert!(rt; asked_twice(rt.alloc(), 16, 20, false) == Some(([true, false], [true, true])));
}

#[test]
fn a_block_past_the_end_or_misaligned_is_unlawful(rt: HostRuntime) {
    assert!(rt; asked_twice(rt.alloc(), 60, 18, false) == Some(([false, false], [true, true])));
}

#[test]
fn a_byte_written_outside_all_blocks_is_untidy(rt: HostRuntime) {
    assert!(rt; asked_twice(rt.alloc(), 16, 24, true) == Some(([true, true], [false, false])));
}

#[test]
fn a_byte_written_in_another_block_is_unlawful(rt: HostRuntime) {
    assert!(rt; asked_twice(rt.alloc(), 0, 24, true) == Some(([true, false], [true, false])));
}

/// The same in a wide memory.
fn asked_wide(alloc: Global, first: u64, later: u64) -> Marks {
    let mut memory = Memory::new_wide(alloc, 64).ok()?;
    let mut guest = watched_giver(alloc, first, later, false);
    let _first = guest.realloc(&mut memory, 0, 0, 4, 8);
    let _later = guest.realloc(&mut memory, 0, 0, 4, 8);
    marks_of(&guest)
}

#[test]
fn a_block_past_4_gigabytes_is_unlawful(rt: HostRuntime) {
    // 2^32 + 16, and the last multiple of 4 below 2^64
    let told = [
        asked_wide(rt.alloc(), 4_294_967_312, 24),
        asked_wide(rt.alloc(), 16, 18_446_744_073_709_551_612),
    ];
    assert!(rt;
        told == [
            Some(([false, true], [true, true])),
            Some(([true, false], [true, true]))
        ]
    );
}

/// The same of a block of 8 bytes that is given, written, and given again at another place.
fn moved(alloc: Global) -> Marks {
    let mut memory = Memory::new(alloc, 64).ok()?;
    let mut guest = watched_giver(alloc, 16, 32, false);
    let _first = guest.realloc(&mut memory, 0, 0, 4, 8);
    memory.as_slice_mut().fill(5);
    scribble_at_32(&mut memory);
    let _later = guest.realloc(&mut memory, 16, 8, 4, 16);
    marks_of(&guest)
}

fn scribble_at_32(memory: &mut Memory) {
    if let Some(byte) = memory.as_slice_mut().get_mut(32) {
        *byte = 6;
    }
}

#[test]
fn a_block_moved_without_its_bytes_is_unlawful(rt: HostRuntime) {
    assert!(rt; moved(rt.alloc()) == Some(([true, false], [true, true])));
}

/// The same of a block that is given again once the guest ran.
fn given_again(alloc: Global) -> Marks {
    let mut memory = Memory::new(alloc, 64).ok()?;
    let mut guest = watched_giver(alloc, 16, 16, false);
    let _first = guest.realloc(&mut memory, 0, 0, 4, 8);
    let _step = guest.start(&mut memory, 0, &[]);
    let _later = guest.realloc(&mut memory, 0, 0, 4, 8);
    marks_of(&guest)
}

#[test]
fn a_block_is_given_again_once_the_guest_ran(rt: HostRuntime) {
    assert!(rt; given_again(rt.alloc()) == Some(([true, true], [true, true])));
}

/// What is seen of a guest that is told of a place of 8 bytes at 16, may run, and is then asked for two blocks.
fn told_of_a_place(alloc: Global, first: u64, later: u64, runs: bool) -> Marks {
    let mut memory = Memory::new(alloc, 64).ok()?;
    let mut guest = watched_giver(alloc, first, later, false);
    guest.hold(16, 8).ok()?;
    if runs {
        let _step = guest.resume(&mut memory, &[]);
    }
    let _first = guest.realloc(&mut memory, 0, 0, 4, 8);
    let _later = guest.realloc(&mut memory, 0, 0, 4, 8);
    marks_of(&guest)
}

#[test]
fn a_block_that_meets_a_place_that_is_held_is_unlawful(rt: HostRuntime) {
    let told = [
        told_of_a_place(rt.alloc(), 24, 32, false),
        told_of_a_place(rt.alloc(), 20, 32, false),
        told_of_a_place(rt.alloc(), 32, 16, false),
    ];
    assert!(rt;
        told == [
            Some(([true, true], [true, true])),
            Some(([false, true], [true, true])),
            Some(([true, false], [true, true]))
        ]
    );
}

#[test]
fn a_place_is_held_until_the_guest_runs(rt: HostRuntime) {
    assert!(rt; told_of_a_place(rt.alloc(), 16, 32, true) == Some(([true, true], [true, true])));
}
