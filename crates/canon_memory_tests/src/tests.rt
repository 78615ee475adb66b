//! Worked values of words and memories, and the journal of a small guest. Where a function owns a memory, a guest or events it has few ways
//! out, and gives back small values that a test asserts on.

ghost use Rattle.std.specs.Prelude.{◌≡◌, [], ◌∷◌, None, false, true, if◌then◌else◌};

use canon_memory::{
    Bytes, Event, Events, Guest, GuestFault, Journaled, Memory, MemoryError, Step, ValRaw, Words,
};
use std::alloc::{AllocError, Global};
use std::mem;

/// A guest that traps at core function 1 and destructor 1, asks for import 6 at core function 2, and returns its answer
/// at every other. It writes 9 at byte 0 when it starts, and 8 when it is resumed. It answers one `realloc` with 16, and
/// traps at the next.
#[derive(Drop)]
struct Writer {
    alloc: Global,
    answer: Words,
    answered: bool,
    traps: u64,
}

impl Guest for Writer {
    ghost seen = { λ g. record { journal = None; marks = if g.answered then record { lawful = false; tidy = true } ∷ [] else []; live = []; holds = false; traps = g.traps; shortages = 0 } };

    ghost moves = { λ _ _ _. Unit {0} };

    ghost leaves = { λ m n. n ≡ m };

    ghost stays = { λ _. record {} };

    ghost goes_on = { λ _ _ _ _ _ _ _. record {} };

    fn start(
        &mut self,
        memory: &mut Memory,
        func: u32,
        _words: &[ValRaw],
    ) -> Result<Step, GuestFault> {
        if func == 1 {
            self.traps = self.traps.saturating_add(1);
            return Err(GuestFault::Trap);
        }
        if let Some(byte) = memory.as_slice_mut().first_mut() {
            *byte = 9;
        }
        let words = mem::replace(&mut self.answer, Words::new(self.alloc));
        if func == 2 {
            return Ok(Step::Import { index: 6, words });
        }
        Ok(Step::Return(words))
    }

    fn resume(&mut self, memory: &mut Memory, _words: &[ValRaw]) -> Result<Step, GuestFault> {
        if let Some(byte) = memory.as_slice_mut().first_mut() {
            *byte = 8;
        }
        Ok(Step::Return(Words::new(self.alloc)))
    }

    fn realloc(
        &mut self,
        _memory: &mut Memory,
        _old: u64,
        _old_size: u64,
        _align: u32,
        _new_size: u64,
    ) -> Result<u64, GuestFault> {
        if self.answered {
            self.traps = self.traps.saturating_add(1);
            return Err(GuestFault::Trap);
        }
        self.answered = true;
        Ok(16)
    }

    fn hold(&mut self, _start: u64, _size: u32) -> Result<(), AllocError> {
        Ok(())
    }

    fn post_return(
        &mut self,
        _memory: &mut Memory,
        _func: u32,
        _words: &[ValRaw],
    ) -> Result<(), GuestFault> {
        Ok(())
    }

    fn dtor(&mut self, _memory: &mut Memory, func: u32, _rep: u32) -> Result<(), GuestFault> {
        if func == 1 {
            self.traps = self.traps.saturating_add(1);
            return Err(GuestFault::Trap);
        }
        Ok(())
    }
}

fn writer_of(alloc: Global, answer: Words) -> Writer {
    Writer {
        alloc,
        answer,
        answered: false,
        traps: 0,
    }
}

#[test]
fn a_word_of_32_bits_stands_in_the_low_half(rt: HostRuntime) {
    // In two's complement -1 is 2^32 - 1. A float is given as its bits.
    let whole = [
        ValRaw::i32(-1).get_u64(),
        ValRaw::u32(7).get_u64(),
        ValRaw::f32(0x3f80_0000).get_u64(),
    ];
    assert!(rt; whole == [4_294_967_295, 7, 0x3f80_0000]);
    let word = ValRaw::u64(0x1_ffff_fffe);
    let low = (word.get_i32(), word.get_u32(), word.get_f32());
    assert!(rt; low == (-2, 0xffff_fffe, 0xffff_fffe));
}

#[test]
fn a_word_of_64_bits_is_whole(rt: HostRuntime) {
    let told = (
        ValRaw::i64(-1).get_u64(),
        ValRaw::u64(18_446_744_073_709_551_615).get_i64(),
        ValRaw::f64(0x3ff0_0000_0000_0000).get_f64(),
    );
    assert!(rt; told == (18_446_744_073_709_551_615, -1, 0x3ff0_0000_0000_0000));
}

/// Whether words that were pushed, and a copy of them, are 1 and 2, and how many there are.
fn pushed_words(alloc: Global) -> Option<(bool, u64)> {
    let (one, two) = (ValRaw::u32(1), ValRaw::u32(2));
    let mut words = Words::new(alloc);
    let pushed = [words.push(one), words.push(two)];
    let copy = Words::from_slice(alloc, words.as_slice()).ok()?;
    let is_copied = copy.as_slice() == [one, two].as_slice();
    Some((pushed == [Ok(()); 2] && is_copied, words.len()))
}

/// The same of the bytes 8 and 255.
fn pushed_bytes(alloc: Global) -> Option<(bool, u64)> {
    let mut bytes = Bytes::new(alloc);
    let pushed = [bytes.push(8), bytes.push(255)];
    let copy = Bytes::from_slice(alloc, bytes.as_slice()).ok()?;
    let is_copied = copy.as_slice() == [8, 255].as_slice();
    Some((pushed == [Ok(()); 2] && is_copied, bytes.len()))
}

#[test]
fn lists_hold_what_was_pushed_and_copied(rt: HostRuntime) {
    let alloc = rt.alloc();
    let told = [pushed_words(alloc), pushed_bytes(alloc)];
    assert!(rt; told == [Some((true, 2)); 2]);
}

/// Whether a memory is of 3 bytes, these are zeros, and then they are what was written.
fn zeros_and_written(alloc: Global) -> Option<[bool; 3]> {
    let mut memory = Memory::new(alloc, 3).ok()?;
    let is_of_3 = memory.len() == 3;
    let is_zeros = memory.as_slice() == [0, 0, 0].as_slice();
    memory.as_slice_mut().copy_from_slice(&[1, 2, 3]);
    let is_written = memory.as_slice() == [1, 2, 3].as_slice();
    Some([is_of_3, is_zeros, is_written])
}

#[test]
fn a_memory_is_zeros_until_it_is_written(rt: HostRuntime) {
    let alloc = rt.alloc();
    let past = Memory::new(alloc, 4_294_967_297).err();
    let told = zeros_and_written(alloc);
    assert!(rt; (told, past) == (Some([true; 3]), Some(MemoryError::TooLarge)));
}

/// Whether a wide memory of 3 bytes has zeros, grows by one byte, and is wide then.
fn zeros_and_wide(alloc: Global) -> Option<[bool; 3]> {
    let mut memory = Memory::new_wide(alloc, 3).ok()?;
    let is_zeros = memory.as_slice() == [0, 0, 0].as_slice();
    let is_grown = memory.grow(1) == Ok(()) && memory.len() == 4;
    Some([is_zeros, is_grown, memory.is_wide()])
}

/// Whether a memory that wasn't made wide is so.
fn is_made_wide(alloc: Global) -> Option<bool> {
    let memory = Memory::new(alloc, 3).ok()?;
    Some(memory.is_wide())
}

#[test]
fn a_memory_is_wide_if_it_was_made_so(rt: HostRuntime) {
    let alloc = rt.alloc();
    let past = Memory::new_wide(alloc, 4_294_967_297).err();
    let told = (zeros_and_wide(alloc), is_made_wide(alloc), past);
    assert!(rt; told == (Some([true; 3]), Some(false), Some(MemoryError::TooLarge)));
}

/// What a memory answers where it grows by one byte, and then by too many.
#[derive(Clone, Copy)]
struct Grown {
    by_1: Result<(), MemoryError>,
    last: [Option<u8>; 2],
    past: [Result<(), MemoryError>; 2],
    len: u64,
}

/// Of a memory of sevens.
fn grow_thrice(alloc: Global) -> Option<Grown> {
    let mut memory = Memory::new(alloc, 65_536).ok()?;
    memory.as_slice_mut().fill(7);
    let by_1 = memory.grow(1);
    let bytes = memory.as_slice();
    let last = [bytes.get(65_535).copied(), bytes.last().copied()];
    let past = [
        memory.grow(4_294_967_296),
        memory.grow(18_446_744_073_709_551_615),
    ];
    Some(Grown {
        by_1,
        last,
        past,
        len: memory.len(),
    })
}

#[test]
fn a_memory_grows_by_zeros_up_to_its_limit(rt: HostRuntime) {
    let is_grown = match grow_thrice(rt.alloc()) {
        Some(told) => [
            told.by_1 == Ok(()),
            told.last == [Some(7), Some(0)],
            told.past == [Err(MemoryError::TooLarge); 2],
            told.len == 65_537,
        ],
        None => [false; 4],
    };
    assert!(rt; is_grown == [true; 4]);
}

/// Whether a guest answers as it should and its journal tells its calls, how many events that has, and how many are left once they were taken.
type Told = (bool, bool, u64, u64);

/// What comes of calls to a guest whose answer is 5, beside a memory of so many bytes. One function makes the calls, and another looks at the
/// events.
fn told_by<F: FnOnce(&mut Journaled<Writer>, &mut Memory) -> bool, L: FnOnce(&[Event]) -> bool>(
    alloc: Global,
    len: u64,
    call: F,
    look: L,
) -> Option<Told>
    requires call { F.IsAlwaysCallable call }
    requires look { L.IsAlwaysCallable look }
{
    let mut memory = Memory::new(alloc, len).ok()?;
    let answer = Words::from_slice(alloc, &[ValRaw::u32(5)]).ok()?;
    let mut guest = Journaled::new(alloc, writer_of(alloc, answer));
    let is_answered = call(&mut guest, &mut memory);
    let events = guest.take_journal();
    let is_told = look(events.as_slice());
    Some((is_answered, is_told, events.len(), guest.events().len()))
}

/// Whether there is one word, of this number.
fn is_word(words: &Words, word: u32) -> bool {
    words.as_slice() == [ValRaw::u32(word)].as_slice()
}

/// Whether memory is of two bytes, and they are these.
fn is_memory(memory: &Bytes, bytes: [u8; 2]) -> bool {
    memory.as_slice() == bytes.as_slice()
}

/// Whether a step is the return of 5.
fn is_return_of_5(step: &Result<Step, GuestFault>) -> bool {
    match step {
        Ok(Step::Return(words)) => is_word(words, 5),
        _ => false,
    }
}

/// Starts core function 3 with 7.
fn start(guest: &mut Journaled<Writer>, memory: &mut Memory) -> bool {
    let before = guest.events().len();
    let step = guest.start(memory, 3, &[ValRaw::u32(7)]);
    before == 0 && is_return_of_5(&step)
}

fn tell_start(events: &[Event]) -> bool {
    let [
        Event::Start {
            func: 3,
            words: passed,
            memory: before,
        },
        Event::Return {
            words: returned,
            memory: after,
        },
    ] = events
    else {
        return false;
    };
    let words = is_word(passed, 7) && is_word(returned, 5);
    words && is_memory(before, [0, 0]) && is_memory(after, [9, 0])
}

#[test]
fn a_journal_tells_a_start_and_its_return(rt: HostRuntime) {
    assert!(rt; told_by(rt.alloc(), 2, start, tell_start) == Some((true, true, 2, 0)));
}

/// Starts core function 1, which traps, where the guest had counted 4 traps.
fn start_in_vain(guest: &mut Journaled<Writer>, memory: &mut Memory) -> bool {
    guest.guest_mut().traps = 4;
    let step = guest.start(memory, 1, &[ValRaw::u32(7)]);
    let fault = match &step {
        Ok(_) => None,
        Err(fault) => Some(*fault),
    };
    fault == Some(GuestFault::Trap) && guest.guest().traps == 5
}

fn tell_trap(events: &[Event]) -> bool {
    matches!(
        events,
        [
            Event::Start { func: 1, .. },
            Event::Trap {
                asked: None,
                len: 2
            }
        ]
    )
}

#[test]
fn a_journal_tells_a_start_and_its_trap(rt: HostRuntime) {
    assert!(rt; told_by(rt.alloc(), 2, start_in_vain, tell_trap) == Some((true, true, 2, 0)));
}

/// Starts core function 2 with 7, and resumes it with 11.
fn start_and_resume(guest: &mut Journaled<Writer>, memory: &mut Memory) -> bool {
    let step = guest.start(memory, 2, &[ValRaw::u32(7)]);
    let asks = matches!(&step, Ok(Step::Import { index: 6, .. }));
    let step = guest.resume(memory, &[ValRaw::u32(11)]);
    asks && matches!(&step, Ok(Step::Return(_)))
}

fn tell_ask(events: &[Event]) -> bool {
    let [
        _,
        Event::Ask {
            index: 6,
            words: asked,
            memory: before,
        },
        Event::Resume {
            words: answered,
            memory: between,
        },
        Event::Return {
            words: returned,
            memory: after,
        },
    ] = events
    else {
        return false;
    };
    let words = is_word(asked, 5) && is_word(answered, 11) && returned.len() == 0;
    let memory = is_memory(before, [9, 0]) && is_memory(between, [9, 0]);
    words && memory && is_memory(after, [8, 0])
}

#[test]
fn a_journal_tells_an_ask_and_its_resume(rt: HostRuntime) {
    assert!(rt; told_by(rt.alloc(), 2, start_and_resume, tell_ask) == Some((true, true, 4, 0)));
}

/// Asks for a block of 8 bytes, which is given, and then for one of 20 in its place.
fn realloc_twice(guest: &mut Journaled<Writer>, memory: &mut Memory) -> bool {
    let given = guest.realloc(memory, 0, 0, 4, 8);
    let refused = guest.realloc(memory, 16, 8, 4, 20);
    (given, refused) == (Ok(16), Err(GuestFault::Trap))
}

fn tell_reallocs(events: &[Event]) -> bool {
    matches!(
        events,
        [
            Event::Realloc {
                old: 0,
                old_size: 0,
                align: 4,
                new_size: 8,
                answer: 16
            },
            Event::Trap {
                asked: Some((16, 8, 4, 20)),
                len: 40
            }
        ]
    )
}

#[test]
fn a_journal_tells_a_realloc_by_its_answer_or_its_request(rt: HostRuntime) {
    assert!(rt; told_by(rt.alloc(), 40, realloc_twice, tell_reallocs) == Some((true, true, 2, 0)));
}

/// Ends core function 4 with 5, and drops a resource by destructor 3 and one by destructor 1, which traps.
fn end_and_drop(guest: &mut Journaled<Writer>, memory: &mut Memory) -> bool {
    let ended = guest.post_return(memory, 4, &[ValRaw::u32(5)]);
    let dropped = guest.dtor(memory, 3, 80);
    let trapped = guest.dtor(memory, 1, 90);
    [ended, dropped, trapped] == [Ok(()), Ok(()), Err(GuestFault::Trap)]
}

fn tell_ends(events: &[Event]) -> bool {
    let [
        Event::Post { func: 4, words },
        Event::Dtor { func: 3, rep: 80 },
        Event::Dtor { func: 1, rep: 90 },
        Event::Trap {
            asked: None,
            len: 2,
        },
    ] = events
    else {
        return false;
    };
    is_word(words, 5)
}

#[test]
fn a_journal_tells_a_post_return_and_a_destructor_that_traps(rt: HostRuntime) {
    assert!(rt; told_by(rt.alloc(), 2, end_and_drop, tell_ends) == Some((true, true, 4, 0)));
}

/// Whether events are the first of those that were pushed and one more, and how many they are.
fn pushed_events(alloc: Global) -> (bool, u64) {
    let mut events = Events::new(alloc);
    let mut is_pushed = true;
    for len in [10, 20] {
        let asked = Some((0, 0, 4, len));
        is_pushed = is_pushed && events.push(Event::Trap { asked, len }).is_ok();
    }
    let first = events.as_slice().first();
    let is_first = matches!(
        first,
        Some(Event::Trap {
            asked: Some((0, 0, 4, 10)),
            len: 10
        })
    );
    (is_pushed && is_first, events.len())
}

#[test]
fn events_are_kept_in_order(rt: HostRuntime) {
    assert!(rt; pushed_events(rt.alloc()) == (true, 2));
}
