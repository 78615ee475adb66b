//! What was recorded: whether a request is the recorded one, and what is given and left where it is.

ghost use Rattle.std.specs.Prelude.{◌≡◌, ◌↔◌, ◌≤◌, ◌+◌, List, Err, None, Ok, Some, IsTrue, MatchOption, MatchResult, OnErr, OnOk, length, slice_get};
ghost use Rattle.std.specs.Option.{option_map};
ghost use Rattle.canon_model.specs.Flat.{AreWords};
ghost use Rattle.canon_memory.specs.Realloc.{call};
ghost use Rattle.canon_replay_guest.specs.Replaying.{CanGrow, call_events, grown_to, moved, start_length};
ghost use Rattle.canon_replay_guest.specs.Moves.{IsNext, IsRecordedAnswer, TakesStep, posts, reallocates, resumes, starts};

use canon_memory::{Event, Events, GuestFault, Memory, MemoryError, Step, ValRaw, Words};
use std::alloc::Global;

/// The recorded events of a call. Past the last call there are none.
pub(crate) fn events_of(calls: &[Events], call: u64) -> &[Event]
    ensures { result.now ≡ call_events calls.now call }
{
    match calls.get(call as usize) {
        Some(events) => events.as_slice(),
        None => &[],
    }
}

/// The recorded event at a place of a call.
pub(crate) fn event_at(calls: &[Events], call: u64, at: u64) -> Option<&Event>
    ensures { option_map (λ e. e.now) result ≡ slice_get (call_events calls.now call) at }
{
    events_of(calls, call).get(at as usize)
}

/// The length of the memory in which a call is started, or `len` where no start is recorded.
pub(crate) fn start_of(events: &[Event], len: u64) -> u64
    ensures { result ≡ start_length events.now len }
{
    for event in events {
        if let Event::Start { memory, .. } = event {
            return memory.len();
        }
    }
    len
}

fn same_words(xs: &[ValRaw], ys: &[ValRaw]) -> bool
    ensures { IsTrue result ↔ (xs.now ≡ ys.now) }
{
    xs == ys
}

/// Reads words, each of which is then known to have 64 bits.
pub(crate) fn read_words(words: &[ValRaw])
    ensures { AreWords words.now }
{
    for word in words {
        let _bits = word.get_u64();
    }
}

/// Whether a start is the recorded one.
pub(crate) fn is_start(event: Option<&Event>, func: u32, words: &[ValRaw]) -> bool
    ensures { IsTrue result ↔ IsNext (option_map (λ e. e.now) event.entry) (starts func words.now) }
{
    match event {
        Some(
            Event::Start {
                func: recorded,
                words: with,
                ..
            },
        ) => *recorded == func && same_words(with.as_slice(), words),
        _ => false,
    }
}

/// Whether a resume is the recorded one.
pub(crate) fn is_resume(event: Option<&Event>, words: &[ValRaw]) -> bool
    ensures { IsTrue result ↔ IsNext (option_map (λ e. e.now) event.entry) (resumes words.now) }
{
    match event {
        Some(Event::Resume { words: with, .. }) => same_words(with.as_slice(), words),
        _ => false,
    }
}

/// Whether a post-return is the recorded one.
pub(crate) fn is_post(event: Option<&Event>, func: u32, words: &[ValRaw]) -> bool
    ensures { IsTrue result ↔ IsNext (option_map (λ e. e.now) event.entry) (posts func words.now) }
{
    match event {
        Some(
            Event::Post {
                func: recorded,
                words: with,
            },
        ) => *recorded == func && same_words(with.as_slice(), words),
        _ => false,
    }
}

/// The recorded answer to a request of `realloc`, or `None` where the request isn't the recorded one.
pub(crate) fn answer_of(
    event: Option<&Event>,
    old: u64,
    old_size: u64,
    align: u32,
    new_size: u64,
) -> Option<u64>
    ensures { MatchOption result (¬ (IsNext (option_map (λ e. e.now) event.entry) (reallocates (call old old_size align new_size)))) (λ answer. IsRecordedAnswer (option_map (λ e. e.now) event.entry) (call old old_size align new_size) answer) }
{
    match event {
        Some(
            Event::Realloc {
                old: o,
                old_size: os,
                align: a,
                new_size: ns,
                answer,
            },
        ) if *o == old && *os == old_size && *a == align && *ns == new_size => Some(*answer),
        _ => None,
    }
}

/// The recorded step, with its memory in place. It traps where no step is recorded, or memory can't become as long.
pub(crate) fn take_step(
    alloc: Global,
    event: Option<&Event>,
    memory: &mut Memory,
) -> Result<Step, GuestFault>
    ensures takes { TakesStep (option_map (λ e. e.now) event.entry) memory.old.bytes memory.new.bytes result }
    ensures no_shorter { length memory.old.bytes ≤ length memory.new.bytes }
    ensures width { memory.new.wide ≡ memory.old.wide }
{
    match event {
        Some(
            Event::Return {
                words,
                memory: after,
            },
        ) => {
            let words = copy_words(alloc, words)?;
            put(memory, after.as_slice())?;
            Ok(Step::Return(words))
        }
        Some(
            Event::Ask {
                index,
                words,
                memory: after,
            },
        ) => {
            let words = copy_words(alloc, words)?;
            put(memory, after.as_slice())?;
            Ok(Step::Import {
                index: *index,
                words,
            })
        }
        _ => Err(GuestFault::Trap),
    }
}

fn copy_words(alloc: Global, words: &Words) -> Result<Words, GuestFault>
    ensures { MatchResult result (λ copy. copy ≡ words.now) (λ e. e ≡ GuestFault.OutOfMemory) }
{
    match Words::from_slice(alloc, words.as_slice()) {
        Ok(words) => Ok(words),
        Err(_) => Err(GuestFault::OutOfMemory),
    }
}

/// Gives memory these bytes, which are no fewer. It traps where they are fewer or too many.
fn put(memory: &mut Memory, bytes: &[u8]) -> Result<(), GuestFault>
    ensures ok { OnOk result ((memory.new.bytes ≡ bytes.now) × CanGrow (length memory.old.bytes) (length bytes.now)) }
    ensures err { OnErr result (memory.new ≡ memory.old) }
    ensures trap { (result ≡ Err GuestFault.Trap) ↔ ¬ (CanGrow (length memory.old.bytes) (length bytes.now)) }
    ensures width { memory.new.wide ≡ memory.old.wide }
{
    grow_to(memory, bytes.len() as u64)?;
    memory.as_slice_mut().copy_from_slice(bytes);
    Ok(())
}

/// Grows memory to a length. It traps where memory is longer, or that is too long.
pub(crate) fn grow_to(memory: &mut Memory, len: u64) -> Result<(), GuestFault>
    ensures ok { OnOk result ((memory.new.bytes ≡ grown_to memory.old.bytes len) × CanGrow (length memory.old.bytes) len) }
    ensures err { OnErr result (memory.new ≡ memory.old) }
    ensures trap { (result ≡ Err GuestFault.Trap) ↔ ¬ (CanGrow (length memory.old.bytes) len) }
    ensures width { memory.new.wide ≡ memory.old.wide }
{
    let before = memory.len();
    if len < before {
        return Err(GuestFault::Trap);
    }
    match memory.grow(len - before) {
        Ok(()) => Ok(()),
        Err(MemoryError::TooLarge) => Err(GuestFault::Trap),
        Err(MemoryError::OutOfMemory) => Err(GuestFault::OutOfMemory),
    }
}

/// Copies the first `kept` bytes of the old block into the new one.
pub(crate) fn copy_kept(memory: &mut Memory, old: u64, answer: u64, kept: u64)
    requires from { old + kept ≤ length memory.old.bytes }
    requires to { answer + kept ≤ length memory.old.bytes }
    ensures { memory.new ≡ record memory.old { bytes = moved memory.old.bytes old answer kept } }
{
    let _len = memory.len();
    let from = old as usize;
    let end = (old + kept) as usize;
    memory
        .as_slice_mut()
        .copy_within(from..end, answer as usize);
}
