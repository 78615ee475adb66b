//! The bytes of events. The page `docs/ENGINE.md` has them as a table.

ghost use Rattle.std.specs.Prelude.{◌≡◌, ◌++◌, ◌∷◌, [], OnOk};
ghost use Rattle.canon_relay.specs.Wire.{numbers_bytes};
ghost use Rattle.canon_events.specs.Bytes as spec;

use canon_memory::{Event, ValRaw};
use canon_relay::{put_number, put_numbers};
use std::alloc::AllocError;

/// Adds the bytes of events.
pub fn put_events(to: &mut Vec<u8>, events: &[Event]) -> Result<(), AllocError>
    ensures { OnOk result (to.new.items ≡ to.old.items ++ spec.events_bytes events.now) }
{
    for event in events {
        put_event(to, event)?;
    }
    Ok(())
}

/// Adds the bytes of an event: eight numbers, its words, and the memory that it tells.
fn put_event(to: &mut Vec<u8>, event: &Event) -> Result<(), AllocError>
    ensures { OnOk result (to.new.items ≡ to.old.items ++ spec.event_bytes event.now) }
{
    put_numbers(to, &numbers_of(event))?;
    put_words(to, words_of(event))?;
    put_memory(to, memory_of(event))
}

/// Adds the numbers of words.
fn put_words(to: &mut Vec<u8>, words: &[ValRaw]) -> Result<(), AllocError>
    ensures { OnOk result (to.new.items ≡ to.old.items ++ numbers_bytes words.now) }
{
    for word in words {
        put_number(to, word.get_u64())?;
    }
    Ok(())
}

fn put_memory(to: &mut Vec<u8>, memory: &[u8]) -> Result<(), AllocError>
    ensures { OnOk result (to.new.items ≡ to.old.items ++ memory.now) }
{
    to.extend_from_slice(memory)?;
    Ok(())
}

/// The numbers of an event: what it is, its operands, how many words it has, and how many bytes of memory.
fn numbers_of(event: &Event) -> [u64; 8]
    ensures { result ≡ spec.event_numbers event.now }
{
    let [what, a, b, c, d, e] = head_of(event);
    let count = words_of(event).len() as u64;
    let len = memory_of(event).len() as u64;
    [what, a, b, c, d, e, count, len]
}

/// What an event is, and its operands.
fn head_of(event: &Event) -> [u64; 6]
    ensures { result ≡ spec.event_head event.now }
{
    match event {
        Event::Start { func, .. } => [0, u64::from(*func), 0, 0, 0, 0],
        Event::Resume { .. } => [1, 0, 0, 0, 0, 0],
        Event::Realloc {
            old,
            old_size,
            align,
            new_size,
            answer,
        } => [2, *old, *old_size, u64::from(*align), *new_size, *answer],
        Event::Post { func, .. } => [3, u64::from(*func), 0, 0, 0, 0],
        Event::Dtor { func, rep } => [4, u64::from(*func), u64::from(*rep), 0, 0, 0],
        Event::Return { .. } => [6, 0, 0, 0, 0, 0],
        Event::Ask { index, .. } => [7, u64::from(*index), 0, 0, 0, 0],
        Event::Trap { asked: None, len } => [8, 0, 0, 0, 0, *len],
        Event::Trap {
            asked: Some((old, old_size, align, new_size)),
            len,
        } => [9, *old, *old_size, u64::from(*align), *new_size, *len],
    }
}

/// The words that an event tells.
fn words_of(event: &Event) -> &[ValRaw]
    ensures { result.now ≡ spec.event_words event.now }
{
    match event {
        Event::Start { words, .. }
        | Event::Ask { words, .. }
        | Event::Resume { words, .. }
        | Event::Return { words, .. }
        | Event::Post { words, .. } => words.as_slice(),
        _ => &[],
    }
}

/// The memory that an event tells.
fn memory_of(event: &Event) -> &[u8]
    ensures { result.now ≡ spec.event_memory event.now }
{
    match event {
        Event::Start { memory, .. }
        | Event::Ask { memory, .. }
        | Event::Resume { memory, .. }
        | Event::Return { memory, .. } => memory.as_slice(),
        _ => &[],
    }
}
