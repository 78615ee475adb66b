//! Events written as bytes, field by field, at the end of some bytes.

ghost use Rattle.std.specs.Prelude.{All, ◌≡◌, length};
ghost use Rattle.canon_recording_parts.specs.Events.{IsWritten, an_event, byte_list, raw, request, tag_of, tagged, two_numbers, word_list, words_and_memory};
ghost use Rattle.canon_recording_parts.specs.Format.{also, any_number, counted_row, in_a_row};
ghost use Rattle.canon_recording_parts.specs.Written.{WritesFormat};

use crate::ReplayError;
use canon_memory::{Event, ValRaw};

/// The most bytes that a recording has.
const LIMIT: usize = 1_073_741_824;

/// Adds events by their number, of a guest whose imports have numbers below `imports`.
pub fn put_events(bytes: &mut Vec<u8>, events: &[Event], imports: u64) -> Result<(), ReplayError>
    requires written { All (IsWritten imports) events.now }
    ensures writes { WritesFormat (counted_row 4 (an_event imports)) events.now bytes.old.items bytes.new.items result }
{
    match put_count(bytes, events.len()) {
        Ok(()) => put_event_row(bytes, events, imports),
        Err(error) => Err(error),
    }
}

fn put_event_row(bytes: &mut Vec<u8>, events: &[Event], imports: u64) -> Result<(), ReplayError>
    requires written { All (IsWritten imports) events.now }
    ensures writes { WritesFormat (in_a_row (an_event imports) (length events.now)) events.now bytes.old.items bytes.new.items result }
{
    for event in events {
        match put_event(bytes, event, imports) {
            Ok(()) => {}
            Err(error) => return Err(error),
        }
    }
    Ok(())
}

/// Adds a tag, and what stands behind it.
fn put_event(bytes: &mut Vec<u8>, event: &Event, imports: u64) -> Result<(), ReplayError>
    requires written { IsWritten imports event.now }
    ensures writes { WritesFormat (an_event imports) event.now bytes.old.items bytes.new.items result }
{
    match put_u8(bytes, tag_of(event)) {
        Ok(()) => put_tagged(bytes, event, imports),
        Err(error) => Err(error),
    }
}

fn tag_of(event: &Event) -> u8
    ensures { result ≡ tag_of event.now }
{
    match event {
        Event::Start { .. } => 0,
        Event::Ask { .. } => 1,
        Event::Resume { .. } => 2,
        Event::Return { .. } => 3,
        Event::Realloc { .. } => 4,
        Event::Post { .. } => 5,
        Event::Dtor { .. } | Event::Trap { .. } => 6,
    }
}

fn put_tagged(bytes: &mut Vec<u8>, event: &Event, imports: u64) -> Result<(), ReplayError>
    requires written { IsWritten imports event.now }
    ensures writes { WritesFormat (tagged imports (tag_of event.now)) event.now bytes.old.items bytes.new.items result }
{
    let _ = imports;
    match event {
        Event::Start {
            func,
            words,
            memory,
        } => put_numbered(bytes, *func, words.as_slice(), memory.as_slice()),
        Event::Ask {
            index,
            words,
            memory,
        } => put_numbered(bytes, *index, words.as_slice(), memory.as_slice()),
        Event::Resume { words, memory } => {
            put_words_and_memory(bytes, words.as_slice(), memory.as_slice())
        }
        Event::Return { words, memory } => {
            put_words_and_memory(bytes, words.as_slice(), memory.as_slice())
        }
        Event::Realloc {
            old,
            old_size,
            align,
            new_size,
            answer,
        } => put_request(bytes, (*old, *old_size), *align, (*new_size, *answer)),
        Event::Post { func, words } => put_post(bytes, *func, words.as_slice()),
        Event::Dtor { .. } | Event::Trap { .. } => unreachable!(),
    }
}

/// Adds a number, words and a memory.
fn put_numbered(
    bytes: &mut Vec<u8>,
    number: u32,
    words: &[ValRaw],
    memory: &[u8],
) -> Result<(), ReplayError>
    ensures writes { WritesFormat (also (any_number 4) words_and_memory) (number, (words.now, memory.now)) bytes.old.items bytes.new.items result }
{
    match put_u32(bytes, number) {
        Ok(()) => put_words_and_memory(bytes, words, memory),
        Err(error) => Err(error),
    }
}

fn put_words_and_memory(
    bytes: &mut Vec<u8>,
    words: &[ValRaw],
    memory: &[u8],
) -> Result<(), ReplayError>
    ensures writes { WritesFormat words_and_memory (words.now, memory.now) bytes.old.items bytes.new.items result }
{
    match put_words(bytes, words) {
        Ok(()) => put_bytes(bytes, memory),
        Err(error) => Err(error),
    }
}

fn put_post(bytes: &mut Vec<u8>, func: u32, words: &[ValRaw]) -> Result<(), ReplayError>
    ensures writes { WritesFormat (also (any_number 4) word_list) (func, words.now) bytes.old.items bytes.new.items result }
{
    match put_u32(bytes, func) {
        Ok(()) => put_words(bytes, words),
        Err(error) => Err(error),
    }
}

/// Adds an old address and size, an alignment, and a new size and an answer.
fn put_request(
    bytes: &mut Vec<u8>,
    old: (u64, u64),
    align: u32,
    new: (u64, u64),
) -> Result<(), ReplayError>
    ensures writes { WritesFormat request (old, (align, new)) bytes.old.items bytes.new.items result }
{
    match put_pair(bytes, old) {
        Ok(()) => put_answer(bytes, align, new),
        Err(error) => Err(error),
    }
}

fn put_answer(bytes: &mut Vec<u8>, align: u32, new: (u64, u64)) -> Result<(), ReplayError>
    ensures writes { WritesFormat (also (any_number 4) two_numbers) (align, new) bytes.old.items bytes.new.items result }
{
    match put_u32(bytes, align) {
        Ok(()) => put_pair(bytes, new),
        Err(error) => Err(error),
    }
}

/// Adds two numbers in 8 bytes each.
fn put_pair(bytes: &mut Vec<u8>, pair: (u64, u64)) -> Result<(), ReplayError>
    ensures writes { WritesFormat two_numbers pair bytes.old.items bytes.new.items result }
{
    match put_u64(bytes, pair.0) {
        Ok(()) => put_u64(bytes, pair.1),
        Err(error) => Err(error),
    }
}

/// Adds words by their number.
fn put_words(bytes: &mut Vec<u8>, words: &[ValRaw]) -> Result<(), ReplayError>
    ensures writes { WritesFormat word_list words.now bytes.old.items bytes.new.items result }
{
    match put_count(bytes, words.len()) {
        Ok(()) => put_word_row(bytes, words),
        Err(error) => Err(error),
    }
}

fn put_word_row(bytes: &mut Vec<u8>, words: &[ValRaw]) -> Result<(), ReplayError>
    ensures writes { WritesFormat (in_a_row (any_number 8) (length words.now)) words.now bytes.old.items bytes.new.items result }
{
    for word in words {
        match put_u64(bytes, word.get_u64()) {
            Ok(()) => {}
            Err(error) => return Err(error),
        }
    }
    Ok(())
}

/// Adds bytes by their number.
pub fn put_bytes(bytes: &mut Vec<u8>, more: &[u8]) -> Result<(), ReplayError>
    ensures writes { WritesFormat byte_list more.now bytes.old.items bytes.new.items result }
{
    match put_u64(bytes, more.len() as u64) {
        Ok(()) => append(bytes, more),
        Err(error) => Err(error),
    }
}

/// Adds how many there are of something. With 2^32 of them there would be too many bytes.
pub fn put_count(bytes: &mut Vec<u8>, count: usize) -> Result<(), ReplayError>
    ensures writes { WritesFormat (any_number 4) count bytes.old.items bytes.new.items result }
{
    if count > u32::MAX as usize {
        return Err(ReplayError::TooLong);
    }
    put_u32(bytes, count as u32)
}

fn put_u8(bytes: &mut Vec<u8>, number: u8) -> Result<(), ReplayError>
    ensures writes { WritesFormat (any_number 1) number bytes.old.items bytes.new.items result }
{
    append(bytes, &number.to_le_bytes())
}

/// Adds a number in 4 bytes, the lowest first.
pub fn put_u32(bytes: &mut Vec<u8>, number: u32) -> Result<(), ReplayError>
    ensures writes { WritesFormat (any_number 4) number bytes.old.items bytes.new.items result }
{
    append(bytes, &number.to_le_bytes())
}

fn put_u64(bytes: &mut Vec<u8>, number: u64) -> Result<(), ReplayError>
    ensures writes { WritesFormat (any_number 8) number bytes.old.items bytes.new.items result }
{
    append(bytes, &number.to_le_bytes())
}

/// Adds bytes.
pub fn append(bytes: &mut Vec<u8>, more: &[u8]) -> Result<(), ReplayError>
    ensures writes { WritesFormat (raw (length more.now)) more.now bytes.old.items bytes.new.items result }
{
    if more.len() > LIMIT || bytes.len() > LIMIT - more.len() {
        return Err(ReplayError::TooLong);
    }
    match bytes.extend_from_slice(more) {
        Ok(()) => Ok(()),
        Err(_) => Err(ReplayError::OutOfMemory),
    }
}
