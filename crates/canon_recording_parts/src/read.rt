//! Events read from their bytes, field by field.

ghost use Rattle.std.specs.Prelude.{◌<◌, ◌≤◌, length};
ghost use Rattle.canon_recording_parts.specs.Events.{an_event, byte_list, tagged, two_numbers, word_list, words_and_memory};
ghost use Rattle.canon_recording_parts.specs.Format.{also, any_number, counted_row, in_a_row, number};
ghost use Rattle.canon_recording_parts.specs.Read.{ReadsFormat, seen_as};

use crate::ReplayError;
use canon_bytes::{load_u8, load_u32, load_u64};
use canon_memory::{Bytes, Event, Events, ValRaw, Words};
use std::alloc::Global;

/// Events from place `at` on, which moves past them, by their number. Of an ask the import has a number below `imports`.
pub fn read_events(
    alloc: Global,
    bytes: &[u8],
    at: &mut u64,
    imports: u64,
) -> Result<Events, ReplayError>
    requires inside { at.old ≤ length bytes.now }
    ensures reads { ReadsFormat (counted_row 4 (an_event imports)) bytes.now at.old at.new result }
{
    match read_u32(bytes, at) {
        Ok(count) => read_event_row(alloc, bytes, at, imports, count),
        Err(error) => Err(error),
    }
}

/// So many events.
fn read_event_row(
    alloc: Global,
    bytes: &[u8],
    at: &mut u64,
    imports: u64,
    count: u32,
) -> Result<Events, ReplayError>
    requires inside { at.old ≤ length bytes.now }
    ensures reads { ReadsFormat (in_a_row (an_event imports) count) bytes.now at.old at.new result }
{
    let mut events = Events::new(alloc);
    for _ in 0..count {
        match read_event(alloc, bytes, at, imports) {
            Ok(event) => match events.push(event) {
                Ok(()) => {}
                Err(_) => return Err(ReplayError::OutOfMemory),
            },
            Err(error) => return Err(error),
        }
    }
    Ok(events)
}

/// An event: a tag, and what stands behind it.
fn read_event(alloc: Global, bytes: &[u8], at: &mut u64, imports: u64) -> Result<Event, ReplayError>
    requires inside { at.old ≤ length bytes.now }
    ensures reads { ReadsFormat (an_event imports) bytes.now at.old at.new result }
{
    let start = *at;
    match read_u8(bytes, at) {
        Ok(tag) => {
            if 5 < tag {
                return Err(ReplayError::BadRecording(start));
            }
            read_tagged(alloc, bytes, at, imports, tag)
        }
        Err(error) => Err(error),
    }
}

/// What stands behind a tag.
fn read_tagged(
    alloc: Global,
    bytes: &[u8],
    at: &mut u64,
    imports: u64,
    tag: u8,
) -> Result<Event, ReplayError>
    requires inside { at.old ≤ length bytes.now }
    requires tag { tag < 6 }
    ensures reads { ReadsFormat (tagged imports tag) bytes.now at.old at.new result }
{
    match tag {
        0 => read_start(alloc, bytes, at),
        1 => read_ask(alloc, bytes, at, imports),
        2 => match read_words_and_memory(alloc, bytes, at) {
            Ok((words, memory)) => Ok(Event::Resume { words, memory }),
            Err(error) => Err(error),
        },
        3 => match read_words_and_memory(alloc, bytes, at) {
            Ok((words, memory)) => Ok(Event::Return { words, memory }),
            Err(error) => Err(error),
        },
        4 => read_realloc(bytes, at),
        _ => read_post(alloc, bytes, at),
    }
}

fn read_start(alloc: Global, bytes: &[u8], at: &mut u64) -> Result<Event, ReplayError>
    requires inside { at.old ≤ length bytes.now }
    ensures reads { ReadsFormat (tagged 0 0) bytes.now at.old at.new result }
{
    match read_u32(bytes, at) {
        Ok(func) => match read_words_and_memory(alloc, bytes, at) {
            Ok((words, memory)) => Ok(Event::Start {
                func,
                words,
                memory,
            }),
            Err(error) => Err(error),
        },
        Err(error) => Err(error),
    }
}

fn read_ask(alloc: Global, bytes: &[u8], at: &mut u64, imports: u64) -> Result<Event, ReplayError>
    requires inside { at.old ≤ length bytes.now }
    ensures reads { ReadsFormat (tagged imports 1) bytes.now at.old at.new result }
{
    match read_below(bytes, at, imports) {
        Ok(index) => match read_words_and_memory(alloc, bytes, at) {
            Ok((words, memory)) => Ok(Event::Ask {
                index,
                words,
                memory,
            }),
            Err(error) => Err(error),
        },
        Err(error) => Err(error),
    }
}

fn read_realloc(bytes: &[u8], at: &mut u64) -> Result<Event, ReplayError>
    requires inside { at.old ≤ length bytes.now }
    ensures reads { ReadsFormat (tagged 0 4) bytes.now at.old at.new result }
{
    match read_pair(bytes, at) {
        Ok((old, old_size)) => match read_answer(bytes, at) {
            Ok((align, (new_size, answer))) => Ok(Event::Realloc {
                old,
                old_size,
                align,
                new_size,
                answer,
            }),
            Err(error) => Err(error),
        },
        Err(error) => Err(error),
    }
}

/// An alignment, and a new size and an answer.
fn read_answer(bytes: &[u8], at: &mut u64) -> Result<(u32, (u64, u64)), ReplayError>
    requires inside { at.old ≤ length bytes.now }
    ensures reads { ReadsFormat (also (any_number 4) two_numbers) bytes.now at.old at.new result }
{
    match read_u32(bytes, at) {
        Ok(align) => match read_pair(bytes, at) {
            Ok(pair) => Ok((align, pair)),
            Err(error) => Err(error),
        },
        Err(error) => Err(error),
    }
}

/// Two numbers of 8 bytes each.
fn read_pair(bytes: &[u8], at: &mut u64) -> Result<(u64, u64), ReplayError>
    requires inside { at.old ≤ length bytes.now }
    ensures reads { ReadsFormat two_numbers bytes.now at.old at.new result }
{
    match read_u64(bytes, at) {
        Ok(first) => match read_u64(bytes, at) {
            Ok(second) => Ok((first, second)),
            Err(error) => Err(error),
        },
        Err(error) => Err(error),
    }
}

fn read_post(alloc: Global, bytes: &[u8], at: &mut u64) -> Result<Event, ReplayError>
    requires inside { at.old ≤ length bytes.now }
    ensures reads { ReadsFormat (tagged 0 5) bytes.now at.old at.new result }
{
    match read_u32(bytes, at) {
        Ok(func) => match read_words(alloc, bytes, at) {
            Ok(words) => Ok(Event::Post { func, words }),
            Err(error) => Err(error),
        },
        Err(error) => Err(error),
    }
}

/// Words and a memory.
fn read_words_and_memory(
    alloc: Global,
    bytes: &[u8],
    at: &mut u64,
) -> Result<(Words, Bytes), ReplayError>
    requires inside { at.old ≤ length bytes.now }
    ensures reads { ReadsFormat words_and_memory bytes.now at.old at.new result }
{
    match read_words(alloc, bytes, at) {
        Ok(words) => match read_memory(alloc, bytes, at) {
            Ok(memory) => Ok((words, memory)),
            Err(error) => Err(error),
        },
        Err(error) => Err(error),
    }
}

/// Words, by their number.
fn read_words(alloc: Global, bytes: &[u8], at: &mut u64) -> Result<Words, ReplayError>
    requires inside { at.old ≤ length bytes.now }
    ensures reads { ReadsFormat word_list bytes.now at.old at.new result }
{
    match read_u32(bytes, at) {
        Ok(count) => read_word_row(alloc, bytes, at, count),
        Err(error) => Err(error),
    }
}

/// So many words.
fn read_word_row(
    alloc: Global,
    bytes: &[u8],
    at: &mut u64,
    count: u32,
) -> Result<Words, ReplayError>
    requires inside { at.old ≤ length bytes.now }
    ensures reads { ReadsFormat (in_a_row (any_number 8) count) bytes.now at.old at.new result }
{
    let mut words = Words::new(alloc);
    for _ in 0..count {
        match read_u64(bytes, at) {
            Ok(word) => match words.push(ValRaw::u64(word)) {
                Ok(()) => {}
                Err(_) => return Err(ReplayError::OutOfMemory),
            },
            Err(error) => return Err(error),
        }
    }
    Ok(words)
}

/// A memory, by its length.
fn read_memory(alloc: Global, bytes: &[u8], at: &mut u64) -> Result<Bytes, ReplayError>
    requires inside { at.old ≤ length bytes.now }
    ensures reads { ReadsFormat byte_list bytes.now at.old at.new result }
{
    match read_bytes(bytes, at) {
        Ok(memory) => match Bytes::from_slice(alloc, memory) {
            Ok(memory) => Ok(memory),
            Err(_) => Err(ReplayError::OutOfMemory),
        },
        Err(error) => Err(error),
    }
}

/// Bytes, by their number.
pub fn read_bytes<'a>(bytes: &'a [u8], at: &mut u64) -> Result<&'a [u8], ReplayError>
    requires inside { at.old ≤ length bytes.now }
    ensures reads { ReadsFormat byte_list bytes.now at.old at.new (seen_as (λ b. b.now) result) }
{
    match read_u64(bytes, at) {
        Ok(count) => {
            if bytes.len() as u64 - *at < count {
                return Err(ReplayError::BadRecording(*at));
            }
            let start = *at as usize;
            *at += count;
            Ok(&bytes[start..start + count as usize])
        }
        Err(error) => Err(error),
    }
}

/// The number in the next 4 bytes, which is to be below `count`.
pub fn read_below(bytes: &[u8], at: &mut u64, count: u64) -> Result<u32, ReplayError>
    requires inside { at.old ≤ length bytes.now }
    ensures reads { ReadsFormat (number 4 (λ n. n < count)) bytes.now at.old at.new result }
{
    let start = *at;
    match read_u32(bytes, at) {
        Ok(number) => {
            if u64::from(number) < count {
                Ok(number)
            } else {
                Err(ReplayError::BadRecording(start))
            }
        }
        Err(error) => Err(error),
    }
}

/// The number in the next byte.
fn read_u8(bytes: &[u8], at: &mut u64) -> Result<u8, ReplayError>
    requires inside { at.old ≤ length bytes.now }
    ensures reads { ReadsFormat (any_number 1) bytes.now at.old at.new result }
{
    if bytes.len() as u64 - *at < 1 {
        return Err(ReplayError::BadRecording(*at));
    }
    let number = load_u8(bytes, *at);
    *at += 1;
    Ok(number)
}

/// The number in the next 4 bytes, the lowest byte first.
pub fn read_u32(bytes: &[u8], at: &mut u64) -> Result<u32, ReplayError>
    requires inside { at.old ≤ length bytes.now }
    ensures reads { ReadsFormat (any_number 4) bytes.now at.old at.new result }
{
    if bytes.len() as u64 - *at < 4 {
        return Err(ReplayError::BadRecording(*at));
    }
    let number = load_u32(bytes, *at);
    *at += 4;
    Ok(number)
}

/// The number in the next 8 bytes.
fn read_u64(bytes: &[u8], at: &mut u64) -> Result<u64, ReplayError>
    requires inside { at.old ≤ length bytes.now }
    ensures reads { ReadsFormat (any_number 8) bytes.now at.old at.new result }
{
    if bytes.len() as u64 - *at < 8 {
        return Err(ReplayError::BadRecording(*at));
    }
    let number = load_u64(bytes, *at);
    *at += 8;
    Ok(number)
}
