//! The lines of events, and of the asks that functions of the host served.

ghost use Rattle.std.specs.Prelude.{[], None, ◌≡◌, ◌<◌, ◌++◌, IfOk, IfSome, OnOk, drop, length, string_bytes, take};
ghost use Rattle.std.specs.List.{slice_get};
ghost use Rattle.canon_transcript.specs.Blocks.{blocks_left};
ghost use Rattle.canon_transcript.specs.Text as spec;

use crate::Served;
use crate::blocks::{Block, blocks_left, follow};
use crate::values::print_unnumbered;
use canon_abi::OutOfMemory;
use canon_memory::{Event, Events, Words};
use std::alloc::{AllocError, Global};

/// The lines of event `k` of these, a start's blocks among them. Answers OutOfMemory alone.
pub fn event_text(alloc: Global, e: &Events, k: u64) -> Result<String, OutOfMemory>
    requires { k < length e.now }
    ensures { IfOk result (λ text. IfSome (slice_get e.now k) (λ event. string_bytes text ≡ spec.event_text (blocks_left (take k e.now)) event)) }
{
    let mut text = String::new(alloc);
    let events = e.as_slice();
    let k = k as usize;
    let blocks = blocks_left(alloc, &events[..k])?;
    print_event(alloc, &mut text, &blocks, &events[k])?;
    Ok(text)
}

/// Prints the lines of events, and before a resume that of the ask that a function of the host served.
pub(crate) fn print_events(
    alloc: Global,
    text: &mut String,
    events: &[Event],
    served: &[Served],
) -> Result<(), AllocError>
    ensures { OnOk result (string_bytes text.new ≡ string_bytes text.old ++ spec.events_text [] None served.now events.now) }
{
    let mut blocks = Vec::new(alloc);
    let mut asked = None;
    let mut left = served;
    for event in events {
        left = print_before(text, asked, left, event)?;
        print_event(alloc, text, &blocks, event)?;
        follow(&mut blocks, event)?;
        asked = asked_after(asked, event);
    }
    Ok(())
}

/// Prints the served ask that an event ends, if it ends one, and gives those that are left.
fn print_before<'a>(
    text: &mut String,
    asked: Option<u32>,
    served: &'a [Served],
    event: &Event,
) -> Result<&'a [Served], AllocError>
    ensures printed { OnOk result (string_bytes text.new ≡ string_bytes text.old ++ spec.text_before asked served.now event.now) }
    ensures rest { IfOk result (λ rest. rest.now ≡ spec.left_after asked served.now event.now) }
{
    if !is_resume(event) {
        return Ok(served);
    }
    let Some((first, others)) = served.split_first() else {
        return Ok(served);
    };
    if asked != Some(first.0) {
        return Ok(served);
    }
    print_served(text, first)?;
    Ok(others)
}

fn is_resume(event: &Event) -> bool
    ensures { result ≡ spec.is_resume event.now }
{
    match event {
        Event::Resume { .. } => true,
        Event::Start { .. }
        | Event::Ask { .. }
        | Event::Return { .. }
        | Event::Realloc { .. }
        | Event::Post { .. }
        | Event::Dtor { .. }
        | Event::Trap { .. } => false,
    }
}

/// The import that was asked for last.
fn asked_after(asked: Option<u32>, event: &Event) -> Option<u32>
    ensures { result ≡ spec.asked_after asked event.now }
{
    match event {
        Event::Ask { index, .. } => Some(*index),
        Event::Start { .. }
        | Event::Resume { .. }
        | Event::Return { .. }
        | Event::Realloc { .. }
        | Event::Post { .. }
        | Event::Dtor { .. }
        | Event::Trap { .. } => asked,
    }
}

/// Prints an ask that a function of the host served.
fn print_served(text: &mut String, served: &Served) -> Result<(), AllocError>
    ensures { OnOk result (string_bytes text.new ≡ string_bytes text.old ++ spec.served_text served.now) }
{
    let index = served.0;
    write!(text, "served {index}")?;
    print_unnumbered(text, &served.1)?;
    text.push_str(" ->")?;
    print_unnumbered(text, &served.2)?;
    text.push_str("\n")
}

fn print_event(
    alloc: Global,
    text: &mut String,
    blocks: &[Block],
    event: &Event,
) -> Result<(), AllocError>
    ensures { OnOk result (string_bytes text.new ≡ string_bytes text.old ++ spec.event_text blocks.now event.now) }
{
    match event {
        Event::Start {
            func,
            words,
            memory,
        } => {
            write!(text, "start {func}")?;
            print_words(text, words)?;
            print_blocks(alloc, text, memory.as_slice(), blocks)
        }
        Event::Ask { index, words, .. } => {
            write!(text, "ask {index}")?;
            print_words(text, words)
        }
        Event::Resume { words, .. } => print_worded(text, "resume", words),
        Event::Return { words, .. } => print_worded(text, "return", words),
        Event::Post { words, .. } => print_worded(text, "post", words),
        Event::Realloc {
            old,
            old_size,
            align,
            new_size,
            answer,
        } => writeln!(
            text,
            "realloc {old} {old_size} {align} {new_size} = {answer}"
        ),
        Event::Dtor { func, rep } => writeln!(text, "dtor {func} {rep}"),
        Event::Trap { .. } => text.push_str("trap\n"),
    }
}

/// Prints a line of a name and words.
fn print_worded(text: &mut String, name: &str, words: &Words) -> Result<(), AllocError>
    ensures { OnOk result (string_bytes text.new ≡ string_bytes text.old ++ (name.now ++ spec.words_text words.now)) }
{
    text.push_str(name)?;
    print_words(text, words)
}

/// Prints the rest of a line: each word after a space.
fn print_words(text: &mut String, words: &Words) -> Result<(), AllocError>
    ensures { OnOk result (string_bytes text.new ≡ string_bytes text.old ++ spec.words_text words.now) }
{
    for word in words.as_slice() {
        let number = word.get_u64();
        write!(text, " {number}")?;
    }
    text.push_str("\n")
}

/// Prints the blocks of a memory, a line each.
fn print_blocks(
    alloc: Global,
    text: &mut String,
    memory: &[u8],
    blocks: &[Block],
) -> Result<(), AllocError>
    ensures { OnOk result (string_bytes text.new ≡ string_bytes text.old ++ spec.block_lines memory.now blocks.now) }
{
    for block in blocks {
        print_block(alloc, text, memory, *block)?;
    }
    Ok(())
}

fn print_block(
    alloc: Global,
    text: &mut String,
    memory: &[u8],
    block: Block,
) -> Result<(), AllocError>
    ensures { OnOk result (string_bytes text.new ≡ string_bytes text.old ++ spec.block_line memory.now block) }
{
    let start = block.start;
    write!(text, "block {start}")?;
    print_bytes(alloc, text, bytes_at(memory, block))?;
    text.push_str("\n")
}

/// The bytes of a block that stand in memory.
fn bytes_at(memory: &[u8], block: Block) -> &[u8]
    ensures { result.now ≡ take block.size (drop block.start memory.now) }
{
    let start = memory.len().min(block.start as usize);
    let rest = &memory[start..];
    let size = rest.len().min(block.size as usize);
    &rest[..size]
}

/// Prints bytes in hexadecimal after a space, or nothing where there are none.
fn print_bytes(alloc: Global, text: &mut String, bytes: &[u8]) -> Result<(), AllocError>
    ensures { OnOk result (string_bytes text.new ≡ string_bytes text.old ++ spec.bytes_text bytes.now) }
{
    if bytes.is_empty() {
        return Ok(());
    }
    let digits = hex::encode(alloc, bytes)?;
    text.push_str(" ")?;
    text.push_str(&digits)
}
