//! One recorded call, replayed: what is answered where each request is the recorded one, and each way in which it isn't. One function owns the
//! memory and the guest and lends them to another, which tells what they answer.

use canon_memory::{
    Bytes, Event, Events, Guest, GuestFault, Memory, MemoryError, Step, ValRaw, Words,
};
use canon_replay_guest::{ReplayGuest, Stop};
use std::alloc::Global;

fn one_word(alloc: Global, word: u32) -> Result<Words, MemoryError> {
    Words::from_slice(alloc, &[ValRaw::u32(word)])
}

/// An answer of `realloc` to a request for a new block.
fn answered(align: u32, new_size: u64, answer: u64) -> Event {
    Event::Realloc {
        old: 0,
        old_size: 0,
        align,
        new_size,
        answer,
    }
}

fn start(alloc: Global, word: u32, memory: &[u8]) -> Result<Event, MemoryError> {
    Ok(Event::Start {
        func: 7,
        words: one_word(alloc, word)?,
        memory: Bytes::from_slice(alloc, memory)?,
    })
}

fn ask(alloc: Global, word: u32, memory: &[u8]) -> Result<Event, MemoryError> {
    Ok(Event::Ask {
        index: 3,
        words: one_word(alloc, word)?,
        memory: Bytes::from_slice(alloc, memory)?,
    })
}

fn resume(alloc: Global, word: u32, memory: &[u8]) -> Result<Event, MemoryError> {
    Ok(Event::Resume {
        words: one_word(alloc, word)?,
        memory: Bytes::from_slice(alloc, memory)?,
    })
}

fn returned(alloc: Global, word: u32, memory: &[u8]) -> Result<Event, MemoryError> {
    Ok(Event::Return {
        words: one_word(alloc, word)?,
        memory: Bytes::from_slice(alloc, memory)?,
    })
}

fn post(alloc: Global, word: u32) -> Result<Event, MemoryError> {
    Ok(Event::Post {
        func: 8,
        words: one_word(alloc, word)?,
    })
}

/// Adds an event. None where there is no memory for it.
fn add(events: &mut Events, event: Result<Event, MemoryError>) -> Option<()> {
    events.push(event.ok()?).ok()
}

/// Two blocks are answered, at 4 and at 2; the guest is started with 1 and asks with 2, is resumed with 3, returns 4, and post-return is run.
/// Memory has 8 bytes, and 9 when it returns.
fn events_of_call(alloc: Global) -> Option<Events> {
    let mut events = Events::new(alloc);
    add(&mut events, Ok(answered(4, 2, 4)))?;
    add(&mut events, Ok(answered(1, 2, 2)))?;
    add(&mut events, start(alloc, 1, &[0; 8]))?;
    add(&mut events, ask(alloc, 2, &[5; 8]))?;
    add(&mut events, resume(alloc, 3, &[5; 8]))?;
    add(&mut events, returned(alloc, 4, &[6; 9]))?;
    add(&mut events, post(alloc, 4))?;
    Some(events)
}

/// An answer that isn't aligned, and one in the block that was answered before.
fn unlawful_events(alloc: Global) -> Option<Events> {
    let mut events = Events::new(alloc);
    add(&mut events, Ok(answered(1, 4, 0)))?;
    add(&mut events, Ok(answered(1, 4, 3)))?;
    add(&mut events, start(alloc, 1, &[0; 8]))?;
    Some(events)
}

/// What something answers of an empty memory and of a guest to which these events of one call were recorded.
fn with_guest<
    R,
    E: FnOnce(Global) -> Option<Events>,
    F: FnOnce(&mut Memory, &mut ReplayGuest) -> R,
>(alloc: Global, events: E, ask: F) -> Option<R>
    requires events { E.IsAlwaysCallable events }
    requires ask { F.IsAlwaysCallable ask }
{
    let mut calls = Vec::new(alloc);
    calls.push(events(alloc)?).ok()?;
    let mut memory = Memory::new(alloc, 0).ok()?;
    let mut guest = ReplayGuest::new(alloc, calls);
    Some(ask(&mut memory, &mut guest))
}

/// Whether a step returns this word.
fn returns(step: Result<Step, GuestFault>, word: u32) -> bool {
    match &step {
        Ok(Step::Return(words)) => words.as_slice() == [ValRaw::u32(word)].as_slice(),
        _ => false,
    }
}

/// Whether it asks for the import of this number, with this word.
fn asks(step: Result<Step, GuestFault>, number: u32, word: u32) -> bool {
    match &step {
        Ok(Step::Import { index, words }) => {
            *index == number && words.as_slice() == [ValRaw::u32(word)].as_slice()
        }
        _ => false,
    }
}

/// Why and where it trapped.
fn place(guest: &ReplayGuest) -> (Option<Stop>, u64, u64) {
    (guest.stop(), guest.call(), guest.at())
}

fn both_blocks(memory: &mut Memory, guest: &mut ReplayGuest) -> bool {
    guest.realloc(memory, 0, 0, 4, 2) == Ok(4) && guest.realloc(memory, 0, 0, 1, 2) == Ok(2)
}

fn follows(memory: &mut Memory, guest: &mut ReplayGuest) -> bool {
    let grown = both_blocks(memory, guest) && memory.len() == 8;
    let asked = asks(guest.start(memory, 7, &[ValRaw::u32(1)]), 3, 2);
    let left = memory.as_slice() == [5; 8].as_slice();
    let done = returns(guest.resume(memory, &[ValRaw::u32(3)]), 4);
    let longer = memory.as_slice() == [6; 9].as_slice();
    let post = guest.post_return(memory, 8, &[ValRaw::u32(4)]) == Ok(());
    grown && asked && left && done && longer && post && place(guest) == (None, 0, 7)
}

#[test]
fn recorded_requests_are_answered_as_recorded(rt: HostRuntime) {
    assert!(&rt; with_guest(rt.alloc(), events_of_call, follows) == Some(true));
}

fn another_size(memory: &mut Memory, guest: &mut ReplayGuest) -> (Option<Stop>, u64, u64) {
    let _answer = guest.realloc(memory, 0, 0, 4, 3);
    place(guest)
}

fn another_word(memory: &mut Memory, guest: &mut ReplayGuest) -> (Option<Stop>, u64, u64) {
    let _blocks = both_blocks(memory, guest);
    let _step = guest.start(memory, 7, &[ValRaw::u32(9)]).is_ok();
    place(guest)
}

fn a_start_too_early(memory: &mut Memory, guest: &mut ReplayGuest) -> (Option<Stop>, u64, u64) {
    let _step = guest.start(memory, 7, &[ValRaw::u32(1)]).is_ok();
    let _again = both_blocks(memory, guest);
    place(guest)
}

fn a_destructor(memory: &mut Memory, guest: &mut ReplayGuest) -> (Option<Stop>, u64, u64) {
    let _done = guest.dtor(memory, 7, 1);
    place(guest)
}

#[test]
fn another_request_traps_where_it_is_made(rt: HostRuntime) {
    let alloc = rt.alloc();
    let differs = Some(Stop::Differs);
    assert!(&rt; with_guest(alloc, events_of_call, another_size) == Some((differs, 0, 0)));
    assert!(&rt; with_guest(alloc, events_of_call, another_word) == Some((differs, 0, 2)));
    assert!(&rt; with_guest(alloc, events_of_call, a_start_too_early) == Some((differs, 0, 0)));
    assert!(&rt; with_guest(alloc, events_of_call, a_destructor) == Some((differs, 0, 0)));
}

fn in_a_block(memory: &mut Memory, guest: &mut ReplayGuest) -> (Option<Stop>, u64, u64) {
    let _first = guest.realloc(memory, 0, 0, 1, 4);
    let _second = guest.realloc(memory, 0, 0, 1, 4);
    place(guest)
}

#[test]
fn an_unlawful_answer_is_not_given(rt: HostRuntime) {
    assert!(&rt;
        with_guest(rt.alloc(), unlawful_events, in_a_block) == Some((Some(Stop::Unlawful), 0, 1))
    );
}

fn in_a_longer_memory(memory: &mut Memory, guest: &mut ReplayGuest) -> (Option<Stop>, u64, u64) {
    let _grown = memory.grow(20);
    let _answer = guest.realloc(memory, 0, 0, 4, 2);
    place(guest)
}

#[test]
fn a_memory_that_is_longer_than_the_recorded_one_is_none_of_its_run(rt: HostRuntime) {
    assert!(&rt;
        with_guest(rt.alloc(), events_of_call, in_a_longer_memory)
            == Some((Some(Stop::Unfit), 0, 0))
    );
}
