//! Worked values of the allocator's five rules, and of a guest that follows a script. One function owns each memory and each guest and lends
//! them to another, which tells what they answer.

use canon_memory::{Bytes, Guest, GuestFault, Memory, MemoryError, Step, ValRaw, Words};
use canon_scripted::{Action, Ordered, ScriptedGuest};
use std::alloc::Global;

fn writing(alloc: Global, address: u64, bytes: &[u8]) -> Result<Action, MemoryError> {
    Ok(Action::Write(address, Bytes::from_slice(alloc, bytes)?))
}

fn asking(alloc: Global, index: u32, word: u32) -> Result<Action, MemoryError> {
    let words = Words::from_slice(alloc, &[ValRaw::u32(word)])?;
    Ok(Action::Ask(index, words))
}

fn returning(alloc: Global, word: u32) -> Result<Action, MemoryError> {
    let words = Words::from_slice(alloc, &[ValRaw::u32(word)])?;
    Ok(Action::Return(words))
}

/// Adds an action. None where there is no memory for it.
fn add(actions: &mut Vec<Action>, action: Result<Action, MemoryError>) -> Option<()> {
    actions.push(action.ok()?).ok()
}

/// The actions that a function adds to none.
fn actions_of<F: FnOnce(Global, &mut Vec<Action>) -> Option<()>>(
    alloc: Global,
    add: F,
) -> Option<Vec<Action>>
    requires { F.IsAlwaysCallable add }
{
    let mut actions = Vec::new(alloc);
    add(alloc, &mut actions)?;
    Some(actions)
}

/// What something answers of a memory of so many bytes and of a guest whose blocks begin here.
fn with_guest<R, F: FnOnce(Global, &mut Memory, &mut ScriptedGuest) -> Option<R>>(
    alloc: Global,
    len: u64,
    base: u64,
    ask: F,
) -> Option<R>
    requires { F.IsAlwaysCallable ask }
{
    let mut memory = Memory::new(alloc, len).ok()?;
    let mut guest = ScriptedGuest::new(alloc, base);
    ask(alloc, &mut memory, &mut guest)
}

/// Whether a step returns this word.
fn returns(step: Result<Step, GuestFault>, word: u32) -> bool {
    match &step {
        Ok(Step::Return(words)) => words.as_slice() == [ValRaw::u32(word)].as_slice(),
        _ => false,
    }
}

/// Whether it asks for the import of this number, with this word.
fn asks(step: Result<Step, GuestFault>, number: u32, word: u32) -> bool {
    match &step {
        Ok(Step::Import { index, words }) => {
            *index == number && words.as_slice() == [ValRaw::u32(word)].as_slice()
        }
        _ => false,
    }
}

/// Whether it traps.
fn traps(step: Result<Step, GuestFault>) -> bool {
    step.err() == Some(GuestFault::Trap)
}

/// What five requests for memory answer.
type Answers = [Result<u64, GuestFault>; 5];

fn new_blocks(_: Global, memory: &mut Memory, guest: &mut ScriptedGuest) -> Option<Answers> {
    Some([
        guest.realloc(memory, 0, 0, 4, 6),
        guest.realloc(memory, 9, 0, 8, 0),
        guest.realloc(memory, 0, 0, 1, 41),
        guest.realloc(memory, 0, 0, 1, 40),
        guest.realloc(memory, 0, 0, 64, 0),
    ])
}

#[test]
fn a_new_block_stands_at_the_next_multiple_of_its_alignment(rt: HostRuntime) {
    let answers = with_guest(rt.alloc(), 64, 10, new_blocks);
    assert!(rt; answers == Some([Ok(12), Ok(24), Err(GuestFault::Trap), Ok(24), Ok(64)]));
}

/// What requests for no block, a new one and one of another size answer.
fn no_blocks(
    _: Global,
    memory: &mut Memory,
    guest: &mut ScriptedGuest,
) -> Option<[Result<u64, GuestFault>; 3]> {
    Some([
        guest.realloc(memory, 10, 6, 1, 6),
        guest.realloc(memory, 0, 0, 1, 6),
        guest.realloc(memory, 10, 5, 1, 6),
    ])
}

#[test]
fn a_block_that_does_not_live_traps(rt: HostRuntime) {
    let trap = Err(GuestFault::Trap);
    assert!(rt; with_guest(rt.alloc(), 64, 10, no_blocks) == Some([trap, Ok(10), trap]));
}

fn grown_block(_: Global, memory: &mut Memory, guest: &mut ScriptedGuest) -> Option<Answers> {
    Some([
        guest.realloc(memory, 0, 0, 4, 6),
        guest.realloc(memory, 12, 6, 4, 53),
        guest.realloc(memory, 12, 6, 4, 52),
        guest.realloc(memory, 12, 52, 4, 3),
        guest.realloc(memory, 0, 0, 1, 1),
    ])
}

#[test]
fn the_last_block_grows_where_it_is(rt: HostRuntime) {
    let answers = with_guest(rt.alloc(), 64, 12, grown_block);
    assert!(rt; answers == Some([Ok(12), Err(GuestFault::Trap), Ok(12), Ok(12), Ok(15)]));
}

fn shrunk_block(_: Global, memory: &mut Memory, guest: &mut ScriptedGuest) -> Option<Answers> {
    Some([
        guest.realloc(memory, 0, 0, 4, 6),
        guest.realloc(memory, 0, 0, 1, 1),
        guest.realloc(memory, 12, 6, 4, 2),
        guest.realloc(memory, 12, 6, 4, 1),
        guest.realloc(memory, 0, 0, 1, 1),
    ])
}

#[test]
fn a_block_shrinks_where_it_is(rt: HostRuntime) {
    let answers = with_guest(rt.alloc(), 64, 12, shrunk_block);
    assert!(rt; answers == Some([Ok(12), Ok(18), Ok(12), Err(GuestFault::Trap), Ok(19)]));
}

/// What two new blocks answer, and what three requests that move them do, and whether their bytes moved.
fn moved_blocks(
    _: Global,
    memory: &mut Memory,
    guest: &mut ScriptedGuest,
) -> Option<(Answers, bool)> {
    let first = guest.realloc(memory, 0, 0, 1, 3);
    let second = guest.realloc(memory, 0, 0, 1, 2);
    let bytes = memory.as_slice_mut().get_mut(..5)?;
    bytes.copy_from_slice(&[1, 2, 3, 4, 5]);
    // larger, and not the last
    let larger = guest.realloc(memory, 0, 3, 2, 4);
    let gone = guest.realloc(memory, 0, 3, 2, 1);
    // smaller, and not aligned
    let smaller = guest.realloc(memory, 3, 2, 4, 1);
    let moved = memory.as_slice() == [1, 2, 3, 4, 5, 0, 1, 2, 3, 0, 0, 0, 4, 0].as_slice();
    Some(([first, second, larger, gone, smaller], moved))
}

#[test]
fn a_block_moves_with_its_bytes(rt: HostRuntime) {
    let told = with_guest(rt.alloc(), 14, 0, moved_blocks);
    let answers = [Ok(0), Ok(3), Ok(6), Err(GuestFault::Trap), Ok(12)];
    assert!(rt; told == Some((answers, true)));
}

/// What requests answer of which two are ordered, and how many breaches there are after the first and the last.
fn ordered_answers(
    alloc: Global,
    memory: &mut Memory,
    guest: &mut ScriptedGuest,
) -> Option<([Result<u64, GuestFault>; 3], u64, u64)> {
    let orders = [Ordered::Answer(4_000_000_001), Ordered::Trap];
    let orders = Vec::from_slice(alloc, &orders).ok()?;
    guest.load(Vec::new(alloc), orders, false, false);
    let first = guest.realloc(memory, 0, 0, 4, 6);
    let after_first = guest.breaches();
    let second = guest.realloc(memory, 0, 0, 4, 6);
    let third = guest.realloc(memory, 0, 0, 4, 6);
    Some(([first, second, third], after_first, guest.breaches()))
}

#[test]
fn an_ordered_answer_counts_as_a_breach(rt: HostRuntime) {
    let told = with_guest(rt.alloc(), 64, 12, ordered_answers);
    let answers = [Ok(4_000_000_001), Err(GuestFault::Trap), Ok(12)];
    assert!(rt; told == Some((answers, 1, 1)));
}

/// A write, bytes that are added, an ask for import 5 and a return.
fn add_asking(alloc: Global, actions: &mut Vec<Action>) -> Option<()> {
    add(actions, writing(alloc, 1, &[7, 8]))?;
    add(actions, Ok(Action::Grow(2)))?;
    add(actions, asking(alloc, 5, 1))?;
    add(actions, returning(alloc, 2))
}

/// Whether a guest takes these actions, and then has none.
fn takes_asking(
    alloc: Global,
    memory: &mut Memory,
    guest: &mut ScriptedGuest,
) -> Option<[bool; 4]> {
    let actions = actions_of(alloc, add_asking)?;
    guest.load(actions, Vec::new(alloc), false, false);
    Some([
        asks(guest.start(memory, 0, &[]), 5, 1),
        memory.as_slice() == [0, 7, 8, 0, 0].as_slice(),
        returns(guest.resume(memory, &[]), 2),
        traps(guest.start(memory, 0, &[])),
    ])
}

#[test]
fn a_guest_writes_grows_asks_and_returns(rt: HostRuntime) {
    assert!(rt; with_guest(rt.alloc(), 3, 0, takes_asking) == Some([true; 4]));
}

/// Two writes in a memory of three bytes, of which the second goes past the end, too many bytes that are added, and a
/// return.
fn add_trapping(alloc: Global, actions: &mut Vec<Action>) -> Option<()> {
    add(actions, writing(alloc, 0, &[7]))?;
    add(actions, writing(alloc, 2, &[8, 9]))?;
    add(actions, Ok(Action::Grow(4_294_967_294)))?;
    add(actions, returning(alloc, 2))
}

/// Whether a guest traps at those that it can't take.
fn takes_trapping(
    alloc: Global,
    memory: &mut Memory,
    guest: &mut ScriptedGuest,
) -> Option<[bool; 4]> {
    let actions = actions_of(alloc, add_trapping)?;
    guest.load(actions, Vec::new(alloc), false, false);
    Some([
        traps(guest.start(memory, 0, &[])),
        memory.as_slice() == [7, 0, 0].as_slice(),
        traps(guest.start(memory, 0, &[])),
        returns(guest.start(memory, 0, &[]), 2),
    ])
}

#[test]
fn a_write_past_the_end_traps(rt: HostRuntime) {
    assert!(rt; with_guest(rt.alloc(), 3, 0, takes_trapping) == Some([true; 4]));
}

/// What a call of `post_return` and a destructor answer.
type Ends = [Result<(), GuestFault>; 2];

/// The same where the first is told to trap, and where the second is.
fn told_to_trap(
    alloc: Global,
    memory: &mut Memory,
    guest: &mut ScriptedGuest,
) -> Option<[Ends; 2]> {
    guest.load(Vec::new(alloc), Vec::new(alloc), true, false);
    let first = [guest.post_return(memory, 1, &[]), guest.dtor(memory, 1, 7)];
    guest.load(Vec::new(alloc), Vec::new(alloc), false, true);
    let second = [guest.post_return(memory, 1, &[]), guest.dtor(memory, 1, 7)];
    Some([first, second])
}

#[test]
fn post_return_and_a_destructor_trap_where_they_are_told(rt: HostRuntime) {
    let trap = Err(GuestFault::Trap);
    let told = with_guest(rt.alloc(), 3, 0, told_to_trap);
    assert!(rt; told == Some([[trap, Ok(())], [Ok(()), trap]]));
}
