//! Calls with Rust tuples.

use super::{CallStore, LETTER, NOTHING, NUMBERS, OPTION, WIDE, store_of, with_store};
use canon_func::{Error, TypedFunc};
use canon_lift::Lift;
use canon_lower::Lower;
use canon_memory::{Event, ValRaw};
use canon_typed::{ComponentNamedList, TypecheckFailed};
use canon_types::ExportIndex;
use canon_value::{At, Fault};
use std::alloc::Global;

/// What a call answers, and whether the store is trapped then. None where the function has other types.
type Called<R> = Option<(Result<R, Error>, bool)>;

/// Calls the export of this number with Rust types.
fn call<P: ComponentNamedList + Lower, R: ComponentNamedList + Lift>(
    alloc: Global,
    store: &mut CallStore,
    export: u32,
    params: P,
) -> Called<R> {
    let f = store.func(ExportIndex::from_u32(export))?;
    let typed: Result<TypedFunc<P, R>, TypecheckFailed> = f.typed(store);
    let answer = typed.ok()?.call(alloc, store, params);
    Some((answer, store.is_trapped()))
}

/// The same, of a store whose guest returns this word.
fn call_once<P: ComponentNamedList + Lower, R: ComponentNamedList + Lift>(
    alloc: Global,
    word: u32,
    export: u32,
    params: P,
) -> Called<R> {
    let mut store = store_of(alloc, 1, &[ValRaw::u32(word)])?;
    call(alloc, &mut store, export, params)
}

/// Whether the guest was started with the two words of 7 and -1: of an s8 as of an i32 (CanonicalABI.md, "lower_flat_signed").
fn are_numbers(events: &[Event]) -> bool {
    let [
        Event::Start { words, .. },
        Event::Return { .. },
        Event::Post { .. },
    ] = events
    else {
        return false;
    };
    words.as_slice() == [ValRaw::u64(7), ValRaw::u64(4_294_967_295)].as_slice()
}

/// Calls the function of two numbers. Answers too whether these were passed.
fn call_numbers(alloc: Global, store: &mut CallStore) -> Option<(Called<(bool,)>, bool)> {
    let answer = call(alloc, store, NUMBERS, (7u32, -1i8));
    let events = store.core_mut().guest_mut().take_journal();
    Some((answer, are_numbers(events.as_slice())))
}

#[test]
fn a_call_lowers_its_parameters_and_lifts_its_results(rt: HostRuntime) {
    let checked = with_store(rt.alloc(), 1, &[ValRaw::u32(2)], call_numbers);
    assert!(rt; checked == Some((Some((Ok((true,)), false)), true)));
}

#[test]
fn a_result_may_be_a_fault(rt: HostRuntime) {
    let alloc = rt.alloc();
    let letter: Called<(char,)> = call_once(alloc, 0xd800, LETTER, ());
    let fault = Error::Fault(Fault::InvalidChar(At::Word(0)));
    assert!(rt; letter == Some((Err(fault), true)));
    // The byte at 2048 is 2, and an option has the cases 0 and 1.
    let option: Called<(Option<u8>,)> = call_once(alloc, 2048, OPTION, ());
    let fault = Error::Fault(Fault::BadDiscriminant(At::Address(2048), 2));
    assert!(rt; option == Some((Err(fault), true)));
    // One word more than the results take.
    let nothing: Called<()> = call_once(alloc, 5, NOTHING, ());
    assert!(rt; nothing == Some((Err(Error::WrongWords), true)));
}

/// Whether the function of two numbers is refused as one of these types, where the store is there.
fn is_refused<P: ComponentNamedList + Lower, R: ComponentNamedList + Lift>(
    store: &CallStore,
) -> Option<bool> {
    let f = store.func(ExportIndex::from_u32(NUMBERS))?;
    let typed: Result<TypedFunc<P, R>, TypecheckFailed> = f.typed(store);
    Some(typed.is_err())
}

fn refusals(_alloc: Global, store: &mut CallStore) -> Option<[bool; 4]> {
    Some([
        is_refused::<(u32, i8), (bool,)>(store)?,
        is_refused::<(u32, u8), (bool,)>(store)?,
        is_refused::<(u32,), (bool,)>(store)?,
        is_refused::<(u32, i8), ()>(store)?,
    ])
}

#[test]
fn other_types_are_refused(rt: HostRuntime) {
    assert!(rt; with_store(rt.alloc(), 1, &[], refusals) == Some([false, true, true, true]));
}

/// The numbers from 1 to 18, each in four bytes, the lowest first.
const BYTES: [u8; 72] = [
    1, 0, 0, 0, 2, 0, 0, 0, 3, 0, 0, 0, 4, 0, 0, 0, 5, 0, 0, 0, 6, 0, 0, 0, 7, 0, 0, 0, 8, 0, 0, 0,
    9, 0, 0, 0, 10, 0, 0, 0, 11, 0, 0, 0, 12, 0, 0, 0, 13, 0, 0, 0, 14, 0, 0, 0, 15, 0, 0, 0, 16,
    0, 0, 0, 17, 0, 0, 0, 18, 0, 0, 0,
];

/// Whether a block of 72 bytes was asked for, and the guest was started with the one word that points to it, where memory has the
/// numbers then.
fn are_passed(events: &[Event]) -> bool {
    let [
        Event::Realloc {
            old: 0,
            old_size: 0,
            align: 4,
            new_size: 72,
            answer: 1024,
        },
        Event::Start { words, memory, .. },
        Event::Return { .. },
        Event::Post { .. },
    ] = events
    else {
        return false;
    };
    let points = words.as_slice() == [ValRaw::u32(1024)].as_slice();
    let memory = memory.as_slice();
    points && memory.len() >= 1024 && memory[1024..].starts_with(&BYTES)
}

/// Calls the function of eighteen numbers. Answers too whether they were passed by a pointer.
fn call_wide(alloc: Global, store: &mut CallStore) -> Option<(Called<()>, bool)> {
    let params = (
        (1u32, 2u32, 3u32, 4u32, 5u32, 6u32),
        (7u32, 8u32, 9u32, 10u32, 11u32, 12u32),
        (13u32, 14u32, 15u32, 16u32, 17u32, 18u32),
    );
    let answer = call(alloc, store, WIDE, params);
    let events = store.core_mut().guest_mut().take_journal();
    Some((answer, are_passed(events.as_slice())))
}

// More than 16 words go as a tuple into a block, and one word points to it (CanonicalABI.md, "lower_flat_values").
#[test]
fn many_parameters_go_by_a_pointer(rt: HostRuntime) {
    let told = with_store(rt.alloc(), 1, &[], call_wide);
    assert!(rt; told == Some((Some((Ok(()), false)), true)));
}
