//! One recorded call of a function of (u32, s8) that answers a bool, with 7 and -1: its bytes, and what replaying them gives, as they are and
//! with a byte changed. One function owns the component and the recording, and gives back small values.

use canon_memory::{Bytes, Event, Events, ValRaw, Words};
use canon_recording::{Recorded, Recording, ReplayError, decode, encode, fits, recordable};
use canon_replay::{Outcome, replay};
use canon_types::{
    CanonicalOptions, ComponentTypes, InstanceType, InterfaceType, OptionsIndex, RuntimeInstance,
    StoreId, StringEncoding, TypeBuilder, TypeFuncIndex,
};
use canon_value::{Component, Export, Val};
use std::alloc::Global;

/// The length of the guest's memory.
const PAGE: usize = 65_536;

fn types_of(alloc: Global) -> Option<ComponentTypes> {
    let mut builder = TypeBuilder::new(alloc);
    let params = [InterfaceType::U32, InterfaceType::S8].to_vec(alloc).ok()?;
    let results = [InterfaceType::Bool].to_vec(alloc).ok()?;
    builder.add_func(params, results, false).ok()?;
    Some(builder.finish())
}

/// The component of one export, core function 0, without a post-return.
fn component_of(alloc: Global) -> Option<Component> {
    let plain = CanonicalOptions {
        instance: RuntimeInstance::from_u32(0),
        string_encoding: StringEncoding::Utf8,
        async_: false,
        post_return: None,
    };
    let export = Export {
        ty: TypeFuncIndex::from_u32(0),
        func: 0,
        options: OptionsIndex::from_u32(0),
    };
    Some(Component {
        types: InstanceType::new(types_of(alloc)?, StoreId::from_u64(0)),
        options: vec![in alloc; plain].ok()?,
        exports: vec![in alloc; export].ok()?,
        imports: Vec::new(alloc),
    })
}

/// The same component, whose export is async.
fn async_component_of(alloc: Global) -> Option<Component> {
    let mut c = component_of(alloc)?;
    c.options.get_mut(0)?.async_ = true;
    Some(c)
}

/// What replaying that call gives where the export is async, so that it isn't entered.
fn replays_async(alloc: Global) -> Option<Outcome> {
    let c = async_component_of(alloc)?;
    let r = recording_of(alloc, 2, true)?;
    replayed(alloc, c, r)
}

/// A memory of zeros.
fn zeros(alloc: Global) -> Option<Bytes> {
    let bytes = vec![in alloc; 0u8; PAGE].ok()?;
    Bytes::from_slice(alloc, &bytes).ok()
}

/// A start with the words 7 and -1, and a return of this word.
fn events_of(alloc: Global, word: u32) -> Option<Events> {
    let mut events = Events::new(alloc);
    let start = Event::Start {
        func: 0,
        words: Words::from_slice(alloc, &[ValRaw::u32(7), ValRaw::u32(0xffff_ffff)]).ok()?,
        memory: zeros(alloc)?,
    };
    events.push(start).ok()?;
    let answer = Event::Return {
        words: Words::from_slice(alloc, &[ValRaw::u32(word)]).ok()?,
        memory: zeros(alloc)?,
    };
    events.push(answer).ok()?;
    Some(events)
}

/// The call with 7 and -1, whose guest returned this word, and which answered this bool.
fn recording_of(alloc: Global, word: u32, answer: bool) -> Option<Recording> {
    let call = Recorded {
        export: 0,
        params: vec![in alloc; Val::U32(7), Val::S8(-1)].ok()?,
        events: events_of(alloc, word)?,
        served: Vec::new(alloc),
        results: vec![in alloc; Val::Bool(answer)].ok()?,
    };
    Some(Recording {
        calls: vec![in alloc; call].ok()?,
    })
}

/// What replaying a recording gives. None where it doesn't fit, or memory is short.
fn replayed(alloc: Global, c: Component, r: Recording) -> Option<Outcome> {
    if !c.check() || !recordable(&c) {
        return None;
    }
    match fits(alloc, &c, &r) {
        Ok(true) => replay(alloc, c, r, 1 << 30, 1 << 20).ok(),
        _ => None,
    }
}

/// What replaying that call gives.
fn replays(alloc: Global, word: u32, answer: bool) -> Option<Outcome> {
    let c = component_of(alloc)?;
    let r = recording_of(alloc, word, answer)?;
    replayed(alloc, c, r)
}

/// The bytes of that call, where the guest returned 2.
fn bytes_of(alloc: Global, c: &Component) -> Option<Vec<u8>> {
    if !c.check() || !recordable(c) {
        return None;
    }
    let r = recording_of(alloc, 2, true)?;
    match fits(alloc, c, &r) {
        Ok(true) => encode(alloc, c, &r).ok(),
        _ => None,
    }
}

/// What reading those bytes and replaying them gives, where this byte is in the place of another.
fn replays_changed(alloc: Global, at: usize, byte: u8) -> Option<Result<Outcome, ReplayError>> {
    let c = component_of(alloc)?;
    let mut bytes = bytes_of(alloc, &c)?;
    *bytes.get_mut(at)? = byte;
    if !c.check() || !recordable(&c) {
        return None;
    }
    match decode(alloc, &c, &bytes) {
        Ok(r) => Some(Ok(replayed(alloc, c, r)?)),
        Err(error) => Some(Err(error)),
    }
}

/// How many bytes there are, and the first eight.
fn length_and_front(alloc: Global) -> Option<(usize, [u8; 8])> {
    let c = component_of(alloc)?;
    let bytes = bytes_of(alloc, &c)?;
    let mut front = [0; 8];
    front.copy_from_slice(bytes.get(..8)?);
    Some((bytes.len(), front))
}

#[test]
fn a_recording_of_one_call_has_these_bytes(rt: HostRuntime) {
    let front = [0x43, 0x4e, 0x52, 0x31, 1, 0, 0, 0];
    assert!(&rt; length_and_front(rt.alloc()) == Some((131_176, front)));
}

#[test]
fn a_call_that_is_as_recorded_is_the_same(rt: HostRuntime) {
    assert!(&rt; replays(rt.alloc(), 2, true) == Some(Outcome::Same));
    assert!(&rt; replays_changed(rt.alloc(), 55, 7) == Some(Ok(Outcome::Same)));
}

#[test]
fn another_word_of_the_start_differs_at_the_start(rt: HostRuntime) {
    let outcome = Outcome::Differs { call: 0, event: 0 };
    assert!(&rt; replays_changed(rt.alloc(), 55, 8) == Some(Ok(outcome)));
}

#[test]
fn a_call_of_an_async_function_differs_at_event_0(rt: HostRuntime) {
    let outcome = Outcome::Differs { call: 0, event: 0 };
    assert!(&rt; replays_async(rt.alloc()) == Some(outcome));
}

#[test]
fn other_results_differ_after_the_last_event(rt: HostRuntime) {
    let outcome = Outcome::Differs { call: 0, event: 2 };
    assert!(&rt; replays(rt.alloc(), 2, false) == Some(outcome));
}

#[test]
fn bytes_that_begin_otherwise_are_no_recording(rt: HostRuntime) {
    let error = ReplayError::BadRecording(0);
    assert!(&rt; replays_changed(rt.alloc(), 0, 0x44) == Some(Err(error)));
}
