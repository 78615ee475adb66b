//! One recorded call of a function of u32 that answers a u32, whose guest asked for an import with 7: what replaying it gives, where the
//! import answered 9, where it is recorded with another answer, and where no answer is recorded.

use canon_memory::{Bytes, Event, Events, ValRaw, Words};
use canon_recording::{Recorded, Recording, Served, fits, recordable};
use canon_replay::{Outcome, replay};
use canon_types::{
    CanonicalOptions, ComponentTypes, InstanceType, InterfaceType, OptionsIndex, RuntimeInstance,
    StoreId, StringEncoding, TypeBuilder, TypeFuncIndex,
};
use canon_value::{Component, Export, Import, Val};
use std::alloc::Global;

fn types_of(alloc: Global) -> Option<ComponentTypes> {
    let mut builder = TypeBuilder::new(alloc);
    let params = [InterfaceType::U32].to_vec(alloc).ok()?;
    let results = [InterfaceType::U32].to_vec(alloc).ok()?;
    builder.add_func(params, results, false).ok()?;
    Some(builder.finish())
}

/// The component of one export, core function 0, without a post-return, and of one function of the host of the same type.
fn component_of(alloc: Global) -> Option<Component> {
    let plain = CanonicalOptions {
        instance: RuntimeInstance::from_u32(0),
        string_encoding: StringEncoding::Utf8,
        async_: false,
        post_return: None,
    };
    let ty = TypeFuncIndex::from_u32(0);
    let options = OptionsIndex::from_u32(0);
    let export = Export {
        ty,
        func: 0,
        options,
    };
    let import = Import::Host { ty, options };
    Some(Component {
        types: InstanceType::new(types_of(alloc)?, StoreId::from_u64(0)),
        options: vec![in alloc; plain].ok()?,
        exports: vec![in alloc; export].ok()?,
        imports: vec![in alloc; import].ok()?,
    })
}

fn one_word(alloc: Global, word: u32) -> Option<Words> {
    Words::from_slice(alloc, &[ValRaw::u32(word)]).ok()
}

/// A memory of 8 zeros.
fn zeros(alloc: Global) -> Option<Bytes> {
    Bytes::from_slice(alloc, &[0; 8]).ok()
}

/// A start with 7, an ask for import 0 with 7, a resume with 9, and a return of 9.
fn events_of(alloc: Global) -> Option<Events> {
    let mut events = Events::new(alloc);
    let start = Event::Start {
        func: 0,
        words: one_word(alloc, 7)?,
        memory: zeros(alloc)?,
    };
    events.push(start).ok()?;
    let ask = Event::Ask {
        index: 0,
        words: one_word(alloc, 7)?,
        memory: zeros(alloc)?,
    };
    events.push(ask).ok()?;
    let resume = Event::Resume {
        words: one_word(alloc, 9)?,
        memory: zeros(alloc)?,
    };
    events.push(resume).ok()?;
    let answer = Event::Return {
        words: one_word(alloc, 9)?,
        memory: zeros(alloc)?,
    };
    events.push(answer).ok()?;
    Some(events)
}

/// The asks that were served: none, or the one with 7, which answered this.
fn served_of(alloc: Global, answer: Option<u32>) -> Option<Vec<Served>> {
    let Some(answer) = answer else {
        return Some(Vec::new(alloc));
    };
    let ask = Served {
        import: 0,
        params: vec![in alloc; Val::U32(7)].ok()?,
        results: vec![in alloc; Val::U32(answer)].ok()?,
    };
    vec![in alloc; ask].ok()
}

/// The call with 7 that answered 9, whose import answered this.
fn recording_of(alloc: Global, answer: Option<u32>) -> Option<Recording> {
    let call = Recorded {
        export: 0,
        params: vec![in alloc; Val::U32(7)].ok()?,
        events: events_of(alloc)?,
        served: served_of(alloc, answer)?,
        results: vec![in alloc; Val::U32(9)].ok()?,
    };
    Some(Recording {
        calls: vec![in alloc; call].ok()?,
    })
}

/// What replaying it gives. None where it doesn't fit, or memory is short.
fn replays(alloc: Global, answer: Option<u32>) -> Option<Outcome> {
    let c = component_of(alloc)?;
    let r = recording_of(alloc, answer)?;
    if !c.check() || !recordable(&c) {
        return None;
    }
    match fits(alloc, &c, &r) {
        Ok(true) => replay(alloc, c, r, 1 << 30, 1 << 20).ok(),
        _ => None,
    }
}

#[test]
fn an_import_that_answers_as_recorded_is_the_same(rt: HostRuntime) {
    assert!(&rt; replays(rt.alloc(), Some(9)) == Some(Outcome::Same));
}

#[test]
fn another_answer_of_an_import_differs_at_the_resume(rt: HostRuntime) {
    let outcome = Outcome::Differs { call: 0, event: 2 };
    assert!(&rt; replays(rt.alloc(), Some(8)) == Some(outcome));
}

#[test]
fn an_ask_without_a_recorded_answer_differs_after_the_ask(rt: HostRuntime) {
    let outcome = Outcome::Differs { call: 0, event: 2 };
    assert!(&rt; replays(rt.alloc(), None) == Some(outcome));
}
