//! Which events are those of a run.

ghost use Rattle.std.specs.Prelude.{◌<◌, ◌↔◌, ◌≡◌, ◌^◌, [], ◌∷◌, All, IfSome, IsNone, IsTrue, length, slice_get};
ghost use Rattle.canon_context.specs.Component.{IsComponent};
ghost use Rattle.canon_func.specs.Stores.{callee_in};
ghost use Rattle.canon_recording.specs.Fits.{AreRuns, IsNoRunAt, IsRunFrom, callee_of_call};
ghost use Rattle.canon_recording.specs.Recordings.{RecordedCall, recorded_call, recorded_calls};
ghost use Rattle.canon_func.specs.Runs.{Grows, IsOneRun, last_len};
ghost use Rattle.canon_recording.specs.Stages.{LeadsTo, after_asks, after_before, after_runs, is_end, len_in, returned_after};

use crate::Recorded;
use canon_context::Component;
use canon_memory::{Event, ValRaw};

/// The most bytes that a memory has.
const MAX_LEN: u64 = 1 << 32;

/// How far a run has come.
#[derive(Clone, Copy)]
pub(crate) enum Stage {
    /// Blocks are asked for.
    Before,
    /// It was started or resumed.
    Runs,
    /// It asked for an import.
    Asks,
    /// It returned, and post-return is to follow where there is one.
    Returned,
    /// Post-return ended it.
    Ended,
}

/// Whether the events are one run of a core function, and of post-return where there is one.
pub(crate) fn is_run(events: &[Event], func: u32, post: Option<u32>) -> bool
    ensures { IsTrue result ↔ IsOneRun func post events.now }
{
    let mut stage = Stage::Before;
    let mut returned: &[ValRaw] = &[];
    for event in events {
        match stage_after(stage, returned, event, func, post) {
            Some(next) => stage = next,
            None => return false,
        }
        returned = returned_after(returned, event);
    }
    is_end(stage, post)
}

/// Whether nothing is left of a run.
fn is_end(stage: Stage, post: Option<u32>) -> bool
    ensures { result ≡ is_end post stage }
{
    match stage {
        Stage::Returned => post.is_none(),
        Stage::Ended => true,
        _ => false,
    }
}

fn returned_after<'a>(returned: &'a [ValRaw], event: &'a Event) -> &'a [ValRaw]
    ensures { result.now ≡ returned_after returned.now event.now }
{
    match event {
        Event::Return { words, .. } => words.as_slice(),
        _ => returned,
    }
}

/// The stage to which an event leads, if it is one of a run.
fn stage_after(
    stage: Stage,
    returned: &[ValRaw],
    event: &Event,
    func: u32,
    post: Option<u32>,
) -> Option<Stage>
    ensures leads { LeadsTo func post stage returned.now event.now result }
{
    match stage {
        Stage::Before => after_before(event, func),
        Stage::Runs => after_runs(event),
        Stage::Asks => after_asks(event),
        Stage::Returned => after_returned(event, func, post, returned),
        Stage::Ended => None,
    }
}

/// After an event while blocks are asked for.
fn after_before(event: &Event, func: u32) -> Option<Stage>
    ensures { result ≡ after_before func event.now }
{
    match event {
        Event::Realloc { .. } => Some(Stage::Before),
        Event::Start { func: started, .. } => {
            if *started == func {
                Some(Stage::Runs)
            } else {
                None
            }
        }
        _ => None,
    }
}

/// After an event of a guest that runs.
fn after_runs(event: &Event) -> Option<Stage>
    ensures { result ≡ after_runs event.now }
{
    match event {
        Event::Ask { .. } => Some(Stage::Asks),
        Event::Return { .. } => Some(Stage::Returned),
        _ => None,
    }
}

/// After an event while an ask is served.
fn after_asks(event: &Event) -> Option<Stage>
    ensures { result ≡ after_asks event.now }
{
    match event {
        Event::Realloc { .. } => Some(Stage::Asks),
        Event::Resume { .. } => Some(Stage::Runs),
        _ => None,
    }
}

/// After an event of a guest that returned these words.
fn after_returned(event: &Event, func: u32, post: Option<u32>, returned: &[ValRaw]) -> Option<Stage>
    ensures leads { LeadsTo func post Stage.Returned returned.now event.now result }
{
    let _ = func;
    match (event, post) {
        (
            Event::Post {
                func: posted,
                words,
            },
            Some(post),
        ) => {
            if is_same_post(*posted, words.as_slice(), post, returned) {
                Some(Stage::Ended)
            } else {
                None
            }
        }
        _ => None,
    }
}

/// Whether the functions are the same, and the words.
fn is_same_post(func: u32, words: &[ValRaw], post: u32, returned: &[ValRaw]) -> bool
    ensures { IsTrue result ↔ (func ≡ post) × (words.now ≡ returned.now) }
{
    func == post && same_words(words, returned)
}

fn same_words(words: &[ValRaw], others: &[ValRaw]) -> bool
    ensures { IsTrue result ↔ (words.now ≡ others.now) }
{
    words == others
}

/// Whether memory doesn't become shorter from `len` bytes on, nor longer than 2^32.
pub(crate) fn grows(len: u64, events: &[Event]) -> bool
    ensures { IsTrue result ↔ Grows len events.now (2 ^ 32) }
{
    let mut last = len;
    for event in events {
        if len_in(event, last) < last {
            return false;
        }
        last = len_after(event, last);
    }
    last <= MAX_LEN
}

/// How long the memory of an event is, in a memory of `len` bytes: of a trap the one in which it came.
fn len_in(event: &Event, len: u64) -> u64
    ensures { result ≡ len_in event.now len }
{
    match event {
        Event::Start { memory, .. }
        | Event::Ask { memory, .. }
        | Event::Resume { memory, .. }
        | Event::Return { memory, .. } => memory.len(),
        Event::Trap { len, .. } => *len,
        _ => len,
    }
}

/// How long memory is after an event.
fn len_after(event: &Event, len: u64) -> u64
    ensures { result ≡ last_len len (event.now ∷ []) }
{
    match event {
        Event::Trap { .. } => len,
        _ => len_in(event, len),
    }
}

/// How long memory is after these events.
pub(crate) fn len_after_all(len: u64, events: &[Event]) -> u64
    ensures { result ≡ last_len len events.now }
{
    let mut last = len;
    for event in events {
        last = len_after(event, last);
    }
    last
}

/// The first of the calls that is no run of its export, if there is one. No memory is shorter than one before it, nor longer than
/// 2^32 bytes.
pub(crate) fn first_no_run(c: &Component, calls: &[Recorded]) -> Option<u32>
    requires sound { IsComponent c.now }
    requires known { All (λ (call : RecordedCall). call.export < length c.now.exports.items) (recorded_calls calls.now) }
    requires few { length calls.now < 2 ^ 32 }
    ensures all { IsNone result → AreRuns c.now 0 (recorded_calls calls.now) }
    ensures first { IfSome result (IsNoRunAt c.now 0 (recorded_calls calls.now)) }
{
    let mut len = 0;
    for k in 0..calls.len() {
        let call = &calls[k];
        if is_run_from(c, len, call) {
            len = len_after_all(len, call.events.as_slice());
        } else {
            return Some(k as u32);
        }
    }
    None
}

/// Whether a call is a run of its export, in a memory of `len` bytes.
fn is_run_from(c: &Component, len: u64, call: &Recorded) -> bool
    requires sound { IsComponent c.now }
    requires known { call.now.export < length c.now.exports.items }
    ensures { IsTrue result ↔ IsRunFrom c.now len (recorded_call call.now) }
{
    is_run_of(c, call) && grows(len, call.events.as_slice())
}

/// Whether its events are those of one.
fn is_run_of(c: &Component, call: &Recorded) -> bool
    requires sound { IsComponent c.now }
    requires known { call.now.export < length c.now.exports.items }
    ensures { IsTrue result ↔ IsOneRun (callee_of_call c.now (recorded_call call.now)).func (callee_of_call c.now (recorded_call call.now)).post call.now.events }
{
    let func = export_func(c, call.export);
    let post = export_post(c, call.export);
    is_run(call.events.as_slice(), func, post)
}

/// The core function of an export.
fn export_func(c: &Component, export: u32) -> u32
    requires known { export < length c.now.exports.items }
    ensures { result ≡ (callee_in c.now (slice_get c.now.exports.items export)).func }
{
    c.exports[export as usize].func
}

/// The post-return of an export.
fn export_post(c: &Component, export: u32) -> Option<u32>
    requires sound { IsComponent c.now }
    requires known { export < length c.now.exports.items }
    ensures { result ≡ (callee_in c.now (slice_get c.now.exports.items export)).post }
{
    c.options[c.exports[export as usize].options.as_u32() as usize].post_return
}
