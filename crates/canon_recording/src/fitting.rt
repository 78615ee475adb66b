//! Whether a recording is one of a component.

ghost use Rattle.std.specs.Prelude.{◌<◌, ◌^◌, ◌≡◌, ◌↔◌, All, IsTrue, length};
ghost use Rattle.canon_context.specs.Component.{IsComponent};
ghost use Rattle.canon_types.specs.Table.{HasTuple, IsOver, Knows, members_of, param_members, result_members, shape_of, tuple_members};
ghost use Rattle.canon_plan.specs.NoHandle.{HasNoHandle, HaveNoHandle};
ghost use Rattle.canon_recording_parts.specs.Events.{IsWritten};
ghost use Rattle.canon_recording.specs.Decided.{Decides};
ghost use Rattle.canon_recording.specs.Fits.{ArePassedValues, AreRuns, AreValuesOf, FitsComponent, HaveKnownEvents, IsRecordable, IsRecordedCallOf, IsServedAskOf, IsValueOf};
ghost use Rattle.canon_recording.specs.Recordings.{RecordedCall, calls_in, exports_of, imports_of, recorded_call, recorded_calls, served_ask, served_asks};

use crate::functions::{export_count, export_type, import_count, import_type};
use crate::runs::first_no_run;
use crate::{Recorded, Recording, ReplayError, Served};
use canon_context::Component;
use canon_image::{ImageError, image};
use canon_memory::Event;
use canon_types::{ComponentTypes, InterfaceType, TypeFunc, TypeTupleIndex};
use canon_val::Val;
use std::alloc::Global;

/// There are fewer calls in a recording, and fewer events in a call.
const COUNTS: u64 = 1 << 32;

/// Whether a recording is one of a component, as `encode` wants it. Answers OutOfMemory alone where it can't say.
pub fn fits(alloc: Global, c: &Component, r: &Recording) -> Result<bool, ReplayError>
    requires sound { IsComponent c.now }
    requires recordable { IsRecordable c.now }
    ensures decides { Decides (FitsComponent c.now (calls_in r.now)) result }
{
    let calls = r.calls.as_slice();
    if calls.len() as u64 >= COUNTS {
        return Ok(false);
    }
    if !calls_fit(alloc, c, calls)? {
        return Ok(false);
    }
    Ok(are_runs(c, calls))
}

/// Whether each call is a run of its export.
fn are_runs(c: &Component, calls: &[Recorded]) -> bool
    requires sound { IsComponent c.now }
    requires known { All (λ (call : RecordedCall). call.export < length c.now.exports.items) (recorded_calls calls.now) }
    requires few { length calls.now < 2 ^ 32 }
    ensures { IsTrue result ↔ AreRuns c.now 0 (recorded_calls calls.now) }
{
    first_no_run(c, calls).is_none()
}

/// Whether the calls are of the component's functions.
fn calls_fit(alloc: Global, c: &Component, calls: &[Recorded]) -> Result<bool, ReplayError>
    requires sound { IsComponent c.now }
    requires recordable { IsRecordable c.now }
    ensures decides { Decides (All (IsRecordedCallOf (exports_of c.now) (imports_of c.now)) (recorded_calls calls.now)) result }
{
    for call in calls {
        if !call_fits(alloc, c, call)? {
            return Ok(false);
        }
    }
    Ok(true)
}

/// Whether a call is of one of the component's functions.
fn call_fits(alloc: Global, c: &Component, call: &Recorded) -> Result<bool, ReplayError>
    requires sound { IsComponent c.now }
    requires recordable { IsRecordable c.now }
    ensures decides { Decides (IsRecordedCallOf (exports_of c.now) (imports_of c.now) (recorded_call call.now)) result }
{
    if !is_known(c, call) {
        return Ok(false);
    }
    if !export_fits(alloc, c, call)? {
        return Ok(false);
    }
    asks_fit(alloc, c, call.served.as_slice())
}

/// Whether a call's export is there, and it has few enough events, each of a kind that is written.
fn is_known(c: &Component, call: &Recorded) -> bool
    ensures { IsTrue result ↔ (call.now.export < length c.now.exports.items) × HaveKnownEvents (length c.now.imports.items) call.now.events }
{
    u64::from(call.export) < export_count(c) && has_known_events(c, call)
}

/// Whether it has few enough events, each of a kind that is written, with imports that there are.
fn has_known_events(c: &Component, call: &Recorded) -> bool
    ensures { IsTrue result ↔ HaveKnownEvents (length c.now.imports.items) call.now.events }
{
    let events = call.events.as_slice();
    (events.len() as u64) < COUNTS && events_fit(events, import_count(c))
}

/// Whether the events are of kinds that are written, of a component with so many imports.
fn events_fit(events: &[Event], imports: u64) -> bool
    ensures { IsTrue result ↔ All (IsWritten imports) events.now }
{
    for event in events {
        if !event_fits(event, imports) {
            return false;
        }
    }
    true
}

fn event_fits(event: &Event, imports: u64) -> bool
    ensures { IsTrue result ↔ IsWritten imports event.now }
{
    match event {
        Event::Ask { index, .. } => u64::from(*index) < imports,
        Event::Dtor { .. } | Event::Trap { .. } => false,
        _ => true,
    }
}

/// Whether the parameters and results of a call are of its export's types.
fn export_fits(alloc: Global, c: &Component, call: &Recorded) -> Result<bool, ReplayError>
    requires sound { IsComponent c.now }
    requires recordable { IsRecordable c.now }
    requires known { call.now.export < length c.now.exports.items }
    ensures decides { Decides (ArePassedValues (exports_of c.now) call.now.export call.now.params.items call.now.results.items) result }
{
    let func = export_type(c, call.export);
    values_fit(
        alloc,
        c,
        func,
        call.params.as_slice(),
        call.results.as_slice(),
    )
}

/// Whether the asks are of the component's imports.
fn asks_fit(alloc: Global, c: &Component, asks: &[Served]) -> Result<bool, ReplayError>
    requires sound { IsComponent c.now }
    requires recordable { IsRecordable c.now }
    ensures decides { Decides (All (IsServedAskOf (imports_of c.now)) (served_asks asks.now)) result }
{
    for ask in asks {
        if !ask_fits(alloc, c, ask)? {
            return Ok(false);
        }
    }
    Ok(true)
}

/// Whether an ask is of one of the component's imports.
fn ask_fits(alloc: Global, c: &Component, ask: &Served) -> Result<bool, ReplayError>
    requires sound { IsComponent c.now }
    requires recordable { IsRecordable c.now }
    ensures decides { Decides (IsServedAskOf (imports_of c.now) (served_ask ask.now)) result }
{
    if u64::from(ask.import) >= import_count(c) {
        return Ok(false);
    }
    import_fits(alloc, c, ask)
}

/// Whether the parameters and results of an ask are of its import's types.
fn import_fits(alloc: Global, c: &Component, ask: &Served) -> Result<bool, ReplayError>
    requires sound { IsComponent c.now }
    requires recordable { IsRecordable c.now }
    requires known { ask.now.import < length c.now.imports.items }
    ensures decides { Decides (IsServedAskOf (imports_of c.now) (served_ask ask.now)) result }
{
    let func = import_type(c, ask.import);
    values_fit(
        alloc,
        c,
        func,
        ask.params.as_slice(),
        ask.results.as_slice(),
    )
}

/// Whether parameters and results are of a function's types.
fn values_fit(
    alloc: Global,
    c: &Component,
    func: TypeFunc,
    params: &[Val],
    results: &[Val],
) -> Result<bool, ReplayError>
    requires over { IsOver c.now.types.types func }
    requires params { HaveNoHandle (param_members c.now.types.types func) }
    requires results { HaveNoHandle (result_members c.now.types.types func) }
    ensures decides { Decides (AreValuesOf (param_members c.now.types.types func) params.now × AreValuesOf (result_members c.now.types.types func) results.now) result }
{
    if !tuple_fits(alloc, c, func.params, params)? {
        return Ok(false);
    }
    tuple_fits(alloc, c, func.results, results)
}

/// Whether values are of the types of a tuple.
fn tuple_fits(
    alloc: Global,
    c: &Component,
    tuple: TypeTupleIndex,
    vals: &[Val],
) -> Result<bool, ReplayError>
    requires tuple { HasTuple c.now.types.types tuple }
    requires no_handle { HaveNoHandle (tuple_members c.now.types.types tuple) }
    ensures decides { Decides (AreValuesOf (tuple_members c.now.types.types tuple) vals.now) result }
{
    let types = c.types.types();
    let tys = types.tuple(tuple).types.as_slice();
    if vals.len() != tys.len() {
        return Ok(false);
    }
    vals_fit(alloc, types, tys, vals)
}

/// Whether each value is of its type.
fn vals_fit(
    alloc: Global,
    types: &ComponentTypes,
    tys: &[InterfaceType],
    vals: &[Val],
) -> Result<bool, ReplayError>
    requires known { All (Knows types.now) tys.now }
    requires no_handle { HaveNoHandle (members_of types.now tys.now) }
    requires count { length vals.now ≡ length tys.now }
    ensures decides { Decides (AreValuesOf (members_of types.now tys.now) vals.now) result }
{
    for k in 0..tys.len() {
        if !val_fits(alloc, types, &tys[k], &vals[k])? {
            return Ok(false);
        }
    }
    Ok(true)
}

/// Whether a value is of the type: whether it has an image.
fn val_fits(
    alloc: Global,
    types: &ComponentTypes,
    ty: &InterfaceType,
    val: &Val,
) -> Result<bool, ReplayError>
    requires known { Knows types.now ty.now }
    requires no_handle { HasNoHandle (shape_of types.now ty.now) }
    ensures decides { Decides (IsValueOf (shape_of types.now ty.now) val.now) result }
{
    match image(alloc, types, ty, val) {
        Ok(_image) => Ok(true),
        Err(ImageError::NotOfType(_fault)) => Ok(false),
        // The type reaches no handle, so that only memory was short.
        Err(_) => Err(ReplayError::OutOfMemory),
    }
}
