//! The bytes of a recording, written field by field.

ghost use Rattle.std.specs.Prelude.{◌≡◌, All, false, length};
ghost use Rattle.canon_context.specs.Component.{IsComponent};
ghost use Rattle.canon_types.specs.Table.{HasTuple, IsOver, Knows, members_of, param_members, result_members, shape_of, tuple_members};
ghost use Rattle.canon_plan.specs.NoHandle.{HasNoHandle, HaveNoHandle};
ghost use Rattle.canon_recording_parts.specs.Format.{also, counted_row, in_a_row};
ghost use Rattle.canon_recording_parts.specs.Written.{WritesFormat};
ghost use Rattle.canon_recording.specs.Coded.{IsEncoded};
ghost use Rattle.canon_recording.specs.Fits.{ArePlainValues, FitsComponent, IsOfFunction, IsRecordable, IsRecordedCallOf, IsServedAskOf, IsValueOf};
ghost use Rattle.canon_recording.specs.Recordings.{a_call, an_ask, calls_in, exports_of, imports_of, passed_values, recorded_call, recorded_calls, recording, served_ask, served_asks, value, values, what_was_done};

use crate::functions::{export_type, import_count, import_type};
use crate::{Recorded, Recording, ReplayError, Served};
use canon_context::Component;
use canon_image::image;
use canon_recording_parts::{append, put_bytes, put_count, put_events, put_u32};
use canon_types::{ComponentTypes, InterfaceType, TypeFunc, TypeTupleIndex};
use canon_val::Val;
use std::alloc::Global;

/// The bytes of a recording of a component. Answers `TooLong` where they would be more than 1,073,741,824.
pub fn encode(alloc: Global, c: &Component, r: &Recording) -> Result<Vec<u8>, ReplayError>
    requires sound { IsComponent c.now }
    requires recordable { IsRecordable c.now }
    requires fits { FitsComponent c.now (calls_in r.now) }
    ensures is { IsEncoded c.now (calls_in r.now) result }
{
    let mut bytes = Vec::new(alloc);
    match put_recording(alloc, c, r.calls.as_slice(), &mut bytes) {
        Ok(()) => Ok(bytes),
        Err(error) => Err(error),
    }
}

fn put_recording(
    alloc: Global,
    c: &Component,
    calls: &[Recorded],
    bytes: &mut Vec<u8>,
) -> Result<(), ReplayError>
    requires sound { IsComponent c.now }
    requires recordable { IsRecordable c.now }
    requires are { All (IsRecordedCallOf (exports_of c.now) (imports_of c.now)) (recorded_calls calls.now) }
    ensures writes { WritesFormat (recording c.now) (recorded_calls calls.now) bytes.old.items bytes.new.items result }
{
    match append(bytes, b"CNR1") {
        Ok(()) => put_calls(alloc, c, calls, bytes),
        Err(error) => Err(error),
    }
}

/// Adds calls by their number.
fn put_calls(
    alloc: Global,
    c: &Component,
    calls: &[Recorded],
    bytes: &mut Vec<u8>,
) -> Result<(), ReplayError>
    requires sound { IsComponent c.now }
    requires recordable { IsRecordable c.now }
    requires are { All (IsRecordedCallOf (exports_of c.now) (imports_of c.now)) (recorded_calls calls.now) }
    ensures writes { WritesFormat (counted_row 4 (a_call false (exports_of c.now) (imports_of c.now))) (recorded_calls calls.now) bytes.old.items bytes.new.items result }
{
    match put_count(bytes, calls.len()) {
        Ok(()) => put_call_row(alloc, c, calls, bytes),
        Err(error) => Err(error),
    }
}

fn put_call_row(
    alloc: Global,
    c: &Component,
    calls: &[Recorded],
    bytes: &mut Vec<u8>,
) -> Result<(), ReplayError>
    requires sound { IsComponent c.now }
    requires recordable { IsRecordable c.now }
    requires are { All (IsRecordedCallOf (exports_of c.now) (imports_of c.now)) (recorded_calls calls.now) }
    ensures writes { WritesFormat (in_a_row (a_call false (exports_of c.now) (imports_of c.now)) (length calls.now)) (recorded_calls calls.now) bytes.old.items bytes.new.items result }
{
    for call in calls {
        match put_call(alloc, c, call, bytes) {
            Ok(()) => {}
            Err(error) => return Err(error),
        }
    }
    Ok(())
}

/// Adds a call: its export, its parameters and results, and what was done in it.
fn put_call(
    alloc: Global,
    c: &Component,
    call: &Recorded,
    bytes: &mut Vec<u8>,
) -> Result<(), ReplayError>
    requires sound { IsComponent c.now }
    requires recordable { IsRecordable c.now }
    requires of { IsRecordedCallOf (exports_of c.now) (imports_of c.now) (recorded_call call.now) }
    ensures writes { WritesFormat (a_call false (exports_of c.now) (imports_of c.now)) (recorded_call call.now) bytes.old.items bytes.new.items result }
{
    match put_u32(bytes, call.export) {
        Ok(()) => put_known_call(alloc, c, call, bytes),
        Err(error) => Err(error),
    }
}

/// The same without the export's number.
fn put_known_call(
    alloc: Global,
    c: &Component,
    call: &Recorded,
    bytes: &mut Vec<u8>,
) -> Result<(), ReplayError>
    requires sound { IsComponent c.now }
    requires recordable { IsRecordable c.now }
    requires of { IsRecordedCallOf (exports_of c.now) (imports_of c.now) (recorded_call call.now) }
    ensures writes { WritesFormat (also (passed_values false (exports_of c.now) call.now.export) (what_was_done false (exports_of c.now) (imports_of c.now)))
        ((call.now.params.items, call.now.results.items), (call.now.events, served_asks call.now.served.items)) bytes.old.items bytes.new.items result }
{
    match put_export(
        alloc,
        c,
        call.export,
        call.params.as_slice(),
        call.results.as_slice(),
        bytes,
    ) {
        Ok(()) => put_done(alloc, c, call, bytes),
        Err(error) => Err(error),
    }
}

/// Adds what was done in a call: the guest's events, and the asks that were served.
fn put_done(
    alloc: Global,
    c: &Component,
    call: &Recorded,
    bytes: &mut Vec<u8>,
) -> Result<(), ReplayError>
    requires sound { IsComponent c.now }
    requires recordable { IsRecordable c.now }
    requires of { IsRecordedCallOf (exports_of c.now) (imports_of c.now) (recorded_call call.now) }
    ensures writes { WritesFormat (what_was_done false (exports_of c.now) (imports_of c.now)) (call.now.events, served_asks call.now.served.items) bytes.old.items bytes.new.items result }
{
    match put_events(bytes, call.events.as_slice(), import_count(c)) {
        Ok(()) => put_asks(alloc, c, call.served.as_slice(), bytes),
        Err(error) => Err(error),
    }
}

/// Adds asks by their number.
fn put_asks(
    alloc: Global,
    c: &Component,
    asks: &[Served],
    bytes: &mut Vec<u8>,
) -> Result<(), ReplayError>
    requires sound { IsComponent c.now }
    requires recordable { IsRecordable c.now }
    requires of { All (IsServedAskOf (imports_of c.now)) (served_asks asks.now) }
    ensures writes { WritesFormat (counted_row 4 (an_ask false (exports_of c.now) (imports_of c.now))) (served_asks asks.now) bytes.old.items bytes.new.items result }
{
    match put_count(bytes, asks.len()) {
        Ok(()) => put_ask_row(alloc, c, asks, bytes),
        Err(error) => Err(error),
    }
}

fn put_ask_row(
    alloc: Global,
    c: &Component,
    asks: &[Served],
    bytes: &mut Vec<u8>,
) -> Result<(), ReplayError>
    requires sound { IsComponent c.now }
    requires recordable { IsRecordable c.now }
    requires of { All (IsServedAskOf (imports_of c.now)) (served_asks asks.now) }
    ensures writes { WritesFormat (in_a_row (an_ask false (exports_of c.now) (imports_of c.now)) (length asks.now)) (served_asks asks.now) bytes.old.items bytes.new.items result }
{
    for ask in asks {
        match put_ask(alloc, c, ask, bytes) {
            Ok(()) => {}
            Err(error) => return Err(error),
        }
    }
    Ok(())
}

/// Adds an ask: its import, its parameters and its results.
fn put_ask(
    alloc: Global,
    c: &Component,
    ask: &Served,
    bytes: &mut Vec<u8>,
) -> Result<(), ReplayError>
    requires sound { IsComponent c.now }
    requires recordable { IsRecordable c.now }
    requires of { IsServedAskOf (imports_of c.now) (served_ask ask.now) }
    ensures writes { WritesFormat (an_ask false (exports_of c.now) (imports_of c.now)) (served_ask ask.now) bytes.old.items bytes.new.items result }
{
    match put_u32(bytes, ask.import) {
        Ok(()) => put_import(
            alloc,
            c,
            ask.import,
            ask.params.as_slice(),
            ask.results.as_slice(),
            bytes,
        ),
        Err(error) => Err(error),
    }
}

/// Adds the parameters and results of an export.
fn put_export(
    alloc: Global,
    c: &Component,
    export: u32,
    params: &[Val],
    results: &[Val],
    bytes: &mut Vec<u8>,
) -> Result<(), ReplayError>
    requires sound { IsComponent c.now }
    requires recordable { IsRecordable c.now }
    requires of { IsOfFunction (exports_of c.now) export params.now results.now }
    ensures writes { WritesFormat (passed_values false (exports_of c.now) export) (params.now, results.now) bytes.old.items bytes.new.items result }
{
    let func = export_type(c, export);
    put_passed(alloc, c, func, params, results, bytes)
}

/// Adds the parameters and results of an import.
fn put_import(
    alloc: Global,
    c: &Component,
    import: u32,
    params: &[Val],
    results: &[Val],
    bytes: &mut Vec<u8>,
) -> Result<(), ReplayError>
    requires sound { IsComponent c.now }
    requires recordable { IsRecordable c.now }
    requires of { IsOfFunction (imports_of c.now) import params.now results.now }
    ensures writes { WritesFormat (passed_values false (imports_of c.now) import) (params.now, results.now) bytes.old.items bytes.new.items result }
{
    let func = import_type(c, import);
    put_passed(alloc, c, func, params, results, bytes)
}

/// Adds the parameters and results of a function.
fn put_passed(
    alloc: Global,
    c: &Component,
    func: TypeFunc,
    params: &[Val],
    results: &[Val],
    bytes: &mut Vec<u8>,
) -> Result<(), ReplayError>
    requires over { IsOver c.now.types.types func }
    requires params { ArePlainValues (param_members c.now.types.types func) params.now }
    requires results { ArePlainValues (result_members c.now.types.types func) results.now }
    ensures writes { WritesFormat (also (values false (param_members c.now.types.types func)) (values false (result_members c.now.types.types func))) (params.now, results.now) bytes.old.items bytes.new.items result }
{
    match put_tuple(alloc, c, func.params, params, bytes) {
        Ok(()) => put_tuple(alloc, c, func.results, results, bytes),
        Err(error) => Err(error),
    }
}

/// Adds values of the types of a tuple.
fn put_tuple(
    alloc: Global,
    c: &Component,
    tuple: TypeTupleIndex,
    vals: &[Val],
    bytes: &mut Vec<u8>,
) -> Result<(), ReplayError>
    requires tuple { HasTuple c.now.types.types tuple }
    requires given { ArePlainValues (tuple_members c.now.types.types tuple) vals.now }
    ensures writes { WritesFormat (values false (tuple_members c.now.types.types tuple)) vals.now bytes.old.items bytes.new.items result }
{
    let types = c.types.types();
    let tys = types.tuple(tuple).types.as_slice();
    put_values(alloc, types, tys, vals, bytes)
}

fn put_values(
    alloc: Global,
    types: &ComponentTypes,
    tys: &[InterfaceType],
    vals: &[Val],
    bytes: &mut Vec<u8>,
) -> Result<(), ReplayError>
    requires known { All (Knows types.now) tys.now }
    requires count { length vals.now ≡ length tys.now }
    requires given { ArePlainValues (members_of types.now tys.now) vals.now }
    ensures writes { WritesFormat (values false (members_of types.now tys.now)) vals.now bytes.old.items bytes.new.items result }
{
    for k in 0..tys.len() {
        match put_value(alloc, types, &tys[k], &vals[k], bytes) {
            Ok(()) => {}
            Err(error) => return Err(error),
        }
    }
    Ok(())
}

/// Adds the image of a value, behind its length.
fn put_value(
    alloc: Global,
    types: &ComponentTypes,
    ty: &InterfaceType,
    val: &Val,
    bytes: &mut Vec<u8>,
) -> Result<(), ReplayError>
    requires known { Knows types.now ty.now }
    requires no_handle { HasNoHandle (shape_of types.now ty.now) }
    requires of { IsValueOf (shape_of types.now ty.now) val.now }
    ensures writes { WritesFormat (value false (shape_of types.now ty.now)) val.now bytes.old.items bytes.new.items result }
{
    match image(alloc, types, ty, val) {
        Ok(image) => put_bytes(bytes, image.as_slice()),
        // A value of the type has an image, so that only memory was short.
        Err(_) => Err(ReplayError::OutOfMemory),
    }
}
