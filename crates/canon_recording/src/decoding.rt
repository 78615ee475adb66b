//! A recording read from its bytes, field by field.

ghost use Rattle.std.specs.Prelude.{◌<◌, ◌≡◌, ◌≤◌, ◌++◌, ◌∷◌, [], All, IfErr, IfOk, OnOk, length, true};
ghost use Rattle.canon_context.specs.Component.{IsComponent};
ghost use Rattle.canon_types.specs.Table.{HasTuple, IsOver, Knows, members_of, param_members, result_members, shape_of, tuple_members};
ghost use Rattle.canon_plan.specs.NoHandle.{HasNoHandle, HaveNoHandle};
ghost use Rattle.canon_recording_parts.specs.Format.{also, counted_row, exactly, in_a_row};
ghost use Rattle.canon_recording_parts.specs.Read.{ReadsFormat, seen_as};
ghost use Rattle.canon_recording.specs.Coded.{IsDecoded, IsOnlyDecoding, IsReadWhole, told_as};
ghost use Rattle.canon_recording.specs.Fits.{FitsComponent, IsRecordable};
ghost use Rattle.canon_recording.specs.Recordings.{a_call, an_ask, calls_in, done_in, exports_of, imports_of, letters, passed_in, passed_values, read_recording, recorded_call, recorded_calls, served_ask, served_asks, value, values, what_was_done};

use crate::functions::{export_count, export_type, import_count, import_type};
use crate::runs::first_no_run;
use crate::{Recorded, Recording, ReplayError, Served};
use canon_context::Component;
use canon_image::{ImageError, read_image};
use canon_memory::Events;
use canon_recording_parts::{read_below, read_bytes, read_events, read_u32};
use canon_types::{ComponentTypes, InterfaceType, TypeFunc, TypeTupleIndex};
use canon_val::Val;
use std::alloc::Global;

/// The recording of a component whose bytes these are. Answers `BadRecording` at the first field that is cut off or spells nothing, the
/// number of an export or an import that the component lacks included, or where more follows a recording; and `NotARun` with the number of
/// the first call whose events aren't a run of its export, or in which a memory is longer than 2^32 bytes or shorter than one before it.
pub fn decode(alloc: Global, c: &Component, bytes: &[u8]) -> Result<Recording, ReplayError>
    requires sound { IsComponent c.now }
    requires recordable { IsRecordable c.now }
    ensures is { IsDecoded c.now bytes.now result }
    ensures fits { IfOk result (λ r. FitsComponent c.now (calls_in r)) }
    ensures only { IsOnlyDecoding c.now bytes.now result }
{
    decode_runs(alloc, c, bytes)
}

/// The same, as far as `is` says.
fn decode_runs(alloc: Global, c: &Component, bytes: &[u8]) -> Result<Recording, ReplayError>
    requires sound { IsComponent c.now }
    requires recordable { IsRecordable c.now }
    ensures is { IsDecoded c.now bytes.now result }
{
    match read_whole(alloc, c, bytes) {
        Ok(calls) => match first_no_run(c, calls.as_slice()) {
            Some(call) => Err(ReplayError::NotARun(call)),
            None => Ok(Recording { calls }),
        },
        Err(error) => Err(error),
    }
}

/// The calls, where nothing follows them.
fn read_whole(alloc: Global, c: &Component, bytes: &[u8]) -> Result<Vec<Recorded>, ReplayError>
    requires sound { IsComponent c.now }
    requires recordable { IsRecordable c.now }
    ensures is { IsReadWhole c.now bytes.now (seen_as (λ calls. recorded_calls calls.items) result) }
{
    let len = bytes.len() as u64;
    let mut at = 0;
    match read_recording(alloc, c, bytes, &mut at) {
        Ok(calls) => {
            if at < len {
                return Err(ReplayError::BadRecording(at));
            }
            Ok(calls)
        }
        Err(error) => Err(error),
    }
}

fn read_recording(
    alloc: Global,
    c: &Component,
    bytes: &[u8],
    at: &mut u64,
) -> Result<Vec<Recorded>, ReplayError>
    requires sound { IsComponent c.now }
    requires recordable { IsRecordable c.now }
    requires inside { at.old ≤ length bytes.now }
    ensures reads { ReadsFormat (read_recording c.now) bytes.now at.old at.new (seen_as (λ calls. recorded_calls calls.items) result) }
{
    match read_letters(bytes, at) {
        Ok(()) => read_calls(alloc, c, bytes, at),
        Err(error) => Err(error),
    }
}

/// The letters CNR1.
fn read_letters(bytes: &[u8], at: &mut u64) -> Result<(), ReplayError>
    requires inside { at.old ≤ length bytes.now }
    ensures reads { ReadsFormat (exactly letters) bytes.now at.old at.new result }
{
    let letters = 0x3152_4E43; // the lowest byte first
    let start = *at;
    match read_u32(bytes, at) {
        Ok(number) => {
            if number == letters {
                Ok(())
            } else {
                Err(ReplayError::BadRecording(start))
            }
        }
        Err(error) => Err(error),
    }
}

/// Calls, by their number.
fn read_calls(
    alloc: Global,
    c: &Component,
    bytes: &[u8],
    at: &mut u64,
) -> Result<Vec<Recorded>, ReplayError>
    requires sound { IsComponent c.now }
    requires recordable { IsRecordable c.now }
    requires inside { at.old ≤ length bytes.now }
    ensures reads { ReadsFormat (counted_row 4 (a_call true (exports_of c.now) (imports_of c.now))) bytes.now at.old at.new (seen_as (λ calls. recorded_calls calls.items) result) }
{
    match read_u32(bytes, at) {
        Ok(count) => read_call_row(alloc, c, bytes, at, count),
        Err(error) => Err(error),
    }
}

fn read_call_row(
    alloc: Global,
    c: &Component,
    bytes: &[u8],
    at: &mut u64,
    count: u32,
) -> Result<Vec<Recorded>, ReplayError>
    requires sound { IsComponent c.now }
    requires recordable { IsRecordable c.now }
    requires inside { at.old ≤ length bytes.now }
    ensures reads { ReadsFormat (in_a_row (a_call true (exports_of c.now) (imports_of c.now)) count) bytes.now at.old at.new (seen_as (λ calls. recorded_calls calls.items) result) }
{
    let mut calls = Vec::new(alloc);
    for _ in 0..count {
        match read_call(alloc, c, bytes, at) {
            Ok(call) => match keep(&mut calls, call) {
                Ok(()) => {}
                Err(error) => return Err(error),
            },
            Err(error) => return Err(error),
        }
    }
    Ok(calls)
}

/// A call: its export, its parameters and results, and what was done in it.
fn read_call(
    alloc: Global,
    c: &Component,
    bytes: &[u8],
    at: &mut u64,
) -> Result<Recorded, ReplayError>
    requires sound { IsComponent c.now }
    requires recordable { IsRecordable c.now }
    requires inside { at.old ≤ length bytes.now }
    ensures reads { ReadsFormat (a_call true (exports_of c.now) (imports_of c.now)) bytes.now at.old at.new (seen_as recorded_call result) }
{
    match read_below(bytes, at, export_count(c)) {
        Ok(export) => match read_known_call(alloc, c, export, bytes, at) {
            Ok((passed, done)) => Ok(Recorded {
                export,
                params: passed.0,
                events: done.0,
                served: done.1,
                results: passed.1,
            }),
            Err(error) => Err(error),
        },
        Err(error) => Err(error),
    }
}

/// A call without its export.
fn read_known_call(
    alloc: Global,
    c: &Component,
    export: u32,
    bytes: &[u8],
    at: &mut u64,
) -> Result<((Vec<Val>, Vec<Val>), (Events, Vec<Served>)), ReplayError>
    requires sound { IsComponent c.now }
    requires recordable { IsRecordable c.now }
    requires known { export < length c.now.exports.items }
    requires inside { at.old ≤ length bytes.now }
    ensures reads { ReadsFormat (also (passed_values true (exports_of c.now) export) (what_was_done true (exports_of c.now) (imports_of c.now))) bytes.now at.old at.new
        (seen_as (λ x. (passed_in x.0, done_in x.1)) result) }
{
    match read_export(alloc, c, export, bytes, at) {
        Ok(passed) => match read_done(alloc, c, bytes, at) {
            Ok(done) => Ok((passed, done)),
            Err(error) => Err(error),
        },
        Err(error) => Err(error),
    }
}

/// What was done in a call: the guest's events, and the asks that were served.
fn read_done(
    alloc: Global,
    c: &Component,
    bytes: &[u8],
    at: &mut u64,
) -> Result<(Events, Vec<Served>), ReplayError>
    requires sound { IsComponent c.now }
    requires recordable { IsRecordable c.now }
    requires inside { at.old ≤ length bytes.now }
    ensures reads { ReadsFormat (what_was_done true (exports_of c.now) (imports_of c.now)) bytes.now at.old at.new (seen_as done_in result) }
{
    match read_events(alloc, bytes, at, import_count(c)) {
        Ok(events) => match read_asks(alloc, c, bytes, at) {
            Ok(served) => Ok((events, served)),
            Err(error) => Err(error),
        },
        Err(error) => Err(error),
    }
}

/// Asks, by their number.
fn read_asks(
    alloc: Global,
    c: &Component,
    bytes: &[u8],
    at: &mut u64,
) -> Result<Vec<Served>, ReplayError>
    requires sound { IsComponent c.now }
    requires recordable { IsRecordable c.now }
    requires inside { at.old ≤ length bytes.now }
    ensures reads { ReadsFormat (counted_row 4 (an_ask true (exports_of c.now) (imports_of c.now))) bytes.now at.old at.new (seen_as (λ asks. served_asks asks.items) result) }
{
    match read_u32(bytes, at) {
        Ok(count) => read_ask_row(alloc, c, bytes, at, count),
        Err(error) => Err(error),
    }
}

fn read_ask_row(
    alloc: Global,
    c: &Component,
    bytes: &[u8],
    at: &mut u64,
    count: u32,
) -> Result<Vec<Served>, ReplayError>
    requires sound { IsComponent c.now }
    requires recordable { IsRecordable c.now }
    requires inside { at.old ≤ length bytes.now }
    ensures reads { ReadsFormat (in_a_row (an_ask true (exports_of c.now) (imports_of c.now)) count) bytes.now at.old at.new (seen_as (λ asks. served_asks asks.items) result) }
{
    let mut asks = Vec::new(alloc);
    for _ in 0..count {
        match read_ask(alloc, c, bytes, at) {
            Ok(ask) => match keep(&mut asks, ask) {
                Ok(()) => {}
                Err(error) => return Err(error),
            },
            Err(error) => return Err(error),
        }
    }
    Ok(asks)
}

/// An ask: its import, its parameters and its results.
fn read_ask(alloc: Global, c: &Component, bytes: &[u8], at: &mut u64) -> Result<Served, ReplayError>
    requires sound { IsComponent c.now }
    requires recordable { IsRecordable c.now }
    requires inside { at.old ≤ length bytes.now }
    ensures reads { ReadsFormat (an_ask true (exports_of c.now) (imports_of c.now)) bytes.now at.old at.new (seen_as served_ask result) }
{
    match read_below(bytes, at, import_count(c)) {
        Ok(import) => match read_import(alloc, c, import, bytes, at) {
            Ok((params, results)) => Ok(Served {
                import,
                params,
                results,
            }),
            Err(error) => Err(error),
        },
        Err(error) => Err(error),
    }
}

/// The parameters and results of an export.
fn read_export(
    alloc: Global,
    c: &Component,
    export: u32,
    bytes: &[u8],
    at: &mut u64,
) -> Result<(Vec<Val>, Vec<Val>), ReplayError>
    requires sound { IsComponent c.now }
    requires recordable { IsRecordable c.now }
    requires known { export < length c.now.exports.items }
    requires inside { at.old ≤ length bytes.now }
    ensures reads { ReadsFormat (passed_values true (exports_of c.now) export) bytes.now at.old at.new (seen_as passed_in result) }
{
    let func = export_type(c, export);
    read_passed(alloc, c, func, bytes, at)
}

/// The parameters and results of an import.
fn read_import(
    alloc: Global,
    c: &Component,
    import: u32,
    bytes: &[u8],
    at: &mut u64,
) -> Result<(Vec<Val>, Vec<Val>), ReplayError>
    requires sound { IsComponent c.now }
    requires recordable { IsRecordable c.now }
    requires known { import < length c.now.imports.items }
    requires inside { at.old ≤ length bytes.now }
    ensures reads { ReadsFormat (passed_values true (imports_of c.now) import) bytes.now at.old at.new (seen_as passed_in result) }
{
    let func = import_type(c, import);
    read_passed(alloc, c, func, bytes, at)
}

/// The parameters and results of a function.
fn read_passed(
    alloc: Global,
    c: &Component,
    func: TypeFunc,
    bytes: &[u8],
    at: &mut u64,
) -> Result<(Vec<Val>, Vec<Val>), ReplayError>
    requires over { IsOver c.now.types.types func }
    requires params { HaveNoHandle (param_members c.now.types.types func) }
    requires results { HaveNoHandle (result_members c.now.types.types func) }
    requires inside { at.old ≤ length bytes.now }
    ensures reads { ReadsFormat (also (values true (param_members c.now.types.types func)) (values true (result_members c.now.types.types func))) bytes.now at.old at.new (seen_as passed_in result) }
{
    match read_tuple(alloc, c, func.params, bytes, at) {
        Ok(params) => match read_tuple(alloc, c, func.results, bytes, at) {
            Ok(results) => Ok((params, results)),
            Err(error) => Err(error),
        },
        Err(error) => Err(error),
    }
}

/// Values of the types of a tuple.
fn read_tuple(
    alloc: Global,
    c: &Component,
    tuple: TypeTupleIndex,
    bytes: &[u8],
    at: &mut u64,
) -> Result<Vec<Val>, ReplayError>
    requires tuple { HasTuple c.now.types.types tuple }
    requires no_handle { HaveNoHandle (tuple_members c.now.types.types tuple) }
    requires inside { at.old ≤ length bytes.now }
    ensures reads { ReadsFormat (values true (tuple_members c.now.types.types tuple)) bytes.now at.old at.new (seen_as (λ vals. vals.items) result) }
{
    let types = c.types.types();
    let tys = types.tuple(tuple).types.as_slice();
    read_values(alloc, types, tys, bytes, at)
}

fn read_values(
    alloc: Global,
    types: &ComponentTypes,
    tys: &[InterfaceType],
    bytes: &[u8],
    at: &mut u64,
) -> Result<Vec<Val>, ReplayError>
    requires known { All (Knows types.now) tys.now }
    requires no_handle { HaveNoHandle (members_of types.now tys.now) }
    requires inside { at.old ≤ length bytes.now }
    ensures reads { ReadsFormat (values true (members_of types.now tys.now)) bytes.now at.old at.new (seen_as (λ vals. vals.items) result) }
{
    let mut vals = Vec::new(alloc);
    for ty in tys {
        match read_value(alloc, types, ty, bytes, at) {
            Ok(val) => match keep(&mut vals, val) {
                Ok(()) => {}
                Err(error) => return Err(error),
            },
            Err(error) => return Err(error),
        }
    }
    Ok(vals)
}

/// A value, by the length of its image. The image is one field.
fn read_value(
    alloc: Global,
    types: &ComponentTypes,
    ty: &InterfaceType,
    bytes: &[u8],
    at: &mut u64,
) -> Result<Val, ReplayError>
    requires known { Knows types.now ty.now }
    requires no_handle { HasNoHandle (shape_of types.now ty.now) }
    requires inside { at.old ≤ length bytes.now }
    ensures reads { ReadsFormat (value true (shape_of types.now ty.now)) bytes.now at.old at.new result }
{
    match read_bytes(bytes, at) {
        Ok(image) => match read_image(alloc, types, ty, image) {
            Ok(val) => Ok(val),
            Err(error) => {
                let start = (*at).saturating_sub(image.len() as u64);
                Err(told_as(error, start))
            }
        },
        Err(error) => Err(error),
    }
}

/// How an image is told that can't be read, by where it begins.
fn told_as(error: ImageError, start: u64) -> ReplayError
    ensures { result ≡ told_as start error }
{
    match error {
        ImageError::OutOfMemory => ReplayError::OutOfMemory,
        _ => ReplayError::BadRecording(start),
    }
}

fn keep<T: Drop>(items: &mut Vec<T>, item: T) -> Result<(), ReplayError>
    ensures ok { OnOk result (items.new.items ≡ items.old.items ++ item ∷ []) }
    ensures err { IfErr result (λ e. e ≡ ReplayError.OutOfMemory) }
{
    match items.push(item) {
        Ok(()) => Ok(()),
        Err(_) => Err(ReplayError::OutOfMemory),
    }
}
