//! Reads the text conversions of the command `text` from a JSON value.

ghost use Rattle.std.specs.Prelude.{◌≡◌, ◌≤◌, ◌++◌, [], map, false, codes, Some, option_map};
ghost use Rattle.std.specs.Option.{option_map_or};
ghost use Rattle.serde_json.specs.Find.{as_bool, get};
ghost use Rattle.serde_json.specs.View.{view, items_view};
ghost use Rattle.canon_conversions.specs.Conversions as spec;
ghost use Rattle.canon_json.specs.Hex.{bytes_of};
ghost use Rattle.canon_json.specs.Json.{ReadsAs, word_of};

use crate::conversion::{CALLS, Conversion, TextCall};
use canon_json::{Reader, ScriptError, bool_or, bytes_of_json, each_of, has_len, there};
use serde_json::Value;
use std::alloc::Global;

/// The most bytes of a destination.
const MAX_ROOM: u64 = 1 << 20;

/// The conversions that a JSON value asks for.
pub(crate) fn conversions_of(alloc: Global, v: &Value) -> Result<Vec<Conversion>, ScriptError>
    ensures { ReadsAs (λ cs. map spec.job_of cs.items) result (spec.conversions_of (view v.now)) }
{
    if !has_len(v, 1) {
        return Err(ScriptError::BadScript);
    }
    each_of(alloc, &Conversions, v.get("text"))
}

/// Reads conversions.
struct Conversions;

impl Reader for Conversions {
    type Item = Conversion;

    ghost Seen = { spec.Job };

    ghost seen = { spec.job_of };

    ghost reads = { λ _. spec.conversion_of };

    fn read(&self, alloc: Global, v: &Value) -> Result<Conversion, ScriptError> {
        conversion_of(alloc, v)
    }
}

fn conversion_of(alloc: Global, v: &Value) -> Result<Conversion, ScriptError>
    ensures { ReadsAs spec.job_of result (spec.conversion_of (view v.now)) }
{
    if !has_len(v, 3 + optional_conversion_members(v)) {
        return Err(ScriptError::BadScript);
    }
    let Some(call) = v.get("fn").and_then(text_call_of) else {
        return Err(ScriptError::BadScript);
    };
    let Some(room) = v.get("room").and_then(Value::as_u64) else {
        return Err(ScriptError::BadScript);
    };
    let Some(first) = bool_or(v.get("first"), false) else {
        return Err(ScriptError::BadScript);
    };
    let Some(so_far) = so_far_of(v) else {
        return Err(ScriptError::BadScript);
    };
    with_bytes(alloc, v, call, room, first, so_far)
}

fn optional_conversion_members(v: &Value) -> usize
    ensures { result ≡ spec.optional_conversion_members (view v.now) }
{
    there(v.get("dst")) + (there(v.get("first")) + there(v.get("so_far")))
}

fn so_far_of(v: &Value) -> Option<u64>
    ensures { result ≡ option_map_or word_of (get (codes "so_far") (view v.now)) (Some 0) }
{
    match v.get("so_far") {
        Some(so_far) => so_far.as_u64(),
        None => Some(0),
    }
}

// With a call and its numbers, the source and the destination's front.
fn with_bytes(
    alloc: Global,
    v: &Value,
    call: TextCall,
    room: u64,
    first: bool,
    so_far: u64,
) -> Result<Conversion, ScriptError>
    ensures { ReadsAs spec.job_of result (spec.with_bytes (view v.now) call room first so_far) }
{
    let Some(src) = v.get("src") else {
        return Err(ScriptError::BadScript);
    };
    let src = bytes_of_json(alloc, src)?;
    let dst = dst_of(alloc, v)?;
    let len = dst.len() as u64;
    if room <= MAX_ROOM && len <= room && call.is_allowed(src.len() as u64, room, so_far) {
        Ok(Conversion {
            call,
            src,
            room,
            dst,
            first,
            so_far,
        })
    } else {
        Err(ScriptError::BadScript)
    }
}

fn dst_of(alloc: Global, v: &Value) -> Result<Vec<u8>, ScriptError>
    ensures { ReadsAs (λ bytes. bytes.items) result (option_map_or bytes_of (get (codes "dst") (view v.now)) (Some [])) }
{
    match v.get("dst") {
        Some(dst) => bytes_of_json(alloc, dst),
        None => Ok(Vec::new(alloc)),
    }
}

fn text_call_of(v: &Value) -> Option<TextCall>
    ensures { result ≡ spec.text_call_of (view v.now) }
{
    call_among(&CALLS, v.as_str()?)
}

// The call among these that has the name.
fn call_among(calls: &[TextCall], name: &str) -> Option<TextCall>
    ensures { result ≡ spec.call_among calls.now name.now }
{
    for call in calls {
        if call.is_named(name) {
            return Some(*call);
        }
    }
    None
}
