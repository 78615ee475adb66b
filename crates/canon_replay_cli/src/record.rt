//! The bytes of the recording of a script.

ghost use Rattle.std.specs.Prelude.{◌≡◌, ◌⊎◌, ◌↔◌, Err, IfOk, List, None, Some, map};
ghost use Rattle.serde_json.specs.View.{view};
ghost use Rattle.canon_json.specs.declared.error.ScriptError.TheVariants as refused;
ghost use Rattle.canon_context.specs.Component.{IsComponent};
ghost use Rattle.canon_recording.specs.Fits.{FitsComponent, IsRecordable};
ghost use Rattle.canon_recording.specs.Recordings.{calls_in};
ghost use Rattle.canon_script.specs.Script.{Play, item_view, play_of, script_of};
ghost use Rattle.canon_player.specs.Session.{Session};
ghost use Rattle.canon_replay_cli.specs.Recorded.{IsPlayRecorded, IsPlayTooLong, IsRecordingOf, IsRecordingTooLong};
ghost use Rattle.canon_replay_cli.specs.Scripts.{IsNoRecordable, plain_script_of};
ghost use Rattle.canon_replay_cli.specs.declared.record.RecordError.TheVariants as error;

use crate::scripted::Scripted;
use crate::scripts::scripted_of_json;
use crate::taking::recording_of;
use canon_json::ScriptError;
use canon_player::play;
use canon_recording::{Recording, ReplayError, encode, fits};
use canon_script::script_of_json;
use canon_transcript::{Record, Transcript};
use canon_value::Component;
use serde_json::Value;
use std::alloc::Global;

/// Why a recording isn't written.
#[derive(Clone, Copy, Debug, PartialEq, Eq)]
pub enum RecordError {
    /// The JSON value is no script of calls that may be recorded.
    BadScript,
    /// The recording of what was played has more than 1,073,741,824 bytes.
    TooLong,
    /// Want of memory.
    OutOfMemory,
}

/// Plays the script of a JSON value, and gives the bytes of the recording of its calls that answered Ok, up to the first that didn't or whose
/// guest broke the law of `realloc` by order of the script.
pub fn record_bytes(alloc: Global, v: &Value) -> Result<Vec<u8>, RecordError>
    ensures done { IfOk result (λ bytes. (play : Play) × (plain_script_of (view v.now) ≡ Some play) × IsPlayRecorded play bytes.items) }
    ensures bad_script { result ≡ Err error.BadScript → IsNoRecordable (plain_script_of (view v.now)) }
    ensures too_long { result ≡ Err error.TooLong → (play : Play) × (plain_script_of (view v.now) ≡ Some play) × IsPlayTooLong play }
{
    let scripted = match scripted_of_json(alloc, v) {
        Ok(scripted) => scripted,
        Err(refusal) => return Err(error_of(refusal)),
    };
    let records = match records_of(alloc, v) {
        Ok(records) => records,
        Err(refusal) => return Err(error_of(refusal)),
    };
    let Scripted {
        component,
        items,
        ..
    } = scripted;
    match recording_of(alloc, items, records) {
        Ok(recording) => bytes_of(alloc, &component, &recording),
        Err(_) => Err(RecordError::OutOfMemory),
    }
}

/// What playing the script of a JSON value leaves.
fn records_of(alloc: Global, v: &Value) -> Result<Vec<Record>, ScriptError>
    ensures played { IfOk result (λ records. (play : Play) × (script_of (view v.now) ≡ Some play) × Session play records.items) }
    ensures bad_script { result ≡ Err refused.BadScript → script_of (view v.now) ≡ None }
{
    let script = script_of_json(alloc, v)?;
    let mut transcript = Transcript::new(alloc);
    match play(alloc, script, &mut transcript) {
        Ok(()) => Ok(transcript.into_records()),
        Err(_) => Err(ScriptError::OutOfMemory),
    }
}

/// The bytes of a recording, if it is one of the component.
fn bytes_of(alloc: Global, c: &Component, r: &Recording) -> Result<Vec<u8>, RecordError>
    requires sound { IsComponent c.now }
    requires recordable { IsRecordable c.now }
    ensures written { IfOk result (λ bytes. IsRecordingOf c.now (calls_in r.now) bytes.items) }
    ensures too_long { result ≡ Err error.TooLong → (¬ FitsComponent c.now (calls_in r.now)) ⊎ IsRecordingTooLong c.now (calls_in r.now) }
    ensures no_other { ¬ (result ≡ Err error.BadScript) }
{
    match fits(alloc, c, r) {
        Ok(true) => {}
        Ok(false) => return Err(RecordError::TooLong),
        Err(_) => return Err(RecordError::OutOfMemory),
    }
    match encode(alloc, c, r) {
        Ok(bytes) => Ok(bytes),
        Err(ReplayError::TooLong) => Err(RecordError::TooLong),
        Err(_) => Err(RecordError::OutOfMemory),
    }
}

/// Why a script isn't read, as a recording that isn't written.
fn error_of(refusal: ScriptError) -> RecordError
    ensures bad_script { (result ≡ error.BadScript) ↔ (refusal ≡ refused.BadScript) }
    ensures no_other { ¬ (result ≡ error.TooLong) }
{
    match refusal {
        ScriptError::BadScript => RecordError::BadScript,
        ScriptError::OutOfMemory => RecordError::OutOfMemory,
    }
}
