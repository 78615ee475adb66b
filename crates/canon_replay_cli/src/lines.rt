//! The lines that tell how a replay ended.

ghost use Rattle.std.specs.Prelude.{◌≡◌, ◌++◌, ◌≤◌, ◌<◌, ◌^◌, Err, IfErr, IfOk, List, Ok, OnOk, Some, codes, length, string_bytes};
ghost use Rattle.serde_json.specs.View.{view};
ghost use Rattle.canon_json.specs.declared.error.ScriptError.TheVariants as refused;
ghost use Rattle.canon_context.specs.Component.{IsComponent};
ghost use Rattle.canon_recording.specs.Fits.{FitsComponent, IsRecordable};
ghost use Rattle.canon_recording.specs.Recordings.{calls_in};
ghost use Rattle.canon_replay.specs.Calls.{IsReplayed};
ghost use Rattle.canon_replay_cli.specs.Lines as spec;
ghost use Rattle.canon_replay_cli.specs.Replays.{IsNoReplayTask, IsReplayText, ReplayTask, replay_task_of};

use crate::scripted::Scripted;
use crate::scripts::scripted_of_json;
use canon_json::{ScriptError, bytes_of_json, has_len};
use canon_recording::{Recording, ReplayError, decode};
use canon_replay::{Outcome, replay};
use canon_value::Component;
use serde_json::Value;
use std::alloc::Global;

/// Reads the recording that a JSON value holds beside a script, makes its calls again, and gives a line for each up to the first that isn't as
/// it was recorded; or why the bytes are no recording. `BadScript` says that the value isn't of this form.
pub fn replay_lines(alloc: Global, v: &Value) -> Result<String, ScriptError>
    ensures done { IfOk result (λ text. (task : ReplayTask) × (replay_task_of (view v.now) ≡ Some task) × IsReplayText task (string_bytes text)) }
    ensures bad_script { result ≡ Err refused.BadScript → IsNoReplayTask (replay_task_of (view v.now)) }
{
    if !has_len(v, 2) {
        return Err(ScriptError::BadScript);
    }
    let Some(script) = v.get("script") else {
        return Err(ScriptError::BadScript);
    };
    let Some(hex) = v.get("hex") else {
        return Err(ScriptError::BadScript);
    };
    let bytes = bytes_of_json(alloc, hex)?;
    let scripted = scripted_of_json(alloc, script)?;
    lines_of(alloc, scripted, &bytes)
}

/// The lines of the recording of these bytes.
fn lines_of(alloc: Global, scripted: Scripted, bytes: &[u8]) -> Result<String, ScriptError>
    requires sound { IsComponent scripted.component }
    requires recordable { IsRecordable scripted.component }
    ensures lines { IfOk result (λ text. spec.IsToldOf scripted.component scripted.fuel scripted.turns bytes.now (string_bytes text)) }
    ensures memory { IfErr result (λ e. e ≡ refused.OutOfMemory) }
{
    let Scripted {
        component,
        fuel,
        turns,
        ..
    } = scripted;
    match decode(alloc, &component, bytes) {
        Ok(recording) => replayed_lines(alloc, component, recording, fuel, turns),
        Err(error) => error_line(alloc, error),
    }
}

/// The lines of a recording that was read.
fn replayed_lines(
    alloc: Global,
    component: Component,
    recording: Recording,
    fuel: u64,
    turns: u64,
) -> Result<String, ScriptError>
    requires sound { IsComponent component }
    requires recordable { IsRecordable component }
    requires fits { FitsComponent component (calls_in recording) }
    ensures lines { IfOk result (λ text. spec.IsReplayedText component (calls_in recording) fuel turns (string_bytes text)) }
    ensures memory { IfErr result (λ e. e ≡ refused.OutOfMemory) }
{
    let count = recording.calls.len() as u32;
    match replay(alloc, component, recording, fuel, turns) {
        Ok(outcome) => outcome_text(alloc, count, outcome),
        Err(_) => Err(ScriptError::OutOfMemory),
    }
}

/// The lines of an outcome, of a recording of so many calls.
fn outcome_text(alloc: Global, count: u32, outcome: Outcome) -> Result<String, ScriptError>
    ensures text { IfOk result (λ text. string_bytes text ≡ spec.outcome_text count outcome) }
    ensures memory { IfErr result (λ e. e ≡ refused.OutOfMemory) }
{
    match outcome {
        Outcome::Same => same_lines(alloc, count),
        Outcome::Differs { call, event } => {
            let mut text = same_lines(alloc, call)?;
            write!(text, "call {call} differs {event}\n")?;
            Ok(text)
        }
        Outcome::Unlawful { call, event } => {
            let mut text = same_lines(alloc, call)?;
            write!(text, "call {call} unlawful {event}\n")?;
            Ok(text)
        }
    }
}

/// A line for each of so many calls that are as they were recorded.
fn same_lines(alloc: Global, count: u32) -> Result<String, ScriptError>
    ensures text { IfOk result (λ text. string_bytes text ≡ spec.same_lines count) }
    ensures memory { IfErr result (λ e. e ≡ refused.OutOfMemory) }
{
    let mut text = String::new(alloc);
    for k in 0..count {
        write!(text, "call {k} same\n")?;
    }
    Ok(text)
}

/// `error`, and the name of this one with its place. For out of memory there is none.
fn error_line(alloc: Global, error: ReplayError) -> Result<String, ScriptError>
    ensures line { IfOk result (λ text. spec.replay_error_line error ≡ Some (string_bytes text)) }
    ensures memory { IfErr result (λ e. e ≡ refused.OutOfMemory) }
{
    match error {
        ReplayError::BadRecording(place) => Ok(format!(in alloc; "error BadRecording {place}\n")?),
        ReplayError::NotARun(call) => Ok(format!(in alloc; "error NotARun {call}\n")?),
        ReplayError::TooLong | ReplayError::OutOfMemory => Err(ScriptError::OutOfMemory),
    }
}
