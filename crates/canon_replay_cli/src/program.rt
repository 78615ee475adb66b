//! The whole program `canon_replay`: reads a JSON value, and writes a recording, or what became of one.

ghost use Rattle.std.specs.Prelude.{◌≡◌, ◌⊎◌, ◌↔◌, Err, IfErr, IfOk, IfSome, List, None, ℕ};
ghost use Rattle.std.specs.Io.KnownBytes.{Appends};
ghost use Rattle.serde_json.specs.View.{view};
ghost use Rattle.canon_memory.specs.Counts.{Rose};
ghost use Rattle.canon_cli.specs.Program.{IsRefusedStatus, OnTold, ReadsNoJson, ReadsTooMuch, max_input, most_taken};
ghost use Rattle.canon_cli.specs.Streams.{AppendsPrefix, TakesAtMost};
ghost use Rattle.canon_replay_cli.specs.Program.{AnswersReplay, IsDoneBy, IsDoneOf, IsNoTaskOf, IsReplayStatus, IsTaskOf, IsTooLongOf, ReadsOther, ReadsTooLong, replay_command_of};

use crate::command::{ReplayCommand, replay_command_of};
use crate::lines::replay_lines;
use crate::record::{RecordError, record_bytes};
use canon_cli::{ScriptError, Sink, Source, Status, read_json, write_all};
use serde_json::Value;
use std::alloc::Global;

/// The script was played, and its recording isn't written, since it has more than 1,073,741,824 bytes.
pub const NOT_RECORDED: Status = Status(9);

/// Does what the words of the command line say. `record` plays the script that the source holds, and writes the recording of its calls to the
/// sink; `replay` makes the calls of the recording that the source holds beside a script again, and writes a line for each.
pub fn replay_run<S: Source, K: Sink>(
    alloc: Global,
    words: &[String],
    source: &mut S,
    sink: &mut K,
) -> Status
    // At 2, which comes exactly where the words are no command, nothing was read.
    ensures usage { (result ≡ Status.USAGE) ↔ (replay_command_of words.now ≡ None) }
    ensures unread { result ≡ Status.USAGE → source.new ≡ source.old }

    // At 0 the source was read to its end, what was read was done, and the sink took what that gives; at 4 a prefix of it.
    ensures done { IfSome (replay_command_of words.now) (λ asked. result ≡ Status.DONE → (bytes : List ℕ)
        × IsDoneBy asked (S.left source.old) (S.left source.new) bytes × Appends (K.taken sink.old) (K.taken sink.new) bytes) }
    ensures write_fault { IfSome (replay_command_of words.now) (λ asked. result ≡ Status.WRITE_FAULT → (bytes : List ℕ)
        × IsDoneBy asked (S.left source.old) (S.left source.new) bytes × AppendsPrefix (K.taken sink.old) (K.taken sink.new) bytes
        × Rose (K.faults sink.old) (K.faults sink.new)) }

    // At 9, of `record` alone, the script was played, and its recording is too long: nothing is written.
    ensures not_recorded { IfSome (replay_command_of words.now) (λ asked. result.0 ≡ 9 → ReadsTooLong asked (S.left source.old) (S.left source.new)) }
    ensures unwritten { result.0 ≡ 9 → sink.new ≡ sink.old }

    // The others, each with its cause but 5, leave the sink as it was. 3 and 4 come exactly where the source or the sink
    // failed: at every other status their counts of faults stand still.
    ensures memory { result ≡ Status.MEMORY → sink.new ≡ sink.old }
    ensures refused { IsRefusedStatus result → sink.new ≡ sink.old }
    ensures read_fault { result ≡ Status.READ_FAULT → Rose (S.faults source.old) (S.faults source.new) }
    ensures no_read_fault { ¬ (result ≡ Status.READ_FAULT) → S.faults source.new ≡ S.faults source.old }
    ensures no_write_fault { ¬ (result ≡ Status.WRITE_FAULT) → K.faults sink.new ≡ K.faults sink.old }
    ensures too_long { result ≡ Status.TOO_LONG → ReadsTooMuch (S.left source.old) (S.left source.new) }
    ensures not_json { result ≡ Status.NOT_JSON → ReadsNoJson (S.left source.old) (S.left source.new) }
    ensures bad_script { IfSome (replay_command_of words.now) (λ asked. result ≡ Status.BAD_SCRIPT → ReadsOther asked (S.left source.old) (S.left source.new)) }

    // Where no read fails an input is answered for what it is, or memory runs out; no more of it is taken than an input may
    // have, or the answer says so or is 5, and then no more than one read beyond. Of a source whose bytes aren't known nothing is said.
    ensures answers { IfSome (replay_command_of words.now) (λ asked. ¬ Rose (S.faults source.old) (S.faults source.new)
        → OnTold (S.left source.old) (λ input. AnswersReplay asked input result)) }
    ensures taken { ¬ (result ≡ Status.TOO_LONG) → ¬ (result ≡ Status.MEMORY) → TakesAtMost max_input (S.left source.old) (S.left source.new) }
    ensures most { TakesAtMost most_taken (S.left source.old) (S.left source.new) }

    // All is written, or memory ran out, or a recording is too long, where nothing failed.
    ensures complete { IfSome (replay_command_of words.now) (λ asked. ¬ Rose (S.faults source.old) (S.faults source.new) → ¬ Rose (K.faults sink.old) (K.faults sink.new)
        → OnTold (S.left source.old) (λ input. IsTaskOf asked input → (result.0 ≡ 0) ⊎ ((result.0 ≡ 5) ⊎ (result.0 ≡ 9)))) }
    ensures no_other { IsReplayStatus result }

    // Each status is its number.
    ensures numbers { (result ≡ Status.DONE → result.0 ≡ 0) × (result ≡ Status.USAGE → result.0 ≡ 2) × (result ≡ Status.READ_FAULT → result.0 ≡ 3)
        × (result ≡ Status.WRITE_FAULT → result.0 ≡ 4) × (result ≡ Status.MEMORY → result.0 ≡ 5) × (result ≡ Status.TOO_LONG → result.0 ≡ 6)
        × (result ≡ Status.NOT_JSON → result.0 ≡ 7) × (result ≡ Status.BAD_SCRIPT → result.0 ≡ 8) }
{
    match replay_command_of(words) {
        Some(asked) => answer_input(alloc, asked, source, sink),
        None => Status::USAGE,
    }
}

/// Reads what a source holds, does what the command says, and writes what that gives.
fn answer_input<S: Source, K: Sink>(
    alloc: Global,
    asked: ReplayCommand,
    source: &mut S,
    sink: &mut K,
) -> Status
    ensures done { result ≡ Status.DONE → (bytes : List ℕ)
        × IsDoneBy asked (S.left source.old) (S.left source.new) bytes × Appends (K.taken sink.old) (K.taken sink.new) bytes }
    ensures write_fault { result ≡ Status.WRITE_FAULT → (bytes : List ℕ)
        × IsDoneBy asked (S.left source.old) (S.left source.new) bytes × AppendsPrefix (K.taken sink.old) (K.taken sink.new) bytes
        × Rose (K.faults sink.old) (K.faults sink.new) }
    ensures not_recorded { result.0 ≡ 9 → ReadsTooLong asked (S.left source.old) (S.left source.new) }
    ensures unwritten { result.0 ≡ 9 → sink.new ≡ sink.old }
    ensures memory { result ≡ Status.MEMORY → sink.new ≡ sink.old }
    ensures refused { IsRefusedStatus result → sink.new ≡ sink.old }
    ensures read_fault { result ≡ Status.READ_FAULT → Rose (S.faults source.old) (S.faults source.new) }
    ensures no_read_fault { ¬ (result ≡ Status.READ_FAULT) → S.faults source.new ≡ S.faults source.old }
    ensures no_write_fault { ¬ (result ≡ Status.WRITE_FAULT) → K.faults sink.new ≡ K.faults sink.old }
    ensures too_long { result ≡ Status.TOO_LONG → ReadsTooMuch (S.left source.old) (S.left source.new) }
    ensures not_json { result ≡ Status.NOT_JSON → ReadsNoJson (S.left source.old) (S.left source.new) }
    ensures bad_script { result ≡ Status.BAD_SCRIPT → ReadsOther asked (S.left source.old) (S.left source.new) }
    ensures taken { ¬ (result ≡ Status.TOO_LONG) → ¬ (result ≡ Status.MEMORY) → TakesAtMost max_input (S.left source.old) (S.left source.new) }
    ensures most { TakesAtMost most_taken (S.left source.old) (S.left source.new) }
    ensures no_other { IsReplayStatus result }
    ensures used { ¬ (result ≡ Status.USAGE) }
{
    let bytes = match bytes_of_input(alloc, asked, source) {
        Ok(bytes) => bytes,
        Err(status) => return status,
    };
    match write_all(sink, &bytes) {
        Ok(()) => Status::DONE,
        Err(status) => status,
    }
}

/// Reads what a source holds, does what the command says, and gives what is to be written.
fn bytes_of_input<S: Source>(
    alloc: Global,
    asked: ReplayCommand,
    source: &mut S,
) -> Result<Vec<u8>, Status>
    ensures done { IfOk result (λ bytes. IsDoneBy asked (S.left source.old) (S.left source.new) bytes.items) }
    ensures not_recorded { result ≡ Err NOT_RECORDED → ReadsTooLong asked (S.left source.old) (S.left source.new) }
    ensures taken { result ≡ Err Status.READ_FAULT → TakesAtMost max_input (S.left source.old) (S.left source.new) }
    ensures most { TakesAtMost most_taken (S.left source.old) (S.left source.new) }
    ensures read_fault { result ≡ Err Status.READ_FAULT → Rose (S.faults source.old) (S.faults source.new) }
    ensures no_read_fault { ¬ (result ≡ Err Status.READ_FAULT) → S.faults source.new ≡ S.faults source.old }
    ensures too_long { result ≡ Err Status.TOO_LONG → ReadsTooMuch (S.left source.old) (S.left source.new) }
    ensures not_json { result ≡ Err Status.NOT_JSON → ReadsNoJson (S.left source.old) (S.left source.new) }
    ensures bad_script { result ≡ Err Status.BAD_SCRIPT → ReadsOther asked (S.left source.old) (S.left source.new) }
    ensures no_other { IfErr result (λ s. (s ≡ Status.READ_FAULT) ⊎ ((s ≡ Status.MEMORY) ⊎ ((s ≡ Status.TOO_LONG) ⊎ ((s ≡ Status.NOT_JSON) ⊎ ((s ≡ Status.BAD_SCRIPT) ⊎ (s ≡ NOT_RECORDED)))))) }
{
    let tree = match read_json(alloc, source) {
        Ok(tree) => tree,
        Err(status) => return Err(status),
    };
    match asked {
        ReplayCommand::Record => recorded(alloc, &tree),
        ReplayCommand::Replay => replayed(alloc, &tree),
    }
}

/// The recording of the script of a JSON value.
fn recorded(alloc: Global, tree: &Value) -> Result<Vec<u8>, Status>
    ensures done { IfOk result (λ bytes. IsDoneOf ReplayCommand.Record (view tree.now) bytes.items) }
    ensures not_recorded { result ≡ Err NOT_RECORDED → IsTooLongOf ReplayCommand.Record (view tree.now) }
    ensures bad_script { result ≡ Err Status.BAD_SCRIPT → IsNoTaskOf ReplayCommand.Record (view tree.now) }
    ensures no_other { IfErr result (λ s. (s ≡ Status.MEMORY) ⊎ ((s ≡ Status.BAD_SCRIPT) ⊎ (s ≡ NOT_RECORDED))) }
{
    match record_bytes(alloc, tree) {
        Ok(bytes) => Ok(bytes),
        Err(RecordError::BadScript) => Err(Status::BAD_SCRIPT),
        Err(RecordError::TooLong) => Err(NOT_RECORDED),
        Err(RecordError::OutOfMemory) => Err(Status::MEMORY),
    }
}

/// The lines of the recording of a JSON value.
fn replayed(alloc: Global, tree: &Value) -> Result<Vec<u8>, Status>
    ensures done { IfOk result (λ bytes. IsDoneOf ReplayCommand.Replay (view tree.now) bytes.items) }
    ensures bad_script { result ≡ Err Status.BAD_SCRIPT → IsNoTaskOf ReplayCommand.Replay (view tree.now) }
    ensures no_other { IfErr result (λ s. (s ≡ Status.MEMORY) ⊎ (s ≡ Status.BAD_SCRIPT)) }
{
    match replay_lines(alloc, tree) {
        Ok(text) => Ok(text.into_bytes()),
        Err(ScriptError::BadScript) => Err(Status::BAD_SCRIPT),
        Err(ScriptError::OutOfMemory) => Err(Status::MEMORY),
    }
}
