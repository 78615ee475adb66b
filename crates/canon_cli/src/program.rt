//! The whole program `canon`: reads the command and its input, does it, and writes the output.

ghost use Rattle.std.specs.Prelude.{◌≡◌, ◌⊎◌, ◌≤◌, ◌<◌, ◌^◌, ◌↔◌, [], length, List, ℕ, None, Some, IfSome, IfOk, IfErr, OnOk, OnErr, Err, IsUtf8, string_bytes};
ghost use Rattle.std.specs.Io.KnownBytes.{Appends, Consumes, IsAtEnd};
ghost use Rattle.serde_json.specs.Read.{read};
ghost use Rattle.serde_json.specs.View.{view};
ghost use Rattle.canon_memory.specs.Counts.{Rose};
ghost use Rattle.canon_player.specs.Session.{Session};
ghost use Rattle.canon_script.specs.Script.{Play, play_of, script_of};
ghost use Rattle.canon_transcript.specs.Text.{transcript_text};
ghost use Rattle.canon_cli.specs.Program.{AnswersInput, TaskLeaves, IsJson, IsNoJson, IsPerformed, IsRefusedStatus, IsStatus, IsTask, OnTold, Performed, ReadsJson, ReadsNoJson, ReadsNoTask, ReadsTask, ReadsTooMuch, Task, command_of, max_input, most_taken, task_of};
ghost use Rattle.canon_gen.specs.Lines.{Generated};
ghost use Rattle.canon_cli.specs.Gen.{IsGenStatus, gen_of};
ghost use Rattle.canon_cli.specs.Streams.{AppendsPrefix, TakesAtMost};
ghost use Rattle.canon_json.specs.declared.error.ScriptError.TheVariants as refused;

use crate::command::command_of;
use crate::gen_words::gen_of;
use crate::{Command, ScriptError, Sink, Source, Status, Transcript, text_lines};
use canon_gen::gen_lines;
use canon_layout::layout_lines;
use canon_player::play;
use canon_script::script_of_json;
use canon_transcript::transcript_text;
use serde_json::Value;
use std::alloc::Global;

/// The most bytes of an input.
const MAX_INPUT: usize = 1 << 24;

/// Does what the words of the command line say. The words are those after the program's name; `run` plays the script
/// that the source holds, and writes its transcript to the sink; `text` plays the conversions that it holds, and
/// `layout` builds the types, and each writes their lines. `gen N` reads nothing: it plays the script that N makes, and
/// writes what is printed of it.
pub fn run<S: Source, K: Sink>(
    alloc: Global,
    words: &[String],
    source: &mut S,
    sink: &mut K,
    transcript: &mut Transcript,
) -> Status
    requires { transcript.old ≡ [] }

    // At 2, which comes exactly where the words are no command, nothing was read.
    ensures usage { (result ≡ Status.USAGE) ↔ ((command_of words.now ≡ None) × (gen_of words.now ≡ None)) }
    ensures unread { result ≡ Status.USAGE → source.new ≡ source.old }

    // At 0 what the words ask for was performed, a script's session is in the transcript, which the others leave empty, and
    // the sink took its text; at 4 a prefix of it.
    ensures done { result ≡ Status.DONE → (text : List ℕ) × IsPerformed words.now (S.left source.old) (S.left source.new) transcript.new text
        × Appends (K.taken sink.old) (K.taken sink.new) text }
    ensures write_fault { result ≡ Status.WRITE_FAULT → (text : List ℕ) × IsPerformed words.now (S.left source.old) (S.left source.new) transcript.new text
        × AppendsPrefix (K.taken sink.old) (K.taken sink.new) text × Rose (K.faults sink.old) (K.faults sink.new) }

    // At 5 nothing was written, and the transcript is empty or what was performed leaves.
    ensures memory { result ≡ Status.MEMORY → (sink.new ≡ sink.old) × ((transcript.new ≡ [])
        ⊎ ((text : List ℕ) × IsPerformed words.now (S.left source.old) (S.left source.new) transcript.new text)) }

    // The other refusals, each with its cause. They leave the sink and the transcript as they were. 3 and 4 come exactly
    // where the source or the sink failed: at every other status their counts of faults stand still.
    ensures refused { IsRefusedStatus result → (sink.new ≡ sink.old) × (transcript.new ≡ []) }
    ensures read_fault { result ≡ Status.READ_FAULT → Rose (S.faults source.old) (S.faults source.new) }
    ensures no_read_fault { ¬ (result ≡ Status.READ_FAULT) → S.faults source.new ≡ S.faults source.old }
    ensures no_write_fault { ¬ (result ≡ Status.WRITE_FAULT) → K.faults sink.new ≡ K.faults sink.old }
    ensures too_long { result ≡ Status.TOO_LONG → ReadsTooMuch (S.left source.old) (S.left source.new) }
    ensures not_json { result ≡ Status.NOT_JSON → ReadsNoJson (S.left source.old) (S.left source.new) }
    ensures bad_script { result ≡ Status.BAD_SCRIPT → IfSome (command_of words.now) (λ asked. ReadsNoTask (task_of asked) (S.left source.old) (S.left source.new)) }

    // A command whose reads don't fail answers an input for what it is, or runs out of memory; it takes no more of it
    // than an input may have, or answers so or 5, and then no more than one read beyond. Of a source whose bytes aren't known
    // nothing is said.
    ensures answers { IfSome (command_of words.now) (λ asked. ¬ Rose (S.faults source.old) (S.faults source.new)
        → OnTold (S.left source.old) (λ input. AnswersInput (task_of asked) input result)) }
    ensures taken { ¬ (result ≡ Status.TOO_LONG) → ¬ (result ≡ Status.MEMORY) → TakesAtMost max_input (S.left source.old) (S.left source.new) }
    ensures most { TakesAtMost most_taken (S.left source.old) (S.left source.new) }

    // A task is done and its text written whole, or memory ran out, where nothing failed.
    ensures complete { IfSome (command_of words.now) (λ asked. ¬ Rose (S.faults source.old) (S.faults source.new) → ¬ Rose (K.faults sink.old) (K.faults sink.new)
        → OnTold (S.left source.old) (λ input. IsTask (task_of asked) input → (result.0 ≡ 0) ⊎ (result.0 ≡ 5))) }
    ensures no_other { IsStatus result }

    // Each status is its number.
    ensures numbers { (result ≡ Status.DONE → result.0 ≡ 0) × (result ≡ Status.USAGE → result.0 ≡ 2) × (result ≡ Status.READ_FAULT → result.0 ≡ 3)
        × (result ≡ Status.WRITE_FAULT → result.0 ≡ 4) × (result ≡ Status.MEMORY → result.0 ≡ 5) × (result ≡ Status.TOO_LONG → result.0 ≡ 6)
        × (result ≡ Status.NOT_JSON → result.0 ≡ 7) × (result ≡ Status.BAD_SCRIPT → result.0 ≡ 8) }

    // `gen N` reads nothing and answers 0, 4 or 5.
    ensures gen_answers { IfSome (gen_of words.now) (λ n. (source.new ≡ source.old) × IsGenStatus result) }
{
    match command_of(words) {
        Some(command) => run_command(alloc, command, source, sink, transcript),
        None => match gen_of(words) {
            Some(count) => generate(alloc, count, sink, transcript),
            None => Status::USAGE,
        },
    }
}

/// Plays the script that a number makes, and writes what is printed of it.
fn generate<K: Sink>(alloc: Global, n: u32, sink: &mut K, transcript: &mut Transcript) -> Status
    requires { transcript.old ≡ [] }
    ensures done { result ≡ Status.DONE → (text : List ℕ) × Generated n transcript.new text × Appends (K.taken sink.old) (K.taken sink.new) text }
    ensures write_fault { result ≡ Status.WRITE_FAULT → (text : List ℕ)
        × Generated n transcript.new text × AppendsPrefix (K.taken sink.old) (K.taken sink.new) text × Rose (K.faults sink.old) (K.faults sink.new) }
    ensures memory { result ≡ Status.MEMORY → (sink.new ≡ sink.old) × ((transcript.new ≡ []) ⊎ ((text : List ℕ) × Generated n transcript.new text)) }
    ensures no_write_fault { ¬ (result ≡ Status.WRITE_FAULT) → K.faults sink.new ≡ K.faults sink.old }
    ensures no_other { IsGenStatus result }
{
    let text = match gen_lines(alloc, n, transcript) {
        Ok(text) => text,
        Err(_) => return Status::MEMORY,
    };
    match write_all(sink, text.as_bytes()) {
        Ok(()) => Status::DONE,
        Err(status) => status,
    }
}

/// Does what a command asks of the JSON value of a source.
fn run_command<S: Source, K: Sink>(
    alloc: Global,
    asked: Command,
    source: &mut S,
    sink: &mut K,
    transcript: &mut Transcript,
) -> Status
    requires { transcript.old ≡ [] }
    // At 0 the source was read to its end, what was read is a task, and the sink took its text; at 4 a prefix of it.
    ensures done { result ≡ Status.DONE → (text : List ℕ)
        × Performed asked (S.left source.old) (S.left source.new) transcript.new text × Appends (K.taken sink.old) (K.taken sink.new) text }
    ensures write_fault { result ≡ Status.WRITE_FAULT → (text : List ℕ)
        × Performed asked (S.left source.old) (S.left source.new) transcript.new text × AppendsPrefix (K.taken sink.old) (K.taken sink.new) text
        × Rose (K.faults sink.old) (K.faults sink.new) }

    // At 5 nothing was written, and the transcript is empty or what the task leaves.
    ensures memory { result ≡ Status.MEMORY → (sink.new ≡ sink.old) × ((transcript.new ≡ [])
        ⊎ ((text : List ℕ) × Performed asked (S.left source.old) (S.left source.new) transcript.new text)) }

    // The other refusals, each with its cause. They leave the sink and the transcript as they were.
    ensures refused { IsRefusedStatus result → (sink.new ≡ sink.old) × (transcript.new ≡ []) }
    ensures read_fault { result ≡ Status.READ_FAULT → Rose (S.faults source.old) (S.faults source.new) }
    ensures no_read_fault { ¬ (result ≡ Status.READ_FAULT) → S.faults source.new ≡ S.faults source.old }
    ensures no_write_fault { ¬ (result ≡ Status.WRITE_FAULT) → K.faults sink.new ≡ K.faults sink.old }
    ensures too_long { result ≡ Status.TOO_LONG → ReadsTooMuch (S.left source.old) (S.left source.new) }
    ensures not_json { result ≡ Status.NOT_JSON → ReadsNoJson (S.left source.old) (S.left source.new) }
    ensures bad_script { result ≡ Status.BAD_SCRIPT → ReadsNoTask (task_of asked) (S.left source.old) (S.left source.new) }
    ensures taken { ¬ (result ≡ Status.TOO_LONG) → ¬ (result ≡ Status.MEMORY) → TakesAtMost max_input (S.left source.old) (S.left source.new) }
    ensures most { TakesAtMost most_taken (S.left source.old) (S.left source.new) }
    ensures no_other { IsStatus result }
    ensures used { ¬ (result ≡ Status.USAGE) }
{
    let text = match perform_input(alloc, asked, source, transcript) {
        Ok(text) => text,
        Err(status) => return status,
    };
    match write_all(sink, text.as_bytes()) {
        Ok(()) => Status::DONE,
        Err(status) => status,
    }
}

/// Does what a command asks of the JSON value of a source, and gives the text that is to be written.
fn perform_input<S: Source>(
    alloc: Global,
    asked: Command,
    source: &mut S,
    transcript: &mut Transcript,
) -> Result<String, Status>
    requires { transcript.old ≡ [] }
    ensures done { IfOk result (λ text. Performed asked (S.left source.old) (S.left source.new) transcript.new (string_bytes text)) }
    ensures memory { result ≡ Err Status.MEMORY → (transcript.new ≡ [])
        ⊎ ((text : List ℕ) × Performed asked (S.left source.old) (S.left source.new) transcript.new text) }
    ensures refused { IfErr result (λ s. ¬ (s ≡ Status.MEMORY) → transcript.new ≡ []) }
    ensures read_fault { result ≡ Err Status.READ_FAULT → Rose (S.faults source.old) (S.faults source.new) }
    ensures no_read_fault { ¬ (result ≡ Err Status.READ_FAULT) → S.faults source.new ≡ S.faults source.old }
    ensures too_long { result ≡ Err Status.TOO_LONG → ReadsTooMuch (S.left source.old) (S.left source.new) }
    ensures not_json { result ≡ Err Status.NOT_JSON → ReadsNoJson (S.left source.old) (S.left source.new) }
    ensures bad_script { result ≡ Err Status.BAD_SCRIPT → ReadsNoTask (task_of asked) (S.left source.old) (S.left source.new) }
    ensures taken { result ≡ Err Status.READ_FAULT → TakesAtMost max_input (S.left source.old) (S.left source.new) }
    ensures most { TakesAtMost most_taken (S.left source.old) (S.left source.new) }
    ensures no_other { IfErr result (λ s. (s ≡ Status.READ_FAULT) ⊎ ((s ≡ Status.MEMORY) ⊎ ((s ≡ Status.TOO_LONG) ⊎ ((s ≡ Status.NOT_JSON) ⊎ (s ≡ Status.BAD_SCRIPT))))) }
{
    let tree = match read_json(alloc, source) {
        Ok(tree) => tree,
        Err(status) => return Err(status),
    };
    match perform(alloc, asked, &tree, transcript) {
        Ok(text) => Ok(text),
        Err(ScriptError::BadScript) => Err(Status::BAD_SCRIPT),
        Err(ScriptError::OutOfMemory) => Err(Status::MEMORY),
    }
}

/// Does what a command asks of a JSON value, and gives the text that is to be written.
fn perform(
    alloc: Global,
    asked: Command,
    tree: &Value,
    transcript: &mut Transcript,
) -> Result<String, ScriptError>
    requires { transcript.old ≡ [] }
    ensures done { IfOk result (λ text. (task : Task) × (task_of asked (view tree.now) ≡ Some task) × TaskLeaves task transcript.new (string_bytes text)) }
    ensures memory { result ≡ Err refused.OutOfMemory → (transcript.new ≡ [])
        ⊎ ((task : Task) × (text : List ℕ) × (task_of asked (view tree.now) ≡ Some task) × TaskLeaves task transcript.new text) }
    ensures bad_script { result ≡ Err refused.BadScript → (task_of asked (view tree.now) ≡ None) × (transcript.new ≡ []) }
{
    match asked {
        Command::Run => perform_script(alloc, tree, transcript),
        Command::Text => perform_conversions(alloc, tree),
        Command::Layout => perform_layout(alloc, tree),
    }
}

/// Plays the script of a JSON value, and prints its transcript.
fn perform_script(
    alloc: Global,
    tree: &Value,
    transcript: &mut Transcript,
) -> Result<String, ScriptError>
    requires { transcript.old ≡ [] }
    ensures done { IfOk result (λ text. (task : Task) × (task_of Command.Run (view tree.now) ≡ Some task) × TaskLeaves task transcript.new (string_bytes text)) }
    ensures memory { result ≡ Err refused.OutOfMemory → (transcript.new ≡ [])
        ⊎ ((task : Task) × (text : List ℕ) × (task_of Command.Run (view tree.now) ≡ Some task) × TaskLeaves task transcript.new text) }
    ensures bad_script { result ≡ Err refused.BadScript → (task_of Command.Run (view tree.now) ≡ None) × (transcript.new ≡ []) }
{
    let script = script_of_json(alloc, tree)?;
    if play(alloc, script, transcript).is_err() {
        return Err(ScriptError::OutOfMemory);
    }
    match transcript_text(alloc, transcript) {
        Ok(text) => Ok(text),
        Err(_) => Err(ScriptError::OutOfMemory),
    }
}

/// Plays the conversions of a JSON value, and prints their lines.
fn perform_conversions(alloc: Global, tree: &Value) -> Result<String, ScriptError>
    ensures done { IfOk result (λ text. (task : Task) × (task_of Command.Text (view tree.now) ≡ Some task) × TaskLeaves task [] (string_bytes text)) }
    ensures bad_script { result ≡ Err refused.BadScript → task_of Command.Text (view tree.now) ≡ None }
{
    match text_lines(alloc, tree) {
        Ok(text) => Ok(text),
        Err(error) => Err(error),
    }
}

/// Builds the types of a JSON value, and prints their lines.
fn perform_layout(alloc: Global, tree: &Value) -> Result<String, ScriptError>
    ensures done { IfOk result (λ text. (task : Task) × (task_of Command.Layout (view tree.now) ≡ Some task) × TaskLeaves task [] (string_bytes text)) }
    ensures bad_script { result ≡ Err refused.BadScript → task_of Command.Layout (view tree.now) ≡ None }
{
    match layout_lines(alloc, tree) {
        Ok(text) => Ok(text),
        Err(error) => Err(error),
    }
}

/// The JSON value of a source, which is read to its end. Answers READ_FAULT, MEMORY, TOO_LONG above 16,777,216 bytes, or
/// NOT_JSON.
pub fn read_json<S: Source>(alloc: Global, source: &mut S) -> Result<Value, Status>
    ensures json { IfOk result (λ tree. ReadsJson (S.left source.old) (S.left source.new) (view tree)) }
    ensures taken { result ≡ Err Status.READ_FAULT → TakesAtMost max_input (S.left source.old) (S.left source.new) }
    ensures most { TakesAtMost most_taken (S.left source.old) (S.left source.new) }
    ensures read_fault { result ≡ Err Status.READ_FAULT → Rose (S.faults source.old) (S.faults source.new) }
    ensures no_read_fault { ¬ (result ≡ Err Status.READ_FAULT) → S.faults source.new ≡ S.faults source.old }
    ensures too_long { result ≡ Err Status.TOO_LONG → ReadsTooMuch (S.left source.old) (S.left source.new) }
    ensures not_json { result ≡ Err Status.NOT_JSON → ReadsNoJson (S.left source.old) (S.left source.new) }
    ensures no_other { IfErr result (λ s. (s ≡ Status.READ_FAULT) ⊎ ((s ≡ Status.MEMORY) ⊎ ((s ≡ Status.TOO_LONG) ⊎ (s ≡ Status.NOT_JSON)))) }
{
    let bytes = match read_all(alloc, source) {
        Ok(bytes) => bytes,
        Err(status) => return Err(status),
    };
    tree_of(alloc, &bytes)
}

fn tree_of(alloc: Global, bytes: &[u8]) -> Result<Value, Status>
    ensures tree { IfOk result (λ tree. IsJson bytes.now (view tree)) }
    ensures not_json { result ≡ Err Status.NOT_JSON → IsNoJson bytes.now }
    ensures no_other { IfErr result (λ s. (s ≡ Status.NOT_JSON) ⊎ (s ≡ Status.MEMORY)) }
{
    match Value::from_slice(alloc, bytes) {
        Ok(tree) => Ok(tree),
        Err(error) => {
            if error.is_memory() {
                Err(Status::MEMORY)
            } else {
                Err(Status::NOT_JSON)
            }
        }
    }
}

/// The bytes of a source, to its end. Answers READ_FAULT, MEMORY, or TOO_LONG above 16,777,216 bytes.
pub fn read_all<S: Source>(alloc: Global, source: &mut S) -> Result<Vec<u8>, Status>
    ensures bytes { IfOk result (λ bytes. Consumes (S.left source.old) (S.left source.new) bytes.items × IsAtEnd (S.left source.new)) }
    ensures short { IfOk result (λ bytes. length bytes.items ≤ max_input) }
    ensures taken { result ≡ Err Status.READ_FAULT → TakesAtMost max_input (S.left source.old) (S.left source.new) }
    ensures most { TakesAtMost most_taken (S.left source.old) (S.left source.new) }
    ensures read_fault { result ≡ Err Status.READ_FAULT → Rose (S.faults source.old) (S.faults source.new) }
    ensures no_read_fault { ¬ (result ≡ Err Status.READ_FAULT) → S.faults source.new ≡ S.faults source.old }
    ensures later { S.faults source.old ≤ S.faults source.new }
    ensures too_long { result ≡ Err Status.TOO_LONG → ReadsTooMuch (S.left source.old) (S.left source.new) }
    ensures no_other { IfErr result (λ s. (s ≡ Status.READ_FAULT) ⊎ ((s ≡ Status.MEMORY) ⊎ (s ≡ Status.TOO_LONG))) }
{
    let mut bytes = Vec::new(alloc);
    let mut buf = [0u8; 4096];
    'reading: while bytes.len() <= MAX_INPUT {
        let count = match source.read(&mut buf) {
            Ok(count) => count,
            Err(_) => return Err(Status::READ_FAULT),
        };
        if count == 0 {
            return Ok(bytes);
        }
        if bytes.extend_from_slice(&buf[..count]).is_err() {
            return Err(Status::MEMORY);
        }
    }
    Err(Status::TOO_LONG)
}

/// Writes a piece, all of it. Answers WRITE_FAULT where the sink fails, which then took a prefix of it.
pub fn write_all<K: Sink>(sink: &mut K, piece: &[u8]) -> Result<(), Status>
    ensures ok { OnOk result (Appends (K.taken sink.old) (K.taken sink.new) piece.now) }
    ensures err { OnErr result (AppendsPrefix (K.taken sink.old) (K.taken sink.new) piece.now) }
    ensures write_fault { OnErr result (Rose (K.faults sink.old) (K.faults sink.new)) }
    ensures no_write_fault { OnOk result (K.faults sink.new ≡ K.faults sink.old) }
    ensures only { IfErr result (λ s. s ≡ Status.WRITE_FAULT) }
    ensures later { K.faults sink.old ≤ K.faults sink.new }
{
    let mut rest = piece;
    while !rest.is_empty() {
        match sink.write(rest) {
            Ok(count) => rest = &rest[count..],
            Err(_) => return Err(Status::WRITE_FAULT),
        }
    }
    Ok(())
}
