//! The whole program `canon_image`: reads a JSON value, and writes the line that answers it.

ghost use Rattle.std.specs.Prelude.{◌≡◌, ◌⊎◌, ◌↔◌, ◌≤◌, ◌<◌, ◌^◌, [], List, ℕ, None, IfErr, IfOk, Err, length, string_bytes};
ghost use Rattle.std.specs.Io.KnownBytes.{Appends};
ghost use Rattle.canon_memory.specs.Counts.{Rose};
ghost use Rattle.canon_cli.specs.Program.{AnswersInput, IsRefusedStatus, IsStatus, IsTask, OnTold, ReadsNoJson, ReadsNoTask, ReadsTooMuch, max_input, most_taken};
ghost use Rattle.canon_cli.specs.Streams.{AppendsPrefix, TakesAtMost};
ghost use Rattle.canon_image_cli.specs.Program.{IsAnswered};
ghost use Rattle.canon_image_cli.specs.Task.{image_task_of};

use crate::lines::image_line;
use canon_cli::{ScriptError, Sink, Source, Status, read_json, write_all};
use std::alloc::Global;

/// Reads what a source asks, and writes the line that shows it to the sink: the image of a value, or the value of an image.
/// There are no words.
pub fn image_run<S: Source, K: Sink>(
    alloc: Global,
    words: &[String],
    source: &mut S,
    sink: &mut K,
) -> Status
    // At 2, which comes exactly where there is a word, nothing was read.
    ensures usage { (result ≡ Status.USAGE) ↔ ¬ (words.now ≡ []) }
    ensures unread { result ≡ Status.USAGE → source.new ≡ source.old }

    // At 0 the source was read to its end, what was read asks for an image or a value, and the sink took the line that shows
    // it; at 4 a prefix of it.
    ensures done { result ≡ Status.DONE → (line : List ℕ)
        × IsAnswered (S.left source.old) (S.left source.new) line × Appends (K.taken sink.old) (K.taken sink.new) line }
    ensures write_fault { result ≡ Status.WRITE_FAULT → (line : List ℕ)
        × IsAnswered (S.left source.old) (S.left source.new) line × AppendsPrefix (K.taken sink.old) (K.taken sink.new) line
        × Rose (K.faults sink.old) (K.faults sink.new) }

    // The others, each with its cause but 5, leave the sink as it was. 3 and 4 come exactly where the source or the sink
    // failed: at every other status their counts of faults stand still.
    ensures memory { result ≡ Status.MEMORY → sink.new ≡ sink.old }
    ensures refused { IsRefusedStatus result → sink.new ≡ sink.old }
    ensures read_fault { result ≡ Status.READ_FAULT → Rose (S.faults source.old) (S.faults source.new) }
    ensures no_read_fault { ¬ (result ≡ Status.READ_FAULT) → S.faults source.new ≡ S.faults source.old }
    ensures no_write_fault { ¬ (result ≡ Status.WRITE_FAULT) → K.faults sink.new ≡ K.faults sink.old }
    ensures too_long { result ≡ Status.TOO_LONG → ReadsTooMuch (S.left source.old) (S.left source.new) }
    ensures not_json { result ≡ Status.NOT_JSON → ReadsNoJson (S.left source.old) (S.left source.new) }
    ensures bad_script { result ≡ Status.BAD_SCRIPT → ReadsNoTask image_task_of (S.left source.old) (S.left source.new) }

    // Where no read fails an input is answered for what it is, or memory runs out; no more of it is taken than an input may
    // have, or the answer says so or is 5, and then no more than one read beyond. Of a source whose bytes aren't known nothing is said.
    ensures answers { words.now ≡ [] → ¬ Rose (S.faults source.old) (S.faults source.new)
        → OnTold (S.left source.old) (λ input. AnswersInput image_task_of input result) }
    ensures taken { ¬ (result ≡ Status.TOO_LONG) → ¬ (result ≡ Status.MEMORY) → TakesAtMost max_input (S.left source.old) (S.left source.new) }
    ensures most { TakesAtMost most_taken (S.left source.old) (S.left source.new) }

    // A line is written whole, or memory ran out, where nothing failed.
    ensures complete { words.now ≡ [] → ¬ Rose (S.faults source.old) (S.faults source.new) → ¬ Rose (K.faults sink.old) (K.faults sink.new)
        → OnTold (S.left source.old) (λ input. IsTask image_task_of input → (result.0 ≡ 0) ⊎ (result.0 ≡ 5)) }
    ensures no_other { IsStatus result }

    // Each status is its number.
    ensures numbers { (result ≡ Status.DONE → result.0 ≡ 0) × (result ≡ Status.USAGE → result.0 ≡ 2) × (result ≡ Status.READ_FAULT → result.0 ≡ 3)
        × (result ≡ Status.WRITE_FAULT → result.0 ≡ 4) × (result ≡ Status.MEMORY → result.0 ≡ 5) × (result ≡ Status.TOO_LONG → result.0 ≡ 6)
        × (result ≡ Status.NOT_JSON → result.0 ≡ 7) × (result ≡ Status.BAD_SCRIPT → result.0 ≡ 8) }
{
    if !words.is_empty() {
        return Status::USAGE;
    }
    answer_input(alloc, source, sink)
}

/// Reads what a source asks, and writes the line that shows it.
fn answer_input<S: Source, K: Sink>(alloc: Global, source: &mut S, sink: &mut K) -> Status
    ensures done { result ≡ Status.DONE → (line : List ℕ)
        × IsAnswered (S.left source.old) (S.left source.new) line × Appends (K.taken sink.old) (K.taken sink.new) line }
    ensures write_fault { result ≡ Status.WRITE_FAULT → (line : List ℕ)
        × IsAnswered (S.left source.old) (S.left source.new) line × AppendsPrefix (K.taken sink.old) (K.taken sink.new) line
        × Rose (K.faults sink.old) (K.faults sink.new) }
    ensures memory { result ≡ Status.MEMORY → sink.new ≡ sink.old }
    ensures refused { IsRefusedStatus result → sink.new ≡ sink.old }
    ensures read_fault { result ≡ Status.READ_FAULT → Rose (S.faults source.old) (S.faults source.new) }
    ensures no_read_fault { ¬ (result ≡ Status.READ_FAULT) → S.faults source.new ≡ S.faults source.old }
    ensures no_write_fault { ¬ (result ≡ Status.WRITE_FAULT) → K.faults sink.new ≡ K.faults sink.old }
    ensures too_long { result ≡ Status.TOO_LONG → ReadsTooMuch (S.left source.old) (S.left source.new) }
    ensures not_json { result ≡ Status.NOT_JSON → ReadsNoJson (S.left source.old) (S.left source.new) }
    ensures bad_script { result ≡ Status.BAD_SCRIPT → ReadsNoTask image_task_of (S.left source.old) (S.left source.new) }
    ensures taken { ¬ (result ≡ Status.TOO_LONG) → ¬ (result ≡ Status.MEMORY) → TakesAtMost max_input (S.left source.old) (S.left source.new) }
    ensures most { TakesAtMost most_taken (S.left source.old) (S.left source.new) }
    ensures no_other { IsStatus result }
    ensures used { ¬ (result ≡ Status.USAGE) }
{
    let line = match line_of_input(alloc, source) {
        Ok(line) => line,
        Err(status) => return status,
    };
    match write_all(sink, line.as_bytes()) {
        Ok(()) => Status::DONE,
        Err(status) => status,
    }
}

/// Reads what a source asks, and gives the line that shows it.
fn line_of_input<S: Source>(alloc: Global, source: &mut S) -> Result<String, Status>
    ensures done { IfOk result (λ line. IsAnswered (S.left source.old) (S.left source.new) (string_bytes line)) }
    ensures taken { result ≡ Err Status.READ_FAULT → TakesAtMost max_input (S.left source.old) (S.left source.new) }
    ensures most { TakesAtMost most_taken (S.left source.old) (S.left source.new) }
    ensures read_fault { result ≡ Err Status.READ_FAULT → Rose (S.faults source.old) (S.faults source.new) }
    ensures no_read_fault { ¬ (result ≡ Err Status.READ_FAULT) → S.faults source.new ≡ S.faults source.old }
    ensures too_long { result ≡ Err Status.TOO_LONG → ReadsTooMuch (S.left source.old) (S.left source.new) }
    ensures not_json { result ≡ Err Status.NOT_JSON → ReadsNoJson (S.left source.old) (S.left source.new) }
    ensures bad_script { result ≡ Err Status.BAD_SCRIPT → ReadsNoTask image_task_of (S.left source.old) (S.left source.new) }
    ensures no_other { IfErr result (λ s. (s ≡ Status.READ_FAULT) ⊎ ((s ≡ Status.MEMORY) ⊎ ((s ≡ Status.TOO_LONG) ⊎ ((s ≡ Status.NOT_JSON) ⊎ (s ≡ Status.BAD_SCRIPT))))) }
{
    let tree = match read_json(alloc, source) {
        Ok(tree) => tree,
        Err(status) => return Err(status),
    };
    match image_line(alloc, &tree) {
        Ok(line) => Ok(line),
        Err(ScriptError::BadScript) => Err(Status::BAD_SCRIPT),
        Err(ScriptError::OutOfMemory) => Err(Status::MEMORY),
    }
}
