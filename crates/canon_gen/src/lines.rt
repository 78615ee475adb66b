//! What is printed of the script that a number makes.

ghost use Rattle.std.specs.Prelude.{◌≡◌, ◌≤◌, ◌⊎◌, ℕ, List, [], ◌∷◌, ◌++◌, IfOk, OnErr, OnOk, length, string_bytes, take};
ghost use Rattle.canon_literals.specs.Literals.{literal_view};
ghost use Rattle.canon_gen.specs.Records.{list_drawn};
ghost use Rattle.canon_transcript.specs.declared.transcript.Record.{Record};
ghost use Rattle.canon_gen.specs.Lines as spec;

use crate::made::{encoding_made, script_made};
use crate::records::draw_list;
use canon_memory::Event;
use canon_player::play;
use canon_transcript::{Answer, Record, Transcript, block_bytes};
use canon_types::{OutOfMemory, StringEncoding};
use canon_value::Val;
use std::alloc::{AllocError, Global};

/// Plays the script that a number makes, and gives the seven lines of its call.
pub fn gen_lines(alloc: Global, n: u32, transcript: &mut Transcript) -> Result<String, OutOfMemory>
    requires { transcript.old ≡ [] }
    ensures done { IfOk result (λ text. spec.Generated n transcript.new (string_bytes text)) }
    ensures memory { OnErr result ((transcript.new ≡ []) ⊎ ((text : List ℕ) × spec.Generated n transcript.new text)) }
{
    let list = draw_list(alloc, n)?;
    let script = script_made(alloc, n)?;
    play(alloc, script, transcript)?;
    gen_text(alloc, n, &list, transcript)
}

/// The lines of the only call, with this list.
fn gen_text(
    alloc: Global,
    n: u32,
    list: &Val,
    transcript: &Transcript,
) -> Result<String, OutOfMemory>
    requires { length transcript.now ≡ 1 }
    ensures { IfOk result (λ text. (call : Record) × (transcript.now ≡ call ∷ []) × (string_bytes text ≡ spec.gen_text n list.now call)) }
{
    let mut text = String::new(alloc);
    print_call(alloc, &mut text, n, list, &transcript.records()[0])?;
    Ok(text)
}

fn print_call(
    alloc: Global,
    text: &mut String,
    n: u32,
    list: &Val,
    call: &Record,
) -> Result<(), OutOfMemory>
    ensures { OnOk result (string_bytes text.new ≡ string_bytes text.old ++ spec.gen_text n list.now call.now) }
{
    let events = call.events.as_slice();
    print_number(text, n)?;
    print_counts(alloc, text, &events[..before_start(events)])?;
    print_equal(text, list, &call.answer)?;
    let live = call.live;
    writeln!(text, "live {live}")?;
    Ok(())
}

fn print_number(text: &mut String, n: u32) -> Result<(), AllocError>
    ensures { OnOk result (string_bytes text.new ≡ string_bytes text.old ++ spec.number_lines n) }
{
    let encoding = encoding_word(encoding_made(n));
    write!(text, "gen {n}\nencoding {encoding}\nrecords {n}\n")
}

/// What was asked for before the start.
fn print_counts(alloc: Global, text: &mut String, before: &[Event]) -> Result<(), OutOfMemory>
    ensures { OnOk result (string_bytes text.new ≡ string_bytes text.old ++ spec.count_lines before.now) }
{
    let reallocs = requests(before);
    let bytes = block_bytes(alloc, before)?;
    write!(text, "reallocs {reallocs}\nbytes {bytes}\n")?;
    Ok(())
}

fn print_equal(text: &mut String, given: &Val, answer: &Answer) -> Result<(), AllocError>
    ensures { OnOk result (string_bytes text.new ≡ string_bytes text.old ++ spec.equal_line given.now answer.now) }
{
    let equal = answer_equals(given, answer);
    writeln!(text, "equal {equal}")
}

fn encoding_word(encoding: StringEncoding) -> &'static str
    ensures { result.now ≡ spec.encoding_word encoding }
{
    match encoding {
        StringEncoding::Utf8 => "utf8",
        StringEncoding::Utf16 => "utf16",
        StringEncoding::CompactUtf16 => "compact",
    }
}

/// How many events there are before the guest is started.
fn before_start(events: &[Event]) -> usize
    ensures inside { result ≤ length events.now }
    ensures front { take result events.now ≡ spec.before_start events.now }
{
    for i in 0..events.len() {
        if let Event::Start { .. } = &events[i] {
            return i;
        }
    }
    events.len()
}

/// How often `realloc` answered.
fn requests(events: &[Event]) -> usize
    ensures { result ≡ spec.request_count events.now }
{
    let mut count = 0;
    for event in events {
        if let Event::Realloc { .. } = event {
            count += 1;
        }
    }
    count
}

/// Whether the result is equal to the value that was given.
fn answer_equals(given: &Val, answer: &Answer) -> bool
    ensures { result ≡ spec.answer_equals given.now answer.now }
{
    match answer {
        Answer::Ok(results) => match results.first() {
            Some(result) => result == given,
            None => false,
        },
        Answer::Err(_) => false,
        Answer::Typecheck => false,
        Answer::Skipped => false,
    }
}
