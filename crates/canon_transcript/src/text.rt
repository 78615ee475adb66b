//! The text of a transcript, of a record's first line and of its answer.

ghost use Rattle.std.specs.Prelude.{◌≡◌, ◌++◌, IfOk, OnOk, string_bytes};
ghost use Rattle.canon_transcript.specs.Text as spec;

use crate::errors::print_error;
use crate::events::print_events;
use crate::values::print_values;
use crate::{Answer, Head, Record, Transcript};
use canon_abi::OutOfMemory;
use std::alloc::{AllocError, Global};

/// The text of a transcript. The resources among the results have the numbers from 0 on. Answers OutOfMemory alone.
pub fn transcript_text(alloc: Global, t: &Transcript) -> Result<String, OutOfMemory>
    ensures { IfOk result (λ text. string_bytes text ≡ spec.transcript_text t.now) }
{
    let mut text = String::new(alloc);
    let mut next = Some(0);
    for item in t.records() {
        print_record(alloc, &mut text, &mut next, item)?;
    }
    Ok(text)
}

/// The first line of a record. Answers OutOfMemory alone.
pub fn head_text(alloc: Global, r: &Record) -> Result<String, OutOfMemory>
    ensures { IfOk result (λ text. string_bytes text ≡ spec.head_text r.now.head) }
{
    let mut text = String::new(alloc);
    print_head(&mut text, r.head)?;
    Ok(text)
}

/// The line of a record's answer, whose first resource has this number. Answers OutOfMemory alone.
pub fn answer_text(alloc: Global, r: &Record, first: u64) -> Result<String, OutOfMemory>
    ensures { IfOk result (λ text. string_bytes text ≡ spec.answer_text first r.now.answer) }
{
    let mut text = String::new(alloc);
    let mut next = Some(first);
    print_answer(&mut text, &mut next, &r.answer)?;
    Ok(text)
}

fn print_record(
    alloc: Global,
    text: &mut String,
    next: &mut Option<u64>,
    item: &Record,
) -> Result<(), AllocError>
    ensures { OnOk result (spec.page (string_bytes text.new) next.new ≡ spec.record_printing item.now (spec.page (string_bytes text.old) next.old)) }
{
    print_head(text, item.head)?;
    print_events(alloc, text, item.events.as_slice(), &item.served)?;
    print_answer(text, next, &item.answer)?;
    let live = item.live;
    writeln!(text, "live {live}")
}

fn print_head(text: &mut String, head: Head) -> Result<(), AllocError>
    ensures { OnOk result (string_bytes text.new ≡ string_bytes text.old ++ spec.head_text head) }
{
    match head {
        Head::Call(func) => writeln!(text, "call {func}"),
        Head::Typed(func) => writeln!(text, "typed {func}"),
        Head::New => text.push_str("new\n"),
        Head::Drop(resource) => writeln!(text, "drop {resource}"),
    }
}

/// Prints an answer. Its first resource has the number `next`, which goes on to the one after its last.
fn print_answer(
    text: &mut String,
    next: &mut Option<u64>,
    answer: &Answer,
) -> Result<(), AllocError>
    ensures { OnOk result (spec.page (string_bytes text.new) next.new ≡ spec.answer_printing answer.now (spec.page (string_bytes text.old) next.old)) }
{
    match answer {
        Answer::Ok(values) => {
            text.push_str("ok")?;
            print_values(text, next, values)?;
            text.push_str("\n")
        }
        Answer::Err(error) => {
            text.push_str("error ")?;
            print_error(text, *error)?;
            text.push_str("\n")
        }
        Answer::Typecheck => text.push_str("error TypecheckFailed\n"),
        Answer::Skipped => text.push_str("skipped\n"),
    }
}
