//! What no script shows: an event, a head and an answer by themselves, and faults, blocks and numbers that are in none.

use canon_func::Error;
use canon_ledger::HostResourceIndex;
use canon_memory::{Bytes, Event, Events, ValRaw, Words};
use canon_resources::ResourceAny;
use canon_transcript::{
    Answer, Head, Record, Transcript, answer_text, error_text, event_text, head_text,
};
use canon_types::ResourceType;
use canon_value::{Fault, Val};
use std::alloc::Global;

/// Whether an error prints as this text.
fn error_prints(alloc: Global, error: &Error, want: &str) -> Option<bool> {
    let text = error_text(alloc, error).ok()?;
    Some(text.as_str() == want)
}

#[test]
fn an_error_prints_its_name_and_what_it_carries(rt: HostRuntime) {
    // A text or a list of so many bytes or items is in no script.
    for (error, want) in [
        (
            Error::Fault(Fault::StringTooLong(2147483648)),
            "StringTooLong 2147483648",
        ),
        (
            Error::Fault(Fault::SizeOverflow(4294967296)),
            "SizeOverflow 4294967296",
        ),
    ] {
        assert!(rt;
            error_prints(rt.alloc(), &error, want) == Some(true),
            "{want}"
        );
    }
}

fn realloc(old: u64, old_size: u64, new_size: u64, answer: u64) -> Event {
    Event::Realloc {
        old,
        old_size,
        align: 1,
        new_size,
        answer,
    }
}

fn words(alloc: Global, word: u64) -> Option<Words> {
    Words::from_slice(alloc, &[ValRaw::u64(word)]).ok()
}

fn push_reallocs(events: &mut Events) -> Option<()> {
    events.push(realloc(0, 0, 17, 0)).ok()?;
    events.push(realloc(0, 0, 2, 1)).ok()?;
    events.push(realloc(0, 17, 1, 3)).ok()?;
    events.push(realloc(1, 2, 0, 1)).ok()?;
    events.push(realloc(9, 9, 5, 4)).ok()?;
    events.push(realloc(0, 0, 4, 6)).ok()
}

fn push_start(alloc: Global, events: &mut Events) -> Option<()> {
    let memory = [0x00u8, 0x01, 0xab, 0xff, 0x10, 0x7f];
    let words = words(alloc, 1024)?;
    let memory = Bytes::from_slice(alloc, &memory).ok()?;
    let start = Event::Start {
        func: 0,
        words,
        memory,
    };
    events.push(start).ok()
}

/// Pushes requests for blocks, and a start.
fn push_events(alloc: Global, events: &mut Events) -> Option<()> {
    push_reallocs(events)?;
    push_start(alloc, events)
}

const EVENT_LINES: [&str; 7] = [
    "realloc 0 0 1 17 = 0\n",
    "realloc 0 0 1 2 = 1\n",
    "realloc 0 17 1 1 = 3\n",
    "realloc 1 2 1 0 = 1\n",
    "realloc 9 9 1 5 = 4\n",
    "realloc 0 0 1 4 = 6\n",
    "start 0 1024\nblock 3 ff\nblock 4 107f\nblock 6\n",
];

/// Whether the event of a number prints as these lines.
fn event_prints(alloc: Global, events: &Events, number: u64, want: &str) -> Option<bool> {
    if number >= events.len() {
        return None;
    }
    let text = event_text(alloc, events, number).ok()?;
    Some(text.as_str() == want)
}

/// The first of the events whose lines are others; as many as there are lines where all are the same.
fn first_other(alloc: Global, events: &Events) -> u64 {
    let mut number = 0;
    for lines in EVENT_LINES {
        if event_prints(alloc, events, number, lines) != Some(true) {
            return number;
        }
        number = number.saturating_add(1);
    }
    number
}

/// How many events there are, and the first of them whose lines are others.
fn events_printed(alloc: Global) -> Option<(u64, u64)> {
    let mut events = Events::new(alloc);
    push_events(alloc, &mut events)?;
    Some((events.len(), first_other(alloc, &events)))
}

#[test]
fn each_event_prints_its_lines(rt: HostRuntime) {
    assert!(rt; events_printed(rt.alloc()) == Some((7, 7)));
}

/// Adds a record without events, after which so many handles live.
fn push_record(
    alloc: Global,
    transcript: &mut Transcript,
    head: Head,
    answer: Answer,
    live: u64,
) -> Option<()> {
    let record = Record {
        head,
        events: Events::new(alloc),
        served: Vec::new(alloc),
        answer,
        live,
    };
    transcript.push(record).ok()
}

/// What one function tells of a transcript that another fills.
fn with_transcript<
    R,
    F: FnOnce(Global, &mut Transcript) -> Option<()>,
    L: FnOnce(Global, &Transcript) -> Option<R>,
>(alloc: Global, fill: F, tell: L) -> Option<R>
    requires fill { F.IsAlwaysCallable fill }
    requires tell { L.IsAlwaysCallable tell }
{
    let mut transcript = Transcript::new(alloc);
    fill(alloc, &mut transcript)?;
    tell(alloc, &transcript)
}

/// Whether the head of a record prints as this line.
fn head_prints(alloc: Global, record: &Record, want: &str) -> Option<bool> {
    let text = head_text(alloc, record).ok()?;
    Some(text.as_str() == want)
}

/// Whether the answer of a record does, whose first resource has this number.
fn answer_prints(alloc: Global, record: &Record, first: u64, want: &str) -> Option<bool> {
    let text = answer_text(alloc, record, first).ok()?;
    Some(text.as_str() == want)
}

/// An own handle of the host.
fn resource() -> Val {
    let index = HostResourceIndex::new(1, 0);
    Val::Resource(ResourceAny::new(index, ResourceType::host_dynamic(5), true))
}

/// One value.
fn one(alloc: Global, value: Val) -> Option<Vec<Val>> {
    vec![in alloc; value].ok()
}

/// A tuple of a resource, a map from a resource to a resource, and a number.
fn nested(alloc: Global) -> Option<Val> {
    let pair = (resource(), resource());
    let pairs = vec![in alloc; pair].ok()?;
    let parts = vec![in alloc; resource(), Val::Map(pairs), Val::U8(7)];
    Some(Val::Tuple(parts.ok()?))
}

/// The nested resources, and a list of one more.
fn results(alloc: Global) -> Option<Answer> {
    let items = one(alloc, resource())?;
    let nested = nested(alloc)?;
    let values = vec![in alloc; nested, Val::List(items)];
    Some(Answer::Ok(values.ok()?))
}

fn push_results_alone(alloc: Global, transcript: &mut Transcript) -> Option<()> {
    push_record(alloc, transcript, Head::Call(2), results(alloc)?, 3)
}

/// Whether the head prints so, and an answer that is numbered from 10, and from the last number but one.
fn tell_numbers(alloc: Global, transcript: &Transcript) -> Option<[bool; 3]> {
    let call = transcript.records().last()?;
    let from_10 = "ok (#10,map[#11=#12],7) [#13]\n";
    // A count stands still at the end of a u64.
    let last =
        "ok (#18446744073709551614,map[#18446744073709551615=#18446744073709551615],7) [#18446744073709551615]\n";
    Some([
        head_prints(alloc, call, "call 2\n")?,
        answer_prints(alloc, call, 10, from_10)?,
        answer_prints(alloc, call, u64::MAX - 1, last)?,
    ])
}

#[test]
fn a_head_and_a_numbered_answer_print_alone(rt: HostRuntime) {
    let told = with_transcript(rt.alloc(), push_results_alone, tell_numbers);
    assert!(rt; told == Some([true; 3]));
}
