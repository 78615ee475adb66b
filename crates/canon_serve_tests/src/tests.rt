//! Sessions whose engine, host and caller keep to a text. Its numbers are those of the tables of `docs/ENGINE.md`, and its bytes the images of
//! `docs/IMAGES.md`.

use crate::dialogue::{Dialogue, Line};
use canon_memory::{Guest, Memory, ValRaw};
use canon_relay::{Given, MemoryChannel, Relay, Said};
use canon_serve::{End, serve};
use std::alloc::Global;

/// Export 0 goes from a number to a number, 1 from a text to a list of bytes, with a post-return function, and 2 gives a handle. Import 0 makes a
/// resource, and 1 is a function of the host from a number to a number. A call may ask twice, and its results may cost 64, two items of a list.
const COMPONENT: &str = r#"{"memory": 64, "heap": 0, "fuel": 64, "turns": 2,
 "resources": [{"kind": "guest", "id": 1}], "types": [{"list": "u8"}, {"own": 0}],
 "funcs": [{"params": ["u32"], "results": ["u32"]}, {"params": ["string"], "results": [0], "post": true}, {"params": [], "results": [1]}],
 "imports": [{"builtin": "new", "resource": 0}, {"params": ["u32"], "results": ["u32"], "answers": []}]}"#;

/// The answer of what was done and has no bytes.
const DONE: Line = Line::Answer([7, 0, 0, 0, 0, 0, 0, 0]);

/// The caller ends the session.
const END: Line = Line::Command([0, 0, 0, 0]);

/// The caller asks how many handles live.
const LIVE: Line = Line::Command([3, 0, 0, 0]);

/// The caller asks for the marks.
const MARKS: Line = Line::Command([4, 0, 0, 0]);

/// The caller calls export 0 with 7.
const NUMBER: [Line; 2] = [Line::Command([2, 0, 0, 4]), Line::SaysBytes(&[7, 0, 0, 0])];

/// The engine is lent 64 bytes of memory, and writes nothing.
const LENT: Line = Line::Lent {
    len: 64,
    found: (0, &[]),
    written: (0, &[]),
};

/// The engine is asked to start it in 64 bytes of memory.
const STARTED: [Line; 2] = [Line::Told(&[0, 0, 0, 0, 0, 64, 1, 7]), LENT];

/// The caller calls export 1 with two letters.
const TEXT: [Line; 2] = [
    Line::Command([2, 1, 0, 10]),
    Line::SaysBytes(&[2, 0, 0, 0, 0, 0, 0, 0, 104, 105]),
];

/// The engine is asked for a block of two bytes.
const ASKED_FOR_BLOCK: [Line; 2] = [Line::Told(&[2, 0, 0, 1, 2, 64, 0]), LENT];

/// These lines, and then those.
fn joined(alloc: Global, first: &[Line], then: &[Line]) -> Option<Vec<Line>> {
    let mut lines = first.to_vec(alloc).ok()?;
    lines.extend_from_slice(then).ok()?;
    Some(lines)
}

/// How a session of these lines ends. None where the caller's aren't all that passed.
fn run(alloc: Global, engine: &[Line], host: &[Line], caller: &[Line]) -> Option<End> {
    let mut dialogue = Dialogue::new(alloc, caller);
    let end = serve(
        alloc,
        Dialogue::new(alloc, engine),
        Dialogue::new(alloc, host),
        &mut dialogue,
    );
    if dialogue.is_done() { Some(end) } else { None }
}

/// The same after the component began, and where the caller ends the session after these lines.
fn play(alloc: Global, engine: &[Line], host: &[Line], caller: &[Line]) -> Option<End> {
    play_in(alloc, COMPONENT, engine, host, caller)
}

/// The same of another component, each byte of whose memory is watched.
fn play_in(
    alloc: Global,
    component: &'static str,
    engine: &[Line],
    host: &[Line],
    caller: &[Line],
) -> Option<End> {
    let begin = [1, 1, 0, component.len() as u64];
    let begun = [
        Line::Command(begin),
        Line::SaysBytes(component.as_bytes()),
        DONE,
    ];
    let instantiated = [
        Line::Told(&[5, 0, 0, 0, 0, 64, 0]),
        LENT,
        Line::Replies([0, 0, 0, 0, 0]),
    ];
    let engine = joined(alloc, &instantiated, engine)?;
    let caller = joined(alloc, &begun, caller)?;
    let caller = joined(alloc, &caller, &[END])?;
    run(alloc, &engine, host, &caller)
}

/// How a session ends in which export 0 asks for the function of the host with 5, is answered with 6, and returns 9.
fn asked(alloc: Global) -> Option<End> {
    let [start, lent] = STARTED;
    let engine = [
        start,
        lent,
        Line::Replies([1, 1, 0, 1, 5]),
        Line::Told(&[1, 0, 0, 0, 0, 64, 1, 6]),
        LENT,
        Line::Replies([0, 0, 0, 1, 9]),
    ];
    let host = [
        Line::Told(&[6, 1, 4]),
        Line::ToldBytes(&[5, 0, 0, 0]),
        Line::Says(&[0, 4]),
        Line::SaysBytes(&[6, 0, 0, 0]),
    ];
    let [call, number] = NUMBER;
    let caller = [
        call,
        number,
        Line::Answer([7, 0, 0, 0, 0, 0, 0, 4]),
        Line::ToldBytes(&[9, 0, 0, 0]),
    ];
    play(alloc, &engine, &host, &caller)
}

#[test]
fn an_ask_is_served(rt: HostRuntime) {
    assert!(rt; asked(rt.alloc()) == Some(End::Asked));
}

/// The engine gives a block at 8, in this memory. The function finds the text there, writes a list of its bytes at 32, and returns that address, which
/// its post-return function is given.
fn text_returned(lent: Line) -> [Line; 9] {
    let [asked, _lent] = ASKED_FOR_BLOCK;
    [
        asked,
        lent,
        Line::Replies([0, 8, 0, 0, 0]),
        Line::Told(&[0, 1, 0, 0, 0, 64, 2, 8, 2]),
        Line::Lent {
            len: 64,
            found: (8, &[104, 105, 0]),
            written: (32, &[8, 0, 0, 0, 2, 0, 0, 0]),
        },
        Line::Replies([0, 0, 0, 1, 32]),
        Line::Told(&[3, 1, 0, 0, 0, 64, 1, 32]),
        LENT,
        Line::Replies([0, 0, 0, 0, 0]),
    ]
}

/// How a session ends with two calls of export 1. In the second the engine writes beside the block that it gives.
fn texts_crossed(alloc: Global) -> Option<End> {
    let untidy = Line::Lent {
        len: 64,
        found: (0, &[]),
        written: (40, &[1]),
    };
    let engine = joined(alloc, &text_returned(LENT), &text_returned(untidy))?;
    let [call, text] = TEXT;
    let answer = Line::Answer([7, 0, 0, 0, 0, 0, 0, 10]);
    let result = Line::ToldBytes(&[2, 0, 0, 0, 0, 0, 0, 0, 104, 105]);
    let mark = Line::Answer([7, 0, 0, 0, 0, 0, 0, 1]);
    let caller = [
        call,
        text,
        answer,
        result,
        MARKS, // the block was lawful and tidy
        mark,
        Line::ToldBytes(&[3]),
        MARKS, // its mark is forgotten
        DONE,
        call,
        text,
        answer,
        result,
        MARKS, // the block was lawful
        mark,
        Line::ToldBytes(&[1]),
        LIVE,
        Line::Answer([7, 0, 0, 0, 0, 0, 0, 8]),
        Line::ToldBytes(&[0, 0, 0, 0, 0, 0, 0, 0]),
    ];
    play(alloc, &engine, &[], &caller)
}

#[test]
fn texts_cross_and_come_back(rt: HostRuntime) {
    assert!(rt; texts_crossed(rt.alloc()) == Some(End::Asked));
}

/// Memory grows by 64 bytes as a block is given, which lies there, and once more as the function returns a list that lies in the last
/// of them.
fn grown(alloc: Global) -> Option<End> {
    let [asked, lent] = ASKED_FOR_BLOCK;
    let engine = [
        asked,
        lent,
        Line::Replies([0, 64, 64, 0, 0]),
        Line::Lent {
            len: 128,
            found: (64, &[0, 0]),
            written: (0, &[]),
        },
        Line::Told(&[0, 1, 0, 0, 0, 128, 2, 64, 2]),
        Line::Lent {
            len: 128,
            found: (64, &[104, 105]),
            written: (0, &[]),
        },
        Line::Replies([0, 0, 64, 1, 128]),
        Line::Lent {
            len: 192,
            found: (126, &[0, 0, 0, 0]),
            written: (128, &[136, 0, 0, 0, 2, 0, 0, 0, 5, 6]),
        },
        Line::Told(&[3, 1, 0, 0, 0, 192, 1, 128]),
        Line::Lent {
            len: 192,
            found: (136, &[5, 6]),
            written: (0, &[]),
        },
        Line::Replies([0, 0, 0, 0, 0]),
    ];
    let [call, text] = TEXT;
    let caller = [
        call,
        text,
        Line::Answer([7, 0, 0, 0, 0, 0, 0, 10]),
        Line::ToldBytes(&[2, 0, 0, 0, 0, 0, 0, 0, 5, 6]),
    ];
    play(alloc, &engine, &[], &caller)
}

#[test]
fn a_memory_that_grew_is_lent_again(rt: HostRuntime) {
    assert!(rt; grown(rt.alloc()) == Some(End::Asked));
}

/// Export 0 makes a resource of representation 5, whose handle is the first of the table, and lives after the call. Export 2 gives it to the
/// caller, for whom it is number 0.
fn made(alloc: Global) -> Option<End> {
    let [start, lent] = STARTED;
    let engine = [
        start,
        lent,
        Line::Replies([1, 0, 0, 1, 5]),
        Line::Told(&[1, 0, 0, 0, 0, 64, 1, 1]),
        LENT,
        Line::Replies([0, 0, 0, 1, 9]),
        Line::Told(&[0, 2, 0, 0, 0, 64, 0]),
        LENT,
        Line::Replies([0, 0, 0, 1, 1]),
    ];
    let [call, number] = NUMBER;
    let caller = [
        call,
        number,
        Line::Answer([7, 0, 0, 0, 0, 0, 0, 4]),
        Line::ToldBytes(&[9, 0, 0, 0]),
        LIVE,
        Line::Answer([7, 0, 0, 0, 0, 0, 0, 8]),
        Line::ToldBytes(&[1, 0, 0, 0, 0, 0, 0, 0]),
        Line::Command([2, 2, 0, 0]),
        Line::Answer([7, 0, 0, 0, 0, 0, 0, 4]),
        Line::ToldBytes(&[0, 0, 0, 0]),
    ];
    play(alloc, &engine, &[], &caller)
}

#[test]
fn a_resource_lives_after_its_call(rt: HostRuntime) {
    assert!(rt; made(rt.alloc()) == Some(End::Asked));
}

/// Whether a call is refused by these numbers, and the next one is too, as the store isn't entered any more.
fn is_refused(
    alloc: Global,
    engine: &[Line],
    host: &[Line],
    asked: [Line; 2],
    error: [u64; 5],
) -> bool {
    let [call, params] = asked;
    let [code, import, kind, place, more] = error;
    let told = [7, 1, code, import, kind, place, more, 0];
    let caller = [
        call,
        params,
        Line::Answer(told),
        call,
        params,
        Line::Answer([7, 1, 3, 0, 0, 0, 0, 0]),
    ];
    play(alloc, engine, host, &caller) == Some(End::Asked)
}

/// Whether the call of export 0 is refused by these numbers, where it ends with this reply.
fn is_lie(alloc: Global, reply: [u64; 5], error: [u64; 5]) -> bool {
    let [start, lent] = STARTED;
    is_refused(
        alloc,
        &[start, lent, Line::Replies(reply)],
        &[],
        NUMBER,
        error,
    )
}

#[test]
fn no_lie_of_an_engine_is_believed(rt: HostRuntime) {
    let alloc = rt.alloc();
    let trap = [22, 0, 0, 0, 0];
    assert!(rt; is_lie(alloc, [99, 0, 0, 0, 0], trap)); // there is no such kind
    assert!(rt; is_lie(alloc, [2, 0, 0, 0, 0], trap)); // it trapped
    assert!(rt; is_lie(alloc, [0, 0, 0, 18, 0], trap)); // no reply has room for so many words
    assert!(rt; is_lie(alloc, [0, 0, 1 << 32, 1, 0], trap)); // 64 bytes more than there may be
    assert!(rt; is_lie(alloc, [1, 1 << 32, 0, 1, 5], trap)); // no import has such a number
    assert!(rt; is_lie(alloc, [3, 0, 0, 0, 0], [8, 0, 0, 0, 0])); // it is out of memory
    assert!(rt; is_lie(alloc, [0, 0, 0, 2, 9], [4, 0, 0, 0, 0])); // one word too many
    assert!(rt; is_lie(alloc, [1, 77, 0, 0, 0], [5, 77, 0, 0, 0])); // there is no such import
    assert!(rt; is_refused(alloc, &STARTED, &[], NUMBER, trap)); // nothing is heard
}

/// Whether the call of export 1 is refused by these numbers, where the engine asks for a block, and is answered so.
fn is_bad_block(alloc: Global, reply: [u64; 5], error: [u64; 5]) -> bool {
    let [asked, lent] = ASKED_FOR_BLOCK;
    is_refused(
        alloc,
        &[asked, lent, Line::Replies(reply)],
        &[],
        TEXT,
        error,
    )
}

/// Whether it is refused by these numbers, where it returns the address 32, at which it wrote these bytes.
fn is_bad_list(alloc: Global, list: &'static [u8], error: [u64; 5]) -> bool {
    let [asked, lent] = ASKED_FOR_BLOCK;
    let engine = [
        asked,
        lent,
        Line::Replies([0, 8, 0, 0, 0]),
        Line::Told(&[0, 1, 0, 0, 0, 64, 2, 8, 2]),
        Line::Lent {
            len: 64,
            found: (8, &[104, 105]),
            written: (32, list),
        },
        Line::Replies([0, 0, 0, 1, 32]),
    ];
    is_refused(alloc, &engine, &[], TEXT, error)
}

#[test]
fn no_address_past_the_end_is_taken(rt: HostRuntime) {
    let alloc = rt.alloc();
    let trap = [22, 0, 0, 0, 0];
    assert!(rt; is_bad_block(alloc, [0, 63, 0, 0, 0], [21, 0, 3, 63, 0]));
    assert!(rt; is_bad_block(alloc, [0, 1 << 32, 0, 0, 0], trap));
    assert!(rt; is_bad_block(alloc, [0, 8, 0, 1, 0], trap)); // a block with a word
    assert!(rt; is_bad_block(alloc, [1, 1, 0, 0, 0], trap)); // an ask
    assert!(rt; is_bad_list(alloc, &[63, 0, 0, 0, 2, 0, 0, 0], [24, 0, 3, 32, 0]));
    assert!(rt; is_bad_list(alloc, &[8, 0, 0, 0, 3, 0, 0, 0], [29, 0, 0, 0, 0])); // three items cost 96
}

/// Whether the call is refused by these numbers, where export 0 asks for the function of the host with 5, and these lines pass then.
fn is_unserved(alloc: Global, answer: &[Line], error: [u64; 5]) -> Option<bool> {
    let [start, lent] = STARTED;
    let engine = [start, lent, Line::Replies([1, 1, 0, 1, 5])];
    let asked = [Line::Told(&[6, 1, 4]), Line::ToldBytes(&[5, 0, 0, 0])];
    let host = joined(alloc, &asked, answer)?;
    Some(is_refused(alloc, &engine, &host, NUMBER, error))
}

#[test]
fn a_host_that_gives_no_result_refuses(rt: HostRuntime) {
    let alloc = rt.alloc();
    let refused = [7, 1, 0, 0, 0];
    let short = [Line::Says(&[0, 3]), Line::SaysBytes(&[6, 0, 0])];
    let long = [Line::Says(&[0, 5]), Line::SaysBytes(&[6, 0, 0, 0, 0])];
    assert!(rt; is_unserved(alloc, &[Line::Says(&[1, 0])], refused) == Some(true));
    assert!(rt; is_unserved(alloc, &short, refused) == Some(true));
    assert!(rt; is_unserved(alloc, &long, refused) == Some(true));
    assert!(rt; is_unserved(alloc, &[Line::Says(&[0, 16_777_217])], refused) == Some(true));
    assert!(rt; is_unserved(alloc, &[], refused) == Some(true)); // nothing is heard
}

/// Export 0 asks three times, and two asks are served.
fn asked_thrice(alloc: Global) -> bool {
    let [start, lent] = STARTED;
    let ask = Line::Replies([1, 1, 0, 1, 5]);
    let resume = Line::Told(&[1, 0, 0, 0, 0, 64, 1, 6]);
    let engine = [start, lent, ask, resume, lent, ask, resume, lent, ask];
    let asked = [Line::Told(&[6, 1, 4]), Line::ToldBytes(&[5, 0, 0, 0])];
    let [number, params] = asked;
    let [status, result] = [Line::Says(&[0, 4]), Line::SaysBytes(&[6, 0, 0, 0])];
    let host = [
        number, params, status, result, number, params, status, result,
    ];
    is_refused(alloc, &engine, &host, NUMBER, [6, 0, 0, 0, 0])
}

#[test]
fn no_more_asks_are_served_than_a_call_has(rt: HostRuntime) {
    assert!(rt; asked_thrice(rt.alloc()));
}

/// Export 0 goes from an own handle of a resource of the host to one, and export 1 takes a borrow. Import 0 drops a handle.
const LENDING: &str =
    r#"{"memory": 64, "heap": 0, "turns": 2, "handles": 8, "resources": [{"kind": "dynamic", "id": 3}],
 "types": [{"own": 0}, {"borrow": 0}], "funcs": [{"params": [0], "results": [0]}, {"params": [1], "results": []}],
 "imports": [{"builtin": "drop", "resource": 0}]}"#;

/// The caller makes a resource of type 3 and representation 5, whose number is this.
fn new_number(number: &'static [u8]) -> [Line; 3] {
    [
        Line::Command([6, 3, 5, 0]),
        Line::Answer([7, 0, 0, 0, 0, 0, 0, 8]),
        Line::ToldBytes(number),
    ]
}

/// The caller asks how many handles live.
fn living(count: &'static [u8]) -> [Line; 3] {
    [
        LIVE,
        Line::Answer([7, 0, 0, 0, 0, 0, 0, 8]),
        Line::ToldBytes(count),
    ]
}

const ZERO: &[u8] = &[0, 0, 0, 0, 0, 0, 0, 0];

const ONE: &[u8] = &[1, 0, 0, 0, 0, 0, 0, 0];

/// The caller calls an export with the number of a resource.
fn call_with(export: u64, number: &'static [u8]) -> [Line; 2] {
    [Line::Command([2, export, 0, 4]), Line::SaysBytes(number)]
}

/// The engine is asked for export 1 with handle 1, which it drops before it returns.
const BORROWED: [Line; 6] = [
    Line::Told(&[0, 1, 0, 0, 0, 64, 1, 1]),
    LENT,
    Line::Replies([1, 0, 0, 1, 1]),
    Line::Told(&[1, 0, 0, 0, 0, 64, 1, 0]),
    LENT,
    Line::Replies([0, 0, 0, 0, 0]),
];

/// The engine is asked for export 0 with handle 1, and gives it back.
const GIVEN_BACK: [Line; 3] = [
    Line::Told(&[0, 0, 0, 0, 0, 64, 1, 1]),
    LENT,
    Line::Replies([0, 0, 0, 1, 1]),
];

/// A resource is made, lent to a call, given to another, given back as number 1, and dropped.
fn lent_and_given(alloc: Global) -> Option<End> {
    let engine = joined(alloc, &BORROWED, &GIVEN_BACK)?;
    let made = joined(alloc, &new_number(ZERO), &living(ONE))?;
    let lent = joined(alloc, &call_with(1, &[0, 0, 0, 0]), &[DONE])?;
    let given = joined(
        alloc,
        &call_with(0, &[0, 0, 0, 0]),
        &[
            Line::Answer([7, 0, 0, 0, 0, 0, 0, 4]),
            Line::ToldBytes(&[1, 0, 0, 0]),
        ],
    )?;
    let dropped = joined(alloc, &[Line::Command([5, 1, 0, 0]), DONE], &living(ZERO))?;
    let caller = joined(alloc, &made, &lent)?;
    let caller = joined(alloc, &caller, &given)?;
    let caller = joined(alloc, &caller, &dropped)?;
    play_in(alloc, LENDING, &engine, &[], &caller)
}

#[test]
fn a_resource_is_lent_and_given_and_dropped(rt: HostRuntime) {
    assert!(rt; lent_and_given(rt.alloc()) == Some(End::Asked));
}

/// A number that was given away is refused as `HostDeallocated`, since its handle has the place of the one that was given back; one that was
/// dropped as `UnknownHandle`, by that place, and one that there isn't as senseless. The engine isn't asked for them.
fn gone(alloc: Global) -> Option<End> {
    let given = joined(
        alloc,
        &call_with(0, &[0, 0, 0, 0]),
        &[
            Line::Answer([7, 0, 0, 0, 0, 0, 0, 4]),
            Line::ToldBytes(&[1, 0, 0, 0]),
        ],
    )?;
    let dropped = [Line::Command([5, 1, 0, 0]), DONE];
    let [again, number] = call_with(0, &[0, 0, 0, 0]);
    let [none, other] = call_with(0, &[2, 0, 0, 0]);
    let refused = [
        again,
        number,
        Line::Answer([7, 1, 49, 0, 0, 0, 0, 0]),
        Line::Command([5, 1, 0, 0]),
        Line::Answer([7, 1, 40, 0, 0, 0, 1, 0]),
        none,
        other,
        Line::Answer([7, 2, 4, 0, 0, 0, 0, 0]),
        Line::Command([5, 2, 0, 0]),
        Line::Answer([7, 2, 4, 0, 0, 0, 0, 0]),
    ];
    let caller = joined(alloc, &new_number(ZERO), &given)?;
    let caller = joined(alloc, &caller, &dropped)?;
    let caller = joined(alloc, &caller, &refused)?;
    play_in(alloc, LENDING, &GIVEN_BACK, &[], &caller)
}

#[test]
fn a_resource_that_is_gone_is_refused(rt: HostRuntime) {
    assert!(rt; gone(rt.alloc()) == Some(End::Asked));
}

/// Export 0 goes from an own handle of a resource of the host to one, and so does import 0. Import 1 takes a borrow.
const HANDED: &str =
    r#"{"memory": 64, "heap": 0, "turns": 2, "handles": 8, "resources": [{"kind": "dynamic", "id": 3}],
 "types": [{"own": 0}, {"borrow": 0}], "funcs": [{"params": [0], "results": [0]}],
 "imports": [{"params": [0], "results": [0], "answers": []}, {"params": [1], "results": [], "answers": []}]}"#;

/// The engine is asked for export 0 with handle 1, lends it to import 1, and gives it to import 0.
const HANDED_OVER: [Line; 6] = [
    Line::Told(&[0, 0, 0, 0, 0, 64, 1, 1]),
    LENT,
    Line::Replies([1, 1, 0, 1, 1]),
    Line::Told(&[1, 0, 0, 0, 0, 64, 0]),
    LENT,
    Line::Replies([1, 0, 0, 1, 1]),
];

/// The function of the host is lent the resource as number 1, and given it as number 2.
const NUMBERED: [Line; 5] = [
    Line::Told(&[6, 1, 4]),
    Line::ToldBytes(&[1, 0, 0, 0]),
    Line::Says(&[0, 0]),
    Line::Told(&[6, 0, 4]),
    Line::ToldBytes(&[2, 0, 0, 0]),
];

/// A resource is lent to a function of the host and given to another, which gives it back, and then to the caller as number 3, who drops it.
fn handed_over(alloc: Global) -> Option<End> {
    let back = [
        Line::Told(&[1, 0, 0, 0, 0, 64, 1, 1]),
        LENT,
        Line::Replies([0, 0, 0, 1, 1]),
    ];
    let engine = joined(alloc, &HANDED_OVER, &back)?;
    let answer = [Line::Says(&[0, 4]), Line::SaysBytes(&[2, 0, 0, 0])];
    let host = joined(alloc, &NUMBERED, &answer)?;
    let called = joined(
        alloc,
        &call_with(0, &[0, 0, 0, 0]),
        &[
            Line::Answer([7, 0, 0, 0, 0, 0, 0, 4]),
            Line::ToldBytes(&[3, 0, 0, 0]),
        ],
    )?;
    let dropped = joined(alloc, &[Line::Command([5, 3, 0, 0]), DONE], &living(ZERO))?;
    let caller = joined(alloc, &new_number(ZERO), &called)?;
    let caller = joined(alloc, &caller, &living(ONE))?;
    let caller = joined(alloc, &caller, &dropped)?;
    play_in(alloc, HANDED, &engine, &host, &caller)
}

/// The function of the host gives a number that the session has not, which is refused.
fn handed_unknown(alloc: Global) -> Option<End> {
    let answer = [Line::Says(&[0, 4]), Line::SaysBytes(&[3, 0, 0, 0])];
    let host = joined(alloc, &NUMBERED, &answer)?;
    let refused = joined(
        alloc,
        &call_with(0, &[0, 0, 0, 0]),
        &[Line::Answer([7, 1, 7, 0, 0, 0, 0, 0])],
    )?;
    let caller = joined(alloc, &new_number(ZERO), &refused)?;
    play_in(alloc, HANDED, &HANDED_OVER, &host, &caller)
}

#[test]
fn a_function_of_the_host_takes_and_gives_resources(rt: HostRuntime) {
    assert!(rt; handed_over(rt.alloc()) == Some(End::Asked));
    assert!(rt; handed_unknown(rt.alloc()) == Some(End::Asked));
}

/// Export 0 goes from a number to a number, and import 0 too. Memory is empty, so that events have no bytes of it.
const EMPTY: &str =
    r#"{"memory": 0, "heap": 0, "turns": 2, "funcs": [{"params": ["u32"], "results": ["u32"]}],
 "imports": [{"params": ["u32"], "results": ["u32"], "answers": []}]}"#;

/// The engine is lent a memory of no bytes.
const LENT_NONE: Line = Line::Lent {
    len: 0,
    found: (0, &[]),
    written: (0, &[]),
};

/// The caller asks for the events.
const EVENTS: Line = Line::Command([7, 0, 0, 0]);

/// The engine is instantiated. Export 0 asks for import 0 with 5, is answered with 6, and returns 9; the next time it traps.
const ASKED_THEN_TRAPPED: [Line; 12] = [
    Line::Told(&[5, 0, 0, 0, 0, 0, 0]),
    LENT_NONE,
    Line::Replies([0, 0, 0, 0, 0]),
    Line::Told(&[0, 0, 0, 0, 0, 0, 1, 7]),
    LENT_NONE,
    Line::Replies([1, 0, 0, 1, 5]),
    Line::Told(&[1, 0, 0, 0, 0, 0, 1, 6]),
    LENT_NONE,
    Line::Replies([0, 0, 0, 1, 9]),
    Line::Told(&[0, 0, 0, 0, 0, 0, 1, 7]),
    LENT_NONE,
    Line::Replies([2, 0, 0, 0, 0]),
];

/// The start, the ask, the resume and the return of the first call, by 8 numbers and a word each.
const ASKED_EVENTS: &[u64] = &[
    0, 0, 0, 0, 0, 0, 1, 0, 7, //
    7, 0, 0, 0, 0, 0, 1, 0, 5, //
    1, 0, 0, 0, 0, 0, 1, 0, 6, //
    6, 0, 0, 0, 0, 0, 1, 0, 9,
];

/// The start of the second call, and its trap.
const TRAPPED_EVENTS: &[u64] = &[
    0, 0, 0, 0, 0, 0, 1, 0, 7, //
    8, 0, 0, 0, 0, 0, 0, 0,
];

/// How a session ends that keeps events: those of a call are told once, and then those of the next.
fn events_told(alloc: Global) -> Option<End> {
    let host = [
        Line::Told(&[6, 0, 4]),
        Line::ToldBytes(&[5, 0, 0, 0]),
        Line::Says(&[0, 4]),
        Line::SaysBytes(&[6, 0, 0, 0]),
    ];
    let [call, number] = NUMBER;
    let caller = [
        Line::Command([1, 0, 1, EMPTY.len() as u64]),
        Line::SaysBytes(EMPTY.as_bytes()),
        DONE,
        EVENTS, // there are none yet
        DONE,
        call,
        number,
        Line::Answer([7, 0, 0, 0, 0, 0, 0, 4]),
        Line::ToldBytes(&[9, 0, 0, 0]),
        EVENTS,
        Line::Answer([7, 0, 0, 0, 0, 0, 0, 288]),
        Line::Told(ASKED_EVENTS),
        call,
        number,
        Line::Answer([7, 1, 22, 0, 0, 0, 0, 0]),
        EVENTS,
        Line::Answer([7, 0, 0, 0, 0, 0, 0, 136]),
        Line::Told(TRAPPED_EVENTS),
        END,
    ];
    run(alloc, &ASKED_THEN_TRAPPED, &host, &caller)
}

#[test]
fn events_are_told_once(rt: HostRuntime) {
    assert!(rt; events_told(rt.alloc()) == Some(End::Asked));
}

/// Of these commands nothing is done, so that the engine isn't asked, and the session goes on.
fn senseless(alloc: Global) -> Option<End> {
    let caller = [
        Line::Command([2, 3, 0, 0]), // there is no such export
        Line::Answer([7, 2, 2, 0, 0, 0, 0, 0]),
        Line::Command([2, 1 << 32, 0, 4]), // nor such a number
        Line::SaysBytes(&[7, 0, 0, 0]),
        Line::Answer([7, 2, 2, 0, 0, 0, 0, 0]),
        Line::Command([2, 0, 0, 2]), // a number has four bytes
        Line::SaysBytes(&[7, 0]),
        Line::Answer([7, 2, 3, 0, 0, 0, 0, 0]),
        Line::Command([2, 0, 0, 5]),
        Line::SaysBytes(&[7, 0, 0, 0, 0]),
        Line::Answer([7, 2, 3, 0, 0, 4, 0, 0]),
        Line::Command([1, 0, 0, 2]), // it began already
        Line::SaysBytes(&[123, 125]),
        Line::Answer([7, 2, 1, 0, 0, 0, 0, 0]),
        Line::Command([5, 0, 0, 0]), // there is no such resource
        Line::Answer([7, 2, 4, 0, 0, 0, 0, 0]),
        Line::Command([6, 1 << 32, 0, 0]), // a type has 32 bits
        Line::Answer([7, 2, 7, 0, 0, 0, 0, 0]),
        Line::Command([6, 0, 1 << 32, 0]), // and so has a representation
        Line::Answer([7, 2, 7, 0, 0, 0, 0, 0]),
        Line::Command([7, 0, 0, 0]), // no events are kept
        Line::Answer([7, 2, 8, 0, 0, 0, 0, 0]),
        Line::Command([8, 0, 0, 0]), // there is no such command
        Line::Answer([7, 2, 1, 0, 0, 0, 0, 0]),
    ];
    play(alloc, &[], &[], &caller)
}

#[test]
fn a_command_without_sense_does_nothing(rt: HostRuntime) {
    assert!(rt; senseless(rt.alloc()) == Some(End::Asked));
}

/// How a session ends whose only command is one of so many bytes, which are these, and that is answered so, over an engine that keeps to these lines.
fn first(
    alloc: Global,
    engine: &[Line],
    command: [u64; 2],
    bytes: &'static [u8],
    answer: [u64; 2],
) -> Option<End> {
    let [what, len] = command;
    let [status, error] = answer;
    let head = [what, 0, 0, len];
    let told = [7, status, error, 0, 0, 0, 0, 0];
    let caller = [
        Line::Command(head),
        Line::SaysBytes(bytes),
        Line::Answer(told),
    ];
    run(alloc, engine, &[], &caller)
}

#[test]
fn a_session_begins_with_a_component(rt: HostRuntime) {
    let alloc = rt.alloc();
    let bare = b"{\"memory\": 64, \"heap\": 0}";
    let trap = [
        Line::Told(&[5, 0, 0, 0, 0, 64, 0]),
        LENT,
        Line::Replies([2, 0, 0, 0, 0]),
    ];
    assert!(rt; first(alloc, &[], [1, 2], b"[]", [2, 5]) == Some(End::NoComponent));
    assert!(rt; first(alloc, &[], [2, 1], b"7", [2, 1]) == Some(End::NoComponent));
    assert!(rt; first(alloc, &trap, [1, 25], bare, [1, 22]) == Some(End::NotInstantiated));
    assert!(rt; run(alloc, &[], &[], &[Line::Command([1, 0, 0, 16_777_217])]) == Some(End::Broken));
    assert!(rt; run(alloc, &[], &[], &[]) == Some(End::Broken));
}

/// Whether a start of function 3 with 258 in 64 bytes of memory passes over a channel that keeps what passed, and the engine writes there.
fn kept(alloc: Global) -> Option<bool> {
    let write = Given::Writes {
        at: 63,
        bytes: [9].to_vec(alloc).ok()?,
    };
    let reply = Vec::from_elem(alloc, 0u8, 168).ok()?;
    let given = vec![in alloc; write, Given::Bytes(reply)].ok()?;
    let mut relay = Relay::new(alloc, MemoryChannel::new(alloc, given));
    let mut memory = Memory::new(alloc, 64).ok()?;
    let _step = relay.start(&mut memory, 3, &[ValRaw::u32(258)]).ok()?;
    let [
        Said::Told(told),
        Said::Lent { before, after },
        Said::Heard(_),
    ] = relay.channel().said()
    else {
        return None;
    };
    let numbers = [
        0, 0, 0, 0, 0, 0, 0, 0, 3, 0, 0, 0, 0, 0, 0, 0, 0, 0, 0, 0, 0, 0, 0, 0, 0, 0, 0, 0, 0, 0,
        0, 0, 0, 0, 0, 0, 0, 0, 0, 0, 64, 0, 0, 0, 0, 0, 0, 0, 1, 0, 0, 0, 0, 0, 0, 0, 2, 1, 0, 0,
        0, 0, 0, 0,
    ];
    let was_zero = before.as_slice() == [0; 64].as_slice();
    Some(told.as_slice() == numbers.as_slice() && was_zero && after.last() == Some(&9))
}

#[test]
fn a_demand_is_spelled_by_its_lowest_bytes_first(rt: HostRuntime) {
    assert!(rt; kept(rt.alloc()) == Some(true));
}
