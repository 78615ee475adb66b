//! The command `text`: does each text conversion that a JSON value asks for, and prints a line for it.

ghost use Rattle.std.specs.Prelude.{◌≡◌, ◌≤◌, ◌<◌, ◌^◌, ◌+◌, ◌*◌, ◌/◌, ◌%◌, ◌++◌, None, Some, false, IfErr, length, map, flat_map, take, List, ℕ, Ok, Err, IfOk, OnOk, MatchResult, string_bytes, vec_len};
ghost use Rattle.hex.specs.Hex.{encode_lower};
ghost use Rattle.serde_json.specs.View.{view};
ghost use Rattle.canon_model.specs.Text.{unit_bytes};
ghost use Rattle.canon_text.specs.Decoding.{units_in};
ghost use Rattle.canon_conversions.specs.Conversions.{Job, conversions_of, destination, job_of};
ghost use Rattle.canon_conversions.specs.Lines as spec;
ghost use Rattle.canon_json.specs.declared.error.ScriptError.TheVariants as refused;

use crate::conversion::{Conversion, TextCall};
use crate::conversions::conversions_of;
use canon_json::ScriptError;
use canon_text::{
    SizePair, TextError, latin1_to_latin1, latin1_to_utf8, latin1_to_utf16, utf8_to_compact_utf16,
    utf8_to_latin1, utf8_to_utf8, utf8_to_utf16, utf16_to_compact_probably_utf16,
    utf16_to_compact_utf16, utf16_to_latin1, utf16_to_utf8, utf16_to_utf16,
};
use serde_json::Value;
use std::alloc::{AllocError, Global};

/// Plays the conversions that a JSON value asks for, and gives a line for each. Answers BadScript where the value
/// asks for none.
pub fn text_lines(alloc: Global, v: &Value) -> Result<String, ScriptError>
    ensures lines { IfOk result (λ text. (jobs : List Job) × (conversions_of (view v.now) ≡ Some jobs) × spec.Lines jobs (string_bytes text)) }
    ensures bad_script { result ≡ Err refused.BadScript → conversions_of (view v.now) ≡ None }
{
    let conversions = conversions_of(alloc, v)?;
    print_lines(alloc, &conversions)
}

fn print_lines(alloc: Global, conversions: &[Conversion]) -> Result<String, ScriptError>
    ensures lines { IfOk result (λ text. spec.Lines (map job_of conversions.now) (string_bytes text)) }
    ensures memory { IfErr result (λ e. e ≡ refused.OutOfMemory) }
{
    let mut text = String::new(alloc);
    for conversion in conversions {
        print_line(alloc, &mut text, conversion)?;
    }
    Ok(text)
}

fn print_line(alloc: Global, text: &mut String, c: &Conversion) -> Result<(), AllocError>
    ensures { OnOk result ((line : List ℕ) × spec.Line (job_of c.now) line × (string_bytes text.new ≡ string_bytes text.old ++ line)) }
{
    text.push_str(c.call.name())?;
    let dst = destination(alloc, c)?;
    let dst = play(alloc, text, c, dst)?;
    print_destination(alloc, text, &dst)?;
    text.push_str("\n")
}

// The destination before the call: its front, and zeros.
fn destination(alloc: Global, c: &Conversion) -> Result<Vec<u8>, AllocError>
    ensures { IfOk result (λ dst. dst.items ≡ destination (job_of c.now)) }
{
    let zeros = vec![in alloc; 0u8; c.room as usize - c.dst.len()]?;
    let mut dst = Vec::from_slice(alloc, &c.dst)?;
    dst.extend_from_slice(&zeros)?;
    Ok(dst)
}

fn print_destination(alloc: Global, text: &mut String, dst: &[u8]) -> Result<(), AllocError>
    ensures { OnOk result (string_bytes text.new ≡ string_bytes text.old ++ spec.destination_text dst.now) }
{
    if dst.is_empty() {
        return Ok(());
    }
    let digits = hex::encode(alloc, dst)?;
    text.push_str(" ")?;
    text.push_str(&digits)
}

// Plays a conversion over a destination, prints its answer, and gives the destination back.
fn play(
    alloc: Global,
    text: &mut String,
    c: &Conversion,
    dst: Vec<u8>,
) -> Result<Vec<u8>, AllocError>
    requires { dst.items ≡ destination (job_of c.now) }
    ensures { IfOk result (λ new. (said : List ℕ) × spec.CallSays c.now.call c.now.src.items dst.items c.now.first c.now.so_far said new.items
        × (string_bytes text.new ≡ string_bytes text.old ++ said)) }
{
    match c.call {
        TextCall::Utf8ToUtf8 => play_utf8_to_utf8(text, &c.src, dst),
        TextCall::Utf16ToUtf16 => play_utf16_to_utf16(alloc, text, &c.src, &dst),
        TextCall::Latin1ToLatin1 => play_latin1_to_latin1(text, &c.src, dst),
        TextCall::Latin1ToUtf16 => play_latin1_to_utf16(alloc, text, &c.src, &dst),
        TextCall::Utf8ToUtf16 => play_utf8_to_utf16(alloc, text, &c.src, &dst),
        TextCall::Utf16ToUtf8 => play_utf16_to_utf8(alloc, text, &c.src, dst, c.first),
        TextCall::Latin1ToUtf8 => play_latin1_to_utf8(text, &c.src, dst, c.first),
        TextCall::Utf16ToCompactProbablyUtf16 => play_compact_probably(alloc, text, &c.src, dst),
        TextCall::Utf8ToLatin1 => play_utf8_to_latin1(text, &c.src, dst),
        TextCall::Utf16ToLatin1 => play_utf16_to_latin1(alloc, text, &c.src, dst),
        TextCall::Utf8ToCompactUtf16 => play_utf8_to_compact(text, &c.src, dst, c.so_far),
        TextCall::Utf16ToCompactUtf16 => play_utf16_to_compact(alloc, text, &c.src, dst, c.so_far),
    }
}

fn play_utf8_to_utf8(text: &mut String, src: &[u8], dst: Vec<u8>) -> Result<Vec<u8>, AllocError>
    requires room { length src.now ≡ vec_len dst }
    ensures { IfOk result (λ new. (said : List ℕ) × spec.CallSays TextCall.Utf8ToUtf8 src.now dst.items false 0 said new.items × (string_bytes text.new ≡ string_bytes text.old ++ said)) }
{
    let mut dst = dst;
    let answer = utf8_to_utf8(src, &mut dst);
    print_done(text, &answer)?;
    Ok(dst)
}

fn play_utf16_to_utf16(
    alloc: Global,
    text: &mut String,
    src: &[u8],
    dst: &[u8],
) -> Result<Vec<u8>, AllocError>
    requires even { length src.now % 2 ≡ 0 }
    requires room { length src.now ≡ length dst.now }
    ensures { IfOk result (λ new. (said : List ℕ) × spec.CallSays TextCall.Utf16ToUtf16 src.now dst.now false 0 said new.items × (string_bytes text.new ≡ string_bytes text.old ++ said)) }
{
    let src = units_of(alloc, src)?;
    let mut units = units_of(alloc, dst)?;
    let answer = utf16_to_utf16(&src, &mut units);
    print_done(text, &answer)?;
    bytes_of(alloc, &units)
}

fn play_latin1_to_latin1(text: &mut String, src: &[u8], dst: Vec<u8>) -> Result<Vec<u8>, AllocError>
    requires room { length src.now ≡ vec_len dst }
    ensures { IfOk result (λ new. (said : List ℕ) × spec.CallSays TextCall.Latin1ToLatin1 src.now dst.items false 0 said new.items × (string_bytes text.new ≡ string_bytes text.old ++ said)) }
{
    let mut dst = dst;
    latin1_to_latin1(src, &mut dst);
    text.push_str(" ok")?;
    Ok(dst)
}

fn play_latin1_to_utf16(
    alloc: Global,
    text: &mut String,
    src: &[u8],
    dst: &[u8],
) -> Result<Vec<u8>, AllocError>
    requires room { length src.now ≡ length dst.now / 2 }
    ensures { IfOk result (λ new. (said : List ℕ) × spec.CallSays TextCall.Latin1ToUtf16 src.now dst.now false 0 said new.items × (string_bytes text.new ≡ string_bytes text.old ++ said)) }
{
    let mut units = units_of(alloc, dst)?;
    latin1_to_utf16(src, &mut units);
    text.push_str(" ok")?;
    bytes_of(alloc, &units)
}

fn play_utf8_to_utf16(
    alloc: Global,
    text: &mut String,
    src: &[u8],
    dst: &[u8],
) -> Result<Vec<u8>, AllocError>
    requires room { length src.now ≤ length dst.now / 2 }
    ensures { IfOk result (λ new. (said : List ℕ) × spec.CallSays TextCall.Utf8ToUtf16 src.now dst.now false 0 said new.items × (string_bytes text.new ≡ string_bytes text.old ++ said)) }
{
    let mut units = units_of(alloc, dst)?;
    let answer = utf8_to_utf16(src, &mut units);
    print_wrote(text, &answer)?;
    bytes_of(alloc, &units)
}

fn play_utf16_to_utf8(
    alloc: Global,
    text: &mut String,
    src: &[u8],
    dst: Vec<u8>,
    first: bool,
) -> Result<Vec<u8>, AllocError>
    ensures { IfOk result (λ new. (said : List ℕ) × spec.CallSays TextCall.Utf16ToUtf8 src.now dst.items first 0 said new.items × (string_bytes text.new ≡ string_bytes text.old ++ said)) }
{
    let src = units_of(alloc, src)?;
    let mut dst = dst;
    let answer = utf16_to_utf8(&src, &mut dst, first);
    print_pass(text, &answer)?;
    Ok(dst)
}

fn play_latin1_to_utf8(
    text: &mut String,
    src: &[u8],
    dst: Vec<u8>,
    first: bool,
) -> Result<Vec<u8>, AllocError>
    ensures { IfOk result (λ new. (said : List ℕ) × spec.CallSays TextCall.Latin1ToUtf8 src.now dst.items first 0 said new.items × (string_bytes text.new ≡ string_bytes text.old ++ said)) }
{
    let mut dst = dst;
    let pair = latin1_to_utf8(src, &mut dst, first);
    print_pair(text, pair)?;
    Ok(dst)
}

fn play_compact_probably(
    alloc: Global,
    text: &mut String,
    src: &[u8],
    dst: Vec<u8>,
) -> Result<Vec<u8>, AllocError>
    requires room { vec_len dst ≡ 2 * (length src.now / 2) }
    requires short { length src.now / 2 < 2 ^ 31 }
    ensures { IfOk result (λ new. (said : List ℕ) × spec.CallSays TextCall.Utf16ToCompactProbablyUtf16 src.now dst.items false 0 said new.items × (string_bytes text.new ≡ string_bytes text.old ++ said)) }
{
    let src = units_of(alloc, src)?;
    let mut dst = dst;
    let answer = utf16_to_compact_probably_utf16(&src, &mut dst);
    print_length(text, &answer)?;
    Ok(dst)
}

fn play_utf8_to_latin1(text: &mut String, src: &[u8], dst: Vec<u8>) -> Result<Vec<u8>, AllocError>
    requires room { length src.now ≤ vec_len dst }
    ensures { IfOk result (λ new. (said : List ℕ) × spec.CallSays TextCall.Utf8ToLatin1 src.now dst.items false 0 said new.items × (string_bytes text.new ≡ string_bytes text.old ++ said)) }
{
    let mut dst = dst;
    let pair = utf8_to_latin1(src, &mut dst);
    print_pair(text, pair)?;
    Ok(dst)
}

fn play_utf16_to_latin1(
    alloc: Global,
    text: &mut String,
    src: &[u8],
    dst: Vec<u8>,
) -> Result<Vec<u8>, AllocError>
    requires room { length src.now / 2 ≤ vec_len dst }
    ensures { IfOk result (λ new. (said : List ℕ) × spec.CallSays TextCall.Utf16ToLatin1 src.now dst.items false 0 said new.items × (string_bytes text.new ≡ string_bytes text.old ++ said)) }
{
    let src = units_of(alloc, src)?;
    let mut dst = dst;
    let pair = utf16_to_latin1(&src, &mut dst);
    print_pair(text, pair)?;
    Ok(dst)
}

fn play_utf8_to_compact(
    text: &mut String,
    src: &[u8],
    dst: Vec<u8>,
    so_far: u64,
) -> Result<Vec<u8>, AllocError>
    requires room { 2 * (so_far + length src.now) ≤ vec_len dst }
    requires even { vec_len dst % 2 ≡ 0 }
    ensures { IfOk result (λ new. (said : List ℕ) × spec.CallSays TextCall.Utf8ToCompactUtf16 src.now dst.items false so_far said new.items × (string_bytes text.new ≡ string_bytes text.old ++ said)) }
{
    let mut dst = dst;
    let answer = utf8_to_compact_utf16(src, &mut dst, so_far);
    print_length(text, &answer)?;
    Ok(dst)
}

fn play_utf16_to_compact(
    alloc: Global,
    text: &mut String,
    src: &[u8],
    dst: Vec<u8>,
    so_far: u64,
) -> Result<Vec<u8>, AllocError>
    requires room { 2 * (so_far + length src.now / 2) ≤ vec_len dst }
    requires even { vec_len dst % 2 ≡ 0 }
    ensures { IfOk result (λ new. (said : List ℕ) × spec.CallSays TextCall.Utf16ToCompactUtf16 src.now dst.items false so_far said new.items × (string_bytes text.new ≡ string_bytes text.old ++ said)) }
{
    let src = units_of(alloc, src)?;
    let mut dst = dst;
    let answer = utf16_to_compact_utf16(&src, &mut dst, so_far);
    print_length(text, &answer)?;
    Ok(dst)
}

// The units of 16 bits that bytes hold, the low byte first.
fn units_of(alloc: Global, bytes: &[u8]) -> Result<Vec<u16>, AllocError>
    ensures units { IfOk result (λ units. units.items ≡ units_in bytes.now) }
    ensures half { IfOk result (λ units. vec_len units ≡ length bytes.now / 2) }
{
    let mut units = Vec::new(alloc);
    let mut rest = bytes;
    while let [low, high, tail @ ..] = rest {
        units.push(u16::from(*low) + 256 * u16::from(*high))?;
        rest = tail;
    }
    Ok(units)
}

// Units as bytes, the low byte first.
fn bytes_of(alloc: Global, units: &[u16]) -> Result<Vec<u8>, AllocError>
    ensures { IfOk result (λ bytes. bytes.items ≡ flat_map unit_bytes units.now) }
{
    let mut bytes = Vec::new(alloc);
    for unit in units {
        bytes.push((unit % 256) as u8)?;
        bytes.push((unit / 256) as u8)?;
    }
    Ok(bytes)
}

fn print_done(text: &mut String, answer: &Result<(), TextError>) -> Result<(), AllocError>
    ensures { OnOk result (string_bytes text.new ≡ string_bytes text.old ++ spec.done_text answer.now) }
{
    match answer {
        Ok(()) => text.push_str(" ok"),
        Err(error) => print_fault(text, *error),
    }
}

fn print_wrote(text: &mut String, answer: &Result<u64, TextError>) -> Result<(), AllocError>
    ensures { OnOk result (string_bytes text.new ≡ string_bytes text.old ++ spec.wrote_text answer.now) }
{
    match answer {
        Ok(count) => write!(text, " wrote {count}"),
        Err(error) => print_fault(text, *error),
    }
}

fn print_length(text: &mut String, answer: &Result<u64, TextError>) -> Result<(), AllocError>
    ensures { OnOk result (string_bytes text.new ≡ string_bytes text.old ++ spec.length_text answer.now) }
{
    match answer {
        Ok(length) => write!(text, " length {length}"),
        Err(error) => print_fault(text, *error),
    }
}

fn print_pass(text: &mut String, answer: &Result<SizePair, TextError>) -> Result<(), AllocError>
    ensures { OnOk result (string_bytes text.new ≡ string_bytes text.old ++ spec.pass_text answer.now) }
{
    match answer {
        Ok(pair) => print_pair(text, *pair),
        Err(error) => print_fault(text, *error),
    }
}

fn print_pair(text: &mut String, pair: SizePair) -> Result<(), AllocError>
    ensures { OnOk result (string_bytes text.new ≡ string_bytes text.old ++ spec.pair_text pair) }
{
    let read = pair.src_read;
    let wrote = pair.dst_written;
    write!(text, " read {read} wrote {wrote}")
}

fn print_fault(text: &mut String, error: TextError) -> Result<(), AllocError>
    ensures { OnOk result (string_bytes text.new ≡ string_bytes text.old ++ spec.text_fault_text error) }
{
    match error {
        TextError::InvalidUtf8(place) => write!(text, " InvalidUtf8 {place}"),
        TextError::InvalidUtf16(place) => write!(text, " InvalidUtf16 {place}"),
    }
}
