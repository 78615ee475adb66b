//! Texts in memory, in each encoding.

ghost use Rattle.std.specs.Prelude.{◌≡◌, ◌≤◌, ◌<◌, ◌+◌, ◌*◌, ◌^◌, IfErr, IfOk, string_bytes};
ghost use Rattle.canon_abi.specs.Options.{encoding_of};
ghost use Rattle.canon_lowering.specs.Storing.{narrow};
ghost use Rattle.canon_model.specs.Memory.{bytes_at};
ghost use Rattle.canon_model.specs.Reach.{IsGood, PointerFault, TextFault, text_reach};
ghost use Rattle.canon_model.specs.Text.{compact, utf16, utf8};
ghost use Rattle.canon_text.specs.Decoding.{cow_text};
ghost use Rattle.canon_string.specs.Loading.{IsTextLoaded};
ghost use Rattle.canon_context.specs.Told.{Exactly, IsNoRefusal, LiftBlames, place_of};

use canon_bytes::ends_inside;
use canon_context::{At, Fault, Source, charge};
use canon_text::{CowStr, DecodeError, UTF16_TAG, decode_latin1, decode_utf8, decode_utf16};
use canon_types::StringEncoding;
use std::alloc::Global;

/// The text of this length at this pointer, which stands at `at` (CanonicalABI.md, "load_string_from_range"): it is tested
/// that the pointer is aligned and that the text ends inside memory, then its bytes are charged, and then their spelling is
/// tested.
pub fn load_text(
    alloc: Global,
    source: &Source<'_>,
    fuel: &mut u64,
    pointer: u64,
    length: u64,
    at: At,
) -> Result<String, Fault>
    requires narrow_length { length < 2 ^ 32 }
    ensures ok { IfOk result (IsTextLoaded (encoding_of source.now.encoding) (narrow source.now.memory.now) pointer length fuel.old fuel.new) }
    ensures err { IfErr result (LiftBlames (Exactly (TextFault (encoding_of source.now.encoding) (narrow source.now.memory.now) (place_of at) pointer length))
        (fuel.old < text_reach (encoding_of source.now.encoding) (narrow source.now.memory.now) pointer length)) }
    ensures unrefused { IfErr result IsNoRefusal }
    ensures falls { fuel.new ≤ fuel.old }
{
    let memory = source.memory;
    match source.encoding {
        StringEncoding::Utf8 => load_utf8(alloc, memory, fuel, pointer, length, at),
        StringEncoding::Utf16 => load_utf16(alloc, memory, fuel, pointer, length, at),
        StringEncoding::CompactUtf16 => load_compact(alloc, memory, fuel, pointer, length, at),
    }
}

/// The bytes that spell a text, so many from the pointer on.
fn charged_bytes<'a>(
    memory: &'a [u8],
    fuel: &mut u64,
    pointer: u64,
    count: u64,
    align: u64,
    at: At,
) -> Result<&'a [u8], Fault>
    requires some { 0 < align }
    ensures bytes { IfOk result (λ bytes. bytes.now ≡ bytes_at (narrow memory.now) pointer count) }
    ensures good { IfOk result (λ _. IsGood (narrow memory.now) pointer count align) }
    ensures charged { IfOk result (λ _. fuel.old ≡ fuel.new + count) }
    ensures err { IfErr result (LiftBlames (Exactly (PointerFault (narrow memory.now) (place_of at) pointer count align))
        (IsGood (narrow memory.now) pointer count align × (fuel.old < count))) }
    ensures unrefused { IfErr result IsNoRefusal }
    ensures falls { fuel.new ≤ fuel.old }
{
    if pointer % align != 0 {
        return Err(Fault::PointerMisaligned(at));
    }
    if !ends_inside(memory, pointer, count, 1) {
        return Err(Fault::PointerOutOfBounds(at));
    }
    charge(fuel, count)?;
    let start = pointer as usize;
    Ok(&memory[start..start + count as usize])
}

/// The UTF-8 text of so many bytes.
fn load_utf8(
    alloc: Global,
    memory: &[u8],
    fuel: &mut u64,
    pointer: u64,
    length: u64,
    at: At,
) -> Result<String, Fault>
    ensures ok { IfOk result (IsTextLoaded utf8 (narrow memory.now) pointer length fuel.old fuel.new) }
    ensures err { IfErr result (LiftBlames (Exactly (TextFault utf8 (narrow memory.now) (place_of at) pointer length))
        (fuel.old < text_reach utf8 (narrow memory.now) pointer length)) }
    ensures unrefused { IfErr result IsNoRefusal }
    ensures falls { fuel.new ≤ fuel.old }
{
    match charged_bytes(memory, fuel, pointer, length, 1, at) {
        Ok(bytes) => match decode_utf8(bytes) {
            Ok(text) => owned(alloc, text),
            Err(_) => Err(Fault::InvalidUtf8(at)),
        },
        Err(fault) => Err(fault),
    }
}

/// The UTF-16 text of so many units.
fn load_utf16(
    alloc: Global,
    memory: &[u8],
    fuel: &mut u64,
    pointer: u64,
    units: u64,
    at: At,
) -> Result<String, Fault>
    requires narrow_length { units < 2 ^ 32 }
    ensures ok { IfOk result (IsTextLoaded utf16 (narrow memory.now) pointer units fuel.old fuel.new) }
    ensures err { IfErr result (LiftBlames (Exactly (TextFault utf16 (narrow memory.now) (place_of at) pointer units))
        (fuel.old < text_reach utf16 (narrow memory.now) pointer units)) }
    ensures unrefused { IfErr result IsNoRefusal }
    ensures falls { fuel.new ≤ fuel.old }
{
    match charged_bytes(memory, fuel, pointer, 2 * units, 2, at) {
        Ok(bytes) => match decode_utf16(alloc, bytes) {
            Ok(text) => owned(alloc, text),
            Err(DecodeError::Text(_)) => Err(Fault::InvalidUtf16(at)),
            Err(DecodeError::OutOfMemory) => Err(Fault::OutOfMemory),
        },
        Err(fault) => Err(fault),
    }
}

/// The compact text of this length: UTF-16 where it is tagged, else Latin-1.
fn load_compact(
    alloc: Global,
    memory: &[u8],
    fuel: &mut u64,
    pointer: u64,
    length: u64,
    at: At,
) -> Result<String, Fault>
    requires narrow_length { length < 2 ^ 32 }
    ensures ok { IfOk result (IsTextLoaded compact (narrow memory.now) pointer length fuel.old fuel.new) }
    ensures err { IfErr result (LiftBlames (Exactly (TextFault compact (narrow memory.now) (place_of at) pointer length))
        (fuel.old < text_reach compact (narrow memory.now) pointer length)) }
    ensures unrefused { IfErr result IsNoRefusal }
    ensures falls { fuel.new ≤ fuel.old }
{
    if length >= UTF16_TAG {
        load_utf16(alloc, memory, fuel, pointer, length - UTF16_TAG, at)
    } else {
        load_latin1(alloc, memory, fuel, pointer, length, at)
    }
}

/// The Latin-1 text of so many bytes, whose pointer is aligned as one to UTF-16 is.
fn load_latin1(
    alloc: Global,
    memory: &[u8],
    fuel: &mut u64,
    pointer: u64,
    length: u64,
    at: At,
) -> Result<String, Fault>
    requires untagged { length < 2 ^ 31 }
    ensures ok { IfOk result (IsTextLoaded compact (narrow memory.now) pointer length fuel.old fuel.new) }
    ensures err { IfErr result (LiftBlames (Exactly (TextFault compact (narrow memory.now) (place_of at) pointer length))
        (fuel.old < text_reach compact (narrow memory.now) pointer length)) }
    ensures unrefused { IfErr result IsNoRefusal }
    ensures falls { fuel.new ≤ fuel.old }
{
    match charged_bytes(memory, fuel, pointer, length, 2, at) {
        Ok(bytes) => match decode_latin1(alloc, bytes) {
            Ok(text) => owned(alloc, text),
            Err(_) => Err(Fault::OutOfMemory),
        },
        Err(fault) => Err(fault),
    }
}

/// The text itself, copied where it is borrowed.
fn owned(alloc: Global, text: CowStr<'_>) -> Result<String, Fault>
    ensures same { IfOk result (λ s. string_bytes s ≡ cow_text text.entry) }
    ensures only_memory { IfErr result (λ e. e ≡ Fault.OutOfMemory) }
{
    match text {
        CowStr::Borrowed(text) => Ok(String::from_str(alloc, text)?),
        CowStr::Owned(text) => Ok(text),
    }
}
