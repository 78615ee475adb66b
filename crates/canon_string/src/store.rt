//! Texts in blocks of their own, in each encoding (CanonicalABI.md, "store_string").

ghost use Rattle.std.specs.Prelude.{◌≡◌, ◌≤◌, ◌<◌, ◌+◌, ◌*◌, ◌%◌, ◌^◌, ◌↔◌, IsTrue, IsUtf8, List, length, ℕ};
ghost use Rattle.canon_lowering.specs.Steps.{Writes};
ghost use Rattle.canon_lowering.specs.Storing.{narrow};
ghost use Rattle.canon_memory.specs.Realloc.{block};
ghost use Rattle.canon_model.specs.Laws.{IsAlignment};
ghost use Rattle.canon_model.specs.Memory.{bytes_at};
ghost use Rattle.canon_model.specs.Text.{Spells, all_latin1, compact, in_utf8, most_bytes, utf16, utf8};
ghost use Rattle.canon_text.specs.Answers.{Narrows, Widens};
ghost use Rattle.canon_context.specs.Core.{encoding_by};
ghost use Rattle.canon_string.specs.Texts.{FitsTo, PutsText};

use canon_context::{Core, Fault, ask, ask_again};
use canon_memory::Guest;
use canon_text::{SizePair, UTF16_TAG, utf8_to_compact_utf16, utf8_to_latin1};
use canon_types::{OptionsIndex, StringEncoding};

/// Where a text stands, and its length.
#[derive(Clone, Copy)]
pub struct TextBlock {
    /// The address of its block.
    pub pointer: u64,
    /// Its length in bytes or in units, with the tag of its encoding.
    pub length: u64,
}

/// The most bytes that a text is asked for (MAX_STRING_BYTE_LENGTH).
const MAX_STRING_BYTES: u64 = 0x7fff_ffff;

/// Puts the text that these bytes of UTF-8 are into a block of its own in the guest's memory, under the encoding of the options
/// (CanonicalABI.md, "store_string_into_range"). Answers the block's address, and its length, in bytes or in units,
/// with its tag. Refuses `StringTooLong`, with the number of these bytes, before anything is asked for; else as
/// `Core::realloc` does.
pub fn put_text<T, G: Guest>(
    core: &mut Core<T, G>,
    options: OptionsIndex,
    text: &[u8],
) -> Result<TextBlock, Fault>
    requires small { length core.old.memory ≤ 2 ^ 32 }
    requires text { IsUtf8 text.now }
    ensures puts { PutsText G.seen G.moves options core.old core.new text.now result }
{
    match core.encoding(options) {
        StringEncoding::Utf8 => put_utf8(core, options, text),
        StringEncoding::Utf16 => put_utf16(core, options, text),
        StringEncoding::CompactUtf16 => put_compact(core, options, text),
    }
}

/// The same, under UTF-8 (CanonicalABI.md, "store_string_copy").
fn put_utf8<T, G: Guest>(
    core: &mut Core<T, G>,
    options: OptionsIndex,
    text: &[u8],
) -> Result<TextBlock, Fault>
    requires small { length core.old.memory ≤ 2 ^ 32 }
    requires text { IsUtf8 text.now }
    requires form { encoding_by core.old options ≡ utf8 }
    ensures puts { PutsText G.seen G.moves options core.old core.new text.now result }
{
    let count = text.len() as u64;
    if count > MAX_STRING_BYTES {
        return Err(Fault::StringTooLong(count));
    }
    match ask(core, 1, count) {
        Ok(pointer) => {
            write_bytes(core.as_slice_mut(), pointer, text);
            Ok(TextBlock {
                pointer,
                length: count,
            })
        }
        Err(fault) => Err(fault),
    }
}

/// The same, under UTF-16, whose units are counted (CanonicalABI.md, "store_utf8_to_utf16").
fn put_utf16<T, G: Guest>(
    core: &mut Core<T, G>,
    options: OptionsIndex,
    text: &[u8],
) -> Result<TextBlock, Fault>
    requires small { length core.old.memory ≤ 2 ^ 32 }
    requires text { IsUtf8 text.now }
    requires form { encoding_by core.old options ≡ utf16 }
    ensures puts { PutsText G.seen G.moves options core.old core.new text.now result }
{
    let count = text.len() as u64;
    if count > MAX_STRING_BYTES / 2 {
        return Err(Fault::StringTooLong(count));
    }
    let pointer = match ask(core, 2, 2 * count) {
        Ok(pointer) => pointer,
        Err(fault) => return Err(fault),
    };
    let units = write_units(core.as_slice_mut(), pointer, 2 * count, text, 0);
    match fit(core, pointer, 2 * count, 2, 2 * units) {
        Ok(pointer) => Ok(TextBlock {
            pointer,
            length: units,
        }),
        Err(fault) => Err(fault),
    }
}

/// The same, under "latin1+utf16": as Latin-1, or as UTF-16 from the first character on that isn't Latin-1
/// (CanonicalABI.md, "store_string_to_latin1_or_utf16").
fn put_compact<T, G: Guest>(
    core: &mut Core<T, G>,
    options: OptionsIndex,
    text: &[u8],
) -> Result<TextBlock, Fault>
    requires small { length core.old.memory ≤ 2 ^ 32 }
    requires text { IsUtf8 text.now }
    requires form { encoding_by core.old options ≡ compact }
    ensures puts { PutsText G.seen G.moves options core.old core.new text.now result }
{
    let count = text.len() as u64;
    if is_past_compact(text) {
        return Err(Fault::StringTooLong(count));
    }
    let pointer = match ask(core, 2, count) {
        Ok(pointer) => pointer,
        Err(fault) => return Err(fault),
    };
    let done = write_latin1(core.as_slice_mut(), pointer, text);
    if done.src_read == count {
        return match fit(core, pointer, count, 2, done.dst_written) {
            Ok(pointer) => Ok(TextBlock {
                pointer,
                length: done.dst_written,
            }),
            Err(fault) => Err(fault),
        };
    }
    let pointer = match ask_again(core, pointer, count, 2, 2 * count) {
        Ok(pointer) => pointer,
        Err(fault) => return Err(fault),
    };
    let rest = &text[done.src_read as usize..];
    let units = write_units(
        core.as_slice_mut(),
        pointer,
        2 * count,
        rest,
        done.dst_written,
    );
    match fit(core, pointer, 2 * count, 2, 2 * units) {
        Ok(pointer) => Ok(TextBlock {
            pointer,
            length: units + UTF16_TAG,
        }),
        Err(fault) => Err(fault),
    }
}

/// Whether a text has too many bytes for "latin1+utf16", which are twice as many where it isn't Latin-1.
fn is_past_compact(text: &[u8]) -> bool
    ensures { (cs : List ℕ) → Spells in_utf8 text.now cs → IsTrue result ↔ (2 ^ 31 ≤ most_bytes compact (length text.now) cs) }
{
    let count = text.len() as u64;
    if count > MAX_STRING_BYTES {
        return true;
    }
    count > MAX_STRING_BYTES / 2 && !is_latin1(text)
}

/// Whether each character of UTF-8 is up to U+00FF: bytes from 0xC4 on begin the others alone.
fn is_latin1(text: &[u8]) -> bool
    ensures { (cs : List ℕ) → Spells in_utf8 text.now cs → result ≡ all_latin1 cs }
{
    for i in 0..text.len() {
        if text[i] >= 0xC4 {
            return false;
        }
    }
    true
}

/// Gives back what isn't needed of a text's block, of this alignment.
fn fit<T, G: Guest>(
    core: &mut Core<T, G>,
    pointer: u64,
    size: u64,
    align: u32,
    needed: u64,
) -> Result<u64, Fault>
    requires alignment { IsAlignment align }
    requires narrow { pointer < 2 ^ 32 }
    requires sized { size < 2 ^ 32 }
    requires fits { needed ≤ size }
    ensures fits { FitsTo G.seen G.moves core.old core.new align pointer size needed result }
{
    if needed < size {
        ask_again(core, pointer, size, align, needed)
    } else {
        Ok(pointer)
    }
}

/// Writes bytes into memory from an address on.
fn write_bytes(memory: &mut [u8], at: u64, bytes: &[u8])
    requires room { at + length bytes.now ≤ length memory.old }
    ensures writes { Writes (block at (length bytes.now)) memory.old memory.new }
    ensures there { bytes_at (narrow memory.new) at (length bytes.now) ≡ bytes.now }
{
    let start = at as usize;
    memory[start..start + bytes.len()].copy_from_slice(bytes);
}

/// Writes a text as Latin-1 into a block of as many bytes, as far as it goes.
fn write_latin1(memory: &mut [u8], at: u64, text: &[u8]) -> SizePair
    requires room { at + length text.now ≤ length memory.old }
    ensures writes { Writes (block at (length text.now)) memory.old memory.new }
    ensures narrows { Narrows in_utf8 text.now (bytes_at (narrow memory.old) at (length text.now)) (bytes_at (narrow memory.new) at (length text.now))
        result.src_read result.dst_written }
    ensures few { (result.dst_written ≤ result.src_read) × (result.src_read ≤ length text.now) }
{
    let start = at as usize;
    utf8_to_latin1(text, &mut memory[start..start + text.len()])
}

/// Makes the first bytes of a block UTF-16, which are Latin-1, and writes a text behind them. Answers all units.
fn write_units(memory: &mut [u8], at: u64, size: u64, text: &[u8], latin1_bytes_so_far: u64) -> u64
    requires inside { at + size ≤ length memory.old }
    requires even { size % 2 ≡ 0 }
    requires room { 2 * (latin1_bytes_so_far + length text.now) ≤ size }
    requires text { IsUtf8 text.now }
    ensures writes { Writes (block at size) memory.old memory.new }
    ensures widens { Widens in_utf8 text.now (bytes_at (narrow memory.old) at size) (bytes_at (narrow memory.new) at size) latin1_bytes_so_far result }
    ensures few { result ≤ latin1_bytes_so_far + length text.now }
{
    let start = at as usize;
    let block = &mut memory[start..start + size as usize];
    match utf8_to_compact_utf16(text, block, latin1_bytes_so_far) {
        Ok(units) => units,
        Err(_) => 0,
    }
}
