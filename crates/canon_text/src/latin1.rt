//! Conversions of and into Latin-1.

ghost use Rattle.std.specs.Prelude.{◌≡◌, ◌<◌, ◌≤◌, length, drop, MatchOption};
ghost use Rattle.std.specs.Char.{encode_utf8};
ghost use Rattle.canon_model.specs.Text.{in_latin1, in_utf16, in_utf8};
ghost use Rattle.canon_text.specs.Answers.{Converts, Narrows, Passed};
ghost use Rattle.canon_text.specs.Faults.{Begins, BeginsNoLatin1};
ghost use Rattle.canon_text.specs.TwoBytes.{IsNotTwoBytes, IsTwoBytes};

use crate::copy::copy_ascii;
use crate::error::SizePair;
use crate::narrow::narrow_below;
use crate::utf16::ends_pass;
use crate::writing::write_utf8;

/// Copies Latin-1 into as many bytes (wasmtime's `latin1_to_latin1`).
pub fn latin1_to_latin1(src: &[u8], dst: &mut [u8])
    requires { length src.now ≡ length dst.old }
    ensures { Converts in_latin1 in_latin1 src.now dst.old dst.new (length src.now) }
{
    dst.copy_from_slice(src);
}

/// Writes one unit for each byte of Latin-1 (wasmtime's `latin1_to_utf16`).
pub fn latin1_to_utf16(src: &[u8], dst: &mut [u16])
    requires { length src.now ≡ length dst.old }
    ensures { Converts in_latin1 in_utf16 src.now dst.old dst.new (length src.now) }
{
    for i in 0..src.len() {
        dst[i] = u16::from(src[i]);
    }
}

/// A pass from Latin-1 to UTF-8: it reads until a character doesn't fit, and a first pass until one
/// is above U+007F (wasmtime's `latin1_to_utf8`).
pub fn latin1_to_utf8(src: &[u8], dst: &mut [u8], first_pass: bool) -> SizePair
    ensures { Passed in_latin1 first_pass src.now dst.old dst.new result.src_read result.dst_written }
{
    let mut read = 0;
    let mut written = 0;
    while read < src.len() {
        let run = copy_ascii(src, read, dst, written);
        read += run;
        written += run;
        if read < src.len() {
            let c = char::from(src[read]);
            if ends_pass(c, first_pass, dst.len() - written) {
                return SizePair {
                    src_read: read as u64,
                    dst_written: written as u64,
                };
            }
            written = write_utf8(dst, written, c).end;
            read += 1;
        }
    }
    SizePair {
        src_read: read as u64,
        dst_written: written as u64,
    }
}

/// Writes UTF-8 as Latin-1 into at least as many bytes, up to the first byte that begins no
/// character up to U+00FF, which is no fault (wasmtime's `utf8_to_latin1`).
pub fn utf8_to_latin1(src: &[u8], dst: &mut [u8]) -> SizePair
    requires { length src.now ≤ length dst.old }
    ensures { Narrows in_utf8 src.now dst.old dst.new result.src_read result.dst_written }
{
    let mut read = 0;
    let mut written = 0;
    while read < src.len() {
        let run = copy_ascii(src, read, dst, written);
        read += run;
        written += run;
        if read < src.len() {
            let Some(found) = latin1_at(src, read) else {
                return SizePair {
                    src_read: read as u64,
                    dst_written: written as u64,
                };
            };
            dst[written] = found.byte;
            written += 1;
            read += found.len;
        }
    }
    SizePair {
        src_read: read as u64,
        dst_written: written as u64,
    }
}

// A character up to U+00FF, and how many bytes it has in UTF-8.
#[derive(Clone, Copy)]
struct Narrow {
    byte: u8,
    len: usize,
}

// The character up to U+00FF that begins at a place of UTF-8. Each branch tells its own length, which the next place then doesn't wait for.
fn latin1_at(src: &[u8], at: usize) -> Option<Narrow>
    requires { at < length src.now }
    ensures { MatchOption result (BeginsNoLatin1 in_utf8 (drop at src.now)) (λ c. Begins in_utf8 c.byte (drop at src.now) × (c.len ≡ length (encode_utf8 c.byte)) × (0 < c.len) × (c.len ≤ 2)) }
{
    let first = src[at];
    if first < 128 {
        return Some(Narrow {
            byte: first,
            len: 1,
        });
    }
    if at + 1 >= src.len() {
        return None;
    }
    match latin1_of(first, src[at + 1]) {
        Some(byte) => Some(Narrow { byte, len: 2 }),
        None => None,
    }
}

// The character from U+0080 to U+00FF that two bytes are.
fn latin1_of(first: u8, second: u8) -> Option<u8>
    ensures { MatchOption result (IsNotTwoBytes first second) (λ c. IsTwoBytes first second c) }
{
    if first < 0xC2 || first > 0xC3 || second < 0x80 || second > 0xBF {
        return None;
    }
    Some((first - 0xC0) * 64 + (second - 0x80))
}

/// Writes UTF-16 as Latin-1 into at least as many bytes, up to the first unit above 255, which is
/// no fault (wasmtime's `utf16_to_latin1`).
pub fn utf16_to_latin1(src: &[u16], dst: &mut [u8]) -> SizePair
    requires { length src.now ≤ length dst.old }
    ensures { Narrows in_utf16 src.now dst.old dst.new result.src_read result.dst_written }
{
    let mut read = 0;
    while read < src.len() {
        read += narrow_below(src, read, dst, read, 256);
        if read < src.len() {
            if src[read] > 255 {
                return SizePair {
                    src_read: read as u64,
                    dst_written: read as u64,
                };
            }
            dst[read] = src[read] as u8;
            read += 1;
        }
    }
    SizePair {
        src_read: read as u64,
        dst_written: read as u64,
    }
}
