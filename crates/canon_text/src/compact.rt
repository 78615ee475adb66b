//! Conversions into "latin1+utf16", whose UTF-16 stands as bytes, the low byte of a unit first.

ghost use Rattle.std.specs.Prelude.{◌≡◌, ◌+◌, ◌*◌, ◌%◌, ◌^◌, ◌<◌, ◌≤◌, ◌++◌, length, take, drop, flat_map, IsTrue, MatchResult};
ghost use Rattle.std.specs.Borrow.{Array, Lends, LendsBoth, sem, u8};
ghost use Rattle.canon_model.specs.Text.{all_latin1, in_utf16, in_utf8, unit_bytes};
ghost use Rattle.canon_text.specs.Answers.{Compacts, Widens, bytes_before, inflated};
ghost use Rattle.canon_text.specs.Faults.{IsFirstFault};
ghost use Rattle.canon_text.specs.Writing.{over};

use crate::blocks::run_below;
use crate::error::TextError;
use crate::scalars::scalar_at;
use crate::spread::spread_ascii;
use crate::unit_blocks::inflate_blocks;
use crate::units::first_fault;
use crate::utf8::fault_in;
use crate::writing::{write_unit, write_units, write_utf16_bytes};

/// The bit of a compact length that says UTF-16.
pub const UTF16_TAG: u64 = 1 << 31;

// Makes units of the first bytes, in place, the last first.
fn inflate(dst: &mut [u8], count: usize)
    requires { 2 * count ≤ length dst.old }
    ensures writes { dst.new ≡ over dst.old (inflated dst.old count) }
    ensures long { length (inflated dst.old count) ≡ 2 * count }
{
    let left = inflate_blocks(dst, count);
    for i in (0..left).rev() {
        let byte = dst[i];
        write_unit(dst, 2 * i, u16::from(byte));
    }
}

/// Makes units of the first bytes, which are Latin-1, in place, and hands out these units and the
/// rest.
pub fn inflate_latin1_parts(dst: &mut [u8], latin1_bytes_so_far: u64) -> (&mut [u8], &mut [u8])
    requires { 2 * latin1_bytes_so_far ≤ length dst.old }
    ensures* joined { sem 𝓛 (LendsBoth (Array u8 0) (Array u8 0) (Array u8 0) dst.entry result ◌++◌) }
    ensures first { result.0.now ≡ inflated dst.old latin1_bytes_so_far }
    ensures rest { result.1.now ≡ drop (2 * latin1_bytes_so_far) dst.old }
{
    let count = latin1_bytes_so_far as usize;
    let (first, rest) = dst.split_at_mut(2 * count);
    inflate(first, count);
    (first, rest)
}

/// Makes units of the first bytes, which are Latin-1, in place, and hands out the rest
/// (wasmtime's `inflate_latin1_bytes`). When the loan ends, `dst` is these units and what the rest became.
/// A caller's generated proof learns that from `inflate_latin1_parts`.
pub fn inflate_latin1_bytes(dst: &mut [u8], latin1_bytes_so_far: u64) -> &mut [u8]
    requires { 2 * latin1_bytes_so_far ≤ length dst.old }
    ensures* writes_back { sem 𝓛 (Lends (Array u8 0) (Array u8 0) dst.entry result (λ rest. inflated dst.old latin1_bytes_so_far ++ rest)) }
    ensures rest { result.now ≡ drop (2 * latin1_bytes_so_far) dst.old }
{
    let count = latin1_bytes_so_far as usize;
    inflate(dst, count);
    &mut dst[2 * count..]
}

/// Makes the first bytes of `dst`, which are Latin-1, UTF-16 in place, and writes the source behind
/// them. Answers all units. A refusal leaves the bytes behind the first part unchanged
/// (wasmtime's `utf8_to_compact_utf16`).
pub fn utf8_to_compact_utf16(
    src: &[u8],
    dst: &mut [u8],
    latin1_bytes_so_far: u64,
) -> Result<u64, TextError>
    requires room { 2 * (latin1_bytes_so_far + length src.now) ≤ length dst.old }
    requires even { length dst.old % 2 ≡ 0 }
    ensures { MatchResult result
        (λ n. Widens in_utf8 src.now dst.old dst.new latin1_bytes_so_far n)
        (λ e. IsFirstFault in_utf8 src.now e × (dst.new ≡ over dst.old (inflated dst.old latin1_bytes_so_far))) }
{
    let count = latin1_bytes_so_far as usize;
    inflate(dst, count);
    if let Some(error) = fault_in(src) {
        return Err(error);
    }
    let mut read = 0;
    let mut end = 2 * count;
    while read < src.len() {
        let run = spread_ascii(src, read, dst, end);
        read += run;
        end += 2 * run;
        if read < src.len() {
            let scalar = scalar_at(src, read);
            end = write_utf16_bytes(dst, end, scalar.code);
            read += scalar.len;
        }
    }
    Ok((end / 2) as u64)
}

/// Makes the first bytes of `dst`, which are Latin-1, UTF-16 in place, and copies the source behind
/// them. Answers all units. A refusal has copied the units before its place, and leaves the rest
/// unchanged (wasmtime's `utf16_to_compact_utf16`).
pub fn utf16_to_compact_utf16(
    src: &[u16],
    dst: &mut [u8],
    latin1_bytes_so_far: u64,
) -> Result<u64, TextError>
    requires room { 2 * (latin1_bytes_so_far + length src.now) ≤ length dst.old }
    requires even { length dst.old % 2 ≡ 0 }
    ensures { MatchResult result
        (λ n. Widens in_utf16 src.now dst.old dst.new latin1_bytes_so_far n)
        (λ e. IsFirstFault in_utf16 src.now e × (dst.new ≡ over dst.old (inflated dst.old latin1_bytes_so_far ++ bytes_before src.now e))) }
{
    let count = latin1_bytes_so_far as usize;
    inflate(dst, count);
    if let Some(at) = first_fault(src) {
        write_units(dst, 2 * count, &src[..at]);
        return Err(TextError::InvalidUtf16(at as u64));
    }
    write_units(dst, 2 * count, src);
    Ok(latin1_bytes_so_far + src.len() as u64)
}

// Whether each unit is up to 255.
fn is_latin1(src: &[u16]) -> bool
    ensures { result ≡ all_latin1 src.now }
{
    let mut at = 0;
    while at < src.len() {
        at += run_below(src, at, 256);
        if at < src.len() {
            if src[at] > 255 {
                return false;
            }
            at += 1;
        }
    }
    true
}

/// Writes UTF-16 into twice as many bytes, and where all is Latin-1 makes the first half of them
/// that. Answers the bytes of Latin-1, or the units with `UTF16_TAG`. A refusal has written the
/// units before its place (wasmtime's `utf16_to_compact_probably_utf16`).
pub fn utf16_to_compact_probably_utf16(src: &[u16], dst: &mut [u8]) -> Result<u64, TextError>
    requires room { length dst.old ≡ 2 * length src.now }
    requires length { length src.now < 2 ^ 31 }
    ensures { MatchResult result
        (λ n. Compacts src.now dst.new n)
        (λ e. IsFirstFault in_utf16 src.now e × (dst.new ≡ over dst.old (bytes_before src.now e))) }
{
    if let Some(at) = first_fault(src) {
        write_units(dst, 0, &src[..at]);
        return Err(TextError::InvalidUtf16(at as u64));
    }
    write_units(dst, 0, src);
    if !is_latin1(src) {
        return Ok(src.len() as u64 + UTF16_TAG);
    }
    deflate(dst, src);
    Ok(src.len() as u64)
}

// Writes units below 256 as bytes over the front.
fn deflate(dst: &mut [u8], src: &[u16])
    requires room { length src.now ≤ length dst.old }
    requires latin1 { IsTrue (all_latin1 src.now) }
    ensures { dst.new ≡ over dst.old src.now }
{
    for i in 0..src.len() {
        dst[i] = (src[i] % 256) as u8;
    }
}
