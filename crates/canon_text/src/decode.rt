//! Texts out of the bytes of an encoding.

ghost use Rattle.std.specs.Prelude.{◌≡◌, ◌%◌, ◌↔◌, length, false, IfErr, IsTrue, MatchResult, MatchOption, OnErr};
ghost use Rattle.std.specs.Str.{IsAscii};
ghost use Rattle.canon_model.specs.Text.{in_latin1, in_utf16, in_utf8};
ghost use Rattle.canon_text.specs.Faults.{IsFirstFault};
ghost use Rattle.canon_text.specs.Decoding.{Decodes, IsDecodeFault, IsNoText, SpellsNothing, cow_text, is_borrowed, units_in};

use crate::cow::CowStr;
use crate::error::{DecodeError, TextError};
use crate::latin1::latin1_to_utf8;
use crate::units::make_piece;
use crate::utf8::text_of;
use crate::utf16::utf16_to_utf8;
use canon_abi::OutOfMemory;
use std::alloc::Global;

// How many bytes a pass writes at a time.
const PIECE: usize = 512;

// How many units of UTF-16 are made of bytes at a time.
const UNITS: usize = 256;

/// The text of UTF-8 bytes, which is borrowed (CanonicalABI.md, "load_string_from_range").
pub fn decode_utf8(src: &[u8]) -> Result<CowStr<'_>, TextError>
    ensures answer { MatchResult result
        (λ t. Decodes in_utf8 src.now (cow_text t) × IsTrue (is_borrowed t))
        (λ e. IsFirstFault in_utf8 src.now e) }
    ensures no_text { OnErr result (SpellsNothing in_utf8 src.now) }
{
    let text = text_of(src)?;
    Ok(CowStr::Borrowed(text))
}

/// The text of UTF-16 bytes, whose units stand with the low byte first. It is owned, and the place
/// of a fault counts units. It refuses exactly what isn't UTF-16 (CanonicalABI.md, "load_string_from_range").
pub fn decode_utf16(alloc: Global, src: &[u8]) -> Result<CowStr<'_>, DecodeError>
    requires { length src.now % 2 ≡ 0 }
    ensures answer { MatchResult result
        (λ t. Decodes in_utf16 src.now (cow_text t) × (is_borrowed t ≡ false))
        (λ e. IsDecodeFault in_utf16 (units_in src.now) e) }
    ensures no_text { IfErr result (λ e. IsNoText in_utf16 src.now e) }
{
    let count = src.len() / 2;
    let mut text = Vec::with_capacity(alloc, count)?;
    let mut units = [0; UNITS];
    let mut piece = [0; PIECE];
    let mut read = 0;
    while read < count {
        let made = make_piece(src, read, &mut units);
        match utf16_to_utf8(&units[..made], &mut piece, false) {
            Ok(pass) => {
                text.extend_from_slice(&piece[..pass.dst_written as usize])?;
                read += pass.src_read as usize;
            }
            Err(error) => return Err(DecodeError::Text(error.after(read as u64))),
        }
    }
    Ok(CowStr::Owned(unsafe { String::from_utf8_unchecked(text) }))
}

// The bytes as a text, where all are below 128.
fn ascii_text(src: &[u8]) -> Option<&str>
    ensures { MatchOption result (¬ (IsAscii src.now)) (λ t. IsAscii src.now × (t.now ≡ src.now)) }
{
    if !src.is_ascii() {
        return None;
    }
    Some(unsafe { std::str::from_utf8_unchecked(src) })
}

/// The text of Latin-1 bytes. It is borrowed exactly where all bytes are below 128, and takes no memory
/// then.
pub fn decode_latin1(alloc: Global, src: &[u8]) -> Result<CowStr<'_>, OutOfMemory>
    ensures { MatchResult result
        (λ t. Decodes in_latin1 src.now (cow_text t) × (IsTrue (is_borrowed t) ↔ IsAscii src.now))
        (λ _. ¬ (IsAscii src.now)) }
{
    if let Some(text) = ascii_text(src) {
        return Ok(CowStr::Borrowed(text));
    }
    let mut text = Vec::with_capacity(alloc, src.len())?;
    let mut piece = [0; PIECE];
    let mut read = 0;
    while read < src.len() {
        let pass = latin1_to_utf8(&src[read..], &mut piece, false);
        text.extend_from_slice(&piece[..pass.dst_written as usize])?;
        read += pass.src_read as usize;
    }
    Ok(CowStr::Owned(unsafe { String::from_utf8_unchecked(text) }))
}
