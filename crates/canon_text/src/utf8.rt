//! Conversions of UTF-8 that read the whole source.

ghost use Rattle.std.specs.Prelude.{◌≡◌, ◌≤◌, length, MatchOption, MatchResult, IsTrue, IsUtf8};
ghost use Rattle.canon_model.specs.Text.{in_utf8, in_utf16};
ghost use Rattle.canon_text.specs.Faults.{IsFirstFault};
ghost use Rattle.canon_text.specs.Answers.{Converts};

use crate::error::TextError;
use crate::scalars::scalar_at;
use crate::widen::widen_ascii;
use crate::writing::write_utf16;

// The source as a text.
pub(crate) fn text_of(src: &[u8]) -> Result<&str, TextError>
    ensures { MatchResult result (λ t. (t.now ≡ src.now) × IsUtf8 src.now) (λ e. IsFirstFault in_utf8 src.now e) }
{
    match simdutf8::compat::from_utf8(src) {
        Ok(text) => Ok(text),
        Err(error) => Err(TextError::InvalidUtf8(error.valid_up_to() as u64)),
    }
}

// Whether the source is UTF-8, first of a short one whether it is ASCII.
fn is_text(src: &[u8]) -> bool
    ensures { IsTrue result → IsUtf8 src.now }
{
    if src.len() < 64 && src.is_ascii() {
        return true;
    }
    simdutf8::is_utf8(src)
}

// The first fault of a source.
pub(crate) fn fault_in(src: &[u8]) -> Option<TextError>
    ensures { MatchOption result (IsUtf8 src.now) (λ e. IsFirstFault in_utf8 src.now e) }
{
    if is_text(src) {
        return None;
    }
    text_of(src).err()
}

/// Copies UTF-8 into as many bytes. A refusal leaves `dst` unchanged (wasmtime's `utf8_to_utf8`).
pub fn utf8_to_utf8(src: &[u8], dst: &mut [u8]) -> Result<(), TextError>
    requires { length src.now ≡ length dst.old }
    ensures { MatchResult result
        (λ _. Converts in_utf8 in_utf8 src.now dst.old dst.new (length src.now))
        (λ e. IsFirstFault in_utf8 src.now e × (dst.new ≡ dst.old)) }
{
    if let Some(error) = fault_in(src) {
        return Err(error);
    }
    dst.copy_from_slice(src);
    Ok(())
}

/// Writes UTF-8 as UTF-16 into at least as many units, and answers the units written. A refusal
/// leaves `dst` unchanged (wasmtime's `utf8_to_utf16`).
pub fn utf8_to_utf16(src: &[u8], dst: &mut [u16]) -> Result<u64, TextError>
    requires { length src.now ≤ length dst.old }
    ensures { MatchResult result
        (λ n. Converts in_utf8 in_utf16 src.now dst.old dst.new n)
        (λ e. IsFirstFault in_utf8 src.now e × (dst.new ≡ dst.old)) }
{
    if let Some(error) = fault_in(src) {
        return Err(error);
    }
    let mut read = 0;
    let mut written = 0;
    while read < src.len() {
        let run = widen_ascii(src, read, dst, written);
        read += run;
        written += run;
        if read < src.len() {
            let scalar = scalar_at(src, read);
            written = write_utf16(dst, written, scalar.code);
            read += scalar.len;
        }
    }
    Ok(written as u64)
}
