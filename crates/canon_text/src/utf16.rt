//! Conversions of UTF-16.

ghost use Rattle.std.specs.Prelude.{◌≡◌, ◌-◌, ◌<◌, ◌≤◌, ◌⊎◌, ◌↔◌, length, take, IsTrue, MatchResult};
ghost use Rattle.std.specs.Char.{encode_utf8};
ghost use Rattle.canon_model.specs.Text.{in_utf16};
ghost use Rattle.canon_text.specs.Faults.{IsFirstFault, error_place};
ghost use Rattle.canon_text.specs.Writing.{over};
ghost use Rattle.canon_text.specs.Answers.{Converts, Passed, PassFails};

use crate::error::{SizePair, TextError};
use crate::narrow::narrow_below;
use crate::units::{char_at, first_fault};
use crate::writing::write_utf8;

/// Copies UTF-16 into as many units. A refusal has copied the units before its place, and leaves
/// the rest unchanged (wasmtime's `utf16_to_utf16`).
pub fn utf16_to_utf16(src: &[u16], dst: &mut [u16]) -> Result<(), TextError>
    requires { length src.now ≡ length dst.old }
    ensures { MatchResult result
        (λ _. Converts in_utf16 in_utf16 src.now dst.old dst.new (length src.now))
        (λ e. IsFirstFault in_utf16 src.now e × (dst.new ≡ over dst.old (take (error_place e) src.now))) }
{
    if let Some(at) = first_fault(src) {
        dst[..at].copy_from_slice(&src[..at]);
        return Err(TextError::InvalidUtf16(at as u64));
    }
    dst.copy_from_slice(src);
    Ok(())
}

// Whether a pass ends before this character: it doesn't fit, or a first pass takes ASCII alone.
pub(crate) fn ends_pass(c: char, first_pass: bool, room: usize) -> bool
    ensures { IsTrue result ↔ ((room < length (encode_utf8 c)) ⊎ (IsTrue first_pass × (127 < c))) }
{
    room < c.len_utf8() || (first_pass && c as u32 > 127)
}

/// A pass from UTF-16 to UTF-8: it reads whole characters until one doesn't fit, and a first pass
/// until one is above U+007F. It refuses a source that is ill-formed where it comes to, and has then
/// written all before that place (wasmtime's `utf16_to_utf8`).
pub fn utf16_to_utf8(src: &[u16], dst: &mut [u8], first_pass: bool) -> Result<SizePair, TextError>
    ensures { MatchResult result
        (λ p. Passed in_utf16 first_pass src.now dst.old dst.new p.src_read p.dst_written)
        (λ e. PassFails in_utf16 first_pass src.now dst.old dst.new e) }
{
    let mut read = 0;
    let mut written = 0;
    while read < src.len() {
        let run = narrow_below(src, read, dst, written, 128);
        read += run;
        written += run;
        if read < src.len() {
            let Some(c) = char_at(src, read) else {
                return Err(TextError::InvalidUtf16(read as u64));
            };
            if ends_pass(c, first_pass, dst.len() - written) {
                return Ok(SizePair {
                    src_read: read as u64,
                    dst_written: written as u64,
                });
            }
            let wrote = write_utf8(dst, written, c);
            written = wrote.end;
            read += wrote.units;
        }
    }
    Ok(SizePair {
        src_read: read as u64,
        dst_written: written as u64,
    })
}
