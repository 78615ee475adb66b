//! Conversions that read the whole source.

ghost use Rattle.std.specs.Prelude.{◌≡◌, ◌≤◌, length, take};
ghost use Rattle.std.specs.Bool.{MatchBool};
ghost use Rattle.canon_model.specs.Text.{in_latin1, in_utf16, in_utf8};
ghost use Rattle.canon_text.specs.Answers.{Converts};
ghost use Rattle.canon_text.specs.Faults.{IllFormedAt};
ghost use Rattle.canon_text.specs.Writing.{over};

use crate::answer::{Answer, counted, done};

/// Passes on `canon_text::utf8_to_utf8`.
#[unsafe(no_mangle)]
pub extern "C" fn canon_utf8_to_utf8(src: &[u8], dst: &mut [u8]) -> Answer
    requires { length src.now ≡ length dst.old }
    ensures { MatchBool result.ok
        (Converts in_utf8 in_utf8 src.now dst.old dst.new (length src.now) × (result.number ≡ 0))
        (IllFormedAt in_utf8 src.now result.number × (dst.new ≡ dst.old)) }
{
    let converted = canon_text::utf8_to_utf8(src, dst);
    done(&converted)
}

/// Passes on `canon_text::utf16_to_utf16`.
#[unsafe(no_mangle)]
pub extern "C" fn canon_utf16_to_utf16(src: &[u16], dst: &mut [u16]) -> Answer
    requires { length src.now ≡ length dst.old }
    ensures { MatchBool result.ok
        (Converts in_utf16 in_utf16 src.now dst.old dst.new (length src.now) × (result.number ≡ 0))
        (IllFormedAt in_utf16 src.now result.number × (dst.new ≡ over dst.old (take result.number src.now))) }
{
    let converted = canon_text::utf16_to_utf16(src, dst);
    done(&converted)
}

/// Passes on `canon_text::latin1_to_latin1`.
#[unsafe(no_mangle)]
pub extern "C" fn canon_latin1_to_latin1(src: &[u8], dst: &mut [u8])
    requires { length src.now ≡ length dst.old }
    ensures { Converts in_latin1 in_latin1 src.now dst.old dst.new (length src.now) }
{
    canon_text::latin1_to_latin1(src, dst);
}

/// Passes on `canon_text::latin1_to_utf16`.
#[unsafe(no_mangle)]
pub extern "C" fn canon_latin1_to_utf16(src: &[u8], dst: &mut [u16])
    requires { length src.now ≡ length dst.old }
    ensures { Converts in_latin1 in_utf16 src.now dst.old dst.new (length src.now) }
{
    canon_text::latin1_to_utf16(src, dst);
}

/// Passes on `canon_text::utf8_to_utf16`.
#[unsafe(no_mangle)]
pub extern "C" fn canon_utf8_to_utf16(src: &[u8], dst: &mut [u16]) -> Answer
    requires { length src.now ≤ length dst.old }
    ensures { MatchBool result.ok
        (Converts in_utf8 in_utf16 src.now dst.old dst.new result.number)
        (IllFormedAt in_utf8 src.now result.number × (dst.new ≡ dst.old)) }
{
    let converted = canon_text::utf8_to_utf16(src, dst);
    counted(&converted)
}
