//! Conversions that may leave a part of the source.

ghost use Rattle.std.specs.Prelude.{◌≡◌, ◌≤◌, length};
ghost use Rattle.std.specs.Bool.{MatchBool};
ghost use Rattle.canon_model.specs.Text.{in_latin1, in_utf16, in_utf8};
ghost use Rattle.canon_text.specs.Answers.{Narrows, Passed};
ghost use Rattle.canon_text_c.specs.Refused.{PassFailsAt};

use crate::answer::{Pass, Sizes, passed, sizes_of};

/// Passes on `canon_text::utf16_to_utf8`.
#[unsafe(no_mangle)]
pub extern "C" fn canon_utf16_to_utf8(src: &[u16], dst: &mut [u8], first_pass: bool) -> Pass
    ensures { MatchBool result.ok
        (Passed in_utf16 first_pass src.now dst.old dst.new result.src_read result.dst_written)
        (PassFailsAt in_utf16 first_pass src.now dst.old dst.new result.src_read × (result.dst_written ≡ 0)) }
{
    let pass = canon_text::utf16_to_utf8(src, dst, first_pass);
    passed(&pass)
}

/// Passes on `canon_text::latin1_to_utf8`.
#[unsafe(no_mangle)]
pub extern "C" fn canon_latin1_to_utf8(src: &[u8], dst: &mut [u8], first_pass: bool) -> Sizes
    ensures { Passed in_latin1 first_pass src.now dst.old dst.new result.src_read result.dst_written }
{
    sizes_of(canon_text::latin1_to_utf8(src, dst, first_pass))
}

/// Passes on `canon_text::utf8_to_latin1`.
#[unsafe(no_mangle)]
pub extern "C" fn canon_utf8_to_latin1(src: &[u8], dst: &mut [u8]) -> Sizes
    requires { length src.now ≤ length dst.old }
    ensures { Narrows in_utf8 src.now dst.old dst.new result.src_read result.dst_written }
{
    sizes_of(canon_text::utf8_to_latin1(src, dst))
}

/// Passes on `canon_text::utf16_to_latin1`.
#[unsafe(no_mangle)]
pub extern "C" fn canon_utf16_to_latin1(src: &[u16], dst: &mut [u8]) -> Sizes
    requires { length src.now ≤ length dst.old }
    ensures { Narrows in_utf16 src.now dst.old dst.new result.src_read result.dst_written }
{
    sizes_of(canon_text::utf16_to_latin1(src, dst))
}
