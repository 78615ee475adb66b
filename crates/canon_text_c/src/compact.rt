//! Conversions into "latin1+utf16".

ghost use Rattle.std.specs.Prelude.{◌≡◌, ◌+◌, ◌*◌, ◌%◌, ◌^◌, ◌<◌, ◌≤◌, ◌++◌, length, take, flat_map};
ghost use Rattle.std.specs.Bool.{MatchBool};
ghost use Rattle.canon_model.specs.Text.{in_utf16, in_utf8, unit_bytes};
ghost use Rattle.canon_text.specs.Answers.{Compacts, Widens, inflated};
ghost use Rattle.canon_text.specs.Faults.{IllFormedAt};
ghost use Rattle.canon_text.specs.Writing.{over};

use crate::answer::{Answer, counted};

/// Passes on `canon_text::utf16_to_compact_probably_utf16`.
#[unsafe(no_mangle)]
pub extern "C" fn canon_utf16_to_compact_probably_utf16(src: &[u16], dst: &mut [u8]) -> Answer
    requires room { length dst.old ≡ 2 * length src.now }
    requires length { length src.now < 2 ^ 31 }
    ensures { MatchBool result.ok
        (Compacts src.now dst.new result.number)
        (IllFormedAt in_utf16 src.now result.number × (dst.new ≡ over dst.old (flat_map unit_bytes (take result.number src.now)))) }
{
    let converted = canon_text::utf16_to_compact_probably_utf16(src, dst);
    counted(&converted)
}

/// Passes on `canon_text::utf8_to_compact_utf16`.
#[unsafe(no_mangle)]
pub extern "C" fn canon_utf8_to_compact_utf16(
    src: &[u8],
    dst: &mut [u8],
    latin1_bytes_so_far: u64,
) -> Answer
    requires room { 2 * (latin1_bytes_so_far + length src.now) ≤ length dst.old }
    requires even { length dst.old % 2 ≡ 0 }
    ensures { MatchBool result.ok
        (Widens in_utf8 src.now dst.old dst.new latin1_bytes_so_far result.number)
        (IllFormedAt in_utf8 src.now result.number × (dst.new ≡ over dst.old (inflated dst.old latin1_bytes_so_far))) }
{
    let converted = canon_text::utf8_to_compact_utf16(src, dst, latin1_bytes_so_far);
    counted(&converted)
}

/// Passes on `canon_text::utf16_to_compact_utf16`.
#[unsafe(no_mangle)]
pub extern "C" fn canon_utf16_to_compact_utf16(
    src: &[u16],
    dst: &mut [u8],
    latin1_bytes_so_far: u64,
) -> Answer
    requires room { 2 * (latin1_bytes_so_far + length src.now) ≤ length dst.old }
    requires even { length dst.old % 2 ≡ 0 }
    ensures { MatchBool result.ok
        (Widens in_utf16 src.now dst.old dst.new latin1_bytes_so_far result.number)
        (IllFormedAt in_utf16 src.now result.number × (dst.new ≡ over dst.old (inflated dst.old latin1_bytes_so_far ++ flat_map unit_bytes (take result.number src.now)))) }
{
    let converted = canon_text::utf16_to_compact_utf16(src, dst, latin1_bytes_so_far);
    counted(&converted)
}

/// Passes on `canon_text::inflate_latin1_bytes`. What that call hands out begins behind the units.
#[unsafe(no_mangle)]
pub extern "C" fn canon_inflate_latin1_bytes(dst: &mut [u8], latin1_bytes_so_far: u64)
    requires { 2 * latin1_bytes_so_far ≤ length dst.old }
    ensures { dst.new ≡ over dst.old (inflated dst.old latin1_bytes_so_far) }
{
    let (_units, _rest) = canon_text::inflate_latin1_parts(dst, latin1_bytes_so_far);
}
