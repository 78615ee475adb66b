//! Writes at a place of a destination.

ghost use Rattle.std.specs.Prelude.{◌≡◌, ◌∷◌, [], ◌+◌, ◌*◌, ◌<◌, ◌≤◌, length, flat_map};
ghost use Rattle.std.specs.Char.{encode_utf8};
ghost use Rattle.std.specs.Char.Escape.{encode_utf16};
ghost use Rattle.canon_model.specs.Text.{unit_bytes};
ghost use Rattle.canon_text.specs.Writing.{placed};

use crate::unit_blocks::write_unit_blocks;

// The stores stand apart, since an array of them would go through memory.
#[inline(always)]
fn write_two(dst: &mut [u8], at: usize, a: u8, b: u8)
    requires { at + 2 ≤ length dst.old }
    ensures { dst.new ≡ placed dst.old at (a ∷ b ∷ []) }
{
    dst[at] = a;
    dst[at + 1] = b;
}

#[inline(always)]
fn write_three(dst: &mut [u8], at: usize, a: u8, b: u8, c: u8)
    requires { at + 3 ≤ length dst.old }
    ensures { dst.new ≡ placed dst.old at (a ∷ b ∷ c ∷ []) }
{
    dst[at] = a;
    write_two(dst, at + 1, b, c);
}

#[inline(always)]
fn write_four(dst: &mut [u8], at: usize, a: u8, b: u8, c: u8, d: u8)
    requires { at + 4 ≤ length dst.old }
    ensures { dst.new ≡ placed dst.old at (a ∷ b ∷ c ∷ d ∷ []) }
{
    dst[at] = a;
    write_three(dst, at + 1, b, c, d);
}

// Where the bytes of a character end, and how many units of UTF-16 it has.
#[derive(Clone, Copy)]
pub(crate) struct Written {
    pub(crate) end: usize,
    pub(crate) units: usize,
}

// Writes a character in UTF-8. Each branch tells its own lengths, which the next place then doesn't wait for.
#[inline(always)]
pub(crate) fn write_utf8(dst: &mut [u8], at: usize, c: char) -> Written
    requires { at + length (encode_utf8 c) ≤ length dst.old }
    ensures end { result.end ≡ at + length (encode_utf8 c) }
    ensures units { result.units ≡ length (encode_utf16 c) }
    ensures writes { dst.new ≡ placed dst.old at (encode_utf8 c) }
{
    let code = c as u32;
    if code < 0x80 {
        dst[at] = code as u8;
        return Written {
            end: at + 1,
            units: 1,
        };
    }
    let last = (0x80 + code % 64) as u8;
    if code < 0x800 {
        write_two(dst, at, (0xC0 + code / 64) as u8, last);
        return Written {
            end: at + 2,
            units: 1,
        };
    }
    let middle = (0x80 + code / 64 % 64) as u8;
    if code < 0x1_0000 {
        write_three(dst, at, (0xE0 + code / 4096) as u8, middle, last);
        return Written {
            end: at + 3,
            units: 1,
        };
    }
    let second = (0x80 + code / 4096 % 64) as u8;
    let first = (0xF0 + code / 262_144) as u8;
    write_four(dst, at, first, second, middle, last);
    Written {
        end: at + 4,
        units: 2,
    }
}

// Writes a scalar value's units, and says where they end.
#[inline(always)]
pub(crate) fn write_utf16(dst: &mut [u16], at: usize, code: u32) -> usize
    requires scalar { code < 0x110000 }
    requires room { at + length (encode_utf16 code) ≤ length dst.old }
    ensures end { result ≡ at + length (encode_utf16 code) }
    ensures writes { dst.new ≡ placed dst.old at (encode_utf16 code) }
{
    if code < 0x1_0000 {
        dst[at] = code as u16;
        return at + 1;
    }
    let above = code - 0x1_0000;
    let high = (0xD800 + above / 0x400) as u16;
    dst[at] = high;
    dst[at + 1] = (0xDC00 + above % 0x400) as u16;
    at + 2
}

// Writes a unit as bytes, the low byte first.
#[inline(always)]
pub(crate) fn write_unit(dst: &mut [u8], at: usize, unit: u16)
    requires { at + 2 ≤ length dst.old }
    ensures { dst.new ≡ placed dst.old at (unit_bytes unit) }
{
    write_two(dst, at, (unit % 256) as u8, (unit / 256) as u8);
}

// Writes units as bytes.
pub(crate) fn write_units(dst: &mut [u8], at: usize, units: &[u16])
    requires { at + 2 * length units.now ≤ length dst.old }
    ensures { dst.new ≡ placed dst.old at (flat_map unit_bytes units.now) }
{
    let blocks = write_unit_blocks(dst, at, units);
    for i in blocks..units.len() {
        write_unit(dst, at + 2 * i, units[i]);
    }
}

// Writes a scalar value's units as bytes, and says where they end.
#[inline(always)]
pub(crate) fn write_utf16_bytes(dst: &mut [u8], at: usize, code: u32) -> usize
    requires scalar { code < 0x110000 }
    requires room { at + 2 * length (encode_utf16 code) ≤ length dst.old }
    ensures end { result ≡ at + 2 * length (encode_utf16 code) }
    ensures writes { dst.new ≡ placed dst.old at (flat_map unit_bytes (encode_utf16 code)) }
{
    if code < 0x1_0000 {
        write_unit(dst, at, code as u16);
        return at + 2;
    }
    let above = code - 0x1_0000;
    write_unit(dst, at, (0xD800 + above / 0x400) as u16);
    write_unit(dst, at + 2, (0xDC00 + above % 0x400) as u16);
    at + 4
}
