//! Characters out of UTF-16.

ghost use Rattle.std.specs.Prelude.{◌≡◌, ◌+◌, ◌-◌, ◌*◌, ◌/◌, ◌<◌, length, drop, min, take, MatchOption, ◌≤◌, slice_get};
ghost use Rattle.std.specs.Char.Escape.{encode_utf16};
ghost use Rattle.canon_model.specs.Text.{in_utf16};
ghost use Rattle.canon_text.specs.Faults.{Begins, IllFormed, WellFormed, IllFormedAt};
ghost use Rattle.canon_text.specs.Decoding.{units_in};
ghost use Rattle.canon_text.specs.Runs.{run};
ghost use Rattle.canon_text.specs.Surrogates.{CutsNoPair, IsCharOf, IsLone};

use crate::blocks::plain_run;

// The character of a unit and the one after it, if there is one; None at a surrogate without its partner.
pub(crate) fn char_of(unit: u16, next: Option<u16>) -> Option<char>
    ensures { MatchOption result (IsLone unit next) (λ c. IsCharOf unit next c) }
{
    if unit < 0xD800 || unit >= 0xE000 {
        return char::from_u32(u32::from(unit));
    }
    let low = next?;
    if unit >= 0xDC00 || low < 0xDC00 || low >= 0xE000 {
        return None;
    }
    let high = u32::from(unit) - 0xD800;
    char::from_u32(0x1_0000 + high * 0x400 + (u32::from(low) - 0xDC00))
}

// How many units a character has.
pub(crate) fn utf16_len(c: char) -> usize
    ensures { result ≡ length (encode_utf16 c) }
{
    if (c as u32) < 0x1_0000 { 1 } else { 2 }
}

// The unit at a place, if there is one.
fn unit_at(src: &[u16], at: usize) -> Option<u16>
    ensures { result ≡ slice_get src.now at }
{
    if at < src.len() { Some(src[at]) } else { None }
}

// The character that begins at a place.
pub(crate) fn char_at(src: &[u16], at: usize) -> Option<char>
    requires { at < length src.now }
    ensures { MatchOption result (IllFormed in_utf16 (drop at src.now)) (λ c. Begins in_utf16 c (drop at src.now)) }
{
    char_of(src[at], unit_at(src, at + 1))
}

// Makes the units that bytes hold from a place on, the low byte first, as many as there is room for. Says how many.
fn make_units(src: &[u8], from: usize, units: &mut [u16]) -> usize
    requires { 2 * from ≤ length src.now }
    ensures count { result ≡ min (length src.now / 2 - from) (length units.old) }
    ensures room { length units.new ≡ length units.old }
    ensures made { take result units.new ≡ run (units_in src.now) from result }
{
    let count = (src.len() / 2 - from).min(units.len());
    for i in 0..count {
        let at = 2 * (from + i);
        units[i] = u16::from(src[at]) + 256 * u16::from(src[at + 1]);
    }
    count
}

// The same, or one unit fewer, so that no pair of surrogates is cut.
pub(crate) fn make_piece(src: &[u8], from: usize, units: &mut [u16]) -> usize
    requires some { 2 * from + 1 < length src.now }
    requires room { 2 ≤ length units.old }
    ensures some { 0 < result }
    ensures room { result ≤ length units.new }
    ensures inside { from + result ≤ length (units_in src.now) }
    ensures made { take result units.new ≡ run (units_in src.now) from result }
    ensures whole { CutsNoPair (units_in src.now) (from + result) }
{
    let count = make_units(src, from, units);
    let last = units[count - 1];
    if from + count < src.len() / 2 && last >= 0xD800 && last < 0xDC00 {
        return count - 1;
    }
    count
}

// The place of the first surrogate without its partner.
pub(crate) fn first_fault(src: &[u16]) -> Option<usize>
    ensures { MatchOption result (WellFormed in_utf16 src.now) (λ at. IllFormedAt in_utf16 src.now at) }
{
    let mut at = 0;
    while at < src.len() {
        at += plain_run(src, at);
        if at < src.len() {
            let Some(c) = char_at(src, at) else {
                return Some(at)
            };
            at += utf16_len(c);
        }
    }
    None
}
