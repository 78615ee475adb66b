//! ASCII bytes that become units, written as bytes.

ghost use Rattle.std.specs.Prelude.{◌≡◌, ◌+◌, ◌*◌, ◌-◌, ◌≤◌, length};
ghost use Rattle.canon_text.specs.Runs.{Spreads};

use crate::blocks::{SHORT, is_ascii};
use crate::unit_blocks::store_bytes;
use crate::writing::write_unit;
use std::simd::prelude::*;

// Writes blocks as far as they are ASCII, and says how many bytes that are.
#[inline(always)]
fn spread_blocks(src: &[u8], from: usize, dst: &mut [u8], at: usize) -> usize
    requires src { from ≤ length src.now }
    requires dst { at + 2 * (length src.now - from) ≤ length dst.old }
    ensures { Spreads src.now dst.old dst.new from at result }
{
    let mut count = 0;
    while src.len() - (from + count) >= SHORT {
        let block = u8x8::from_slice(&src[from + count..]);
        if !is_ascii::<SHORT>(block) {
            break;
        }
        store_bytes(block, dst, at + 2 * count);
        count += SHORT;
    }
    count
}

// Writes bytes one by one as far as they are ASCII, and says how many.
#[inline(always)]
fn spread_each(src: &[u8], from: usize, dst: &mut [u8], at: usize) -> usize
    requires src { from ≤ length src.now }
    requires dst { at + 2 * (length src.now - from) ≤ length dst.old }
    ensures { Spreads src.now dst.old dst.new from at result }
{
    let mut count = 0;
    while from + count < src.len() {
        let byte = src[from + count];
        if byte > 127 {
            break;
        }
        write_unit(dst, at + 2 * count, u16::from(byte));
        count += 1;
    }
    count
}

// Writes a run of ASCII as units, and says how many.
#[inline(always)]
pub(crate) fn spread_ascii(src: &[u8], from: usize, dst: &mut [u8], at: usize) -> usize
    requires src { from ≤ length src.now }
    requires dst { at + 2 * (length src.now - from) ≤ length dst.old }
    ensures { Spreads src.now dst.old dst.new from at result }
{
    if from == src.len() || src[from] > 127 {
        return 0;
    }
    let blocks = spread_blocks(src, from, dst, at);
    blocks + spread_each(src, from + blocks, dst, at + 2 * blocks)
}
