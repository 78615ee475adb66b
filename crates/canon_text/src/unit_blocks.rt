//! Blocks of units that are written as bytes, the low byte of a unit first.

ghost use Rattle.std.specs.Prelude.{◌≡◌, ◌+◌, ◌*◌, ◌≤◌, length, take, flat_map};
ghost use Rattle.canon_model.specs.Text.{unit_bytes};
ghost use Rattle.canon_text.specs.Runs.{AllBelow};
ghost use Rattle.canon_text.specs.Writing.{inflating, placed};

use crate::blocks::SHORT;
use std::simd::prelude::*;

#[inline(always)]
fn store_units(block: u16x8, dst: &mut [u8], at: usize)
    requires { at + 2 * SHORT ≤ length dst.old }
    ensures { dst.new ≡ placed dst.old at (flat_map unit_bytes block) }
{
    block.to_le_bytes().copy_to_slice(&mut dst[at..]);
}

// Bytes that become units.
#[inline(always)]
pub(crate) fn store_bytes(block: u8x8, dst: &mut [u8], at: usize)
    requires { at + 2 * SHORT ≤ length dst.old }
    ensures { dst.new ≡ placed dst.old at (flat_map unit_bytes block) }
{
    store_units(block.cast::<u16>(), dst, at);
}

// Writes blocks of units as bytes, and says how many units.
#[inline(always)]
pub(crate) fn write_unit_blocks(dst: &mut [u8], at: usize, units: &[u16]) -> usize
    requires { at + 2 * length units.now ≤ length dst.old }
    ensures inside { result ≤ length units.now }
    ensures writes { dst.new ≡ placed dst.old at (flat_map unit_bytes (take result units.now)) }
{
    let mut count = 0;
    while units.len() - count >= SHORT {
        let block = u16x8::from_slice(&units[count..]);
        store_units(block, dst, at + 2 * count);
        count += SHORT;
    }
    count
}

// Makes units of blocks of the first bytes, in place, the last first, and says how many bytes are left.
#[inline(always)]
pub(crate) fn inflate_blocks(dst: &mut [u8], count: usize) -> usize
    requires { 2 * count ≤ length dst.old }
    ensures left { result ≤ count }
    ensures bytes { AllBelow 256 dst.old }
    ensures writes { dst.new ≡ inflating dst.old count result }
{
    let mut left = count;
    while left >= SHORT {
        left -= SHORT;
        let block = u8x8::from_slice(&dst[left..]);
        store_bytes(block, dst, 2 * left);
    }
    left
}
