//! ASCII bytes that become units.

ghost use Rattle.std.specs.Prelude.{◌≡◌, ◌+◌, ◌<◌, ◌≤◌, length};
ghost use Rattle.canon_text.specs.Runs.{Copies};

use crate::blocks::{LONG, SHORT, is_ascii};
use std::simd::prelude::*;

// Writes a block of N units, or none where there is no room or one isn't below the limit. Says how many.
#[inline(always)]
fn widen_block<const N: usize>(src: &[u8], from: usize, dst: &mut [u16], at: usize) -> usize
    requires lanes { N ≤ 64 }
    requires src { from ≤ length src.now }
    requires dst { at ≤ length dst.old }
    ensures { Copies 128 src.now dst.old dst.new from at result }
{
    if src.len() - from < N || dst.len() - at < N {
        return 0;
    }
    let block = Simd::<u8, N>::from_slice(&src[from..]);
    if !is_ascii::<N>(block) {
        return 0;
    }
    block.cast::<u16>().copy_to_slice(&mut dst[at..]);
    N
}

// Writes blocks of N units as far as they go, and says how many units that are.
#[inline(always)]
fn widen_blocks<const N: usize>(src: &[u8], from: usize, dst: &mut [u16], at: usize) -> usize
    requires lanes { N ≤ 64 }
    requires src { from ≤ length src.now }
    requires dst { at ≤ length dst.old }
    ensures { Copies 128 src.now dst.old dst.new from at result }
{
    let mut count = 0;
    while from + count < src.len() {
        let block = widen_block::<N>(src, from + count, dst, at + count);
        if block == 0 {
            break;
        }
        count += block;
    }
    count
}

// Writes units one by one as far as they are below the limit, and says how many.
#[inline(always)]
fn widen_each(src: &[u8], from: usize, dst: &mut [u16], at: usize) -> usize
    requires src { from ≤ length src.now }
    requires dst { at ≤ length dst.old }
    ensures { Copies 128 src.now dst.old dst.new from at result }
{
    let room = (src.len() - from).min(dst.len() - at);
    let mut count = 0;
    while count < room {
        let unit = src[from + count];
        if unit > 127 {
            break;
        }
        dst[at + count] = u16::from(unit);
        count += 1;
    }
    count
}

// Writes a run of ASCII as units, and says how many.
#[inline(always)]
pub(crate) fn widen_ascii(src: &[u8], from: usize, dst: &mut [u16], at: usize) -> usize
    requires src { from ≤ length src.now }
    requires dst { at ≤ length dst.old }
    ensures { Copies 128 src.now dst.old dst.new from at result }
{
    if from == src.len() || src[from] > 127 {
        return 0;
    }
    let first = widen_block::<SHORT>(src, from, dst, at);
    if first == 0 {
        return widen_each(src, from, dst, at);
    }
    let long = first + widen_blocks::<LONG>(src, from + first, dst, at + first);
    let short = long + widen_blocks::<SHORT>(src, from + long, dst, at + long);
    short + widen_each(src, from + short, dst, at + short)
}
