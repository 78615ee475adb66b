//! ASCII bytes that are copied.

ghost use Rattle.std.specs.Prelude.{◌≡◌, ◌+◌, ◌<◌, ◌≤◌, length};
ghost use Rattle.canon_text.specs.Runs.{Copies};

use crate::blocks::{LONG, SHORT, is_ascii};
use std::simd::prelude::*;

// Writes a block of N units, or none where there is no room or one isn't below the limit. Says how many.
#[inline(always)]
fn copy_block<const N: usize>(src: &[u8], from: usize, dst: &mut [u8], at: usize) -> usize
    requires lanes { N ≤ 64 }
    requires src { from ≤ length src.now }
    requires dst { at ≤ length dst.old }
    ensures { Copies 128 src.now dst.old dst.new from at result }
{
    if src.len() - from < N || dst.len() - at < N {
        return 0;
    }
    let block = Simd::<u8, N>::from_slice(&src[from..]);
    if !is_ascii::<N>(block) {
        return 0;
    }
    block.copy_to_slice(&mut dst[at..]);
    N
}

// Writes blocks of N units as far as they go, and says how many units that are.
#[inline(always)]
fn copy_blocks<const N: usize>(src: &[u8], from: usize, dst: &mut [u8], at: usize) -> usize
    requires lanes { N ≤ 64 }
    requires src { from ≤ length src.now }
    requires dst { at ≤ length dst.old }
    ensures { Copies 128 src.now dst.old dst.new from at result }
{
    let mut count = 0;
    while from + count < src.len() {
        let block = copy_block::<N>(src, from + count, dst, at + count);
        if block == 0 {
            break;
        }
        count += block;
    }
    count
}

// Writes units one by one as far as they are below the limit, and says how many.
#[inline(always)]
fn copy_each(src: &[u8], from: usize, dst: &mut [u8], at: usize) -> usize
    requires src { from ≤ length src.now }
    requires dst { at ≤ length dst.old }
    ensures { Copies 128 src.now dst.old dst.new from at result }
{
    let room = (src.len() - from).min(dst.len() - at);
    let mut count = 0;
    while count < room {
        let unit = src[from + count];
        if unit > 127 {
            break;
        }
        dst[at + count] = unit;
        count += 1;
    }
    count
}

// Copies a run of ASCII, and says how many bytes.
#[inline(always)]
pub(crate) fn copy_ascii(src: &[u8], from: usize, dst: &mut [u8], at: usize) -> usize
    requires src { from ≤ length src.now }
    requires dst { at ≤ length dst.old }
    ensures { Copies 128 src.now dst.old dst.new from at result }
{
    if from == src.len() || src[from] > 127 {
        return 0;
    }
    let first = copy_block::<SHORT>(src, from, dst, at);
    if first == 0 {
        return copy_each(src, from, dst, at);
    }
    let long = first + copy_blocks::<LONG>(src, from + first, dst, at + first);
    let short = long + copy_blocks::<SHORT>(src, from + long, dst, at + long);
    short + copy_each(src, from + short, dst, at + short)
}
