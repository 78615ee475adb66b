//! Units up to 255 that become bytes.

ghost use Rattle.std.specs.Prelude.{◌≡◌, ◌+◌, ◌<◌, ◌≤◌, length};
ghost use Rattle.canon_text.specs.Runs.{Copies};

use crate::blocks::{LONG, SHORT, is_below};
use std::simd::prelude::*;

// Writes a block of N units, or none where there is no room or one isn't below the limit. Says how many.
#[inline(always)]
fn narrow_block<const N: usize>(
    src: &[u16],
    from: usize,
    dst: &mut [u8],
    at: usize,
    limit: u16,
) -> usize
    requires lanes { N ≤ 64 }
    requires src { from ≤ length src.now }
    requires dst { at ≤ length dst.old }
    requires limit { (0 < limit) × (limit ≤ 256) }
    ensures { Copies limit src.now dst.old dst.new from at result }
{
    if src.len() - from < N || dst.len() - at < N {
        return 0;
    }
    let block = Simd::<u16, N>::from_slice(&src[from..]);
    if !is_below::<N>(block, limit) {
        return 0;
    }
    block.cast::<u8>().copy_to_slice(&mut dst[at..]);
    N
}

// Writes blocks of N units as far as they go, and says how many units that are.
#[inline(always)]
fn narrow_blocks<const N: usize>(
    src: &[u16],
    from: usize,
    dst: &mut [u8],
    at: usize,
    limit: u16,
) -> usize
    requires lanes { N ≤ 64 }
    requires src { from ≤ length src.now }
    requires dst { at ≤ length dst.old }
    requires limit { (0 < limit) × (limit ≤ 256) }
    ensures { Copies limit src.now dst.old dst.new from at result }
{
    let mut count = 0;
    while from + count < src.len() {
        let block = narrow_block::<N>(src, from + count, dst, at + count, limit);
        if block == 0 {
            break;
        }
        count += block;
    }
    count
}

// Writes units one by one as far as they are below the limit, and says how many.
#[inline(always)]
fn narrow_each(src: &[u16], from: usize, dst: &mut [u8], at: usize, limit: u16) -> usize
    requires src { from ≤ length src.now }
    requires dst { at ≤ length dst.old }
    requires limit { (0 < limit) × (limit ≤ 256) }
    ensures { Copies limit src.now dst.old dst.new from at result }
{
    let room = (src.len() - from).min(dst.len() - at);
    let mut count = 0;
    while count < room {
        let unit = src[from + count];
        if unit >= limit {
            break;
        }
        dst[at + count] = unit as u8;
        count += 1;
    }
    count
}

// Writes a run of units below a limit as bytes, and says how many.
#[inline(always)]
pub(crate) fn narrow_below(src: &[u16], from: usize, dst: &mut [u8], at: usize, limit: u16) -> usize
    requires src { from ≤ length src.now }
    requires dst { at ≤ length dst.old }
    requires limit { (0 < limit) × (limit ≤ 256) }
    ensures { Copies limit src.now dst.old dst.new from at result }
{
    if from == src.len() || src[from] >= limit {
        return 0;
    }
    let first = narrow_block::<SHORT>(src, from, dst, at, limit);
    if first == 0 {
        return narrow_each(src, from, dst, at, limit);
    }
    let long = first + narrow_blocks::<LONG>(src, from + first, dst, at + first, limit);
    let short = long + narrow_blocks::<SHORT>(src, from + long, dst, at + long, limit);
    short + narrow_each(src, from + short, dst, at + short, limit)
}
