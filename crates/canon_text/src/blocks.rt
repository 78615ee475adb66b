//! Tests of blocks of units.

ghost use Rattle.std.specs.Prelude.{◌+◌, ◌≤◌, ◌<◌, length, IsTrue};
ghost use Rattle.canon_text.specs.Runs.{AllBelow, run};
ghost use Rattle.canon_text.specs.Surrogates.{HasNoSurrogate};

use std::simd::prelude::*;

// How many units are tested at a time in a long run, and at the ends of one.
pub(crate) const LONG: usize = 32;

pub(crate) const SHORT: usize = 8;

#[inline(always)]
pub(crate) fn is_ascii<const N: usize>(block: Simd<u8, N>) -> bool
    requires { N ≤ 64 }
    ensures { IsTrue result → AllBelow 128 block.entry }
{
    block.simd_ge(Simd::<u8, N>::splat(0x80)).to_bitmask() == 0
}

#[inline(always)]
pub(crate) fn is_below<const N: usize>(block: Simd<u16, N>, limit: u16) -> bool
    requires lanes { N ≤ 64 }
    requires limit { 0 < limit }
    ensures { IsTrue result → AllBelow limit block.entry }
{
    block.simd_ge(Simd::<u16, N>::splat(limit)).to_bitmask() == 0
}

// A surrogate less 0xD800 is below 0x800, and no other unit is, since the difference wraps.
#[inline(always)]
fn has_no_surrogate<const N: usize>(block: Simd<u16, N>) -> bool
    requires { N ≤ 64 }
    ensures { IsTrue result → HasNoSurrogate block.entry }
{
    let above = block - Simd::<u16, N>::splat(0xD800);
    above.simd_lt(Simd::<u16, N>::splat(0x800)).to_bitmask() == 0
}

// How many units that are no surrogates stand from a place on, in whole blocks of N.
#[inline(always)]
fn plain_blocks<const N: usize>(src: &[u16], from: usize) -> usize
    requires lanes { (0 < N) × (N ≤ 64) }
    requires from { from ≤ length src.now }
    ensures inside { from + result ≤ length src.now }
    ensures plain { HasNoSurrogate (run src.now from result) }
    ensures small { AllBelow 65536 (run src.now from result) }
{
    let mut count = 0;
    while src.len() - (from + count) >= N {
        if !has_no_surrogate::<N>(Simd::<u16, N>::from_slice(&src[from + count..])) {
            break;
        }
        count += N;
    }
    count
}

// The same in long blocks and then in short ones.
#[inline(always)]
pub(crate) fn plain_run(src: &[u16], from: usize) -> usize
    requires { from ≤ length src.now }
    ensures inside { from + result ≤ length src.now }
    ensures plain { HasNoSurrogate (run src.now from result) }
    ensures small { AllBelow 65536 (run src.now from result) }
{
    let long = plain_blocks::<LONG>(src, from);
    long + plain_blocks::<SHORT>(src, from + long)
}

// How many units below a limit stand from a place on, in whole blocks of N.
#[inline(always)]
fn blocks_below<const N: usize>(src: &[u16], from: usize, limit: u16) -> usize
    requires lanes { (0 < N) × (N ≤ 64) }
    requires from { from ≤ length src.now }
    requires limit { 0 < limit }
    ensures inside { from + result ≤ length src.now }
    ensures below { AllBelow limit (run src.now from result) }
{
    let mut count = 0;
    while src.len() - (from + count) >= N {
        if !is_below::<N>(Simd::<u16, N>::from_slice(&src[from + count..]), limit) {
            break;
        }
        count += N;
    }
    count
}

// The same in long blocks and then in short ones.
#[inline(always)]
pub(crate) fn run_below(src: &[u16], from: usize, limit: u16) -> usize
    requires from { from ≤ length src.now }
    requires limit { 0 < limit }
    ensures inside { from + result ≤ length src.now }
    ensures below { AllBelow limit (run src.now from result) }
{
    let long = blocks_below::<LONG>(src, from, limit);
    long + blocks_below::<SHORT>(src, from + long, limit)
}
