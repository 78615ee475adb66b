//! What the exports answer.

ghost use Rattle.std.specs.Prelude.{◌≡◌, true, false, MatchResult};
ghost use Rattle.canon_text.specs.Faults.{error_place};

use canon_text::{SizePair, TextError};

/// A number, or the place of the source's first fault.
#[repr(C)]
#[derive(Clone, Copy)]
pub struct Answer {
    /// Whether the source was converted.
    pub ok: bool,
    /// What the call answers, 0 if that is nothing, or the place of the fault.
    pub number: u64,
}

/// How far a pass came.
#[repr(C)]
#[derive(Clone, Copy)]
pub struct Sizes {
    /// The units of the source that were read.
    pub src_read: u64,
    /// The units of the destination that were written.
    pub dst_written: u64,
}

/// How far a pass came, or the place of the source's first fault.
#[repr(C)]
#[derive(Clone, Copy)]
pub struct Pass {
    /// Whether no fault was met.
    pub ok: bool,
    /// The units of the source that were read: at a fault, all before its place.
    pub src_read: u64,
    /// The units of the destination that were written, or 0 at a fault.
    pub dst_written: u64,
}

fn place_of(error: &TextError) -> u64
    ensures { result ≡ error_place error.now }
{
    match *error {
        TextError::InvalidUtf8(place) | TextError::InvalidUtf16(place) => place,
    }
}

pub(crate) fn done(converted: &Result<(), TextError>) -> Answer
    ensures { MatchResult converted.now (λ _. (result.ok ≡ true) × (result.number ≡ 0)) (λ e. (result.ok ≡ false) × (result.number ≡ error_place e)) }
{
    match converted {
        Ok(()) => Answer {
            ok: true,
            number: 0,
        },
        Err(error) => Answer {
            ok: false,
            number: place_of(error),
        },
    }
}

pub(crate) fn counted(converted: &Result<u64, TextError>) -> Answer
    ensures { MatchResult converted.now (λ n. (result.ok ≡ true) × (result.number ≡ n)) (λ e. (result.ok ≡ false) × (result.number ≡ error_place e)) }
{
    match converted {
        Ok(number) => Answer {
            ok: true,
            number: *number,
        },
        Err(error) => Answer {
            ok: false,
            number: place_of(error),
        },
    }
}

pub(crate) fn sizes_of(pair: SizePair) -> Sizes
    ensures { (result.src_read ≡ pair.src_read) × (result.dst_written ≡ pair.dst_written) }
{
    Sizes {
        src_read: pair.src_read,
        dst_written: pair.dst_written,
    }
}

pub(crate) fn passed(pass: &Result<SizePair, TextError>) -> Pass
    ensures { MatchResult pass.now (λ p. (result.ok ≡ true) × (result.src_read ≡ p.src_read) × (result.dst_written ≡ p.dst_written)) (λ e. (result.ok ≡ false) × (result.src_read ≡ error_place e) × (result.dst_written ≡ 0)) }
{
    match pass {
        Ok(pair) => Pass {
            ok: true,
            src_read: pair.src_read,
            dst_written: pair.dst_written,
        },
        Err(error) => Pass {
            ok: false,
            src_read: place_of(error),
            dst_written: 0,
        },
    }
}
