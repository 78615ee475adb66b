//! What conversions answer.

ghost use Rattle.std.specs.Prelude.{◌≡◌, ◌+◌, ◌<◌, ◌^◌};
ghost use Rattle.canon_text.specs.Faults.{error_form, error_place};
ghost use Rattle.canon_text.specs.declared.error.DecodeError.TheVariants as refused;

use std::alloc::{AllocError, AllocFailed};

/// The place of the first ill-formed sequence in the part that was tried, in bytes for UTF-8 and in
/// units for UTF-16.
#[derive(Clone, Copy, Debug, PartialEq, Eq)]
pub enum TextError {
    /// In UTF-8, in bytes.
    InvalidUtf8(u64),
    /// In UTF-16, in units of two bytes.
    InvalidUtf16(u64),
}

impl TextError {
    // The same fault, counted from so many units before.
    pub(crate) fn after(self, units: u64) -> TextError
        requires { units + error_place self < 2 ^ 64 }
        ensures form { error_form result ≡ error_form self }
        ensures place { error_place result ≡ units + error_place self }
    {
        match self {
            TextError::InvalidUtf8(at) => TextError::InvalidUtf8(units + at),
            TextError::InvalidUtf16(at) => TextError::InvalidUtf16(units + at),
        }
    }
}

/// Why bytes give no text.
#[derive(Clone, Copy, Debug, PartialEq, Eq)]
pub enum DecodeError {
    /// They spell no text.
    Text(TextError),
    /// There was no room for it.
    OutOfMemory,
}

impl From<AllocError> for DecodeError {
    ghost from_gives = { λ _ e. e ≡ refused.OutOfMemory };

    fn from(_: AllocError) -> Self {
        DecodeError::OutOfMemory
    }
}

impl<T: Drop> From<AllocFailed<T>> for DecodeError {
    ghost from_gives = { λ _ e. e ≡ refused.OutOfMemory };

    fn from(_: AllocFailed<T>) -> Self {
        DecodeError::OutOfMemory
    }
}

/// How much a pass has read and written, in units of the source and of the destination.
#[derive(Clone, Copy, Debug, PartialEq, Eq)]
pub struct SizePair {
    /// Units of the source that were read.
    pub src_read: u64,
    /// Units of the destination that were written.
    pub dst_written: u64,
}
