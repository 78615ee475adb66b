//! The errors of recordings.

use thiserror::Error;

/// Why bytes are no recording, or a recording has no bytes. A place is the number of bytes before it.
#[derive(Clone, Copy, Debug, PartialEq, Eq, Error)]
pub enum ReplayError {
    /// The field at this place is cut off or spells nothing, or the bytes before it are a recording and more follow.
    #[error("BadRecording {0}")]
    BadRecording(u64),
    /// The events of the call of this number aren't those of a run of its export, or a memory among them is longer than 2^32 bytes or
    /// shorter than an earlier one of the recording.
    #[error("NotARun {0}")]
    NotARun(u32),
    /// The recording has more than 1,073,741,824 bytes.
    #[error("TooLong")]
    TooLong,
    #[error("OutOfMemory")]
    OutOfMemory,
}
