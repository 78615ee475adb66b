//! The errors of writing and reading images.

use canon_context::Fault;
use thiserror::Error;

/// Why a value has no image, or why bytes are none. A place is the number of bytes before it.
#[derive(Clone, Copy, Debug, PartialEq, Eq, Error)]
pub enum ImageError {
    /// The type reaches a handle.
    #[error("Resource")]
    Resource,
    /// The value isn't of the type.
    #[error("{0}")]
    NotOfType(Fault),
    /// The field at this place is cut off by the end of the bytes.
    #[error("Truncated {0}")]
    Truncated(u64),
    /// The field at this place spells nothing.
    #[error("Malformed {0}")]
    Malformed(u64),
    /// The bytes before this place are an image, and more follow.
    #[error("Trailing {0}")]
    Trailing(u64),
    #[error("OutOfMemory")]
    OutOfMemory,
}
