//! The errors of the handle tables.

/// Why a call of a handle table is refused.
#[derive(Clone, Copy, Debug, PartialEq, Eq)]
pub enum HandleError {
    /// The index names nothing.
    UnknownHandle,
    /// The index names no resource.
    NotAResource,
    /// The resource is of another type.
    ResourceTypeMismatch,
    /// The own handle is lent.
    StillLent,
    /// The own handle can't be lent once more.
    TooManyLends,
    /// The counter has as many live handles as its limit allows.
    HandleLimit,
    /// No index is left.
    IndexOverflow,
    /// The index names a handle of another kind.
    WrongKind,
    /// The stream or the future is of another type.
    WrongType,
    /// The other end of a stream or a future.
    WrongEnd,
    /// A read or a write is in progress at the end of the stream or the future.
    Busy,
    /// Want of memory.
    OutOfMemory,
}
