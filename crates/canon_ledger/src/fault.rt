//! Why a call on resources is refused.

use thiserror::Error;

/// Why a call on resources is refused. The numbers are table indexes. `Display` writes its name, and
/// the index that it carries after a space.
#[derive(Clone, Copy, Debug, PartialEq, Eq, Error)]
pub enum ResourceFault {
    /// The index names nothing.
    #[error("UnknownHandle {0}")]
    UnknownHandle(u32),
    /// The index names no resource.
    #[error("NotAResource {0}")]
    NotAResource(u32),
    /// The resource is of another type.
    #[error("ResourceTypeMismatch")]
    ResourceTypeMismatch,
    /// The own handle is lent.
    #[error("StillLent {0}")]
    StillLent(u32),
    /// The own handle can't be lent once more.
    #[error("TooManyLends {0}")]
    TooManyLends(u32),
    /// The store has as many live handles as its limit allows.
    #[error("HandleLimit")]
    HandleLimit,
    /// No index is left in the table.
    #[error("IndexOverflow")]
    IndexOverflow,
    /// A borrow handle was to be lifted as an own handle.
    #[error("BorrowAsOwn")]
    BorrowAsOwn,
    /// The host's resource was taken before.
    #[error("HostConsumed")]
    HostConsumed,
    /// The host index was given again, or its handle is gone.
    #[error("HostDeallocated")]
    HostDeallocated,
    /// The host's generations are used up.
    #[error("GenerationExhausted")]
    GenerationExhausted,
    /// The call ends with a borrow handle that it hasn't dropped.
    #[error("BorrowsRemain")]
    BorrowsRemain,
    /// There is no scope in which a handle could be lent or borrowed.
    #[error("NoScope")]
    NoScope,
    /// Want of memory.
    #[error("OutOfMemory")]
    OutOfMemory,
}
