//! What stands in a handle table, and what its calls take and answer.

ghost use Rattle.std.specs.Prelude.{◌≡◌};
ghost use Rattle.canon_handles.specs.Calls.{raw_index, rep_as};

use crate::error::HandleError;
use canon_abi::{TypeFutureTableIndex, TypeResourceTableIndex, TypeStreamTableIndex};

/// The scope of a call in which borrow handles are made, by its number among the open scopes.
#[derive(Clone, Copy, Debug, PartialEq, Eq)]
pub enum Scope {
    /// The number of the scope.
    Id(u64),
}

/// The scope of the call that runs.
#[derive(Clone, Copy, Debug, PartialEq, Eq)]
pub enum CurrentScope {
    /// This scope.
    Id(Scope),
}

/// A resource: its type, the host's or one of the component's, and its representation.
#[derive(Clone, Copy, Debug, PartialEq, Eq)]
pub enum TypedResource {
    /// A resource of the host, of this representation.
    Host(u32),
    /// A resource of a component: the table of its type, and its representation.
    Component {
        ty: TypeResourceTableIndex,
        rep: u32,
    },
}

impl TypedResource {
    /// The representation, where resource and index are of one type.
    pub(crate) fn rep(&self, idx: &TypedResourceIndex) -> Result<u32, HandleError>
        ensures { result ≡ rep_as idx.now self.now }
    {
        match *self {
            TypedResource::Host(rep) => match *idx {
                TypedResourceIndex::Host(_) => Ok(rep),
                TypedResourceIndex::Component { .. } => Err(HandleError::ResourceTypeMismatch),
            },
            TypedResource::Component { ty, rep } => match *idx {
                TypedResourceIndex::Host(_) => Err(HandleError::ResourceTypeMismatch),
                TypedResourceIndex::Component { ty: expected, .. } => {
                    if ty != expected {
                        return Err(HandleError::ResourceTypeMismatch);
                    }
                    Ok(rep)
                }
            },
        }
    }
}

/// An index of a handle table, with the type of resource that it is used at.
#[derive(Clone, Copy, Debug, PartialEq, Eq)]
pub enum TypedResourceIndex {
    /// The index is of a resource of the host.
    Host(u32),
    /// The index is of a resource of a component, by the table of its type.
    Component {
        ty: TypeResourceTableIndex,
        index: u32,
    },
}

impl TypedResourceIndex {
    /// The index without its type.
    pub fn raw_index(&self) -> u32
        ensures { result ≡ raw_index self.now }
    {
        match *self {
            TypedResourceIndex::Host(index) => index,
            TypedResourceIndex::Component { index, .. } => index,
        }
    }
}

/// What the removal of a resource handle gives: the representation of an own handle, or the scope
/// in which a borrow handle was made.
#[derive(Clone, Copy, Debug, PartialEq, Eq)]
pub enum RemovedResource {
    /// An own handle, of this representation.
    Own { rep: u32 },
    /// A borrow handle that was made in this scope.
    Borrow { scope: Scope },
}

/// The state of one end of a stream or a future, as its component instance sees it. `done` tells
/// that the instance was told that the other end is dropped, or that the future has its value.
#[derive(Clone, Copy, Debug, PartialEq, Eq)]
pub enum TransmitLocalState {
    /// The end that writes.
    Write { done: bool },
    /// The end that reads.
    Read { done: bool },
    /// A read or a write is in progress.
    Busy,
}

/// The kinds of handle that can be waited on.
#[derive(Clone, Copy, Debug, PartialEq, Eq)]
pub enum Waitable {
    /// A subtask, of the host or of a guest.
    Subtask { is_host: bool },
    /// An end of a future.
    Future,
    /// An end of a stream.
    Stream,
}

/// What an index of a handle table names.
#[derive(Clone, Copy, Debug, PartialEq, Eq)]
pub enum Entry {
    /// An own handle, and how often it is lent.
    ResourceOwn {
        resource: TypedResource,
        lend_count: u32,
    },
    /// A borrow handle, and the scope in which it was made.
    ResourceBorrow {
        resource: TypedResource,
        scope: Scope,
    },
    /// An end of a stream: its type, its representation, and its state.
    Stream {
        ty: TypeStreamTableIndex,
        rep: u32,
        state: TransmitLocalState,
    },
    /// An end of a future: its type, its representation, and its state.
    Future {
        ty: TypeFutureTableIndex,
        rep: u32,
        state: TransmitLocalState,
    },
    /// An error context (CanonicalABI.md, "error-context").
    ErrorContext {
        rep: u32,
    },
    /// A subtask of the host or of a guest.
    Subtask {
        rep: u32,
        is_host: bool,
    },
    /// A set of handles that can be waited on (CanonicalABI.md, "waitable-set").
    WaitableSet {
        rep: u32,
    },
}

impl Entry {
    ghost use Rattle.std.specs.Borrow.{sem};
    ghost use Rattle.canon_handles.specs.Lending.{LendsEntryState, HandsOut, state_in};

    /// The state of an end of a stream or a future.
    pub(crate) fn state_mut(&mut self) -> Result<&mut TransmitLocalState, HandleError>
        ensures* lends { sem 𝓛 (LendsEntryState self.entry result) }
        ensures state { HandsOut (state_in self.old) result }
    {
        match self {
            Entry::Stream { state, .. } => Ok(state),
            Entry::Future { state, .. } => Ok(state),
            _ => Err(HandleError::WrongKind),
        }
    }
}

/// What an index of a table of threads names.
#[derive(Clone, Copy, Debug, PartialEq, Eq)]
pub struct GuestThread {
    /// Its representation, which the caller chose.
    pub rep: u32,
}
