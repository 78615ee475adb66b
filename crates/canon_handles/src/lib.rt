//! The handle tables of a component: one table of the handles of a component instance, and one of
//! its threads, under one counter of live handles.
#![tactic(auto)]

mod counter;
mod end;
mod entry_table;
mod error;
mod future;
mod handle;
mod handle_table;
pub mod laws;
mod resource;
mod stream;
mod task;
mod thread;

pub use counter::HandleCounter;
pub use error::HandleError;
pub use handle::{
    CurrentScope, Entry, GuestThread, RemovedResource, Scope, TransmitLocalState, TypedResource,
    TypedResourceIndex, Waitable,
};
pub use handle_table::HandleTable;
pub use thread::ThreadHandleTable;
