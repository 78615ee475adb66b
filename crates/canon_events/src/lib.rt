//! The events of a guest: where they are kept, and how they are told.
#![tactic(auto)]

mod bytes;
mod guest;

pub use bytes::put_events;
pub use guest::MaybeJournaled;
