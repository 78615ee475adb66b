//! How events are written as bytes and read, field by field, with the formats that recordings are made of and their lemmas.
#![tactic(auto)]

mod error;
mod read;
mod write;

pub use error::ReplayError;
pub use read::{read_below, read_bytes, read_events, read_u32};
pub use write::{append, put_bytes, put_count, put_events, put_u32};
