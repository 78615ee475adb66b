//! How JSON values are read, and why one is refused.
#![tactic(auto)]

mod bytes;
mod error;
mod read;

pub use bytes::{bytes_of_hex, bytes_of_json};
pub use error::ScriptError;
pub use read::{
    Reader, bool_or, each, each_of, has_len, items_of, only, only_member, there, two, u32_of,
};
