//! Texts in memory, in each encoding: stored into blocks of their own, and loaded (CanonicalABI.md, "store_string" and
//! "load_string").
#![tactic(auto)]

mod load;
mod store;

pub use load::load_text;
pub use store::{TextBlock, put_text};
