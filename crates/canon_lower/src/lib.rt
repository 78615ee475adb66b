//! Values of Rust types, lowered to a guest without a `Val` in between: into words, and into the guest's memory.
#![tactic(auto)]

mod cases;
mod compounds;
mod fixed_list;
mod host_resources;
mod lists;
mod lower;
mod maps;
mod members;
mod references;
mod resources;
mod scalars;
mod texts;
mod tuples;
mod words;

pub use lower::{Lower, LowerShared};
