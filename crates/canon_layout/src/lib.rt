//! Types, functions and resources as a script writes them, and what the command `layout` prints of them.
#![tactic(auto)]

mod entries;
mod funcs;
mod lines;
mod listing;
mod readers;
mod resources;
mod words;

pub use entries::{add_entries, add_entry};
pub use funcs::{Signature, add_funcs, func_of_json};
pub use lines::layout_lines;
pub use listing::{listing_of_json, types_of_json};
pub use readers::type_of_json;
pub use resources::add_resources;
