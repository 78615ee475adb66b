//! Values of Rust types, lifted from a guest's words and memory without a `Val` in between, and texts and lists that stay in memory.
#![tactic(auto)]

mod compounds;
mod fixed_list;
mod handles;
mod host_handles;
mod integers;
mod laws;
mod lift;
mod lists;
mod maps;
mod members;
mod scalars;
mod texts;
mod tuples;
mod wasm_list;
mod wasm_list_iter;
mod wasm_str;
mod words;

pub use laws::lifts_exactly;
pub use lift::Lift;
pub use wasm_list::WasmList;
pub use wasm_list_iter::WasmListIter;
pub use wasm_str::WasmStr;
