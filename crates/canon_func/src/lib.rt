//! Functions that a component exports, the store that they belong to, and how they are called: with dynamic values, or with Rust tuples.
#![tactic(auto)]

mod asks;
mod call;
mod dropping;
mod dynamic;
mod error;
mod func;
mod laws;
mod passing;
mod steps;
mod store;
mod tuples;
mod typed_func;

pub use dropping::resource_drop;
pub use error::Error;
pub use func::Func;
pub use laws::{
    asks_are_exact, call_is_steps, refused_asks_keep_memory, starts_are_alike, typed_call_is_steps,
    typed_results_are_exact, typed_starts_are_alike,
};
pub use store::Store;
pub use typed_func::TypedFunc;
