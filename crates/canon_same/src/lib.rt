//! Whether two types of two components are the same, so that values of one can be carried as values of the other.
#![tactic(auto)]

mod found;
mod laws;
mod names;
mod same;

pub use laws::{same_is_equivalence, same_lies_alike};
pub use same::{is_same, is_same_func};
