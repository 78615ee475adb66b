//! A function's parameters and results as Rust tuples. For a call of the guest its parameters are lowered and its results lifted; for a
//! function of the host its parameters are lifted and its results lowered. They go in a row of words, or as a tuple in memory that a word
//! points to. The dynamic forms of these calls stand in `canon_value`.
#![tactic(auto)]

mod host;
mod params;
mod passed;
mod results;

pub use host::{lift_params, lower_results};
pub use params::lower_params;
pub use results::lift_results;
