//! Values of the component model, their copies, and when two are equal.
#![tactic(auto)]

mod clone;
mod equal;
mod equal_resources;
pub mod laws;
mod val;

pub use val::Val;
