//! How values are lowered to words and memory, and lifted from them.
#![tactic(auto)]

mod args;
mod given;
pub mod laws;
mod lift;
mod load;
mod lower;
mod results;
mod store;

pub use args::lower_args;
pub use canon_context::{
    At, Component, Core, Export, Fault, HostcallFuelExhausted, Import, LiftContext, LowerContext,
};
pub use canon_val::Val;
pub use given::{lower_results, results_area};
pub use lift::linear_lift_from_flat;
pub use load::linear_lift_from_memory;
pub use lower::linear_lower_to_flat;
pub use results::{lift_args, lift_results};
pub use store::linear_lower_to_memory;
