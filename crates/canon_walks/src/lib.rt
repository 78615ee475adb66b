//! The four walks over values: lowering to words and into memory, lifting from words and from memory. Each
//! has one arm for each variant of `View` or of `Plan`.
#![tactic(auto)]

mod lift;
mod load;
mod lower;
mod store;

pub use lift::{lift_value, lift_values_near};
pub use load::{load_members, load_value};
pub use lower::{lower_args_near, lower_results_near, lower_value};
pub use store::{store_parts, store_value};
