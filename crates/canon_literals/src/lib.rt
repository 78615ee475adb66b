//! The values of a script, in which resources are numbers: the resources in them, and copies with the resources of a list in the
//! place of the numbers.
#![tactic(auto)]

mod resources;

pub use resources::{are_known, copies_of, is_plain, resources_in, with_resources};
