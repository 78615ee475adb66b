//! Plays a script: makes its store, calls its functions, makes and drops resources, and records each item.
#![tactic(auto)]

mod component;
mod player;
mod served;
mod told;
mod typed;

pub use component::component_of;
pub use player::play;
