//! A guest that follows a script, and its allocator.
#![tactic(auto)]

mod actions;
mod allocator;
mod guest;
mod orders;

pub use actions::Action;
pub use guest::ScriptedGuest;
pub use orders::Ordered;
