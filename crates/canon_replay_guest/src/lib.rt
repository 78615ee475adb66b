//! A guest that does what was recorded of one.
#![tactic(auto)]

mod guest;
mod laws;
mod live;
mod recorded;
mod stop;

pub use guest::ReplayGuest;
pub use laws::{calls_pass, moves_follow, never_unfit};
pub use stop::Stop;
