//! Calls that were recorded, made again without their guest.
#![tactic(auto)]

mod again;
mod calls;
mod imports;
pub mod laws;
mod outcome;
mod replaying;
mod results;
mod store;

pub use imports::ReplayImports;
pub use outcome::Outcome;
pub use replaying::replay;
pub use store::ReplayStore;
