//! Recordings of calls, as bytes and back: what may be recorded, which recordings are of a component, and their bytes.
#![tactic(auto)]

mod allowed;
mod blocks;
mod decoding;
mod encoding;
mod fitting;
mod functions;
pub mod laws;
mod recording;
mod runs;

pub use allowed::recordable;
pub use canon_recording_parts::ReplayError;
pub use decoding::decode;
pub use encoding::encode;
pub use fitting::fits;
pub use recording::{Recorded, Recording, Served};
