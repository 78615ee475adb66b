//! Canonical images of values: one run of bytes for each value, and back.
#![tactic(auto)]

pub mod laws;
mod read;
mod write;

pub use canon_image_parts::ImageError;
pub use read::{read_image, read_numbered_image};
pub use write::{image, image_with_resources};
