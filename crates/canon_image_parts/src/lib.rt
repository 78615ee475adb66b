//! How images of values are written and read, field by field, with the definitions of what each call says and their lemmas.
#![tactic(auto)]

mod error;
mod read;
mod write;

pub use error::ImageError;
pub use read::{read_numbered, read_whole};
pub use write::{image_listed, image_of};
