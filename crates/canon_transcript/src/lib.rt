//! What a played script left, and its text.
#![tactic(auto)]

mod blocks;
mod errors;
mod events;
mod text;
mod transcript;
mod values;

pub use blocks::block_bytes;
pub use errors::error_text;
pub use events::event_text;
pub use text::{answer_text, head_text, transcript_text};
pub use transcript::{Answer, Head, Record, Served, Transcript};
pub use values::value_text;
