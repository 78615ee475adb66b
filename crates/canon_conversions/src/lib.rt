//! Conversions of texts, as the command `text` of the program `canon` reads, plays and prints them.
#![tactic(auto)]

mod conversion;
mod conversions;
mod lines;

pub use conversion::TextCall;
pub use lines::text_lines;
