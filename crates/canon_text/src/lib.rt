//! Conversions between the encodings of texts, and texts out of bytes.
#![tactic(auto)]

mod blocks;
mod compact;
mod copy;
mod cow;
mod decode;
mod error;
mod latin1;
pub mod laws;
mod narrow;
mod scalars;
mod spread;
mod unit_blocks;
mod units;
mod utf16;
mod utf8;
mod widen;
mod writing;

pub use compact::{
    UTF16_TAG, inflate_latin1_bytes, inflate_latin1_parts, utf8_to_compact_utf16,
    utf16_to_compact_probably_utf16, utf16_to_compact_utf16,
};
pub use cow::CowStr;
pub use decode::{decode_latin1, decode_utf8, decode_utf16};
pub use error::{DecodeError, SizePair, TextError};
pub use latin1::{
    latin1_to_latin1, latin1_to_utf8, latin1_to_utf16, utf8_to_latin1, utf16_to_latin1,
};
pub use utf8::{utf8_to_utf8, utf8_to_utf16};
pub use utf16::{utf16_to_utf8, utf16_to_utf16};
