//! Numbers, pairs of a pointer and a length, and discriminants in a guest's memory, the bounds of ranges there, and the size of a list's block.
#![tactic(auto)]

mod bounds;
mod read;
mod write;

pub use bounds::ends_inside;
pub use read::{load_tag, load_u8, load_u16, load_u32, load_u64};
pub use write::{block_size, put_low_bytes, put_pair};
