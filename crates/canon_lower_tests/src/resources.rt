//! Resources that are lowered and lifted by their Rust types.

mod doors;
mod lifted;
mod lowered;
