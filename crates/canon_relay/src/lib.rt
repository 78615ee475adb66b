//! A guest whose code runs in an engine at the other end of a channel. Nothing that the engine says is trusted.
#![tactic(auto)]

mod channel;
mod counts;
mod demand;
mod exchange;
mod memory_channel;
mod relay;
mod reply;
mod wire;

pub use channel::Channel;
pub use demand::Demand;
pub use memory_channel::{Given, MemoryChannel, Said};
pub use relay::Relay;
pub use reply::number_at;
pub use wire::{MAX_WORDS, put_number, put_numbers};
