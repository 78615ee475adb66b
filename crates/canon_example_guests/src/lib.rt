//! Guests that show how one is written: the smallest one, one whose answers are lawful, and one that returns what it is passed.
#![tactic(auto)]

mod arena;
mod blocks;
mod echo;
mod mirror;
#[cfg(test)]
mod tests;

pub use arena::Arena;
pub use echo::Echo;
pub use mirror::Mirror;
