//! Tests of what scripts don't show of a store: calls and asks of other Rust types, some drops, what its accessors tell, and how its errors
//! print.
#![tactic(auto)]

#[cfg(test)]
mod tests;
