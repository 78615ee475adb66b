//! Tests of Rust types as component types.
#![tactic(auto)]

#[cfg(test)]
mod tests;
