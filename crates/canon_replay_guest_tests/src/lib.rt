//! Tests of the guest that does what was recorded.
#![tactic(auto)]

#[cfg(test)]
mod tests;
