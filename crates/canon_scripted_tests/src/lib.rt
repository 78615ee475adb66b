//! Tests of the guest that follows a script, and of its allocator.
#![tactic(auto)]

#[cfg(test)]
mod tests;
