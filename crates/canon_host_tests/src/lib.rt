//! Tests of functions of the host.
#![tactic(auto)]

#[cfg(test)]
mod tests;
