//! Tests of the handle tables.
#![tactic(auto)]

#[cfg(test)]
mod tests;
