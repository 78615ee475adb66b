//! Tests of sessions over channels in memory.
#![tactic(auto)]

#[cfg(test)]
mod dialogue;
#[cfg(test)]
mod tests;
