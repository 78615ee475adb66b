//! Tests of words and memories, and of the journal of a small guest.
#![tactic(auto)]

#[cfg(test)]
mod tests;
#[cfg(test)]
mod watched;
