//! Tests of recordings as bytes, and of recorded calls that are made again.
#![tactic(auto)]

#[cfg(test)]
mod asks;
#[cfg(test)]
mod tests;
