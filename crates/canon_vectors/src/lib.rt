//! Tests: how runs of hostile guests end, row by row of a table, over sources and sinks that move a byte at a time and fail.
#![tactic(auto)]

#[cfg(test)]
mod plays;
#[cfg(test)]
mod rows;
