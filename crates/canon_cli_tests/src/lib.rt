//! Tests of what no example shows: the longest and the deepest input, what canon_gen makes, lines of a transcript and lists of actions by themselves,
//! and images of types with handles.
#![tactic(auto)]

#[cfg(test)]
mod actions;
#[cfg(test)]
mod images;
#[cfg(test)]
mod runs;
#[cfg(test)]
mod transcripts;
