//! What it is to read a value of a Rust type from a guest's words and memory: definitions and lemmas, and no functions.
#![tactic(auto)]
