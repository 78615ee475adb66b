//! Tests of typed lowering, and of resources that are lowered and lifted by their Rust types.
#![tactic(auto)]

#[cfg(test)]
mod resources;
#[cfg(test)]
mod tests;
