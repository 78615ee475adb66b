//! Tests of the table of types, of the numbers of the canonical ABI, of types by name, and of types that are the same.
#![tactic(auto)]

#[cfg(test)]
mod named;
#[cfg(test)]
mod numbers;
#[cfg(test)]
mod tests;
