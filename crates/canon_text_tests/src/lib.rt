//! Tests of the conversions and of the decoders.
#![tactic(auto)]

#[cfg(test)]
mod tests;
