//! Tests of values, contexts and cores: each public function that no script reaches, and what no script can show.
#![tactic(auto)]

#[cfg(test)]
mod tests;
