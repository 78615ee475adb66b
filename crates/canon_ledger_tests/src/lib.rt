//! Tests of the ledger: by host indexes, on resources of a component, and of the scopes of calls. And of the host's resources as
//! values, and of handles that are lowered and lifted.
#![tactic(auto)]

#[cfg(test)]
mod leaves;
#[cfg(test)]
mod resources;
#[cfg(test)]
mod tests;
