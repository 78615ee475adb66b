//! How parameters and results pass, whoever gives the values: as words in a row or as a tuple in memory, and with them the handles
//! that go through the ledger on the way (CanonicalABI.md, "lower_flat_values", "lift_flat_values").
#![tactic(auto)]

mod tuple;

pub use tuple::ask_tuple;
