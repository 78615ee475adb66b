//! The errors of host functions.

use canon_value::Fault;

/// Why an ask isn't answered: a fault, or the function refused.
#[derive(Clone, Copy, Debug, PartialEq, Eq)]
pub enum HostError {
    /// A value wasn't lifted or lowered, or a step of the ledger was refused.
    Fault(Fault),
    /// The function refused.
    Refused,
}
