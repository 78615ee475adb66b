//! Calls that were recorded.

use canon_memory::Events;
use canon_val::Val;

/// An ask of a guest for an import that was served: the import's number, what it was asked with, and what it answered.
#[derive(Debug, Drop)]
pub struct Served {
    /// The number of the import.
    pub import: u32,
    /// What it was asked with.
    pub params: Vec<Val>,
    /// What it answered.
    pub results: Vec<Val>,
}

/// A call that answered Ok: the number of the export, its parameters, the guest's events, the asks that were served, in order, and its
/// results.
#[derive(Debug, Drop)]
pub struct Recorded {
    /// The number of the export.
    pub export: u32,
    /// The parameters.
    pub params: Vec<Val>,
    /// What the guest was asked and did, in order.
    pub events: Events,
    /// The asks that were served, in order.
    pub served: Vec<Served>,
    /// The results.
    pub results: Vec<Val>,
}

/// Calls of one store, in order.
#[derive(Debug, Drop)]
pub struct Recording {
    /// The calls in order.
    pub calls: Vec<Recorded>,
}
