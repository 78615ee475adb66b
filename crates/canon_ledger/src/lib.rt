//! The resources of a store: its handle tables, the scopes of its calls, and what is lent in them.
#![tactic(auto)]

mod context;
mod fault;
mod handles;
mod host;
mod host_tables;
mod index;
mod known;
pub mod laws;
mod ledger;
mod tables;

pub use context::CallContext;
pub use fault::ResourceFault;
pub use host::{HostResourceData, TableSlot};
pub use host_tables::{HostResourceTables, resource_drop_ret};
pub use index::HostResourceIndex;
pub use known::KnownTypes;
pub use ledger::Ledger;
pub use tables::ResourceTables;
