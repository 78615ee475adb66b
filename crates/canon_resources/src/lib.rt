//! Resources: the ledger of a store's handles (of `canon_ledger`), and the resources of the host as values, whose types come
//! from their Rust type, from a number or from the value itself, with the conversions between these. And what the handles among
//! values do to the ledger: each is lowered or lifted by a step or two of it. An own handle moves between the host's table and an
//! instance's, and a borrow is lent from the one and put into the other, within the top open scope.
#![tactic(auto)]

mod any;
mod conversion;
mod convert;
mod dynamic;
mod fixed;
mod host;
pub mod laws;
mod lift;
mod lower;
mod resource_types;
mod steps;

pub use any::{ResourceAny, ResourceAnyHandle};
pub use canon_ledger::{
    CallContext, HostResourceData, HostResourceIndex, HostResourceTables, KnownTypes, Ledger,
    ResourceFault, ResourceTables, TableSlot, resource_drop_ret,
};
pub use canon_types::{HostType, ResourceType};
pub use dynamic::ResourceDynamic;
pub use fixed::Resource;
pub use host::{HostResource, HostResourceType, ResourceState};
pub use lift::{lift_borrow, lift_own};
pub use lower::{lower_borrow, lower_own};
pub use resource_types::{is_defined_here, kept_for, table_for};
pub use steps::{
    drop_at, drop_host, exit_scope, insert_borrow, insert_host, insert_own, lend_at, lend_host,
    take_at, take_host,
};
