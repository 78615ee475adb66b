//! Where values cross: a component, the core that holds it with its guest and memory, the contexts of lowering and lifting, the
//! fuel, and the faults.
#![tactic(auto)]

mod blocks;
mod component;
mod context;
mod core_data;
mod fault;
mod fuel;
mod host;
mod lifter;
mod resources;

pub use blocks::{ask, ask_again};
pub use component::{Component, Export, Import};
pub use context::{LiftContext, LowerContext, Source};
pub use core_data::Core;
pub use fault::{At, Fault};
pub use fuel::{HostcallFuelExhausted, charge, charge_each};
pub use host::{HostStop, HostView, MemoryView};
pub use lifter::Lifter;
