//! The host of a component whose code runs in an engine: who is at the other ends of the channels gives the component, runs its code, serves
//! its imports, and asks for calls.
#![tactic(auto)]

mod answer;
mod asking;
mod begin;
mod command;
mod errors;
mod hosting;
mod images;
mod imports;
mod resources;
mod serving;
mod session;

pub use answer::{Answer, Senseless};
pub use command::Command;
pub use hosting::HostState;
pub use imports::ChannelImports;
pub use serving::{End, serve};
pub use session::{EngineStore, carry_out};
