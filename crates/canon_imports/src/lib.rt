//! The imports of a script: functions of the host that give its answers in order, and expose the asks that they served.
#![tactic(auto)]

mod imports;

pub use imports::{Line, ScriptedImports};
