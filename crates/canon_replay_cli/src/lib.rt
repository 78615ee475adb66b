//! What the program `canon_replay` does: it plays a script and writes the recording of its calls, or makes the calls of a recording again
//! and says of each whether it is as it was recorded.
#![tactic(auto)]

mod command;
mod lines;
mod program;
mod record;
mod scripted;
mod scripts;
mod taking;

pub use command::ReplayCommand;
pub use lines::replay_lines;
pub use program::{NOT_RECORDED, replay_run};
pub use record::{RecordError, record_bytes};
