//! What the program `canon_image` does: a JSON value asks for the image of a value, or for the value of an image, and a
//! line shows it.
#![tactic(auto)]

mod lines;
mod program;
mod reading;
mod task;

pub use lines::image_line;
pub use program::image_run;
pub use reading::image_task_of_json;
pub use task::{Given, ImageTask};
