//! What is taken of a script whose calls may be recorded.

use canon_script::Item;
use canon_value::Component;

/// The component of a script, its calls, and what each of them may use.
#[derive(Drop)]
pub(crate) struct Scripted {
    pub(crate) component: Component,
    pub(crate) items: Vec<Item>,
    pub(crate) fuel: u64,
    pub(crate) turns: u64,
}
