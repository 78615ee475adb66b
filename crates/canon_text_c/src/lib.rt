//! The thirteen text conversions as a library for C. Each export passes on one call of
//! `canon_text` and states its contract; `bindings/canon_text.h` declares them.
#![tactic(auto)]

mod answer;
mod compact;
mod passes;
mod whole;

pub use answer::{Answer, Pass, Sizes};
