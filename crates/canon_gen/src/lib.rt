//! The command `gen`: a script that a number makes, played, and what is printed of it.
//!
//! The number n gives a list of n records, `{id: u32, name: string, tags: list<string>, on: option<bool>}`, whose parts are
//! drawn one after another, and the encoding of texts. The script has one function from such a list to such a list, and
//! one call of it, whose guest gives back the list that it was given: it returns the address 0, where it wrote the pointer
//! 1024, which is where its allocator begins, and the length n.
#![tactic(auto)]

mod draws;
mod lines;
mod made;
mod records;

pub use lines::gen_lines;
