//! A core over a scripted guest, and types, for the tests of typed lowering and lifting.
#![tactic(auto)]

mod cores;
mod types;

pub use cores::{
    TestCore, core_of, core_over, has_room, has_words, memory_of, renew, with_core, word_count,
};
pub use types::{
    Typed, fixed_of, handles_of, list_of, map_of, maps_of, option_of, plain, result_of, tuple_of,
};
