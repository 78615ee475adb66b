//! What an engine is asked to do.

/// What an engine is asked to do, in memory that it is lent for it.
#[derive(Clone, Copy, Debug, PartialEq, Eq)]
pub enum Demand {
    /// Start a core function with the words of the demand, until it returns or asks for an import.
    Start {
        func: u32,
    },
    /// Go on after an ask, with the words of the demand.
    Resume,
    /// Give a block, as `Guest::realloc`.
    Realloc {
        old: u64,
        old_size: u64,
        align: u32,
        new_size: u64,
    },
    /// Run the post-return function of this number with the words of the demand.
    PostReturn {
        func: u32,
    },
    /// Run the destructor of this number for a resource of this representation.
    Dtor {
        func: u32,
        rep: u32,
    },
    /// Put the data of the component's code into memory, before anything else.
    Instantiate,
}
