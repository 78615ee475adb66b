//! Why a guest that replays trapped.

/// Why a replay ended.
#[derive(Clone, Copy, Debug, PartialEq, Eq)]
pub enum Stop {
    /// The request isn't the recorded one.
    Differs,
    /// The recorded answer of `realloc` isn't lawful, or not below 2^32.
    Unlawful,
    /// The recording is none of a run here: no step follows, or a recorded memory is longer than 2^32 bytes or shorter than memory as it stands.
    Unfit,
}
