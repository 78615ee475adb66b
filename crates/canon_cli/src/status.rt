//! The exit status of the program.

/// How a run of the program ended: a number of those below.
#[derive(Clone, Copy, Debug, PartialEq, Eq)]
pub struct Status(pub u8);

impl Status {
    /// The whole text was written.
    pub const DONE: Status = Status(0);

    /// The words are no command.
    pub const USAGE: Status = Status(2);

    /// The source failed.
    pub const READ_FAULT: Status = Status(3);

    /// The sink failed.
    pub const WRITE_FAULT: Status = Status(4);

    /// Want of memory.
    pub const MEMORY: Status = Status(5);

    /// The input has more than 16,777,216 bytes.
    pub const TOO_LONG: Status = Status(6);

    /// The input is no JSON.
    pub const NOT_JSON: Status = Status(7);

    /// The JSON is no script, no conversions or no types, as the command asks.
    pub const BAD_SCRIPT: Status = Status(8);
}
