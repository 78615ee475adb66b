//! Why a JSON value isn't read.

ghost use Rattle.std.specs.Prelude.{◌≡◌};
ghost use Rattle.canon_json.specs.declared.error.ScriptError.TheVariants as script;

use std::alloc::{AllocError, AllocFailed};

/// Why a JSON value isn't read as a script.
#[derive(Clone, Copy, Debug, PartialEq, Eq)]
pub enum ScriptError {
    BadScript,
    OutOfMemory,
}

impl From<AllocError> for ScriptError {
    ghost from_gives = { λ _ e. e ≡ script.OutOfMemory };

    fn from(_: AllocError) -> Self {
        ScriptError::OutOfMemory
    }
}

impl<T: Drop> From<AllocFailed<T>> for ScriptError {
    ghost from_gives = { λ _ e. e ≡ script.OutOfMemory };

    fn from(_: AllocFailed<T>) -> Self {
        ScriptError::OutOfMemory
    }
}
