//! The error of a type that isn't the one that is asked for.

/// The type isn't the Rust type's.
#[derive(Clone, Copy, Debug, PartialEq, Eq)]
pub struct TypecheckFailed;
