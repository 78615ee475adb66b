//! Why the program ends early.

ghost use Rattle.std.specs.Prelude.{◌≡◌};
ghost use Rattle.canon_example_record.specs.declared.failure.Failure.TheVariants as failure;

use canon_func::Error;
use canon_memory::MemoryError;
use canon_typed::TypecheckFailed;
use canon_types::{OutOfMemory, TypeError};
use std::alloc::{AllocError, AllocFailed};
use std::io;

/// Why the program ends early.
#[derive(Debug, Drop, thiserror::Error)]
pub enum Failure {
    #[error("a type is refused: {0:?}")]
    Type(#[from] TypeError),
    #[error("the guest has no memory: {0:?}")]
    Memory(#[from] MemoryError),
    #[error("a call is refused: {0}")]
    Call(#[from] Error),
    #[error("nothing can be printed: {0}")]
    Print(#[from] io::Error),
    #[error("an index of the component is outside its table")]
    BadComponent,
    #[error("the component has no such export")]
    NoExport,
    #[error("the export has other types")]
    OtherTypes,
    #[error("out of memory")]
    OutOfMemory,
}

impl From<TypecheckFailed> for Failure {
    ghost from_gives = { λ _ e. e ≡ failure.OtherTypes };

    fn from(_: TypecheckFailed) -> Self {
        Failure::OtherTypes
    }
}

impl From<OutOfMemory> for Failure {
    ghost from_gives = { λ _ e. e ≡ failure.OutOfMemory };

    fn from(_: OutOfMemory) -> Self {
        Failure::OutOfMemory
    }
}

impl From<AllocError> for Failure {
    ghost from_gives = { λ _ e. e ≡ failure.OutOfMemory };

    fn from(_: AllocError) -> Self {
        Failure::OutOfMemory
    }
}

impl<T: Drop> From<AllocFailed<T>> for Failure {
    ghost from_gives = { λ _ e. e ≡ failure.OutOfMemory };

    fn from(_: AllocFailed<T>) -> Self {
        Failure::OutOfMemory
    }
}
