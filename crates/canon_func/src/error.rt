//! Why a call isn't answered: the errors of `Func::call`.

ghost use Rattle.std.specs.Prelude.{◌≡◌};
ghost use Rattle.canon_context.specs.declared.fault.Fault.TheVariants as fault;
ghost use Rattle.canon_func.specs.declared.error.Error.TheVariants as error;

use canon_value::Fault;
use std::alloc::AllocError;

/// Why a call isn't answered. `Display` writes the error's name, and what it carries after a space; of a fault, as the fault.
#[derive(Clone, Copy, Debug, PartialEq, Eq, thiserror::Error)]
pub enum Error {
    /// A parameter isn't lowered, a result isn't lifted, or the guest doesn't go on.
    #[error(transparent)]
    Fault(Fault),
    /// There are more or fewer parameters or results than those of the function's type.
    #[error("WrongCount")]
    WrongCount,
    /// The function's options are async.
    #[error("AsyncLifted")]
    AsyncLifted,
    /// An earlier call trapped the store.
    #[error("CannotEnterComponent")]
    CannotEnterComponent,
    /// The guest returned another number of words than the function's results take, or asked for an import with another number of
    /// words than it takes.
    #[error("WrongWords")]
    WrongWords,
    /// The guest asked for an import of this number, which the component doesn't have.
    #[error("UnknownImport {0}")]
    UnknownImport(u32),
    /// In one call the guest asked for imports more often than the store allows.
    #[error("TurnsExhausted")]
    TurnsExhausted,
    /// The import of this number, for which the guest asked, was refused for this fault.
    #[error("ImportFault {index} {fault}")]
    ImportFault { index: u32, fault: Fault },
    /// The function of the import of this number, for which the guest asked, refused.
    #[error("HostRefused {0}")]
    HostRefused(u32),
}

impl From<Fault> for Error {
    ghost from_gives = { λ f e. e ≡ error.Fault f };

    fn from(fault: Fault) -> Self {
        Error::Fault(fault)
    }
}

impl From<AllocError> for Error {
    ghost from_gives = { λ _ e. e ≡ error.Fault fault.OutOfMemory };

    fn from(_: AllocError) -> Self {
        Error::Fault(Fault::OutOfMemory)
    }
}
