//! Why a value isn't lowered or lifted, and where.

ghost use Rattle.std.specs.Prelude.{◌≡◌};
ghost use Rattle.canon_context.specs.declared.fault.Fault.TheVariants as fault;
ghost use Rattle.canon_context.specs.Faults.{fault_of, faulted, resource_fault};

use canon_ledger::ResourceFault;
use canon_memory::GuestFault;
use std::alloc::{AllocError, AllocFailed};
use std::fmt::{self, Display, Formatter, Write};
use thiserror::Error;

/// Where the pointer, the char or the discriminant in question stands: in a word, by its index, or in memory. `Display`
/// writes the one as `w3`, the other as `@1024`.
#[derive(Clone, Copy, Debug, PartialEq, Eq)]
pub enum At {
    /// The index of the word.
    Word(u32),
    /// The address in memory.
    Address(u64),
}

impl Display for At {
    fn fmt<W: Write>(&self, f: &mut Formatter<W>) -> Result<(), fmt::Error> {
        match self {
            At::Word(k) => write!(f, "w{k}"),
            At::Address(a) => write!(f, "@{a}"),
        }
    }
}

/// Why a value isn't lowered or lifted. The place of a value counts from 0, depth first, a parent before its members; it
/// stays at the last number of a `u64`. `Display` writes its name, and what it carries after a space.
#[derive(Clone, Copy, Debug, PartialEq, Eq, Error)]
pub enum Fault {
    /// The value at this place isn't of its type's kind.
    #[error("TypeMismatch {0}")]
    TypeMismatch(u64),
    /// The record at this place has another name than its type, in order.
    #[error("FieldName {0}")]
    FieldName(u64),
    /// The record, tuple or list of fixed length at this place has another number of members than its type.
    #[error("LengthMismatch {0}")]
    LengthMismatch(u64),
    /// The variant or the enum at this place names no case of its type.
    #[error("UnknownCase {0}")]
    UnknownCase(u64),
    /// The flags at this place have a name that isn't one of their type's.
    #[error("UnknownFlag {0}")]
    UnknownFlag(u64),
    /// The variant or the result at this place has no payload, and its case has one.
    #[error("PayloadExpected {0}")]
    PayloadExpected(u64),
    /// The variant or the result at this place has a payload, and its case has none.
    #[error("PayloadNotExpected {0}")]
    PayloadNotExpected(u64),
    /// A text has this many UTF-8 bytes. They, or twice as many where it may be written as UTF-16, are more than 2^31 - 1.
    #[error("StringTooLong {0}")]
    StringTooLong(u64),
    /// A list or a map has this many items: more than 2^32 - 1, or its block would have more than 2^32 - 1 bytes.
    #[error("SizeOverflow {0}")]
    SizeOverflow(u64),
    /// The guest's `realloc` answered this address, which isn't a multiple of the alignment that was asked for.
    #[error("ReallocMisaligned {0}")]
    ReallocMisaligned(u64),
    /// The guest's `realloc` answered this address, and the block there passes the end of memory.
    #[error("ReallocOutOfBounds {0}")]
    ReallocOutOfBounds(u64),
    /// The guest trapped.
    #[error("GuestTrap")]
    GuestTrap,
    /// The pointer that stands there isn't a multiple of the alignment of what it points to.
    #[error("PointerMisaligned {0}")]
    PointerMisaligned(At),
    /// What the pointer that stands there points to passes the end of memory.
    #[error("PointerOutOfBounds {0}")]
    PointerOutOfBounds(At),
    /// What the pointer that stands there points to is no UTF-8 text.
    #[error("InvalidUtf8 {0}")]
    InvalidUtf8(At),
    /// What the pointer that stands there points to is no UTF-16 text.
    #[error("InvalidUtf16 {0}")]
    InvalidUtf16(At),
    /// The number that stands there is no Unicode scalar value.
    #[error("InvalidChar {0}")]
    InvalidChar(At),
    /// The discriminant that stands there is this number, and the type has no such case.
    #[error("BadDiscriminant {0} {1}")]
    BadDiscriminant(At, u32),
    /// The values that are lifted cost more than the fuel that is left.
    #[error("HostcallFuelExhausted")]
    HostcallFuelExhausted,
    /// A handle is refused by the ledger. `Display` writes its refusal alone.
    #[error("{0}")]
    Resource(ResourceFault),
    /// Memory ran out: the host's, or, for a request, the guest's.
    #[error("OutOfMemory")]
    OutOfMemory,
}

impl From<AllocError> for Fault {
    ghost from_gives = { λ _ e. e ≡ fault.OutOfMemory };

    fn from(_: AllocError) -> Self {
        Fault::OutOfMemory
    }
}

impl<T: Drop> From<AllocFailed<T>> for Fault {
    ghost from_gives = { λ _ e. e ≡ fault.OutOfMemory };

    fn from(_: AllocFailed<T>) -> Self {
        Fault::OutOfMemory
    }
}

impl From<GuestFault> for Fault {
    ghost from_gives = { λ f e. e ≡ fault_of f };

    fn from(fault: GuestFault) -> Self {
        match fault {
            GuestFault::Trap => Fault::GuestTrap,
            GuestFault::OutOfMemory => Fault::OutOfMemory,
        }
    }
}

impl From<ResourceFault> for Fault {
    ghost from_gives = { λ f e. e ≡ resource_fault f };

    fn from(fault: ResourceFault) -> Self {
        match fault {
            ResourceFault::OutOfMemory => Fault::OutOfMemory,
            other => Fault::Resource(other),
        }
    }
}

/// What a step of the ledger answered, its refusal as a fault.
pub(crate) fn faulted<A>(answer: Result<A, ResourceFault>) -> Result<A, Fault>
    ensures { result ≡ faulted answer }
{
    match answer {
        Ok(told) => Ok(told),
        Err(fault) => Err(Fault::from(fault)),
    }
}
