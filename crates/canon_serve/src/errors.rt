//! The errors of a call, as numbers: which it is, of which import, what kind of place it has, that place, and what more it carries.

ghost use Rattle.std.specs.Prelude.{◌≡◌};
ghost use Rattle.canon_serve.specs.Errors as spec;

use canon_func::Error;
use canon_ledger::ResourceFault;
use canon_value::{At, Fault};

/// The numbers of an error.
pub(crate) fn error_numbers(error: Error) -> [u64; 5]
    ensures { result ≡ spec.error_numbers error }
{
    match error {
        Error::WrongCount => [1, 0, 0, 0, 0],
        Error::AsyncLifted => [2, 0, 0, 0, 0],
        Error::CannotEnterComponent => [3, 0, 0, 0, 0],
        Error::WrongWords => [4, 0, 0, 0, 0],
        Error::UnknownImport(index) => [5, u64::from(index), 0, 0, 0],
        Error::TurnsExhausted => [6, 0, 0, 0, 0],
        Error::HostRefused(index) => [7, u64::from(index), 0, 0, 0],
        Error::Fault(fault) => {
            let [code, kind, place, more] = fault_numbers(fault);
            [code, 0, kind, place, more]
        }
        Error::ImportFault { index, fault } => {
            let [code, kind, place, more] = fault_numbers(fault);
            [
                code.saturating_add(100),
                u64::from(index),
                kind,
                place,
                more,
            ]
        }
    }
}

/// Which fault it is, what kind of place it has, that place, and what more it carries.
fn fault_numbers(fault: Fault) -> [u64; 4]
    ensures { result ≡ spec.fault_numbers fault }
{
    match fault {
        Fault::TypeMismatch(place) => [11, 1, place, 0],
        Fault::FieldName(place) => [12, 1, place, 0],
        Fault::LengthMismatch(place) => [13, 1, place, 0],
        Fault::UnknownCase(place) => [14, 1, place, 0],
        Fault::UnknownFlag(place) => [15, 1, place, 0],
        Fault::PayloadExpected(place) => [16, 1, place, 0],
        Fault::PayloadNotExpected(place) => [17, 1, place, 0],
        Fault::StringTooLong(count) => [18, 4, count, 0],
        Fault::SizeOverflow(count) => [19, 4, count, 0],
        Fault::ReallocMisaligned(address) => [20, 3, address, 0],
        Fault::ReallocOutOfBounds(address) => [21, 3, address, 0],
        Fault::GuestTrap => [22, 0, 0, 0],
        Fault::PointerMisaligned(at) => at_numbers(23, at, 0),
        Fault::PointerOutOfBounds(at) => at_numbers(24, at, 0),
        Fault::InvalidUtf8(at) => at_numbers(25, at, 0),
        Fault::InvalidUtf16(at) => at_numbers(26, at, 0),
        Fault::InvalidChar(at) => at_numbers(27, at, 0),
        Fault::BadDiscriminant(at, case) => at_numbers(28, at, u64::from(case)),
        Fault::HostcallFuelExhausted => [29, 0, 0, 0],
        Fault::Resource(fault) => resource_numbers(fault),
        Fault::OutOfMemory => [8, 0, 0, 0],
    }
}

fn at_numbers(code: u64, at: At, more: u64) -> [u64; 4]
    ensures { result ≡ spec.at_numbers code at more }
{
    match at {
        At::Word(index) => [code, 2, u64::from(index), more],
        At::Address(address) => [code, 3, address, more],
    }
}

/// A refusal of the ledger, with the number of the handle that it names.
fn resource_numbers(fault: ResourceFault) -> [u64; 4]
    ensures { result ≡ spec.resource_numbers fault }
{
    match fault {
        ResourceFault::UnknownHandle(index) => [40, 0, 0, u64::from(index)],
        ResourceFault::NotAResource(index) => [41, 0, 0, u64::from(index)],
        ResourceFault::ResourceTypeMismatch => [42, 0, 0, 0],
        ResourceFault::StillLent(index) => [43, 0, 0, u64::from(index)],
        ResourceFault::TooManyLends(index) => [44, 0, 0, u64::from(index)],
        ResourceFault::HandleLimit => [45, 0, 0, 0],
        ResourceFault::IndexOverflow => [46, 0, 0, 0],
        ResourceFault::BorrowAsOwn => [47, 0, 0, 0],
        ResourceFault::HostConsumed => [48, 0, 0, 0],
        ResourceFault::HostDeallocated => [49, 0, 0, 0],
        ResourceFault::GenerationExhausted => [50, 0, 0, 0],
        ResourceFault::BorrowsRemain => [51, 0, 0, 0],
        ResourceFault::NoScope => [52, 0, 0, 0],
        ResourceFault::OutOfMemory => [53, 0, 0, 0],
    }
}
