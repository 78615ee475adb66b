//! The texts of errors.

ghost use Rattle.std.specs.Prelude.{◌≡◌, ◌++◌, IfOk, OnOk, string_bytes};
ghost use Rattle.canon_transcript.specs.Text as spec;

use canon_abi::OutOfMemory;
use canon_context::{At, Fault};
use canon_func::Error;
use canon_ledger::ResourceFault;
use std::alloc::{AllocError, Global};

/// The text of an error: its name, and what it carries after a space. Answers OutOfMemory alone.
pub fn error_text(alloc: Global, e: &Error) -> Result<String, OutOfMemory>
    ensures { IfOk result (λ text. string_bytes text ≡ spec.error_text e.now) }
{
    let mut text = String::new(alloc);
    print_error(&mut text, *e)?;
    Ok(text)
}

pub(crate) fn print_error(text: &mut String, error: Error) -> Result<(), AllocError>
    ensures { OnOk result (string_bytes text.new ≡ string_bytes text.old ++ spec.error_text error) }
{
    match error {
        Error::Fault(fault) => print_fault(text, fault),
        Error::WrongCount => text.push_str("WrongCount"),
        Error::AsyncLifted => text.push_str("AsyncLifted"),
        Error::CannotEnterComponent => text.push_str("CannotEnterComponent"),
        Error::WrongWords => text.push_str("WrongWords"),
        Error::UnknownImport(index) => write!(text, "UnknownImport {index}"),
        Error::TurnsExhausted => text.push_str("TurnsExhausted"),
        Error::ImportFault { index, fault } => {
            write!(text, "ImportFault {index} ")?;
            print_fault(text, fault)
        }
        Error::HostRefused(index) => write!(text, "HostRefused {index}"),
    }
}

fn print_fault(text: &mut String, fault: Fault) -> Result<(), AllocError>
    ensures { OnOk result (string_bytes text.new ≡ string_bytes text.old ++ spec.fault_text fault) }
{
    match fault {
        Fault::TypeMismatch(place) => write!(text, "TypeMismatch {place}"),
        Fault::FieldName(place) => write!(text, "FieldName {place}"),
        Fault::UnknownCase(place) => write!(text, "UnknownCase {place}"),
        Fault::UnknownFlag(place) => write!(text, "UnknownFlag {place}"),
        Fault::PayloadExpected(place) => write!(text, "PayloadExpected {place}"),
        Fault::PayloadNotExpected(place) => write!(text, "PayloadNotExpected {place}"),
        Fault::LengthMismatch(place) => write!(text, "LengthMismatch {place}"),
        Fault::StringTooLong(bytes) => write!(text, "StringTooLong {bytes}"),
        Fault::SizeOverflow(count) => write!(text, "SizeOverflow {count}"),
        Fault::ReallocMisaligned(address) => write!(text, "ReallocMisaligned {address}"),
        Fault::ReallocOutOfBounds(address) => write!(text, "ReallocOutOfBounds {address}"),
        Fault::GuestTrap => text.push_str("GuestTrap"),
        Fault::PointerMisaligned(at) => print_at(text, "PointerMisaligned ", at),
        Fault::PointerOutOfBounds(at) => print_at(text, "PointerOutOfBounds ", at),
        Fault::InvalidUtf8(at) => print_at(text, "InvalidUtf8 ", at),
        Fault::InvalidUtf16(at) => print_at(text, "InvalidUtf16 ", at),
        Fault::InvalidChar(at) => print_at(text, "InvalidChar ", at),
        Fault::BadDiscriminant(at, number) => {
            print_at(text, "BadDiscriminant ", at)?;
            write!(text, " {number}")
        }
        Fault::Resource(refusal) => print_refusal(text, refusal),
        Fault::HostcallFuelExhausted => text.push_str("HostcallFuelExhausted"),
        Fault::OutOfMemory => text.push_str("OutOfMemory"),
    }
}

/// Prints why the ledger refused a handle.
fn print_refusal(text: &mut String, refusal: ResourceFault) -> Result<(), AllocError>
    ensures { OnOk result (string_bytes text.new ≡ string_bytes text.old ++ spec.refusal_text refusal) }
{
    match refusal {
        ResourceFault::UnknownHandle(index) => write!(text, "UnknownHandle {index}"),
        ResourceFault::NotAResource(index) => write!(text, "NotAResource {index}"),
        ResourceFault::ResourceTypeMismatch => text.push_str("ResourceTypeMismatch"),
        ResourceFault::StillLent(index) => write!(text, "StillLent {index}"),
        ResourceFault::TooManyLends(index) => write!(text, "TooManyLends {index}"),
        ResourceFault::HandleLimit => text.push_str("HandleLimit"),
        ResourceFault::IndexOverflow => text.push_str("IndexOverflow"),
        ResourceFault::BorrowAsOwn => text.push_str("BorrowAsOwn"),
        ResourceFault::HostConsumed => text.push_str("HostConsumed"),
        ResourceFault::HostDeallocated => text.push_str("HostDeallocated"),
        ResourceFault::GenerationExhausted => text.push_str("GenerationExhausted"),
        ResourceFault::BorrowsRemain => text.push_str("BorrowsRemain"),
        ResourceFault::NoScope => text.push_str("NoScope"),
        ResourceFault::OutOfMemory => text.push_str("OutOfMemory"),
    }
}

/// Prints a place behind these words.
fn print_at(text: &mut String, before: &str, at: At) -> Result<(), AllocError>
    ensures { OnOk result (string_bytes text.new ≡ string_bytes text.old ++ (before.now ++ spec.at_text at)) }
{
    text.push_str(before)?;
    match at {
        At::Word(k) => write!(text, "w{k}"),
        At::Address(a) => write!(text, "@{a}"),
    }
}
