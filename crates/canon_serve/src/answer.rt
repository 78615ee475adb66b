//! What came of a command, and how it is told.

ghost use Rattle.std.specs.Prelude.{◌≡◌, ◌++◌, ◌∷◌, [], IfOk, IsFalse, IsTrue};
ghost use Rattle.canon_relay.specs.Channel.{AddsMessages, told};
ghost use Rattle.canon_relay.specs.Relay.{PassesMessages, adds_none};
ghost use Rattle.canon_relay.specs.Wire.{numbers_bytes};
ghost use Rattle.canon_serve.specs.Messages.{IsStrictPrefix, answer_bytes, answer_messages, answer_numbers, senseless_numbers, told_bytes};

use crate::errors::error_numbers;
use canon_func::Error;
use canon_relay::{Channel, put_numbers};
use std::alloc::{AllocError, Global};

/// Why a command makes no sense.
#[derive(Clone, Copy, Debug, PartialEq, Eq)]
pub enum Senseless {
    /// There is no such command, or not at this place of a session.
    NoCommand,
    /// The component has no such export.
    NoExport,
    /// The bytes are no image of the parameters: so many of them are well formed.
    NoImage(u64),
    /// The session has no resource of a number among the parameters, or of the one that is to be dropped.
    NoResource,
    /// The bytes are no component.
    NoComponent,
    /// The type or the representation of a new resource has more than 32 bits.
    TooWide,
    /// The session keeps no events.
    NoEvents,
}

/// What came of a command.
#[derive(Debug, Drop)]
pub enum Answer {
    /// It was done, with these bytes.
    Done(Vec<u8>),
    /// The call was refused.
    Refused(Error),
    /// Nothing was done.
    Senseless(Senseless),
}

/// The numbers of an answer but the last.
fn numbers_of(answer: &Answer) -> [u64; 7]
    ensures { result ≡ answer_numbers answer.now }
{
    match answer {
        Answer::Done(_) => [7, 0, 0, 0, 0, 0, 0],
        Answer::Refused(error) => {
            let [code, import, kind, place, more] = error_numbers(*error);
            [7, 1, code, import, kind, place, more]
        }
        Answer::Senseless(why) => {
            let [code, place] = senseless_numbers(*why);
            [7, 2, code, 0, 0, place, 0]
        }
    }
}

fn senseless_numbers(why: Senseless) -> [u64; 2]
    ensures { result ≡ senseless_numbers why }
{
    match why {
        Senseless::NoCommand => [1, 0],
        Senseless::NoExport => [2, 0],
        Senseless::NoImage(place) => [3, place],
        Senseless::NoResource => [4, 0],
        Senseless::NoComponent => [5, 0],
        Senseless::TooWide => [7, 0],
        Senseless::NoEvents => [8, 0],
    }
}

/// The bytes of an answer.
fn bytes_of(answer: &Answer) -> &[u8]
    ensures { result.now ≡ answer_bytes answer.now }
{
    match answer {
        Answer::Done(bytes) => bytes,
        _ => &[],
    }
}

/// The numbers of an answer with so many bytes.
fn numbers_with(answer: &Answer, len: u64) -> [u64; 8]
    ensures { result ≡ answer_numbers answer.now ++ len ∷ [] }
{
    let [a, b, c, d, e, f, g] = numbers_of(answer);
    [a, b, c, d, e, f, g, len]
}

/// The numbers of an answer, spelled.
fn head_of(alloc: Global, answer: &Answer, len: u64) -> Result<Vec<u8>, AllocError>
    ensures { IfOk result (λ head. head.items ≡ numbers_bytes (answer_numbers answer.now ++ len ∷ [])) }
{
    let mut head = Vec::new(alloc);
    put_numbers(&mut head, &numbers_with(answer, len))?;
    Ok(head)
}

/// Tells the caller what came of a command. Answers whether it was told whole.
pub(crate) fn tell_answer<P: Channel>(alloc: Global, caller: &mut P, answer: &Answer) -> bool
    ensures told { IsTrue result → AddsMessages (P.log caller.old) (P.log caller.new) (answer_messages answer.now) }
    ensures cut { IsFalse result → PassesMessages (P.log caller.old) (P.log caller.new) (IsStrictPrefix (answer_messages answer.now)) }
{
    let bytes = bytes_of(answer);
    match head_of(alloc, answer, bytes.len() as u64) {
        Ok(head) => tell_both(caller, &head, bytes),
        Err(_) => false,
    }
}

/// Tells the numbers of an answer and its bytes.
pub(crate) fn tell_both<P: Channel>(caller: &mut P, head: &[u8], bytes: &[u8]) -> bool
    ensures told { IsTrue result → AddsMessages (P.log caller.old) (P.log caller.new) (told head.now ∷ told_bytes bytes.now) }
    ensures cut { IsFalse result → PassesMessages (P.log caller.old) (P.log caller.new) (IsStrictPrefix (told head.now ∷ told_bytes bytes.now)) }
{
    if !caller.tell(head) {
        return false;
    }
    tell_bytes(caller, bytes)
}

/// Tells bytes, if there are any.
fn tell_bytes<P: Channel>(caller: &mut P, bytes: &[u8]) -> bool
    ensures told { IsTrue result → AddsMessages (P.log caller.old) (P.log caller.new) (told_bytes bytes.now) }
    ensures cut { IsFalse result → AddsMessages (P.log caller.old) (P.log caller.new) [] }
    ensures some { IsFalse result → told_bytes bytes.now ≡ told bytes.now ∷ [] }
{
    if bytes.is_empty() {
        return true;
    }
    caller.tell(bytes)
}
