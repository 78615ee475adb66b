//! What the caller asks for, and how it is heard.

ghost use Rattle.std.specs.Prelude.{◌≡◌, ◌≤◌, ◌<◌, ◌^◌, ◌∷◌, [], Err, IfErr, IfOk, OnErr, length};
ghost use Rattle.canon_relay.specs.Channel.{AddsMessages};
ghost use Rattle.canon_relay.specs.Relay.{PassesMessages, adds_none};
ghost use Rattle.canon_serve.specs.Messages.{HearsCommand, HearsNothing, IsCommand, heard_bytes};

use canon_relay::{Channel, number_at};
use std::alloc::Global;

/// The most bytes of a command, and of an image that is heard.
pub(crate) const MAX_BYTES: u64 = 1 << 24;

/// What the caller asks for.
#[derive(Debug, Drop)]
pub enum Command {
    /// Ends the session.
    End,
    /// Begins it with the component of this JSON. Where all memory is watched, it is also tested which answers of `realloc` are tidy.
    Begin {
        watches_all: bool,
        keeps_events: bool,
        json: Vec<u8>,
    },
    /// Calls an export with the parameters of this image.
    Call {
        export: u64,
        params: Vec<u8>,
    },
    /// Asks how many handles live.
    Live,
    /// Asks for the marks of the answers of `realloc` since the last such command.
    Marks,
    /// Drops the resource of this number.
    Drop {
        number: u64,
    },
    /// Makes a resource of the host, of the type of this number and with this representation.
    New {
        ty: u64,
        rep: u64,
    },
    /// Asks for the events of the guest since the last such command.
    Events,
    /// Is none of these.
    Unknown,
}

/// Why nothing more is heard.
#[derive(Clone, Copy, Debug, PartialEq, Eq)]
pub(crate) enum Unheard {
    /// The channel failed, or more bytes were to follow than may.
    Broken,
    OutOfMemory,
}

/// Hears a command.
pub(crate) fn hear_command<P: Channel>(alloc: Global, caller: &mut P) -> Result<Command, Unheard>
    ensures heard { IfOk result (λ asked. PassesMessages (P.log caller.old) (P.log caller.new) (HearsCommand asked)) }
    ensures none { IfErr result (λ why. PassesMessages (P.log caller.old) (P.log caller.new) (HearsNothing why)) }
{
    let mut head = [0u8; 32];
    if !caller.hear(&mut head) {
        return Err(Unheard::Broken);
    }
    let bytes = match hear_bytes(alloc, caller, number_at(&head, 24)) {
        Ok(bytes) => bytes,
        Err(why) => return Err(why),
    };
    let operand = number_at(&head, 8);
    let second = number_at(&head, 16);
    Ok(command_of(number_at(&head, 0), operand, second, bytes))
}

fn command_of(what: u64, operand: u64, second: u64, bytes: Vec<u8>) -> Command
    ensures { IsCommand what operand second bytes.items result }
{
    match what {
        0 => Command::End,
        1 => Command::Begin {
            watches_all: operand == 1,
            keeps_events: second == 1,
            json: bytes,
        },
        2 => Command::Call {
            export: operand,
            params: bytes,
        },
        3 => Command::Live,
        4 => Command::Marks,
        5 => Command::Drop { number: operand },
        6 => Command::New {
            ty: operand,
            rep: second,
        },
        7 => Command::Events,
        _ => Command::Unknown,
    }
}

/// Hears so many bytes.
pub(crate) fn hear_bytes<P: Channel>(
    alloc: Global,
    caller: &mut P,
    len: u64,
) -> Result<Vec<u8>, Unheard>
    ensures heard { IfOk result (λ bytes. AddsMessages (P.log caller.old) (P.log caller.new) (heard_bytes bytes.items) × (length bytes.items ≡ len) × (len ≤ 16777216)) }
    ensures none { OnErr result (AddsMessages (P.log caller.old) (P.log caller.new) []) }
    ensures some { OnErr result (0 < len) }
    ensures short { result ≡ Err Unheard.OutOfMemory → len ≤ 16777216 }
{
    if len == 0 {
        return Ok(Vec::new(alloc));
    }
    if len > MAX_BYTES {
        return Err(Unheard::Broken);
    }
    let Ok(mut bytes) = Vec::from_elem(alloc, 0u8, len as usize) else {
        return Err(Unheard::OutOfMemory);
    };
    if !caller.hear(&mut bytes) {
        return Err(Unheard::Broken);
    }
    Ok(bytes)
}
