//! What the state of an end of a stream or a future allows.

ghost use Rattle.std.specs.Prelude.{◌≡◌};
ghost use Rattle.canon_handles.specs.Calls.{readable, writable};

use crate::error::HandleError;
use crate::handle::TransmitLocalState;

/// The representation of a read end that no operation uses, and whether it is done.
pub(crate) fn readable(rep: u32, state: TransmitLocalState) -> Result<(u32, bool), HandleError>
    ensures { result ≡ readable (rep, state) }
{
    match state {
        TransmitLocalState::Read { done } => Ok((rep, done)),
        TransmitLocalState::Write { .. } => Err(HandleError::WrongEnd),
        TransmitLocalState::Busy => Err(HandleError::Busy),
    }
}

/// The representation of a write end that no operation uses, and whether it is done.
pub(crate) fn writable(rep: u32, state: TransmitLocalState) -> Result<(u32, bool), HandleError>
    ensures { result ≡ writable (rep, state) }
{
    match state {
        TransmitLocalState::Write { done } => Ok((rep, done)),
        TransmitLocalState::Read { .. } => Err(HandleError::WrongEnd),
        TransmitLocalState::Busy => Err(HandleError::Busy),
    }
}
