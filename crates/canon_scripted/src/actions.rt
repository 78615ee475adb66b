//! The actions of a scripted guest, and how they are carried out in its memory.

ghost use Rattle.std.specs.Prelude.{◌≡◌, ◌≤◌, ◌<◌, ◌+◌, List, ◌∷◌, length, OnOk, OnErr, IfErr};
ghost use Rattle.std.specs.Vec.Iter.{into_iter_items};
ghost use Rattle.canon_memory.specs.Guest.{OnAnswer};

use canon_memory::{Bytes, GuestFault, Memory, MemoryError, Step, Words};
use std::alloc::Global;
use std::marker::Model;
use std::vec::IntoIter;

/// What a guest does.
#[derive(Debug, Drop)]
pub enum Action {
    /// Writes these bytes at an address.
    Write(u64, Bytes),
    /// Grows memory by so many bytes, which are zeros.
    Grow(u64),
    /// Returns these words.
    Return(Words),
    /// Asks for the import of this number, with these words.
    Ask(u32, Words),
    Trap,
}

/// Actions that are still to be carried out. Contracts see their list.
#[derive(Drop)]
pub(crate) struct Actions {
    left: IntoIter<Action, Global>,
}

impl Model for Actions {
    ghost use Rattle.std.specs.Prelude.{List};
    ghost use Rattle.std.specs.Vec.Iter.{into_iter_items};
    ghost use Rattle.canon_scripted.specs.declared.actions.Action.{Action};

    ghost Value = { List Action };

    ghost view = { λ a. into_iter_items a.left };
}

impl Actions {
    ghost use Rattle.std.specs.Prelude.{◌≡◌, ◌≤◌, length};
    ghost use Rattle.canon_memory.specs.Guest.{OnAnswer};
    ghost use Rattle.canon_scripted.specs.Actions.{carry_out, turn};

    pub(crate) fn new(actions: Vec<Action>) -> Self
        ensures { result ≡ actions.items }
    {
        Actions {
            left: actions.into_iter(),
        }
    }

    /// Carries out actions up to and with the first return, ask or trap.
    pub(crate) fn carry_out(&mut self, memory: &mut Memory) -> Result<Step, GuestFault>
        ensures turn { OnAnswer result (carry_out self.old memory.old.bytes ≡ turn memory.new.bytes result self.new) }
        ensures no_shorter { length memory.old.bytes ≤ length memory.new.bytes }
        ensures width { memory.new.wide ≡ memory.old.wide }
    {
        while let Some(action) = self.left.next() {
            match act(action, memory) {
                Ok(None) => {}
                Ok(Some(step)) => return Ok(step),
                Err(fault) => return Err(fault),
            }
        }
        Err(GuestFault::Trap)
    }
}

ghost use Rattle.canon_scripted.specs.Actions.{acted, carry_out, written};
ghost use Rattle.canon_scripted.specs.declared.actions.Action.{Action};

/// Carries out one action. The next one follows where it answers None.
fn act(action: Action, memory: &mut Memory) -> Result<Option<Step>, GuestFault>
    ensures acts { OnAnswer result ((left : List Action) → carry_out (action ∷ left) memory.old.bytes ≡ acted memory.new.bytes result left) }
    ensures no_shorter { length memory.old.bytes ≤ length memory.new.bytes }
    ensures width { memory.new.wide ≡ memory.old.wide }
{
    match action {
        Action::Write(address, bytes) => match write(memory, address, bytes.as_slice()) {
            Ok(()) => Ok(None),
            Err(fault) => Err(fault),
        },
        Action::Grow(by) => match memory.grow(by) {
            Ok(()) => Ok(None),
            Err(MemoryError::TooLarge) => Err(GuestFault::Trap),
            Err(MemoryError::OutOfMemory) => Err(GuestFault::OutOfMemory),
        },
        Action::Return(words) => Ok(Some(Step::Return(words))),
        Action::Ask(index, words) => Ok(Some(Step::Import { index, words })),
        Action::Trap => Err(GuestFault::Trap),
    }
}

/// Writes bytes at an address, or traps where they pass the end of memory.
fn write(memory: &mut Memory, address: u64, bytes: &[u8]) -> Result<(), GuestFault>
    ensures ok { OnOk result ((address + length bytes.now ≤ length memory.old.bytes) × (memory.new ≡ record memory.old { bytes = written memory.old.bytes address bytes.now })) }
    ensures err { OnErr result ((length memory.old.bytes < address + length bytes.now) × (memory.new ≡ memory.old)) }
    ensures traps { IfErr result (λ e. e ≡ GuestFault.Trap) }
{
    let len = memory.len();
    let Some(end) = address.checked_add(bytes.len() as u64) else {
        return Err(GuestFault::Trap);
    };
    if end > len {
        return Err(GuestFault::Trap);
    }
    memory.as_slice_mut()[address as usize..end as usize].copy_from_slice(bytes);
    Ok(())
}
