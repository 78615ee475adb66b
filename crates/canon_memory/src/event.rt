//! The events of a guest's journal, and the list of them.

ghost use Rattle.std.specs.Prelude.{◌≡◌, ◌<◌, ◌≤◌, ◌-◌, ℕ, List, [], ◌∷◌, ◌++◌, length, take, OnOk, OnErr, IfErr};
ghost use Rattle.canon_memory.specs.declared.event.Event.{Event};

use crate::{Bytes, MemoryError, Words};
use std::alloc::Global;
use std::marker::Model;

/// A `realloc` that trapped: the old address, the old size, the alignment and the new size.
pub type Asked = (u64, u64, u32, u64);

/// What a guest was told or did. A memory is the whole memory at that moment: at a start and a resume before the guest
/// goes on, at an ask and a return as the guest left it.
#[derive(Debug, Drop)]
pub enum Event {
    /// The core function of this number was started with these words.
    Start {
        func: u32,
        words: Words,
        memory: Bytes,
    },
    /// It asked for the import of this number, with these words.
    Ask {
        index: u32,
        words: Words,
        memory: Bytes,
    },
    /// It went on with these words, the answer of its last ask.
    Resume {
        words: Words,
        memory: Bytes,
    },
    /// It returned these words.
    Return {
        words: Words,
        memory: Bytes,
    },
    /// It was asked for a block of `new_size` bytes in the place of `old_size` bytes at `old`, and answered an address.
    Realloc {
        old: u64,
        old_size: u64,
        align: u32,
        new_size: u64,
        answer: u64,
    },
    /// Its post-return function of this number ran on these words.
    Post {
        func: u32,
        words: Words,
    },
    /// Its destructor of this number ran on this representation.
    Dtor {
        func: u32,
        rep: u32,
    },
    /// It trapped, in this request for a block or in another call, at whose begin memory had so many bytes.
    Trap {
        asked: Option<Asked>,
        len: u64,
    },
}

/// A list of events.
#[derive(Debug, Drop)]
pub struct Events {
    items: Vec<Event>,
}

impl Model for Events {
    ghost Value = { List Event };

    ghost view = { λ l. l.items.items };
}

impl Events {
    /// An empty list.
    pub fn new(alloc: Global) -> Self
        ensures { result ≡ [] }
    {
        Events {
            items: Vec::new(alloc),
        }
    }

    /// How many events there are.
    pub fn len(&self) -> u64
        ensures { result ≡ length self.now }
    {
        self.items.len() as u64
    }

    /// Adds an event at the end. Out of memory leaves the list as it was.
    pub fn push(&mut self, item: Event) -> Result<(), MemoryError>
        ensures ok { OnOk result (self.new ≡ self.old ++ item ∷ []) }
        ensures err { OnErr result (self.new ≡ self.old) }
        ensures only_memory { IfErr result (λ e. e ≡ MemoryError.OutOfMemory) }
    {
        self.items.push(item)?;
        Ok(())
    }

    /// The events in order.
    pub fn as_slice(&self) -> &[Event]
        ensures { result.now ≡ self.now }
    {
        &self.items
    }

    /// Adds two events, or none.
    pub(crate) fn push_both(&mut self, first: Event, second: Event) -> Result<(), MemoryError>
        ensures ok { OnOk result (self.new ≡ self.old ++ first ∷ second ∷ []) }
        ensures err { OnErr result (self.new ≡ self.old) }
    {
        let len = self.items.len();
        self.items.push(first)?;
        match self.items.push(second) {
            Ok(()) => Ok(()),
            Err(_) => {
                self.items.truncate(len);
                Err(MemoryError::OutOfMemory)
            }
        }
    }

    /// Puts an event in the place of the last.
    #[tactic(auto, using(crate::proofs::Last::last_set))]
    pub(crate) fn replace_last(&mut self, item: Event)
        requires { 0 < length self.old }
        ensures { self.new ≡ take (length self.old - 1) self.old ++ item ∷ [] }
    {
        let last = self.items.len() - 1;
        self.items[last] = item;
    }

    /// Takes the last event away.
    pub(crate) fn drop_last(&mut self)
        requires { 1 ≤ length self.old }
        ensures { self.new ≡ take (length self.old - 1) self.old }
    {
        self.items.truncate(self.items.len() - 1);
    }

    /// Takes the last two events away.
    pub(crate) fn drop_both(&mut self)
        requires { 2 ≤ length self.old }
        ensures { self.new ≡ take (length self.old - 2) self.old }
    {
        self.items.truncate(self.items.len() - 2);
    }
}
