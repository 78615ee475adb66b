//! A channel in memory, for tests: what the other side is to say is given beforehand, and what passed is kept.

ghost use Rattle.std.specs.Prelude.{◌≡◌, Some, length};
ghost use Rattle.canon_relay.specs.Channel.{AddsMessages, heard, lent, message_if, told};

use crate::Channel;
use canon_memory::Memory;
use std::alloc::Global;
use std::marker::Model;

/// What the other side does next.
#[derive(Debug, Drop)]
pub enum Given {
    /// It says these bytes.
    Bytes(Vec<u8>),
    /// It writes these bytes at an address of the memory that it is lent. Where the next thing is another one, it writes nothing.
    Writes { at: usize, bytes: Vec<u8> },
    /// It fails what is done next.
    Fails,
}

/// What passed.
#[derive(Debug, Drop)]
pub enum Said {
    Told(Vec<u8>),
    Heard(Vec<u8>),
    Lent { before: Vec<u8>, after: Vec<u8> },
}

/// A channel in memory. Contracts see what passed.
#[derive(Drop)]
pub struct MemoryChannel {
    alloc: Global,
    given: Vec<Given>,
    at: usize,
    kept: Vec<Said>,
}

impl Model for MemoryChannel {
    ghost use Rattle.std.specs.Prelude.{List, map};
    ghost use Rattle.canon_relay.specs.Channel.{Message};
    ghost use Rattle.canon_relay.specs.Memories.{said};

    ghost Value = { List Message };

    ghost view = { λ c. map said c.kept.items };
}

impl MemoryChannel {
    ghost use Rattle.std.specs.Prelude.{◌≡◌, [], ◌++◌, ◌∷◌, map};
    ghost use Rattle.canon_relay.specs.Memories.{said};

    /// A channel whose other side does this, and then fails.
    pub fn new(alloc: Global, given: Vec<Given>) -> Self
        ensures { result ≡ [] }
    {
        MemoryChannel {
            alloc,
            given,
            at: 0,
            kept: Vec::new(alloc),
        }
    }

    /// What passed, in order.
    pub fn said(&self) -> &[Said]
        ensures { map said result.now ≡ self.now }
    {
        &self.kept
    }

    /// Adds a message, unless memory runs out.
    fn keep(&mut self, message: Said) -> bool
        ensures { self.new ≡ self.old ++ message_if result (said message) }
    {
        self.kept.push(message).is_ok()
    }

    /// Whether the other side fails now.
    fn fails(&mut self) -> bool
        ensures { self.new ≡ self.old }
    {
        let fails = matches!(self.given.get(self.at), Some(Given::Fails));
        if fails && self.at < usize::MAX {
            self.at += 1;
        }
        fails
    }

    /// The bytes that the other side says next, if they are so many.
    fn next_bytes(&mut self, len: usize) -> Option<Vec<u8>>
        ensures same { self.new ≡ self.old }
    {
        let Some(Given::Bytes(bytes)) = self.given.get(self.at) else {
            return None;
        };
        if bytes.len() != len || self.at == usize::MAX {
            return None;
        }
        let bytes = bytes.to_vec(self.alloc).ok()?;
        self.at += 1;
        Some(bytes)
    }

    /// Has the other side write what it is to write next, if it does so now and it lies inside memory.
    fn write_next(&mut self, memory: &mut [u8])
        ensures same { self.new ≡ self.old }
        ensures length { length memory.new ≡ length memory.old }
    {
        let Some(Given::Writes { at, bytes }) = self.given.get(self.at) else {
            return;
        };
        if let Some(place) = memory.get_mut(*at..) {
            if let Some(place) = place.get_mut(..bytes.len()) {
                place.copy_from_slice(bytes);
            }
        }
        if self.at < usize::MAX {
            self.at += 1;
        }
    }
}

impl Channel for MemoryChannel {
    ghost use Rattle.std.specs.Prelude.{Some};

    ghost log = { λ c. Some c };

    fn tell(&mut self, bytes: &[u8]) -> bool {
        if self.fails() {
            return false;
        }
        match bytes.to_vec(self.alloc) {
            Ok(bytes) => self.keep(Said::Told(bytes)),
            Err(_) => false,
        }
    }

    fn hear(&mut self, into: &mut [u8]) -> bool {
        if self.fails() {
            return false;
        }
        let Some(bytes) = self.next_bytes(into.len()) else {
            return false;
        };
        if bytes.len() != into.len() {
            return false;
        }
        into.copy_from_slice(&bytes);
        self.keep(Said::Heard(bytes))
    }

    fn lend(&mut self, memory: &mut Memory) -> bool {
        if self.fails() {
            return false;
        }
        let Ok(before) = memory.as_slice().to_vec(self.alloc) else {
            return false;
        };
        self.write_next(memory.as_slice_mut());
        match memory.as_slice().to_vec(self.alloc) {
            Ok(after) => self.keep(Said::Lent { before, after }),
            Err(_) => false,
        }
    }
}
