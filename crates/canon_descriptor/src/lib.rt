//! A channel over a descriptor of the C library: what is told is written to it, and what is heard is read from it.
#![tactic(auto)]

ghost use Rattle.std.specs.Prelude.{None};

use canon_memory::Memory;
use canon_relay::Channel;

/// A descriptor that is open for reading and for writing. Several of one number are one way of bytes. No contract knows what passes.
#[derive(Clone, Copy, Debug, PartialEq, Eq)]
pub struct Descriptor {
    number: i32,
}

impl Descriptor {
    /// The descriptor of this number. That it is open isn't tested.
    pub fn new(number: i32) -> Self {
        Descriptor { number }
    }
}

impl Channel for Descriptor {
    ghost log = { λ _. None };

    fn tell(&mut self, bytes: &[u8]) -> bool {
        io::write_all(self.number, bytes)
    }

    fn hear(&mut self, into: &mut [u8]) -> bool {
        let len = into.len();
        io::read_full(self.number, into) == len
    }

    /// The bytes of memory are written, and then the same buffer is read. Whoever answers both calls in this process finds the bytes in the buffer
    /// that it is to fill, and may run in it without a copy. Of a memory without bytes nothing is written or read.
    fn lend(&mut self, memory: &mut Memory) -> bool {
        let len = memory.len() as usize;
        io::write_all(self.number, memory.as_slice())
            && io::read_full(self.number, memory.as_slice_mut()) == len
    }
}
