//! A guest's linear memory, of at most 2^32 bytes.

ghost use Rattle.std.specs.Prelude.{◌≡◌, ◌^◌, ◌≤◌, ◌<◌, length, replicate, IfOk, Err, ◌↔◌};
ghost use Rattle.canon_model.specs.Memory as model;

use crate::MemoryError;
use std::alloc::Global;
use std::marker::Model;

/// The most bytes that a memory has.
const MAX_LEN: u64 = 1 << 32;

/// A linear memory. It never shrinks. Where it is wide, the pointers in it and their lengths have 8 bytes, else 4. Contracts see the
/// memory of the model.
#[derive(Debug, Drop)]
pub struct Memory {
    bytes: Vec<u8>,
    wide: bool,
}

impl Model for Memory {
    ghost Value = { model.Memory };

    ghost view = { λ m. record { bytes = m.bytes.items; wide = m.wide } };

    ghost invariant = { λ m. length m.bytes.items ≤ 2 ^ 32 };
}

impl Memory {
    ghost use Rattle.std.specs.Prelude.{◌≡◌, ◌≤◌, ◌+◌, ◌^◌, ◌<◌, ◌++◌, false, true, length, replicate, IfOk, OnErr, OnOk, Err, ◌↔◌};
    ghost use Rattle.std.specs.Borrow.{Array, Lends, sem, u8};
    ghost use Rattle.canon_model.specs.Memory.{memory_of};
    ghost use Rattle.canon_memory.specs.Memory.{written_over};
    ghost use Rattle.canon_memory.specs.contracts.memory.Memory.{the_row};

    /// A memory of `len` zeros, with pointers of 32 bits.
    pub fn new(alloc: Global, len: u64) -> Result<Self, MemoryError>
        ensures zeros { IfOk result (λ m. m ≡ memory_of (replicate len 0) false) }
        ensures too_large { (result ≡ Err MemoryError.TooLarge) ↔ (2 ^ 32 < len) }
    {
        Self::zeros(alloc, len, false)
    }

    /// The same, with pointers of 64 bits.
    pub fn new_wide(alloc: Global, len: u64) -> Result<Self, MemoryError>
        ensures zeros { IfOk result (λ m. m ≡ memory_of (replicate len 0) true) }
        ensures too_large { (result ≡ Err MemoryError.TooLarge) ↔ (2 ^ 32 < len) }
    {
        Self::zeros(alloc, len, true)
    }

    fn zeros(alloc: Global, len: u64, wide: bool) -> Result<Self, MemoryError>
        ensures zeros { IfOk result (λ m. m ≡ memory_of (replicate len 0) wide) }
        ensures too_large { (result ≡ Err MemoryError.TooLarge) ↔ (2 ^ 32 < len) }
    {
        if len > MAX_LEN {
            return Err(MemoryError::TooLarge);
        }
        let bytes = vec![in alloc; 0; len as usize]?;
        Ok(Memory { bytes, wide })
    }

    /// Whether the pointers in it have 64 bits.
    pub fn is_wide(&self) -> bool
        ensures { result ≡ self.now.wide }
    {
        self.wide
    }

    /// Adds `by` zeros at the end. A refusal leaves the memory as it was.
    pub fn grow(&mut self, by: u64) -> Result<(), MemoryError>
        ensures ok { OnOk result (self.new ≡ record self.old { bytes = self.old.bytes ++ replicate by 0 }) }
        ensures err { OnErr result (self.new ≡ self.old) }
        ensures too_large { (result ≡ Err MemoryError.TooLarge) ↔ (2 ^ 32 < length self.old.bytes + by) }
    {
        let len = self.len();
        if by > MAX_LEN - len {
            return Err(MemoryError::TooLarge);
        }
        self.bytes.resize((len + by) as usize, 0)?;
        Ok(())
    }

    /// The number of bytes, at most 2^32.
    pub fn len(&self) -> u64
        ensures count { result ≡ length self.now.bytes }
        ensures few { length self.now.bytes ≤ 2 ^ 32 }
    {
        self.bytes.len() as u64
    }

    /// All bytes, from address 0 on.
    pub fn as_slice(&self) -> &[u8]
        ensures { result.now ≡ self.now.bytes }
    {
        &self.bytes
    }

    /// All bytes, to be written. Their number stays.
    pub fn as_slice_mut(&mut self) -> &mut [u8]
        ensures* writes_back { sem 𝓛 (Lends the_row (Array u8 0) self.entry result (λ w. record self.old { bytes = written_over self.old.bytes w })) }
        ensures value { result.now ≡ self.old.bytes }
    {
        &mut self.bytes
    }
}
