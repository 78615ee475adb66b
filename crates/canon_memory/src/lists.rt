//! Lists of core words and lists of bytes.

ghost use Rattle.std.specs.Prelude.{◌≡◌, ℕ, List, [], ◌∷◌, ◌++◌, length, IfOk, IfErr, OnOk, OnErr};

use crate::{MemoryError, ValRaw};
use std::alloc::Global;
use std::marker::Model;

/// A list of words.
#[derive(Debug, Drop)]
pub struct Words {
    items: Vec<ValRaw>,
}

impl Model for Words {
    ghost Value = { List ℕ };

    ghost view = { λ l. l.items.items };
}

impl Words {
    /// An empty list.
    pub fn new(alloc: Global) -> Self
        ensures { result ≡ [] }
    {
        Words {
            items: Vec::new(alloc),
        }
    }

    /// A list of the words of a slice.
    pub fn from_slice(alloc: Global, items: &[ValRaw]) -> Result<Self, MemoryError>
        ensures ok { IfOk result (λ list. list ≡ items.now) }
        ensures only_memory { IfErr result (λ e. e ≡ MemoryError.OutOfMemory) }
    {
        let items = Vec::from_slice(alloc, items)?;
        Ok(Words { items })
    }

    /// How many words there are.
    pub fn len(&self) -> u64
        ensures { result ≡ length self.now }
    {
        self.items.len() as u64
    }

    /// Adds a word at the end. Out of memory leaves the list as it was.
    pub fn push(&mut self, item: ValRaw) -> Result<(), MemoryError>
        ensures ok { OnOk result (self.new ≡ self.old ++ item ∷ []) }
        ensures err { OnErr result (self.new ≡ self.old) }
        ensures only_memory { IfErr result (λ e. e ≡ MemoryError.OutOfMemory) }
    {
        self.items.push(item)?;
        Ok(())
    }

    /// The words in order.
    pub fn as_slice(&self) -> &[ValRaw]
        ensures { result.now ≡ self.now }
    {
        &self.items
    }
}

/// A list of bytes.
#[derive(Debug, Drop)]
pub struct Bytes {
    items: Vec<u8>,
}

impl Model for Bytes {
    ghost Value = { List ℕ };

    ghost view = { λ l. l.items.items };
}

impl Bytes {
    /// An empty list.
    pub fn new(alloc: Global) -> Self
        ensures { result ≡ [] }
    {
        Bytes {
            items: Vec::new(alloc),
        }
    }

    /// A list of the bytes of a slice.
    pub fn from_slice(alloc: Global, items: &[u8]) -> Result<Self, MemoryError>
        ensures ok { IfOk result (λ list. list ≡ items.now) }
        ensures only_memory { IfErr result (λ e. e ≡ MemoryError.OutOfMemory) }
    {
        let items = Vec::from_slice(alloc, items)?;
        Ok(Bytes { items })
    }

    /// How many bytes there are.
    pub fn len(&self) -> u64
        ensures { result ≡ length self.now }
    {
        self.items.len() as u64
    }

    /// Adds a byte at the end. Out of memory leaves the list as it was.
    pub fn push(&mut self, item: u8) -> Result<(), MemoryError>
        ensures ok { OnOk result (self.new ≡ self.old ++ item ∷ []) }
        ensures err { OnErr result (self.new ≡ self.old) }
        ensures only_memory { IfErr result (λ e. e ≡ MemoryError.OutOfMemory) }
    {
        self.items.push(item)?;
        Ok(())
    }

    /// The bytes in order.
    pub fn as_slice(&self) -> &[u8]
        ensures { result.now ≡ self.now }
    {
        &self.items
    }
}
