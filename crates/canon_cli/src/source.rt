//! Where input comes from: the trait `Source`, with a source in memory and one over a reader of std.

ghost use Rattle.std.specs.Prelude.{◌≡◌, ◌+◌, ◌-◌, ◌^◌, ◌≤◌, ◌<◌, min, drop, take, length, Some, None, Option, List, ℕ, Contains, IfOk, IsErr, ◌↔◌};
ghost use Rattle.std.specs.Io.{ReadsAtMost};
ghost use Rattle.std.specs.Io.KnownBytes.{ReadConsumes};
ghost use Rattle.canon_cli.specs.Streams.{Counted, Feeding, CountsFaults, next_call};

use std::io::Read;
use std::marker::Model;

/// A read or a write that failed.
#[derive(Clone, Copy, Debug, PartialEq, Eq)]
pub struct Failed;

/// Where a script comes from.
pub trait Source {
    /// The bytes that are left, where they are known.
    ghost left: { Self → Option (List ℕ) };

    /// How often a read failed.
    ghost faults: { Self → ℕ };

    /// Reads bytes into the buffer, and says how many. None into a buffer that isn't empty is the end.
    fn read(&mut self, buf: &mut [u8]) -> Result<usize, Failed>
        ensures bound { ReadsAtMost result buf.new }
        ensures bytes { ReadConsumes (left self.old) (left self.new) result buf.new }
        ensures cause { CountsFaults (faults self.old) (faults self.new) result };
}

/// A source in memory, which gives its bytes in pieces. Contracts see the bytes that are left, and its counts.
#[derive(Drop)]
pub struct MemorySource {
    bytes: Vec<u8>,
    chunk: usize,
    fails: Vec<u64>,
    at: usize,
    calls: u64,
    faults: u64,
}

impl Model for MemorySource {
    ghost Value = { Feeding };

    ghost view = { λ s. record { left = drop s.at s.bytes.items; chunk = s.chunk; fails = s.fails.items; calls = s.calls; faults = s.faults } };

    ghost invariant = { λ s. (s.at ≤ length s.bytes.items) × (0 < s.chunk) };
}

impl MemorySource {
    /// A source that gives up to `chunk` bytes a call, and fails the calls of these numbers, counted from 1.
    pub fn new(bytes: Vec<u8>, chunk: usize, fails: Vec<u64>) -> Self
        requires { 0 < chunk }
        ensures { result ≡ record { left = bytes.items; chunk = chunk; fails = fails.items; calls = 0; faults = 0 } }
    {
        MemorySource {
            bytes,
            chunk,
            fails,
            at: 0,
            calls: 0,
            faults: 0,
        }
    }
}

impl Source for MemorySource {
    ghost left = { λ s. Some s.left };

    ghost faults = { λ s. s.faults };

    fn read(&mut self, buf: &mut [u8]) -> Result<usize, Failed>
        ensures bound { ReadsAtMost result buf.new }
        ensures bytes { ReadConsumes (Some self.old.left) (Some self.new.left) result buf.new }
        ensures cause { CountsFaults self.old.faults self.new.faults result }
        ensures fails { IsErr result ↔ Contains self.old.fails (next_call self.old.calls) }
        ensures given { IfOk result (λ n. n ≡ min (min (length self.old.left) (length buf.old)) self.old.chunk) }
        ensures counted { self.new.calls ≡ next_call self.old.calls }
        ensures once { IsErr result → self.new.faults ≡ next_call self.old.faults }
        ensures same { (self.new.chunk ≡ self.old.chunk) × (self.new.fails ≡ self.old.fails) }
    {
        self.calls = self.calls.saturating_add(1);
        if self.fails.contains(&self.calls) {
            self.faults = self.faults.saturating_add(1);
            return Err(Failed);
        }
        let rest = &self.bytes[self.at..];
        let count = rest.len().min(buf.len()).min(self.chunk);
        buf[..count].copy_from_slice(&rest[..count]);
        self.at += count;
        Ok(count)
    }
}

/// A source over a reader of std, which counts each error.
#[derive(Drop)]
pub struct StdSource<R> {
    reader: R,
    faults: u64,
}

impl<R> Model for StdSource<R> {
    ghost Value = { Counted R };

    ghost view = { λ s. record { stream = s.reader; faults = s.faults } };
}

impl<R> StdSource<R> {
    /// A source over this reader, which has counted nothing yet.
    pub fn new(reader: R) -> Self
        ensures { result ≡ record { stream = reader; faults = 0 } }
    {
        StdSource { reader, faults: 0 }
    }
}

impl<R: Read> Source for StdSource<R> {
    ghost left = { λ s. R.remaining s.stream };

    ghost faults = { λ s. s.faults };

    fn read(&mut self, buf: &mut [u8]) -> Result<usize, Failed> {
        match self.reader.read(buf) {
            Ok(count) => Ok(count),
            Err(_) => {
                self.faults = self.faults.saturating_add(1);
                Err(Failed)
            }
        }
    }
}
