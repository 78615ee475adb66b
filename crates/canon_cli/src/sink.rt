//! Where output goes: the trait `Sink`, with a sink in memory and one over a writer of std.

ghost use Rattle.std.specs.Prelude.{◌≡◌, [], ◌+◌, ◌-◌, ◌^◌, ◌≤◌, ◌<◌, min, length, Some, None, Option, List, ℕ, Contains, IfOk, IsErr};
ghost use Rattle.std.specs.Io.{WritesAtMost};
ghost use Rattle.std.specs.Io.KnownBytes.{WriteAppends};
ghost use Rattle.canon_cli.specs.Streams.{Counted, CountsFaults, Taking, next_call};

use crate::Failed;
use std::alloc::Global;
use std::io::Write;
use std::marker::Model;

/// Where the text of a run goes.
pub trait Sink {
    /// The bytes that it took, where they are known.
    ghost taken: { Self → Option (List ℕ) };

    /// How often a write failed.
    ghost faults: { Self → ℕ };

    /// Takes a prefix of the piece, and says how many bytes: at least one of a piece that isn't empty.
    fn write(&mut self, piece: &[u8]) -> Result<usize, Failed>
        ensures bound { WritesAtMost result piece.now }
        ensures goes_on { IfOk result (λ n. 0 < length piece.now → 0 < n) }
        ensures bytes { WriteAppends (taken self.old) (taken self.new) result piece.now }
        ensures cause { CountsFaults (faults self.old) (faults self.new) result };
}

/// A sink in memory, which takes bytes in pieces. Contracts see the bytes that it took, and its counts.
#[derive(Drop)]
pub struct MemorySink {
    taken: Vec<u8>,
    chunk: usize,
    fails: Vec<u64>,
    calls: u64,
    faults: u64,
}

impl Model for MemorySink {
    ghost Value = { Taking };

    ghost view = { λ s. record { taken = s.taken.items; chunk = s.chunk; fails = s.fails.items; calls = s.calls; faults = s.faults } };

    ghost invariant = { λ s. 0 < s.chunk };
}

impl MemorySink {
    /// A sink that takes up to `chunk` bytes a call, and fails the calls of these numbers, counted from 1. Where it
    /// has no room for more bytes its call fails too.
    pub fn new(alloc: Global, chunk: usize, fails: Vec<u64>) -> Self
        requires { 0 < chunk }
        ensures { result ≡ record { taken = []; chunk = chunk; fails = fails.items; calls = 0; faults = 0 } }
    {
        MemorySink {
            taken: Vec::new(alloc),
            chunk,
            fails,
            calls: 0,
            faults: 0,
        }
    }

    /// The bytes that it took so far.
    pub fn taken(&self) -> &[u8]
        ensures { result.now ≡ self.now.taken }
    {
        &self.taken
    }
}

impl Sink for MemorySink {
    ghost taken = { λ s. Some s.taken };

    ghost faults = { λ s. s.faults };

    fn write(&mut self, piece: &[u8]) -> Result<usize, Failed>
        ensures bound { WritesAtMost result piece.now }
        ensures goes_on { IfOk result (λ n. 0 < length piece.now → 0 < n) }
        ensures bytes { WriteAppends (Some self.old.taken) (Some self.new.taken) result piece.now }
        ensures cause { CountsFaults self.old.faults self.new.faults result }
        ensures fails { Contains self.old.fails (next_call self.old.calls) → IsErr result }
        ensures given { IfOk result (λ n. n ≡ min (length piece.now) self.old.chunk) }
        ensures counted { self.new.calls ≡ next_call self.old.calls }
        ensures once { IsErr result → self.new.faults ≡ next_call self.old.faults }
        ensures same { (self.new.chunk ≡ self.old.chunk) × (self.new.fails ≡ self.old.fails) }
    {
        self.calls = self.calls.saturating_add(1);
        if self.fails.contains(&self.calls) {
            self.faults = self.faults.saturating_add(1);
            return Err(Failed);
        }
        let count = piece.len().min(self.chunk);
        match self.taken.extend_from_slice(&piece[..count]) {
            Ok(()) => Ok(count),
            Err(_) => {
                self.faults = self.faults.saturating_add(1);
                Err(Failed)
            }
        }
    }
}

/// A sink over a writer of std, which counts each error, and each write that takes nothing of a piece.
#[derive(Drop)]
pub struct StdSink<W> {
    writer: W,
    faults: u64,
}

impl<W> Model for StdSink<W> {
    ghost Value = { Counted W };

    ghost view = { λ s. record { stream = s.writer; faults = s.faults } };
}

impl<W> StdSink<W> {
    /// A sink over this writer, which has counted nothing yet.
    pub fn new(writer: W) -> Self
        ensures { result ≡ record { stream = writer; faults = 0 } }
    {
        StdSink { writer, faults: 0 }
    }
}

impl<W: Write> Sink for StdSink<W> {
    ghost taken = { λ s. W.contents s.stream };

    ghost faults = { λ s. s.faults };

    fn write(&mut self, piece: &[u8]) -> Result<usize, Failed> {
        match self.writer.write(piece) {
            Ok(count) if count > 0 || piece.is_empty() => Ok(count),
            _ => {
                self.faults = self.faults.saturating_add(1);
                Err(Failed)
            }
        }
    }
}
