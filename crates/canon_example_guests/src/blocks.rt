//! The blocks of a guest that gives each one behind all others.

ghost use Rattle.std.specs.Prelude.{◌≡◌, ◌+◌, ◌<◌, ◌≤◌, ◌^◌, ◌++◌, SomeIff};
ghost use Rattle.std.specs.Vec.{vec_capacity, vec_len};
ghost use Rattle.canon_model.specs.Layout.{align_to};
ghost use Rattle.canon_scripted.specs.Allocator.{listed};

use canon_memory::GuestFault;
use std::alloc::Global;
use std::marker::Model;

/// The number of addresses.
const ADDRESSES: u64 = 1 << 32;

/// A block that lives.
#[derive(Clone, Copy, Debug, PartialEq, Eq)]
pub(crate) struct LiveBlock {
    start: u64,
    size: u64,
}

impl Model for LiveBlock {
    ghost use Rattle.canon_model.specs.Memory.{Block};

    ghost Value = { Block };

    ghost view = { λ b. record { start = b.start; size = b.size } };

    ghost inverse = { λ b. record { start = b.start; size = b.size } };
}

/// The blocks that live, in a row, and the top, which is where the last one ends or behind it.
#[derive(Drop)]
pub(crate) struct Blocks {
    top: u64,
    live: Vec<LiveBlock>,
}

impl Model for Blocks {
    ghost use Rattle.canon_scripted.specs.Allocator.{Allocator, InRow};

    ghost Value = { Allocator };

    ghost view = { λ b. record { top = b.top; live = b.live.items } };

    ghost invariant = { λ b. InRow 0 b.live.items b.top };
}

impl Blocks {
    ghost use Rattle.std.specs.Prelude.{◌≡◌, ◌<◌, ◌^◌, [], IfOk};
    ghost use Rattle.canon_memory.specs.Realloc.{call};
    ghost use Rattle.canon_scripted.specs.Allocator.{DoesPlace, InRow, new_placed};

    /// No blocks yet. The first is given from `top` on.
    pub(crate) fn new(alloc: Global, top: u64) -> Self
        ensures { result ≡ record { top = top; live = [] } }
    {
        Blocks {
            top,
            live: Vec::new(alloc),
        }
    }

    /// Gives a block of this size at the first multiple of the alignment from the top on, in a memory of `len` bytes. It traps where the
    /// block has no room there.
    pub(crate) fn give(&mut self, len: u64, align: u32, size: u64) -> Result<u64, GuestFault>
        requires aligned { 0 < align }
        ensures does { DoesPlace (new_placed len self.old (call 0 0 align size)) self.old self.new result }
        ensures narrow { IfOk result (λ at. at < 2 ^ 32) }
        ensures row { InRow 0 self.old.live self.old.top }
    {
        let Some(start) = next_start(self.top, len, u64::from(align), size) else {
            return Err(GuestFault::Trap);
        };
        if self.live.reserve(1).is_err() {
            return Err(GuestFault::OutOfMemory);
        }
        list(&mut self.live, start, size);
        self.top = start + size;
        Ok(start)
    }
}

/// The first multiple of an alignment from the top on, where a block of that size has room there.
fn next_start(top: u64, len: u64, align: u64, size: u64) -> Option<u64>
    requires { 0 < align }
    ensures { SomeIff result ((align_to top align < 2 ^ 32) × (align_to top align + size ≤ len)) (align_to top align) }
{
    let start = top.checked_next_multiple_of(align)?;
    let end = start.checked_add(size)?;
    if start < ADDRESSES && end <= len {
        Some(start)
    } else {
        None
    }
}

/// Lists a block, for which there is room, unless it is empty.
fn list(live: &mut Vec<LiveBlock>, start: u64, size: u64)
    requires { vec_len live.old < vec_capacity live.old }
    ensures { live.new.items ≡ live.old.items ++ listed start size }
{
    if size > 0 {
        let _ = live.push(LiveBlock { start, size });
    }
}
