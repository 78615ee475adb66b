//! The allocator of a scripted guest, which goes up from an address and answers `realloc` by five rules.

ghost use Rattle.std.specs.Prelude.{◌≡◌, ◌+◌, ◌<◌, ◌≤◌, ◌^◌, ◌++◌, List, drop, length, take};
ghost use Rattle.std.specs.Vec.{vec_len, vec_capacity};
ghost use Rattle.canon_model.specs.Memory.{Block};

use canon_memory::GuestFault;
use std::alloc::Global;
use std::marker::Model;

/// The number of addresses.
const ADDRESSES: u64 = 1 << 32;

/// A block that lives.
#[derive(Clone, Copy, Debug, PartialEq, Eq)]
pub(crate) struct LiveBlock {
    start: u64,
    size: u64,
}

impl Model for LiveBlock {
    ghost use Rattle.canon_model.specs.Memory.{Block};

    ghost Value = { Block };

    ghost view = { λ b. record { start = b.start; size = b.size } };

    ghost inverse = { λ b. record { start = b.start; size = b.size } };
}

/// An allocator that goes up. Contracts see its top and its live blocks.
#[derive(Drop)]
pub(crate) struct Allocator {
    top: u64,
    live: Vec<LiveBlock>,
}

impl Model for Allocator {
    ghost use Rattle.canon_scripted.specs.Allocator.{Allocator, InRow};

    ghost Value = { Allocator };

    ghost view = { λ a. record { top = a.top; live = a.live.items } };

    ghost invariant = { λ a. InRow 0 a.live.items a.top };
}

impl Allocator {
    ghost use Rattle.std.specs.Prelude.{◌≡◌, ◌+◌, ◌%◌, ◌<◌, ◌≤◌, ◌^◌, [], false, MatchOption};
    ghost use Rattle.std.specs.List.{slice_get};
    ghost use Rattle.canon_memory.specs.Realloc.{block, call};
    ghost use Rattle.canon_scripted.specs.Allocator.{DoesPlace, InRow, allocate, is_live, last_placed, moved_placed, new_placed, smaller_placed};

    /// An allocator that goes up from `top`.
    pub(crate) fn new(alloc: Global, top: u64) -> Self
        ensures { result ≡ record { top = top; live = [] } }
    {
        Allocator {
            top,
            live: Vec::new(alloc),
        }
    }

    /// Answers a call of `realloc` in a memory of `len` bytes, by the five rules of `allocate`.
    pub(crate) fn allocate(
        &mut self,
        len: u64,
        old: u64,
        old_size: u64,
        align: u32,
        new_size: u64,
    ) -> Result<u64, GuestFault>
        requires aligned { 0 < align }
        requires narrow { old < 2 ^ 32 }
        requires old_sized { old_size < 2 ^ 32 }
        requires new_sized { new_size < 2 ^ 32 }
        ensures does { DoesPlace (allocate len self.old (call old old_size align new_size)) self.old self.new result }
        ensures row { InRow 0 self.old.live self.old.top }
    {
        let top = self.top;
        let align = u64::from(align);
        if old_size == 0 {
            return self.place_new(len, align, new_size);
        }
        let Some(index) = self.find(old, old_size) else {
            return Err(GuestFault::Trap);
        };
        if old % align != 0 {
            return self.move_block(len, index, old, old_size, align, new_size);
        }
        if old + old_size == top {
            return self.resize_last(len, index, old, old_size, new_size);
        }
        if new_size <= old_size {
            return self.shrink(len, index, old, old_size, new_size);
        }
        self.move_block(len, index, old, old_size, align, new_size)
    }

    /// The place of a block that lives, sought from the last on.
    fn find(&self, start: u64, size: u64) -> Option<usize>
        ensures { MatchOption result (is_live self.now.live (block start size) ≡ false) (λ i. slice_get self.now.live i ≡ Some (block start size)) }
    {
        let mut i = self.live.len();
        while i > 0 {
            i -= 1;
            let block = self.live[i];
            if block.start == start && block.size == size {
                return Some(i);
            }
        }
        None
    }

    /// Rule 1: a new block.
    fn place_new(&mut self, len: u64, align: u64, new_size: u64) -> Result<u64, GuestFault>
        requires aligned { 0 < align }
        ensures does { DoesPlace (new_placed len self.old (call 0 0 align new_size)) self.old self.new result }
    {
        let Some(start) = next_start(self.top, len, align, new_size) else {
            return Err(GuestFault::Trap);
        };
        if self.live.reserve(1).is_err() {
            return Err(GuestFault::OutOfMemory);
        }
        list(&mut self.live, start, new_size);
        self.top = start + new_size;
        Ok(start)
    }

    /// Rule 3: the block that ends at the top, in another size.
    fn resize_last(
        &mut self,
        len: u64,
        index: usize,
        old: u64,
        old_size: u64,
        new_size: u64,
    ) -> Result<u64, GuestFault>
        requires lives { slice_get self.old.live index ≡ Some (block old old_size) }
        requires last { old + old_size ≡ self.old.top }
        requires narrow { old < 2 ^ 32 }
        requires new_sized { new_size < 2 ^ 32 }
        ensures does { DoesPlace (last_placed len self.old (call old old_size 1 new_size)) self.old self.new result }
    {
        if old + new_size > len {
            return Err(GuestFault::Trap);
        }
        replace(&mut self.live, index, old, new_size);
        self.top = old + new_size;
        Ok(old)
    }

    /// Rule 4: a block in a smaller size.
    fn shrink(
        &mut self,
        len: u64,
        index: usize,
        old: u64,
        old_size: u64,
        new_size: u64,
    ) -> Result<u64, GuestFault>
        requires lives { slice_get self.old.live index ≡ Some (block old old_size) }
        requires smaller { new_size ≤ old_size }
        requires narrow { old < 2 ^ 32 }
        requires new_sized { new_size < 2 ^ 32 }
        ensures does { DoesPlace (smaller_placed len self.old (call old old_size 1 new_size)) self.old self.new result }
    {
        if len < old + new_size {
            return Err(GuestFault::Trap);
        }
        replace(&mut self.live, index, old, new_size);
        Ok(old)
    }

    /// Rule 5: a new block in the place of one that lives no more.
    fn move_block(
        &mut self,
        len: u64,
        index: usize,
        old: u64,
        old_size: u64,
        align: u64,
        new_size: u64,
    ) -> Result<u64, GuestFault>
        requires lives { slice_get self.old.live index ≡ Some (block old old_size) }
        requires aligned { 0 < align }
        ensures does { DoesPlace (moved_placed len self.old (call old old_size align new_size)) self.old self.new result }
    {
        let Some(start) = next_start(self.top, len, align, new_size) else {
            return Err(GuestFault::Trap);
        };
        if self.live.reserve(1).is_err() {
            return Err(GuestFault::OutOfMemory);
        }
        replace(&mut self.live, index, old, 0);
        list(&mut self.live, start, new_size);
        self.top = start + new_size;
        Ok(start)
    }
}

ghost use Rattle.std.specs.Prelude.{SomeIff};
ghost use Rattle.canon_model.specs.Layout.{align_to};
ghost use Rattle.canon_scripted.specs.Allocator.{listed};

/// The first multiple of an alignment from the top on, where a block of that size has room there.
fn next_start(top: u64, len: u64, align: u64, size: u64) -> Option<u64>
    requires { 0 < align }
    ensures { SomeIff result ((align_to top align < 2 ^ 32) × (align_to top align + size ≤ len)) (align_to top align) }
{
    let start = top.checked_next_multiple_of(align)?;
    let end = start.checked_add(size)?;
    if start < ADDRESSES && end <= len {
        Some(start)
    } else {
        None
    }
}

/// Lists a block, for which there is room, unless it is empty.
fn list(live: &mut Vec<LiveBlock>, start: u64, size: u64)
    requires { vec_len live.old < vec_capacity live.old }
    ensures { live.new.items ≡ live.old.items ++ listed start size }
{
    if size > 0 {
        let _ = live.push(LiveBlock { start, size });
    }
}

/// Puts a block in the place of another. Nothing takes its place where the new one is empty.
fn replace(live: &mut Vec<LiveBlock>, index: usize, start: u64, size: u64)
    requires { index < vec_len live.old }
    ensures replaced { live.new.items ≡ take index live.old.items ++ listed start size ++ drop (index + 1) live.old.items }
    ensures room { vec_len live.old < vec_capacity live.old → vec_len live.new < vec_capacity live.new }
{
    if size == 0 {
        let _ = live.remove(index);
    } else {
        live[index] = LiveBlock { start, size };
    }
}
