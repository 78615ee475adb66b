//! The blocks that live, and whether an answer is apart from them.

ghost use Rattle.std.specs.Prelude.{◌≡◌, ◌+◌, ◌<◌, ◌^◌, ◌↔◌, ◌++◌, ℕ, IsTrue};
ghost use Rattle.std.specs.List.{All};
ghost use Rattle.canon_memory.specs.Realloc.{block, call};
ghost use Rattle.canon_memory.specs.Watch.{BlocksApart, is_block, other_blocks, unless_empty};
ghost use Rattle.canon_replay_guest.specs.Lawful.{AreListed, IsHighestBlock, IsNotEmpty, IsOldOrApart};
ghost use Rattle.std.specs.Vec.{vec_capacity, vec_len};

use std::alloc::Global;
use std::marker::Model;

/// A block that lives.
#[derive(Clone, Copy, Debug)]
pub(crate) struct LiveBlock {
    start: u32,
    size: u32,
}

impl Model for LiveBlock {
    ghost use Rattle.canon_model.specs.Memory.{Block};

    ghost Value = { Block };

    ghost view = { λ b. record { start = b.start; size = b.size } };

    ghost inverse = { λ b. record { start = b.start; size = b.size } };
}

impl LiveBlock {
    ghost use Rattle.std.specs.Prelude.{◌≡◌, ◌+◌, ◌<◌, ◌^◌};
    ghost use Rattle.canon_memory.specs.Realloc.{block};

    fn end(self) -> u64
        ensures { result ≡ self.start + self.size }
    {
        u64::from(self.start) + u64::from(self.size)
    }

    fn new(start: u64, size: u64) -> Self
        requires start { start < 2 ^ 32 }
        requires size { size < 2 ^ 32 }
        ensures { result ≡ block start size }
    {
        LiveBlock {
            start: start as u32,
            size: size as u32,
        }
    }
}

/// The blocks that live, none of them empty. Contracts see their list.
#[derive(Drop)]
pub(crate) struct LiveBlocks {
    blocks: Vec<LiveBlock>,
    // all end here or before
    end: u64,
    // and here those before the last of the list
    before: u64,
}

impl Model for LiveBlocks {
    ghost use Rattle.std.specs.Prelude.{List};
    ghost use Rattle.canon_model.specs.Memory.{Block};
    ghost use Rattle.canon_replay_guest.specs.Lawful.{AreListed};

    ghost Value = { List Block };

    ghost view = { λ l. l.blocks.items };

    ghost invariant = { λ l. AreListed l.blocks.items l.end l.before };
}

impl LiveBlocks {
    ghost use Rattle.std.specs.Prelude.{◌≡◌, ◌<◌, ◌^◌, ◌↔◌, [], IsTrue, OnErr, OnOk};
    ghost use Rattle.canon_memory.specs.Realloc.{call};
    ghost use Rattle.canon_memory.specs.Watch.{relisted};
    ghost use Rattle.canon_replay_guest.specs.Lawful.{IsFree};

    pub(crate) fn new(alloc: Global) -> Self
        ensures { result ≡ [] }
    {
        LiveBlocks {
            blocks: Vec::new(alloc),
            end: 0,
            before: 0,
        }
    }

    /// No block lives any more.
    pub(crate) fn clear(&mut self)
        ensures { self.new ≡ [] }
    {
        self.blocks.clear();
        self.end = 0;
        self.before = 0;
    }

    /// Whether a new block has no address in common with the blocks that live beside the old one.
    pub(crate) fn is_free(&self, old: u64, old_size: u64, start: u64, size: u64) -> bool
        requires old { old < 2 ^ 32 }
        requires old_size { old_size < 2 ^ 32 }
        requires start { start < 2 ^ 32 }
        requires size { size < 2 ^ 32 }
        ensures { IsTrue result ↔ IsFree self.now (call old old_size 1 size) start }
    {
        let old = LiveBlock::new(old, old_size);
        let new = LiveBlock::new(start, size);
        if start >= self.end {
            return true;
        }
        if start >= self.before && ends_in(&self.blocks, self.before, old) {
            return true;
        }
        are_free(&self.blocks, old, new)
    }

    /// Lists the new block, unless it is empty, in the place of the old one. Where memory runs out nothing changes.
    pub(crate) fn relist(
        &mut self,
        old: u64,
        old_size: u64,
        start: u64,
        size: u64,
    ) -> Result<(), ()>
        requires old { old < 2 ^ 32 }
        requires old_size { old_size < 2 ^ 32 }
        requires start { start < 2 ^ 32 }
        requires size { size < 2 ^ 32 }
        ensures ok { OnOk result (self.new ≡ relisted self.old (call old old_size 1 size) start) }
        ensures err { OnErr result (self.new ≡ self.old) }
    {
        if self.blocks.reserve(1).is_err() {
            return Err(());
        }
        let old = LiveBlock::new(old, old_size);
        let new = LiveBlock::new(start, size);
        give_up(&mut self.blocks, &mut self.end, &mut self.before, old);
        list(&mut self.blocks, &mut self.end, &mut self.before, new);
        Ok(())
    }
}

fn is_same(b: LiveBlock, c: LiveBlock) -> bool
    ensures { result ≡ is_block b c }
{
    b.start == c.start && b.size == c.size
}

/// Whether two blocks have no address in common.
fn are_apart(b: LiveBlock, c: LiveBlock) -> bool
    ensures { IsTrue result ↔ BlocksApart b c }
{
    b.end().min(c.end()) <= u64::from(b.start.max(c.start))
}

/// Whether a block is the old one, or has no address in common with the new one.
fn is_other(b: LiveBlock, old: LiveBlock, new: LiveBlock) -> bool
    ensures { IsTrue result ↔ IsOldOrApart old new b }
{
    is_same(b, old) || are_apart(b, new)
}

/// Whether each block is the old one or has no address in common with the new one.
fn are_free(blocks: &[LiveBlock], old: LiveBlock, new: LiveBlock) -> bool
    ensures { IsTrue result ↔ All (IsOldOrApart old new) blocks.now }
{
    for b in blocks {
        if !is_other(*b, old, new) {
            return false;
        }
    }
    true
}

/// Whether a block is the last of the list and starts where those before it end, or after.
fn ends_in(blocks: &[LiveBlock], before: u64, old: LiveBlock) -> bool
    ensures { IsTrue result → IsHighestBlock blocks.now before old }
{
    match blocks.last() {
        Some(last) => is_same(*last, old) && before <= u64::from(old.start),
        None => false,
    }
}

/// Takes a block out of the list. The last one costs no look at the others.
fn give_up(blocks: &mut Vec<LiveBlock>, end: &mut u64, before: &mut u64, old: LiveBlock)
    requires { AreListed blocks.old.items end.old before.old }
    ensures kept { blocks.new.items ≡ other_blocks blocks.old.items old }
    ensures listed { AreListed blocks.new.items end.new before.new }
    ensures room { vec_len blocks.old < vec_capacity blocks.old → vec_len blocks.new < vec_capacity blocks.new }
{
    if ends_in(blocks, *before, old) {
        blocks.truncate(blocks.len() - 1);
        *end = *before;
    } else {
        take_out(blocks, old);
        *before = *end;
    }
}

/// The same, wherever it stands. An empty one isn't in the list.
fn take_out(blocks: &mut Vec<LiveBlock>, old: LiveBlock)
    requires { All IsNotEmpty blocks.old.items }
    ensures kept { blocks.new.items ≡ other_blocks blocks.old.items old }
    ensures room { vec_len blocks.old < vec_capacity blocks.old → vec_len blocks.new < vec_capacity blocks.new }
{
    if old.size > 0 {
        blocks.retain(|b| !is_same(*b, old));
    }
}

/// Lists a block, for which there is room, unless it is empty.
fn list(blocks: &mut Vec<LiveBlock>, end: &mut u64, before: &mut u64, new: LiveBlock)
    requires room { vec_len blocks.old < vec_capacity blocks.old }
    requires listed { AreListed blocks.old.items end.old before.old }
    ensures added { blocks.new.items ≡ blocks.old.items ++ unless_empty new }
    ensures listed { AreListed blocks.new.items end.new before.new }
{
    if new.size > 0 {
        let _ = blocks.push(new);
        *before = *end;
        *end = new.end().max(*end);
    }
}
