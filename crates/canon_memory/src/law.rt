//! The law of `realloc`, tested on one answer.

ghost use Rattle.std.specs.Prelude.{◌≡◌, ◌+◌, ◌-◌, ◌<◌, ◌≤◌, ◌^◌, ◌++◌, ◌∷◌, ◌↔◌, [], List, ℕ, IsTrue, length, min, slice_index};
ghost use Rattle.std.specs.List.{All};
ghost use Rattle.std.specs.Vec.{vec_capacity, vec_len};
ghost use Rattle.canon_memory.specs.Realloc.{IsTidy, block, call};
ghost use Rattle.canon_memory.specs.Guest.{Mark};
ghost use Rattle.canon_memory.specs.Watch.{BlocksApart, BlockEndsBy, IsExactMark, IsShot, IsSpared, LawHolds, BytesMoved, unless_empty, other_blocks, relisted, is_block};

use std::marker::Model;

/// What was seen of an answer of `realloc`: whether it kept the law, and whether no byte outside its block changed.
#[derive(Clone, Copy, Debug)]
pub struct AnswerMark {
    /// It kept the law of `realloc`.
    pub lawful: bool,
    /// No byte that memory had changed, but in the answered block.
    pub tidy: bool,
}

impl Model for AnswerMark {
    ghost use Rattle.canon_memory.specs.Guest.{Mark};

    ghost Value = { Mark };

    ghost view = { λ m. record { lawful = m.lawful; tidy = m.tidy } };

    ghost inverse = { λ m. record { lawful = m.lawful; tidy = m.tidy } };
}

/// A block that lives. It stands wherever the guest said, which may be past all of memory.
#[derive(Clone, Copy, Debug)]
pub(crate) struct LiveBlock {
    start: u64,
    size: u32,
}

impl Model for LiveBlock {
    ghost use Rattle.canon_model.specs.Memory.{Block};

    ghost Value = { Block };

    ghost view = { λ b. record { start = b.start; size = b.size } };

    ghost inverse = { λ b. record { start = b.start; size = b.size } };
}

impl LiveBlock {
    ghost use Rattle.std.specs.Prelude.{◌≡◌, ◌+◌, ◌<◌, ◌^◌};
    ghost use Rattle.canon_memory.specs.Realloc.{block};

    fn end(self) -> u128
        ensures value { result ≡ self.start + self.size }
    {
        u128::from(self.start) + u128::from(self.size)
    }

    pub(crate) fn new(start: u64, size: u64) -> Self
        requires size { size < 2 ^ 32 }
        ensures { result ≡ block start size }
    {
        LiveBlock {
            start,
            size: size as u32,
        }
    }
}

fn is_same(b: LiveBlock, c: LiveBlock) -> bool
    ensures { result ≡ is_block b c }
{
    b.start == c.start && b.size == c.size
}

/// The byte so far behind an address, or 0 past the end.
fn byte_at(bytes: &[u8], at: u64, k: u64) -> u8
    ensures { result ≡ slice_index bytes.now (at + k) }
{
    let Some(place) = at.checked_add(k) else {
        return 0;
    };
    match bytes.get(place as usize) {
        Some(byte) => *byte,
        None => 0,
    }
}

/// How many bytes there are from an address on.
fn left(bytes: &[u8], at: u64) -> u64
    ensures { result ≡ length bytes.now - at }
{
    (bytes.len() as u64).saturating_sub(at)
}

/// Whether `count` bytes from an address on are inside.
fn are_inside(bytes: &[u8], at: u64, count: u64) -> bool
    ensures { IsTrue result ↔ (at + count ≤ length bytes.now) }
{
    u128::from(at) + u128::from(count) <= bytes.len() as u128
}

/// Whether `count` bytes from `at` on stand in `after` from `to` on. Past an end there are zeros.
fn are_same(before: &[u8], at: u64, after: &[u8], to: u64, count: u64) -> bool
    ensures { IsTrue result ↔ BytesMoved before.now at after.now to count }
{
    if are_inside(before, at, count) && are_inside(after, to, count) {
        let old = &before[at as usize..(at + count) as usize];
        let new = &after[to as usize..(to + count) as usize];
        return new == old;
    }
    are_same_past(before, at, after, to, count)
}

/// The same byte by byte, where an end may be passed. What lies past both ends takes no time.
fn are_same_past(before: &[u8], at: u64, after: &[u8], to: u64, count: u64) -> bool
    ensures { IsTrue result ↔ BytesMoved before.now at after.now to count }
{
    let seen = left(before, at).max(left(after, to)).min(count);
    for k in 0..seen {
        if byte_at(after, to, k) != byte_at(before, at, k) {
            return false;
        }
    }
    true
}

/// Whether two blocks have no address in common.
fn are_apart(b: LiveBlock, c: LiveBlock) -> bool
    ensures { IsTrue result ↔ BlocksApart b c }
{
    b.end().min(c.end()) <= u128::from(b.start.max(c.start))
}

/// Whether a block keeps its bytes.
fn is_kept(b: LiveBlock, before: &[u8], after: &[u8]) -> bool
    ensures { IsTrue result ↔ BytesMoved before.now b.start after.now b.start b.size }
{
    are_same(before, b.start, after, b.start, u64::from(b.size))
}

/// Whether a block is the old one, or is apart from the new one and keeps its bytes.
fn is_spared(b: LiveBlock, old: LiveBlock, new: LiveBlock, before: &[u8], after: &[u8]) -> bool
    ensures { IsTrue result ↔ IsSpared before.now after.now old new b }
{
    is_same(b, old) || are_apart(b, new) && is_kept(b, before, after)
}

/// Whether all blocks are.
fn are_spared(
    live: &[LiveBlock],
    old: LiveBlock,
    new: LiveBlock,
    before: &[u8],
    after: &[u8],
) -> bool
    ensures { IsTrue result ↔ All (IsSpared before.now after.now old new) live.now }
{
    for b in live {
        if !is_spared(*b, old, new, before, after) {
            return false;
        }
    }
    true
}

/// Whether the places held and the blocks given are.
fn are_both_spared(
    held: &[LiveBlock],
    live: &[LiveBlock],
    old: LiveBlock,
    new: LiveBlock,
    before: &[u8],
    after: &[u8],
) -> bool
    ensures { IsTrue result ↔ All (IsSpared before.now after.now old new) (held.now ++ live.now) }
{
    are_spared(held, old, new, before, after) && are_spared(live, old, new, before, after)
}

/// Whether the bytes of the old block stand in the new one, up to the smaller size.
fn is_copied(old: LiveBlock, new: LiveBlock, before: &[u8], after: &[u8]) -> bool
    ensures { IsTrue result ↔ BytesMoved before.now old.start after.now new.start (min old.size new.size) }
{
    let count = u64::from(old.size.min(new.size));
    are_same(before, old.start, after, new.start, count)
}

/// Whether an answer kept the law of `realloc` beside the places held and the blocks given.
fn is_lawful(
    held: &[LiveBlock],
    live: &[LiveBlock],
    old: LiveBlock,
    align: u32,
    new: LiveBlock,
    before: &[u8],
    after: &[u8],
) -> bool
    requires { 0 < align }
    ensures { IsTrue result ↔ LawHolds (held.now ++ live.now) before.now after.now (call old.start old.size align new.size) new.start }
{
    new.start % u64::from(align) == 0
        && new.end() <= after.len() as u128
        && is_copied(old, new, before, after)
        && are_both_spared(held, live, old, new, before, after)
}

/// Whether no byte outside a block changed.
fn is_tidy(before: &[u8], after: &[u8], new: LiveBlock) -> bool
    ensures { IsTrue result ↔ IsTidy before.now after.now new }
{
    let len = before.len() as u64;
    let start = new.start.min(len);
    let end = new.end().min(u128::from(len)) as u64;
    are_same(before, 0, after, 0, start) && are_same(before, end, after, end, len - end)
}

/// The same where every byte is watched, and otherwise `false`.
fn is_seen_tidy(whole: bool, before: &[u8], after: &[u8], new: LiveBlock) -> bool
    ensures tidy { IsTrue result → IsTrue whole × IsTidy before.now after.now new }
    ensures told { IsTrue whole → IsTidy before.now after.now new → IsTrue result }
{
    whole && is_tidy(before, after, new)
}

/// Where the last of some blocks ends, or `least` if they all end before it.
fn end_of(live: &[LiveBlock], least: u128) -> u128
    ensures least { least ≤ result }
    ensures ends { All (BlockEndsBy result) live.now }
{
    let mut end = least;
    for b in live {
        end = end.max(b.end());
    }
    end
}

fn reach(end: u128, len: u128, whole: bool) -> u128
    ensures end { end ≤ result }
    ensures whole { IsTrue whole → len ≤ result }
{
    if whole { end.max(len) } else { end }
}

/// What is to be kept of memory before a call.
pub(crate) fn shot<'a>(
    held: &[LiveBlock],
    live: &[LiveBlock],
    old_end: u64,
    whole: bool,
    memory: &'a [u8],
) -> &'a [u8]
    ensures { IsShot whole (held.now ++ live.now) old_end memory.now result.now }
{
    let len = memory.len() as u128;
    let held_end = end_of(held, u128::from(old_end));
    let end = reach(end_of(live, held_end), len, whole);
    &memory[..end.min(len) as usize]
}

/// Takes a block off the list.
fn unlist(live: &mut Vec<LiveBlock>, old: LiveBlock)
    ensures blocks { live.new.items ≡ other_blocks live.old.items old }
    ensures room { vec_len live.old < vec_capacity live.old → vec_len live.new < vec_capacity live.new }
{
    live.retain(|b| !is_same(*b, old));
}

/// Lists the new block, for which there is room, unless it is empty, in the place of the old one.
fn relist(live: &mut Vec<LiveBlock>, old: LiveBlock, new: LiveBlock)
    requires { vec_len live.old < vec_capacity live.old }
    ensures { live.new.items ≡ other_blocks live.old.items old ++ unless_empty new }
{
    unlist(live, old);
    if new.size > 0 {
        let _ = live.push(new);
    }
}

/// Marks an answer, for which there is room, by what was seen of memory before and after it, and lists its block.
#[allow(clippy::too_many_arguments)]
pub(crate) fn mark_answer(
    held: &mut Vec<LiveBlock>,
    live: &mut Vec<LiveBlock>,
    marks: &mut Vec<AnswerMark>,
    old: u64,
    old_size: u64,
    align: u32,
    new_size: u64,
    answer: u64,
    whole: bool,
    before: &[u8],
    after: &[u8],
)
    requires aligned { 0 < align }
    requires narrow { (old < 2 ^ 32) × (old_size < 2 ^ 32) × (new_size < 2 ^ 32) }
    requires block_room { vec_len live.old < vec_capacity live.old }
    requires mark_room { vec_len marks.old < vec_capacity marks.old }
    ensures held { held.new.items ≡ other_blocks held.old.items (block old old_size) }
    ensures given { live.new.items ≡ relisted live.old.items (call old old_size align new_size) answer }
    ensures marked { (mark : Mark) × (marks.new.items ≡ marks.old.items ++ mark ∷ []) × ((memory : List ℕ) → IsShot whole (held.old.items ++ live.old.items) (old + old_size) memory before.now → length memory ≤ length after.now → IsExactMark whole (held.old.items ++ live.old.items) (held.new.items ++ live.new.items) memory after.now (call old old_size align new_size) answer mark) }
{
    let old = LiveBlock::new(old, old_size);
    let new = LiveBlock::new(answer, new_size);
    let mark = AnswerMark {
        lawful: is_lawful(held, live, old, align, new, before, after),
        tidy: is_seen_tidy(whole, before, after, new),
    };
    unlist(held, old);
    relist(live, old, new);
    let _ = marks.push(mark);
}
