//! The blocks that the events of `realloc` leave, and their bytes.

ghost use Rattle.std.specs.Prelude.{◌≡◌, ◌++◌, IfOk, OnOk, string_bytes};
ghost use Rattle.std.specs.List.{position};
ghost use Rattle.canon_transcript.specs.Blocks as spec;

use canon_abi::OutOfMemory;
use canon_memory::Event;
use std::alloc::{AllocError, Global};

/// A block that a `realloc` answered_block: its first address, and its size in bytes.
#[derive(Clone, Copy)]
pub(crate) struct Block {
    pub start: u64,
    pub size: u64,
}

/// The blocks that events leave, in order.
pub(crate) fn blocks_left(alloc: Global, events: &[Event]) -> Result<Vec<Block>, AllocError>
    ensures { IfOk result (λ blocks. blocks.items ≡ spec.blocks_left events.now) }
{
    let mut blocks = Vec::new(alloc);
    for event in events {
        follow(&mut blocks, event)?;
    }
    Ok(blocks)
}

/// How many bytes the blocks have that events leave.
pub fn block_bytes(alloc: Global, events: &[Event]) -> Result<u128, OutOfMemory>
    ensures { IfOk result (λ bytes. bytes ≡ spec.block_bytes events.now) }
{
    let blocks = blocks_left(alloc, events)?;
    Ok(sum_of_sizes(&blocks))
}

fn sum_of_sizes(blocks: &[Block]) -> u128
    ensures { result ≡ spec.size_of_blocks blocks.now }
{
    let mut bytes = 0;
    for block in blocks {
        bytes += u128::from(block.size);
    }
    bytes
}

/// Goes on from the blocks before an event to those after it.
pub(crate) fn follow(blocks: &mut Vec<Block>, event: &Event) -> Result<(), AllocError>
    ensures { OnOk result (blocks.new.items ≡ spec.blocks_after blocks.old.items event.now) }
{
    let Event::Realloc {
        old,
        old_size,
        new_size,
        answer,
        ..
    } = event
    else {
        return Ok(());
    };
    let old = Block {
        start: *old,
        size: *old_size,
    };
    let new = Block {
        start: *answer,
        size: *new_size,
    };
    if old.size == 0 {
        return add(blocks, new);
    }
    put_block(blocks, old, new)
}

/// Adds a block at the end, unless it is empty.
fn add(blocks: &mut Vec<Block>, new: Block) -> Result<(), AllocError>
    ensures { OnOk result (blocks.new.items ≡ blocks.old.items ++ spec.answered_block new.start new.size) }
{
    if new.size > 0 {
        blocks.push(new)?;
    }
    Ok(())
}

/// Puts a block in the place of an old one, or takes that out where the new one is empty. Where the old one isn't
/// there, adds the new one.
fn put_block(blocks: &mut Vec<Block>, old: Block, new: Block) -> Result<(), AllocError>
    ensures { OnOk result (blocks.new.items ≡ spec.put_block old.start old.size (spec.answered_block new.start new.size) blocks.old.items) }
{
    let Some(i) = place_of(blocks, old) else {
        return add(blocks, new);
    };
    if new.size > 0 {
        blocks[i] = new;
    } else {
        blocks.remove(i);
    }
    Ok(())
}

fn place_of(blocks: &[Block], old: Block) -> Option<usize>
    ensures { result ≡ position (spec.is_at old.start old.size) blocks.now }
{
    blocks.iter().position(|block| is_at(block, old))
}

fn is_at(block: &Block, old: Block) -> bool
    ensures { result ≡ spec.is_at old.start old.size block.now }
{
    block.start == old.start && block.size == old.size
}
