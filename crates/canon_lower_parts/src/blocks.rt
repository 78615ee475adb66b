//! Blocks of texts and lists, which the guest is asked for.

ghost use Rattle.std.specs.Prelude.{◌≡◌, ◌≤◌, ◌<◌, ◌+◌, ◌^◌, IfOk, OnErr, length, slice_index, ℕ};
ghost use Rattle.canon_abi.specs.Abi.{HasLayout};
ghost use Rattle.canon_lower_parts.specs.Places.{BlockAsked, IsPlacedPut, block_words, without_value};
ghost use Rattle.canon_model.specs.Flat.{SameWords};
ghost use Rattle.canon_model.specs.Shape.{Shape};

use canon_bytes::{block_size, put_pair};
use canon_context::{Fault, LowerContext, ask};
use canon_memory::{Guest, ValRaw};
use canon_types::CanonicalAbiInfo;

/// Where a text or a list stands, and its length: the code units of a text with the tag of its encoding, or the items of a list.
#[derive(Clone, Copy)]
pub struct Placed {
    /// The address.
    pub pointer: u64,
    /// The length.
    pub length: u64,
}

/// Writes the pointer and the length of a block at an address, where there is one.
pub fn put_placed<D, G: Guest>(
    cx: &mut LowerContext<'_, D, G>,
    at: u64,
    placed: Result<Placed, Fault>,
) -> Result<(), Fault>
    requires narrow { IfOk placed (λ b. (b.pointer < 2 ^ 32) × (b.length < 2 ^ 32)) }
    requires room { at + 8 ≤ length cx.old.core.now.memory }
    ensures put { IsPlacedPut cx.old.core.now cx.new.core.now at placed }
    ensures done { result ≡ without_value placed }
    ensures same_reference { cx.new.core.ghost_name ≡ cx.old.core.ghost_name }
    ensures same_options { cx.new.options ≡ cx.old.options }
{
    match placed {
        Ok(block) => {
            put_pair(cx.as_slice_mut(), at, block.pointer, block.length);
            Ok(())
        }
        Err(fault) => Err(fault),
    }
}

/// Writes the pointer and the length of a block as words, where there is one.
pub fn put_words(dst: &mut [ValRaw], placed: Result<Placed, Fault>) -> Result<(), Fault>
    requires narrow { IfOk placed (λ b. (b.pointer < 2 ^ 32) × (b.length < 2 ^ 32)) }
    requires room { 2 ≤ length dst.old }
    ensures there { SameWords (block_words placed) 0 dst.new 0 (length (block_words placed)) }
    ensures done { result ≡ without_value placed }
    ensures behind { (p : ℕ) → 2 ≤ p → slice_index dst.new p ≡ slice_index dst.old p }
    ensures unplaced { OnErr placed (dst.new ≡ dst.old) }
    ensures count { length dst.new ≡ length dst.old }
{
    match placed {
        Ok(block) => {
            dst[0] = ValRaw::u32(block.pointer as u32);
            dst[1] = ValRaw::u32(block.length as u32);
            Ok(())
        }
        Err(fault) => Err(fault),
    }
}

/// Asks for the block of so many values in a row, each of which lies so (CanonicalABI.md, "store_list_into_range"), and answers
/// its address. Refuses `SizeOverflow`, with their number, before anything is asked for, where the number or the bytes pass 2^32 - 1.
pub fn ask_items<D, G: Guest>(
    cx: &mut LowerContext<'_, D, G>,
    abi: &CanonicalAbiInfo,
    count: u64,
) -> Result<u64, Fault>
    ensures asked { (s : Shape) → HasLayout abi.now s → BlockAsked G.seen G.moves cx.old.core.now cx.new.core.now s count result }
    ensures same_reference { cx.new.core.ghost_name ≡ cx.old.core.ghost_name }
    ensures same_options { cx.new.options ≡ cx.old.options }
{
    let Some(bytes) = block_size(count, abi.size32) else {
        let _memory = cx.core.memory(); // memory has at most 2^32 bytes
        return Err(Fault::SizeOverflow(count));
    };
    ask(cx.core, abi.align32, bytes)
}
