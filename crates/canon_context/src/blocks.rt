//! Blocks that the guest is asked for.

ghost use Rattle.std.specs.Prelude.{◌<◌, ◌^◌};
ghost use Rattle.canon_memory.specs.Realloc.{call};
ghost use Rattle.canon_model.specs.Laws.{IsAlignment};
ghost use Rattle.canon_context.specs.Asks.{AsksFor};

use crate::{Core, Fault};
use canon_memory::Guest;

/// Asks the guest's `realloc` for a new block of so many bytes, and answers its address, or as `Core::realloc`.
pub fn ask<T, G: Guest>(core: &mut Core<T, G>, align: u32, size: u64) -> Result<u64, Fault>
    requires alignment { IsAlignment align }
    requires sized { size < 2 ^ 32 }
    ensures asked { AsksFor G.seen G.moves core.old core.new (call 0 0 align size) result }
{
    core.realloc(0, 0, align, size)
}

/// Asks the guest's `realloc` for a block in another size, in bytes; answers as `ask`.
pub fn ask_again<T, G: Guest>(
    core: &mut Core<T, G>,
    old: u64,
    old_size: u64,
    align: u32,
    size: u64,
) -> Result<u64, Fault>
    requires alignment { IsAlignment align }
    requires narrow { old < 2 ^ 32 }
    requires old_sized { old_size < 2 ^ 32 }
    requires sized { size < 2 ^ 32 }
    ensures asked { AsksFor G.seen G.moves core.old core.new (call old old_size align size) result }
{
    core.realloc(old, old_size, align, size)
}
