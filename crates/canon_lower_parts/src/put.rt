//! Numbers written into a guest's memory.

ghost use Rattle.std.specs.Prelude.{◌≡◌, ◌≤◌, ◌+◌, length};
ghost use Rattle.canon_lower_parts.specs.Stores.{IsPut};

use canon_bytes::put_low_bytes;
use canon_context::LowerContext;
use canon_memory::Guest;

/// Writes the lowest bytes of a number at an address.
pub(crate) fn put<D, G: Guest>(cx: &mut LowerContext<'_, D, G>, at: u64, number: u64, size: u32)
    requires few { size ≤ 8 }
    requires room { at + size ≤ length cx.old.core.now.memory }
    ensures put { IsPut cx.old.core.now cx.new.core.now at number size }
    ensures same_reference { cx.new.core.ghost_name ≡ cx.old.core.ghost_name }
    ensures same_options { cx.new.options ≡ cx.old.options }
{
    put_low_bytes(cx.as_slice_mut(), at, number, size);
}
