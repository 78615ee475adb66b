//! Items in a row in memory.

ghost use Rattle.std.specs.Prelude.{◌≡◌, ◌↔◌, ◌≤◌, ◌<◌, ◌+◌, ◌*◌, ◌%◌, IsTrue, length};

use canon_bytes::ends_inside;

/// Whether so many items of a size stand in a row from an address on inside memory, aligned.
pub fn is_row(memory: &[u8], pointer: u64, count: u64, size: u32, align: u32) -> bool
    requires some { 0 < align }
    ensures { IsTrue result ↔ ((pointer % align ≡ 0) × (pointer + count * size ≤ length memory.now)) }
{
    pointer % u64::from(align) == 0 && ends_inside(memory, pointer, count, size)
}
