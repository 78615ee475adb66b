//! Writes into a guest's memory: numbers by their lowest bytes, and a pointer with a length. And the size of a list's block.

ghost use Rattle.std.specs.Prelude.{◌≡◌, ◌≤◌, ◌<◌, ◌+◌, ◌*◌, ◌%◌, ◌^◌, ◌⊎◌, IfSome, IsNone, length};
ghost use Rattle.canon_lowering.specs.Steps.{Writes};
ghost use Rattle.canon_lowering.specs.Storing.{IsPair, narrow};
ghost use Rattle.canon_memory.specs.Realloc.{block};
ghost use Rattle.canon_model.specs.Memory.{num};

/// The most bytes and items of a list.
const MAX_LIST: u64 = 0xffff_ffff;

/// Writes the lowest bytes of a number, the lowest first (CanonicalABI.md, "store_int").
pub fn put_low_bytes(memory: &mut [u8], at: u64, number: u64, size: u32)
    requires few { size ≤ 8 }
    requires room { at + size ≤ length memory.old }
    ensures stored { num (narrow memory.new) at size ≡ number % 256 ^ size }
    ensures writes { Writes (block at size) memory.old memory.new }
{
    match size {
        1 => put_first::<1>(memory, at, number),
        2 => put_first::<2>(memory, at, number),
        4 => put_first::<4>(memory, at, number),
        8 => put_first::<8>(memory, at, number),
        _ => put_any(memory, at, number, size),
    }
}

/// The same of so many bytes. A constant number of bytes is one store of the machine.
fn put_first<const N: usize>(memory: &mut [u8], at: u64, number: u64)
    requires few { N ≤ 8 }
    requires room { at + N ≤ length memory.old }
    ensures stored { num (narrow memory.new) at N ≡ number % 256 ^ N }
    ensures writes { Writes (block at N) memory.old memory.new }
{
    let start = at as usize;
    let bytes = number.to_le_bytes();
    memory[start..start + N].copy_from_slice(&bytes[..N]);
}

/// The same of any number of bytes up to 8.
fn put_any(memory: &mut [u8], at: u64, number: u64, size: u32)
    requires few { size ≤ 8 }
    requires room { at + size ≤ length memory.old }
    ensures stored { num (narrow memory.new) at size ≡ number % 256 ^ size }
    ensures writes { Writes (block at size) memory.old memory.new }
{
    let start = at as usize;
    let size = size as usize;
    let bytes = number.to_le_bytes();
    memory[start..start + size].copy_from_slice(&bytes[..size]);
}

/// Writes a pointer and the length after it.
pub fn put_pair(memory: &mut [u8], at: u64, pointer: u64, count: u64)
    requires narrow { pointer < 2 ^ 32 }
    requires narrow_count { count < 2 ^ 32 }
    requires room { at + 8 ≤ length memory.old }
    ensures { IsPair memory.old memory.new at pointer count }
{
    put_low_bytes(memory, at, pointer, 4);
    put_low_bytes(memory, at + 4, count, 4);
}

/// The bytes of so many items of this size, where neither number passes 2^32 - 1.
pub fn block_size(items: u64, size: u32) -> Option<u64>
    ensures some { IfSome result (λ bytes. (bytes ≡ items * size) × (items < 2 ^ 32) × (bytes < 2 ^ 32)) }
    ensures none { IsNone result → (2 ^ 32 ≤ items) ⊎ (2 ^ 32 ≤ items * size) }
{
    if items > MAX_LIST {
        return None;
    }
    let bytes = items * u64::from(size);
    if bytes > MAX_LIST { None } else { Some(bytes) }
}
