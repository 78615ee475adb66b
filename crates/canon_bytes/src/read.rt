//! Numbers and discriminants that are read from a guest's memory (CanonicalABI.md, "load_int").

ghost use Rattle.std.specs.Prelude.{◌≡◌, ◌≤◌, ◌+◌, length};
ghost use Rattle.canon_abi.specs.Sizes.{tag_bytes};
ghost use Rattle.canon_lowering.specs.Storing.{narrow};
ghost use Rattle.canon_model.specs.Memory.{num};

use canon_abi::DiscriminantSize;

/// The discriminant at an address.
pub fn load_tag(memory: &[u8], size: DiscriminantSize, at: u64) -> u32
    requires { at + tag_bytes size ≤ length memory.now }
    ensures { result ≡ num (narrow memory.now) at (tag_bytes size) }
{
    match size {
        DiscriminantSize::Size1 => u32::from(load_u8(memory, at)),
        DiscriminantSize::Size2 => u32::from(load_u16(memory, at)),
        DiscriminantSize::Size4 => load_u32(memory, at),
    }
}

/// The byte at an address.
pub fn load_u8(memory: &[u8], at: u64) -> u8
    requires { at + 1 ≤ length memory.now }
    ensures { result ≡ num (narrow memory.now) at 1 }
{
    memory[at as usize]
}

/// The number in the 2 bytes at an address, the lowest byte first.
pub fn load_u16(memory: &[u8], at: u64) -> u16
    requires { at + 2 ≤ length memory.now }
    ensures { result ≡ num (narrow memory.now) at 2 }
{
    let i = at as usize;
    let mut bytes = [0u8; 2];
    bytes.copy_from_slice(&memory[i..i + 2]);
    u16::from_le_bytes(bytes)
}

/// The number in the 4 bytes at an address.
pub fn load_u32(memory: &[u8], at: u64) -> u32
    requires { at + 4 ≤ length memory.now }
    ensures { result ≡ num (narrow memory.now) at 4 }
{
    let i = at as usize;
    let mut bytes = [0u8; 4];
    bytes.copy_from_slice(&memory[i..i + 4]);
    u32::from_le_bytes(bytes)
}

/// The number in the 8 bytes at an address.
pub fn load_u64(memory: &[u8], at: u64) -> u64
    requires { at + 8 ≤ length memory.now }
    ensures { result ≡ num (narrow memory.now) at 8 }
{
    let i = at as usize;
    let mut bytes = [0u8; 8];
    bytes.copy_from_slice(&memory[i..i + 8]);
    u64::from_le_bytes(bytes)
}
