//! Whether a range ends inside a guest's memory.

ghost use Rattle.std.specs.Prelude.{◌≡◌, ◌*◌};
ghost use Rattle.canon_lowering.specs.Storing.{narrow};
ghost use Rattle.canon_model.specs.Reach.{is_inside};

/// Whether `count` items of `size` bytes each end inside memory, from an address on. No sum wraps, whatever the numbers are.
pub fn ends_inside(memory: &[u8], at: u64, count: u64, size: u32) -> bool
    ensures { result ≡ is_inside (narrow memory.now) at (count * size) }
{
    let end = u128::from(at) + u128::from(count) * u128::from(size);
    end <= memory.len() as u128
}
