//! Scalars, and numbers and pointers in words.

ghost use Rattle.std.specs.Prelude.{◌≡◌, ◌<◌, length, slice_index};
ghost use Rattle.canon_context.specs.Told.{IsPlace};
ghost use Rattle.canon_model.specs.Memory.{low};
ghost use Rattle.canon_model.specs.Reach.{word};

use canon_context::At;
use canon_memory::ValRaw;

/// A word.
pub fn word_of(src: &[ValRaw], index: usize) -> ValRaw
    requires { index < length src.now }
    ensures { result ≡ slice_index src.now index }
{
    src[index]
}

/// The low half of a word.
pub fn word_u32(src: &[ValRaw], index: usize) -> u32
    requires { index < length src.now }
    ensures { result ≡ low (slice_index src.now index) }
{
    src[index].get_u32()
}

/// The place of a word, whose index stays at the last number of a `u32`.
pub fn word_at(index: usize) -> At
    ensures { IsPlace result (word index) }
{
    At::Word(index.min(0xffff_ffff) as u32)
}
