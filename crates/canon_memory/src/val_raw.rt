//! A core word, by the name of wasmtime's ValRaw, made from and read as the core types.

ghost use Rattle.std.specs.Prelude.{◌≡◌, ◌^◌, ◌%◌, ℕ};
ghost use Rattle.std.specs.Int.{cast_signed, cast_unsigned, w32, w64};
ghost use Rattle.canon_model.specs.Memory.{low};

use std::marker::Model;

/// A core word, which a guest takes or gives. A value of 32 bits stands in its low half. Contracts see its number.
#[derive(Clone, Copy, Debug, PartialEq, Eq)]
pub struct ValRaw {
    bits: u64,
}

impl Model for ValRaw {
    ghost Value = { ℕ };

    ghost view = { λ w. w.bits };

    ghost inverse = { λ n. record { bits = n } };
}

impl ValRaw {
    /// The word of an `i32`, with upper half zero.
    pub fn i32(v: i32) -> Self
        ensures { result ≡ cast_unsigned w32 v }
    {
        ValRaw::u32(v.cast_unsigned())
    }

    /// The word of a `u32`, with upper half zero.
    pub fn u32(v: u32) -> Self
        ensures { result ≡ v }
    {
        ValRaw { bits: u64::from(v) }
    }

    /// The word of an `i64`.
    pub fn i64(v: i64) -> Self
        ensures { result ≡ cast_unsigned w64 v }
    {
        ValRaw::u64(v.cast_unsigned())
    }

    /// The word of a `u64`.
    pub fn u64(v: u64) -> Self
        ensures { result ≡ v }
    {
        ValRaw { bits: v }
    }

    /// The word of an `f32`, given as its bits, with upper half zero.
    pub fn f32(bits: u32) -> Self
        ensures { result ≡ bits }
    {
        ValRaw::u32(bits)
    }

    /// The word of an `f64`, given as its bits.
    pub fn f64(bits: u64) -> Self
        ensures { result ≡ bits }
    {
        ValRaw::u64(bits)
    }

    /// The low half as an `i32`.
    pub fn get_i32(&self) -> i32
        ensures { result ≡ cast_signed w32 (low self.now) }
    {
        self.get_u32().cast_signed()
    }

    /// The low half.
    pub fn get_u32(&self) -> u32
        ensures { result ≡ low self.now }
    {
        (self.bits % (1 << 32)) as u32
    }

    /// The whole word as an `i64`.
    pub fn get_i64(&self) -> i64
        ensures { result ≡ cast_signed w64 self.now }
    {
        self.bits.cast_signed()
    }

    /// The whole word.
    pub fn get_u64(&self) -> u64
        ensures { result ≡ self.now }
    {
        self.bits
    }

    /// The bits of an `f32`, which are the low half.
    pub fn get_f32(&self) -> u32
        ensures { result ≡ low self.now }
    {
        self.get_u32()
    }

    /// The bits of an `f64`, which are the whole word.
    pub fn get_f64(&self) -> u64
        ensures { result ≡ self.now }
    {
        self.bits
    }
}
