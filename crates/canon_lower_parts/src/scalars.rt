//! The words of scalars: integers, floats by their bits, `bool` and `char`.

use crate::words::WordScalar;
use canon_memory::ValRaw;
use canon_typed::{Float32Bits, Float64Bits};

impl WordScalar for i8 {
    fn word(&self) -> ValRaw {
        ValRaw::i32(i32::from(*self))
    }
}

impl WordScalar for u8 {
    fn word(&self) -> ValRaw {
        ValRaw::u32(u32::from(*self))
    }
}

impl WordScalar for i16 {
    fn word(&self) -> ValRaw {
        ValRaw::i32(i32::from(*self))
    }
}

impl WordScalar for u16 {
    fn word(&self) -> ValRaw {
        ValRaw::u32(u32::from(*self))
    }
}

impl WordScalar for i32 {
    fn word(&self) -> ValRaw {
        ValRaw::i32(*self)
    }
}

impl WordScalar for u32 {
    fn word(&self) -> ValRaw {
        ValRaw::u32(*self)
    }
}

impl WordScalar for i64 {
    fn word(&self) -> ValRaw {
        ValRaw::i64(*self)
    }
}

impl WordScalar for u64 {
    fn word(&self) -> ValRaw {
        ValRaw::u64(*self)
    }
}

impl WordScalar for Float32Bits {
    fn word(&self) -> ValRaw {
        ValRaw::f32(self.0)
    }
}

impl WordScalar for Float64Bits {
    fn word(&self) -> ValRaw {
        ValRaw::f64(self.0)
    }
}

impl WordScalar for bool {
    fn word(&self) -> ValRaw {
        ValRaw::u32(u32::from(*self))
    }
}

impl WordScalar for char {
    fn word(&self) -> ValRaw {
        ValRaw::u32(u32::from(*self))
    }
}
