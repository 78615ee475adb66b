//! Scalars as words and in memory.

ghost use Rattle.std.specs.Prelude.{ℕ, ◌≡◌, ◌≤◌, ◌+◌, IfErr, IfOk, IfSome, IsNone, Some, length};
ghost use Rattle.canon_model.specs.Layout.{scalar_size};
ghost use Rattle.canon_model.specs.Reach.{StoredFault};
ghost use Rattle.canon_model.specs.Shape.{Scalar, scalar};
ghost use Rattle.canon_model.specs.Text.{Encoding};
ghost use Rattle.canon_plan.specs.NoHandle.{IsScalarType, scalar_type};
ghost use Rattle.canon_lowering.specs.Storing.{narrow};
ghost use Rattle.canon_context.specs.Told.{Exactly, LiftBlames};
ghost use Rattle.canon_value_parts.specs.Loads.{IsLoaded};
ghost use Rattle.canon_value_parts.specs.Words.{IsNoneOf, IsWordOf};

use canon_bytes::{load_u8, load_u16, load_u32, load_u64};
use canon_context::{At, Fault};
use canon_memory::ValRaw;
use canon_types::InterfaceType;
use canon_val::Val;

/// The value of a scalar type at an address (CanonicalABI.md, "load"): `InvalidChar` where a char's number is no Unicode
/// scalar value.
pub fn load_scalar(memory: &[u8], ty: &InterfaceType, at: u64) -> Result<Val, Fault>
    requires scalar { IsScalarType ty.now }
    requires inside { (k : Scalar) → scalar_type ty.now ≡ Some k → at + scalar_size k ≤ length memory.now }
    ensures ok { (k : Scalar) (enc : Encoding) (fuel : ℕ) → scalar_type ty.now ≡ Some k → IfOk result (IsLoaded enc (narrow memory.now) (scalar k) at fuel fuel) }
    ensures err { (k : Scalar) (enc : Encoding) → scalar_type ty.now ≡ Some k → IfErr result (LiftBlames (Exactly (StoredFault enc (narrow memory.now) (scalar k) at)) ⊥) }
    ensures only_char { IfErr result (λ e. e ≡ Fault.InvalidChar (At.Address at)) }
{
    match ty {
        InterfaceType::Bool => Ok(Val::Bool(load_u8(memory, at) != 0)),
        InterfaceType::S8 => Ok(Val::S8(load_u8(memory, at).cast_signed())),
        InterfaceType::U8 => Ok(Val::U8(load_u8(memory, at))),
        InterfaceType::S16 => Ok(Val::S16(load_u16(memory, at).cast_signed())),
        InterfaceType::U16 => Ok(Val::U16(load_u16(memory, at))),
        InterfaceType::S32 => Ok(Val::S32(load_u32(memory, at).cast_signed())),
        InterfaceType::U32 => Ok(Val::U32(load_u32(memory, at))),
        InterfaceType::S64 => Ok(Val::S64(load_u64(memory, at).cast_signed())),
        InterfaceType::U64 => Ok(Val::U64(load_u64(memory, at))),
        InterfaceType::Float32 => Ok(Val::Float32(load_u32(memory, at))),
        InterfaceType::Float64 => Ok(Val::Float64(load_u64(memory, at))),
        InterfaceType::Char => match char::from_u32(load_u32(memory, at)) {
            Some(c) => Ok(Val::Char(c)),
            None => Err(Fault::InvalidChar(At::Address(at))),
        },
        _ => unreachable!(),
    }
}

/// The word of a scalar, where it is of the type.
pub fn scalar_word(value: &Val, ty: &InterfaceType) -> Option<ValRaw>
    requires { IsScalarType ty.now }
    ensures word { IfSome result (IsWordOf ty.now value.now) }
    ensures none { IsNone result → IsNoneOf ty.now value.now }
{
    match (value, ty) {
        (Val::Bool(v), InterfaceType::Bool) => Some(ValRaw::u32(u32::from(*v))),
        (Val::S8(v), InterfaceType::S8) => Some(ValRaw::i32(i32::from(*v))),
        (Val::U8(v), InterfaceType::U8) => Some(ValRaw::u32(u32::from(*v))),
        (Val::S16(v), InterfaceType::S16) => Some(ValRaw::i32(i32::from(*v))),
        (Val::U16(v), InterfaceType::U16) => Some(ValRaw::u32(u32::from(*v))),
        (Val::S32(v), InterfaceType::S32) => Some(ValRaw::i32(*v)),
        (Val::U32(v), InterfaceType::U32) => Some(ValRaw::u32(*v)),
        (Val::S64(v), InterfaceType::S64) => Some(ValRaw::i64(*v)),
        (Val::U64(v), InterfaceType::U64) => Some(ValRaw::u64(*v)),
        (Val::Float32(bits), InterfaceType::Float32) => Some(ValRaw::f32(*bits)),
        (Val::Float64(bits), InterfaceType::Float64) => Some(ValRaw::f64(*bits)),
        (Val::Char(c), InterfaceType::Char) => Some(ValRaw::u32(u32::from(*c))),
        _ => None,
    }
}
