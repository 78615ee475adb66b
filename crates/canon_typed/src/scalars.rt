//! Integers, floats by their bits, `bool` and `char` as component types.

ghost use Rattle.std.proofs.Common.{ap};
ghost use Rattle.std.specs.Prelude.{◌≡◌, false, pos, refl, true};
ghost use Rattle.canon_model.specs.Shape as shape;
ghost use Rattle.canon_model.specs.Tree.{code_point, number, truth};
ghost use Rattle.canon_types.specs.declared.types.InterfaceType.TheVariants as ty;
ghost use Rattle.canon_typed.specs.Charges.{free};
ghost use Rattle.canon_typed.specs.Scalars.{code_points_apart, naturals_apart, numbers_apart, scalar_rust_type, truths_apart};
ghost use Rattle.canon_typed.specs.Typed.{scalar_typed};

use crate::{ComponentType, ScalarType, TypecheckFailed};
use canon_types::{CanonicalAbiInfo, InstanceType, InterfaceType};

/// An f32 by its bits, of which a NaN keeps each.
#[derive(Clone, Copy, Debug, PartialEq, Eq)]
pub struct Float32Bits(pub u32);

/// An f64 by its bits, of which a NaN keeps each.
#[derive(Clone, Copy, Debug, PartialEq, Eq)]
pub struct Float64Bits(pub u64);

impl ComponentType for i8 {
    const MAY_REQUIRE_REALLOC: bool = false;

    const IS_RUST_UNIT_TYPE: bool = false;

    ghost is_unit = { false };

    ghost fits = { λ i t. t ≡ ty.S8 };

    ghost means = { λ n t. t ≡ number n };

    ghost walks = { λ n t. t ≡ number n };

    ghost is_told = { true };

    ghost lifts = { λ n t. t ≡ number n };

    ghost cost = { free };

    ghost host_bytes = { 1 };

    fn is_unit_type() -> bool {
        Self::IS_RUST_UNIT_TYPE
    }

    fn host_size() -> u64 {
        1
    }

    fn abi() -> Option<CanonicalAbiInfo> {
        Some(CanonicalAbiInfo::SCALAR1)
    }

    fn typecheck(ty: &InterfaceType, _types: &InstanceType) -> Result<(), TypecheckFailed> {
        match ty {
            InterfaceType::S8 => Ok(()),
            _ => Err(TypecheckFailed),
        }
    }

    ghost typed = { scalar_typed ty.S8 (λ n t. t ≡ number n) (λ i n u e. (n, e)) };

    ghost walked = { λ v t h. h };
}

impl ScalarType for i8 {
    ghost kind = { shape.s8 };

    ghost is_scalar = { scalar_rust_type ty.S8 shape.s8 number numbers_apart (λ i. refl) };
}

impl ComponentType for u8 {
    const MAY_REQUIRE_REALLOC: bool = false;

    const IS_RUST_UNIT_TYPE: bool = false;

    ghost is_unit = { false };

    ghost fits = { λ i t. t ≡ ty.U8 };

    ghost means = { λ n t. t ≡ number (pos n) };

    ghost walks = { λ n t. t ≡ number (pos n) };

    ghost is_told = { true };

    ghost lifts = { λ n t. t ≡ number (pos n) };

    ghost cost = { free };

    ghost host_bytes = { 1 };

    fn is_unit_type() -> bool {
        Self::IS_RUST_UNIT_TYPE
    }

    fn host_size() -> u64 {
        1
    }

    fn abi() -> Option<CanonicalAbiInfo> {
        Some(CanonicalAbiInfo::SCALAR1)
    }

    fn typecheck(ty: &InterfaceType, _types: &InstanceType) -> Result<(), TypecheckFailed> {
        match ty {
            InterfaceType::U8 => Ok(()),
            _ => Err(TypecheckFailed),
        }
    }

    ghost typed = { scalar_typed ty.U8 (λ n t. t ≡ number (pos n)) (λ i n u e. (n, e)) };

    ghost walked = { λ v t h. h };
}

impl ScalarType for u8 {
    ghost kind = { shape.u8 };

    ghost is_scalar = { scalar_rust_type ty.U8 shape.u8 _ naturals_apart (λ i. refl) };
}

impl ComponentType for i16 {
    const MAY_REQUIRE_REALLOC: bool = false;

    const IS_RUST_UNIT_TYPE: bool = false;

    ghost is_unit = { false };

    ghost fits = { λ i t. t ≡ ty.S16 };

    ghost means = { λ n t. t ≡ number n };

    ghost walks = { λ n t. t ≡ number n };

    ghost is_told = { true };

    ghost lifts = { λ n t. t ≡ number n };

    ghost cost = { free };

    ghost host_bytes = { 2 };

    fn is_unit_type() -> bool {
        Self::IS_RUST_UNIT_TYPE
    }

    fn host_size() -> u64 {
        2
    }

    fn abi() -> Option<CanonicalAbiInfo> {
        Some(CanonicalAbiInfo::SCALAR2)
    }

    fn typecheck(ty: &InterfaceType, _types: &InstanceType) -> Result<(), TypecheckFailed> {
        match ty {
            InterfaceType::S16 => Ok(()),
            _ => Err(TypecheckFailed),
        }
    }

    ghost typed = { scalar_typed ty.S16 (λ n t. t ≡ number n) (λ i n u e. (n, e)) };

    ghost walked = { λ v t h. h };
}

impl ScalarType for i16 {
    ghost kind = { shape.s16 };

    ghost is_scalar = { scalar_rust_type ty.S16 shape.s16 number numbers_apart (λ i. refl) };
}

impl ComponentType for u16 {
    const MAY_REQUIRE_REALLOC: bool = false;

    const IS_RUST_UNIT_TYPE: bool = false;

    ghost is_unit = { false };

    ghost fits = { λ i t. t ≡ ty.U16 };

    ghost means = { λ n t. t ≡ number (pos n) };

    ghost walks = { λ n t. t ≡ number (pos n) };

    ghost is_told = { true };

    ghost lifts = { λ n t. t ≡ number (pos n) };

    ghost cost = { free };

    ghost host_bytes = { 2 };

    fn is_unit_type() -> bool {
        Self::IS_RUST_UNIT_TYPE
    }

    fn host_size() -> u64 {
        2
    }

    fn abi() -> Option<CanonicalAbiInfo> {
        Some(CanonicalAbiInfo::SCALAR2)
    }

    fn typecheck(ty: &InterfaceType, _types: &InstanceType) -> Result<(), TypecheckFailed> {
        match ty {
            InterfaceType::U16 => Ok(()),
            _ => Err(TypecheckFailed),
        }
    }

    ghost typed = { scalar_typed ty.U16 (λ n t. t ≡ number (pos n)) (λ i n u e. (n, e)) };

    ghost walked = { λ v t h. h };
}

impl ScalarType for u16 {
    ghost kind = { shape.u16 };

    ghost is_scalar = { scalar_rust_type ty.U16 shape.u16 _ naturals_apart (λ i. refl) };
}

impl ComponentType for i32 {
    const MAY_REQUIRE_REALLOC: bool = false;

    const IS_RUST_UNIT_TYPE: bool = false;

    ghost is_unit = { false };

    ghost fits = { λ i t. t ≡ ty.S32 };

    ghost means = { λ n t. t ≡ number n };

    ghost walks = { λ n t. t ≡ number n };

    ghost is_told = { true };

    ghost lifts = { λ n t. t ≡ number n };

    ghost cost = { free };

    ghost host_bytes = { 4 };

    fn is_unit_type() -> bool {
        Self::IS_RUST_UNIT_TYPE
    }

    fn host_size() -> u64 {
        4
    }

    fn abi() -> Option<CanonicalAbiInfo> {
        Some(CanonicalAbiInfo::SCALAR4)
    }

    fn typecheck(ty: &InterfaceType, _types: &InstanceType) -> Result<(), TypecheckFailed> {
        match ty {
            InterfaceType::S32 => Ok(()),
            _ => Err(TypecheckFailed),
        }
    }

    ghost typed = { scalar_typed ty.S32 (λ n t. t ≡ number n) (λ i n u e. (n, e)) };

    ghost walked = { λ v t h. h };
}

impl ScalarType for i32 {
    ghost kind = { shape.s32 };

    ghost is_scalar = { scalar_rust_type ty.S32 shape.s32 number numbers_apart (λ i. refl) };
}

impl ComponentType for u32 {
    const MAY_REQUIRE_REALLOC: bool = false;

    const IS_RUST_UNIT_TYPE: bool = false;

    ghost is_unit = { false };

    ghost fits = { λ i t. t ≡ ty.U32 };

    ghost means = { λ n t. t ≡ number (pos n) };

    ghost walks = { λ n t. t ≡ number (pos n) };

    ghost is_told = { true };

    ghost lifts = { λ n t. t ≡ number (pos n) };

    ghost cost = { free };

    ghost host_bytes = { 4 };

    fn is_unit_type() -> bool {
        Self::IS_RUST_UNIT_TYPE
    }

    fn host_size() -> u64 {
        4
    }

    fn abi() -> Option<CanonicalAbiInfo> {
        Some(CanonicalAbiInfo::SCALAR4)
    }

    fn typecheck(ty: &InterfaceType, _types: &InstanceType) -> Result<(), TypecheckFailed> {
        match ty {
            InterfaceType::U32 => Ok(()),
            _ => Err(TypecheckFailed),
        }
    }

    ghost typed = { scalar_typed ty.U32 (λ n t. t ≡ number (pos n)) (λ i n u e. (n, e)) };

    ghost walked = { λ v t h. h };
}

impl ScalarType for u32 {
    ghost kind = { shape.u32 };

    ghost is_scalar = { scalar_rust_type ty.U32 shape.u32 _ naturals_apart (λ i. refl) };
}

impl ComponentType for i64 {
    const MAY_REQUIRE_REALLOC: bool = false;

    const IS_RUST_UNIT_TYPE: bool = false;

    ghost is_unit = { false };

    ghost fits = { λ i t. t ≡ ty.S64 };

    ghost means = { λ n t. t ≡ number n };

    ghost walks = { λ n t. t ≡ number n };

    ghost is_told = { true };

    ghost lifts = { λ n t. t ≡ number n };

    ghost cost = { free };

    ghost host_bytes = { 8 };

    fn is_unit_type() -> bool {
        Self::IS_RUST_UNIT_TYPE
    }

    fn host_size() -> u64 {
        8
    }

    fn abi() -> Option<CanonicalAbiInfo> {
        Some(CanonicalAbiInfo::SCALAR8)
    }

    fn typecheck(ty: &InterfaceType, _types: &InstanceType) -> Result<(), TypecheckFailed> {
        match ty {
            InterfaceType::S64 => Ok(()),
            _ => Err(TypecheckFailed),
        }
    }

    ghost typed = { scalar_typed ty.S64 (λ n t. t ≡ number n) (λ i n u e. (n, e)) };

    ghost walked = { λ v t h. h };
}

impl ScalarType for i64 {
    ghost kind = { shape.s64 };

    ghost is_scalar = { scalar_rust_type ty.S64 shape.s64 number numbers_apart (λ i. refl) };
}

impl ComponentType for u64 {
    const MAY_REQUIRE_REALLOC: bool = false;

    const IS_RUST_UNIT_TYPE: bool = false;

    ghost is_unit = { false };

    ghost fits = { λ i t. t ≡ ty.U64 };

    ghost means = { λ n t. t ≡ number (pos n) };

    ghost walks = { λ n t. t ≡ number (pos n) };

    ghost is_told = { true };

    ghost lifts = { λ n t. t ≡ number (pos n) };

    ghost cost = { free };

    ghost host_bytes = { 8 };

    fn is_unit_type() -> bool {
        Self::IS_RUST_UNIT_TYPE
    }

    fn host_size() -> u64 {
        8
    }

    fn abi() -> Option<CanonicalAbiInfo> {
        Some(CanonicalAbiInfo::SCALAR8)
    }

    fn typecheck(ty: &InterfaceType, _types: &InstanceType) -> Result<(), TypecheckFailed> {
        match ty {
            InterfaceType::U64 => Ok(()),
            _ => Err(TypecheckFailed),
        }
    }

    ghost typed = { scalar_typed ty.U64 (λ n t. t ≡ number (pos n)) (λ i n u e. (n, e)) };

    ghost walked = { λ v t h. h };
}

impl ScalarType for u64 {
    ghost kind = { shape.u64 };

    ghost is_scalar = { scalar_rust_type ty.U64 shape.u64 _ naturals_apart (λ i. refl) };
}

impl ComponentType for bool {
    const MAY_REQUIRE_REALLOC: bool = false;

    const IS_RUST_UNIT_TYPE: bool = false;

    ghost is_unit = { false };

    ghost fits = { λ i t. t ≡ ty.Bool };

    ghost means = { λ n t. t ≡ truth n };

    ghost walks = { λ n t. t ≡ truth n };

    ghost is_told = { true };

    ghost lifts = { λ n t. t ≡ truth n };

    ghost cost = { free };

    ghost host_bytes = { 1 };

    fn is_unit_type() -> bool {
        Self::IS_RUST_UNIT_TYPE
    }

    fn host_size() -> u64 {
        1
    }

    fn abi() -> Option<CanonicalAbiInfo> {
        Some(CanonicalAbiInfo::SCALAR1)
    }

    fn typecheck(ty: &InterfaceType, _types: &InstanceType) -> Result<(), TypecheckFailed> {
        match ty {
            InterfaceType::Bool => Ok(()),
            _ => Err(TypecheckFailed),
        }
    }

    ghost typed = { scalar_typed ty.Bool (λ n t. t ≡ truth n) (λ i n u e. (n, e)) };

    ghost walked = { λ v t h. h };
}

impl ScalarType for bool {
    ghost kind = { shape.bool };

    ghost is_scalar = { scalar_rust_type ty.Bool shape.bool truth truths_apart (λ i. refl) };
}

impl ComponentType for char {
    const MAY_REQUIRE_REALLOC: bool = false;

    const IS_RUST_UNIT_TYPE: bool = false;

    ghost is_unit = { false };

    ghost fits = { λ i t. t ≡ ty.Char };

    ghost means = { λ n t. t ≡ code_point n };

    ghost walks = { λ n t. t ≡ code_point n };

    ghost is_told = { true };

    ghost lifts = { λ n t. t ≡ code_point n };

    ghost cost = { free };

    ghost host_bytes = { 4 };

    fn is_unit_type() -> bool {
        Self::IS_RUST_UNIT_TYPE
    }

    fn host_size() -> u64 {
        4
    }

    fn abi() -> Option<CanonicalAbiInfo> {
        Some(CanonicalAbiInfo::SCALAR4)
    }

    fn typecheck(ty: &InterfaceType, _types: &InstanceType) -> Result<(), TypecheckFailed> {
        match ty {
            InterfaceType::Char => Ok(()),
            _ => Err(TypecheckFailed),
        }
    }

    ghost typed = { scalar_typed ty.Char (λ n t. t ≡ code_point n) (λ i n u e. (n, e)) };

    ghost walked = { λ v t h. h };
}

impl ScalarType for char {
    ghost kind = { shape.char };

    ghost is_scalar = { scalar_rust_type ty.Char shape.char code_point code_points_apart (λ i. refl) };
}

impl ComponentType for Float32Bits {
    const MAY_REQUIRE_REALLOC: bool = false;

    const IS_RUST_UNIT_TYPE: bool = false;

    ghost is_unit = { false };

    ghost fits = { λ i t. t ≡ ty.Float32 };

    ghost means = { λ n t. t ≡ number (pos n.0) };

    ghost walks = { λ n t. t ≡ number (pos n.0) };

    ghost is_told = { true };

    ghost lifts = { λ n t. t ≡ number (pos n.0) };

    ghost cost = { free };

    ghost host_bytes = { 4 };

    fn is_unit_type() -> bool {
        Self::IS_RUST_UNIT_TYPE
    }

    fn host_size() -> u64 {
        4
    }

    fn abi() -> Option<CanonicalAbiInfo> {
        Some(CanonicalAbiInfo::SCALAR4)
    }

    fn typecheck(ty: &InterfaceType, _types: &InstanceType) -> Result<(), TypecheckFailed> {
        match ty {
            InterfaceType::Float32 => Ok(()),
            _ => Err(TypecheckFailed),
        }
    }

    ghost typed = { scalar_typed ty.Float32 (λ n t. t ≡ number (pos n.0)) (λ i n u e. (n.0, e)) };

    ghost walked = { λ v t h. h };
}

impl ScalarType for Float32Bits {
    ghost kind = { shape.f32 };

    ghost is_scalar = { scalar_rust_type ty.Float32 shape.f32 (λ n. number (pos n.0)) (λ v w e. ap (λ n. record { 0 = n }) (naturals_apart v.0 w.0 e)) (λ i. refl) };
}

impl ComponentType for Float64Bits {
    const MAY_REQUIRE_REALLOC: bool = false;

    const IS_RUST_UNIT_TYPE: bool = false;

    ghost is_unit = { false };

    ghost fits = { λ i t. t ≡ ty.Float64 };

    ghost means = { λ n t. t ≡ number (pos n.0) };

    ghost walks = { λ n t. t ≡ number (pos n.0) };

    ghost is_told = { true };

    ghost lifts = { λ n t. t ≡ number (pos n.0) };

    ghost cost = { free };

    ghost host_bytes = { 8 };

    fn is_unit_type() -> bool {
        Self::IS_RUST_UNIT_TYPE
    }

    fn host_size() -> u64 {
        8
    }

    fn abi() -> Option<CanonicalAbiInfo> {
        Some(CanonicalAbiInfo::SCALAR8)
    }

    fn typecheck(ty: &InterfaceType, _types: &InstanceType) -> Result<(), TypecheckFailed> {
        match ty {
            InterfaceType::Float64 => Ok(()),
            _ => Err(TypecheckFailed),
        }
    }

    ghost typed = { scalar_typed ty.Float64 (λ n t. t ≡ number (pos n.0)) (λ i n u e. (n.0, e)) };

    ghost walked = { λ v t h. h };
}

impl ScalarType for Float64Bits {
    ghost kind = { shape.f64 };

    ghost is_scalar = { scalar_rust_type ty.Float64 shape.f64 (λ n. number (pos n.0)) (λ v w e. ap (λ n. record { 0 = n }) (naturals_apart v.0 w.0 e)) (λ i. refl) };
}
