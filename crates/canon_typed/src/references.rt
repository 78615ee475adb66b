//! `Box<T>` and `&T` as the component type of `T`.

ghost use Rattle.std.specs.Prelude.{false};

use crate::{ComponentType, TypecheckFailed};
use canon_types::{CanonicalAbiInfo, InstanceType, InterfaceType};

impl<T: ComponentType> ComponentType for Box<T> {
    const MAY_REQUIRE_REALLOC: bool = T::MAY_REQUIRE_REALLOC;

    const IS_RUST_UNIT_TYPE: bool = false;

    ghost is_unit = { false };

    ghost fits = { T.fits };

    ghost means = { λ r. T.means r.value };

    ghost walks = { λ r. T.walks r.value };

    ghost is_told = { T.is_told };

    ghost lifts = { λ r. T.lifts r.value };

    ghost cost = { T.cost };

    ghost host_bytes = { 8 };

    fn is_unit_type() -> bool {
        false
    }

    fn host_size() -> u64 {
        8
    }

    fn abi() -> Option<CanonicalAbiInfo> {
        T::abi()
    }

    fn typecheck(ty: &InterfaceType, types: &InstanceType) -> Result<(), TypecheckFailed> {
        T::typecheck(ty, types)
    }

    ghost typed = { λ r. T.typed r.value };

    ghost walked = { λ r. T.walked r.value };
}

impl<'a, T: ComponentType> ComponentType for &'a T {
    const MAY_REQUIRE_REALLOC: bool = T::MAY_REQUIRE_REALLOC;

    const IS_RUST_UNIT_TYPE: bool = false;

    ghost is_unit = { false };

    ghost fits = { T.fits };

    ghost means = { λ r. T.means r.now };

    ghost walks = { λ r. T.walks r.now };

    ghost is_told = { T.is_told };

    ghost lifts = { λ r. T.lifts r.now };

    ghost cost = { T.cost };

    ghost host_bytes = { 8 };

    fn is_unit_type() -> bool {
        false
    }

    fn host_size() -> u64 {
        8
    }

    fn abi() -> Option<CanonicalAbiInfo> {
        T::abi()
    }

    fn typecheck(ty: &InterfaceType, types: &InstanceType) -> Result<(), TypecheckFailed> {
        T::typecheck(ty, types)
    }

    ghost typed = { λ r. T.typed r.now };

    ghost walked = { λ r. T.walked r.now };
}
