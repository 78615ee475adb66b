//! Resources of Rust as component types: handles, own and borrowed.

ghost use Rattle.std.specs.Prelude.{◌≡◌, false, true};
ghost use Rattle.canon_resources.specs.Types.{as_host};
ghost use Rattle.canon_types.specs.Table.{Knows};
ghost use Rattle.canon_types.specs.Resource.{as_host_dynamic};
ghost use Rattle.canon_typed.specs.Charges.{free};
ghost use Rattle.canon_typed.specs.Meaning.{IsHandle};
ghost use Rattle.canon_typed.specs.Typed.{handle_typed, kind_typed};
ghost use Rattle.canon_typed.specs.Types.{IsHandleOf, IsHandleType, handle_type};

use crate::{ComponentType, TypecheckFailed};
use canon_resources::{
    HostResource, HostResourceType, HostType, Resource, ResourceAny, ResourceDynamic,
};
use canon_types::{CanonicalAbiInfo, InstanceType, InterfaceType, ResourceType};

/// The type of the resource that a handle's type names.
fn resource_type(ty: &InterfaceType, types: &InstanceType) -> Option<ResourceType>
    requires known { Knows types.now.types ty.now }
    ensures { result ≡ handle_type types.now ty.now }
{
    match ty {
        InterfaceType::Own(t) | InterfaceType::Borrow(t) => Some(types.resource_type(*t)),
        _ => None,
    }
}

impl ComponentType for ResourceAny {
    const MAY_REQUIRE_REALLOC: bool = false;

    const IS_RUST_UNIT_TYPE: bool = false;

    ghost is_unit = { false };

    ghost fits = { IsHandleType };

    ghost means = { λ v. IsHandle };

    ghost walks = { λ v. IsHandle };

    ghost is_told = { true };

    ghost lifts = { λ v. IsHandle };

    ghost cost = { free };

    ghost host_bytes = { 24 };

    fn is_unit_type() -> bool {
        Self::IS_RUST_UNIT_TYPE
    }

    fn host_size() -> u64 {
        24
    }

    fn abi() -> Option<CanonicalAbiInfo> {
        Some(CanonicalAbiInfo::SCALAR4)
    }

    fn typecheck(ty: &InterfaceType, _types: &InstanceType) -> Result<(), TypecheckFailed> {
        match ty {
            InterfaceType::Own(_) | InterfaceType::Borrow(_) => Ok(()),
            _ => Err(TypecheckFailed),
        }
    }

    ghost typed = { λ v. handle_typed };

    ghost walked = { λ v t h. h };
}

impl<T: HostResourceType<D>, D: Copy> ComponentType for HostResource<T, D> {
    const MAY_REQUIRE_REALLOC: bool = false;

    const IS_RUST_UNIT_TYPE: bool = false;

    ghost is_unit = { false };

    ghost fits = { IsHandleOf T.checked };

    ghost means = { λ v. IsHandle };

    ghost walks = { λ v. IsHandle };

    ghost is_told = { true };

    ghost lifts = { λ v. IsHandle };

    ghost cost = { free };

    ghost host_bytes = { 24 };

    fn is_unit_type() -> bool {
        false
    }

    fn host_size() -> u64 {
        24
    }

    fn abi() -> Option<CanonicalAbiInfo> {
        Some(CanonicalAbiInfo::SCALAR4)
    }

    fn typecheck(ty: &InterfaceType, types: &InstanceType) -> Result<(), TypecheckFailed> {
        match T::typecheck(resource_type(ty, types).ok_or(TypecheckFailed)?) {
            Some(_) => Ok(()),
            None => Err(TypecheckFailed),
        }
    }

    ghost typed = { λ v. kind_typed T.checked };

    ghost walked = { λ v t h. h };
}

impl<T: HostType> ComponentType for Resource<T> {
    const MAY_REQUIRE_REALLOC: bool = false;

    const IS_RUST_UNIT_TYPE: bool = false;

    ghost is_unit = { false };

    ghost fits = { IsHandleOf (as_host T.ID) };

    ghost means = { λ v. IsHandle };

    ghost walks = { λ v. IsHandle };

    ghost is_told = { true };

    ghost lifts = { λ v. IsHandle };

    ghost cost = { free };

    ghost host_bytes = { 24 };

    fn is_unit_type() -> bool {
        false
    }

    fn host_size() -> u64 {
        24
    }

    fn abi() -> Option<CanonicalAbiInfo> {
        Some(CanonicalAbiInfo::SCALAR4)
    }

    fn typecheck(ty: &InterfaceType, types: &InstanceType) -> Result<(), TypecheckFailed> {
        if resource_type(ty, types)
            .ok_or(TypecheckFailed)?
            .is_host::<T>()
        {
            Ok(())
        } else {
            Err(TypecheckFailed)
        }
    }

    ghost typed = { λ v. kind_typed (as_host T.ID) };

    ghost walked = { λ v t h. h };
}

impl ComponentType for ResourceDynamic {
    const MAY_REQUIRE_REALLOC: bool = false;

    const IS_RUST_UNIT_TYPE: bool = false;

    ghost is_unit = { false };

    ghost fits = { IsHandleOf as_host_dynamic };

    ghost means = { λ v. IsHandle };

    ghost walks = { λ v. IsHandle };

    ghost is_told = { true };

    ghost lifts = { λ v. IsHandle };

    ghost cost = { free };

    ghost host_bytes = { 24 };

    fn is_unit_type() -> bool {
        Self::IS_RUST_UNIT_TYPE
    }

    fn host_size() -> u64 {
        24
    }

    fn abi() -> Option<CanonicalAbiInfo> {
        Some(CanonicalAbiInfo::SCALAR4)
    }

    fn typecheck(ty: &InterfaceType, types: &InstanceType) -> Result<(), TypecheckFailed> {
        match resource_type(ty, types)
            .ok_or(TypecheckFailed)?
            .as_host_dynamic()
        {
            Some(_) => Ok(()),
            None => Err(TypecheckFailed),
        }
    }

    ghost typed = { λ v. kind_typed as_host_dynamic };

    ghost walked = { λ v t h. h };
}
