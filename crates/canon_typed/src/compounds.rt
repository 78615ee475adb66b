//! Options, results and lists of Rust as component types.

ghost use Rattle.std.specs.Prelude.{◌+◌, ◌&&◌, OnErr, OnOk, Option, false, max, true};
ghost use Rattle.canon_types.specs.Instance.{Instance};
ghost use Rattle.canon_types.specs.Table.{KnowsPayload, all_shapes, payload_in};
ghost use Rattle.canon_types.specs.declared.types.InterfaceType.{InterfaceType};
ghost use Rattle.canon_typed.specs.Charges.{list_cost, option_cost, result_cost};
ghost use Rattle.canon_model.specs.Memory.{cap};
ghost use Rattle.canon_typed.specs.Meaning.{ListMeans, OptionMeans, ResultMeans};
ghost use Rattle.canon_typed.specs.Numbers.{TellsPayload};
ghost use Rattle.canon_typed.specs.Typed.{list_typed, option_typed, result_typed};
ghost use Rattle.canon_typed.specs.Types.{IsListOf, IsOptionOf, IsPayloadOf, IsResultOf};
ghost use Rattle.canon_typed.specs.Walked.{list_walked, option_walked, result_walked};

use crate::{ComponentType, ComponentVariant, TypecheckFailed};
use canon_types::{CanonicalAbiInfo, InstanceType, InterfaceType, VariantInfo};

impl<T: ComponentType> ComponentType for Option<T> {
    const MAY_REQUIRE_REALLOC: bool = T::MAY_REQUIRE_REALLOC;

    const IS_RUST_UNIT_TYPE: bool = false;

    ghost is_unit = { false };

    ghost fits = { IsOptionOf T.fits };

    ghost means = { OptionMeans T.means };

    ghost walks = { OptionMeans T.walks };

    ghost is_told = { T.is_told };

    ghost lifts = { OptionMeans T.lifts };

    ghost cost = { option_cost T.cost };

    ghost host_bytes = { 8 + T.host_bytes };

    fn is_unit_type() -> bool {
        false
    }

    fn host_size() -> u64 {
        T::host_size().saturating_add(8)
    }

    fn abi() -> Option<CanonicalAbiInfo> {
        let some = T::abi()?;
        Some(CanonicalAbiInfo::variant(&[None, Some(some)])?.0)
    }

    fn typecheck(ty: &InterfaceType, types: &InstanceType) -> Result<(), TypecheckFailed> {
        match ty {
            InterfaceType::Option(i) => T::typecheck(&types.types().option(*i).ty, types),
            _ => Err(TypecheckFailed),
        }
    }

    ghost typed = { option_typed T.fits T.means T.typed };

    ghost walked = { option_walked T.walks T.means T.walked };
}

impl<T: ComponentType> ComponentVariant for Option<T> {
    fn info() -> Option<VariantInfo> {
        let some = T::abi()?;
        Some(CanonicalAbiInfo::variant(&[None, Some(some)])?.1)
    }
}

/// The numbers of a case's payload, if it has one, or none where a size of it passes 2^32 - 1.
fn payload_abi<T: ComponentType>() -> Option<Option<CanonicalAbiInfo>>
    ensures { (i : Instance) (type : Option InterfaceType) → IsPayloadOf T.is_unit T.fits i type → TellsPayload result (payload_in (all_shapes i.types) type) }
{
    if T::is_unit_type() {
        Some(None)
    } else {
        Some(Some(T::abi()?))
    }
}

/// Whether the payload of a case is of a Rust type: the unit stands for none.
fn typecheck_payload<T: ComponentType>(
    ty: &Option<InterfaceType>,
    types: &InstanceType,
) -> Result<(), TypecheckFailed>
    requires known { KnowsPayload types.now.types ty.now }
    ensures ok { OnOk result (IsPayloadOf T.is_unit T.fits types.now ty.now) }
    ensures err { OnErr result (IsPayloadOf T.is_unit T.fits types.now ty.now → ⊥) }
{
    match ty {
        None if T::is_unit_type() => Ok(()),
        Some(ty) if !T::is_unit_type() => T::typecheck(ty, types),
        _ => Err(TypecheckFailed),
    }
}

impl<T: ComponentType, E: ComponentType> ComponentType for Result<T, E> {
    const MAY_REQUIRE_REALLOC: bool = T::MAY_REQUIRE_REALLOC || E::MAY_REQUIRE_REALLOC;

    const IS_RUST_UNIT_TYPE: bool = false;

    ghost is_unit = { false };

    ghost fits = { IsResultOf T.is_unit T.fits E.is_unit E.fits };

    ghost means = { ResultMeans T.is_unit T.means E.is_unit E.means };

    ghost walks = { ResultMeans T.is_unit T.walks E.is_unit E.walks };

    ghost is_told = { T.is_told && E.is_told };

    ghost lifts = { ResultMeans T.is_unit T.lifts E.is_unit E.lifts };

    ghost cost = { result_cost T.cost E.cost };

    ghost host_bytes = { 8 + max T.host_bytes E.host_bytes };

    fn is_unit_type() -> bool {
        false
    }

    fn host_size() -> u64 {
        T::host_size().max(E::host_size()).saturating_add(8)
    }

    fn abi() -> Option<CanonicalAbiInfo> {
        let ok = payload_abi::<T>()?;
        let err = payload_abi::<E>()?;
        Some(CanonicalAbiInfo::variant(&[ok, err])?.0)
    }

    fn typecheck(ty: &InterfaceType, types: &InstanceType) -> Result<(), TypecheckFailed> {
        let InterfaceType::Result(i) = ty else {
            return Err(TypecheckFailed);
        };
        let result = types.types().result(*i);
        typecheck_payload::<T>(&result.ok, types)?;
        typecheck_payload::<E>(&result.err, types)
    }

    ghost typed = { result_typed T.is_unit T.fits T.means E.is_unit E.fits E.means T.typed E.typed };

    ghost walked = { result_walked T.is_unit T.walks T.means E.is_unit E.walks E.means T.walked E.walked };
}

impl<T: ComponentType, E: ComponentType> ComponentVariant for Result<T, E> {
    fn info() -> Option<VariantInfo> {
        let ok = payload_abi::<T>()?;
        let err = payload_abi::<E>()?;
        Some(CanonicalAbiInfo::variant(&[ok, err])?.1)
    }
}

impl<T: ComponentType> ComponentType for Vec<T> {
    const MAY_REQUIRE_REALLOC: bool = true;

    const IS_RUST_UNIT_TYPE: bool = false;

    ghost is_unit = { false };

    ghost fits = { IsListOf T.fits };

    ghost means = { λ v. ListMeans T.means v.items };

    ghost walks = { λ v. ListMeans T.walks v.items };

    ghost is_told = { T.is_told };

    ghost lifts = { λ v. ListMeans T.lifts v.items };

    ghost cost = { list_cost (cap T.host_bytes) T.cost };

    ghost host_bytes = { 24 };

    fn is_unit_type() -> bool {
        false
    }

    fn host_size() -> u64 {
        24
    }

    fn abi() -> Option<CanonicalAbiInfo> {
        Some(CanonicalAbiInfo::POINTER_PAIR)
    }

    fn typecheck(ty: &InterfaceType, types: &InstanceType) -> Result<(), TypecheckFailed> {
        match ty {
            InterfaceType::List(i) => T::typecheck(&types.types().list(*i).element, types),
            _ => Err(TypecheckFailed),
        }
    }

    ghost typed = { λ v. list_typed T.fits T.means T.typed v.items };

    ghost walked = { λ v. list_walked T.walks T.means T.walked v.items };
}
