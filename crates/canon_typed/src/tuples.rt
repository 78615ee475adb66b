//! Tuples of up to six members as component types, and as the parameters or the results of a function.

ghost use Rattle.std.specs.Prelude.{◌+◌, ◌&&◌, ◌||◌, ◌∷◌, [], false, true};
ghost use Rattle.canon_typed.specs.Charges.{product_cost};
ghost use Rattle.canon_typed.specs.Meaning.{FirstAnd, NoTrees, ProductMeans};
ghost use Rattle.canon_typed.specs.Typed.{first_typed, none_typed, tuple_typed};
ghost use Rattle.canon_typed.specs.Types.{IsTupleOf};
ghost use Rattle.canon_typed.specs.Walked.{first_walked, none_walked, product_walked};

use crate::{ComponentNamedList, ComponentType, TypecheckFailed};
use canon_types::{CanonicalAbiInfo, InstanceType, InterfaceType};

impl ComponentType for () {
    const MAY_REQUIRE_REALLOC: bool = false;

    const IS_RUST_UNIT_TYPE: bool = true;

    ghost is_unit = { true };

    ghost fits = { IsTupleOf [] };

    ghost means = { λ p. ProductMeans NoTrees };

    ghost walks = { λ p. ProductMeans NoTrees };

    ghost is_told = { true };

    ghost lifts = { λ p. ProductMeans NoTrees };

    ghost cost = { product_cost [] };

    ghost host_bytes = { 0 };

    fn is_unit_type() -> bool {
        Self::IS_RUST_UNIT_TYPE
    }

    fn host_size() -> u64 {
        0
    }

    fn abi() -> Option<CanonicalAbiInfo> {
        CanonicalAbiInfo::record(&[])
    }

    fn typecheck(ty: &InterfaceType, types: &InstanceType) -> Result<(), TypecheckFailed> {
        let InterfaceType::Tuple(i) = ty else {
            return Err(TypecheckFailed);
        };
        match types.types().tuple(*i).types.as_slice() {
            [] => Ok(()),
            _ => Err(TypecheckFailed),
        }
    }

    ghost typed = { tuple_typed [] (λ p. NoTrees) (λ p. none_typed) };

    ghost walked = { λ p. product_walked NoTrees NoTrees none_walked };
}

impl ComponentNamedList for () {}

impl<A: ComponentType> ComponentType for (A,) {
    const MAY_REQUIRE_REALLOC: bool = A::MAY_REQUIRE_REALLOC;

    const IS_RUST_UNIT_TYPE: bool = false;

    ghost is_unit = { false };

    ghost fits = { IsTupleOf (A.fits ∷ []) };

    ghost means = { λ p. ProductMeans (FirstAnd (A.means p.0) NoTrees) };

    ghost walks = { λ p. ProductMeans (FirstAnd (A.walks p.0) NoTrees) };

    ghost is_told = { A.is_told };

    ghost lifts = { λ p. ProductMeans (FirstAnd (A.lifts p.0) NoTrees) };

    ghost cost = { product_cost (A.cost ∷ []) };

    ghost host_bytes = { A.host_bytes };

    fn is_unit_type() -> bool {
        false
    }

    fn host_size() -> u64 {
        A::host_size()
    }

    fn abi() -> Option<CanonicalAbiInfo> {
        let first = A::abi()?;
        CanonicalAbiInfo::record(&[first])
    }

    fn typecheck(ty: &InterfaceType, types: &InstanceType) -> Result<(), TypecheckFailed> {
        let InterfaceType::Tuple(i) = ty else {
            return Err(TypecheckFailed);
        };
        match types.types().tuple(*i).types.as_slice() {
            [first] => { A::typecheck(first, types) }
            _ => Err(TypecheckFailed),
        }
    }

    ghost typed = { tuple_typed (A.fits ∷ []) (λ p. FirstAnd (A.means p.0) NoTrees) (λ p. first_typed A.fits [] (A.means p.0) NoTrees (A.typed p.0) none_typed) };

    ghost walked = { λ p. product_walked (FirstAnd (A.walks p.0) NoTrees) (FirstAnd (A.means p.0) NoTrees) (first_walked (A.walks p.0) (A.means p.0) NoTrees NoTrees (A.walked p.0) none_walked) };
}

impl<A: ComponentType> ComponentNamedList for (A,) {}

impl<A: ComponentType, B: ComponentType> ComponentType for (A, B) {
    const MAY_REQUIRE_REALLOC: bool = A::MAY_REQUIRE_REALLOC || B::MAY_REQUIRE_REALLOC;

    const IS_RUST_UNIT_TYPE: bool = false;

    ghost is_unit = { false };

    ghost fits = { IsTupleOf (A.fits ∷ B.fits ∷ []) };

    ghost means = { λ p. ProductMeans (FirstAnd (A.means p.0) (FirstAnd (B.means p.1) NoTrees)) };

    ghost walks = { λ p. ProductMeans (FirstAnd (A.walks p.0) (FirstAnd (B.walks p.1) NoTrees)) };

    ghost is_told = { A.is_told && B.is_told };

    ghost lifts = { λ p. ProductMeans (FirstAnd (A.lifts p.0) (FirstAnd (B.lifts p.1) NoTrees)) };

    ghost cost = { product_cost (A.cost ∷ B.cost ∷ []) };

    ghost host_bytes = { A.host_bytes + B.host_bytes };

    fn is_unit_type() -> bool {
        false
    }

    fn host_size() -> u64 {
        A::host_size().saturating_add(B::host_size())
    }

    fn abi() -> Option<CanonicalAbiInfo> {
        let first = A::abi()?;
        let second = B::abi()?;
        CanonicalAbiInfo::record(&[first, second])
    }

    fn typecheck(ty: &InterfaceType, types: &InstanceType) -> Result<(), TypecheckFailed> {
        let InterfaceType::Tuple(i) = ty else {
            return Err(TypecheckFailed);
        };
        match types.types().tuple(*i).types.as_slice() {
            [first, second] => {
                A::typecheck(first, types)?;
                B::typecheck(second, types)
            }
            _ => Err(TypecheckFailed),
        }
    }

    ghost typed = { tuple_typed (A.fits ∷ B.fits ∷ []) (λ p. FirstAnd (A.means p.0) (FirstAnd (B.means p.1) NoTrees)) (λ p. first_typed A.fits
        (B.fits ∷ []) (A.means p.0) (FirstAnd (B.means p.1) NoTrees) (A.typed p.0) (first_typed B.fits [] (B.means p.1) NoTrees (B.typed p.1) none_typed)) };

    ghost walked = { λ p. product_walked (FirstAnd (A.walks p.0) (FirstAnd (B.walks p.1) NoTrees)) (FirstAnd (A.means p.0) (FirstAnd
        (B.means p.1) NoTrees)) (first_walked (A.walks p.0) (A.means p.0) (FirstAnd (B.walks p.1) NoTrees) (FirstAnd (B.means p.1) NoTrees)
        (A.walked p.0) (first_walked (B.walks p.1) (B.means p.1) NoTrees NoTrees (B.walked p.1) none_walked)) };
}

impl<A: ComponentType, B: ComponentType> ComponentNamedList for (A, B) {}

impl<A: ComponentType, B: ComponentType, C: ComponentType> ComponentType for (A, B, C) {
    const MAY_REQUIRE_REALLOC: bool = A::MAY_REQUIRE_REALLOC
        || B::MAY_REQUIRE_REALLOC
        || C::MAY_REQUIRE_REALLOC;

    const IS_RUST_UNIT_TYPE: bool = false;

    ghost is_unit = { false };

    ghost fits = { IsTupleOf (A.fits ∷ B.fits ∷ C.fits ∷ []) };

    ghost means = { λ p. ProductMeans (FirstAnd (A.means p.0) (FirstAnd (B.means p.1) (FirstAnd (C.means p.2) NoTrees))) };

    ghost walks = { λ p. ProductMeans (FirstAnd (A.walks p.0) (FirstAnd (B.walks p.1) (FirstAnd (C.walks p.2) NoTrees))) };

    ghost is_told = { A.is_told && B.is_told && C.is_told };

    ghost lifts = { λ p. ProductMeans (FirstAnd (A.lifts p.0) (FirstAnd (B.lifts p.1) (FirstAnd (C.lifts p.2) NoTrees))) };

    ghost cost = { product_cost (A.cost ∷ B.cost ∷ C.cost ∷ []) };

    ghost host_bytes = { A.host_bytes + B.host_bytes + C.host_bytes };

    fn is_unit_type() -> bool {
        false
    }

    fn host_size() -> u64 {
        A::host_size()
            .saturating_add(B::host_size())
            .saturating_add(C::host_size())
    }

    fn abi() -> Option<CanonicalAbiInfo> {
        let first = A::abi()?;
        let second = B::abi()?;
        let third = C::abi()?;
        CanonicalAbiInfo::record(&[first, second, third])
    }

    fn typecheck(ty: &InterfaceType, types: &InstanceType) -> Result<(), TypecheckFailed> {
        let InterfaceType::Tuple(i) = ty else {
            return Err(TypecheckFailed);
        };
        match types.types().tuple(*i).types.as_slice() {
            [first, second, third] => {
                A::typecheck(first, types)?;
                B::typecheck(second, types)?;
                C::typecheck(third, types)
            }
            _ => Err(TypecheckFailed),
        }
    }

    ghost typed = { tuple_typed (A.fits ∷ B.fits ∷ C.fits ∷ []) (λ p. FirstAnd (A.means p.0) (FirstAnd (B.means p.1) (FirstAnd
        (C.means p.2) NoTrees))) (λ p. first_typed A.fits (B.fits ∷ C.fits ∷ []) (A.means p.0) (FirstAnd (B.means p.1) (FirstAnd
        (C.means p.2) NoTrees)) (A.typed p.0) (first_typed B.fits (C.fits ∷ []) (B.means p.1) (FirstAnd (C.means p.2) NoTrees) (B.typed p.1)
        (first_typed C.fits [] (C.means p.2) NoTrees (C.typed p.2) none_typed))) };

    ghost walked = { λ p. product_walked (FirstAnd (A.walks p.0) (FirstAnd (B.walks p.1) (FirstAnd (C.walks p.2) NoTrees))) (FirstAnd (A.means p.0)
        (FirstAnd (B.means p.1) (FirstAnd (C.means p.2) NoTrees))) (first_walked (A.walks p.0) (A.means p.0) (FirstAnd (B.walks p.1) (FirstAnd
        (C.walks p.2) NoTrees)) (FirstAnd (B.means p.1) (FirstAnd (C.means p.2) NoTrees)) (A.walked p.0) (first_walked (B.walks p.1) (B.means p.1)
        (FirstAnd (C.walks p.2) NoTrees) (FirstAnd (C.means p.2) NoTrees) (B.walked p.1) (first_walked (C.walks p.2) (C.means p.2) NoTrees NoTrees
        (C.walked p.2) none_walked))) };
}

impl<A: ComponentType, B: ComponentType, C: ComponentType> ComponentNamedList for (A, B, C) {}

impl<A: ComponentType, B: ComponentType, C: ComponentType, D: ComponentType> ComponentType
    for (A, B, C, D) {
    const MAY_REQUIRE_REALLOC: bool = A::MAY_REQUIRE_REALLOC
        || B::MAY_REQUIRE_REALLOC
        || C::MAY_REQUIRE_REALLOC
        || D::MAY_REQUIRE_REALLOC;

    const IS_RUST_UNIT_TYPE: bool = false;

    ghost is_unit = { false };

    ghost fits = { IsTupleOf (A.fits ∷ B.fits ∷ C.fits ∷ D.fits ∷ []) };

    ghost means = { λ p. ProductMeans (FirstAnd (A.means p.0) (FirstAnd (B.means p.1) (FirstAnd (C.means p.2) (FirstAnd (D.means p.3) NoTrees)))) };

    ghost walks = { λ p. ProductMeans (FirstAnd (A.walks p.0) (FirstAnd (B.walks p.1) (FirstAnd (C.walks p.2) (FirstAnd (D.walks p.3) NoTrees)))) };

    ghost is_told = { A.is_told && B.is_told && C.is_told && D.is_told };

    ghost lifts = { λ p. ProductMeans (FirstAnd (A.lifts p.0) (FirstAnd (B.lifts p.1) (FirstAnd (C.lifts p.2) (FirstAnd (D.lifts p.3) NoTrees)))) };

    ghost cost = { product_cost (A.cost ∷ B.cost ∷ C.cost ∷ D.cost ∷ []) };

    ghost host_bytes = { A.host_bytes + B.host_bytes + C.host_bytes + D.host_bytes };

    fn is_unit_type() -> bool {
        false
    }

    fn host_size() -> u64 {
        A::host_size()
            .saturating_add(B::host_size())
            .saturating_add(C::host_size())
            .saturating_add(D::host_size())
    }

    fn abi() -> Option<CanonicalAbiInfo> {
        let first = A::abi()?;
        let second = B::abi()?;
        let third = C::abi()?;
        let fourth = D::abi()?;
        CanonicalAbiInfo::record(&[first, second, third, fourth])
    }

    fn typecheck(ty: &InterfaceType, types: &InstanceType) -> Result<(), TypecheckFailed> {
        let InterfaceType::Tuple(i) = ty else {
            return Err(TypecheckFailed);
        };
        match types.types().tuple(*i).types.as_slice() {
            [first, second, third, fourth] => {
                A::typecheck(first, types)?;
                B::typecheck(second, types)?;
                C::typecheck(third, types)?;
                D::typecheck(fourth, types)
            }
            _ => Err(TypecheckFailed),
        }
    }

    ghost typed = { tuple_typed (A.fits ∷ B.fits ∷ C.fits ∷ D.fits ∷ []) (λ p. FirstAnd (A.means p.0) (FirstAnd (B.means p.1) (FirstAnd
        (C.means p.2) (FirstAnd (D.means p.3) NoTrees)))) (λ p. first_typed A.fits (B.fits ∷ C.fits ∷ D.fits ∷ []) (A.means p.0) (FirstAnd
        (B.means p.1) (FirstAnd (C.means p.2) (FirstAnd (D.means p.3) NoTrees))) (A.typed p.0) (first_typed B.fits (C.fits ∷ D.fits ∷ [])
        (B.means p.1) (FirstAnd (C.means p.2) (FirstAnd (D.means p.3) NoTrees)) (B.typed p.1) (first_typed C.fits (D.fits ∷ []) (C.means p.2)
        (FirstAnd (D.means p.3) NoTrees) (C.typed p.2) (first_typed D.fits [] (D.means p.3) NoTrees (D.typed p.3) none_typed)))) };

    ghost walked = { λ p. product_walked (FirstAnd (A.walks p.0) (FirstAnd (B.walks p.1) (FirstAnd (C.walks p.2) (FirstAnd (D.walks p.3) NoTrees))))
        (FirstAnd (A.means p.0) (FirstAnd (B.means p.1) (FirstAnd (C.means p.2) (FirstAnd (D.means p.3) NoTrees)))) (first_walked (A.walks p.0)
        (A.means p.0) (FirstAnd (B.walks p.1) (FirstAnd (C.walks p.2) (FirstAnd (D.walks p.3) NoTrees))) (FirstAnd (B.means p.1) (FirstAnd
        (C.means p.2) (FirstAnd (D.means p.3) NoTrees))) (A.walked p.0) (first_walked (B.walks p.1) (B.means p.1) (FirstAnd (C.walks p.2) (FirstAnd
        (D.walks p.3) NoTrees)) (FirstAnd (C.means p.2) (FirstAnd (D.means p.3) NoTrees)) (B.walked p.1) (first_walked (C.walks p.2) (C.means p.2)
        (FirstAnd (D.walks p.3) NoTrees) (FirstAnd (D.means p.3) NoTrees) (C.walked p.2) (first_walked (D.walks p.3) (D.means p.3) NoTrees NoTrees
        (D.walked p.3) none_walked)))) };
}

impl<A: ComponentType, B: ComponentType, C: ComponentType, D: ComponentType> ComponentNamedList
    for (A, B, C, D) {}

impl<
    A: ComponentType,
    B: ComponentType,
    C: ComponentType,
    D: ComponentType,
    E: ComponentType,
> ComponentType for (A, B, C, D, E) {
    const MAY_REQUIRE_REALLOC: bool = A::MAY_REQUIRE_REALLOC
        || B::MAY_REQUIRE_REALLOC
        || C::MAY_REQUIRE_REALLOC
        || D::MAY_REQUIRE_REALLOC
        || E::MAY_REQUIRE_REALLOC;

    const IS_RUST_UNIT_TYPE: bool = false;

    ghost is_unit = { false };

    ghost fits = { IsTupleOf (A.fits ∷ B.fits ∷ C.fits ∷ D.fits ∷ E.fits ∷ []) };

    ghost means = { λ p. ProductMeans (FirstAnd (A.means p.0) (FirstAnd (B.means p.1) (FirstAnd (C.means p.2) (FirstAnd (D.means p.3) (FirstAnd (E.means p.4) NoTrees))))) };

    ghost walks = { λ p. ProductMeans (FirstAnd (A.walks p.0) (FirstAnd (B.walks p.1) (FirstAnd (C.walks p.2) (FirstAnd (D.walks p.3) (FirstAnd (E.walks p.4) NoTrees))))) };

    ghost is_told = { A.is_told && B.is_told && C.is_told && D.is_told && E.is_told };

    ghost lifts = { λ p. ProductMeans (FirstAnd (A.lifts p.0) (FirstAnd (B.lifts p.1) (FirstAnd (C.lifts p.2) (FirstAnd (D.lifts p.3) (FirstAnd (E.lifts p.4) NoTrees))))) };

    ghost cost = { product_cost (A.cost ∷ B.cost ∷ C.cost ∷ D.cost ∷ E.cost ∷ []) };

    ghost host_bytes = { A.host_bytes + B.host_bytes + C.host_bytes + D.host_bytes + E.host_bytes };

    fn is_unit_type() -> bool {
        false
    }

    fn host_size() -> u64 {
        A::host_size()
            .saturating_add(B::host_size())
            .saturating_add(C::host_size())
            .saturating_add(D::host_size())
            .saturating_add(E::host_size())
    }

    fn abi() -> Option<CanonicalAbiInfo> {
        let first = A::abi()?;
        let second = B::abi()?;
        let third = C::abi()?;
        let fourth = D::abi()?;
        let fifth = E::abi()?;
        CanonicalAbiInfo::record(&[first, second, third, fourth, fifth])
    }

    fn typecheck(ty: &InterfaceType, types: &InstanceType) -> Result<(), TypecheckFailed> {
        let InterfaceType::Tuple(i) = ty else {
            return Err(TypecheckFailed);
        };
        match types.types().tuple(*i).types.as_slice() {
            [first, second, third, fourth, fifth] => {
                A::typecheck(first, types)?;
                B::typecheck(second, types)?;
                C::typecheck(third, types)?;
                D::typecheck(fourth, types)?;
                E::typecheck(fifth, types)
            }
            _ => Err(TypecheckFailed),
        }
    }

    ghost typed = { tuple_typed (A.fits ∷ B.fits ∷ C.fits ∷ D.fits ∷ E.fits ∷ []) (λ p. FirstAnd (A.means p.0) (FirstAnd (B.means p.1) (FirstAnd
        (C.means p.2) (FirstAnd (D.means p.3) (FirstAnd (E.means p.4) NoTrees))))) (λ p. first_typed A.fits (B.fits ∷ C.fits ∷ D.fits ∷ E.fits ∷ [])
        (A.means p.0) (FirstAnd (B.means p.1) (FirstAnd (C.means p.2) (FirstAnd (D.means p.3) (FirstAnd (E.means p.4) NoTrees)))) (A.typed p.0)
        (first_typed B.fits (C.fits ∷ D.fits ∷ E.fits ∷ []) (B.means p.1) (FirstAnd (C.means p.2) (FirstAnd (D.means p.3) (FirstAnd
        (E.means p.4) NoTrees))) (B.typed p.1) (first_typed C.fits (D.fits ∷ E.fits ∷ []) (C.means p.2) (FirstAnd (D.means p.3) (FirstAnd
        (E.means p.4) NoTrees)) (C.typed p.2) (first_typed D.fits (E.fits ∷ []) (D.means p.3) (FirstAnd (E.means p.4) NoTrees) (D.typed p.3)
        (first_typed E.fits [] (E.means p.4) NoTrees (E.typed p.4) none_typed))))) };

    ghost walked = { λ p. product_walked (FirstAnd (A.walks p.0) (FirstAnd (B.walks p.1) (FirstAnd (C.walks p.2) (FirstAnd (D.walks p.3) (FirstAnd
        (E.walks p.4) NoTrees))))) (FirstAnd (A.means p.0) (FirstAnd (B.means p.1) (FirstAnd (C.means p.2) (FirstAnd (D.means p.3) (FirstAnd
        (E.means p.4) NoTrees))))) (first_walked (A.walks p.0) (A.means p.0) (FirstAnd (B.walks p.1) (FirstAnd (C.walks p.2) (FirstAnd (D.walks p.3)
        (FirstAnd (E.walks p.4) NoTrees)))) (FirstAnd (B.means p.1) (FirstAnd (C.means p.2) (FirstAnd (D.means p.3) (FirstAnd
        (E.means p.4) NoTrees)))) (A.walked p.0) (first_walked (B.walks p.1) (B.means p.1) (FirstAnd (C.walks p.2) (FirstAnd (D.walks p.3) (FirstAnd
        (E.walks p.4) NoTrees))) (FirstAnd (C.means p.2) (FirstAnd (D.means p.3) (FirstAnd (E.means p.4) NoTrees))) (B.walked p.1) (first_walked
        (C.walks p.2) (C.means p.2) (FirstAnd (D.walks p.3) (FirstAnd (E.walks p.4) NoTrees)) (FirstAnd (D.means p.3) (FirstAnd
        (E.means p.4) NoTrees)) (C.walked p.2) (first_walked (D.walks p.3) (D.means p.3) (FirstAnd (E.walks p.4) NoTrees) (FirstAnd
        (E.means p.4) NoTrees) (D.walked p.3) (first_walked (E.walks p.4) (E.means p.4) NoTrees NoTrees (E.walked p.4) none_walked))))) };
}

impl<
    A: ComponentType,
    B: ComponentType,
    C: ComponentType,
    D: ComponentType,
    E: ComponentType,
> ComponentNamedList for (A, B, C, D, E) {}

impl<
    A: ComponentType,
    B: ComponentType,
    C: ComponentType,
    D: ComponentType,
    E: ComponentType,
    F: ComponentType,
> ComponentType for (A, B, C, D, E, F) {
    const MAY_REQUIRE_REALLOC: bool = A::MAY_REQUIRE_REALLOC
        || B::MAY_REQUIRE_REALLOC
        || C::MAY_REQUIRE_REALLOC
        || D::MAY_REQUIRE_REALLOC
        || E::MAY_REQUIRE_REALLOC
        || F::MAY_REQUIRE_REALLOC;

    const IS_RUST_UNIT_TYPE: bool = false;

    ghost is_unit = { false };

    ghost fits = { IsTupleOf (A.fits ∷ B.fits ∷ C.fits ∷ D.fits ∷ E.fits ∷ F.fits ∷ []) };

    ghost means = { λ p. ProductMeans (FirstAnd (A.means p.0) (FirstAnd (B.means p.1) (FirstAnd (C.means p.2) (FirstAnd (D.means p.3) (FirstAnd (E.means p.4) (FirstAnd (F.means p.5) NoTrees)))))) };

    ghost walks = { λ p. ProductMeans (FirstAnd (A.walks p.0) (FirstAnd (B.walks p.1) (FirstAnd (C.walks p.2) (FirstAnd (D.walks p.3) (FirstAnd (E.walks p.4) (FirstAnd (F.walks p.5) NoTrees)))))) };

    ghost is_told = { A.is_told && B.is_told && C.is_told && D.is_told && E.is_told && F.is_told };

    ghost lifts = { λ p. ProductMeans (FirstAnd (A.lifts p.0) (FirstAnd (B.lifts p.1) (FirstAnd (C.lifts p.2) (FirstAnd (D.lifts p.3) (FirstAnd (E.lifts p.4) (FirstAnd (F.lifts p.5) NoTrees)))))) };

    ghost cost = { product_cost (A.cost ∷ B.cost ∷ C.cost ∷ D.cost ∷ E.cost ∷ F.cost ∷ []) };

    ghost host_bytes = { A.host_bytes + B.host_bytes + C.host_bytes + D.host_bytes + E.host_bytes + F.host_bytes };

    fn is_unit_type() -> bool {
        false
    }

    fn host_size() -> u64 {
        A::host_size()
            .saturating_add(B::host_size())
            .saturating_add(C::host_size())
            .saturating_add(D::host_size())
            .saturating_add(E::host_size())
            .saturating_add(F::host_size())
    }

    fn abi() -> Option<CanonicalAbiInfo> {
        let first = A::abi()?;
        let second = B::abi()?;
        let third = C::abi()?;
        let fourth = D::abi()?;
        let fifth = E::abi()?;
        let sixth = F::abi()?;
        CanonicalAbiInfo::record(&[first, second, third, fourth, fifth, sixth])
    }

    fn typecheck(ty: &InterfaceType, types: &InstanceType) -> Result<(), TypecheckFailed> {
        let InterfaceType::Tuple(i) = ty else {
            return Err(TypecheckFailed);
        };
        match types.types().tuple(*i).types.as_slice() {
            [first, second, third, fourth, fifth, sixth] => {
                A::typecheck(first, types)?;
                B::typecheck(second, types)?;
                C::typecheck(third, types)?;
                D::typecheck(fourth, types)?;
                E::typecheck(fifth, types)?;
                F::typecheck(sixth, types)
            }
            _ => Err(TypecheckFailed),
        }
    }

    ghost typed = { tuple_typed (A.fits ∷ B.fits ∷ C.fits ∷ D.fits ∷ E.fits ∷ F.fits ∷ []) (λ p. FirstAnd (A.means p.0) (FirstAnd (B.means p.1)
        (FirstAnd (C.means p.2) (FirstAnd (D.means p.3) (FirstAnd (E.means p.4) (FirstAnd (F.means p.5) NoTrees)))))) (λ p. first_typed A.fits
        (B.fits ∷ C.fits ∷ D.fits ∷ E.fits ∷ F.fits ∷ []) (A.means p.0) (FirstAnd (B.means p.1) (FirstAnd (C.means p.2) (FirstAnd (D.means p.3)
        (FirstAnd (E.means p.4) (FirstAnd (F.means p.5) NoTrees))))) (A.typed p.0) (first_typed B.fits (C.fits ∷ D.fits ∷ E.fits ∷ F.fits ∷ [])
        (B.means p.1) (FirstAnd (C.means p.2) (FirstAnd (D.means p.3) (FirstAnd (E.means p.4) (FirstAnd (F.means p.5) NoTrees)))) (B.typed p.1)
        (first_typed C.fits (D.fits ∷ E.fits ∷ F.fits ∷ []) (C.means p.2) (FirstAnd (D.means p.3) (FirstAnd (E.means p.4) (FirstAnd
        (F.means p.5) NoTrees))) (C.typed p.2) (first_typed D.fits (E.fits ∷ F.fits ∷ []) (D.means p.3) (FirstAnd (E.means p.4) (FirstAnd
        (F.means p.5) NoTrees)) (D.typed p.3) (first_typed E.fits (F.fits ∷ []) (E.means p.4) (FirstAnd (F.means p.5) NoTrees) (E.typed p.4)
        (first_typed F.fits [] (F.means p.5) NoTrees (F.typed p.5) none_typed)))))) };

    ghost walked = { λ p. product_walked (FirstAnd (A.walks p.0) (FirstAnd (B.walks p.1) (FirstAnd (C.walks p.2) (FirstAnd (D.walks p.3) (FirstAnd
        (E.walks p.4) (FirstAnd (F.walks p.5) NoTrees)))))) (FirstAnd (A.means p.0) (FirstAnd (B.means p.1) (FirstAnd (C.means p.2) (FirstAnd
        (D.means p.3) (FirstAnd (E.means p.4) (FirstAnd (F.means p.5) NoTrees)))))) (first_walked (A.walks p.0) (A.means p.0) (FirstAnd
        (B.walks p.1) (FirstAnd (C.walks p.2) (FirstAnd (D.walks p.3) (FirstAnd (E.walks p.4) (FirstAnd (F.walks p.5) NoTrees))))) (FirstAnd
        (B.means p.1) (FirstAnd (C.means p.2) (FirstAnd (D.means p.3) (FirstAnd (E.means p.4) (FirstAnd (F.means p.5) NoTrees))))) (A.walked p.0)
        (first_walked (B.walks p.1) (B.means p.1) (FirstAnd (C.walks p.2) (FirstAnd (D.walks p.3) (FirstAnd (E.walks p.4) (FirstAnd
        (F.walks p.5) NoTrees)))) (FirstAnd (C.means p.2) (FirstAnd (D.means p.3) (FirstAnd (E.means p.4) (FirstAnd (F.means p.5) NoTrees))))
        (B.walked p.1) (first_walked (C.walks p.2) (C.means p.2) (FirstAnd (D.walks p.3) (FirstAnd (E.walks p.4) (FirstAnd (F.walks p.5) NoTrees)))
        (FirstAnd (D.means p.3) (FirstAnd (E.means p.4) (FirstAnd (F.means p.5) NoTrees))) (C.walked p.2) (first_walked (D.walks p.3) (D.means p.3)
        (FirstAnd (E.walks p.4) (FirstAnd (F.walks p.5) NoTrees)) (FirstAnd (E.means p.4) (FirstAnd (F.means p.5) NoTrees)) (D.walked p.3)
        (first_walked (E.walks p.4) (E.means p.4) (FirstAnd (F.walks p.5) NoTrees) (FirstAnd (F.means p.5) NoTrees) (E.walked p.4) (first_walked
        (F.walks p.5) (F.means p.5) NoTrees NoTrees (F.walked p.5) none_walked)))))) };
}

impl<
    A: ComponentType,
    B: ComponentType,
    C: ComponentType,
    D: ComponentType,
    E: ComponentType,
    F: ComponentType,
> ComponentNamedList for (A, B, C, D, E, F) {}
