//! Maps of Rust as component types.

ghost use Rattle.std.specs.Prelude.{◌+◌, ◌&&◌, ◌∷◌, [], false};
ghost use Rattle.canon_typed.specs.Charges.{list_cost, product_cost};
ghost use Rattle.canon_model.specs.Memory.{cap};
ghost use Rattle.canon_typed.specs.Maps.{MapLifts, MapMeans, MapWalks, map_typed, map_walked};
ghost use Rattle.canon_typed.specs.Types.{IsMapOf};

use crate::{ComponentType, TypecheckFailed};
use canon_types::{CanonicalAbiInfo, InstanceType, InterfaceType};
use std::collections::HashMap;
use std::hash::Hash;

impl<K: ComponentType + Eq + Hash, V: ComponentType> ComponentType for HashMap<K, V> {
    const MAY_REQUIRE_REALLOC: bool = true;

    const IS_RUST_UNIT_TYPE: bool = false;

    ghost is_unit = { false };

    ghost fits = { IsMapOf K.fits V.fits };

    ghost means = { MapMeans K.means V.means };

    ghost walks = { MapWalks K.walks V.walks };

    ghost is_told = { K.is_told && V.is_told };

    ghost lifts = { MapLifts K.eq K.lifts V.lifts };

    ghost cost = { list_cost (cap (K.host_bytes + V.host_bytes)) (product_cost (K.cost ∷ V.cost ∷ [])) };

    ghost host_bytes = { 24 };

    fn is_unit_type() -> bool {
        false
    }

    fn host_size() -> u64 {
        24
    }

    fn abi() -> Option<CanonicalAbiInfo> {
        Some(CanonicalAbiInfo::POINTER_PAIR)
    }

    fn typecheck(ty: &InterfaceType, types: &InstanceType) -> Result<(), TypecheckFailed> {
        let InterfaceType::Map(i) = ty else {
            return Err(TypecheckFailed);
        };
        let map = types.types().map(*i);
        K::typecheck(&map.key, types)?;
        V::typecheck(&map.value, types)
    }

    ghost typed = { map_typed K.fits V.fits K.means V.means K.typed V.typed };

    ghost walked = { map_walked K.walks K.means V.walks V.means K.walked V.walked };
}
