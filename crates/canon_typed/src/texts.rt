//! Texts of Rust as component types.

ghost use Rattle.std.specs.Prelude.{◌≡◌, false, true};
ghost use Rattle.canon_model.specs.Tree.{text_length};
ghost use Rattle.canon_types.specs.declared.types.InterfaceType.TheVariants as ty;
ghost use Rattle.canon_typed.specs.Meaning.{TextMeans};
ghost use Rattle.canon_typed.specs.Typed.{scalar_typed};

use crate::{ComponentType, TypecheckFailed};
use canon_types::{CanonicalAbiInfo, InstanceType, InterfaceType};

impl ComponentType for String {
    const MAY_REQUIRE_REALLOC: bool = true;

    const IS_RUST_UNIT_TYPE: bool = false;

    ghost is_unit = { false };

    ghost fits = { λ i t. t ≡ ty.String };

    ghost means = { TextMeans };

    ghost walks = { TextMeans };

    ghost is_told = { true };

    ghost lifts = { TextMeans };

    ghost cost = { text_length };

    ghost host_bytes = { 24 };

    fn is_unit_type() -> bool {
        Self::IS_RUST_UNIT_TYPE
    }

    fn host_size() -> u64 {
        24
    }

    fn abi() -> Option<CanonicalAbiInfo> {
        Some(CanonicalAbiInfo::POINTER_PAIR)
    }

    fn typecheck(ty: &InterfaceType, _types: &InstanceType) -> Result<(), TypecheckFailed> {
        match ty {
            InterfaceType::String => Ok(()),
            _ => Err(TypecheckFailed),
        }
    }

    ghost typed = { scalar_typed ty.String TextMeans (λ i s u h. (h.0, h.1, h.2, h.3.can)) };

    ghost walked = { λ v t h. h };
}
