//! The trait of Rust types that stand for component types.

ghost use Rattle.std.specs.Prelude.{◌≡◌, Bool, OnErr, OnOk, ℕ};
ghost use Rattle.canon_abi.specs.Abi.{TellsLayout};
ghost use Rattle.canon_model.specs.Shape.{Scalar};
ghost use Rattle.canon_model.specs.Tree.{Tree};
ghost use Rattle.canon_types.specs.Instance.{Instance};
ghost use Rattle.canon_types.specs.Table.{Knows, shape_of};
ghost use Rattle.canon_types.specs.declared.types.InterfaceType.{InterfaceType};
ghost use Rattle.canon_model.specs.Memory.{cap};
ghost use Rattle.canon_typed.specs.Numbers.{TellsFlat, TellsInfo};
ghost use Rattle.canon_typed.specs.Scalars.{IsScalarRustType};
ghost use Rattle.canon_typed.specs.Typed.{IsTyped};

use crate::TypecheckFailed;
use canon_types::{CanonicalAbiInfo, InstanceType, InterfaceType, VariantInfo};

/// A Rust type whose values cross as those of a component type (wasmtime's trait of this name).
pub trait ComponentType: Drop {
    /// Whether lowering a value may ask the guest for a block.
    const MAY_REQUIRE_REALLOC: bool;

    /// Whether it is the unit type, which stands for a case without a payload.
    const IS_RUST_UNIT_TYPE: bool;

    // whether it is the unit type
    ghost is_unit: { Bool };

    // the component types that are this type's
    ghost fits: { Instance → InterfaceType → Type 0 };

    // the trees of a value that is lowered
    ghost means: { Self → Tree → Type 0 };

    // of them those that its lowering makes: a map's pairs in the order in which it keeps them
    ghost walks: { Self → Tree → Type 0 };

    // whether each value that is lifted has a tree
    ghost is_told: { Bool };

    // the trees of a value that is lifted
    ghost lifts: { Self → Tree → Type 0 };

    // what lifting a tree charges of the fuel
    ghost cost: { Tree → ℕ };

    // the bytes that a value takes in the host
    ghost host_bytes: { ℕ };

    /// Whether it is the unit type, as the constant says.
    fn is_unit_type() -> bool
        ensures { result ≡ is_unit };

    /// The bytes that a value takes in the host, by which lifting a list of such values is charged. It is cut at the greatest
    /// number of 64 bits.
    fn host_size() -> u64
        ensures { result ≡ cap host_bytes };

    /// How the component type lies in memory and in words, or none where a size passes 2^32 - 1.
    fn abi() -> Option<CanonicalAbiInfo>
        ensures { (i : Instance) (type : InterfaceType) → fits i type → TellsLayout result (shape_of i.types type) };

    /// The number of words, or none where there are more than 16 or a size passes 2^32 - 1.
    final fn flatten_count() -> Option<u8>
        ensures { (i : Instance) (type : InterfaceType) → fits i type → TellsFlat result (shape_of i.types type) }
    {
        Self::abi()?.flat
    }

    /// Whether a component type is the Rust type's.
    fn typecheck(ty: &InterfaceType, types: &InstanceType) -> Result<(), TypecheckFailed>
        requires known { Knows types.now.types ty.now }
        ensures ok { OnOk result (fits types.now ty.now) }
        ensures err { OnErr result (fits types.now ty.now → ⊥) };

    // a value's trees are trees of each type that fits
    ghost typed: { IsTyped fits means };

    // a tree that a lowering makes is one of the value's
    ghost walked: { (v : Self) (t : Tree) → walks v t → means v t };
}

/// A Rust type that stands for a type of cases.
pub trait ComponentVariant: ComponentType {
    /// The discriminant, and where the payload begins, or none where a size passes 2^32 - 1.
    fn info() -> Option<VariantInfo>
        ensures { (i : Instance) (type : InterfaceType) → Self.fits i type → TellsInfo result (shape_of i.types type) };
}

/// A Rust type that stands for the parameters or the results of a function: a tuple.
pub trait ComponentNamedList: ComponentType {}

/// A Rust type that stands for a scalar.
pub trait ScalarType: ComponentType {
    // the scalar
    ghost kind: { Scalar };

    // each value has one tree, which is lifted to it and to no other, for nothing
    ghost is_scalar: { IsScalarRustType kind Self.fits Self.is_unit Self.means Self.walks Self.is_told Self.lifts Self.cost };
}
