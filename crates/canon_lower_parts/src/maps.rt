//! The pairs of a map, by its type.

ghost use Rattle.std.specs.Prelude.{◌≡◌};
ghost use Rattle.canon_lower_parts.specs.Pairs.{IsPairType};
ghost use Rattle.canon_model.specs.Shape.{map_of};
ghost use Rattle.canon_types.specs.Table.{Knows, shape_of};
ghost use Rattle.canon_typed.specs.Types.{IsMapOf};

use canon_typed::ComponentType;
use canon_types::{CanonicalAbiInfo, InstanceType, InterfaceType};

/// The types of a map's keys and values, where the value begins in a pair, and how a pair lies.
#[derive(Clone, Copy)]
pub struct PairType {
    /// The type of the keys.
    pub key: InterfaceType,
    /// The type of the values.
    pub value: InterfaceType,
    /// Bytes from a pair's address to its value, with pointers of 32 bits.
    pub second: u32,
    /// How a pair lies.
    pub abi: CanonicalAbiInfo,
}

/// The pairs of a map's type.
pub fn pair_type<K: ComponentType, V: ComponentType>(
    types: &InstanceType,
    ty: &InterfaceType,
) -> PairType
    requires known { Knows types.now.types ty.now }
    requires fits { IsMapOf K.fits V.fits types.now ty.now }
    ensures shape { shape_of types.now.types ty.now ≡ map_of (shape_of types.now.types result.key) (shape_of types.now.types result.value) }
    ensures pair { IsPairType K.fits V.fits types.now result }
{
    let InterfaceType::Map(i) = *ty else {
        unreachable!()
    };
    let map = types.types().map(i);
    PairType {
        key: map.key,
        value: map.value,
        second: map.value_offset32,
        abi: map.entry_abi,
    }
}
