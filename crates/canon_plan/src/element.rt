//! An element of a list or a map: an item of one type, or a pair of a key and a value.

ghost use Rattle.std.specs.Prelude.{◌≡◌};
ghost use Rattle.canon_abi.specs.Abi.{HasLayout};
ghost use Rattle.canon_types.specs.Depth.{element_shape};
ghost use Rattle.canon_types.specs.Table.{TypeTable};
ghost use Rattle.canon_plan.specs.Element.{IsKnown, element_cost, list_shape};

use canon_types::{CanonicalAbiInfo, ComponentTypes, InterfaceType, TypeMapIndex};

/// Where the types of one element stand.
#[derive(Clone, Copy)]
pub enum Element {
    /// An item of a list, of this type.
    Item(InterfaceType),
    /// A key and its value, in a map.
    Pair(TypeMapIndex),
}

/// What a list of n items and a product or list of fixed length of n members cost for each of these.
pub const VAL_COST: u64 = 32;

/// What a map costs for each pair.
const PAIR_COST: u64 = 64;

/// The numbers of one element.
pub fn element_abi<'a>(types: &'a ComponentTypes, element: &Element) -> &'a CanonicalAbiInfo
    requires known { IsKnown types.now element.now }
    ensures { HasLayout result.now (element_shape (list_shape types.now element.now)) }
{
    match element {
        Element::Item(ty) => types.canonical_abi(ty),
        Element::Pair(i) => &types.map(*i).entry_abi,
    }
}

/// What lifting an element costs, beside its parts.
pub fn element_cost(element: &Element) -> u64
    ensures { (t : TypeTable) → IsKnown t element.now → result ≡ element_cost (list_shape t element.now) }
{
    match element {
        Element::Item(_) => VAL_COST,
        Element::Pair(_) => PAIR_COST,
    }
}
