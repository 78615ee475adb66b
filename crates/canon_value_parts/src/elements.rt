//! A list or a map with its elements.

ghost use Rattle.std.specs.Prelude.{◌≡◌};
ghost use Rattle.canon_value_parts.specs.Elements.{element_in, list_length};

use canon_plan::Element;
use canon_types::{InterfaceType, TypeMapIndex};
use canon_val::Val;

/// A list's elements, and where their types stand.
#[derive(Clone, Copy)]
pub enum Elements<'a> {
    /// The items of a list, of this type.
    Items(InterfaceType, &'a Vec<Val>),
    /// The pairs of a map of this type.
    Pairs(TypeMapIndex, &'a Vec<(Val, Val)>),
}

/// What the elements of a list are.
pub fn element_of(list: &Elements<'_>) -> Element
    ensures { result ≡ element_in list.now }
{
    match list {
        Elements::Items(ty, _) => Element::Item(*ty),
        Elements::Pairs(i, _) => Element::Pair(*i),
    }
}

/// How many there are.
pub fn element_count(list: &Elements<'_>) -> u64
    ensures { result ≡ list_length list.now }
{
    match list {
        Elements::Items(_, items) => items.len() as u64,
        Elements::Pairs(_, pairs) => pairs.len() as u64,
    }
}
