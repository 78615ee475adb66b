//! The items of a list, by its type.

ghost use Rattle.canon_lower_parts.specs.Lists.{IsElementOf};
ghost use Rattle.canon_model.specs.Shape.{list, of_items};
ghost use Rattle.canon_types.specs.Table.{Knows};
ghost use Rattle.canon_typed.specs.Types.{IsListOf};

use canon_typed::ComponentType;
use canon_types::{InstanceType, InterfaceType};

/// The type of a list's items.
pub fn list_element<T: ComponentType>(types: &InstanceType, ty: &InterfaceType) -> InterfaceType
    requires known { Knows types.now.types ty.now }
    requires fits { IsListOf T.fits types.now ty.now }
    ensures { IsElementOf (λ s. list of_items s) T.fits types.now ty.now result }
{
    let InterfaceType::List(i) = *ty else {
        unreachable!()
    };
    types.types().list(i).element
}
