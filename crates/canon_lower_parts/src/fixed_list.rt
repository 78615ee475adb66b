//! The items of a list of fixed length, by its type.

ghost use Rattle.canon_lower_parts.specs.Lists.{IsElementOf};
ghost use Rattle.canon_model.specs.Shape.{fixed};
ghost use Rattle.canon_types.specs.Table.{Knows};
ghost use Rattle.canon_typed.specs.Types.{IsFixedOf};

use canon_typed::ComponentType;
use canon_types::{InstanceType, InterfaceType};

/// The type of the items of a list of `N`.
pub fn fixed_element<T: ComponentType, const N: usize>(
    types: &InstanceType,
    ty: &InterfaceType,
) -> InterfaceType
    requires known { Knows types.now.types ty.now }
    requires fits { IsFixedOf N T.fits types.now ty.now }
    ensures { IsElementOf (λ s. fixed N s) T.fits types.now ty.now result }
{
    let InterfaceType::FixedLengthList(i) = *ty else {
        unreachable!()
    };
    types.types().fixed_length_list(i).element
}
