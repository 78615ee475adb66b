//! The members of a tuple, by its type.

ghost use Rattle.std.specs.Prelude.{◌≡◌, ◌<◌, ◌+◌, ◌^◌, false, length};
ghost use Rattle.canon_lower_parts.specs.Tuples.{member_type, types_of_tuple};
ghost use Rattle.canon_model.specs.Layout.{begins, ends};
ghost use Rattle.canon_types.specs.Table.{Knows, shape_of};

use canon_types::{ComponentTypes, InterfaceType};

/// The type of a tuple's member, and the number of the next one.
pub fn next_type(types: &ComponentTypes, ty: &InterfaceType, k: &mut usize) -> InterfaceType
    requires known { Knows types.now ty.now }
    requires member { k.old < length (types_of_tuple types.now ty.now) }
    ensures member { result ≡ member_type types.now ty.now k.old }
    ensures known { Knows types.now result }
    ensures next { k.new ≡ k.old + 1 }
{
    let InterfaceType::Tuple(i) = *ty else {
        unreachable!()
    };
    let part = types.tuple(i).types[*k];
    *k += 1;
    part
}

/// The same, and the offset that the member begins at where the one before it ends at `end`.
pub fn next_place(
    types: &ComponentTypes,
    ty: &InterfaceType,
    k: &mut usize,
    end: &mut u64,
) -> (InterfaceType, u64)
    requires known { Knows types.now ty.now }
    requires member { k.old < length (types_of_tuple types.now ty.now) }
    requires room { ends false end.old (shape_of types.now (member_type types.now ty.now k.old)) < 2 ^ 64 }
    ensures member { result.0 ≡ member_type types.now ty.now k.old }
    ensures known { Knows types.now result.0 }
    ensures start { result.1 ≡ begins false end.old (shape_of types.now (member_type types.now ty.now k.old)) }
    ensures next { k.new ≡ k.old + 1 }
    ensures end { end.new ≡ ends false end.old (shape_of types.now (member_type types.now ty.now k.old)) }
{
    let part = next_type(types, ty, k);
    let start = types.canonical_abi(&part).next_field32_size(end);
    (part, start)
}
