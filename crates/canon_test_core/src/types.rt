//! Tables of types, each with one of its types.

use canon_types::{
    ComponentTypes, InterfaceType, ResourceKind, RuntimeInstance, TypeBuilder, TypeError,
    TypeResourceTable,
};
use std::alloc::Global;

/// Types, and one of them.
pub type Typed = (ComponentTypes, InterfaceType);

/// A type that needs no table.
pub fn plain(alloc: Global, ty: InterfaceType) -> Typed {
    (TypeBuilder::new(alloc).finish(), ty)
}

/// An option of a type without parts.
pub fn option_of(alloc: Global, some: InterfaceType) -> Result<Typed, TypeError> {
    let mut types = TypeBuilder::new(alloc);
    let ty = types.add_option(some)?;
    Ok((types.finish(), ty))
}

/// A result of types without parts.
pub fn result_of(
    alloc: Global,
    ok: Option<InterfaceType>,
    err: Option<InterfaceType>,
) -> Result<Typed, TypeError> {
    let mut types = TypeBuilder::new(alloc);
    let ty = types.add_result(ok, err)?;
    Ok((types.finish(), ty))
}

/// A tuple of types without parts.
pub fn tuple_of(alloc: Global, members: &[InterfaceType]) -> Result<Typed, TypeError> {
    let mut types = TypeBuilder::new(alloc);
    let ty = types.add_tuple(members.to_vec(alloc)?)?;
    Ok((types.finish(), ty))
}

/// A list of a type without parts.
pub fn list_of(alloc: Global, element: InterfaceType) -> Result<Typed, TypeError> {
    let mut types = TypeBuilder::new(alloc);
    let ty = types.add_list(element)?;
    Ok((types.finish(), ty))
}

/// A list of fixed length of a type without parts.
pub fn fixed_of(alloc: Global, element: InterfaceType, size: u32) -> Result<Typed, TypeError> {
    let mut types = TypeBuilder::new(alloc);
    let ty = types.add_fixed_length_list(element, size)?;
    Ok((types.finish(), ty))
}

/// A map of types without parts.
pub fn map_of(alloc: Global, key: InterfaceType, value: InterfaceType) -> Result<Typed, TypeError> {
    let mut types = TypeBuilder::new(alloc);
    let ty = types.add_map(key, value)?;
    Ok((types.finish(), ty))
}

/// A list of maps of types without parts.
pub fn maps_of(
    alloc: Global,
    key: InterfaceType,
    value: InterfaceType,
) -> Result<Typed, TypeError> {
    let mut types = TypeBuilder::new(alloc);
    let map = types.add_map(key, value)?;
    let ty = types.add_list(map)?;
    Ok((types.finish(), ty))
}

/// The own handles of a resource type of a kind, or its borrows.
pub fn handles_of(alloc: Global, kind: ResourceKind, owned: bool) -> Result<Typed, TypeError> {
    let mut types = TypeBuilder::new(alloc);
    let resource = TypeResourceTable {
        instance: RuntimeInstance::from_u32(3),
        kind,
        defined_here: false,
    };
    let table = types.add_resource_table(resource)?;
    let ty = if owned {
        InterfaceType::Own(table)
    } else {
        InterfaceType::Borrow(table)
    };
    Ok((types.finish(), ty))
}
