//! The component that the guest implements.

use crate::Failure;
use canon_types::{
    CanonicalOptions, InstanceType, InterfaceType, OptionsIndex, RuntimeInstance, StoreId,
    StringEncoding, TypeBuilder,
};
use canon_value::{Component, Export};
use std::alloc::Global;

/// The component, as WIT would say it:
///
/// ```wit
/// type point = tuple<u32, u32>;
/// export mirror: func(points: list<point>) -> list<point>;
/// ```
pub fn component_of(alloc: Global, id: StoreId) -> Result<Component, Failure> {
    let mut builder = TypeBuilder::new(alloc);
    let number = InterfaceType::U32;
    let point = builder.add_tuple(vec![in alloc; number, number]?)?;
    let points = builder.add_list(point)?;
    let ty = builder.add_func(vec![in alloc; points]?, vec![in alloc; points]?, false)?;
    let plain = CanonicalOptions {
        instance: RuntimeInstance::from_u32(0),
        string_encoding: StringEncoding::Utf8,
        async_: false,
        post_return: None,
    };
    let mirror = Export {
        ty,
        func: 0,
        options: OptionsIndex::from_u32(0),
    };
    Ok(Component {
        types: InstanceType::new(builder.finish(), id),
        options: vec![in alloc; plain]?,
        exports: vec![in alloc; mirror]?,
        imports: Vec::new(alloc),
    })
}
