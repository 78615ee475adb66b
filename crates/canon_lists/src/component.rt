//! The component that the guest implements.

use crate::Failure;
use canon_types::{
    CanonicalOptions, InstanceType, InterfaceType, OptionsIndex, RuntimeInstance, StoreId,
    StringEncoding, TypeBuilder,
};
use canon_value::{Component, Export};
use std::alloc::Global;

/// The component, as WIT would say it:
///
/// ```wit
/// export mirror: func(numbers: list<u32>) -> list<u32>;
/// ```
pub fn component_of(alloc: Global, id: StoreId) -> Result<Component, Failure> {
    let mut builder = TypeBuilder::new(alloc);
    let numbers = builder.add_list(InterfaceType::U32)?;
    let ty = builder.add_func(vec![in alloc; numbers]?, vec![in alloc; numbers]?, false)?;
    let plain = CanonicalOptions {
        instance: RuntimeInstance::from_u32(0),
        string_encoding: StringEncoding::Utf8,
        async_: false,
        post_return: None,
    };
    let mirror = Export {
        ty,
        func: 0,
        options: OptionsIndex::from_u32(0),
    };
    Ok(Component {
        types: InstanceType::new(builder.finish(), id),
        options: vec![in alloc; plain]?,
        exports: vec![in alloc; mirror]?,
        imports: Vec::new(alloc),
    })
}
