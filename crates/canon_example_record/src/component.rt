//! The component that the guest implements.

use crate::Failure;
use canon_types::{
    CanonicalOptions, InstanceType, InterfaceType, OptionsIndex, RecordField, RuntimeInstance,
    StoreId, StringEncoding, TypeBuilder,
};
use canon_value::{Component, Export};
use std::alloc::Global;

/// The component, as WIT would say it:
///
/// ```wit
/// record note { title: string, score: u32 }
/// export mirror: func(notes: list<note>) -> list<note>;
/// ```
pub fn component_of(alloc: Global, id: StoreId) -> Result<Component, Failure> {
    let mut builder = TypeBuilder::new(alloc);
    let fields = vec![in alloc;
        field(alloc, "title", InterfaceType::String)?,
        field(alloc, "score", InterfaceType::U32)?,
    ]?;
    let note = builder.add_record(fields)?;
    let notes = builder.add_list(note)?;
    let ty = builder.add_func(vec![in alloc; notes]?, vec![in alloc; notes]?, false)?;
    let plain = CanonicalOptions {
        instance: RuntimeInstance::from_u32(0),
        string_encoding: StringEncoding::Utf8,
        async_: false,
        post_return: None,
    };
    let mirror = Export {
        ty,
        func: 0,
        options: OptionsIndex::from_u32(0),
    };
    Ok(Component {
        types: InstanceType::new(builder.finish(), id),
        options: vec![in alloc; plain]?,
        exports: vec![in alloc; mirror]?,
        imports: Vec::new(alloc),
    })
}

/// A field of a record.
fn field(alloc: Global, name: &str, ty: InterfaceType) -> Result<RecordField, Failure> {
    let name = String::from_str(alloc, name)?;
    Ok(RecordField { name, ty })
}
