//! The component that the guest implements.

ghost use Rattle.std.specs.Prelude.{IfOk};
ghost use Rattle.canon_example_imports.specs.Component.{IsDoor};

use crate::Failure;
use canon_types::{
    CanonicalOptions, InstanceType, InterfaceType, OptionsIndex, RuntimeInstance, StoreId,
    StringEncoding, TypeBuilder,
};
use canon_value::{Component, Export, Import};
use std::alloc::Global;

/// The number of the import that tells the time.
pub const CLOCK: u32 = 0;

/// The number of the import that writes a line in the diary.
pub const DIARY: u32 = 1;

/// The component, as WIT would say it:
///
/// ```wit
/// import clock: func() -> u32;
/// import diary: func(time: u32, text: string) -> u32;
/// export swing: func(open: bool) -> u32;
/// ```
pub fn component_of(alloc: Global, id: StoreId) -> Result<Component, Failure>
    ensures { IfOk result (IsDoor id) }
{
    let mut builder = TypeBuilder::new(alloc);
    let number = [InterfaceType::U32];
    let line = vec![in alloc; InterfaceType::U32, InterfaceType::String]?;
    let open = vec![in alloc; InterfaceType::Bool]?;
    let clock = builder.add_func(Vec::new(alloc), number.to_vec(alloc)?, false)?;
    let diary = builder.add_func(line, number.to_vec(alloc)?, false)?;
    let swing = builder.add_func(open, number.to_vec(alloc)?, false)?;
    let plain = CanonicalOptions {
        instance: RuntimeInstance::from_u32(0),
        string_encoding: StringEncoding::Utf8,
        async_: false,
        post_return: None,
    };
    let options = OptionsIndex::from_u32(0);
    let swing = Export {
        ty: swing,
        func: 0,
        options,
    };
    let clock = Import::Host { ty: clock, options };
    let diary = Import::Host { ty: diary, options };
    Ok(Component {
        types: InstanceType::new(builder.finish(), id),
        options: vec![in alloc; plain]?,
        exports: vec![in alloc; swing]?,
        // Their places are their numbers, `CLOCK` and `DIARY`.
        imports: vec![in alloc; clock, diary]?,
    })
}
