//! What no script of examples/image/ reaches: a type with handles, and how errors print.

use canon_image::{ImageError, image, read_image};
use canon_types::{InterfaceType, ResourceKind, RuntimeInstance, TypeBuilder, TypeResourceTable};
use canon_value::{Fault, Val};
use std::alloc::Global;

/// Whether a value of a type with handles has no image, and no bytes are read as one.
fn has_no_image(alloc: Global) -> Option<bool> {
    let mut builder = TypeBuilder::new(alloc);
    let table = builder.add_resource_table(TypeResourceTable {
        instance: RuntimeInstance::from_u32(3),
        kind: ResourceKind::HostDynamic(5),
        defined_here: false,
    });
    let ty = InterfaceType::Own(table.ok()?);
    let types = builder.finish();
    if !types.contains(&ty) {
        return None;
    }
    let written = image(alloc, &types, &ty, &Val::U32(1));
    let read = read_image(alloc, &types, &ty, &[1, 0, 0, 0]);
    Some(written == Err(ImageError::Resource) && read == Err(ImageError::Resource))
}

#[test]
fn a_handle_has_no_image(rt: HostRuntime) {
    assert!(rt; has_no_image(rt.alloc()) == Some(true));
}

/// How errors print, one by `Display` and one by `Debug`.
fn printed(alloc: Global) -> Option<String> {
    let resource = ImageError::Resource;
    let other = ImageError::NotOfType(Fault::TypeMismatch(3));
    format!(in alloc; "{resource} {other:?}").ok()
}

#[test]
fn errors_print_their_names(rt: HostRuntime) {
    let text = printed(rt.alloc());
    assert!(rt; text.is_some_and(|text| text.as_str() == "Resource NotOfType(TypeMismatch(3))"));
}
