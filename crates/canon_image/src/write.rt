//! The image of a value.

ghost use Rattle.canon_types.specs.Table.{Knows, shape_of};
ghost use Rattle.canon_image_parts.specs.Written.{IsImaged, IsNumberedImage, IsOnlyImage};

use crate::ImageError;
use canon_image_parts::{image_listed, image_of};
use canon_resources::ResourceAny;
use canon_types::{ComponentTypes, InterfaceType};
use canon_val::Val;
use std::alloc::Global;

/// The image of a value. Answers `Resource` where the type reaches a handle, and `NotOfType` where the value isn't of the type.
pub fn image(
    alloc: Global,
    types: &ComponentTypes,
    ty: &InterfaceType,
    val: &Val,
) -> Result<Vec<u8>, ImageError>
    requires known { Knows types.now ty.now }
    ensures is { IsImaged (shape_of types.now ty.now) val.now result }
    ensures only { IsOnlyImage (shape_of types.now ty.now) val.now result }
{
    image_of(alloc, types, ty, val)
}

/// The image of a value whose resources are added to a list: a handle is the number of its resource there, in 4 bytes. Answers `NotOfType`
/// where the value isn't of the type, and never `Resource`. What an error leaves in the list isn't said.
pub fn image_with_resources(
    alloc: Global,
    types: &ComponentTypes,
    ty: &InterfaceType,
    val: &Val,
    resources: &mut Vec<ResourceAny>,
) -> Result<Vec<u8>, ImageError>
    requires known { Knows types.now ty.now }
    ensures is { IsNumberedImage resources.old.items resources.new.items (shape_of types.now ty.now) val.now result }
{
    image_listed(alloc, types, ty, val, resources)
}
