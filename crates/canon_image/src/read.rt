//! The value of an image.

ghost use Rattle.canon_types.specs.Table.{Knows, shape_of};
ghost use Rattle.canon_image_parts.specs.Read.{IsNumberedRead, IsOnlyNumberedRead, IsOnlyReading, IsRead};

use crate::ImageError;
use canon_image_parts::{read_numbered, read_whole};
use canon_types::{ComponentTypes, InterfaceType};
use canon_val::Val;
use std::alloc::Global;

/// The value whose image these bytes are. Answers `Resource` where the type reaches a handle, `Truncated` or `Malformed` at the
/// first field that is cut off or spells nothing, and `Trailing` where more follows.
pub fn read_image(
    alloc: Global,
    types: &ComponentTypes,
    ty: &InterfaceType,
    bytes: &[u8],
) -> Result<Val, ImageError>
    requires known { Knows types.now ty.now }
    ensures is { IsRead (shape_of types.now ty.now) bytes.now result }
    ensures only { IsOnlyReading (shape_of types.now ty.now) bytes.now result }
{
    read_whole(alloc, types, ty, bytes)
}

/// The value whose image these bytes are, where a handle is a number of 4 bytes: a borrow of the number, of type 0, stands in the place of the
/// resource. Answers `Truncated`, `Malformed` and `Trailing` as `read_image`, and never `Resource`.
pub fn read_numbered_image(
    alloc: Global,
    types: &ComponentTypes,
    ty: &InterfaceType,
    bytes: &[u8],
) -> Result<Val, ImageError>
    requires known { Knows types.now ty.now }
    ensures is { IsNumberedRead (shape_of types.now ty.now) bytes.now result }
    ensures only { IsOnlyNumberedRead (shape_of types.now ty.now) bytes.now result }
{
    read_numbered(alloc, types, ty, bytes)
}
