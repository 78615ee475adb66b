//! Values that cross as images: the parameters of a function in a row, and its results.

ghost use Rattle.std.specs.Prelude.{◌≡◌, IfOk, Ok};
ghost use Rattle.canon_types.specs.Table.{HasTuple, shape_of};
ghost use Rattle.canon_image_parts.specs.Written.{IsListedImage};
ghost use Rattle.canon_serve.specs.Asks.{ListsValues};
ghost use Rattle.canon_serve.specs.Images.{IsReadRow};

use canon_image::{ImageError, image_with_resources, read_numbered_image};
use canon_literals::copies_of;
use canon_resources::ResourceAny;
use canon_types::{ComponentTypes, InterfaceType, OutOfMemory, TypeTupleIndex};
use canon_value::Val;
use std::alloc::Global;

/// The values whose images stand in a row, with a borrow of its number in the place of each resource.
pub(crate) fn read_numbered_values(
    alloc: Global,
    types: &ComponentTypes,
    tuple: TypeTupleIndex,
    bytes: &[u8],
) -> Result<Vec<Val>, ImageError>
    requires { HasTuple types.now tuple }
    ensures { IsReadRow (shape_of types.now (InterfaceType.Tuple tuple)) bytes.now result }
{
    match read_numbered_image(alloc, types, &InterfaceType::Tuple(tuple), bytes) {
        Ok(Val::Tuple(values)) => Ok(values),
        // No image of a tuple is read as another value.
        Ok(_) => Err(ImageError::OutOfMemory),
        Err(error) => Err(error),
    }
}

/// The images of copies of values in a row, whose resources are added to the list.
pub(crate) fn image_copies(
    alloc: Global,
    types: &ComponentTypes,
    tuple: TypeTupleIndex,
    values: &[Val],
    list: &mut Vec<ResourceAny>,
) -> Result<Vec<u8>, OutOfMemory>
    requires { HasTuple types.now tuple }
    ensures { IfOk result (λ bytes. ListsValues (shape_of types.now (InterfaceType.Tuple tuple)) values.now list.old.items list.new.items bytes.items) }
{
    let copies = copies_of(alloc, values)?;
    match image_values(alloc, types, tuple, copies, list) {
        Ok(bytes) => Ok(bytes),
        // The values are of their types.
        Err(_) => Err(OutOfMemory),
    }
}

/// The images of values in a row, whose resources are added to the list.
pub(crate) fn image_values(
    alloc: Global,
    types: &ComponentTypes,
    tuple: TypeTupleIndex,
    values: Vec<Val>,
    list: &mut Vec<ResourceAny>,
) -> Result<Vec<u8>, ImageError>
    requires { HasTuple types.now tuple }
    ensures { IfOk result (λ bytes. IsListedImage list.old.items list.new.items (shape_of types.now (InterfaceType.Tuple tuple)) (Val.Tuple values) bytes.items) }
{
    image_with_resources(
        alloc,
        types,
        &InterfaceType::Tuple(tuple),
        &Val::Tuple(values),
        list,
    )
}
