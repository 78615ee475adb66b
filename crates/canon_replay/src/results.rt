//! Whether results are the recorded ones, bit for bit.

ghost use Rattle.std.specs.Prelude.{◌≡◌, ◌↔◌, IfErr, IfOk, IsTrue};
ghost use Rattle.canon_types.specs.Table.{HasTuple, shape_of};
ghost use Rattle.canon_replay.specs.Calls.{ComparesImages, HaveImage};

use canon_image::image;
use canon_recording::ReplayError;
use canon_types::{ComponentTypes, InterfaceType, TypeTupleIndex};
use canon_val::Val;
use std::alloc::Global;

/// Whether values of the types of a tuple have one image.
pub(crate) fn have_one_image(
    alloc: Global,
    types: &ComponentTypes,
    tuple: TypeTupleIndex,
    values: Vec<Val>,
    others: Vec<Val>,
) -> Result<bool, ReplayError>
    requires { HasTuple types.now tuple }
    ensures compares { ComparesImages (shape_of types.now (InterfaceType.Tuple tuple)) values.items others.items result }
{
    let bytes = image_of_tuple(alloc, types, tuple, values)?;
    let other = image_of_tuple(alloc, types, tuple, others)?;
    Ok(same_bytes(bytes.as_slice(), other.as_slice()))
}

/// The image of values, as a tuple of their types. Values of the types have one, as these reach no handle, unless memory is short.
fn image_of_tuple(
    alloc: Global,
    types: &ComponentTypes,
    tuple: TypeTupleIndex,
    values: Vec<Val>,
) -> Result<Vec<u8>, ReplayError>
    requires { HasTuple types.now tuple }
    ensures image { IfOk result (λ bytes. HaveImage (shape_of types.now (InterfaceType.Tuple tuple)) values.items bytes.items) }
    ensures short { IfErr result (λ e. e ≡ ReplayError.OutOfMemory) }
{
    match image(
        alloc,
        types,
        &InterfaceType::Tuple(tuple),
        &Val::Tuple(values),
    ) {
        Ok(bytes) => Ok(bytes),
        Err(_) => Err(ReplayError::OutOfMemory),
    }
}

fn same_bytes(bytes: &[u8], others: &[u8]) -> bool
    ensures { IsTrue result ↔ (bytes.now ≡ others.now) }
{
    bytes == others
}
