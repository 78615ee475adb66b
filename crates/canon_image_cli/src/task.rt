//! What the program `canon_image` is asked: a type, and a value or the bytes of an image.

ghost use Rattle.canon_types.specs.Table.{Knows};

use canon_types::{ComponentTypes, InterfaceType};
use canon_value::Val;

/// What the program is given: a value, whose image is asked for, or the bytes of an image, whose value is.
#[derive(Drop)]
pub enum Given {
    /// A value, whether it is of the type or not.
    Value(Val),
    /// Bytes, whether they are an image or not.
    Image(Vec<u8>),
}

/// What the program is asked: of a type of this table, what is given.
#[derive(Drop)]
pub struct ImageTask {
    /// The table.
    pub types: ComponentTypes,
    /// A type that the table knows.
    pub ty: InterfaceType,
    /// What is given.
    pub given: Given,
    ghost known: { Knows types ty },
}
