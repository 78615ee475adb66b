//! The canonical options of a function, and the encodings of strings.

use crate::RuntimeInstance;

/// How texts are spelled in a component's memory (CanonicalABI.md, `string-encoding`).
#[derive(Clone, Copy, Debug, PartialEq, Eq)]
pub enum StringEncoding {
    /// UTF-8, of which a length counts bytes.
    Utf8,
    /// UTF-16, of which a length counts units of two bytes.
    Utf16,
    /// Latin-1, or UTF-16 with the tag bit of the length set (`latin1+utf16`).
    CompactUtf16,
}

/// The canonical options of a function (CanonicalABI.md, `canonopt`).
#[derive(Clone, Copy, Debug, PartialEq, Eq)]
pub struct CanonicalOptions {
    /// The component instance that the function is of.
    pub instance: RuntimeInstance,
    /// How texts are spelled in its memory.
    pub string_encoding: StringEncoding,
    /// Whether it has the option `async`.
    pub async_: bool,
    /// The core function that runs after the results were lifted.
    pub post_return: Option<u32>,
}
