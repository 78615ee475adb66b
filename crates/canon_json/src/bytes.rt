//! Reads bytes that a JSON value writes in hex.

ghost use Rattle.hex.specs.Hex.{decode_of, encode_lower};
ghost use Rattle.serde_json.specs.View.{view};
ghost use Rattle.canon_json.specs.Hex.{bytes_of, hex_bytes};
ghost use Rattle.canon_json.specs.Json.{ReadsAs};

use crate::ScriptError;
use hex::FromHexError;
use serde_json::Value;
use std::alloc::Global;

/// The bytes of hex, an even number of digits 0 to 9 and a to f. `BadScript` says that it is none.
pub fn bytes_of_hex(alloc: Global, text: &str) -> Result<Vec<u8>, ScriptError>
    ensures { ReadsAs (λ bytes. bytes.items) result (hex_bytes text.now) }
{
    let bytes = match hex::decode(alloc, text) {
        Ok(bytes) => bytes,
        Err(FromHexError::OutOfMemory) => return Err(ScriptError::OutOfMemory),
        Err(_) => return Err(ScriptError::BadScript),
    };
    let small = hex::encode(alloc, bytes.as_slice())?;
    if small.as_str() == text {
        Ok(bytes)
    } else {
        Err(ScriptError::BadScript)
    }
}

/// The bytes of a text of hex.
pub fn bytes_of_json(alloc: Global, v: &Value) -> Result<Vec<u8>, ScriptError>
    ensures { ReadsAs (λ bytes. bytes.items) result (bytes_of (view v.now)) }
{
    match v.as_str() {
        Some(text) => bytes_of_hex(alloc, text),
        None => Err(ScriptError::BadScript),
    }
}
