//! The line that the program `canon_image` prints: an image in hex, a value, or an error.

ghost use Rattle.std.specs.Prelude.{◌≡◌, ◌++◌, codes, None, Some, IfErr, IfOk, List, ℕ, Result, Vec, string_bytes};
ghost use Rattle.std.specs.declared.alloc.Global.{Global};
ghost use Rattle.hex.specs.Hex.{encode_lower};
ghost use Rattle.serde_json.specs.View.{view};
ghost use Rattle.canon_json.specs.declared.error.ScriptError.TheVariants as refused;
ghost use Rattle.canon_types.specs.Table.{Knows, shape_of};
ghost use Rattle.canon_image_parts.specs.Read.{IsRead};
ghost use Rattle.canon_image_parts.specs.Written.{IsImaged};
ghost use Rattle.canon_transcript.specs.Text as printed;
ghost use Rattle.canon_image_cli.specs.Lines as spec;
ghost use Rattle.canon_image_cli.specs.Task.{Question, image_task_of, task_view};

use crate::reading::image_task_of_json;
use crate::task::{Given, ImageTask};
use canon_func::Error;
use canon_image::{ImageError, image, read_image};
use canon_json::ScriptError;
use canon_transcript::{error_text, value_text};
use canon_types::{ComponentTypes, InterfaceType};
use canon_value::{Fault, Val};
use serde_json::Value;
use std::alloc::Global;

/// The line that a JSON value asks for: `image` and hex, `ok` and a value, or `error` and why there is none. Answers
/// BadScript where the value asks for none.
pub fn image_line(alloc: Global, v: &Value) -> Result<String, ScriptError>
    ensures line { IfOk result (λ text. (q : Question) × (image_task_of (view v.now) ≡ Some q) × spec.IsImageLine q (string_bytes text)) }
    ensures bad_script { result ≡ Err refused.BadScript → image_task_of (view v.now) ≡ None }
{
    let task = image_task_of_json(alloc, v)?;
    told_line(alloc, &task)
}

/// The line that shows what is asked. Answers OutOfMemory alone.
fn told_line(alloc: Global, task: &ImageTask) -> Result<String, ScriptError>
    ensures line { IfOk result (λ text. spec.IsImageLine (task_view task.now) (string_bytes text)) }
    ensures memory { IfErr result (λ e. e ≡ refused.OutOfMemory) }
{
    match &task.given {
        Given::Value(value) => written_line(alloc, &task.types, &task.ty, value),
        Given::Image(bytes) => read_line(alloc, &task.types, &task.ty, bytes),
    }
}

/// The line that shows the image of a value, or why there is none. Answers OutOfMemory alone.
fn written_line(
    alloc: Global,
    types: &ComponentTypes,
    ty: &InterfaceType,
    value: &Val,
) -> Result<String, ScriptError>
    requires { Knows types.now ty.now }
    ensures line { IfOk result (λ text. (answer : Result (Vec ℕ Global) ImageError)
        × IsImaged (shape_of types.now ty.now) value.now answer × (spec.written_line answer ≡ Some (string_bytes text))) }
    ensures memory { IfErr result (λ e. e ≡ refused.OutOfMemory) }
{
    match image(alloc, types, ty, value) {
        Ok(bytes) => bytes_line(alloc, &bytes),
        Err(error) => error_line(alloc, error),
    }
}

/// The line that shows the value of an image, or how the bytes are none. Answers OutOfMemory alone.
fn read_line(
    alloc: Global,
    types: &ComponentTypes,
    ty: &InterfaceType,
    bytes: &[u8],
) -> Result<String, ScriptError>
    requires { Knows types.now ty.now }
    ensures line { IfOk result (λ text. (answer : Result Val ImageError)
        × IsRead (shape_of types.now ty.now) bytes.now answer × (spec.read_line answer ≡ Some (string_bytes text))) }
    ensures memory { IfErr result (λ e. e ≡ refused.OutOfMemory) }
{
    match read_image(alloc, types, ty, bytes) {
        Ok(value) => value_line(alloc, &value),
        Err(error) => error_line(alloc, error),
    }
}

/// `image`, and these bytes in hex.
fn bytes_line(alloc: Global, bytes: &[u8]) -> Result<String, ScriptError>
    ensures line { IfOk result (λ text. string_bytes text ≡ codes "image " ++ encode_lower bytes.now ++ codes "\n") }
    ensures memory { IfErr result (λ e. e ≡ refused.OutOfMemory) }
{
    let digits = hex::encode(alloc, bytes)?;
    let mut text = String::new(alloc);
    text.push_str("image ")?;
    text.push_str(&digits)?;
    text.push_str("\n")?;
    Ok(text)
}

/// `ok`, and this value.
fn value_line(alloc: Global, value: &Val) -> Result<String, ScriptError>
    ensures line { IfOk result (λ text. string_bytes text ≡ codes "ok " ++ printed.value_text value.now ++ codes "\n") }
    ensures memory { IfErr result (λ e. e ≡ refused.OutOfMemory) }
{
    let printed = match value_text(alloc, value) {
        Ok(printed) => printed,
        Err(_) => return Err(ScriptError::OutOfMemory),
    };
    let mut text = String::new(alloc);
    text.push_str("ok ")?;
    text.push_str(&printed)?;
    text.push_str("\n")?;
    Ok(text)
}

/// `error`, and the name of this one with its place, or the text of its fault. For out of memory there is none.
fn error_line(alloc: Global, error: ImageError) -> Result<String, ScriptError>
    ensures line { IfOk result (λ text. spec.error_line error ≡ Some (string_bytes text)) }
    ensures memory { IfErr result (λ e. e ≡ refused.OutOfMemory) }
{
    let printed = image_error_text(alloc, error)?;
    let mut text = String::new(alloc);
    text.push_str("error ")?;
    text.push_str(&printed)?;
    text.push_str("\n")?;
    Ok(text)
}

fn image_error_text(alloc: Global, error: ImageError) -> Result<String, ScriptError>
    ensures text { IfOk result (λ text. spec.image_error_text error ≡ Some (string_bytes text)) }
    ensures memory { IfErr result (λ e. e ≡ refused.OutOfMemory) }
{
    match error {
        ImageError::Resource => Ok(String::from_str(alloc, "Resource")?),
        ImageError::NotOfType(fault) => fault_text(alloc, fault),
        ImageError::Truncated(place) => Ok(format!(in alloc; "Truncated {place}")?),
        ImageError::Malformed(place) => Ok(format!(in alloc; "Malformed {place}")?),
        ImageError::Trailing(place) => Ok(format!(in alloc; "Trailing {place}")?),
        ImageError::OutOfMemory => Err(ScriptError::OutOfMemory),
    }
}

fn fault_text(alloc: Global, fault: Fault) -> Result<String, ScriptError>
    ensures text { IfOk result (λ text. string_bytes text ≡ printed.fault_text fault) }
    ensures memory { IfErr result (λ e. e ≡ refused.OutOfMemory) }
{
    match error_text(alloc, &Error::Fault(fault)) {
        Ok(text) => Ok(text),
        Err(_) => Err(ScriptError::OutOfMemory),
    }
}
