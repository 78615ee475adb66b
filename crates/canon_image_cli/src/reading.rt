//! Reads from a JSON value what the program `canon_image` is asked.

ghost use Rattle.std.specs.Prelude.{◌≡◌, option_map};
ghost use Rattle.serde_json.specs.View.{view};
ghost use Rattle.canon_json.specs.Json.{ReadsAs};
ghost use Rattle.canon_image_cli.specs.Task as spec;

use crate::task::{Given, ImageTask};
use canon_json::{ScriptError, bytes_of_json, has_len};
use canon_layout::{type_of_json, types_of_json};
use canon_script::value_of_json;
use serde_json::Value;
use std::alloc::Global;

/// What a JSON value asks: an object of `types`, `type`, and one of `value` and `hex`. `BadScript` says that it asks nothing.
pub fn image_task_of_json(alloc: Global, v: &Value) -> Result<ImageTask, ScriptError>
    ensures { ReadsAs spec.task_view result (spec.image_task_of (view v.now)) }
{
    if !has_len(v, 3) {
        return Err(ScriptError::BadScript);
    }
    let Some(entries) = v.get("types") else {
        return Err(ScriptError::BadScript);
    };
    let Some(reference) = v.get("type") else {
        return Err(ScriptError::BadScript);
    };
    let (types, entries) = types_of_json(alloc, entries)?;
    let ty = type_of_json(reference, &entries)?;
    let given = given_of(alloc, v.get("value"), v.get("hex"))?;
    Ok(ImageTask { types, ty, given })
}

/// A value or hex, of which one is there.
fn given_of(alloc: Global, value: Option<&Value>, hex: Option<&Value>) -> Result<Given, ScriptError>
    ensures { ReadsAs spec.given_view result (spec.given_of (option_map (λ x. view x.now) value.entry) (option_map (λ x. view x.now) hex.entry)) }
{
    match (value, hex) {
        (Some(value), None) => Ok(Given::Value(value_of_json(alloc, value)?)),
        (None, Some(hex)) => Ok(Given::Image(bytes_of_json(alloc, hex)?)),
        _ => Err(ScriptError::BadScript),
    }
}
