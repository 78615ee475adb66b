//! Builds a table of types from a script's resources, types and functions.

ghost use Rattle.std.specs.Prelude.{◌≡◌, All, IfOk};
ghost use Rattle.serde_json.specs.View.{view, items_view};
ghost use Rattle.canon_json.specs.Json.{ReadsAs};
ghost use Rattle.canon_types.specs.Table.{Knows};
ghost use Rattle.canon_layout.specs.Asked as spec;

use crate::entries::add_entries;
use crate::funcs::add_funcs;
use crate::resources::add_resources;
use canon_json::{ScriptError, has_len, items_of, there};
use canon_types::{ComponentTypes, InterfaceType, TypeBuilder};
use serde_json::Value;
use std::alloc::Global;

/// The table of an array of types, and the type of each entry. No resource is there.
pub fn types_of_json(
    alloc: Global,
    v: &Value,
) -> Result<(ComponentTypes, Vec<InterfaceType>), ScriptError>
    ensures table { ReadsAs (λ p. spec.listed_so_far p.0 p.1.items) result (spec.types_listed (view v.now)) }
    ensures known { IfOk result (λ p. All (Knows p.0) p.1.items) }
{
    let Some(items) = v.as_array() else {
        return Err(ScriptError::BadScript);
    };
    let mut builder = TypeBuilder::new(alloc);
    let types = add_entries(alloc, &mut builder, items)?;
    Ok((builder.finish(), types))
}

/// The table of an object's `resources`, `types` and `funcs`, and the type of each entry of `types`.
pub fn listing_of_json(
    alloc: Global,
    v: &Value,
) -> Result<(ComponentTypes, Vec<InterfaceType>), ScriptError>
    ensures table { ReadsAs (λ p. spec.listed_so_far p.0 p.1.items) result (spec.layout_of (view v.now)) }
    ensures known { IfOk result (λ p. All (Knows p.0) p.1.items) }
{
    if !has_len(v, members(v)) {
        return Err(ScriptError::BadScript);
    }
    let Some(resources) = items_of(v.get("resources")) else {
        return Err(ScriptError::BadScript);
    };
    let Some(types) = items_of(v.get("types")) else {
        return Err(ScriptError::BadScript);
    };
    let Some(funcs) = items_of(v.get("funcs")) else {
        return Err(ScriptError::BadScript);
    };
    listing_over(alloc, resources, types, funcs)
}

/// How many of its members there are.
fn members(v: &Value) -> usize
    ensures { result ≡ spec.layout_members (view v.now) }
{
    there(v.get("resources")) + (there(v.get("types")) + there(v.get("funcs")))
}

fn listing_over(
    alloc: Global,
    resources: &[Value],
    types: &[Value],
    funcs: &[Value],
) -> Result<(ComponentTypes, Vec<InterfaceType>), ScriptError>
    ensures table { ReadsAs (λ p. spec.listed_so_far p.0 p.1.items) result (spec.listing_over (items_view resources.now) (items_view types.now) (items_view funcs.now)) }
    ensures known { IfOk result (λ p. All (Knows p.0) p.1.items) }
{
    let mut builder = TypeBuilder::new(alloc);
    add_resources(&mut builder, resources)?;
    let types = add_entries(alloc, &mut builder, types)?;
    let _posts = add_funcs(alloc, &mut builder, &types, funcs)?;
    Ok((builder.finish(), types))
}
