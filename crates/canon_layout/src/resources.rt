//! Reads the resource types of a script, and adds them to a table of types.

ghost use Rattle.std.specs.Prelude.{◌≡◌, None, Some, option_map};
ghost use Rattle.std.specs.Option.{option_map_or};
ghost use Rattle.serde_json.specs.View.{view, items_view};
ghost use Rattle.canon_json.specs.Json.{ReadsAs, onward};
ghost use Rattle.canon_layout.specs.Asked as spec;
ghost use Rattle.canon_layout.specs.Entries as entry_spec;

use crate::entries::accepted;
use canon_json::{ScriptError, bool_or, has_len, there, u32_of};
use canon_types::{ResourceKind, RuntimeInstance, TypeBuilder, TypeResourceTable};
use serde_json::Value;

/// Adds these resources. After an error the table may hold the first of them.
pub fn add_resources(builder: &mut TypeBuilder, items: &[Value]) -> Result<(), ScriptError>
    ensures { ReadsAs (λ _. builder.new) result (onward spec.add_resource builder.old (items_view items.now)) }
{
    for item in items {
        add_resource(builder, item)?;
    }
    Ok(())
}

fn add_resource(builder: &mut TypeBuilder, v: &Value) -> Result<(), ScriptError>
    ensures { ReadsAs (λ _. builder.new) result (spec.add_resource builder.old (view v.now)) }
{
    let Some(resource) = resource_of(v) else {
        return Err(ScriptError::BadScript);
    };
    accepted(builder.add_resource_table(resource))?;
    Ok(())
}

fn resource_of(v: &Value) -> Option<TypeResourceTable>
    ensures { result ≡ entry_spec.resource_table_of (view v.now) }
{
    let kind = v.get("kind")?.as_str()?;
    if kind == "dynamic" {
        dynamic_resource_of(v)
    } else if kind == "guest" {
        guest_resource_of(v)
    } else {
        None
    }
}

/// The host's, by a number.
fn dynamic_resource_of(v: &Value) -> Option<TypeResourceTable>
    ensures { result ≡ entry_spec.dynamic_resource_of (view v.now) }
{
    if !has_len(v, 2) {
        return None;
    }
    let id = u32_of(v.get("id")?)?;
    Some(resource_with(ResourceKind::HostDynamic(id), false))
}

/// The guest's, defined here unless it says otherwise, with a destructor or none.
fn guest_resource_of(v: &Value) -> Option<TypeResourceTable>
    ensures { result ≡ entry_spec.guest_resource_of (view v.now) }
{
    if !has_len(v, 2 + (there(v.get("here")) + there(v.get("dtor")))) {
        return None;
    }
    let id = u32_of(v.get("id")?)?;
    let here = bool_or(v.get("here"), true)?;
    let dtor = dtor_of(v.get("dtor"))?;
    Some(resource_with(ResourceKind::Guest { id, dtor }, here))
}

#[tactic(auto, using(crate::proofs::Reading::dtor_of_null, crate::proofs::Reading::dtor_of_number))]
/// A number, or null or nothing for none.
fn dtor_of(v: Option<&Value>) -> Option<Option<u32>>
    ensures { result ≡ option_map_or entry_spec.optional_dtor (option_map (λ x. view x.now) v.entry) (Some None) }
{
    let Some(v) = v else {
        return Some(None);
    };
    if v.is_null() {
        return Some(None);
    }
    match u32_of(v) {
        Some(dtor) => Some(Some(dtor)),
        None => None,
    }
}

/// A resource of instance 0.
fn resource_with(kind: ResourceKind, defined_here: bool) -> TypeResourceTable
    ensures { result ≡ entry_spec.resource_with kind defined_here }
{
    TypeResourceTable {
        instance: RuntimeInstance::from_u32(0),
        kind,
        defined_here,
    }
}
