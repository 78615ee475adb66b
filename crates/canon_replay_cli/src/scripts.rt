//! Scripts whose calls may be recorded.

ghost use Rattle.std.specs.Prelude.{◌≡◌, ◌↔◌, IfOk, IsTrue, Some, map};
ghost use Rattle.serde_json.specs.View.{items_view, view};
ghost use Rattle.canon_json.specs.declared.error.ScriptError.TheVariants as refused;
ghost use Rattle.canon_script.specs.Script.{Play, item_view};
ghost use Rattle.canon_replay_cli.specs.Scripts.{AreCallItems, IsCallItem, IsNoRecordable, IsScriptedBy, plain_script_of};
ghost use Rattle.canon_replay_cli.specs.Scripts as spec;

use crate::scripted::Scripted;
use canon_json::{ScriptError, items_of};
use canon_player::component_of;
use canon_recording::recordable;
use canon_script::{Item, Script, script_of_json};
use serde_json::Value;
use std::alloc::Global;

/// The script that a JSON value stands for, if no entry of its types is a handle, its items are calls and those of its component may be
/// recorded. `BadScript` says that it is none.
pub(crate) fn scripted_of_json(alloc: Global, v: &Value) -> Result<Scripted, ScriptError>
    ensures script { IfOk result (λ s. (play : Play) × (plain_script_of (view v.now) ≡ Some play) × IsScriptedBy play s) }
    ensures bad_script { result ≡ Err refused.BadScript → IsNoRecordable (plain_script_of (view v.now)) }
{
    if has_handle_entry(v) {
        return Err(ScriptError::BadScript);
    }
    let script = script_of_json(alloc, v)?;
    if !are_calls(&script.items) {
        return Err(ScriptError::BadScript);
    }
    let Script {
        fuel,
        turns,
        encoding,
        types,
        posts,
        imports,
        items,
        ..
    } = script;
    let Ok(component) = component_of(alloc, types, encoding, &posts, imports) else {
        return Err(ScriptError::OutOfMemory);
    };
    if !recordable(&component) {
        return Err(ScriptError::BadScript);
    }
    Ok(Scripted {
        component,
        items,
        fuel,
        turns,
    })
}

/// Whether an entry of a script's types is a handle.
fn has_handle_entry(v: &Value) -> bool
    ensures { result ≡ spec.has_handle_entry (view v.now) }
{
    match items_of(v.get("types")) {
        Some(entries) => any_handle_entry(entries),
        None => false,
    }
}

fn any_handle_entry(entries: &[Value]) -> bool
    ensures { result ≡ spec.any_handle_entry (items_view entries.now) }
{
    for entry in entries {
        if is_handle_entry(entry) {
            return true;
        }
    }
    false
}

fn is_handle_entry(entry: &Value) -> bool
    ensures { result ≡ spec.is_handle_entry (view entry.now) }
{
    entry.get("own").is_some() || entry.get("borrow").is_some()
}

/// Whether each item is a call with dynamic values.
fn are_calls(items: &[Item]) -> bool
    ensures { IsTrue result ↔ AreCallItems (map item_view items.now) }
{
    for item in items {
        if !is_call(item) {
            return false;
        }
    }
    true
}

fn is_call(item: &Item) -> bool
    ensures { IsTrue result ↔ IsCallItem (item_view item.now) }
{
    matches!(item, Item::Call(_))
}
