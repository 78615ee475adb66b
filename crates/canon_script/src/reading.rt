//! Reads a whole script and its settings from JSON.

ghost use Rattle.std.specs.Prelude.{◌≡◌, ◌≤◌, IfOk, map, option_map};
ghost use Rattle.serde_json.specs.View.{view, items_view};
ghost use Rattle.canon_json.specs.Json.{ReadsAs};
ghost use Rattle.canon_script.specs.Script as spec;
ghost use Rattle.canon_script.specs.Types.{declared_view};

use crate::fields::{number_or, word_or};
use crate::imports::Imports;
use crate::items::Items;
use crate::limits::{MAX_MEMORY, fits};
use crate::script::{Item, Script, Settings};
use crate::types::{Declarations, declarations_of_json};
use canon_json::{ScriptError, each, has_len, items_of, there};
use canon_types::StringEncoding;
use serde_json::Value;
use std::alloc::Global;

/// The most live handles that a script may allow, and how many it allows where it doesn't say.
const MAX_HANDLES: u64 = 1_000_000;

/// The most asks of imports that a script may have served in a call.
const MAX_TURNS: u64 = 1_000_000;

/// The script that a JSON value stands for. `BadScript` says that there is none.
pub fn script_of_json(alloc: Global, v: &Value) -> Result<Script, ScriptError>
    ensures script { ReadsAs spec.play_of result (spec.script_of (view v.now)) }
    ensures sound { IfOk result (λ s. spec.IsWellFormed (spec.play_of s)) }
{
    if !has_len(v, script_members(v)) {
        return Err(ScriptError::BadScript);
    }
    let Some(settings) = settings_of(v) else {
        return Err(ScriptError::BadScript);
    };
    let Some(resources) = items_of(v.get("resources")) else {
        return Err(ScriptError::BadScript);
    };
    let Some(types) = items_of(v.get("types")) else {
        return Err(ScriptError::BadScript);
    };
    let Some(funcs) = items_of(v.get("funcs")) else {
        return Err(ScriptError::BadScript);
    };
    let Some(imports) = items_of(v.get("imports")) else {
        return Err(ScriptError::BadScript);
    };
    let Some(items) = items_of(v.get("items")) else {
        return Err(ScriptError::BadScript);
    };
    played(alloc, settings, resources, types, funcs, imports, items)
}

/// How many of its members there are.
fn script_members(v: &Value) -> usize
    ensures { result ≡ spec.script_members (view v.now) }
{
    settings_members(v)
        + (there(v.get("resources"))
            + (there(v.get("types"))
                + (there(v.get("funcs")) + (there(v.get("imports")) + there(v.get("items"))))))
}

/// How many of the members are there that are no arrays.
fn settings_members(v: &Value) -> usize
    ensures count { result ≡ spec.settings_members (view v.now) }
    ensures few { result ≤ 6 }
{
    there(v.get("memory"))
        + (there(v.get("heap"))
            + (there(v.get("fuel"))
                + (there(v.get("handles")) + (there(v.get("turns")) + there(v.get("encoding"))))))
}

/// What a script says in numbers, and how texts are spelled.
fn settings_of(v: &Value) -> Option<Settings>
    ensures { result ≡ spec.settings_of (view v.now) }
{
    let memory = number_or(v.get("memory"), MAX_MEMORY, 65536)?;
    let heap = heap_of(memory, v.get("heap"))?;
    let fuel = word_or(v.get("fuel"), 1_000_000)?;
    let handles = number_or(v.get("handles"), MAX_HANDLES, MAX_HANDLES)?;
    let turns = number_or(v.get("turns"), MAX_TURNS, 100)?;
    let encoding = encoding_of(v.get("encoding"))?;
    Some(Settings {
        memory,
        heap,
        fuel,
        handles,
        turns,
        encoding,
    })
}

fn heap_of(memory: u64, v: Option<&Value>) -> Option<u64>
    ensures { result ≡ spec.heap_setting memory (option_map (λ x. view x.now) v.entry) }
{
    let heap = word_or(v, 1024)?;
    if heap <= memory { Some(heap) } else { None }
}

fn encoding_of(v: Option<&Value>) -> Option<StringEncoding>
    ensures { result ≡ spec.encoding_setting (option_map (λ x. view x.now) v.entry) }
{
    let Some(v) = v else {
        return Some(StringEncoding::Utf8);
    };
    encoding_named(v.as_str()?)
}

fn encoding_named(name: &str) -> Option<StringEncoding>
    ensures { result ≡ spec.encoding_named name.now }
{
    if name == "utf8" {
        Some(StringEncoding::Utf8)
    } else if name == "utf16" {
        Some(StringEncoding::Utf16)
    } else if name == "compact" {
        Some(StringEncoding::CompactUtf16)
    } else {
        None
    }
}

/// What is declared, and the items over it.
fn played(
    alloc: Global,
    settings: Settings,
    resources: &[Value],
    types: &[Value],
    funcs: &[Value],
    imports: &[Value],
    items: &[Value],
) -> Result<Script, ScriptError>
    ensures { ReadsAs spec.play_of result (spec.played settings (items_view resources.now) (items_view types.now) (items_view funcs.now) (items_view imports.now) (items_view items.now)) }
{
    let declared = declarations_of_json(alloc, resources, types, funcs, imports)?;
    played_over(alloc, settings, declared, items)
}

/// The items over what was declared.
fn played_over(
    alloc: Global,
    settings: Settings,
    declared: Declarations,
    items: &[Value],
) -> Result<Script, ScriptError>
    ensures { ReadsAs spec.play_of result (spec.played_over settings (items_view items.now) (declared_view declared)) }
{
    let reader = Items {
        types: &declared.types,
        funcs: declared.posts.len(),
    };
    let items = each(alloc, &reader, items)?;
    if !fits(settings.memory, &items) {
        return Err(ScriptError::BadScript);
    }
    Ok(script_with(settings, declared, items))
}

fn script_with(settings: Settings, declared: Declarations, items: Vec<Item>) -> Script
    ensures { spec.play_of result ≡ spec.play_with settings (declared_view declared) (map spec.item_view items.items) }
{
    let Settings {
        memory,
        heap,
        fuel,
        handles,
        turns,
        encoding,
    } = settings;
    let Declarations {
        types,
        posts,
        imports,
    } = declared;
    let Imports { imports, answers } = imports;
    Script {
        memory,
        heap,
        fuel,
        handles,
        turns,
        encoding,
        types,
        posts,
        imports,
        answers,
        items,
    }
}
