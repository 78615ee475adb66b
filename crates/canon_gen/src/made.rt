//! The script that a number makes.

ghost use Rattle.std.specs.Prelude.{◌≡◌, ◌<◌, Some, IfOk};
ghost use Rattle.serde_json.specs.Read.{read};
ghost use Rattle.serde_json.specs.View.{view};
ghost use Rattle.canon_literals.specs.Literals.{literal_view};
ghost use Rattle.canon_script.specs.Script.{IsWellFormed, call_item_view, play_of};
ghost use Rattle.canon_gen.specs.Records.{list_drawn};
ghost use Rattle.canon_gen.specs.Made as spec;

use crate::records::draw_list;
use canon_json::ScriptError;
use canon_memory::{Bytes, ValRaw, Words};
use canon_script::{CallItem, Item, Script, script_of_json};
use canon_scripted::Action;
use canon_types::{OutOfMemory, StringEncoding};
use canon_value::Val;
use serde_json::Value;
use std::alloc::Global;

/// What the scripts of all numbers have in common: memory, the heap, fuel, and one function from a list of records to such a list.
const COMMON: &str =
    r#"{"memory":16777216,"heap":1024,"fuel":1000000000,"types":[{"list":"string"},{"option":"bool"},{"record":[["id","u32"],["name","string"],["tags",0],["on",1]]},{"list":2}],"funcs":[{"params":[3],"results":[3]}]}"#;

/// The script that a number makes.
pub(crate) fn script_made(alloc: Global, n: u32) -> Result<Script, OutOfMemory>
    ensures script { IfOk result (λ s. spec.script_made n ≡ Some (play_of s)) }
    ensures sound { IfOk result (λ s. IsWellFormed (play_of s)) }
{
    let mut script = common(alloc)?;
    let list = draw_list(alloc, n)?;
    let mut items = Vec::with_capacity(alloc, 1)?;
    items.push(Item::Call(call_made(alloc, n, list)?))?;
    script.items = items;
    script.encoding = encoding_made(n);
    Ok(script)
}

/// The script that has no call yet.
fn common(alloc: Global) -> Result<Script, OutOfMemory>
    ensures script { IfOk result (λ s. spec.common ≡ Some (play_of s)) }
    ensures sound { IfOk result (λ s. IsWellFormed (play_of s)) }
{
    let tree = common_tree(alloc)?;
    match script_of_json(alloc, &tree) {
        Ok(script) => Ok(script),
        Err(ScriptError::OutOfMemory) => Err(OutOfMemory),
        Err(ScriptError::BadScript) => unreachable!(),
    }
}

fn common_tree(alloc: Global) -> Result<Value, OutOfMemory>
    ensures { IfOk result (λ v. read spec.common_text ≡ Some (view v)) }
{
    match Value::from_str(alloc, COMMON) {
        Ok(tree) => Ok(tree),
        Err(error) => {
            if error.is_memory() {
                Err(OutOfMemory)
            } else {
                unreachable!()
            }
        }
    }
}

/// How texts are spelled.
pub(crate) fn encoding_made(n: u32) -> StringEncoding
    ensures { result ≡ spec.encoding_made n }
{
    match n % 3 {
        0 => StringEncoding::Utf8,
        1 => StringEncoding::Utf16,
        _ => StringEncoding::CompactUtf16,
    }
}

/// The call with the list that the number draws.
fn call_made(alloc: Global, n: u32, list: Val) -> Result<CallItem, OutOfMemory>
    requires { literal_view list ≡ list_drawn n }
    ensures { IfOk result (λ call. call_item_view call ≡ spec.call_made n) }
{
    let mut params = Vec::with_capacity(alloc, 1)?;
    params.push(list)?;
    Ok(CallItem {
        func: 0,
        params,
        guest: actions_made(alloc, n)?,
        slots: 1,
        reallocs: Vec::new(alloc),
        post_trap: false,
    })
}

/// Writes a pointer and a length, the list of `n` items at 1024, and returns their address.
fn actions_made(alloc: Global, n: u32) -> Result<Vec<Action>, OutOfMemory>
    ensures { IfOk result (λ actions. actions.items ≡ spec.actions_made n) }
{
    let mut bytes = Vec::with_capacity(alloc, 8)?;
    bytes.extend_from_slice(&1024u32.to_le_bytes())?;
    bytes.extend_from_slice(&n.to_le_bytes())?;
    let Ok(bytes) = Bytes::from_slice(alloc, &bytes) else {
        return Err(OutOfMemory);
    };
    let Ok(words) = Words::from_slice(alloc, &[ValRaw::u32(0)]) else {
        return Err(OutOfMemory);
    };
    let mut actions = Vec::with_capacity(alloc, 2)?;
    actions.push(Action::Write(0, bytes))?;
    actions.push(Action::Return(words))?;
    Ok(actions)
}
