//! Reads what a guest does from JSON.

ghost use Rattle.std.specs.Prelude.{◌≡◌, option_map, option_and_then};
ghost use Rattle.serde_json.specs.Find.{as_bool};
ghost use Rattle.serde_json.specs.View.{view};
ghost use Rattle.canon_json.specs.Hex as hex_spec;
ghost use Rattle.canon_json.specs.Json.{ReadsAs, each_of, word_of};
ghost use Rattle.canon_layout.specs.Entries.{array_of_two};
ghost use Rattle.canon_memory.specs.declared.val_raw.ValRaw.{ValRaw};
ghost use Rattle.canon_scripted.specs.declared.actions.Action.{Action};
ghost use Rattle.canon_scripted.specs.declared.orders.Ordered.{Ordered};
ghost use Rattle.canon_script.specs.Actions as spec;

use crate::fields::u32_in;
use canon_json::{Reader, ScriptError, bytes_of_json, each_of, has_len, only_member, two, u32_of};
use canon_memory::{Bytes, ValRaw, Words};
use canon_scripted::{Action, Ordered};
use serde_json::Value;
use std::alloc::Global;

/// What a guest does: an array of actions. `BadScript` says that it is none.
pub fn actions_of_json(alloc: Global, v: &Value) -> Result<Vec<Action>, ScriptError>
    ensures { ReadsAs (λ actions. actions.items) result (each_of spec.action_of (view v.now)) }
{
    each_of(alloc, &Actions, Some(v))
}

/// Reads actions.
pub(crate) struct Actions;

impl Reader for Actions {
    type Item = Action;

    ghost Seen = { Action };

    ghost seen = { λ a. a };

    ghost reads = { λ _. spec.action_of };

    fn read(&self, alloc: Global, v: &Value) -> Result<Action, ScriptError> {
        action_of(alloc, v)
    }
}

fn action_of(alloc: Global, v: &Value) -> Result<Action, ScriptError>
    ensures { ReadsAs (λ a. a) result (spec.action_of (view v.now)) }
{
    if has_len(v, 2) {
        return ask_of(alloc, v);
    }
    let Some((name, form)) = only_member(v) else {
        return Err(ScriptError::BadScript);
    };
    action_by(alloc, name, form)
}

/// An action of one member, by its name.
fn action_by(alloc: Global, name: &str, form: &Value) -> Result<Action, ScriptError>
    ensures { ReadsAs (λ a. a) result (spec.action_by name.now (view form.now)) }
{
    if name == "write" {
        write_of(alloc, form)
    } else if name == "grow" {
        grow_of(form)
    } else if name == "return" {
        return_of(alloc, form)
    } else if name == "trap" {
        trap_of(form)
    } else {
        Err(ScriptError::BadScript)
    }
}

/// A write: an address and hex.
fn write_of(alloc: Global, v: &Value) -> Result<Action, ScriptError>
    ensures { ReadsAs (λ a. a) result (option_map (λ p. Action.Write p.0 p.1) (array_of_two word_of hex_spec.bytes_of (view v.now))) }
{
    let Some((address, hex)) = two(v) else {
        return Err(ScriptError::BadScript);
    };
    let Some(address) = address.as_u64() else {
        return Err(ScriptError::BadScript);
    };
    let bytes = bytes_of(alloc, hex)?;
    Ok(Action::Write(address, bytes))
}

fn bytes_of(alloc: Global, v: &Value) -> Result<Bytes, ScriptError>
    ensures { ReadsAs (λ bytes. bytes) result (hex_spec.bytes_of (view v.now)) }
{
    let bytes = bytes_of_json(alloc, v)?;
    match Bytes::from_slice(alloc, &bytes) {
        Ok(bytes) => Ok(bytes),
        Err(_) => Err(ScriptError::OutOfMemory),
    }
}

fn grow_of(v: &Value) -> Result<Action, ScriptError>
    ensures { ReadsAs (λ a. a) result (option_map Action.Grow (word_of (view v.now))) }
{
    match v.as_u64() {
        Some(by) => Ok(Action::Grow(by)),
        None => Err(ScriptError::BadScript),
    }
}

fn return_of(alloc: Global, v: &Value) -> Result<Action, ScriptError>
    ensures { ReadsAs (λ a. a) result (option_map Action.Return (spec.words_in (view v.now))) }
{
    let words = words_of(alloc, Some(v))?;
    Ok(Action::Return(words))
}

fn trap_of(v: &Value) -> Result<Action, ScriptError>
    ensures { ReadsAs (λ a. a) result (spec.trap_of (as_bool (view v.now))) }
{
    match v.as_bool() {
        Some(true) => Ok(Action::Trap),
        _ => Err(ScriptError::BadScript),
    }
}

/// An ask: the number of an import and words.
fn ask_of(alloc: Global, v: &Value) -> Result<Action, ScriptError>
    ensures { ReadsAs (λ a. a) result (spec.ask_of (view v.now)) }
{
    let Some(import) = u32_in(v.get("ask")) else {
        return Err(ScriptError::BadScript);
    };
    let words = words_of(alloc, v.get("words"))?;
    Ok(Action::Ask(import, words))
}

fn words_of(alloc: Global, v: Option<&Value>) -> Result<Words, ScriptError>
    ensures { ReadsAs (λ words. words) result (option_and_then spec.words_in (option_map (λ x. view x.now) v.entry)) }
{
    let words = each_of(alloc, &RawWords, v)?;
    match Words::from_slice(alloc, &words) {
        Ok(words) => Ok(words),
        Err(_) => Err(ScriptError::OutOfMemory),
    }
}

/// Reads words.
struct RawWords;

impl Reader for RawWords {
    type Item = ValRaw;

    ghost Seen = { ValRaw };

    ghost seen = { λ w. w };

    ghost reads = { λ _. word_of };

    fn read(&self, _: Global, v: &Value) -> Result<ValRaw, ScriptError> {
        match v.as_u64() {
            Some(word) => Ok(ValRaw::u64(word)),
            None => Err(ScriptError::BadScript),
        }
    }
}

/// Reads how calls of `realloc` are answered.
pub(crate) struct Orders;

impl Reader for Orders {
    type Item = Ordered;

    ghost Seen = { Ordered };

    ghost seen = { λ o. o };

    ghost reads = { λ _. spec.ordered_of };

    fn read(&self, _: Global, v: &Value) -> Result<Ordered, ScriptError> {
        match ordered_of(v) {
            Some(ordered) => Ok(ordered),
            None => Err(ScriptError::BadScript),
        }
    }
}

fn ordered_of(v: &Value) -> Option<Ordered>
    ensures { result ≡ spec.ordered_of (view v.now) }
{
    match v {
        Value::Null => Some(Ordered::Free),
        Value::String(word) if word.as_str() == "trap" => Some(Ordered::Trap),
        Value::Number(_) => Some(Ordered::Answer(u64::from(u32_of(v)?))),
        _ => None,
    }
}
