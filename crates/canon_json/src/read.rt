//! Reads parts of JSON values: members, items, numbers, and each item of an array.

ghost use Rattle.std.specs.Prelude.{◌≡◌, ◌≤◌, map, Option, Some, option_map, option_and_then};
ghost use Rattle.std.specs.Option.{option_map_or};
ghost use Rattle.serde_json.specs.Data.{Data};
ghost use Rattle.serde_json.specs.Find.{as_array, as_bool, as_object};
ghost use Rattle.serde_json.specs.View.{view, items_view};
ghost use Rattle.canon_json.specs.Json as spec;

use crate::ScriptError;
use serde_json::Value;
use std::alloc::Global;

#[tactic(auto, using(crate::proofs::JsonViews::members_len_view))]
/// Whether it is an object with that many members.
pub fn has_len(v: &Value, n: usize) -> bool
    ensures { result ≡ spec.has_len n (as_object (view v.now)) }
{
    match v.as_object() {
        Some(object) => object.len() == n,
        None => false,
    }
}

/// How many members a look-up found.
pub fn there(v: Option<&Value>) -> usize
    ensures count { result ≡ spec.there (option_map (λ x. view x.now) v.entry) }
    ensures few { result ≤ 1 }
{
    match v {
        Some(_) => 1,
        None => 0,
    }
}

/// The name and the value of the only member of an object.
pub fn only_member(v: &Value) -> Option<(&str, &Value)>
    ensures { option_map (λ p. (p.0.now, view p.1.now)) result ≡ option_and_then spec.only_member (as_object (view v.now)) }
{
    let object = v.as_object()?;
    if object.len() != 1 {
        return None;
    }
    let (name, value) = object.first_key_value()?;
    Some((name.as_str(), value))
}

/// A member that is true or false, or what it is where it is missing.
pub fn bool_or(v: Option<&Value>, default: bool) -> Option<bool>
    ensures { result ≡ option_map_or as_bool (option_map (λ x. view x.now) v.entry) (Some default) }
{
    match v {
        Some(v) => v.as_bool(),
        None => Some(default),
    }
}

#[tactic(auto, using(crate::proofs::JsonViews::only_of_none))]
/// The only item of an array.
pub fn only(v: Option<&Value>) -> Option<&Value>
    ensures { option_map (λ x. view x.now) result ≡ option_and_then spec.only (option_map (λ x. view x.now) v.entry) }
{
    match v?.as_array()?.as_slice() {
        [item] => Some(item),
        _ => None,
    }
}

#[tactic(auto, using(crate::proofs::JsonViews::two_of_none))]
/// The items of an array of two.
pub fn two(v: &Value) -> Option<(&Value, &Value)>
    ensures { option_map (λ p. (view p.0.now, view p.1.now)) result ≡ spec.two (view v.now) }
{
    match v.as_array()?.as_slice() {
        [first, second] => Some((first, second)),
        _ => None,
    }
}

/// The items of an array, of which a member that is missing has none.
pub fn items_of(v: Option<&Value>) -> Option<&[Value]>
    ensures { option_map (λ items. items_view items.now) result ≡ spec.items_of (option_map (λ x. view x.now) v.entry) }
{
    match v {
        Some(v) => Some(v.as_array()?.as_slice()),
        None => Some(&[]),
    }
}

/// A number below 2^32.
pub fn u32_of(v: &Value) -> Option<u32>
    ensures { result ≡ spec.u32_of (view v.now) }
{
    match v.as_u64() {
        Some(n) if n < 1 << 32 => Some(n as u32),
        _ => None,
    }
}

/// A way to read a JSON value.
pub trait Reader {
    /// What is read.
    type Item: Drop;

    // What contracts see of what is read.
    ghost Seen: { Type 0 };

    /// What contracts see of one.
    ghost seen: { Self.Item → Seen };

    /// What a JSON value is read as, or none.
    ghost reads: { Self → Data → Option Seen };

    /// What this value is read as, `BadScript` where there is none, or out of memory.
    fn read(&self, alloc: Global, v: &Value) -> Result<Self::Item, ScriptError>
        ensures { spec.ReadsAs seen result (reads self.now (view v.now)) };
}

/// Each item of an array.
pub fn each_of<R: Reader>(
    alloc: Global,
    reader: &R,
    v: Option<&Value>,
) -> Result<Vec<R::Item>, ScriptError>
    ensures { spec.ReadsAs (λ xs. map R.seen xs.items) result (option_and_then (spec.each_of (R.reads reader.now)) (option_map (λ x. view x.now) v.entry)) }
{
    let Some(v) = v else {
        return Err(ScriptError::BadScript);
    };
    let Some(items) = v.as_array() else {
        return Err(ScriptError::BadScript);
    };
    each(alloc, reader, items)
}

/// Each of these items.
pub fn each<R: Reader>(
    alloc: Global,
    reader: &R,
    items: &[Value],
) -> Result<Vec<R::Item>, ScriptError>
    ensures { spec.ReadsAs (λ xs. map R.seen xs.items) result (spec.each (R.reads reader.now) (items_view items.now)) }
{
    let mut found = Vec::new(alloc);
    for item in items {
        let x = reader.read(alloc, item)?;
        found.push(x)?;
    }
    Ok(found)
}
