//! Reads values from JSON.

ghost use Rattle.std.specs.Prelude.{◌≡◌, ◌^◌, ◌++◌, [], ◌∷◌, ℤ, Some, map, option_map, option_and_then, OnOk, IfErr, string_bytes};
ghost use Rattle.std.specs.Str.{chars};
ghost use Rattle.serde_json.specs.Find.{as_array, as_str};
ghost use Rattle.serde_json.specs.View.{view};
ghost use Rattle.canon_json.specs.Json.{ReadsAs, each_of};
ghost use Rattle.canon_json.specs.declared.error.ScriptError.TheVariants as refused;
ghost use Rattle.canon_model.specs.Shape.{Name};
ghost use Rattle.canon_literals.specs.Literals.{Literal, fields_view, literal_view, literals_view, numbered_resource, pair_view, pairs_view, payload_view, variant, with_payload};
ghost use Rattle.canon_script.specs.Numbers as numbers;
ghost use Rattle.canon_script.specs.Values as spec;

use crate::kinds::{ValueKind, value_kind_named};
use canon_json::{Reader, ScriptError, each_of, only_member, two, u32_of};
use canon_literals::is_plain;
use canon_resources::{ResourceAny, ResourceType};
use canon_types::OutOfMemory;
use canon_val::Val;
use serde_json::Value;
use std::alloc::Global;

/// A value in which no resource stands: an object of one member, which names its kind. `BadScript` says that it is none.
pub fn value_of_json(alloc: Global, v: &Value) -> Result<Val, ScriptError>
    ensures { ReadsAs literal_view result (spec.plain_value_of (view v.now)) }
{
    let value = value_of(alloc, v)?;
    refuse_resources(alloc, &value)?;
    Ok(value)
}

/// Refuses a value in which a resource stands.
fn refuse_resources(alloc: Global, value: &Val) -> Result<(), ScriptError>
    ensures { ReadsAs (λ _. literal_view value.now) result (spec.if_plain (literal_view value.now)) }
{
    match is_plain(alloc, value) {
        Ok(true) => Ok(()),
        Ok(false) => Err(ScriptError::BadScript),
        Err(OutOfMemory) => Err(ScriptError::OutOfMemory),
    }
}

/// A value: an object of one member, which names its kind.
#[cycle(values)]
fn value_of(alloc: Global, v: &Value) -> Result<Val, ScriptError>
    ensures { ReadsAs literal_view result (spec.value_of (view v.now)) }
{
    match kind_and_form(v) {
        Some((kind, form)) => value_by(alloc, kind, form),
        None => Err(ScriptError::BadScript),
    }
}

/// The kind that the only member names, and what a value of it is read from.
fn kind_and_form(v: &Value) -> Option<(ValueKind, &Value)>
    ensures { option_map (λ p. (p.0, view p.1.now)) result ≡ spec.kind_and_form (view v.now) }
{
    let (name, form) = only_member(v)?;
    let kind = value_kind_named(name)?;
    Some((kind, form))
}

/// A value of this kind.
#[cycle(values)]
fn value_by(alloc: Global, kind: ValueKind, form: &Value) -> Result<Val, ScriptError>
    ensures { ReadsAs literal_view result (spec.value_by (view form.now) kind) }
{
    match kind {
        ValueKind::String => name_of(alloc, form).map(Val::String),
        ValueKind::List => values_of(alloc, form).map(Val::List),
        ValueKind::Map => pairs_of(alloc, form).map(Val::Map),
        ValueKind::Record => record_of(alloc, form),
        ValueKind::Tuple => values_of(alloc, form).map(Val::Tuple),
        ValueKind::Variant => variant_of(alloc, form),
        ValueKind::Enum => name_of(alloc, form).map(Val::Enum),
        ValueKind::Option => optional_of(alloc, form).map(Val::Option),
        ValueKind::Result => result_of(alloc, form),
        ValueKind::Flags => names_of(alloc, form).map(Val::Flags),
        ValueKind::FixedLengthList => values_of(alloc, form).map(Val::FixedLengthList),
        _ => scalar_of(kind, form),
    }
}

/// An array of values.
#[cycle(values)]
fn values_of(alloc: Global, v: &Value) -> Result<Vec<Val>, ScriptError>
    ensures { ReadsAs (λ values. literals_view values.items) result (option_and_then spec.values_of (as_array (view v.now))) }
{
    let Some(items) = v.as_array() else {
        return Err(ScriptError::BadScript);
    };
    let mut values = Vec::new(alloc);
    for item in items {
        match value_of(alloc, item) {
            Ok(value) => keep(&mut values, value)?,
            Err(e) => return Err(e),
        }
    }
    Ok(values)
}

/// A record: an array of pairs, each a name and a value.
#[cycle(values)]
fn record_of(alloc: Global, v: &Value) -> Result<Val, ScriptError>
    ensures { ReadsAs literal_view result (spec.value_by (view v.now) ValueKind.Record) }
{
    let Some(items) = v.as_array() else {
        return Err(ScriptError::BadScript);
    };
    let mut fields = Vec::new(alloc);
    for item in items {
        let Some((name, form)) = two(item) else {
            return Err(ScriptError::BadScript);
        };
        let Some(name) = name.as_str() else {
            return Err(ScriptError::BadScript);
        };
        match value_of(alloc, form) {
            Ok(value) => keep_field(alloc, &mut fields, name, value)?,
            Err(e) => return Err(e),
        }
    }
    Ok(Val::Record(fields))
}

/// An array of pairs, each a key and a value.
#[cycle(values)]
fn pairs_of(alloc: Global, v: &Value) -> Result<Vec<(Val, Val)>, ScriptError>
    ensures { ReadsAs (λ pairs. pairs_view pairs.items) result (option_and_then spec.pairs_in (as_array (view v.now))) }
{
    let Some(items) = v.as_array() else {
        return Err(ScriptError::BadScript);
    };
    let mut pairs = Vec::new(alloc);
    for item in items {
        match pair_of(alloc, item) {
            Ok(pair) => keep(&mut pairs, pair)?,
            Err(e) => return Err(e),
        }
    }
    Ok(pairs)
}

/// A key and its value.
#[cycle(values)]
fn pair_of(alloc: Global, v: &Value) -> Result<(Val, Val), ScriptError>
    ensures { ReadsAs pair_view result (spec.pair_of (view v.now)) }
{
    let Some((key, value)) = two(v) else {
        return Err(ScriptError::BadScript);
    };
    let key = match value_of(alloc, key) {
        Ok(key) => key,
        Err(e) => return Err(e),
    };
    match value_of(alloc, value) {
        Ok(value) => Ok((key, value)),
        Err(e) => Err(e),
    }
}

/// A variant: the name of its case alone, or with a payload.
#[cycle(values)]
fn variant_of(alloc: Global, v: &Value) -> Result<Val, ScriptError>
    ensures { ReadsAs literal_view result (spec.value_by (view v.now) ValueKind.Variant) }
{
    let Some((name, form)) = case_of(v) else {
        return Err(ScriptError::BadScript);
    };
    match payload_of(alloc, form) {
        Ok(payload) => variant_named(alloc, name, payload),
        Err(e) => Err(e),
    }
}

/// A result: `ok` or `err` alone, or with a payload.
#[cycle(values)]
fn result_of(alloc: Global, v: &Value) -> Result<Val, ScriptError>
    ensures { ReadsAs literal_view result (spec.value_by (view v.now) ValueKind.Result) }
{
    let Some((name, form)) = case_of(v) else {
        return Err(ScriptError::BadScript);
    };
    match payload_of(alloc, form) {
        Ok(payload) => result_named(name, payload),
        Err(e) => Err(e),
    }
}

/// The payload of a case, if it has one.
#[cycle(values)]
fn payload_of(alloc: Global, v: Option<&Value>) -> Result<Option<Box<Val>>, ScriptError>
    ensures { ReadsAs payload_view result (spec.payload_by (option_map (λ x. view x.now) v.entry)) }
{
    match v {
        Some(v) => some_of(alloc, v),
        None => Ok(None),
    }
}

/// `null`, or a payload.
#[cycle(values)]
fn optional_of(alloc: Global, v: &Value) -> Result<Option<Box<Val>>, ScriptError>
    ensures { ReadsAs payload_view result (spec.optional_of (view v.now)) }
{
    if v.is_null() {
        return Ok(None);
    }
    some_of(alloc, v)
}

/// A payload.
#[cycle(values)]
fn some_of(alloc: Global, v: &Value) -> Result<Option<Box<Val>>, ScriptError>
    ensures { ReadsAs payload_view result (option_map with_payload (spec.value_of (view v.now))) }
{
    match value_of(alloc, v) {
        Ok(value) => boxed(alloc, value),
        Err(e) => Err(e),
    }
}

fn boxed(alloc: Global, value: Val) -> Result<Option<Box<Val>>, ScriptError>
    ensures { ReadsAs payload_view result (Some (with_payload (literal_view value))) }
{
    let value = Box::new(alloc, value)?;
    Ok(Some(value))
}

#[tactic(auto, using(crate::proofs::Cases::case_of_none))]
/// The name of a case, and what its payload is read from: an array of the name alone, or with a value.
fn case_of(v: &Value) -> Option<(&str, Option<&Value>)>
    ensures { option_map (λ c. (c.0.now, option_map (λ x. view x.now) c.1)) result ≡ spec.case_parts (view v.now) }
{
    match v.as_array()?.as_slice() {
        [name] => Some((name.as_str()?, None)),
        [name, form] => Some((name.as_str()?, Some(form))),
        _ => None,
    }
}

fn variant_named(alloc: Global, name: &str, payload: Option<Box<Val>>) -> Result<Val, ScriptError>
    ensures { ReadsAs literal_view result (Some (variant name.now (payload_view payload))) }
{
    let name = String::from_str(alloc, name)?;
    Ok(Val::Variant(name, payload))
}

fn result_named(name: &str, payload: Option<Box<Val>>) -> Result<Val, ScriptError>
    ensures { ReadsAs literal_view result (spec.result_by name.now (payload_view payload)) }
{
    if name == "ok" {
        Ok(Val::Result(Ok(payload)))
    } else if name == "err" {
        Ok(Val::Result(Err(payload)))
    } else {
        Err(ScriptError::BadScript)
    }
}

/// One item more.
pub(crate) fn keep<T: Drop>(row: &mut Vec<T>, item: T) -> Result<(), ScriptError>
    ensures ok { OnOk result (row.new.items ≡ row.old.items ++ item ∷ []) }
    ensures cause { IfErr result (λ e. e ≡ refused.OutOfMemory) }
{
    row.push(item)?;
    Ok(())
}

/// One field more.
fn keep_field(
    alloc: Global,
    fields: &mut Vec<(String, Val)>,
    name: &str,
    value: Val,
) -> Result<(), ScriptError>
    ensures ok { OnOk result (fields_view fields.new.items ≡ fields_view fields.old.items ++ (name.now, literal_view value) ∷ []) }
    ensures cause { IfErr result (λ e. e ≡ refused.OutOfMemory) }
{
    let name = String::from_str(alloc, name)?;
    keep(fields, (name, value))
}

/// A text, or a name.
fn name_of(alloc: Global, v: &Value) -> Result<String, ScriptError>
    ensures { ReadsAs (λ name. string_bytes name) result (as_str (view v.now)) }
{
    match v.as_str() {
        Some(name) => Ok(String::from_str(alloc, name)?),
        None => Err(ScriptError::BadScript),
    }
}

/// An array of names.
fn names_of(alloc: Global, v: &Value) -> Result<Vec<String>, ScriptError>
    ensures { ReadsAs (λ names. map (λ name. string_bytes name) names.items) result (each_of as_str (view v.now)) }
{
    each_of(alloc, &Names, Some(v))
}

/// Reads names.
struct Names;

impl Reader for Names {
    type Item = String;

    ghost Seen = { Name };

    ghost seen = { λ name. string_bytes name };

    ghost reads = { λ _. as_str };

    fn read(&self, alloc: Global, v: &Value) -> Result<String, ScriptError> {
        name_of(alloc, v)
    }
}

/// A scalar of this kind.
fn scalar_of(kind: ValueKind, v: &Value) -> Result<Val, ScriptError>
    ensures { ReadsAs literal_view result (spec.scalar_by kind (view v.now)) }
{
    match scalar_by(kind, v) {
        Some(value) => Ok(value),
        None => Err(ScriptError::BadScript),
    }
}

fn scalar_by(kind: ValueKind, v: &Value) -> Option<Val>
    ensures { option_map literal_view result ≡ spec.scalar_by kind (view v.now) }
{
    match kind {
        ValueKind::Bool => v.as_bool().map(Val::Bool),
        ValueKind::S8 => i8_of(v).map(Val::S8),
        ValueKind::U8 => u8_of(v).map(Val::U8),
        ValueKind::S16 => i16_of(v).map(Val::S16),
        ValueKind::U16 => u16_of(v).map(Val::U16),
        ValueKind::S32 => i32_of(v).map(Val::S32),
        ValueKind::U32 => u32_of(v).map(Val::U32),
        ValueKind::S64 => v.as_i64().map(Val::S64),
        ValueKind::U64 => v.as_u64().map(Val::U64),
        ValueKind::Float32 => u32_of(v).map(Val::Float32),
        ValueKind::Float64 => v.as_u64().map(Val::Float64),
        ValueKind::Char => char_of(v).map(Val::Char),
        ValueKind::Resource => u32_of(v).map(numbered).map(Val::Resource),
        ValueKind::String
        | ValueKind::List
        | ValueKind::Map
        | ValueKind::Record
        | ValueKind::Tuple
        | ValueKind::Variant
        | ValueKind::Enum
        | ValueKind::Option
        | ValueKind::Result
        | ValueKind::Flags
        | ValueKind::FixedLengthList => None,
    }
}

/// The resource of a number, as a script's values keep it: a borrow that the host made of the number.
fn numbered(n: u32) -> ResourceAny
    ensures { result ≡ numbered_resource n }
{
    ResourceAny::new_borrow(n, ResourceType::host_dynamic(0))
}

fn i8_of(v: &Value) -> Option<i8>
    ensures { result ≡ numbers.integer_within (2 ^ 7) (view v.now) }
{
    match v.as_i64() {
        Some(n) if -128 <= n && n < 128 => Some(n as i8),
        _ => None,
    }
}

fn i16_of(v: &Value) -> Option<i16>
    ensures { result ≡ numbers.integer_within (2 ^ 15) (view v.now) }
{
    match v.as_i64() {
        Some(n) if -32768 <= n && n < 32768 => Some(n as i16),
        _ => None,
    }
}

fn i32_of(v: &Value) -> Option<i32>
    ensures { result ≡ numbers.integer_within (2 ^ 31) (view v.now) }
{
    match v.as_i64() {
        Some(n) if -2147483648 <= n && n < 2147483648 => Some(n as i32),
        _ => None,
    }
}

fn u8_of(v: &Value) -> Option<u8>
    ensures { result ≡ numbers.number_below (2 ^ 8) (view v.now) }
{
    match v.as_u64() {
        Some(n) if n < 1 << 8 => Some(n as u8),
        _ => None,
    }
}

fn u16_of(v: &Value) -> Option<u16>
    ensures { result ≡ numbers.number_below (2 ^ 16) (view v.now) }
{
    match v.as_u64() {
        Some(n) if n < 1 << 16 => Some(n as u16),
        _ => None,
    }
}

/// The character of a string of one.
fn char_of(v: &Value) -> Option<char>
    ensures { result ≡ spec.char_of (view v.now) }
{
    only_char(v.as_str()?)
}

fn only_char(text: &str) -> Option<char>
    ensures { result ≡ spec.only_char (chars text.now) }
{
    let mut chars = text.chars();
    let first = chars.next()?;
    match chars.next() {
        Some(_) => None,
        None => Some(first),
    }
}

/// Reads values.
pub(crate) struct Values;

impl Reader for Values {
    type Item = Val;

    ghost Seen = { Literal };

    ghost seen = { literal_view };

    ghost reads = { λ _. spec.value_of };

    fn read(&self, alloc: Global, v: &Value) -> Result<Val, ScriptError> {
        value_of(alloc, v)
    }
}

/// Reads values in which no resource stands.
pub(crate) struct PlainValues;

impl Reader for PlainValues {
    type Item = Val;

    ghost Seen = { Literal };

    ghost seen = { literal_view };

    ghost reads = { λ _. spec.plain_value_of };

    fn read(&self, alloc: Global, v: &Value) -> Result<Val, ScriptError> {
        value_of_json(alloc, v)
    }
}
