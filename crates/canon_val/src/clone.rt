//! Copies of values.

ghost use Rattle.std.specs.Prelude.{◌≡◌, IfOk, map, string_bytes};
ghost use Rattle.canon_val.specs.Equal.{data_of, pair_data, payload_data};
ghost use Rattle.canon_val.specs.Value.{names_in, values_in};

use crate::Val;
use canon_abi::OutOfMemory;
use std::alloc::Global;

impl Val {
    /// A copy: the same value, to the bits of its floats.
    pub fn clone(&self, alloc: Global) -> Result<Val, OutOfMemory>
        ensures { IfOk result (λ v. data_of v ≡ data_of self.now) }
    {
        copy(self, alloc)
    }
}

#[cycle(copy)]
fn copy(value: &Val, alloc: Global) -> Result<Val, OutOfMemory>
    ensures { IfOk result (λ v. data_of v ≡ data_of value.now) }
{
    match value {
        Val::Bool(v) => Ok(Val::Bool(*v)),
        Val::S8(v) => Ok(Val::S8(*v)),
        Val::U8(v) => Ok(Val::U8(*v)),
        Val::S16(v) => Ok(Val::S16(*v)),
        Val::U16(v) => Ok(Val::U16(*v)),
        Val::S32(v) => Ok(Val::S32(*v)),
        Val::U32(v) => Ok(Val::U32(*v)),
        Val::S64(v) => Ok(Val::S64(*v)),
        Val::U64(v) => Ok(Val::U64(*v)),
        Val::Float32(bits) => Ok(Val::Float32(*bits)),
        Val::Float64(bits) => Ok(Val::Float64(*bits)),
        Val::Char(v) => Ok(Val::Char(*v)),
        Val::String(text) => Ok(Val::String(copy_text(text, alloc)?)),
        Val::List(members) => Ok(Val::List(copy_row(members, alloc)?)),
        Val::Map(pairs) => Ok(Val::Map(copy_pairs(pairs, alloc)?)),
        Val::Record(fields) => Ok(Val::Record(copy_fields(fields, alloc)?)),
        Val::Tuple(members) => Ok(Val::Tuple(copy_row(members, alloc)?)),
        Val::Variant(name, payload) => {
            let payload = copy_payload(payload, alloc)?;
            Ok(Val::Variant(copy_text(name, alloc)?, payload))
        }
        Val::Enum(name) => Ok(Val::Enum(copy_text(name, alloc)?)),
        Val::Option(payload) => Ok(Val::Option(copy_payload(payload, alloc)?)),
        Val::Result(result) => match result {
            Ok(payload) => Ok(Val::Result(Ok(copy_payload(payload, alloc)?))),
            Err(payload) => Ok(Val::Result(Err(copy_payload(payload, alloc)?))),
        },
        Val::Flags(names) => Ok(Val::Flags(copy_names(names, alloc)?)),
        Val::Resource(resource) => Ok(Val::Resource(*resource)),
        Val::FixedLengthList(members) => Ok(Val::FixedLengthList(copy_row(members, alloc)?)),
    }
}

fn copy_text(text: &String, alloc: Global) -> Result<String, OutOfMemory>
    ensures { IfOk result (λ s. string_bytes s ≡ string_bytes text.now) }
{
    Ok(String::from_str(alloc, text.as_str())?)
}

fn copy_names(names: &[String], alloc: Global) -> Result<Vec<String>, OutOfMemory>
    ensures { IfOk result (λ copies. map string_bytes copies.items ≡ map string_bytes names.now) }
{
    let mut copies = Vec::with_capacity(alloc, names.len())?;
    for name in names {
        copies.push(copy_text(name, alloc)?)?;
    }
    Ok(copies)
}

#[cycle(copy)]
fn copy_row(values: &[Val], alloc: Global) -> Result<Vec<Val>, OutOfMemory>
    ensures { IfOk result (λ copies. map data_of copies.items ≡ map data_of values.now) }
{
    let mut copies = Vec::with_capacity(alloc, values.len())?;
    for value in values {
        copies.push(copy(value, alloc)?)?;
    }
    Ok(copies)
}

/// Keys and values.
#[cycle(copy)]
fn copy_pairs(pairs: &[(Val, Val)], alloc: Global) -> Result<Vec<(Val, Val)>, OutOfMemory>
    ensures { IfOk result (λ copies. map pair_data copies.items ≡ map pair_data pairs.now) }
{
    let mut copies = Vec::with_capacity(alloc, pairs.len())?;
    for pair in pairs {
        let key = copy(&pair.0, alloc)?;
        let value = copy(&pair.1, alloc)?;
        copies.push((key, value))?;
    }
    Ok(copies)
}

/// Names and values.
#[cycle(copy)]
fn copy_fields(fields: &[(String, Val)], alloc: Global) -> Result<Vec<(String, Val)>, OutOfMemory>
    ensures names { IfOk result (λ copies. names_in copies.items ≡ names_in fields.now) }
    ensures values { IfOk result (λ copies. map data_of (values_in copies.items) ≡ map data_of (values_in fields.now)) }
{
    let mut copies = Vec::with_capacity(alloc, fields.len())?;
    for field in fields {
        let name = copy_text(&field.0, alloc)?;
        let value = copy(&field.1, alloc)?;
        copies.push((name, value))?;
    }
    Ok(copies)
}

#[cycle(copy)]
fn copy_payload(payload: &Option<Box<Val>>, alloc: Global) -> Result<Option<Box<Val>>, OutOfMemory>
    ensures { IfOk result (λ copy. payload_data copy ≡ payload_data payload.now) }
{
    match payload {
        Some(value) => Ok(Some(Box::new(alloc, copy(value, alloc)?)?)),
        None => Ok(None),
    }
}
