//! The resources in values. Those of a script are numbers; the values that are passed have the resources of a list in their place.

ghost use Rattle.std.specs.Prelude.{◌≡◌, ◌++◌, ◌∷◌, [], IfOk, OnOk, length, map, nat_eq, string_bytes};
ghost use Rattle.canon_literals.specs.Literals.{all_known, held_among, held_in, is_known, listed_resource, literal_view, literals_view, resource_number, pairs_view, payload_replaced, payload_view, replaced};
ghost use Rattle.canon_literals.specs.Resources.{field_replaced, field_view, pair_replaced, pair_resources, payload_resources};
ghost use Rattle.canon_value_parts.specs.Resources.{all_resources, resources};
ghost use Rattle.canon_val.specs.Value.{values_in};

use canon_resources::ResourceAny;
use canon_types::OutOfMemory;
use canon_val::Val;
use std::alloc::Global;

/// The resources in values, depth first.
pub fn resources_in(alloc: Global, values: &[Val]) -> Result<Vec<ResourceAny>, OutOfMemory>
    ensures resources { IfOk result (λ found. found.items ≡ all_resources values.now) }
    ensures literals { IfOk result (λ found. found.items ≡ held_among (literals_view values.now)) }
{
    let mut found = Vec::new(alloc);
    collect_row(values, &mut found)?;
    Ok(found)
}

/// Whether no resource stands in a value.
pub fn is_plain(alloc: Global, value: &Val) -> Result<bool, OutOfMemory>
    ensures { IfOk result (λ plain. plain ≡ nat_eq (length (held_in (literal_view value.now))) 0) }
{
    let mut found = Vec::new(alloc);
    collect(value, &mut found)?;
    Ok(found.is_empty())
}

/// Whether the resources in a script's values have numbers below this one.
pub fn are_known(alloc: Global, values: &[Val], count: usize) -> Result<bool, OutOfMemory>
    ensures { IfOk result (λ known. known ≡ all_known count (held_among (literals_view values.now))) }
{
    let found = resources_in(alloc, values)?;
    Ok(are_below(&found, count))
}

fn are_below(found: &[ResourceAny], count: usize) -> bool
    ensures { result ≡ all_known count found.now }
{
    for x in found {
        if !is_below(x, count) {
            return false;
        }
    }
    true
}

fn is_below(x: &ResourceAny, count: usize) -> bool
    ensures { result ≡ is_known count x.now }
{
    (number_of(x) as usize) < count
}

/// The number of a resource in a script.
fn number_of(x: &ResourceAny) -> u32
    ensures { result ≡ resource_number x.now }
{
    x.synthetic_rep().unwrap_or(0)
}

/// Adds the resources in a value to those that were found.
#[cycle(collect)]
fn collect(value: &Val, found: &mut Vec<ResourceAny>) -> Result<(), OutOfMemory>
    ensures { OnOk result (found.new.items ≡ found.old.items ++ resources value.now) }
{
    match value {
        Val::Bool(_) => Ok(()),
        Val::S8(_) => Ok(()),
        Val::U8(_) => Ok(()),
        Val::S16(_) => Ok(()),
        Val::U16(_) => Ok(()),
        Val::S32(_) => Ok(()),
        Val::U32(_) => Ok(()),
        Val::S64(_) => Ok(()),
        Val::U64(_) => Ok(()),
        Val::Float32(_) => Ok(()),
        Val::Float64(_) => Ok(()),
        Val::Char(_) => Ok(()),
        Val::String(_) => Ok(()),
        Val::List(members) => collect_row(members, found),
        Val::Map(pairs) => collect_pairs(pairs, found),
        Val::Record(fields) => collect_fields(fields, found),
        Val::Tuple(members) => collect_row(members, found),
        Val::Variant(_, payload) => collect_payload(payload, found),
        Val::Enum(_) => Ok(()),
        Val::Option(payload) => collect_payload(payload, found),
        Val::Result(result) => match result {
            Ok(payload) => collect_payload(payload, found),
            Err(payload) => collect_payload(payload, found),
        },
        Val::Flags(_) => Ok(()),
        Val::Resource(resource) => keep(found, *resource),
        Val::FixedLengthList(members) => collect_row(members, found),
    }
}

/// One resource more.
fn keep(found: &mut Vec<ResourceAny>, resource: ResourceAny) -> Result<(), OutOfMemory>
    ensures { OnOk result (found.new.items ≡ found.old.items ++ resource ∷ []) }
{
    found.push(resource)?;
    Ok(())
}

#[cycle(collect)]
fn collect_row(values: &[Val], found: &mut Vec<ResourceAny>) -> Result<(), OutOfMemory>
    ensures { OnOk result (found.new.items ≡ found.old.items ++ all_resources values.now) }
{
    for value in values {
        collect(value, found)?;
    }
    Ok(())
}

/// Of keys and values.
#[cycle(collect)]
fn collect_pairs(pairs: &[(Val, Val)], found: &mut Vec<ResourceAny>) -> Result<(), OutOfMemory>
    ensures { OnOk result (found.new.items ≡ found.old.items ++ pair_resources pairs.now) }
{
    for pair in pairs {
        collect(&pair.0, found)?;
        collect(&pair.1, found)?;
    }
    Ok(())
}

/// Of the values of fields.
#[cycle(collect)]
fn collect_fields(fields: &[(String, Val)], found: &mut Vec<ResourceAny>) -> Result<(), OutOfMemory>
    ensures { OnOk result (found.new.items ≡ found.old.items ++ all_resources (values_in fields.now)) }
{
    for field in fields {
        collect(&field.1, found)?;
    }
    Ok(())
}

#[cycle(collect)]
fn collect_payload(
    payload: &Option<Box<Val>>,
    found: &mut Vec<ResourceAny>,
) -> Result<(), OutOfMemory>
    ensures { OnOk result (found.new.items ≡ found.old.items ++ payload_resources payload.now) }
{
    match payload {
        Some(value) => collect(value, found),
        None => Ok(()),
    }
}

/// Copies of a script's values, with the resource of a list in the place of each number.
pub fn with_resources(
    alloc: Global,
    values: &[Val],
    list: &[ResourceAny],
) -> Result<Vec<Val>, OutOfMemory>
    ensures { IfOk result (λ vs. literals_view vs.items ≡ map (replaced (listed_resource list.now)) (literals_view values.now)) }
{
    fill_row(alloc, values, list)
}

/// Copies of a script's values.
pub fn copies_of(alloc: Global, values: &[Val]) -> Result<Vec<Val>, OutOfMemory>
    ensures { IfOk result (λ vs. literals_view vs.items ≡ literals_view values.now) }
{
    with_resources(alloc, values, &[])
}

/// The resource of a number in a list; where there is none, what stood for it.
fn listed(list: &[ResourceAny], x: &ResourceAny) -> ResourceAny
    ensures { result ≡ listed_resource list.now x.now }
{
    match list.get(number_of(x) as usize) {
        Some(resource) => *resource,
        None => *x,
    }
}

#[cycle(fill)]
fn fill(alloc: Global, value: &Val, list: &[ResourceAny]) -> Result<Val, OutOfMemory>
    ensures { IfOk result (λ v. literal_view v ≡ replaced (listed_resource list.now) (literal_view value.now)) }
{
    match value {
        Val::Bool(v) => Ok(Val::Bool(*v)),
        Val::S8(v) => Ok(Val::S8(*v)),
        Val::U8(v) => Ok(Val::U8(*v)),
        Val::S16(v) => Ok(Val::S16(*v)),
        Val::U16(v) => Ok(Val::U16(*v)),
        Val::S32(v) => Ok(Val::S32(*v)),
        Val::U32(v) => Ok(Val::U32(*v)),
        Val::S64(v) => Ok(Val::S64(*v)),
        Val::U64(v) => Ok(Val::U64(*v)),
        Val::Float32(bits) => Ok(Val::Float32(*bits)),
        Val::Float64(bits) => Ok(Val::Float64(*bits)),
        Val::Char(v) => Ok(Val::Char(*v)),
        Val::String(text) => Ok(Val::String(copy_text(alloc, text)?)),
        Val::List(members) => Ok(Val::List(fill_row(alloc, members, list)?)),
        Val::Map(pairs) => Ok(Val::Map(fill_pairs(alloc, pairs, list)?)),
        Val::Record(fields) => Ok(Val::Record(fill_fields(alloc, fields, list)?)),
        Val::Tuple(members) => Ok(Val::Tuple(fill_row(alloc, members, list)?)),
        Val::Variant(name, payload) => {
            let payload = fill_payload(alloc, payload, list)?;
            Ok(Val::Variant(copy_text(alloc, name)?, payload))
        }
        Val::Enum(name) => Ok(Val::Enum(copy_text(alloc, name)?)),
        Val::Option(payload) => Ok(Val::Option(fill_payload(alloc, payload, list)?)),
        Val::Result(result) => match result {
            Ok(payload) => Ok(Val::Result(Ok(fill_payload(alloc, payload, list)?))),
            Err(payload) => Ok(Val::Result(Err(fill_payload(alloc, payload, list)?))),
        },
        Val::Flags(names) => Ok(Val::Flags(copy_names(alloc, names)?)),
        Val::Resource(resource) => Ok(Val::Resource(listed(list, resource))),
        Val::FixedLengthList(members) => Ok(Val::FixedLengthList(fill_row(alloc, members, list)?)),
    }
}

fn copy_text(alloc: Global, text: &String) -> Result<String, OutOfMemory>
    ensures { IfOk result (λ s. string_bytes s ≡ string_bytes text.now) }
{
    Ok(String::from_str(alloc, text.as_str())?)
}

fn copy_names(alloc: Global, names: &[String]) -> Result<Vec<String>, OutOfMemory>
    ensures { IfOk result (λ copies. map string_bytes copies.items ≡ map string_bytes names.now) }
{
    let mut copies = Vec::with_capacity(alloc, names.len())?;
    for name in names {
        copies.push(copy_text(alloc, name)?)?;
    }
    Ok(copies)
}

#[cycle(fill)]
fn fill_row(alloc: Global, values: &[Val], list: &[ResourceAny]) -> Result<Vec<Val>, OutOfMemory>
    ensures { IfOk result (λ vs. literals_view vs.items ≡ map (replaced (listed_resource list.now)) (literals_view values.now)) }
{
    let mut filled = Vec::with_capacity(alloc, values.len())?;
    for value in values {
        filled.push(fill(alloc, value, list)?)?;
    }
    Ok(filled)
}

/// Keys and values.
#[cycle(fill)]
fn fill_pairs(
    alloc: Global,
    pairs: &[(Val, Val)],
    list: &[ResourceAny],
) -> Result<Vec<(Val, Val)>, OutOfMemory>
    ensures { IfOk result (λ ps. pairs_view ps.items ≡ map (pair_replaced (listed_resource list.now)) (pairs_view pairs.now)) }
{
    let mut filled = Vec::with_capacity(alloc, pairs.len())?;
    for pair in pairs {
        let key = fill(alloc, &pair.0, list)?;
        let value = fill(alloc, &pair.1, list)?;
        filled.push((key, value))?;
    }
    Ok(filled)
}

/// Names and values.
#[cycle(fill)]
fn fill_fields(
    alloc: Global,
    fields: &[(String, Val)],
    list: &[ResourceAny],
) -> Result<Vec<(String, Val)>, OutOfMemory>
    ensures { IfOk result (λ fs. map field_view fs.items ≡ map (field_replaced (listed_resource list.now)) (map field_view fields.now)) }
{
    let mut filled = Vec::with_capacity(alloc, fields.len())?;
    for field in fields {
        let name = copy_text(alloc, &field.0)?;
        let value = fill(alloc, &field.1, list)?;
        filled.push((name, value))?;
    }
    Ok(filled)
}

#[cycle(fill)]
fn fill_payload(
    alloc: Global,
    payload: &Option<Box<Val>>,
    list: &[ResourceAny],
) -> Result<Option<Box<Val>>, OutOfMemory>
    ensures { IfOk result (λ p. payload_view p ≡ payload_replaced (listed_resource list.now) (payload_view payload.now)) }
{
    match payload {
        Some(value) => Ok(Some(Box::new(alloc, fill(alloc, value, list)?)?)),
        None => Ok(None),
    }
}
