//! Tests the number of names, and that none is repeated.

ghost use Rattle.std.specs.Prelude.{◌≡◌, ◌≢◌, ◌≤◌, ◌<◌, ◌==◌, ◌∷◌, [], false, true, length, map, nat_lt, string_bytes, None, Some, IfOk, IfErr, OnOk};
ghost use Rattle.std.specs.Result.{result_err};
ghost use Rattle.canon_types.specs.Refusal.{first_error, has_repeats, names_refusal};

use crate::{InterfaceType, RecordField, TypeError};
use indexmap::{IndexMap, IndexSet};
use std::alloc::Global;

/// The most names of flags.
pub(super) const MAX_FLAGS: usize = 8_160;

/// The most names of a record, a variant or an enum.
pub(super) const MAX_NAMES: usize = 1_048_576;

/// Tests the number of names.
pub(super) fn check_count(count: usize, most: usize) -> Result<(), TypeError>
    ensures fits { OnOk result (count ≤ most) }
    ensures cause { IfErr result (λ e. (e ≡ TypeError.TooManyNames) × (most < count)) }
{
    if count > most {
        return Err(TypeError::TooManyNames);
    }
    Ok(())
}

/// Tests the number of names of a type that has no parts.
pub(super) fn check_name_count(count: usize, most: usize) -> Result<(), TypeError>
    ensures { result_err result ≡ first_error ((count == 0, TypeError.Empty) ∷ (nat_lt most count, TypeError.TooManyNames) ∷ []) }
{
    if count == 0 {
        return Err(TypeError::Empty);
    }
    check_count(count, most)
}

/// Tests that there are no more fields than there may be, and that no two have the same name.
pub(super) fn check_fields(alloc: Global, fields: &[RecordField]) -> Result<(), TypeError>
    ensures fits { OnOk result (names_refusal (map (λ f. string_bytes f.name) fields.now) 1048576 ≡ None) }
    ensures cause { IfErr result (λ e. e ≢ TypeError.OutOfMemory → names_refusal (map (λ f. string_bytes f.name) fields.now) 1048576 ≡ Some e) }
{
    check_count(fields.len(), MAX_NAMES)?;
    let mut seen: IndexSet<&str> = IndexSet::new(alloc);
    for field in fields {
        let (_, is_new) = seen.insert_full(field.name.as_str())?;
        if !is_new {
            return Err(TypeError::RepeatedName);
        }
    }
    Ok(())
}

/// The names in order, if none stands twice.
pub(super) fn name_set(alloc: Global, names: Vec<String>) -> Result<IndexSet<String>, TypeError>
    ensures ok { IfOk result (λ s. s.keys ≡ names.items) }
    ensures fits { OnOk result (has_repeats (map (λ n. string_bytes n) names.items) ≡ false) }
    ensures cause { IfErr result (λ e. e ≢ TypeError.OutOfMemory → (e ≡ TypeError.RepeatedName) × (has_repeats (map (λ n. string_bytes n) names.items) ≡ true)) }
{
    let mut set = IndexSet::new(alloc);
    for name in names {
        let (_, is_new) = set.insert_full(name)?;
        if !is_new {
            return Err(TypeError::RepeatedName);
        }
    }
    Ok(set)
}

/// The cases in order, if there are no more than there may be, and no name stands twice.
pub(super) fn case_map(
    alloc: Global,
    cases: Vec<(String, Option<InterfaceType>)>,
) -> Result<IndexMap<String, Option<InterfaceType>>, TypeError>
    ensures ok { IfOk result (λ m. m.entries ≡ cases.items) }
    ensures fits { OnOk result (names_refusal (map (λ c. string_bytes c.0) cases.items) 1048576 ≡ None) }
    ensures cause { IfErr result (λ e. e ≢ TypeError.OutOfMemory → names_refusal (map (λ c. string_bytes c.0) cases.items) 1048576 ≡ Some e) }
{
    check_count(cases.as_slice().len(), MAX_NAMES)?;
    let mut map = IndexMap::new(alloc);
    for (name, payload) in cases {
        if map.insert(name, payload)?.is_some() {
            return Err(TypeError::RepeatedName);
        }
    }
    Ok(map)
}
