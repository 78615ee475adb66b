//! Reads the parts of type definitions from JSON: types, names, fields and cases.

ghost use Rattle.std.specs.Prelude.{◌≡◌, ℕ, List, Option, Some, IfErr, string_bytes};
ghost use Rattle.serde_json.specs.Find.{as_str};
ghost use Rattle.serde_json.specs.View.{view};
ghost use Rattle.canon_json.specs.Json.{ReadsAs, u32_of};
ghost use Rattle.canon_json.specs.declared.error.ScriptError.TheVariants as refused;
ghost use Rattle.canon_model.specs.Shape.{Name};
ghost use Rattle.canon_types.specs.declared.types.InterfaceType.{InterfaceType};
ghost use Rattle.canon_layout.specs.Entries as spec;

use crate::words::{Kind, kind_named, plain_named};
use canon_json::{Reader, ScriptError, only, only_member, two, u32_of};
use canon_types::{InterfaceType, RecordField};
use serde_json::Value;
use std::alloc::Global;

/// A type by its name, or by the number of an entry among those before.
pub fn type_of_json(v: &Value, entries: &[InterfaceType]) -> Result<InterfaceType, ScriptError>
    ensures value { ReadsAs (λ t. t) result (spec.reference_of entries.now (view v.now)) }
    ensures cause { IfErr result (λ e. e ≡ refused.BadScript) }
{
    match reference_of(v, entries) {
        Some(ty) => Ok(ty),
        None => Err(ScriptError::BadScript),
    }
}

#[tactic(auto, using(crate::proofs::Reading::reference_of_string, crate::proofs::Reading::reference_of_number))]
fn reference_of(v: &Value, before: &[InterfaceType]) -> Option<InterfaceType>
    ensures { result ≡ spec.reference_of before.now (view v.now) }
{
    if let Some(name) = v.as_str() {
        return plain_named(name);
    }
    before.get(v.as_u64()? as usize).copied()
}

#[tactic(auto, using(crate::proofs::Reading::optional_type_of_null, crate::proofs::Reading::optional_type_of_type))]
/// A type, or null for none.
fn optional_type_of(v: &Value, before: &[InterfaceType]) -> Option<Option<InterfaceType>>
    ensures { result ≡ spec.optional_type_of before.now (view v.now) }
{
    if v.is_null() {
        return Some(None);
    }
    match reference_of(v, before) {
        Some(ty) => Some(Some(ty)),
        None => None,
    }
}

/// Two types.
pub(crate) fn type_pair_of(
    v: &Value,
    before: &[InterfaceType],
) -> Option<(InterfaceType, InterfaceType)>
    ensures { result ≡ spec.array_of_two (spec.reference_of before.now) (spec.reference_of before.now) (view v.now) }
{
    let (first, second) = two(v)?;
    Some((reference_of(first, before)?, reference_of(second, before)?))
}

/// Two types, each of which may be none.
pub(crate) fn payload_pair_of(
    v: &Value,
    before: &[InterfaceType],
) -> Option<(Option<InterfaceType>, Option<InterfaceType>)>
    ensures { result ≡ spec.array_of_two (spec.optional_type_of before.now) (spec.optional_type_of before.now) (view v.now) }
{
    let (first, second) = two(v)?;
    Some((
        optional_type_of(first, before)?,
        optional_type_of(second, before)?,
    ))
}

/// A type and a number below 2^32.
pub(crate) fn counted_type_of(v: &Value, before: &[InterfaceType]) -> Option<(InterfaceType, u32)>
    ensures { result ≡ spec.array_of_two (spec.reference_of before.now) u32_of (view v.now) }
{
    let (first, second) = two(v)?;
    Some((reference_of(first, before)?, u32_of(second)?))
}

/// Reads types over these.
#[derive(Clone, Copy)]
pub(crate) struct Types<'a> {
    pub before: &'a [InterfaceType],
}

impl Reader for Types<'_> {
    type Item = InterfaceType;

    ghost Seen = { InterfaceType };

    ghost seen = { λ t. t };

    ghost reads = { λ r. spec.reference_of r.before.now };

    fn read(&self, _: Global, v: &Value) -> Result<InterfaceType, ScriptError> {
        type_of_json(v, self.before)
    }
}

/// Reads names.
#[derive(Clone, Copy)]
pub(crate) struct Names;

impl Reader for Names {
    type Item = String;

    ghost Seen = { Name };

    ghost seen = { λ s. string_bytes s };

    ghost reads = { λ _. as_str };

    fn read(&self, alloc: Global, v: &Value) -> Result<String, ScriptError> {
        match v.as_str() {
            Some(name) => Ok(String::from_str(alloc, name)?),
            None => Err(ScriptError::BadScript),
        }
    }
}

/// Reads fields, each a name and a type over these.
#[derive(Clone, Copy)]
pub(crate) struct Fields<'a> {
    pub before: &'a [InterfaceType],
}

impl Reader for Fields<'_> {
    type Item = RecordField;

    ghost Seen = { Name × InterfaceType };

    ghost seen = { λ f. (string_bytes f.name, f.ty) };

    ghost reads = { λ r. spec.name_and_type r.before.now };

    fn read(&self, alloc: Global, v: &Value) -> Result<RecordField, ScriptError> {
        let Some((name, ty)) = two(v) else {
            return Err(ScriptError::BadScript);
        };
        let name = Names.read(alloc, name)?;
        let ty = type_of_json(ty, self.before)?;
        Ok(RecordField { name, ty })
    }
}

/// Reads cases, each a name alone or with a type over these.
#[derive(Clone, Copy)]
pub(crate) struct Cases<'a> {
    pub before: &'a [InterfaceType],
}

impl Reader for Cases<'_> {
    type Item = (String, Option<InterfaceType>);

    ghost Seen = { Name × Option InterfaceType };

    ghost seen = { λ c. (string_bytes c.0, c.1) };

    ghost reads = { λ r. spec.case_of r.before.now };

    fn read(
        &self,
        alloc: Global,
        v: &Value,
    ) -> Result<(String, Option<InterfaceType>), ScriptError> {
        if let Some(name) = only(Some(v)) {
            return Ok((Names.read(alloc, name)?, None));
        }
        let fields = Fields {
            before: self.before,
        };
        let field = fields.read(alloc, v)?;
        Ok((field.name, Some(field.ty)))
    }
}
