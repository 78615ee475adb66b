//! Reads the imports of a script from JSON, with the answers of the host's functions.

ghost use Rattle.std.specs.Prelude.{◌≡◌, ◌++◌, ◌∷◌, [], List, IfErr, OnOk, false, length, map, option_and_then, ℕ};
ghost use Rattle.serde_json.specs.Find.{as_array};
ghost use Rattle.serde_json.specs.View.{items_view, view};
ghost use Rattle.canon_json.specs.Json.{ReadsAs, each};
ghost use Rattle.canon_json.specs.declared.error.ScriptError.TheVariants as refused;
ghost use Rattle.canon_layout.specs.Asked.{unless};
ghost use Rattle.canon_layout.specs.Entries.{reference_of};
ghost use Rattle.canon_types.specs.Refusal.{func_refusal, with_func};
ghost use Rattle.canon_types.specs.Table.{TypeTable};
ghost use Rattle.canon_types.specs.declared.types.InterfaceType.{InterfaceType};
ghost use Rattle.canon_script.specs.Imports as spec;
ghost use Rattle.canon_script.specs.Values.{plain_value_of};

use crate::fields::u32_in;
use crate::values::PlainValues;
use canon_abi::{OptionsIndex, TypeFuncIndex};
use canon_context::Import;
use canon_json::{Reader, ScriptError, each_of, has_len};
use canon_layout::type_of_json;
use canon_types::{InterfaceType, TypeBuilder, TypeError, TypeResourceTableIndex};
use canon_val::Val;
use serde_json::Value;
use std::alloc::Global;

/// What a guest may ask for, by its number.
#[derive(Drop)]
pub(crate) struct Imports {
    pub imports: Vec<Import>,
    /// The answers of each, in order: the results of a function of the host, or none where it refuses.
    pub answers: Vec<Vec<Option<Vec<Val>>>>,
}

/// A function of the host: the types of its parameters and results, and its answers.
#[derive(Drop)]
pub(crate) struct Host {
    pub params: Vec<InterfaceType>,
    pub results: Vec<InterfaceType>,
    pub answers: Vec<Option<Vec<Val>>>,
}

/// The imports over these types. A function of the host adds its function type.
pub(crate) fn add_imports(
    alloc: Global,
    builder: &mut TypeBuilder,
    types: &[InterfaceType],
    items: &[Value],
) -> Result<Imports, ScriptError>
    ensures { ReadsAs (spec.imported_view builder.new) result (spec.imports_over types.now builder.old (items_view items.now)) }
{
    let mut imports = Imports {
        imports: Vec::new(alloc),
        answers: Vec::new(alloc),
    };
    for item in items {
        add_import(alloc, builder, &mut imports, types, item)?;
    }
    Ok(imports)
}

fn add_import(
    alloc: Global,
    builder: &mut TypeBuilder,
    imports: &mut Imports,
    types: &[InterfaceType],
    v: &Value,
) -> Result<(), ScriptError>
    ensures { ReadsAs (λ _. spec.imported_view builder.new imports.new) result (spec.add_import types.now (spec.imported_view builder.old imports.old) (view v.now)) }
{
    if has_len(v, 3) {
        return add_host(alloc, builder, imports, types, v);
    }
    match builtin_of(builder, v) {
        Some(import) => keep(imports, import, Vec::new(alloc)),
        None => Err(ScriptError::BadScript),
    }
}

/// A function of the host, under the first options.
fn add_host(
    alloc: Global,
    builder: &mut TypeBuilder,
    imports: &mut Imports,
    types: &[InterfaceType],
    v: &Value,
) -> Result<(), ScriptError>
    ensures { ReadsAs (λ _. spec.imported_view builder.new imports.new) result (option_and_then (spec.with_host (spec.imported_view builder.old imports.old)) (spec.host_of types.now (view v.now))) }
{
    let host = host_of(alloc, types, v)?;
    let ty = add_type(builder, host.params, host.results)?;
    let import = Import::Host {
        ty,
        options: OptionsIndex::from_u32(0),
    };
    keep(imports, import, host.answers)
}

/// The function type of these parameters and results.
fn add_type(
    builder: &mut TypeBuilder,
    params: Vec<InterfaceType>,
    results: Vec<InterfaceType>,
) -> Result<TypeFuncIndex, ScriptError>
    ensures { ReadsAs {Y = ℕ × TypeTable} (λ ty. (ty, builder.new)) result (unless (func_refusal builder.old params.items results.items) (length builder.old.funcs, with_func builder.old params.items results.items false)) }
{
    match builder.add_func(params, results, false) {
        Ok(ty) => Ok(ty),
        Err(TypeError::OutOfMemory) => Err(ScriptError::OutOfMemory),
        Err(_) => Err(ScriptError::BadScript),
    }
}

/// One import more.
fn keep(
    imports: &mut Imports,
    import: Import,
    answers: Vec<Option<Vec<Val>>>,
) -> Result<(), ScriptError>
    ensures imports { OnOk result (imports.new.imports.items ≡ imports.old.imports.items ++ import ∷ []) }
    ensures answers { OnOk result (spec.answers_view imports.new.answers.items ≡ spec.answers_view imports.old.answers.items ++ map spec.answer_view answers.items ∷ []) }
    ensures cause { IfErr result (λ e. e ≡ refused.OutOfMemory) }
{
    imports.imports.push(import)?;
    imports.answers.push(answers)?;
    Ok(())
}

fn host_of(alloc: Global, types: &[InterfaceType], v: &Value) -> Result<Host, ScriptError>
    ensures { ReadsAs spec.host_view result (spec.host_of types.now (view v.now)) }
{
    let references = References { types };
    let params = each_of(alloc, &references, v.get("params"))?;
    let results = each_of(alloc, &references, v.get("results"))?;
    let reader = Answers {
        results: results.len(),
    };
    let answers = each_of(alloc, &reader, v.get("answers"))?;
    Ok(Host {
        params,
        results,
        answers,
    })
}

/// Reads references to these types.
#[derive(Clone, Copy)]
struct References<'a> {
    types: &'a [InterfaceType],
}

impl Reader for References<'_> {
    type Item = InterfaceType;

    ghost Seen = { InterfaceType };

    ghost seen = { λ t. t };

    ghost reads = { λ r. reference_of r.types.now };

    fn read(&self, _: Global, v: &Value) -> Result<InterfaceType, ScriptError> {
        type_of_json(v, self.types)
    }
}

/// Reads the answers of a function with so many results.
#[derive(Clone, Copy)]
struct Answers {
    results: usize,
}

impl Reader for Answers {
    type Item = Option<Vec<Val>>;

    ghost Seen = { spec.HostAnswer };

    ghost seen = { spec.answer_view };

    ghost reads = { λ r. spec.host_answer_of r.results };

    fn read(&self, alloc: Global, v: &Value) -> Result<Option<Vec<Val>>, ScriptError> {
        answer_of(alloc, v, self.results)
    }
}

/// An answer: as many values as there are results, or a refusal.
fn answer_of(alloc: Global, v: &Value, results: usize) -> Result<Option<Vec<Val>>, ScriptError>
    ensures { ReadsAs spec.answer_view result (spec.host_answer_of results (view v.now)) }
{
    match v {
        Value::String(word) if word.as_str() == "refuse" => Ok(None),
        Value::Array(_) => results_of(alloc, v, results),
        _ => Err(ScriptError::BadScript),
    }
}

/// As many values as there are results, in which no resource stands.
fn results_of(alloc: Global, v: &Value, results: usize) -> Result<Option<Vec<Val>>, ScriptError>
    ensures { ReadsAs spec.answer_view result (option_and_then (spec.if_many results) (option_and_then (each plain_value_of) (as_array (view v.now)))) }
{
    let values = each_of(alloc, &PlainValues, Some(v))?;
    if values.len() != results {
        return Err(ScriptError::BadScript);
    }
    Ok(Some(values))
}

/// A call on the handles of a resource type.
fn builtin_of(builder: &mut TypeBuilder, v: &Value) -> Option<Import>
    ensures import { result ≡ spec.builtin_import_of builder.old (view v.now) }
    ensures same { builder.new ≡ builder.old }
{
    if !has_len(v, 2) {
        return None;
    }
    let resource = known_resource(builder, u32_in(v.get("resource"))?)?;
    builtin_by(resource, v.get("builtin")?.as_str()?)
}

/// The resource type of this number, if there is one.
fn known_resource(builder: &mut TypeBuilder, resource: u32) -> Option<TypeResourceTableIndex>
    ensures resource { result ≡ spec.known_resource builder.old resource }
    ensures same { builder.new ≡ builder.old }
{
    let resource = TypeResourceTableIndex::from_u32(resource);
    match builder.add_own(resource) {
        Ok(_) => Some(resource),
        Err(_) => None,
    }
}

/// A call on the handles of this resource type, by its word.
fn builtin_by(resource: TypeResourceTableIndex, word: &str) -> Option<Import>
    ensures { result ≡ spec.builtin_by resource word.now }
{
    if word == "new" {
        Some(Import::ResourceNew(resource))
    } else if word == "rep" {
        Some(Import::ResourceRep(resource))
    } else if word == "drop" {
        Some(Import::ResourceDrop(resource))
    } else {
        None
    }
}
