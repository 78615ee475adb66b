//! Reads the items of a script from JSON: calls, new resources and drops.

ghost use Rattle.std.specs.Prelude.{◌≡◌, ◌≤◌, length, Some, option_map, option_and_then};
ghost use Rattle.std.specs.Option.{option_map_or};
ghost use Rattle.serde_json.specs.Find.{as_object};
ghost use Rattle.serde_json.specs.View.{view};
ghost use Rattle.canon_json.specs.Json.{ReadsAs, u32_of, word_of};
ghost use Rattle.canon_script.specs.Imports.{func_result_count};
ghost use Rattle.canon_script.specs.Numbers.{if_below};
ghost use Rattle.canon_script.specs.Script as spec;
ghost use Rattle.canon_script.specs.Typed.{typed_view};

use crate::actions::{Actions, Orders};
use crate::fields::{number_or, u32_in, word_in};
use crate::script::{CallItem, DropItem, Item, NewItem, TypedItem, TypedParams};
use crate::typed_params::typed_params;
use crate::values::Values;
use canon_abi::TypeFuncIndex;
use canon_json::{Reader, ScriptError, bool_or, each_of, has_len, there};
use canon_scripted::Ordered;
use canon_types::{ComponentTypes, InterfaceType, ResourceKind, TypeResourceTableIndex};
use serde_json::Value;
use std::alloc::Global;

/// The most slots that an item may ask for.
const MAX_SLOTS: u64 = 1000;

/// Reads items over these types. Their calls are of the first `funcs` functions.
#[derive(Clone, Copy)]
pub(crate) struct Items<'a> {
    pub types: &'a ComponentTypes,
    pub funcs: usize,
}

impl Reader for Items<'_> {
    type Item = Item;

    ghost Seen = { spec.ScriptItem };

    ghost seen = { spec.item_view };

    ghost reads = { λ r. spec.item_of r.types.now r.funcs };

    fn read(&self, alloc: Global, v: &Value) -> Result<Item, ScriptError> {
        item_of(alloc, self.types, self.funcs, v)
    }
}

/// An item, by the member that names its kind.
fn item_of(
    alloc: Global,
    types: &ComponentTypes,
    funcs: usize,
    v: &Value,
) -> Result<Item, ScriptError>
    ensures { ReadsAs spec.item_view result (spec.item_of types.now funcs (view v.now)) }
{
    if v.get("call").is_some() {
        return called_item_of(alloc, types, funcs, v);
    }
    match other_item_of(types, v) {
        Some(item) => Ok(item),
        None => Err(ScriptError::BadScript),
    }
}

/// A call, with Rust values where it has the member `typed`.
fn called_item_of(
    alloc: Global,
    types: &ComponentTypes,
    funcs: usize,
    v: &Value,
) -> Result<Item, ScriptError>
    ensures { ReadsAs spec.item_view result (spec.called_item_of types.now funcs (view v.now)) }
{
    if v.get("typed").is_some() {
        let call = typed_item_of(alloc, funcs, v)?;
        return Ok(Item::Typed(call));
    }
    let call = call_item_of(alloc, types, funcs, v)?;
    Ok(Item::Call(call))
}

/// An item that calls nothing.
fn other_item_of(types: &ComponentTypes, v: &Value) -> Option<Item>
    ensures { option_map spec.item_view result ≡ spec.other_item_of types.now (view v.now) }
{
    if v.get("new").is_some() {
        return new_item_of(types, v).map(Item::New);
    }
    drop_item_of(v).map(Item::Drop)
}

/// A new resource of one of the host's types, which a number gives.
fn new_item_of(types: &ComponentTypes, v: &Value) -> Option<NewItem>
    ensures { result ≡ spec.new_item_of types.now (view v.now) }
{
    if !has_len(v, 2 + there(v.get("borrow"))) {
        return None;
    }
    let ty = dynamic_type(types, u32_in(v.get("new"))?)?;
    let rep = u32_in(v.get("rep"))?;
    let borrow = bool_or(v.get("borrow"), false)?;
    Some(NewItem { ty, rep, borrow })
}

/// The number that gives the type of a resource of the host, if the resource of this number is one.
fn dynamic_type(types: &ComponentTypes, resource: u32) -> Option<u32>
    ensures { result ≡ spec.dynamic_type types.now resource }
{
    let resource = TypeResourceTableIndex::from_u32(resource);
    if !types.contains(&InterfaceType::Own(resource)) {
        return None;
    }
    match types.resource_table(resource).kind {
        ResourceKind::HostDynamic(ty) => Some(ty),
        ResourceKind::Host(_) | ResourceKind::Guest { .. } => None,
    }
}

fn drop_item_of(v: &Value) -> Option<DropItem>
    ensures { result ≡ spec.drop_item_of (view v.now) }
{
    if !has_len(v, 1 + there(v.get("dtor_trap"))) {
        return None;
    }
    let resource = u32_in(v.get("drop"))?;
    let dtor_trap = bool_or(v.get("dtor_trap"), false)?;
    Some(DropItem {
        resource,
        dtor_trap,
    })
}

fn call_item_of(
    alloc: Global,
    types: &ComponentTypes,
    funcs: usize,
    v: &Value,
) -> Result<CallItem, ScriptError>
    ensures { ReadsAs spec.call_item_view result (spec.call_item_of types.now funcs (view v.now)) }
{
    if !has_len(v, 3 + optional_call_members(v)) {
        return Err(ScriptError::BadScript);
    }
    let Some(func) = called_func(funcs, v.get("call")) else {
        return Err(ScriptError::BadScript);
    };
    let Some(results) = result_count(types, func) else {
        return Err(ScriptError::BadScript);
    };
    call_of_func(alloc, v, func, results)
}

/// The number of one of so many functions.
fn called_func(funcs: usize, v: Option<&Value>) -> Option<u32>
    ensures { result ≡ option_and_then (if_below funcs) (option_and_then u32_of (option_map (λ x. view x.now) v.entry)) }
{
    let func = u32_in(v)?;
    if (func as usize) < funcs {
        Some(func)
    } else {
        None
    }
}

fn optional_call_members(v: &Value) -> usize
    ensures { result ≡ spec.optional_call_members (view v.now) }
{
    there(v.get("slots")) + (there(v.get("reallocs")) + there(v.get("post_trap")))
}

/// The number of a function's results, if there is such a function.
fn result_count(types: &ComponentTypes, func: u32) -> Option<u64>
    ensures { result ≡ func_result_count types.now func }
{
    let func = TypeFuncIndex::from_u32(func);
    if !types.contains_func(func) {
        return None;
    }
    let results = types.func(func).results;
    Some(types.tuple(results).types.len() as u64)
}

/// A call of the function of this number, which has so many results.
fn call_of_func(alloc: Global, v: &Value, func: u32, results: u64) -> Result<CallItem, ScriptError>
    ensures { ReadsAs spec.call_item_view result (spec.call_of_func (view v.now) func results) }
{
    let Some(slots) = number_or(v.get("slots"), MAX_SLOTS, results) else {
        return Err(ScriptError::BadScript);
    };
    let Some(post_trap) = bool_or(v.get("post_trap"), false) else {
        return Err(ScriptError::BadScript);
    };
    let params = each_of(alloc, &Values, v.get("params"))?;
    let guest = each_of(alloc, &Actions, v.get("guest"))?;
    let reallocs = reallocs_of(alloc, v.get("reallocs"))?;
    Ok(CallItem {
        func,
        params,
        guest,
        slots,
        reallocs,
        post_trap,
    })
}

/// A typed call of one of the first `funcs` functions.
fn typed_item_of(alloc: Global, funcs: usize, v: &Value) -> Result<TypedItem, ScriptError>
    ensures { ReadsAs spec.typed_item_view result (spec.typed_item_of funcs (view v.now)) }
{
    if !has_len(v, 4 + optional_typed_members(v)) {
        return Err(ScriptError::BadScript);
    }
    match called_func(funcs, v.get("call")) {
        Some(func) => typed_of_func(alloc, v, func),
        None => Err(ScriptError::BadScript),
    }
}

fn optional_typed_members(v: &Value) -> usize
    ensures count { result ≡ spec.optional_typed_members (view v.now) }
    ensures few { result ≤ 2 }
{
    there(v.get("reallocs")) + there(v.get("post_trap"))
}

/// A typed call of the function of this number.
fn typed_of_func(alloc: Global, v: &Value, func: u32) -> Result<TypedItem, ScriptError>
    ensures { ReadsAs spec.typed_item_view result (spec.typed_of_func (view v.now) func) }
{
    let Some(post_trap) = bool_or(v.get("post_trap"), false) else {
        return Err(ScriptError::BadScript);
    };
    let params = typed_params_of(alloc, v)?;
    let guest = each_of(alloc, &Actions, v.get("guest"))?;
    let reallocs = reallocs_of(alloc, v.get("reallocs"))?;
    Ok(TypedItem {
        func,
        params,
        guest,
        reallocs,
        post_trap,
    })
}

/// The parameters of a typed call, by the number of its signature.
fn typed_params_of(alloc: Global, v: &Value) -> Result<TypedParams, ScriptError>
    ensures { ReadsAs typed_view result (spec.typed_params_of (view v.now)) }
{
    let Some(signature) = word_in(v.get("typed")) else {
        return Err(ScriptError::BadScript);
    };
    let values = each_of(alloc, &Values, v.get("params"))?;
    typed_params(alloc, signature, &values)
}

fn reallocs_of(alloc: Global, v: Option<&Value>) -> Result<Vec<Ordered>, ScriptError>
    ensures { ReadsAs (λ orders. orders.items) result (spec.reallocs_of (option_map (λ x. view x.now) v.entry)) }
{
    match v {
        Some(_) => each_of(alloc, &Orders, v),
        None => Ok(Vec::new(alloc)),
    }
}
