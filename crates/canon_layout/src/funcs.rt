//! Reads the function types of a script, and adds them to a table of types.

ghost use Rattle.std.specs.Prelude.{◌≡◌, []};
ghost use Rattle.serde_json.specs.View.{view, items_view};
ghost use Rattle.canon_json.specs.Json.{ReadsAs, onward};
ghost use Rattle.canon_layout.specs.Asked as spec;
ghost use Rattle.canon_layout.specs.Entries.{func_of, signature_of};

use crate::entries::accepted;
use crate::readers::Types;
use canon_json::{ScriptError, bool_or, each_of, has_len, there};
use canon_types::{InterfaceType, TypeBuilder};
use serde_json::Value;
use std::alloc::Global;

/// The types of a function's parameters and results, and its flags.
#[derive(Drop)]
pub struct Signature {
    pub params: Vec<InterfaceType>,
    pub results: Vec<InterfaceType>,
    pub is_async: bool,
    /// Whether it has a post-return function.
    pub has_post: bool,
}

/// Adds these functions over types, and says for each whether it has a post-return function. After an error the table may hold the first of them.
pub fn add_funcs(
    alloc: Global,
    builder: &mut TypeBuilder,
    types: &[InterfaceType],
    items: &[Value],
) -> Result<Vec<bool>, ScriptError>
    ensures { ReadsAs (λ posts. spec.funcs_so_far builder.new posts.items) result (onward (spec.add_func types.now) (spec.funcs_so_far builder.old []) (items_view items.now)) }
{
    let mut posts = Vec::new(alloc);
    for item in items {
        add_func(alloc, builder, &mut posts, types, item)?;
    }
    Ok(posts)
}

fn add_func(
    alloc: Global,
    builder: &mut TypeBuilder,
    posts: &mut Vec<bool>,
    types: &[InterfaceType],
    v: &Value,
) -> Result<(), ScriptError>
    ensures { ReadsAs (λ _. spec.funcs_so_far builder.new posts.new.items) result (spec.add_func types.now (spec.funcs_so_far builder.old posts.old.items) (view v.now)) }
{
    let func = func_of_json(alloc, types, v)?;
    accepted(builder.add_func(func.params, func.results, func.is_async))?;
    posts.push(func.has_post)?;
    Ok(())
}

/// A function over these types.
pub fn func_of_json(
    alloc: Global,
    types: &[InterfaceType],
    v: &Value,
) -> Result<Signature, ScriptError>
    ensures { ReadsAs signature_of result (func_of types.now (view v.now)) }
{
    if !has_len(v, 2 + (there(v.get("async")) + there(v.get("post")))) {
        return Err(ScriptError::BadScript);
    }
    let params = each_of(alloc, &Types { before: types }, v.get("params"))?;
    let results = each_of(alloc, &Types { before: types }, v.get("results"))?;
    let Some(is_async) = bool_or(v.get("async"), false) else {
        return Err(ScriptError::BadScript);
    };
    let Some(has_post) = bool_or(v.get("post"), false) else {
        return Err(ScriptError::BadScript);
    };
    Ok(Signature {
        params,
        results,
        is_async,
        has_post,
    })
}
