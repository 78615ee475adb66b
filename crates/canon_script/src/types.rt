//! Reads what a script declares from JSON: resources, types, functions and imports.

ghost use Rattle.serde_json.specs.View.{items_view};
ghost use Rattle.canon_json.specs.Json.{ReadsAs};
ghost use Rattle.canon_script.specs.Types as spec;

use crate::imports::{Imports, add_imports};
use canon_json::ScriptError;
use canon_layout::{add_entries, add_funcs, add_resources};
use canon_types::{ComponentTypes, TypeBuilder};
use serde_json::Value;
use std::alloc::Global;

/// What a script declares before its items.
#[derive(Drop)]
pub(crate) struct Declarations {
    /// The resources, the types, the functions and the function types of the host's functions, in this order.
    pub types: ComponentTypes,
    /// For each function whether it has a post-return function.
    pub posts: Vec<bool>,
    pub imports: Imports,
}

/// What these resources, types, functions and imports declare.
pub(crate) fn declarations_of_json(
    alloc: Global,
    resources: &[Value],
    types: &[Value],
    funcs: &[Value],
    imports: &[Value],
) -> Result<Declarations, ScriptError>
    ensures { ReadsAs spec.declared_view result (spec.declared_of (items_view resources.now) (items_view types.now) (items_view funcs.now) (items_view imports.now)) }
{
    let mut builder = TypeBuilder::new(alloc);
    add_resources(&mut builder, resources)?;
    let types = add_entries(alloc, &mut builder, types)?;
    let posts = add_funcs(alloc, &mut builder, &types, funcs)?;
    let imports = add_imports(alloc, &mut builder, &types, imports)?;
    Ok(Declarations {
        types: builder.finish(),
        posts,
        imports,
    })
}
