//! What a guest asks for when it calls a host function, and how many words the call takes.

ghost use Rattle.std.specs.Prelude.{◌≡◌, ◌≤◌, ◌<◌, IfOk, IfSome, Some, length, slice_get, take};
ghost use Rattle.std.specs.Option.{SomeIff};
ghost use Rattle.canon_model.specs.Flat.{max_results};
ghost use Rattle.canon_model.specs.Layout.{members_flat};
ghost use Rattle.canon_model.specs.Shape.{member_count};
ghost use Rattle.canon_types.specs.Table.{HasFunc, HasTuple, param_members, result_members, tuple_members};
ghost use Rattle.canon_context.specs.Component.{HasOptions};
ghost use Rattle.canon_context.specs.Core.{component_types};
ghost use Rattle.canon_passing.specs.Args.{args_words};
ghost use Rattle.canon_host.specs.Asked.{HasRoomFor, IsAsked, asked_words, pointer_words, row_words, storage_words};

use canon_abi::{MAX_FLAT_PARAMS, MAX_FLAT_RESULTS};
use canon_memory::ValRaw;
use canon_types::{
    ComponentTypes, OptionsIndex, OutOfMemory, TypeFunc, TypeFuncIndex, TypeTupleIndex,
};
use canon_value::Core;
use std::alloc::{AllocError, Global};

/// Where an ask is served: a core, and the type and the options of the function that is asked for.
#[derive(Drop)]
pub struct HostCx<'a, T, G> {
    /// The core whose guest asks.
    pub core: &'a mut Core<T, G>,
    /// The type of the function, in the component's table.
    pub ty: TypeFuncIndex,
    /// The options that it is lowered under.
    pub options: OptionsIndex,
}

/// What is asked for: a function of a type, under options.
#[derive(Clone, Copy)]
pub struct Asked {
    /// Its type, in the component's table.
    pub ty: TypeFuncIndex,
    /// The same type, looked up.
    pub func: TypeFunc,
    /// The options that it is lowered under.
    pub options: OptionsIndex,
}

/// What is asked for by a type and options of a core's component.
pub fn asked_of<T, G>(core: &Core<T, G>, ty: TypeFuncIndex, options: OptionsIndex) -> Asked
    requires func { HasFunc (component_types core.now) ty }
    requires options { HasOptions core.now.component options }
    ensures found { slice_get (component_types core.now).funcs ty ≡ Some result.func }
    ensures is { IsAsked core.now.component result }
    ensures ty { result.ty ≡ ty }
    ensures options { result.options ≡ options }
{
    let func = *core.component().types.types().func(ty);
    Asked { ty, func, options }
}

/// How many words a guest asks with for a function of this type: those of its parameters, and one more that points to where its results
/// are stored, where they don't go in a row.
pub fn asked_words(types: &ComponentTypes, ty: TypeFuncIndex) -> usize
    requires { HasFunc types.now ty }
    ensures { IfSome (slice_get types.now.funcs ty) (λ t. result ≡ asked_words (param_members types.now t) (result_members types.now t)) }
{
    let func = types.func(ty);
    params_words(types, func.params) + pointer_words(types, func.results)
}

/// How long storage is to be for an ask of a function of this type: as long as the words that the guest asks with, and long enough for
/// results in a row.
pub fn storage_words(types: &ComponentTypes, ty: TypeFuncIndex) -> usize
    requires { HasFunc types.now ty }
    ensures { IfSome (slice_get types.now.funcs ty) (λ t. result ≡ storage_words (param_members types.now t) (result_members types.now t)) }
{
    let asked = asked_words(types, ty);
    let row = first_words(types, types.func(ty).results);
    asked.max(row)
}

/// Storage for an ask with these words, which has room for results in a row.
pub fn storage_for(
    alloc: Global,
    types: &ComponentTypes,
    ty: TypeFuncIndex,
    words: &[ValRaw],
) -> Result<Vec<ValRaw>, OutOfMemory>
    requires { HasFunc types.now ty }
    ensures words { IfOk result (λ storage. take (length words.now) storage.items ≡ words.now) }
    ensures room { IfOk result (λ storage. HasRoomFor types.now ty storage.items) }
{
    let count = storage_words(types, ty).max(words.len());
    let Ok(mut storage) = zeros(alloc, count) else {
        return Err(OutOfMemory);
    };
    write_front(&mut storage, words);
    Ok(storage)
}

/// Writes words to the first places.
fn write_front(storage: &mut [ValRaw], words: &[ValRaw])
    requires { length words.now ≤ length storage.old }
    ensures front { take (length words.now) storage.new ≡ words.now }
    ensures count { length storage.new ≡ length storage.old }
{
    storage[..words.len()].copy_from_slice(words);
}

/// So many words that are 0.
fn zeros(alloc: Global, count: usize) -> Result<Vec<ValRaw>, AllocError>
    ensures { IfOk result (λ words. length words.items ≡ count) }
{
    vec![in alloc; ValRaw::u64(0); count]
}

/// How many parameters a function of this type has.
pub fn param_count(types: &ComponentTypes, ty: TypeFuncIndex) -> usize
    requires { HasFunc types.now ty }
    ensures { IfSome (slice_get types.now.funcs ty) (λ t. result ≡ member_count (param_members types.now t)) }
{
    value_count(types, types.func(ty).params)
}

/// How many words parameters take: in a row up to MAX_FLAT_PARAMS, or one that points to them.
pub(crate) fn params_words(types: &ComponentTypes, tuple: TypeTupleIndex) -> usize
    requires tuple { HasTuple types.now tuple }
    ensures words { result ≡ args_words (tuple_members types.now tuple) }
    ensures few { result ≤ 16 }
{
    types
        .tuple(tuple)
        .abi
        .flat_count(u64::from(MAX_FLAT_PARAMS))
        .unwrap_or(1) as usize
}

/// How many words results take in a row, where they go so.
pub(crate) fn results_words(types: &ComponentTypes, tuple: TypeTupleIndex) -> Option<u64>
    requires tuple { HasTuple types.now tuple }
    ensures { SomeIff result (members_flat (tuple_members types.now tuple) ≤ max_results) (members_flat (tuple_members types.now tuple)) }
{
    types
        .tuple(tuple)
        .abi
        .flat_count(u64::from(MAX_FLAT_RESULTS))
}

/// How many words point to where results are stored: none where they go in a row.
fn pointer_words(types: &ComponentTypes, tuple: TypeTupleIndex) -> usize
    requires tuple { HasTuple types.now tuple }
    ensures words { result ≡ pointer_words (tuple_members types.now tuple) }
    ensures few { result ≤ 1 }
{
    match results_words(types, tuple) {
        Some(_) => 0,
        None => 1,
    }
}

/// How many of the first words results take: none where they don't go in a row.
pub fn first_words(types: &ComponentTypes, tuple: TypeTupleIndex) -> usize
    requires tuple { HasTuple types.now tuple }
    ensures row { result ≡ row_words (tuple_members types.now tuple) }
    ensures near { members_flat (tuple_members types.now tuple) ≤ max_results → result ≡ members_flat (tuple_members types.now tuple) }
    ensures far { max_results < members_flat (tuple_members types.now tuple) → result ≡ 0 }
{
    results_words(types, tuple).unwrap_or(0) as usize
}

/// How many values a tuple has.
pub(crate) fn value_count(types: &ComponentTypes, tuple: TypeTupleIndex) -> usize
    requires tuple { HasTuple types.now tuple }
    ensures { result ≡ member_count (tuple_members types.now tuple) }
{
    types.tuple(tuple).types.len()
}
