//! The store of a component.

ghost use Rattle.std.specs.Prelude.{◌≡◌, ◌≤◌, [], Err, IfOk, IfSome, length};
ghost use Rattle.serde_json.specs.Data.{Data};
ghost use Rattle.serde_json.specs.View.{view};
ghost use Rattle.canon_types.specs.Table.{HasFunc};
ghost use Rattle.canon_context.specs.Component.{IsComponent};
ghost use Rattle.canon_script.specs.Script.{IsWellFormed, Play, play_of};
ghost use Rattle.canon_serve.specs.Begins.{HasComponent, HasNoComponent, HasPlay, IsBegun, IsInstantiated, IsServedComponent, IsTree, asked_options, served_options};

use crate::hosting::HostState;
use crate::imports::ChannelImports;
use crate::session::EngineStore;
use canon_events::MaybeJournaled;
use canon_func::Store;
use canon_json::ScriptError;
use canon_memory::{Memory, Watched};
use canon_relay::{Channel, Relay};
use canon_script::{Script, script_of_json};
use canon_types::{
    CanonicalOptions, ComponentTypes, InstanceType, OptionsIndex, OutOfMemory, RuntimeInstance,
    StoreId, StringEncoding, TypeFuncIndex,
};
use canon_value::{Component, Core, Export, Import};
use serde_json::Value;
use std::alloc::Global;

/// The number of the store: a session has one.
const STORE: u64 = 0;

/// Why there is no store.
#[derive(Clone, Copy, Debug, PartialEq, Eq)]
pub(crate) enum NoStore {
    /// The bytes are no component.
    NoComponent,
    /// The engine didn't put the component's data into memory.
    NotInstantiated,
    OutOfMemory,
}

/// The store of the component of this JSON, whose code runs in the engine, and whose imports the host serves.
pub(crate) fn store_of<E: Channel + Drop, H: Channel + Drop>(
    alloc: Global,
    engine: E,
    host: H,
    watches_all: bool,
    keeps_events: bool,
    json: &[u8],
) -> Result<EngineStore<E, H>, NoStore>
    ensures begun { IfOk result (λ store. IsBegun E.log engine host watches_all keeps_events json.now store) }
    ensures none { result ≡ Err NoStore.NoComponent → HasNoComponent json.now }
    ensures not_instantiated { result ≡ Err NoStore.NotInstantiated → HasComponent json.now }
{
    let script = match script_of_bytes(alloc, json) {
        Ok(script) => script,
        Err(ScriptError::BadScript) => return Err(NoStore::NoComponent),
        Err(ScriptError::OutOfMemory) => return Err(NoStore::OutOfMemory),
    };
    let Script {
        memory,
        fuel,
        turns,
        handles,
        encoding,
        types,
        posts,
        imports,
        ..
    } = script;
    let Ok(component) = component_of(alloc, types, encoding, &posts, imports) else {
        return Err(NoStore::OutOfMemory);
    };
    if !component.check() {
        return Err(NoStore::NoComponent);
    }
    let Ok(memory) = Memory::new(alloc, memory) else {
        return Err(NoStore::OutOfMemory);
    };
    let Some((relay, memory)) = instantiated(alloc, engine, memory) else {
        return Err(NoStore::NotInstantiated);
    };
    let guest = MaybeJournaled::new(alloc, relay, keeps_events);
    let guest = watched(alloc, guest, watches_all);
    let id = StoreId::from_u64(STORE);
    let host = HostState::new(alloc, host);
    let Ok(core) = Core::new(alloc, id, host, guest, memory, component, handles, fuel) else {
        return Err(NoStore::OutOfMemory);
    };
    Ok(Store::new(core, ChannelImports::new(), turns))
}

/// The script of this JSON.
fn script_of_bytes(alloc: Global, json: &[u8]) -> Result<Script, ScriptError>
    ensures play { IfOk result (λ script. HasPlay json.now (play_of script)) }
    ensures sound { IfOk result (λ script. IsWellFormed (play_of script)) }
    ensures none { result ≡ Err ScriptError.BadScript → (play : Play) → HasPlay json.now play → ⊥ }
{
    let tree = match tree_of(alloc, json) {
        Ok(tree) => tree,
        Err(error) => return Err(error),
    };
    script_of_json(alloc, &tree)
}

/// The value of this JSON.
fn tree_of(alloc: Global, json: &[u8]) -> Result<Value, ScriptError>
    ensures tree { IfOk result (λ tree. IsTree json.now (view tree)) }
    ensures none { result ≡ Err ScriptError.BadScript → (tree : Data) → IsTree json.now tree → ⊥ }
{
    match Value::from_slice(alloc, json) {
        Ok(tree) => Ok(tree),
        Err(error) => {
            if error.is_memory() {
                Err(ScriptError::OutOfMemory)
            } else {
                Err(ScriptError::BadScript)
            }
        }
    }
}

/// The guest whose code runs in the engine, which put the component's data into this memory.
fn instantiated<E: Channel + Drop>(
    alloc: Global,
    engine: E,
    mut memory: Memory,
) -> Option<(Relay<E>, Memory)>
    ensures { IfSome result (λ r. IsInstantiated E.log engine memory r.0 r.1) }
{
    let mut relay = Relay::new(alloc, engine);
    match relay.instantiate(&mut memory) {
        Ok(()) => Some((relay, memory)),
        Err(_) => None,
    }
}

/// A guest whose answers of `realloc` are tested.
fn watched<G: Drop>(alloc: Global, guest: G, watches_all: bool) -> Watched<G>
    ensures { result ≡ record { guest = guest; whole = watches_all; held = []; live = []; marks = []; shortages = 0 } }
{
    if watches_all {
        Watched::new(alloc, guest)
    } else {
        Watched::lawful_only(alloc, guest)
    }
}

/// The component that exports each function of a script: its core function has the function's number.
fn component_of(
    alloc: Global,
    types: ComponentTypes,
    encoding: StringEncoding,
    posts: &[bool],
    imports: Vec<Import>,
) -> Result<Component, OutOfMemory>
    requires told { length posts.now ≤ length types.funcs }
    requires few { length posts.now ≤ 1048576 }
    ensures { IfOk result (IsServedComponent types encoding posts.now imports.items) }
{
    let mut options = Vec::new(alloc);
    options.push(asked_options(encoding))?;
    let mut exports = Vec::new(alloc);
    for (i, has_post) in posts.iter().enumerate() {
        let i = i as u32;
        options.push(options_of(&types, encoding, i, *has_post))?;
        exports.push(Export {
            ty: TypeFuncIndex::from_u32(i),
            func: i,
            options: OptionsIndex::from_u32(i + 1),
        })?;
    }
    Ok(Component {
        types: InstanceType::new(types, StoreId::from_u64(STORE)),
        options,
        exports,
        imports,
    })
}

/// The options of the functions of the host.
fn asked_options(string_encoding: StringEncoding) -> CanonicalOptions
    ensures { result ≡ asked_options string_encoding }
{
    CanonicalOptions {
        instance: RuntimeInstance::from_u32(0),
        string_encoding,
        async_: false,
        post_return: None,
    }
}

/// The options of a function.
fn options_of(
    types: &ComponentTypes,
    string_encoding: StringEncoding,
    i: u32,
    has_post: bool,
) -> CanonicalOptions
    requires { HasFunc types.now i }
    ensures { result ≡ served_options types.now string_encoding i has_post }
{
    CanonicalOptions {
        instance: RuntimeInstance::from_u32(0),
        string_encoding,
        async_: types.func(TypeFuncIndex::from_u32(i)).async_,
        post_return: if has_post { Some(i) } else { None },
    }
}
