//! The component and the store of a script.

ghost use Rattle.std.specs.Prelude.{◌≡◌, ◌≤◌, All, length, IfOk};
ghost use Rattle.canon_types.specs.Table.{HasFunc};
ghost use Rattle.canon_context.specs.Component.{IsComponent};
ghost use Rattle.canon_script.specs.Imports.{ImportStands};
ghost use Rattle.canon_player.specs.Options.{host_options, options_for};
ghost use Rattle.canon_player.specs.Stores.{IsScripted, fresh_store};

use canon_func::Store;
use canon_imports::ScriptedImports;
use canon_memory::{Journaled, Memory};
use canon_scripted::ScriptedGuest;
use canon_types::{
    CanonicalOptions, ComponentTypes, InstanceType, OptionsIndex, OutOfMemory, RuntimeInstance,
    StoreId, StringEncoding, TypeFuncIndex,
};
use canon_value::{Component, Core, Export, Import};
use std::alloc::Global;

/// The store of a script, by its number.
const SCRIPT_STORE: u64 = 0;

/// A store whose guest follows a script, and whose functions of the host give the script's answers.
pub(crate) type ScriptStore = Store<(), Journaled<ScriptedGuest>, ScriptedImports>;

/// A component that exports the first functions of the table, for each of which `posts` says whether it has a post-return function: its
/// core function and that function have its number. It has these imports. Its first options are those of the functions of the host, and
/// after them stand those of each export.
pub fn component_of(
    alloc: Global,
    types: ComponentTypes,
    encoding: StringEncoding,
    posts: &[bool],
    imports: Vec<Import>,
) -> Result<Component, OutOfMemory>
    requires told { length posts.now ≤ length types.funcs }
    requires few { length posts.now ≤ 1048576 }
    requires stand { All (ImportStands types) imports.items }
    ensures sound { IfOk result IsComponent }
    ensures scripted { IfOk result (IsScripted types encoding posts.now imports.items) }
{
    let mut options = Vec::new(alloc);
    options.push(host_options(encoding))?;
    let mut exports = Vec::new(alloc);
    for (i, has_post) in posts.iter().enumerate() {
        let i = i as u32;
        options.push(options_of(&types, encoding, i, *has_post))?;
        exports.push(Export {
            ty: TypeFuncIndex::from_u32(i),
            func: i,
            options: OptionsIndex::from_u32(i + 1),
        })?;
    }
    Ok(Component {
        types: InstanceType::new(types, StoreId::from_u64(SCRIPT_STORE)),
        options,
        exports,
        imports,
    })
}

/// The options of the functions of the host.
fn host_options(encoding: StringEncoding) -> CanonicalOptions
    ensures { result ≡ host_options encoding }
{
    CanonicalOptions {
        instance: RuntimeInstance::from_u32(0),
        string_encoding: encoding,
        async_: false,
        post_return: None,
    }
}

/// The options of a function.
fn options_of(
    types: &ComponentTypes,
    encoding: StringEncoding,
    i: u32,
    has_post: bool,
) -> CanonicalOptions
    requires { HasFunc types.now i }
    ensures { result ≡ options_for types.now encoding i has_post }
{
    CanonicalOptions {
        instance: RuntimeInstance::from_u32(0),
        string_encoding: encoding,
        async_: types.func(TypeFuncIndex::from_u32(i)).async_,
        post_return: if has_post { Some(i) } else { None },
    }
}

/// A store of a component in which nothing was done, with these functions of the host, this memory of zeros, this fuel and so many asks
/// for each call, and room for so many live handles, where the guest's allocator begins at `heap`.
pub(crate) fn store_of(
    alloc: Global,
    component: Component,
    imports: ScriptedImports,
    memory: u64,
    heap: u64,
    fuel: u64,
    turns: u64,
    handles: u64,
) -> Result<ScriptStore, OutOfMemory>
    requires { IsComponent component }
    ensures { IfOk result (λ store. store ≡ fresh_store memory heap fuel turns handles component imports) }
{
    let Ok(memory) = Memory::new(alloc, memory) else {
        return Err(OutOfMemory);
    };
    let guest = Journaled::new(alloc, ScriptedGuest::new(alloc, heap));
    let id = StoreId::from_u64(SCRIPT_STORE);
    let core = Core::new(alloc, id, (), guest, memory, component, handles, fuel)?;
    Ok(Store::new(core, imports, turns))
}
