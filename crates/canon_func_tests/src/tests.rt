//! A store of a guest that follows a script, and what it and its functions tell. Calls with dynamic values and their refusals stand in
//! scripts. One function owns each store and lends it to another, which gives back small values, so that nothing else is alive where a test
//! asserts.

mod asks;
mod drops;
mod imported;
mod typed;

use canon_func::{Error, Func, Store, TypedFunc};
use canon_host::NoImports;
use canon_ledger::ResourceFault;
use canon_memory::{Bytes, Journaled, Memory, ValRaw, Words};
use canon_scripted::{Action, ScriptedGuest};
use canon_types::{
    CanonicalOptions, ComponentTypes, ExportIndex, InstanceType, InterfaceType, OptionsIndex,
    RuntimeInstance, StoreId, StringEncoding, TypeBuilder, TypeFuncIndex,
};
use canon_value::{Component, Core, Export, Fault};
use std::alloc::Global;

type CallCore = Core<(), Journaled<ScriptedGuest>>;

type CallStore = Store<(), Journaled<ScriptedGuest>, NoImports>;

/// The exports of the store, by their numbers: from a u32 and an s8 to a bool.
const NUMBERS: u32 = 0;
/// From nothing to a char.
const LETTER: u32 = 1;
/// From nothing to nothing.
const NOTHING: u32 = 2;
/// From nothing to an option of a u8.
const OPTION: u32 = 3;
/// From three times six u32 to nothing.
const WIDE: u32 = 4;

fn add_function(
    alloc: Global,
    builder: &mut TypeBuilder,
    params: &[InterfaceType],
    results: &[InterfaceType],
) -> Option<()> {
    let params = params.to_vec(alloc).ok()?;
    let results = results.to_vec(alloc).ok()?;
    builder.add_func(params, results, false).ok()?;
    Some(())
}

/// Adds the types of the exports, in the order of their numbers.
fn add_functions(alloc: Global, builder: &mut TypeBuilder) -> Option<()> {
    let option = builder.add_option(InterfaceType::U8).ok()?;
    let members = [InterfaceType::U32; 6].to_vec(alloc).ok()?;
    let six = builder.add_tuple(members).ok()?;
    let numbers = [InterfaceType::U32, InterfaceType::S8];
    add_function(alloc, builder, &numbers, &[InterfaceType::Bool])?;
    add_function(alloc, builder, &[], &[InterfaceType::Char])?;
    add_function(alloc, builder, &[], &[])?;
    add_function(alloc, builder, &[], &[option])?;
    add_function(alloc, builder, &[six; 3], &[])
}

fn types_of(alloc: Global) -> Option<ComponentTypes> {
    let mut builder = TypeBuilder::new(alloc);
    add_functions(alloc, &mut builder)?;
    Some(builder.finish())
}

/// An export of each of these types, each core function 7 under the first options.
fn exports_of(alloc: Global) -> Option<Vec<Export>> {
    let options = OptionsIndex::from_u32(0);
    let mut exports = Vec::new(alloc);
    for number in 0..5 {
        let ty = TypeFuncIndex::from_u32(number);
        let export = Export {
            ty,
            func: 7,
            options,
        };
        exports.push(export).ok()?;
    }
    Some(exports)
}

/// A component of these exports, with post-return 8, for a store of this number.
fn component_of(alloc: Global, id: u64) -> Option<Component> {
    let plain = CanonicalOptions {
        instance: RuntimeInstance::from_u32(0),
        string_encoding: StringEncoding::Utf8,
        async_: false,
        post_return: Some(8),
    };
    let options = vec![in alloc; plain].ok()?;
    let exports = exports_of(alloc)?;
    let types = types_of(alloc)?;
    Some(Component {
        types: InstanceType::new(types, StoreId::from_u64(id)),
        options,
        exports,
        imports: Vec::new(alloc),
    })
}

/// A guest that follows these actions. It allocates from 1024 up, and its destructors trap.
fn guest_of(alloc: Global, actions: Vec<Action>) -> Journaled<ScriptedGuest> {
    let mut guest = ScriptedGuest::new(alloc, 1024);
    guest.load(actions, Vec::new(alloc), false, true);
    Journaled::new(alloc, guest)
}

/// Writes 2 to address 2048 and returns these words.
fn write_and_return(alloc: Global, words: &[ValRaw]) -> Option<Vec<Action>> {
    let write = Action::Write(2048, Bytes::from_slice(alloc, &[2]).ok()?);
    let answer = Action::Return(Words::from_slice(alloc, words).ok()?);
    vec![in alloc; write, answer].ok()
}

/// A core of this number, of this component and of a guest that follows these actions, with room for 8 handles. None where an index of the
/// component is outside its table.
fn core_of(alloc: Global, id: u64, component: Component, actions: Vec<Action>) -> Option<CallCore> {
    if !component.check() {
        return None;
    }
    let memory = Memory::new(alloc, 65_536).ok()?;
    let guest = guest_of(alloc, actions);
    let id = StoreId::from_u64(id);
    Core::new(alloc, id, (), guest, memory, component, 8, 1_000_000).ok()
}

/// A store of this number, whose guest returns these words.
fn store_of(alloc: Global, id: u64, words: &[ValRaw]) -> Option<CallStore> {
    let actions = write_and_return(alloc, words)?;
    let component = component_of(alloc, id)?;
    let core = core_of(alloc, id, component, actions)?;
    Some(Store::new(core, NoImports::new(), 100))
}

/// What something answers of such a store.
fn with_store<R, F: FnOnce(Global, &mut CallStore) -> Option<R>>(
    alloc: Global,
    id: u64,
    words: &[ValRaw],
    ask: F,
) -> Option<R>
    requires { F.IsAlwaysCallable ask }
{
    let mut store = store_of(alloc, id, words)?;
    ask(alloc, &mut store)
}

/// A function, what it tells by itself and with Rust types, and what its store says of it.
#[derive(Clone, Copy)]
struct Told {
    func: Func,
    export: ExportIndex,
    is_the_last: bool,
    is_owned: bool,
    is_async: bool,
    is_typed: bool,
    post_return: Result<(), Error>,
    typed_post_return: Result<(), Error>,
}

fn facts_of(_alloc: Global, store: &mut CallStore) -> Option<Told> {
    let f = store.func(ExportIndex::from_u32(WIDE))?;
    let typed: TypedFunc<(), ()> = TypedFunc::new_unchecked(f);
    let copy = typed;
    Some(Told {
        func: store.func(ExportIndex::from_u32(WIDE))?,
        export: f.export(),
        is_the_last: store.func(ExportIndex::from_u32(5)).is_none(),
        is_owned: store.owns(&f),
        is_async: f.ty(store).async_,
        is_typed: *typed.func() == f && *copy.func() == f,
        post_return: f.post_return(store),
        typed_post_return: copy.post_return(store),
    })
}

/// Whether a store of this number owns a function.
fn owns(alloc: Global, id: u64, f: &Func) -> Option<bool> {
    let store = store_of(alloc, id, &[])?;
    Some(store.owns(f))
}

#[test]
fn a_function_is_of_one_store(rt: HostRuntime) {
    let alloc = rt.alloc();
    let is_told = match with_store(alloc, 1, &[], facts_of) {
        Some(told) => [
            told.export == ExportIndex::from_u32(4) && told.is_the_last,
            told.is_owned && !told.is_async && told.is_typed,
            told.post_return == Ok(()) && told.typed_post_return == Ok(()),
            owns(alloc, 2, &told.func) == Some(false),
        ],
        None => [false; 4],
    };
    assert!(rt; is_told == [true; 4]);
}

/// The limits of a store, as it was made and as they were set: of handles, why it took no further one at each limit, and how many live.
#[derive(Clone, Copy)]
struct Limits {
    fuel: (u64, u64),
    turns: (u64, u64),
    of_8: Option<ResourceFault>,
    of_0: Option<ResourceFault>,
    of_2: Option<ResourceFault>,
    live: u64,
}

/// Why the store takes no further handle, if it doesn't.
fn refusal(store: &mut CallStore) -> Option<ResourceFault> {
    let made = store.core_mut().host_resource_lower_own(7, None, None);
    made.err()
}

fn limits_of(_alloc: Global, store: &mut CallStore) -> Option<Limits> {
    let (fuel, turns) = (store.fuel(), store.turns());
    store.set_fuel(31);
    store.set_turns(7);
    let of_8 = refusal(store);
    store.set_handle_limit(0);
    let of_0 = refusal(store);
    store.set_handle_limit(2);
    Some(Limits {
        fuel: (fuel, store.fuel()),
        turns: (turns, store.turns()),
        of_8,
        of_0,
        of_2: refusal(store),
        live: store.live_handles(),
    })
}

#[test]
fn a_store_has_limits(rt: HostRuntime) {
    let is_limited = match with_store(rt.alloc(), 1, &[], limits_of) {
        Some(limits) => [
            limits.fuel == (1_000_000, 31),
            limits.turns == (100, 7),
            limits.of_8 == None && limits.of_2 == None && limits.live == 2,
            limits.of_0 == Some(ResourceFault::HandleLimit),
        ],
        None => [false; 4],
    };
    assert!(rt; is_limited == [true; 4]);
}

fn prints(alloc: Global, error: Error, want: &str) -> Option<bool> {
    let text = format!(in alloc; "{error}").ok()?;
    Some(text.as_str() == want)
}

#[test]
fn errors_print_their_names(rt: HostRuntime) {
    let unknown = Fault::Resource(ResourceFault::UnknownHandle(1));
    for (error, want) in [
        (
            Error::ImportFault {
                index: 2,
                fault: unknown,
            },
            "ImportFault 2 UnknownHandle 1",
        ),
        (Error::Fault(Fault::GuestTrap), "GuestTrap"),
        (Error::Fault(Fault::TypeMismatch(3)), "TypeMismatch 3"),
        (Error::WrongCount, "WrongCount"),
        (Error::UnknownImport(5), "UnknownImport 5"),
        (Error::WrongWords, "WrongWords"),
        (Error::TurnsExhausted, "TurnsExhausted"),
        (Error::HostRefused(0), "HostRefused 0"),
    ] {
        assert!(rt; prints(rt.alloc(), error, want) == Some(true), "{want}");
    }
}
