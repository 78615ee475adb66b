//! A call whose guest asks for a function over Rust types. Asks over values stand in scripts.

use super::imported::OneTyped;
use super::{add_function, core_of};
use canon_func::{Error, Store};
use canon_host::{HostFunc, HostStop, HostView};
use canon_imports::ScriptedImports;
use canon_memory::{Event, ValRaw, Words};
use canon_scripted::Action;
use canon_types::{
    CanonicalOptions, ComponentTypes, ExportIndex, InstanceType, InterfaceType, OptionsIndex,
    RuntimeInstance, StoreId, StringEncoding, TypeBuilder, TypeFuncIndex,
};
use canon_value::{Component, Export, Import, Val};
use std::alloc::Global;

/// A function from nothing to a number, and one from this type to a number.
fn types_of(alloc: Global, param: InterfaceType) -> Option<ComponentTypes> {
    let mut builder = TypeBuilder::new(alloc);
    add_function(alloc, &mut builder, &[], &[InterfaceType::U32])?;
    add_function(alloc, &mut builder, &[param], &[InterfaceType::U32])?;
    Some(builder.finish())
}

/// A component that exports the first of these functions, core function 7, and imports the second.
fn component_of(alloc: Global, param: InterfaceType) -> Option<Component> {
    let plain = CanonicalOptions {
        instance: RuntimeInstance::from_u32(0),
        string_encoding: StringEncoding::Utf8,
        async_: false,
        post_return: None,
    };
    let options = OptionsIndex::from_u32(0);
    let export = Export {
        ty: TypeFuncIndex::from_u32(0),
        func: 7,
        options,
    };
    let import = Import::Host {
        ty: TypeFuncIndex::from_u32(1),
        options,
    };
    let exports = vec![in alloc; export].ok()?;
    let imports = vec![in alloc; import].ok()?;
    let options = vec![in alloc; plain].ok()?;
    let types = types_of(alloc, param)?;
    Some(Component {
        types: InstanceType::new(types, StoreId::from_u64(1)),
        options,
        exports,
        imports,
    })
}

/// Asks for the import with this word, and then returns 9.
fn ask_and_return(alloc: Global, word: u32) -> Option<Vec<Action>> {
    let ask = Action::Ask(0, Words::from_slice(alloc, &[ValRaw::u32(word)]).ok()?);
    let answer = Action::Return(Words::from_slice(alloc, &[ValRaw::u32(9)]).ok()?);
    vec![in alloc; ask, answer].ok()
}

/// The word that a guest was resumed with, where it asked once and then returned.
fn resumed(events: &[Event]) -> Option<u64> {
    let [
        Event::Start { func: 7, .. },
        Event::Ask { index: 0, .. },
        Event::Resume { words, .. },
        Event::Return { .. },
    ] = events
    else {
        return None;
    };
    match words.as_slice() {
        [word] => Some(word.get_u64()),
        _ => None,
    }
}

/// What a call answered, and what it left. Its results were `false` before: whether they are 9 then, or still `false`.
#[derive(Clone, Copy)]
struct Called {
    answer: Option<Result<(), Error>>,
    is_trapped: bool,
    resumed: Option<u64>,
    refusals: u64,
    results: (bool, bool),
}

/// Calls the function of a component whose import takes this type, where the guest asks with this word. The function that serves it is from a
/// u32 to the number after it.
fn call(alloc: Global, param: InterfaceType, word: u32) -> Option<Called> {
    let func = HostFunc::func_wrap(|_view: &mut HostView<'_, '_, ()>, (x,): (u32,)| -> Result<
        (u32,),
        HostStop,
    > { Ok((x.wrapping_add(1),)) });
    let actions = ask_and_return(alloc, word)?;
    let core = core_of(alloc, 1, component_of(alloc, param)?, actions)?;
    let mut store = Store::new(core, OneTyped { func, refusals: 0 }, 100);
    let mut results = [Val::Bool(false)];
    let answer = match store.func(ExportIndex::from_u32(0)) {
        Some(f) => Some(f.call(alloc, &mut store, &[], &mut results)),
        None => None,
    };
    let events = store.core_mut().guest_mut().take_journal();
    Some(Called {
        answer,
        is_trapped: store.is_trapped(),
        resumed: resumed(events.as_slice()),
        refusals: store.imports().refusals,
        results: (results[0] == Val::U32(9), results[0] == Val::Bool(false)),
    })
}

#[test]
fn a_function_over_rust_types_serves_an_ask(rt: HostRuntime) {
    let is_served = match call(rt.alloc(), InterfaceType::U32, 41) {
        Some(called) => [
            called.answer == Some(Ok(())) && !called.is_trapped,
            called.resumed == Some(42) && called.refusals == 0,
            called.results == (true, false),
        ],
        None => [false; 3],
    };
    assert!(rt; is_served == [true; 3]);
}

#[test]
fn a_function_over_other_rust_types_is_refused(rt: HostRuntime) {
    let is_refused = match call(rt.alloc(), InterfaceType::S32, 5) {
        Some(called) => [
            called.answer == Some(Err(Error::HostRefused(0))),
            called.is_trapped && called.refusals == 1,
            called.results == (false, true),
        ],
        None => [false; 3],
    };
    assert!(rt; is_refused == [true; 3]);
}

#[test]
fn imports_of_a_script_begin_without_refusals(rt: HostRuntime) {
    let alloc = rt.alloc();
    let refusals = ScriptedImports::new(alloc, Vec::new(alloc)).refusals();
    assert!(rt; refusals == 0);
}
