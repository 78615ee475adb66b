//! Carries out a command in a store, with the list of the resources that were made or answered so far.

ghost use Rattle.std.specs.Prelude.{◌≡◌, ◌⊎◌, IfOk, IfSome, IsNone, IsSome, List, Ok, OnErr, length, map};
ghost use Rattle.canon_types.specs.Table.{types_of};
ghost use Rattle.canon_func.specs.Stores.{IsOwned, type_of};
ghost use Rattle.canon_context.specs.Core.{component_types};
ghost use Rattle.canon_relay.specs.Wire.{number_bytes};
ghost use Rattle.canon_events.specs.Bytes.{events_bytes};
ghost use Rattle.canon_events.specs.Guest.{journal_kept};
ghost use Rattle.canon_serve.specs.Carries.{AnswersCall, AnswersShort, ByNumbers, CalledAt, CalledBy, CallsExport, CallsStore, CallsOk, CallsShort, CarriesOutCommand, HasExport, IsDone, IsReadParams, IsSenseless, NumberedShort, TellsCall, TellsKeptEvents, both_logs, export_named, mark_byte, results_tuple_shape, session, with_list_in, without_marks};
ghost use Rattle.canon_serve.specs.Images.{are_listed};

use crate::answer::{Answer, Senseless};
use crate::command::Command;
use crate::hosting::HostState;
use crate::images::{image_values, read_numbered_values};
use crate::imports::ChannelImports;
use crate::resources::{drop_listed, new_resource};
use canon_events::{MaybeJournaled, put_events};
use canon_func::{Error, Func, Store};
use canon_image::ImageError;
use canon_literals::{are_known, with_resources};
use canon_memory::{AnswerMark, Event, Watched};
use canon_relay::{Channel, Relay, put_number};
use canon_resources::ResourceAny;
use canon_types::{ExportIndex, OutOfMemory};
use canon_value::Val;
use std::alloc::Global;

/// A store whose code runs in an engine, whose events may be kept, whose imports are served over a channel, and each of whose answers
/// of `realloc` is tested.
pub type EngineStore<E, H> = Store<HostState<H>, Watched<MaybeJournaled<Relay<E>>>, ChannelImports>;

/// Carries out a command. A number of a resource is its place in the list, at whose end those are added that are made or answered.
pub fn carry_out<E: Channel, H: Channel>(
    alloc: Global,
    store: &mut EngineStore<E, H>,
    list: &mut Vec<ResourceAny>,
    command: &Command,
) -> Result<Answer, OutOfMemory>
    ensures done { IfOk result (λ answer. CarriesOutCommand (both_logs E.log H.log) command.now (session store.old list.old.items) (session store.new list.new.items) answer) }
    ensures short { OnErr result (AnswersShort (both_logs E.log H.log) command.now (session store.old list.old.items) (session store.new list.new.items)) }
{
    match command {
        Command::Call { export, params } => call(alloc, store, list, *export, params),
        Command::Live => live(alloc, store),
        Command::Marks => marks(alloc, store),
        Command::Drop { number } => Ok(drop_listed(alloc, store, list, *number)),
        Command::New { ty, rep } => new_resource(alloc, store, list, *ty, *rep),
        Command::Events => events(alloc, store),
        _ => Ok(Answer::Senseless(Senseless::NoCommand)),
    }
}

/// Calls an export with the parameters of an image.
fn call<E: Channel, H: Channel>(
    alloc: Global,
    store: &mut EngineStore<E, H>,
    list: &mut Vec<ResourceAny>,
    export: u64,
    params: &[u8],
) -> Result<Answer, OutOfMemory>
    ensures called { IfOk result (λ answer. CalledAt (both_logs E.log H.log) export params.now (session store.old list.old.items) (session store.new list.new.items) answer) }
    ensures short { OnErr result (CallsShort (both_logs E.log H.log) (export_named (both_logs E.log H.log) store.old export) params.now (session store.old list.old.items) (session store.new list.new.items)) }
{
    let Some(func) = func_of(store, export) else {
        return Ok(Answer::Senseless(Senseless::NoExport));
    };
    call_func(alloc, store, list, &func, params)
}

/// The function of an export.
fn func_of<E: Channel, H: Channel>(store: &EngineStore<E, H>, export: u64) -> Option<Func>
    ensures found { IfSome result (λ f. (f ≡ export_named (both_logs E.log H.log) store.now export) × IsOwned store.now f × HasExport (both_logs E.log H.log) store.now export × IsSome (type_of store.now f)) }
    ensures none { IsNone result → HasExport (both_logs E.log H.log) store.now export → ⊥ }
{
    if export > 0xffff_ffff {
        return None;
    }
    match store.func(ExportIndex::from_u32(export as u32)) {
        Some(func) => {
            let _ty = func.ty(store); // it has a type of the table
            Some(func)
        }
        None => None,
    }
}

/// Calls a function with the parameters of an image.
fn call_func<E: Channel, H: Channel>(
    alloc: Global,
    store: &mut EngineStore<E, H>,
    list: &mut Vec<ResourceAny>,
    func: &Func,
    params: &[u8],
) -> Result<Answer, OutOfMemory>
    requires owned { IsOwned store.old func.now }
    requires typed { IsSome (type_of store.old func.now) }
    ensures called { IfOk result (λ answer. IfSome (type_of store.old func.now) (λ t. CalledBy (both_logs E.log H.log) func.now t params.now (session store.old list.old.items) (session store.new list.new.items) answer)) }
    ensures short { OnErr result (CallsShort (both_logs E.log H.log) func.now params.now (session store.old list.old.items) (session store.new list.new.items)) }
{
    match params_of(alloc, store, func, params) {
        Ok((given, slots)) => call_numbered(alloc, store, list, func, &given, slots),
        Err(error) => senseless(error),
    }
}

/// Calls a function with the resources of the list in the place of the numbers among these parameters.
fn call_numbered<E: Channel, H: Channel>(
    alloc: Global,
    store: &mut EngineStore<E, H>,
    list: &mut Vec<ResourceAny>,
    func: &Func,
    given: &[Val],
    slots: usize,
) -> Result<Answer, OutOfMemory>
    requires owned { IsOwned store.old func.now }
    requires slots { IfSome (type_of store.old func.now) (λ t. slots ≡ length (types_of (component_types store.old.core) t.results)) }
    ensures called { IfOk result (λ answer. IfSome (type_of store.old func.now) (λ t. ByNumbers (both_logs E.log H.log) func.now t given.now (session store.old list.old.items) (session store.new list.new.items) answer (are_listed list.old.items given.now))) }
    ensures short { OnErr result (NumberedShort (both_logs E.log H.log) func.now given.now slots (session store.old list.old.items) (session store.new list.new.items)) }
{
    let known = are_known(alloc, given, list.len())?;
    if !known {
        return Ok(Answer::Senseless(Senseless::NoResource));
    }
    let params = with_resources(alloc, given, list)?;
    call_with(alloc, store, list, func, &params, slots)
}

/// The parameters of an image, and how many results there are.
fn params_of<E: Channel, H: Channel>(
    alloc: Global,
    store: &EngineStore<E, H>,
    func: &Func,
    bytes: &[u8],
) -> Result<(Vec<Val>, usize), ImageError>
    requires { IsOwned store.now func.now }
    ensures read { IfSome (type_of store.now func.now) (λ t. IsReadParams (both_logs E.log H.log) store.now t bytes.now result) }
{
    let ty = func.ty(store);
    let types = store.core().component().types.types();
    let params = read_numbered_values(alloc, types, ty.params, bytes)?;
    Ok((params, types.tuple(ty.results).types.len()))
}

/// Why there is no value of an image.
fn senseless(error: ImageError) -> Result<Answer, OutOfMemory>
    ensures { IfOk result (λ answer. IsSenseless error answer) }
{
    match error {
        ImageError::Truncated(place) | ImageError::Malformed(place) | ImageError::Trailing(place) =>
            Ok(Answer::Senseless(Senseless::NoImage(place))),
        // No type is refused, and no value asked for.
        ImageError::Resource | ImageError::NotOfType(_) | ImageError::OutOfMemory => Err(
            OutOfMemory,
        ),
    }
}

/// Calls a function with these parameters, and so many slots for its results.
fn call_with<E: Channel, H: Channel>(
    alloc: Global,
    store: &mut EngineStore<E, H>,
    list: &mut Vec<ResourceAny>,
    func: &Func,
    params: &[Val],
    slots: usize,
) -> Result<Answer, OutOfMemory>
    requires owned { IsOwned store.old func.now }
    requires slots { IfSome (type_of store.old func.now) (λ t. slots ≡ length (types_of (component_types store.old.core) t.results)) }
    ensures called { IfOk result (λ answer. IfSome (type_of store.old func.now) (λ t. AnswersCall (both_logs E.log H.log) func.now t params.now (session store.old list.old.items) (session store.new list.new.items) answer)) }
    ensures short { OnErr result ((session store.new list.new.items ≡ session store.old list.old.items) ⊎ CallsOk (both_logs E.log H.log) func.now params.now slots (session store.old list.old.items) (session store.new list.new.items)) }
{
    let mut results = slots_of(alloc, slots)?;
    match enter(alloc, store, list, func, params, &mut results) {
        Ok(()) => results_of(alloc, store, list, func, results),
        Err(error) => Ok(Answer::Refused(error)),
    }
}

/// Calls a function, as `Func::call`. The list stands in the store's data meanwhile.
fn enter<E: Channel, H: Channel>(
    alloc: Global,
    store: &mut EngineStore<E, H>,
    list: &mut Vec<ResourceAny>,
    func: &Func,
    params: &[Val],
    results: &mut [Val],
) -> Result<(), Error>
    requires { IsOwned store.old func.now }
    ensures { CallsExport (both_logs E.log H.log) func.now params.now (length results.old) (session store.old list.old.items) (session store.new list.new.items) result results.new }
{
    swap_lists(store, list);
    let result = call_in(alloc, store, func, params, results);
    swap_lists(store, list);
    result
}

/// Exchanges the list in the store's data with another.
fn swap_lists<E: Channel, H: Channel>(store: &mut EngineStore<E, H>, list: &mut Vec<ResourceAny>)
    ensures store { store.new ≡ with_list_in store.old list.old.items }
    ensures list { list.new.items ≡ store.old.core.state.list }
{
    store.core_mut().data_mut().swap_list(list);
}

/// Calls a function, as `Func::call`.
fn call_in<E: Channel, H: Channel>(
    alloc: Global,
    store: &mut EngineStore<E, H>,
    func: &Func,
    params: &[Val],
    results: &mut [Val],
) -> Result<(), Error>
    requires { IsOwned store.old func.now }
    ensures { CallsStore (both_logs E.log H.log) func.now params.now (length results.old) store.old store.new result results.new }
{
    func.call(alloc, store, params, results)
}

/// So many slots for results.
fn slots_of(alloc: Global, slots: usize) -> Result<Vec<Val>, OutOfMemory>
    ensures { IfOk result (λ results. length results.items ≡ slots) }
{
    let mut results = Vec::new(alloc);
    for _ in 0..slots {
        results.push(Val::Bool(false))?;
    }
    Ok(results)
}

/// The answer of a call that gave these results, whose resources are added to the list.
fn results_of<E: Channel, H: Channel>(
    alloc: Global,
    store: &EngineStore<E, H>,
    list: &mut Vec<ResourceAny>,
    func: &Func,
    results: Vec<Val>,
) -> Result<Answer, OutOfMemory>
    requires { IsOwned store.now func.now }
    ensures { IfOk result (λ answer. IfSome (type_of store.now func.now) (λ t. TellsCall (results_tuple_shape (both_logs E.log H.log) store.now t) (Ok tt) results.items list.old.items list.new.items answer)) }
{
    let ty = func.ty(store);
    let types = store.core().component().types.types();
    match image_values(alloc, types, ty.results, results, list) {
        Ok(bytes) => Ok(Answer::Done(bytes)),
        Err(_) => Err(OutOfMemory),
    }
}

/// How many handles live.
fn live<E: Channel, H: Channel>(
    alloc: Global,
    store: &EngineStore<E, H>,
) -> Result<Answer, OutOfMemory>
    ensures { IfOk result (IsDone (number_bytes store.now.core.ledger.handles.counter.live)) }
{
    let mut bytes = Vec::new(alloc);
    put_number(&mut bytes, store.live_handles())?;
    Ok(Answer::Done(bytes))
}

/// The marks of the answers of `realloc` since the last time, which are forgotten then.
fn marks<E: Channel, H: Channel>(
    alloc: Global,
    store: &mut EngineStore<E, H>,
) -> Result<Answer, OutOfMemory>
    ensures told { IfOk result (λ answer. IsDone (map mark_byte store.old.core.guest.marks) answer × (store.new ≡ without_marks (both_logs E.log H.log) store.old)) }
    ensures short { OnErr result (store.new ≡ store.old) }
{
    let guest = store.core_mut().guest_mut();
    let bytes = mark_bytes(alloc, guest.marks())?;
    guest.clear_marks();
    Ok(Answer::Done(bytes))
}

/// A byte for each mark.
fn mark_bytes(alloc: Global, marks: &[AnswerMark]) -> Result<Vec<u8>, OutOfMemory>
    ensures { IfOk result (λ bytes. bytes.items ≡ map mark_byte marks.now) }
{
    let mut bytes = Vec::new(alloc);
    for mark in marks {
        bytes.push(mark_byte(*mark))?;
    }
    Ok(bytes)
}

fn mark_byte(mark: AnswerMark) -> u8
    ensures { result ≡ mark_byte mark }
{
    let lawful = if mark.lawful { 1 } else { 0 };
    let tidy = if mark.tidy { 2 } else { 0 };
    lawful + tidy
}

/// The events since the last time, which are forgotten then.
fn events<E: Channel, H: Channel>(
    alloc: Global,
    store: &mut EngineStore<E, H>,
) -> Result<Answer, OutOfMemory>
    ensures told { IfOk result (λ answer. TellsKeptEvents (both_logs E.log H.log) (journal_kept store.old.core.guest.guest) store.old store.new answer) }
    ensures short { OnErr result (store.new ≡ store.old) }
{
    let guest = store.core_mut().guest_mut().guest_mut();
    let Some(events) = guest.journal() else {
        return Ok(Answer::Senseless(Senseless::NoEvents));
    };
    let bytes = event_bytes(alloc, events)?;
    guest.clear_journal();
    Ok(Answer::Done(bytes))
}

/// The bytes of events.
fn event_bytes(alloc: Global, events: &[Event]) -> Result<Vec<u8>, OutOfMemory>
    ensures { IfOk result (λ bytes. bytes.items ≡ events_bytes events.now) }
{
    let mut bytes = Vec::new(alloc);
    put_events(&mut bytes, events)?;
    Ok(bytes)
}
