//! Plays the items of a script on one store, and records each.

ghost use Rattle.std.specs.Prelude.{◌≡◌, ◌≢◌, ◌++◌, [], All, Err, IfOk, OnErr, OnOk, Some, length, map};
ghost use Rattle.canon_value_parts.specs.Resources.{all_resources};
ghost use Rattle.canon_script.specs.Script.{IsWellFormed, call_item, call_item_view, drop_item, item_view, new_item, play_of};
ghost use Rattle.canon_player.specs.Session.{IsEnd, Session, WasDropped, answer_values, answer_outcome};
ghost use Rattle.canon_player.specs.Steps.{MadeAnswer, MakesCall, MakesResource, PlaysItem, PlaysItems, PlaysNext};
ghost use Rattle.canon_player.specs.Stores.{HasItsTypes, IsCallable, IsPlayable, answers_of, limits_of, state_of};

use crate::component::{ScriptStore, component_of, store_of};
use crate::served::served_after;
use crate::typed::play_typed;
use canon_func::{Error, resource_drop};
use canon_imports::ScriptedImports;
use canon_ledger::ResourceFault;
use canon_memory::Events;
use canon_resources::{ResourceAny, ResourceType};
use canon_script::{
    CallItem, DropItem, Item, NewItem, Script, are_known, resources_in, with_resources,
};
use canon_transcript::{Answer, Head, Record, Transcript};
use canon_types::{ExportIndex, OutOfMemory};
use canon_value::{Fault, Val};
use std::alloc::Global;

/// Plays a script, and adds a record for each of its items. Want of memory leaves the transcript empty.
pub fn play(alloc: Global, script: Script, transcript: &mut Transcript) -> Result<(), OutOfMemory>
    requires empty { transcript.old ≡ [] }
    requires sound { IsWellFormed (play_of script) }
    ensures ok { OnOk result (Session (play_of script) transcript.new) }
    ensures err { OnErr result (transcript.new ≡ transcript.old) }
{
    let Script {
        memory,
        heap,
        fuel,
        turns,
        handles,
        encoding,
        types,
        posts,
        imports,
        answers,
        items,
    } = script;
    let component = component_of(alloc, types, encoding, &posts, imports)?;
    let imports = ScriptedImports::new(alloc, answers);
    let store = store_of(
        alloc, component, imports, memory, heap, fuel, turns, handles,
    )?;
    *transcript = play_items(alloc, store, items)?;
    Ok(())
}

/// Plays items, one after another, on a store of their own.
fn play_items(
    alloc: Global,
    store: ScriptStore,
    items: Vec<Item>,
) -> Result<Transcript, OutOfMemory>
    requires fresh { store.core.guest.events ≡ [] }
    requires own_types { HasItsTypes store }
    requires playable { All (IsPlayable store.core.component) (map item_view items.items) }
    ensures { IfOk result (λ records. PlaysItems store (map item_view items.items) records) }
{
    let mut store = store;
    play_each(alloc, &mut store, items)
}

/// Plays items, one after another, on this store.
fn play_each(
    alloc: Global,
    store: &mut ScriptStore,
    items: Vec<Item>,
) -> Result<Transcript, OutOfMemory>
    requires fresh { store.old.core.guest.events ≡ [] }
    requires own_types { HasItsTypes store.old }
    requires playable { All (IsPlayable store.old.core.component) (map item_view items.items) }
    ensures { IfOk result (λ records. PlaysItems store.old (map item_view items.items) records) }
{
    let mut records = Transcript::new(alloc);
    let mut list = Vec::new(alloc);
    for item in items {
        play_next(alloc, store, &mut list, &mut records, item)?;
    }
    Ok(records)
}

/// Plays an item, and adds its record and the resources of its answer.
fn play_next(
    alloc: Global,
    store: &mut ScriptStore,
    list: &mut Vec<ResourceAny>,
    records: &mut Transcript,
    item: Item,
) -> Result<(), OutOfMemory>
    requires fresh { store.old.core.guest.events ≡ [] }
    requires own_types { HasItsTypes store.old }
    requires playable { IsPlayable store.old.core.component (item_view item) }
    ensures next { OnOk result (PlaysNext store.old (item_view item) list.old.items records.old store.new list.new.items records.new) }
    ensures fresh { store.new.core.guest.events ≡ [] }
    ensures same { store.new.core.component ≡ store.old.core.component }
    ensures id { store.new.core.id ≡ store.old.core.id }
    ensures limits { limits_of store.new ≡ limits_of store.old }
    ensures answers { answers_of store.new ≡ answers_of store.old }
{
    let record = play_item(alloc, store, list, item)?;
    add_resources(alloc, list, &record.answer)?;
    records.push(record)?;
    Ok(())
}

/// Adds the resources of an answer to the list.
fn add_resources(
    alloc: Global,
    list: &mut Vec<ResourceAny>,
    answer: &Answer,
) -> Result<(), OutOfMemory>
    ensures { OnOk result (list.new.items ≡ list.old.items ++ all_resources (answer_values answer.now)) }
{
    match answer {
        Answer::Ok(values) => {
            let found = resources_in(alloc, values)?;
            list.extend_from_slice(&found)?;
            Ok(())
        }
        Answer::Err(_) => Ok(()),
        Answer::Typecheck => Ok(()),
        Answer::Skipped => Ok(()),
    }
}

/// Plays an item, with the resources that were made and answered so far, and gives its record.
fn play_item(
    alloc: Global,
    store: &mut ScriptStore,
    list: &[ResourceAny],
    item: Item,
) -> Result<Record, OutOfMemory>
    requires fresh { store.old.core.guest.events ≡ [] }
    requires own_types { HasItsTypes store.old }
    requires playable { IsPlayable store.old.core.component (item_view item) }
    ensures played { IfOk result (PlaysItem store.old (item_view item) list.now store.new) }
    ensures fresh { store.new.core.guest.events ≡ [] }
    ensures same { store.new.core.component ≡ store.old.core.component }
    ensures id { store.new.core.id ≡ store.old.core.id }
    ensures limits { limits_of store.new ≡ limits_of store.old }
    ensures answers { answers_of store.new ≡ answers_of store.old }
{
    match item {
        Item::Call(call) => play_call(alloc, store, list, call),
        Item::Typed(call) => play_typed(alloc, store, call),
        Item::New(new) => play_new(alloc, store, list, new),
        Item::Drop(drop) => play_drop(alloc, store, list, drop),
    }
}

/// The record of an item that did nothing.
pub(crate) fn idle_record(alloc: Global, store: &ScriptStore, head: Head, answer: Answer) -> Record
    ensures head { result.head ≡ head }
    ensures answer { result.answer ≡ answer }
    ensures events { result.events ≡ [] }
    ensures served { result.served.items ≡ [] }
    ensures live { result.live ≡ store.now.core.ledger.handles.counter.live }
{
    Record {
        head,
        events: Events::new(alloc),
        served: Vec::new(alloc),
        answer,
        live: store.live_handles(),
    }
}

/// Plays a call, unless a resource among its parameters isn't in the list.
fn play_call(
    alloc: Global,
    store: &mut ScriptStore,
    list: &[ResourceAny],
    call: CallItem,
) -> Result<Record, OutOfMemory>
    requires fresh { store.old.core.guest.events ≡ [] }
    requires playable { IsCallable store.old.core.component (call_item_view call) }
    ensures played { IfOk result (PlaysItem store.old (call_item (call_item_view call)) list.now store.new) }
    ensures fresh { store.new.core.guest.events ≡ [] }
    ensures same { store.new.core.component ≡ store.old.core.component }
    ensures id { store.new.core.id ≡ store.old.core.id }
    ensures limits { limits_of store.new ≡ limits_of store.old }
    ensures answers { answers_of store.new ≡ answers_of store.old }
{
    if !are_known(alloc, &call.params, list.len())? {
        let head = Head::Call(call.func);
        return Ok(idle_record(alloc, store, head, Answer::Skipped));
    }
    make_call(alloc, store, list, call)
}

/// Calls a function of the store, and gives the record of the call.
fn make_call(
    alloc: Global,
    store: &mut ScriptStore,
    list: &[ResourceAny],
    call: CallItem,
) -> Result<Record, OutOfMemory>
    requires fresh { store.old.core.guest.events ≡ [] }
    requires playable { IsCallable store.old.core.component (call_item_view call) }
    ensures called { IfOk result (MakesCall store.old (call_item_view call) list.now store.new) }
    ensures fresh { store.new.core.guest.events ≡ [] }
    ensures same { store.new.core.component ≡ store.old.core.component }
    ensures id { store.new.core.id ≡ store.old.core.id }
    ensures limits { limits_of store.new ≡ limits_of store.old }
    ensures answers { answers_of store.new ≡ answers_of store.old }
{
    let CallItem {
        func,
        params,
        guest,
        slots,
        reallocs,
        post_trap,
    } = call;
    let params = with_resources(alloc, &params, list)?;
    let mut results = slots_of(alloc, slots)?;
    let asked = store.imports().lines().len();
    let scripted = store.core_mut().guest_mut().guest_mut();
    scripted.load(guest, reallocs, post_trap, false);
    let f = store.func(ExportIndex::from_u32(func)).unwrap();
    let called = f.call(alloc, store, &params, &mut results);
    let live = store.live_handles();
    let events = store.core_mut().guest_mut().take_journal();
    let served = served_after(alloc, store.imports().lines(), asked)?;
    let answer = answer_of(called, results)?;
    Ok(Record {
        head: Head::Call(func),
        events,
        served,
        answer,
        live,
    })
}

/// Makes a resource of the host, unless the store is trapped.
fn play_new(
    alloc: Global,
    store: &mut ScriptStore,
    list: &[ResourceAny],
    item: NewItem,
) -> Result<Record, OutOfMemory>
    requires fresh { store.old.core.guest.events ≡ [] }
    ensures played { IfOk result (PlaysItem store.old (new_item item) list.now store.new) }
    ensures fresh { store.new.core.guest.events ≡ [] }
    ensures same { store.new.core.component ≡ store.old.core.component }
    ensures id { store.new.core.id ≡ store.old.core.id }
    ensures limits { limits_of store.new ≡ limits_of store.old }
    ensures answers { answers_of store.new ≡ answers_of store.old }
{
    if store.is_trapped() {
        return Ok(idle_record(alloc, store, Head::New, Answer::Skipped));
    }
    let answer = made_answer(alloc, new_resource(store, item))?;
    Ok(idle_record(alloc, store, Head::New, answer))
}

/// A resource of the host of a type that a number gives: an own handle is put into the host's table, a borrow has none.
fn new_resource(store: &mut ScriptStore, item: NewItem) -> Result<ResourceAny, ResourceFault>
    ensures made { MakesResource item.borrow item store.old.core.ledger result store.new.core.ledger }
    ensures same { store.new ≡ record store.old { core = record store.old.core { ledger = store.new.core.ledger } } }
{
    let ty = ResourceType::host_dynamic(item.ty);
    if item.borrow {
        return Ok(ResourceAny::new_borrow(item.rep, ty));
    }
    match store
        .core_mut()
        .host_resource_lower_own(item.rep, None, None)
    {
        Ok(index) => Ok(ResourceAny::new(index, ty, true)),
        Err(fault) => Err(fault),
    }
}

/// The answer of a new resource.
fn made_answer(
    alloc: Global,
    made: Result<ResourceAny, ResourceFault>,
) -> Result<Answer, OutOfMemory>
    ensures { IfOk result (MadeAnswer made) }
{
    match made {
        Ok(resource) => {
            let mut values = Vec::with_capacity(alloc, 1)?;
            values.push(Val::Resource(resource))?;
            Ok(Answer::Ok(values))
        }
        Err(ResourceFault::OutOfMemory) => Err(OutOfMemory),
        Err(fault) => Ok(Answer::Err(Error::Fault(Fault::Resource(fault)))),
    }
}

/// Drops a resource of the list, unless the store is trapped or the list has no such one.
fn play_drop(
    alloc: Global,
    store: &mut ScriptStore,
    list: &[ResourceAny],
    item: DropItem,
) -> Result<Record, OutOfMemory>
    requires fresh { store.old.core.guest.events ≡ [] }
    ensures played { IfOk result (PlaysItem store.old (drop_item item) list.now store.new) }
    ensures fresh { store.new.core.guest.events ≡ [] }
    ensures same { store.new.core.component ≡ store.old.core.component }
    ensures id { store.new.core.id ≡ store.old.core.id }
    ensures limits { limits_of store.new ≡ limits_of store.old }
    ensures answers { answers_of store.new ≡ answers_of store.old }
{
    let head = Head::Drop(item.resource);
    if store.is_trapped() {
        return Ok(idle_record(alloc, store, head, Answer::Skipped));
    }
    match list.get(item.resource as usize) {
        Some(resource) => make_drop(alloc, store, *resource, item),
        None => Ok(idle_record(alloc, store, head, Answer::Skipped)),
    }
}

/// Drops a resource, and gives the record of the drop.
fn make_drop(
    alloc: Global,
    store: &mut ScriptStore,
    resource: ResourceAny,
    item: DropItem,
) -> Result<Record, OutOfMemory>
    requires fresh { store.old.core.guest.events ≡ [] }
    ensures head { IfOk result (λ r. r.head ≡ Head.Drop item.resource) }
    ensures dropped { IfOk result (WasDropped (Some resource) item.dtor_trap (state_of store.old) (state_of store.new)) }
    ensures live { IfOk result (λ r. r.live ≡ store.new.core.ledger.handles.counter.live) }
    ensures fresh { store.new.core.guest.events ≡ [] }
    ensures same { store.new.core.component ≡ store.old.core.component }
    ensures id { store.new.core.id ≡ store.old.core.id }
    ensures limits { limits_of store.new ≡ limits_of store.old }
    ensures answers { answers_of store.new ≡ answers_of store.old }
{
    let scripted = store.core_mut().guest_mut().guest_mut();
    scripted.load(Vec::new(alloc), Vec::new(alloc), false, item.dtor_trap);
    let dropped = resource_drop(resource, store);
    let live = store.live_handles();
    let events = store.core_mut().guest_mut().take_journal();
    let answer = answer_of(dropped, Vec::new(alloc))?;
    Ok(Record {
        head: Head::Drop(item.resource),
        events,
        served: Vec::new(alloc),
        answer,
        live,
    })
}

/// So many slots for results.
fn slots_of(alloc: Global, slots: u64) -> Result<Vec<Val>, OutOfMemory>
    ensures { IfOk result (λ results. length results.items ≡ slots) }
{
    let mut results = Vec::new(alloc);
    for _ in 0..slots {
        results.push(Val::Bool(false))?;
    }
    Ok(results)
}

/// The answer of a call that left these results.
fn answer_of(called: Result<(), Error>, results: Vec<Val>) -> Result<Answer, OutOfMemory>
    ensures outcome { IfOk result (λ answer. answer_outcome answer ≡ called) }
    ensures values { IfOk result (λ answer. OnOk called (answer_values answer ≡ results.items)) }
    ensures memory_left { IfOk result (λ answer. called ≢ Err (Error.Fault Fault.OutOfMemory)) }
    ensures played { IfOk result IsEnd }
{
    match called {
        Ok(()) => Ok(Answer::Ok(results)),
        Err(Error::Fault(Fault::OutOfMemory)) => Err(OutOfMemory),
        Err(error) => Ok(Answer::Err(error)),
    }
}
