//! One recorded call, made again.

ghost use Rattle.std.specs.Prelude.{◌≡◌, ◌↔◌, ◌<◌, ◌^◌, IfErr, IfOk, IfSome, IsTrue, length};
ghost use Rattle.canon_types.specs.Table.{types_of};
ghost use Rattle.canon_context.specs.Core.{component_types};
ghost use Rattle.canon_context.specs.declared.fault.Fault.TheVariants as fault;
ghost use Rattle.canon_func.specs.Stores.{IsOwned, type_of};
ghost use Rattle.canon_func.specs.declared.error.Error.TheVariants as error;
ghost use Rattle.canon_replay_guest.specs.Replaying.{call_events};
ghost use Rattle.canon_replay.specs.Calls.{ComparesImages, EndsOk, IsReady, IsResultTuple, MakesAgain, made_again, results_shape_in};
ghost use Rattle.canon_replay.specs.Made.{CallsAgain};
ghost use Rattle.canon_replay.specs.Outcomes.{has_passed, outcome_at};
ghost use Rattle.canon_replay.specs.Stores.{guest_in_store};

use crate::again::Again;
use crate::outcome::{Outcome, has_passed, outcome_at};
use crate::results::have_one_image;
use crate::store::ReplayStore;
use canon_func::{Error, Func};
use canon_recording::ReplayError;
use canon_types::ExportIndex;
use canon_value::{Fault, Val};
use std::alloc::Global;

/// Makes call k again. Answers nothing where it ended with the recorded results after all its recorded events.
pub(crate) fn make_again(
    alloc: Global,
    store: &mut ReplayStore,
    k: u32,
    call: Again,
) -> Result<Option<Outcome>, ReplayError>
    requires ready { IsReady k store.old }
    requires known { call.export < length store.old.core.component.exports.items }
    requires recorded { k < length (guest_in_store store.old).recorded }
    requires some { 0 < length (call_events (guest_in_store store.old).recorded k) }
    requires few { length (call_events (guest_in_store store.old).recorded k) < 2 ^ 32 }
    ensures makes { IfOk result (λ o. MakesAgain k (made_again (guest_in_store store.old).recorded k call) store.old store.new o) }
    ensures short { IfErr result (λ e. e ≡ ReplayError.OutOfMemory) }
{
    let Some(func) = store.func(ExportIndex::from_u32(call.export)) else {
        unreachable!()
    };
    let Ok(mut results) = slots_of(alloc, result_count(store, &func)) else {
        return Err(ReplayError::OutOfMemory);
    };
    match enter(alloc, store, &func, &call.params, &mut results) {
        Ok(()) => returned(alloc, store, k, &func, call.results, results),
        Err(error) => {
            if is_short(error) {
                return Err(ReplayError::OutOfMemory);
            }
            Ok(Some(outcome_in(store, k)))
        }
    }
}

/// Whether memory was short.
fn is_short(e: Error) -> bool
    ensures { IsTrue result ↔ (e ≡ error.Fault fault.OutOfMemory) }
{
    match e {
        Error::Fault(Fault::OutOfMemory) => true,
        _ => false,
    }
}

/// How many results a function has.
fn result_count(store: &ReplayStore, func: &Func) -> usize
    requires owned { IsOwned store.now func.now }
    ensures { IfSome (type_of store.now func.now) (λ t. result ≡ length (types_of (component_types store.now.core) t.results)) }
{
    let ty = func.ty(store);
    store
        .core()
        .component()
        .types
        .types()
        .tuple(ty.results)
        .types
        .len()
}

/// So many slots for results.
fn slots_of(alloc: Global, slots: usize) -> Result<Vec<Val>, ReplayError>
    ensures { IfOk result (λ results. length results.items ≡ slots) }
{
    let mut results = Vec::new(alloc);
    for _ in 0..slots {
        if results.push(Val::Bool(false)).is_err() {
            return Err(ReplayError::OutOfMemory);
        }
    }
    Ok(results)
}

/// Calls a function, as `Func::call`.
fn enter(
    alloc: Global,
    store: &mut ReplayStore,
    func: &Func,
    params: &[Val],
    results: &mut [Val],
) -> Result<(), Error>
    requires owned { IsOwned store.old func.now }
    ensures { CallsAgain func.now params.now (length results.old) store.old store.new result results.new }
{
    func.call(alloc, store, params, results)
}

/// What became of call k, which answered Ok with these results.
fn returned(
    alloc: Global,
    store: &mut ReplayStore,
    k: u32,
    func: &Func,
    recorded: Vec<Val>,
    results: Vec<Val>,
) -> Result<Option<Outcome>, ReplayError>
    requires owned { IsOwned store.old func.now }
    requires few { length (call_events (guest_in_store store.old).recorded k) < 2 ^ 32 }
    ensures same { store.new ≡ store.old }
    ensures passed { IfOk result (λ o. EndsOk k func.now store.old results.items recorded.items o) }
    ensures short { IfErr result (λ e. e ≡ ReplayError.OutOfMemory) }
{
    if !has_passed_in(store, k) {
        return Ok(Some(outcome_in(store, k)));
    }
    match have_recorded(alloc, store, func, recorded, results) {
        Ok(true) => Ok(None),
        Ok(false) => Ok(Some(outcome_in(store, k))),
        Err(error) => Err(error),
    }
}

/// Whether the results of a function are the recorded ones, bit for bit.
fn have_recorded(
    alloc: Global,
    store: &ReplayStore,
    func: &Func,
    recorded: Vec<Val>,
    results: Vec<Val>,
) -> Result<bool, ReplayError>
    requires owned { IsOwned store.now func.now }
    ensures compares { ComparesImages (results_shape_in (component_types store.now.core) (type_of store.now func.now)) results.items recorded.items result }
    ensures tuple { IsResultTuple store.now.core.component func.now.export }
{
    let ty = func.ty(store);
    let types = store.core().component().types.types();
    let _tuple = types.tuple(ty.results);
    have_one_image(alloc, types, ty.results, results, recorded)
}

/// Whether the guest passed all recorded events of call k, and didn't trap.
fn has_passed_in(store: &mut ReplayStore, k: u32) -> bool
    ensures is { result ≡ has_passed k (guest_in_store store.old) }
    ensures same { store.new ≡ store.old }
{
    has_passed(store.core_mut().guest_mut().guest(), k)
}

/// Where the guest is in call k.
fn outcome_in(store: &mut ReplayStore, k: u32) -> Outcome
    requires few { length (call_events (guest_in_store store.old).recorded k) < 2 ^ 32 }
    ensures is { result ≡ outcome_at k (guest_in_store store.old) }
    ensures same { store.new ≡ store.old }
{
    outcome_at(store.core_mut().guest_mut().guest(), k)
}
