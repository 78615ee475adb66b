//! How a function over values serves one ask.

ghost use Rattle.std.specs.Prelude.{◌≡◌, ◌≤◌, ◌<◌, ◌++◌, IfOk, drop, false, length, replicate, take};
ghost use Rattle.canon_model.specs.Shape.{member_count};
ghost use Rattle.canon_types.specs.Table.{tuple_members};
ghost use Rattle.canon_context.specs.Asks.{SameButHandles};
ghost use Rattle.canon_context.specs.Core.{SameButLedger, component_types};
ghost use Rattle.canon_context.specs.Host.{Keeps};
ghost use Rattle.canon_val.specs.declared.val.Val.TheVariants as val;
ghost use Rattle.canon_host.specs.Asked.{HasWordsEnough, IsAsked};
ghost use Rattle.canon_host.specs.Serves.{Answers, CallsFunction, CallsBlank, AnswersInRow, LiftsAsked, ServesEntered, ServesInRow};

use crate::asked::{params_words, value_count};
use crate::conclude::conclude;
use crate::{Asked, HostError, HostStop, HostView};
use canon_memory::{Guest, ValRaw};
use canon_types::{OutOfMemory, TypeFunc};
use canon_value::{Core, Fault, LiftContext, Val, lift_args};
use std::alloc::Global;

/// Enters a scope, lifts the parameters, calls the function once, tests the pointer for the results, ends the scope and leaves it, and
/// lowers the results. Answers the parameters and then the results.
pub(crate) fn serve<
    T,
    G: Guest,
    F: Fn(&mut HostView<'_, '_, T>, &TypeFunc, &[Val], &mut [Val]) -> Result<(), HostStop>,
>(
    alloc: Global,
    f: &F,
    core: &mut Core<T, G>,
    asked: &Asked,
    storage: &mut [ValRaw],
) -> Result<Vec<Val>, HostError>
    requires keeps { Keeps F.Fn f.now }
    requires asked { IsAsked core.old.component asked.now }
    requires room { HasWordsEnough (component_types core.old) asked.now storage.old }
    ensures serves { ServesInRow F.Fn f.now G.seen G.moves asked.now core.old storage.old result core.new storage.new }
    ensures same { core.new ≡ record core.old { state = core.new.state; guest = core.new.guest; memory = core.new.memory; ledger = core.new.ledger } }
{
    match core.enter() {
        Ok(_) => serve_entered(alloc, f, core, asked, storage),
        Err(_) => Err(HostError::Fault(Fault::OutOfMemory)),
    }
}

/// The same in the scope of the ask, which is the top one.
fn serve_entered<
    T,
    G: Guest,
    F: Fn(&mut HostView<'_, '_, T>, &TypeFunc, &[Val], &mut [Val]) -> Result<(), HostStop>,
>(
    alloc: Global,
    f: &F,
    core: &mut Core<T, G>,
    asked: &Asked,
    storage: &mut [ValRaw],
) -> Result<Vec<Val>, HostError>
    requires keeps { Keeps F.Fn f.now }
    requires asked { IsAsked core.old.component asked.now }
    requires room { HasWordsEnough (component_types core.old) asked.now storage.old }
    ensures serves { AnswersInRow (λ told. ServesEntered (CallsBlank F.Fn f.now asked.now) G.seen G.moves asked.now core.old storage.old told core.new storage.new) result }
    ensures same { core.new ≡ record core.old { state = core.new.state; guest = core.new.guest; memory = core.new.memory; ledger = core.new.ledger } }
{
    match lift(alloc, core, asked, storage) {
        Ok(params) => answer(f, core, asked, params, storage),
        Err(fault) => Err(HostError::Fault(fault)),
    }
}

/// Lifts the parameters from the first words.
fn lift<T, G>(
    alloc: Global,
    core: &mut Core<T, G>,
    asked: &Asked,
    storage: &[ValRaw],
) -> Result<Vec<Val>, Fault>
    requires asked { IsAsked core.old.component asked.now }
    requires room { HasWordsEnough (component_types core.old) asked.now storage.now }
    ensures lifts { LiftsAsked asked.now core.old storage.now result core.new }
{
    let tuple = asked.func.params;
    let count = params_words(core.component().types.types(), tuple);
    let words = &storage[..count];
    let mut cx = LiftContext::new(core, asked.options);
    lift_args(alloc, &mut cx, tuple, words)
}

/// Calls the function with these parameters, and ends the ask.
fn answer<
    T,
    G: Guest,
    F: Fn(&mut HostView<'_, '_, T>, &TypeFunc, &[Val], &mut [Val]) -> Result<(), HostStop>,
>(
    f: &F,
    core: &mut Core<T, G>,
    asked: &Asked,
    params: Vec<Val>,
    storage: &mut [ValRaw],
) -> Result<Vec<Val>, HostError>
    requires keeps { Keeps F.Fn f.now }
    requires asked { IsAsked core.old.component asked.now }
    requires room { HasWordsEnough (component_types core.old) asked.now storage.old }
    ensures answers { AnswersInRow (λ told. Answers (CallsBlank F.Fn f.now asked.now) G.seen G.moves asked.now core.old params.items storage.old told core.new storage.new) result }
    ensures same { core.new ≡ record core.old { state = core.new.state; guest = core.new.guest; memory = core.new.memory; ledger = core.new.ledger } }
{
    let given = params.len();
    let count = value_count(core.component().types.types(), asked.func.results);
    let Ok(mut values) = with_slots(params, count) else {
        return Err(HostError::Fault(Fault::OutOfMemory));
    };
    match call(f, core, asked, &mut values, given) {
        Ok(()) => {}
        Err(HostStop::Refused) => return Err(HostError::Refused),
        Err(HostStop::OutOfMemory) => return Err(HostError::Fault(Fault::OutOfMemory)),
    }
    match conclude(core, asked, &values[given..], storage) {
        Ok(()) => Ok(values),
        Err(fault) => Err(HostError::Fault(fault)),
    }
}

/// Adds so many slots for results.
fn with_slots(params: Vec<Val>, count: usize) -> Result<Vec<Val>, OutOfMemory>
    ensures { IfOk result (λ values. values.items ≡ params.items ++ replicate count (val.Bool false)) }
{
    let mut values = params;
    if values.reserve(count).is_err() {
        return Err(OutOfMemory);
    }
    for _ in 0..count {
        values.push_reserved(Val::Bool(false));
    }
    Ok(values)
}

/// Calls the function over the parameters and the slots after them.
fn call<
    T,
    G,
    F: Fn(&mut HostView<'_, '_, T>, &TypeFunc, &[Val], &mut [Val]) -> Result<(), HostStop>,
>(
    f: &F,
    core: &mut Core<T, G>,
    asked: &Asked,
    values: &mut [Val],
    given: usize,
) -> Result<(), HostStop>
    requires keeps { Keeps F.Fn f.now }
    requires asked { IsAsked core.old.component asked.now }
    requires given { given ≤ length values.old }
    ensures calls { CallsFunction F.Fn f.now asked.now core.old (take given values.old) (drop given values.old) result core.new (drop given values.new) }
    ensures params { take given values.new ≡ take given values.old }
    ensures count { length values.new ≡ length values.old }
{
    let (params, results) = values.split_at_mut(given);
    core.host_call(f, asked.ty, params, results)
}
