//! How a function over Rust types serves one ask.

ghost use Rattle.std.specs.Prelude.{◌≡◌, ◌≤◌, ◌<◌, length, take};
ghost use Rattle.canon_context.specs.Asks.{SameButHandles};
ghost use Rattle.canon_context.specs.Core.{component_types};
ghost use Rattle.canon_host.specs.Asked.{HasWordsEnough, IsAsked, RestStays};
ghost use Rattle.canon_host.specs.Serves.{AnswersBy, ConcludesBy, EndsAsk, IsResultPlace, ServesEnteredBy};
ghost use Rattle.canon_host.specs.ServesTyped.{FitRustTypes, CallsTyped, LiftsTyped, LowersTyped, ServesTyped, Untold, typed_steps};
ghost use Rattle.canon_context.specs.Host.{StaticKeeps};
ghost use Rattle.canon_types.specs.Table.{result_members};
ghost use Rattle.canon_types.specs.declared.types.InterfaceType.TheVariants.{Tuple};

use crate::asked::{first_words, params_words};
use crate::conclude::end_ask;
use crate::{Asked, HostError, HostStop, HostView};
use canon_args::{lift_params, lower_results};
use canon_lift::Lift;
use canon_lower::Lower;
use canon_memory::{Guest, ValRaw};
use canon_value::{Core, Fault, LiftContext, LowerContext};
use std::alloc::Global;

/// Enters a scope, lifts the parameters, calls the function once, tests the pointer for the results, ends the scope and leaves it, and
/// lowers the results.
pub(crate) fn serve_typed<
    T,
    G: Guest,
    P: Lift,
    R: Lower,
    F: Fn(&mut HostView<'_, '_, T>, P) -> Result<R, HostStop>,
>(
    alloc: Global,
    f: &F,
    core: &mut Core<T, G>,
    asked: &Asked,
    storage: &mut [ValRaw],
) -> Result<(), HostError>
    requires keeps { StaticKeeps F.Fn f.now }
    requires typed { FitRustTypes P.fits R.fits core.old.component.types asked.now.func }
    requires asked { IsAsked core.old.component asked.now }
    requires room { HasWordsEnough (component_types core.old) asked.now storage.old }
    ensures serves { ServesTyped F.Fn f.now P.reading R.walks R.gives G.seen G.moves asked.now core.old storage.old result core.new storage.new }
    ensures same { core.new ≡ record core.old { state = core.new.state; guest = core.new.guest; memory = core.new.memory; ledger = core.new.ledger } }
{
    match core.enter() {
        Ok(_) => serve_entered(alloc, f, core, asked, storage),
        Err(_) => Err(HostError::Fault(Fault::OutOfMemory)),
    }
}

/// The same in the scope of the ask, which is the top one.
fn serve_entered<
    T,
    G: Guest,
    P: Lift,
    R: Lower,
    F: Fn(&mut HostView<'_, '_, T>, P) -> Result<R, HostStop>,
>(
    alloc: Global,
    f: &F,
    core: &mut Core<T, G>,
    asked: &Asked,
    storage: &mut [ValRaw],
) -> Result<(), HostError>
    requires keeps { StaticKeeps F.Fn f.now }
    requires typed { FitRustTypes P.fits R.fits core.old.component.types asked.now.func }
    requires asked { IsAsked core.old.component asked.now }
    requires room { HasWordsEnough (component_types core.old) asked.now storage.old }
    ensures serves { Untold (λ told. ServesEnteredBy (typed_steps F.Fn f.now P.reading R.walks R.gives G.seen G.moves asked.now) asked.now core.old storage.old told core.new storage.new) result }
    ensures same { core.new ≡ record core.old { state = core.new.state; guest = core.new.guest; memory = core.new.memory; ledger = core.new.ledger } }
{
    let lifted: Result<P, Fault> = lift(alloc, core, asked, storage);
    match lifted {
        Ok(params) => answer(f, core, asked, params, storage),
        Err(fault) => Err(HostError::Fault(fault)),
    }
}

/// Lifts the parameters from the first words.
fn lift<T, G, P: Lift>(
    alloc: Global,
    core: &mut Core<T, G>,
    asked: &Asked,
    storage: &[ValRaw],
) -> Result<P, Fault>
    requires fits { P.fits core.old.component.types (Tuple asked.now.func.params) }
    requires asked { IsAsked core.old.component asked.now }
    requires room { HasWordsEnough (component_types core.old) asked.now storage.now }
    ensures lifts { LiftsTyped P.reading asked.now core.old storage.now result core.new }
{
    let tuple = asked.func.params;
    let count = params_words(core.component().types.types(), tuple);
    let words = &storage[..count];
    let mut cx = LiftContext::new(core, asked.options);
    lift_params(alloc, &mut cx, tuple, words)
}

/// Calls the function with these parameters, and ends the ask.
fn answer<
    T,
    G: Guest,
    P: Lift,
    R: Lower,
    F: Fn(&mut HostView<'_, '_, T>, P) -> Result<R, HostStop>,
>(
    f: &F,
    core: &mut Core<T, G>,
    asked: &Asked,
    params: P,
    storage: &mut [ValRaw],
) -> Result<(), HostError>
    requires keeps { StaticKeeps F.Fn f.now }
    requires fits { R.fits core.old.component.types (Tuple asked.now.func.results) }
    requires asked { IsAsked core.old.component asked.now }
    requires room { HasWordsEnough (component_types core.old) asked.now storage.old }
    ensures answers { Untold (λ told. AnswersBy (typed_steps F.Fn f.now P.reading R.walks R.gives G.seen G.moves asked.now) asked.now core.old params storage.old told core.new storage.new) result }
    ensures same { core.new ≡ record core.old { state = core.new.state; guest = core.new.guest; memory = core.new.memory; ledger = core.new.ledger } }
{
    let called: Result<R, HostStop> = call(f, core, params);
    let mut results = match called {
        Ok(results) => results,
        Err(HostStop::Refused) => return Err(HostError::Refused),
        Err(HostStop::OutOfMemory) => return Err(HostError::Fault(Fault::OutOfMemory)),
    };
    match conclude(core, asked, &mut results, storage) {
        Ok(()) => Ok(()),
        Err(fault) => Err(HostError::Fault(fault)),
    }
}

/// Calls the function.
fn call<T, G, P, R, F: Fn(&mut HostView<'_, '_, T>, P) -> Result<R, HostStop>>(
    f: &F,
    core: &mut Core<T, G>,
    params: P,
) -> Result<R, HostStop>
    requires keeps { StaticKeeps F.Fn f.now }
    ensures calls { CallsTyped F.Fn f.now core.old params result core.new }
{
    core.host_call_static(f, params)
}

/// Tests the pointer for the results, ends the scope of the ask and leaves it, and lowers the results.
fn conclude<T, G: Guest, R: Lower>(
    core: &mut Core<T, G>,
    asked: &Asked,
    results: &mut R,
    storage: &mut [ValRaw],
) -> Result<(), Fault>
    requires fits { R.fits core.old.component.types (Tuple asked.now.func.results) }
    requires asked { IsAsked core.old.component asked.now }
    requires room { HasWordsEnough (component_types core.old) asked.now storage.old }
    ensures concludes { ConcludesBy (EndsAsk G.seen G.moves asked.now) (LowersTyped G.seen G.moves R.walks R.gives asked.now) asked.now core.old results.old storage.old result core.new storage.new }
    ensures same { SameButHandles core.old core.new }
{
    match end_ask(core, asked, storage) {
        Ok(at) => lower(core, asked, at, results, storage),
        Err(fault) => Err(fault),
    }
}

/// Lowers the results to the first words, or to the address.
fn lower<T, G: Guest, R: Lower>(
    core: &mut Core<T, G>,
    asked: &Asked,
    at: u64,
    results: &mut R,
    storage: &mut [ValRaw],
) -> Result<(), Fault>
    requires fits { R.fits core.old.component.types (Tuple asked.now.func.results) }
    requires asked { IsAsked core.old.component asked.now }
    requires room { HasWordsEnough (component_types core.old) asked.now storage.old }
    requires place { IsResultPlace (component_types core.old) asked.now core.old.memory storage.old at }
    ensures lowers { LowersTyped G.seen G.moves R.walks R.gives asked.now core.old at results.old result core.new storage.new }
    ensures rest { RestStays (result_members (component_types core.old) asked.now.func) storage.old storage.new }
    ensures same { SameButHandles core.old core.new }
{
    let tuple = asked.func.results;
    let count = first_words(core.component().types.types(), tuple);
    let words = &mut storage[..count];
    let mut cx = LowerContext::new(core, asked.options);
    lower_results(&mut cx, results, tuple, at, words)
}
