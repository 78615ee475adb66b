//! Plays typed calls.

ghost use Rattle.std.specs.Prelude.{◌≡◌, ◌≢◌, [], Err, IfOk};
ghost use Rattle.canon_func.specs.Call.{entry_refusal};
ghost use Rattle.canon_func.specs.Stores.{type_of};
ghost use Rattle.canon_func.specs.Typed.{FitsParams, FitsResults};
ghost use Rattle.canon_literals.specs.Literals.{literals_view};
ghost use Rattle.canon_script.specs.Script.{typed_item_view};
ghost use Rattle.canon_script.specs.Typed.{typed_view};
ghost use Rattle.canon_player.specs.Session.{Tells, TypedCalled, TypedWith, WasTyped, plan_with};
ghost use Rattle.canon_player.specs.Stores.{HasItsTypes, IsTypable, answers_of, callee_at, limits_of, state_of};

use crate::component::ScriptStore;
use crate::player::idle_record;
use crate::served::served_after;
use crate::told::Told;
use canon_func::{Error, TypedFunc};
use canon_lift::Lift;
use canon_lower::Lower;
use canon_script::{TypedItem, TypedParams};
use canon_scripted::{Action, Ordered};
use canon_transcript::{Answer, Head, Record};
use canon_typed::{ComponentNamedList, TypecheckFailed};
use canon_types::{ExportIndex, OutOfMemory};
use canon_value::Fault;
use std::alloc::Global;

/// A typed call without its parameters.
#[derive(Drop)]
struct TypedCall {
    func: u32,
    guest: Vec<Action>,
    reallocs: Vec<Ordered>,
    post_trap: bool,
}

/// Plays a typed call, by its signature.
pub(crate) fn play_typed(
    alloc: Global,
    store: &mut ScriptStore,
    item: TypedItem,
) -> Result<Record, OutOfMemory>
    requires fresh { store.old.core.guest.events ≡ [] }
    requires own_types { HasItsTypes store.old }
    requires typable { IsTypable store.old.core.component item.func item.reallocs.items }
    ensures head { IfOk result (λ r. r.head ≡ Head.Typed item.func) }
    ensures typed { IfOk result (WasTyped (typed_view item.params) (callee_at store.old.core.component item.func) (limits_of store.old) (answers_of store.old) (typed_item_view item)
        (state_of store.old) (state_of store.new)) }
    ensures live { IfOk result (λ r. r.live ≡ store.new.core.ledger.handles.counter.live) }
    ensures fresh { store.new.core.guest.events ≡ [] }
    ensures same { store.new.core.component ≡ store.old.core.component }
    ensures id { store.new.core.id ≡ store.old.core.id }
    ensures limits { limits_of store.new ≡ limits_of store.old }
    ensures answers { answers_of store.new ≡ answers_of store.old }
{
    let TypedItem {
        func,
        params,
        guest,
        reallocs,
        post_trap,
    } = item;
    let call = TypedCall {
        func,
        guest,
        reallocs,
        post_trap,
    };
    match params {
        TypedParams::Number(n) => make_typed::<(u32,), (u32,)>(alloc, store, call, (n,)),
        TypedParams::Text(text) => make_typed::<(String,), (String,)>(alloc, store, call, (text,)),
        TypedParams::Numbers(numbers) => {
            make_typed::<(Vec<u32>,), (Vec<u32>,)>(alloc, store, call, (numbers,))
        }
        TypedParams::Pairs(pairs, flag) => {
            make_typed::<(Vec<(String, u64)>, Option<bool>), (Result<u32, String>,)>(
                alloc,
                store,
                call,
                (pairs, flag),
            )
        }
    }
}

/// Calls a function of the store with Rust types, where they are its, and gives the record of the call.
fn make_typed<P: ComponentNamedList + Lower, R: ComponentNamedList + Lift + Told>(
    alloc: Global,
    store: &mut ScriptStore,
    call: TypedCall,
    params: P,
) -> Result<Record, OutOfMemory>
    requires fresh { store.old.core.guest.events ≡ [] }
    requires own_types { HasItsTypes store.old }
    requires typable { IsTypable store.old.core.component call.func call.reallocs.items }
    ensures head { IfOk result (λ r. r.head ≡ Head.Typed call.func) }
    ensures typed { IfOk result (TypedWith (record { fits = P.fits; walks = P.walks; gives = P.gives }) (record { fits = R.fits; reading = R.reading; literals = R.literals })
        call.func (callee_at store.old.core.component call.func) (limits_of store.old) (answers_of store.old) (plan_with call.guest.items call.reallocs.items call.post_trap) params (state_of store.old) (state_of store.new)) }
    ensures live { IfOk result (λ r. r.live ≡ store.new.core.ledger.handles.counter.live) }
    ensures fresh { store.new.core.guest.events ≡ [] }
    ensures same { store.new.core.component ≡ store.old.core.component }
    ensures id { store.new.core.id ≡ store.old.core.id }
    ensures limits { limits_of store.new ≡ limits_of store.old }
    ensures answers { answers_of store.new ≡ answers_of store.old }
{
    let f = store.func(ExportIndex::from_u32(call.func)).unwrap();
    let typed: Result<TypedFunc<P, R>, TypecheckFailed> = f.typed(store);
    match typed {
        Ok(typed) => call_typed(alloc, store, typed, call, params),
        Err(TypecheckFailed) => {
            let head = Head::Typed(call.func);
            Ok(idle_record(alloc, store, head, Answer::Typecheck))
        }
    }
}

/// Calls a function of the store whose Rust types these are.
fn call_typed<P: ComponentNamedList + Lower, R: ComponentNamedList + Lift + Told>(
    alloc: Global,
    store: &mut ScriptStore,
    f: TypedFunc<P, R>,
    call: TypedCall,
    params: P,
) -> Result<Record, OutOfMemory>
    requires fresh { store.old.core.guest.events ≡ [] }
    requires own_types { HasItsTypes store.old }
    requires typable { IsTypable store.old.core.component call.func call.reallocs.items }
    requires func { f.func ≡ record { store = store.old.core.id; export = call.func } }
    requires params { FitsParams P.fits store.old.core.component.types (type_of store.old f.func) }
    requires results { FitsResults R.fits store.old.core.component.types (type_of store.old f.func) }
    ensures head { IfOk result (λ r. r.head ≡ Head.Typed call.func) }
    ensures called { IfOk result (λ r. TypedCalled (record { fits = P.fits; walks = P.walks; gives = P.gives }) (record { fits = R.fits; reading = R.reading; literals = R.literals })
        call.func (callee_at store.old.core.component call.func) (limits_of store.old) (answers_of store.old) (plan_with call.guest.items call.reallocs.items call.post_trap) params
        (state_of store.old) (state_of store.new) r (entry_refusal (callee_at store.old.core.component call.func) store.old.trapped)) }
    ensures live { IfOk result (λ r. r.live ≡ store.new.core.ledger.handles.counter.live) }
    ensures fresh { store.new.core.guest.events ≡ [] }
    ensures same { store.new.core.component ≡ store.old.core.component }
    ensures id { store.new.core.id ≡ store.old.core.id }
    ensures limits { limits_of store.new ≡ limits_of store.old }
    ensures answers { answers_of store.new ≡ answers_of store.old }
{
    let TypedCall {
        func,
        guest,
        reallocs,
        post_trap,
    } = call;
    let asked = store.imports().lines().len();
    let scripted = store.core_mut().guest_mut().guest_mut();
    scripted.load(guest, reallocs, post_trap, false);
    let called = f.call(alloc, store, params);
    let live = store.live_handles();
    let events = store.core_mut().guest_mut().take_journal();
    let served = served_after(alloc, store.imports().lines(), asked)?;
    let answer = typed_answer(alloc, called)?;
    Ok(Record {
        head: Head::Typed(func),
        events,
        served,
        answer,
        live,
    })
}

/// The answer of a typed call.
fn typed_answer<R: Told>(alloc: Global, called: Result<R, Error>) -> Result<Answer, OutOfMemory>
    ensures told { IfOk result (Tells (λ results values. literals_view values ≡ R.literals results) called) }
    ensures memory_left { IfOk result (λ answer. called ≢ Err (Error.Fault Fault.OutOfMemory)) }
{
    match called {
        Ok(results) => {
            let values = results.values(alloc)?;
            Ok(Answer::Ok(values))
        }
        Err(Error::Fault(Fault::OutOfMemory)) => Err(OutOfMemory),
        Err(error) => Ok(Answer::Err(error)),
    }
}
