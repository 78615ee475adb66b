//! An embedding, whole: a component, a guest, a function of the host that the guest asks for, a resource of the host that is lent to the guest,
//! calls, and what comes of a guest that lies and of a host that errs.
#![tactic(auto)]

ghost use Rattle.std.specs.Prelude.{[], ◌≡◌, ◌+◌, ◌%◌, ◌^◌, ◌<◌, IfOk, IsNone, IsOk, Some, false, length, replicate, slice_get};
ghost use Rattle.canon_host.specs.Forms.{MayGiveValues};
ghost use Rattle.canon_host.specs.HostSide.{gives_unlogged};
ghost use Rattle.canon_host.specs.Imports.{AnswersOnly};
ghost use Rattle.canon_example.specs.Clock.{AreClocks, Ticks, after_ticks, asks_of};
ghost use Rattle.canon_example.specs.Component.{IsNotes};
ghost use Rattle.canon_ledger.specs.Ledger.{new_ledger};
ghost use Rattle.std.specs.List.{All};
ghost use Rattle.canon_lowering.specs.Lowering.{SaysLawful};
ghost use Rattle.canon_func.specs.Call.{refused_by};
ghost use Rattle.canon_func.specs.Stores.{IsOwned, callee_of};
ghost use Rattle.canon_example.specs.Watched.{StartsRight, added_events, added_marks};
ghost use Rattle.canon_val.specs.declared.val.Val.TheVariants as val;

mod component;
mod failure;
mod imported;
mod notes;

use canon_func::{Error, Func, Store, resource_drop};
use canon_host::{DynamicHostFn, HostFunc, HostStop, HostView, Imports, NoImports};
use canon_memory::{Journaled, Memory, Watched};
use canon_resources::Resource;
use canon_types::{ExportIndex, StoreId, TypeFunc};
use canon_value::{Core, Fault, Val};
use component::{ADD, BROKEN, COUNT, Notebook, component_of};
use failure::Failure;
use imported::OneImport;
use notes::Notes;
use std::alloc::Global;

/// How many bytes the guest's memory has. They are few, since the journal copies them at each start, ask, resume and return.
const MEMORY: u64 = 4_096;

/// How many handles may live.
const HANDLES: u64 = 8;

/// How much fuel each call has for lifting.
const FUEL: u64 = 1_000_000;

/// How many asks each call may have served.
const TURNS: u64 = 100;

/// The number by which the host knows its notebook.
const NOTEBOOK: u32 = 7;

/// The data of the store: a clock, which goes on by one at each look.
#[derive(Drop)]
struct Clock {
    now: u32,
}

fn main(rt: HostRuntime) -> Result<(), Failure> {
    let alloc = rt.alloc();
    keep_notes(&rt, alloc)?;
    // Each store of a program has a number of its own.
    let mut store = store_of(alloc, StoreId::from_u64(2), NoImports::new())?;
    make_a_mistake(&rt, alloc, &mut store)
}

/// Has a guest keep notes, which asks for the time.
fn keep_notes(rt: &impl Print, alloc: Global) -> Result<(), Failure> {
    // A function of the host is a closure. It reaches the data of the store and the tables of the host's resources, and leaves both in their
    // places.
    let clock = HostFunc::func_new(
        |view: &mut HostView<'_, '_, Clock>, _ty: &TypeFunc, _params: &[Val], results: &mut [Val]| -> Result<
            (),
            HostStop,
        >
            ensures state { view.new.state.ghost_name ≡ view.old.state.ghost_name }
            ensures tables { view.new.tables ≡ view.old.tables }
            ensures ticks { view.new.state.now.now ≡ (view.old.state.now.now + 1) % 2 ^ 32 }
            ensures ok { IsOk result }
            ensures answers { 0 < length results.new → slice_get results.new 0 ≡ Some (val.U32 view.new.state.now.now) }
        {
            view.state.now = view.state.now.wrapping_add(1);
            if let Some(result) = results.first_mut() {
                *result = Val::U32(view.state.now);
            }
            Ok(())
        },
    );
    let imports = clock_imports(clock);
    let mut store = store_of(alloc, StoreId::from_u64(1), imports)?;
    take_notes(rt, alloc, &mut store)
}

/// What serves the imports by a clock.
fn clock_imports<
    F: Fn(&mut HostView<'_, '_, Clock>, &TypeFunc, &[Val], &mut [Val]) -> Result<(), HostStop>,
>(clock: HostFunc<DynamicHostFn<F>>) -> OneImport<F>
    requires ticks { AnswersOnly F.Fn clock Ticks }
    ensures func { result.func ≡ clock }
    ensures clocks { AreClocks (gives_unlogged (MayGiveValues F.Fn result.func)) }
{
    OneImport {
        func: clock,
        refusals: 0,
    }
}

/// A store: the component, its guest with its memory, its journal and the marks of its answers, the data of the host, and what serves the imports.
fn store_of<I: Imports<Clock, Journaled<Watched<Notes>>> + Drop>(
    alloc: Global,
    id: StoreId,
    imports: I,
) -> Result<Store<Clock, Journaled<Watched<Notes>>, I>, Failure>
    ensures imports { IfOk result (λ store. store.imports ≡ imports) }
    ensures component { IfOk result (λ store. IsNotes id store.core.component) }
    ensures limits { IfOk result (λ store. (store.core.fuel ≡ 1_000_000) × (store.turns ≡ 100)) }
    ensures handles { IfOk result (λ store. store.core.ledger ≡ new_ledger 256 8 0) }
    ensures fresh { IfOk result (λ store. (store.core.id ≡ id) × (store.core.state ≡ record { now = 0 }) × (store.trapped ≡ false)) }
    ensures guest { IfOk result (λ store. store.core.guest.guest.guest.notes ≡ 0) }
    ensures journal { IfOk result (λ store. store.core.guest.events ≡ []) }
    ensures memory { IfOk result (λ store. store.core.memory ≡ replicate 4_096 0) }
{
    let memory = Memory::new(alloc, MEMORY)?;
    let component = component_of(alloc, id)?;
    if !component.check() {
        return Err(Failure::BadComponent);
    }
    // The guest doesn't know its own allocator's laws: each of its answers is tested.
    let watched = Watched::new(alloc, Notes::new(alloc));
    let (clock, guest) = (Clock { now: 0 }, Journaled::new(alloc, watched));
    let core = Core::new(alloc, id, clock, guest, memory, component, HANDLES, FUEL)?;
    Ok(Store::new(core, imports, TURNS))
}

/// Calls what the component exports. The last call is refused, since a guest that lied is called no more.
fn take_notes<I: Imports<Clock, Journaled<Watched<Notes>>>>(
    rt: &impl Print,
    alloc: Global,
    store: &mut Store<Clock, Journaled<Watched<Notes>>, I>,
) -> Result<(), Failure>
    requires { I.ready store.old.imports }
{
    add_note(rt, alloc, store, ADD, "Shopping\nmilk, bread and tea")?;
    add_note(rt, alloc, store, ADD, "Call Anna")?;
    lend_notebook(rt, alloc, store)?;
    // The guest answers with a pointer past the end of its memory.
    add_note(rt, alloc, store, BROKEN, "Call Anna")?;
    add_note(rt, alloc, store, ADD, "Call Anna")
}

/// Calls an export with a text.
fn add_note<I: Imports<Clock, Journaled<Watched<Notes>>>>(
    rt: &impl Print,
    alloc: Global,
    store: &mut Store<Clock, Journaled<Watched<Notes>>, I>,
    export: u32,
    text: &str,
) -> Result<(), Failure>
    requires { I.ready store.old.imports }
    ensures { I.ready store.new.imports }
{
    let text = String::from_str(alloc, text)?;
    call(rt, alloc, store, export, &[Val::String(text)])
}

/// Makes a resource of the host, lends it to the guest for one call, and drops it.
fn lend_notebook<I: Imports<Clock, Journaled<Watched<Notes>>>>(
    rt: &impl Print,
    alloc: Global,
    store: &mut Store<Clock, Journaled<Watched<Notes>>, I>,
) -> Result<(), Failure>
    requires { I.ready store.old.imports }
    ensures { I.ready store.new.imports }
{
    let notebook: Resource<Notebook> = Resource::new_own(NOTEBOOK);
    let notebook = notebook.try_into_resource_any(&mut store.core_mut().tables())?;
    call(rt, alloc, store, COUNT, &[Val::Resource(notebook)])?;
    resource_drop(notebook, store)?;
    println!(rt; "handles: {}", store.live_handles())?;
    Ok(())
}

/// Calls the function that takes a text with a number. The guest isn't started, but the call had begun, so the store is trapped.
fn make_a_mistake<I: Imports<Clock, Journaled<Watched<Notes>>>>(
    rt: &impl Print,
    alloc: Global,
    store: &mut Store<Clock, Journaled<Watched<Notes>>, I>,
) -> Result<(), Failure>
    requires { I.ready store.old.imports }
{
    call(rt, alloc, store, ADD, &[Val::U32(5)])?;
    println!(rt; "trapped: {}", store.is_trapped())?;
    Ok(())
}

/// Calls an export, and prints what it answers, or why there is no answer.
fn call<I: Imports<Clock, Journaled<Watched<Notes>>>>(
    rt: &impl Print,
    alloc: Global,
    store: &mut Store<Clock, Journaled<Watched<Notes>>, I>,
    export: u32,
    params: &[Val],
) -> Result<(), Failure>
    requires { I.ready store.old.imports }
    ensures { I.ready store.new.imports }
{
    let Some(func) = store.func(ExportIndex::from_u32(export)) else {
        return Err(Failure::NoExport);
    };
    let mut results = [Val::Bool(false)];
    let answer = call_watched(alloc, store, &func, params, &mut results);
    // What the guest was asked and did in this call, of which the contract of `call` speaks. Here it is let go.
    let _events = store.core_mut().guest_mut().take_journal();
    print_outcome(rt, answer, &results)
}

/// Calls a function. Where each answer of `realloc` that it added is marked lawful, the words that the guest was started with and its memory
/// represent the parameters: nothing is assumed of the guest. Where it is Ok, and the imports are clocks, the clock went on once for each
/// time that the guest asked for it.
fn call_watched<I: Imports<Clock, Journaled<Watched<Notes>>>>(
    alloc: Global,
    store: &mut Store<Clock, Journaled<Watched<Notes>>, I>,
    func: &Func,
    params: &[Val],
    results: &mut [Val],
) -> Result<(), Error>
    requires owned { IsOwned store.old func.now }
    requires ready { I.ready store.old.imports }
    ensures started { IsNone (refused_by result) → All SaysLawful (added_marks store.old.core.guest.guest.marks store.new.core.guest.guest.marks)
        → StartsRight (callee_of store.old func.now) params.now (added_events store.old.core.guest.events store.new.core.guest.events) }
    ensures ticked { IsOk result → AreClocks (I.gives (I.plan store.old.imports)) → IsNotes store.old.core.component.types.store store.old.core.component
        → store.new.core.state.now ≡ after_ticks (asks_of 0 (added_events store.old.core.guest.events store.new.core.guest.events)) store.old.core.state.now }
    ensures still_ready { I.ready store.new.imports }
{
    func.call(alloc, store, params, results)
}

/// Prints what a call answers, or why there is no answer.
fn print_outcome(
    rt: &impl Print,
    answer: Result<(), Error>,
    results: &[Val],
) -> Result<(), Failure> {
    match answer {
        Ok(()) => print_answer(rt, results)?,
        Err(Error::Fault(Fault::TypeMismatch(place))) => {
            println!(rt; "refused: the value at place {place} is not of its type")?;
        }
        Err(error) => println!(rt; "refused: {error}")?,
    }
    Ok(())
}

/// Prints a number of notes, or a note, which is a record of its title, its words and its time.
fn print_answer(rt: &impl Print, results: &[Val]) -> Result<(), Failure> {
    if let [Val::U32(count)] = results {
        println!(rt; "notes: {count}")?;
        return Ok(());
    }
    let [Val::Record(fields)] = results else {
        return Err(Failure::NoAnswer);
    };
    let [
        (_, Val::String(title)),
        (_, Val::U32(words)),
        (_, Val::U32(time)),
    ] = fields.as_slice()
    else {
        return Err(Failure::NoAnswer);
    };
    println!(rt; "{title}: {words} words, at {time}")?;
    Ok(())
}
