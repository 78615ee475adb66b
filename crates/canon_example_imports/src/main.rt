//! Two functions of the host. A guest asks for the time, and has a line written in a diary. Where the diary is full, the host refuses.
#![tactic(auto)]

ghost use Rattle.std.specs.Prelude.{◌≡◌, ◌+◌, ◌%◌, ◌^◌, ◌<◌, Err, IfOk, IsOk, Some, length, slice_get};
ghost use Rattle.canon_context.specs.declared.host.HostStop.TheVariants as stop;
ghost use Rattle.canon_val.specs.declared.val.Val.TheVariants as val;

mod component;
mod door;
mod failure;
mod imported;

use canon_func::Store;
use canon_host::{HostFunc, HostStop, HostView, Imports};
use canon_memory::Memory;
use canon_types::{ExportIndex, StoreId, TypeFunc};
use canon_value::{Core, Val};
use component::component_of;
use door::Door;
use failure::Failure;
use imported::TwoImports;
use std::alloc::Global;

/// How many bytes the guest's memory has.
const MEMORY: u64 = 4_096;

/// How many handles may live: none is made.
const HANDLES: u64 = 0;

/// How much fuel each call, and each ask, has for lifting.
const FUEL: u64 = 1_000;

/// How many asks each call may have served.
const TURNS: u64 = 2;

/// How many lines the diary has room for.
const LINES: usize = 2;

/// The data of the store, which both functions reach: the time, and the lines of the diary.
#[derive(Drop)]
struct House {
    time: u32,
    diary: Vec<Line>,
}

/// What was done, and when.
#[derive(Drop)]
struct Line {
    time: u32,
    text: String,
}

fn main(rt: HostRuntime) -> Result<(), Failure> {
    let alloc = rt.alloc();
    let clock = HostFunc::func_new(
        |view: &mut HostView<'_, '_, House>, _ty: &TypeFunc, _params: &[Val], results: &mut [Val]| -> Result<
            (),
            HostStop,
        >
            ensures state { view.new.state.ghost_name ≡ view.old.state.ghost_name }
            ensures tables { view.new.tables ≡ view.old.tables }
            ensures ticks { view.new.state.now ≡ record view.old.state.now { time = (view.old.state.now.time + 1) % 2 ^ 32 } }
            ensures ok { IsOk result }
            ensures answers { 0 < length results.new → slice_get results.new 0 ≡ Some (val.U32 view.new.state.now.time) }
        {
            view.state.time = view.state.time.wrapping_add(1);
            if let Some(result) = results.first_mut() {
                *result = Val::U32(view.state.time);
            }
            Ok(())
        },
    );
    let diary = HostFunc::func_new(
        move |view: &mut HostView<
            '_,
            '_,
            House,
        >, _ty: &TypeFunc, params: &[Val], results: &mut [Val]| -> Result<(), HostStop>
            ensures state { view.new.state.ghost_name ≡ view.old.state.ghost_name }
            ensures tables { view.new.tables ≡ view.old.tables }
            ensures time { view.new.state.now.time ≡ view.old.state.now.time }
            ensures full { length view.old.state.now.diary.items ≡ 2 → (result ≡ Err stop.Refused) × (view.new.state.now ≡ view.old.state.now) }
            ensures writes { IfOk result (λ _. length view.new.state.now.diary.items ≡ length view.old.state.now.diary.items + 1) }
        { write(alloc, view.state, params, results) },
    );
    let imports = TwoImports {
        clock,
        diary,
        refusals: 0,
    };
    let mut store = store_of(alloc, imports)?;
    swing(&rt, alloc, &mut store, true)?;
    swing(&rt, alloc, &mut store, false)?;
    // There is no room for a third line.
    swing(&rt, alloc, &mut store, true)?;
    println!(rt; "refused asks: {}", store.imports().refusals)?;
    print_house(&rt, store.core_mut().data_mut())
}

/// Writes a line in the diary, and answers how many lines there are. A full diary is left as it is, and the host refuses.
fn write(
    alloc: Global,
    house: &mut House,
    params: &[Val],
    results: &mut [Val],
) -> Result<(), HostStop>
    ensures time { house.new.time ≡ house.old.time }
    ensures full { length house.old.diary.items ≡ 2 → (result ≡ Err stop.Refused) × (house.new ≡ house.old) }
    ensures writes { IfOk result (λ _. length house.new.diary.items ≡ length house.old.diary.items + 1) }
{
    let ([Val::U32(time), Val::String(text)], [result]) = (params, results) else {
        return Err(HostStop::Refused);
    };
    if house.diary.len() >= LINES {
        return Err(HostStop::Refused);
    }
    let Ok(text) = text.clone() else {
        return Err(HostStop::OutOfMemory);
    };
    if house.diary.push(Line { time: *time, text }).is_err() {
        return Err(HostStop::OutOfMemory);
    }
    *result = Val::U32(house.diary.len() as u32);
    Ok(())
}

/// A store: the component, its guest with its memory, the data of the host, and what serves the imports.
fn store_of<I: Imports<House, Door> + Drop>(
    alloc: Global,
    imports: I,
) -> Result<Store<House, Door, I>, Failure>
    ensures imports { IfOk result (λ store. store.imports ≡ imports) }
{
    let id = StoreId::from_u64(1);
    let component = component_of(alloc, id)?;
    if !component.check() {
        return Err(Failure::BadComponent);
    }
    let memory = Memory::new(alloc, MEMORY)?;
    let (house, door) = (
        House {
            time: 0,
            diary: Vec::new(alloc),
        },
        Door::new(alloc),
    );
    let core = Core::new(alloc, id, house, door, memory, component, HANDLES, FUEL)?;
    Ok(Store::new(core, imports, TURNS))
}

/// Opens or closes the door, and prints which line of the diary tells it, or why the call is refused.
fn swing<I: Imports<House, Door>>(
    rt: &impl Print,
    alloc: Global,
    store: &mut Store<House, Door, I>,
    open: bool,
) -> Result<(), Failure>
    requires { I.ready store.old.imports }
    ensures { I.ready store.new.imports }
{
    let Some(func) = store.func(ExportIndex::from_u32(0)) else {
        return Err(Failure::NoExport);
    };
    let mut results = [Val::Bool(false)];
    match func.call(alloc, store, &[Val::Bool(open)], &mut results) {
        Ok(()) => {
            let [Val::U32(line)] = results else {
                return Err(Failure::NoAnswer);
            };
            println!(rt; "line {line}")?;
        }
        Err(error) => println!(rt; "refused: {error}")?,
    }
    Ok(())
}

/// Prints the time, and what was written down.
fn print_house(rt: &impl Print, house: &House) -> Result<(), Failure> {
    println!(rt; "time: {}", house.time)?;
    for line in house.diary.iter() {
        println!(rt; "{} at {}", line.text, line.time)?;
    }
    Ok(())
}
