//! Passes a list of 1,000,000 numbers to a guest, gets it back, and says whether it is the same: with `Func::call`, where the word is
//! `dynamic`, or with `TypedFunc::call`, where it is `typed`. `docs/COSTS.md` has what each takes.
#![tactic(auto)]

ghost use Rattle.canon_func.specs.Stores.{IsOwned};

mod component;
mod failure;

use canon_example_guests::Mirror;
use canon_func::{Func, Store, TypedFunc};
use canon_host::NoImports;
use canon_memory::Memory;
use canon_types::{ExportIndex, StoreId};
use canon_value::{Core, Val};
use component::component_of;
use failure::Failure;
use std::alloc::Global;
use std::env;

/// How many numbers the list has.
const ITEMS: u32 = 1_000_000;

/// How many bytes the guest's memory has: enough for a list of numbers of four bytes each.
const MEMORY: u64 = 4_194_304;

type ListStore = Store<(), Mirror, NoImports>;

fn main(rt: HostRuntime) -> Result<(), Failure> {
    let alloc = rt.alloc();
    let word = env::args(&rt)?.nth(1);
    let mut store = store_of(alloc)?;
    let Some(func) = store.func(ExportIndex::from_u32(0)) else {
        return Err(Failure::NoExport);
    };
    let (count, is_same) = match word.as_deref() {
        Some("dynamic") => call_dynamic(alloc, &mut store, func)?,
        Some("typed") => call_typed(alloc, &mut store, func)?,
        _ => return Err(Failure::NoSuchWord),
    };
    println!(rt; "{count} items, equal: {is_same}")?;
    Ok(())
}

/// The number at a place of the list.
fn number(place: u32) -> u32 {
    place.wrapping_mul(2_654_435_761)
}

fn call_dynamic(alloc: Global, store: &mut ListStore, func: Func) -> Result<(usize, bool), Failure>
    requires { IsOwned store.old func }
{
    let mut items = Vec::new(alloc);
    for place in 0..ITEMS {
        items.push(Val::U32(number(place)))?;
    }
    let params = [Val::List(items)];
    let mut results = [Val::Bool(false)];
    func.call(alloc, store, &params, &mut results)?;
    let [Val::List(told)] = &results else {
        return Err(Failure::NoList);
    };
    Ok((told.len(), results == params))
}

fn call_typed(alloc: Global, store: &mut ListStore, func: Func) -> Result<(usize, bool), Failure>
    requires { IsOwned store.old func }
{
    let func: TypedFunc<(Vec<u32>,), (Vec<u32>,)> = func.typed(store)?;
    let mut items = Vec::new(alloc);
    for place in 0..ITEMS {
        items.push(number(place))?;
    }
    let params = items.clone()?;
    let (told,) = func.call(alloc, store, (params,))?;
    Ok((told.len(), told == items))
}

/// A store whose guest returns the list that it is passed.
fn store_of(alloc: Global) -> Result<ListStore, Failure> {
    let id = StoreId::from_u64(1);
    let component = component_of(alloc, id)?;
    if !component.check() {
        return Err(Failure::BadComponent);
    }
    let memory = Memory::new(alloc, MEMORY)?;
    let core = Core::new(
        alloc,
        id,
        (),
        Mirror::new(alloc),
        memory,
        component,
        8,
        u64::MAX,
    )?;
    Ok(Store::new(core, NoImports::new(), 0))
}
