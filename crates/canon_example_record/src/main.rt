//! A record of one's own that crosses: a list of notes is passed to a guest, and comes back.
#![tactic(auto)]

mod component;
mod failure;
mod note;

use canon_example_guests::Mirror;
use canon_func::{Store, TypedFunc};
use canon_host::NoImports;
use canon_memory::Memory;
use canon_types::{ExportIndex, StoreId};
use canon_value::Core;
use component::component_of;
use failure::Failure;
use note::Note;
use std::alloc::Global;

fn main(rt: HostRuntime) -> Result<(), Failure> {
    let alloc = rt.alloc();
    let mut store = store_of(alloc)?;
    let Some(func) = store.func(ExportIndex::from_u32(0)) else {
        return Err(Failure::NoExport);
    };
    // Whether these are the function's types is tested here, once.
    let mirror: TypedFunc<(Vec<Note>,), (Vec<Note>,)> = func.typed(&store)?;
    let notes = vec![in alloc;
        note_of(alloc, "milk", 3)?,
        note_of(alloc, "Käse", 4_294_967_295)?,
    ]?;
    let (told,) = mirror.call(alloc, &mut store, (notes,))?;
    for Note { title, score } in told.iter() {
        println!(rt; "{title}: {score}")?;
    }
    Ok(())
}

/// A note.
fn note_of(alloc: Global, title: &str, score: u32) -> Result<Note, Failure> {
    let title = String::from_str(alloc, title)?;
    Ok(Note { title, score })
}

/// A store whose guest returns the list that it is passed.
fn store_of(alloc: Global) -> Result<Store<(), Mirror, NoImports>, Failure> {
    let id = StoreId::from_u64(1);
    let component = component_of(alloc, id)?;
    if !component.check() {
        return Err(Failure::BadComponent);
    }
    let memory = Memory::new(alloc, 65_536)?;
    let core = Core::new(
        alloc,
        id,
        (),
        Mirror::new(alloc),
        memory,
        component,
        8,
        1_000,
    )?;
    Ok(Store::new(core, NoImports::new(), 0))
}
