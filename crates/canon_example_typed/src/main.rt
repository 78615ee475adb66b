//! A type of one's own that crosses: a list of points is passed to a guest, and comes back.
#![tactic(auto)]

mod component;
mod failure;
mod point;

use canon_example_guests::Mirror;
use canon_func::{Store, TypedFunc};
use canon_host::NoImports;
use canon_memory::Memory;
use canon_types::{ExportIndex, StoreId};
use canon_value::Core;
use component::component_of;
use failure::Failure;
use point::Point;
use std::alloc::Global;

fn main(rt: HostRuntime) -> Result<(), Failure> {
    let alloc = rt.alloc();
    let mut store = store_of(alloc)?;
    let Some(func) = store.func(ExportIndex::from_u32(0)) else {
        return Err(Failure::NoExport);
    };
    // Whether these are the function's types is tested here, once.
    let mirror: TypedFunc<(Vec<Point>,), (Vec<Point>,)> = func.typed(&store)?;
    let points = vec![in alloc;
        Point { x: 3, y: 4 },
        Point {
            x: 0,
            y: 4_294_967_295
        },
    ]?;
    let (told,) = mirror.call(alloc, &mut store, (points,))?;
    for Point { x, y } in told.iter() {
        println!(rt; "x = {x}, y = {y}")?;
    }
    Ok(())
}

/// A store whose guest returns the list that it is passed.
fn store_of(alloc: Global) -> Result<Store<(), Mirror, NoImports>, Failure> {
    let id = StoreId::from_u64(1);
    let component = component_of(alloc, id)?;
    if !component.check() {
        return Err(Failure::BadComponent);
    }
    let memory = Memory::new(alloc, 65_536)?;
    let core = Core::new(
        alloc,
        id,
        (),
        Mirror::new(alloc),
        memory,
        component,
        8,
        1_000,
    )?;
    Ok(Store::new(core, NoImports::new(), 0))
}
