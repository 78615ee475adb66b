//! Lists of integers that stay in memory (CanonicalABI.md, "load_list_from_range", and "load_int": the lowest byte first).

use crate::cores::{over_bytes, stays};
use canon_context::LiftContext;
use canon_lift::{Lift, WasmList};
use canon_test_core::{TestCore, list_of};
use canon_types::{InterfaceType, OptionsIndex};
use std::alloc::Global;

/// Whether the items come behind those of a vector.
fn appended(
    alloc: Global,
    core: &mut TestCore,
    ty: &InterfaceType,
    items: &mut Vec<u16>,
) -> Option<()> {
    let list: WasmList<u16> = stays(alloc, core, ty)?;
    if !list.fits_core(core) {
        return None;
    }
    let mut cx = LiftContext::new(core, OptionsIndex::from_u32(0));
    u16::linear_lift_into_from_memory(alloc, &mut cx, &list, items).ok()
}

/// How many items an iterator says to give, and those that it gives, each as 16 bits of one number; a fault as 0.
fn iterated(alloc: Global, core: &mut TestCore, ty: &InterfaceType) -> Option<(usize, u64)> {
    let list: WasmList<u16> = stays(alloc, core, ty)?;
    if !list.fits_core(core) {
        return None;
    }
    let items = list.iter(alloc, core);
    let count = items.len();
    let mut digits = 0;
    for item in items {
        digits = digits << 16 | u64::from(item.unwrap_or(0));
    }
    Some((count, digits))
}

/// What an iterator gives, and whether the items, of 1, 0x0102 and 0xffff, come behind 7 and 8.
fn listed(
    alloc: Global,
    core: &mut TestCore,
    ty: &InterfaceType,
) -> Option<(Option<(usize, u64)>, bool)> {
    let mut items = [7, 8].to_vec(alloc).ok()?;
    let is_lifted = appended(alloc, core, ty, &mut items).is_some();
    let given = iterated(alloc, core, ty);
    Some((given, is_lifted && items[..] == [7, 8, 1, 0x0102, 0xffff]))
}

#[test]
fn items_are_given_one_by_one_and_behind_those_of_a_vector(rt: HostRuntime) {
    let alloc = rt.alloc();
    let list = list_of(alloc, InterfaceType::U16);
    let bytes = [8, 0, 0, 0, 3, 0, 0, 0, 1, 0, 2, 1, 0xff, 0xff];
    let answer = over_bytes(alloc, list, &bytes, listed);
    let given = (3, 0x0001_0102_ffff);
    assert!(rt; answer == Some((Some(given), true)));
}

/// The second item.
fn second(alloc: Global, core: &mut TestCore, ty: &InterfaceType) -> Option<u16> {
    let list: WasmList<u16> = stays(alloc, core, ty)?;
    if !list.fits_core(core) {
        return None;
    }
    match list.get(alloc, core, 1) {
        Some(Ok(item)) => Some(item),
        _ => None,
    }
}

#[test]
fn an_item_is_read_in_memory(rt: HostRuntime) {
    let alloc = rt.alloc();
    let list = list_of(alloc, InterfaceType::U16);
    let bytes = [8, 0, 0, 0, 2, 0, 0, 0, 1, 0, 2, 1];
    let item = over_bytes(alloc, list, &bytes, second);
    assert!(rt; item == Some(0x0102));
}

/// How many bytes there are, and these where they are two.
fn two_bytes(alloc: Global, core: &mut TestCore, ty: &InterfaceType) -> Option<(u64, [u8; 2])> {
    let list: WasmList<u8> = stays(alloc, core, ty)?;
    let view = core.view();
    if !list.fits(&view) {
        return None;
    }
    match list.as_le_slice(&view) {
        [first, last] => Some((list.len(), [*first, *last])),
        _ => None,
    }
}

#[test]
fn bytes_are_read_in_memory(rt: HostRuntime) {
    let alloc = rt.alloc();
    let list = list_of(alloc, InterfaceType::U8);
    let bytes = over_bytes(alloc, list, &[8, 0, 0, 0, 2, 0, 0, 0, 1, 0xff], two_bytes);
    assert!(rt; bytes == Some((2, [1, 0xff])));
}
