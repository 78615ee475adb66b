//! Has the other end of a channel serve an ask of an import.

ghost use Rattle.std.specs.Prelude.{◌≡◌, ◌++◌, ◌∷◌, [], Err, IfErr, IfOk, None, OnOk, false, length, map, true};
ghost use Rattle.canon_types.specs.Table.{HasTuple, shape_of};
ghost use Rattle.canon_context.specs.Host.{HostSteps};
ghost use Rattle.canon_host.specs.Forms.{outcome};
ghost use Rattle.canon_ledger.specs.Ledger.{HostDrop, run_steps};
ghost use Rattle.canon_ledger.specs.Reached.{ledger_in, reference_in, scope_in};
ghost use Rattle.canon_literals.specs.Literals.{held_among, literals_view};
ghost use Rattle.canon_relay.specs.Relay.{PassesMessages};
ghost use Rattle.canon_relay.specs.Wire.{numbers_bytes};
ghost use Rattle.canon_serve.specs.Asks.{AsksHost, DropsBorrows, HearsNoStatus, HearsStatus, IsRefusedAsk, IsServedAsk, ReadsAnswer, borrows_among, borrows_in};
ghost use Rattle.canon_serve.specs.Images.{AreLooked, are_listed};

use crate::answer::tell_both;
use crate::command::{Unheard, hear_bytes};
use crate::hosting::HostState;
use crate::images::read_numbered_values;
use canon_host::HostStop;
use canon_image::ImageError;
use canon_ledger::{HostResourceIndex, HostResourceTables};
use canon_literals::{are_known, resources_in, with_resources};
use canon_relay::{Channel, number_at, put_numbers};
use canon_resources::{ResourceAny, ResourceAnyHandle};
use canon_types::{ComponentTypes, InterfaceType, OutOfMemory, TypeFunc, TypeTupleIndex};
use canon_value::Val;
use std::alloc::{AllocError, Global};

/// Asks for the import of this number, and drops the borrows among its parameters, which are lent for the ask alone.
pub(crate) fn serve_ask<H: Channel>(
    alloc: Global,
    state: &mut HostState<H>,
    tables: &mut HostResourceTables<'_>,
    n: u32,
    types: &ComponentTypes,
    ty: &TypeFunc,
    params: &[Val],
    slots: &mut [Val],
) -> Result<(), HostStop>
    requires { scope_in tables.old ≡ None }
    ensures asks { AsksHost H.log n types.now ty.now state.old params.now (outcome result slots.new) state.new }
    ensures drops { DropsBorrows (outcome result slots.new) params.now (ledger_in tables.old) (ledger_in tables.new) }
    ensures steps { HostSteps (ledger_in tables.old) (ledger_in tables.new) }
    ensures reference { reference_in tables.new ≡ reference_in tables.old }
{
    let Ok(borrows) = borrows_among(alloc, params) else {
        return Err(HostStop::OutOfMemory);
    };
    let result = state.ask(alloc, n, types, ty, params, slots);
    drop_all(tables, &borrows);
    result
}

/// The borrows among values.
fn borrows_among(alloc: Global, values: &[Val]) -> Result<Vec<HostResourceIndex>, OutOfMemory>
    ensures { IfOk result (λ borrows. borrows.items ≡ borrows_among values.now) }
{
    let resources = resources_in(alloc, values)?;
    borrows_in(alloc, &resources)
}

fn borrows_in(
    alloc: Global,
    resources: &[ResourceAny],
) -> Result<Vec<HostResourceIndex>, OutOfMemory>
    ensures { IfOk result (λ borrows. borrows.items ≡ borrows_in resources.now) }
{
    let mut borrows = Vec::new(alloc);
    for resource in resources {
        if let ResourceAnyHandle::Borrow(index) = resource.handle() {
            borrows.push(index)?;
        }
    }
    Ok(borrows)
}

/// Drops handles of the host's table.
fn drop_all(tables: &mut HostResourceTables<'_>, indices: &[HostResourceIndex])
    requires { scope_in tables.old ≡ None }
    ensures ledger { ledger_in tables.new ≡ run_steps (map HostDrop indices.now) (ledger_in tables.old) }
    ensures steps { HostSteps (ledger_in tables.old) (ledger_in tables.new) }
    ensures reference { reference_in tables.new ≡ reference_in tables.old }
{
    for index in indices {
        let _dropped = tables.host_resource_drop(*index);
    }
}

/// Tells the host the image of parameters, and hears that of the results.
pub(crate) fn exchange<H: Channel>(
    alloc: Global,
    host: &mut H,
    n: u32,
    asked: &[u8],
) -> Result<Vec<u8>, HostStop>
    ensures served { IfOk result (λ bytes. PassesMessages (H.log host.old) (H.log host.new) (IsServedAsk n asked.now bytes.items)) }
    ensures refused { result ≡ Err HostStop.Refused → PassesMessages (H.log host.old) (H.log host.new) (IsRefusedAsk n asked.now) }
{
    let Ok(head) = ask_head(alloc, n, asked.len() as u64) else {
        return Err(HostStop::OutOfMemory);
    };
    if !tell_both(host, &head, asked) {
        return Err(HostStop::Refused);
    }
    let (status, bytes) = match hear_status(alloc, host) {
        Ok(heard) => heard,
        Err(Unheard::Broken) => return Err(HostStop::Refused),
        Err(Unheard::OutOfMemory) => return Err(HostStop::OutOfMemory),
    };
    if status != 0 {
        return Err(HostStop::Refused);
    }
    Ok(bytes)
}

/// The numbers of an ask, spelled.
fn ask_head(alloc: Global, n: u32, len: u64) -> Result<Vec<u8>, AllocError>
    ensures { IfOk result (λ head. head.items ≡ numbers_bytes (6 ∷ n ∷ len ∷ [])) }
{
    let mut head = Vec::new(alloc);
    put_numbers(&mut head, &[6, u64::from(n), len])?;
    Ok(head)
}

/// Hears a status, and the bytes that come with it.
fn hear_status<H: Channel>(alloc: Global, host: &mut H) -> Result<(u64, Vec<u8>), Unheard>
    ensures heard { IfOk result (λ r. PassesMessages (H.log host.old) (H.log host.new) (HearsStatus r.0 r.1.items)) }
    ensures none { IfErr result (λ _. PassesMessages (H.log host.old) (H.log host.new) HearsNoStatus) }
{
    let mut head = [0u8; 16];
    if !host.hear(&mut head) {
        return Err(Unheard::Broken);
    }
    match hear_bytes(alloc, host, number_at(&head, 8)) {
        Ok(bytes) => Ok((number_at(&head, 0), bytes)),
        Err(why) => Err(why),
    }
}

/// Writes the results whose image this is into the slots, with the resources of the list in the place of their numbers.
pub(crate) fn give(
    alloc: Global,
    types: &ComponentTypes,
    tuple: TypeTupleIndex,
    answered: &[u8],
    list: &[ResourceAny],
    slots: &mut [Val],
) -> Result<(), HostStop>
    requires { HasTuple types.now tuple }
    ensures { ReadsAnswer (shape_of types.now (InterfaceType.Tuple tuple)) list.now answered.now (outcome result slots.new) }
{
    match read_numbered_values(alloc, types, tuple, answered) {
        Ok(given) => place(alloc, &given, list, slots),
        Err(ImageError::OutOfMemory) => Err(HostStop::OutOfMemory),
        Err(_) => Err(HostStop::Refused),
    }
}

/// Writes values into the slots, with the resources of the list in the place of their numbers.
fn place(
    alloc: Global,
    given: &[Val],
    list: &[ResourceAny],
    slots: &mut [Val],
) -> Result<(), HostStop>
    ensures placed { OnOk result ((are_listed list.now given.now ≡ true) × AreLooked list.now given.now slots.new) }
    ensures unknown { result ≡ Err HostStop.Refused → are_listed list.now given.now ≡ false }
{
    let Ok(known) = are_known(alloc, given, list.len()) else {
        return Err(HostStop::OutOfMemory);
    };
    if !known {
        return Err(HostStop::Refused);
    }
    let Ok(mut values) = with_resources(alloc, given, list) else {
        return Err(HostStop::OutOfMemory);
    };
    if values.len() != slots.len() {
        // An image of results has as many as there are slots.
        return Err(HostStop::OutOfMemory);
    }
    slots.swap_with_slice(&mut values);
    Ok(())
}
