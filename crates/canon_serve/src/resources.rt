//! Resources that a session makes and drops.

ghost use Rattle.std.specs.Prelude.{◌≡◌, ◌≤◌, ◌<◌, ◌^◌, ◌⊎◌, IfOk, Ok, OnErr, Result, slice_get};
ghost use Rattle.canon_ledger.specs.Index.{GivenIndex};
ghost use Rattle.canon_serve.specs.Carries.{DropsHandle, DropsListed, InsertsHandle, IsMade, MakesNew, NewShort, TellsDrop, both_logs, session};

use crate::answer::{Answer, Senseless};
use crate::session::EngineStore;
use canon_func::{Error, resource_drop};
use canon_ledger::{HostResourceIndex, ResourceFault};
use canon_relay::{Channel, put_number};
use canon_resources::{ResourceAny, ResourceType};
use canon_types::OutOfMemory;
use canon_value::Fault;
use std::alloc::Global;

/// Drops the resource of a number. Its number stays one of the list.
pub(crate) fn drop_listed<E: Channel, H: Channel>(
    alloc: Global,
    store: &mut EngineStore<E, H>,
    list: &Vec<ResourceAny>,
    number: u64,
) -> Answer
    ensures { DropsListed (both_logs E.log H.log) (session store.old list.now.items) (session store.new list.now.items) result (slice_get list.now.items number) }
{
    match list.get(number as usize) {
        Some(resource) => drop_resource(alloc, store, *resource),
        None => Answer::Senseless(Senseless::NoResource),
    }
}

/// Drops a resource, as `resource_drop`.
fn drop_resource<E: Channel, H: Channel>(
    alloc: Global,
    store: &mut EngineStore<E, H>,
    resource: ResourceAny,
) -> Answer
    ensures { (ended : Result (Unit {0}) Error) × DropsHandle (both_logs E.log H.log) resource store.old store.new ended × TellsDrop ended result }
{
    match release(store, resource) {
        Ok(()) => Answer::Done(Vec::new(alloc)),
        Err(error) => Answer::Refused(error),
    }
}

fn release<E: Channel, H: Channel>(
    store: &mut EngineStore<E, H>,
    resource: ResourceAny,
) -> Result<(), Error>
    ensures { DropsHandle (both_logs E.log H.log) resource store.old store.new result }
{
    resource_drop(resource, store)
}

/// Makes a resource of the host: an own handle in its table, of the type of a number.
pub(crate) fn new_resource<E: Channel, H: Channel>(
    alloc: Global,
    store: &mut EngineStore<E, H>,
    list: &mut Vec<ResourceAny>,
    ty: u64,
    rep: u64,
) -> Result<Answer, OutOfMemory>
    ensures made { IfOk result (λ answer. MakesNew (both_logs E.log H.log) ty rep (session store.old list.old.items) (session store.new list.new.items) answer) }
    ensures short { OnErr result (NewShort (both_logs E.log H.log) ty rep (session store.old list.old.items) (session store.new list.new.items)) }
{
    if ty > 0xffff_ffff {
        return Ok(Answer::Senseless(Senseless::TooWide));
    }
    if rep > 0xffff_ffff {
        return Ok(Answer::Senseless(Senseless::TooWide));
    }
    make_resource(alloc, store, list, ty as u32, rep as u32)
}

/// Puts its handle into the host's table, and the resource into the list.
fn make_resource<E: Channel, H: Channel>(
    alloc: Global,
    store: &mut EngineStore<E, H>,
    list: &mut Vec<ResourceAny>,
    ty: u32,
    rep: u32,
) -> Result<Answer, OutOfMemory>
    ensures made { IfOk result (λ answer. IsMade (both_logs E.log H.log) ty rep (session store.old list.old.items) (session store.new list.new.items) answer) }
    ensures short { OnErr result (NewShort (both_logs E.log H.log) ty rep (session store.old list.old.items) (session store.new list.new.items)) }
{
    let mut bytes = Vec::new(alloc);
    put_number(&mut bytes, list.len() as u64)?;
    list.reserve(1)?;
    match insert(store, rep) {
        Ok(index) => {
            let ty = ResourceType::host_dynamic(ty);
            list.push(ResourceAny::new(index, ty, true))?;
            Ok(Answer::Done(bytes))
        }
        Err(fault) => Ok(Answer::Refused(Error::Fault(Fault::Resource(fault)))),
    }
}

/// Puts an own handle into the host's table.
fn insert<E: Channel, H: Channel>(
    store: &mut EngineStore<E, H>,
    rep: u32,
) -> Result<HostResourceIndex, ResourceFault>
    ensures { InsertsHandle (both_logs E.log H.log) rep store.old store.new result }
{
    store.core_mut().host_resource_lower_own(rep, None, None)
}
