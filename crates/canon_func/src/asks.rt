//! The asks of a guest, and how they are served.

ghost use Rattle.std.specs.Prelude.{◌≡◌, ◌++◌, IfSome, List, length, slice_get, ℕ};
ghost use Rattle.canon_types.specs.Table.{HasResource};
ghost use Rattle.canon_context.specs.Asks.{SameBut, SameButHandles};
ghost use Rattle.canon_context.specs.Component.{IsComponent, IsImport};
ghost use Rattle.canon_context.specs.Core.{SameButLedger, guest_of, moment_of, component_types};
ghost use Rattle.canon_context.specs.declared.component.Export.{Export};
ghost use Rattle.canon_ledger.specs.Ledger.{Did, do_step};
ghost use Rattle.canon_host.specs.Asked.{HasRoomFor, IsAsked};
ghost use Rattle.canon_host.specs.HostSide.{host_side};
ghost use Rattle.canon_func.specs.Asks.{IsAskOf, allowed, builtin_step, import_words, resource_of};
ghost use Rattle.canon_func.specs.Call.{LivesUntil, OnAnswered};
ghost use Rattle.canon_func.specs.HostAsks.{IsHostAsk, asked_error, host_error};
ghost use Rattle.canon_func.specs.Steps.{HostAsked, MayRun, Proceeds, Resumed, SameButHost, ServesAsk, Serving, Started};
ghost use Rattle.canon_func.specs.Stores.{export_callee};

use crate::Error;
use canon_handles::TypedResourceIndex;
use canon_host::{
    Asked, HostCx, HostError, Imports, asked_of, asked_words, first_words, storage_for,
};
use canon_ledger::{ResourceFault, resource_drop_ret};
use canon_memory::{Guest, GuestFault, Step, ValRaw, Words};
use canon_types::TypeResourceTableIndex;
use canon_value::{Component, Core, Export, Fault, Import};
use std::alloc::Global;

/// A call on the handles of a resource type, which calls serve themselves.
#[derive(Clone, Copy)]
pub(crate) enum Builtin {
    New(TypeResourceTableIndex),
    Rep(TypeResourceTableIndex),
    Drop(TypeResourceTableIndex),
}

/// Starts the core function of an export, and serves what it asks for until it returns, `turns` asks at most.
pub(crate) fn run_core<T, G: Guest, I: Imports<T, G>>(
    alloc: Global,
    core: &mut Core<T, G>,
    imports: &mut I,
    export: &Export,
    turns: u64,
    words: &[ValRaw],
) -> Result<Words, Error>
    requires ready { I.ready imports.old }
    ensures did { Serving (moment_of G.seen core.old) (moment_of G.seen core.new)
        (λ events. OnAnswered result (G.moves (guest_of core.old) events (guest_of core.new)))
        (λ answers events. MayRun (I.gives (I.plan imports.old)) (export_callee core.old.component export.now) (allowed core.old.fuel turns)
        (LivesUntil G.seen G.moves (guest_of core.old) (guest_of core.new) result) words.now (moment_of G.seen core.old) (moment_of G.seen core.new)
        (host_side core.old (I.log imports.old) (I.refusals imports.old)) (host_side core.new (I.log imports.new) (I.refusals imports.new)) result answers events) }
    ensures same { SameButHost core.old core.new }
    ensures plan { I.plan imports.new ≡ I.plan imports.old }
    ensures still_ready { I.ready imports.new }
{
    let mut step = match start(core, export.func, words) {
        Ok(step) => step,
        Err(error) => return Err(error),
    };
    for _ in 0..turns {
        let (index, words) = match step {
            Step::Return(words) => return Ok(words),
            Step::Import { index, words } => (index, words),
        };
        step = match serve(alloc, core, imports, export, index, words.as_slice()) {
            Ok(step) => step,
            Err(error) => return Err(error),
        };
    }
    match step {
        Step::Return(words) => Ok(words),
        Step::Import { .. } => Err(Error::TurnsExhausted),
    }
}

/// Starts a core function.
fn start<T, G: Guest>(core: &mut Core<T, G>, func: u32, words: &[ValRaw]) -> Result<Step, Error>
    ensures did { Proceeds (moment_of G.seen core.old) (moment_of G.seen core.new)
        (λ events. OnAnswered result (G.moves (guest_of core.old) events (guest_of core.new)))
        (λ events. Started func words.now (moment_of G.seen core.old) (moment_of G.seen core.new) result events) }
    ensures same { SameBut core.old core.new }
{
    match core.start(func, words) {
        Ok(step) => Ok(step),
        Err(GuestFault::Trap) => Err(Error::Fault(Fault::GuestTrap)),
        Err(GuestFault::OutOfMemory) => Err(Error::Fault(Fault::OutOfMemory)),
    }
}

/// Lets a guest that was served go on.
fn resume<T, G: Guest>(core: &mut Core<T, G>, words: &[ValRaw]) -> Result<Step, Error>
    ensures did { Proceeds (moment_of G.seen core.old) (moment_of G.seen core.new)
        (λ events. OnAnswered result (G.moves (guest_of core.old) events (guest_of core.new)))
        (λ events. Resumed words.now (moment_of G.seen core.old) (moment_of G.seen core.new) result events) }
    ensures same { SameBut core.old core.new }
{
    match core.resume(words) {
        Ok(step) => Ok(step),
        Err(GuestFault::Trap) => Err(Error::Fault(Fault::GuestTrap)),
        Err(GuestFault::OutOfMemory) => Err(Error::Fault(Fault::OutOfMemory)),
    }
}

/// Serves an ask, and lets the guest go on. `UnknownImport` is tested before `WrongWords`.
fn serve<T, G: Guest, I: Imports<T, G>>(
    alloc: Global,
    core: &mut Core<T, G>,
    imports: &mut I,
    export: &Export,
    index: u32,
    words: &[ValRaw],
) -> Result<Step, Error>
    requires ready { I.ready imports.old }
    ensures did { Serving (moment_of G.seen core.old) (moment_of G.seen core.new)
        (λ events. OnAnswered result (G.moves (guest_of core.old) events (guest_of core.new)))
        (λ answers events. ServesAsk (I.gives (I.plan imports.old)) (export_callee core.old.component export.now) core.old.fuel index words.now (moment_of G.seen core.old) (moment_of G.seen core.new)
        (host_side core.old (I.log imports.old) (I.refusals imports.old)) (host_side core.new (I.log imports.new) (I.refusals imports.new)) result answers events) }
    ensures same { SameButHost core.old core.new }
    ensures plan { I.plan imports.new ≡ I.plan imports.old }
    ensures still_ready { I.ready imports.new }
{
    let Some(import) = import_at(core.component(), index) else {
        return Err(Error::UnknownImport(index));
    };
    if words.len() != words_of(core.component(), import) {
        return Err(Error::WrongWords);
    }
    match &import {
        Import::Host { ty, options } => {
            let asked = asked_of(core, *ty, *options);
            serve_host(alloc, core, imports, index, &asked, words)
        }
        Import::ResourceNew(ty) => {
            serve_builtin(core, imports, export, index, Builtin::New(*ty), words)
        }
        Import::ResourceRep(ty) => {
            serve_builtin(core, imports, export, index, Builtin::Rep(*ty), words)
        }
        Import::ResourceDrop(ty) => {
            serve_builtin(core, imports, export, index, Builtin::Drop(*ty), words)
        }
    }
}

/// The import of this number, if there is one.
fn import_at(component: &Component, index: u32) -> Option<Import>
    requires sound { IsComponent component.now }
    ensures found { result ≡ slice_get component.now.imports.items index }
    ensures known { IfSome result (IsImport component.now) }
{
    component.imports.get(index as usize).copied()
}

/// How many words an import is asked with.
fn words_of(component: &Component, import: Import) -> usize
    requires known { IsImport component.now import }
    ensures { (export : Export) → result ≡ import_words (export_callee component.now export) import }
{
    match import {
        Import::Host { ty, .. } => asked_words(component.types.types(), ty),
        _ => 1,
    }
}

/// Serves the ask of a builtin by its step, and lets the guest go on. The imports stay.
fn serve_builtin<T, G: Guest, I: Imports<T, G>>(
    core: &mut Core<T, G>,
    imports: &I,
    export: &Export,
    index: u32,
    builtin: Builtin,
    words: &[ValRaw],
) -> Result<Step, Error>
    requires known { HasResource (component_types core.old) (resource_of builtin) }
    requires asked { IsAskOf (export_callee core.old.component export.now) index words.now builtin }
    ensures did { Serving (moment_of G.seen core.old) (moment_of G.seen core.new)
        (λ events. OnAnswered result (G.moves (guest_of core.old) events (guest_of core.new)))
        (λ answers events. ServesAsk (I.gives (I.plan imports.now)) (export_callee core.old.component export.now) core.old.fuel index words.now (moment_of G.seen core.old) (moment_of G.seen core.new)
        (host_side core.old (I.log imports.now) (I.refusals imports.now)) (host_side core.new (I.log imports.now) (I.refusals imports.now)) result answers events) }
    ensures same { SameButHandles core.old core.new }
{
    match take_step(core, builtin, words[0].get_u32()) {
        Ok(answer) => resume(core, &[ValRaw::u64(answer)]),
        Err(fault) => Err(asked_error(index, Fault::Resource(fault))),
    }
}

/// Serves the ask of a function of the host, and lets the guest go on.
fn serve_host<T, G: Guest, I: Imports<T, G>>(
    alloc: Global,
    core: &mut Core<T, G>,
    imports: &mut I,
    index: u32,
    asked: &Asked,
    words: &[ValRaw],
) -> Result<Step, Error>
    requires ready { I.ready imports.old }
    requires asked { IsAsked core.old.component asked.now }
    ensures did { (export : Export) → IsHostAsk (export_callee core.old.component export) index words.now asked.now → Serving (moment_of G.seen core.old) (moment_of G.seen core.new)
        (λ events. OnAnswered result (G.moves (guest_of core.old) events (guest_of core.new)))
        (λ answers events. ServesAsk (I.gives (I.plan imports.old)) (export_callee core.old.component export) core.old.fuel index words.now (moment_of G.seen core.old) (moment_of G.seen core.new)
        (host_side core.old (I.log imports.old) (I.refusals imports.old)) (host_side core.new (I.log imports.new) (I.refusals imports.new)) result answers events) }
    ensures same { SameButHost core.old core.new }
    ensures plan { I.plan imports.new ≡ I.plan imports.old }
    ensures still_ready { I.ready imports.new }
{
    let Ok(mut storage) = storage_for(alloc, core.component().types.types(), asked.ty, words) else {
        return Err(Error::Fault(Fault::OutOfMemory));
    };
    serve_in(alloc, core, imports, index, asked, &mut storage)
}

/// The same in this storage, which begins with the words of the ask.
fn serve_in<T, G: Guest, I: Imports<T, G>>(
    alloc: Global,
    core: &mut Core<T, G>,
    imports: &mut I,
    index: u32,
    asked: &Asked,
    storage: &mut [ValRaw],
) -> Result<Step, Error>
    requires ready { I.ready imports.old }
    requires asked { IsAsked core.old.component asked.now }
    requires room { HasRoomFor (component_types core.old) asked.now.ty storage.old }
    ensures did { (export : Export) (words pad : List ℕ) → storage.old ≡ words ++ pad → IsHostAsk (export_callee core.old.component export) index words asked.now → Serving (moment_of G.seen core.old) (moment_of G.seen core.new)
        (λ events. OnAnswered result (G.moves (guest_of core.old) events (guest_of core.new)))
        (λ answers events. ServesAsk (I.gives (I.plan imports.old)) (export_callee core.old.component export) core.old.fuel index words (moment_of G.seen core.old) (moment_of G.seen core.new)
        (host_side core.old (I.log imports.old) (I.refusals imports.old)) (host_side core.new (I.log imports.new) (I.refusals imports.new)) result answers events) }
    ensures same { SameButHost core.old core.new }
    ensures plan { I.plan imports.new ≡ I.plan imports.old }
    ensures still_ready { I.ready imports.new }
{
    match ask_host(alloc, &mut *core, imports, index, asked, &mut *storage) {
        Ok(()) => {}
        Err(error) => return Err(error),
    }
    let count = first_words(core.component().types.types(), asked.func.results);
    resume(core, &storage[..count])
}

/// Asks the imports to serve an ask of a function of the host.
fn ask_host<T, G: Guest, I: Imports<T, G>>(
    alloc: Global,
    core: &mut Core<T, G>,
    imports: &mut I,
    index: u32,
    asked: &Asked,
    storage: &mut [ValRaw],
) -> Result<(), Error>
    requires ready { I.ready imports.old }
    requires asked { IsAsked core.old.component asked.now }
    requires room { HasRoomFor (component_types core.old) asked.now.ty storage.old }
    ensures did { (export : Export) (words pad : List ℕ) → storage.old ≡ words ++ pad → IsHostAsk (export_callee core.old.component export) index words asked.now → Serving (moment_of G.seen core.old) (moment_of G.seen core.new)
        (λ events. OnAnswered result (G.moves (guest_of core.old) events (guest_of core.new)))
        (λ answers events. HostAsked (I.gives (I.plan imports.old)) (export_callee core.old.component export) core.old.fuel asked.now index words (moment_of G.seen core.old) (moment_of G.seen core.new)
        (host_side core.old (I.log imports.old) (I.refusals imports.old)) (host_side core.new (I.log imports.new) (I.refusals imports.new)) storage.new result answers events) }
    ensures same { SameButHost core.old core.new }
    ensures plan { I.plan imports.new ≡ I.plan imports.old }
    ensures still_ready { I.ready imports.new }
    ensures count { length storage.new ≡ length storage.old }
{
    let cx = HostCx {
        core: &mut *core,
        ty: asked.ty,
        options: asked.options,
    };
    match imports.serve(alloc, index, cx, &mut *storage) {
        Ok(()) => Ok(()),
        Err(error) => Err(host_error(index, error)),
    }
}

/// What is answered to an ask that the imports refused.
fn host_error(index: u32, error: HostError) -> Error
    ensures { result ≡ host_error index error }
{
    match error {
        HostError::Refused => Error::HostRefused(index),
        HostError::Fault(fault) => asked_error(index, fault),
    }
}

/// What is answered to a fault of an ask. Out of memory is no fault of the import.
fn asked_error(index: u32, fault: Fault) -> Error
    ensures { result ≡ asked_error index fault }
{
    match fault {
        Fault::OutOfMemory | Fault::Resource(ResourceFault::OutOfMemory) => {
            Error::Fault(Fault::OutOfMemory)
        }
        fault => Error::ImportFault { index, fault },
    }
}

/// The step of a builtin on the handles of its resource type, with the word that it is asked with.
fn take_step<T, G>(core: &mut Core<T, G>, builtin: Builtin, word: u32) -> Result<u64, ResourceFault>
    requires known { HasResource (component_types core.old) (resource_of builtin) }
    ensures step { Did (do_step (builtin_step core.old.component.types builtin word) core.old.ledger) result core.old.ledger core.new.ledger }
    ensures same { SameButLedger core.old core.new }
{
    match builtin {
        Builtin::New(ty) => match core.resource_new(ty, word) {
            Ok(index) => Ok(u64::from(index)),
            Err(fault) => Err(fault),
        },
        Builtin::Rep(ty) => {
            match core.resource_rep(TypedResourceIndex::Component { ty, index: word }) {
                Ok(rep) => Ok(u64::from(rep)),
                Err(fault) => Err(fault),
            }
        }
        Builtin::Drop(ty) => {
            match core.resource_drop(TypedResourceIndex::Component { ty, index: word }) {
                Ok(rep) => Ok(resource_drop_ret(rep)),
                Err(fault) => Err(fault),
            }
        }
    }
}
