//! The steps of a call, whatever its parameters and its results are.

ghost use Rattle.std.specs.Prelude.{◌≡◌, ◌≤◌, ◌==◌, ◌&&◌, List, MatchResult, length, slice_get, true, ℕ};
ghost use Rattle.canon_model.specs.Layout.{members_flat};
ghost use Rattle.canon_model.specs.Shape.{member_count};
ghost use Rattle.canon_types.specs.Table.{HasFunc, HasTuple, tuple_members};
ghost use Rattle.canon_context.specs.Asks.{SameBut, SameButHandles};
ghost use Rattle.canon_context.specs.Component.{HasOptions, IsInside};
ghost use Rattle.canon_context.specs.Core.{SameButLedger, guest_of, moment_of};
ghost use Rattle.canon_ledger.specs.Handles.{can_leave};
ghost use Rattle.canon_ledger.specs.Ledger.{leave};
ghost use Rattle.canon_host.specs.HostSide.{host_side};
ghost use Rattle.canon_func.specs.Asks.{allowed};
ghost use Rattle.canon_func.specs.Call.{LivesUntil, OnAnswered, words_within};
ghost use Rattle.canon_func.specs.Steps.{Ended, Posted, Proceeds, RunsToEnd, SameButHost, Serving};
ghost use Rattle.canon_func.specs.Stores.{export_callee, params_in, results_in};

use crate::Error;
use crate::asks::run_core;
use canon_host::Imports;
use canon_memory::{Guest, GuestFault, ValRaw, Words};
use canon_types::{CanonicalOptions, ComponentTypes, MAX_FLAT_RESULTS, TypeTupleIndex};
use canon_value::{Component, Core, Export, Fault};
use std::alloc::Global;

/// The options of an export.
pub(crate) fn options_of(component: &Component, export: &Export) -> CanonicalOptions
    requires { HasOptions component.now export.now.options }
    ensures post { result.post_return ≡ (export_callee component.now export.now).post }
    ensures is_async { result.async_ ≡ (export_callee component.now export.now).async_ }
{
    component.options[export.options.as_u32() as usize]
}

/// Whether a function's type has so many parameters and results.
pub(crate) fn has_counts(
    types: &ComponentTypes,
    export: &Export,
    params: usize,
    results: usize,
) -> bool
    requires { HasFunc types.now export.now.ty }
    ensures { result ≡ ((params == member_count (params_in types.now (slice_get types.now.funcs export.now.ty)))
        && (results == member_count (results_in types.now (slice_get types.now.funcs export.now.ty)))) }
{
    let func = types.func(export.ty);
    params == types.tuple(func.params).types.len()
        && results == types.tuple(func.results).types.len()
}

/// How many words values take: in a row up to `most` words, or one that points to them.
pub(crate) fn word_count(types: &ComponentTypes, tuple: TypeTupleIndex, most: u8) -> usize
    requires tuple { HasTuple types.now tuple }
    requires few { most ≤ 16 }
    ensures { result ≡ words_within most (tuple_members types.now tuple) }
{
    types
        .tuple(tuple)
        .abi
        .flat_count(u64::from(most))
        .unwrap_or(1) as usize
}

/// Runs the guest with the words of the parameters until it returns as many words as the results take, and ends the call's scope.
pub(crate) fn run<T, G: Guest, I: Imports<T, G>>(
    alloc: Global,
    core: &mut Core<T, G>,
    imports: &mut I,
    export: &Export,
    turns: u64,
    words: &[ValRaw],
) -> Result<Words, Error>
    requires ready { I.ready imports.old }
    requires inside { IsInside core.old.component export.now }
    ensures did { Serving (moment_of G.seen core.old) (moment_of G.seen core.new)
        (λ events. OnAnswered result (G.moves (guest_of core.old) events (guest_of core.new)))
        (λ answers events. RunsToEnd (I.gives (I.plan imports.old)) (export_callee core.old.component export.now) (allowed core.old.fuel turns)
        (LivesUntil G.seen G.moves (guest_of core.old) (guest_of core.new) result) words.now (moment_of G.seen core.old) (moment_of G.seen core.new)
        (host_side core.old (I.log imports.old) (I.refusals imports.old)) (host_side core.new (I.log imports.new) (I.refusals imports.new)) result answers events) }
    ensures same { SameButHost core.old core.new }
    ensures plan { I.plan imports.new ≡ I.plan imports.old }
    ensures still_ready { I.ready imports.new }
{
    let returned = match run_core(alloc, core, imports, export, turns, words) {
        Ok(returned) => returned,
        Err(error) => return Err(error),
    };
    match end_scope(core, export, returned.as_slice()) {
        Ok(()) => Ok(returned),
        Err(error) => Err(error),
    }
}

/// Ends the call's scope, where the guest returned as many words as the results take.
fn end_scope<T, G>(core: &mut Core<T, G>, export: &Export, words: &[ValRaw]) -> Result<(), Error>
    requires inside { IsInside core.old.component export.now }
    ensures ended { Ended (export_callee core.old.component export.now) words.now core.old.ledger core.new.ledger result }
    ensures same { SameButLedger core.old core.new }
{
    let types = core.component().types.types();
    let tuple = types.func(export.ty).results;
    if words.len() != word_count(types, tuple, MAX_FLAT_RESULTS) {
        return Err(Error::WrongWords);
    }
    match core.validate_scope_exit() {
        Ok(()) => Ok(()),
        Err(fault) => Err(Error::Fault(Fault::Resource(fault))),
    }
}

/// Runs post-return with the words that the guest returned, once the results were lifted, and leaves the scope, which has ended.
pub(crate) fn conclude<T, G: Guest>(
    core: &mut Core<T, G>,
    export: &Export,
    words: &[ValRaw],
) -> Result<(), Error>
    requires inside { IsInside core.old.component export.now }
    requires empty { can_leave core.old.ledger.handles ≡ true }
    ensures did { Proceeds (moment_of G.seen core.old) (moment_of G.seen core.new)
        (λ events. OnAnswered result (G.moves (guest_of core.old) events (guest_of core.new)))
        (λ events. Posted G.leaves (export_callee core.old.component export.now) words.now (moment_of G.seen core.old) (moment_of G.seen core.new) result events) }
    ensures scope { MatchResult result (λ _. core.new.ledger ≡ leave core.old.ledger) (λ _. core.new.ledger ≡ core.old.ledger) }
    ensures same { SameButHandles core.old core.new }
{
    match post_return(core, export, words) {
        Ok(()) => {
            core.leave();
            Ok(())
        }
        Err(error) => Err(error),
    }
}

/// Tells the guest that its words were read, where the options name a function for it.
fn post_return<T, G: Guest>(
    core: &mut Core<T, G>,
    export: &Export,
    words: &[ValRaw],
) -> Result<(), Error>
    requires inside { IsInside core.old.component export.now }
    ensures did { Proceeds (moment_of G.seen core.old) (moment_of G.seen core.new)
        (λ events. OnAnswered result (G.moves (guest_of core.old) events (guest_of core.new)))
        (λ events. Posted G.leaves (export_callee core.old.component export.now) words.now (moment_of G.seen core.old) (moment_of G.seen core.new) result events) }
    ensures same { SameBut core.old core.new }
{
    let Some(func) = options_of(core.component(), export).post_return else {
        return Ok(());
    };
    match core.post_return(func, words) {
        Ok(()) => Ok(()),
        Err(GuestFault::Trap) => Err(Error::Fault(Fault::GuestTrap)),
        Err(GuestFault::OutOfMemory) => Err(Error::Fault(Fault::OutOfMemory)),
    }
}
