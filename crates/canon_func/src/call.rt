//! A call, whatever its parameters and its results are.

ghost use Rattle.std.specs.Prelude.{◌≡◌, IfErr, IfOk};
ghost use Rattle.canon_context.specs.Component.{IsInside};
ghost use Rattle.canon_context.specs.Core.{guest_of, moment_of};
ghost use Rattle.canon_ledger.specs.Ledger.{LedgerState, enter};
ghost use Rattle.canon_host.specs.HostSide.{host_side};
ghost use Rattle.canon_func.specs.Asks.{allowed};
ghost use Rattle.canon_func.specs.Call.{Adding, IsCallOf, LivesUntil, OnAnswered};
ghost use Rattle.canon_func.specs.Called.{CallsIn};
ghost use Rattle.canon_func.specs.Steps.{IsLate, IsRest, SameButHost, Serving, map_ok};
ghost use Rattle.canon_func.specs.Stores.{export_callee};

use crate::Error;
use crate::passing::{Params, Results};
use crate::steps::{conclude, run};
use canon_host::Imports;
use canon_memory::{Guest, ValRaw};
use canon_value::{Core, Export, Fault};
use std::alloc::Global;

/// Opens a scope, lowers the parameters, runs the guest, ends the scope, lifts what the guest returned, runs post-return, and leaves
/// the scope, which stays open where the call is refused.
pub(crate) fn call_core<T, G: Guest, I: Imports<T, G>, P: Params, R: Results>(
    alloc: Global,
    core: &mut Core<T, G>,
    imports: &mut I,
    export: &Export,
    turns: u64,
    params: &mut P,
) -> Result<R, Error>
    requires ready { I.ready imports.old }
    requires inside { IsInside core.old.component export.now }
    requires params { P.fit params.old core.old.component export.now }
    requires results { R.fit core.old.component export.now }
    ensures call { CallsIn G.seen G.moves G.leaves I.plan I.gives I.log I.refusals (P.args params.old (export_callee core.old.component export.now))
        (R.returns (export_callee core.old.component export.now) export.now.options core.old.id) (export_callee core.old.component export.now) turns
        core.old imports.old core.new imports.new result (map_ok R.out result) }
    ensures late { IfErr result IsLate }
    ensures counted { IfOk result (R.counted (export_callee core.old.component export.now)) }
    ensures same { SameButHost core.old core.new }
    ensures plan { I.plan imports.new ≡ I.plan imports.old }
    ensures still_ready { I.ready imports.new }
{
    match core.enter() {
        Ok(_) => call_in_scope(alloc, core, imports, export, turns, params),
        Err(_) => Err(Error::Fault(Fault::OutOfMemory)),
    }
}

/// The same in the call's scope, which is the top one.
fn call_in_scope<T, G: Guest, I: Imports<T, G>, P: Params, R: Results>(
    alloc: Global,
    core: &mut Core<T, G>,
    imports: &mut I,
    export: &Export,
    turns: u64,
    params: &mut P,
) -> Result<R, Error>
    requires ready { I.ready imports.old }
    requires inside { IsInside core.old.component export.now }
    requires params { P.fit params.old core.old.component export.now }
    requires results { R.fit core.old.component export.now }
    ensures call { Adding (moment_of G.seen core.old) (moment_of G.seen core.new)
        (λ events. OnAnswered result (G.moves (guest_of core.old) events (guest_of core.new)))
        (λ events. (before : LedgerState) → enter before ≡ core.old.ledger
        → IsCallOf (P.args params.old (export_callee core.old.component export.now)) (R.returns (export_callee core.old.component export.now) export.now.options core.old.id)
        (LivesUntil G.seen G.moves (guest_of core.old) (guest_of core.new) result) G.leaves (I.gives (I.plan imports.old))
        (export_callee core.old.component export.now) (allowed core.old.fuel turns) (moment_of G.seen core.old) (moment_of G.seen core.new)
        (host_side (record core.old { ledger = before }) (I.log imports.old) (I.refusals imports.old)) (host_side core.new (I.log imports.new) (I.refusals imports.new)) (map_ok R.out result) events) }
    ensures late { IfErr result IsLate }
    ensures counted { IfOk result (R.counted (export_callee core.old.component export.now)) }
    ensures same { SameButHost core.old core.new }
    ensures plan { I.plan imports.new ≡ I.plan imports.old }
    ensures still_ready { I.ready imports.new }
{
    match params.lower(alloc, core, export) {
        Ok(words) => call_lowered(alloc, core, imports, export, turns, &words),
        Err(error) => Err(error),
    }
}

/// From the start on, once the parameters were lowered into these words.
fn call_lowered<T, G: Guest, I: Imports<T, G>, R: Results>(
    alloc: Global,
    core: &mut Core<T, G>,
    imports: &mut I,
    export: &Export,
    turns: u64,
    words: &[ValRaw],
) -> Result<R, Error>
    requires ready { I.ready imports.old }
    requires inside { IsInside core.old.component export.now }
    requires results { R.fit core.old.component export.now }
    ensures did { Serving (moment_of G.seen core.old) (moment_of G.seen core.new)
        (λ events. OnAnswered result (G.moves (guest_of core.old) events (guest_of core.new)))
        (λ answers events. IsRest (R.returns (export_callee core.old.component export.now) export.now.options core.old.id) (I.gives (I.plan imports.old)) (export_callee core.old.component export.now) (allowed core.old.fuel turns)
        (LivesUntil G.seen G.moves (guest_of core.old) (guest_of core.new) result) G.leaves words.now (moment_of G.seen core.old) (moment_of G.seen core.new)
        (host_side core.old (I.log imports.old) (I.refusals imports.old)) (host_side core.new (I.log imports.new) (I.refusals imports.new)) (map_ok R.out result) answers events) }
    ensures counted { IfOk result (R.counted (export_callee core.old.component export.now)) }
    ensures same { SameButHost core.old core.new }
    ensures plan { I.plan imports.new ≡ I.plan imports.old }
    ensures still_ready { I.ready imports.new }
{
    let returned = match run(alloc, core, imports, export, turns, words) {
        Ok(returned) => returned,
        Err(error) => return Err(error),
    };
    let results = match R::lift(alloc, core, export, returned.as_slice()) {
        Ok(results) => results,
        Err(fault) => return Err(Error::Fault(fault)),
    };
    match conclude(core, export, returned.as_slice()) {
        Ok(()) => Ok(results),
        Err(error) => Err(error),
    }
}
