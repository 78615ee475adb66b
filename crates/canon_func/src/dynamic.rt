//! Dynamic values as parameters and results.

ghost use Rattle.std.specs.Prelude.{◌≡◌, IfOk, List, length, ⊤};
ghost use Rattle.canon_model.specs.Flat.{max_params, max_results};
ghost use Rattle.canon_model.specs.Shape.{member_count};
ghost use Rattle.canon_types.specs.Table.{HasTuple, tuple_members};
ghost use Rattle.canon_context.specs.Asks.{SameButHandles};
ghost use Rattle.canon_context.specs.Component.{IsInside};
ghost use Rattle.canon_context.specs.Core.{SameButLedger, guest_of, moment_of, component_types};
ghost use Rattle.canon_context.specs.Lifter.{origin_in};
ghost use Rattle.canon_func.specs.Call.{Adding, OnAnswered, dynamic, dynamic_results, result_words, words_within};
ghost use Rattle.canon_func.specs.Dynamic.{dynamic_blames, dynamic_reads};
ghost use Rattle.canon_func.specs.Steps.{Lifted, LiftsIn, LoweredArgs, LowersFor, items_in};
ghost use Rattle.canon_func.specs.Stores.{export_callee};
ghost use Rattle.canon_val.specs.declared.val.Val as declared;

use crate::Error;
use crate::passing::{Params, Results};
use crate::steps::word_count;
use canon_memory::{Guest, ValRaw};
use canon_types::{MAX_FLAT_PARAMS, TypeTupleIndex};
use canon_value::{Core, Export, Fault, LiftContext, LowerContext, Val, lift_results, lower_args};
use std::alloc::Global;

/// Values that are passed.
#[derive(Drop)]
pub(crate) struct Values<'a>(pub(crate) &'a [Val]);

impl<'a> Params for Values<'a> {
    ghost args = { λ v callee. dynamic callee v.0.now };

    ghost fit = { λ v component export. length v.0.now ≡ member_count (export_callee component export).params };

    fn lower<T, G: Guest>(
        &mut self,
        alloc: Global,
        core: &mut Core<T, G>,
        export: &Export,
    ) -> Result<Vec<ValRaw>, Error> {
        lower_params(alloc, core, export, self.0)
    }

    ghost blames = { λ v callee. dynamic_blames callee v.0.now };
}

impl Results for Vec<Val> {
    ghost Out = { List declared.Val };

    ghost out = { λ v. v.items };

    ghost returns = { λ callee options store. dynamic_results callee };

    ghost fit = { λ component export. ⊤ };

    ghost counted = { λ callee v. length v.items ≡ member_count callee.results };

    fn lift<T, G: Guest>(
        alloc: Global,
        core: &mut Core<T, G>,
        export: &Export,
        words: &[ValRaw],
    ) -> Result<Vec<Val>, Fault> {
        lift(alloc, core, export, words)
    }

    ghost law = { λ callee options store. dynamic_reads callee };
}

/// The words of the parameters.
fn lower_params<T, G: Guest>(
    alloc: Global,
    core: &mut Core<T, G>,
    export: &Export,
    params: &[Val],
) -> Result<Vec<ValRaw>, Error>
    requires inside { IsInside core.old.component export.now }
    requires params { length params.now ≡ member_count (export_callee core.old.component export.now).params }
    ensures lowered { Adding (moment_of G.seen core.old) (moment_of G.seen core.new)
        (λ events. OnAnswered result (G.moves (guest_of core.old) events (guest_of core.new)))
        (λ events. LoweredArgs (dynamic (export_callee core.old.component export.now) params.now) (export_callee core.old.component export.now) (moment_of G.seen core.old) (moment_of G.seen core.new) core.old.ledger core.new.ledger result events) }
    ensures same { SameButHandles core.old core.new }
{
    let types = core.component().types.types();
    let tuple = types.func(export.ty).params;
    let mut words = vec![in alloc; ValRaw::u64(0); word_count(types, tuple, MAX_FLAT_PARAMS)]?;
    match lower_into(core, export, tuple, params, &mut words) {
        Ok(()) => Ok(words),
        Err(fault) => Err(Error::Fault(fault)),
    }
}

/// Lowers the parameters, whose types are those of the tuple, into these words.
fn lower_into<T, G: Guest>(
    core: &mut Core<T, G>,
    export: &Export,
    tuple: TypeTupleIndex,
    params: &[Val],
    words: &mut [ValRaw],
) -> Result<(), Fault>
    requires inside { IsInside core.old.component export.now }
    requires tuple { HasTuple (component_types core.old) tuple }
    requires params { length params.now ≡ member_count (tuple_members (component_types core.old) tuple) }
    requires words { length words.old ≡ words_within max_params (tuple_members (component_types core.old) tuple) }
    ensures lowers { LowersFor G.seen G.moves core.old core.new export.now.options tuple params.now words.new result }
{
    let mut cx = LowerContext::new(core, export.options);
    lower_args(&mut cx, params, tuple, words)
}

/// The values of the words that the guest returned, which are as many as the results take. The core's fuel bounds their cost.
fn lift<T, G: Guest>(
    alloc: Global,
    core: &mut Core<T, G>,
    export: &Export,
    words: &[ValRaw],
) -> Result<Vec<Val>, Fault>
    requires inside { IsInside core.old.component export.now }
    requires words { length words.now ≡ result_words (export_callee core.old.component export.now).results }
    ensures lifted { Lifted (dynamic_results (export_callee core.old.component export.now)) core.old.fuel words.now core.old.memory core.old.ledger core.new.ledger (items_in result) }
    ensures count { IfOk result (λ vals. length vals.items ≡ member_count (export_callee core.old.component export.now).results) }
    ensures same { SameButLedger core.old core.new }
{
    let types = core.component().types.types();
    types.laws();
    let tuple = types.func(export.ty).results;
    lift_tuple(alloc, core, export, tuple, words)
}

/// The same, of words whose types are those of the tuple.
fn lift_tuple<T, G: Guest>(
    alloc: Global,
    core: &mut Core<T, G>,
    export: &Export,
    tuple: TypeTupleIndex,
    words: &[ValRaw],
) -> Result<Vec<Val>, Fault>
    requires inside { IsInside core.old.component export.now }
    requires tuple { HasTuple (component_types core.old) tuple }
    requires words { length words.now ≡ words_within max_results (tuple_members (component_types core.old) tuple) }
    ensures lifts { LiftsIn (origin_in core.old export.now.options) words.now (tuple_members (component_types core.old) tuple) core.old.ledger core.old.fuel result core.new.ledger }
    ensures same { SameButLedger core.old core.new }
{
    let mut cx = LiftContext::new(core, export.options);
    lift_results(alloc, &mut cx, tuple, words)
}
