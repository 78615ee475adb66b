//! Rust tuples as parameters and results.

ghost use Rattle.std.specs.Prelude.{◌≡◌, length, slice_get, ⊤};
ghost use Rattle.canon_args.specs.Params.{TypedParams};
ghost use Rattle.canon_args.specs.Returned.{passed_reading, result_count};
ghost use Rattle.canon_context.specs.Component.{IsInside};
ghost use Rattle.canon_context.specs.Core.{SameButLedger, component_types};
ghost use Rattle.canon_reading.specs.Reading.{setting_in};
ghost use Rattle.canon_reading.specs.Spots.{flat_in};
ghost use Rattle.canon_model.specs.Flat.{max_params, max_results};
ghost use Rattle.canon_model.specs.Shape.{of_places, product};
ghost use Rattle.canon_types.specs.Table.{HasTuple, tuple_members};
ghost use Rattle.canon_types.specs.declared.types.InterfaceType.TheVariants.{Tuple};
ghost use Rattle.canon_func.specs.Call.{words_within};
ghost use Rattle.canon_func.specs.Typed.{FitsParams, FitsResults, LiftsTuple, params_shape, typed_args, typed_results};
ghost use Rattle.canon_func.specs.TypedLaws.{typed_blames, typed_reads};

use crate::Error;
use crate::passing::{Params, Results};
use crate::steps::word_count;
use canon_args::{lift_results, lower_params};
use canon_lift::Lift;
use canon_lower::Lower;
use canon_memory::{Guest, ValRaw};
use canon_types::{MAX_FLAT_PARAMS, TypeTupleIndex};
use canon_value::{Core, Export, Fault, LiftContext, LowerContext};
use std::alloc::Global;

/// A Rust tuple that is passed or returned.
#[derive(Drop)]
pub(crate) struct Typed<A>(pub(crate) A);

impl<P: Lower> Params for Typed<P> {
    ghost args = { λ v callee. typed_args (P.walks v.0) (P.gives callee.types (params_shape callee) v.0) callee };

    ghost fit = { λ v component export. FitsParams P.fits component.types (slice_get component.types.types.funcs export.ty) };

    fn lower<T, G: Guest>(
        &mut self,
        alloc: Global,
        core: &mut Core<T, G>,
        export: &Export,
    ) -> Result<Vec<ValRaw>, Error> {
        let types = core.component().types.types();
        let tuple = types.func(export.ty).params;
        let mut words = vec![in alloc; ValRaw::u64(0); word_count(types, tuple, MAX_FLAT_PARAMS)]?;
        match lower_into(core, export, tuple, &mut self.0, &mut words) {
            Ok(()) => Ok(words),
            Err(fault) => Err(Error::Fault(fault)),
        }
    }

    ghost blames = { λ v callee. typed_blames P.walks P.walkable v.0 (P.gives callee.types (params_shape callee) v.0) callee };
}

/// Lowers a tuple of parameters, whose types are those of the tuple type, into these words.
fn lower_into<T, G: Guest, P: Lower>(
    core: &mut Core<T, G>,
    export: &Export,
    tuple: TypeTupleIndex,
    params: &mut P,
    words: &mut [ValRaw],
) -> Result<(), Fault>
    requires inside { IsInside core.old.component export.now }
    requires tuple { HasTuple (component_types core.old) tuple }
    requires fits { P.fits core.old.component.types (Tuple tuple) }
    requires words { length words.old ≡ words_within max_params (tuple_members (component_types core.old) tuple) }
    ensures lowers { TypedParams G.seen G.moves export.now.options core.old core.new (tuple_members (component_types core.old) tuple) words.new (P.walks params.old)
        (P.gives core.old.component.types (product of_places (tuple_members (component_types core.old) tuple)) params.old) result }
    ensures count { length words.new ≡ length words.old }
{
    let mut cx = LowerContext::new(core, export.options);
    lower_params(&mut cx, params, tuple, words)
}

impl<R: Lift> Results for Typed<R> {
    ghost Out = { R };

    ghost out = { λ v. v.0 };

    ghost returns = { λ callee options store. typed_results R.reading options store callee };

    ghost fit = { λ component export. FitsResults R.fits component.types (slice_get component.types.types.funcs export.ty) };

    ghost counted = { λ callee v. ⊤ };

    fn lift<T, G: Guest>(
        alloc: Global,
        core: &mut Core<T, G>,
        export: &Export,
        words: &[ValRaw],
    ) -> Result<Typed<R>, Fault> {
        let types = core.component().types.types();
        types.laws();
        let tuple = types.func(export.ty).results;
        let _shape = types.tuple(tuple);
        match lift_tuple(alloc, core, export, tuple, words) {
            Ok(results) => Ok(Typed(results)),
            Err(fault) => Err(fault),
        }
    }

    ghost law = { λ callee options store. typed_reads R.reading R.taken options store callee };
}

/// The results of words whose types are those of the tuple type.
fn lift_tuple<T, G: Guest, R: Lift>(
    alloc: Global,
    core: &mut Core<T, G>,
    export: &Export,
    tuple: TypeTupleIndex,
    words: &[ValRaw],
) -> Result<R, Fault>
    requires inside { IsInside core.old.component export.now }
    requires tuple { HasTuple (component_types core.old) tuple }
    requires fits { R.fits core.old.component.types (Tuple tuple) }
    requires words { length words.now ≡ words_within max_results (tuple_members (component_types core.old) tuple) }
    ensures lifts { LiftsTuple (passed_reading max_results (product of_places (tuple_members (component_types core.old) tuple)) R.reading) (setting_in core.old export.now.options) words.now
        (product of_places (tuple_members (component_types core.old) tuple)) core.old.ledger core.old.fuel result core.new.ledger }
    ensures same { SameButLedger core.old core.new }
{
    let mut cx = LiftContext::new(core, export.options);
    lift_results(alloc, &mut cx, tuple, words)
}
