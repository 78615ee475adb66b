//! A host function's parameters, as the guest passed them, and its results, as the guest gets them.

ghost use Rattle.std.specs.Prelude.{◌≡◌, ◌≤◌, ◌<◌, ◌+◌, false, length};
ghost use Rattle.canon_args.specs.Results.{TypedResults};
ghost use Rattle.canon_args.specs.Returned.{passed_reading};
ghost use Rattle.canon_context.specs.Core.{component_types};
ghost use Rattle.canon_reading.specs.Reading.{Lifts, setting_in};
ghost use Rattle.canon_reading.specs.Spots.{flat_in};
ghost use Rattle.canon_model.specs.Flat.{max_params, max_results};
ghost use Rattle.canon_model.specs.Layout.{members_flat, size};
ghost use Rattle.canon_model.specs.Shape.{of_places, product};
ghost use Rattle.canon_types.specs.Table.{HasTuple, tuple_members};
ghost use Rattle.canon_types.specs.declared.types.InterfaceType.TheVariants.{Tuple};
ghost use Rattle.canon_passing.specs.Args.{args_words};

use crate::passed::lift_passed;
use canon_context::{Fault, LiftContext, LowerContext};
use canon_lift::Lift;
use canon_lower::Lower;
use canon_memory::{Guest, ValRaw};
use canon_types::{InterfaceType, MAX_FLAT_PARAMS, MAX_FLAT_RESULTS, TypeTupleIndex};
use std::alloc::Global;

/// Lifts a function's parameters, whose types are those of the tuple, from the words that the guest passed (CanonicalABI.md,
/// "lift_flat_values"): in a row up to MAX_FLAT_PARAMS words, else by a pointer, and takes what they cost from the fuel. Of the pointer
/// it tests first that it is a multiple of the tuple's alignment (`PointerMisaligned`), then that the tuple ends inside memory
/// (`PointerOutOfBounds`); the parameters answer as `Lift` does.
pub fn lift_params<U, G, P: Lift>(
    alloc: Global,
    cx: &mut LiftContext<'_, U, G>,
    ty: TypeTupleIndex,
    src: &[ValRaw],
) -> Result<P, Fault>
    requires tuple { HasTuple (component_types cx.old.core.now) ty }
    requires fits { P.fits cx.old.core.now.component.types (Tuple ty) }
    requires words { length src.now ≡ args_words (tuple_members (component_types cx.old.core.now) ty) }
    ensures lifts { Lifts (passed_reading max_params (product of_places (tuple_members (component_types cx.old.core.now) ty)) P.reading) (setting_in cx.old.core.now cx.old.options) (flat_in src.now 0)
        (product of_places (tuple_members (component_types cx.old.core.now) ty)) cx.old.core.now.ledger cx.old.fuel result cx.new.core.now.ledger cx.new.fuel }
    ensures same_core { cx.new.core.now ≡ record cx.old.core.now { ledger = cx.new.core.now.ledger } }
    ensures same_reference { cx.new.core.ghost_name ≡ cx.old.core.ghost_name }
    ensures same_options { cx.new.options ≡ cx.old.options }
{
    lift_passed(alloc, cx, ty, src, MAX_FLAT_PARAMS)
}

/// Lowers a function's results, whose types are those of the tuple (CanonicalABI.md, "lower_flat_values"): into words in a row up to
/// MAX_FLAT_RESULTS words, else as a tuple at the address `at`, where there is room, and `dst` stays. Answers the errors of `Lower`. At
/// an error the words, what stands at `at`, the blocks and the handles may have changed.
pub fn lower_results<D, G: Guest, R: Lower>(
    cx: &mut LowerContext<'_, D, G>,
    results: &mut R,
    ty: TypeTupleIndex,
    at: u64,
    dst: &mut [ValRaw],
) -> Result<(), Fault>
    requires tuple { HasTuple (component_types cx.old.core.now) ty }
    requires fits { R.fits cx.old.core.now.component.types (Tuple ty) }
    requires near { members_flat (tuple_members (component_types cx.old.core.now) ty) ≤ max_results → length dst.old ≡ members_flat (tuple_members (component_types cx.old.core.now) ty) }
    requires far { max_results < members_flat (tuple_members (component_types cx.old.core.now) ty) → at + size false (product of_places (tuple_members (component_types cx.old.core.now) ty)) ≤ length cx.old.core.now.memory }
    ensures lowers { TypedResults G.seen G.moves cx.old.options cx.old.core.now cx.new.core.now (tuple_members (component_types cx.old.core.now) ty) at dst.new (R.walks results.old)
        (R.gives cx.old.core.now.component.types (product of_places (tuple_members (component_types cx.old.core.now) ty)) results.old) result }
    ensures count { length dst.new ≡ length dst.old }
    ensures kept { max_results < members_flat (tuple_members (component_types cx.old.core.now) ty) → dst.new ≡ dst.old }
    ensures same_reference { cx.new.core.ghost_name ≡ cx.old.core.ghost_name }
    ensures same_options { cx.new.options ≡ cx.old.options }
{
    let abi = cx.types().tuple(ty).abi;
    if abi.flat_count(u64::from(MAX_FLAT_RESULTS)).is_some() {
        results.linear_lower_to_flat(cx, InterfaceType::Tuple(ty), dst)
    } else {
        results.linear_lower_to_memory(cx, InterfaceType::Tuple(ty), at)
    }
}
