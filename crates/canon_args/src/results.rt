//! The results of a call, as the guest returned them.

ghost use Rattle.std.specs.Prelude.{◌≡◌, length};
ghost use Rattle.canon_args.specs.Returned.{passed_reading, result_count};
ghost use Rattle.canon_context.specs.Core.{component_types};
ghost use Rattle.canon_reading.specs.Reading.{Lifts, setting_in};
ghost use Rattle.canon_reading.specs.Spots.{flat_in};
ghost use Rattle.canon_model.specs.Flat.{max_results};
ghost use Rattle.canon_model.specs.Shape.{of_places, product};
ghost use Rattle.canon_types.specs.Table.{HasTuple, tuple_members};
ghost use Rattle.canon_types.specs.declared.types.InterfaceType.TheVariants.{Tuple};

use crate::passed::lift_passed;
use canon_context::{Fault, LiftContext};
use canon_lift::Lift;
use canon_memory::ValRaw;
use canon_types::{MAX_FLAT_RESULTS, TypeTupleIndex};
use std::alloc::Global;

/// Lifts a function's results, whose types are those of the tuple, from the words that it returned (CanonicalABI.md,
/// "lift_flat_values"): in a row up to MAX_FLAT_RESULTS words, else by a pointer, and takes what they cost from the fuel. Of the pointer
/// it tests first that it is a multiple of the tuple's alignment (`PointerMisaligned`), then that the tuple ends inside memory
/// (`PointerOutOfBounds`); the results answer as `Lift` does.
pub fn lift_results<U, G, R: Lift>(
    alloc: Global,
    cx: &mut LiftContext<'_, U, G>,
    ty: TypeTupleIndex,
    src: &[ValRaw],
) -> Result<R, Fault>
    requires tuple { HasTuple (component_types cx.old.core.now) ty }
    requires fits { R.fits cx.old.core.now.component.types (Tuple ty) }
    requires words { length src.now ≡ result_count (tuple_members (component_types cx.old.core.now) ty) }
    ensures lifts { Lifts (passed_reading max_results (product of_places (tuple_members (component_types cx.old.core.now) ty)) R.reading) (setting_in cx.old.core.now cx.old.options) (flat_in src.now 0)
        (product of_places (tuple_members (component_types cx.old.core.now) ty)) cx.old.core.now.ledger cx.old.fuel result cx.new.core.now.ledger cx.new.fuel }
    ensures same_core { cx.new.core.now ≡ record cx.old.core.now { ledger = cx.new.core.now.ledger } }
    ensures same_reference { cx.new.core.ghost_name ≡ cx.old.core.ghost_name }
    ensures same_options { cx.new.options ≡ cx.old.options }
{
    lift_passed(alloc, cx, ty, src, MAX_FLAT_RESULTS)
}
