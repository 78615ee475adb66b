//! Values that are passed in words: in a row, or as a tuple that the only word points to.

ghost use Rattle.std.specs.Prelude.{◌≡◌, ◌≤◌, length};
ghost use Rattle.canon_args.specs.Returned.{area_reading, passed_count, passed_reading};
ghost use Rattle.canon_context.specs.Core.{component_types};
ghost use Rattle.canon_reading.specs.Reading.{Lifts, setting_in};
ghost use Rattle.canon_reading.specs.Spots.{flat_in};
ghost use Rattle.canon_model.specs.Shape.{of_places, product};
ghost use Rattle.canon_types.specs.Table.{HasTuple, tuple_members};
ghost use Rattle.canon_types.specs.declared.types.InterfaceType.TheVariants.{Tuple};

use canon_bytes::ends_inside;
use canon_context::{At, Fault, LiftContext};
use canon_lift::Lift;
use canon_memory::ValRaw;
use canon_types::{InterfaceType, TypeTupleIndex};
use std::alloc::Global;

/// Lifts values, whose types are those of the tuple, from words: in a row up to `most` words, else by a pointer.
pub(crate) fn lift_passed<U, G, V: Lift>(
    alloc: Global,
    cx: &mut LiftContext<'_, U, G>,
    ty: TypeTupleIndex,
    src: &[ValRaw],
    most: u8,
) -> Result<V, Fault>
    requires tuple { HasTuple (component_types cx.old.core.now) ty }
    requires fits { V.fits cx.old.core.now.component.types (Tuple ty) }
    requires few { most ≤ 16 }
    requires words { length src.now ≡ passed_count most (tuple_members (component_types cx.old.core.now) ty) }
    ensures lifts { Lifts (passed_reading most (product of_places (tuple_members (component_types cx.old.core.now) ty)) V.reading) (setting_in cx.old.core.now cx.old.options) (flat_in src.now 0)
        (product of_places (tuple_members (component_types cx.old.core.now) ty)) cx.old.core.now.ledger cx.old.fuel result cx.new.core.now.ledger cx.new.fuel }
    ensures same_core { cx.new.core.now ≡ record cx.old.core.now { ledger = cx.new.core.now.ledger } }
    ensures same_reference { cx.new.core.ghost_name ≡ cx.old.core.ghost_name }
    ensures same_options { cx.new.options ≡ cx.old.options }
{
    let abi = cx.types().tuple(ty).abi;
    if abi.flat_count(u64::from(most)).is_some() {
        V::lift_words(alloc, cx, InterfaceType::Tuple(ty), src, 0)
    } else {
        lift_pointed(alloc, cx, ty, src)
    }
}

/// Lifts the tuple that the only word points to.
fn lift_pointed<U, G, V: Lift>(
    alloc: Global,
    cx: &mut LiftContext<'_, U, G>,
    ty: TypeTupleIndex,
    src: &[ValRaw],
) -> Result<V, Fault>
    requires tuple { HasTuple (component_types cx.old.core.now) ty }
    requires fits { V.fits cx.old.core.now.component.types (Tuple ty) }
    requires word { length src.now ≡ 1 }
    ensures lifts { Lifts (area_reading V.reading) (setting_in cx.old.core.now cx.old.options) (flat_in src.now 0)
        (product of_places (tuple_members (component_types cx.old.core.now) ty)) cx.old.core.now.ledger cx.old.fuel result cx.new.core.now.ledger cx.new.fuel }
    ensures same_core { cx.new.core.now ≡ record cx.old.core.now { ledger = cx.new.core.now.ledger } }
    ensures same_reference { cx.new.core.ghost_name ≡ cx.old.core.ghost_name }
    ensures same_options { cx.new.options ≡ cx.old.options }
{
    let abi = cx.types().tuple(ty).abi;
    let at = u64::from(src[0].get_u32());
    if at % u64::from(abi.align32) != 0 {
        return Err(Fault::PointerMisaligned(At::Word(0)));
    }
    if !ends_inside(cx.memory(), at, 1, abi.size32) {
        return Err(Fault::PointerOutOfBounds(At::Word(0)));
    }
    V::linear_lift_from_memory(alloc, cx, InterfaceType::Tuple(ty), at)
}
