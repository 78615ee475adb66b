//! Lists of fixed length.

ghost use Rattle.std.specs.Prelude.{◌≡◌, ◌≤◌, ◌<◌, ◌+◌, ◌*◌, length};
ghost use Rattle.canon_context.specs.Core.{component_types};
ghost use Rattle.canon_reading.specs.Scopes.{fixed_kept};
ghost use Rattle.canon_model.specs.Layout.{flat};
ghost use Rattle.canon_types.specs.Table.{Knows, shape_of};
ghost use Rattle.canon_typed.specs.Charges.{row_cost};
ghost use Rattle.canon_typed.specs.Meaning.{RowMeans};
ghost use Rattle.canon_typed.specs.Types.{IsFixedOf};
ghost use Rattle.canon_reading.specs.Apart.{as_apart, fixed_apart};
ghost use Rattle.canon_reading.specs.Items.{vec_reading};
ghost use Rattle.canon_reading.specs.OfTrees.{as_faulted, as_priced, as_told};
ghost use Rattle.canon_reading.specs.Reading.{Lifts, setting_in};
ghost use Rattle.canon_reading.specs.Spots.{flat_in};
ghost use Rattle.canon_reading.specs.Readings.{fixed_reading, read_as};
ghost use Rattle.canon_reading.specs.RowsOfTrees.{fixed_faulted, fixed_priced, fixed_told};
ghost use Rattle.canon_reading.specs.Taken.{as_taken, fixed_taken};

use crate::{Lift, WasmList};
use canon_context::{Fault, LiftContext};
use canon_memory::ValRaw;
use canon_plan::flat_words;
use canon_typed::FixedList;
use canon_types::InterfaceType;
use std::alloc::Global;

/// Lifts so many values of a type from the words from an index on.
fn lift_row<T: Lift, U, G>(
    alloc: Global,
    cx: &mut LiftContext<'_, U, G>,
    ty: InterfaceType,
    src: &[ValRaw],
    at: usize,
    count: usize,
) -> Result<Vec<T>, Fault>
    requires known { Knows (component_types cx.old.core.now) ty }
    requires fits { T.fits cx.old.core.now.component.types ty }
    requires some { 0 < count }
    requires words { at + count * flat (shape_of (component_types cx.old.core.now) ty) ≤ length src.now }
    ensures lifts { Lifts (vec_reading count T.reading) (setting_in cx.old.core.now cx.old.options) (flat_in src.now at) (shape_of (component_types cx.old.core.now) ty)
        cx.old.core.now.ledger cx.old.fuel result cx.new.core.now.ledger cx.new.fuel }
    ensures same_core { cx.new.core.now ≡ record cx.old.core.now { ledger = cx.new.core.now.ledger } }
    ensures same_reference { cx.new.core.ghost_name ≡ cx.old.core.ghost_name }
    ensures same_options { cx.new.options ≡ cx.old.options }
{
    let step = flat_words(cx.types(), &ty) as usize;
    let mut items = Vec::new(alloc);
    for k in 0..count {
        match T::lift_words(alloc, cx, ty, src, at + k * step) {
            Ok(item) => match items.push(item) {
                Ok(()) => {}
                Err(_) => return Err(Fault::OutOfMemory),
            },
            Err(fault) => return Err(fault),
        }
    }
    Ok(items)
}

impl<T: Lift, const N: usize> Lift for FixedList<T, N> {
    ghost reading = { read_as (λ v. v.items.items) (fixed_reading N T.reading) };

    ghost kept = { fixed_kept T.fits T.reading T.kept (λ v. v.items.items) N };

    fn unit_value() -> Option<FixedList<T, N>> {
        None
    }

    fn linear_lift_from_memory<U, G>(
        alloc: Global,
        cx: &mut LiftContext<'_, U, G>,
        ty: InterfaceType,
        at: u64,
    ) -> Result<FixedList<T, N>, Fault> {
        let InterfaceType::FixedLengthList(i) = ty else {
            unreachable!()
        };
        let element = cx.types().fixed_length_list(i).element;
        let row = WasmList::row(cx, element, at, N as u64);
        match T::linear_lift_list_from_memory(alloc, cx, &row) {
            Ok(items) => match FixedList::new(items) {
                Some(list) => Ok(list),
                None => unreachable!(),
            },
            Err(fault) => Err(fault),
        }
    }

    fn lift_words<U, G>(
        alloc: Global,
        cx: &mut LiftContext<'_, U, G>,
        ty: InterfaceType,
        src: &[ValRaw],
        at: usize,
    ) -> Result<FixedList<T, N>, Fault> {
        let InterfaceType::FixedLengthList(i) = ty else {
            unreachable!()
        };
        let element = cx.types().fixed_length_list(i).element;
        match lift_row(alloc, cx, element, src, at, N) {
            Ok(items) => match FixedList::new(items) {
                Some(list) => Ok(list),
                None => unreachable!(),
            },
            Err(fault) => Err(fault),
        }
    }

    ghost taken = { as_taken (λ v. v.items.items) (fixed_reading N T.reading) (fixed_taken N T.reading T.taken) };

    ghost apart = { as_apart (λ v. v.items.items) (fixed_apart N T.apart) };

    ghost faulted = { as_faulted (λ v. v.items.items) (fixed_faulted N T.faulted) };

    ghost priced = { as_priced (λ v. v.items.items) (fixed_priced N T.priced) };

    ghost told = { λ h. as_told (λ v. v.items.items) (fixed_told N (T.told h)) };
}
