//! Vectors.

ghost use Rattle.canon_reading.specs.Scopes.{list_kept};
ghost use Rattle.canon_model.specs.Memory.{cap};
ghost use Rattle.canon_reading.specs.Apart.{as_apart, list_apart};
ghost use Rattle.canon_reading.specs.Readings.{list_reading, read_as};
ghost use Rattle.canon_reading.specs.RowsOfTrees.{list_faulted, list_priced, list_told};
ghost use Rattle.canon_reading.specs.OfTrees.{as_faulted, as_priced, as_told};
ghost use Rattle.canon_reading.specs.Taken.{as_taken, list_taken};
ghost use Rattle.canon_typed.specs.Charges.{list_cost};
ghost use Rattle.canon_typed.specs.Meaning.{ListMeans};
ghost use Rattle.canon_typed.specs.Types.{IsListOf};

use crate::{Lift, WasmList};
use canon_context::{Fault, LiftContext};
use canon_memory::ValRaw;
use canon_types::InterfaceType;
use std::alloc::Global;

impl<T: Lift> Lift for Vec<T> {
    ghost reading = { read_as (λ v. v.items) (list_reading (cap T.host_bytes) T.reading) };

    ghost kept = { list_kept T.fits T.reading T.kept (λ v. v.items) (cap T.host_bytes) };

    fn unit_value() -> Option<Vec<T>> {
        None
    }

    fn linear_lift_from_memory<U, G>(
        alloc: Global,
        cx: &mut LiftContext<'_, U, G>,
        ty: InterfaceType,
        at: u64,
    ) -> Result<Vec<T>, Fault> {
        match WasmList::<T>::linear_lift_from_memory(alloc, cx, ty, at) {
            Ok(list) => T::linear_lift_list_from_memory(alloc, cx, &list),
            Err(fault) => Err(fault),
        }
    }

    fn lift_words<U, G>(
        alloc: Global,
        cx: &mut LiftContext<'_, U, G>,
        ty: InterfaceType,
        src: &[ValRaw],
        at: usize,
    ) -> Result<Vec<T>, Fault> {
        match WasmList::<T>::lift_words(alloc, cx, ty, src, at) {
            Ok(list) => T::linear_lift_list_from_memory(alloc, cx, &list),
            Err(fault) => Err(fault),
        }
    }

    ghost taken = { as_taken (λ v. v.items) (list_reading (cap T.host_bytes) T.reading) (list_taken (cap T.host_bytes) T.reading T.taken) };

    ghost apart = { as_apart (λ v. v.items) (list_apart (cap T.host_bytes) T.apart) };

    ghost faulted = { as_faulted (λ v. v.items) (list_faulted (cap T.host_bytes) T.faulted) };

    ghost priced = { as_priced (λ v. v.items) (list_priced (cap T.host_bytes) T.priced) };

    ghost told = { λ h. as_told (λ v. v.items) (list_told (cap T.host_bytes) (T.told h)) };
}
