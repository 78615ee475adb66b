//! Options, results and boxes.

ghost use Rattle.std.specs.Prelude.{◌≡◌, ◌≤◌, ◌+◌, ◌%◌, ◌&&◌, false, length};
ghost use Rattle.canon_context.specs.Core.{component_types};
ghost use Rattle.canon_reading.specs.Scopes.{boxed_kept, option_kept, result_kept};
ghost use Rattle.canon_model.specs.Layout.{align, flat, payload_shape, size};
ghost use Rattle.canon_model.specs.Shape.{case_for, no_cases};
ghost use Rattle.canon_types.specs.Table.{KnowsPayload, all_shapes, payload_in};
ghost use Rattle.canon_typed.specs.Types.{IsPayloadOf};
ghost use Rattle.canon_reading.specs.Apart.{boxed_apart, option_apart, result_apart};
ghost use Rattle.canon_reading.specs.OfTrees.{boxed_faulted, boxed_priced, boxed_told, left_true, option_faulted, option_priced, option_told, result_faulted, result_priced, result_told, right_true};
ghost use Rattle.canon_reading.specs.Reading.{Lifts, setting_in};
ghost use Rattle.canon_reading.specs.Readings.{boxed_reading, option_reading, payload_reading, result_reading};
ghost use Rattle.canon_reading.specs.Spots.{flat_in, stored};
ghost use Rattle.canon_reading.specs.Taken.{boxed_taken, option_taken, result_taken};

use crate::Lift;
use canon_bytes::load_tag;
use canon_context::{At, Fault, LiftContext};
use canon_lift_parts::{word_at, word_u32};
use canon_memory::ValRaw;
use canon_types::InterfaceType;
use std::alloc::Global;

impl<T: Lift> Lift for Option<T> {
    ghost reading = { option_reading T.reading };

    ghost kept = { option_kept T.fits T.reading T.kept };

    fn unit_value() -> Option<Option<T>> {
        None
    }

    fn linear_lift_from_memory<U, G>(
        alloc: Global,
        cx: &mut LiftContext<'_, U, G>,
        ty: InterfaceType,
        at: u64,
    ) -> Result<Option<T>, Fault> {
        let InterfaceType::Option(i) = ty else {
            unreachable!()
        };
        let option = cx.types().option(i);
        let (some, info) = (option.ty, option.info);
        let _memory = cx.core.memory(); // memory has at most 2^32 bytes
        let place = at + u64::from(info.payload_offset32);
        match load_tag(cx.memory(), info.size, at) {
            0 => Ok(None),
            1 => match T::linear_lift_from_memory(alloc, cx, some, place) {
                Ok(value) => Ok(Some(value)),
                Err(fault) => Err(fault),
            },
            tag => Err(Fault::BadDiscriminant(At::Address(at), tag)),
        }
    }

    fn lift_words<U, G>(
        alloc: Global,
        cx: &mut LiftContext<'_, U, G>,
        ty: InterfaceType,
        src: &[ValRaw],
        at: usize,
    ) -> Result<Option<T>, Fault> {
        let InterfaceType::Option(i) = ty else {
            unreachable!()
        };
        let some = cx.types().option(i).ty;
        match word_u32(src, at) {
            0 => Ok(None),
            1 => match T::lift_words(alloc, cx, some, src, at + 1) {
                Ok(value) => Ok(Some(value)),
                Err(fault) => Err(fault),
            },
            tag => Err(Fault::BadDiscriminant(word_at(at), tag)),
        }
    }

    ghost taken = { option_taken T.reading T.taken };

    ghost apart = { option_apart T.apart };

    ghost faulted = { option_faulted T.faulted };

    ghost priced = { option_priced T.priced };

    ghost told = { λ h. option_told (T.told h) };
}

/// Lifts the payload of a case at an address: the unit stands for none.
fn lift_payload<T: Lift, U, G>(
    alloc: Global,
    cx: &mut LiftContext<'_, U, G>,
    ty: Option<InterfaceType>,
    at: u64,
) -> Result<T, Fault>
    requires known { KnowsPayload (component_types cx.old.core.now) ty }
    requires fits { IsPayloadOf T.is_unit T.fits cx.old.core.now.component.types ty }
    requires aligned { at % align false (payload_shape (case_for (payload_in (all_shapes (component_types cx.old.core.now)) ty) no_cases) 0) ≡ 0 }
    requires inside { at + size false (payload_shape (case_for (payload_in (all_shapes (component_types cx.old.core.now)) ty) no_cases) 0) ≤ length cx.old.core.now.memory }
    ensures lifts { Lifts (payload_reading T.is_unit T.reading) (setting_in cx.old.core.now cx.old.options) (stored at) (payload_shape (case_for (payload_in (all_shapes (component_types cx.old.core.now)) ty) no_cases) 0)
        cx.old.core.now.ledger cx.old.fuel result cx.new.core.now.ledger cx.new.fuel }
    ensures same_core { cx.new.core.now ≡ record cx.old.core.now { ledger = cx.new.core.now.ledger } }
    ensures same_reference { cx.new.core.ghost_name ≡ cx.old.core.ghost_name }
    ensures same_options { cx.new.options ≡ cx.old.options }
{
    match ty {
        Some(ty) => T::linear_lift_from_memory(alloc, cx, ty, at),
        None => match T::unit_value() {
            Some(unit) => Ok(unit),
            None => unreachable!(),
        },
    }
}

/// The same from the words from an index on.
fn lift_payload_words<T: Lift, U, G>(
    alloc: Global,
    cx: &mut LiftContext<'_, U, G>,
    ty: Option<InterfaceType>,
    src: &[ValRaw],
    at: usize,
) -> Result<T, Fault>
    requires known { KnowsPayload (component_types cx.old.core.now) ty }
    requires fits { IsPayloadOf T.is_unit T.fits cx.old.core.now.component.types ty }
    requires words { at + flat (payload_shape (case_for (payload_in (all_shapes (component_types cx.old.core.now)) ty) no_cases) 0) ≤ length src.now }
    ensures lifts { Lifts (payload_reading T.is_unit T.reading) (setting_in cx.old.core.now cx.old.options) (flat_in src.now at) (payload_shape (case_for (payload_in (all_shapes (component_types cx.old.core.now)) ty) no_cases) 0)
        cx.old.core.now.ledger cx.old.fuel result cx.new.core.now.ledger cx.new.fuel }
    ensures same_core { cx.new.core.now ≡ record cx.old.core.now { ledger = cx.new.core.now.ledger } }
    ensures same_reference { cx.new.core.ghost_name ≡ cx.old.core.ghost_name }
    ensures same_options { cx.new.options ≡ cx.old.options }
{
    match ty {
        Some(ty) => T::lift_words(alloc, cx, ty, src, at),
        None => match T::unit_value() {
            Some(unit) => Ok(unit),
            None => unreachable!(),
        },
    }
}

impl<T: Lift, E: Lift> Lift for Result<T, E> {
    ghost reading = { result_reading T.is_unit T.reading E.is_unit E.reading };

    ghost kept = { result_kept T.is_unit E.is_unit T.kept E.kept };

    fn unit_value() -> Option<Result<T, E>> {
        None
    }

    fn linear_lift_from_memory<U, G>(
        alloc: Global,
        cx: &mut LiftContext<'_, U, G>,
        ty: InterfaceType,
        at: u64,
    ) -> Result<Result<T, E>, Fault> {
        let InterfaceType::Result(i) = ty else {
            unreachable!()
        };
        let result = cx.types().result(i);
        let (ok, err, info) = (result.ok, result.err, result.info);
        let _memory = cx.core.memory(); // memory has at most 2^32 bytes
        let place = at + u64::from(info.payload_offset32);
        match load_tag(cx.memory(), info.size, at) {
            0 => match lift_payload(alloc, cx, ok, place) {
                Ok(value) => Ok(Ok(value)),
                Err(fault) => Err(fault),
            },
            1 => match lift_payload(alloc, cx, err, place) {
                Ok(value) => Ok(Err(value)),
                Err(fault) => Err(fault),
            },
            tag => Err(Fault::BadDiscriminant(At::Address(at), tag)),
        }
    }

    fn lift_words<U, G>(
        alloc: Global,
        cx: &mut LiftContext<'_, U, G>,
        ty: InterfaceType,
        src: &[ValRaw],
        at: usize,
    ) -> Result<Result<T, E>, Fault> {
        let InterfaceType::Result(i) = ty else {
            unreachable!()
        };
        let result = cx.types().result(i);
        let (ok, err) = (result.ok, result.err);
        match word_u32(src, at) {
            0 => match lift_payload_words(alloc, cx, ok, src, at + 1) {
                Ok(value) => Ok(Ok(value)),
                Err(fault) => Err(fault),
            },
            1 => match lift_payload_words(alloc, cx, err, src, at + 1) {
                Ok(value) => Ok(Err(value)),
                Err(fault) => Err(fault),
            },
            tag => Err(Fault::BadDiscriminant(word_at(at), tag)),
        }
    }

    ghost taken = { result_taken T.is_unit T.reading E.is_unit E.reading T.taken E.taken };

    ghost apart = { result_apart T.is_unit E.is_unit T.apart E.apart };

    ghost faulted = { result_faulted T.is_unit E.is_unit T.faulted E.faulted };

    ghost priced = { result_priced T.is_unit E.is_unit T.priced E.priced };

    ghost told = { λ h. result_told T.is_unit E.is_unit (T.told (left_true T.is_told E.is_told h)) (E.told (right_true T.is_told E.is_told h)) };
}

impl<T: Lift> Lift for Box<T> {
    ghost reading = { boxed_reading (λ b. b.value) T.reading };

    ghost kept = { boxed_kept T.fits T.reading T.kept (λ b. b.value) };

    fn unit_value() -> Option<Box<T>> {
        None
    }

    fn linear_lift_from_memory<U, G>(
        alloc: Global,
        cx: &mut LiftContext<'_, U, G>,
        ty: InterfaceType,
        at: u64,
    ) -> Result<Box<T>, Fault> {
        match T::linear_lift_from_memory(alloc, cx, ty, at) {
            Ok(value) => match Box::new(alloc, value) {
                Ok(boxed) => Ok(boxed),
                Err(_) => Err(Fault::OutOfMemory),
            },
            Err(fault) => Err(fault),
        }
    }

    fn lift_words<U, G>(
        alloc: Global,
        cx: &mut LiftContext<'_, U, G>,
        ty: InterfaceType,
        src: &[ValRaw],
        at: usize,
    ) -> Result<Box<T>, Fault> {
        match T::lift_words(alloc, cx, ty, src, at) {
            Ok(value) => match Box::new(alloc, value) {
                Ok(boxed) => Ok(boxed),
                Err(_) => Err(Fault::OutOfMemory),
            },
            Err(fault) => Err(fault),
        }
    }

    ghost taken = { boxed_taken (λ b. b.value) T.reading T.taken };

    ghost apart = { boxed_apart (λ b. b.value) T.apart };

    ghost faulted = { boxed_faulted (λ b. b.value) T.faulted };

    ghost priced = { boxed_priced (λ b. b.value) T.priced };

    ghost told = { λ h. boxed_told (λ b. b.value) (T.told h) };
}
