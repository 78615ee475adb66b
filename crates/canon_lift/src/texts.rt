//! Texts.

ghost use Rattle.std.specs.Prelude.{◌<◌, refl, true};
ghost use Rattle.canon_reading.specs.Scopes.{plain_kept};
ghost use Rattle.canon_typed.specs.Meaning.{TextMeans};
ghost use Rattle.canon_reading.specs.Apart.{tree_apart};
ghost use Rattle.canon_reading.specs.OfTrees.{text_priced, text_told, tree_faulted};
ghost use Rattle.canon_reading.specs.Readings.{text_charge, text_reading};
ghost use Rattle.canon_reading.specs.Taken.{tree_taken};

use crate::Lift;
use canon_bytes::load_u32;
use canon_context::{At, Fault, LiftContext};
use canon_lift_parts::{text_of, word_at, word_u32};
use canon_memory::ValRaw;
use canon_types::InterfaceType;
use std::alloc::Global;

impl Lift for String {
    ghost reading = { text_reading TextMeans };

    ghost kept = { plain_kept (λ w at s. refl) };

    fn unit_value() -> Option<String> {
        None
    }

    fn linear_lift_from_memory<U, G>(
        alloc: Global,
        cx: &mut LiftContext<'_, U, G>,
        _ty: InterfaceType,
        at: u64,
    ) -> Result<String, Fault> {
        let pointer = u64::from(load_u32(cx.memory(), at));
        let length = u64::from(load_u32(cx.memory(), at + 4));
        text_of(alloc, cx, pointer, length, At::Address(at))
    }

    fn lift_words<U, G>(
        alloc: Global,
        cx: &mut LiftContext<'_, U, G>,
        _ty: InterfaceType,
        src: &[ValRaw],
        at: usize,
    ) -> Result<String, Fault> {
        let pointer = u64::from(word_u32(src, at));
        let length = u64::from(word_u32(src, at + 1));
        text_of(alloc, cx, pointer, length, word_at(at))
    }

    ghost taken = { tree_taken TextMeans text_charge true };

    ghost apart = { tree_apart };

    ghost faulted = { tree_faulted };

    ghost priced = { text_priced (λ w at s. refl) };

    ghost told = { λ h. text_told };
}
