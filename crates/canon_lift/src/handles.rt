//! Handles of resources.

ghost use Rattle.canon_reading.specs.OwnScopes.{any_kept};
ghost use Rattle.canon_reading.specs.Handles.{any_apart, any_faulted, any_priced, any_reading, any_taken, any_told};

use crate::Lift;
use canon_bytes::load_u32;
use canon_context::{Fault, LiftContext};
use canon_lift_parts::{lift_any, word_u32};
use canon_memory::ValRaw;
use canon_resources::ResourceAny;
use canon_types::InterfaceType;
use std::alloc::Global;

impl Lift for ResourceAny {
    ghost reading = { any_reading };

    ghost kept = { any_kept };

    fn unit_value() -> Option<ResourceAny> {
        None
    }

    fn linear_lift_from_memory<U, G>(
        alloc: Global,
        cx: &mut LiftContext<'_, U, G>,
        ty: InterfaceType,
        at: u64,
    ) -> Result<ResourceAny, Fault> {
        let index = load_u32(cx.memory(), at);
        lift_any(alloc, cx, ty, index)
    }

    fn lift_words<U, G>(
        alloc: Global,
        cx: &mut LiftContext<'_, U, G>,
        ty: InterfaceType,
        src: &[ValRaw],
        at: usize,
    ) -> Result<ResourceAny, Fault> {
        lift_any(alloc, cx, ty, word_u32(src, at))
    }

    ghost taken = { any_taken };

    ghost apart = { any_apart };

    ghost faulted = { any_faulted };

    ghost priced = { any_priced };

    ghost told = { λ h. any_told };
}
