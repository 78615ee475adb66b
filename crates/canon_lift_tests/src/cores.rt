//! What is lifted from the memory of a core.

ghost use Rattle.std.specs.Prelude.{IfSome};
ghost use Rattle.canon_context.specs.Component.{HasOptions};

use canon_context::{Fault, LiftContext};
use canon_lift::Lift;
use canon_test_core::{TestCore, Typed, has_room, memory_of, with_core};
use canon_types::{InterfaceType, OptionsIndex, StringEncoding, TypeError};
use std::alloc::Global;

/// What is answered of a core of a type, whose memory begins with these bytes.
pub(crate) fn over_bytes<R, F: FnOnce(Global, &mut TestCore, &InterfaceType) -> Option<R>>(
    alloc: Global,
    typed: Result<Typed, TypeError>,
    bytes: &[u8],
    ask: F,
) -> Option<R>
    requires { F.IsAlwaysCallable ask }
{
    with_core(
        alloc,
        StringEncoding::Utf8,
        memory_of(alloc, bytes),
        typed,
        ask,
    )
}

/// What memory is lifted to at 0, and what that cost. None where it isn't of this type.
pub(crate) fn loaded<T: Lift>(
    alloc: Global,
    core: &mut TestCore,
    ty: &InterfaceType,
) -> Option<(Result<T, Fault>, u64)>
    ensures options { IfSome result (λ r. HasOptions core.new.component 0) }
{
    if !has_room::<T>(core, ty, 0, 1) {
        return None;
    }
    let mut cx = LiftContext::new(core, OptionsIndex::from_u32(0));
    let value = T::linear_lift_from_memory(alloc, &mut cx, *ty, 0);
    let left = cx.fuel();
    Some((value, 1_000u64.saturating_sub(left)))
}

/// What stays in memory that is lifted at 0.
pub(crate) fn stays<T: Lift>(alloc: Global, core: &mut TestCore, ty: &InterfaceType) -> Option<T>
    ensures options { IfSome result (λ value. HasOptions core.new.component 0) }
{
    match loaded::<T>(alloc, core, ty) {
        Some((Ok(value), _)) => Some(value),
        _ => None,
    }
}
