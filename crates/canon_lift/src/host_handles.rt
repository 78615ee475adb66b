//! Resources of the host: what the host gets is the representation behind a handle of the guest's, and no table of the host changes.

ghost use Rattle.canon_resources.specs.Types.{as_host};
ghost use Rattle.canon_types.specs.Resource.{as_host_dynamic};
ghost use Rattle.canon_reading.specs.HostHandles.{IsMadeBy, held_apart, held_faulted, held_priced, held_reading, held_taken, held_told};
ghost use Rattle.canon_reading.specs.OwnScopes.{held_kept};

use crate::Lift;
use canon_bytes::load_u32;
use canon_context::{Fault, LiftContext};
use canon_lift_parts::{lift_held, word_u32};
use canon_memory::ValRaw;
use canon_resources::{HostResource, HostResourceType, HostType, Resource, ResourceDynamic};
use canon_types::InterfaceType;
use std::alloc::Global;

impl<T: HostResourceType<D>, D: Copy> Lift for HostResource<T, D> {
    ghost reading = { held_reading (IsMadeBy T.checked) };

    ghost kept = { held_kept T.checked (IsMadeBy T.checked) };

    fn unit_value() -> Option<HostResource<T, D>> {
        None
    }

    fn linear_lift_from_memory<U, G>(
        alloc: Global,
        cx: &mut LiftContext<'_, U, G>,
        ty: InterfaceType,
        at: u64,
    ) -> Result<HostResource<T, D>, Fault> {
        let index = load_u32(cx.memory(), at);
        lift_held(alloc, cx, ty, index)
    }

    fn lift_words<U, G>(
        alloc: Global,
        cx: &mut LiftContext<'_, U, G>,
        ty: InterfaceType,
        src: &[ValRaw],
        at: usize,
    ) -> Result<HostResource<T, D>, Fault> {
        lift_held(alloc, cx, ty, word_u32(src, at))
    }

    ghost taken = { held_taken (IsMadeBy T.checked) };

    ghost apart = { held_apart (IsMadeBy T.checked) };

    ghost faulted = { held_faulted (IsMadeBy T.checked) };

    ghost priced = { held_priced (IsMadeBy T.checked) };

    ghost told = { λ h. held_told T.checked };
}

impl<T: HostType> Lift for Resource<T> {
    ghost reading = { held_reading (IsMadeBy (as_host T.ID)) };

    ghost kept = { held_kept (as_host T.ID) (IsMadeBy (as_host T.ID)) };

    fn unit_value() -> Option<Resource<T>> {
        None
    }

    fn linear_lift_from_memory<U, G>(
        alloc: Global,
        cx: &mut LiftContext<'_, U, G>,
        ty: InterfaceType,
        at: u64,
    ) -> Result<Resource<T>, Fault> {
        let index = load_u32(cx.memory(), at);
        lift_held(alloc, cx, ty, index)
    }

    fn lift_words<U, G>(
        alloc: Global,
        cx: &mut LiftContext<'_, U, G>,
        ty: InterfaceType,
        src: &[ValRaw],
        at: usize,
    ) -> Result<Resource<T>, Fault> {
        lift_held(alloc, cx, ty, word_u32(src, at))
    }

    ghost taken = { held_taken (IsMadeBy (as_host T.ID)) };

    ghost apart = { held_apart (IsMadeBy (as_host T.ID)) };

    ghost faulted = { held_faulted (IsMadeBy (as_host T.ID)) };

    ghost priced = { held_priced (IsMadeBy (as_host T.ID)) };

    ghost told = { λ h. held_told (as_host T.ID) };
}

impl Lift for ResourceDynamic {
    ghost reading = { held_reading (IsMadeBy as_host_dynamic) };

    ghost kept = { held_kept as_host_dynamic (IsMadeBy as_host_dynamic) };

    fn unit_value() -> Option<ResourceDynamic> {
        None
    }

    fn linear_lift_from_memory<U, G>(
        alloc: Global,
        cx: &mut LiftContext<'_, U, G>,
        ty: InterfaceType,
        at: u64,
    ) -> Result<ResourceDynamic, Fault> {
        let index = load_u32(cx.memory(), at);
        lift_held(alloc, cx, ty, index)
    }

    fn lift_words<U, G>(
        alloc: Global,
        cx: &mut LiftContext<'_, U, G>,
        ty: InterfaceType,
        src: &[ValRaw],
        at: usize,
    ) -> Result<ResourceDynamic, Fault> {
        lift_held(alloc, cx, ty, word_u32(src, at))
    }

    ghost taken = { held_taken (IsMadeBy as_host_dynamic) };

    ghost apart = { held_apart (IsMadeBy as_host_dynamic) };

    ghost faulted = { held_faulted (IsMadeBy as_host_dynamic) };

    ghost priced = { held_priced (IsMadeBy as_host_dynamic) };

    ghost told = { λ h. held_told as_host_dynamic };
}
