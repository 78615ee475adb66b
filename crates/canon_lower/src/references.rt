//! `Box<T>` and `&T`, which are lowered as `T`.

use crate::{Lower, LowerShared};
use canon_context::{Fault, LowerContext};
use canon_memory::{Guest, ValRaw};
use canon_types::InterfaceType;

impl<T: Lower> Lower for Box<T> {
    ghost gives = { λ i s r. T.gives i s r.value };

    fn linear_lower_to_flat<D, G: Guest>(
        &mut self,
        cx: &mut LowerContext<'_, D, G>,
        ty: InterfaceType,
        dst: &mut [ValRaw],
    ) -> Result<(), Fault> {
        (**self).linear_lower_to_flat(cx, ty, dst)
    }

    fn linear_lower_to_memory<D, G: Guest>(
        &mut self,
        cx: &mut LowerContext<'_, D, G>,
        ty: InterfaceType,
        offset: u64,
    ) -> Result<(), Fault> {
        (**self).linear_lower_to_memory(cx, ty, offset)
    }

    ghost walkable = { λ r. T.walkable r.value };

    ghost given = { λ r. T.given r.value };
}

impl<T: LowerShared> LowerShared for Box<T> {
    ghost gives = { λ i s r. T.gives i s r.value };

    fn linear_lower_to_flat<D, G: Guest>(
        &self,
        cx: &mut LowerContext<'_, D, G>,
        ty: InterfaceType,
        dst: &mut [ValRaw],
    ) -> Result<(), Fault> {
        (**self).linear_lower_to_flat(cx, ty, dst)
    }

    fn linear_lower_to_memory<D, G: Guest>(
        &self,
        cx: &mut LowerContext<'_, D, G>,
        ty: InterfaceType,
        offset: u64,
    ) -> Result<(), Fault> {
        (**self).linear_lower_to_memory(cx, ty, offset)
    }

    ghost walkable = { λ r. T.walkable r.value };

    ghost given = { λ r. T.given r.value };
}

impl<'a, T: LowerShared> Lower for &'a T {
    ghost gives = { λ i s r. T.gives i s r.now };

    fn linear_lower_to_flat<D, G: Guest>(
        &mut self,
        cx: &mut LowerContext<'_, D, G>,
        ty: InterfaceType,
        dst: &mut [ValRaw],
    ) -> Result<(), Fault> {
        (**self).linear_lower_to_flat(cx, ty, dst)
    }

    fn linear_lower_to_memory<D, G: Guest>(
        &mut self,
        cx: &mut LowerContext<'_, D, G>,
        ty: InterfaceType,
        offset: u64,
    ) -> Result<(), Fault> {
        (**self).linear_lower_to_memory(cx, ty, offset)
    }

    ghost walkable = { λ r. T.walkable r.now };

    ghost given = { λ r. T.given r.now };
}

impl<'a, T: LowerShared> LowerShared for &'a T {
    ghost gives = { λ i s r. T.gives i s r.now };

    fn linear_lower_to_flat<D, G: Guest>(
        &self,
        cx: &mut LowerContext<'_, D, G>,
        ty: InterfaceType,
        dst: &mut [ValRaw],
    ) -> Result<(), Fault> {
        (**self).linear_lower_to_flat(cx, ty, dst)
    }

    fn linear_lower_to_memory<D, G: Guest>(
        &self,
        cx: &mut LowerContext<'_, D, G>,
        ty: InterfaceType,
        offset: u64,
    ) -> Result<(), Fault> {
        (**self).linear_lower_to_memory(cx, ty, offset)
    }

    ghost walkable = { λ r. T.walkable r.now };

    ghost given = { λ r. T.given r.now };
}
