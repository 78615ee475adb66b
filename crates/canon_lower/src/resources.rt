//! Resources, for which the guest is given handles.

ghost use Rattle.canon_lower_parts.specs.Given.{handle_given};
ghost use Rattle.canon_lower_parts.specs.Handles.{handle_gives};
ghost use Rattle.canon_lower_parts.specs.Walkable.{handle_walkable};

use crate::{Lower, LowerShared};
use canon_context::{Fault, LowerContext};
use canon_lower_parts::{lower_resource, store_resource};
use canon_memory::{Guest, ValRaw};
use canon_resources::ResourceAny;
use canon_types::InterfaceType;

impl Lower for ResourceAny {
    ghost gives = { handle_gives };

    fn linear_lower_to_flat<D, G: Guest>(
        &mut self,
        cx: &mut LowerContext<'_, D, G>,
        ty: InterfaceType,
        dst: &mut [ValRaw],
    ) -> Result<(), Fault> {
        lower_resource(cx, ty, *self, dst)
    }

    fn linear_lower_to_memory<D, G: Guest>(
        &mut self,
        cx: &mut LowerContext<'_, D, G>,
        ty: InterfaceType,
        offset: u64,
    ) -> Result<(), Fault> {
        store_resource(cx, ty, *self, offset)
    }

    ghost walkable = { λ v. handle_walkable };

    ghost given = { handle_given };
}

impl LowerShared for ResourceAny {
    ghost gives = { handle_gives };

    fn linear_lower_to_flat<D, G: Guest>(
        &self,
        cx: &mut LowerContext<'_, D, G>,
        ty: InterfaceType,
        dst: &mut [ValRaw],
    ) -> Result<(), Fault> {
        lower_resource(cx, ty, *self, dst)
    }

    fn linear_lower_to_memory<D, G: Guest>(
        &self,
        cx: &mut LowerContext<'_, D, G>,
        ty: InterfaceType,
        offset: u64,
    ) -> Result<(), Fault> {
        store_resource(cx, ty, *self, offset)
    }

    ghost walkable = { λ v. handle_walkable };

    ghost given = { handle_given };
}
