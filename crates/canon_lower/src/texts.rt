//! Texts.

ghost use Rattle.canon_lower_parts.specs.Given.{text_given};
ghost use Rattle.canon_lower_parts.specs.Gives.{no_handles};
ghost use Rattle.canon_lower_parts.specs.Walkable.{text_walkable};

use crate::{Lower, LowerShared};
use canon_context::{Fault, LowerContext};
use canon_lower_parts::{lower_text, store_text};
use canon_memory::{Guest, ValRaw};
use canon_types::InterfaceType;

impl Lower for String {
    ghost gives = { no_handles };

    fn linear_lower_to_flat<D, G: Guest>(
        &mut self,
        cx: &mut LowerContext<'_, D, G>,
        ty: InterfaceType,
        dst: &mut [ValRaw],
    ) -> Result<(), Fault> {
        lower_text(self, cx, ty, dst)
    }

    fn linear_lower_to_memory<D, G: Guest>(
        &mut self,
        cx: &mut LowerContext<'_, D, G>,
        ty: InterfaceType,
        offset: u64,
    ) -> Result<(), Fault> {
        store_text(self, cx, ty, offset)
    }

    ghost walkable = { text_walkable };

    ghost given = { text_given _ };
}

impl LowerShared for String {
    ghost gives = { no_handles };

    fn linear_lower_to_flat<D, G: Guest>(
        &self,
        cx: &mut LowerContext<'_, D, G>,
        ty: InterfaceType,
        dst: &mut [ValRaw],
    ) -> Result<(), Fault> {
        lower_text(self, cx, ty, dst)
    }

    fn linear_lower_to_memory<D, G: Guest>(
        &self,
        cx: &mut LowerContext<'_, D, G>,
        ty: InterfaceType,
        offset: u64,
    ) -> Result<(), Fault> {
        store_text(self, cx, ty, offset)
    }

    ghost walkable = { text_walkable };

    ghost given = { text_given _ };
}
