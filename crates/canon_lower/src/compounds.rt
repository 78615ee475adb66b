//! Options and results.

ghost use Rattle.std.specs.Prelude.{◌≡◌, ◌≤◌, ◌+◌, false, length};
ghost use Rattle.canon_context.specs.Core.{component_types};
ghost use Rattle.canon_lower_parts.specs.Given.{option_given, result_given};
ghost use Rattle.canon_lower_parts.specs.Gives.{option_gives, result_gives};
ghost use Rattle.canon_lower_parts.specs.Stores.{TypedStores};
ghost use Rattle.canon_lower_parts.specs.Walkable.{option_walkable, result_walkable};
ghost use Rattle.canon_lower_parts.specs.Words.{TypedLowers};
ghost use Rattle.canon_model.specs.Layout.{flat, size};
ghost use Rattle.canon_types.specs.Table.{Knows, shape_of};
ghost use Rattle.canon_typed.specs.Meaning.{ResultMeans};
ghost use Rattle.canon_typed.specs.Types.{IsResultOf};

use crate::cases::store_payload;
use crate::words::{lower_case, lower_payload};
use crate::{Lower, LowerShared};
use canon_context::{Fault, LowerContext};
use canon_lower_parts::{lower_bare, put_option, put_result};
use canon_memory::{Guest, ValRaw};
use canon_typed::ComponentType;
use canon_types::InterfaceType;

impl<T: Lower> Lower for Option<T> {
    ghost gives = { option_gives T.gives };

    fn linear_lower_to_flat<D, G: Guest>(
        &mut self,
        cx: &mut LowerContext<'_, D, G>,
        ty: InterfaceType,
        dst: &mut [ValRaw],
    ) -> Result<(), Fault> {
        let InterfaceType::Option(i) = ty else {
            unreachable!()
        };
        let some = cx.types().option(i).ty;
        match self {
            None => {
                let _memory = cx.core.memory(); // memory has at most 2^32 bytes
                lower_bare(dst, 0);
                Ok(())
            }
            Some(value) => lower_case(value, cx, some, dst, 1),
        }
    }

    fn linear_lower_to_memory<D, G: Guest>(
        &mut self,
        cx: &mut LowerContext<'_, D, G>,
        ty: InterfaceType,
        offset: u64,
    ) -> Result<(), Fault> {
        match self {
            None => {
                put_option::<T, D, G>(cx, ty, 0, offset);
                Ok(())
            }
            Some(value) => {
                let (some, inner) = put_option::<T, D, G>(cx, ty, 1, offset);
                value.linear_lower_to_memory(cx, some, inner)
            }
        }
    }

    ghost walkable = { option_walkable T.walks T.walkable };

    ghost given = { option_given T.fits T.walks T.gives T.given };
}

impl<T: LowerShared> LowerShared for Option<T> {
    ghost gives = { option_gives T.gives };

    fn linear_lower_to_flat<D, G: Guest>(
        &self,
        cx: &mut LowerContext<'_, D, G>,
        ty: InterfaceType,
        dst: &mut [ValRaw],
    ) -> Result<(), Fault> {
        Lower::linear_lower_to_flat(&mut self.as_ref(), cx, ty, dst)
    }

    fn linear_lower_to_memory<D, G: Guest>(
        &self,
        cx: &mut LowerContext<'_, D, G>,
        ty: InterfaceType,
        offset: u64,
    ) -> Result<(), Fault> {
        Lower::linear_lower_to_memory(&mut self.as_ref(), cx, ty, offset)
    }

    ghost walkable = { option_walkable T.walks T.walkable };

    ghost given = { option_given T.fits T.walks T.gives T.given };
}

/// Lowers a result into its words. `T` and `E` say which of its payloads is the unit, which stands for none.
fn lower_result<A: Lower, B: Lower, T: ComponentType, E: ComponentType, D, G: Guest>(
    outcome: &mut Result<A, B>,
    cx: &mut LowerContext<'_, D, G>,
    ty: InterfaceType,
    dst: &mut [ValRaw],
) -> Result<(), Fault>
    requires known { Knows (component_types cx.old.core.now) ty }
    requires fits { IsResultOf T.is_unit A.fits E.is_unit B.fits cx.old.core.now.component.types ty }
    requires words { length dst.old ≡ flat (shape_of (component_types cx.old.core.now) ty) }
    ensures lowers { TypedLowers G.seen G.moves cx.old.options cx.old.core.now cx.new.core.now (shape_of (component_types cx.old.core.now) ty) dst.new 0 (ResultMeans T.is_unit A.walks E.is_unit B.walks outcome.old)
        (result_gives T.is_unit A.gives E.is_unit B.gives cx.old.core.now.component.types (shape_of (component_types cx.old.core.now) ty) outcome.old) result }
    ensures count { length dst.new ≡ length dst.old }
    ensures same_reference { cx.new.core.ghost_name ≡ cx.old.core.ghost_name }
    ensures same_options { cx.new.options ≡ cx.old.options }
{
    let InterfaceType::Result(i) = ty else {
        unreachable!()
    };
    let result = cx.types().result(i);
    let (ok, err) = (result.ok, result.err);
    match outcome {
        Ok(value) => lower_payload::<A, T, D, G>(value, cx, ok, dst, 0),
        Err(value) => lower_payload::<B, E, D, G>(value, cx, err, dst, 1),
    }
}

/// Stores a result at an address. `T` and `E` say which of its payloads is the unit, which stands for none.
fn store_result<A: Lower, B: Lower, T: ComponentType, E: ComponentType, D, G: Guest>(
    outcome: &mut Result<A, B>,
    cx: &mut LowerContext<'_, D, G>,
    ty: InterfaceType,
    offset: u64,
) -> Result<(), Fault>
    requires known { Knows (component_types cx.old.core.now) ty }
    requires fits { IsResultOf T.is_unit A.fits E.is_unit B.fits cx.old.core.now.component.types ty }
    requires room { offset + size false (shape_of (component_types cx.old.core.now) ty) ≤ length cx.old.core.now.memory }
    ensures stores { TypedStores G.seen G.moves cx.old.options cx.old.core.now cx.new.core.now (shape_of (component_types cx.old.core.now) ty) offset (ResultMeans T.is_unit A.walks E.is_unit B.walks outcome.old)
        (result_gives T.is_unit A.gives E.is_unit B.gives cx.old.core.now.component.types (shape_of (component_types cx.old.core.now) ty) outcome.old) result }
    ensures same_reference { cx.new.core.ghost_name ≡ cx.old.core.ghost_name }
    ensures same_options { cx.new.options ≡ cx.old.options }
{
    match outcome {
        Ok(value) => {
            let (part, inner) = put_result::<A, B, T, E, D, G>(cx, ty, 0, offset);
            store_payload::<A, T, D, G>(value, cx, part, inner)
        }
        Err(value) => {
            let (part, inner) = put_result::<A, B, T, E, D, G>(cx, ty, 1, offset);
            store_payload::<B, E, D, G>(value, cx, part, inner)
        }
    }
}

impl<T: Lower, E: Lower> Lower for Result<T, E> {
    ghost gives = { result_gives T.is_unit T.gives E.is_unit E.gives };

    fn linear_lower_to_flat<D, G: Guest>(
        &mut self,
        cx: &mut LowerContext<'_, D, G>,
        ty: InterfaceType,
        dst: &mut [ValRaw],
    ) -> Result<(), Fault> {
        lower_result::<T, E, T, E, D, G>(self, cx, ty, dst)
    }

    fn linear_lower_to_memory<D, G: Guest>(
        &mut self,
        cx: &mut LowerContext<'_, D, G>,
        ty: InterfaceType,
        offset: u64,
    ) -> Result<(), Fault> {
        store_result::<T, E, T, E, D, G>(self, cx, ty, offset)
    }

    ghost walkable = { result_walkable T.is_unit T.walks E.is_unit E.walks T.walkable E.walkable };

    ghost given = { result_given T.is_unit T.fits T.walks T.gives T.given E.is_unit E.fits E.walks E.gives E.given };
}

impl<T: LowerShared, E: LowerShared> LowerShared for Result<T, E> {
    ghost gives = { result_gives T.is_unit T.gives E.is_unit E.gives };

    fn linear_lower_to_flat<D, G: Guest>(
        &self,
        cx: &mut LowerContext<'_, D, G>,
        ty: InterfaceType,
        dst: &mut [ValRaw],
    ) -> Result<(), Fault> {
        lower_result::<&T, &E, T, E, D, G>(&mut self.as_ref(), cx, ty, dst)
    }

    fn linear_lower_to_memory<D, G: Guest>(
        &self,
        cx: &mut LowerContext<'_, D, G>,
        ty: InterfaceType,
        offset: u64,
    ) -> Result<(), Fault> {
        store_result::<&T, &E, T, E, D, G>(&mut self.as_ref(), cx, ty, offset)
    }

    ghost walkable = { result_walkable T.is_unit T.walks E.is_unit E.walks T.walkable E.walkable };

    ghost given = { result_given T.is_unit T.fits T.walks T.gives T.given E.is_unit E.fits E.walks E.gives E.given };
}
