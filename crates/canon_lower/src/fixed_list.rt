//! Lists of fixed length: their items stand in a row.

ghost use Rattle.std.specs.Prelude.{◌≡◌, ◌≤◌, flat_map, length};
ghost use Rattle.canon_context.specs.Core.{component_types};
ghost use Rattle.canon_lower_parts.specs.Given.{fixed_given};
ghost use Rattle.canon_lower_parts.specs.Gives.{item_shape};
ghost use Rattle.canon_lower_parts.specs.Words.{TypedMembersLower};
ghost use Rattle.canon_lowering.specs.Copies.{copies};
ghost use Rattle.canon_model.specs.Layout.{members_flat};
ghost use Rattle.canon_types.specs.Table.{Knows, shape_of};
ghost use Rattle.canon_typed.specs.Meaning.{EachMeans};
ghost use Rattle.canon_lower_parts.specs.Walkable.{row_walkable};

use crate::words::lower_at;
use crate::{Lower, LowerShared};
use canon_context::{Fault, LowerContext};
use canon_lower_parts::fixed_element;
use canon_memory::{Guest, ValRaw};
use canon_typed::FixedList;
use canon_types::InterfaceType;

/// Lowers values of one type in a row.
fn lower_items<T: Lower, D, G: Guest>(
    items: &mut [T],
    cx: &mut LowerContext<'_, D, G>,
    ty: &InterfaceType,
    dst: &mut [ValRaw],
) -> Result<(), Fault>
    requires known { Knows (component_types cx.old.core.now) ty.now }
    requires fits { T.fits cx.old.core.now.component.types ty.now }
    requires room { members_flat (copies (length items.old) (shape_of (component_types cx.old.core.now) ty.now)) ≤ length dst.old }
    ensures lowers { TypedMembersLower G.seen G.moves cx.old.options cx.old.core.now cx.new.core.now (copies (length items.old) (shape_of (component_types cx.old.core.now) ty.now)) dst.new 0
        (EachMeans T.walks items.old) (flat_map (T.gives cx.old.core.now.component.types (shape_of (component_types cx.old.core.now) ty.now)) items.old) result }
    ensures count { length dst.new ≡ length dst.old }
    ensures same_reference { cx.new.core.ghost_name ≡ cx.old.core.ghost_name }
    ensures same_options { cx.new.options ≡ cx.old.options }
{
    let _memory = cx.core.memory(); // memory has at most 2^32 bytes
    let mut at = 0;
    for k in 0..items.len() {
        match lower_at(&mut items[k], cx, *ty, dst, &mut at) {
            Ok(()) => {}
            Err(fault) => return Err(fault),
        }
    }
    Ok(())
}

/// The same from a shared reference.
fn lower_shared_items<T: LowerShared, D, G: Guest>(
    items: &[T],
    cx: &mut LowerContext<'_, D, G>,
    ty: &InterfaceType,
    dst: &mut [ValRaw],
) -> Result<(), Fault>
    requires known { Knows (component_types cx.old.core.now) ty.now }
    requires fits { T.fits cx.old.core.now.component.types ty.now }
    requires room { members_flat (copies (length items.now) (shape_of (component_types cx.old.core.now) ty.now)) ≤ length dst.old }
    ensures lowers { TypedMembersLower G.seen G.moves cx.old.options cx.old.core.now cx.new.core.now (copies (length items.now) (shape_of (component_types cx.old.core.now) ty.now)) dst.new 0
        (EachMeans T.walks items.now) (flat_map (T.gives cx.old.core.now.component.types (shape_of (component_types cx.old.core.now) ty.now)) items.now) result }
    ensures count { length dst.new ≡ length dst.old }
    ensures same_reference { cx.new.core.ghost_name ≡ cx.old.core.ghost_name }
    ensures same_options { cx.new.options ≡ cx.old.options }
{
    let _memory = cx.core.memory(); // memory has at most 2^32 bytes
    let mut at = 0;
    for k in 0..items.len() {
        match lower_at(&mut &items[k], cx, *ty, dst, &mut at) {
            Ok(()) => {}
            Err(fault) => return Err(fault),
        }
    }
    Ok(())
}

impl<T: Lower, const N: usize> Lower for FixedList<T, N> {
    ghost gives = { λ i s v. flat_map (T.gives i (item_shape s)) v.items.items };

    fn linear_lower_to_flat<D, G: Guest>(
        &mut self,
        cx: &mut LowerContext<'_, D, G>,
        ty: InterfaceType,
        dst: &mut [ValRaw],
    ) -> Result<(), Fault> {
        let element = fixed_element::<T, N>(cx.instance_type(), &ty);
        lower_items(self.items_mut(), cx, &element, dst)
    }

    fn linear_lower_to_memory<D, G: Guest>(
        &mut self,
        cx: &mut LowerContext<'_, D, G>,
        ty: InterfaceType,
        offset: u64,
    ) -> Result<(), Fault> {
        let element = fixed_element::<T, N>(cx.instance_type(), &ty);
        T::linear_store_list_to_memory(cx, element, offset, self.items_mut())
    }

    ghost walkable = { λ v. row_walkable T.walks T.walkable v.items.items };

    ghost given = { λ v. fixed_given T.fits T.walks T.gives T.given N v.items.items };
}

impl<T: LowerShared, const N: usize> LowerShared for FixedList<T, N> {
    ghost gives = { λ i s v. flat_map (T.gives i (item_shape s)) v.items.items };

    fn linear_lower_to_flat<D, G: Guest>(
        &self,
        cx: &mut LowerContext<'_, D, G>,
        ty: InterfaceType,
        dst: &mut [ValRaw],
    ) -> Result<(), Fault> {
        let element = fixed_element::<T, N>(cx.instance_type(), &ty);
        lower_shared_items(self.items(), cx, &element, dst)
    }

    fn linear_lower_to_memory<D, G: Guest>(
        &self,
        cx: &mut LowerContext<'_, D, G>,
        ty: InterfaceType,
        offset: u64,
    ) -> Result<(), Fault> {
        let element = fixed_element::<T, N>(cx.instance_type(), &ty);
        T::linear_store_list_to_memory(cx, element, offset, self.items())
    }

    ghost walkable = { λ v. row_walkable T.walks T.walkable v.items.items };

    ghost given = { λ v. fixed_given T.fits T.walks T.gives T.given N v.items.items };
}
