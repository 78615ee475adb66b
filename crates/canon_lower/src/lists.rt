//! Lists: their items stand in a row in a block of their own.

ghost use Rattle.std.specs.Prelude.{◌≡◌, flat_map, length};
ghost use Rattle.canon_context.specs.Core.{component_types};
ghost use Rattle.canon_lower_parts.specs.Given.{list_given};
ghost use Rattle.canon_lower_parts.specs.Gives.{item_shape};
ghost use Rattle.canon_lower_parts.specs.Places.{TypedPlaces};
ghost use Rattle.canon_types.specs.Table.{Knows, shape_of};
ghost use Rattle.canon_typed.specs.Meaning.{ListMeans};
ghost use Rattle.canon_typed.specs.Types.{IsListOf};
ghost use Rattle.canon_lower_parts.specs.Walkable.{list_walkable};

use crate::{Lower, LowerShared};
use canon_context::{Fault, LowerContext};
use canon_lower_parts::{Placed, ask_items, list_element, put_placed, put_words};
use canon_memory::{Guest, ValRaw};
use canon_types::InterfaceType;

/// Puts values into a block of their own, as the items of a list (CanonicalABI.md, "store_list_into_range").
fn place_list<T: Lower, D, G: Guest>(
    cx: &mut LowerContext<'_, D, G>,
    ty: &InterfaceType,
    items: &mut [T],
) -> Result<Placed, Fault>
    requires known { Knows (component_types cx.old.core.now) ty.now }
    requires fits { IsListOf T.fits cx.old.core.now.component.types ty.now }
    ensures places { TypedPlaces G.seen G.moves cx.old.options cx.old.core.now cx.new.core.now (shape_of (component_types cx.old.core.now) ty.now) (ListMeans T.walks items.old)
        (flat_map (T.gives cx.old.core.now.component.types (item_shape (shape_of (component_types cx.old.core.now) ty.now))) items.old) result }
    ensures same_reference { cx.new.core.ghost_name ≡ cx.old.core.ghost_name }
    ensures same_options { cx.new.options ≡ cx.old.options }
{
    let element = list_element::<T>(cx.instance_type(), ty);
    let abi = *cx.types().canonical_abi(&element);
    let length = items.len() as u64;
    let pointer = match ask_items(cx, &abi, length) {
        Ok(pointer) => pointer,
        Err(fault) => return Err(fault),
    };
    match T::linear_store_list_to_memory(cx, element, pointer, items) {
        Ok(()) => Ok(Placed { pointer, length }),
        Err(fault) => Err(fault),
    }
}

/// The same from a shared reference.
fn place_shared_list<T: LowerShared, D, G: Guest>(
    cx: &mut LowerContext<'_, D, G>,
    ty: &InterfaceType,
    items: &[T],
) -> Result<Placed, Fault>
    requires known { Knows (component_types cx.old.core.now) ty.now }
    requires fits { IsListOf T.fits cx.old.core.now.component.types ty.now }
    ensures places { TypedPlaces G.seen G.moves cx.old.options cx.old.core.now cx.new.core.now (shape_of (component_types cx.old.core.now) ty.now) (ListMeans T.walks items.now)
        (flat_map (T.gives cx.old.core.now.component.types (item_shape (shape_of (component_types cx.old.core.now) ty.now))) items.now) result }
    ensures same_reference { cx.new.core.ghost_name ≡ cx.old.core.ghost_name }
    ensures same_options { cx.new.options ≡ cx.old.options }
{
    let element = list_element::<T>(cx.instance_type(), ty);
    let abi = *cx.types().canonical_abi(&element);
    let length = items.len() as u64;
    let pointer = match ask_items(cx, &abi, length) {
        Ok(pointer) => pointer,
        Err(fault) => return Err(fault),
    };
    match T::linear_store_list_to_memory(cx, element, pointer, items) {
        Ok(()) => Ok(Placed { pointer, length }),
        Err(fault) => Err(fault),
    }
}

impl<T: Lower> Lower for Vec<T> {
    ghost gives = { λ i s v. flat_map (T.gives i (item_shape s)) v.items };

    fn linear_lower_to_flat<D, G: Guest>(
        &mut self,
        cx: &mut LowerContext<'_, D, G>,
        ty: InterfaceType,
        dst: &mut [ValRaw],
    ) -> Result<(), Fault> {
        let placed = place_list(cx, &ty, self.as_mut_slice());
        put_words(dst, placed)
    }

    fn linear_lower_to_memory<D, G: Guest>(
        &mut self,
        cx: &mut LowerContext<'_, D, G>,
        ty: InterfaceType,
        offset: u64,
    ) -> Result<(), Fault> {
        let placed = place_list(cx, &ty, self.as_mut_slice());
        put_placed(cx, offset, placed)
    }

    ghost walkable = { λ v. list_walkable T.walks T.walkable v.items };

    ghost given = { λ v. list_given T.fits T.walks T.gives T.given v.items };
}

impl<T: LowerShared> LowerShared for Vec<T> {
    ghost gives = { λ i s v. flat_map (T.gives i (item_shape s)) v.items };

    fn linear_lower_to_flat<D, G: Guest>(
        &self,
        cx: &mut LowerContext<'_, D, G>,
        ty: InterfaceType,
        dst: &mut [ValRaw],
    ) -> Result<(), Fault> {
        let placed = place_shared_list(cx, &ty, self.as_slice());
        put_words(dst, placed)
    }

    fn linear_lower_to_memory<D, G: Guest>(
        &self,
        cx: &mut LowerContext<'_, D, G>,
        ty: InterfaceType,
        offset: u64,
    ) -> Result<(), Fault> {
        let placed = place_shared_list(cx, &ty, self.as_slice());
        put_placed(cx, offset, placed)
    }

    ghost walkable = { λ v. list_walkable T.walks T.walkable v.items };

    ghost given = { λ v. list_given T.fits T.walks T.gives T.given v.items };
}
