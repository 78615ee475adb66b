//! Maps: their pairs stand in a row in a block of their own, each with its key and then its value.

ghost use Rattle.std.specs.Prelude.{◌≡◌, ◌≤◌, ◌+◌, ◌*◌, false, flat_map, length};
ghost use Rattle.canon_context.specs.Core.{component_types};
ghost use Rattle.canon_lower_parts.specs.Given.{map_given};
ghost use Rattle.canon_lower_parts.specs.Gives.{map_gives, pair_gives};
ghost use Rattle.canon_lower_parts.specs.Pairs.{IsPairType, pair_in};
ghost use Rattle.canon_lower_parts.specs.Places.{TypedPlaces};
ghost use Rattle.canon_lower_parts.specs.Stores.{TypedMembersStore, TypedStores};
ghost use Rattle.canon_lower_parts.specs.Words.{TypedLowers};
ghost use Rattle.canon_lowering.specs.Copies.{copies};
ghost use Rattle.canon_model.specs.Layout.{flat, size};
ghost use Rattle.canon_types.specs.Table.{Knows, shape_of};
ghost use Rattle.canon_typed.specs.Maps.{MapWalks};
ghost use Rattle.canon_typed.specs.Meaning.{EachMeans, PairMeans};
ghost use Rattle.canon_typed.specs.Types.{IsMapOf};
ghost use Rattle.canon_lower_parts.specs.Walkable.{map_walkable};

use crate::{Lower, LowerShared};
use canon_context::{Fault, LowerContext};
use canon_lower_parts::{PairType, Placed, ask_items, pair_type, put_placed, put_words};
use canon_memory::{Guest, ValRaw};
use canon_types::InterfaceType;
use std::collections::HashMap;
use std::hash::Hash;

/// Stores a pair at an address.
fn store_pair<K: LowerShared, V: LowerShared, D, G: Guest>(
    key: &K,
    value: &V,
    cx: &mut LowerContext<'_, D, G>,
    pair: &PairType,
    at: u64,
) -> Result<(), Fault>
    requires pair { IsPairType K.fits V.fits cx.old.core.now.component.types pair.now }
    requires room { at + size false (pair_in (component_types cx.old.core.now) pair.now) ≤ length cx.old.core.now.memory }
    ensures stores { TypedStores G.seen G.moves cx.old.options cx.old.core.now cx.new.core.now (pair_in (component_types cx.old.core.now) pair.now) at (PairMeans K.walks V.walks (key.now, value.now))
        (pair_gives K.gives V.gives cx.old.core.now.component.types (pair_in (component_types cx.old.core.now) pair.now) (key.now, value.now)) result }
    ensures same_reference { cx.new.core.ghost_name ≡ cx.old.core.ghost_name }
    ensures same_options { cx.new.options ≡ cx.old.options }
{
    let _memory = cx.core.memory(); // memory has at most 2^32 bytes
    match key.linear_lower_to_memory(cx, pair.key, at) {
        Ok(()) => {}
        Err(fault) => return Err(fault),
    }
    value.linear_lower_to_memory(cx, pair.value, at + u64::from(pair.second))
}

/// Stores a map's pairs in a row from an address on, in the order in which the map keeps them.
fn store_pairs<K: LowerShared + Eq + Hash, V: LowerShared, D, G: Guest>(
    map: &HashMap<K, V>,
    cx: &mut LowerContext<'_, D, G>,
    pair: &PairType,
    offset: u64,
) -> Result<(), Fault>
    requires pair { IsPairType K.fits V.fits cx.old.core.now.component.types pair.now }
    requires room { offset + length map.now.entries * size false (pair_in (component_types cx.old.core.now) pair.now) ≤ length cx.old.core.now.memory }
    ensures stores { TypedMembersStore G.seen G.moves cx.old.options cx.old.core.now cx.new.core.now (copies (length map.now.entries) (pair_in (component_types cx.old.core.now) pair.now)) 0 offset (EachMeans (PairMeans K.walks V.walks) map.now.entries)
        (flat_map (pair_gives K.gives V.gives cx.old.core.now.component.types (pair_in (component_types cx.old.core.now) pair.now)) map.now.entries) result }
    ensures same_reference { cx.new.core.ghost_name ≡ cx.old.core.ghost_name }
    ensures same_options { cx.new.options ≡ cx.old.options }
{
    let _memory = cx.core.memory(); // memory has at most 2^32 bytes
    let size = u64::from(pair.abi.size32);
    let mut at = offset;
    for (key, value) in map.iter() {
        match store_pair(key, value, cx, pair, at) {
            Ok(()) => {}
            Err(fault) => return Err(fault),
        }
        at += size;
    }
    Ok(())
}

/// Puts a map's pairs into a block of their own (CanonicalABI.md, "store_list_into_range", of the map's despecialized type).
fn place_map<K: LowerShared + Eq + Hash, V: LowerShared, D, G: Guest>(
    cx: &mut LowerContext<'_, D, G>,
    ty: &InterfaceType,
    map: &HashMap<K, V>,
) -> Result<Placed, Fault>
    requires known { Knows (component_types cx.old.core.now) ty.now }
    requires fits { IsMapOf K.fits V.fits cx.old.core.now.component.types ty.now }
    ensures places { TypedPlaces G.seen G.moves cx.old.options cx.old.core.now cx.new.core.now (shape_of (component_types cx.old.core.now) ty.now) (MapWalks K.walks V.walks map.now)
        (map_gives K.gives V.gives cx.old.core.now.component.types (shape_of (component_types cx.old.core.now) ty.now) map.now) result }
    ensures same_reference { cx.new.core.ghost_name ≡ cx.old.core.ghost_name }
    ensures same_options { cx.new.options ≡ cx.old.options }
{
    let pair = pair_type::<K, V>(cx.instance_type(), ty);
    let length = map.len() as u64;
    let pointer = match ask_items(cx, &pair.abi, length) {
        Ok(pointer) => pointer,
        Err(fault) => return Err(fault),
    };
    match store_pairs(map, cx, &pair, pointer) {
        Ok(()) => Ok(Placed { pointer, length }),
        Err(fault) => Err(fault),
    }
}

/// Lowers a map into its two words.
fn lower_map<K: LowerShared + Eq + Hash, V: LowerShared, D, G: Guest>(
    map: &HashMap<K, V>,
    cx: &mut LowerContext<'_, D, G>,
    ty: InterfaceType,
    dst: &mut [ValRaw],
) -> Result<(), Fault>
    requires known { Knows (component_types cx.old.core.now) ty }
    requires fits { IsMapOf K.fits V.fits cx.old.core.now.component.types ty }
    requires words { length dst.old ≡ flat (shape_of (component_types cx.old.core.now) ty) }
    ensures lowers { TypedLowers G.seen G.moves cx.old.options cx.old.core.now cx.new.core.now (shape_of (component_types cx.old.core.now) ty) dst.new 0 (MapWalks K.walks V.walks map.now)
        (map_gives K.gives V.gives cx.old.core.now.component.types (shape_of (component_types cx.old.core.now) ty) map.now) result }
    ensures count { length dst.new ≡ length dst.old }
    ensures same_reference { cx.new.core.ghost_name ≡ cx.old.core.ghost_name }
    ensures same_options { cx.new.options ≡ cx.old.options }
{
    let placed = place_map(cx, &ty, map);
    put_words(dst, placed)
}

/// Stores a map's pointer and length at an address.
fn store_map<K: LowerShared + Eq + Hash, V: LowerShared, D, G: Guest>(
    map: &HashMap<K, V>,
    cx: &mut LowerContext<'_, D, G>,
    ty: InterfaceType,
    offset: u64,
) -> Result<(), Fault>
    requires known { Knows (component_types cx.old.core.now) ty }
    requires fits { IsMapOf K.fits V.fits cx.old.core.now.component.types ty }
    requires room { offset + size false (shape_of (component_types cx.old.core.now) ty) ≤ length cx.old.core.now.memory }
    ensures stores { TypedStores G.seen G.moves cx.old.options cx.old.core.now cx.new.core.now (shape_of (component_types cx.old.core.now) ty) offset (MapWalks K.walks V.walks map.now)
        (map_gives K.gives V.gives cx.old.core.now.component.types (shape_of (component_types cx.old.core.now) ty) map.now) result }
    ensures same_reference { cx.new.core.ghost_name ≡ cx.old.core.ghost_name }
    ensures same_options { cx.new.options ≡ cx.old.options }
{
    let placed = place_map(cx, &ty, map);
    put_placed(cx, offset, placed)
}

impl<K: LowerShared + Eq + Hash, V: LowerShared> Lower for HashMap<K, V> {
    ghost gives = { map_gives K.gives V.gives };

    fn linear_lower_to_flat<D, G: Guest>(
        &mut self,
        cx: &mut LowerContext<'_, D, G>,
        ty: InterfaceType,
        dst: &mut [ValRaw],
    ) -> Result<(), Fault> {
        lower_map(self, cx, ty, dst)
    }

    fn linear_lower_to_memory<D, G: Guest>(
        &mut self,
        cx: &mut LowerContext<'_, D, G>,
        ty: InterfaceType,
        offset: u64,
    ) -> Result<(), Fault> {
        store_map(self, cx, ty, offset)
    }

    ghost walkable = { map_walkable K.walks V.walks K.walkable V.walkable };

    ghost given = { map_given K.fits V.fits K.walks V.walks K.gives V.gives K.given V.given };
}

impl<K: LowerShared + Eq + Hash, V: LowerShared> LowerShared for HashMap<K, V> {
    ghost gives = { map_gives K.gives V.gives };

    fn linear_lower_to_flat<D, G: Guest>(
        &self,
        cx: &mut LowerContext<'_, D, G>,
        ty: InterfaceType,
        dst: &mut [ValRaw],
    ) -> Result<(), Fault> {
        lower_map(self, cx, ty, dst)
    }

    fn linear_lower_to_memory<D, G: Guest>(
        &self,
        cx: &mut LowerContext<'_, D, G>,
        ty: InterfaceType,
        offset: u64,
    ) -> Result<(), Fault> {
        store_map(self, cx, ty, offset)
    }

    ghost walkable = { map_walkable K.walks V.walks K.walkable V.walkable };

    ghost given = { map_given K.fits V.fits K.walks V.walks K.gives V.gives K.given V.given };
}
