//! Maps.

ghost use Rattle.std.specs.Prelude.{◌≡◌, ◌≤◌, ◌+◌, ◌*◌, ◌%◌, ◌&&◌, ◌++◌, ◌∷◌, [], List, OnOk, false, length};
ghost use Rattle.canon_context.specs.Core.{component_types};
ghost use Rattle.canon_reading.specs.Scopes.{map_kept};
ghost use Rattle.canon_model.specs.Layout.{align, begins, ends, size};
ghost use Rattle.canon_model.specs.Shape.{tuple};
ghost use Rattle.canon_types.specs.Table.{Knows, shape_of};
ghost use Rattle.canon_model.specs.Memory.{cap};
ghost use Rattle.canon_typed.specs.Maps.{IsFilledWith};
ghost use Rattle.canon_reading.specs.Apart.{map_apart};
ghost use Rattle.canon_reading.specs.MapsOfTrees.{map_faulted, map_priced, map_reading, map_taken, map_told, pair_reading, pairs_reading};
ghost use Rattle.canon_reading.specs.OfTrees.{left_true, right_true};
ghost use Rattle.canon_lift.specs.Ranges.{StandAt};
ghost use Rattle.canon_reading.specs.Reading.{Lifts, setting_in};
ghost use Rattle.canon_reading.specs.Spots.{HasRoom, Spot, stored};
ghost use Rattle.canon_typed.specs.Types.{IsMapOf};
ghost use Rattle.canon_lowering.specs.Storing.{narrow};

use crate::Lift;
use crate::wasm_list::test_range;
use canon_abi::OutOfMemory;
use canon_bytes::load_u32;
use canon_context::{At, Fault, LiftContext};
use canon_lift_parts::{word_at, word_u32};
use canon_memory::ValRaw;
use canon_types::InterfaceType;
use std::alloc::Global;
use std::collections::HashMap;
use std::hash::Hash;

/// The types of the keys and values of a map, and where the value of a pair begins.
#[derive(Clone, Copy)]
struct Pair {
    key: InterfaceType,
    value: InterfaceType,
    offset: u64,
}

/// Lifts the pair of a key and a value at an address.
fn lift_pair<K: Lift, V: Lift, U, G>(
    alloc: Global,
    cx: &mut LiftContext<'_, U, G>,
    pair: &Pair,
    at: u64,
) -> Result<(K, V), Fault>
    requires key { Knows (component_types cx.old.core.now) pair.now.key }
    requires value { Knows (component_types cx.old.core.now) pair.now.value }
    requires key_fits { K.fits cx.old.core.now.component.types pair.now.key }
    requires value_fits { V.fits cx.old.core.now.component.types pair.now.value }
    requires offset { pair.now.offset ≡ begins false (ends false 0 (shape_of (component_types cx.old.core.now) pair.now.key)) (shape_of (component_types cx.old.core.now) pair.now.value) }
    requires aligned { at % align false (tuple (shape_of (component_types cx.old.core.now) pair.now.key ∷ shape_of (component_types cx.old.core.now) pair.now.value ∷ [])) ≡ 0 }
    requires inside { at + size false (tuple (shape_of (component_types cx.old.core.now) pair.now.key ∷ shape_of (component_types cx.old.core.now) pair.now.value ∷ [])) ≤ length cx.old.core.now.memory }
    ensures lifts { Lifts (pair_reading K.reading V.reading) (setting_in cx.old.core.now cx.old.options) (stored at) (tuple (shape_of (component_types cx.old.core.now) pair.now.key ∷ shape_of (component_types cx.old.core.now) pair.now.value ∷ []))
        cx.old.core.now.ledger cx.old.fuel result cx.new.core.now.ledger cx.new.fuel }
    ensures same_core { cx.new.core.now ≡ record cx.old.core.now { ledger = cx.new.core.now.ledger } }
    ensures same_reference { cx.new.core.ghost_name ≡ cx.old.core.ghost_name }
    ensures same_options { cx.new.options ≡ cx.old.options }
{
    let _memory = cx.core.memory(); // memory has at most 2^32 bytes
    match K::linear_lift_from_memory(alloc, cx, pair.key, at) {
        Ok(key) => match V::linear_lift_from_memory(alloc, cx, pair.value, at + pair.offset) {
            Ok(value) => Ok((key, value)),
            Err(fault) => Err(fault),
        },
        Err(fault) => Err(fault),
    }
}

/// Puts a pair behind those that were lifted before it.
#[tactic(auto, using(canon_lift_parts::proofs::PairLifting::filled_more))]
fn put<K: Eq + Hash + Drop, V: Drop>(
    map: &mut HashMap<K, V>,
    key: K,
    value: V,
) -> Result<(), OutOfMemory>
    ensures last { OnOk result ((pairs : List (K × V)) → IsFilledWith K.eq pairs map.old → IsFilledWith K.eq (pairs ++ (key, value) ∷ []) map.new) }
{
    match map.insert(key, value) {
        Ok(_) => Ok(()),
        Err(_) => Err(OutOfMemory),
    }
}

/// Lifts so many pairs that stand in a row from an address on. Of pairs with one key the last one stays.
fn lift_pairs<K: Lift + Eq + Hash, V: Lift, U, G>(
    alloc: Global,
    cx: &mut LiftContext<'_, U, G>,
    pair: &Pair,
    step: u64,
    at: u64,
    count: u64,
) -> Result<HashMap<K, V>, Fault>
    requires key { Knows (component_types cx.old.core.now) pair.now.key }
    requires value { Knows (component_types cx.old.core.now) pair.now.value }
    requires key_fits { K.fits cx.old.core.now.component.types pair.now.key }
    requires value_fits { V.fits cx.old.core.now.component.types pair.now.value }
    requires offset { pair.now.offset ≡ begins false (ends false 0 (shape_of (component_types cx.old.core.now) pair.now.key)) (shape_of (component_types cx.old.core.now) pair.now.value) }
    requires step { step ≡ size false (tuple (shape_of (component_types cx.old.core.now) pair.now.key ∷ shape_of (component_types cx.old.core.now) pair.now.value ∷ [])) }
    requires aligned { at % align false (tuple (shape_of (component_types cx.old.core.now) pair.now.key ∷ shape_of (component_types cx.old.core.now) pair.now.value ∷ [])) ≡ 0 }
    requires inside { at + count * size false (tuple (shape_of (component_types cx.old.core.now) pair.now.key ∷ shape_of (component_types cx.old.core.now) pair.now.value ∷ [])) ≤ length cx.old.core.now.memory }
    ensures lifts { Lifts (pairs_reading K.eq count K.reading V.reading) (setting_in cx.old.core.now cx.old.options) (stored at) (tuple (shape_of (component_types cx.old.core.now) pair.now.key ∷ shape_of (component_types cx.old.core.now) pair.now.value ∷ []))
        cx.old.core.now.ledger cx.old.fuel result cx.new.core.now.ledger cx.new.fuel }
    ensures same_core { cx.new.core.now ≡ record cx.old.core.now { ledger = cx.new.core.now.ledger } }
    ensures same_reference { cx.new.core.ghost_name ≡ cx.old.core.ghost_name }
    ensures same_options { cx.new.options ≡ cx.old.options }
{
    let _memory = cx.core.memory(); // memory has at most 2^32 bytes
    let mut map = HashMap::new(alloc);
    for k in 0..count {
        match lift_pair(alloc, cx, pair, at + k * step) {
            Ok((key, value)) => match put(&mut map, key, value) {
                Ok(()) => {}
                Err(_) => return Err(Fault::OutOfMemory),
            },
            Err(fault) => return Err(fault),
        }
    }
    Ok(map)
}

/// Lifts the map of so many pairs at a pointer that stands at `at`.
fn lift_map<K: Lift + Eq + Hash, V: Lift, U, G>(
    alloc: Global,
    cx: &mut LiftContext<'_, U, G>,
    ty: InterfaceType,
    pointer: u64,
    count: u64,
    at: At,
) -> Result<HashMap<K, V>, Fault>
    requires fits { IsMapOf K.fits V.fits cx.old.core.now.component.types ty }
    ensures lifts { (spot : Spot) → StandAt (narrow cx.old.core.now.memory) spot pointer count at → HasRoom (narrow cx.old.core.now.memory) spot (shape_of (component_types cx.old.core.now) ty)
        → Lifts (map_reading K.eq (cap (K.host_bytes + V.host_bytes)) K.reading V.reading) (setting_in cx.old.core.now cx.old.options) spot (shape_of (component_types cx.old.core.now) ty)
        cx.old.core.now.ledger cx.old.fuel result cx.new.core.now.ledger cx.new.fuel }
    ensures same_core { cx.new.core.now ≡ record cx.old.core.now { ledger = cx.new.core.now.ledger } }
    ensures same_reference { cx.new.core.ghost_name ≡ cx.old.core.ghost_name }
    ensures same_options { cx.new.options ≡ cx.old.options }
{
    let InterfaceType::Map(i) = ty else {
        unreachable!()
    };
    let map = cx.types().map(i);
    let pair = Pair {
        key: map.key,
        value: map.value,
        offset: u64::from(map.value_offset32),
    };
    let abi = map.entry_abi;
    match test_range::<(K, V), U, G>(cx, &abi, pointer, count, at) {
        Ok(()) => lift_pairs(alloc, cx, &pair, u64::from(abi.size32), pointer, count),
        Err(fault) => Err(fault),
    }
}

impl<K: Lift + Eq + Hash, V: Lift> Lift for HashMap<K, V> {
    ghost reading = { map_reading K.eq (cap (K.host_bytes + V.host_bytes)) K.reading V.reading };

    ghost kept = { map_kept K.eq (cap (K.host_bytes + V.host_bytes)) K.fits K.reading V.fits V.reading K.kept V.kept };

    fn unit_value() -> Option<HashMap<K, V>> {
        None
    }

    fn linear_lift_from_memory<U, G>(
        alloc: Global,
        cx: &mut LiftContext<'_, U, G>,
        ty: InterfaceType,
        at: u64,
    ) -> Result<HashMap<K, V>, Fault> {
        let pointer = u64::from(load_u32(cx.memory(), at));
        let count = u64::from(load_u32(cx.memory(), at + 4));
        lift_map(alloc, cx, ty, pointer, count, At::Address(at))
    }

    fn lift_words<U, G>(
        alloc: Global,
        cx: &mut LiftContext<'_, U, G>,
        ty: InterfaceType,
        src: &[ValRaw],
        at: usize,
    ) -> Result<HashMap<K, V>, Fault> {
        let pointer = u64::from(word_u32(src, at));
        let count = u64::from(word_u32(src, at + 1));
        lift_map(alloc, cx, ty, pointer, count, word_at(at))
    }

    ghost taken = { map_taken K.eq (cap (K.host_bytes + V.host_bytes)) K.reading V.reading K.taken V.taken };

    ghost apart = { map_apart K.eq (cap (K.host_bytes + V.host_bytes)) K.apart V.apart };

    ghost faulted = { map_faulted (cap (K.host_bytes + V.host_bytes)) K.faulted V.faulted K.eq };

    ghost priced = { map_priced (cap (K.host_bytes + V.host_bytes)) K.priced V.priced K.eq };

    ghost told = { λ h. map_told (cap (K.host_bytes + V.host_bytes)) (K.told (left_true K.is_told V.is_told h)) (V.told (right_true K.is_told V.is_told h)) K.eq };
}
