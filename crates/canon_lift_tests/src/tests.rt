//! Each Rust type lifted, from memory and from words, at its cost. Values by CanonicalABI.md's "load" and "lift_flat", costs by the
//! table of docs/TYPED.md.

use crate::cores::{loaded, over_bytes};
use canon_context::{At, Fault, LiftContext};
use canon_lift::{Lift, WasmList, WasmStr};
use canon_memory::ValRaw;
use canon_test_core::{
    TestCore, Typed, fixed_of, has_words, list_of, map_of, option_of, plain, result_of, tuple_of,
};
use canon_typed::{FixedList, Float32Bits, Float64Bits};
use canon_types::InterfaceType::{
    Bool, Char, Float32, Float64, S8, S16, S32, S64, U8, U16, U32, U64,
};
use canon_types::{InterfaceType, OptionsIndex, TypeError};
use std::alloc::Global;
use std::collections::HashMap;

/// What these words are lifted to, and what that cost. None where they aren't of this type.
fn lifted<T: Lift>(
    alloc: Global,
    core: &mut TestCore,
    ty: &InterfaceType,
    words: &[ValRaw],
) -> Option<(Result<T, Fault>, u64)> {
    if !has_words::<T>(core, ty, words) {
        return None;
    }
    let mut cx = LiftContext::new(core, OptionsIndex::from_u32(0));
    let value = T::linear_lift_from_flat(alloc, &mut cx, *ty, words, 0);
    let left = cx.fuel();
    Some((value, 1_000u64.saturating_sub(left)))
}

/// Whether this is what was lifted, at this cost.
fn is_lifted<T: Lift + PartialEq>(
    found: &Option<(Result<T, Fault>, u64)>,
    value: &T,
    cost: u64,
) -> bool {
    match found {
        Some((Ok(lifted), spent)) => *lifted == *value && *spent == cost,
        _ => false,
    }
}

/// Whether these bytes of memory are this value, and whether these words over them are it too, each at this cost.
fn lifts<T: Lift + PartialEq>(
    alloc: Global,
    typed: Result<Typed, TypeError>,
    bytes: &[u8],
    words: &[ValRaw],
    value: Option<T>,
    cost: u64,
) -> [bool; 2] {
    let are_lifted = over_bytes(alloc, typed, bytes, |alloc, core, ty| {
        let value = value.as_ref()?;
        let from_memory = loaded::<T>(alloc, core, ty);
        let from_words = lifted::<T>(alloc, core, ty, words);
        let by_memory = is_lifted(&from_memory, value, cost);
        Some([by_memory, is_lifted(&from_words, value, cost)])
    });
    are_lifted.unwrap_or([false; 2])
}

/// Whether these bytes and this word are a value of a type without parts, for nothing.
fn is_scalar<T: Lift + PartialEq>(
    alloc: Global,
    ty: InterfaceType,
    bytes: &[u8],
    word: ValRaw,
    value: T,
) -> bool {
    let typed = Ok(plain(alloc, ty));
    lifts(alloc, typed, bytes, &[word], Some(value), 0) == [true; 2]
}

#[test]
fn narrow_integers_are_lifted(rt: HostRuntime) {
    let alloc = rt.alloc();
    assert!(rt; is_scalar(alloc, U8, &[7], ValRaw::u32(7), 7u8));
    assert!(rt; is_scalar(alloc, S8, &[0xff], ValRaw::i32(-1), -1i8));
    assert!(rt; is_scalar(alloc, U16, &[1, 2], ValRaw::u32(0x0201), 0x0201u16));
    assert!(rt; is_scalar(alloc, S16, &[0xfe, 0xff], ValRaw::i32(-2), -2i16));
}

#[test]
fn wide_integers_are_lifted(rt: HostRuntime) {
    let alloc = rt.alloc();
    let small = [0xfe, 0xff, 0xff, 0xff];
    let long = [0xfc, 0xff, 0xff, 0xff, 0xff, 0xff, 0xff, 0xff];
    assert!(rt; is_scalar(alloc, U32, &[9], ValRaw::u32(9), 9u32));
    assert!(rt; is_scalar(alloc, S32, &small, ValRaw::i32(-2), -2i32));
    assert!(rt; is_scalar(alloc, U64, &[0, 1], ValRaw::u64(256), 256u64));
    assert!(rt; is_scalar(alloc, S64, &long, ValRaw::i64(-4), -4i64));
}

// A bool is true at each number but 0. The bits of a float stay, also where it is no number.
#[test]
fn other_scalars_are_lifted(rt: HostRuntime) {
    let alloc = rt.alloc();
    let float = [1, 0, 0xc0, 0x7f];
    let double = [0, 0, 0, 0, 0, 0, 0, 0x40];
    assert!(rt; is_scalar(alloc, Bool, &[2], ValRaw::u32(2), true));
    assert!(rt; is_scalar(alloc, Char, &[0xe9], ValRaw::u32(0xe9), 'é'));
    assert!(rt;
        is_scalar(
            alloc,
            Float32,
            &float,
            ValRaw::u32(0x7fc0_0001),
            Float32Bits(0x7fc0_0001)
        )
    );
    assert!(rt;
        is_scalar(
            alloc,
            Float64,
            &double,
            ValRaw::u64(1 << 62),
            Float64Bits(1 << 62)
        )
    );
}

#[test]
fn cases_have_a_payload_behind_their_discriminant(rt: HostRuntime) {
    let alloc = rt.alloc();
    let some = lifts(
        alloc,
        option_of(alloc, U16),
        &[1, 0xaa, 7, 0],
        &[ValRaw::u32(1), ValRaw::u32(7)],
        Some(Some(7u16)),
        0,
    );
    let none = lifts(
        alloc,
        option_of(alloc, U16),
        &[0, 0xaa, 7, 0],
        &[ValRaw::u32(0), ValRaw::u32(7)],
        Some(None::<u16>),
        0,
    );
    let failed: Result<u32, ()> = Err(());
    let err = lifts(
        alloc,
        result_of(alloc, Some(U32), None),
        &[1],
        &[ValRaw::u32(1), ValRaw::u32(0)],
        Some(failed),
        0,
    );
    assert!(rt; some == [true; 2]);
    assert!(rt; none == [true; 2]);
    assert!(rt; err == [true; 2]);
}

// 0xaa is padding.
#[test]
fn members_and_boxes_are_lifted(rt: HostRuntime) {
    let alloc = rt.alloc();
    let words = [
        ValRaw::u32(1),
        ValRaw::u32(2),
        ValRaw::u32(3),
        ValRaw::u32(4),
        ValRaw::u32(5),
    ];
    let bytes = [1, 0xaa, 0xaa, 0xaa, 2, 0, 0, 0, 3, 4, 5];
    let types = [U8, U32, U8, U8, U8];
    let two = tuple_of(alloc, &types[..2]);
    let two = lifts(alloc, two, &bytes, &words[..2], Some((1u8, 2u32)), 0);
    let four = tuple_of(alloc, &types[..4]);
    let value = Some((1u8, 2u32, 3u8, 4u8));
    let four = lifts(alloc, four, &bytes, &words[..4], value, 0);
    let five = tuple_of(alloc, &types);
    let value = Some((1u8, 2u32, 3u8, 4u8, 5u8));
    let five = lifts(alloc, five, &bytes, &words, value, 0);
    assert!(rt; two == [true; 2]);
    assert!(rt; four == [true; 2]);
    assert!(rt; five == [true; 2]);
    let number = Ok(plain(alloc, U16));
    let value = Box::new(alloc, 513u16).ok();
    let boxed = lifts(alloc, number, &[1, 2], &[ValRaw::u32(513)], value, 0);
    assert!(rt; boxed == [true; 2]);
}

/// A map from 1 to 20.
fn one_to_twenty(alloc: Global) -> Option<HashMap<u8, u8>> {
    let mut map = HashMap::new(alloc);
    map.insert(1, 20).ok()?;
    Some(map)
}

// A text of two bytes costs 2, a list of two numbers of 4 bytes 8, a map of two pairs of 2 bytes 4. Of a repeated key the last value stays.
#[test]
fn texts_lists_and_maps_are_lifted(rt: HostRuntime) {
    let alloc = rt.alloc();
    let words = [ValRaw::u32(8), ValRaw::u32(2)];
    let text = lifts(
        alloc,
        Ok(plain(alloc, InterfaceType::String)),
        &[8, 0, 0, 0, 2, 0, 0, 0, 0xc3, 0xa9],
        &words,
        String::from_str(alloc, "é").ok(),
        2,
    );
    let list = lifts(
        alloc,
        list_of(alloc, U32),
        &[8, 0, 0, 0, 2, 0, 0, 0, 1, 0, 0, 0, 2],
        &words,
        vec![in alloc; 1u32, 2].ok(),
        8,
    );
    let map = lifts(
        alloc,
        map_of(alloc, U8, U8),
        &[8, 0, 0, 0, 2, 0, 0, 0, 1, 10, 1, 20],
        &words,
        one_to_twenty(alloc),
        4,
    );
    assert!(rt; text == [true; 2]);
    assert!(rt; list == [true; 2]);
    assert!(rt; map == [true; 2]);
}

/// The fault that lifting memory answers, where it answers one.
fn fault_of<T: Lift>(alloc: Global, core: &mut TestCore, ty: &InterfaceType) -> Option<Fault> {
    match loaded::<T>(alloc, core, ty) {
        Some((Err(fault), _)) => Some(fault),
        _ => None,
    }
}

#[test]
fn faults_are_told_by_their_places(rt: HostRuntime) {
    let alloc = rt.alloc();
    let case = over_bytes(alloc, option_of(alloc, U8), &[2], fault_of::<Option<u8>>);
    let string = Ok(plain(alloc, InterfaceType::String));
    let bytes = [8, 0, 0, 0, 1, 0, 0, 0, 0xc3];
    let text = over_bytes(alloc, string, &bytes, fault_of::<String>);
    let far = [8, 0, 0, 0, 15];
    let list = over_bytes(alloc, list_of(alloc, U32), &far, fault_of::<Vec<u32>>);
    let place = At::Address(0);
    assert!(rt; case == Some(Fault::BadDiscriminant(place, 2)));
    assert!(rt; text == Some(Fault::InvalidUtf8(place)));
    assert!(rt; list == Some(Fault::PointerOutOfBounds(place)));
}

/// What lifting a value cost, where it is lifted.
fn cost_of<T: Lift>(alloc: Global, core: &mut TestCore, ty: &InterfaceType) -> Option<u64> {
    match loaded::<T>(alloc, core, ty) {
        Some((Ok(_), cost)) => Some(cost),
        _ => None,
    }
}

/// What lifting a list of fixed length cost, where it is 1 and 2.
fn cost_of_one_and_two(alloc: Global, core: &mut TestCore, ty: &InterfaceType) -> Option<u64> {
    match loaded::<FixedList<u16, 2>>(alloc, core, ty) {
        Some((Ok(list), cost)) if list.items() == [1, 2].as_slice() => Some(cost),
        _ => None,
    }
}

// A text costs its bytes, a list its items' bytes in the host, also where they aren't read: this text is no UTF-8. A list of fixed length is
// free.
#[test]
fn texts_and_lists_may_stay_in_memory(rt: HostRuntime) {
    let alloc = rt.alloc();
    let string = Ok(plain(alloc, InterfaceType::String));
    let bytes = [8, 0, 0, 0, 1, 0, 0, 0, 0xc3];
    let text = over_bytes(alloc, string, &bytes, cost_of::<WasmStr>);
    let two = [8, 0, 0, 0, 2];
    let list = over_bytes(alloc, list_of(alloc, U16), &two, cost_of::<WasmList<u16>>);
    let fixed = over_bytes(
        alloc,
        fixed_of(alloc, U16, 2),
        &[1, 0, 2, 0],
        cost_of_one_and_two,
    );
    assert!(rt; text == Some(1));
    assert!(rt; list == Some(4));
    assert!(rt; fixed == Some(0));
}
