//! When two values are equal: two floats where their bits are equal or both are not a number, two
//! others where they are of the same variant and their parts are equal in order.

ghost use Rattle.std.specs.Prelude.{◌≡◌, ◌&&◌, map, nat_eq, string_bytes};
ghost use Rattle.std.specs.Cmp.{partial_equiv_from_equiv};
ghost use Rattle.std.specs.Cmp.Lexicographic.{pointwise};
ghost use Rattle.std.specs.Ordering.{int_eq};
ghost use Rattle.canon_val.specs.Equal.{all_same, compared, compared_pairs, compared_payload, row};
ghost use Rattle.canon_val.specs.Equal.{f32, f64, float_key, is_equal, is_nan};
ghost use Rattle.canon_val.specs.EqualLaws.{equal_equivalence};
ghost use Rattle.canon_val.specs.Value.{names_in, values_in};

use crate::Val;
use crate::equal_resources::are_resources_equal;

impl PartialEq for Val {
    ghost eq = { is_equal };

    ghost laws = { partial_equiv_from_equiv equal_equivalence };

    fn eq(&self, other: &Val) -> bool {
        are_equal(self, other)
    }
}

impl Eq for Val {
    ghost laws = { equal_equivalence };
}

#[cycle(equal)]
fn are_equal(a: &Val, b: &Val) -> bool
    ensures { result ≡ is_equal a.now b.now }
{
    match (a, b) {
        (Val::Bool(x), Val::Bool(y)) => x == y,
        (Val::S8(x), Val::S8(y)) => x == y,
        (Val::U8(x), Val::U8(y)) => x == y,
        (Val::S16(x), Val::S16(y)) => x == y,
        (Val::U16(x), Val::U16(y)) => x == y,
        (Val::S32(x), Val::S32(y)) => x == y,
        (Val::U32(x), Val::U32(y)) => x == y,
        (Val::S64(x), Val::S64(y)) => x == y,
        (Val::U64(x), Val::U64(y)) => x == y,
        (Val::Float32(x), Val::Float32(y)) => are_floats32_equal(*x, *y),
        (Val::Float64(x), Val::Float64(y)) => are_floats64_equal(*x, *y),
        (Val::Char(x), Val::Char(y)) => x == y,
        (Val::String(x), Val::String(y)) => x == y,
        (Val::List(x), Val::List(y)) => are_rows_equal(x, y),
        (Val::Map(x), Val::Map(y)) => are_pairs_equal(x, y),
        (Val::Record(x), Val::Record(y)) => are_fields_equal(x, y),
        (Val::Tuple(x), Val::Tuple(y)) => are_rows_equal(x, y),
        (Val::Variant(x, p), Val::Variant(y, q)) => x == y && are_payloads_equal(p, q),
        (Val::Enum(x), Val::Enum(y)) => x == y,
        (Val::Option(p), Val::Option(q)) => are_payloads_equal(p, q),
        (Val::Result(x), Val::Result(y)) => match (x, y) {
            (Ok(p), Ok(q)) | (Err(p), Err(q)) => are_payloads_equal(p, q),
            _ => false,
        },
        (Val::Flags(x), Val::Flags(y)) => are_names_equal(x, y),
        (Val::Resource(x), Val::Resource(y)) => are_resources_equal(x, y),
        (Val::FixedLengthList(x), Val::FixedLengthList(y)) => are_rows_equal(x, y),
        _ => false,
    }
}

/// Whether the bits are equal, or both are not a number.
fn are_floats32_equal(x: u32, y: u32) -> bool
    ensures { result ≡ int_eq (float_key f32 x) (float_key f32 y) }
{
    x == y || (is_nan32(x) && is_nan32(y))
}

fn is_nan32(bits: u32) -> bool
    ensures { result ≡ is_nan f32 bits }
{
    // Above the bits of an infinity, apart from the sign.
    bits % (1 << 31) > 0x7f80_0000
}

fn are_floats64_equal(x: u64, y: u64) -> bool
    ensures { result ≡ int_eq (float_key f64 x) (float_key f64 y) }
{
    x == y || (is_nan64(x) && is_nan64(y))
}

fn is_nan64(bits: u64) -> bool
    ensures { result ≡ is_nan f64 bits }
{
    bits % (1 << 63) > 0x7ff0_0000_0000_0000
}

#[cycle(equal)]
fn are_rows_equal(a: &[Val], b: &[Val]) -> bool
    ensures { result ≡ all_same (row (map compared a.now)) (row (map compared b.now)) }
{
    if a.len() != b.len() {
        return false;
    }
    for i in 0..a.len() {
        if !are_equal(&a[i], &b[i]) {
            return false;
        }
    }
    true
}

#[cycle(equal)]
fn are_pairs_equal(a: &[(Val, Val)], b: &[(Val, Val)]) -> bool
    ensures { result ≡ all_same (compared_pairs a.now) (compared_pairs b.now) }
{
    if a.len() != b.len() {
        return false;
    }
    for i in 0..a.len() {
        if !are_equal(&a[i].0, &b[i].0) || !are_equal(&a[i].1, &b[i].1) {
            return false;
        }
    }
    true
}

/// Names and values.
#[cycle(equal)]
fn are_fields_equal(a: &[(String, Val)], b: &[(String, Val)]) -> bool
    ensures { result ≡ (pointwise (pointwise nat_eq) (names_in a.now) (names_in b.now)
        && all_same (row (map compared (values_in a.now))) (row (map compared (values_in b.now)))) }
{
    if a.len() != b.len() {
        return false;
    }
    for i in 0..a.len() {
        if a[i].0 != b[i].0 || !are_equal(&a[i].1, &b[i].1) {
            return false;
        }
    }
    true
}

#[cycle(equal)]
fn are_payloads_equal(a: &Option<Box<Val>>, b: &Option<Box<Val>>) -> bool
    ensures { result ≡ all_same (compared_payload a.now) (compared_payload b.now) }
{
    match (a, b) {
        (Some(v), Some(w)) => are_equal(v, w),
        (None, None) => true,
        _ => false,
    }
}

fn are_names_equal(a: &[String], b: &[String]) -> bool
    ensures { result ≡ pointwise (pointwise nat_eq) (map string_bytes a.now) (map string_bytes b.now) }
{
    if a.len() != b.len() {
        return false;
    }
    for i in 0..a.len() {
        if a[i] != b[i] {
            return false;
        }
    }
    true
}
