//! Each public function of canon_named on a type that it takes and on one that it refuses. One function owns each table of types, and gives
//! back what another tells of it.

use canon_named::{
    TypecheckFailed, desc, format_flags, typecheck_enum, typecheck_flags, typecheck_record,
    typecheck_variant,
};
use canon_types::{
    InstanceType, InterfaceType, RecordField, StoreId, TypeBuilder, TypeFixedLengthListIndex,
    TypeListIndex, TypeMapIndex, TypeResourceTableIndex,
};
use std::alloc::Global;
use std::fmt::Formatter;

/// What a test of a type answers.
type Answer = Result<(), TypecheckFailed>;

fn name(alloc: Global, text: &str) -> Option<String> {
    String::from_str(alloc, text).ok()
}

fn names(alloc: Global, texts: &[&str]) -> Option<Vec<String>> {
    let mut names = Vec::new(alloc);
    for text in texts {
        names.push(name(alloc, text)?).ok()?;
    }
    Some(names)
}

/// What one function tells of a table of types and of names, to which another adds a type by those names.
fn with_types<
    A: Drop,
    R,
    F: FnOnce(Global, &mut TypeBuilder) -> Option<A>,
    L: FnOnce(&InstanceType, &A, &[String]) -> Option<R>,
>(alloc: Global, texts: &[&str], add: F, tell: L) -> Option<R>
    requires add { F.IsAlwaysCallable add }
    requires tell { L.IsAlwaysCallable tell }
{
    let names = names(alloc, texts)?;
    let mut builder = TypeBuilder::new(alloc);
    let added = add(alloc, &mut builder)?;
    let types = InstanceType::new(builder.finish(), StoreId::from_u64(1));
    tell(&types, &added, &names)
}

fn is_u8(ty: &InterfaceType, _types: &InstanceType) -> Answer {
    match ty {
        InterfaceType::U8 => Ok(()),
        _ => Err(TypecheckFailed),
    }
}

fn is_string(ty: &InterfaceType, _types: &InstanceType) -> Answer {
    match ty {
        InterfaceType::String => Ok(()),
        _ => Err(TypecheckFailed),
    }
}

/// Adds a record of an age and a text.
fn add_record(alloc: Global, builder: &mut TypeBuilder) -> Option<InterfaceType> {
    let age = name(alloc, "age")?;
    let text = name(alloc, "text")?;
    let fields = vec![in alloc;
        field(age, InterfaceType::U8),
        field(text, InterfaceType::String),
    ];
    builder.add_record(fields.ok()?).ok()
}

fn field(name: String, ty: InterfaceType) -> RecordField {
    RecordField { name, ty }
}

/// What a record answers to its names, to them in another order, and to other tests of its parts; and what a `u8` answers.
fn tell_record(types: &InstanceType, ty: &InterfaceType, names: &[String]) -> Option<[Answer; 4]> {
    if !types.types().contains(ty) || names.len() != 3 {
        return None;
    }
    let (others, in_order) = (&names[..2], &names[1..]);
    let plain = InterfaceType::U8;
    Some([
        typecheck_record(ty, types, in_order, &[is_u8, is_string]),
        typecheck_record(ty, types, others, &[is_u8, is_string]),
        typecheck_record(ty, types, in_order, &[is_u8, is_u8]),
        typecheck_record(&plain, types, in_order, &[is_u8, is_u8]),
    ])
}

#[test]
fn a_record_has_these_names_and_types_that_pass(rt: HostRuntime) {
    let names = ["text", "age", "text"];
    let told = with_types(rt.alloc(), &names, add_record, tell_record);
    let refused = Err(TypecheckFailed);
    assert!(rt; told == Some([Ok(()), refused, refused, refused]));
}

/// Adds a variant of two cases, of which the second has a `u8`.
fn add_variant(alloc: Global, builder: &mut TypeBuilder) -> Option<InterfaceType> {
    let none = name(alloc, "none")?;
    let some = name(alloc, "some")?;
    let cases = vec![in alloc; (none, None), (some, Some(InterfaceType::U8))].ok()?;
    builder.add_variant(cases).ok()
}

/// What a variant answers to its tests, to another, to one too many and to none.
fn tell_variant(types: &InstanceType, ty: &InterfaceType, cases: &[String]) -> Option<[Answer; 4]> {
    if !types.types().contains(ty) || cases.len() != 2 {
        return None;
    }
    Some([
        typecheck_variant(ty, types, cases, &[None, Some(is_u8)]),
        typecheck_variant(ty, types, cases, &[None, Some(is_string)]),
        typecheck_variant(ty, types, cases, &[Some(is_u8), Some(is_u8)]),
        typecheck_variant(ty, types, cases, &[None, None]),
    ])
}

#[test]
fn a_variant_has_a_payload_where_there_is_a_test(rt: HostRuntime) {
    let names = ["none", "some"];
    let told = with_types(rt.alloc(), &names, add_variant, tell_variant);
    let refused = Err(TypecheckFailed);
    assert!(rt; told == Some([Ok(()), refused, refused, refused]));
}

/// Adds an enum and flags of two names.
fn add_sets(alloc: Global, builder: &mut TypeBuilder) -> Option<[InterfaceType; 2]> {
    let kind = builder.add_enum(names(alloc, &["a", "b"])?).ok()?;
    let set = builder.add_flags(names(alloc, &["a", "b"])?).ok()?;
    Some([kind, set])
}

/// What they answer to the same names, to more, to them in another order, and to the other kind.
fn tell_sets(
    types: &InstanceType,
    added: &[InterfaceType; 2],
    names: &[String],
) -> Option<[Answer; 6]> {
    let [kind, set] = added;
    if !types.types().contains(kind) || !types.types().contains(set) || names.len() != 4 {
        return None;
    }
    let (turned, same, more) = (&names[..2], &names[1..3], &names[1..]);
    Some([
        typecheck_enum(kind, types, same),
        typecheck_enum(kind, types, more),
        typecheck_enum(set, types, same),
        typecheck_flags(set, types, same),
        typecheck_flags(set, types, turned),
        typecheck_flags(kind, types, same),
    ])
}

#[test]
fn enums_and_flags_have_exactly_these_names(rt: HostRuntime) {
    let names = ["b", "a", "b", "c"];
    let told = with_types(rt.alloc(), &names, add_sets, tell_sets);
    let refused = Err(TypecheckFailed);
    assert!(rt; told == Some([Ok(()), refused, refused, Ok(()), refused, refused]));
}

/// Whether the flags of these bits are written as this text.
fn writes(alloc: Global, names: &[String], bits: u32, text: &str) -> bool {
    if names.len() > 32 {
        return false;
    }
    let mut f = Formatter::new(String::new(alloc));
    format_flags(&[bits], names, &mut f).is_ok() && f.into_inner().as_str() == text
}

/// Whether three flags are, at three settings of them.
fn three_are_written(alloc: Global) -> Option<[bool; 3]> {
    let three = names(alloc, &["a", "b", "c"])?;
    // By wasmtime's format_flags: bits 0 and 2 of 5.
    Some([
        writes(alloc, &three, 5, "(a|c)"),
        writes(alloc, &three, 2, "(b)"),
        writes(alloc, &three, 0, "()"),
    ])
}

#[test]
fn flags_that_are_set_are_named_between_bars(rt: HostRuntime) {
    assert!(rt; three_are_written(rt.alloc()) == Some([true; 3]));
}

#[test]
fn types_are_called_by_their_kinds(rt: HostRuntime) {
    // By wasmtime's desc.
    let resource = TypeResourceTableIndex::from_u32(0);
    let list = InterfaceType::List(TypeListIndex::from_u32(0));
    let fixed = InterfaceType::FixedLengthList(TypeFixedLengthListIndex::from_u32(0));
    for (ty, text) in [
        (InterfaceType::Float32, "f32"),
        (InterfaceType::Map(TypeMapIndex::from_u32(0)), "map"),
        (list, "list"),
        (fixed, "list<_, N>"),
        (InterfaceType::Own(resource), "owned resource"),
        (InterfaceType::Borrow(resource), "borrowed resource"),
    ] {
        assert!(rt; desc(&ty) == text);
    }
}
