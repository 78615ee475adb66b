//! The comparison of two types, part by part.

ghost use Rattle.std.specs.Prelude.{◌≡◌, ◌↔◌, All, IsTrue};
ghost use Rattle.canon_model.specs.Same.{SameCases, SameMembers};
ghost use Rattle.canon_types.specs.Keeps.{field_members, fields_type};
ghost use Rattle.canon_types.specs.Laid.{unnamed_cases};
ghost use Rattle.canon_types.specs.Table.{HasResource, HasTuple, IsOver, Knows, KnowsPayload, all_shapes, members_of, parts, payload_in, tuple_members};
ghost use Rattle.canon_same.specs.Same.{AreFound, SameFuncs, SamePayload, SameResource, SameTypes};

use crate::found::{Found, place};
use crate::names::are_same_names;
use canon_types::{
    InstanceType, InterfaceType, RecordField, TypeEnumIndex, TypeFixedLengthListIndex,
    TypeFlagsIndex, TypeFunc, TypeListIndex, TypeMapIndex, TypeOptionIndex, TypeRecordIndex,
    TypeResourceTableIndex, TypeResultIndex, TypeTupleIndex, TypeVariantIndex,
};

/// Whether a type of one component and a type of another are the same: of one kind, with the same names and numbers
/// in order, and with parts that are the same. Handles are where their resources are of one type.
pub fn is_same(
    read: &InstanceType,
    ty: &InterfaceType,
    written: &InstanceType,
    other: &InterfaceType,
) -> bool
    requires known { Knows read.now.types ty.now }
    requires other_known { Knows written.now.types other.now }
    ensures { IsTrue result ↔ SameTypes read.now written.now ty.now other.now }
{
    same(read, written, &mut Found::new(), ty, other)
}

/// Whether two functions have the same parameters and the same results. That one of them is async isn't looked at.
pub fn is_same_func(
    read: &InstanceType,
    func: &TypeFunc,
    written: &InstanceType,
    other: &TypeFunc,
) -> bool
    requires known { IsOver read.now.types func.now }
    requires other_known { IsOver written.now.types other.now }
    ensures { IsTrue result ↔ SameFuncs read.now written.now func.now other.now }
{
    let mut found = Found::new();
    same_tuples(read, written, &mut found, func.params, other.params)
        && same_tuples(read, written, &mut found, func.results, other.results)
}

/// Two definitions that were found to be the same aren't compared again.
#[cycle(same)]
fn same(
    read: &InstanceType,
    written: &InstanceType,
    found: &mut Found,
    ty: &InterfaceType,
    other: &InterfaceType,
) -> bool
    requires known { Knows read.now.types ty.now }
    requires other_known { Knows written.now.types other.now }
    requires found { AreFound read.now written.now found.old }
    ensures same { IsTrue result ↔ SameTypes read.now written.now ty.now other.now }
    ensures found { AreFound read.now written.now found.new }
{
    let (Some(i), Some(j)) = (place(ty), place(other)) else {
        return compare(read, written, found, ty, other);
    };
    if found.has(i, j) {
        return true;
    }
    let is_same = compare(read, written, found, ty, other);
    if is_same {
        found.add(i, j);
    }
    is_same
}

#[cycle(same)]
fn compare(
    read: &InstanceType,
    written: &InstanceType,
    found: &mut Found,
    ty: &InterfaceType,
    other: &InterfaceType,
) -> bool
    requires known { Knows read.now.types ty.now }
    requires other_known { Knows written.now.types other.now }
    requires found { AreFound read.now written.now found.old }
    ensures same { IsTrue result ↔ SameTypes read.now written.now ty.now other.now }
    ensures found { AreFound read.now written.now found.new }
{
    match ty {
        InterfaceType::List(i) => same_lists(read, written, found, *i, other),
        InterfaceType::FixedLengthList(i) => {
            same_fixed_length_lists(read, written, found, *i, other)
        }
        InterfaceType::Map(i) => same_maps(read, written, found, *i, other),
        InterfaceType::Record(i) => same_records(read, written, found, *i, other),
        InterfaceType::Tuple(i) => match other {
            InterfaceType::Tuple(j) => same_tuples(read, written, found, *i, *j),
            _ => false,
        },
        InterfaceType::Variant(i) => same_variants(read, written, found, *i, other),
        InterfaceType::Option(i) => same_options(read, written, found, *i, other),
        InterfaceType::Result(i) => same_results(read, written, found, *i, other),
        InterfaceType::Enum(i) => same_enums(read, written, *i, other),
        InterfaceType::Flags(i) => same_flags(read, written, *i, other),
        InterfaceType::Own(r) => same_owns(read, written, *r, other),
        InterfaceType::Borrow(r) => same_borrows(read, written, *r, other),
        _ => ty == other,
    }
}

#[cycle(same)]
fn same_lists(
    read: &InstanceType,
    written: &InstanceType,
    found: &mut Found,
    i: TypeListIndex,
    other: &InterfaceType,
) -> bool
    requires known { Knows read.now.types (InterfaceType.List i) }
    requires other_known { Knows written.now.types other.now }
    requires found { AreFound read.now written.now found.old }
    ensures same { IsTrue result ↔ SameTypes read.now written.now (InterfaceType.List i) other.now }
    ensures found { AreFound read.now written.now found.new }
{
    let InterfaceType::List(j) = other else {
        return false;
    };
    let list = read.types().list(i);
    let its = written.types().list(*j);
    same(read, written, found, &list.element, &its.element)
}

#[cycle(same)]
fn same_fixed_length_lists(
    read: &InstanceType,
    written: &InstanceType,
    found: &mut Found,
    i: TypeFixedLengthListIndex,
    other: &InterfaceType,
) -> bool
    requires known { Knows read.now.types (InterfaceType.FixedLengthList i) }
    requires other_known { Knows written.now.types other.now }
    requires found { AreFound read.now written.now found.old }
    ensures same { IsTrue result ↔ SameTypes read.now written.now (InterfaceType.FixedLengthList i) other.now }
    ensures found { AreFound read.now written.now found.new }
{
    let InterfaceType::FixedLengthList(j) = other else {
        return false;
    };
    let list = read.types().fixed_length_list(i);
    let its = written.types().fixed_length_list(*j);
    list.size == its.size && same(read, written, found, &list.element, &its.element)
}

#[cycle(same)]
fn same_maps(
    read: &InstanceType,
    written: &InstanceType,
    found: &mut Found,
    i: TypeMapIndex,
    other: &InterfaceType,
) -> bool
    requires known { Knows read.now.types (InterfaceType.Map i) }
    requires other_known { Knows written.now.types other.now }
    requires found { AreFound read.now written.now found.old }
    ensures same { IsTrue result ↔ SameTypes read.now written.now (InterfaceType.Map i) other.now }
    ensures found { AreFound read.now written.now found.new }
{
    let InterfaceType::Map(j) = other else {
        return false;
    };
    let map = read.types().map(i);
    let its = written.types().map(*j);
    same(read, written, found, &map.key, &its.key)
        && same(read, written, found, &map.value, &its.value)
}

#[cycle(same)]
fn same_records(
    read: &InstanceType,
    written: &InstanceType,
    found: &mut Found,
    i: TypeRecordIndex,
    other: &InterfaceType,
) -> bool
    requires known { Knows read.now.types (InterfaceType.Record i) }
    requires other_known { Knows written.now.types other.now }
    requires found { AreFound read.now written.now found.old }
    ensures same { IsTrue result ↔ SameTypes read.now written.now (InterfaceType.Record i) other.now }
    ensures found { AreFound read.now written.now found.new }
{
    let InterfaceType::Record(j) = other else {
        return false;
    };
    let fields = read.types().record(i).fields.as_slice();
    let others = written.types().record(*j).fields.as_slice();
    same_fields(read, written, found, fields, others)
}

#[cycle(same)]
fn same_tuples(
    read: &InstanceType,
    written: &InstanceType,
    found: &mut Found,
    i: TypeTupleIndex,
    j: TypeTupleIndex,
) -> bool
    requires known { HasTuple read.now.types i }
    requires other_known { HasTuple written.now.types j }
    requires found { AreFound read.now written.now found.old }
    ensures same { IsTrue result ↔ SameTypes read.now written.now (InterfaceType.Tuple i) (InterfaceType.Tuple j) }
    ensures members { IsTrue result ↔ SameMembers (SameResource read.now written.now) (tuple_members read.now.types i) (tuple_members written.now.types j) }
    ensures found { AreFound read.now written.now found.new }
{
    let types = read.types().tuple(i).types.as_slice();
    let others = written.types().tuple(j).types.as_slice();
    same_members(read, written, found, types, others)
}

#[cycle(same)]
fn same_variants(
    read: &InstanceType,
    written: &InstanceType,
    found: &mut Found,
    i: TypeVariantIndex,
    other: &InterfaceType,
) -> bool
    requires known { Knows read.now.types (InterfaceType.Variant i) }
    requires other_known { Knows written.now.types other.now }
    requires found { AreFound read.now written.now found.old }
    ensures same { IsTrue result ↔ SameTypes read.now written.now (InterfaceType.Variant i) other.now }
    ensures found { AreFound read.now written.now found.new }
{
    let InterfaceType::Variant(j) = other else {
        return false;
    };
    let cases = &read.types().variant(i).cases;
    let others = &written.types().variant(*j).cases;
    let (names, other_names) = (cases.keys(), others.keys());
    let (payloads, other_payloads) = (cases.values(), others.values());
    are_same_names(names.as_slice(), other_names.as_slice())
        && same_payloads(
            read,
            written,
            found,
            payloads.as_slice(),
            other_payloads.as_slice(),
        )
}

#[cycle(same)]
fn same_options(
    read: &InstanceType,
    written: &InstanceType,
    found: &mut Found,
    i: TypeOptionIndex,
    other: &InterfaceType,
) -> bool
    requires known { Knows read.now.types (InterfaceType.Option i) }
    requires other_known { Knows written.now.types other.now }
    requires found { AreFound read.now written.now found.old }
    ensures same { IsTrue result ↔ SameTypes read.now written.now (InterfaceType.Option i) other.now }
    ensures found { AreFound read.now written.now found.new }
{
    let InterfaceType::Option(j) = other else {
        return false;
    };
    let some = read.types().option(i);
    let its = written.types().option(*j);
    same(read, written, found, &some.ty, &its.ty)
}

#[cycle(same)]
fn same_results(
    read: &InstanceType,
    written: &InstanceType,
    found: &mut Found,
    i: TypeResultIndex,
    other: &InterfaceType,
) -> bool
    requires known { Knows read.now.types (InterfaceType.Result i) }
    requires other_known { Knows written.now.types other.now }
    requires found { AreFound read.now written.now found.old }
    ensures same { IsTrue result ↔ SameTypes read.now written.now (InterfaceType.Result i) other.now }
    ensures found { AreFound read.now written.now found.new }
{
    let InterfaceType::Result(j) = other else {
        return false;
    };
    let result = read.types().result(i);
    let its = written.types().result(*j);
    same_payloads(
        read,
        written,
        found,
        &[result.ok, result.err],
        &[its.ok, its.err],
    )
}

fn same_enums(
    read: &InstanceType,
    written: &InstanceType,
    i: TypeEnumIndex,
    other: &InterfaceType,
) -> bool
    requires known { Knows read.now.types (InterfaceType.Enum i) }
    requires other_known { Knows written.now.types other.now }
    ensures { IsTrue result ↔ SameTypes read.now written.now (InterfaceType.Enum i) other.now }
{
    let InterfaceType::Enum(j) = other else {
        return false;
    };
    are_same_names(
        read.types().enum_(i).names.as_slice(),
        written.types().enum_(*j).names.as_slice(),
    )
}

fn same_flags(
    read: &InstanceType,
    written: &InstanceType,
    i: TypeFlagsIndex,
    other: &InterfaceType,
) -> bool
    requires known { Knows read.now.types (InterfaceType.Flags i) }
    requires other_known { Knows written.now.types other.now }
    ensures { IsTrue result ↔ SameTypes read.now written.now (InterfaceType.Flags i) other.now }
{
    let InterfaceType::Flags(j) = other else {
        return false;
    };
    are_same_names(
        read.types().flags(i).names.as_slice(),
        written.types().flags(*j).names.as_slice(),
    )
}

fn same_owns(
    read: &InstanceType,
    written: &InstanceType,
    r: TypeResourceTableIndex,
    other: &InterfaceType,
) -> bool
    requires known { Knows read.now.types (InterfaceType.Own r) }
    requires other_known { Knows written.now.types other.now }
    ensures { IsTrue result ↔ SameTypes read.now written.now (InterfaceType.Own r) other.now }
{
    let InterfaceType::Own(q) = other else {
        return false;
    };
    same_resources(read, written, r, *q)
}

fn same_borrows(
    read: &InstanceType,
    written: &InstanceType,
    r: TypeResourceTableIndex,
    other: &InterfaceType,
) -> bool
    requires known { Knows read.now.types (InterfaceType.Borrow r) }
    requires other_known { Knows written.now.types other.now }
    ensures { IsTrue result ↔ SameTypes read.now written.now (InterfaceType.Borrow r) other.now }
{
    let InterfaceType::Borrow(q) = other else {
        return false;
    };
    same_resources(read, written, r, *q)
}

/// Whether two resources are of one type.
fn same_resources(
    read: &InstanceType,
    written: &InstanceType,
    r: TypeResourceTableIndex,
    q: TypeResourceTableIndex,
) -> bool
    requires known { HasResource read.now.types r }
    requires other_known { HasResource written.now.types q }
    ensures { IsTrue result ↔ SameResource read.now written.now r q }
{
    read.resource_type(r) == written.resource_type(q)
}

#[cycle(same)]
fn same_fields(
    read: &InstanceType,
    written: &InstanceType,
    found: &mut Found,
    fields: &[RecordField],
    others: &[RecordField],
) -> bool
    requires known { All (Knows read.now.types) (parts (fields_type fields.now)) }
    requires other_known { All (Knows written.now.types) (parts (fields_type others.now)) }
    requires found { AreFound read.now written.now found.old }
    ensures same { IsTrue result ↔ SameMembers (SameResource read.now written.now) (field_members read.now.types fields.now) (field_members written.now.types others.now) }
    ensures found { AreFound read.now written.now found.new }
{
    if fields.len() != others.len() {
        return false;
    }
    for (k, field) in fields.iter().enumerate() {
        let other = &others[k];
        if field.name != other.name {
            return false;
        }
        if !same(read, written, found, &field.ty, &other.ty) {
            return false;
        }
    }
    true
}

#[cycle(same)]
fn same_members(
    read: &InstanceType,
    written: &InstanceType,
    found: &mut Found,
    types: &[InterfaceType],
    others: &[InterfaceType],
) -> bool
    requires known { All (Knows read.now.types) types.now }
    requires other_known { All (Knows written.now.types) others.now }
    requires found { AreFound read.now written.now found.old }
    ensures same { IsTrue result ↔ SameMembers (SameResource read.now written.now) (members_of read.now.types types.now) (members_of written.now.types others.now) }
    ensures found { AreFound read.now written.now found.new }
{
    if types.len() != others.len() {
        return false;
    }
    for (k, ty) in types.iter().enumerate() {
        if !same(read, written, found, ty, &others[k]) {
            return false;
        }
    }
    true
}

/// Whether cases have the same payloads, whatever their names.
#[cycle(same)]
fn same_payloads(
    read: &InstanceType,
    written: &InstanceType,
    found: &mut Found,
    payloads: &[Option<InterfaceType>],
    others: &[Option<InterfaceType>],
) -> bool
    requires known { All (KnowsPayload read.now.types) payloads.now }
    requires other_known { All (KnowsPayload written.now.types) others.now }
    requires found { AreFound read.now written.now found.old }
    ensures same { IsTrue result ↔ SameCases (SameResource read.now written.now) (unnamed_cases (all_shapes read.now.types) payloads.now) (unnamed_cases (all_shapes written.now.types) others.now) }
    ensures found { AreFound read.now written.now found.new }
{
    if payloads.len() != others.len() {
        return false;
    }
    for (k, payload) in payloads.iter().enumerate() {
        if !same_payload(read, written, found, *payload, others[k]) {
            return false;
        }
    }
    true
}

#[cycle(same)]
fn same_payload(
    read: &InstanceType,
    written: &InstanceType,
    found: &mut Found,
    payload: Option<InterfaceType>,
    other: Option<InterfaceType>,
) -> bool
    requires known { KnowsPayload read.now.types payload }
    requires other_known { KnowsPayload written.now.types other }
    requires found { AreFound read.now written.now found.old }
    ensures same { IsTrue result ↔ SamePayload (SameResource read.now written.now) (payload_in (all_shapes read.now.types) payload) (payload_in (all_shapes written.now.types) other) }
    ensures found { AreFound read.now written.now found.new }
{
    match (payload, other) {
        (Some(ty), Some(other)) => same(read, written, found, &ty, &other),
        (None, None) => true,
        _ => false,
    }
}
