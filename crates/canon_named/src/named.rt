//! Whether a type is a record, a variant, an enum or flags of these names, with parts whose types pass their tests.

ghost use Rattle.std.specs.Prelude.{◌≡◌, All, IfSome, OnErr, OnOk, length, map};
ghost use Rattle.std.specs.List.{AllZip};
ghost use Rattle.canon_types.specs.Keeps.{names_of};
ghost use Rattle.canon_types.specs.Table.{Knows, KnowsPayload};
ghost use Rattle.canon_named.specs.Named.{AnswersTest, AnyZip, FailsPayload, FailsRecord, FailsVariant, IsEnumOf, IsFlagsOf, PassesPayload, PassesRecord, PassesVariant, test_failed, test_passed};

use crate::TypecheckFailed;
use crate::names::{are_field_names, are_same_names};
use canon_types::{InstanceType, InterfaceType, RecordField};

/// Whether a type is a record whose fields have these names, in this order, and types that pass their tests
/// (wasmtime's `typecheck_record`).
pub fn typecheck_record(
    ty: &InterfaceType,
    types: &InstanceType,
    names: &[String],
    parts: &[fn(&InterfaceType, &InstanceType) -> Result<(), TypecheckFailed>],
) -> Result<(), TypecheckFailed>
    requires count { length names.now ≡ length parts.now }
    requires known { Knows types.now.types ty.now }
    requires callable { All (λ test. (a b : _) → Knows b.now.types a.now → pre test a b) parts.now }
    ensures ok { OnOk result (PassesRecord post types.now (names_of names.now) parts.now ty.now) }
    ensures err { OnErr result (FailsRecord post types.now (names_of names.now) parts.now ty.now) }
{
    let InterfaceType::Record(i) = ty else {
        return Err(TypecheckFailed);
    };
    let fields = types.types().record(*i).fields.as_slice();
    if !are_field_names(fields, names) {
        return Err(TypecheckFailed);
    }
    pass_fields(fields, types, parts)
}

/// Whether the type of each field passes its test.
fn pass_fields(
    fields: &[RecordField],
    types: &InstanceType,
    parts: &[fn(&InterfaceType, &InstanceType) -> Result<(), TypecheckFailed>],
) -> Result<(), TypecheckFailed>
    requires count { length fields.now ≡ length parts.now }
    requires known { All (λ field. Knows types.now.types field.ty) fields.now }
    requires callable { All (λ test. (a b : _) → Knows b.now.types a.now → pre test a b) parts.now }
    ensures ok { OnOk result (AllZip (AnswersTest post types.now test_passed) parts.now (map (λ field. field.ty) fields.now)) }
    ensures err { OnErr result (AnyZip (AnswersTest post types.now test_failed) parts.now (map (λ field. field.ty) fields.now)) }
{
    for (k, part) in parts.iter().enumerate() {
        part(&fields[k].ty, types)?;
    }
    Ok(())
}

/// Whether a type is a variant whose cases have these names, in this order, and payloads that pass their tests, or none
/// where there is no test (wasmtime's `typecheck_variant`).
pub fn typecheck_variant(
    ty: &InterfaceType,
    types: &InstanceType,
    names: &[String],
    parts: &[Option<fn(&InterfaceType, &InstanceType) -> Result<(), TypecheckFailed>>],
) -> Result<(), TypecheckFailed>
    requires count { length names.now ≡ length parts.now }
    requires known { Knows types.now.types ty.now }
    requires callable { All (λ part. IfSome part (λ test. (a b : _) → Knows b.now.types a.now → pre test a b)) parts.now }
    ensures ok { OnOk result (PassesVariant post types.now (names_of names.now) parts.now ty.now) }
    ensures err { OnErr result (FailsVariant post types.now (names_of names.now) parts.now ty.now) }
{
    let InterfaceType::Variant(i) = ty else {
        return Err(TypecheckFailed);
    };
    let cases = types.types().variant(*i).cases.as_slice();
    if !are_same_names(cases.keys().as_slice(), names) {
        return Err(TypecheckFailed);
    }
    pass_payloads(cases.values().as_slice(), types, parts)
}

/// Whether each payload passes its test.
fn pass_payloads(
    payloads: &[Option<InterfaceType>],
    types: &InstanceType,
    parts: &[Option<fn(&InterfaceType, &InstanceType) -> Result<(), TypecheckFailed>>],
) -> Result<(), TypecheckFailed>
    requires count { length payloads.now ≡ length parts.now }
    requires known { All (KnowsPayload types.now.types) payloads.now }
    requires callable { All (λ part. IfSome part (λ test. (a b : _) → Knows b.now.types a.now → pre test a b)) parts.now }
    ensures ok { OnOk result (AllZip (PassesPayload post types.now) parts.now payloads.now) }
    ensures err { OnErr result (AnyZip (FailsPayload post types.now) parts.now payloads.now) }
{
    for (k, part) in parts.iter().enumerate() {
        match (part, &payloads[k]) {
            (Some(test), Some(ty)) => test(ty, types)?,
            (None, None) => {}
            _ => return Err(TypecheckFailed),
        }
    }
    Ok(())
}

/// Whether a type is an enum with these names, in this order (wasmtime's `typecheck_enum`).
pub fn typecheck_enum(
    ty: &InterfaceType,
    types: &InstanceType,
    names: &[String],
) -> Result<(), TypecheckFailed>
    requires { Knows types.now.types ty.now }
    ensures ok { OnOk result (IsEnumOf (names_of names.now) types.now.types ty.now) }
    ensures err { OnErr result (IsEnumOf (names_of names.now) types.now.types ty.now → ⊥) }
{
    let InterfaceType::Enum(i) = ty else {
        return Err(TypecheckFailed);
    };
    if !are_same_names(types.types().enum_(*i).names.as_slice(), names) {
        return Err(TypecheckFailed);
    }
    Ok(())
}

/// Whether a type is flags with these names, in this order (wasmtime's `typecheck_flags`).
pub fn typecheck_flags(
    ty: &InterfaceType,
    types: &InstanceType,
    names: &[String],
) -> Result<(), TypecheckFailed>
    requires { Knows types.now.types ty.now }
    ensures ok { OnOk result (IsFlagsOf (names_of names.now) types.now.types ty.now) }
    ensures err { OnErr result (IsFlagsOf (names_of names.now) types.now.types ty.now → ⊥) }
{
    let InterfaceType::Flags(i) = ty else {
        return Err(TypecheckFailed);
    };
    if !are_same_names(types.types().flags(*i).names.as_slice(), names) {
        return Err(TypecheckFailed);
    }
    Ok(())
}
