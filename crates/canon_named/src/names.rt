//! Names in a row, and the text of those that are set.

ghost use Rattle.std.specs.Prelude.{◌≡◌, ◌≤◌, ◌<◌, ◌+◌, ◌*◌, ◌/◌, ◌%◌, ◌==◌, ◌↔◌, IsTrue, length, map, slice_index, string_bytes};
ghost use Rattle.std.specs.Fmt.{WritesOnOk, WritesStyledOnOk};
ghost use Rattle.std.specs.List.{join_with_byte};
ghost use Rattle.canon_types.specs.Keeps.{names_of};
ghost use Rattle.canon_named.specs.FlagText.{flags_text, is_set, set_names};

use canon_types::RecordField;
use std::fmt;

/// Whether these names are the same, in the same order.
pub(crate) fn are_same_names(found: &[String], names: &[String]) -> bool
    ensures { IsTrue result ↔ (names_of found.now ≡ names_of names.now) }
{
    found == names
}

/// Whether the fields have these names, in this order.
pub(crate) fn are_field_names(fields: &[RecordField], names: &[String]) -> bool
    ensures { IsTrue result ↔ (map (λ field. string_bytes field.name) fields.now ≡ names_of names.now) }
{
    if fields.len() != names.len() {
        return false;
    }
    for (k, field) in fields.iter().enumerate() {
        if field.name != names[k] {
            return false;
        }
    }
    true
}

/// Writes the names of the flags that are set, joined by `|`, in parentheses (wasmtime's `format_flags`).
pub fn format_flags<W: fmt::Write>(
    bits: &[u32],
    names: &[String],
    f: &mut fmt::Formatter<W>,
) -> fmt::Result
    requires words { length names.now ≤ 32 * length bits.now }
    ensures writes { WritesOnOk W.write_str_gives f.old result (flags_text bits.now (names_of names.now)) f.new }
    ensures styled { WritesStyledOnOk W.write_str_gives f.old result (flags_text bits.now (names_of names.now)) f.new }
{
    f.write_str("(")?;
    write_set_names(bits, names, f)?;
    f.write_str(")")
}

fn write_set_names<W: fmt::Write>(
    bits: &[u32],
    names: &[String],
    f: &mut fmt::Formatter<W>,
) -> fmt::Result
    requires words { length names.now ≤ 32 * length bits.now }
    ensures { WritesStyledOnOk W.write_str_gives f.old result (join_with_byte 124 (set_names bits.now (names_of names.now))) f.new }
{
    let mut separator = "";
    for (k, name) in names.iter().enumerate() {
        if is_set(bits, k) {
            f.write_str(separator)?;
            f.write_str(name.as_str())?;
            separator = "|";
        }
    }
    Ok(())
}

/// Whether the flag of this number is set.
fn is_set(bits: &[u32], k: usize) -> bool
    requires { k / 32 < length bits.now }
    ensures { result ≡ is_set bits.now k }
{
    bits[k / 32] >> (k % 32) & 1 == 1
}
