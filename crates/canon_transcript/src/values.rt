//! The texts of values.

ghost use Rattle.std.specs.Prelude.{[], if◌then◌else◌, ◌≡◌, ◌++◌, IfOk, OnOk, codes, string_bytes};
ghost use Rattle.canon_transcript.specs.Text as spec;

use canon_abi::OutOfMemory;
use canon_val::Val;
use std::alloc::{AllocError, Global};

/// The text of a value, whose resources have no numbers. Answers OutOfMemory alone.
pub fn value_text(alloc: Global, v: &Val) -> Result<String, OutOfMemory>
    ensures { IfOk result (λ text. string_bytes text ≡ spec.value_text v.now) }
{
    let mut text = String::new(alloc);
    print_value(&mut text, &mut None, v)?;
    Ok(text)
}

/// Prints each value after a space. The first resource among them has the number `next`, which goes on to the one after the
/// last.
pub(crate) fn print_values(
    text: &mut String,
    next: &mut Option<u64>,
    values: &[Val],
) -> Result<(), AllocError>
    ensures { OnOk result (spec.page (string_bytes text.new) next.new ≡ spec.values_printing values.now (spec.page (string_bytes text.old) next.old)) }
{
    for value in values {
        text.push_str(" ")?;
        print_value(text, next, value)?;
    }
    Ok(())
}

/// Prints each value after a space. The resources among them have no numbers.
pub(crate) fn print_unnumbered(text: &mut String, values: &[Val]) -> Result<(), AllocError>
    ensures { OnOk result (string_bytes text.new ≡ string_bytes text.old ++ spec.values_text values.now) }
{
    print_values(text, &mut None, values)
}

#[cycle(print)]
fn print_value(text: &mut String, next: &mut Option<u64>, value: &Val) -> Result<(), AllocError>
    ensures { OnOk result (spec.page (string_bytes text.new) next.new ≡ spec.value_printing value.now (spec.page (string_bytes text.old) next.old)) }
{
    match value {
        Val::Bool(v) => write!(text, "{v}"),
        Val::S8(v) => write!(text, "{v}"),
        Val::U8(v) => write!(text, "{v}"),
        Val::S16(v) => write!(text, "{v}"),
        Val::U16(v) => write!(text, "{v}"),
        Val::S32(v) => write!(text, "{v}"),
        Val::U32(v) => write!(text, "{v}"),
        Val::S64(v) => write!(text, "{v}"),
        Val::U64(v) => write!(text, "{v}"),
        Val::Float32(bits) => print_f32(text, *bits),
        Val::Float64(bits) => print_f64(text, *bits),
        Val::Char(c) => print_char(text, *c),
        Val::String(content) => print_quoted(text, content),
        Val::List(items) => print_row(text, next, "[", items, "]"),
        Val::Map(pairs) => print_map(text, next, pairs),
        Val::Record(fields) => print_record(text, next, fields),
        Val::Tuple(parts) => print_row(text, next, "(", parts, ")"),
        Val::Variant(name, payload) => {
            print_name(text, name)?;
            print_payload(text, next, payload)
        }
        Val::Enum(name) => print_name(text, name),
        Val::Option(payload) => print_option(text, next, payload),
        Val::Result(outcome) => match outcome {
            Ok(payload) => print_case(text, next, "ok", payload),
            Err(payload) => print_case(text, next, "err", payload),
        },
        Val::Flags(names) => print_flags(text, names),
        Val::Resource(_) => print_resource(text, next),
        Val::FixedLengthList(items) => print_row(text, next, "[", items, "]"),
    }
}

/// Prints a resource: a mark, and its number, if resources have numbers.
fn print_resource(text: &mut String, next: &mut Option<u64>) -> Result<(), AllocError>
    ensures { OnOk result (spec.page (string_bytes text.new) next.new ≡ spec.resource_printing (spec.page (string_bytes text.old) next.old)) }
{
    text.push_str("#")?;
    if let Some(number) = *next {
        write!(text, "{number}")?;
        *next = Some(number.saturating_add(1));
    }
    Ok(())
}

#[cycle(print)]
fn print_option(
    text: &mut String,
    next: &mut Option<u64>,
    payload: &Option<Box<Val>>,
) -> Result<(), AllocError>
    ensures { OnOk result (spec.page (string_bytes text.new) next.new ≡ spec.option_printing payload.now (spec.page (string_bytes text.old) next.old)) }
{
    if payload.is_none() {
        return text.push_str("none");
    }
    print_case(text, next, "some", payload)
}

/// Prints this word, and a payload in brackets, if there is one.
#[cycle(print)]
fn print_case(
    text: &mut String,
    next: &mut Option<u64>,
    word: &str,
    payload: &Option<Box<Val>>,
) -> Result<(), AllocError>
    ensures { OnOk result (spec.page (string_bytes text.new) next.new ≡ spec.text_then word.now (spec.payload_printing payload.now) (spec.page (string_bytes text.old) next.old)) }
{
    text.push_str(word)?;
    print_payload(text, next, payload)
}

/// Prints a payload in brackets, if there is one.
#[cycle(print)]
fn print_payload(
    text: &mut String,
    next: &mut Option<u64>,
    payload: &Option<Box<Val>>,
) -> Result<(), AllocError>
    ensures { OnOk result (spec.page (string_bytes text.new) next.new ≡ spec.payload_printing payload.now (spec.page (string_bytes text.old) next.old)) }
{
    match payload {
        None => Ok(()),
        Some(value) => {
            text.push_str("(")?;
            print_value(text, next, value)?;
            text.push_str(")")
        }
    }
}

#[cycle(print)]
fn print_map(
    text: &mut String,
    next: &mut Option<u64>,
    pairs: &[(Val, Val)],
) -> Result<(), AllocError>
    ensures { OnOk result (spec.page (string_bytes text.new) next.new ≡ spec.pairs_printing pairs.now (spec.page (string_bytes text.old) next.old)) }
{
    text.push_str("map[")?;
    let mut is_first = true;
    for (key, value) in pairs {
        separate(text, is_first, ",")?;
        print_value(text, next, key)?;
        text.push_str("=")?;
        print_value(text, next, value)?;
        is_first = false;
    }
    text.push_str("]")
}

fn print_flags(text: &mut String, names: &[String]) -> Result<(), AllocError>
    ensures { OnOk result (string_bytes text.new ≡ string_bytes text.old ++ spec.flag_names_text names.now) }
{
    text.push_str("<")?;
    let mut is_first = true;
    for name in names {
        separate(text, is_first, "|")?;
        print_name(text, name)?;
        is_first = false;
    }
    text.push_str(">")
}

#[cycle(print)]
fn print_record(
    text: &mut String,
    next: &mut Option<u64>,
    fields: &[(String, Val)],
) -> Result<(), AllocError>
    ensures { OnOk result (spec.page (string_bytes text.new) next.new ≡ spec.fields_printing fields.now (spec.page (string_bytes text.old) next.old)) }
{
    text.push_str("{")?;
    let mut is_first = true;
    for (name, value) in fields {
        separate(text, is_first, ",")?;
        print_name(text, name)?;
        text.push_str(":")?;
        print_value(text, next, value)?;
        is_first = false;
    }
    text.push_str("}")
}

/// Prints values between these brackets, with a comma between two of them.
#[cycle(print)]
fn print_row(
    text: &mut String,
    next: &mut Option<u64>,
    before: &str,
    values: &[Val],
    after: &str,
) -> Result<(), AllocError>
    ensures { OnOk result (spec.page (string_bytes text.new) next.new ≡ spec.row_printing before.now values.now after.now (spec.page (string_bytes text.old) next.old)) }
{
    text.push_str(before)?;
    let mut is_first = true;
    for value in values {
        separate(text, is_first, ",")?;
        print_value(text, next, value)?;
        is_first = false;
    }
    text.push_str(after)
}

/// Prints this separator, but before the first of a row.
fn separate(text: &mut String, is_first: bool, separator: &str) -> Result<(), AllocError>
    ensures { OnOk result (string_bytes text.new ≡ string_bytes text.old ++ (if is_first then [] else separator.now)) }
{
    if is_first {
        return Ok(());
    }
    text.push_str(separator)
}

#[tactic(auto, using(crate::proofs::Digits::padded_hexadecimal))]
fn print_f32(text: &mut String, bits: u32) -> Result<(), AllocError>
    ensures { OnOk result (string_bytes text.new ≡ string_bytes text.old ++ (codes "f32:" ++ spec.hexadecimal 8 bits)) }
{
    write!(text, "f32:{bits:08x}")
}

#[tactic(auto, using(crate::proofs::Digits::padded_hexadecimal))]
fn print_f64(text: &mut String, bits: u64) -> Result<(), AllocError>
    ensures { OnOk result (string_bytes text.new ≡ string_bytes text.old ++ (codes "f64:" ++ spec.hexadecimal 16 bits)) }
{
    write!(text, "f64:{bits:016x}")
}

fn print_char(text: &mut String, c: char) -> Result<(), AllocError>
    ensures { OnOk result (string_bytes text.new ≡ string_bytes text.old ++ (codes "'" ++ spec.escaped c ++ codes "'")) }
{
    text.push_str("'")?;
    print_escaped(text, c)?;
    text.push_str("'")
}

fn print_quoted(text: &mut String, content: &str) -> Result<(), AllocError>
    ensures { OnOk result (string_bytes text.new ≡ string_bytes text.old ++ spec.quoted content.now) }
{
    text.push_str("\"")?;
    print_name(text, content)?;
    text.push_str("\"")
}

fn print_name(text: &mut String, name: &str) -> Result<(), AllocError>
    ensures { OnOk result (string_bytes text.new ≡ string_bytes text.old ++ spec.name_text name.now) }
{
    for c in name.chars() {
        print_escaped(text, c)?;
    }
    Ok(())
}

fn print_escaped(text: &mut String, c: char) -> Result<(), AllocError>
    ensures { OnOk result (string_bytes text.new ≡ string_bytes text.old ++ spec.escaped c) }
{
    if is_plain(c) {
        return text.push(c);
    }
    let number = u32::from(c);
    write!(text, "\\u{{{number:x}}}")
}

fn is_plain(c: char) -> bool
    ensures { result ≡ spec.is_plain c }
{
    matches!(c, ' '..='~') && !matches!(c, '"' | '\'' | '\\')
}
