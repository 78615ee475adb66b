//! The list of records that a number draws.

ghost use Rattle.std.specs.Prelude.{◌≡◌, List, [], ◌∷◌, ◌++◌, IfOk, OnOk, codes, map, string_bytes};
ghost use Rattle.canon_model.specs.Shape.{Name};
ghost use Rattle.canon_literals.specs.Literals.{fields_view, literal_view, literals_view, text};
ghost use Rattle.canon_gen.specs.Records as spec;

use crate::draws::{draw, draw_text};
use canon_types::OutOfMemory;
use canon_value::Val;
use std::alloc::Global;

/// The list that a number draws.
pub(crate) fn draw_list(alloc: Global, n: u32) -> Result<Val, OutOfMemory>
    ensures { IfOk result (λ v. literal_view v ≡ spec.list_drawn n) }
{
    let mut state = n;
    let mut records = Vec::with_capacity(alloc, n as usize)?;
    for id in 0..n {
        records.push(draw_record(alloc, &mut state, id)?)?;
    }
    Ok(Val::List(records))
}

fn draw_record(alloc: Global, state: &mut u32, id: u32) -> Result<Val, OutOfMemory>
    ensures record { IfOk result (λ v. literal_view v ≡ spec.record_drawn id state.old) }
    ensures next { IfOk result (λ _. state.new ≡ spec.after_record state.old) }
{
    let name = draw_text(alloc, state, 16)?;
    let tags = draw_tags(alloc, state)?;
    let on = switch(alloc, draw(state, 3))?;
    record_of(alloc, id, name, tags, on)
}

fn draw_tags(alloc: Global, state: &mut u32) -> Result<Vec<Val>, OutOfMemory>
    ensures tags { IfOk result (λ tags. literals_view tags.items ≡ map text (spec.tags state.old)) }
    ensures next { IfOk result (λ _. state.new ≡ spec.after_tags state.old) }
{
    let count = draw(state, 4);
    let mut tags = Vec::new(alloc);
    for _ in 0..count {
        let tag = draw_text(alloc, state, 8)?;
        tags.push(Val::String(tag))?;
    }
    Ok(tags)
}

/// None, some(false) or some(true).
fn switch(alloc: Global, on: u32) -> Result<Val, OutOfMemory>
    ensures { IfOk result (λ v. literal_view v ≡ spec.switch on) }
{
    if on == 0 {
        return Ok(Val::Option(None));
    }
    let payload = Box::new(alloc, Val::Bool(on == 2))?;
    Ok(Val::Option(Some(payload)))
}

fn record_of(
    alloc: Global,
    id: u32,
    name: String,
    tags: Vec<Val>,
    on: Val,
) -> Result<Val, OutOfMemory>
    ensures { IfOk result (λ v. (names : List Name) → literals_view tags.items ≡ map text names → literal_view v ≡ spec.record_with id (string_bytes name) names (literal_view on)) }
{
    let mut fields = Vec::with_capacity(alloc, 4)?;
    add_field(alloc, &mut fields, "id", Val::U32(id))?;
    add_field(alloc, &mut fields, "name", Val::String(name))?;
    add_field(alloc, &mut fields, "tags", Val::List(tags))?;
    add_field(alloc, &mut fields, "on", on)?;
    Ok(Val::Record(fields))
}

fn add_field(
    alloc: Global,
    fields: &mut Vec<(String, Val)>,
    name: &str,
    value: Val,
) -> Result<(), OutOfMemory>
    ensures { OnOk result (fields_view fields.new.items ≡ fields_view fields.old.items ++ (name.now, literal_view value) ∷ []) }
{
    fields.push((String::from_str(alloc, name)?, value))?;
    Ok(())
}
