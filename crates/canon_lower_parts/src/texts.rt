//! Texts.

ghost use Rattle.std.specs.Prelude.{◌≡◌, ◌≤◌, ◌+◌, [], false, length};
ghost use Rattle.canon_context.specs.Core.{component_types};
ghost use Rattle.canon_lower_parts.specs.Places.{TypedPlaces};
ghost use Rattle.canon_lower_parts.specs.Stores.{TypedStores};
ghost use Rattle.canon_lower_parts.specs.Words.{TypedLowers};
ghost use Rattle.canon_model.specs.Layout.{flat, size};
ghost use Rattle.canon_model.specs.Shape.{string};
ghost use Rattle.canon_types.specs.Table.{shape_of};
ghost use Rattle.canon_types.specs.declared.types.InterfaceType.TheVariants.{String as StringType};
ghost use Rattle.canon_typed.specs.Meaning.{TextMeans};

use crate::blocks::{Placed, put_placed, put_words};
use canon_context::{Fault, LowerContext};
use canon_memory::{Guest, ValRaw};
use canon_string::put_text;
use canon_types::InterfaceType;

/// Puts a text into a block of its own (CanonicalABI.md, "store_string_into_range").
fn place_text<D, G: Guest>(cx: &mut LowerContext<'_, D, G>, text: &String) -> Result<Placed, Fault>
    ensures places { TypedPlaces G.seen G.moves cx.old.options cx.old.core.now cx.new.core.now string (TextMeans text.now) [] result }
    ensures same_reference { cx.new.core.ghost_name ≡ cx.old.core.ghost_name }
    ensures same_options { cx.new.options ≡ cx.old.options }
{
    let _memory = cx.core.memory(); // memory has at most 2^32 bytes
    match put_text(cx.core, cx.options, text.as_bytes()) {
        Ok(block) => Ok(Placed {
            pointer: block.pointer,
            length: block.length,
        }),
        Err(fault) => Err(fault),
    }
}

/// Lowers a text into its two words.
pub fn lower_text<D, G: Guest>(
    text: &String,
    cx: &mut LowerContext<'_, D, G>,
    ty: InterfaceType,
    dst: &mut [ValRaw],
) -> Result<(), Fault>
    requires fits { ty ≡ StringType }
    requires words { length dst.old ≡ flat (shape_of (component_types cx.old.core.now) ty) }
    ensures lowers { TypedLowers G.seen G.moves cx.old.options cx.old.core.now cx.new.core.now (shape_of (component_types cx.old.core.now) ty) dst.new 0 (TextMeans text.now) [] result }
    ensures count { length dst.new ≡ length dst.old }
    ensures same_reference { cx.new.core.ghost_name ≡ cx.old.core.ghost_name }
    ensures same_options { cx.new.options ≡ cx.old.options }
{
    let _ = ty;
    let placed = place_text(cx, text);
    put_words(dst, placed)
}

/// Stores a text's pointer and length at an address.
pub fn store_text<D, G: Guest>(
    text: &String,
    cx: &mut LowerContext<'_, D, G>,
    ty: InterfaceType,
    offset: u64,
) -> Result<(), Fault>
    requires fits { ty ≡ StringType }
    requires room { offset + size false (shape_of (component_types cx.old.core.now) ty) ≤ length cx.old.core.now.memory }
    ensures stores { TypedStores G.seen G.moves cx.old.options cx.old.core.now cx.new.core.now (shape_of (component_types cx.old.core.now) ty) offset (TextMeans text.now) [] result }
    ensures same_reference { cx.new.core.ghost_name ≡ cx.old.core.ghost_name }
    ensures same_options { cx.new.options ≡ cx.old.options }
{
    let _ = ty;
    let placed = place_text(cx, text);
    put_placed(cx, offset, placed)
}
