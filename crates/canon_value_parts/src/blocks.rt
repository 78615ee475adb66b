//! Blocks of texts and lists, which the guest is asked for.

ghost use Rattle.std.specs.Prelude.{◌≡◌, ◌≤◌, ◌<◌, ◌+◌, ◌*◌, ◌^◌, false, length};
ghost use Rattle.canon_lowering.specs.Attempt.{items_call};
ghost use Rattle.canon_memory.specs.Realloc.{call};
ghost use Rattle.canon_model.specs.Laws.{IsAlignment};
ghost use Rattle.canon_model.specs.Layout.{size};
ghost use Rattle.canon_model.specs.Shape.{string};
ghost use Rattle.canon_types.specs.Depth.{element_shape};
ghost use Rattle.canon_context.specs.Core.{encoding_by, component_types};
ghost use Rattle.canon_plan.specs.Element.{IsKnown, list_shape};
ghost use Rattle.canon_context.specs.Asks.{AsksFor};
ghost use Rattle.canon_value_parts.specs.Stores.{PlacesTo};
ghost use Rattle.canon_val.specs.declared.val.Val.TheVariants as val;

use canon_context::{Core, Fault, ask};
use canon_memory::Guest;
use canon_plan::{Element, element_abi};
use canon_string::put_text;
use canon_types::OptionsIndex;

/// Where a text or a list stands, its length, and the place of the value after it.
#[derive(Clone, Copy)]
pub struct Placed {
    /// The address of its block.
    pub pointer: u64,
    /// Its length: items, or the units of a text with the tag of its encoding.
    pub length: u64,
    /// The place of the value after it.
    pub next: u64,
}

/// Puts a text that has this place among the values into a block of its own.
pub fn place_text<T, G: Guest>(
    core: &mut Core<T, G>,
    options: OptionsIndex,
    text: &String,
    place: u64,
) -> Result<Placed, Fault>
    requires small { length core.old.memory ≤ 2 ^ 32 }
    ensures places { PlacesTo G.seen G.moves options core.old core.new string (val.String text.now) place result }
{
    match put_text(core, options, text.as_bytes()) {
        Ok(block) => Ok(Placed {
            pointer: block.pointer,
            length: block.length,
            next: place.saturating_add(1),
        }),
        Err(fault) => Err(fault),
    }
}

/// The block of a list of so many elements.
pub fn ask_items<T, G: Guest>(
    core: &mut Core<T, G>,
    element: &Element,
    length: u64,
    bytes: u64,
) -> Result<u64, Fault>
    requires known { IsKnown (component_types core.old) element.now }
    requires whole { bytes ≡ length * size false (element_shape (list_shape (component_types core.old) element.now)) }
    requires sized { bytes < 2 ^ 32 }
    ensures asked { AsksFor G.seen G.moves core.old core.new (items_call false (element_shape (list_shape (component_types core.old) element.now)) length) result }
{
    let _ = length;
    let align = element_abi(core.types(), element).align32;
    ask(core, align, bytes)
}
