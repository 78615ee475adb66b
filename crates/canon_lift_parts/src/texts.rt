//! Texts.

ghost use Rattle.std.specs.Prelude.{◌≡◌, ◌<◌, ◌≤◌, ◌^◌, IfErr, IfOk};
ghost use Rattle.canon_context.specs.Told.{Exactly, IsNoRefusal, LiftBlames, place_of};
ghost use Rattle.canon_model.specs.Reach.{TextFault, text_reach};
ghost use Rattle.canon_string.specs.Loading.{IsTextLoaded};
ghost use Rattle.canon_context.specs.Core.{encoding_by};
ghost use Rattle.canon_lowering.specs.Storing.{narrow};

use canon_context::{At, Fault, LiftContext, Source};
use canon_string::load_text;
use std::alloc::Global;

/// The text of this length at this pointer, which stands at `at` (CanonicalABI.md, "load_string_from_range").
pub fn text_of<U, G>(
    alloc: Global,
    cx: &mut LiftContext<'_, U, G>,
    pointer: u64,
    length: u64,
    at: At,
) -> Result<String, Fault>
    requires narrow_length { length < 2 ^ 32 }
    ensures ok { IfOk result (IsTextLoaded (encoding_by cx.old.core.now cx.old.options) (narrow cx.old.core.now.memory) pointer length cx.old.fuel cx.new.fuel) }
    ensures err { IfErr result (LiftBlames (Exactly (TextFault (encoding_by cx.old.core.now cx.old.options) (narrow cx.old.core.now.memory) (place_of at) pointer length))
        (cx.old.fuel < text_reach (encoding_by cx.old.core.now cx.old.options) (narrow cx.old.core.now.memory) pointer length)) }
    ensures unrefused { IfErr result IsNoRefusal }
    ensures falls { cx.new.fuel ≤ cx.old.fuel }
    ensures same { cx.new ≡ record cx.old { fuel = cx.new.fuel } }
{
    let mut fuel = cx.fuel;
    let encoding = cx.core.encoding(cx.options);
    let source = Source {
        instance: cx.instance_type(),
        types: cx.types(),
        memory: cx.memory(),
        encoding,
    };
    let answer = load_text(alloc, &source, &mut fuel, pointer, length, at);
    cx.fuel = fuel;
    answer
}
