//! Words of scalars, and of cases without a payload.

ghost use Rattle.std.specs.Prelude.{◌≡◌, ◌≤◌, ◌+◌, [], false, length};
ghost use Rattle.canon_context.specs.Core.{component_types};
ghost use Rattle.canon_lower_parts.specs.Scalars.{IsWordOfScalar};
ghost use Rattle.canon_lower_parts.specs.Stores.{TypedStores};
ghost use Rattle.canon_lower_parts.specs.Words.{IsCaseWords, TypedLowers};
ghost use Rattle.canon_passing.specs.Words.{WordsStay};
ghost use Rattle.canon_model.specs.Flat.{AreZero};
ghost use Rattle.canon_model.specs.Layout.{flat, size};
ghost use Rattle.canon_types.specs.Table.{Knows, shape_of};

use crate::put::put;
use canon_context::{Fault, LowerContext};
use canon_memory::{Guest, ValRaw};
use canon_typed::ScalarType;
use canon_types::InterfaceType;

/// A scalar, which one word represents.
pub trait WordScalar: ScalarType + Copy {
    /// The word, with no bit set above the scalar's own.
    fn word(&self) -> ValRaw
        ensures { IsWordOfScalar Self.kind (Self.walks self.now) result };
}

/// Lowers a scalar into its word.
pub fn lower_scalar<S: WordScalar, D, G: Guest>(
    value: S,
    cx: &mut LowerContext<'_, D, G>,
    ty: InterfaceType,
    dst: &mut [ValRaw],
) -> Result<(), Fault>
    requires fits { S.fits cx.old.core.now.component.types ty }
    requires words { length dst.old ≡ flat (shape_of (component_types cx.old.core.now) ty) }
    ensures lowers { TypedLowers G.seen G.moves cx.old.options cx.old.core.now cx.new.core.now (shape_of (component_types cx.old.core.now) ty) dst.new 0 (S.walks value) [] result }
    ensures count { length dst.new ≡ length dst.old }
    ensures same_reference { cx.new.core.ghost_name ≡ cx.old.core.ghost_name }
    ensures same_options { cx.new.options ≡ cx.old.options }
{
    let _memory = cx.core.memory(); // memory has at most 2^32 bytes
    dst[0] = value.word();
    Ok(())
}

/// Stores a scalar: its word, cut to the scalar's bytes.
pub fn store_scalar<S: WordScalar, D, G: Guest>(
    value: S,
    cx: &mut LowerContext<'_, D, G>,
    ty: InterfaceType,
    offset: u64,
) -> Result<(), Fault>
    requires known { Knows (component_types cx.old.core.now) ty }
    requires fits { S.fits cx.old.core.now.component.types ty }
    requires room { offset + size false (shape_of (component_types cx.old.core.now) ty) ≤ length cx.old.core.now.memory }
    ensures stores { TypedStores G.seen G.moves cx.old.options cx.old.core.now cx.new.core.now (shape_of (component_types cx.old.core.now) ty) offset (S.walks value) [] result }
    ensures same_reference { cx.new.core.ghost_name ≡ cx.old.core.ghost_name }
    ensures same_options { cx.new.options ≡ cx.old.options }
{
    let _memory = cx.core.memory(); // memory has at most 2^32 bytes
    let size = cx.types().canonical_abi(&ty).size32;
    put(cx, offset, value.word().get_u64(), size);
    Ok(())
}

/// Writes zeros from a word on.
pub fn clear_from(dst: &mut [ValRaw], from: usize)
    requires { from ≤ length dst.old }
    ensures stays { WordsStay from dst.old dst.new }
    ensures zeros { AreZero dst.new from (length dst.new) }
{
    for k in from..dst.len() {
        dst[k] = ValRaw::u32(0);
    }
}

/// Lowers a case without a payload: its number, and zeros.
pub fn lower_bare(dst: &mut [ValRaw], case: u32)
    requires { 1 ≤ length dst.old }
    ensures words { IsCaseWords case 1 dst.new }
    ensures count { length dst.new ≡ length dst.old }
{
    dst[0] = ValRaw::u32(case);
    clear_from(dst, 1);
}
