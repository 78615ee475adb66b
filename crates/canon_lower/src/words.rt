//! Words of parts, and of cases.

ghost use Rattle.std.specs.Prelude.{◌≡◌, ◌≤◌, ◌+◌, IfOk, length};
ghost use Rattle.canon_context.specs.Core.{component_types};
ghost use Rattle.canon_lower_parts.specs.Cases.{HasCase, payload_members};
ghost use Rattle.canon_lower_parts.specs.Gives.{payload_gives};
ghost use Rattle.canon_typed.specs.Meaning.{CaseMeans};
ghost use Rattle.canon_typed.specs.Types.{IsPayloadOf};
ghost use Rattle.canon_lower_parts.specs.Words.{IsCaseWords, TypedLowers};
ghost use Rattle.canon_passing.specs.Words.{WordsStay};
ghost use Rattle.canon_model.specs.Layout.{flat, members_flat};
ghost use Rattle.canon_model.specs.Shape.{Shape};
ghost use Rattle.canon_types.specs.Table.{Knows, KnowsPayload, all_shapes, payload_in, shape_of};

use crate::Lower;
use canon_context::{Fault, LowerContext};
use canon_lower_parts::{clear_from, lower_bare};
use canon_memory::{Guest, ValRaw};
use canon_plan::flat_words;
use canon_typed::ComponentType;
use canon_types::InterfaceType;

/// Lowers a value into its words from `at` on, and moves `at` behind them.
pub(crate) fn lower_at<T: Lower, D, G: Guest>(
    value: &mut T,
    cx: &mut LowerContext<'_, D, G>,
    ty: InterfaceType,
    dst: &mut [ValRaw],
    at: &mut usize,
) -> Result<(), Fault>
    requires known { Knows (component_types cx.old.core.now) ty }
    requires fits { T.fits cx.old.core.now.component.types ty }
    requires room { at.old + flat (shape_of (component_types cx.old.core.now) ty) ≤ length dst.old }
    ensures lowers { TypedLowers G.seen G.moves cx.old.options cx.old.core.now cx.new.core.now (shape_of (component_types cx.old.core.now) ty) dst.new at.old (T.walks value.old)
        (T.gives cx.old.core.now.component.types (shape_of (component_types cx.old.core.now) ty) value.old) result }
    ensures stays { WordsStay at.old dst.old dst.new }
    ensures end { at.new ≡ at.old + flat (shape_of (component_types cx.old.core.now) ty) }
    ensures same_reference { cx.new.core.ghost_name ≡ cx.old.core.ghost_name }
    ensures same_options { cx.new.options ≡ cx.old.options }
{
    let start = *at;
    *at = start + flat_words(cx.types(), &ty) as usize;
    value.linear_lower_to_flat(cx, ty, &mut dst[start..*at])
}

/// Lowers a case: its number, the words of its payload, and zeros.
pub(crate) fn lower_case<T: Lower, D, G: Guest>(
    value: &mut T,
    cx: &mut LowerContext<'_, D, G>,
    ty: InterfaceType,
    dst: &mut [ValRaw],
    case: u32,
) -> Result<(), Fault>
    requires known { Knows (component_types cx.old.core.now) ty }
    requires fits { T.fits cx.old.core.now.component.types ty }
    requires room { 1 + flat (shape_of (component_types cx.old.core.now) ty) ≤ length dst.old }
    ensures lowers { TypedLowers G.seen G.moves cx.old.options cx.old.core.now cx.new.core.now (shape_of (component_types cx.old.core.now) ty) dst.new 1 (T.walks value.old)
        (T.gives cx.old.core.now.component.types (shape_of (component_types cx.old.core.now) ty) value.old) result }
    ensures words { IfOk result (λ u. IsCaseWords case (1 + flat (shape_of (component_types cx.old.core.now) ty)) dst.new) }
    ensures count { length dst.new ≡ length dst.old }
    ensures same_reference { cx.new.core.ghost_name ≡ cx.old.core.ghost_name }
    ensures same_options { cx.new.options ≡ cx.old.options }
{
    dst[0] = ValRaw::u32(case);
    let mut end = 1;
    match lower_at(value, cx, ty, dst, &mut end) {
        Ok(()) => {
            clear_from(dst, end);
            Ok(())
        }
        Err(fault) => Err(fault),
    }
}

/// Lowers a case whose payload is of a Rust type. Where `U` is the unit, it stands for none.
pub(crate) fn lower_payload<T: Lower, U: ComponentType, D, G: Guest>(
    value: &mut T,
    cx: &mut LowerContext<'_, D, G>,
    ty: Option<InterfaceType>,
    dst: &mut [ValRaw],
    case: u32,
) -> Result<(), Fault>
    requires known { KnowsPayload (component_types cx.old.core.now) ty }
    requires fits { IsPayloadOf U.is_unit T.fits cx.old.core.now.component.types ty }
    requires room { 1 + members_flat (payload_members (payload_in (all_shapes (component_types cx.old.core.now)) ty)) ≤ length dst.old }
    ensures lowers { (s : Shape) → HasCase s case (payload_in (all_shapes (component_types cx.old.core.now)) ty) → length dst.old ≡ flat s
        → TypedLowers G.seen G.moves cx.old.options cx.old.core.now cx.new.core.now s dst.new 0 (CaseMeans U.is_unit T.walks case value.old)
        (payload_gives U.is_unit T.gives case cx.old.core.now.component.types s value.old) result }
    ensures count { length dst.new ≡ length dst.old }
    ensures same_reference { cx.new.core.ghost_name ≡ cx.old.core.ghost_name }
    ensures same_options { cx.new.options ≡ cx.old.options }
{
    let _memory = cx.core.memory(); // memory has at most 2^32 bytes
    match ty {
        None => {
            lower_bare(dst, case);
            Ok(())
        }
        Some(ty) => lower_case(value, cx, ty, dst, case),
    }
}
