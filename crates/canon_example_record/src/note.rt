//! A note, which crosses as a record of WIT.

ghost use Rattle.std.specs.Prelude.{◌≡◌, ◌≤◌, ◌+◌, false, length, refl, true};
ghost use Rattle.canon_context.specs.Core.{component_types};
ghost use Rattle.canon_lower_parts.specs.Gives.{no_handles};
ghost use Rattle.canon_lower_parts.specs.Walkable.{first_walkable, none_walkable, product_walkable, text_walkable};
ghost use Rattle.canon_lower_parts.specs.Words.{TypedLowers};
ghost use Rattle.canon_model.specs.Layout.{flat};
ghost use Rattle.canon_passing.specs.Words.{WordsStay};
ghost use Rattle.canon_types.specs.Table.{Knows, shape_of};
ghost use Rattle.canon_example_record.specs.Laws.{note_apart, note_faulted, note_given, note_kept, note_priced, note_taken, note_told, note_typed};
ghost use Rattle.canon_example_record.specs.Notes.{IsNoteType, NoteMeans, note_cost, note_reading};

use canon_context::{Fault, LiftContext, LowerContext};
use canon_lift::Lift;
use canon_lower::Lower;
use canon_memory::{Guest, ValRaw};
use canon_typed::{ComponentType, TypecheckFailed};
use canon_types::{CanonicalAbiInfo, InstanceType, InterfaceType};
use std::alloc::Global;

/// A note, as WIT would say it: `record note { title: string, score: u32 }`.
#[derive(Drop)]
pub struct Note {
    pub title: String,
    pub score: u32,
}

impl ComponentType for Note {
    // A text asks for a block.
    const MAY_REQUIRE_REALLOC: bool = true;

    const IS_RUST_UNIT_TYPE: bool = false;

    ghost is_unit = { false };

    ghost fits = { IsNoteType };

    ghost means = { NoteMeans };

    ghost walks = { NoteMeans };

    ghost is_told = { true };

    ghost lifts = { NoteMeans };

    ghost cost = { note_cost };

    // the bytes of a `String` and of a `u32`
    ghost host_bytes = { 28 };

    fn is_unit_type() -> bool {
        false
    }

    fn host_size() -> u64 {
        28
    }

    fn abi() -> Option<CanonicalAbiInfo> {
        CanonicalAbiInfo::record(&[CanonicalAbiInfo::POINTER_PAIR, CanonicalAbiInfo::SCALAR4])
    }

    fn typecheck(ty: &InterfaceType, types: &InstanceType) -> Result<(), TypecheckFailed> {
        let InterfaceType::Record(i) = ty else {
            return Err(TypecheckFailed);
        };
        let [title, score] = types.types().record(*i).fields.as_slice() else {
            return Err(TypecheckFailed);
        };
        if title.name.as_str() != "title" || score.name.as_str() != "score" {
            return Err(TypecheckFailed);
        }
        match (title.ty, score.ty) {
            (InterfaceType::String, InterfaceType::U32) => Ok(()),
            _ => Err(TypecheckFailed),
        }
    }

    ghost typed = { note_typed };

    ghost walked = { λ n t h. h };
}

/// Lowers a field into its words, which begin at `at` and end before `end`.
fn lower_field<T: Lower, D, G: Guest>(
    value: &mut T,
    cx: &mut LowerContext<'_, D, G>,
    ty: InterfaceType,
    dst: &mut [ValRaw],
    at: usize,
    end: usize,
) -> Result<(), Fault>
    requires known { Knows (component_types cx.old.core.now) ty }
    requires fits { T.fits cx.old.core.now.component.types ty }
    requires words { end ≡ at + flat (shape_of (component_types cx.old.core.now) ty) }
    requires room { end ≤ length dst.old }
    ensures lowers { TypedLowers G.seen G.moves cx.old.options cx.old.core.now cx.new.core.now (shape_of (component_types cx.old.core.now) ty) dst.new at (T.walks value.old)
        (T.gives cx.old.core.now.component.types (shape_of (component_types cx.old.core.now) ty) value.old) result }
    ensures stays { WordsStay at dst.old dst.new }
    ensures same_reference { cx.new.core.ghost_name ≡ cx.old.core.ghost_name }
    ensures same_options { cx.new.options ≡ cx.old.options }
{
    value.linear_lower_to_flat(cx, ty, &mut dst[at..end])
}

impl Lower for Note {
    ghost gives = { no_handles };

    fn linear_lower_to_flat<D, G: Guest>(
        &mut self,
        cx: &mut LowerContext<'_, D, G>,
        _ty: InterfaceType,
        dst: &mut [ValRaw],
    ) -> Result<(), Fault> {
        match lower_field(&mut self.title, cx, InterfaceType::String, dst, 0, 2) {
            Ok(()) => lower_field(&mut self.score, cx, InterfaceType::U32, dst, 2, 3),
            Err(fault) => Err(fault),
        }
    }

    fn linear_lower_to_memory<D, G: Guest>(
        &mut self,
        cx: &mut LowerContext<'_, D, G>,
        _ty: InterfaceType,
        offset: u64,
    ) -> Result<(), Fault> {
        let _memory = cx.core.memory(); // memory has at most 2^32 bytes
        match self
            .title
            .linear_lower_to_memory(cx, InterfaceType::String, offset)
        {
            Ok(()) => self
                .score
                .linear_lower_to_memory(cx, InterfaceType::U32, offset + 8),
            Err(fault) => Err(fault),
        }
    }

    ghost walkable = { λ n. product_walkable (first_walkable (text_walkable n.title) (first_walkable (_, refl) none_walkable)) };

    ghost given = { note_given };
}

impl Lift for Note {
    ghost reading = { note_reading };

    fn unit_value() -> Option<Note> {
        None
    }

    fn linear_lift_from_memory<U, G>(
        alloc: Global,
        cx: &mut LiftContext<'_, U, G>,
        _ty: InterfaceType,
        at: u64,
    ) -> Result<Note, Fault> {
        let _memory = cx.core.memory(); // memory has at most 2^32 bytes
        match String::linear_lift_from_memory(alloc, cx, InterfaceType::String, at) {
            Ok(title) => match u32::linear_lift_from_memory(alloc, cx, InterfaceType::U32, at + 8) {
                Ok(score) => Ok(Note { title, score }),
                Err(fault) => Err(fault),
            },
            Err(fault) => Err(fault),
        }
    }

    fn lift_words<U, G>(
        alloc: Global,
        cx: &mut LiftContext<'_, U, G>,
        _ty: InterfaceType,
        src: &[ValRaw],
        at: usize,
    ) -> Result<Note, Fault> {
        match String::lift_words(alloc, cx, InterfaceType::String, src, at) {
            Ok(title) => match u32::lift_words(alloc, cx, InterfaceType::U32, src, at + 2) {
                Ok(score) => Ok(Note { title, score }),
                Err(fault) => Err(fault),
            },
            Err(fault) => Err(fault),
        }
    }

    ghost kept = { note_kept };

    ghost taken = { note_taken };

    ghost apart = { note_apart };

    ghost faulted = { note_faulted };

    ghost priced = { note_priced };

    ghost told = { λ h. note_told };
}
