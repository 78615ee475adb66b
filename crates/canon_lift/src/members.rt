//! The members of a tuple, one after another.

ghost use Rattle.std.specs.Prelude.{◌≡◌, ◌≤◌, ◌+◌, ◌%◌, ◌∷◌, [], List, drop, false, length};
ghost use Rattle.canon_context.specs.Core.{component_types};
ghost use Rattle.canon_model.specs.Layout.{align, flat, members_align, members_end, members_flat, size};
ghost use Rattle.canon_model.specs.Shape.{of_places, product};
ghost use Rattle.canon_types.specs.Instance.{Instance};
ghost use Rattle.canon_types.specs.Table as table;
ghost use Rattle.canon_types.specs.Table.{HasTuple, members_of, shape_of};
ghost use Rattle.canon_types.specs.declared.types.InterfaceType.{InterfaceType};
ghost use Rattle.canon_typed.specs.Types.{AreOf, IsTupleOf};
ghost use Rattle.canon_reading.specs.Reading.{Lifts, setting_in};
ghost use Rattle.canon_reading.specs.Readings.{RestReading, first_reading, none_reading, product_reading};
ghost use Rattle.canon_reading.specs.Rests.{rest_reading};
ghost use Rattle.canon_reading.specs.Spots.{flat_from, flat_in, stored, stored_from};

use crate::Lift;
use canon_context::{Fault, LiftContext};
use canon_memory::ValRaw;
use canon_plan::flat_words;
use canon_types::{InterfaceType, TypeTupleIndex};
use std::alloc::Global;

/// A member, and those behind it.
#[derive(Drop)]
pub(crate) struct First<A, R> {
    pub(crate) first: A,
    pub(crate) rest: R,
}

/// Members of a tuple from one on.
pub(crate) trait LiftMembers: Drop {
    // the component types of each
    ghost all: { List (Instance → InterfaceType → Type 0) };

    // what is read as the members
    ghost rest: { RestReading Self };

    /// Lifts the members of a tuple from member `k` on, of which the one before ends at an offset.
    fn lift_members<U, G>(
        alloc: Global,
        cx: &mut LiftContext<'_, U, G>,
        i: TypeTupleIndex,
        k: usize,
        at: u64,
        end: u64,
    ) -> Result<Self, Fault>
    where
        Self: Sized,
        requires tuple { HasTuple (component_types cx.old.core.now) i }
        requires fits { AreOf all cx.old.core.now.component.types (drop k (table.types_of (component_types cx.old.core.now) i)) }
        requires aligned { at % members_align false (members_of (component_types cx.old.core.now) (drop k (table.types_of (component_types cx.old.core.now) i))) ≡ 0 }
        requires inside { at + members_end false end (members_of (component_types cx.old.core.now) (drop k (table.types_of (component_types cx.old.core.now) i))) ≤ length cx.old.core.now.memory }
        ensures lifts { Lifts (rest_reading rest (stored_from at end) (members_of (component_types cx.old.core.now) (drop k (table.types_of (component_types cx.old.core.now) i)))) (setting_in cx.old.core.now cx.old.options)
            (stored at) (product of_places (members_of (component_types cx.old.core.now) (drop k (table.types_of (component_types cx.old.core.now) i)))) cx.old.core.now.ledger cx.old.fuel result cx.new.core.now.ledger cx.new.fuel }
        ensures same_core { cx.new.core.now ≡ record cx.old.core.now { ledger = cx.new.core.now.ledger } }
        ensures same_reference { cx.new.core.ghost_name ≡ cx.old.core.ghost_name }
        ensures same_options { cx.new.options ≡ cx.old.options };

    /// The same from the words from an index on.
    fn lift_member_words<U, G>(
        alloc: Global,
        cx: &mut LiftContext<'_, U, G>,
        i: TypeTupleIndex,
        k: usize,
        src: &[ValRaw],
        at: usize,
    ) -> Result<Self, Fault>
    where
        Self: Sized,
        requires tuple { HasTuple (component_types cx.old.core.now) i }
        requires fits { AreOf all cx.old.core.now.component.types (drop k (table.types_of (component_types cx.old.core.now) i)) }
        requires words { at + members_flat (members_of (component_types cx.old.core.now) (drop k (table.types_of (component_types cx.old.core.now) i))) ≤ length src.now }
        ensures lifts { Lifts (rest_reading rest (flat_from src.now at) (members_of (component_types cx.old.core.now) (drop k (table.types_of (component_types cx.old.core.now) i)))) (setting_in cx.old.core.now cx.old.options)
            (flat_in src.now at) (product of_places (members_of (component_types cx.old.core.now) (drop k (table.types_of (component_types cx.old.core.now) i)))) cx.old.core.now.ledger cx.old.fuel result cx.new.core.now.ledger cx.new.fuel }
        ensures same_core { cx.new.core.now ≡ record cx.old.core.now { ledger = cx.new.core.now.ledger } }
        ensures same_reference { cx.new.core.ghost_name ≡ cx.old.core.ghost_name }
        ensures same_options { cx.new.options ≡ cx.old.options };
}

impl LiftMembers for () {
    ghost all = { [] };

    ghost rest = { none_reading };

    fn lift_members<U, G>(
        _alloc: Global,
        _cx: &mut LiftContext<'_, U, G>,
        _i: TypeTupleIndex,
        _k: usize,
        _at: u64,
        _end: u64,
    ) -> Result<(), Fault> {
        Ok(())
    }

    fn lift_member_words<U, G>(
        _alloc: Global,
        _cx: &mut LiftContext<'_, U, G>,
        _i: TypeTupleIndex,
        _k: usize,
        _src: &[ValRaw],
        _at: usize,
    ) -> Result<(), Fault> {
        Ok(())
    }
}

impl<A: Lift, R: LiftMembers> LiftMembers for First<A, R> {
    ghost all = { A.fits ∷ R.all };

    ghost rest = { first_reading (λ m. m.first) (λ m. m.rest) A.reading R.rest };

    fn lift_members<U, G>(
        alloc: Global,
        cx: &mut LiftContext<'_, U, G>,
        i: TypeTupleIndex,
        k: usize,
        at: u64,
        end: u64,
    ) -> Result<First<A, R>, Fault> {
        let _memory = cx.core.memory(); // memory has at most 2^32 bytes
        let member = cx.types().tuple(i).types[k];
        let mut end = end;
        let start = cx
            .types()
            .canonical_abi(&member)
            .next_field32_size(&mut end);
        match A::linear_lift_from_memory(alloc, cx, member, at + start) {
            Ok(first) => match R::lift_members(alloc, cx, i, k + 1, at, end) {
                Ok(rest) => Ok(First { first, rest }),
                Err(fault) => Err(fault),
            },
            Err(fault) => Err(fault),
        }
    }

    fn lift_member_words<U, G>(
        alloc: Global,
        cx: &mut LiftContext<'_, U, G>,
        i: TypeTupleIndex,
        k: usize,
        src: &[ValRaw],
        at: usize,
    ) -> Result<First<A, R>, Fault> {
        let member = cx.types().tuple(i).types[k];
        let next = at + flat_words(cx.types(), &member) as usize;
        match A::lift_words(alloc, cx, member, src, at) {
            Ok(first) => match R::lift_member_words(alloc, cx, i, k + 1, src, next) {
                Ok(rest) => Ok(First { first, rest }),
                Err(fault) => Err(fault),
            },
            Err(fault) => Err(fault),
        }
    }
}

/// A tuple, which its members make.
pub(crate) trait OfMembers: Drop {
    type Members: LiftMembers;

    // its members
    ghost members: { Self → Self.Members };

    fn of_members(parts: Self::Members) -> Self
    where
        Self: Sized,
        ensures { members result ≡ parts };
}

/// Lifts a tuple from an address.
pub(crate) fn lift_tuple<P: OfMembers, U, G>(
    alloc: Global,
    cx: &mut LiftContext<'_, U, G>,
    ty: InterfaceType,
    at: u64,
) -> Result<P, Fault>
    requires fits { IsTupleOf P.Members.all cx.old.core.now.component.types ty }
    requires aligned { at % align false (shape_of (component_types cx.old.core.now) ty) ≡ 0 }
    requires inside { at + size false (shape_of (component_types cx.old.core.now) ty) ≤ length cx.old.core.now.memory }
    ensures lifts { Lifts (product_reading P.members P.Members.rest) (setting_in cx.old.core.now cx.old.options) (stored at) (shape_of (component_types cx.old.core.now) ty) cx.old.core.now.ledger cx.old.fuel result cx.new.core.now.ledger cx.new.fuel }
    ensures same_core { cx.new.core.now ≡ record cx.old.core.now { ledger = cx.new.core.now.ledger } }
    ensures same_reference { cx.new.core.ghost_name ≡ cx.old.core.ghost_name }
    ensures same_options { cx.new.options ≡ cx.old.options }
{
    let InterfaceType::Tuple(i) = ty else {
        unreachable!()
    };
    match P::Members::lift_members(alloc, cx, i, 0, at, 0) {
        Ok(members) => Ok(P::of_members(members)),
        Err(fault) => Err(fault),
    }
}

/// The same from the words from an index on.
pub(crate) fn lift_tuple_words<P: OfMembers, U, G>(
    alloc: Global,
    cx: &mut LiftContext<'_, U, G>,
    ty: InterfaceType,
    src: &[ValRaw],
    at: usize,
) -> Result<P, Fault>
    requires fits { IsTupleOf P.Members.all cx.old.core.now.component.types ty }
    requires words { at + flat (shape_of (component_types cx.old.core.now) ty) ≤ length src.now }
    ensures lifts { Lifts (product_reading P.members P.Members.rest) (setting_in cx.old.core.now cx.old.options) (flat_in src.now at) (shape_of (component_types cx.old.core.now) ty) cx.old.core.now.ledger cx.old.fuel result cx.new.core.now.ledger cx.new.fuel }
    ensures same_core { cx.new.core.now ≡ record cx.old.core.now { ledger = cx.new.core.now.ledger } }
    ensures same_reference { cx.new.core.ghost_name ≡ cx.old.core.ghost_name }
    ensures same_options { cx.new.options ≡ cx.old.options }
{
    let InterfaceType::Tuple(i) = ty else {
        unreachable!()
    };
    match P::Members::lift_member_words(alloc, cx, i, 0, src, at) {
        Ok(members) => Ok(P::of_members(members)),
        Err(fault) => Err(fault),
    }
}
