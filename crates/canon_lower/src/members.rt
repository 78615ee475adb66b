//! The members of a tuple, one after another.

ghost use Rattle.std.specs.Prelude.{◌≡◌, ◌≤◌, ◌<◌, ◌+◌, ◌∷◌, List, [], ⊤, false, length, refl};
ghost use Rattle.canon_context.specs.Core.{component_types};
ghost use Rattle.canon_resources.specs.Parts.{Part};
ghost use Rattle.canon_lower_parts.specs.Gives.{row_gives};
ghost use Rattle.canon_lower_parts.specs.Stores.{TypedMembersStore, TypedStores};
ghost use Rattle.canon_lower_parts.specs.Tuples.{member_type, members_after, types_from, types_of_tuple};
ghost use Rattle.canon_lower_parts.specs.Words.{TypedLowers, TypedMembersLower};
ghost use Rattle.canon_passing.specs.Words.{WordsStay};
ghost use Rattle.canon_model.specs.Layout.{begins, ends, flat, members_end, members_flat};
ghost use Rattle.canon_model.specs.Shape.{Shape};
ghost use Rattle.canon_model.specs.Tree.{Trees};
ghost use Rattle.canon_types.specs.Instance.{Instance};
ghost use Rattle.canon_types.specs.Table.{Knows, shape_of};
ghost use Rattle.canon_types.specs.declared.types.InterfaceType.{InterfaceType};
ghost use Rattle.canon_typed.specs.Meaning.{FirstAnd, NoTrees};
ghost use Rattle.canon_typed.specs.Types.{AreOf};

use crate::Lower;
use crate::words::lower_at;
use canon_context::{Fault, LowerContext};
use canon_lower_parts::{next_place, next_type};
use canon_memory::{Guest, ValRaw};
use canon_types::InterfaceType;

/// Lowers the tuple's member of number `k` into its words from `at` on, and moves both behind it.
fn lower_member<A: Lower, D, G: Guest>(
    value: &mut A,
    cx: &mut LowerContext<'_, D, G>,
    ty: &InterfaceType,
    k: &mut usize,
    dst: &mut [ValRaw],
    at: &mut usize,
) -> Result<(), Fault>
    requires known { Knows (component_types cx.old.core.now) ty.now }
    requires member { k.old < length (types_of_tuple (component_types cx.old.core.now) ty.now) }
    requires fits { A.fits cx.old.core.now.component.types (member_type (component_types cx.old.core.now) ty.now k.old) }
    requires room { at.old + flat (shape_of (component_types cx.old.core.now) (member_type (component_types cx.old.core.now) ty.now k.old)) ≤ length dst.old }
    ensures lowers { TypedLowers G.seen G.moves cx.old.options cx.old.core.now cx.new.core.now (shape_of (component_types cx.old.core.now) (member_type (component_types cx.old.core.now) ty.now k.old)) dst.new at.old (A.walks value.old)
        (A.gives cx.old.core.now.component.types (shape_of (component_types cx.old.core.now) (member_type (component_types cx.old.core.now) ty.now k.old)) value.old) result }
    ensures stays { WordsStay at.old dst.old dst.new }
    ensures next { k.new ≡ k.old + 1 }
    ensures end { at.new ≡ at.old + flat (shape_of (component_types cx.old.core.now) (member_type (component_types cx.old.core.now) ty.now k.old)) }
    ensures same_reference { cx.new.core.ghost_name ≡ cx.old.core.ghost_name }
    ensures same_options { cx.new.options ≡ cx.old.options }
{
    let part = next_type(cx.types(), ty, k);
    lower_at(value, cx, part, dst, at)
}

/// Stores the tuple's member of number `k`, after the members before it, which end at offset `end` from `at`, and moves both
/// behind it.
fn store_member<A: Lower, D, G: Guest>(
    value: &mut A,
    cx: &mut LowerContext<'_, D, G>,
    ty: &InterfaceType,
    k: &mut usize,
    at: u64,
    end: &mut u64,
) -> Result<(), Fault>
    requires known { Knows (component_types cx.old.core.now) ty.now }
    requires member { k.old < length (types_of_tuple (component_types cx.old.core.now) ty.now) }
    requires fits { A.fits cx.old.core.now.component.types (member_type (component_types cx.old.core.now) ty.now k.old) }
    requires room { at + ends false end.old (shape_of (component_types cx.old.core.now) (member_type (component_types cx.old.core.now) ty.now k.old)) ≤ length cx.old.core.now.memory }
    ensures stores { TypedStores G.seen G.moves cx.old.options cx.old.core.now cx.new.core.now (shape_of (component_types cx.old.core.now) (member_type (component_types cx.old.core.now) ty.now k.old))
        (at + begins false end.old (shape_of (component_types cx.old.core.now) (member_type (component_types cx.old.core.now) ty.now k.old))) (A.walks value.old)
        (A.gives cx.old.core.now.component.types (shape_of (component_types cx.old.core.now) (member_type (component_types cx.old.core.now) ty.now k.old)) value.old) result }
    ensures next { k.new ≡ k.old + 1 }
    ensures end { end.new ≡ ends false end.old (shape_of (component_types cx.old.core.now) (member_type (component_types cx.old.core.now) ty.now k.old)) }
    ensures same_reference { cx.new.core.ghost_name ≡ cx.old.core.ghost_name }
    ensures same_options { cx.new.options ≡ cx.old.options }
{
    let _memory = cx.core.memory(); // memory has at most 2^32 bytes
    let (part, start) = next_place(cx.types(), ty, k, end);
    value.linear_lower_to_memory(cx, part, at + start)
}

/// Members of a tuple from one on, lent to be lowered: the first one, and the others.
pub(crate) trait LowerMembers {
    // the component types of each
    ghost all: { List (Instance → InterfaceType → Type 0) };

    // their trees
    ghost have: { Self → Trees → Type 0 };

    // what their handles do to the ledger, in order, where their shapes are these
    ghost give: { Instance → Self → List (Shape → List (List Part)) };

    // both lend the same members
    ghost same: { Self → Self → Type 0 };

    /// Lowers them into their words from `at` on: they are the members of a tuple's type from number `k` on.
    fn lower_members<D, G: Guest>(
        &mut self,
        cx: &mut LowerContext<'_, D, G>,
        ty: &InterfaceType,
        k: usize,
        dst: &mut [ValRaw],
        at: usize,
    ) -> Result<(), Fault>
        requires known { Knows (component_types cx.old.core.now) ty.now }
        requires fits { AreOf all cx.old.core.now.component.types (types_from (component_types cx.old.core.now) ty.now k) }
        requires room { at + members_flat (members_after (component_types cx.old.core.now) ty.now k) ≤ length dst.old }
        ensures lowers { TypedMembersLower G.seen G.moves cx.old.options cx.old.core.now cx.new.core.now (members_after (component_types cx.old.core.now) ty.now k) dst.new at (have self.old)
            (row_gives (members_after (component_types cx.old.core.now) ty.now k) (give cx.old.core.now.component.types self.old)) result }
        ensures stays { WordsStay at dst.old dst.new }
        ensures lent { same self.old self.new }
        ensures same_reference { cx.new.core.ghost_name ≡ cx.old.core.ghost_name }
        ensures same_options { cx.new.options ≡ cx.old.options };

    /// Stores them as the members of a tuple at the address `at`, where those before them end at offset `end`.
    fn store_members<D, G: Guest>(
        &mut self,
        cx: &mut LowerContext<'_, D, G>,
        ty: &InterfaceType,
        k: usize,
        at: u64,
        end: u64,
    ) -> Result<(), Fault>
        requires known { Knows (component_types cx.old.core.now) ty.now }
        requires fits { AreOf all cx.old.core.now.component.types (types_from (component_types cx.old.core.now) ty.now k) }
        requires room { at + members_end false end (members_after (component_types cx.old.core.now) ty.now k) ≤ length cx.old.core.now.memory }
        ensures stores { TypedMembersStore G.seen G.moves cx.old.options cx.old.core.now cx.new.core.now (members_after (component_types cx.old.core.now) ty.now k) end at (have self.old)
            (row_gives (members_after (component_types cx.old.core.now) ty.now k) (give cx.old.core.now.component.types self.old)) result }
        ensures lent { same self.old self.new }
        ensures same_reference { cx.new.core.ghost_name ≡ cx.old.core.ghost_name }
        ensures same_options { cx.new.options ≡ cx.old.options };

    // each lends the same members as itself
    ghost stay: { (p : Self) → same p p };
}

impl LowerMembers for () {
    ghost all = { [] };

    ghost have = { λ p. NoTrees };

    ghost give = { λ i p. [] };

    ghost same = { λ p q. ⊤ };

    fn lower_members<D, G: Guest>(
        &mut self,
        cx: &mut LowerContext<'_, D, G>,
        _ty: &InterfaceType,
        _k: usize,
        _dst: &mut [ValRaw],
        _at: usize,
    ) -> Result<(), Fault> {
        let _memory = cx.core.memory(); // memory has at most 2^32 bytes
        Ok(())
    }

    fn store_members<D, G: Guest>(
        &mut self,
        cx: &mut LowerContext<'_, D, G>,
        _ty: &InterfaceType,
        _k: usize,
        _at: u64,
        _end: u64,
    ) -> Result<(), Fault> {
        let _memory = cx.core.memory(); // memory has at most 2^32 bytes
        Ok(())
    }

    ghost stay = { λ p. tt };
}

impl<'a, A: Lower, R: LowerMembers> LowerMembers for (&'a mut A, R) {
    ghost all = { A.fits ∷ R.all };

    ghost have = { λ p. FirstAnd (A.walks p.0.now) (R.have p.1) };

    ghost give = { λ i p. (λ u. A.gives i u p.0.now) ∷ R.give i p.1 };

    ghost same = { λ p q. (q.0.ghost_name ≡ p.0.ghost_name) × R.same p.1 q.1 };

    fn lower_members<D, G: Guest>(
        &mut self,
        cx: &mut LowerContext<'_, D, G>,
        ty: &InterfaceType,
        k: usize,
        dst: &mut [ValRaw],
        at: usize,
    ) -> Result<(), Fault> {
        let mut next = k;
        let mut end = at;
        match lower_member(&mut *self.0, cx, ty, &mut next, dst, &mut end) {
            Ok(()) => self.1.lower_members(cx, ty, next, dst, end),
            Err(fault) => Err(fault),
        }
    }

    fn store_members<D, G: Guest>(
        &mut self,
        cx: &mut LowerContext<'_, D, G>,
        ty: &InterfaceType,
        k: usize,
        at: u64,
        end: u64,
    ) -> Result<(), Fault> {
        let mut next = k;
        let mut end = end;
        match store_member(&mut *self.0, cx, ty, &mut next, at, &mut end) {
            Ok(()) => self.1.store_members(cx, ty, next, at, end),
            Err(fault) => Err(fault),
        }
    }

    ghost stay = { λ p. (refl, R.stay p.1) };
}
