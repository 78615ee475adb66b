//! The items of a list that stays in memory, one after another.

ghost use Rattle.std.specs.Prelude.{◌≡◌, IfSome, Some};
ghost use Rattle.std.specs.Iterator.{UpTo, at_most};
ghost use Rattle.std.specs.Iterator.SizeHint.{IsWithinCount};
ghost use Rattle.canon_lift.specs.Iteration.{NextGives, items_left};
ghost use Rattle.canon_lift.specs.Ranges.{IsListOfCore};

use crate::{Lift, WasmList};
use canon_context::{Core, Fault};
use std::alloc::Global;

/// Lifts the items of a list in order, each as `WasmList::get` does: with the core's whole fuel, over the ledger that the items
/// before it left. Behind the last it answers none, and does so again (the iterator that wasmtime's `WasmList::iter` makes).
#[derive(Drop)]
pub struct WasmListIter<'a, T, U, G> {
    pub(crate) list: &'a WasmList<T>,
    pub(crate) core: &'a mut Core<U, G>,
    pub(crate) alloc: Global,
    // of the next item
    pub(crate) index: u64,
}

impl<T: Lift> WasmList<T> {
    /// An iterator over the items, exactly `len` of them (wasmtime's function of this name). It has an item's fault in the item's
    /// place, and goes on behind it.
    pub fn iter<'a, U, G>(
        &'a self,
        alloc: Global,
        core: &'a mut Core<U, G>,
    ) -> WasmListIter<'a, T, U, G>
        requires { IsListOfCore T.fits core.old self.now }
        ensures ready { IsListOfCore T.fits result.core.now result.list.now }
        ensures list { result.list.now ≡ self.now }
        ensures core { result.core.now ≡ core.old }
        ensures same_reference { result.core.ghost_name ≡ core.entry.ghost_name }
        ensures index { result.index ≡ 0 }
    {
        WasmListIter {
            list: self,
            core,
            alloc,
            index: 0,
        }
    }
}

impl<T: Lift, U, G> Iterator for WasmListIter<'_, T, U, G> {
    type Item = Result<T, Fault>;

    ghost can_next = { λ s. IsListOfCore T.fits s.core.now s.list.now };

    ghost next_gives = { NextGives T.reading };

    ghost remaining = { λ s. at_most (items_left s) };

    fn next(&mut self) -> Option<Result<T, Fault>> {
        let _count = self.list.len(); // at most 2^64 - 1
        let item = self.list.get(self.alloc, self.core, self.index)?;
        self.index += 1;
        Some(item)
    }

    /// Exactly how many items are still to come.
    fn size_hint(&self) -> (usize, Option<usize>)
        ensures lower { IsWithinCount result.0 (at_most (items_left self.now)) }
        ensures upper { IfSome result.1 (UpTo (at_most (items_left self.now))) }
        ensures exact { (result.0 ≡ items_left self.now) × (result.1 ≡ Some (items_left self.now)) }
    {
        let left = self.list.count.saturating_sub(self.index) as usize;
        (left, Some(left))
    }
}

impl<T: Lift, U, G> ExactSizeIterator for WasmListIter<'_, T, U, G> {
    /// How many items are still to come.
    fn len(&self) -> usize {
        self.list.count.saturating_sub(self.index) as usize
    }
}
