//! The handle table of a component instance.

ghost use Rattle.std.specs.Prelude.{◌≡◌, ◌≤◌, ◌<◌, ◌+◌, ◌-◌, ◌==◌, OnOk, OnErr, Some, false};
ghost use Rattle.canon_handles.specs.Table.{max_handle, empty_table, entry_at, entry_count, insert, with_entry, without, one_less, one_more, is_at_limit, DoesWithMemory, SparesOneLess};
ghost use Rattle.canon_handles.specs.Calls.{held_count, is_own, lends_of, IsUnlent, KeepsCount, most_lends};
ghost use Rattle.canon_handles.specs.Laws.{TableLaws};
ghost use Rattle.canon_handles.specs.declared.handle.Entry.TheVariants.{ResourceOwn};

use crate::counter::HandleCounter;
use crate::entry_table::EntryTable;
use crate::error::HandleError;
use crate::handle::{Entry, TypedResource};
use canon_abi::OutOfMemory;
use std::alloc::Global;
use std::marker::Model;

/// The greatest index that the Canonical ABI allows.
pub(crate) const MAX_HANDLE: u32 = 268_435_455;

/// A table of the handles of a component instance, by index. Indexes begin at 1, and the most
/// recently freed one is used again first.
///
/// Each call that takes a counter asks that the counter's `live` is at least what the table has
/// `held`, as it is where the table's calls were all made with this one counter.
#[derive(Drop)]
pub struct HandleTable {
    held: u64,
    pub(crate) table: EntryTable<Entry>,
}

impl Model for HandleTable {
    ghost use Rattle.std.specs.Prelude.{◌≡◌};
    ghost use Rattle.canon_handles.specs.Table.{TableState};
    ghost use Rattle.canon_handles.specs.Calls.{held_count};
    ghost use Rattle.canon_handles.specs.declared.handle.Entry.{Entry};

    ghost Value = { TableState Entry };

    ghost view = { λ a. a.table };

    ghost invariant = { λ a. a.held ≡ held_count a.table.table };
}

impl HandleTable {
    /// An empty table, whose greatest index is the greatest that the Canonical ABI allows,
    /// 2^28 - 1.
    pub fn new(alloc: Global) -> Self
        ensures { result.table ≡ empty_table max_handle }
    {
        HandleTable::with_max_handle(alloc, MAX_HANDLE)
    }

    /// An empty table, whose greatest index is `max`, at most 2^28 - 1.
    pub fn with_max_handle(alloc: Global, max: u32) -> Self
        requires { max ≤ max_handle }
        ensures { result.table ≡ empty_table max }
    {
        HandleTable {
            held: 0,
            table: EntryTable::with_max_handle(alloc, max),
        }
    }

    /// What holds of this table, and of every other: index 0 names nothing, an index is free exactly
    /// where it was given and names nothing, and once, and as many indexes were given as have a
    /// handle or are free. For a proof that cites it; it does nothing.
    pub fn laws(&self)
        ensures { TableLaws self.now.table }
    {
        self.table.laws();
    }

    /// Whether the table has no handle.
    pub fn is_empty(&self) -> bool
        ensures { result ≡ (entry_count self.now.table == 0) }
    {
        self.table.count() == 0
    }

    /// The number of the table's handles and of their lends.
    pub fn held(&self) -> u64
        ensures { result ≡ held_count self.now.table }
    {
        self.held
    }

    /// How often the own handle at an index is lent, and 0 where there is no own handle.
    pub fn lends(&self, idx: u32) -> u32
        ensures { result ≡ lends_of (entry_at self.now.table idx) }
    {
        match self.entry(idx) {
            Some(Entry::ResourceOwn { lend_count, .. }) => lend_count,
            _ => 0,
        }
    }

    /// Whether there is an own handle at an index.
    pub fn is_own(&self, idx: u32) -> bool
        ensures { result ≡ is_own (entry_at self.now.table idx) }
    {
        match self.entry(idx) {
            Some(Entry::ResourceOwn { .. }) => true,
            _ => false,
        }
    }

    /// Makes room, so that the next insertion isn't refused for want of memory.
    pub fn reserve(&mut self) -> Result<(), OutOfMemory>
        ensures table { self.new.table ≡ self.old.table }
        ensures spare { self.old.spare ≤ self.new.spare }
        ensures ok { OnOk result (0 < self.new.spare) }
        ensures err { OnErr result (self.old.spare ≡ 0) }
    {
        self.table.reserve()
    }

    /// What an index names.
    pub(crate) fn entry(&self, index: u32) -> Option<Entry>
        ensures { result ≡ entry_at self.now.table index }
    {
        self.table.entry(index)
    }

    /// A new handle, which is not lent.
    pub(crate) fn insert(
        &mut self,
        counter: &mut HandleCounter,
        entry: Entry,
    ) -> Result<u32, HandleError>
        requires counted { held_count self.old.table ≤ counter.old.live }
        requires unlent { lends_of (Some entry) ≡ 0 }
        ensures step { DoesWithMemory (insert self.old.table counter.old entry)
            result self.old self.new counter.old counter.new }
        ensures spare { SparesOneLess result self.old.spare self.new.spare }
        ensures count { KeepsCount self.old.table self.new.table counter.old counter.new }
    {
        let index = self.table.insert(counter, entry)?;
        let _live = counter.live(); // the counter is below 2^64, and `held` isn't above it
        self.held += 1;
        Ok(index)
    }

    /// No handle at an index that has one, which is not lent.
    pub(crate) fn remove(&mut self, counter: &mut HandleCounter, index: u32)
        requires counted { held_count self.old.table ≤ counter.old.live }
        requires unlent { IsUnlent (entry_at self.old.table index) }
        ensures table { self.new.table ≡ without self.old.table index }
        ensures counter { counter.new ≡ one_less counter.old }
        ensures spare { self.old.spare ≤ self.new.spare }
        ensures count { KeepsCount self.old.table self.new.table counter.old counter.new }
    {
        self.table.vacate(index);
        self.held -= 1;
        counter.take();
    }

    /// One lend more of an own handle, and one live handle more.
    pub(crate) fn lend(
        &mut self,
        counter: &mut HandleCounter,
        index: u32,
        resource: TypedResource,
        lend_count: u32,
    )
        requires counted { held_count self.old.table ≤ counter.old.live }
        requires own { entry_at self.old.table index ≡ Some (ResourceOwn resource lend_count) }
        requires few { lend_count < most_lends }
        requires below { is_at_limit counter.old ≡ false }
        ensures table { self.new.table ≡ with_entry self.old.table index (ResourceOwn resource (lend_count + 1)) }
        ensures counter { counter.new ≡ one_more counter.old }
        ensures spare { self.new.spare ≡ self.old.spare }
        ensures count { KeepsCount self.old.table self.new.table counter.old counter.new }
    {
        counter.add();
        self.table.write(
            index,
            Entry::ResourceOwn {
                resource,
                lend_count: lend_count + 1,
            },
        );
        self.held += 1;
    }

    /// One lend less of an own handle, and one live handle less.
    pub(crate) fn give_back(
        &mut self,
        counter: &mut HandleCounter,
        index: u32,
        resource: TypedResource,
        lend_count: u32,
    )
        requires counted { held_count self.old.table ≤ counter.old.live }
        requires own { entry_at self.old.table index ≡ Some (ResourceOwn resource lend_count) }
        requires lent { 0 < lend_count }
        ensures table { self.new.table ≡ with_entry self.old.table index (ResourceOwn resource (lend_count - 1)) }
        ensures counter { counter.new ≡ one_less counter.old }
        ensures spare { self.new.spare ≡ self.old.spare }
        ensures count { KeepsCount self.old.table self.new.table counter.old counter.new }
    {
        self.table.write(
            index,
            Entry::ResourceOwn {
                resource,
                lend_count: lend_count - 1,
            },
        );
        self.held -= 1;
        counter.take();
    }
}
