//! The table of a component instance's threads.

ghost use Rattle.std.specs.Prelude.{◌≡◌, ◌≤◌, ◌+◌};
ghost use Rattle.canon_handles.specs.Table.{max_handle, empty_table, entry_at, entry_count, Does, DoesWithMemory, SparesOneLess};
ghost use Rattle.canon_handles.specs.Calls.{guest_thread_insert, guest_thread_rep, guest_thread_remove};
ghost use Rattle.canon_handles.specs.Laws.{TableLaws};

use crate::counter::HandleCounter;
use crate::entry_table::EntryTable;
use crate::error::HandleError;
use crate::handle::GuestThread;
use crate::handle_table::MAX_HANDLE;
use std::alloc::Global;
use std::marker::Model;

/// A table of the threads of a component instance, by index. Its calls ask of the counter what
/// those of [`HandleTable`](crate::HandleTable) do.
#[derive(Drop)]
pub struct ThreadHandleTable {
    table: EntryTable<GuestThread>,
}

impl Model for ThreadHandleTable {
    ghost use Rattle.canon_handles.specs.Table.{TableState};
    ghost use Rattle.canon_handles.specs.declared.handle.GuestThread.{GuestThread};

    ghost Value = { TableState GuestThread };

    ghost view = { λ a. a.table };
}

impl ThreadHandleTable {
    /// An empty table, whose greatest index is the greatest that the Canonical ABI allows,
    /// 2^28 - 1.
    pub fn new(alloc: Global) -> Self
        ensures { result.table ≡ empty_table max_handle }
    {
        ThreadHandleTable {
            table: EntryTable::with_max_handle(alloc, MAX_HANDLE),
        }
    }

    /// What holds of this table, as of a [`HandleTable`](crate::HandleTable). It does nothing.
    pub fn laws(&self)
        ensures { TableLaws self.now.table }
    {
        self.table.laws();
    }

    /// The number of the table's threads.
    pub fn held(&self) -> u64
        ensures { result ≡ entry_count self.now.table }
    {
        u64::from(self.table.count())
    }

    /// A new guest thread.
    pub fn guest_thread_insert(
        &mut self,
        counter: &mut HandleCounter,
        rep: u32,
    ) -> Result<u32, HandleError>
        requires { entry_count self.old.table ≤ counter.old.live }
        ensures step { DoesWithMemory (guest_thread_insert self.old.table counter.old rep)
            result self.old self.new counter.old counter.new }
        ensures spare { SparesOneLess result self.old.spare self.new.spare }
        ensures count { entry_count self.new.table + counter.old.live ≡ entry_count self.old.table + counter.new.live }
    {
        self.table.insert(counter, GuestThread { rep })
    }

    /// The representation of a guest thread.
    pub fn guest_thread_rep(&self, idx: u32) -> Result<u32, HandleError>
        ensures { result ≡ guest_thread_rep self.now.table idx }
    {
        let Some(thread) = self.table.entry(idx) else {
            return Err(HandleError::UnknownHandle);
        };
        Ok(thread.rep)
    }

    /// Removes a guest thread. Answers its representation.
    pub fn guest_thread_remove(
        &mut self,
        counter: &mut HandleCounter,
        idx: u32,
    ) -> Result<u32, HandleError>
        requires { entry_count self.old.table ≤ counter.old.live }
        ensures step { Does (guest_thread_remove self.old.table counter.old idx)
            result self.old self.new counter.old counter.new }
        ensures spare { self.old.spare ≤ self.new.spare }
        ensures count { entry_count self.new.table + counter.old.live ≡ entry_count self.old.table + counter.new.live }
    {
        let Some(thread) = self.table.entry(idx) else {
            return Err(HandleError::UnknownHandle);
        };
        self.table.vacate(idx);
        counter.take();
        Ok(thread.rep)
    }
}
