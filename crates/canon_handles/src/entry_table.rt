//! A table over an ordered map of cells and a stack of free indexes.

ghost use Rattle.std.specs.Prelude.{◌≡◌, ◌≢◌, ◌≤◌, ◌<◌, ◌+◌, ◌==◌, ◌&&◌, ◌⊎◌, ℕ, OnOk, OnErr, IsOkAnd, None, Some, cond, is_some, true};
ghost use Rattle.std.specs.Borrow.{sem};
ghost use Rattle.std.specs.Vec.{vec_capacity};
ghost use Rattle.canon_handles.specs.Cells.{cell_at, WritesCell};
ghost use Rattle.canon_handles.specs.Laws.{TableLaws};
ghost use Rattle.canon_handles.specs.LendingTable.{LendsEntry};
ghost use Rattle.canon_handles.specs.Table.{max_handle, empty_table, entry_at, entry_count, fresh_index, insert, with_entry, without, IsFresh, DoesWithMemory, SparesOneLess};

use crate::counter::HandleCounter;
use crate::error::HandleError;
use canon_abi::OutOfMemory;
use std::alloc::Global;
use std::collections::BTreeMap;
use std::marker::Model;

/// A table of entries by index.
#[derive(Drop)]
pub(crate) struct EntryTable<E: Copy> {
    /// The greatest index given.
    greatest: u32,
    max: u32,
    /// Whether a vacant cell stands, at the index that the next insertion gives.
    vacant: bool,
    /// The entry at each index that has one, and `None` in the vacant cell.
    cells: BTreeMap<u32, Option<E>>,
    /// The indexes that were given and have no entry, the last freed last. There is room for every
    /// index given.
    free: Vec<u32>,
}

impl<E: Copy> Model for EntryTable<E> {
    ghost use Rattle.std.specs.Vec.{vec_capacity};
    ghost use Rattle.canon_handles.specs.Table.{TableState};
    ghost use Rattle.canon_handles.specs.Cells.{table_of, spare_of, IsStored};

    ghost Value = { TableState E };

    ghost view = { λ a. record { table = table_of a.greatest a.max a.cells.entries a.free.items; spare = spare_of a.vacant (table_of a.greatest a.max a.cells.entries a.free.items) } };

    ghost invariant = { λ a. IsStored a.greatest a.max a.vacant a.cells.entries a.free.items (vec_capacity a.free) };
}

impl<E: Copy> EntryTable<E> {
    /// An empty table, whose greatest index is `max`.
    pub(crate) fn with_max_handle(alloc: Global, max: u32) -> Self
        requires { max ≤ max_handle }
        ensures { result.table ≡ empty_table max }
    {
        EntryTable {
            greatest: 0,
            max,
            vacant: false,
            cells: BTreeMap::new(alloc),
            free: Vec::new(alloc),
        }
    }

    /// What holds of every table.
    pub(crate) fn laws(&self)
        ensures { TableLaws self.now.table }
    {
        let _greatest = self.greatest; // reading a field gives the table's invariant
    }

    /// How many entries there are.
    pub(crate) fn count(&self) -> u32
        ensures { result ≡ entry_count self.now.table }
    {
        self.greatest - self.free.len() as u32
    }

    /// The index that the next insertion gives, or one above the greatest allowed.
    fn fresh(&self) -> u32
        ensures { result ≡ fresh_index self.now.table }
    {
        match self.free.last() {
            Some(index) => *index,
            None => self.greatest + 1,
        }
    }

    /// Whether the next insertion needs no memory: it fills the vacant cell, or no index is left.
    fn has_spare(&self) -> bool
        ensures { result ≡ (self.now.spare == 1) }
    {
        self.vacant || self.fresh() > self.max
    }

    /// Makes room, so that the next insertion needs no memory.
    pub(crate) fn reserve(&mut self) -> Result<(), OutOfMemory>
        ensures table { self.new.table ≡ self.old.table }
        ensures spare { self.old.spare ≤ self.new.spare }
        ensures ok { OnOk result (0 < self.new.spare) }
        ensures err { OnErr result (self.old.spare ≡ 0) }
    {
        if self.has_spare() {
            return Ok(());
        }
        let index = self.fresh();
        put_cell(&mut self.cells, &mut self.free, index, None)?;
        self.vacant = true;
        Ok(())
    }

    /// What an index names.
    pub(crate) fn entry(&self, index: u32) -> Option<E>
        ensures { result ≡ entry_at self.now.table index }
    {
        let _greatest = self.greatest; // reading a field gives the table's invariant
        self.cells.get(&index).copied().flatten()
    }

    /// The entry at an index that has one, to be written.
    pub(crate) fn entry_mut(&mut self, index: u32) -> Result<&mut E, HandleError>
        requires { is_some (entry_at self.old.table index) ≡ true }
        ensures* lends { sem 𝓛 (LendsEntry E.row self.entry index result) }
        ensures entry { IsOkAnd result (λ e. entry_at self.old.table index ≡ Some e.now) }
    {
        let Some(cell) = self.cells.get_mut(&index) else {
            return Err(HandleError::UnknownHandle);
        };
        let Some(entry) = cell.as_mut() else {
            return Err(HandleError::UnknownHandle);
        };
        Ok(entry)
    }

    /// A new entry.
    pub(crate) fn insert(
        &mut self,
        counter: &mut HandleCounter,
        entry: E,
    ) -> Result<u32, HandleError>
        ensures step { DoesWithMemory (insert self.old.table counter.old entry)
            result self.old self.new counter.old counter.new }
        ensures spare { SparesOneLess result self.old.spare self.new.spare }
        ensures fresh { IsFresh self.old.table (fresh_index self.old.table) }
    {
        let index = self.fresh();
        if index > self.max {
            return Err(HandleError::IndexOverflow);
        }
        if counter.is_at_limit() {
            return Err(HandleError::HandleLimit);
        }
        if put_cell(&mut self.cells, &mut self.free, index, Some(entry)).is_err() {
            return Err(HandleError::OutOfMemory);
        }
        let _freed = self.free.pop();
        self.greatest = self.greatest.max(index);
        self.vacant = false;
        counter.add();
        Ok(index)
    }

    /// Another entry at an index that has one.
    pub(crate) fn write(&mut self, index: u32, entry: E)
        requires { is_some (entry_at self.old.table index) ≡ true }
        ensures table { self.new.table ≡ with_entry self.old.table index entry }
        ensures spare { self.new.spare ≡ self.old.spare }
    {
        if let Ok(place) = self.entry_mut(index) {
            *place = entry;
        }
    }

    /// No entry at an index that has one. It needs no memory.
    pub(crate) fn vacate(&mut self, index: u32)
        requires { is_some (entry_at self.old.table index) ≡ true }
        ensures table { self.new.table ≡ without self.old.table index }
        ensures spare { self.old.spare ≤ self.new.spare }
    {
        let keeps = self.has_spare();
        let next = self.fresh();
        empty_cell(&mut self.cells, index, next, keeps);
        let _pushed = self.free.push(index);
        self.vacant = keeps;
    }
}

// Puts a cell at an index, with room on the stack for that many indexes. Where both are there
// already, it needs no memory.
fn put_cell<E: Copy>(
    cells: &mut BTreeMap<u32, Option<E>>,
    free: &mut Vec<u32>,
    index: u32,
    cell: Option<E>,
) -> Result<(), OutOfMemory>
    ensures free { free.new.items ≡ free.old.items }
    ensures room { vec_capacity free.old ≤ vec_capacity free.new }
    ensures enough { OnOk result (index ≤ vec_capacity free.new) }
    ensures cells { OnOk result (WritesCell cells.old.entries cells.new.entries index (Some cell)) }
    ensures kept { OnErr result (cells.new.entries ≡ cells.old.entries) }
    ensures wanted { OnErr result ((vec_capacity free.old < index) ⊎ (cell_at cells.old.entries index ≡ None)) }
{
    let more = (index as usize).saturating_sub(free.len());
    if free.reserve(more).is_err() {
        return Err(OutOfMemory);
    }
    if cells.insert(index, cell).is_err() {
        return Err(OutOfMemory);
    }
    Ok(())
}

// Takes out the cell at an index. Where a vacant cell is to be kept, it is emptied instead, and the
// one at `next` is taken out.
fn empty_cell<E: Copy>(cells: &mut BTreeMap<u32, Option<E>>, index: u32, next: u32, keeps: bool)
    requires there { is_some (cell_at cells.old.entries index) ≡ true }
    requires other { next ≢ index }
    ensures { (q : ℕ) → cell_at cells.new.entries q
        ≡ cond (q == index) (cond keeps (Some None) None) (cond (keeps && (q == next)) None (cell_at cells.old.entries q)) }
{
    if !keeps {
        let _entry = cells.remove(&index);
        return;
    }
    let _vacant = cells.remove(&next);
    if let Some(cell) = cells.get_mut(&index) {
        *cell = None;
    }
}
