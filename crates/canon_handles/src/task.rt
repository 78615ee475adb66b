//! The calls on error contexts, subtasks and waitable sets.

ghost use Rattle.std.specs.Prelude.{◌≡◌, ◌≤◌, ◌+◌, OnOk};
ghost use Rattle.canon_handles.specs.Table.{lookup_entry, Does, DoesWithMemory, SparesOneLess};
ghost use Rattle.canon_handles.specs.Calls.{held_count, IsUnlent, KeepsCount, read_error_context, read_subtask, read_waitable_set, read_waitable, error_context_insert, error_context_rep, error_context_drop, subtask_insert_guest, subtask_insert_host, subtask_rep, subtask_remove, waitable_set_insert, waitable_set_rep, waitable_set_remove, waitable_rep};

use crate::counter::HandleCounter;
use crate::error::HandleError;
use crate::handle::{Entry, Waitable};
use crate::handle_table::HandleTable;

impl HandleTable {
    /// A new error context.
    pub fn error_context_insert(
        &mut self,
        counter: &mut HandleCounter,
        rep: u32,
    ) -> Result<u32, HandleError>
        requires { held_count self.old.table ≤ counter.old.live }
        ensures step { DoesWithMemory (error_context_insert self.old.table counter.old rep)
            result self.old self.new counter.old counter.new }
        ensures spare { SparesOneLess result self.old.spare self.new.spare }
        ensures count { KeepsCount self.old.table self.new.table counter.old counter.new }
    {
        self.insert(counter, Entry::ErrorContext { rep })
    }

    /// The representation of an error context.
    pub fn error_context_rep(&self, idx: u32) -> Result<u32, HandleError>
        ensures { result ≡ error_context_rep self.now.table idx }
    {
        error_context_from(self.entry(idx))
    }

    /// Removes an error context. Answers its representation.
    pub fn error_context_drop(
        &mut self,
        counter: &mut HandleCounter,
        idx: u32,
    ) -> Result<u32, HandleError>
        requires { held_count self.old.table ≤ counter.old.live }
        ensures step { Does (error_context_drop self.old.table counter.old idx)
            result self.old self.new counter.old counter.new }
        ensures spare { self.old.spare ≤ self.new.spare }
        ensures count { KeepsCount self.old.table self.new.table counter.old counter.new }
    {
        let removed = error_context_from(self.entry(idx))?;
        self.remove(counter, idx);
        Ok(removed)
    }

    /// A new subtask of a guest.
    pub fn subtask_insert_guest(
        &mut self,
        counter: &mut HandleCounter,
        rep: u32,
    ) -> Result<u32, HandleError>
        requires { held_count self.old.table ≤ counter.old.live }
        ensures step { DoesWithMemory (subtask_insert_guest self.old.table counter.old rep)
            result self.old self.new counter.old counter.new }
        ensures spare { SparesOneLess result self.old.spare self.new.spare }
        ensures count { KeepsCount self.old.table self.new.table counter.old counter.new }
    {
        self.insert(
            counter,
            Entry::Subtask {
                rep,
                is_host: false,
            },
        )
    }

    /// A new subtask of the host.
    pub fn subtask_insert_host(
        &mut self,
        counter: &mut HandleCounter,
        rep: u32,
    ) -> Result<u32, HandleError>
        requires { held_count self.old.table ≤ counter.old.live }
        ensures step { DoesWithMemory (subtask_insert_host self.old.table counter.old rep)
            result self.old self.new counter.old counter.new }
        ensures spare { SparesOneLess result self.old.spare self.new.spare }
        ensures count { KeepsCount self.old.table self.new.table counter.old counter.new }
    {
        self.insert(counter, Entry::Subtask { rep, is_host: true })
    }

    /// The representation of a subtask, and whether it is the host's.
    pub fn subtask_rep(&self, idx: u32) -> Result<(u32, bool), HandleError>
        ensures { result ≡ subtask_rep self.now.table idx }
    {
        subtask_from(self.entry(idx))
    }

    /// Removes a subtask. Answers its representation, and whether it was the host's.
    pub fn subtask_remove(
        &mut self,
        counter: &mut HandleCounter,
        idx: u32,
    ) -> Result<(u32, bool), HandleError>
        requires { held_count self.old.table ≤ counter.old.live }
        ensures step { Does (subtask_remove self.old.table counter.old idx)
            result self.old self.new counter.old counter.new }
        ensures spare { self.old.spare ≤ self.new.spare }
        ensures count { KeepsCount self.old.table self.new.table counter.old counter.new }
    {
        let removed = subtask_from(self.entry(idx))?;
        self.remove(counter, idx);
        Ok(removed)
    }

    /// A new waitable set.
    pub fn waitable_set_insert(
        &mut self,
        counter: &mut HandleCounter,
        rep: u32,
    ) -> Result<u32, HandleError>
        requires { held_count self.old.table ≤ counter.old.live }
        ensures step { DoesWithMemory (waitable_set_insert self.old.table counter.old rep)
            result self.old self.new counter.old counter.new }
        ensures spare { SparesOneLess result self.old.spare self.new.spare }
        ensures count { KeepsCount self.old.table self.new.table counter.old counter.new }
    {
        self.insert(counter, Entry::WaitableSet { rep })
    }

    /// The representation of a waitable set.
    pub fn waitable_set_rep(&self, idx: u32) -> Result<u32, HandleError>
        ensures { result ≡ waitable_set_rep self.now.table idx }
    {
        waitable_set_from(self.entry(idx))
    }

    /// Removes a waitable set. Answers its representation.
    pub fn waitable_set_remove(
        &mut self,
        counter: &mut HandleCounter,
        idx: u32,
    ) -> Result<u32, HandleError>
        requires { held_count self.old.table ≤ counter.old.live }
        ensures step { Does (waitable_set_remove self.old.table counter.old idx)
            result self.old self.new counter.old counter.new }
        ensures spare { self.old.spare ≤ self.new.spare }
        ensures count { KeepsCount self.old.table self.new.table counter.old counter.new }
    {
        let removed = waitable_set_from(self.entry(idx))?;
        self.remove(counter, idx);
        Ok(removed)
    }

    /// The representation of a handle that can be waited on, and its kind.
    pub fn waitable_rep(&self, idx: u32) -> Result<(u32, Waitable), HandleError>
        ensures { result ≡ waitable_rep self.now.table idx }
    {
        waitable_from(self.entry(idx))
    }
}

fn error_context_from(entry: Option<Entry>) -> Result<u32, HandleError>
    ensures read { result ≡ lookup_entry read_error_context entry }
    ensures unlent { OnOk result (IsUnlent entry) }
{
    match entry {
        None => Err(HandleError::UnknownHandle),
        Some(Entry::ErrorContext { rep }) => Ok(rep),
        Some(_) => Err(HandleError::WrongKind),
    }
}

fn subtask_from(entry: Option<Entry>) -> Result<(u32, bool), HandleError>
    ensures read { result ≡ lookup_entry read_subtask entry }
    ensures unlent { OnOk result (IsUnlent entry) }
{
    match entry {
        None => Err(HandleError::UnknownHandle),
        Some(Entry::Subtask { rep, is_host }) => Ok((rep, is_host)),
        Some(_) => Err(HandleError::WrongKind),
    }
}

fn waitable_set_from(entry: Option<Entry>) -> Result<u32, HandleError>
    ensures read { result ≡ lookup_entry read_waitable_set entry }
    ensures unlent { OnOk result (IsUnlent entry) }
{
    match entry {
        None => Err(HandleError::UnknownHandle),
        Some(Entry::WaitableSet { rep }) => Ok(rep),
        Some(_) => Err(HandleError::WrongKind),
    }
}

fn waitable_from(entry: Option<Entry>) -> Result<(u32, Waitable), HandleError>
    ensures { result ≡ lookup_entry read_waitable entry }
{
    match entry {
        None => Err(HandleError::UnknownHandle),
        Some(Entry::Subtask { rep, is_host }) => Ok((rep, Waitable::Subtask { is_host })),
        Some(Entry::Future { rep, .. }) => Ok((rep, Waitable::Future)),
        Some(Entry::Stream { rep, .. }) => Ok((rep, Waitable::Stream)),
        Some(_) => Err(HandleError::WrongKind),
    }
}
