//! The calls on resource handles.

ghost use Rattle.std.specs.Prelude.{◌≡◌, ◌≤◌, ◌<◌, ◌+◌, Some, OnOk, true, false};
ghost use Rattle.canon_handles.specs.Table.{entry_at, with_entry, one_less, one_more, is_at_limit, lookup_entry, Does, DoesWithMemory, SparesOneLess};
ghost use Rattle.canon_handles.specs.Calls.{held_count, lends_of, is_own, IsUnlent, KeepsCount, most_lends, raw_index, read_rep, read_removed, resource_own_insert, resource_borrow_insert, handle_rep, resource_lend, resource_undo_lend, remove_resource};
ghost use Rattle.canon_handles.specs.declared.handle.Entry.TheVariants.{ResourceOwn};

use crate::counter::HandleCounter;
use crate::error::HandleError;
use crate::handle::{Entry, RemovedResource, Scope, TypedResource, TypedResourceIndex};
use crate::handle_table::HandleTable;

impl HandleTable {
    /// A new own handle.
    pub fn resource_own_insert(
        &mut self,
        counter: &mut HandleCounter,
        resource: TypedResource,
    ) -> Result<u32, HandleError>
        requires { held_count self.old.table ≤ counter.old.live }
        ensures step { DoesWithMemory (resource_own_insert self.old.table counter.old resource)
            result self.old self.new counter.old counter.new }
        ensures spare { SparesOneLess result self.old.spare self.new.spare }
        ensures count { KeepsCount self.old.table self.new.table counter.old counter.new }
    {
        self.insert(
            counter,
            Entry::ResourceOwn {
                resource,
                lend_count: 0,
            },
        )
    }

    /// A new borrow handle, made in a scope.
    pub fn resource_borrow_insert(
        &mut self,
        counter: &mut HandleCounter,
        resource: TypedResource,
        scope: Scope,
    ) -> Result<u32, HandleError>
        requires { held_count self.old.table ≤ counter.old.live }
        ensures step { DoesWithMemory (resource_borrow_insert self.old.table counter.old resource scope)
            result self.old self.new counter.old counter.new }
        ensures spare { SparesOneLess result self.old.spare self.new.spare }
        ensures count { KeepsCount self.old.table self.new.table counter.old counter.new }
    {
        self.insert(counter, Entry::ResourceBorrow { resource, scope })
    }

    /// The representation of a resource handle of this type.
    pub fn resource_rep(&self, idx: TypedResourceIndex) -> Result<u32, HandleError>
        ensures { result ≡ handle_rep self.now.table idx }
    {
        rep_from(idx, self.entry(idx.raw_index()))
    }

    /// The representation, and whether the handle is an own handle, which is then lent once more.
    pub fn resource_lend(
        &mut self,
        counter: &mut HandleCounter,
        idx: TypedResourceIndex,
    ) -> Result<(u32, bool), HandleError>
        requires { held_count self.old.table ≤ counter.old.live }
        ensures step { Does (resource_lend self.old.table counter.old idx)
            result self.old self.new counter.old counter.new }
        ensures spare { self.new.spare ≡ self.old.spare }
        ensures count { KeepsCount self.old.table self.new.table counter.old counter.new }
    {
        let index = idx.raw_index();
        match self.entry(index) {
            None => Err(HandleError::UnknownHandle),
            Some(
                Entry::ResourceOwn {
                    resource,
                    lend_count,
                },
            ) => {
                let rep = resource.rep(&idx)?;
                if lend_count == u32::MAX {
                    return Err(HandleError::TooManyLends);
                }
                if counter.is_at_limit() {
                    return Err(HandleError::HandleLimit);
                }
                self.lend(counter, index, resource, lend_count);
                Ok((rep, true))
            }
            Some(Entry::ResourceBorrow { resource, .. }) => {
                let rep = resource.rep(&idx)?;
                Ok((rep, false))
            }
            Some(_) => Err(HandleError::NotAResource),
        }
    }

    /// Gives back a lend of an own handle, whose lends must not be 0.
    pub fn resource_undo_lend(
        &mut self,
        counter: &mut HandleCounter,
        idx: TypedResourceIndex,
    ) -> Result<(), HandleError>
        requires counted { held_count self.old.table ≤ counter.old.live }
        requires lent { is_own (entry_at self.old.table (raw_index idx)) ≡ true → 0 < lends_of (entry_at self.old.table (raw_index idx)) }
        ensures step { Does (resource_undo_lend self.old.table counter.old idx)
            result self.old self.new counter.old counter.new }
        ensures spare { self.new.spare ≡ self.old.spare }
        ensures count { KeepsCount self.old.table self.new.table counter.old counter.new }
    {
        let index = idx.raw_index();
        match self.entry(index) {
            None => Err(HandleError::UnknownHandle),
            Some(
                Entry::ResourceOwn {
                    resource,
                    lend_count,
                },
            ) => {
                self.give_back(counter, index, resource, lend_count);
                Ok(())
            }
            Some(_) => Err(HandleError::NotAResource),
        }
    }

    /// Removes a resource handle of this type. An own handle that is lent is refused first.
    pub fn remove_resource(
        &mut self,
        counter: &mut HandleCounter,
        idx: TypedResourceIndex,
    ) -> Result<RemovedResource, HandleError>
        requires { held_count self.old.table ≤ counter.old.live }
        ensures step { Does (remove_resource self.old.table counter.old idx)
            result self.old self.new counter.old counter.new }
        ensures spare { self.old.spare ≤ self.new.spare }
        ensures count { KeepsCount self.old.table self.new.table counter.old counter.new }
    {
        let index = idx.raw_index();
        let removed = removed_from(idx, self.entry(index))?;
        self.remove(counter, index);
        Ok(removed)
    }
}

fn rep_from(idx: TypedResourceIndex, entry: Option<Entry>) -> Result<u32, HandleError>
    ensures { result ≡ lookup_entry (read_rep idx) entry }
{
    match entry {
        None => Err(HandleError::UnknownHandle),
        Some(Entry::ResourceOwn { resource, .. }) => resource.rep(&idx),
        Some(Entry::ResourceBorrow { resource, .. }) => resource.rep(&idx),
        Some(_) => Err(HandleError::NotAResource),
    }
}

fn removed_from(
    idx: TypedResourceIndex,
    entry: Option<Entry>,
) -> Result<RemovedResource, HandleError>
    ensures read { result ≡ lookup_entry (read_removed idx) entry }
    ensures unlent { OnOk result (IsUnlent entry) }
{
    match entry {
        None => Err(HandleError::UnknownHandle),
        Some(
            Entry::ResourceOwn {
                resource,
                lend_count,
            },
        ) => {
            if lend_count != 0 {
                return Err(HandleError::StillLent);
            }
            let rep = resource.rep(&idx)?;
            Ok(RemovedResource::Own { rep })
        }
        Some(Entry::ResourceBorrow { resource, scope }) => {
            let _rep = resource.rep(&idx)?;
            Ok(RemovedResource::Borrow { scope })
        }
        Some(_) => Err(HandleError::NotAResource),
    }
}
