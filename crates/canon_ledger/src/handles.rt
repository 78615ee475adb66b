//! The handle tables of a store, their counter and the open scopes.

ghost use Rattle.std.specs.Prelude.{◌≡◌, ◌<◌, ◌≤◌, ◌+◌, OnErr, OnOk, length, map, List, Some, ℕ, [], ◌++◌, ◌∷◌, take, ◌-◌, slice_index_or};
ghost use Rattle.canon_handles.specs.Table.{Table, entry_at};
ghost use Rattle.canon_ledger.specs.Handles as handles;
ghost use Rattle.canon_ledger.specs.Handles.{fault_at, at_index, give_back, no_scope, table_at, OpenScope, IsConsistent, Takes, TakesSurely, number_of, scope_at, inserting_borrow, lending, names_borrow, removing_resource};
ghost use Rattle.canon_ledger.specs.Books.{Context, handles_of};
ghost use Rattle.canon_ledger.specs.Owed.{IsOwed};

use crate::context::CallContext;
use crate::fault::ResourceFault;
use canon_abi::OutOfMemory;
use canon_handles::{
    HandleCounter, HandleError, HandleTable, RemovedResource, Scope, TypedResource,
    TypedResourceIndex,
};

/// The handle tables of a store, the host's first and then that of each instance, their counter,
/// and the open scopes, the current one last.
#[derive(Drop)]
pub(crate) struct StoreHandles {
    pub(crate) tables: Vec<HandleTable>,
    pub(crate) counter: HandleCounter,
    pub(crate) scopes: Vec<CallContext>,
}

/// The fault of a refused call on a table, at an index of it.
fn fault_of(index: u32, error: HandleError) -> ResourceFault
    ensures { result ≡ fault_at index error }
{
    match error {
        HandleError::UnknownHandle => ResourceFault::UnknownHandle(index),
        HandleError::ResourceTypeMismatch => ResourceFault::ResourceTypeMismatch,
        HandleError::StillLent => ResourceFault::StillLent(index),
        HandleError::TooManyLends => ResourceFault::TooManyLends(index),
        HandleError::HandleLimit => ResourceFault::HandleLimit,
        HandleError::IndexOverflow => ResourceFault::IndexOverflow,
        HandleError::OutOfMemory => ResourceFault::OutOfMemory,
        _ => ResourceFault::NotAResource(index),
    }
}

/// The answer of a call on a table, about an index of it.
fn at_index<T>(index: u32, answer: Result<T, HandleError>) -> Result<T, ResourceFault>
    ensures { result ≡ at_index index answer }
{
    match answer {
        Ok(value) => Ok(value),
        Err(error) => Err(fault_of(index, error)),
    }
}

/// The number of a scope.
pub(crate) fn number_of(scope: Scope) -> u64
    ensures { result ≡ number_of scope }
{
    match scope {
        Scope::Id(number) => number,
    }
}

impl StoreHandles {
    /// A new own handle.
    pub(crate) fn insert_own(
        &mut self,
        table: u32,
        resource: TypedResource,
    ) -> Result<u32, ResourceFault>
        requires within { table < length self.old.tables.items }
        requires sound { IsConsistent (handles_of self.old.tables.items self.old.counter self.old.scopes.items) }
        ensures { Takes (handles.resource_new (handles_of self.old.tables.items self.old.counter self.old.scopes.items) table resource) result
            (handles_of self.old.tables.items self.old.counter self.old.scopes.items) (handles_of self.new.tables.items self.new.counter self.new.scopes.items) }
    {
        let entries = &mut self.tables[table as usize];
        let answer = entries.resource_own_insert(&mut self.counter, resource);
        at_index(0, answer)
    }

    /// The representation of a handle.
    pub(crate) fn rep(&self, table: u32, index: TypedResourceIndex) -> Result<u32, ResourceFault>
        requires within { table < length self.now.tables.items }
        ensures { result ≡ handles.resource_rep (handles_of self.now.tables.items self.now.counter self.now.scopes.items) table index }
    {
        let raw = index.raw_index();
        at_index(raw, self.tables[table as usize].resource_rep(index))
    }

    /// A new borrow handle of the scope of this number.
    fn insert_entry(
        &mut self,
        table: u32,
        resource: TypedResource,
        number: u64,
    ) -> Result<u32, ResourceFault>
        requires within { table < length self.old.tables.items }
        requires sound { IsConsistent (handles_of self.old.tables.items self.old.counter self.old.scopes.items) }
        ensures step { Takes (inserting_borrow (handles_of self.old.tables.items self.old.counter self.old.scopes.items) table resource number) result (handles_of self.old.tables.items self.old.counter self.old.scopes.items) (handles_of self.new.tables.items self.new.counter self.new.scopes.items) }
        ensures scopes { self.new.scopes.items ≡ self.old.scopes.items }
    {
        let entries = &mut self.tables[table as usize];
        let scope = Scope::Id(number);
        let answer = entries.resource_borrow_insert(&mut self.counter, resource, scope);
        at_index(0, answer)
    }

    /// A new borrow handle, made in an open scope, which counts it once it stands.
    pub(crate) fn insert_borrow(
        &mut self,
        table: u32,
        resource: TypedResource,
        number: u64,
    ) -> Result<u32, ResourceFault>
        requires within { table < length self.old.tables.items }
        requires scope_open { number < length self.old.scopes.items }
        requires sound { IsConsistent (handles_of self.old.tables.items self.old.counter self.old.scopes.items) }
        ensures { Takes (handles.lower_borrow_in (Some number) (handles_of self.old.tables.items self.old.counter self.old.scopes.items) table resource)
            result (handles_of self.old.tables.items self.old.counter self.old.scopes.items)
            (handles_of self.new.tables.items self.new.counter self.new.scopes.items) }
    {
        let index = self.insert_entry(table, resource, number)?;
        let _live = self.counter.live(); // the counter is below 2^64
        self.scopes[number as usize].add_borrow();
        Ok(index)
    }

    /// Removes a handle.
    fn remove(
        &mut self,
        table: u32,
        index: TypedResourceIndex,
    ) -> Result<RemovedResource, ResourceFault>
        requires within { table < length self.old.tables.items }
        requires sound { IsConsistent (handles_of self.old.tables.items self.old.counter self.old.scopes.items) }
        ensures { TakesSurely (removing_resource (handles_of self.old.tables.items self.old.counter self.old.scopes.items) table index) result (handles_of self.old.tables.items self.old.counter self.old.scopes.items) (handles_of self.new.tables.items self.new.counter self.new.scopes.items) }
    {
        let raw = index.raw_index();
        let entries = &mut self.tables[table as usize];
        let answer = entries.remove_resource(&mut self.counter, index);
        at_index(raw, answer)
    }

    /// One borrow handle less in a scope.
    fn drop_borrow(&mut self, scope: Scope)
        requires scope_open { number_of scope < length self.old.scopes.items }
        requires counted { 0 < (scope_at (handles_of self.old.tables.items self.old.counter self.old.scopes.items) (number_of scope)).borrow_count }
        ensures { (handles_of self.new.tables.items self.new.counter self.new.scopes.items) ≡ handles.borrow_dropped (handles_of self.old.tables.items self.old.counter self.old.scopes.items) (number_of scope) }
    {
        let number = number_of(scope);
        self.scopes[number as usize].drop_borrow();
    }

    /// Drops a handle: gives the representation of an own handle.
    pub(crate) fn drop_handle(
        &mut self,
        table: u32,
        index: TypedResourceIndex,
    ) -> Result<Option<u32>, ResourceFault>
        requires within { table < length self.old.tables.items }
        requires sound { IsConsistent (handles_of self.old.tables.items self.old.counter self.old.scopes.items) }
        ensures { TakesSurely (handles.resource_drop (handles_of self.old.tables.items self.old.counter self.old.scopes.items) table index) result (handles_of self.old.tables.items self.old.counter self.old.scopes.items) (handles_of self.new.tables.items self.new.counter self.new.scopes.items) }
    {
        match self.remove(table, index)? {
            RemovedResource::Own { rep } => Ok(Some(rep)),
            RemovedResource::Borrow { scope } => {
                self.drop_borrow(scope);
                Ok(None)
            }
        }
    }

    /// Whether an index names a borrow handle of its type.
    fn is_borrow(&self, table: u32, index: &TypedResourceIndex) -> bool
        requires within { table < length self.now.tables.items }
        ensures { result ≡ names_borrow (handles_of self.now.tables.items self.now.counter self.now.scopes.items) table index.now }
    {
        let is_own = self.tables[table as usize].is_own(index.raw_index());
        self.rep(table, *index).is_ok() && !is_own
    }

    /// Takes an own handle out. A borrow handle stays.
    pub(crate) fn lift_own(
        &mut self,
        table: u32,
        index: TypedResourceIndex,
    ) -> Result<u32, ResourceFault>
        requires within { table < length self.old.tables.items }
        requires sound { IsConsistent (handles_of self.old.tables.items self.old.counter self.old.scopes.items) }
        ensures { TakesSurely (handles.resource_lift_own (handles_of self.old.tables.items self.old.counter self.old.scopes.items) table index) result (handles_of self.old.tables.items self.old.counter self.old.scopes.items) (handles_of self.new.tables.items self.new.counter self.new.scopes.items) }
    {
        let seen = &index;
        if self.is_borrow(table, seen) {
            return Err(ResourceFault::BorrowAsOwn);
        }
        match self.remove(table, *seen)? {
            RemovedResource::Own { rep } => Ok(rep),
            RemovedResource::Borrow { .. } => Err(ResourceFault::BorrowAsOwn),
        }
    }

    /// Makes room for a lender in an open scope.
    fn reserve_lender(&mut self, number: u64) -> Result<(), OutOfMemory>
        requires { number < length self.old.scopes.items }
        ensures same { (handles_of self.new.tables.items self.new.counter self.new.scopes.items) ≡ (handles_of self.old.tables.items self.old.counter self.old.scopes.items) }
        ensures tables { self.new.tables ≡ self.old.tables }
        ensures count { length self.new.scopes.items ≡ length self.old.scopes.items }
        ensures room { OnOk result ((d : Context) → 0 < (slice_index_or self.new.scopes.items number d).room) }
    {
        self.scopes[number as usize].reserve()
    }

    /// The representation of a handle, and whether it is an own handle, which is then lent.
    fn lend_entry(
        &mut self,
        table: u32,
        index: TypedResourceIndex,
    ) -> Result<(u32, bool), ResourceFault>
        requires within { table < length self.old.tables.items }
        requires sound { IsConsistent (handles_of self.old.tables.items self.old.counter self.old.scopes.items) }
        ensures step { TakesSurely (lending (handles_of self.old.tables.items self.old.counter self.old.scopes.items) table index) result (handles_of self.old.tables.items self.old.counter self.old.scopes.items) (handles_of self.new.tables.items self.new.counter self.new.scopes.items) }
        ensures scopes { self.new.scopes.items ≡ self.old.scopes.items }
    {
        let raw = index.raw_index();
        let entries = &mut self.tables[table as usize];
        let answer = entries.resource_lend(&mut self.counter, index);
        at_index(raw, answer)
    }

    /// One lender more in an open scope that has room for it.
    fn add_lender(&mut self, number: u64, table: u32, index: TypedResourceIndex)
        requires scope_open { number < length self.old.scopes.items }
        requires room { (d : Context) → 0 < (slice_index_or self.old.scopes.items number d).room }
        ensures { (handles_of self.new.tables.items self.new.counter self.new.scopes.items) ≡ handles.lender_added (handles_of self.old.tables.items self.old.counter self.old.scopes.items) number (record { table = table; index = index }) }
    {
        self.scopes[number as usize].add_lender(table, index);
    }

    /// The representation of a handle. An own handle is lent to the call of an open scope, for
    /// whose lender room is made first.
    pub(crate) fn lend(
        &mut self,
        table: u32,
        index: TypedResourceIndex,
        number: u64,
    ) -> Result<u32, ResourceFault>
        requires within { table < length self.old.tables.items }
        requires scope_open { number < length self.old.scopes.items }
        requires sound { IsConsistent (handles_of self.old.tables.items self.old.counter self.old.scopes.items) }
        ensures { Takes (handles.lift_borrow_in (Some number) (handles_of self.old.tables.items self.old.counter self.old.scopes.items) table index)
            result (handles_of self.old.tables.items self.old.counter self.old.scopes.items)
            (handles_of self.new.tables.items self.new.counter self.new.scopes.items) }
    {
        let seen = &index;
        if self.reserve_lender(number).is_err() {
            return Err(ResourceFault::OutOfMemory);
        }
        let (rep, is_own) = self.lend_entry(table, *seen)?;
        if is_own {
            self.add_lender(number, table, *seen);
        }
        Ok(rep)
    }

    /// The representation of a handle where there is no scope, in which no own handle is lent.
    pub(crate) fn lend_in_none(
        &self,
        table: u32,
        index: TypedResourceIndex,
    ) -> Result<u32, ResourceFault>
        requires within { table < length self.now.tables.items }
        ensures { TakesSurely (handles.lift_borrow_in None (handles_of self.now.tables.items self.now.counter self.now.scopes.items) table index)
            result (handles_of self.now.tables.items self.now.counter self.now.scopes.items)
            (handles_of self.now.tables.items self.now.counter self.now.scopes.items) }
    {
        let seen = &index;
        let rep = self.rep(table, *seen)?;
        if self.tables[table as usize].is_own(seen.raw_index()) {
            return Err(ResourceFault::NoScope);
        }
        Ok(rep)
    }

    /// The end of the call of an open scope: its borrow handles must have been dropped, and its
    /// lends are given back.
    pub(crate) fn exit(&mut self, number: u64) -> Result<(), ResourceFault>
        requires scope_open { number < length self.old.scopes.items }
        requires sound { IsConsistent (handles_of self.old.tables.items self.old.counter self.old.scopes.items) }
        ensures { TakesSurely (handles.exit_scope (Some number) (handles_of self.old.tables.items self.old.counter self.old.scopes.items)) result (handles_of self.old.tables.items self.old.counter self.old.scopes.items) (handles_of self.new.tables.items self.new.counter self.new.scopes.items) }
    {
        let context = &mut self.scopes[number as usize];
        if context.borrow_count() != 0 {
            return Err(ResourceFault::BorrowsRemain);
        }
        give_back(&mut self.tables, &mut self.counter, context);
        context.clear_lenders();
        Ok(())
    }
}

/// Gives the lends of a scope back, each in the table in which it was found.
fn give_back(tables: &mut Vec<HandleTable>, counter: &mut HandleCounter, context: &CallContext)
    requires { IsOwed context.now.scope.lenders (handles_of tables.old.items counter.old []) }
    ensures { (scopes : List Context) → handles_of tables.new.items counter.new scopes ≡ give_back context.now.scope.lenders (handles_of tables.old.items counter.old scopes) }
{
    for place in 0..context.lender_count() {
        let (table, index) = context.lender(place);
        let entries = &mut tables[table as usize];
        let _answer = entries.resource_undo_lend(counter, index);
    }
}
