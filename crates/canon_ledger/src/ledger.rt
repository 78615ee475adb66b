//! The ledger of a store.

ghost use Rattle.std.specs.Prelude.{◌≡◌, ◌≤◌, ◌<◌, ◌+◌, ◌-◌, ◌∷◌, [], Some, None, IfOk, OnErr, length, true, false, MatchOption, slice_get, if◌then◌else◌, nat_lt, map, replicate, suc};
ghost use Rattle.canon_handles.specs.declared.handle.Scope.TheVariants.{Id};
ghost use Rattle.canon_ledger.specs.Handles as handles;
ghost use Rattle.canon_ledger.specs.Handles.{can_leave, host_table, number_of, scope_at, table_at, top_scope};
ghost use Rattle.canon_handles.specs.Table.{empty_table, max_handle};
ghost use Rattle.canon_handles.specs.Laws.{TableLaws};
ghost use Rattle.canon_ledger.specs.Laws.{LedgerLaws};
ghost use Rattle.canon_ledger.specs.Ledger.{Did, enter, host_resource_lower_own, is_stale, slot_at, leave, new_ledger, resource_drop, resource_lift_borrow, resource_lift_own, resource_lower_borrow, resource_new, resource_rep, set_limit, validate_scope_exit};
ghost use Rattle.canon_ledger.specs.Books.{scope_number, DidSurely, IsOpen};

use crate::context::CallContext;
use crate::fault::ResourceFault;
use crate::handles::{StoreHandles, number_of};
use crate::host::{HostResourceData, TableSlot};
use crate::index::HostResourceIndex;
use canon_abi::{OutOfMemory, RuntimeInstance};
use canon_handles::{
    CurrentScope, HandleCounter, HandleTable, Scope, TypedResource, TypedResourceIndex,
};
use std::alloc::Global;
use std::marker::Model;

/// The number of the instances that a store may have: an instance's number is below it.
const INSTANCES: u32 = 256;

/// The resources of a store: the handle table of the host and that of each instance, the one
/// counter of them all, what the host keeps of its indexes, and the open scopes.
///
/// The live handles are the entries of all tables and the lends. An own handle is lent as often as
/// it stands among the lenders of the open scopes. A scope counts the borrow handles that name it.
#[derive(Drop)]
pub struct Ledger {
    alloc: Global,
    handles: StoreHandles,
    host: HostResourceData,
}

impl Model for Ledger {
    ghost use Rattle.canon_ledger.specs.Ledger.{LedgerState};
    ghost use Rattle.canon_ledger.specs.Books.{ledger_of, Holds};

    ghost Value = { LedgerState };

    ghost view = { λ a. ledger_of a.handles.tables.items a.handles.counter a.handles.scopes.items a.host.indexes };

    ghost invariant = { λ a. Holds (ledger_of a.handles.tables.items a.handles.counter a.handles.scopes.items a.host.indexes) };
}

/// The host's table and those of the instances, each empty.
fn empty_tables(alloc: Global) -> Result<Vec<HandleTable>, OutOfMemory>
    ensures { IfOk result (λ tables. map (λ t. t.table) tables.items ≡ replicate 257 (empty_table max_handle)) }
{
    let count = INSTANCES as usize + 1;
    let mut tables = Vec::new(alloc);
    if tables.reserve(count).is_err() {
        return Err(OutOfMemory);
    }
    for _ in 0..count {
        tables.push_reserved(HandleTable::new(alloc));
    }
    Ok(tables)
}

impl Ledger {
    /// A ledger of 256 instances with empty tables, and of a host that has no slot yet.
    pub fn new(
        alloc: Global,
        handle_limit: u64,
        host: HostResourceData,
    ) -> Result<Ledger, OutOfMemory>
        requires fresh { host.indexes.slots ≡ None ∷ [] }
        ensures { IfOk result (λ l. l ≡ new_ledger 256 handle_limit host.indexes.generation) }
    {
        let tables = empty_tables(alloc)?;
        let handles = StoreHandles {
            tables,
            counter: HandleCounter::new(handle_limit),
            scopes: Vec::new(alloc),
        };
        Ok(Ledger {
            alloc,
            handles,
            host,
        })
    }

    /// What holds of this ledger, and of every other. The live handles are the entries of all tables
    /// and the lends; an own handle's lend count is the number of its lenders in open scopes; a
    /// scope's borrow count is the number of the borrow handles that name it; an index that the host
    /// may use has the generation of the slot that stands there. For a proof that cites it; it does
    /// nothing.
    pub fn laws(&self)
        ensures { LedgerLaws self.now }
    {
        let _generation = self.host.generation(); // at most the last one
    }

    /// What holds of one of its tables, the host's (0) or that of an instance. It does nothing.
    pub fn table_laws(&self, table: u32)
        requires { table < length self.now.handles.tables }
        ensures { TableLaws (table_at self.now.handles table) }
    {
        self.handles.tables[table as usize].laws();
    }

    /// The number of the instances, which is 256.
    pub fn instances(&self) -> u32
        ensures number { result ≡ 256 }
        ensures tables { length self.now.handles.tables ≡ 257 }
    {
        (self.handles.tables.len() - 1) as u32
    }

    /// The number of the live handles.
    pub fn live(&self) -> u64
        ensures { result ≡ self.now.handles.counter.live }
    {
        self.handles.counter.live()
    }

    /// Sets how many live handles there may be. A lower limit refuses nothing that exists.
    pub fn set_limit(&mut self, limit: u64)
        ensures { self.new ≡ set_limit self.old limit }
    {
        self.handles.counter.set_limit(limit);
    }

    /// Opens a scope, which is then the top one.
    pub fn enter(&mut self) -> Result<Scope, OutOfMemory>
        ensures ok { IfOk result (λ s. (s ≡ Id (length self.old.handles.scopes)) × (self.new ≡ enter self.old)) }
        ensures err { OnErr result (self.new ≡ self.old) }
    {
        let number = self.handles.scopes.len() as u64;
        let context = CallContext::new(self.alloc);
        if self.handles.scopes.reserve(1).is_err() {
            return Err(OutOfMemory);
        }
        self.handles.scopes.push_reserved(context);
        Ok(Scope::Id(number))
    }

    /// Closes the top scope, which must be open and empty.
    pub fn leave(&mut self)
        requires { can_leave self.old.handles ≡ true }
        ensures { self.new ≡ leave self.old }
    {
        let _context = self.handles.scopes.pop();
    }

    /// Whether a scope is open, and the top one is empty.
    pub fn can_leave(&self) -> bool
        ensures { result ≡ can_leave self.now.handles }
    {
        let count = self.handles.scopes.len();
        if count == 0 {
            return false;
        }
        self.handles.scopes[count - 1].is_empty()
    }

    /// The top open scope.
    pub fn current(&self) -> Option<CurrentScope>
        ensures top { scope_number result ≡ top_scope self.now.handles }
        ensures scope_open { IsOpen result self.now }
    {
        let count = self.handles.scopes.len() as u64;
        if count == 0 {
            return None;
        }
        Some(CurrentScope::Id(Scope::Id(count - 1)))
    }

    /// What is kept of a scope, and nothing where it isn't open.
    pub fn context(&self, s: Scope) -> Option<&CallContext>
        ensures { MatchOption result
            (nat_lt (number_of s) (length self.now.handles.scopes) ≡ false)
            (λ context. slice_get self.now.handles.scopes (number_of s) ≡ Some context.now.scope) }
    {
        self.handles.scopes.get(number_of(s) as usize)
    }

    /// The number of the host's table.
    pub fn host_table(&self) -> u32
        ensures number { result ≡ host_table }
        ensures within { result < length self.now.handles.tables }
    {
        let _count = self.handles.tables.len(); // there are 257 tables, by the ledger's invariant
        0
    }

    /// A new own handle in a table, the host's (0) or that of an instance.
    pub fn new_at(&mut self, table: u32, resource: TypedResource) -> Result<u32, ResourceFault>
        requires { table < length self.old.handles.tables }
        ensures { Did (resource_new self.old table resource) result self.old self.new }
    {
        if self.host.reserve_at(table).is_err() {
            return Err(ResourceFault::OutOfMemory);
        }
        let index = self.handles.insert_own(table, resource)?;
        self.host.write_at(table, index);
        Ok(index)
    }

    /// A new borrow handle of an open scope.
    pub fn lower_borrow_at(
        &mut self,
        table: u32,
        resource: TypedResource,
        number: u64,
    ) -> Result<u32, ResourceFault>
        requires within { table < length self.old.handles.tables }
        requires scope_open { number < length self.old.handles.scopes }
        ensures { Did (resource_lower_borrow (Some number) self.old table resource) result self.old self.new }
    {
        if self.host.reserve_at(table).is_err() {
            return Err(ResourceFault::OutOfMemory);
        }
        let index = self.handles.insert_borrow(table, resource, number)?;
        self.host.write_at(table, index);
        Ok(index)
    }

    /// The generation in which the next index of the host's table is given.
    pub fn generation(&self) -> u32
        ensures { result ≡ self.now.host.generation }
    {
        self.host.generation()
    }

    /// What the host keeps of an index of its table.
    pub fn slot(&self, index: u32) -> Option<TableSlot>
        ensures { result ≡ slot_at self.now.host index }
    {
        self.host.slot(index)
    }

    /// Whether an index of the host's table was given again since.
    pub fn is_stale(&self, index: &HostResourceIndex) -> bool
        ensures { result ≡ is_stale self.now.host index.now }
    {
        match self.slot(index.index()) {
            None => false,
            Some(slot) => slot.generation != index.generation(),
        }
    }

    /// A new own handle of the host, with what the host keeps of its index.
    pub fn host_lower_own(
        &mut self,
        rep: u32,
        dtor: Option<u32>,
        instance: Option<RuntimeInstance>,
    ) -> Result<u32, ResourceFault>
        ensures { Did (host_resource_lower_own self.old rep dtor instance) result self.old self.new }
    {
        if self.host.reserve().is_err() {
            return Err(ResourceFault::OutOfMemory);
        }
        let table = self.host_table();
        let index = self.handles.insert_own(table, TypedResource::Host(rep))?;
        self.host.write(index, instance, dtor);
        Ok(index)
    }

    /// The representation of a handle.
    pub fn rep_at(&self, table: u32, index: TypedResourceIndex) -> Result<u32, ResourceFault>
        requires { table < length self.now.handles.tables }
        ensures { result ≡ resource_rep self.now table index }
    {
        self.handles.rep(table, index)
    }

    /// Drops a handle: gives the representation of an own handle.
    pub fn drop_at(
        &mut self,
        table: u32,
        index: TypedResourceIndex,
    ) -> Result<Option<u32>, ResourceFault>
        requires { table < length self.old.handles.tables }
        ensures { DidSurely (resource_drop self.old table index) result self.new }
    {
        self.host.raise_at(table)?;
        self.handles.drop_handle(table, index)
    }

    /// Takes an own handle out.
    pub fn lift_own_at(
        &mut self,
        table: u32,
        index: TypedResourceIndex,
    ) -> Result<u32, ResourceFault>
        requires { table < length self.old.handles.tables }
        ensures { DidSurely (resource_lift_own self.old table index) result self.new }
    {
        self.host.raise_at(table)?;
        self.handles.lift_own(table, index)
    }

    /// The representation of a handle, which is lent to the call of an open scope.
    pub fn lift_borrow_at(
        &mut self,
        table: u32,
        index: TypedResourceIndex,
        number: u64,
    ) -> Result<u32, ResourceFault>
        requires within { table < length self.old.handles.tables }
        requires scope_open { number < length self.old.handles.scopes }
        ensures { Did (resource_lift_borrow (Some number) self.old table index) result self.old self.new }
    {
        self.handles.lend(table, index, number)
    }

    /// The representation of a handle where there is no scope.
    pub fn lift_borrow_in_none(
        &self,
        table: u32,
        index: TypedResourceIndex,
    ) -> Result<u32, ResourceFault>
        requires { table < length self.now.handles.tables }
        ensures { Did (resource_lift_borrow None self.now table index) result self.now self.now }
    {
        self.handles.lend_in_none(table, index)
    }

    /// The end of the call of an open scope.
    pub fn exit(&mut self, number: u64) -> Result<(), ResourceFault>
        requires { number < length self.old.handles.scopes }
        ensures { DidSurely (validate_scope_exit (Some number) self.old) result self.new }
    {
        self.handles.exit(number)
    }
}
