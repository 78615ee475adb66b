//! The calls by which the host and lifted or lowered values move resources.

ghost use Rattle.std.specs.Prelude.{◌≡◌, ◌+◌, ◌*◌, ◌<◌, ◌↔◌, IsTrue, None, length};
ghost use Rattle.canon_handles.specs.declared.handle.TypedResource.TheVariants.{Component};
ghost use Rattle.canon_handles.specs.declared.handle.TypedResourceIndex.TheVariants.{Component as ComponentIndex};
ghost use Rattle.canon_ledger.specs.Places.{HasType, SamePlaces, type_table};
ghost use Rattle.canon_ledger.specs.Ledger as ledger;
ghost use Rattle.canon_ledger.specs.Ledger.{Did, drop_return, given, with_its_slot};
ghost use Rattle.canon_ledger.specs.Books.{DidSurely, IsOpen, scope_number};
ghost use Rattle.canon_ledger.specs.Laws.{LedgerLaws};

use crate::fault::ResourceFault;
use crate::host::TableSlot;
use crate::index::HostResourceIndex;
use crate::known::KnownTypes;
use crate::ledger::Ledger;
use crate::tables::ResourceTables;
use canon_abi::RuntimeInstance;
use canon_handles::{TypedResource, TypedResourceIndex};
use canon_types::TypeResourceTableIndex;

/// What `canon resource.drop` answers the guest for a removed handle: twice the representation, and
/// one, for an own handle, whose destructor is to run; 0 for a borrow handle.
pub fn resource_drop_ret(rep: Option<u32>) -> u64
    ensures { result ≡ drop_return rep }
{
    match rep {
        Some(rep) => 2 * (rep as u64) + 1,
        None => 0,
    }
}

/// A removed own handle's representation, with what the host keeps of its index.
fn with_its_slot(slot: Option<TableSlot>, rep: Option<u32>) -> Option<(u32, TableSlot)>
    ensures { result ≡ with_its_slot slot rep }
{
    match slot {
        Some(slot) => match rep {
            Some(rep) => Some((rep, slot)),
            None => None,
        },
        None => None,
    }
}

/// The resource tables as the host reaches them. The host names its handles by an index with a
/// generation, so that an index that was given again is kept apart from the one before. Who lends
/// them on in a struct of its own writes them out, since only then it is known what was left of the
/// ledger; a function of the host that is lent them must take the host's steps alone.
#[derive(Drop)]
pub struct HostResourceTables<'a> {
    /// The ledger, with the types and the scope that it is reached with.
    pub tables: ResourceTables<'a>,
}

impl<'a> HostResourceTables<'a> {
    ghost use Rattle.canon_ledger.specs.Reached.{known_in, ledger_in, reference_in, scope_in, types_in};

    /// The tables outside any call: with no types of a component and no scope.
    pub fn new_host(ledger: &'a mut Ledger) -> Self
        ensures same_reference { reference_in result ≡ ledger.entry.ghost_name }
        ensures same_ledger { ledger_in result ≡ ledger.old }
        ensures no_types { known_in result ≡ None }
        ensures no_scope { scope_in result ≡ None }
    {
        HostResourceTables {
            tables: ResourceTables {
                ledger,
                types: KnownTypes::none(),
                current_scope: None,
            },
        }
    }

    /// The tables of a call.
    pub fn from_parts(tables: ResourceTables<'a>) -> Self
        ensures same_reference { reference_in result ≡ tables.entry.ledger.ghost_name }
        ensures same_ledger { ledger_in result ≡ tables.entry.ledger.now }
        ensures same_types { types_in result ≡ tables.entry.types }
        ensures same_scope { scope_in result ≡ tables.entry.current_scope }
    {
        HostResourceTables { tables }
    }

    /// What holds of the ledger, as of every other: so of the host's indexes too, that one which is
    /// accepted has the generation of the slot that stands there. It does nothing.
    pub fn laws(&self)
        ensures { LedgerLaws (ledger_in self.now) }
    {
        self.tables.laws();
    }

    /// Whether a resource type is known here, and its instance is one of the ledger's: the condition
    /// of each call that names a resource of this type.
    pub fn has_type(&self, ty: TypeResourceTableIndex) -> bool
        ensures { IsTrue result ↔ HasType (known_in self.now) ty (ledger_in self.now) }
    {
        self.tables.has_type(ty)
    }

    /// Takes an own handle of the host out: its representation.
    pub fn host_resource_lift_own(&mut self, idx: HostResourceIndex) -> Result<u32, ResourceFault>
        requires scope_open { IsOpen (scope_in self.old) (ledger_in self.old) }
        ensures same_reference { reference_in self.new ≡ reference_in self.old }
        ensures same_types { types_in self.new ≡ types_in self.old }
        ensures same_scope { scope_in self.new ≡ scope_in self.old }
        ensures step { DidSurely (ledger.host_resource_lift_own (ledger_in self.old) idx) result (ledger_in self.new) }
        ensures places { SamePlaces (ledger_in self.old) (ledger_in self.new) }
    {
        if self.tables.is_stale(&idx) {
            return Err(ResourceFault::HostDeallocated);
        }
        self.tables
            .resource_lift_own(TypedResourceIndex::Host(idx.index()))
    }

    /// The representation of a handle of the host. An own handle is lent to the call of the current
    /// scope until that ends.
    pub fn host_resource_lift_borrow(
        &mut self,
        idx: HostResourceIndex,
    ) -> Result<u32, ResourceFault>
        requires scope_open { IsOpen (scope_in self.old) (ledger_in self.old) }
        ensures same_reference { reference_in self.new ≡ reference_in self.old }
        ensures same_types { types_in self.new ≡ types_in self.old }
        ensures same_scope { scope_in self.new ≡ scope_in self.old }
        ensures step { Did (ledger.host_resource_lift_borrow (scope_number (scope_in self.old)) (ledger_in self.old) idx) result (ledger_in self.old) (ledger_in self.new) }
        ensures places { SamePlaces (ledger_in self.old) (ledger_in self.new) }
    {
        if self.tables.is_stale(&idx) {
            return Err(ResourceFault::HostDeallocated);
        }
        self.tables
            .resource_lift_borrow(TypedResourceIndex::Host(idx.index()))
    }

    /// Removes a handle of the host. Answers the representation of an own handle with the slot of its
    /// index, and nothing for a borrow handle.
    pub fn host_resource_drop(
        &mut self,
        idx: HostResourceIndex,
    ) -> Result<Option<(u32, TableSlot)>, ResourceFault>
        requires scope_open { IsOpen (scope_in self.old) (ledger_in self.old) }
        ensures same_reference { reference_in self.new ≡ reference_in self.old }
        ensures same_types { types_in self.new ≡ types_in self.old }
        ensures same_scope { scope_in self.new ≡ scope_in self.old }
        ensures step { DidSurely (ledger.host_resource_drop (ledger_in self.old) idx) result (ledger_in self.new) }
        ensures places { SamePlaces (ledger_in self.old) (ledger_in self.new) }
    {
        if self.tables.is_stale(&idx) {
            return Err(ResourceFault::HostDeallocated);
        }
        let slot = self.tables.slot(idx.index());
        let rep = self
            .tables
            .resource_drop(TypedResourceIndex::Host(idx.index()))?;
        Ok(with_its_slot(slot, rep))
    }

    /// Removes a handle of the host and answers its representation, an own handle's or a borrow
    /// handle's. That it can be read is tested first, which changes nothing, the generation included.
    pub fn host_resource_remove(&mut self, idx: HostResourceIndex) -> Result<u32, ResourceFault>
        requires scope_open { IsOpen (scope_in self.old) (ledger_in self.old) }
        ensures same_reference { reference_in self.new ≡ reference_in self.old }
        ensures same_types { types_in self.new ≡ types_in self.old }
        ensures same_scope { scope_in self.new ≡ scope_in self.old }
        ensures step { DidSurely (ledger.host_resource_remove (ledger_in self.old) idx) result (ledger_in self.new) }
        ensures places { SamePlaces (ledger_in self.old) (ledger_in self.new) }
    {
        if self.tables.is_stale(&idx) {
            return Err(ResourceFault::HostDeallocated);
        }
        let rep = self
            .tables
            .resource_rep(TypedResourceIndex::Host(idx.index()))?;
        match self.host_resource_drop(idx) {
            Ok(_) => Ok(rep),
            Err(fault) => Err(fault),
        }
    }

    /// What the host keeps of an index; nothing where the index has no slot. Changes nothing.
    pub fn slot(&self, idx: HostResourceIndex) -> Result<Option<TableSlot>, ResourceFault>
        ensures { result ≡ ledger.slot (ledger_in self.now) idx }
    {
        if self.tables.is_stale(&idx) {
            return Err(ResourceFault::HostDeallocated);
        }
        Ok(self.tables.slot(idx.index()))
    }

    /// A new own handle of the host, with the destructor of its resource and the instance that has it.
    pub fn host_resource_lower_own(
        &mut self,
        rep: u32,
        dtor: Option<u32>,
        instance: Option<RuntimeInstance>,
    ) -> Result<HostResourceIndex, ResourceFault>
        requires scope_open { IsOpen (scope_in self.old) (ledger_in self.old) }
        ensures same_reference { reference_in self.new ≡ reference_in self.old }
        ensures same_types { types_in self.new ≡ types_in self.old }
        ensures same_scope { scope_in self.new ≡ scope_in self.old }
        ensures step { Did (given (ledger_in self.old) (ledger.host_resource_lower_own (ledger_in self.old) rep dtor instance)) result (ledger_in self.old) (ledger_in self.new) }
        ensures places { SamePlaces (ledger_in self.old) (ledger_in self.new) }
    {
        let generation = self.tables.generation();
        let index = self.tables.host_lower_own(rep, dtor, instance)?;
        Ok(HostResourceIndex::new(index, generation))
    }

    /// A new borrow handle of the host, which must be dropped before the call of the current scope
    /// ends.
    pub fn host_resource_lower_borrow(
        &mut self,
        rep: u32,
    ) -> Result<HostResourceIndex, ResourceFault>
        requires scope_open { IsOpen (scope_in self.old) (ledger_in self.old) }
        ensures same_reference { reference_in self.new ≡ reference_in self.old }
        ensures same_types { types_in self.new ≡ types_in self.old }
        ensures same_scope { scope_in self.new ≡ scope_in self.old }
        ensures step { Did (given (ledger_in self.old) (ledger.host_resource_lower_borrow (scope_number (scope_in self.old)) (ledger_in self.old) rep)) result (ledger_in self.old) (ledger_in self.new) }
        ensures places { SamePlaces (ledger_in self.old) (ledger_in self.new) }
    {
        let generation = self.tables.generation();
        let index = self.tables.resource_lower_borrow(TypedResource::Host(rep))?;
        Ok(HostResourceIndex::new(index, generation))
    }

    /// A new own handle of a component's type, in the table of its instance.
    pub fn guest_resource_lower_own(
        &mut self,
        rep: u32,
        ty: TypeResourceTableIndex,
    ) -> Result<u32, ResourceFault>
        requires scope_open { IsOpen (scope_in self.old) (ledger_in self.old) }
        requires known { HasType (known_in self.old) ty (ledger_in self.old) }
        ensures same_reference { reference_in self.new ≡ reference_in self.old }
        ensures same_types { types_in self.new ≡ types_in self.old }
        ensures same_scope { scope_in self.new ≡ scope_in self.old }
        ensures step { Did (ledger.resource_new (ledger_in self.old) (type_table (known_in self.old) ty) (Component ty rep)) result (ledger_in self.old) (ledger_in self.new) }
        ensures places { SamePlaces (ledger_in self.old) (ledger_in self.new) }
    {
        self.tables
            .resource_lower_own(TypedResource::Component { ty, rep })
    }

    /// A new borrow handle of a component's type, which must be dropped before the call of the current
    /// scope ends.
    pub fn guest_resource_lower_borrow(
        &mut self,
        rep: u32,
        ty: TypeResourceTableIndex,
    ) -> Result<u32, ResourceFault>
        requires scope_open { IsOpen (scope_in self.old) (ledger_in self.old) }
        requires known { HasType (known_in self.old) ty (ledger_in self.old) }
        ensures same_reference { reference_in self.new ≡ reference_in self.old }
        ensures same_types { types_in self.new ≡ types_in self.old }
        ensures same_scope { scope_in self.new ≡ scope_in self.old }
        ensures step { Did (ledger.resource_lower_borrow (scope_number (scope_in self.old)) (ledger_in self.old) (type_table (known_in self.old) ty) (Component ty rep)) result (ledger_in self.old) (ledger_in self.new) }
        ensures places { SamePlaces (ledger_in self.old) (ledger_in self.new) }
    {
        self.tables
            .resource_lower_borrow(TypedResource::Component { ty, rep })
    }

    /// Takes an own handle of a component's type out: its representation.
    pub fn guest_resource_lift_own(
        &mut self,
        index: u32,
        ty: TypeResourceTableIndex,
    ) -> Result<u32, ResourceFault>
        requires scope_open { IsOpen (scope_in self.old) (ledger_in self.old) }
        requires known { HasType (known_in self.old) ty (ledger_in self.old) }
        ensures same_reference { reference_in self.new ≡ reference_in self.old }
        ensures same_types { types_in self.new ≡ types_in self.old }
        ensures same_scope { scope_in self.new ≡ scope_in self.old }
        ensures step { DidSurely (ledger.resource_lift_own (ledger_in self.old) (type_table (known_in self.old) ty) (ComponentIndex ty index)) result (ledger_in self.new) }
        ensures places { SamePlaces (ledger_in self.old) (ledger_in self.new) }
    {
        self.tables
            .resource_lift_own(TypedResourceIndex::Component { ty, index })
    }

    /// The representation of a handle of a component's type. An own handle is lent to the call of the
    /// current scope until that ends.
    pub fn guest_resource_lift_borrow(
        &mut self,
        index: u32,
        ty: TypeResourceTableIndex,
    ) -> Result<u32, ResourceFault>
        requires scope_open { IsOpen (scope_in self.old) (ledger_in self.old) }
        requires known { HasType (known_in self.old) ty (ledger_in self.old) }
        ensures same_reference { reference_in self.new ≡ reference_in self.old }
        ensures same_types { types_in self.new ≡ types_in self.old }
        ensures same_scope { scope_in self.new ≡ scope_in self.old }
        ensures step { Did (ledger.resource_lift_borrow (scope_number (scope_in self.old)) (ledger_in self.old) (type_table (known_in self.old) ty) (ComponentIndex ty index)) result (ledger_in self.old) (ledger_in self.new) }
        ensures places { SamePlaces (ledger_in self.old) (ledger_in self.new) }
    {
        self.tables
            .resource_lift_borrow(TypedResourceIndex::Component { ty, index })
    }

    /// The end of the call of the current scope: its borrow handles must have been dropped, and what
    /// was lent to it is given back.
    pub fn validate_scope_exit(&mut self) -> Result<(), ResourceFault>
        requires scope_open { IsOpen (scope_in self.old) (ledger_in self.old) }
        ensures same_reference { reference_in self.new ≡ reference_in self.old }
        ensures same_types { types_in self.new ≡ types_in self.old }
        ensures same_scope { scope_in self.new ≡ scope_in self.old }
        ensures step { DidSurely (ledger.validate_scope_exit (scope_number (scope_in self.old)) (ledger_in self.old)) result (ledger_in self.new) }
        ensures places { SamePlaces (ledger_in self.old) (ledger_in self.new) }
    {
        self.tables.validate_scope_exit()
    }
}
