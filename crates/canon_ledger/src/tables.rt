//! The calls on resources.

ghost use Rattle.std.specs.Prelude.{◌≡◌, ◌<◌, ◌↔◌, IsTrue, length};
ghost use Rattle.canon_ledger.specs.Handles.{host_table};
ghost use Rattle.canon_ledger.specs.Places.{first_type, HasType, IsIndexPlaced, IsPlaced, SamePlaces, table_of_resource, table_of_index, type_table};
ghost use Rattle.canon_ledger.specs.Ledger.{Did, host_resource_lower_own, is_stale, resource_drop, resource_lift_borrow, resource_lift_own, resource_lower_borrow, resource_new, resource_rep, slot_at, validate_scope_exit};
ghost use Rattle.canon_ledger.specs.Books.{DidSurely, IsOpen, scope_number};
ghost use Rattle.canon_ledger.specs.Laws.{LedgerLaws};

use crate::fault::ResourceFault;
use crate::handles::number_of;
use crate::host::TableSlot;
use crate::index::HostResourceIndex;
use crate::known::KnownTypes;
use crate::ledger::Ledger;
use canon_abi::RuntimeInstance;
use canon_handles::{CurrentScope, TypedResource, TypedResourceIndex};
use canon_types::{InterfaceType, TypeResourceTableIndex};

/// The ledger as a call reaches it: with the types of the component, where there is one, and the
/// scope of the call that runs. That scope, where there is one, must be open (`Ledger::context`).
/// Where a call names a resource of a component, `types` must have its type
/// (`ComponentTypes::contains` of an own or a borrow of it), and the type's instance must be below
/// `Ledger::instances`; the handle is then one of that instance's table.
#[derive(Drop)]
pub struct ResourceTables<'a> {
    /// The ledger, which each call changes by one step.
    pub ledger: &'a mut Ledger,
    /// The types of the component, or none.
    pub types: KnownTypes<'a>,
    /// The scope of the call that runs, or none.
    pub current_scope: Option<CurrentScope>,
}

impl<'a> ResourceTables<'a> {
    /// The number of the current scope.
    fn scope(&self) -> Option<u64>
        ensures { result ≡ scope_number self.now.current_scope }
    {
        match self.current_scope {
            None => None,
            Some(CurrentScope::Id(scope)) => Some(number_of(scope)),
        }
    }

    /// The number of the table of a resource type: that of the instance which the type names.
    fn type_table(&self, ty: TypeResourceTableIndex) -> u32
        requires { HasType (first_type self.now.types.list.now) ty self.now.ledger.now }
        ensures number { result ≡ type_table (first_type self.now.types.list.now) ty }
        ensures within { result < length self.now.ledger.now.handles.tables }
    {
        let _instances = self.ledger.instances(); // the ledger has 257 tables
        let Some(types) = self.types.get() else {
            unreachable!()
        };
        types.resource_table(ty).instance.as_u32() + 1
    }

    /// The number of the table that keeps a resource.
    fn table_of(&self, resource: &TypedResource) -> u32
        requires { IsPlaced (first_type self.now.types.list.now) resource.now self.now.ledger.now }
        ensures number { result ≡ table_of_resource (first_type self.now.types.list.now) resource.now }
        ensures within { result < length self.now.ledger.now.handles.tables }
    {
        match resource {
            TypedResource::Host(_) => self.ledger.host_table(),
            TypedResource::Component { ty, .. } => self.type_table(*ty),
        }
    }

    /// The number of the table that an index is one of.
    fn table_of_index(&self, index: &TypedResourceIndex) -> u32
        requires { IsIndexPlaced (first_type self.now.types.list.now) index.now self.now.ledger.now }
        ensures number { result ≡ table_of_index (first_type self.now.types.list.now) index.now }
        ensures within { result < length self.now.ledger.now.handles.tables }
    {
        match index {
            TypedResourceIndex::Host(_) => self.ledger.host_table(),
            TypedResourceIndex::Component { ty, .. } => self.type_table(*ty),
        }
    }

    /// What holds of the ledger, as of every other. It does nothing.
    pub fn laws(&self)
        ensures { LedgerLaws self.now.ledger.now }
    {
        self.ledger.laws();
    }

    /// Whether a resource type is known here, and its instance is one of the ledger's: the condition
    /// of each call that names a resource of this type.
    pub fn has_type(&self, ty: TypeResourceTableIndex) -> bool
        ensures { IsTrue result ↔ HasType (first_type self.now.types.list.now) ty self.now.ledger.now }
    {
        let instances = self.ledger.instances();
        let Some(types) = self.types.get() else {
            return false;
        };
        types.contains(&InterfaceType::Own(ty))
            && types.resource_table(ty).instance.as_u32() < instances
    }

    /// Whether an index of the host's table was given again since.
    pub(crate) fn is_stale(&self, index: &HostResourceIndex) -> bool
        ensures { result ≡ is_stale self.now.ledger.now.host index.now }
    {
        self.ledger.is_stale(index)
    }

    /// What the host keeps of an index of its table.
    pub(crate) fn slot(&self, index: u32) -> Option<TableSlot>
        ensures { result ≡ slot_at self.now.ledger.now.host index }
    {
        self.ledger.slot(index)
    }

    /// The generation in which the next index of the host's table is given.
    pub(crate) fn generation(&self) -> u32
        ensures { result ≡ self.now.ledger.now.host.generation }
    {
        self.ledger.generation()
    }

    /// A new own handle of the host, with what the host keeps of its index.
    #[tactic(auto, using(crate::proofs::HoldsLemmas::same_host_lower_own))]
    pub(crate) fn host_lower_own(
        &mut self,
        rep: u32,
        dtor: Option<u32>,
        instance: Option<RuntimeInstance>,
    ) -> Result<u32, ResourceFault>
        ensures same_reference { self.new.ledger.ghost_name ≡ self.old.ledger.ghost_name }
        ensures same_types { self.new.types ≡ self.old.types }
        ensures same_scope { self.new.current_scope ≡ self.old.current_scope }
        ensures step { Did (host_resource_lower_own self.old.ledger.now rep dtor instance) result self.old.ledger.now self.new.ledger.now }
        ensures places { SamePlaces self.old.ledger.now self.new.ledger.now }
    {
        self.ledger.host_lower_own(rep, dtor, instance)
    }

    /// `canon resource.new`: a new own handle.
    #[tactic(auto, using(crate::proofs::HoldsLemmas::same_new))]
    pub fn resource_new(&mut self, resource: TypedResource) -> Result<u32, ResourceFault>
        requires scope_open { IsOpen self.old.current_scope self.old.ledger.now }
        requires placed { IsPlaced (first_type self.old.types.list.now) resource self.old.ledger.now }
        ensures same_reference { self.new.ledger.ghost_name ≡ self.old.ledger.ghost_name }
        ensures same_types { self.new.types ≡ self.old.types }
        ensures same_scope { self.new.current_scope ≡ self.old.current_scope }
        ensures step { Did (resource_new self.old.ledger.now (table_of_resource (first_type self.old.types.list.now) resource) resource) result self.old.ledger.now self.new.ledger.now }
        ensures places { SamePlaces self.old.ledger.now self.new.ledger.now }
    {
        let table = self.table_of(&resource);
        self.ledger.new_at(table, resource)
    }

    /// `lower_own` of the Canonical ABI: a new own handle.
    #[tactic(auto, using(crate::proofs::HoldsLemmas::same_new))]
    pub fn resource_lower_own(&mut self, resource: TypedResource) -> Result<u32, ResourceFault>
        requires scope_open { IsOpen self.old.current_scope self.old.ledger.now }
        requires placed { IsPlaced (first_type self.old.types.list.now) resource self.old.ledger.now }
        ensures same_reference { self.new.ledger.ghost_name ≡ self.old.ledger.ghost_name }
        ensures same_types { self.new.types ≡ self.old.types }
        ensures same_scope { self.new.current_scope ≡ self.old.current_scope }
        ensures step { Did (resource_new self.old.ledger.now (table_of_resource (first_type self.old.types.list.now) resource) resource) result self.old.ledger.now self.new.ledger.now }
        ensures places { SamePlaces self.old.ledger.now self.new.ledger.now }
    {
        let table = self.table_of(&resource);
        self.ledger.new_at(table, resource)
    }

    /// `canon resource.rep`: the representation of a handle.
    pub fn resource_rep(&mut self, index: TypedResourceIndex) -> Result<u32, ResourceFault>
        requires scope_open { IsOpen self.old.current_scope self.old.ledger.now }
        requires placed { IsIndexPlaced (first_type self.old.types.list.now) index self.old.ledger.now }
        ensures same_reference { self.new.ledger.ghost_name ≡ self.old.ledger.ghost_name }
        ensures same_types { self.new.types ≡ self.old.types }
        ensures same_scope { self.new.current_scope ≡ self.old.current_scope }
        ensures answer { result ≡ resource_rep self.old.ledger.now (table_of_index (first_type self.old.types.list.now) index) index }
        ensures same_ledger { self.new.ledger.now ≡ self.old.ledger.now }
    {
        let table = self.table_of_index(&index);
        self.ledger.rep_at(table, index)
    }

    /// `canon resource.drop`, but for the destructor: removes a handle. Answers the representation of
    /// an own handle, whose destructor is to run, and nothing for a borrow handle.
    pub fn resource_drop(&mut self, index: TypedResourceIndex) -> Result<Option<u32>, ResourceFault>
        requires scope_open { IsOpen self.old.current_scope self.old.ledger.now }
        requires placed { IsIndexPlaced (first_type self.old.types.list.now) index self.old.ledger.now }
        ensures same_reference { self.new.ledger.ghost_name ≡ self.old.ledger.ghost_name }
        ensures same_types { self.new.types ≡ self.old.types }
        ensures same_scope { self.new.current_scope ≡ self.old.current_scope }
        ensures step { DidSurely (resource_drop self.old.ledger.now (table_of_index (first_type self.old.types.list.now) index) index) result self.new.ledger.now }
        ensures places { SamePlaces self.old.ledger.now self.new.ledger.now }
    {
        let table = self.table_of_index(&index);
        self.ledger.drop_at(table, index)
    }

    /// `lift_own` of the Canonical ABI: takes an own handle out. A borrow handle is refused and stays.
    pub fn resource_lift_own(&mut self, index: TypedResourceIndex) -> Result<u32, ResourceFault>
        requires scope_open { IsOpen self.old.current_scope self.old.ledger.now }
        requires placed { IsIndexPlaced (first_type self.old.types.list.now) index self.old.ledger.now }
        ensures same_reference { self.new.ledger.ghost_name ≡ self.old.ledger.ghost_name }
        ensures same_types { self.new.types ≡ self.old.types }
        ensures same_scope { self.new.current_scope ≡ self.old.current_scope }
        ensures step { DidSurely (resource_lift_own self.old.ledger.now (table_of_index (first_type self.old.types.list.now) index) index) result self.new.ledger.now }
        ensures places { SamePlaces self.old.ledger.now self.new.ledger.now }
    {
        let table = self.table_of_index(&index);
        self.ledger.lift_own_at(table, index)
    }

    /// `lift_borrow` of the Canonical ABI: the representation of a handle. An own handle is lent to
    /// the call of the current scope until that ends.
    pub fn resource_lift_borrow(&mut self, index: TypedResourceIndex) -> Result<u32, ResourceFault>
        requires scope_open { IsOpen self.old.current_scope self.old.ledger.now }
        requires placed { IsIndexPlaced (first_type self.old.types.list.now) index self.old.ledger.now }
        ensures same_reference { self.new.ledger.ghost_name ≡ self.old.ledger.ghost_name }
        ensures same_types { self.new.types ≡ self.old.types }
        ensures same_scope { self.new.current_scope ≡ self.old.current_scope }
        ensures step { Did (resource_lift_borrow (scope_number self.old.current_scope) self.old.ledger.now (table_of_index (first_type self.old.types.list.now) index) index) result self.old.ledger.now self.new.ledger.now }
        ensures places { SamePlaces self.old.ledger.now self.new.ledger.now }
    {
        let table = self.table_of_index(&index);
        match self.scope() {
            None => self.ledger.lift_borrow_in_none(table, index),
            Some(number) => self.ledger.lift_borrow_at(table, index, number),
        }
    }

    /// `lower_borrow` of the Canonical ABI: a new borrow handle, which the call of the current scope
    /// must drop before it ends.
    #[tactic(auto, using(crate::proofs::HoldsLemmas::same_lower_borrow))]
    pub fn resource_lower_borrow(&mut self, resource: TypedResource) -> Result<u32, ResourceFault>
        requires scope_open { IsOpen self.old.current_scope self.old.ledger.now }
        requires placed { IsPlaced (first_type self.old.types.list.now) resource self.old.ledger.now }
        ensures same_reference { self.new.ledger.ghost_name ≡ self.old.ledger.ghost_name }
        ensures same_types { self.new.types ≡ self.old.types }
        ensures same_scope { self.new.current_scope ≡ self.old.current_scope }
        ensures step { Did (resource_lower_borrow (scope_number self.old.current_scope) self.old.ledger.now (table_of_resource (first_type self.old.types.list.now) resource) resource) result self.old.ledger.now self.new.ledger.now }
        ensures places { SamePlaces self.old.ledger.now self.new.ledger.now }
    {
        let table = self.table_of(&resource);
        match self.scope() {
            None => Err(ResourceFault::NoScope),
            Some(number) => self.ledger.lower_borrow_at(table, resource, number),
        }
    }

    /// The end of the call of the current scope: its borrow handles must have been dropped, and what
    /// was lent to it is given back.
    pub fn validate_scope_exit(&mut self) -> Result<(), ResourceFault>
        requires scope_open { IsOpen self.old.current_scope self.old.ledger.now }
        ensures same_reference { self.new.ledger.ghost_name ≡ self.old.ledger.ghost_name }
        ensures same_types { self.new.types ≡ self.old.types }
        ensures same_scope { self.new.current_scope ≡ self.old.current_scope }
        ensures step { DidSurely (validate_scope_exit (scope_number self.old.current_scope) self.old.ledger.now) result self.new.ledger.now }
        ensures places { SamePlaces self.old.ledger.now self.new.ledger.now }
    {
        match self.scope() {
            None => Err(ResourceFault::NoScope),
            Some(number) => self.ledger.exit(number),
        }
    }
}
