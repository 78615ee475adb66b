//! The handles of a core.

ghost use Rattle.std.specs.Prelude.{◌≡◌, ◌<◌, IfOk, MatchOption, OnErr, Some, false, length, nat_lt, slice_get, true};
ghost use Rattle.canon_handles.specs.declared.handle.Scope.TheVariants.{Id};
ghost use Rattle.canon_handles.specs.declared.handle.TypedResource.TheVariants.{Component};
ghost use Rattle.canon_handles.specs.declared.handle.TypedResourceIndex.TheVariants.{Component as ComponentIndex};
ghost use Rattle.canon_ledger.specs.Books.{DidSurely, IsOpen, scope_number};
ghost use Rattle.canon_ledger.specs.Handles.{can_leave, number_of, top_scope};
ghost use Rattle.canon_ledger.specs.Ledger as ledger;
ghost use Rattle.canon_ledger.specs.Ledger.{Did, given};
ghost use Rattle.canon_ledger.specs.Places.{HasType, SamePlaces};
ghost use Rattle.canon_model.specs.Leaves.{leaf};
ghost use Rattle.canon_types.specs.Table.{HasResource};
ghost use Rattle.canon_resources.specs.Parts as parts;
ghost use Rattle.canon_resources.specs.Parts.{LeafLifts, LeafMoves, lower_parts, passed};
ghost use Rattle.canon_context.specs.Core.{HasKnownType, SameButLedger, table_by, component_types};

use super::Core;
use canon_handles::{CurrentScope, Scope, TypedResource, TypedResourceIndex};
use canon_ledger::{
    CallContext, HostResourceIndex, HostResourceTables, KnownTypes, ResourceFault, ResourceTables,
    TableSlot,
};
use canon_resources::{ResourceAny, table_for};
use canon_types::{OutOfMemory, RuntimeInstance, TypeResourceTableIndex};

impl<T, G> Core<T, G> {
    ghost use Rattle.std.specs.Borrow.{sem};
    ghost use denote.Follow.{follows};
    ghost use Rattle.canon_context.specs.contracts.core_data.Core.{the_row};
    ghost use Rattle.canon_ledger.specs.contracts.ledger.Ledger as ledger_type;
    ghost use Rattle.canon_ledger.specs.Reached.{known_in, ledger_in, reference_in, scope_in};

    /// The resource tables as the host reaches them: the core's, with the component's types and the top open scope, where there
    /// is one. The core ends with the ledger that they leave.
    pub fn tables(&mut self) -> HostResourceTables<'_>
        ensures same_ledger { ledger_in result ≡ self.old.ledger }
        ensures same_types { known_in result ≡ Some (component_types self.old) }
        ensures top { scope_number (scope_in result) ≡ top_scope self.old.ledger.handles }
        ensures scope_open { IsOpen (scope_in result) (ledger_in result) }
        ensures* writes_back { sem 𝓛 (follows (the_row T.row G.row) ledger_type.the_row self.entry.ghost_name (reference_in result) (λ l. record self.old { ledger = l })) }
    {
        let Core {
            ref component,
            ref mut ledger,
            ..
        } = *self;
        let current_scope = ledger.current();
        HostResourceTables::from_parts(ResourceTables {
            ledger,
            types: KnownTypes::of(component.types.types()),
            current_scope,
        })
    }

    // A resource type of the component has its instance's table here.
    #[tactic(auto, using(crate::proofs::Handles::placed))]
    fn place(&self, ty: TypeResourceTableIndex)
        requires { HasResource (component_types self.now) ty }
        ensures { HasType (Some (component_types self.now)) ty self.now.ledger }
    {
        let _table = self.component.types.types().resource_table(ty); // its instance is below 256
        let _instances = self.ledger.instances(); // the ledger has 257 tables
    }

    /// Lowers an own handle of the host, as `canon_resources::lower_own`.
    pub fn lower_own(
        &mut self,
        resource: ResourceAny,
        ty: TypeResourceTableIndex,
    ) -> Result<u32, ResourceFault>
        requires known { HasResource (component_types self.old) ty }
        ensures moves { LeafMoves self.old.ledger self.new.ledger (lower_parts self.old.component.types (passed true ty resource)) result }
        ensures places { SamePlaces self.old.ledger self.new.ledger }
        ensures same { SameButLedger self.old self.new }
    {
        self.place(ty);
        canon_resources::lower_own(&mut self.ledger, &self.component.types, resource, ty)
    }

    /// Lowers a borrow, as `canon_resources::lower_borrow`.
    pub fn lower_borrow(
        &mut self,
        resource: ResourceAny,
        ty: TypeResourceTableIndex,
    ) -> Result<u32, ResourceFault>
        requires known { HasResource (component_types self.old) ty }
        ensures moves { LeafMoves self.old.ledger self.new.ledger (lower_parts self.old.component.types (passed false ty resource)) result }
        ensures places { SamePlaces self.old.ledger self.new.ledger }
        ensures same { SameButLedger self.old self.new }
    {
        self.place(ty);
        canon_resources::lower_borrow(&mut self.ledger, &self.component.types, resource, ty)
    }

    /// Lifts an own handle of a component, as `canon_resources::lift_own`.
    pub fn lift_own(
        &mut self,
        index: u32,
        ty: TypeResourceTableIndex,
    ) -> Result<ResourceAny, ResourceFault>
        requires known { HasResource (component_types self.old) ty }
        ensures lifts { LeafLifts self.old.component.types self.old.ledger self.new.ledger (leaf true ty index) result }
        ensures places { SamePlaces self.old.ledger self.new.ledger }
        ensures same { SameButLedger self.old self.new }
    {
        self.place(ty);
        canon_resources::lift_own(&mut self.ledger, &self.component.types, index, ty)
    }

    /// Lifts a borrow, as `canon_resources::lift_borrow`.
    pub fn lift_borrow(
        &mut self,
        index: u32,
        ty: TypeResourceTableIndex,
    ) -> Result<ResourceAny, ResourceFault>
        requires known { HasResource (component_types self.old) ty }
        ensures lifts { LeafLifts self.old.component.types self.old.ledger self.new.ledger (leaf false ty index) result }
        ensures places { SamePlaces self.old.ledger self.new.ledger }
        ensures same { SameButLedger self.old self.new }
    {
        self.place(ty);
        canon_resources::lift_borrow(&mut self.ledger, &self.component.types, index, ty)
    }

    /// Opens a scope, which is then the top one.
    pub fn enter(&mut self) -> Result<Scope, OutOfMemory>
        ensures ok { IfOk result (λ s. (s ≡ Id (length self.old.ledger.handles.scopes)) × (self.new.ledger ≡ ledger.enter self.old.ledger)) }
        ensures err { OnErr result (self.new.ledger ≡ self.old.ledger) }
        ensures same { SameButLedger self.old self.new }
    {
        self.ledger.enter()
    }

    /// Closes the top scope, which must be open and empty.
    pub fn leave(&mut self)
        requires { can_leave self.old.ledger.handles ≡ true }
        ensures left { self.new.ledger ≡ ledger.leave self.old.ledger }
        ensures same { SameButLedger self.old self.new }
    {
        self.ledger.leave();
    }

    /// Whether a scope is open, and the top one is empty.
    pub fn can_leave(&self) -> bool
        ensures { result ≡ can_leave self.now.ledger.handles }
    {
        self.ledger.can_leave()
    }

    /// The top open scope.
    pub fn current(&self) -> Option<CurrentScope>
        ensures top { scope_number result ≡ top_scope self.now.ledger.handles }
        ensures scope_open { IsOpen result self.now.ledger }
    {
        self.ledger.current()
    }

    /// What is kept of a scope, and nothing where it isn't open.
    pub fn context(&self, s: Scope) -> Option<&CallContext>
        ensures { MatchOption result
            (nat_lt (number_of s) (length self.now.ledger.handles.scopes) ≡ false)
            (λ context. slice_get self.now.ledger.handles.scopes (number_of s) ≡ Some context.now.scope) }
    {
        self.ledger.context(s)
    }

    /// The end of the call of the top open scope: its borrow handles must have been dropped, and what was lent to it is given back.
    pub fn validate_scope_exit(&mut self) -> Result<(), ResourceFault>
        ensures step { DidSurely (ledger.validate_scope_exit (top_scope self.old.ledger.handles) self.old.ledger) result self.new.ledger }
        ensures places { SamePlaces self.old.ledger self.new.ledger }
        ensures same { SameButLedger self.old self.new }
    {
        canon_resources::exit_scope(&mut self.ledger)
    }

    // The number of the table that an index is one of.
    fn table_by(&self, index: &TypedResourceIndex) -> u32
        requires { HasKnownType (component_types self.now) index.now }
        ensures number { result ≡ table_by self.now index.now }
        ensures within { result < length self.now.ledger.handles.tables }
    {
        match *index {
            TypedResourceIndex::Host(_) => self.ledger.host_table(),
            TypedResourceIndex::Component { ty, .. } => {
                self.place(ty);
                table_for(&self.ledger, &self.component.types, ty)
            }
        }
    }

    /// The representation of a handle (CanonicalABI.md, "canon resource.rep").
    pub fn resource_rep(&mut self, i: TypedResourceIndex) -> Result<u32, ResourceFault>
        requires known { HasKnownType (component_types self.old) i }
        ensures answer { result ≡ ledger.resource_rep self.old.ledger (table_by self.old i) i }
        ensures same { self.new ≡ self.old }
    {
        let table = self.table_by(&i);
        self.ledger.rep_at(table, i)
    }

    /// Removes a handle, but for its destructor (CanonicalABI.md, "canon resource.drop"). Answers the representation of an own handle,
    /// and nothing for a borrow handle.
    pub fn resource_drop(&mut self, i: TypedResourceIndex) -> Result<Option<u32>, ResourceFault>
        requires known { HasKnownType (component_types self.old) i }
        ensures step { DidSurely (ledger.resource_drop self.old.ledger (table_by self.old i) i) result self.new.ledger }
        ensures places { SamePlaces self.old.ledger self.new.ledger }
        ensures same { SameButLedger self.old self.new }
    {
        let table = self.table_by(&i);
        canon_resources::drop_at(&mut self.ledger, table, i)
    }

    /// Removes a handle of the host. Answers the representation of an own handle with the slot of its index, and nothing for a
    /// borrow handle.
    pub fn host_resource_drop(
        &mut self,
        idx: HostResourceIndex,
    ) -> Result<Option<(u32, TableSlot)>, ResourceFault>
        ensures step { DidSurely (ledger.host_resource_drop self.old.ledger idx) result self.new.ledger }
        ensures places { SamePlaces self.old.ledger self.new.ledger }
        ensures same { SameButLedger self.old self.new }
    {
        canon_resources::drop_host(&mut self.ledger, idx)
    }

    /// What the host keeps of an index of its table; nothing where the index has no slot.
    pub fn slot(&self, idx: HostResourceIndex) -> Result<Option<TableSlot>, ResourceFault>
        ensures { result ≡ ledger.slot self.now.ledger idx }
    {
        if self.ledger.is_stale(&idx) {
            return Err(ResourceFault::HostDeallocated);
        }
        Ok(self.ledger.slot(idx.index()))
    }

    /// The number of the live handles.
    pub fn live(&self) -> u64
        ensures { result ≡ self.now.ledger.handles.counter.live }
    {
        self.ledger.live()
    }

    /// Sets how many live handles there may be. A lower limit refuses nothing that exists.
    pub fn set_handle_limit(&mut self, v: u64)
        ensures limited { self.new.ledger ≡ ledger.set_limit self.old.ledger v }
        ensures same { SameButLedger self.old self.new }
    {
        self.ledger.set_limit(v);
    }

    /// Puts an own handle of a resource type into its instance's table, and answers its index there (CanonicalABI.md, "canon
    /// resource.new").
    pub fn resource_new(
        &mut self,
        ty: TypeResourceTableIndex,
        rep: u32,
    ) -> Result<u32, ResourceFault>
        requires known { HasResource (component_types self.old) ty }
        ensures step { Did (ledger.resource_new self.old.ledger (parts.table_for self.old.component.types ty) (Component ty rep)) result self.old.ledger self.new.ledger }
        ensures places { SamePlaces self.old.ledger self.new.ledger }
        ensures same { SameButLedger self.old self.new }
    {
        self.place(ty);
        let table = table_for(&self.ledger, &self.component.types, ty);
        canon_resources::insert_own(
            &mut self.ledger,
            table,
            TypedResource::Component { ty, rep },
        )
    }

    // Puts a borrow handle of a resource type into its instance's table.
    pub(crate) fn insert_borrow(
        &mut self,
        ty: TypeResourceTableIndex,
        rep: u32,
    ) -> Result<u32, ResourceFault>
        requires known { HasResource (component_types self.old) ty }
        ensures step { Did (ledger.resource_lower_borrow (top_scope self.old.ledger.handles) self.old.ledger (parts.table_for self.old.component.types ty) (Component ty rep)) result self.old.ledger self.new.ledger }
        ensures places { SamePlaces self.old.ledger self.new.ledger }
        ensures same { SameButLedger self.old self.new }
    {
        self.place(ty);
        let table = table_for(&self.ledger, &self.component.types, ty);
        canon_resources::insert_borrow(
            &mut self.ledger,
            table,
            TypedResource::Component { ty, rep },
        )
    }

    // Takes an own handle of a resource type out of its instance's table.
    pub(crate) fn take_at(
        &mut self,
        ty: TypeResourceTableIndex,
        index: u32,
    ) -> Result<u32, ResourceFault>
        requires known { HasResource (component_types self.old) ty }
        ensures step { DidSurely (ledger.resource_lift_own self.old.ledger (parts.table_for self.old.component.types ty) (ComponentIndex ty index)) result self.new.ledger }
        ensures places { SamePlaces self.old.ledger self.new.ledger }
        ensures same { SameButLedger self.old self.new }
    {
        self.place(ty);
        let table = table_for(&self.ledger, &self.component.types, ty);
        canon_resources::take_at(
            &mut self.ledger,
            table,
            TypedResourceIndex::Component { ty, index },
        )
    }

    // Lends a handle of a resource type of its instance's table.
    pub(crate) fn lend_at(
        &mut self,
        ty: TypeResourceTableIndex,
        index: u32,
    ) -> Result<u32, ResourceFault>
        requires known { HasResource (component_types self.old) ty }
        ensures step { Did (ledger.resource_lift_borrow (top_scope self.old.ledger.handles) self.old.ledger (parts.table_for self.old.component.types ty) (ComponentIndex ty index)) result self.old.ledger self.new.ledger }
        ensures places { SamePlaces self.old.ledger self.new.ledger }
        ensures same { SameButLedger self.old self.new }
    {
        self.place(ty);
        let table = table_for(&self.ledger, &self.component.types, ty);
        canon_resources::lend_at(
            &mut self.ledger,
            table,
            TypedResourceIndex::Component { ty, index },
        )
    }

    // Takes an own handle of the host out.
    pub(crate) fn take_host(&mut self, idx: HostResourceIndex) -> Result<u32, ResourceFault>
        ensures step { DidSurely (ledger.host_resource_lift_own self.old.ledger idx) result self.new.ledger }
        ensures places { SamePlaces self.old.ledger self.new.ledger }
        ensures same { SameButLedger self.old self.new }
    {
        canon_resources::take_host(&mut self.ledger, idx)
    }

    // Lends a handle of the host.
    pub(crate) fn lend_host(&mut self, idx: HostResourceIndex) -> Result<u32, ResourceFault>
        ensures step { Did (ledger.host_resource_lift_borrow (top_scope self.old.ledger.handles) self.old.ledger idx) result self.old.ledger self.new.ledger }
        ensures places { SamePlaces self.old.ledger self.new.ledger }
        ensures same { SameButLedger self.old self.new }
    {
        canon_resources::lend_host(&mut self.ledger, idx)
    }

    /// Puts an own handle into the host's table, with its destructor and its instance, and answers its index there.
    pub fn host_resource_lower_own(
        &mut self,
        rep: u32,
        dtor: Option<u32>,
        instance: Option<RuntimeInstance>,
    ) -> Result<HostResourceIndex, ResourceFault>
        ensures step { Did (given self.old.ledger (ledger.host_resource_lower_own self.old.ledger rep dtor instance)) result self.old.ledger self.new.ledger }
        ensures places { SamePlaces self.old.ledger self.new.ledger }
        ensures same { SameButLedger self.old self.new }
    {
        let generation = self.ledger.generation();
        match canon_resources::insert_host(&mut self.ledger, rep, dtor, instance) {
            Ok(index) => Ok(HostResourceIndex::new(index, generation)),
            Err(fault) => Err(fault),
        }
    }

    // Puts a borrow handle into the host's table, and answers its index there.
    pub(crate) fn insert_host_borrow(
        &mut self,
        rep: u32,
    ) -> Result<HostResourceIndex, ResourceFault>
        ensures step { Did (given self.old.ledger (ledger.host_resource_lower_borrow (top_scope self.old.ledger.handles) self.old.ledger rep)) result self.old.ledger self.new.ledger }
        ensures places { SamePlaces self.old.ledger self.new.ledger }
        ensures same { SameButLedger self.old self.new }
    {
        let generation = self.ledger.generation();
        let table = self.ledger.host_table();
        match canon_resources::insert_borrow(&mut self.ledger, table, TypedResource::Host(rep)) {
            Ok(index) => Ok(HostResourceIndex::new(index, generation)),
            Err(fault) => Err(fault),
        }
    }
}
