//! Handles that cross on their own: each call is a step of the ledger, in the top open scope.

ghost use Rattle.std.specs.Prelude.{◌≡◌, Some};
ghost use Rattle.canon_handles.specs.declared.handle.TypedResource.TheVariants.{Component};
ghost use Rattle.canon_handles.specs.declared.handle.TypedResourceIndex.TheVariants.{Component as ComponentIndex};
ghost use Rattle.canon_ledger.specs.Handles.{top_scope};
ghost use Rattle.canon_ledger.specs.Ledger as ledger;
ghost use Rattle.canon_ledger.specs.Ledger.{given, mapped};
ghost use Rattle.canon_ledger.specs.Places.{SamePlaces};
ghost use Rattle.canon_types.specs.Resource.{resource_type_at};
ghost use Rattle.canon_types.specs.Table.{HasResource};
ghost use Rattle.canon_resources.specs.Parts.{do_part, dtor_for, instance_for, table_for};
ghost use Rattle.canon_context.specs.Core.{SameButLedger, component_types};
ghost use Rattle.canon_context.specs.Faults.{Stepped, SteppedSurely, borrow_part};

use crate::fault::faulted;
use crate::{Fault, LiftContext, LowerContext};
use canon_ledger::HostResourceIndex;
use canon_resources::{is_defined_here, kept_for};
use canon_types::{ResourceType, RuntimeInstance, TypeResourceTableIndex};

impl<'a, T, G> LowerContext<'a, T, G> {
    /// The type of a resource table.
    pub fn resource_type(&self, t: TypeResourceTableIndex) -> ResourceType
        requires { HasResource (component_types self.now.core.now) t }
        ensures { resource_type_at self.now.core.now.component.types t ≡ Some result }
    {
        self.core.component().types.resource_type(t)
    }

    /// A new own handle in the table of the type's instance.
    pub fn guest_resource_lower_own(
        &mut self,
        t: TypeResourceTableIndex,
        rep: u32,
    ) -> Result<u32, Fault>
        requires known { HasResource (component_types self.old.core.now) t }
        ensures step { Stepped (ledger.resource_new self.old.core.now.ledger (table_for self.old.core.now.component.types t) (Component t rep)) result self.old.core.now.ledger self.new.core.now.ledger }
        ensures places { SamePlaces self.old.core.now.ledger self.new.core.now.ledger }
        ensures same { SameButLedger self.old.core.now self.new.core.now }
        ensures rest { self.new ≡ record self.old { core = self.new.core } }
        ensures same_reference { self.new.core.ghost_name ≡ self.old.core.ghost_name }
    {
        faulted(self.core.resource_new(t, rep))
    }

    /// A new borrow handle there; the representation itself where the instance defines the type.
    pub fn guest_resource_lower_borrow(
        &mut self,
        t: TypeResourceTableIndex,
        rep: u32,
    ) -> Result<u32, Fault>
        requires known { HasResource (component_types self.old.core.now) t }
        ensures step { Stepped (do_part rep (borrow_part self.old.core.now.component.types t rep) self.old.core.now.ledger) result self.old.core.now.ledger self.new.core.now.ledger }
        ensures places { SamePlaces self.old.core.now.ledger self.new.core.now.ledger }
        ensures same { SameButLedger self.old.core.now self.new.core.now }
        ensures rest { self.new ≡ record self.old { core = self.new.core } }
        ensures same_reference { self.new.core.ghost_name ≡ self.old.core.ghost_name }
    {
        if is_defined_here(&self.core.component().types, t) {
            return Ok(rep);
        }
        faulted(self.core.insert_borrow(t, rep))
    }

    /// Takes an own handle of the host out: its representation.
    pub fn host_resource_lift_own(&mut self, idx: HostResourceIndex) -> Result<u32, Fault>
        ensures step { SteppedSurely (ledger.host_resource_lift_own self.old.core.now.ledger idx) result self.new.core.now.ledger }
        ensures places { SamePlaces self.old.core.now.ledger self.new.core.now.ledger }
        ensures same { SameButLedger self.old.core.now self.new.core.now }
        ensures rest { self.new ≡ record self.old { core = self.new.core } }
        ensures same_reference { self.new.core.ghost_name ≡ self.old.core.ghost_name }
    {
        faulted(self.core.take_host(idx))
    }

    /// The representation of a handle of the host, which is lent.
    pub fn host_resource_lift_borrow(&mut self, idx: HostResourceIndex) -> Result<u32, Fault>
        ensures step { Stepped (ledger.host_resource_lift_borrow (top_scope self.old.core.now.ledger.handles) self.old.core.now.ledger idx) result self.old.core.now.ledger self.new.core.now.ledger }
        ensures places { SamePlaces self.old.core.now.ledger self.new.core.now.ledger }
        ensures same { SameButLedger self.old.core.now self.new.core.now }
        ensures rest { self.new ≡ record self.old { core = self.new.core } }
        ensures same_reference { self.new.core.ghost_name ≡ self.old.core.ghost_name }
    {
        faulted(self.core.lend_host(idx))
    }

    /// A new own handle of the host, with its destructor and its instance.
    pub fn host_resource_lower_own(
        &mut self,
        rep: u32,
        dtor: Option<u32>,
        instance: Option<RuntimeInstance>,
    ) -> Result<HostResourceIndex, Fault>
        ensures step { Stepped (given self.old.core.now.ledger (ledger.host_resource_lower_own self.old.core.now.ledger rep dtor instance)) result self.old.core.now.ledger self.new.core.now.ledger }
        ensures places { SamePlaces self.old.core.now.ledger self.new.core.now.ledger }
        ensures same { SameButLedger self.old.core.now self.new.core.now }
        ensures rest { self.new ≡ record self.old { core = self.new.core } }
        ensures same_reference { self.new.core.ghost_name ≡ self.old.core.ghost_name }
    {
        faulted(self.core.host_resource_lower_own(rep, dtor, instance))
    }

    /// The end of the call of the top open scope: its borrow handles must have been dropped, and what was lent to it is given back.
    pub fn validate_scope_exit(&mut self) -> Result<(), Fault>
        ensures step { SteppedSurely (ledger.validate_scope_exit (top_scope self.old.core.now.ledger.handles) self.old.core.now.ledger) result self.new.core.now.ledger }
        ensures places { SamePlaces self.old.core.now.ledger self.new.core.now.ledger }
        ensures same { SameButLedger self.old.core.now self.new.core.now }
        ensures rest { self.new ≡ record self.old { core = self.new.core } }
        ensures same_reference { self.new.core.ghost_name ≡ self.old.core.ghost_name }
    {
        faulted(self.core.validate_scope_exit())
    }
}

impl<'a, T, G> LiftContext<'a, T, G> {
    /// The type of a resource table.
    pub fn resource_type(&self, t: TypeResourceTableIndex) -> ResourceType
        requires { HasResource (component_types self.now.core.now) t }
        ensures { resource_type_at self.now.core.now.component.types t ≡ Some result }
    {
        self.core.component().types.resource_type(t)
    }

    /// Takes an own handle out of the table of the type's instance: its representation, with the destructor and the instance where a
    /// component defines the type.
    pub fn guest_resource_lift_own(
        &mut self,
        t: TypeResourceTableIndex,
        index: u32,
    ) -> Result<(u32, Option<u32>, Option<RuntimeInstance>), Fault>
        requires known { HasResource (component_types self.old.core.now) t }
        ensures step { SteppedSurely
            (mapped (λ rep. (rep, dtor_for self.old.core.now.component.types t, instance_for self.old.core.now.component.types t))
            (ledger.resource_lift_own self.old.core.now.ledger (table_for self.old.core.now.component.types t) (ComponentIndex t index)))
            result self.new.core.now.ledger }
        ensures places { SamePlaces self.old.core.now.ledger self.new.core.now.ledger }
        ensures same { SameButLedger self.old.core.now self.new.core.now }
        ensures rest { self.new ≡ record self.old { core = self.new.core } }
        ensures same_reference { self.new.core.ghost_name ≡ self.old.core.ghost_name }
    {
        let (dtor, instance) = kept_for(&self.core.component().types, t);
        match faulted(self.core.take_at(t, index)) {
            Ok(rep) => Ok((rep, dtor, instance)),
            Err(fault) => Err(fault),
        }
    }

    /// The representation of a handle of the table of the type's instance, which is lent.
    pub fn guest_resource_lift_borrow(
        &mut self,
        t: TypeResourceTableIndex,
        index: u32,
    ) -> Result<u32, Fault>
        requires known { HasResource (component_types self.old.core.now) t }
        ensures step { Stepped (ledger.resource_lift_borrow (top_scope self.old.core.now.ledger.handles) self.old.core.now.ledger (table_for self.old.core.now.component.types t) (ComponentIndex t index)) result self.old.core.now.ledger self.new.core.now.ledger }
        ensures places { SamePlaces self.old.core.now.ledger self.new.core.now.ledger }
        ensures same { SameButLedger self.old.core.now self.new.core.now }
        ensures rest { self.new ≡ record self.old { core = self.new.core } }
        ensures same_reference { self.new.core.ghost_name ≡ self.old.core.ghost_name }
    {
        faulted(self.core.lend_at(t, index))
    }

    /// A new own handle of the host, with its destructor and its instance.
    pub fn host_resource_lower_own(
        &mut self,
        rep: u32,
        dtor: Option<u32>,
        instance: Option<RuntimeInstance>,
    ) -> Result<HostResourceIndex, Fault>
        ensures step { Stepped (given self.old.core.now.ledger (ledger.host_resource_lower_own self.old.core.now.ledger rep dtor instance)) result self.old.core.now.ledger self.new.core.now.ledger }
        ensures places { SamePlaces self.old.core.now.ledger self.new.core.now.ledger }
        ensures same { SameButLedger self.old.core.now self.new.core.now }
        ensures rest { self.new ≡ record self.old { core = self.new.core } }
        ensures same_reference { self.new.core.ghost_name ≡ self.old.core.ghost_name }
    {
        faulted(self.core.host_resource_lower_own(rep, dtor, instance))
    }

    /// A new borrow handle of the host.
    pub fn host_resource_lower_borrow(&mut self, rep: u32) -> Result<HostResourceIndex, Fault>
        ensures step { Stepped (given self.old.core.now.ledger (ledger.host_resource_lower_borrow (top_scope self.old.core.now.ledger.handles) self.old.core.now.ledger rep)) result self.old.core.now.ledger self.new.core.now.ledger }
        ensures places { SamePlaces self.old.core.now.ledger self.new.core.now.ledger }
        ensures same { SameButLedger self.old.core.now self.new.core.now }
        ensures rest { self.new ≡ record self.old { core = self.new.core } }
        ensures same_reference { self.new.core.ghost_name ≡ self.old.core.ghost_name }
    {
        faulted(self.core.insert_host_borrow(rep))
    }

    /// The end of the call of the top open scope: its borrow handles must have been dropped, and what was lent to it is given back.
    pub fn validate_scope_exit(&mut self) -> Result<(), Fault>
        ensures step { SteppedSurely (ledger.validate_scope_exit (top_scope self.old.core.now.ledger.handles) self.old.core.now.ledger) result self.new.core.now.ledger }
        ensures places { SamePlaces self.old.core.now.ledger self.new.core.now.ledger }
        ensures same { SameButLedger self.old.core.now self.new.core.now }
        ensures rest { self.new ≡ record self.old { core = self.new.core } }
        ensures same_reference { self.new.core.ghost_name ≡ self.old.core.ghost_name }
    {
        faulted(self.core.validate_scope_exit())
    }
}
