//! Resources of the host.

ghost use Rattle.std.specs.Prelude.{◌≡◌, ◌≤◌, ◌+◌, false, is_ok, length};
ghost use Rattle.canon_context.specs.Core.{component_types};
ghost use Rattle.canon_lower_parts.specs.Given.{held_given};
ghost use Rattle.canon_lower_parts.specs.Handles.{HeldAfter, held_gives};
ghost use Rattle.canon_lower_parts.specs.Stores.{TypedStores};
ghost use Rattle.canon_lower_parts.specs.Words.{TypedLowers};
ghost use Rattle.canon_model.specs.Layout.{flat, size};
ghost use Rattle.canon_resources.specs.Types.{as_host};
ghost use Rattle.canon_types.specs.Resource.{as_host_dynamic};
ghost use Rattle.canon_types.specs.Table.{Knows, shape_of};
ghost use Rattle.canon_types.specs.declared.resource.ResourceType.TheVariants.{Host, HostDynamic};
ghost use Rattle.canon_typed.specs.Meaning.{IsHandle};
ghost use Rattle.canon_typed.specs.Types.{IsHandleOf};
ghost use Rattle.canon_lower_parts.specs.Walkable.{handle_walkable};

use crate::Lower;
use canon_context::{Fault, LowerContext};
use canon_lower_parts::{lower_held, store_held};
use canon_memory::{Guest, ValRaw};
use canon_resources::{HostResource, HostResourceType, HostType, Resource, ResourceDynamic};
use canon_types::InterfaceType;

impl<T: HostResourceType<R>, R: Copy> Lower for HostResource<T, R> {
    ghost gives = { λ i s v. held_gives (T.type_of v.ty) v.state v.rep i s };

    fn linear_lower_to_flat<D, G: Guest>(
        &mut self,
        cx: &mut LowerContext<'_, D, G>,
        ty: InterfaceType,
        dst: &mut [ValRaw],
    ) -> Result<(), Fault>
        requires known { Knows (component_types cx.old.core.now) ty }
        requires fits { IsHandleOf T.checked cx.old.core.now.component.types ty }
        requires words { length dst.old ≡ flat (shape_of (component_types cx.old.core.now) ty) }
        ensures lowers { TypedLowers G.seen G.moves cx.old.options cx.old.core.now cx.new.core.now (shape_of (component_types cx.old.core.now) ty) dst.new 0 IsHandle
            (held_gives (T.type_of self.old.ty) self.old.state self.old.rep cx.old.core.now.component.types (shape_of (component_types cx.old.core.now) ty)) result }
        ensures held { HeldAfter (T.type_of self.old.ty) self.old.state self.old.rep cx.old.core.now.component.types (shape_of (component_types cx.old.core.now) ty) (is_ok result)
            cx.old.core.now.ledger cx.new.core.now.ledger self.new.state }
        ensures rest { self.new ≡ record self.old { state = self.new.state } }
        ensures count { length dst.new ≡ length dst.old }
        ensures same_reference { cx.new.core.ghost_name ≡ cx.old.core.ghost_name }
        ensures same_options { cx.new.options ≡ cx.old.options }
    {
        lower_held(self, cx, ty, dst)
    }

    fn linear_lower_to_memory<D, G: Guest>(
        &mut self,
        cx: &mut LowerContext<'_, D, G>,
        ty: InterfaceType,
        offset: u64,
    ) -> Result<(), Fault>
        requires known { Knows (component_types cx.old.core.now) ty }
        requires fits { IsHandleOf T.checked cx.old.core.now.component.types ty }
        requires room { offset + size false (shape_of (component_types cx.old.core.now) ty) ≤ length cx.old.core.now.memory }
        ensures stores { TypedStores G.seen G.moves cx.old.options cx.old.core.now cx.new.core.now (shape_of (component_types cx.old.core.now) ty) offset IsHandle
            (held_gives (T.type_of self.old.ty) self.old.state self.old.rep cx.old.core.now.component.types (shape_of (component_types cx.old.core.now) ty)) result }
        ensures held { HeldAfter (T.type_of self.old.ty) self.old.state self.old.rep cx.old.core.now.component.types (shape_of (component_types cx.old.core.now) ty) (is_ok result)
            cx.old.core.now.ledger cx.new.core.now.ledger self.new.state }
        ensures rest { self.new ≡ record self.old { state = self.new.state } }
        ensures same_reference { cx.new.core.ghost_name ≡ cx.old.core.ghost_name }
        ensures same_options { cx.new.options ≡ cx.old.options }
    {
        store_held(self, cx, ty, offset)
    }

    ghost walkable = { λ v. handle_walkable };

    ghost given = { λ v. held_given T.checked (T.type_of v.ty) v.state v.rep };
}

impl<T: HostType> Lower for Resource<T> {
    ghost gives = { λ i s v. held_gives (Host T.ID) v.state v.rep i s };

    fn linear_lower_to_flat<D, G: Guest>(
        &mut self,
        cx: &mut LowerContext<'_, D, G>,
        ty: InterfaceType,
        dst: &mut [ValRaw],
    ) -> Result<(), Fault>
        requires known { Knows (component_types cx.old.core.now) ty }
        requires fits { IsHandleOf (as_host T.ID) cx.old.core.now.component.types ty }
        requires words { length dst.old ≡ flat (shape_of (component_types cx.old.core.now) ty) }
        ensures lowers { TypedLowers G.seen G.moves cx.old.options cx.old.core.now cx.new.core.now (shape_of (component_types cx.old.core.now) ty) dst.new 0 IsHandle
            (held_gives (Host T.ID) self.old.state self.old.rep cx.old.core.now.component.types (shape_of (component_types cx.old.core.now) ty)) result }
        ensures held { HeldAfter (Host T.ID) self.old.state self.old.rep cx.old.core.now.component.types (shape_of (component_types cx.old.core.now) ty) (is_ok result)
            cx.old.core.now.ledger cx.new.core.now.ledger self.new.state }
        ensures rest { self.new ≡ record self.old { state = self.new.state } }
        ensures count { length dst.new ≡ length dst.old }
        ensures same_reference { cx.new.core.ghost_name ≡ cx.old.core.ghost_name }
        ensures same_options { cx.new.options ≡ cx.old.options }
    {
        lower_held(self, cx, ty, dst)
    }

    fn linear_lower_to_memory<D, G: Guest>(
        &mut self,
        cx: &mut LowerContext<'_, D, G>,
        ty: InterfaceType,
        offset: u64,
    ) -> Result<(), Fault>
        requires known { Knows (component_types cx.old.core.now) ty }
        requires fits { IsHandleOf (as_host T.ID) cx.old.core.now.component.types ty }
        requires room { offset + size false (shape_of (component_types cx.old.core.now) ty) ≤ length cx.old.core.now.memory }
        ensures stores { TypedStores G.seen G.moves cx.old.options cx.old.core.now cx.new.core.now (shape_of (component_types cx.old.core.now) ty) offset IsHandle
            (held_gives (Host T.ID) self.old.state self.old.rep cx.old.core.now.component.types (shape_of (component_types cx.old.core.now) ty)) result }
        ensures held { HeldAfter (Host T.ID) self.old.state self.old.rep cx.old.core.now.component.types (shape_of (component_types cx.old.core.now) ty) (is_ok result)
            cx.old.core.now.ledger cx.new.core.now.ledger self.new.state }
        ensures rest { self.new ≡ record self.old { state = self.new.state } }
        ensures same_reference { cx.new.core.ghost_name ≡ cx.old.core.ghost_name }
        ensures same_options { cx.new.options ≡ cx.old.options }
    {
        store_held(self, cx, ty, offset)
    }

    ghost walkable = { λ v. handle_walkable };

    ghost given = { λ v. held_given (as_host T.ID) (Host T.ID) v.state v.rep };
}

impl Lower for ResourceDynamic {
    ghost gives = { λ i s v. held_gives (HostDynamic v.ty) v.state v.rep i s };

    fn linear_lower_to_flat<D, G: Guest>(
        &mut self,
        cx: &mut LowerContext<'_, D, G>,
        ty: InterfaceType,
        dst: &mut [ValRaw],
    ) -> Result<(), Fault>
        requires known { Knows (component_types cx.old.core.now) ty }
        requires fits { IsHandleOf as_host_dynamic cx.old.core.now.component.types ty }
        requires words { length dst.old ≡ flat (shape_of (component_types cx.old.core.now) ty) }
        ensures lowers { TypedLowers G.seen G.moves cx.old.options cx.old.core.now cx.new.core.now (shape_of (component_types cx.old.core.now) ty) dst.new 0 IsHandle
            (held_gives (HostDynamic self.old.ty) self.old.state self.old.rep cx.old.core.now.component.types (shape_of (component_types cx.old.core.now) ty)) result }
        ensures held { HeldAfter (HostDynamic self.old.ty) self.old.state self.old.rep cx.old.core.now.component.types (shape_of (component_types cx.old.core.now) ty) (is_ok result)
            cx.old.core.now.ledger cx.new.core.now.ledger self.new.state }
        ensures rest { self.new ≡ record self.old { state = self.new.state } }
        ensures count { length dst.new ≡ length dst.old }
        ensures same_reference { cx.new.core.ghost_name ≡ cx.old.core.ghost_name }
        ensures same_options { cx.new.options ≡ cx.old.options }
    {
        lower_held(self, cx, ty, dst)
    }

    fn linear_lower_to_memory<D, G: Guest>(
        &mut self,
        cx: &mut LowerContext<'_, D, G>,
        ty: InterfaceType,
        offset: u64,
    ) -> Result<(), Fault>
        requires known { Knows (component_types cx.old.core.now) ty }
        requires fits { IsHandleOf as_host_dynamic cx.old.core.now.component.types ty }
        requires room { offset + size false (shape_of (component_types cx.old.core.now) ty) ≤ length cx.old.core.now.memory }
        ensures stores { TypedStores G.seen G.moves cx.old.options cx.old.core.now cx.new.core.now (shape_of (component_types cx.old.core.now) ty) offset IsHandle
            (held_gives (HostDynamic self.old.ty) self.old.state self.old.rep cx.old.core.now.component.types (shape_of (component_types cx.old.core.now) ty)) result }
        ensures held { HeldAfter (HostDynamic self.old.ty) self.old.state self.old.rep cx.old.core.now.component.types (shape_of (component_types cx.old.core.now) ty) (is_ok result)
            cx.old.core.now.ledger cx.new.core.now.ledger self.new.state }
        ensures rest { self.new ≡ record self.old { state = self.new.state } }
        ensures same_reference { cx.new.core.ghost_name ≡ cx.old.core.ghost_name }
        ensures same_options { cx.new.options ≡ cx.old.options }
    {
        store_held(self, cx, ty, offset)
    }

    ghost walkable = { λ v. handle_walkable };

    ghost given = { λ v. held_given as_host_dynamic (HostDynamic v.ty) v.state v.rep };
}
