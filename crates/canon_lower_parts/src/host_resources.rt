//! Resources of the host: an own one that is given away is taken, and one that is lent stands in the host's table.

ghost use Rattle.std.specs.Prelude.{◌≡◌, ◌≤◌, ◌+◌, false, is_ok, length, refl, true, ℕ};
ghost use Rattle.canon_context.specs.Core.{SameButLedger, component_types};
ghost use Rattle.canon_resources.specs.Parts as parts;
ghost use Rattle.canon_resources.specs.Parts.{LeafMoves};
ghost use Rattle.canon_lower_parts.specs.Handles.{GivesNumber, HeldAfter, StateAfter, held_gives, held_parts};
ghost use Rattle.canon_lower_parts.specs.Stores.{TypedStores};
ghost use Rattle.canon_lower_parts.specs.Words.{TypedLowers};
ghost use Rattle.canon_model.specs.Layout.{flat, size};
ghost use Rattle.canon_resources.specs.declared.host.ResourceState.{ResourceState as State};
ghost use Rattle.canon_resources.specs.declared.host.ResourceState.TheVariants.{Index, NotInTable, Taken};
ghost use Rattle.canon_types.specs.Resource.{resource_type_at};
ghost use Rattle.canon_types.specs.Table.{HasResource, Knows, shape_of};
ghost use Rattle.canon_types.specs.declared.resource.ResourceType.{ResourceType as Kind};
ghost use Rattle.canon_types.specs.declared.resource.ResourceType.TheVariants.{Host, HostDynamic};
ghost use Rattle.canon_typed.specs.Meaning.{IsHandle};
ghost use Rattle.canon_typed.specs.Types.{IsHandleType};

use crate::put::put;
use crate::resources::faulted;
use canon_context::{Core, Fault, LowerContext};
use canon_memory::{Guest, ValRaw};
use canon_resources::{
    HostResource, HostResourceIndex, HostResourceType, HostType, Resource, ResourceAny,
    ResourceDynamic, ResourceFault, ResourceState, ResourceType,
};
use canon_types::{InterfaceType, TypeResourceTableIndex};

/// A resource that the host holds.
pub trait HeldResource {
    /// Where its handle is.
    ghost state: { Self → State };

    /// Its representation.
    ghost rep: { Self → ℕ };

    /// The type of its resource.
    ghost kind: { Self → Kind };

    // it with its handle there
    ghost with_state: { State → Self → Self };

    /// Where its handle is.
    fn state(&self) -> ResourceState
        ensures { result ≡ state self.now };

    /// Its representation.
    fn rep(&self) -> u32
        ensures { result ≡ rep self.now };

    /// Its type.
    fn kind(&self) -> ResourceType
        ensures { result ≡ kind self.now };

    /// It was given away.
    fn take(&mut self)
        requires { state self.old ≡ NotInTable }
        ensures taken { state self.new ≡ Taken }
        ensures rest { self.new ≡ with_state (state self.new) self.old };

    /// It was put into the host's table at this index.
    fn place(&mut self, idx: HostResourceIndex)
        requires { state self.old ≡ NotInTable }
        ensures placed { state self.new ≡ Index idx }
        ensures rest { self.new ≡ with_state (state self.new) self.old };

    // where its handle is, it is itself
    ghost is_itself: { (v : Self) → v ≡ with_state (state v) v };
}

impl<T: HostResourceType<R>, R: Copy> HeldResource for HostResource<T, R> {
    ghost state = { λ v. v.state };

    ghost rep = { λ v. v.rep };

    ghost kind = { λ v. T.type_of v.ty };

    ghost with_state = { λ s v. record v { state = s } };

    ghost is_itself = { λ v. refl };

    fn state(&self) -> ResourceState {
        self.state()
    }

    fn rep(&self) -> u32 {
        self.rep()
    }

    fn kind(&self) -> ResourceType {
        T::resource_type(self.ty())
    }

    fn take(&mut self) {
        self.take();
    }

    fn place(&mut self, idx: HostResourceIndex) {
        self.place(idx);
    }
}

impl<T: HostType> HeldResource for Resource<T> {
    ghost state = { λ v. v.state };

    ghost rep = { λ v. v.rep };

    ghost kind = { λ v. Host T.ID };

    ghost with_state = { λ s v. record v { state = s } };

    ghost is_itself = { λ v. refl };

    fn state(&self) -> ResourceState {
        self.state()
    }

    fn rep(&self) -> u32 {
        self.rep()
    }

    fn kind(&self) -> ResourceType {
        ResourceType::host::<T>()
    }

    fn take(&mut self) {
        self.take();
    }

    fn place(&mut self, idx: HostResourceIndex) {
        self.place(idx);
    }
}

impl HeldResource for ResourceDynamic {
    ghost state = { λ v. v.state };

    ghost rep = { λ v. v.rep };

    ghost kind = { λ v. HostDynamic v.ty };

    ghost with_state = { λ s v. record v { state = s } };

    ghost is_itself = { λ v. refl };

    fn state(&self) -> ResourceState {
        self.state()
    }

    fn rep(&self) -> u32 {
        self.rep()
    }

    fn kind(&self) -> ResourceType {
        ResourceType::host_dynamic(self.ty())
    }

    fn take(&mut self) {
        self.take();
    }

    fn place(&mut self, idx: HostResourceIndex) {
        self.place(idx);
    }
}

/// Whether the resource type of this number is this one.
fn is_of_type<D, G>(core: &Core<D, G>, t: TypeResourceTableIndex, kind: &ResourceType) -> bool
    requires { HasResource (component_types core.now) t }
    ensures { result ≡ parts.is_of_type (resource_type_at core.now.component.types t) kind.now }
{
    core.component().types.resource_type(t) == *kind
}

/// Gives an own handle away: one that is in no table is taken, and one of the host's table is taken out of it. Refuses
/// `ResourceTypeMismatch`, `BorrowAsOwn` and `HostConsumed`, in this order.
fn give_own<R: HeldResource, D, G>(
    resource: &mut R,
    core: &mut Core<D, G>,
    t: TypeResourceTableIndex,
) -> Result<u32, ResourceFault>
    requires known { HasResource (component_types core.old) t }
    ensures moves { LeafMoves core.old.ledger core.new.ledger (held_parts true core.old.component.types t (R.kind resource.old) (R.state resource.old) (R.rep resource.old)) result }
    ensures held { StateAfter (parts.is_of_type (resource_type_at core.old.component.types t) (R.kind resource.old)) true (is_ok result) (R.state resource.old) (R.rep resource.old) core.old.ledger core.new.ledger (R.state resource.new) }
    ensures rest { resource.new ≡ R.with_state (R.state resource.new) resource.old }
    ensures same { SameButLedger core.old core.new }
{
    let kind = resource.kind();
    if !is_of_type(core, t, &kind) {
        return Err(ResourceFault::ResourceTypeMismatch);
    }
    match resource.state() {
        ResourceState::Borrow => Err(ResourceFault::BorrowAsOwn),
        ResourceState::Taken => Err(ResourceFault::HostConsumed),
        ResourceState::NotInTable => {
            let rep = resource.rep();
            resource.take();
            core.resource_new(t, rep)
        }
        ResourceState::Index(idx) => core.lower_own(ResourceAny::new(idx, kind, true), t),
    }
}

/// Lends a handle; a borrow gives its representation. One that is in no table is put into the host's first. Refuses
/// `ResourceTypeMismatch` and `HostConsumed`, in this order.
#[tactic(auto, using(crate::proofs::Lending::lower_placed))]
fn lend<R: HeldResource, D, G>(
    resource: &mut R,
    core: &mut Core<D, G>,
    t: TypeResourceTableIndex,
) -> Result<u32, ResourceFault>
    requires known { HasResource (component_types core.old) t }
    ensures moves { LeafMoves core.old.ledger core.new.ledger (held_parts false core.old.component.types t (R.kind resource.old) (R.state resource.old) (R.rep resource.old)) result }
    ensures held { StateAfter (parts.is_of_type (resource_type_at core.old.component.types t) (R.kind resource.old)) false (is_ok result) (R.state resource.old) (R.rep resource.old) core.old.ledger core.new.ledger (R.state resource.new) }
    ensures rest { resource.new ≡ R.with_state (R.state resource.new) resource.old }
    ensures same { SameButLedger core.old core.new }
{
    let kind = resource.kind();
    if !is_of_type(core, t, &kind) {
        return Err(ResourceFault::ResourceTypeMismatch);
    }
    let rep = resource.rep();
    match resource.state() {
        ResourceState::Borrow => core.lower_borrow(ResourceAny::new_borrow(rep, kind), t),
        ResourceState::Taken => Err(ResourceFault::HostConsumed),
        ResourceState::NotInTable => match core.host_resource_lower_own(rep, None, None) {
            Ok(idx) => {
                resource.place(idx);
                core.lower_borrow(ResourceAny::new(idx, kind, true), t)
            }
            Err(refusal) => Err(refusal),
        },
        ResourceState::Index(idx) => core.lower_borrow(ResourceAny::new(idx, kind, true), t),
    }
}

/// Passes a resource through the ledger (CanonicalABI.md, "lower_own" and "lower_borrow"), and answers the number that the guest is
/// given.
fn give_held<R: HeldResource, D, G: Guest>(
    resource: &mut R,
    cx: &mut LowerContext<'_, D, G>,
    ty: InterfaceType,
) -> Result<u32, Fault>
    requires known { Knows (component_types cx.old.core.now) ty }
    requires fits { IsHandleType cx.old.core.now.component.types ty }
    ensures gives { GivesNumber cx.old.core.now cx.new.core.now (held_gives (R.kind resource.old) (R.state resource.old) (R.rep resource.old) cx.old.core.now.component.types (shape_of (component_types cx.old.core.now) ty)) result }
    ensures held { HeldAfter (R.kind resource.old) (R.state resource.old) (R.rep resource.old) cx.old.core.now.component.types (shape_of (component_types cx.old.core.now) ty) (is_ok result)
        cx.old.core.now.ledger cx.new.core.now.ledger (R.state resource.new) }
    ensures rest { resource.new ≡ R.with_state (R.state resource.new) resource.old }
    ensures same_reference { cx.new.core.ghost_name ≡ cx.old.core.ghost_name }
    ensures same_options { cx.new.options ≡ cx.old.options }
{
    match ty {
        InterfaceType::Own(t) => faulted(give_own(resource, cx.core, t)),
        InterfaceType::Borrow(t) => faulted(lend(resource, cx.core, t)),
        _ => unreachable!(),
    }
}

/// Lowers the handle that the guest is given for a resource.
pub fn lower_held<R: HeldResource, D, G: Guest>(
    resource: &mut R,
    cx: &mut LowerContext<'_, D, G>,
    ty: InterfaceType,
    dst: &mut [ValRaw],
) -> Result<(), Fault>
    requires known { Knows (component_types cx.old.core.now) ty }
    requires fits { IsHandleType cx.old.core.now.component.types ty }
    requires words { length dst.old ≡ flat (shape_of (component_types cx.old.core.now) ty) }
    ensures lowers { TypedLowers G.seen G.moves cx.old.options cx.old.core.now cx.new.core.now (shape_of (component_types cx.old.core.now) ty) dst.new 0 IsHandle
        (held_gives (R.kind resource.old) (R.state resource.old) (R.rep resource.old) cx.old.core.now.component.types (shape_of (component_types cx.old.core.now) ty)) result }
    ensures held { HeldAfter (R.kind resource.old) (R.state resource.old) (R.rep resource.old) cx.old.core.now.component.types (shape_of (component_types cx.old.core.now) ty) (is_ok result)
        cx.old.core.now.ledger cx.new.core.now.ledger (R.state resource.new) }
    ensures rest { resource.new ≡ R.with_state (R.state resource.new) resource.old }
    ensures count { length dst.new ≡ length dst.old }
    ensures same_reference { cx.new.core.ghost_name ≡ cx.old.core.ghost_name }
    ensures same_options { cx.new.options ≡ cx.old.options }
{
    let _memory = cx.core.memory(); // memory has at most 2^32 bytes
    match give_held(resource, cx, ty) {
        Ok(number) => {
            dst[0] = ValRaw::u32(number);
            Ok(())
        }
        Err(fault) => Err(fault),
    }
}

/// Stores the handle that the guest is given for a resource: four bytes at an address.
pub fn store_held<R: HeldResource, D, G: Guest>(
    resource: &mut R,
    cx: &mut LowerContext<'_, D, G>,
    ty: InterfaceType,
    offset: u64,
) -> Result<(), Fault>
    requires known { Knows (component_types cx.old.core.now) ty }
    requires fits { IsHandleType cx.old.core.now.component.types ty }
    requires room { offset + size false (shape_of (component_types cx.old.core.now) ty) ≤ length cx.old.core.now.memory }
    ensures stores { TypedStores G.seen G.moves cx.old.options cx.old.core.now cx.new.core.now (shape_of (component_types cx.old.core.now) ty) offset IsHandle
        (held_gives (R.kind resource.old) (R.state resource.old) (R.rep resource.old) cx.old.core.now.component.types (shape_of (component_types cx.old.core.now) ty)) result }
    ensures held { HeldAfter (R.kind resource.old) (R.state resource.old) (R.rep resource.old) cx.old.core.now.component.types (shape_of (component_types cx.old.core.now) ty) (is_ok result)
        cx.old.core.now.ledger cx.new.core.now.ledger (R.state resource.new) }
    ensures rest { resource.new ≡ R.with_state (R.state resource.new) resource.old }
    ensures same_reference { cx.new.core.ghost_name ≡ cx.old.core.ghost_name }
    ensures same_options { cx.new.options ≡ cx.old.options }
{
    let _memory = cx.core.memory(); // memory has at most 2^32 bytes
    match give_held(resource, cx, ty) {
        Ok(number) => {
            put(cx, offset, u64::from(number), 4);
            Ok(())
        }
        Err(fault) => Err(fault),
    }
}
