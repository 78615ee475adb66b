//! A resource that the host implements.

ghost use Rattle.std.specs.Prelude.{◌≡◌};
ghost use Rattle.canon_ledger.specs.Books.{DidSurely, IsOpen};
ghost use Rattle.canon_ledger.specs.Places.{SamePlaces};
ghost use Rattle.canon_ledger.specs.Reached.{ledger_in, reference_in, scope_in, types_in};

use crate::any::{ResourceAny, ResourceAnyHandle};
use crate::conversion::into_any;
use canon_ledger::{HostResourceIndex, HostResourceTables, ResourceFault};
use canon_types::ResourceType;
use std::fmt;
use std::fmt::{Debug, Formatter};
use std::marker::{Model, PhantomData};

/// Where the handle of a host resource is.
#[derive(Clone, Copy, Debug, PartialEq, Eq)]
pub enum ResourceState {
    /// It is a borrow, without a handle of its own.
    Borrow,
    /// It is owned, and in no table yet.
    NotInTable,
    /// It was owned, and was given away.
    Taken,
    /// It is owned, and has this index in the host's table.
    Index(HostResourceIndex),
}

/// A kind of host resources: the resource types that belong to it, each given by a `D`.
pub trait HostResourceType<D> {
    ghost use Rattle.std.specs.Prelude.{◌≡◌, Option, Some};
    ghost use Rattle.canon_types.specs.declared.resource.ResourceType.{ResourceType as Kind};

    /// What gives a resource type, where it is one of this kind.
    ghost checked: { Kind → Option D };

    /// The resource type that it gives.
    ghost type_of: { D → Kind };

    /// What gives a resource type, where it is one of this kind.
    fn typecheck(ty: ResourceType) -> Option<D>
        ensures { result ≡ checked ty };

    /// The resource type that it gives.
    fn resource_type(d: D) -> ResourceType
        ensures { result ≡ type_of d };

    ghost its_types_pass: { (d : D) → checked (type_of d) ≡ Some d };

    ghost no_others_pass: { (ty : Kind) (d : D) → checked ty ≡ Some d → ty ≡ type_of d };
}

/// A resource of a kind `T`, whose type a `D` gives. Its representation is a number of the host's.
#[derive(Drop)]
pub struct HostResource<T, D> {
    rep: u32,
    ty: D,
    state: ResourceState,
    kind: PhantomData<T>,
}

impl<T, D> Model for HostResource<T, D> {
    ghost use Rattle.canon_resources.specs.Held.{HostHandle};

    ghost Value = { HostHandle D };

    ghost view = { λ r. record { rep = r.rep; ty = r.ty; state = r.state } };
}

impl<T: HostResourceType<D>, D: Copy> HostResource<T, D> {
    ghost use Rattle.canon_resources.specs.Held.{held, is_owned};
    ghost use Rattle.canon_resources.specs.Conversions.{Converted, from_any, into_any};
    ghost use Rattle.canon_resources.specs.declared.host.ResourceState.TheVariants as state;

    /// An own handle of the host that is in no table yet.
    pub fn new_own(rep: u32, ty: D) -> Self
        ensures { result ≡ held state.NotInTable rep ty }
    {
        HostResource {
            rep,
            ty,
            state: ResourceState::NotInTable,
            kind: PhantomData,
        }
    }

    /// A borrow of a representation.
    pub fn new_borrow(rep: u32, ty: D) -> Self
        ensures { result ≡ held state.Borrow rep ty }
    {
        HostResource {
            rep,
            ty,
            state: ResourceState::Borrow,
            kind: PhantomData,
        }
    }

    /// The representation.
    pub fn rep(&self) -> u32
        ensures { result ≡ self.now.rep }
    {
        self.rep
    }

    /// What gives its type.
    pub fn ty(&self) -> D
        ensures { result ≡ self.now.ty }
    {
        self.ty
    }

    /// Whether it is no borrow.
    pub fn owned(&self) -> bool
        ensures { result ≡ is_owned self.now.state }
    {
        match self.state {
            ResourceState::Borrow => false,
            ResourceState::NotInTable | ResourceState::Taken | ResourceState::Index(_) => true,
        }
    }

    /// Where its handle is.
    pub fn state(&self) -> ResourceState
        ensures { result ≡ self.now.state }
    {
        self.state
    }

    /// It was given away.
    pub fn take(&mut self)
        requires { self.old.state ≡ state.NotInTable }
        ensures { self.new ≡ held state.Taken self.old.rep self.old.ty }
    {
        self.state = ResourceState::Taken;
    }

    /// It was put into the host's table at this index.
    pub fn place(&mut self, idx: HostResourceIndex)
        requires { self.old.state ≡ state.NotInTable }
        ensures { self.new ≡ held (state.Index idx) self.old.rep self.old.ty }
    {
        self.state = ResourceState::Index(idx);
    }

    /// The resource as one that carries its type. One that is in no table is put into the
    /// host's. After a refusal the value is gone and the tables are unchanged.
    pub fn try_into_resource_any(
        self,
        tables: &mut HostResourceTables<'_>,
    ) -> Result<ResourceAny, ResourceFault>
        requires scope_open { IsOpen (scope_in tables.old) (ledger_in tables.old) }
        ensures same_reference { reference_in tables.new ≡ reference_in tables.old }
        ensures same_types { types_in tables.new ≡ types_in tables.old }
        ensures same_scope { scope_in tables.new ≡ scope_in tables.old }
        ensures step { Converted self.state (into_any self.state self.rep (T.type_of self.ty) (ledger_in tables.old)) result (ledger_in tables.old) (ledger_in tables.new) }
        ensures places { SamePlaces (ledger_in tables.old) (ledger_in tables.new) }
    {
        into_any(self.state, self.rep, T::resource_type(self.ty), tables)
    }

    /// A resource of any type as one of this kind, out of the host's table.
    pub(crate) fn try_from_resource_any(
        resource: ResourceAny,
        tables: &mut HostResourceTables<'_>,
    ) -> Result<Self, ResourceFault>
        requires scope_open { IsOpen (scope_in tables.old) (ledger_in tables.old) }
        ensures same_reference { reference_in tables.new ≡ reference_in tables.old }
        ensures same_types { types_in tables.new ≡ types_in tables.old }
        ensures same_scope { scope_in tables.new ≡ scope_in tables.old }
        ensures step { DidSurely (from_any (T.checked resource.ty) resource.handle (ledger_in tables.old)) result (ledger_in tables.new) }
        ensures places { SamePlaces (ledger_in tables.old) (ledger_in tables.new) }
    {
        let Some(ty) = T::typecheck(resource.ty()) else {
            return Err(ResourceFault::ResourceTypeMismatch);
        };
        match resource.handle() {
            ResourceAnyHandle::Own(idx) => {
                let rep = tables.host_resource_lift_own(idx)?;
                Ok(HostResource::new_own(rep, ty))
            }
            ResourceAnyHandle::Borrow(idx) => {
                let rep = tables.host_resource_remove(idx)?;
                Ok(HostResource::new_borrow(rep, ty))
            }
            ResourceAnyHandle::Synthetic(rep) => Ok(HostResource::new_borrow(rep, ty)),
        }
    }
}

impl<T, D> Debug for HostResource<T, D> {
    fn fmt<W: fmt::Write>(&self, f: &mut Formatter<W>) -> fmt::Result {
        let state = match self.state {
            ResourceState::Borrow => "borrow",
            ResourceState::NotInTable => "own (not in table)",
            ResourceState::Taken => "taken",
            ResourceState::Index(_) => "own",
        };
        f.debug_struct("Resource")
            .field("rep", &self.rep)
            .field("state", &state)
            .finish()
    }
}
