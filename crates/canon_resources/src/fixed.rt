//! A host resource whose type comes from its Rust type.

ghost use Rattle.std.specs.Prelude.{◌≡◌};
ghost use Rattle.canon_ledger.specs.Books.{DidSurely, IsOpen};
ghost use Rattle.canon_ledger.specs.Places.{SamePlaces};
ghost use Rattle.canon_ledger.specs.Reached.{ledger_in, reference_in, scope_in, types_in};

use crate::any::ResourceAny;
use crate::host::{HostResource, HostResourceType, ResourceState};
use canon_ledger::{HostResourceIndex, HostResourceTables, ResourceFault};
use canon_types::{HostType, ResourceType};
use std::fmt;
use std::fmt::{Debug, Formatter};
use std::marker::{Model, PhantomData};

/// The kind of the resources of one host type.
pub struct Static<T> {
    host: PhantomData<T>,
}

impl<T: HostType> HostResourceType<()> for Static<T> {
    ghost use Rattle.canon_types.specs.declared.resource.ResourceType.TheVariants.{Host};
    ghost use Rattle.canon_resources.specs.Types.{as_host};
    ghost use Rattle.canon_resources.specs.TypeLaws.{as_host_its, as_host_no_other};

    ghost checked = { as_host T.ID };

    ghost type_of = { λ d. Host T.ID };

    ghost its_types_pass = { λ d. as_host_its T.ID };

    ghost no_others_pass = { λ ty d e. as_host_no_other T.ID ty d e };

    fn typecheck(ty: ResourceType) -> Option<()> {
        if ty.is_host::<T>() { Some(()) } else { None }
    }

    fn resource_type(_: ()) -> ResourceType {
        ResourceType::host::<T>()
    }
}

/// A resource of the host type `T`. Its representation is a number of the host's.
#[derive(Drop)]
pub struct Resource<T> {
    inner: HostResource<Static<T>, ()>,
}

impl<T> Model for Resource<T> {
    ghost use Rattle.canon_resources.specs.Held.{HostHandle};

    ghost Value = { HostHandle (Unit {0}) };

    ghost view = { λ r. r.inner };
}

impl<T: HostType> Resource<T> {
    ghost use Rattle.canon_resources.specs.Held.{held, is_owned};
    ghost use Rattle.canon_resources.specs.Conversions.{Converted, from_any, into_any};
    ghost use Rattle.canon_resources.specs.declared.host.ResourceState.TheVariants as state;
    ghost use Rattle.canon_types.specs.declared.resource.ResourceType.TheVariants.{Host};
    ghost use Rattle.canon_resources.specs.Types.{as_host};

    /// An own handle of the host that is in no table yet.
    pub fn new_own(rep: u32) -> Self
        ensures { result ≡ held state.NotInTable rep tt }
    {
        Resource {
            inner: HostResource::new_own(rep, ()),
        }
    }

    /// A borrow of a representation.
    pub fn new_borrow(rep: u32) -> Self
        ensures { result ≡ held state.Borrow rep tt }
    {
        Resource {
            inner: HostResource::new_borrow(rep, ()),
        }
    }

    /// The representation.
    pub fn rep(&self) -> u32
        ensures { result ≡ self.now.rep }
    {
        self.inner.rep()
    }

    /// Whether it is no borrow.
    pub fn owned(&self) -> bool
        ensures { result ≡ is_owned self.now.state }
    {
        self.inner.owned()
    }

    /// Where its handle is.
    pub fn state(&self) -> ResourceState
        ensures { result ≡ self.now.state }
    {
        self.inner.state()
    }

    /// It was given away.
    pub fn take(&mut self)
        requires { self.old.state ≡ state.NotInTable }
        ensures { self.new ≡ held state.Taken self.old.rep self.old.ty }
    {
        self.inner.take();
    }

    /// It was put into the host's table at this index.
    pub fn place(&mut self, idx: HostResourceIndex)
        requires { self.old.state ≡ state.NotInTable }
        ensures { self.new ≡ held (state.Index idx) self.old.rep self.old.ty }
    {
        self.inner.place(idx);
    }

    /// The resource as one that carries its type. One that is in no table is put into the
    /// host's. After a refusal the value is gone and the tables are unchanged.
    pub fn try_into_resource_any(
        self,
        tables: &mut HostResourceTables<'_>,
    ) -> Result<ResourceAny, ResourceFault>
        requires scope_open { IsOpen (scope_in tables.old) (ledger_in tables.old) }
        ensures same_reference { reference_in tables.new ≡ reference_in tables.old }
        ensures same_types { types_in tables.new ≡ types_in tables.old }
        ensures same_scope { scope_in tables.new ≡ scope_in tables.old }
        ensures step { Converted self.state (into_any self.state self.rep (Host T.ID) (ledger_in tables.old)) result (ledger_in tables.old) (ledger_in tables.new) }
        ensures places { SamePlaces (ledger_in tables.old) (ledger_in tables.new) }
    {
        self.inner.try_into_resource_any(tables)
    }

    /// A resource of any type as one of this type. An own handle is taken out of the host's table, and
    /// a borrow handle is dropped there once its representation was read.
    pub fn try_from_resource_any(
        resource: ResourceAny,
        tables: &mut HostResourceTables<'_>,
    ) -> Result<Self, ResourceFault>
        requires scope_open { IsOpen (scope_in tables.old) (ledger_in tables.old) }
        ensures same_reference { reference_in tables.new ≡ reference_in tables.old }
        ensures same_types { types_in tables.new ≡ types_in tables.old }
        ensures same_scope { scope_in tables.new ≡ scope_in tables.old }
        ensures step { DidSurely (from_any (as_host T.ID resource.ty) resource.handle (ledger_in tables.old)) result (ledger_in tables.new) }
        ensures places { SamePlaces (ledger_in tables.old) (ledger_in tables.new) }
    {
        let inner = HostResource::try_from_resource_any(resource, tables)?;
        Ok(Resource { inner })
    }
}

impl<T> Debug for Resource<T> {
    fn fmt<W: fmt::Write>(&self, f: &mut Formatter<W>) -> fmt::Result {
        self.inner.fmt(f)
    }
}
