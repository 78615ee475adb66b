//! The conversions of a resource that carries its type.

ghost use Rattle.std.specs.Prelude.{◌≡◌};
ghost use Rattle.canon_types.specs.Resource.{as_host_dynamic};
ghost use Rattle.canon_types.specs.declared.resource.ResourceType.TheVariants.{Host};
ghost use Rattle.canon_ledger.specs.Books.{DidSurely, IsOpen};
ghost use Rattle.canon_ledger.specs.Places.{SamePlaces};
ghost use Rattle.canon_ledger.specs.Reached.{ledger_in, reference_in, scope_in, types_in};
ghost use Rattle.canon_resources.specs.Conversions.{Converted, from_any, into_any};
ghost use Rattle.canon_resources.specs.Types.{as_host};

use crate::any::ResourceAny;
use crate::dynamic::ResourceDynamic;
use crate::fixed::Resource;
use canon_ledger::{HostResourceTables, ResourceFault};
use canon_types::HostType;

impl ResourceAny {
    /// A resource of a host type as one that carries its type, as
    /// `Resource::try_into_resource_any`.
    pub fn try_from_resource<T: HostType>(
        resource: Resource<T>,
        tables: &mut HostResourceTables<'_>,
    ) -> Result<ResourceAny, ResourceFault>
        requires scope_open { IsOpen (scope_in tables.old) (ledger_in tables.old) }
        ensures same_reference { reference_in tables.new ≡ reference_in tables.old }
        ensures same_types { types_in tables.new ≡ types_in tables.old }
        ensures same_scope { scope_in tables.new ≡ scope_in tables.old }
        ensures step { Converted resource.state (into_any resource.state resource.rep (Host T.ID) (ledger_in tables.old)) result (ledger_in tables.old) (ledger_in tables.new) }
        ensures places { SamePlaces (ledger_in tables.old) (ledger_in tables.new) }
    {
        resource.try_into_resource_any(tables)
    }

    /// The resource as one of a host type, as `Resource::try_from_resource_any`.
    pub fn try_into_resource<T: HostType>(
        self,
        tables: &mut HostResourceTables<'_>,
    ) -> Result<Resource<T>, ResourceFault>
        requires scope_open { IsOpen (scope_in tables.old) (ledger_in tables.old) }
        ensures same_reference { reference_in tables.new ≡ reference_in tables.old }
        ensures same_types { types_in tables.new ≡ types_in tables.old }
        ensures same_scope { scope_in tables.new ≡ scope_in tables.old }
        ensures step { DidSurely (from_any (as_host T.ID self.ty) self.handle (ledger_in tables.old)) result (ledger_in tables.new) }
        ensures places { SamePlaces (ledger_in tables.old) (ledger_in tables.new) }
    {
        Resource::try_from_resource_any(self, tables)
    }

    /// The resource as one of a type that a number gives, as
    /// `ResourceDynamic::try_from_resource_any`.
    pub fn try_into_resource_dynamic(
        self,
        tables: &mut HostResourceTables<'_>,
    ) -> Result<ResourceDynamic, ResourceFault>
        requires scope_open { IsOpen (scope_in tables.old) (ledger_in tables.old) }
        ensures same_reference { reference_in tables.new ≡ reference_in tables.old }
        ensures same_types { types_in tables.new ≡ types_in tables.old }
        ensures same_scope { scope_in tables.new ≡ scope_in tables.old }
        ensures step { DidSurely (from_any (as_host_dynamic self.ty) self.handle (ledger_in tables.old)) result (ledger_in tables.new) }
        ensures places { SamePlaces (ledger_in tables.old) (ledger_in tables.new) }
    {
        ResourceDynamic::try_from_resource_any(self, tables)
    }
}
