//! How a host resource becomes one that carries its type.

ghost use Rattle.std.specs.Prelude.{◌≡◌};
ghost use Rattle.canon_resources.specs.Conversions.{Converted, into_any};
ghost use Rattle.canon_ledger.specs.Books.{IsOpen};
ghost use Rattle.canon_ledger.specs.Places.{SamePlaces};
ghost use Rattle.canon_ledger.specs.Reached.{ledger_in, reference_in, scope_in, types_in};

use crate::any::ResourceAny;
use crate::host::ResourceState;
use canon_ledger::{HostResourceTables, ResourceFault};
use canon_types::ResourceType;

/// A host resource as one that carries its type. One that is in no table is put into the
/// host's.
pub(crate) fn into_any(
    state: ResourceState,
    rep: u32,
    ty: ResourceType,
    tables: &mut HostResourceTables<'_>,
) -> Result<ResourceAny, ResourceFault>
    requires { IsOpen (scope_in tables.old) (ledger_in tables.old) }
    ensures same_reference { reference_in tables.new ≡ reference_in tables.old }
    ensures same_types { types_in tables.new ≡ types_in tables.old }
    ensures same_scope { scope_in tables.new ≡ scope_in tables.old }
    ensures step { Converted state (into_any state rep ty (ledger_in tables.old)) result (ledger_in tables.old) (ledger_in tables.new) }
    ensures places { SamePlaces (ledger_in tables.old) (ledger_in tables.new) }
{
    match state {
        ResourceState::Borrow => Ok(ResourceAny::new_borrow(rep, ty)),
        ResourceState::NotInTable => {
            let idx = tables.host_resource_lower_own(rep, None, None)?;
            Ok(ResourceAny::new(idx, ty, true))
        }
        ResourceState::Taken => Err(ResourceFault::HostConsumed),
        ResourceState::Index(idx) => Ok(ResourceAny::new(idx, ty, true)),
    }
}
