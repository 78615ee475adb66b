//! Doors, which are resources of the host, and a core that has their type.

use canon_resources::HostResourceType;
use canon_test_core::{TestCore, handles_of, memory_of, with_core};
use canon_types::{HostType, InterfaceType, ResourceKind, ResourceType, StringEncoding};
use std::alloc::Global;

pub(crate) struct Door;

impl HostType for Door {
    ghost ID = { 7 };

    const ID: u32 = 7;
}

/// The kind of the resources that are doors.
pub(crate) struct Doors;

impl HostResourceType<()> for Doors {
    ghost use Rattle.canon_types.specs.declared.resource.ResourceType.TheVariants.{Host};
    ghost use Rattle.canon_resources.specs.Types.{as_host};
    ghost use Rattle.canon_resources.specs.TypeLaws.{as_host_its, as_host_no_other};

    ghost checked = { as_host 7 };

    ghost type_of = { λ d. Host 7 };

    ghost its_types_pass = { λ d. as_host_its 7 };

    ghost no_others_pass = { λ ty d e. as_host_no_other 7 ty d e };

    fn typecheck(ty: ResourceType) -> Option<()> {
        if ty.is_host::<Door>() { Some(()) } else { None }
    }

    fn resource_type(_: ()) -> ResourceType {
        ResourceType::host::<Door>()
    }
}

/// What is answered of a core with a resource type of a kind, and the type of its own handles or of its borrows.
pub(crate) fn with_handles<R, F: FnOnce(Global, &mut TestCore, &InterfaceType) -> Option<R>>(
    alloc: Global,
    kind: ResourceKind,
    owned: bool,
    ask: F,
) -> Option<R>
    requires { F.IsAlwaysCallable ask }
{
    let types = handles_of(alloc, kind, owned);
    with_core(
        alloc,
        StringEncoding::Utf8,
        memory_of(alloc, &[]),
        types,
        ask,
    )
}
