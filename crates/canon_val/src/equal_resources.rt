//! When two resources are equal: where they are of one type, and have one handle or one representation.

ghost use Rattle.std.specs.Prelude.{◌≡◌};
ghost use Rattle.canon_resources.specs.Parts.{same_type};
ghost use Rattle.canon_val.specs.Equal.{same_handle, same_resource};

use canon_resources::{ResourceAny, ResourceType};

pub(crate) fn are_resources_equal(a: &ResourceAny, b: &ResourceAny) -> bool
    ensures { result ≡ same_resource a.now b.now }
{
    are_handles_equal(a, b) && are_types_equal(a.ty(), b.ty())
}

fn are_handles_equal(a: &ResourceAny, b: &ResourceAny) -> bool
    ensures { result ≡ same_handle a.now.handle b.now.handle }
{
    match (a.host_index(), b.host_index()) {
        (Some(x), Some(y)) => {
            a.owned() == b.owned() && x.index() == y.index() && x.generation() == y.generation()
        }
        (None, None) => match (a.synthetic_rep(), b.synthetic_rep()) {
            (Some(x), Some(y)) => x == y,
            _ => false,
        },
        _ => false,
    }
}

fn are_types_equal(a: ResourceType, b: ResourceType) -> bool
    ensures { result ≡ same_type a b }
{
    match a {
        ResourceType::Host(a) => match b {
            ResourceType::Host(b) => a == b,
            _ => false,
        },
        ResourceType::HostDynamic(a) => match b {
            ResourceType::HostDynamic(b) => a == b,
            _ => false,
        },
        ResourceType::Guest {
            store,
            instance,
            id,
        } => match b {
            ResourceType::Guest {
                store: other_store,
                instance: other_instance,
                id: other_id,
            } => {
                store.as_u64() == other_store.as_u64()
                    && instance.as_u32() == other_instance.as_u32()
                    && id == other_id
            }
            _ => false,
        },
    }
}
