//! The types that resources are of.

ghost use Rattle.std.specs.Prelude.{◌≡◌, ℕ};

use crate::{RuntimeInstance, StoreId};

/// A Rust type that stands for a type of the host's resources, with a number that no other such
/// type has.
pub trait HostType {
    /// The number, for contracts.
    ghost ID: { ℕ };

    /// The number.
    const ID: u32;
}

/// The type of a resource. Two are equal where they were made of the same.
#[derive(Clone, Copy, Debug, PartialEq, Eq)]
pub enum ResourceType {
    /// A type of the host, by the number of its `HostType`.
    Host(u32),
    /// A type of the host that is told by a number alone.
    HostDynamic(u32),
    /// A resource that an instance of a store defines.
    Guest {
        store: StoreId,
        instance: RuntimeInstance,
        id: u32,
    },
}

impl ResourceType {
    ghost use Rattle.canon_types.specs.Resource.{as_host_dynamic, is_host};
    ghost use Rattle.canon_types.specs.declared.resource.ResourceType.TheVariants.{Guest, Host, HostDynamic};

    /// The type of a `HostType`.
    pub fn host<T: HostType>() -> Self
        ensures { result ≡ Host T.ID }
    {
        ResourceType::Host(T::ID)
    }

    /// The type of the host that this number tells.
    pub fn host_dynamic(payload: u32) -> Self
        ensures { result ≡ HostDynamic payload }
    {
        ResourceType::HostDynamic(payload)
    }

    /// The type that the instance of a store defines by this number.
    pub fn guest(store: StoreId, instance: RuntimeInstance, id: u32) -> Self
        ensures { result ≡ Guest store instance id }
    {
        ResourceType::Guest {
            store,
            instance,
            id,
        }
    }

    /// Whether it is the type of this `HostType`.
    pub fn is_host<T: HostType>(&self) -> bool
        ensures { result ≡ is_host T.ID self.now }
    {
        match *self {
            ResourceType::Host(id) => id == T::ID,
            _ => false,
        }
    }

    /// The number that tells a type of the host, where one does.
    pub fn as_host_dynamic(&self) -> Option<u32>
        ensures { result ≡ as_host_dynamic self.now }
    {
        match *self {
            ResourceType::HostDynamic(payload) => Some(payload),
            _ => None,
        }
    }
}
