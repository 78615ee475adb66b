//! A resource that carries its type.

ghost use Rattle.std.specs.Prelude.{◌≡◌, true, false, map, Some, None};

use canon_ledger::HostResourceIndex;
use canon_types::ResourceType;
use std::marker::Model;

/// What a resource of any type is to the host: a handle of its table, own or borrow, or a borrow of
/// its own making, which has the representation and no handle.
#[derive(Clone, Copy, Debug, PartialEq, Eq)]
pub enum ResourceAnyHandle {
    /// An own handle of the host's table.
    Own(HostResourceIndex),
    /// A borrow handle of the host's table.
    Borrow(HostResourceIndex),
    /// A borrow without a handle, of this representation.
    Synthetic(u32),
}

/// A resource of any type, the host's or a component's. It keeps an index of the host's table, whose
/// handle stays until it is dropped or taken out; or it is a borrow that the host made of a
/// representation, which has no handle.
#[derive(Clone, Copy, Debug, PartialEq, Eq)]
pub struct ResourceAny {
    handle: ResourceAnyHandle,
    ty: ResourceType,
}

impl Model for ResourceAny {
    ghost use Rattle.canon_resources.specs.Held.{Any};

    ghost Value = { Any };

    ghost view = { λ a. record { handle = a.handle; ty = a.ty } };

    ghost inverse = { λ a. record { handle = a.handle; ty = a.ty } };
}

impl ResourceAny {
    ghost use Rattle.canon_resources.specs.Held.{any, host_index, is_own_handle, synthetic_rep, table_handle};
    ghost use Rattle.canon_resources.specs.declared.any.ResourceAnyHandle.TheVariants.{Synthetic};

    /// A resource with a handle of the host's table, an own or a borrow handle.
    pub fn new(idx: HostResourceIndex, ty: ResourceType, owned: bool) -> Self
        ensures { result ≡ any (table_handle idx owned) ty }
    {
        let handle = if owned {
            ResourceAnyHandle::Own(idx)
        } else {
            ResourceAnyHandle::Borrow(idx)
        };
        ResourceAny { handle, ty }
    }

    /// A borrow of a representation, without a handle.
    pub fn new_borrow(rep: u32, ty: ResourceType) -> Self
        ensures { result ≡ any (Synthetic rep) ty }
    {
        ResourceAny {
            handle: ResourceAnyHandle::Synthetic(rep),
            ty,
        }
    }

    /// The type.
    pub fn ty(&self) -> ResourceType
        ensures { result ≡ self.now.ty }
    {
        self.ty
    }

    /// Whether it is an own handle.
    pub fn owned(&self) -> bool
        ensures { result ≡ is_own_handle self.now.handle }
    {
        match self.handle {
            ResourceAnyHandle::Own(_) => true,
            ResourceAnyHandle::Borrow(_) | ResourceAnyHandle::Synthetic(_) => false,
        }
    }

    /// The index of its handle; nothing for a borrow that the host made.
    pub fn host_index(&self) -> Option<HostResourceIndex>
        ensures { result ≡ host_index self.now.handle }
    {
        match self.handle {
            ResourceAnyHandle::Own(idx) | ResourceAnyHandle::Borrow(idx) => Some(idx),
            ResourceAnyHandle::Synthetic(_) => None,
        }
    }

    /// The representation of a borrow that the host made; nothing for one that has a handle.
    pub fn synthetic_rep(&self) -> Option<u32>
        ensures { result ≡ synthetic_rep self.now.handle }
    {
        match self.handle {
            ResourceAnyHandle::Synthetic(rep) => Some(rep),
            ResourceAnyHandle::Own(_) | ResourceAnyHandle::Borrow(_) => None,
        }
    }

    /// The handle.
    pub fn handle(&self) -> ResourceAnyHandle
        ensures { result ≡ self.now.handle }
    {
        self.handle
    }
}
