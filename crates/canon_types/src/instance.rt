//! A component's types in a store, by which a resource has its type.

ghost use Rattle.std.specs.Prelude.{◌≡◌, ℕ};
ghost use Rattle.canon_types.specs.Table.{TypeTable};
ghost use Rattle.canon_types.specs.Instance.{Instance};

use crate::{ComponentTypes, ResourceKind, ResourceType, StoreId, TypeResourceTableIndex};
use std::marker::Model;

/// A component's types in a store. Contracts see the table and the store's number.
#[derive(Drop)]
pub struct InstanceType {
    types: ComponentTypes,
    store: StoreId,
}

impl Model for InstanceType {
    ghost Value = { Instance };

    ghost view = { λ i. record { types = i.types; store = i.store } };
}

impl InstanceType {
    ghost use Rattle.std.specs.Prelude.{Some};
    ghost use Rattle.canon_types.specs.Table.{HasResource};
    ghost use Rattle.canon_types.specs.Resource.{resource_type_at};

    /// These types in the store of this number.
    pub fn new(types: ComponentTypes, store: StoreId) -> Self
        ensures types { result.types ≡ types }
        ensures store { result.store ≡ store }
    {
        InstanceType { types, store }
    }

    /// The table of the types.
    pub fn types(&self) -> &ComponentTypes
        ensures { result.now ≡ self.now.types }
    {
        &self.types
    }

    /// The type of a resource, by its table: the host's type of its number, or the one that the
    /// instance defines in this store.
    pub fn resource_type(&self, t: TypeResourceTableIndex) -> ResourceType
        requires { HasResource self.now.types t }
        ensures { resource_type_at self.now t ≡ Some result }
    {
        let table = self.types.resource_table(t);
        match table.kind {
            ResourceKind::Host(id) => ResourceType::Host(id),
            ResourceKind::HostDynamic(payload) => ResourceType::HostDynamic(payload),
            ResourceKind::Guest { id, .. } => ResourceType::guest(self.store, table.instance, id),
        }
    }
}
