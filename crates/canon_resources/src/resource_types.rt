//! What the types say of a handle's resource type.

ghost use Rattle.std.specs.Prelude.{◌≡◌, ◌<◌, Some, length};
ghost use Rattle.canon_ledger.specs.Places.{HasType};
ghost use Rattle.canon_types.specs.Resource.{resource_type_at};
ghost use Rattle.canon_types.specs.Table.{HasResource};
ghost use Rattle.canon_resources.specs.Parts as parts;

use canon_abi::RuntimeInstance;
use canon_ledger::Ledger;
use canon_types::{InstanceType, ResourceKind, ResourceType, TypeResourceTableIndex};

/// Whether two resource types are the same.
fn same_type(a: &ResourceType, b: &ResourceType) -> bool
    ensures { result ≡ parts.same_type a.now b.now }
{
    match *a {
        ResourceType::Host(a) => match *b {
            ResourceType::Host(b) => a == b,
            _ => false,
        },
        ResourceType::HostDynamic(a) => match *b {
            ResourceType::HostDynamic(b) => a == b,
            _ => false,
        },
        ResourceType::Guest {
            store,
            instance,
            id,
        } => match *b {
            ResourceType::Guest {
                store: other_store,
                instance: other_instance,
                id: other_id,
            } => {
                store.as_u64() == other_store.as_u64()
                    && instance.as_u32() == other_instance.as_u32()
                    && id == other_id
            }
            _ => false,
        },
    }
}

/// Whether the resource type of this number is this one.
pub(crate) fn is_of_type(
    types: &InstanceType,
    ty: TypeResourceTableIndex,
    given: ResourceType,
) -> bool
    requires { HasResource types.now.types ty }
    ensures { result ≡ parts.is_of_type (resource_type_at types.now ty) given }
{
    same_type(&types.resource_type(ty), &given)
}

/// The number of the table of its instance.
pub fn table_for(ledger: &Ledger, types: &InstanceType, ty: TypeResourceTableIndex) -> u32
    requires { HasType (Some types.now.types) ty ledger.now }
    ensures number { result ≡ parts.table_for types.now ty }
    ensures within { result < length ledger.now.handles.tables }
{
    let _instances = ledger.instances(); // the ledger has 257 tables
    types.types().resource_table(ty).instance.as_u32() + 1
}

/// Whether its instance defines it itself.
pub fn is_defined_here(types: &InstanceType, ty: TypeResourceTableIndex) -> bool
    requires { HasResource types.now.types ty }
    ensures { result ≡ parts.is_defined_here types.now ty }
{
    types.types().resource_table(ty).defined_here
}

/// What the host keeps of an own handle of the type: the destructor and the instance, where a component defines it.
pub fn kept_for(
    types: &InstanceType,
    ty: TypeResourceTableIndex,
) -> (Option<u32>, Option<RuntimeInstance>)
    requires { HasResource types.now.types ty }
    ensures dtor { result.0 ≡ parts.dtor_for types.now ty }
    ensures instance { result.1 ≡ parts.instance_for types.now ty }
{
    let table = types.types().resource_table(ty);
    match table.kind {
        ResourceKind::Guest { dtor, .. } => (dtor, Some(table.instance)),
        ResourceKind::Host(_) | ResourceKind::HostDynamic(_) => (None, None),
    }
}
