//! Handles of a component that are lifted to resources of the host.

ghost use Rattle.std.specs.Prelude.{◌≡◌, Some, false, true};
ghost use Rattle.canon_ledger.specs.Places.{HasType, SamePlaces};
ghost use Rattle.canon_model.specs.Leaves.{leaf};
ghost use Rattle.canon_resources.specs.Parts.{LeafLifts, LeafMoves, lifted_parts};

use crate::ResourceAny;
use crate::resource_types::{kept_for, table_for};
use crate::steps::{insert_borrow, insert_host, lend_at, take_at};
use canon_handles::{TypedResource, TypedResourceIndex};
use canon_ledger::{HostResourceIndex, Ledger, ResourceFault};
use canon_types::{InstanceType, TypeResourceTableIndex};

/// Moves an own handle from its instance's table to the host's, and answers its index there.
fn take_in(
    ledger: &mut Ledger,
    types: &InstanceType,
    index: u32,
    ty: TypeResourceTableIndex,
) -> Result<u32, ResourceFault>
    requires known { HasType (Some types.now.types) ty ledger.old }
    ensures moves { LeafMoves ledger.old ledger.new (lifted_parts true types.now ty index) result }
    ensures places { SamePlaces ledger.old ledger.new }
{
    let table = table_for(ledger, types, ty);
    let (dtor, instance) = kept_for(types, ty);
    let rep = match take_at(ledger, table, TypedResourceIndex::Component { ty, index }) {
        Ok(rep) => rep,
        Err(fault) => return Err(fault),
    };
    insert_host(ledger, rep, dtor, instance)
}

/// Lends a handle of its instance's table to the host, and answers the index of the borrow handle in the host's.
fn lend_in(
    ledger: &mut Ledger,
    types: &InstanceType,
    index: u32,
    ty: TypeResourceTableIndex,
) -> Result<u32, ResourceFault>
    requires known { HasType (Some types.now.types) ty ledger.old }
    ensures moves { LeafMoves ledger.old ledger.new (lifted_parts false types.now ty index) result }
    ensures places { SamePlaces ledger.old ledger.new }
{
    let table = table_for(ledger, types, ty);
    let rep = match lend_at(ledger, table, TypedResourceIndex::Component { ty, index }) {
        Ok(rep) => rep,
        Err(fault) => return Err(fault),
    };
    let table = ledger.host_table();
    insert_borrow(ledger, table, TypedResource::Host(rep))
}

/// Lifts an own handle (CanonicalABI.md, "lift_own"): takes it out of the table of the type's instance and puts it into the host's, with
/// the destructor and the instance where a component defines the type.
pub fn lift_own(
    ledger: &mut Ledger,
    types: &InstanceType,
    index: u32,
    ty: TypeResourceTableIndex,
) -> Result<ResourceAny, ResourceFault>
    requires known { HasType (Some types.now.types) ty ledger.old }
    ensures lifts { LeafLifts types.now ledger.old ledger.new (leaf true ty index) result }
    ensures places { SamePlaces ledger.old ledger.new }
{
    let generation = ledger.generation();
    let its_type = types.resource_type(ty);
    match take_in(ledger, types, index, ty) {
        Ok(handle) => Ok(ResourceAny::new(
            HostResourceIndex::new(handle, generation),
            its_type,
            true,
        )),
        Err(fault) => Err(fault),
    }
}

/// Lifts a borrow (CanonicalABI.md, "lift_borrow"): the instance lends it to the call of the top open scope, and a borrow handle is put
/// into the host's table.
pub fn lift_borrow(
    ledger: &mut Ledger,
    types: &InstanceType,
    index: u32,
    ty: TypeResourceTableIndex,
) -> Result<ResourceAny, ResourceFault>
    requires known { HasType (Some types.now.types) ty ledger.old }
    ensures lifts { LeafLifts types.now ledger.old ledger.new (leaf false ty index) result }
    ensures places { SamePlaces ledger.old ledger.new }
{
    let generation = ledger.generation();
    let its_type = types.resource_type(ty);
    match lend_in(ledger, types, index, ty) {
        Ok(handle) => Ok(ResourceAny::new(
            HostResourceIndex::new(handle, generation),
            its_type,
            false,
        )),
        Err(fault) => Err(fault),
    }
}
