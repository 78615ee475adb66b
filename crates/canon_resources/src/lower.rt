//! Resources of the host that are lowered to a component.

ghost use Rattle.std.specs.Prelude.{◌≡◌, Some, false, true, ℕ};
ghost use Rattle.canon_ledger.specs.Ledger.{Did};
ghost use Rattle.canon_ledger.specs.Places.{HasType, SamePlaces};
ghost use Rattle.canon_resources.specs.Parts.{LeafMoves, do_part, lent_part, lower_parts, passed};

use crate::resource_types::{is_defined_here, is_of_type, table_for};
use crate::steps::{insert_borrow, insert_own, lend_host, take_host};
use crate::{ResourceAny, ResourceAnyHandle};
use canon_handles::TypedResource;
use canon_ledger::{Ledger, ResourceFault};
use canon_types::{InstanceType, TypeResourceTableIndex};

/// Lowers an own handle (CanonicalABI.md, "lower_own"): takes it out of the host's table and puts it into that of the type's instance.
/// Answers its index there. Refused `ResourceTypeMismatch` where the resource is of another type, and `BorrowAsOwn` where it is a borrow.
pub fn lower_own(
    ledger: &mut Ledger,
    types: &InstanceType,
    resource: ResourceAny,
    ty: TypeResourceTableIndex,
) -> Result<u32, ResourceFault>
    requires known { HasType (Some types.now.types) ty ledger.old }
    ensures moves { LeafMoves ledger.old ledger.new (lower_parts types.now (passed true ty resource)) result }
    ensures places { SamePlaces ledger.old ledger.new }
{
    let given = resource.ty();
    if !is_of_type(types, ty, given) {
        return Err(ResourceFault::ResourceTypeMismatch);
    }
    let index = match resource.host_index() {
        Some(index) => index,
        None => return Err(ResourceFault::BorrowAsOwn),
    };
    let table = table_for(ledger, types, ty);
    let rep = match take_host(ledger, index) {
        Ok(rep) => rep,
        Err(fault) => return Err(fault),
    };
    insert_own(ledger, table, TypedResource::Component { ty, rep })
}

/// The representation of a borrow: of a handle of the host's, which is lent, or of one that the host made.
fn lend_passed(ledger: &mut Ledger, resource: ResourceAny) -> Result<u32, ResourceFault>
    ensures step { (last : ℕ) → Did (do_part last (lent_part resource.handle) ledger.old) result ledger.old ledger.new }
    ensures places { SamePlaces ledger.old ledger.new }
{
    match resource.handle() {
        ResourceAnyHandle::Own(index) | ResourceAnyHandle::Borrow(index) => {
            lend_host(ledger, index)
        }
        ResourceAnyHandle::Synthetic(rep) => Ok(rep),
    }
}

/// Lowers a borrow (CanonicalABI.md, "lower_borrow"): the host lends it to the call of the top open scope, and a borrow handle is put
/// into the table of the type's instance. Answers its index there; where the instance defines the type itself, the representation.
/// Refused `ResourceTypeMismatch` where the resource is of another type, and `NoScope` outside any scope.
pub fn lower_borrow(
    ledger: &mut Ledger,
    types: &InstanceType,
    resource: ResourceAny,
    ty: TypeResourceTableIndex,
) -> Result<u32, ResourceFault>
    requires known { HasType (Some types.now.types) ty ledger.old }
    ensures moves { LeafMoves ledger.old ledger.new (lower_parts types.now (passed false ty resource)) result }
    ensures places { SamePlaces ledger.old ledger.new }
{
    if !is_of_type(types, ty, resource.ty()) {
        return Err(ResourceFault::ResourceTypeMismatch);
    }
    let table = table_for(ledger, types, ty);
    let rep = match lend_passed(ledger, resource) {
        Ok(rep) => rep,
        Err(fault) => return Err(fault),
    };
    if is_defined_here(types, ty) {
        return Ok(rep);
    }
    insert_borrow(ledger, table, TypedResource::Component { ty, rep })
}
