//! Worked examples. One function owns each ledger and lends it to another, which tells whether each of its steps answers as it should.

ghost use Rattle.std.specs.Prelude.{◌↔◌, IsTrue, Some};
ghost use Rattle.canon_ledger.specs.Places.{HasType};

use canon_abi::{RuntimeInstance, StoreId};
use canon_handles::Scope;
use canon_ledger::{
    HostResourceData, HostResourceIndex, HostResourceTables, KnownTypes, Ledger, ResourceFault,
    ResourceTables, TableSlot,
};
use canon_resources::{ResourceAny, lift_borrow, lift_own, lower_borrow, lower_own};
use canon_types::{
    InstanceType, InterfaceType, ResourceKind, ResourceType, TypeBuilder, TypeError,
    TypeResourceTable, TypeResourceTableIndex,
};
use std::alloc::Global;

/// A component whose instance 0 defines a resource type, which instance 1 uses, as it does one of the host.
#[derive(Drop)]
struct Types {
    types: InstanceType,
    defined: TypeResourceTableIndex,
    used: TypeResourceTableIndex,
    host: TypeResourceTableIndex,
}

fn table(instance: u32, kind: ResourceKind, defined_here: bool) -> TypeResourceTable {
    TypeResourceTable {
        instance: RuntimeInstance::from_u32(instance),
        kind,
        defined_here,
    }
}

fn three_types(alloc: Global) -> Result<Types, TypeError> {
    let guest = ResourceKind::Guest {
        id: 4,
        dtor: Some(9),
    };
    let mut builder = TypeBuilder::new(alloc);
    let defined = builder.add_resource_table(table(0, guest, true))?;
    let used = builder.add_resource_table(table(1, guest, false))?;
    let host = builder.add_resource_table(table(1, ResourceKind::HostDynamic(5), false))?;
    Ok(Types {
        types: InstanceType::new(builder.finish(), StoreId::from_u64(7)),
        defined,
        used,
        host,
    })
}

/// What something answers of a new ledger of the three types, with room for 100 handles.
fn with_ledger<R, F: FnOnce(&mut Ledger, &Types) -> Option<R>>(alloc: Global, ask: F) -> Option<R>
    requires { F.IsAlwaysCallable ask }
{
    let all = three_types(alloc).ok()?;
    let mut ledger = Ledger::new(alloc, 100, HostResourceData::new(alloc)).ok()?;
    ask(&mut ledger, &all)
}

fn known(ledger: &Ledger, types: &InstanceType, ty: TypeResourceTableIndex) -> bool
    ensures { IsTrue result ↔ HasType (Some types.now.types) ty ledger.now }
{
    let instances = ledger.instances();
    let types = types.types();
    types.contains(&InterfaceType::Own(ty))
        && types.resource_table(ty).instance.as_u32() < instances
}

// What is answered; nothing where the type isn't known.
fn lowered(
    ledger: &mut Ledger,
    types: &InstanceType,
    owned: bool,
    resource: ResourceAny,
    ty: TypeResourceTableIndex,
) -> Option<Result<u32, ResourceFault>> {
    if !known(ledger, types, ty) {
        return None;
    }
    if owned {
        return Some(lower_own(ledger, types, resource, ty));
    }
    Some(lower_borrow(ledger, types, resource, ty))
}

fn lifted(
    ledger: &mut Ledger,
    types: &InstanceType,
    owned: bool,
    index: u32,
    ty: TypeResourceTableIndex,
) -> Option<Result<ResourceAny, ResourceFault>> {
    if !known(ledger, types, ty) {
        return None;
    }
    if owned {
        return Some(lift_own(ledger, types, index, ty));
    }
    Some(lift_borrow(ledger, types, index, ty))
}

fn host_own(ledger: &mut Ledger, rep: u32) -> Result<HostResourceIndex, ResourceFault> {
    HostResourceTables::new_host(ledger).host_resource_lower_own(rep, None, None)
}

fn slot(ledger: &mut Ledger, index: HostResourceIndex) -> Result<Option<TableSlot>, ResourceFault> {
    HostResourceTables::new_host(ledger).slot(index)
}

// A new own handle in a component; nothing where the type isn't known.
fn guest_own(
    ledger: &mut Ledger,
    types: &InstanceType,
    rep: u32,
    ty: TypeResourceTableIndex,
) -> Option<Result<u32, ResourceFault>> {
    let current_scope = ledger.current();
    let mut tables = HostResourceTables::from_parts(ResourceTables {
        ledger,
        types: KnownTypes::of(types.types()),
        current_scope,
    });
    if !tables.has_type(ty) {
        return None;
    }
    Some(tables.guest_resource_lower_own(rep, ty))
}

// The lenders and the borrow count of the scope 0.
fn counts(ledger: &Ledger) -> Option<(usize, u64)> {
    match ledger.context(Scope::Id(0)) {
        None => None,
        Some(context) => Some((context.lenders().len(), context.borrow_count())),
    }
}

/// Whether a handle goes into a component and comes back, and isn't given twice, or as one of another type.
fn there_and_back(ledger: &mut Ledger, all: &Types) -> Option<[bool; 5]> {
    let (types, host) = (&all.types, all.host);
    let its_type = ResourceType::host_dynamic(5);
    let first = ResourceAny::new(host_own(ledger, 7).ok()?, its_type, true);
    let given = lowered(ledger, types, true, first, host);
    let live = ledger.live();
    // the host's table gives its index 1 again, in the generation after the first removal
    let second = ResourceAny::new(HostResourceIndex::new(1, 1), its_type, true);
    let taken = lifted(ledger, types, true, 1, host);
    let twice = lowered(ledger, types, true, first, host);
    let other = lowered(ledger, types, true, second, all.used);
    Some([
        given == Some(Ok(1)),
        live == 1,
        taken == Some(Ok(second)),
        twice == Some(Err(ResourceFault::HostDeallocated)),
        other == Some(Err(ResourceFault::ResourceTypeMismatch)),
    ])
}

#[test]
fn an_own_handle_moves_there_and_back(rt: HostRuntime) {
    assert!(rt; with_ledger(rt.alloc(), there_and_back) == Some([true; 5]));
}

/// Whether the host's slot of a handle that a component gave names the destructor.
fn kept_with_the_handle(ledger: &mut Ledger, all: &Types) -> Option<[bool; 3]> {
    let (types, used) = (&all.types, all.used);
    let instance = RuntimeInstance::from_u32(1);
    let its_type = ResourceType::guest(StoreId::from_u64(7), instance, 4);
    let index = HostResourceIndex::new(1, 0);
    let given = guest_own(ledger, types, 7, used);
    let taken = lifted(ledger, types, true, 1, used);
    let kept = TableSlot {
        generation: 0,
        instance: Some(instance),
        dtor: Some(9),
    };
    Some([
        given == Some(Ok(1)),
        taken == Some(Ok(ResourceAny::new(index, its_type, true))),
        slot(ledger, index) == Ok(Some(kept)),
    ])
}

#[test]
fn the_host_keeps_the_destructor_of_a_component(rt: HostRuntime) {
    assert!(rt; with_ledger(rt.alloc(), kept_with_the_handle) == Some([true; 3]));
}

/// Whether a resource of the host is lent only within a scope, and not given meanwhile.
fn lent_in_a_scope(ledger: &mut Ledger, all: &Types) -> Option<[bool; 5]> {
    let (types, host) = (&all.types, all.host);
    let its_type = ResourceType::host_dynamic(5);
    let resource = ResourceAny::new(host_own(ledger, 7).ok()?, its_type, true);
    let outside = lowered(ledger, types, false, resource, host);
    let entered = ledger.enter();
    let inside = lowered(ledger, types, false, resource, host);
    let counted = counts(ledger);
    let given = lowered(ledger, types, true, resource, host);
    Some([
        outside == Some(Err(ResourceFault::NoScope)),
        entered == Ok(Scope::Id(0)),
        inside == Some(Ok(1)),
        counted == Some((1, 1)),
        given == Some(Err(ResourceFault::StillLent(1))),
    ])
}

/// The same, and then whether the borrow handle is lent on, and is no own handle.
fn lent_on(ledger: &mut Ledger, all: &Types) -> Option<([bool; 5], [bool; 3])> {
    let told = lent_in_a_scope(ledger, all)?;
    let (types, host) = (&all.types, all.host);
    let its_type = ResourceType::host_dynamic(5);
    let lent = ResourceAny::new(HostResourceIndex::new(2, 1), its_type, false);
    let taken = lifted(ledger, types, false, 1, host);
    let counted = counts(ledger);
    let given = lowered(ledger, types, true, lent, host);
    let on = [
        taken == Some(Ok(lent)),
        counted == Some((1, 2)),
        given == Some(Err(ResourceFault::BorrowAsOwn)),
    ];
    Some((told, on))
}

#[test]
fn a_borrow_is_lent_within_a_scope(rt: HostRuntime) {
    assert!(rt; with_ledger(rt.alloc(), lent_on) == Some(([true; 5], [true; 3])));
}

/// Whether an instance that defines a type gets the representation of a borrow, and no own handle of it.
fn given_to_its_own(ledger: &mut Ledger, all: &Types) -> Option<[bool; 3]> {
    let (types, defined) = (&all.types, all.defined);
    let its_type = ResourceType::guest(StoreId::from_u64(7), RuntimeInstance::from_u32(0), 4);
    let made = ResourceAny::new_borrow(33, its_type);
    let borrowed = lowered(ledger, types, false, made, defined);
    let owned = lowered(ledger, types, true, made, defined);
    Some([
        borrowed == Some(Ok(33)),
        owned == Some(Err(ResourceFault::BorrowAsOwn)),
        ledger.live() == 0,
    ])
}

#[test]
fn an_instance_gets_the_representation_of_its_own(rt: HostRuntime) {
    assert!(rt; with_ledger(rt.alloc(), given_to_its_own) == Some([true; 3]));
}
