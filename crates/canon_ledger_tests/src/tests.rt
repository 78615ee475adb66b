//! Worked examples on host indexes and on resources of a component. One function owns each ledger and lends it to another, which tells whether
//! each of its steps answers as it should.

ghost use Rattle.std.specs.Prelude.{◌≤◌};
ghost use Rattle.canon_ledger.specs.Ledger.{last_generation};

mod laws;
mod scopes;

use canon_abi::RuntimeInstance;
use canon_handles::{TypedResource, TypedResourceIndex};
use canon_ledger::{
    HostResourceData, HostResourceIndex, HostResourceTables, KnownTypes, Ledger, ResourceFault,
    ResourceTables, TableSlot, resource_drop_ret,
};
use canon_types::{
    ComponentTypes, ResourceKind, TypeBuilder, TypeError, TypeResourceTable, TypeResourceTableIndex,
};
use std::alloc::Global;

/// A resource of the host and one of the component, each with a table in two instances.
#[derive(Drop)]
struct Types {
    types: ComponentTypes,
    first_own: TypeResourceTableIndex,
    second_own: TypeResourceTableIndex,
    first_host: TypeResourceTableIndex,
}

fn table(instance: u32, kind: ResourceKind) -> TypeResourceTable {
    TypeResourceTable {
        instance: RuntimeInstance::from_u32(instance),
        kind,
        defined_here: false,
    }
}

fn two_instances(alloc: Global) -> Result<Types, TypeError> {
    let guest = ResourceKind::Guest { id: 4, dtor: None };
    let mut builder = TypeBuilder::new(alloc);
    let first_own = builder.add_resource_table(table(0, guest))?;
    let second_own = builder.add_resource_table(table(1, guest))?;
    let first_host = builder.add_resource_table(table(0, ResourceKind::HostDynamic(9)))?;
    Ok(Types {
        types: builder.finish(),
        first_own,
        second_own,
        first_host,
    })
}

/// What something answers of a new ledger with room for 100 handles, over an empty table of the host of this generation.
fn with_ledger<R, F: FnOnce(&mut Ledger) -> Option<R>>(
    alloc: Global,
    generation: u32,
    ask: F,
) -> Option<R>
    requires generation { generation ≤ last_generation }
    requires ask { F.IsAlwaysCallable ask }
{
    let host = HostResourceData::with_generation(alloc, generation);
    let mut ledger = Ledger::new(alloc, 100, host).ok()?;
    ask(&mut ledger)
}

/// The same of one of the first generation, and of the types of two instances.
fn with_types<R, F: FnOnce(&mut Ledger, &Types) -> Option<R>>(alloc: Global, ask: F) -> Option<R>
    requires { F.IsAlwaysCallable ask }
{
    let types = two_instances(alloc).ok()?;
    let mut ledger = Ledger::new(alloc, 100, HostResourceData::new(alloc)).ok()?;
    ask(&mut ledger, &types)
}

// What a call in a component answers; nothing where the type isn't known.
fn guest_lower_own(
    ledger: &mut Ledger,
    types: &ComponentTypes,
    rep: u32,
    ty: TypeResourceTableIndex,
) -> Option<Result<u32, ResourceFault>> {
    let current_scope = ledger.current();
    let mut tables = HostResourceTables::from_parts(ResourceTables {
        ledger,
        types: KnownTypes::of(types),
        current_scope,
    });
    if !tables.has_type(ty) {
        return None;
    }
    Some(tables.guest_resource_lower_own(rep, ty))
}

fn guest_lower_borrow(
    ledger: &mut Ledger,
    types: &ComponentTypes,
    rep: u32,
    ty: TypeResourceTableIndex,
) -> Option<Result<u32, ResourceFault>> {
    let current_scope = ledger.current();
    let mut tables = HostResourceTables::from_parts(ResourceTables {
        ledger,
        types: KnownTypes::of(types),
        current_scope,
    });
    if !tables.has_type(ty) {
        return None;
    }
    Some(tables.guest_resource_lower_borrow(rep, ty))
}

fn guest_lift_own(
    ledger: &mut Ledger,
    types: &ComponentTypes,
    index: u32,
    ty: TypeResourceTableIndex,
) -> Option<Result<u32, ResourceFault>> {
    let current_scope = ledger.current();
    let mut tables = HostResourceTables::from_parts(ResourceTables {
        ledger,
        types: KnownTypes::of(types),
        current_scope,
    });
    if !tables.has_type(ty) {
        return None;
    }
    Some(tables.guest_resource_lift_own(index, ty))
}

fn guest_lift_borrow(
    ledger: &mut Ledger,
    types: &ComponentTypes,
    index: u32,
    ty: TypeResourceTableIndex,
) -> Option<Result<u32, ResourceFault>> {
    let current_scope = ledger.current();
    let mut tables = HostResourceTables::from_parts(ResourceTables {
        ledger,
        types: KnownTypes::of(types),
        current_scope,
    });
    if !tables.has_type(ty) {
        return None;
    }
    Some(tables.guest_resource_lift_borrow(index, ty))
}

fn guest_drop(
    ledger: &mut Ledger,
    types: &ComponentTypes,
    index: u32,
    ty: TypeResourceTableIndex,
) -> Option<Result<Option<u32>, ResourceFault>> {
    let current_scope = ledger.current();
    let mut tables = ResourceTables {
        ledger,
        types: KnownTypes::of(types),
        current_scope,
    };
    if !tables.has_type(ty) {
        return None;
    }
    Some(tables.resource_drop(TypedResourceIndex::Component { ty, index }))
}

fn guest_new(
    ledger: &mut Ledger,
    types: &ComponentTypes,
    rep: u32,
    ty: TypeResourceTableIndex,
) -> Option<Result<u32, ResourceFault>> {
    let mut tables = ResourceTables {
        ledger,
        types: KnownTypes::of(types),
        current_scope: None,
    };
    if !tables.has_type(ty) {
        return None;
    }
    Some(tables.resource_new(TypedResource::Component { ty, rep }))
}

fn guest_rep(
    ledger: &mut Ledger,
    types: &ComponentTypes,
    index: u32,
    ty: TypeResourceTableIndex,
) -> Option<Result<u32, ResourceFault>> {
    let mut tables = ResourceTables {
        ledger,
        types: KnownTypes::of(types),
        current_scope: None,
    };
    if !tables.has_type(ty) {
        return None;
    }
    Some(tables.resource_rep(TypedResourceIndex::Component { ty, index }))
}

// A call in the current scope.
fn lift_borrow(ledger: &mut Ledger, idx: HostResourceIndex) -> Result<u32, ResourceFault> {
    let current_scope = ledger.current();
    let mut tables = HostResourceTables::from_parts(ResourceTables {
        ledger,
        types: KnownTypes::none(),
        current_scope,
    });
    tables.host_resource_lift_borrow(idx)
}

fn lower_borrow(ledger: &mut Ledger, rep: u32) -> Result<HostResourceIndex, ResourceFault> {
    let current_scope = ledger.current();
    let mut tables = HostResourceTables::from_parts(ResourceTables {
        ledger,
        types: KnownTypes::none(),
        current_scope,
    });
    tables.host_resource_lower_borrow(rep)
}

fn exit(ledger: &mut Ledger) -> Result<(), ResourceFault> {
    let current_scope = ledger.current();
    let mut tables = HostResourceTables::from_parts(ResourceTables {
        ledger,
        types: KnownTypes::none(),
        current_scope,
    });
    tables.validate_scope_exit()
}

#[test]
fn an_index_is_given_back_with_its_generation(rt: HostRuntime) {
    let index = HostResourceIndex::new(5, 2);
    assert!(rt; (index.index(), index.generation()) == (5, 2));
}

#[test]
fn a_removed_own_handle_answers_twice_its_representation_and_one(rt: HostRuntime) {
    assert!(rt; (resource_drop_ret(Some(7)), resource_drop_ret(None)) == (15, 0));
}

// The generation, the instance and the destructor of a slot.
fn kept(slot: TableSlot) -> (u32, Option<u32>, Option<u32>) {
    let instance = match slot.instance {
        Some(instance) => Some(instance.as_u32()),
        None => None,
    };
    (slot.generation, instance, slot.dtor)
}

/// Whether an index that is given again has another generation, and is refused by the old one.
fn given_again(ledger: &mut Ledger) -> Option<[bool; 6]> {
    let mut tables = HostResourceTables::new_host(ledger);
    let instance = RuntimeInstance::from_u32(3);
    let first = tables
        .host_resource_lower_own(7, Some(5), Some(instance))
        .ok()?;
    let slot = kept(tables.slot(first).ok()??);
    let (rep, gone) = tables.host_resource_drop(first).ok()??;
    let told = (slot, rep, kept(gone));
    let unknown = tables.host_resource_lift_own(first);
    let second = tables.host_resource_lower_own(8, None, None).ok()?;
    let refused = (
        unknown,
        tables.host_resource_lift_own(first),
        tables.slot(first).err(),
    );
    let want = (0, Some(3), Some(5));
    let gone = ResourceFault::HostDeallocated;
    Some([
        first == HostResourceIndex::new(1, 0),
        told == (want, 7, want),
        second == HostResourceIndex::new(1, 2),
        refused == (Err(ResourceFault::UnknownHandle(1)), Err(gone), Some(gone)),
        tables.slot(HostResourceIndex::new(2, 0)) == Ok(None),
        tables.host_resource_lift_own(second) == Ok(8),
    ])
}

#[test]
fn an_index_that_is_given_again_is_told_apart(rt: HostRuntime) {
    assert!(rt; with_ledger(rt.alloc(), 0, given_again) == Some([true; 6]));
}

/// Whether nothing is taken out where the generation can't grow.
fn nothing_taken(ledger: &mut Ledger) -> Option<[bool; 2]> {
    let mut tables = HostResourceTables::new_host(ledger);
    let index = tables.host_resource_lower_own(7, None, None).ok()?;
    let refused = (
        tables.host_resource_lift_own(index).err(),
        tables.host_resource_drop(index).err(),
    );
    let exhausted = Some(ResourceFault::GenerationExhausted);
    Some([refused == (exhausted, exhausted), ledger.live() == 1])
}

#[test]
fn the_last_generation_takes_nothing_out(rt: HostRuntime) {
    assert!(rt; with_ledger(rt.alloc(), 4_294_967_292, nothing_taken) == Some([true; 2]));
}

/// Whether the host lends nothing where no scope is open, and removes a handle once.
fn nothing_lent(ledger: &mut Ledger) -> Option<[bool; 2]> {
    let mut tables = HostResourceTables::new_host(ledger);
    let index = tables.host_resource_lower_own(7, None, None).ok()?;
    let refused = (
        tables.host_resource_lift_borrow(index).err(),
        tables.host_resource_lower_borrow(7).err(),
        tables.validate_scope_exit().err(),
    );
    let none = Some(ResourceFault::NoScope);
    let removed = (
        tables.host_resource_remove(index),
        tables.host_resource_remove(index),
    );
    Some([
        refused == (none, none, none),
        removed == (Ok(7), Err(ResourceFault::UnknownHandle(1))),
    ])
}

#[test]
fn the_host_lends_nothing_outside_a_call(rt: HostRuntime) {
    assert!(rt; with_ledger(rt.alloc(), 0, nothing_lent) == Some([true; 2]));
}

/// Whether two instances number their handles each for itself.
fn numbered_apart(ledger: &mut Ledger, types: &Types) -> Option<[bool; 3]> {
    let (first_own, second_own) = (types.first_own, types.second_own);
    let (types, first_host) = (&types.types, types.first_host);
    let made = (
        guest_new(ledger, types, 7, first_own),
        guest_new(ledger, types, 8, second_own),
        guest_new(ledger, types, 9, first_host),
        guest_rep(ledger, types, 1, second_own),
    );
    let taken = (
        guest_rep(ledger, types, 2, second_own),
        guest_lift_own(ledger, types, 1, first_host),
        guest_lift_own(ledger, types, 1, first_own),
    );
    let dropped = (
        guest_drop(ledger, types, 1, first_own),
        guest_drop(ledger, types, 2, first_host),
        ledger.live(),
    );
    let unknown = Some(Err(ResourceFault::UnknownHandle(2)));
    let mismatch = Some(Err(ResourceFault::ResourceTypeMismatch));
    let gone = Some(Err(ResourceFault::UnknownHandle(1)));
    Some([
        made == (Some(Ok(1)), Some(Ok(1)), Some(Ok(2)), Some(Ok(8))),
        taken == (unknown, mismatch, Some(Ok(7))),
        dropped == (gone, Some(Ok(Some(9))), 1),
    ])
}

#[test]
fn each_instance_has_a_table_of_its_own(rt: HostRuntime) {
    assert!(rt; with_types(rt.alloc(), numbered_apart) == Some([true; 3]));
}

// Whether a type is known to the tables with these types, and to tables without any.
fn known_inside(ledger: &mut Ledger, types: &ComponentTypes, ty: TypeResourceTableIndex) -> bool {
    let tables = ResourceTables {
        ledger,
        types: KnownTypes::of(types),
        current_scope: None,
    };
    tables.has_type(ty)
}

fn known_outside(ledger: &mut Ledger, ty: TypeResourceTableIndex) -> bool {
    let tables = ResourceTables {
        ledger,
        types: KnownTypes::none(),
        current_scope: None,
    };
    tables.has_type(ty)
}

fn known(ledger: &mut Ledger, types: &Types) -> Option<(bool, bool)> {
    let inside = known_inside(ledger, &types.types, types.second_own);
    let outside = known_outside(ledger, types.second_own);
    Some((inside, outside))
}

#[test]
fn a_type_is_unknown_outside_its_component(rt: HostRuntime) {
    assert!(rt; with_types(rt.alloc(), known) == Some((true, false)));
}

/// Whether a resource of the host that is lent to a call isn't given to it, and the call ends once it is given back.
fn lent_to_a_call(ledger: &mut Ledger, types: &Types) -> Option<[bool; 2]> {
    let (types, ty) = (&types.types, types.first_host);
    let mut tables = HostResourceTables::new_host(ledger);
    let index = tables.host_resource_lower_own(7, None, None).ok()?;
    ledger.enter().ok()?;
    let lent = (
        lift_borrow(ledger, index),
        guest_lower_borrow(ledger, types, 7, ty),
        HostResourceTables::new_host(ledger).host_resource_lift_own(index),
        ledger.live(),
    );
    let left = (
        exit(ledger),
        ledger.live(),
        guest_drop(ledger, types, 1, ty),
        exit(ledger),
        ledger.live(),
    );
    let still = Err(ResourceFault::StillLent(1));
    let remain = Err(ResourceFault::BorrowsRemain);
    Some([
        lent == (Ok(7), Some(Ok(1)), still, 3),
        left == (remain, 3, Some(Ok(None)), Ok(()), 1),
    ])
}

#[test]
fn a_resource_that_is_lent_to_a_call_is_not_given_to_it(rt: HostRuntime) {
    assert!(rt; with_types(rt.alloc(), lent_to_a_call) == Some([true; 2]));
}

/// Whether a resource that was given to the guest is gone from the table of the host.
fn given_away(ledger: &mut Ledger, types: &Types) -> Option<[bool; 3]> {
    let mut tables = HostResourceTables::new_host(ledger);
    let index = tables.host_resource_lower_own(7, None, None).ok()?;
    let given = (
        HostResourceTables::new_host(ledger).host_resource_lift_own(index),
        guest_lower_own(ledger, &types.types, 7, types.first_host),
        ledger.live(),
    );
    let mut tables = HostResourceTables::new_host(ledger);
    let unknown = tables.host_resource_lift_own(index);
    tables.host_resource_lower_own(8, None, None).ok()?;
    let gone = tables.host_resource_lift_own(index);
    Some([
        given == (Ok(7), Some(Ok(1)), 1),
        unknown == Err(ResourceFault::UnknownHandle(1)),
        gone == Err(ResourceFault::HostDeallocated),
    ])
}

#[test]
fn a_resource_that_was_given_away_is_gone(rt: HostRuntime) {
    assert!(rt; with_types(rt.alloc(), given_away) == Some([true; 3]));
}

/// Whether a borrow of the guest's resource is lent to the host until the call ends.
fn lent_by_the_guest(ledger: &mut Ledger, types: &Types) -> Option<[bool; 2]> {
    let (types, own) = (&types.types, types.first_own);
    let made = guest_new(ledger, types, 7, own);
    ledger.enter().ok()?;
    let lifted = guest_lift_borrow(ledger, types, 1, own);
    let index = lower_borrow(ledger, 7).ok()?;
    let lent = (ledger.live(), lift_borrow(ledger, index), ledger.live());
    let left = (
        guest_lift_own(ledger, types, 1, own),
        HostResourceTables::new_host(ledger).host_resource_drop(index),
        exit(ledger),
        guest_lift_own(ledger, types, 1, own),
    );
    let still = Some(Err(ResourceFault::StillLent(1)));
    Some([
        (made, lifted, lent) == (Some(Ok(1)), Some(Ok(7)), (3, Ok(7), 3)),
        left == (still, Ok(None), Ok(()), Some(Ok(7))),
    ])
}

#[test]
fn a_borrow_of_the_guest_is_a_borrow_handle_of_the_host(rt: HostRuntime) {
    assert!(rt; with_types(rt.alloc(), lent_by_the_guest) == Some([true; 2]));
}
