//! Worked examples, and each public call once. One function owns each ledger and lends it to another, which tells whether each of its steps
//! answers as it should.

use canon_abi::{RuntimeInstance, StoreId};
use canon_ledger::{
    HostResourceData, HostResourceIndex, HostResourceTables, KnownTypes, Ledger, ResourceFault,
    ResourceTables,
};
use canon_resources::{
    HostResource, HostResourceType, HostType, Resource, ResourceAny, ResourceDynamic,
    ResourceState, ResourceType,
};
use std::alloc::Global;
use std::fmt::Debug;

/// A host type of the examples.
struct File;

impl HostType for File {
    ghost ID = { 3 };

    const ID: u32 = 3;
}

/// Another one.
struct Socket;

impl HostType for Socket {
    ghost ID = { 4 };

    const ID: u32 = 4;
}

/// A kind of resources whose types numbers tell.
struct Numbered;

impl HostResourceType<u32> for Numbered {
    ghost use Rattle.canon_types.specs.declared.resource.ResourceType.TheVariants.{HostDynamic};
    ghost use Rattle.canon_types.specs.Resource.{as_host_dynamic};
    ghost use Rattle.canon_resources.specs.TypeLaws.{as_dynamic_its, as_dynamic_no_other};

    ghost checked = { as_host_dynamic };

    ghost type_of = { λ d. HostDynamic d };

    ghost its_types_pass = { as_dynamic_its };

    ghost no_others_pass = { as_dynamic_no_other };

    fn typecheck(ty: ResourceType) -> Option<u32> {
        ty.as_host_dynamic()
    }

    fn resource_type(d: u32) -> ResourceType {
        ResourceType::host_dynamic(d)
    }
}

// A borrow handle of the current scope, as the host has it.
fn lower_borrow(ledger: &mut Ledger, rep: u32) -> Result<HostResourceIndex, ResourceFault> {
    let current_scope = ledger.current();
    let mut tables = HostResourceTables::from_parts(ResourceTables {
        ledger,
        types: KnownTypes::none(),
        current_scope,
    });
    tables.host_resource_lower_borrow(rep)
}

/// What something answers of a new ledger with room for so many handles.
fn with_ledger<R, F: FnOnce(&mut Ledger) -> Option<R>>(
    alloc: Global,
    limit: u64,
    ask: F,
) -> Option<R>
    requires { F.IsAlwaysCallable ask }
{
    let mut ledger = Ledger::new(alloc, limit, HostResourceData::new(alloc)).ok()?;
    ask(&mut ledger)
}

#[test]
fn a_resource_type_tells_what_it_was_made_of(rt: HostRuntime) {
    let file = ResourceType::host::<File>();
    let first = ResourceType::guest(StoreId::from_u64(1), RuntimeInstance::from_u32(0), 3);
    let second = ResourceType::guest(StoreId::from_u64(2), RuntimeInstance::from_u32(0), 3);
    let told = [
        file.is_host::<File>(),
        !file.is_host::<Socket>(),
        file.as_host_dynamic() == None,
        file != ResourceType::host_dynamic(3),
        ResourceType::host_dynamic(3).as_host_dynamic() == Some(3),
        first != second,
        !first.is_host::<File>(),
    ];
    assert!(rt; told == [true; 7]);
}

/// Whether a value is shown as this text.
fn shows<T: Debug>(alloc: Global, value: &T, text: &str) -> bool {
    match format!(in alloc; "{value:?}") {
        Ok(shown) => shown.as_str() == text,
        Err(_) => false,
    }
}

/// Whether an own resource tells its state, before it is given away and after.
fn own_is_told(alloc: Global) -> [bool; 4] {
    let mut own = ResourceDynamic::new_own(7, 1);
    let told = (own.rep(), own.ty(), own.owned(), own.state());
    let before = "Resource { rep: 7, state: \"own (not in table)\" }";
    let is_shown = shows(alloc, &own, before);
    own.take();
    [
        told == (7, 1, true, ResourceState::NotInTable),
        is_shown,
        own.owned(),
        shows(alloc, &own, "Resource { rep: 7, state: \"taken\" }"),
    ]
}

/// Whether a borrow does.
fn borrow_is_told(alloc: Global) -> [bool; 2] {
    let borrow = ResourceDynamic::new_borrow(8, 1);
    [
        !borrow.owned(),
        shows(alloc, &borrow, "Resource { rep: 8, state: \"borrow\" }"),
    ]
}

/// Whether an own resource does that is in the table.
fn placed_is_told(alloc: Global) -> [bool; 2] {
    let mut placed: Resource<File> = Resource::new_own(9);
    placed.place(HostResourceIndex::new(1, 0));
    let state = ResourceState::Index(HostResourceIndex::new(1, 0));
    [
        (placed.owned(), placed.rep(), placed.state()) == (true, 9, state),
        shows(alloc, &placed, "Resource { rep: 9, state: \"own\" }"),
    ]
}

#[test]
fn a_host_resource_tells_its_state(rt: HostRuntime) {
    let alloc = rt.alloc();
    let told = (
        own_is_told(alloc),
        borrow_is_told(alloc),
        placed_is_told(alloc),
    );
    assert!(rt; told == ([true; 4], [true; 2], [true; 2]));
}

/// Whether resources of a kind of one's own tell what they are.
fn kind_is_told() -> [bool; 2] {
    let borrow: HostResource<Numbered, u32> = HostResource::new_borrow(6, 2);
    let own: HostResource<Numbered, u32> = HostResource::new_own(7, 2);
    [
        !borrow.owned(),
        (own.owned(), own.rep(), own.ty()) == (true, 7, 2),
    ]
}

/// Whether one that is in the table keeps its type and its representation.
fn kind_is_kept(ledger: &mut Ledger) -> Option<[bool; 3]> {
    let mut tables = HostResourceTables::new_host(ledger);
    let idx = tables.host_resource_lower_own(7, None, None).ok()?;
    let mut own: HostResource<Numbered, u32> = HostResource::new_own(7, 2);
    own.place(idx);
    let any = own.try_into_resource_any(&mut tables).ok()?;
    let mut back = any.try_into_resource_dynamic(&mut tables).ok()?;
    let rep = back.rep();
    back.place(idx);
    Some([
        any.ty().as_host_dynamic() == Some(2),
        rep == 7,
        back.state() == ResourceState::Index(idx),
    ])
}

#[test]
fn a_kind_of_ones_own_has_host_resources(rt: HostRuntime) {
    let told = (kind_is_told(), with_ledger(rt.alloc(), 100, kind_is_kept));
    assert!(rt; told == ([true; 2], Some([true; 3])));
}

/// Whether a resource that is put into the table tells what it is.
fn is_the_first_file(any: &ResourceAny) -> [bool; 4] {
    let index = HostResourceIndex::new(1, 0);
    let again = ResourceAny::new(index, ResourceType::host::<File>(), true);
    [
        *any == again,
        any.owned(),
        any.ty().is_host::<File>(),
        (any.host_index(), any.synthetic_rep()) == (Some(index), None),
    ]
}

/// Whether it does, and comes out once, and as nothing of another type.
fn put_in_and_taken_out(ledger: &mut Ledger) -> Option<([bool; 4], [bool; 4])> {
    let mut tables = HostResourceTables::new_host(ledger);
    let file: Resource<File> = Resource::new_own(7);
    let any = ResourceAny::try_from_resource(file, &mut tables).ok()?;
    let refused = [
        any.try_into_resource::<Socket>(&mut tables).err(),
        any.try_into_resource_dynamic(&mut tables).err(),
    ];
    let file = any.try_into_resource::<File>(&mut tables).ok()?;
    let told = (file.rep(), file.state());
    let twice = any.try_into_resource::<File>(&mut tables).err();
    let taken_out = [
        refused == [Some(ResourceFault::ResourceTypeMismatch); 2],
        told == (7, ResourceState::NotInTable),
        twice == Some(ResourceFault::UnknownHandle(1)),
        ledger.live() == 0,
    ];
    Some((is_the_first_file(&any), taken_out))
}

#[test]
fn an_own_resource_goes_into_the_table_and_comes_out(rt: HostRuntime) {
    let told = with_ledger(rt.alloc(), 100, put_in_and_taken_out);
    assert!(rt; told == Some(([true; 4], [true; 4])));
}

/// Whether one that was given away is refused, and one past the limit, and the one within it comes back.
fn given_away(ledger: &mut Ledger) -> Option<[bool; 3]> {
    let mut tables = HostResourceTables::new_host(ledger);
    let mut taken = ResourceDynamic::new_own(7, 1);
    taken.take();
    let refused = taken.try_into_resource_any(&mut tables).err();
    let within = ResourceDynamic::new_own(8, 1);
    let any = within.try_into_resource_any(&mut tables).ok()?;
    let past = ResourceDynamic::new_own(9, 1);
    let limit = past.try_into_resource_any(&mut tables).err();
    let back = ResourceDynamic::try_from_resource_any(any, &mut tables).ok()?;
    Some([
        refused == Some(ResourceFault::HostConsumed),
        limit == Some(ResourceFault::HandleLimit),
        (back.rep(), back.ty()) == (8, 1),
    ])
}

#[test]
fn a_resource_that_was_given_away_is_refused(rt: HostRuntime) {
    assert!(rt; with_ledger(rt.alloc(), 1, given_away) == Some([true; 3]));
}

/// Whether a borrow of the host's own making tells what it is, and is in no table.
fn borrow_of_its_own(ledger: &mut Ledger) -> Option<[bool; 3]> {
    let mut tables = HostResourceTables::new_host(ledger);
    let made = ResourceDynamic::new_borrow(7, 1);
    let any = made.try_into_resource_any(&mut tables).ok()?;
    let again = ResourceAny::new_borrow(7, ResourceType::host_dynamic(1));
    let told = (any.owned(), any.host_index(), any.synthetic_rep());
    let borrow = any.try_into_resource_dynamic(&mut tables).ok()?;
    let kept = (borrow.rep(), borrow.state(), ledger.live());
    Some([
        any == again,
        told == (false, None, Some(7)),
        kept == (7, ResourceState::Borrow, 0),
    ])
}

#[test]
fn a_borrow_of_the_hosts_own_making_has_no_handle(rt: HostRuntime) {
    assert!(rt; with_ledger(rt.alloc(), 100, borrow_of_its_own) == Some([true; 3]));
}

/// Whether a borrow handle is gone once it is converted.
fn borrow_is_converted(ledger: &mut Ledger) -> Option<[bool; 4]> {
    let _scope = ledger.enter().ok()?;
    let index = lower_borrow(ledger, 7).ok()?;
    let before = ledger.live();
    let any = ResourceAny::new(index, ResourceType::host::<File>(), false);
    let mut tables = HostResourceTables::new_host(ledger);
    let borrow: Resource<File> = Resource::try_from_resource_any(any, &mut tables).ok()?;
    let told = (borrow.rep(), borrow.owned());
    let twice = any.try_into_resource::<File>(&mut tables).err();
    Some([
        before == 1,
        told == (7, false),
        twice == Some(ResourceFault::UnknownHandle(1)),
        ledger.live() == 0,
    ])
}

#[test]
fn a_borrow_handle_is_dropped_where_it_is_converted(rt: HostRuntime) {
    assert!(rt; with_ledger(rt.alloc(), 100, borrow_is_converted) == Some([true; 4]));
}
