//! Worked examples, and each public call once.

ghost use Rattle.std.specs.Prelude.{◌≡◌, None};
ghost use Rattle.canon_handles.specs.Calls.{raw_index};
ghost use Rattle.canon_handles.specs.Table.{entry_at, is_full, max_handle};

use canon_abi::{TypeFutureTableIndex, TypeResourceTableIndex, TypeStreamTableIndex};
use canon_handles::{
    HandleCounter, HandleError, HandleTable, RemovedResource, Scope, ThreadHandleTable,
    TransmitLocalState, TypedResource, TypedResourceIndex, Waitable,
};
use std::test::Fail;

// A resource of type 3, and its index 1.
fn resource() -> TypedResource {
    TypedResource::Component {
        ty: TypeResourceTableIndex::from_u32(3),
        rep: 9,
    }
}

fn index() -> TypedResourceIndex
    ensures { raw_index result ≡ 1 }
{
    TypedResourceIndex::Component {
        ty: TypeResourceTableIndex::from_u32(3),
        index: 1,
    }
}

fn host(rep: u32) -> TypedResource {
    TypedResource::Host(rep)
}

fn host_index(index: u32) -> TypedResourceIndex {
    TypedResourceIndex::Host(index)
}

#[test]
fn the_last_freed_index_comes_first(rt: HostRuntime) {
    let mut counter = HandleCounter::new(100);
    let mut table = HandleTable::new(rt.alloc());
    let removed = Ok(RemovedResource::Own { rep: 7 });
    let first = (
        table.resource_own_insert(&mut counter, host(7)),
        table.resource_own_insert(&mut counter, host(7)),
        table.remove_resource(&mut counter, host_index(1)),
        table.resource_own_insert(&mut counter, host(7)),
    );
    assert!(rt; first == (Ok(1), Ok(2), removed, Ok(1)));
    let second = (
        table.remove_resource(&mut counter, host_index(1)),
        table.remove_resource(&mut counter, host_index(2)),
        table.resource_own_insert(&mut counter, host(7)),
        table.resource_own_insert(&mut counter, host(7)),
        table.resource_own_insert(&mut counter, host(7)),
    );
    assert!(rt; second == (removed, removed, Ok(2), Ok(1), Ok(3)));
    assert!(rt; counter.live() == 3);
}

#[test]
fn indexes_end_before_the_limit_is_asked(rt: HostRuntime) {
    let mut counter = HandleCounter::new(2);
    let mut table = HandleTable::with_max_handle(rt.alloc(), 2);
    let given = [
        table.resource_own_insert(&mut counter, host(7)),
        table.resource_own_insert(&mut counter, host(7)),
        table.resource_own_insert(&mut counter, host(7)),
    ];
    assert!(rt; given == [Ok(1), Ok(2), Err(HandleError::IndexOverflow)]);
    assert!(rt; table.held() == 2);
}

#[test]
fn the_limit_of_live_handles_is_kept(rt: HostRuntime) {
    let mut counter = HandleCounter::new(1);
    let mut table = HandleTable::new(rt.alloc());
    let refused = HandleError::HandleLimit;
    let given = (
        table.resource_own_insert(&mut counter, host(7)),
        table.resource_own_insert(&mut counter, host(7)),
        table.resource_lend(&mut counter, host_index(1)),
    );
    assert!(rt; given == (Ok(1), Err(refused), Err(refused)));
    counter.set_limit(2);
    let given = (
        counter.limit(),
        table.resource_own_insert(&mut counter, host(7)),
    );
    assert!(rt; given == (2, Ok(2)));
}

#[test]
fn an_end_is_taken_as_what_it_is(rt: HostRuntime) -> Result<(), Fail> {
    let mut counter = HandleCounter::new(100);
    let mut table = HandleTable::new(rt.alloc());
    let ty = TypeStreamTableIndex::from_u32(0);
    let other = TypeStreamTableIndex::from_u32(1);
    let told = (
        table.stream_insert_read(&mut counter, ty, 4),
        table.stream_remove_writable(&mut counter, ty, 1),
        table.stream_rep(other, 1),
    );
    let wrong_end = Err(HandleError::WrongEnd);
    assert!(rt; told == (Ok(1), wrong_end, Err(HandleError::WrongType)));
    *table.stream_state(ty, 1)? = TransmitLocalState::Busy;
    assert!(rt; table.held() <= counter.live());
    let told = (
        table.stream_rep(ty, 1),
        table.stream_remove_readable(&mut counter, ty, 1),
        table.error_context_rep(1),
    );
    let busy = Ok((4, TransmitLocalState::Busy));
    let wrong_kind = Err(HandleError::WrongKind);
    assert!(rt; told == (busy, Err(HandleError::Busy), wrong_kind));
    Ok(())
}

#[test]
fn a_lent_handle_stays_whatever_the_type(rt: HostRuntime) {
    let mut counter = HandleCounter::new(100);
    let mut table = HandleTable::new(rt.alloc());
    let given = table.resource_own_insert(&mut counter, resource());
    let lent = (
        index().raw_index(),
        table.resource_rep(index()),
        table.resource_lend(&mut counter, index()),
    );
    assert!(rt; (given, lent) == (Ok(1), (1, Ok(9), Ok((9, true)))));
    let state = (table.lends(1), table.is_own(1), table.held());
    let refused = (
        table.remove_resource(&mut counter, host_index(1)),
        table.lends(1),
    );
    let still_lent = Err(HandleError::StillLent);
    assert!(rt; (state, refused) == ((1, true, 2), (still_lent, 1)));
    let removed = (
        table.resource_undo_lend(&mut counter, index()),
        table.remove_resource(&mut counter, host_index(1)),
        table.remove_resource(&mut counter, index()),
        counter.live(),
    );
    let mismatch = Err(HandleError::ResourceTypeMismatch);
    let own = Ok(RemovedResource::Own { rep: 9 });
    assert!(rt; removed == (Ok(()), mismatch, own, 0));
}

#[test]
fn a_borrow_handle_gives_its_scope_back(rt: HostRuntime) {
    let mut counter = HandleCounter::new(100);
    let mut table = HandleTable::new(rt.alloc());
    let scope = Scope::Id(5);
    let told = (
        table.resource_borrow_insert(&mut counter, host(7), scope),
        table.resource_lend(&mut counter, host_index(1)),
        table.held(),
        table.remove_resource(&mut counter, host_index(1)),
        table.is_empty(),
    );
    let removed = Ok(RemovedResource::Borrow { scope });
    assert!(rt; told == (Ok(1), Ok((7, false)), 1, removed, true));
}

#[test]
fn room_is_made_for_the_next_insertion(rt: HostRuntime) -> Result<(), Fail> {
    let mut counter = HandleCounter::new(100);
    let mut table = HandleTable::new(rt.alloc());
    table.reserve()?;
    let told = (
        table.is_empty(),
        table.error_context_insert(&mut counter, 8),
        table.is_empty(),
    );
    assert!(rt; told == (true, Ok(1), false));
    Ok(())
}

#[test]
fn a_vacant_cell_is_no_handle(rt: HostRuntime) -> Result<(), Fail> {
    let mut counter = HandleCounter::new(100);
    let mut table = HandleTable::with_max_handle(rt.alloc(), 2);
    let unknown = Err(HandleError::UnknownHandle);
    table.reserve()?;
    let told = (
        table.error_context_rep(1),
        table.error_context_insert(&mut counter, 8),
    );
    assert!(rt; told == (unknown, Ok(1)));
    table.reserve()?;
    let told = [
        table.error_context_drop(&mut counter, 1),
        table.error_context_insert(&mut counter, 9),
        table.error_context_insert(&mut counter, 9),
        table.error_context_drop(&mut counter, 1),
        table.error_context_rep(1),
        table.error_context_drop(&mut counter, 2),
    ];
    assert!(rt; told == [Ok(8), Ok(1), Ok(2), Ok(9), unknown, Ok(9)]);
    let told = (
        table.is_empty(),
        table.error_context_insert(&mut counter, 10),
    );
    assert!(rt; told == (true, Ok(2)));
    Ok(())
}

#[test]
fn the_ends_of_streams(rt: HostRuntime) {
    let mut counter = HandleCounter::new(100);
    let mut table = HandleTable::new(rt.alloc());
    let ty = TypeStreamTableIndex::from_u32(2);
    let told = (
        table.stream_insert_read(&mut counter, ty, 10),
        table.stream_insert_write(&mut counter, ty, 11),
        table.stream_rep(ty, 1),
        table.waitable_rep(1),
    );
    let reading = Ok((10, TransmitLocalState::Read { done: false }));
    assert!(rt; told == (Ok(1), Ok(2), reading, Ok((10, Waitable::Stream))));
    let told = (
        table.stream_remove_readable(&mut counter, ty, 1),
        table.stream_remove_writable(&mut counter, ty, 2),
        counter.live(),
    );
    assert!(rt; told == (Ok((10, false)), Ok(11), 0));
}

#[test]
fn the_ends_of_futures(rt: HostRuntime) -> Result<(), Fail> {
    let mut counter = HandleCounter::new(100);
    let mut table = HandleTable::new(rt.alloc());
    let ty = TypeFutureTableIndex::from_u32(2);
    let told = (
        table.future_insert_read(&mut counter, ty, 10),
        table.future_insert_write(&mut counter, ty, 11),
        table.future_rep(ty, 2),
        table.waitable_rep(2),
        table.future_remove_readable(&mut counter, ty, 1),
    );
    let writing = Ok((11, TransmitLocalState::Write { done: false }));
    let waitable = Ok((11, Waitable::Future));
    assert!(rt; told == (Ok(1), Ok(2), writing, waitable, Ok((10, false))));
    *table.future_state(ty, 2)? = TransmitLocalState::Write { done: true };
    assert!(rt; table.held() <= counter.live());
    let told = (
        table.future_remove_writable(&mut counter, ty, 2),
        counter.live(),
    );
    assert!(rt; told == (Ok((11, true)), 0));
    Ok(())
}

#[test]
fn error_contexts_subtasks_and_waitable_sets(rt: HostRuntime) {
    let mut counter = HandleCounter::new(100);
    let mut table = HandleTable::new(rt.alloc());
    let given = [
        table.error_context_insert(&mut counter, 20),
        table.subtask_insert_guest(&mut counter, 21),
        table.subtask_insert_host(&mut counter, 22),
        table.waitable_set_insert(&mut counter, 23),
    ];
    assert!(rt; given == [Ok(1), Ok(2), Ok(3), Ok(4)]);
    let told = (
        table.error_context_rep(1),
        table.subtask_rep(2),
        table.waitable_rep(3),
        table.waitable_set_rep(4),
    );
    let waitable = Ok((22, Waitable::Subtask { is_host: true }));
    assert!(rt; told == (Ok(20), Ok((21, false)), waitable, Ok(23)));
    let removed = (
        table.error_context_drop(&mut counter, 1),
        table.subtask_remove(&mut counter, 3),
        table.waitable_set_remove(&mut counter, 4),
        counter.live(),
    );
    assert!(rt; removed == (Ok(20), Ok((22, true)), Ok(23), 1));
}

#[test]
fn a_removed_thread_is_unknown(rt: HostRuntime) {
    let mut counter = HandleCounter::new(100);
    let mut table = ThreadHandleTable::new(rt.alloc());
    let told = (
        table.guest_thread_insert(&mut counter, 9),
        table.guest_thread_rep(1),
        table.held(),
        table.guest_thread_remove(&mut counter, 1),
        table.guest_thread_rep(1),
    );
    let unknown = Err(HandleError::UnknownHandle);
    assert!(rt; told == (Ok(1), Ok(9), 1, Ok(9), unknown));
}

// Index 0 names nothing, by the laws of the table.
fn zero_names_nothing(table: &HandleTable)
    ensures { entry_at table.now.table 0 ≡ None }
{
    table.laws();
}

// Whether the next thread is refused an index: where each index that there may be has one.
fn is_full(threads: &ThreadHandleTable) -> bool
    requires { threads.now.table.max ≡ max_handle }
    ensures { result ≡ is_full threads.now.table }
{
    threads.laws();
    threads.held() == 268_435_455
}

#[test]
fn the_laws_of_a_table_are_known_to_who_has_it(rt: HostRuntime) {
    let mut counter = HandleCounter::new(100);
    let mut table = HandleTable::new(rt.alloc());
    let threads = ThreadHandleTable::new(rt.alloc());
    let given = table.resource_own_insert(&mut counter, host(7));
    zero_names_nothing(&table);
    let told = (given, table.is_own(0), is_full(&threads));
    assert!(rt; told == (Ok(1), false, false));
}
