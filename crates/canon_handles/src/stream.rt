//! The calls on the ends of streams.

ghost use Rattle.std.specs.Prelude.{◌≡◌, ◌≤◌, ◌+◌, OnOk};
ghost use Rattle.canon_handles.specs.Table.{lookup_entry, Does, DoesWithMemory, SparesOneLess};
ghost use Rattle.canon_handles.specs.Calls.{held_count, IsUnlent, KeepsCount, read_stream, readable, writable, stream_insert_read, stream_insert_write, stream_rep, stream_state, stream_remove_readable, stream_remove_writable};
ghost use Rattle.canon_handles.specs.Lending.{HandsOut};
ghost use Rattle.canon_handles.specs.LendingState.{LendsTableState};
ghost use Rattle.std.specs.Borrow.{sem};
ghost use Rattle.canon_handles.specs.Step.{and_then};

use crate::counter::HandleCounter;
use crate::end::{readable, writable};
use crate::error::HandleError;
use crate::handle::{Entry, TransmitLocalState};
use crate::handle_table::HandleTable;
use canon_abi::TypeStreamTableIndex;

impl HandleTable {
    /// A new read end of a stream, of the stream type `ty`.
    pub fn stream_insert_read(
        &mut self,
        counter: &mut HandleCounter,
        ty: TypeStreamTableIndex,
        rep: u32,
    ) -> Result<u32, HandleError>
        requires { held_count self.old.table ≤ counter.old.live }
        ensures step { DoesWithMemory (stream_insert_read self.old.table counter.old ty rep)
            result self.old self.new counter.old counter.new }
        ensures spare { SparesOneLess result self.old.spare self.new.spare }
        ensures count { KeepsCount self.old.table self.new.table counter.old counter.new }
    {
        self.insert(
            counter,
            Entry::Stream {
                ty,
                rep,
                state: TransmitLocalState::Read { done: false },
            },
        )
    }

    /// A new write end of a stream, of the stream type `ty`.
    pub fn stream_insert_write(
        &mut self,
        counter: &mut HandleCounter,
        ty: TypeStreamTableIndex,
        rep: u32,
    ) -> Result<u32, HandleError>
        requires { held_count self.old.table ≤ counter.old.live }
        ensures step { DoesWithMemory (stream_insert_write self.old.table counter.old ty rep)
            result self.old self.new counter.old counter.new }
        ensures spare { SparesOneLess result self.old.spare self.new.spare }
        ensures count { KeepsCount self.old.table self.new.table counter.old counter.new }
    {
        self.insert(
            counter,
            Entry::Stream {
                ty,
                rep,
                state: TransmitLocalState::Write { done: false },
            },
        )
    }

    /// The representation and the state of an end of a stream of this type.
    pub fn stream_rep(
        &self,
        ty: TypeStreamTableIndex,
        idx: u32,
    ) -> Result<(u32, TransmitLocalState), HandleError>
        ensures { result ≡ stream_rep self.now.table ty idx }
    {
        stream_from(ty, self.entry(idx))
    }

    /// The state of an end of a stream of this type, to be written.
    pub fn stream_state(
        &mut self,
        ty: TypeStreamTableIndex,
        idx: u32,
    ) -> Result<&mut TransmitLocalState, HandleError>
        ensures* lends { sem 𝓛 (LendsTableState self.entry idx result) }
        ensures state { HandsOut (stream_state self.old.table ty idx) result }
    {
        let _told = stream_from(ty, self.entry(idx))?;
        let entry = self.table.entry_mut(idx)?;
        entry.state_mut()
    }

    /// Removes a read end that no operation uses. Answers its representation, and whether it is done.
    pub fn stream_remove_readable(
        &mut self,
        counter: &mut HandleCounter,
        ty: TypeStreamTableIndex,
        idx: u32,
    ) -> Result<(u32, bool), HandleError>
        requires { held_count self.old.table ≤ counter.old.live }
        ensures step { Does (stream_remove_readable self.old.table counter.old ty idx)
            result self.old self.new counter.old counter.new }
        ensures spare { self.old.spare ≤ self.new.spare }
        ensures count { KeepsCount self.old.table self.new.table counter.old counter.new }
    {
        let removed = readable_stream(ty, self.entry(idx))?;
        self.remove(counter, idx);
        Ok(removed)
    }

    /// Removes a write end that no operation uses. Answers its representation.
    pub fn stream_remove_writable(
        &mut self,
        counter: &mut HandleCounter,
        ty: TypeStreamTableIndex,
        idx: u32,
    ) -> Result<u32, HandleError>
        requires { held_count self.old.table ≤ counter.old.live }
        ensures step { Does (stream_remove_writable self.old.table counter.old ty idx)
            result self.old self.new counter.old counter.new }
        ensures spare { self.old.spare ≤ self.new.spare }
        ensures count { KeepsCount self.old.table self.new.table counter.old counter.new }
    {
        let (rep, _done) = writable_stream(ty, self.entry(idx))?;
        self.remove(counter, idx);
        Ok(rep)
    }
}

fn stream_from(
    expected: TypeStreamTableIndex,
    entry: Option<Entry>,
) -> Result<(u32, TransmitLocalState), HandleError>
    ensures { result ≡ lookup_entry (read_stream expected) entry }
{
    let Some(entry) = entry else {
        return Err(HandleError::UnknownHandle);
    };
    match entry {
        Entry::Stream { ty, rep, state } => {
            if ty != expected {
                return Err(HandleError::WrongType);
            }
            Ok((rep, state))
        }
        _ => Err(HandleError::WrongKind),
    }
}

fn readable_stream(
    expected: TypeStreamTableIndex,
    entry: Option<Entry>,
) -> Result<(u32, bool), HandleError>
    ensures read { result ≡ lookup_entry (λ e. and_then (read_stream expected e) readable) entry }
    ensures unlent { OnOk result (IsUnlent entry) }
{
    let Some(entry) = entry else {
        return Err(HandleError::UnknownHandle);
    };
    match entry {
        Entry::Stream { ty, rep, state } => {
            if ty != expected {
                return Err(HandleError::WrongType);
            }
            readable(rep, state)
        }
        _ => Err(HandleError::WrongKind),
    }
}

fn writable_stream(
    expected: TypeStreamTableIndex,
    entry: Option<Entry>,
) -> Result<(u32, bool), HandleError>
    ensures read { result ≡ lookup_entry (λ e. and_then (read_stream expected e) writable) entry }
    ensures unlent { OnOk result (IsUnlent entry) }
{
    let Some(entry) = entry else {
        return Err(HandleError::UnknownHandle);
    };
    match entry {
        Entry::Stream { ty, rep, state } => {
            if ty != expected {
                return Err(HandleError::WrongType);
            }
            writable(rep, state)
        }
        _ => Err(HandleError::WrongKind),
    }
}
