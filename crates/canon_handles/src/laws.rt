//! Laws of the definitions.

ghost use Rattle.canon_handles.specs.Laws.{IndexReuse, StatesAreNotHeld};
ghost use Rattle.canon_handles.specs.declared.handle.Entry.{Entry};
ghost use Rattle.canon_handles.specs.declared.handle.GuestThread.{GuestThread};

/// Over every list of insertions and removals, the index that the next insertion gives is the most
/// recently freed one of those not in use, or, where none is free, one more than the greatest
/// given out.
pub fn index_reuse()
    ensures handles { IndexReuse Entry }
    ensures threads { IndexReuse GuestThread }
{}

/// The state of a stream's or a future's end, whatever is written there, counts nothing: a table
/// has held as much before as after.
pub fn states_are_not_held()
    ensures { StatesAreNotHeld }
{}
