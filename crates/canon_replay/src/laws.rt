//! Laws of replays.

ghost use Rattle.canon_replay.specs.Faithful.{LoggedAreSame, LoggedNeverDiffer, RecordedAreSame, RecordedNeverDiffer};
ghost use Rattle.canon_replay.specs.Laws.{SameTellsRecorded};

use canon_host::Imports;
use canon_memory::Guest;

/// Where calls are the same as they were recorded, the recorded requests before each start are those of the recorded parameters, and the
/// recorded results are bit for bit what the recorded return represents.
pub fn same_tells_recorded()
    ensures { SameTellsRecorded }
{}

/// A recording of calls that `Func::call` made, with whatever guests and imports of these types, and in which no import was asked for, is
/// replayed without a difference, if the fuel and the limit of turns are the same.
pub fn recorded_calls_never_differ<T, G: Guest, I: Imports<T, G>>()
    ensures { RecordedNeverDiffer G.seen G.moves G.leaves I.plan I.gives I.log I.refusals }
{}

/// Where also the recorded answers of `realloc` are lawful, in a memory as long as that of the start, `replay` of such a recording answers
/// `Same` or is out of memory.
pub fn recorded_calls_are_same<T, G: Guest, I: Imports<T, G>>()
    ensures { RecordedAreSame G.seen G.moves G.leaves I.plan I.gives I.log I.refusals }
{}

/// The same of calls that asked for imports, if these expose their log, which gained the recorded asks, and if the words in which the guest was
/// resumed have 64 bits: `replay` doesn't answer `Differs`.
pub fn logged_calls_never_differ<T, G: Guest, I: Imports<T, G>>()
    ensures { LoggedNeverDiffer G.seen G.moves G.leaves I.plan I.gives I.log I.refusals }
{}

/// Where also the recorded answers of `realloc` are lawful, `replay` of such a recording answers `Same` or is out of memory.
pub fn logged_calls_are_same<T, G: Guest, I: Imports<T, G>>()
    ensures { LoggedAreSame G.seen G.moves G.leaves I.plan I.gives I.log I.refusals }
{}
