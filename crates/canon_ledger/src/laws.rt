//! Laws of the definitions.

ghost use Rattle.canon_ledger.specs.Laws.{RefusalsChangeNothing, NewLedgersAreSound, StepsKeepHandlesSound, StepsKeepHostSound, AcceptedIndexesWereGiven, AccessesAccept, IndexesAnswerForTheirInsertion, IndexesAreGivenOnce, IndexesNameTheirInsertion, StepsCompose, PartsCompose, WholesAreParts};

/// A refused step changes nothing but the host's generation, where it is a removal there.
pub fn refusals_change_nothing()
    ensures { RefusalsChangeNothing }
{}

/// A new ledger has what every step keeps.
pub fn new_ledgers_are_sound()
    ensures { NewLedgersAreSound }
{}

/// Over every list of steps, the live handles are the entries and the lends, a lend count is the
/// number of times its handle stands among the lenders of open scopes, and a scope's borrow count
/// is the number of borrow handles that name it.
pub fn steps_keep_handles_sound()
    ensures { StepsKeepHandlesSound }
{}

/// Over every list of steps, no slot of the host is newer than the current generation, and that of
/// an index without an entry is older.
pub fn steps_keep_host_sound()
    ensures { StepsKeepHostSound }
{}

/// A host index is accepted only while the entry of the insertion that gave it stands.
pub fn indexes_answer_for_their_insertion()
    ensures { IndexesAnswerForTheirInsertion }
{}

/// While a host index is accepted, it names what the insertion that gave it put there: the
/// resource with its type and representation, the scope of a borrow handle, the instance and the
/// destructor.
pub fn indexes_name_their_insertion()
    ensures { IndexesNameTheirInsertion }
{}

/// Each access by a host index that answers Ok accepted the index.
pub fn accesses_accept()
    ensures { AccessesAccept }
{}

/// From a new ledger, a host index is accepted only if an insertion of the list gave it.
pub fn accepted_indexes_were_given()
    ensures { AcceptedIndexesWereGiven }
{}

/// No two insertions give one host index.
pub fn indexes_are_given_once()
    ensures { IndexesAreGivenOnce }
{}

/// Accepted lists of steps compose.
pub fn steps_compose()
    ensures whole { StepsCompose }
    ensures part { PartsCompose }
    ensures whole_is_part { WholesAreParts }
{}
