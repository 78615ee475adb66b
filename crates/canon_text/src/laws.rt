//! Laws over the definitions that the conversions' contracts name.

ghost use Rattle.canon_text.specs.Laws.{CompactLengths, NarrowThenWide, OneAnswer, OneFault, PassReads, PassRefuses, PassesWrite, ScalarsKept, UnitsOfBytes};

/// A source has one first fault, or it is a text.
pub fn one_fault()
    ensures { OneFault }
{}

/// A pass refuses only a source that is ill-formed, and none that it answers.
pub fn pass_refuses()
    ensures { PassRefuses }
{}

/// Any run of passes writes the spelling of what it reads.
pub fn passes_write()
    ensures { PassesWrite }
{}

/// With four free bytes a pass that isn't a first pass reads something, unless nothing is left.
pub fn pass_reads()
    ensures { PassReads }
{}

/// Latin-1 as far as it goes, inflation in place, and UTF-16 over the rest write the whole text.
pub fn narrow_then_wide()
    ensures { NarrowThenWide }
{}

/// A compact text's length names its form and its bytes, and is tagged only where it must be.
pub fn compact_lengths()
    ensures { CompactLengths }
{}

/// Bytes spell a text in UTF-16 exactly where the units in them are those of the text.
pub fn units_of_bytes()
    ensures { UnitsOfBytes }
{}

/// A conversion that reads its whole source keeps the scalar values.
pub fn scalars_kept()
    ensures { ScalarsKept }
{}

/// The definitions fix the answers and what is written.
pub fn one_answer()
    ensures { OneAnswer }
{}
