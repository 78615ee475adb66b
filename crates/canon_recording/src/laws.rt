//! Laws of recordings, as contracts of functions that do nothing.

ghost use Rattle.canon_recording.specs.Laws.{RecordingsAreApart, RecordingsComeBack};

/// No recording's bytes begin another's, what was written doesn't stop reading, and reading stops at one place.
pub fn recordings_are_apart()
    ensures { RecordingsAreApart }
{}

/// What `encode` wrote of calls, `decode` reads as the same calls: the same exports, events and asks, and the same values, whose flags stand in
/// their types' order, each once.
pub fn recordings_come_back()
    ensures { RecordingsComeBack }
{}
