//! Where a value stands among the words.

ghost use Rattle.std.specs.Prelude.{◌≡◌, ◌<◌, ◌+◌, ◌^◌};
ghost use Rattle.canon_value_parts.specs.Words.{behind_tag, inside};

/// Where a value stands: its first word, and its place among the values.
#[derive(Clone, Copy)]
pub struct Spot {
    /// The index of its first word.
    pub word: usize,
    /// Its place, by which a fault names it.
    pub place: u64,
}

impl Spot {
    /// Where the first member of a record or a tuple stands.
    pub fn inside(self) -> Spot
        ensures { result ≡ inside self }
    {
        Spot {
            word: self.word,
            place: self.place.saturating_add(1),
        }
    }

    /// Where a payload stands.
    pub fn behind_tag(self) -> Spot
        requires { self.word + 1 < 2 ^ 64 }
        ensures { result ≡ behind_tag self }
    {
        Spot {
            word: self.word + 1,
            place: self.place.saturating_add(1),
        }
    }
}
