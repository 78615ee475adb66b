//! Text that is borrowed where it can be.

ghost use Rattle.std.specs.Prelude.{◌≡◌};
ghost use Rattle.canon_text.specs.Decoding.{cow_text, is_borrowed};

/// A text that is borrowed or owned, in place of `Cow<str>`.
#[derive(Drop)]
pub enum CowStr<'a> {
    /// The bytes of the source, which are UTF-8 themselves.
    Borrowed(&'a str),
    /// A text of its own.
    Owned(String),
}

impl<'a> CowStr<'a> {
    /// The text, whichever it is.
    pub fn as_str(&self) -> &str
        ensures { result.now ≡ cow_text self.now }
    {
        match self {
            CowStr::Borrowed(text) => text,
            CowStr::Owned(text) => text.as_str(),
        }
    }

    /// Whether the text is borrowed.
    pub fn is_borrowed(&self) -> bool
        ensures { result ≡ is_borrowed self.now }
    {
        match self {
            CowStr::Borrowed(_) => true,
            CowStr::Owned(_) => false,
        }
    }
}
