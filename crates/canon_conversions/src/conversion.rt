//! A text conversion that the command `text` does: its function, its input, and the condition of the call.

ghost use Rattle.std.specs.Prelude.{◌≡◌, ◌≤◌, ◌+◌, true, vec_len, nat_eq, nat_le};
ghost use lib.Pointwise.{pointwise};
ghost use Rattle.canon_conversions.specs.TextCalls as spec;

/// The conversions of texts that the command `text` plays. Each has the name of its function of `canon_text`.
#[derive(Clone, Copy, Debug, PartialEq, Eq)]
pub enum TextCall {
    Utf8ToUtf8,
    Utf16ToUtf16,
    Latin1ToLatin1,
    Latin1ToUtf16,
    Utf8ToUtf16,
    Utf16ToUtf8,
    Latin1ToUtf8,
    Utf16ToCompactProbablyUtf16,
    Utf8ToLatin1,
    Utf16ToLatin1,
    Utf8ToCompactUtf16,
    Utf16ToCompactUtf16,
}

/// All of them.
pub(crate) const CALLS: [TextCall; 12] = [
    TextCall::Utf8ToUtf8,
    TextCall::Utf16ToUtf16,
    TextCall::Latin1ToLatin1,
    TextCall::Latin1ToUtf16,
    TextCall::Utf8ToUtf16,
    TextCall::Utf16ToUtf8,
    TextCall::Latin1ToUtf8,
    TextCall::Utf16ToCompactProbablyUtf16,
    TextCall::Utf8ToLatin1,
    TextCall::Utf16ToLatin1,
    TextCall::Utf8ToCompactUtf16,
    TextCall::Utf16ToCompactUtf16,
];

/// A conversion: its source and the front of its destination as bytes, and how many bytes the destination has. The
/// call's condition holds.
#[derive(Debug, Drop)]
pub(crate) struct Conversion {
    pub call: TextCall,
    pub src: Vec<u8>,
    pub room: u64,
    pub dst: Vec<u8>,
    pub first: bool,
    pub so_far: u64,
    ghost small: { room ≤ spec.max_room },
    ghost front: { vec_len dst ≤ room },
    ghost allowed: { spec.is_allowed call (vec_len src) room so_far ≡ true },
}

impl TextCall {
    /// The name of the function.
    pub fn name(self) -> &'static str
        ensures { result.now ≡ spec.name_of self }
    {
        match self {
            TextCall::Utf8ToUtf8 => "utf8_to_utf8",
            TextCall::Utf16ToUtf16 => "utf16_to_utf16",
            TextCall::Latin1ToLatin1 => "latin1_to_latin1",
            TextCall::Latin1ToUtf16 => "latin1_to_utf16",
            TextCall::Utf8ToUtf16 => "utf8_to_utf16",
            TextCall::Utf16ToUtf8 => "utf16_to_utf8",
            TextCall::Latin1ToUtf8 => "latin1_to_utf8",
            TextCall::Utf16ToCompactProbablyUtf16 => "utf16_to_compact_probably_utf16",
            TextCall::Utf8ToLatin1 => "utf8_to_latin1",
            TextCall::Utf16ToLatin1 => "utf16_to_latin1",
            TextCall::Utf8ToCompactUtf16 => "utf8_to_compact_utf16",
            TextCall::Utf16ToCompactUtf16 => "utf16_to_compact_utf16",
        }
    }

    pub(crate) fn is_named(self, name: &str) -> bool
        ensures { result ≡ pointwise nat_eq name.now (spec.name_of self) }
    {
        name == self.name()
    }

    /// Whether the call's condition holds for so many bytes of a source and of a destination.
    pub(crate) fn is_allowed(self, src: u64, room: u64, so_far: u64) -> bool
        ensures { result ≡ spec.is_allowed self src room so_far }
    {
        match self {
            TextCall::Utf8ToUtf8 | TextCall::Latin1ToLatin1 => src == room,
            TextCall::Utf16ToUtf16 | TextCall::Utf16ToCompactProbablyUtf16 => {
                is_even(src) && src == room
            }
            TextCall::Latin1ToUtf16 => is_even(room) && src == room / 2,
            TextCall::Utf8ToUtf16 => is_even(room) && src <= room / 2,
            TextCall::Utf16ToUtf8 => is_even(src),
            TextCall::Latin1ToUtf8 => true,
            TextCall::Utf8ToLatin1 => src <= room,
            TextCall::Utf16ToLatin1 => is_even(src) && src / 2 <= room,
            TextCall::Utf8ToCompactUtf16 => is_even(room) && is_sum_within(so_far, src, room / 2),
            TextCall::Utf16ToCompactUtf16 => {
                is_even(src) && is_even(room) && is_sum_within(so_far, src / 2, room / 2)
            }
        }
    }
}

fn is_even(n: u64) -> bool
    ensures { result ≡ spec.is_even n }
{
    n % 2 == 0
}

fn is_sum_within(a: u64, b: u64, most: u64) -> bool
    ensures { result ≡ nat_le (a + b) most }
{
    match a.checked_add(b) {
        Some(sum) => sum <= most,
        None => false,
    }
}
