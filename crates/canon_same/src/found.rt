//! Pairs of definitions that were found to be the same, so that what many types share is compared once.

ghost use Rattle.std.specs.Prelude.{◌≡◌, ◌<◌, IsTrue};
ghost use Rattle.canon_types.specs.Instance.{Instance};
ghost use Rattle.canon_types.specs.Table.{place};
ghost use Rattle.canon_same.specs.Same.{AreFound, SameDefinitions};

use canon_types::InterfaceType;

/// How many pairs are kept at once.
const PLACES: usize = 509;

/// The numbers of two definitions, one of each component.
#[derive(Clone, Copy)]
struct Pair {
    read: u32,
    written: u32,
}

/// Pairs of definitions that are the same. Each has one place, where the last that was found stays.
#[derive(Drop)]
pub(crate) struct Found {
    pairs: [Option<Pair>; PLACES],
}

impl Found {
    /// None yet.
    pub(crate) fn new() -> Self
        ensures { (i j : Instance) → AreFound i j result }
    {
        Found {
            pairs: [None; PLACES],
        }
    }

    /// Whether these two were found, and are kept.
    pub(crate) fn has(&self, read: u32, written: u32) -> bool
        ensures { (i j : Instance) → AreFound i j self.now → IsTrue result → SameDefinitions i j read written }
    {
        match self.pairs[slot(read, written)] {
            Some(pair) => pair.read == read && pair.written == written,
            None => false,
        }
    }

    /// Keeps these two, which are the same.
    pub(crate) fn add(&mut self, read: u32, written: u32)
        ensures { (i j : Instance) → AreFound i j self.old → SameDefinitions i j read written → AreFound i j self.new }
    {
        self.pairs[slot(read, written)] = Some(Pair { read, written });
    }
}

/// The place of a pair.
fn slot(read: u32, written: u32) -> usize
    ensures { result < 509 }
{
    let number = 31 * u64::from(read) + u64::from(written);
    (number % PLACES as u64) as usize
}

/// The number of a type's definition, if it has one.
pub(crate) fn place(ty: &InterfaceType) -> Option<u32>
    ensures { result ≡ place ty.now }
{
    match ty {
        InterfaceType::Record(i) => Some(i.as_u32()),
        InterfaceType::Variant(i) => Some(i.as_u32()),
        InterfaceType::List(i) => Some(i.as_u32()),
        InterfaceType::Tuple(i) => Some(i.as_u32()),
        InterfaceType::Map(i) => Some(i.as_u32()),
        InterfaceType::Flags(i) => Some(i.as_u32()),
        InterfaceType::Enum(i) => Some(i.as_u32()),
        InterfaceType::Option(i) => Some(i.as_u32()),
        InterfaceType::Result(i) => Some(i.as_u32()),
        InterfaceType::FixedLengthList(i) => Some(i.as_u32()),
        _ => None,
    }
}
