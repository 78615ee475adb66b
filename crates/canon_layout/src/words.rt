//! The names of types in a script, and the kinds of type definitions.

ghost use Rattle.std.specs.Prelude.{◌≡◌};
ghost use Rattle.canon_layout.specs.Entries.{kind_named, plain_named};
ghost use Rattle.canon_layout.specs.Words as spec;

use canon_types::InterfaceType;

/// What an entry of a script's types is, by its member.
#[derive(Clone, Copy, Debug, PartialEq, Eq)]
pub enum Kind {
    List,
    Option,
    Map,
    Record,
    Tuple,
    Variant,
    Enum,
    Flags,
    Result,
    Fixed,
    Own,
    Borrow,
}

/// All of them.
const KINDS: [Kind; 12] = [
    Kind::List,
    Kind::Option,
    Kind::Map,
    Kind::Record,
    Kind::Tuple,
    Kind::Variant,
    Kind::Enum,
    Kind::Flags,
    Kind::Result,
    Kind::Fixed,
    Kind::Own,
    Kind::Borrow,
];

/// The types that have names.
const PLAIN_TYPES: [InterfaceType; 13] = [
    InterfaceType::Bool,
    InterfaceType::S8,
    InterfaceType::U8,
    InterfaceType::S16,
    InterfaceType::U16,
    InterfaceType::S32,
    InterfaceType::U32,
    InterfaceType::S64,
    InterfaceType::U64,
    InterfaceType::Float32,
    InterfaceType::Float64,
    InterfaceType::Char,
    InterfaceType::String,
];

impl Kind {
    /// The member of an entry.
    pub fn word(self) -> &'static str
        ensures { result.now ≡ spec.kind_word self }
    {
        match self {
            Kind::List => "list",
            Kind::Option => "option",
            Kind::Map => "map",
            Kind::Record => "record",
            Kind::Tuple => "tuple",
            Kind::Variant => "variant",
            Kind::Enum => "enum",
            Kind::Flags => "flags",
            Kind::Result => "result",
            Kind::Fixed => "fixed",
            Kind::Own => "own",
            Kind::Borrow => "borrow",
        }
    }
}

pub(crate) fn kind_named(name: &str) -> Option<Kind>
    ensures { result ≡ kind_named name.now }
{
    KINDS.iter().copied().find(|kind| name == kind.word())
}

pub(crate) fn plain_named(name: &str) -> Option<InterfaceType>
    ensures { result ≡ plain_named name.now }
{
    PLAIN_TYPES.iter().copied().find(|ty| name == type_word(ty))
}

/// The word of a type: its name, or the member of the entry that makes it.
pub fn type_word(ty: &InterfaceType) -> &'static str
    ensures { result.now ≡ spec.type_word ty.now }
{
    match ty {
        InterfaceType::Bool => "bool",
        InterfaceType::S8 => "s8",
        InterfaceType::U8 => "u8",
        InterfaceType::S16 => "s16",
        InterfaceType::U16 => "u16",
        InterfaceType::S32 => "s32",
        InterfaceType::U32 => "u32",
        InterfaceType::S64 => "s64",
        InterfaceType::U64 => "u64",
        InterfaceType::Float32 => "f32",
        InterfaceType::Float64 => "f64",
        InterfaceType::Char => "char",
        InterfaceType::String => "string",
        InterfaceType::List(_) => Kind::List.word(),
        InterfaceType::Option(_) => Kind::Option.word(),
        InterfaceType::Map(_) => Kind::Map.word(),
        InterfaceType::Record(_) => Kind::Record.word(),
        InterfaceType::Tuple(_) => Kind::Tuple.word(),
        InterfaceType::Variant(_) => Kind::Variant.word(),
        InterfaceType::Enum(_) => Kind::Enum.word(),
        InterfaceType::Flags(_) => Kind::Flags.word(),
        InterfaceType::Result(_) => Kind::Result.word(),
        InterfaceType::FixedLengthList(_) => Kind::Fixed.word(),
        InterfaceType::Own(_) => Kind::Own.word(),
        InterfaceType::Borrow(_) => Kind::Borrow.word(),
    }
}
