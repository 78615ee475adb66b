//! The kinds of values, and the names that a script gives them.

ghost use Rattle.std.specs.Prelude.{◌≡◌};
ghost use Rattle.canon_script.specs.Values as spec;

/// The kinds of values.
#[derive(Clone, Copy)]
pub enum ValueKind {
    Bool,
    S8,
    U8,
    S16,
    U16,
    S32,
    U32,
    S64,
    U64,
    Float32,
    Float64,
    Char,
    String,
    List,
    Map,
    Record,
    Tuple,
    Variant,
    Enum,
    Option,
    Result,
    Flags,
    Resource,
    FixedLengthList,
}

/// All of them.
const KINDS: [ValueKind; 24] = [
    ValueKind::Bool,
    ValueKind::S8,
    ValueKind::U8,
    ValueKind::S16,
    ValueKind::U16,
    ValueKind::S32,
    ValueKind::U32,
    ValueKind::S64,
    ValueKind::U64,
    ValueKind::Float32,
    ValueKind::Float64,
    ValueKind::Char,
    ValueKind::String,
    ValueKind::List,
    ValueKind::Map,
    ValueKind::Record,
    ValueKind::Tuple,
    ValueKind::Variant,
    ValueKind::Enum,
    ValueKind::Option,
    ValueKind::Result,
    ValueKind::Flags,
    ValueKind::Resource,
    ValueKind::FixedLengthList,
];

impl ValueKind {
    /// The member of a value.
    pub fn word(self) -> &'static str
        ensures { result.now ≡ spec.value_word self }
    {
        match self {
            ValueKind::Bool => "bool",
            ValueKind::S8 => "s8",
            ValueKind::U8 => "u8",
            ValueKind::S16 => "s16",
            ValueKind::U16 => "u16",
            ValueKind::S32 => "s32",
            ValueKind::U32 => "u32",
            ValueKind::S64 => "s64",
            ValueKind::U64 => "u64",
            ValueKind::Float32 => "f32",
            ValueKind::Float64 => "f64",
            ValueKind::Char => "char",
            ValueKind::String => "string",
            ValueKind::List => "list",
            ValueKind::Map => "map",
            ValueKind::Record => "record",
            ValueKind::Tuple => "tuple",
            ValueKind::Variant => "variant",
            ValueKind::Enum => "enum",
            ValueKind::Option => "option",
            ValueKind::Result => "result",
            ValueKind::Flags => "flags",
            ValueKind::Resource => "resource",
            ValueKind::FixedLengthList => "fixed",
        }
    }
}

pub(crate) fn value_kind_named(name: &str) -> Option<ValueKind>
    ensures { result ≡ spec.value_kind_named name.now }
{
    KINDS.iter().copied().find(|kind| name == kind.word())
}
