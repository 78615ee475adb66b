//! Values.

ghost use Rattle.std.specs.Prelude.{◌≡◌};
ghost use Rattle.canon_val.specs.Equal.{data_of, kind_of, kind_text};
ghost use Rattle.canon_val.specs.declared.val.Val.TheVariants as val;

use canon_resources::ResourceAny;

/// A value of the component model.
#[derive(Debug, Drop)]
pub enum Val {
    Bool(bool),
    S8(i8),
    U8(u8),
    S16(i16),
    U16(u16),
    S32(i32),
    U32(u32),
    S64(i64),
    U64(u64),
    /// The bits of a float.
    Float32(u32),
    /// The bits of a float.
    Float64(u64),
    Char(char),
    String(String),
    List(Vec<Val>),
    /// Keys and values, in any order; a key may stand twice.
    Map(Vec<(Val, Val)>),
    /// The fields with their names, in the order of the type.
    Record(Vec<(String, Val)>),
    Tuple(Vec<Val>),
    /// The name of the case, and its payload.
    Variant(String, Option<Box<Val>>),
    /// The name of the case.
    Enum(String),
    Option(Option<Box<Val>>),
    Result(Result<Option<Box<Val>>, Option<Box<Val>>>),
    /// The names of those that are set, in any order; a name may stand twice.
    Flags(Vec<String>),
    /// A handle of the host's table, or a borrow that the host made.
    Resource(ResourceAny),
    FixedLengthList(Vec<Val>),
}

impl Val {
    /// What the value is called in messages (wasmtime's `Val::desc`).
    pub fn desc(&self) -> &'static str
        ensures { result.now ≡ kind_text (kind_of (data_of self.now)) }
    {
        match self {
            Val::Bool(_) => "bool",
            Val::S8(_) => "s8",
            Val::U8(_) => "u8",
            Val::S16(_) => "s16",
            Val::U16(_) => "u16",
            Val::S32(_) => "s32",
            Val::U32(_) => "u32",
            Val::S64(_) => "s64",
            Val::U64(_) => "u64",
            Val::Float32(_) => "f32",
            Val::Float64(_) => "f64",
            Val::Char(_) => "char",
            Val::String(_) => "string",
            Val::List(_) => "list",
            Val::Map(_) => "map",
            Val::Record(_) => "record",
            Val::Tuple(_) => "tuple",
            Val::Variant(..) => "variant",
            Val::Enum(_) => "enum",
            Val::Option(_) => "option",
            Val::Result(_) => "result",
            Val::Flags(_) => "flags",
            Val::Resource(_) => "resource",
            Val::FixedLengthList(_) => "list<_, N>",
        }
    }
}

impl From<bool> for Val {
    ghost from_gives = { λ x v. v ≡ val.Bool x };

    fn from(x: bool) -> Self {
        Val::Bool(x)
    }
}

impl From<u8> for Val {
    ghost from_gives = { λ x v. v ≡ val.U8 x };

    fn from(x: u8) -> Self {
        Val::U8(x)
    }
}

impl From<i8> for Val {
    ghost from_gives = { λ x v. v ≡ val.S8 x };

    fn from(x: i8) -> Self {
        Val::S8(x)
    }
}

impl From<u16> for Val {
    ghost from_gives = { λ x v. v ≡ val.U16 x };

    fn from(x: u16) -> Self {
        Val::U16(x)
    }
}

impl From<i16> for Val {
    ghost from_gives = { λ x v. v ≡ val.S16 x };

    fn from(x: i16) -> Self {
        Val::S16(x)
    }
}

impl From<u32> for Val {
    ghost from_gives = { λ x v. v ≡ val.U32 x };

    fn from(x: u32) -> Self {
        Val::U32(x)
    }
}

impl From<i32> for Val {
    ghost from_gives = { λ x v. v ≡ val.S32 x };

    fn from(x: i32) -> Self {
        Val::S32(x)
    }
}

impl From<u64> for Val {
    ghost from_gives = { λ x v. v ≡ val.U64 x };

    fn from(x: u64) -> Self {
        Val::U64(x)
    }
}

impl From<i64> for Val {
    ghost from_gives = { λ x v. v ≡ val.S64 x };

    fn from(x: i64) -> Self {
        Val::S64(x)
    }
}

impl From<char> for Val {
    ghost from_gives = { λ x v. v ≡ val.Char x };

    fn from(x: char) -> Self {
        Val::Char(x)
    }
}

impl From<String> for Val {
    ghost from_gives = { λ x v. v ≡ val.String x };

    fn from(x: String) -> Self {
        Val::String(x)
    }
}

impl From<ResourceAny> for Val {
    ghost from_gives = { λ x v. v ≡ val.Resource x };

    fn from(x: ResourceAny) -> Self {
        Val::Resource(x)
    }
}
