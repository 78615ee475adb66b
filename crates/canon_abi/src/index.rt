//! Numbers that name things, each of its own type. Contracts see the number.

ghost use Rattle.std.specs.Prelude.{◌≡◌, ℕ};

use std::marker::Model;

/// The number of a record type in its table.
#[derive(Clone, Copy, Debug, PartialEq, Eq)]
pub struct TypeRecordIndex {
    number: u32,
}

impl Model for TypeRecordIndex {
    ghost Value = { ℕ };

    ghost view = { λ i. i.number };

    ghost inverse = { λ n. record { number = n } };
}

impl TypeRecordIndex {
    /// The index of this number.
    pub fn from_u32(number: u32) -> Self
        ensures { result ≡ number }
    {
        TypeRecordIndex { number }
    }

    /// Its number.
    pub fn as_u32(self) -> u32
        ensures { result ≡ self }
    {
        self.number
    }
}

/// The number of a variant type in its table.
#[derive(Clone, Copy, Debug, PartialEq, Eq)]
pub struct TypeVariantIndex {
    number: u32,
}

impl Model for TypeVariantIndex {
    ghost Value = { ℕ };

    ghost view = { λ i. i.number };

    ghost inverse = { λ n. record { number = n } };
}

impl TypeVariantIndex {
    /// The index of this number.
    pub fn from_u32(number: u32) -> Self
        ensures { result ≡ number }
    {
        TypeVariantIndex { number }
    }

    /// Its number.
    pub fn as_u32(self) -> u32
        ensures { result ≡ self }
    {
        self.number
    }
}

/// The number of a list type in its table.
#[derive(Clone, Copy, Debug, PartialEq, Eq)]
pub struct TypeListIndex {
    number: u32,
}

impl Model for TypeListIndex {
    ghost Value = { ℕ };

    ghost view = { λ i. i.number };

    ghost inverse = { λ n. record { number = n } };
}

impl TypeListIndex {
    /// The index of this number.
    pub fn from_u32(number: u32) -> Self
        ensures { result ≡ number }
    {
        TypeListIndex { number }
    }

    /// Its number.
    pub fn as_u32(self) -> u32
        ensures { result ≡ self }
    {
        self.number
    }
}

/// The number of a tuple type in its table.
#[derive(Clone, Copy, Debug, PartialEq, Eq)]
pub struct TypeTupleIndex {
    number: u32,
}

impl Model for TypeTupleIndex {
    ghost Value = { ℕ };

    ghost view = { λ i. i.number };

    ghost inverse = { λ n. record { number = n } };
}

impl TypeTupleIndex {
    /// The index of this number.
    pub fn from_u32(number: u32) -> Self
        ensures { result ≡ number }
    {
        TypeTupleIndex { number }
    }

    /// Its number.
    pub fn as_u32(self) -> u32
        ensures { result ≡ self }
    {
        self.number
    }
}

/// The number of a map type in its table.
#[derive(Clone, Copy, Debug, PartialEq, Eq)]
pub struct TypeMapIndex {
    number: u32,
}

impl Model for TypeMapIndex {
    ghost Value = { ℕ };

    ghost view = { λ i. i.number };

    ghost inverse = { λ n. record { number = n } };
}

impl TypeMapIndex {
    /// The index of this number.
    pub fn from_u32(number: u32) -> Self
        ensures { result ≡ number }
    {
        TypeMapIndex { number }
    }

    /// Its number.
    pub fn as_u32(self) -> u32
        ensures { result ≡ self }
    {
        self.number
    }
}

/// The number of a flags type in its table.
#[derive(Clone, Copy, Debug, PartialEq, Eq)]
pub struct TypeFlagsIndex {
    number: u32,
}

impl Model for TypeFlagsIndex {
    ghost Value = { ℕ };

    ghost view = { λ i. i.number };

    ghost inverse = { λ n. record { number = n } };
}

impl TypeFlagsIndex {
    /// The index of this number.
    pub fn from_u32(number: u32) -> Self
        ensures { result ≡ number }
    {
        TypeFlagsIndex { number }
    }

    /// Its number.
    pub fn as_u32(self) -> u32
        ensures { result ≡ self }
    {
        self.number
    }
}

/// The number of an enum type in its table.
#[derive(Clone, Copy, Debug, PartialEq, Eq)]
pub struct TypeEnumIndex {
    number: u32,
}

impl Model for TypeEnumIndex {
    ghost Value = { ℕ };

    ghost view = { λ i. i.number };

    ghost inverse = { λ n. record { number = n } };
}

impl TypeEnumIndex {
    /// The index of this number.
    pub fn from_u32(number: u32) -> Self
        ensures { result ≡ number }
    {
        TypeEnumIndex { number }
    }

    /// Its number.
    pub fn as_u32(self) -> u32
        ensures { result ≡ self }
    {
        self.number
    }
}

/// The number of an option type in its table.
#[derive(Clone, Copy, Debug, PartialEq, Eq)]
pub struct TypeOptionIndex {
    number: u32,
}

impl Model for TypeOptionIndex {
    ghost Value = { ℕ };

    ghost view = { λ i. i.number };

    ghost inverse = { λ n. record { number = n } };
}

impl TypeOptionIndex {
    /// The index of this number.
    pub fn from_u32(number: u32) -> Self
        ensures { result ≡ number }
    {
        TypeOptionIndex { number }
    }

    /// Its number.
    pub fn as_u32(self) -> u32
        ensures { result ≡ self }
    {
        self.number
    }
}

/// The number of a result type in its table.
#[derive(Clone, Copy, Debug, PartialEq, Eq)]
pub struct TypeResultIndex {
    number: u32,
}

impl Model for TypeResultIndex {
    ghost Value = { ℕ };

    ghost view = { λ i. i.number };

    ghost inverse = { λ n. record { number = n } };
}

impl TypeResultIndex {
    /// The index of this number.
    pub fn from_u32(number: u32) -> Self
        ensures { result ≡ number }
    {
        TypeResultIndex { number }
    }

    /// Its number.
    pub fn as_u32(self) -> u32
        ensures { result ≡ self }
    {
        self.number
    }
}

/// The number of a fixed-length list type in its table.
#[derive(Clone, Copy, Debug, PartialEq, Eq)]
pub struct TypeFixedLengthListIndex {
    number: u32,
}

impl Model for TypeFixedLengthListIndex {
    ghost Value = { ℕ };

    ghost view = { λ i. i.number };

    ghost inverse = { λ n. record { number = n } };
}

impl TypeFixedLengthListIndex {
    /// The index of this number.
    pub fn from_u32(number: u32) -> Self
        ensures { result ≡ number }
    {
        TypeFixedLengthListIndex { number }
    }

    /// Its number.
    pub fn as_u32(self) -> u32
        ensures { result ≡ self }
    {
        self.number
    }
}

/// The number of a resource table in a table of types.
#[derive(Clone, Copy, Debug, PartialEq, Eq)]
pub struct TypeResourceTableIndex {
    number: u32,
}

impl Model for TypeResourceTableIndex {
    ghost Value = { ℕ };

    ghost view = { λ i. i.number };

    ghost inverse = { λ n. record { number = n } };
}

impl TypeResourceTableIndex {
    /// The index of this number.
    pub fn from_u32(number: u32) -> Self
        ensures { result ≡ number }
    {
        TypeResourceTableIndex { number }
    }

    /// Its number.
    pub fn as_u32(self) -> u32
        ensures { result ≡ self }
    {
        self.number
    }
}

/// The number of a function type in its table.
#[derive(Clone, Copy, Debug, PartialEq, Eq)]
pub struct TypeFuncIndex {
    number: u32,
}

impl Model for TypeFuncIndex {
    ghost Value = { ℕ };

    ghost view = { λ i. i.number };

    ghost inverse = { λ n. record { number = n } };
}

impl TypeFuncIndex {
    /// The index of this number.
    pub fn from_u32(number: u32) -> Self
        ensures { result ≡ number }
    {
        TypeFuncIndex { number }
    }

    /// Its number.
    pub fn as_u32(self) -> u32
        ensures { result ≡ self }
    {
        self.number
    }
}

/// The number of a stream table.
#[derive(Clone, Copy, Debug, PartialEq, Eq)]
pub struct TypeStreamTableIndex {
    number: u32,
}

impl Model for TypeStreamTableIndex {
    ghost Value = { ℕ };

    ghost view = { λ i. i.number };

    ghost inverse = { λ n. record { number = n } };
}

impl TypeStreamTableIndex {
    /// The index of this number.
    pub fn from_u32(number: u32) -> Self
        ensures { result ≡ number }
    {
        TypeStreamTableIndex { number }
    }

    /// Its number.
    pub fn as_u32(self) -> u32
        ensures { result ≡ self }
    {
        self.number
    }
}

/// The number of a future table.
#[derive(Clone, Copy, Debug, PartialEq, Eq)]
pub struct TypeFutureTableIndex {
    number: u32,
}

impl Model for TypeFutureTableIndex {
    ghost Value = { ℕ };

    ghost view = { λ i. i.number };

    ghost inverse = { λ n. record { number = n } };
}

impl TypeFutureTableIndex {
    /// The index of this number.
    pub fn from_u32(number: u32) -> Self
        ensures { result ≡ number }
    {
        TypeFutureTableIndex { number }
    }

    /// Its number.
    pub fn as_u32(self) -> u32
        ensures { result ≡ self }
    {
        self.number
    }
}

/// The number of canonical options in their component.
#[derive(Clone, Copy, Debug, PartialEq, Eq)]
pub struct OptionsIndex {
    number: u32,
}

impl Model for OptionsIndex {
    ghost Value = { ℕ };

    ghost view = { λ i. i.number };

    ghost inverse = { λ n. record { number = n } };
}

impl OptionsIndex {
    /// The index of this number.
    pub fn from_u32(number: u32) -> Self
        ensures { result ≡ number }
    {
        OptionsIndex { number }
    }

    /// Its number.
    pub fn as_u32(self) -> u32
        ensures { result ≡ self }
    {
        self.number
    }
}

/// The number of an export in its component.
#[derive(Clone, Copy, Debug, PartialEq, Eq)]
pub struct ExportIndex {
    number: u32,
}

impl Model for ExportIndex {
    ghost Value = { ℕ };

    ghost view = { λ i. i.number };

    ghost inverse = { λ n. record { number = n } };
}

impl ExportIndex {
    /// The index of this number.
    pub fn from_u32(number: u32) -> Self
        ensures { result ≡ number }
    {
        ExportIndex { number }
    }

    /// Its number.
    pub fn as_u32(self) -> u32
        ensures { result ≡ self }
    {
        self.number
    }
}

/// The number of a component instance in its store.
#[derive(Clone, Copy, Debug, PartialEq, Eq)]
pub struct RuntimeInstance {
    number: u32,
}

impl Model for RuntimeInstance {
    ghost Value = { ℕ };

    ghost view = { λ i. i.number };

    ghost inverse = { λ n. record { number = n } };
}

impl RuntimeInstance {
    /// The index of this number.
    pub fn from_u32(number: u32) -> Self
        ensures { result ≡ number }
    {
        RuntimeInstance { number }
    }

    /// Its number.
    pub fn as_u32(self) -> u32
        ensures { result ≡ self }
    {
        self.number
    }
}

/// The number of a store. The caller gives different stores different numbers.
#[derive(Clone, Copy, Debug, PartialEq, Eq)]
pub struct StoreId {
    number: u64,
}

impl Model for StoreId {
    ghost Value = { ℕ };

    ghost view = { λ i. i.number };

    ghost inverse = { λ n. record { number = n } };
}

impl StoreId {
    /// The index of this number.
    pub fn from_u64(number: u64) -> Self
        ensures { result ≡ number }
    {
        StoreId { number }
    }

    /// Its number.
    pub fn as_u64(self) -> u64
        ensures { result ≡ self }
    {
        self.number
    }
}
