//! The numbers of the canonical ABI: sizes, alignments, flat words, discriminants and flags; the numbers that name types, options
//! and instances; and the canonical options.
#![tactic(auto)]

mod abi;
mod error;
mod index;
mod options;
mod sizes;

pub use abi::{CanonicalAbiInfo, MAX_FLAT_PARAMS, MAX_FLAT_RESULTS, VariantInfo};
pub use error::OutOfMemory;
pub use index::{
    ExportIndex, OptionsIndex, RuntimeInstance, StoreId, TypeEnumIndex, TypeFixedLengthListIndex,
    TypeFlagsIndex, TypeFuncIndex, TypeFutureTableIndex, TypeListIndex, TypeMapIndex,
    TypeOptionIndex, TypeRecordIndex, TypeResourceTableIndex, TypeResultIndex,
    TypeStreamTableIndex, TypeTupleIndex, TypeVariantIndex,
};
pub use options::{CanonicalOptions, StringEncoding};
pub use sizes::{DiscriminantSize, FlagsSize};
