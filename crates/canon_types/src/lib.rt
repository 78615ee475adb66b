//! The types of values and functions, and the tables that hold them.
#![tactic(auto)]

mod error;
mod instance;
mod resource;
mod table;
mod types;

pub use canon_abi::{
    CanonicalAbiInfo, CanonicalOptions, DiscriminantSize, ExportIndex, FlagsSize, MAX_FLAT_PARAMS,
    MAX_FLAT_RESULTS, OptionsIndex, OutOfMemory, RuntimeInstance, StoreId, StringEncoding,
    TypeEnumIndex, TypeFixedLengthListIndex, TypeFlagsIndex, TypeFuncIndex, TypeFutureTableIndex,
    TypeListIndex, TypeMapIndex, TypeOptionIndex, TypeRecordIndex, TypeResourceTableIndex,
    TypeResultIndex, TypeStreamTableIndex, TypeTupleIndex, TypeVariantIndex, VariantInfo,
};
pub use error::TypeError;
pub use instance::InstanceType;
pub use resource::{HostType, ResourceType};
pub use table::{ComponentTypes, TypeBuilder};
pub use types::{
    InterfaceType, RecordField, ResourceKind, TypeEnum, TypeFixedLengthList, TypeFlags, TypeFunc,
    TypeList, TypeMap, TypeOption, TypeRecord, TypeResourceTable, TypeResult, TypeTuple,
    TypeVariant,
};
