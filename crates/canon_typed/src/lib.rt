//! Rust types as component types: which component types are theirs, how these lie in memory, what a value means, and what
//! lifting it charges.
#![tactic(auto)]

mod component_type;
mod compounds;
mod fixed_list;
mod maps;
mod references;
mod resources;
mod scalars;
mod texts;
mod tuples;

pub use canon_named::{
    TypecheckFailed, desc, format_flags, typecheck_enum, typecheck_flags, typecheck_record,
    typecheck_variant,
};
pub use component_type::{ComponentNamedList, ComponentType, ComponentVariant, ScalarType};
pub use fixed_list::FixedList;
pub use scalars::{Float32Bits, Float64Bits};
