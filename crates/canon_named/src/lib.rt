//! Whether a type is one of these names: the parts of typed records, variants, enums and flags.
#![tactic(auto)]

mod description;
mod error;
mod named;
mod names;

pub use description::desc;
pub use error::TypecheckFailed;
pub use named::{typecheck_enum, typecheck_flags, typecheck_record, typecheck_variant};
pub use names::format_flags;
