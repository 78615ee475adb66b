//! What a type's values are lifted as, by its shape: where the types of their parts stand, what they cost, and how many words they have.
#![tactic(auto)]

mod case_plan;
mod element;
mod flat;
mod no_handle;
mod plan;

pub use case_plan::{CaseSlots, case_of};
pub use element::{Element, VAL_COST, element_abi, element_cost};
pub use flat::flat_words;
pub use no_handle::has_no_handle;
pub use plan::{HandleType, Plan, Slot, Slots, plan_of, slot_count, slot_of, slots_of};
