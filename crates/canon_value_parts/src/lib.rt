//! What the walks over values share: the definitions of what each says, with their lemmas; a value by the shape of its type, and
//! a value of lifted parts; the blocks that a guest is asked for, handles, and the bits of flags.
#![tactic(auto)]

mod blocks;
mod case_view;
mod elements;
mod flags;
mod handles;
mod lists;
mod members;
mod rebuilt;
mod rebuilt_case;
mod scalar;
mod spot;
mod view;

pub use blocks::{Placed, ask_items, place_text};
pub use case_view::Case;
pub use elements::{Elements, element_count, element_of};
pub use flags::{
    Marks, flags_of, lift_flags, load_flags, lower_names, mark_byte, number_of, store_names,
};
pub use handles::{give_handle, take_handle, told};
pub use lists::keep;
pub use members::{Member, Members, count_of, member_of, members_in};
pub use rebuilt::rebuild;
pub use rebuilt_case::rebuild_case;
pub use scalar::{load_scalar, scalar_word};
pub use spot::Spot;
pub use view::{View, view_of};
