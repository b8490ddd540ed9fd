//! What each instruction makes of the kinds of a frame's slots.
#![tactic(auto)]

mod effects;
mod entry;
mod frames;
mod laws;
mod types;

pub use effects::{locals_after, pops, pushed, reads_top};
pub use entry::{entry_frame, kinds_handed};
pub use frames::{MOST_WORDS, fact_after, uses_top};
pub use laws::{effects_keep_order, effects_make_facts};
pub use types::{
    add_type, array_named, array_of_numbers, kind_cast, kind_named, kind_of_element,
    kinds_of_result, type_words,
};
