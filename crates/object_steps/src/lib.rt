//! Instructions on objects and arrays: new ones, elements, fields, and what a reference is an instance of (JVMS 6.5).
#![tactic(auto)]

mod acting;
mod arrays;
mod casts;
mod classes;
mod ending;
mod fields;
mod laws;
mod named;
mod new_arrays;
mod objects;
mod statics;
mod tops;

pub use acting::{on_arrays, on_fields, on_references};
pub use laws::{arrays_are_cases, casts_are_cases, fields_are_cases, heaps_are_kept};
pub use objects::new_object;
