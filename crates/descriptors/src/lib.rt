//! Descriptors of fields and methods: their grammar, their types one by one, and their limits (JVMS 4.3).
#![tactic(auto)]

mod laws;
mod pieces;
mod tests;
mod texts;

pub use laws::{method_texts_are_joined, types_are_found};
pub use pieces::{behind_open, first_type, names_float, parameter_words, result_of};
pub use tests::{is_field_descriptor, is_method_descriptor, is_method_text};
pub use texts::{is_array, is_class, is_reference, name_of};
