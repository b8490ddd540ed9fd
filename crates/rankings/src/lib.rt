//! What rankings, templates and caps of a node mean, as definitions in `specs`, and what they are good for.
#![tactic(auto)]

pub mod laws;
