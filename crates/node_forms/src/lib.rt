//! Costs and closed forms of a node, as definitions in `specs`, and what a form is good for.
#![tactic(auto)]

pub mod laws;
