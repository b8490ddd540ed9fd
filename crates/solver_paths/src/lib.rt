//! Choices of a problem of rows, their dictionaries, and the solver's path: the definitions in `specs`, and their laws.
#![tactic(auto)]

pub mod laws;
