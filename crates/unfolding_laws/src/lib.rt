//! What unfolding keeps: the nodes of base relations pass and spend what they do in the relation that is unfolded.
#![tactic(auto)]

pub mod laws;
