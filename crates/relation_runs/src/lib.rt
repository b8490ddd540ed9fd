//! What cost relations mean: what their nodes pass and spend, and by which exits they are left, as definitions in `specs`,
//! and their laws. The lemmas in `proofs` are over all amounts; each contract here is a law at the amounts of a relation.
#![tactic(auto)]

mod laws;

pub use laws::{
    depths_add_only, items_are_joined, nodes_are_their_rules, passed_is_spent, replaced_items,
    same_values, spent_is_a_prefix, terms_are_their_ways,
};
