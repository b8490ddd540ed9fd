//! What the instructions mean that name members and classes: which method a call runs, which field is read or written,
//! which class is meant, or what keeps that from being told.
#![tactic(auto)]

mod calls;
mod fault;
mod laws;
mod members;
mod references;
mod targets;

pub use calls::{Meant, called_by, looked_up, meant_by};
pub use fault::LinkFault;
pub use laws::targets_are_listed;
pub use members::{field_by, known, made_by};
pub use references::{against_call, against_class, against_field, construct_if};
