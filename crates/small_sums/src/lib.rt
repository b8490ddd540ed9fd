//! Small sums of rows: at most a few rows, each once or twice, found by their coefficients.
#![tactic(auto)]

mod index;
mod key;
mod places;
mod term;

pub use index::{RowIndex, term_of};
pub use key::{key_of, rest_of};
pub use term::{Sum, Term, Terms};
