//! Normal forms of bounds, which are sums of monomials.
#![tactic(auto)]

mod copies;
mod fault;
mod forming;
mod gathering;
mod keys;
pub mod laws;
mod leaves;
mod limits;
mod maxima;
mod monomial;
mod products;
mod reading;
mod reducing;
mod totals;
mod zeros;

pub use copies::copy;
pub use fault::BoundFault;
pub use forming::normal;
pub use reducing::lowest;
