use crate::base::Base;
use crate::nat::Nat;

/// A natural number for each list of sizes.
#[derive(Debug, Drop)]
pub enum Bound {
    Const(u128),
    Nat(Nat),
    Sum(Vec<Bound>),
    Prod(Vec<Bound>),
    Max(Vec<Bound>),
    /// The base to the power of the value.
    Pow(Base, Nat),
    /// The sum of the base's powers below the value: `1 + b + .. + b^(n-1)`.
    Geo(Base, Nat),
}
