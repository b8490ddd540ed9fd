ghost use Rattle.std.specs.Prelude.{◌≡◌, true, IfOk};
ghost use Rattle.bound_terms.specs.Terms.{Total, Greatest, terms};
ghost use Rattle.bound_terms.specs.Bounds.{term_of};
ghost use Rattle.bound_text.specs.inside.Runs.{is_digit};
ghost use Rattle.bound_text.specs.inside.Sums.{open_of, nothing_open, with_digit, with_atom, with_monomial, with_operand};

use crate::digits::digit_onto;
use bound_terms::Bound;
use std::alloc::{AllocError, Global};

/// A sum, of which the last monomial is still read.
#[derive(Drop)]
pub(crate) struct Sum {
    /// The operands in front of it, where it is one of a maximum.
    operands: Vec<Bound>,
    monomials: Vec<Bound>,
    /// The last monomial's number.
    coefficient: Option<u128>,
    /// The last monomial's atoms.
    atoms: Vec<Bound>,
}

impl Sum {
    /// No monomial yet.
    pub(crate) fn new(alloc: Global) -> Sum
        ensures { open_of result ≡ nothing_open }
    {
        Sum {
            operands: Vec::new(alloc),
            monomials: Vec::new(alloc),
            coefficient: None,
            atoms: Vec::new(alloc),
        }
    }

    pub(crate) fn with_digit(self, byte: u8) -> Sum
        requires { is_digit byte ≡ true }
        ensures { open_of result ≡ with_digit byte (open_of self) }
    {
        let mut sum = self;
        sum.coefficient = Some(digit_onto(sum.coefficient.unwrap_or(0), byte));
        sum
    }

    pub(crate) fn with_atom(self, atom: Bound) -> Result<Sum, AllocError>
        ensures { IfOk result (λ s. open_of s ≡ with_atom (term_of atom) (open_of self)) }
    {
        let mut sum = self;
        sum.atoms.push(atom)?;
        Ok(sum)
    }

    /// With the last monomial put to the others. A number 0 is none.
    pub(crate) fn with_monomial(self, alloc: Global) -> Result<Sum, AllocError>
        ensures { IfOk result (λ s. open_of s ≡ with_monomial (open_of self)) }
    {
        let Sum {
            operands,
            mut monomials,
            coefficient,
            mut atoms,
        } = self;
        let number = coefficient.unwrap_or(1);
        if number != 0 {
            atoms.insert(0, Bound::Const(number))?;
            monomials.push(Bound::Prod(atoms))?;
        }
        Ok(Sum {
            operands,
            monomials,
            coefficient: None,
            atoms: Vec::new(alloc),
        })
    }

    /// With the sum put to the operands.
    pub(crate) fn with_operand(self, alloc: Global) -> Result<Sum, AllocError>
        ensures { IfOk result (λ s. open_of s ≡ with_operand (open_of self)) }
    {
        let Sum {
            mut operands,
            monomials,
            coefficient: _,
            atoms: _,
        } = self.with_monomial(alloc)?;
        operands.push(Bound::Sum(monomials))?;
        Ok(Sum {
            operands,
            monomials: Vec::new(alloc),
            coefficient: None,
            atoms: Vec::new(alloc),
        })
    }

    /// The maximum of the operands, this one with them.
    pub(crate) fn into_maximum(self, alloc: Global) -> Result<Bound, AllocError>
        ensures { IfOk result (λ b. term_of b ≡ Greatest (terms (with_operand (open_of self)).operands)) }
    {
        Ok(Bound::Max(self.with_operand(alloc)?.operands))
    }

    /// The bound that it is.
    pub(crate) fn into_bound(self, alloc: Global) -> Result<Bound, AllocError>
        ensures { IfOk result (λ b. term_of b ≡ Total (terms (with_monomial (open_of self)).monomials)) }
    {
        Ok(Bound::Sum(self.with_monomial(alloc)?.monomials))
    }
}
