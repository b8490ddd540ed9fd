ghost use Rattle.std.specs.Prelude.{◌≡◌, map, IfOk};
ghost use Rattle.bound_terms.specs.Bounds.{term_of};

use bound_terms::{Base, Bound, Nat};
use std::alloc::{AllocError, Global};

/// A bound that says the same. `Err` is want of memory.
#[cycle(copying)]
pub fn copy(alloc: Global, bound: &Bound) -> Result<Bound, AllocError>
    ensures { IfOk result (λ b. term_of b ≡ term_of bound.now) }
{
    match bound {
        Bound::Const(n) => Ok(Bound::Const(*n)),
        Bound::Nat(n) => Ok(Bound::Nat(copy_nat(n)?)),
        Bound::Sum(parts) => Ok(Bound::Sum(copy_all(alloc, parts.as_slice())?)),
        Bound::Prod(parts) => Ok(Bound::Prod(copy_all(alloc, parts.as_slice())?)),
        Bound::Max(parts) => Ok(Bound::Max(copy_all(alloc, parts.as_slice())?)),
        Bound::Pow(b, n) => Ok(Bound::Pow(Base::new(b.get()), copy_nat(n)?)),
        Bound::Geo(b, n) => Ok(Bound::Geo(Base::new(b.get()), copy_nat(n)?)),
    }
}

#[cycle(copying)]
pub(crate) fn copy_all(alloc: Global, bounds: &[Bound]) -> Result<Vec<Bound>, AllocError>
    ensures { IfOk result (λ bs. map term_of bs.items ≡ map term_of bounds.now) }
{
    let mut copies = Vec::new(alloc);
    for bound in bounds {
        copies.push(copy(alloc, bound)?)?;
    }
    Ok(copies)
}

fn copy_nat(n: &Nat) -> Result<Nat, AllocError>
    ensures { IfOk result (λ m. m ≡ n.now) }
{
    Ok(Nat::new(n.expression().clone()?, n.divisor()))
}
