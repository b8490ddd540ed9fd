ghost use Rattle.std.specs.Prelude.{◌≡◌, map};
ghost use Rattle.bound_forms.specs.Monomials.{put, gathered, monomial_product, form_product};
ghost use Rattle.bound_forms.specs.Coded.{coded, coded_form};
ghost use Rattle.bound_forms.specs.Answered.{Makes};
ghost use Rattle.bound_forms.specs.inside.Passing.{Puts};

use crate::fault::BoundFault;
use crate::gathering::Gathering;
use crate::limits::limited_product;
use crate::monomial::Monomial;
use std::alloc::Global;

/// Gathers the product of two monomials.
fn put_product(
    alloc: Global,
    m: &Monomial,
    n: &Monomial,
    gathering: &mut Gathering,
) -> Result<(), BoundFault>
    ensures { Puts result gathering.new (put (monomial_product (coded m.now) (coded n.now)) (coded_form gathering.old)) }
{
    let coefficient = limited_product(m.coefficient(), n.coefficient())?;
    gathering.put(m.times(alloc, n, coefficient)?)
}

/// Gathers the products of a monomial with a form's.
fn put_row(
    alloc: Global,
    m: &Monomial,
    q: &[Monomial],
    gathering: &mut Gathering,
) -> Result<(), BoundFault>
    ensures { Puts result gathering.new (gathered (coded_form gathering.old) (map (monomial_product (coded m.now)) (coded_form q.now))) }
{
    for n in q {
        put_product(alloc, m, n, gathering)?;
    }
    Ok(())
}

/// The product of two forms, multiplied out: the products of each monomial of the one with each of the other, equal ones
/// added. `Monomials` and `Coefficient` come only where it passes the limit.
pub(crate) fn form_product(
    alloc: Global,
    p: &[Monomial],
    q: &[Monomial],
) -> Result<Vec<Monomial>, BoundFault>
    ensures { Makes result (form_product (coded_form p.now) (coded_form q.now)) }
{
    let mut gathering = Gathering::new(alloc);
    for m in p {
        put_row(alloc, m, q, &mut gathering)?;
    }
    gathering.finish(alloc)
}
