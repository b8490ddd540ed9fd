ghost use Rattle.bound_terms.specs.Terms.{Total, Product, Greatest};
ghost use Rattle.bound_terms.specs.Bounds.{term_of, terms_of};
ghost use Rattle.bound_forms.specs.Needed.{IsNormalized};
ghost use Rattle.bound_forms.specs.Formed.{IsFormed};

use crate::fault::BoundFault;
use crate::gathering::Gathering;
use crate::leaves::{constant, floor_form, geometric_form, power_form};
use crate::maxima::greatest_form;
use crate::products::form_product;
use crate::reading::{Form, bound_of, put_operands};
use crate::totals::put_all;
use crate::zeros::some_zero;
use bound_terms::Bound;
use std::alloc::Global;

#[cycle(forming)]
fn form(alloc: Global, bound: &Bound) -> Result<Form, BoundFault>
    ensures { IsFormed result (term_of bound.now) }
{
    match bound {
        Bound::Const(n) => constant(alloc, *n),
        Bound::Nat(n) => floor_form(alloc, n),
        Bound::Sum(parts) => total(alloc, parts.as_slice()),
        Bound::Prod(parts) => product(alloc, parts.as_slice()),
        Bound::Max(parts) => greatest(alloc, parts.as_slice()),
        Bound::Pow(b, n) => power_form(alloc, bound, b, n),
        Bound::Geo(b, n) => geometric_form(alloc, bound, b, n),
    }
}

#[cycle(forming)]
fn total(alloc: Global, parts: &[Bound]) -> Result<Form, BoundFault>
    ensures { IsFormed result (Total (terms_of parts.now)) }
{
    let mut gathering = Gathering::new(alloc);
    for part in parts {
        put_all(form(alloc, part)?, &mut gathering)?;
    }
    gathering.finish(alloc)
}

/// Where a factor is 0 the others may pass any limit.
#[cycle(forming)]
fn product(alloc: Global, parts: &[Bound]) -> Result<Form, BoundFault>
    ensures { IsFormed result (Product (terms_of parts.now)) }
{
    if some_zero(parts) {
        return Ok(Vec::new(alloc));
    }
    let mut product = constant(alloc, 1)?;
    for part in parts {
        let factor = form(alloc, part)?;
        product = form_product(alloc, product.as_slice(), factor.as_slice())?;
    }
    Ok(product)
}

#[cycle(forming)]
fn greatest(alloc: Global, parts: &[Bound]) -> Result<Form, BoundFault>
    ensures { IsFormed result (Greatest (terms_of parts.now)) }
{
    let mut operands = Vec::new(alloc);
    for part in parts {
        put_operands(alloc, form(alloc, part)?, &mut operands)?;
    }
    Ok(greatest_form(alloc, operands)?)
}

/// The bound's normal form. `Monomials` and `Coefficient` come where the form of the bound, or of a part of it beside which no
/// factor is 0, passes the limit.
pub fn normal(alloc: Global, bound: Bound) -> Result<Bound, BoundFault>
    ensures { IsNormalized result (term_of bound) }
{
    let form = form(alloc, &bound)?;
    Ok(bound_of(alloc, form)?)
}
