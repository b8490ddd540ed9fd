ghost use Rattle.std.specs.Prelude.{ℕ, ◌≡◌, List, map};
ghost use Rattle.std.specs.Global.{Vec};
ghost use Rattle.bound_terms.specs.declared.bound.Bound.{Bound};
ghost use Rattle.bound_forms.specs.Monomials.{gathered, total_form};
ghost use Rattle.bound_forms.specs.Coded.{coded_form};
ghost use Rattle.bound_forms.specs.Answered.{Makes, coded_forms};
ghost use Rattle.bound_forms.specs.inside.Passing.{Puts};

use crate::fault::BoundFault;
use crate::gathering::Gathering;
use crate::monomial::Monomial;
use std::alloc::Global;

/// Gathers the monomials of a form.
pub(crate) fn put_all(form: Vec<Monomial>, gathering: &mut Gathering) -> Result<(), BoundFault>
    ensures { Puts result gathering.new (gathered (coded_form gathering.old) (coded_form form.items)) }
{
    for monomial in form {
        gathering.put(monomial)?;
    }
    Ok(())
}

/// The sum of forms: the monomials of all of them, equal ones added. `Monomials` and `Coefficient` come only where it passes
/// the limit.
pub(crate) fn form_total(
    alloc: Global,
    forms: Vec<Vec<Monomial>>,
) -> Result<Vec<Monomial>, BoundFault>
    ensures { Makes result (total_form (coded_forms forms.items)) }
{
    let mut gathering = Gathering::new(alloc);
    for form in forms {
        put_all(form, &mut gathering)?;
    }
    gathering.finish(alloc)
}
