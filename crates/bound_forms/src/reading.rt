ghost use Rattle.std.specs.Prelude.{◌≡◌, ◌++◌, true, All, map, IfOk, OnOk};
ghost use Rattle.bound_terms.specs.Bounds.{term_of, terms_of};
ghost use Rattle.bound_forms.specs.Monomials.{monomial_term, form_term};
ghost use Rattle.bound_forms.specs.Maxima.{monomial_by, monomial_of, form_of, operands_of};
ghost use Rattle.bound_forms.specs.Coded.{coded, coded_form};
ghost use Rattle.bound_forms.specs.Answered.{coded_forms};
ghost use Rattle.bound_forms.specs.inside.Pruning.{IsLow, parts_of, is_maximum, maximum_operands, is_alone};

use crate::monomial::Monomial;
use bound_terms::Bound;
use std::alloc::{AllocError, Global};

/// Monomials in order.
pub(crate) type Form = Vec<Monomial>;

/// The bound that a monomial is.
fn monomial_bound(alloc: Global, monomial: Monomial) -> Result<Bound, AllocError>
    ensures { IfOk result (λ b. term_of b ≡ monomial_term (coded monomial)) }
{
    let (_, (coefficient, mut parts)) = monomial.into_entry();
    parts.insert(0, Bound::Const(coefficient))?;
    Ok(Bound::Prod(parts))
}

/// The bound that a form is.
pub(crate) fn bound_of(alloc: Global, form: Form) -> Result<Bound, AllocError>
    ensures { IfOk result (λ b. term_of b ≡ form_term (coded_form form.items)) }
{
    let mut parts = Vec::new(alloc);
    for monomial in form {
        parts.push(monomial_bound(alloc, monomial)?)?;
    }
    Ok(Bound::Sum(parts))
}

/// The monomial that the parts of a product are, of which the first is a number.
fn monomial_of_parts(alloc: Global, parts: Vec<Bound>) -> Result<Monomial, AllocError>
    requires { IsLow (monomial_by (terms_of parts.items)) }
    ensures { IfOk result (λ m. coded m ≡ monomial_by (terms_of parts.items)) }
{
    let mut parts = parts;
    if parts.is_empty() {
        return Ok(Monomial::number(alloc, 0));
    }
    match parts.remove(0) {
        Bound::Const(n) => Monomial::new(alloc, n, parts),
        _ => Ok(Monomial::number(alloc, 0)),
    }
}

/// The monomial that a product in normal form is.
fn monomial_of(alloc: Global, part: Bound) -> Result<Monomial, AllocError>
    requires { IsLow (monomial_of (term_of part)) }
    ensures { IfOk result (λ m. coded m ≡ monomial_of (term_of part)) }
{
    match part {
        Bound::Prod(parts) => monomial_of_parts(alloc, parts),
        _ => Ok(Monomial::number(alloc, 0)),
    }
}

/// The form that the parts of a sum in normal form are.
fn form_of_parts(alloc: Global, parts: Vec<Bound>) -> Result<Form, AllocError>
    requires { All IsLow (map monomial_of (map term_of parts.items)) }
    ensures { IfOk result (λ f. coded_form f.items ≡ map monomial_of (map term_of parts.items)) }
{
    let mut form = Vec::new(alloc);
    for part in parts {
        form.push(monomial_of(alloc, part)?)?;
    }
    Ok(form)
}

/// The form that a bound in normal form is.
fn form_of(alloc: Global, bound: Bound) -> Result<Form, AllocError>
    requires { All IsLow (form_of (term_of bound)) }
    ensures { IfOk result (λ f. coded_form f.items ≡ form_of (term_of bound)) }
{
    match bound {
        Bound::Sum(parts) => form_of_parts(alloc, parts),
        _ => Ok(Vec::new(alloc)),
    }
}

/// Adds the forms of bounds in normal form to others.
fn put_forms(alloc: Global, parts: Vec<Bound>, operands: &mut Vec<Form>) -> Result<(), AllocError>
    requires { All (All IsLow) (map form_of (map term_of parts.items)) }
    ensures { OnOk result (coded_forms operands.new.items ≡ coded_forms operands.old.items ++ map form_of (map term_of parts.items)) }
{
    for part in parts {
        operands.push(form_of(alloc, part)?)?;
    }
    Ok(())
}

/// Adds the operands of an atom that is a maximum.
fn put_parts(alloc: Global, atom: Bound, operands: &mut Vec<Form>) -> Result<(), AllocError>
    requires { All (All IsLow) (parts_of (term_of atom)) }
    ensures { OnOk result (coded_forms operands.new.items ≡ coded_forms operands.old.items ++ parts_of (term_of atom)) }
{
    match atom {
        Bound::Max(parts) => put_forms(alloc, parts, operands),
        _ => Ok(()),
    }
}

/// Adds the operands of a maximum that is an only atom.
fn put_maximum(alloc: Global, atoms: Vec<Bound>, operands: &mut Vec<Form>) -> Result<(), AllocError>
    requires alone { is_maximum (map term_of atoms.items) ≡ true }
    requires low { All (All IsLow) (maximum_operands (map term_of atoms.items)) }
    ensures { OnOk result (coded_forms operands.new.items ≡ coded_forms operands.old.items ++ maximum_operands (map term_of atoms.items)) }
{
    let mut atoms = atoms;
    match atoms.pop() {
        Some(atom) => put_parts(alloc, atom, operands),
        None => Ok(()),
    }
}

/// Whether a list of atoms is a maximum.
fn is_maximum(atoms: &[Bound]) -> bool
    ensures { result ≡ is_maximum (map term_of atoms.now) }
{
    atoms.len() == 1 && matches!(&atoms[0], Bound::Max(_))
}

/// Whether a form is a maximum alone.
fn is_alone(form: &[Monomial]) -> bool
    ensures { result ≡ is_alone (coded_form form.now) }
{
    form.len() == 1 && form[0].coefficient() == 1 && is_maximum(form[0].atoms())
}

/// Adds a form to the operands of a maximum, or its operands where it is a maximum alone.
pub(crate) fn put_operands(
    alloc: Global,
    form: Form,
    operands: &mut Vec<Form>,
) -> Result<(), AllocError>
    requires { All (All IsLow) (operands_of (coded_form form.items)) }
    ensures { OnOk result (coded_forms operands.new.items ≡ coded_forms operands.old.items ++ operands_of (coded_form form.items)) }
{
    if !is_alone(form.as_slice()) {
        operands.push(form)?;
        return Ok(());
    }
    let mut form = form;
    match form.pop() {
        Some(monomial) => put_maximum(alloc, monomial.into_atoms(), operands),
        None => Ok(()),
    }
}
