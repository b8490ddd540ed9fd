ghost use Rattle.std.specs.Prelude.{◌≡◌, ◌≤◌, ◌<◌, ◌&&◌, not, All, [], ◌∷◌, map, drop, length, IfOk};
ghost use Rattle.std.specs.List.{list_any};
ghost use Rattle.std.specs.declared.cmp.Ordering.TheVariants.{Less};
ghost use Rattle.bound_terms.specs.Terms.{Greatest, terms};
ghost use Rattle.bound_terms.specs.Bounds.{term_of};
ghost use Rattle.bound_forms.specs.Monomials.{atoms_order, form_term};
ghost use Rattle.bound_forms.specs.Monomials as monomials;
ghost use Rattle.bound_forms.specs.Maxima.{coefficient_in, covers, pruned, greatest_form};
ghost use Rattle.bound_forms.specs.Normal.{Rising};
ghost use Rattle.bound_forms.specs.Coded.{coded, coded_form};
ghost use Rattle.bound_forms.specs.Answered.{coded_forms};
ghost use Rattle.bound_forms.specs.inside.Pruning.{needless_of};

use crate::leaves::one_atom;
use crate::monomial::Monomial;
use crate::reading::{Form, bound_of};
use bound_terms::Bound;
use std::alloc::{AllocError, Global};
use std::cmp::Ordering;

/// From one place on, the first place whose monomial doesn't go before another monomial.
fn place_from(q: &[Monomial], j: usize, m: &Monomial) -> usize
    requires { j ≤ length q.now }
    ensures within { result ≤ length q.now }
    ensures covers { (ms : monomials.Form) → Rising (coded m.now ∷ ms) → covers (coded_form (drop result q.now)) (coded m.now ∷ ms) ≡ covers (coded_form (drop j q.now)) (coded m.now ∷ ms) }
    ensures place { (n : monomials.Monomial) (ns : monomials.Form) → coded_form (drop result q.now) ≡ n ∷ ns → ¬ (atoms_order n.atoms (coded m.now).atoms ≡ Less) }
{
    let mut place = j;
    while place < q.len() && q[place].order(m) == Ordering::Less {
        place += 1;
    }
    place
}

/// The coefficient at a monomial's atoms, of a form whose monomials before the place go before it.
fn coefficient_at(q: &[Monomial], j: usize, m: &Monomial) -> u128
    requires within { j ≤ length q.now }
    requires order { Rising (coded_form (drop j q.now)) }
    requires place { (n : monomials.Monomial) (ns : monomials.Form) → coded_form (drop j q.now) ≡ n ∷ ns → ¬ (atoms_order n.atoms (coded m.now).atoms ≡ Less) }
    ensures { result ≡ coefficient_in (coded_form (drop j q.now)) (coded m.now).atoms }
{
    if j < q.len() && q[j].order(m) == Ordering::Equal {
        q[j].coefficient()
    } else {
        0
    }
}

/// Whether a form has at least the coefficient of another on each monomial.
fn covers(q: &[Monomial], p: &[Monomial]) -> bool
    requires left { Rising (coded_form q.now) }
    requires right { Rising (coded_form p.now) }
    ensures { result ≡ covers (coded_form q.now) (coded_form p.now) }
{
    let mut j = 0;
    for m in p {
        j = place_from(q, j, m);
        if coefficient_at(q, j, m) < m.coefficient() {
            return false;
        }
    }
    true
}

/// Whether one of several forms covers a form.
fn is_covered(before: &[Form], p: &[Monomial]) -> bool
    requires operands { All Rising (coded_forms before.now) }
    requires form { Rising (coded_form p.now) }
    ensures { result ≡ list_any (λ q. covers q (coded_form p.now)) (coded_forms before.now) }
{
    for q in before {
        if covers(q.as_slice(), p) {
            return true;
        }
    }
    false
}

/// Whether one of several forms covers a form that doesn't cover it.
fn is_exceeded(behind: &[Form], p: &[Monomial]) -> bool
    requires operands { All Rising (coded_forms behind.now) }
    requires form { Rising (coded_form p.now) }
    ensures { result ≡ list_any (λ q. covers q (coded_form p.now) && not (covers (coded_form p.now) q)) (coded_forms behind.now) }
{
    for q in behind {
        if covers(q.as_slice(), p) && !covers(p, q.as_slice()) {
            return true;
        }
    }
    false
}

/// For each operand whether another one makes it needless. Of equal ones the first is kept.
fn needless(alloc: Global, operands: &[Form]) -> Result<Vec<bool>, AllocError>
    requires { All Rising (coded_forms operands.now) }
    ensures { IfOk result (λ flags. flags.items ≡ needless_of [] (coded_forms operands.now)) }
{
    let mut flags = Vec::new(alloc);
    for i in 0..operands.len() {
        let p = operands[i].as_slice();
        let is_needless = is_covered(&operands[..i], p) || is_exceeded(&operands[i + 1..], p);
        flags.push(is_needless)?;
    }
    Ok(flags)
}

/// The operands without needless ones.
fn pruned(alloc: Global, operands: Vec<Form>) -> Result<Vec<Form>, AllocError>
    requires { All Rising (coded_forms operands.items) }
    ensures { IfOk result (λ kept. coded_forms kept.items ≡ pruned [] (coded_forms operands.items)) }
{
    let flags = needless(alloc, operands.as_slice())?;
    let mut kept = Vec::new(alloc);
    let mut i = 0;
    for operand in operands {
        if !flags[i] {
            kept.push(operand)?;
        }
        i += 1;
    }
    Ok(kept)
}

/// The maximum of several forms as an atom.
fn maximum(alloc: Global, operands: Vec<Form>) -> Result<Bound, AllocError>
    ensures { IfOk result (λ b. term_of b ≡ Greatest (terms (map form_term (coded_forms operands.items)))) }
{
    let mut parts = Vec::new(alloc);
    for operand in operands {
        parts.push(bound_of(alloc, operand)?)?;
    }
    Ok(Bound::Max(parts))
}

/// The form of a maximum of forms.
pub(crate) fn greatest_form(alloc: Global, operands: Vec<Form>) -> Result<Form, AllocError>
    requires { All Rising (coded_forms operands.items) }
    ensures { IfOk result (λ f. coded_form f.items ≡ greatest_form (pruned [] (coded_forms operands.items))) }
{
    let mut kept = pruned(alloc, operands)?;
    if kept.len() > 1 {
        return one_atom(alloc, maximum(alloc, kept)?);
    }
    match kept.pop() {
        Some(form) => Ok(form),
        None => Ok(Vec::new(alloc)),
    }
}
