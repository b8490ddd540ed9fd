//! The order of caps, by keys of their coefficients.

ghost use Rattle.std.specs.Prelude.{◌≡◌, ◌⊎◌, ◌↔◌, ◌<ℤ◌, ℕ, ℤ, map, IsTrue, IfOk, OnOk, ◌++◌, ◌∷◌, []};
ghost use Rattle.small_cert.specs.Order.{terms_from, terms_of, rank_of, key_of, Precedes};

use lin_rows::Lin;
use std::alloc::{AllocError, Global};
use std::cmp::Ordering;

/// Adds a coefficient that isn't 0.
fn push_term(terms: &mut Vec<(u32, i128)>, v: u32, c: i128) -> Result<(), AllocError>
    ensures { OnOk result (terms.new.items ≡ terms.old.items ++ terms_from v (c ∷ [])) }
{
    if c != 0 {
        terms.push((v, c))?;
    }
    Ok(())
}

/// The coefficients that aren't 0, with their variables.
fn terms_of(alloc: Global, l: &Lin) -> Result<Vec<(u32, i128)>, AllocError>
    ensures { IfOk result (λ terms. terms.items ≡ terms_of l.now) }
{
    let mut terms = Vec::new(alloc);
    for v in 0..l.len() {
        push_term(&mut terms, v, l.get(v))?;
    }
    Ok(terms)
}

/// The rank of a coefficient among 1, -1, 2, -2 and so on.
fn rank_of(c: i128) -> u128
    ensures { result ≡ rank_of c }
{
    if c > 0 {
        2 * (c as u128 - 1)
    } else if c < 0 {
        2 * !c as u128 + 1
    } else {
        0
    }
}

/// The key of an expression by its coefficients: how many aren't 0, their variables, and their ranks.
pub fn key_of(alloc: Global, l: &Lin) -> Result<Vec<u128>, AllocError>
    ensures { IfOk result (λ key. key.items ≡ key_of l.now) }
{
    let terms = terms_of(alloc, l)?;
    let mut key = Vec::new(alloc);
    key.push(terms.len() as u128)?;
    push_variables(&mut key, &terms)?;
    push_ranks(&mut key, &terms)?;
    Ok(key)
}

fn push_variables(key: &mut Vec<u128>, terms: &[(u32, i128)]) -> Result<(), AllocError>
    ensures { OnOk result (key.new.items ≡ key.old.items ++ map (λ (t : ℕ × ℤ). t.0) terms.now) }
{
    for term in terms {
        key.push(term.0 as u128)?;
    }
    Ok(())
}

fn push_ranks(key: &mut Vec<u128>, terms: &[(u32, i128)]) -> Result<(), AllocError>
    ensures { OnOk result (key.new.items ≡ key.old.items ++ map (λ (t : ℕ × ℤ). rank_of t.1) terms.now) }
{
    for term in terms {
        key.push(rank_of(term.1))?;
    }
    Ok(())
}

fn is_less(a: i128, b: i128) -> bool
    ensures { IsTrue result ↔ (a <ℤ b) }
{
    a < b
}

/// Whether the first key and constant come before the second.
pub fn precedes(key: &[u128], constant: i128, other: &[u128], other_constant: i128) -> bool
    ensures { IsTrue result ↔ (Precedes key.now other.now ⊎ ((key.now ≡ other.now) × (constant <ℤ other_constant))) }
{
    match key.cmp(other) {
        Ordering::Less => true,
        Ordering::Equal => is_less(constant, other_constant),
        Ordering::Greater => false,
    }
}
