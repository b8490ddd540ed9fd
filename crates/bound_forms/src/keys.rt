ghost use Rattle.std.specs.Prelude.{ℕ, ◌≡◌, ◌≤◌, map, length, IfOk};
ghost use Rattle.std.specs.Global.{Vec};
ghost use Rattle.bound_terms.specs.Bounds.{term_of};
ghost use Rattle.bound_forms.specs.Monomials.{kind_of, atom_key};
ghost use Rattle.bound_forms.specs.inside.Places.{key_place};

use bound_terms::{Bound, put_text};
use std::alloc::{AllocError, Global};
use std::cmp::Ordering;

/// The place of an atom's kind among the kinds.
fn kind_of(atom: &Bound) -> u8
    ensures { result ≡ kind_of (term_of atom.now) }
{
    match atom {
        Bound::Nat(_) => 0,
        Bound::Max(_) => 1,
        Bound::Geo(_, _) => 2,
        Bound::Pow(_, _) => 3,
        _ => 4,
    }
}

/// What atoms are ordered by: the kind, and then the text.
pub(crate) fn atom_key(alloc: Global, atom: &Bound) -> Result<Vec<u8>, AllocError>
    ensures { IfOk result (λ key. key.items ≡ atom_key (term_of atom.now)) }
{
    let mut key = Vec::new(alloc);
    key.push(kind_of(atom))?;
    put_text(&mut key, atom)?;
    Ok(key)
}

/// How many keys go before one.
pub(crate) fn key_place(key: &[u8], keys: &[Vec<u8>]) -> usize
    ensures place { result ≡ key_place key.now (map (λ (k : Vec ℕ). k.items) keys.now) }
    ensures within { result ≤ length keys.now }
{
    for i in 0..keys.len() {
        match key.cmp(keys[i].as_slice()) {
            Ordering::Less | Ordering::Equal => return i,
            Ordering::Greater => {}
        }
    }
    keys.len()
}
