ghost use Rattle.std.specs.Prelude.{ℕ, ◌≡◌, ◌<◌, map, [], ◌∷◌, IfOk};
ghost use Rattle.std.specs.Global.{Vec};
ghost use Rattle.bound_terms.specs.Bounds.{term_of};
ghost use Rattle.bound_forms.specs.Monomials.{atom_key, atoms_order, put_atom, atoms_onto};
ghost use Rattle.bound_forms.specs.Coded.{coded};
ghost use Rattle.bound_forms.specs.Limits.{past_limit};
ghost use Rattle.bound_forms.specs.inside.Entries.{AreKeys, IsKeyed, entry_value};

use crate::copies::{copy, copy_all};
use crate::keys::{atom_key, key_place};
use bound_terms::Bound;
use std::alloc::{AllocError, Global};
use std::cmp::Ordering;
use std::marker::Model;

/// A coefficient within the limit and the atoms that it is times, each with its key.
#[derive(Drop)]
pub(crate) struct Monomial {
    coefficient: u128,
    keys: Vec<Vec<u8>>,
    atoms: Vec<Bound>,
}

impl Model for Monomial {
    ghost use Rattle.std.specs.Prelude.{ℕ, ◌<◌, List};
    ghost use Rattle.std.specs.Coded.{codes};
    ghost use Rattle.bound_terms.specs.declared.bound.Bound.{Bound};
    ghost use Rattle.bound_terms.specs.contracts.bound.Bound as bounds;
    ghost use Rattle.bound_forms.specs.Limits.{past_limit};
    ghost use Rattle.bound_forms.specs.inside.Entries.{AreKeys};

    ghost Value = { ℕ × List Bound };

    ghost coded = { Prim.hlevel (codes, bounds.the_row.coded) };

    ghost view = { λ m. (m.coefficient, m.atoms.items) };

    ghost invariant = { λ m. AreKeys m.keys.items m.atoms.items × (m.coefficient < past_limit) };
}

/// What monomials are ordered by: how many atoms they have, and then the keys of these.
pub(crate) type Key = (usize, Vec<Vec<u8>>);

fn copy_keys(alloc: Global, keys: &[Vec<u8>]) -> Result<Vec<Vec<u8>>, AllocError>
    ensures { IfOk result (λ copies. map (λ (k : Vec ℕ). k.items) copies.items ≡ map (λ (k : Vec ℕ). k.items) keys.now) }
{
    let mut copies = Vec::new(alloc);
    for key in keys {
        copies.push(Vec::from_slice(alloc, key.as_slice())?)?;
    }
    Ok(copies)
}

fn keys_of(alloc: Global, atoms: &[Bound]) -> Result<Vec<Vec<u8>>, AllocError>
    ensures { IfOk result (λ keys. AreKeys keys.items atoms.now) }
{
    let mut keys = Vec::new(alloc);
    for atom in atoms {
        keys.push(atom_key(alloc, atom)?)?;
    }
    Ok(keys)
}

impl Monomial {
    /// A number alone, below 2^127.
    pub(crate) fn number(alloc: Global, coefficient: u128) -> Monomial
        requires { coefficient < past_limit }
        ensures { result ≡ (coefficient, []) }
    {
        Monomial {
            coefficient,
            keys: Vec::new(alloc),
            atoms: Vec::new(alloc),
        }
    }

    /// An atom alone.
    pub(crate) fn of_atom(alloc: Global, atom: Bound) -> Result<Monomial, AllocError>
        ensures { IfOk result (λ m. coded m ≡ record { coefficient = 1; atoms = term_of atom ∷ [] }) }
    {
        let mut keys = Vec::new(alloc);
        keys.push(atom_key(alloc, &atom)?)?;
        let mut atoms = Vec::new(alloc);
        atoms.push(atom)?;
        Ok(Monomial {
            coefficient: 1,
            keys,
            atoms,
        })
    }

    /// A number, below 2^127, and atoms.
    pub(crate) fn new(
        alloc: Global,
        coefficient: u128,
        atoms: Vec<Bound>,
    ) -> Result<Monomial, AllocError>
        requires { coefficient < past_limit }
        ensures { IfOk result (λ m. m ≡ (coefficient, atoms.items)) }
    {
        let keys = keys_of(alloc, atoms.as_slice())?;
        Ok(Monomial {
            coefficient,
            keys,
            atoms,
        })
    }

    /// The atoms.
    pub(crate) fn atoms(&self) -> &[Bound]
        ensures { result.now ≡ self.now.1 }
    {
        self.atoms.as_slice()
    }

    /// Monomials go by how many atoms they have, and then by the keys of these.
    pub(crate) fn order(&self, other: &Monomial) -> Ordering
        ensures { result ≡ atoms_order (coded self.now).atoms (coded other.now).atoms }
    {
        let keys = self.keys.as_slice();
        let others = other.keys.as_slice();
        match keys.len().cmp(&others.len()) {
            Ordering::Equal => keys.cmp(others),
            unequal => unequal,
        }
    }

    /// The coefficient.
    pub(crate) fn coefficient(&self) -> u128
        ensures value { result ≡ self.now.0 }
        ensures small { result < past_limit }
    {
        self.coefficient
    }

    /// The same atoms, times another number.
    fn with_coefficient(&self, alloc: Global, coefficient: u128) -> Result<Monomial, AllocError>
        requires { coefficient < past_limit }
        ensures { IfOk result (λ m. coded m ≡ record { coefficient = coefficient; atoms = (coded self.now).atoms }) }
    {
        Ok(Monomial {
            coefficient,
            keys: copy_keys(alloc, self.keys.as_slice())?,
            atoms: copy_all(alloc, self.atoms.as_slice())?,
        })
    }

    /// The monomial with one atom more, in its place.
    fn with_atom(self, alloc: Global, key: &[u8], atom: &Bound) -> Result<Monomial, AllocError>
        requires { key.now ≡ atom_key (term_of atom.now) }
        ensures { IfOk result (λ m. coded m ≡ record { coefficient = self.0; atoms = put_atom (term_of atom.now) (coded self).atoms }) }
    {
        let Monomial {
            coefficient,
            mut keys,
            mut atoms,
        } = self;
        let i = key_place(key, keys.as_slice());
        keys.insert(i, Vec::from_slice(alloc, key)?)?;
        atoms.insert(i, copy(alloc, atom)?)?;
        Ok(Monomial {
            coefficient,
            keys,
            atoms,
        })
    }

    /// The product's coefficient, and the atoms of both in order.
    pub(crate) fn times(
        &self,
        alloc: Global,
        other: &Monomial,
        coefficient: u128,
    ) -> Result<Monomial, AllocError>
        requires { coefficient < past_limit }
        ensures { IfOk result (λ m. coded m ≡ record { coefficient = coefficient; atoms = atoms_onto (coded self.now).atoms (coded other.now).atoms }) }
    {
        let mut product = self.with_coefficient(alloc, coefficient)?;
        for i in 0..other.keys.len() {
            product = product.with_atom(alloc, other.keys[i].as_slice(), &other.atoms[i])?;
        }
        Ok(product)
    }

    /// The atoms alone.
    pub(crate) fn into_atoms(self) -> Vec<Bound>
        ensures { result.items ≡ self.1 }
    {
        self.atoms
    }

    /// The monomial as an entry of a map.
    pub(crate) fn into_entry(self) -> (Key, (u128, Vec<Bound>))
        ensures keyed { IsKeyed result }
        ensures value { entry_value result ≡ self }
    {
        let Monomial {
            coefficient,
            keys,
            atoms,
        } = self;
        ((keys.len(), keys), (coefficient, atoms))
    }

    pub(crate) fn from_entry(entry: (Key, (u128, Vec<Bound>))) -> Monomial
        requires { IsKeyed entry }
        ensures { result ≡ entry_value entry }
    {
        let (key, scaled) = entry;
        Monomial {
            coefficient: scaled.0,
            keys: key.1,
            atoms: scaled.1,
        }
    }
}
