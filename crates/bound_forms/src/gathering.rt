ghost use Rattle.std.specs.Prelude.{◌≡◌, ◌≤◌, ◌<◌, All, [], length};
ghost use Rattle.std.specs.BTreeMap.{IsOrdered, get_by};
ghost use Rattle.bound_forms.specs.Monomials.{put};
ghost use Rattle.bound_forms.specs.Coded.{coded, coded_form};
ghost use Rattle.bound_forms.specs.Limits.{most_monomials, past_limit};
ghost use Rattle.bound_forms.specs.inside.Entries.{key_order, with_old, IsKeyed, entry_monomial, entries_values, entries_form};
ghost use Rattle.bound_forms.specs.Answered.{Makes};
ghost use Rattle.bound_forms.specs.inside.Passing.{HasRoom, Limited, Puts};

use crate::fault::BoundFault;
use crate::limits::{MOST, limited_sum};
use crate::monomial::{Key, Monomial};
use bound_terms::Bound;
use std::alloc::Global;
use std::collections::BTreeMap;
use std::marker::Model;

/// Monomials by their atoms, at most 65,536.
#[derive(Drop)]
pub(crate) struct Gathering {
    table: BTreeMap<Key, (u128, Vec<Bound>)>,
}

impl Model for Gathering {
    ghost use Rattle.std.specs.Prelude.{ℕ, ◌≤◌, All, List, length};
    ghost use Rattle.std.specs.Coded.{codes};
    ghost use Rattle.bound_terms.specs.declared.bound.Bound.{Bound};
    ghost use Rattle.bound_terms.specs.contracts.bound.Bound as bounds;
    ghost use Rattle.bound_forms.specs.Limits.{most_monomials};
    ghost use Rattle.bound_forms.specs.inside.Entries.{IsKeyed, entries_values};

    ghost Value = { List (ℕ × List Bound) };

    ghost coded = { Prim.hlevel (codes, bounds.the_row.coded) };

    ghost view = { λ g. entries_values g.table.entries };

    ghost invariant = { λ g. All IsKeyed g.table.entries × (length g.table.entries ≤ most_monomials) };
}

/// Whether a key has a place in a table: it stands there, or another one may stand there.
fn room_at(table: &BTreeMap<Key, (u128, Vec<Bound>)>, key: &Key) -> Result<(), BoundFault>
    ensures ordered { IsOrdered key_order table.now }
    ensures room { HasRoom result (length table.now.entries) (get_by (key_order key.now) table.now) }
{
    let is_full = table.len() >= MOST;
    if !is_full || table.contains_key(key) {
        Ok(())
    } else {
        Err(BoundFault::Monomials)
    }
}

/// The sum of a coefficient and the one that stands at a key.
fn sum_at(
    table: &BTreeMap<Key, (u128, Vec<Bound>)>,
    key: &Key,
    coefficient: u128,
) -> Result<u128, BoundFault>
    requires { coefficient < past_limit }
    ensures { Limited result (with_old coefficient (get_by (key_order key.now) table.now)) }
{
    match table.get(key) {
        Some(old) => limited_sum(coefficient, old.0),
        None => Ok(coefficient),
    }
}

/// Puts an entry into a table; the coefficients at equal keys are added.
fn put_entry(
    table: &mut BTreeMap<Key, (u128, Vec<Bound>)>,
    entry: (Key, (u128, Vec<Bound>)),
) -> Result<(), BoundFault>
    requires entry_keyed { IsKeyed entry }
    requires keyed { All IsKeyed table.old.entries }
    requires few { length table.old.entries ≤ most_monomials }
    ensures keyed { All IsKeyed table.new.entries }
    ensures few { length table.new.entries ≤ most_monomials }
    ensures value { Puts result (entries_values table.new.entries) (put (entry_monomial entry) (entries_form table.old.entries)) }
{
    let (key, scaled) = entry;
    room_at(table, &key)?;
    let sum = sum_at(table, &key, scaled.0)?;
    table.insert(key, (sum, scaled.1))?;
    Ok(())
}

impl Gathering {
    /// No monomial.
    pub(crate) fn new(alloc: Global) -> Gathering
        ensures { result ≡ [] }
    {
        Gathering {
            table: BTreeMap::new(alloc),
        }
    }

    /// Puts a monomial into its place; the coefficients of equal ones are added.
    pub(crate) fn put(&mut self, monomial: Monomial) -> Result<(), BoundFault>
        ensures { Puts result self.new (put (coded monomial) (coded_form self.old)) }
    {
        put_entry(&mut self.table, monomial.into_entry())
    }

    /// The monomials in order.
    pub(crate) fn finish(self, alloc: Global) -> Result<Vec<Monomial>, BoundFault>
        ensures { Makes result (coded_form self) }
    {
        let mut form = Vec::new(alloc);
        for entry in self.table {
            form.push(Monomial::from_entry(entry))?;
        }
        Ok(form)
    }
}
