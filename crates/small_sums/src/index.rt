//! The search for a sum of rows with given coefficients. Each row has two places, once and twice, and the place of the last
//! row of a sum is looked up by its key: of r rows with n coefficients an index is made in time r * n, and a search takes
//! 2 * r look-ups, and time n for each sum whose key fits and
//! whose constant is less than the best so far.

ghost use Rattle.std.specs.Prelude.{◌≡◌, ◌⊎◌, ◌↔◌, ◌+◌, ◌*◌, ◌<◌, ◌≤◌, ◌^◌, ◌/◌, ℕ, Some, None, length, slice_index, IsTrue, IfOk, IfSome, MatchOption};
ghost use Rattle.std.specs.Option.{ForSome};
ghost use Rattle.q128.specs.Fraction.{whole, IsSame};
ghost use Rattle.lin_rows.specs.Combining.{Combination, HasCoefficients};
ghost use Rattle.lin_rows.specs.Linear.{Linear};
ghost use Rattle.lin_rows.specs.Proving.{AreRowNumbers};
ghost use Rattle.lin_rows.specs.Rows.{lins, longest_of};
ghost use Rattle.small_sums.specs.Sums.{IsMatch, IsLeastMatch, HasNoMatch};
ghost use Rattle.small_sums.specs.Terms.{multipliers_of};
ghost use Rattle.small_sums.specs.Keys.{IsResidue};
ghost use Rattle.small_sums.specs.Places.{term_at, digits_at, IsLastWith, HasNoneWith};
ghost use Rattle.small_sums.specs.inside.Search.{AreKeys, AreTerms, Follow, IsSumOf, IsFound, Covers, CoversTerms, CoversKey, Keeps, constant_in, constant_sum};

use crate::key::{doubled, key_of, rest_of};
use crate::places::Places;
use crate::term::{Sum, Term, Terms};
use lin_rows::{Comb, Lin, Row, longest};
use q128::Q;
use std::alloc::{AllocError, Global};
use std::cmp::Ordering;
use std::marker::Model;

/// Rows with the places of their keys.
#[derive(Drop)]
pub struct RowIndex<'a> {
    rows: &'a [Row],
    places: Places,
}

impl<'a> Model for RowIndex<'a> {
    ghost use Rattle.std.specs.Prelude.{List, length, ◌<◌, ◌^◌};
    ghost use Rattle.lin_rows.specs.declared.row.Row.{Row};
    ghost use Rattle.lin_rows.specs.Rows.{lins};
    ghost use Rattle.small_sums.specs.inside.Search.{AreKeys};

    ghost Value = { List Row };

    ghost view = { λ x. x.rows.now };

    ghost invariant = { λ x. AreKeys (lins x.rows.now) x.places × (length x.rows.now < 2 ^ 32) };
}

/// The keys of all places.
fn keys_of(alloc: Global, rows: &[Row]) -> Result<Vec<u64>, AllocError>
    ensures { IfOk result (λ keys. AreKeys (lins rows.now) keys.items) }
{
    let mut keys = Vec::new(alloc);
    for row in rows {
        let key = key_of(row.lin.coefficients());
        keys.push(key)?;
        keys.push(doubled(key))?;
    }
    Ok(keys)
}

/// The row of a place, once or twice.
pub fn term_of(place: usize) -> Term
    requires { place + 2 < 2 ^ 33 }
    ensures { result ≡ term_at place }
{
    Term {
        number: (place / 2) as u32 + 1,
        twice: place % 2 == 1,
    }
}

/// The rows of a place behind those of another place, or of none.
fn rows_of(front: Option<usize>, place: usize) -> Option<Terms>
    requires place { place + 2 < 2 ^ 33 }
    requires front { ForSome front (λ p. p + 2 < 2 ^ 33) }
    ensures { MatchOption result ((t : Terms) → Follow front place t → ⊥) (Follow front place) }
{
    match front {
        None => Some(Terms::One(term_of(place))),
        Some(first) if first / 2 < place / 2 => Some(Terms::Two(term_of(first), term_of(place))),
        Some(_) => None,
    }
}

/// The constant of the row, once or twice, where it fits.
fn constant_at(rows: &[Row], term: Term) -> Option<i128>
    requires low { 0 < term.number }
    requires high { term.number ≤ length rows.now }
    ensures { IfSome result (λ z. z ≡ constant_in (lins rows.now) term) }
{
    let constant = rows[term.number as usize - 1].lin.constant();
    let factor: i128 = if term.twice { 2 } else { 1 };
    factor.checked_mul(constant)
}

/// The constant of the sum of the rows, where each number on the way fits.
fn constant_of(rows: &[Row], terms: Terms) -> Option<i128>
    requires { AreRowNumbers (length rows.now) (multipliers_of terms) }
    ensures { IfSome result (λ z. z ≡ constant_sum (lins rows.now) terms) }
{
    match terms {
        Terms::Zero => Some(0),
        Terms::One(last) => constant_at(rows, last),
        Terms::Two(first, last) => {
            let constant = constant_at(rows, first)?;
            constant.checked_add(constant_at(rows, last)?)
        }
    }
}

/// Whether both are one rational.
fn is_same(a: Q, b: Q) -> bool
    ensures { IsTrue result ↔ IsSame a b }
{
    matches!(a.cmp(&b), Ordering::Equal)
}

/// Whether the coefficients are those of the expression.
fn has_coefficients(sum: &Comb, goal: &Lin) -> bool
    ensures { IsTrue result ↔ HasCoefficients sum.now goal.now }
{
    let places = sum.len().max(goal.len());
    for v in 0..places {
        if !is_same(sum.get(v), Q::whole(goal.get(v))) {
            return false;
        }
    }
    true
}

/// The one with the lesser constant.
fn lesser(best: Option<Sum>, sum: Sum) -> Option<Sum>
    ensures kept { Keeps best result }
    ensures covers { Covers result (whole sum.constant) }
    ensures one { (result ≡ best) ⊎ (result ≡ Some sum) }
{
    match best {
        Some(other) => {
            if other.constant <= sum.constant {
                Some(other)
            } else {
                Some(sum)
            }
        }
        None => Some(sum),
    }
}

impl<'a> RowIndex<'a> {
    /// The index of the rows.
    pub fn build(alloc: Global, rows: &'a [Row]) -> Result<RowIndex<'a>, AllocError>
        requires { length rows.now < 2 ^ 32 }
        ensures { IfOk result (λ index. index ≡ rows.entry.now) }
    {
        let keys = keys_of(alloc, rows)?;
        let places = Places::of(alloc, keys)?;
        Ok(RowIndex { rows, places })
    }

    /// The sum of the rows, where it has the coefficients of the goal.
    fn sum(&self, goal: &Lin, scratch: &mut Comb, terms: Terms) -> Option<Sum>
        requires room { length scratch.old.coefficients ≡ longest_of (lins self.now) }
        requires terms { AreTerms (length self.now) terms }
        ensures room { length scratch.new.coefficients ≡ length scratch.old.coefficients }
        ensures sum { MatchOption result ((s : Combination) → IsMatch (lins self.now) goal.now (multipliers_of terms) s → ⊥) (IsSumOf (lins self.now) goal.now terms) }
    {
        scratch.clear();
        match terms.add_to(scratch, self.rows) {
            Ok(()) if has_coefficients(scratch, goal) => Some(Sum {
                terms,
                constant: scratch.constant().numerator(),
            }),
            _ => None,
        }
    }

    /// Whether the sum of the rows, if there is one, is known to have no lesser constant than the best.
    fn is_no_better(&self, terms: Terms, best: Option<Sum>) -> bool
        requires { AreTerms (length self.now) terms }
        ensures { IsTrue result → (goal : Linear) → CoversTerms (lins self.now) goal best terms }
    {
        match (best, constant_of(self.rows, terms)) {
            (Some(sum), Some(constant)) => sum.constant <= constant,
            _ => false,
        }
    }

    /// The best of the sums so far and of the sum of the rows.
    fn better(&self, goal: &Lin, scratch: &mut Comb, terms: Terms, best: Option<Sum>) -> Option<Sum>
        requires room { length scratch.old.coefficients ≡ longest_of (lins self.now) }
        requires terms { AreTerms (length self.now) terms }
        ensures room { length scratch.new.coefficients ≡ length scratch.old.coefficients }
        ensures found { IsFound (lins self.now) goal.now best → IsFound (lins self.now) goal.now result }
        ensures keeps { Keeps best result }
        ensures covers { CoversTerms (lins self.now) goal.now result terms }
    {
        if self.is_no_better(terms, best) {
            return best;
        }
        match self.sum(goal, scratch, terms) {
            Some(sum) => lesser(best, sum),
            None => best,
        }
    }

    /// The same for the rows of a place behind those of another place, or of none.
    fn better_at(
        &self,
        goal: &Lin,
        scratch: &mut Comb,
        front: Option<usize>,
        place: usize,
        best: Option<Sum>,
    ) -> Option<Sum>
        requires room { length scratch.old.coefficients ≡ longest_of (lins self.now) }
        requires size { length self.now < 2 ^ 32 }
        requires place { place < 2 * length self.now }
        requires front { ForSome front (λ p. p < 2 * length self.now) }
        ensures room { length scratch.new.coefficients ≡ length scratch.old.coefficients }
        ensures found { IsFound (lins self.now) goal.now best → IsFound (lins self.now) goal.now result }
        ensures keeps { Keeps best result }
        ensures covers { (t : Terms) → Follow front place t → CoversTerms (lins self.now) goal.now result t }
    {
        match rows_of(front, place) {
            Some(terms) => self.better(goal, scratch, terms, best),
            None => best,
        }
    }

    /// The same for all places with the key.
    fn better_behind(
        &self,
        goal: &Lin,
        scratch: &mut Comb,
        front: Option<usize>,
        key: u64,
        best: Option<Sum>,
    ) -> Option<Sum>
        requires room { length scratch.old.coefficients ≡ longest_of (lins self.now) }
        requires front { ForSome front (λ p. p < 2 * length self.now) }
        ensures room { length scratch.new.coefficients ≡ length scratch.old.coefficients }
        ensures found { IsFound (lins self.now) goal.now best → IsFound (lins self.now) goal.now result }
        ensures keeps { Keeps best result }
        ensures covers { CoversKey (lins self.now) goal.now result front key }
    {
        let mut best = best;
        let mut at = self.places.last(key);
        while let Some(place) = at {
            best = self.better_at(goal, scratch, front, place, best);
            at = self.places.previous(place);
        }
        best
    }

    /// The sum of at most two rows that has the coefficients of the goal and the least constant.
    pub fn least(&self, alloc: Global, goal: &Lin) -> Result<Option<Sum>, AllocError>
        ensures { IfOk result (λ least. MatchOption least (HasNoMatch (lins self.now) goal.now)
            (λ f. (s : Combination) × IsLeastMatch (lins self.now) goal.now (multipliers_of f.terms) s × (whole f.constant ≡ s.constant))) }
    {
        let mut scratch = Comb::room(alloc, longest(self.rows))?;
        let total = key_of(goal.coefficients());
        let mut best = self.better(goal, &mut scratch, Terms::Zero, None);
        best = self.better_behind(goal, &mut scratch, None, total, best);
        for front in 0..self.places.len() {
            let key = rest_of(total, self.places.key(front));
            best = self.better_behind(goal, &mut scratch, Some(front), key, best);
        }
        Ok(best)
    }
}

/// The places of the rows by their keys, for sums of more rows.
impl<'a> RowIndex<'a> {
    /// How many places there are.
    pub fn places(&self) -> usize
        ensures value { result ≡ 2 * length self.now }
        ensures within { length self.now < 2 ^ 32 }
    {
        self.places.len()
    }

    /// The key of the row of a place.
    pub fn key(&self, place: usize) -> u64
        requires { place < 2 * length self.now }
        ensures { IsResidue (digits_at (lins self.now) place) result }
    {
        self.places.key(place)
    }

    /// The last place of a key.
    pub fn last(&self, key: u64) -> Option<usize>
        ensures { MatchOption result (HasNoneWith (lins self.now) key (2 * length self.now)) (IsLastWith (lins self.now) key (2 * length self.now)) }
    {
        self.places.last(key)
    }

    /// The place before this one that has the same key.
    pub fn before(&self, place: usize) -> Option<usize>
        requires { place < 2 * length self.now }
        ensures { (key : ℕ) → IsResidue (digits_at (lins self.now) place) key → MatchOption result (HasNoneWith (lins self.now) key place) (IsLastWith (lins self.now) key place) }
    {
        self.places.previous(place)
    }
}
