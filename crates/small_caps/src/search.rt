//! The search for the first cap. Each row has two places, once and twice, and the last row of a sum is looked up by its key
//! without entry sizes: of r rows with n coefficients a search takes some 2 * r * r look-ups for each of two multiples, and
//! time n for each sum whose key fits.

ghost use Rattle.std.specs.Prelude.{◌≡◌, ◌⊎◌, ◌*◌, ◌/◌, ◌<◌, ◌↔◌, Some, true, false, [], ◌∷◌, length, IsTrue, IfOk, IfSome, MatchOption};
ghost use Rattle.lin_rows.specs.Combining.{Combination};
ghost use Rattle.lin_rows.specs.Rows.{lins, longest_of};
ghost use Rattle.small_sums.specs.Sums.{IsSmallSum};
ghost use Rattle.small_cert.specs.Order.{key_of};
ghost use Rattle.small_caps.specs.inside.Entries.{IsMasked};
ghost use Rattle.small_caps.specs.inside.Numbers.{IsWholeSum};
ghost use Rattle.small_caps.specs.inside.Picks.{multipliers_in, IsFront, IsBehind};
ghost use Rattle.small_caps.specs.declared.pick.Front.TheVariants as fronts;
ghost use Rattle.small_caps.specs.inside.Search.{IsReady, question_of, IsFoundBy, IsFound, IsBetter, IsLeft, IsEarlier, Covers, Keeps, HasNoneAt, IsMadeAt, CoversPick, CoversFront, CoversKey, CoversFirst, CoversAll};

use crate::candidate::cap_of;
use crate::entries::masked;
use crate::order::{key_of, precedes};
use crate::pick::{Front, Pick};
use lin_rows::{Comb, Lin, Row, longest};
use small_cert::Multiple;
use small_sums::{RowIndex, rest_of};
use std::alloc::{AllocError, Global};

/// A cap with its key, and the rows of the sum that makes it for a multiple.
#[derive(Drop)]
pub struct Found {
    pub cap: Lin,
    pub key: Vec<u128>,
    pub pick: Pick,
    pub multiple: Multiple,
}

/// What caps are looked for in. The index is of the rows without their coefficients of entry sizes.
#[derive(Clone, Copy)]
pub struct Search<'a> {
    pub rows: &'a [Row],
    pub l: &'a Lin,
    pub entry: &'a [u32],
    pub index: &'a RowIndex<'a>,
    pub multiple: Multiple,
}

/// Whether the first cap comes before the second.
fn is_before(a: &Found, b: &Found) -> bool
    requires first { a.now.key.items ≡ key_of a.now.cap }
    requires second { b.now.key.items ≡ key_of b.now.cap }
    ensures { IsTrue result ↔ IsEarlier a.now.cap b.now.cap }
{
    precedes(&a.key, a.cap.constant(), &b.key, b.cap.constant())
}

/// The first one of both.
fn first_of(best: Option<Found>, more: Found) -> Option<Found>
    requires best { IfSome best (λ f. f.key.items ≡ key_of f.cap) }
    requires more { more.key.items ≡ key_of more.cap }
    ensures keeps { Keeps best result }
    ensures covers { Covers result more.cap }
    ensures one { (result ≡ best) ⊎ (result ≡ Some more) }
{
    match best {
        Some(found) => {
            if is_before(&more, &found) {
                Some(more)
            } else {
                Some(found)
            }
        }
        None => Some(more),
    }
}

impl<'a> Search<'a> {
    /// Whether the rows have a sum, which then stands in the scratch.
    fn sum(&self, scratch: &mut Comb, pick: Pick) -> bool
        requires ready { IsReady (question_of self.now) }
        requires room { length scratch.old.coefficients ≡ longest_of (lins self.now.rows.now) }
        requires front { IsFront (2 * length self.now.rows.now) pick.front }
        requires last { pick.last < 2 * length self.now.rows.now }
        requires behind { IsBehind pick.front pick.last }
        ensures room { length scratch.new.coefficients ≡ length scratch.old.coefficients }
        ensures yes { result ≡ true → IsSmallSum (lins self.now.rows.now) 3 (multipliers_in pick.front pick.last) scratch.new × IsWholeSum scratch.new }
        ensures no { result ≡ false → (s : Combination) → IsSmallSum (lins self.now.rows.now) 3 (multipliers_in pick.front pick.last) s → ⊥ }
    {
        scratch.clear();
        pick.add_to(scratch, self.rows).is_ok()
    }

    /// The cap that the rows make.
    fn made(
        &self,
        alloc: Global,
        scratch: &mut Comb,
        pick: Pick,
    ) -> Result<Option<Found>, AllocError>
        requires ready { IsReady (question_of self.now) }
        requires room { length scratch.old.coefficients ≡ longest_of (lins self.now.rows.now) }
        requires front { IsFront (2 * length self.now.rows.now) pick.front }
        requires last { pick.last < 2 * length self.now.rows.now }
        requires behind { IsBehind pick.front pick.last }
        ensures room { length scratch.new.coefficients ≡ length scratch.old.coefficients }
        ensures made { IfOk result (λ answer. MatchOption answer (HasNoneAt (question_of self.now) pick.front pick.last) (IsMadeAt (question_of self.now) pick.front pick.last)) }
    {
        if !self.sum(scratch, pick) {
            return Ok(None);
        }
        let cap = match cap_of(alloc, scratch, self.l, self.entry, self.multiple)? {
            Some(cap) => cap,
            None => return Ok(None),
        };
        let key = key_of(alloc, &cap)?;
        Ok(Some(Found {
            cap,
            key,
            pick,
            multiple: self.multiple,
        }))
    }

    /// The first one of the best cap so far and of the one that the rows make.
    fn better(
        &self,
        alloc: Global,
        scratch: &mut Comb,
        pick: Pick,
        best: Option<Found>,
    ) -> Result<Option<Found>, AllocError>
        requires ready { IsReady (question_of self.now) }
        requires room { length scratch.old.coefficients ≡ longest_of (lins self.now.rows.now) }
        requires front { IsFront (2 * length self.now.rows.now) pick.front }
        requires last { pick.last < 2 * length self.now.rows.now }
        requires behind { IsBehind pick.front pick.last }
        requires found { IsFound (lins self.now.rows.now) self.now.l.now self.now.entry.now best }
        ensures room { length scratch.new.coefficients ≡ length scratch.old.coefficients }
        ensures better { IfOk result (λ now. IsBetter (lins self.now.rows.now) self.now.l.now self.now.entry.now best now × CoversPick (question_of self.now) now pick.front pick.last) }
    {
        match self.made(alloc, scratch, pick)? {
            Some(found) => Ok(first_of(best, found)),
            None => Ok(best),
        }
    }

    /// The same for the row of a place behind the front ones, if it is there.
    fn better_at(
        &self,
        alloc: Global,
        scratch: &mut Comb,
        front: Front,
        last: usize,
        best: Option<Found>,
    ) -> Result<Option<Found>, AllocError>
        requires ready { IsReady (question_of self.now) }
        requires room { length scratch.old.coefficients ≡ longest_of (lins self.now.rows.now) }
        requires front { IsFront (2 * length self.now.rows.now) front }
        requires last { last < 2 * length self.now.rows.now }
        requires found { IsFound (lins self.now.rows.now) self.now.l.now self.now.entry.now best }
        ensures room { length scratch.new.coefficients ≡ length scratch.old.coefficients }
        ensures better { IfOk result (λ now. IsBetter (lins self.now.rows.now) self.now.l.now self.now.entry.now best now × (IsBehind front last → CoversPick (question_of self.now) now front last)) }
    {
        if front.is_before(last) {
            self.better(alloc, scratch, Pick { front, last }, best)
        } else {
            Ok(best)
        }
    }

    /// The same for all places with the key.
    fn better_behind(
        &self,
        alloc: Global,
        scratch: &mut Comb,
        front: Front,
        key: u64,
        best: Option<Found>,
    ) -> Result<Option<Found>, AllocError>
        requires ready { IsReady (question_of self.now) }
        requires room { length scratch.old.coefficients ≡ longest_of (lins self.now.rows.now) }
        requires front { IsFront (2 * length self.now.rows.now) front }
        requires found { IsFound (lins self.now.rows.now) self.now.l.now self.now.entry.now best }
        ensures room { length scratch.new.coefficients ≡ length scratch.old.coefficients }
        ensures better { IfOk result (λ now. IsBetter (lins self.now.rows.now) self.now.l.now self.now.entry.now best now × CoversKey (question_of self.now) now front key) }
    {
        let mut best = best;
        let mut at = self.index.last(key);
        while let Some(place) = at {
            best = self.better_at(alloc, scratch, front, place, best)?;
            at = self.index.before(place);
        }
        Ok(best)
    }

    /// The same for two front rows, if the second is behind the first. The key is what is left of the sum's behind the first.
    fn better_second(
        &self,
        alloc: Global,
        scratch: &mut Comb,
        first: usize,
        second: usize,
        left: u64,
        best: Option<Found>,
    ) -> Result<Option<Found>, AllocError>
        requires ready { IsReady (question_of self.now) }
        requires room { length scratch.old.coefficients ≡ longest_of (lins self.now.rows.now) }
        requires first { first < 2 * length self.now.rows.now }
        requires second { second < 2 * length self.now.rows.now }
        requires left { IsLeft (question_of self.now) (first ∷ []) left }
        requires found { IsFound (lins self.now.rows.now) self.now.l.now self.now.entry.now best }
        ensures room { length scratch.new.coefficients ≡ length scratch.old.coefficients }
        ensures better { IfOk result (λ now. IsBetter (lins self.now.rows.now) self.now.l.now self.now.entry.now best now × (first / 2 < second / 2 → CoversFront (question_of self.now) now (fronts.Two first second))) }
    {
        if first / 2 < second / 2 {
            let key = rest_of(left, self.index.key(second));
            self.better_behind(alloc, scratch, Front::Two(first, second), key, best)
        } else {
            Ok(best)
        }
    }

    /// The same for a first row, also with each second one.
    fn better_first(
        &self,
        alloc: Global,
        scratch: &mut Comb,
        first: usize,
        total: u64,
        best: Option<Found>,
    ) -> Result<Option<Found>, AllocError>
        requires ready { IsReady (question_of self.now) }
        requires room { length scratch.old.coefficients ≡ longest_of (lins self.now.rows.now) }
        requires first { first < 2 * length self.now.rows.now }
        requires total { IsLeft (question_of self.now) [] total }
        requires found { IsFound (lins self.now.rows.now) self.now.l.now self.now.entry.now best }
        ensures room { length scratch.new.coefficients ≡ length scratch.old.coefficients }
        ensures better { IfOk result (λ now. IsBetter (lins self.now.rows.now) self.now.l.now self.now.entry.now best now × CoversFirst (question_of self.now) now first (2 * length self.now.rows.now)) }
    {
        let left = rest_of(total, self.index.key(first));
        let mut best = self.better_behind(alloc, scratch, Front::One(first), left, best)?;
        for second in first + 1..self.index.places() {
            best = self.better_second(alloc, scratch, first, second, left, best)?;
        }
        Ok(best)
    }

    /// The key of what the rows of a sum make together without entry sizes.
    fn total(&self, own: &Lin) -> u64
        requires { IsMasked self.now.entry.now self.now.l.now own.now }
        ensures { IsLeft (question_of self.now) [] result }
    {
        let key = small_sums::key_of(own.coefficients());
        let once = rest_of(0, key);
        match self.multiple {
            Multiple::Once => once,
            Multiple::Twice => rest_of(once, key),
        }
    }

    /// The first one of the best cap so far and of all caps.
    pub fn first(&self, alloc: Global, best: Option<Found>) -> Result<Option<Found>, AllocError>
        requires ready { IsReady (question_of self.now) }
        requires found { IsFound (lins self.now.rows.now) self.now.l.now self.now.entry.now best }
        ensures { IfOk result (λ now. IsBetter (lins self.now.rows.now) self.now.l.now self.now.entry.now best now × CoversAll (question_of self.now) now (2 * length self.now.rows.now)) }
    {
        let own = masked(alloc, self.l, self.entry)?;
        let total = self.total(&own);
        let mut scratch = Comb::room(alloc, longest(self.rows))?;
        let mut best = self.better_behind(alloc, &mut scratch, Front::Zero, total, best)?;
        for first in 0..self.index.places() {
            best = self.better_first(alloc, &mut scratch, first, total, best)?;
        }
        Ok(best)
    }
}
