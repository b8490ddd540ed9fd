//! The places of keys in a list, found without walking through it.

ghost use Rattle.std.specs.Prelude.{◌≡◌, ℕ, suc, ◌<◌, ◌≤◌, ◌%◌, ◌^◌, length, slice_index, IfOk, MatchOption};
ghost use Rattle.small_sums.specs.inside.Chains.{IsLastBefore, IsNowhereBefore, AreLinked};

use std::alloc::{AllocError, Global};
use std::marker::Model;

/// A list of keys, and the places of each key from the last one on. A place counts one more in `heads` and `links`,
/// where 0 ends a chain.
#[derive(Drop)]
pub struct Places {
    keys: Vec<u64>,
    /// The last place of each bucket of keys.
    heads: Vec<usize>,
    /// The place before each place in the same bucket.
    links: Vec<usize>,
}

impl Model for Places {
    ghost use Rattle.std.specs.Prelude.{ℕ, List};
    ghost use Rattle.small_sums.specs.inside.Chains.{IsChained};

    ghost Value = { List ℕ };

    ghost view = { λ p. p.keys.items };

    ghost invariant = { λ p. IsChained p.keys.items p.heads.items p.links.items };
}

/// The bucket of a key.
fn bucket_of(key: u64, count: usize) -> usize
    requires { 0 < count }
    ensures value { result ≡ key % count }
    ensures within { result < count }
{
    (key % count as u64) as usize
}

/// The last place of a key that a chain meets, which begins one below `start`.
fn walk(keys: &[u64], links: &[usize], count: usize, key: u64, start: usize) -> Option<usize>
    requires chained { AreLinked (length keys.now) count keys.now links.now }
    requires within { start ≤ length keys.now }
    requires bucket { (i : ℕ) → start ≡ suc i → slice_index keys.now i % count ≡ key % count }
    ensures { MatchOption result (IsNowhereBefore keys.now key start) (IsLastBefore keys.now key start) }
{
    let mut next = start;
    while next != 0 {
        if keys[next - 1] == key {
            return Some(next - 1);
        }
        next = links[next - 1];
    }
    None
}

impl Places {
    /// The places of the keys.
    pub fn of(alloc: Global, keys: Vec<u64>) -> Result<Places, AllocError>
        requires { length keys.items < 2 ^ 34 }
        ensures { IfOk result (λ p. p ≡ keys.items) }
    {
        let count = keys.len();
        let mut heads = vec![in alloc; 0; count + 1]?;
        let mut links = vec![in alloc; 0; count]?;
        for place in 0..count {
            let bucket = bucket_of(keys[place], count + 1);
            links[place] = heads[bucket];
            heads[bucket] = place + 1;
        }
        Ok(Places { keys, heads, links })
    }

    /// How many keys there are.
    pub fn len(&self) -> usize
        ensures { result ≡ length self.now }
    {
        self.keys.len()
    }

    /// The key at a place.
    pub fn key(&self, place: usize) -> u64
        requires { place < length self.now }
        ensures { result ≡ slice_index self.now place }
    {
        self.keys[place]
    }

    /// The last place of a key.
    pub fn last(&self, key: u64) -> Option<usize>
        ensures { MatchOption result (IsNowhereBefore self.now key (length self.now)) (IsLastBefore self.now key (length self.now)) }
    {
        let count = self.heads.len();
        let start = self.heads[bucket_of(key, count)];
        walk(&self.keys, &self.links, count, key, start)
    }

    /// The place before this one that has the same key.
    pub fn previous(&self, place: usize) -> Option<usize>
        requires { place < length self.now }
        ensures { MatchOption result (IsNowhereBefore self.now (slice_index self.now place) place) (IsLastBefore self.now (slice_index self.now place) place) }
    {
        walk(
            &self.keys,
            &self.links,
            self.heads.len(),
            self.keys[place],
            self.links[place],
        )
    }
}
