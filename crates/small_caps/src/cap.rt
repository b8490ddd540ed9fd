ghost use Rattle.std.specs.Prelude.{◌≡◌, ◌<◌, ◌^◌, ℤ, length, IfOk, MatchOption};
ghost use Rattle.lin_rows.specs.Proving.{Multipliers};
ghost use Rattle.lin_rows.specs.Rows.{lins};
ghost use Rattle.small_cert.specs.Multiples.{times_of};
ghost use Rattle.small_cert.specs.Small.{IsSmall, IsSmallBy, AreShared, falsehood};
ghost use Rattle.small_caps.specs.Caps.{IsSmallCap, HasNoCap};
ghost use Rattle.small_caps.specs.inside.Entries.{AreMasked};
ghost use Rattle.small_caps.specs.inside.Picks.{multipliers_in, IsFront};
ghost use Rattle.small_caps.specs.inside.Search.{IsBest};

use crate::entries::{is_over, masked_rows};
use crate::search::{Found, Search};
use lin_rows::{Lin, Mults, Row};
use small_cert::{Multiple, small_entails};
use small_sums::RowIndex;
use std::alloc::{AllocError, Global};

/// A cap, and multipliers that prove that it is at least the expression.
#[derive(Drop)]
pub struct SmallCap {
    pub cap: Lin,
    pub mults: Mults,
}

/// Multipliers of a contradiction of the rows, if there is one.
fn contradiction(alloc: Global, rows: &[Row]) -> Result<Option<Mults>, AllocError>
    requires { length rows.now < 2 ^ 32 }
    ensures { IfOk result (λ answer. MatchOption answer (IsSmall (lins rows.now) falsehood → ⊥)
        (λ n. (m : Multipliers) × (k : ℤ) × IsSmallBy (lins rows.now) falsehood m k × AreShared n m k)) }
{
    let falsehood = Row {
        lin: Lin::new(alloc, &[], -1)?,
    };
    small_entails(alloc, rows, &falsehood)
}

/// The first cap of all sums, once and twice. The index is of the rows without their coefficients of entry sizes.
fn best_of(
    alloc: Global,
    rows: &[Row],
    l: &Lin,
    entry: &[u32],
    index: &RowIndex<'_>,
) -> Result<Option<Found>, AllocError>
    requires few { length rows.now < 2 ^ 32 }
    requires masked { AreMasked entry.now (lins rows.now) (lins index.now) }
    ensures { IfOk result (IsBest (lins rows.now) l.now entry.now) }
{
    let once = Search {
        rows,
        l,
        entry,
        index,
        multiple: Multiple::Once,
    };
    let twice = Search {
        rows,
        l,
        entry,
        index,
        multiple: Multiple::Twice,
    };
    let best = once.first(alloc, None)?;
    twice.first(alloc, best)
}

/// The first cap of all sums.
fn first_cap(
    alloc: Global,
    rows: &[Row],
    l: &Lin,
    entry: &[u32],
) -> Result<Option<Found>, AllocError>
    requires { length rows.now < 2 ^ 32 }
    ensures { IfOk result (IsBest (lins rows.now) l.now entry.now) }
{
    let masked = masked_rows(alloc, rows, entry)?;
    let index = RowIndex::build(alloc, &masked)?;
    best_of(alloc, rows, l, entry, &index)
}

/// The cap that is found, with its multipliers.
fn taken(alloc: Global, found: Found) -> Result<SmallCap, AllocError>
    requires front { IsFront 8589934590 found.pick.front }
    requires last { found.pick.last < 8589934590 }
    ensures { IfOk result (λ c. (c.cap ≡ found.cap) × AreShared c.mults (multipliers_in found.pick.front found.pick.last) (times_of found.multiple)) }
{
    let mults = found.pick.mults(alloc, found.multiple)?;
    Ok(SmallCap {
        cap: found.cap,
        mults,
    })
}

/// The first small cap of the expression over entry sizes, or None exactly where there is none.
pub fn small_cap(
    alloc: Global,
    rows: &[Row],
    l: &Lin,
    entry: &[u32],
) -> Result<Option<SmallCap>, AllocError>
    requires { length rows.now < 2 ^ 32 }
    ensures { IfOk result (λ answer. MatchOption answer (HasNoCap (lins rows.now) l.now entry.now)
        (λ c. IsSmallCap (lins rows.now) l.now entry.now c.cap c.mults)) }
{
    if is_over(l, entry) {
        let cap = l.clone()?;
        let mults = Mults::new(alloc);
        return Ok(Some(SmallCap { cap, mults }));
    }
    if let Some(mults) = contradiction(alloc, rows)? {
        let cap = Lin::new(alloc, &[], 0)?;
        return Ok(Some(SmallCap { cap, mults }));
    }
    match first_cap(alloc, rows, l, entry)? {
        Some(found) => Ok(Some(taken(alloc, found)?)),
        None => Ok(None),
    }
}
