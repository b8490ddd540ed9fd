//! Functions of at most two sizes in their order: of n sizes there are 2 * n * n + 1, and each is tried on each live step
//! by four searches of its index.

ghost use Rattle.std.specs.Prelude.{◌≡◌, ◌<◌, ◌+◌, ◌^◌, length, [], ◌∷◌, IfOk, MatchOption};
ghost use Rattle.small_cert.specs.Order.{terms_of, rank_of};
ghost use Rattle.small_levels.specs.Measured.{IsMade, HasNoMeasure};
ghost use Rattle.small_rank.specs.Ranking.{IsFunction, HasNoRanking, zero_of};
ghost use Rattle.small_rank.specs.inside.Search.{IsSign, HasNoRankingBy, HasNoneBefore, HasNoneUpTo, IsFoundBy, IsFirstFound};

use lin_rows::Lin;
use small_levels::{Levels, Measure, Step, levels_over, measure_of};
use std::alloc::{AllocError, Global};

/// A function with its measure.
#[derive(Drop)]
pub(crate) struct Found {
    pub function: Lin,
    pub measure: Measure,
}

/// The function with no coefficient, one of `a` at `i`, or also one of `b` at `j`.
pub(crate) fn zero(alloc: Global, sizes: usize) -> Result<Lin, AllocError>
    requires { sizes < 2 ^ 32 }
    ensures { IfOk result (λ f. f ≡ zero_of sizes) }
{
    let list = vec![in alloc; 0; sizes]?;
    Lin::new(alloc, &list, 0)
}

fn single(alloc: Global, sizes: usize, i: usize, a: i128) -> Result<Lin, AllocError>
    requires sizes { sizes < 2 ^ 32 }
    requires place { i < sizes }
    requires unit { IsSign a }
    ensures { IfOk result (λ f. IsFunction sizes f × (terms_of f ≡ (i, a) ∷ [])) }
{
    let mut list = vec![in alloc; 0; sizes]?;
    list[i] = a;
    Lin::new(alloc, &list, 0)
}

fn pair(
    alloc: Global,
    sizes: usize,
    i: usize,
    j: usize,
    a: i128,
    b: i128,
) -> Result<Lin, AllocError>
    requires sizes { sizes < 2 ^ 32 }
    requires first { i < j }
    requires second { j < sizes }
    requires unit { IsSign a }
    requires other { IsSign b }
    ensures { IfOk result (λ f. IsFunction sizes f × (terms_of f ≡ (i, a) ∷ (j, b) ∷ [])) }
{
    let mut list = vec![in alloc; 0; sizes]?;
    list[i] = a;
    list[j] = b;
    Lin::new(alloc, &list, 0)
}

/// The function with what is made of its levels.
fn measured(levels: Levels, function: Lin) -> Option<Found>
    ensures { MatchOption result (HasNoMeasure levels) (λ r. (r.function ≡ function) × IsMade levels r.measure) }
{
    match measure_of(levels) {
        Some(measure) => Some(Found { function, measure }),
        None => None,
    }
}

/// The ranking by the function, where there is one.
fn tried(alloc: Global, steps: &[Step<'_>], function: Lin) -> Result<Option<Found>, AllocError>
    requires { IsFunction (length function.coefficients) function }
    ensures { IfOk result (λ answer. MatchOption answer (HasNoRankingBy steps.now (length function.coefficients) function)
        (λ r. (r.function ≡ function) × IsFoundBy steps.now (length function.coefficients) r)) }
{
    match levels_over(alloc, steps, &function)? {
        Some(levels) => Ok(measured(levels, function)),
        None => Ok(None),
    }
}

/// The ranking by the function with no coefficient.
fn by_none(alloc: Global, steps: &[Step<'_>], sizes: usize) -> Result<Option<Found>, AllocError>
    requires { sizes < 2 ^ 32 }
    ensures { IfOk result (λ answer. MatchOption answer (HasNoneUpTo steps.now sizes (0 ∷ [])) (IsFirstFound steps.now sizes)) }
{
    let function = zero(alloc, sizes)?;
    tried(alloc, steps, function)
}

/// The ranking by one coefficient.
fn by_one(
    alloc: Global,
    steps: &[Step<'_>],
    sizes: usize,
    i: usize,
    a: i128,
) -> Result<Option<Found>, AllocError>
    requires sizes { sizes < 2 ^ 32 }
    requires place { i < sizes }
    requires unit { IsSign a }
    requires before { HasNoneBefore steps.now sizes (1 ∷ i ∷ rank_of a ∷ []) }
    ensures { IfOk result (λ answer. MatchOption answer (HasNoneUpTo steps.now sizes (1 ∷ i ∷ rank_of a ∷ [])) (IsFirstFound steps.now sizes)) }
{
    let function = single(alloc, sizes, i, a)?;
    tried(alloc, steps, function)
}

/// The ranking by two coefficients.
fn by_two(
    alloc: Global,
    steps: &[Step<'_>],
    sizes: usize,
    i: usize,
    j: usize,
    a: i128,
    b: i128,
) -> Result<Option<Found>, AllocError>
    requires sizes { sizes < 2 ^ 32 }
    requires first { i < j }
    requires second { j < sizes }
    requires unit { IsSign a }
    requires other { IsSign b }
    requires before { HasNoneBefore steps.now sizes (2 ∷ i ∷ j ∷ rank_of a ∷ rank_of b ∷ []) }
    ensures { IfOk result (λ answer. MatchOption answer (HasNoneUpTo steps.now sizes (2 ∷ i ∷ j ∷ rank_of a ∷ rank_of b ∷ [])) (IsFirstFound steps.now sizes)) }
{
    let function = pair(alloc, sizes, i, j, a, b)?;
    tried(alloc, steps, function)
}

/// The first ranking by one size.
fn by_single(
    alloc: Global,
    steps: &[Step<'_>],
    sizes: usize,
    i: usize,
) -> Result<Option<Found>, AllocError>
    requires sizes { sizes < 2 ^ 32 }
    requires place { i < sizes }
    requires before { HasNoneBefore steps.now sizes (1 ∷ i ∷ []) }
    ensures { IfOk result (λ answer. MatchOption answer (HasNoneBefore steps.now sizes (1 ∷ (i + 1) ∷ [])) (IsFirstFound steps.now sizes)) }
{
    match by_one(alloc, steps, sizes, i, 1)? {
        Some(found) => Ok(Some(found)),
        None => by_one(alloc, steps, sizes, i, -1),
    }
}

/// The first ranking by two sizes, where the coefficient of the first is given.
fn by_half_pair(
    alloc: Global,
    steps: &[Step<'_>],
    sizes: usize,
    i: usize,
    j: usize,
    a: i128,
) -> Result<Option<Found>, AllocError>
    requires sizes { sizes < 2 ^ 32 }
    requires first { i < j }
    requires second { j < sizes }
    requires unit { IsSign a }
    requires before { HasNoneBefore steps.now sizes (2 ∷ i ∷ j ∷ rank_of a ∷ []) }
    ensures { IfOk result (λ answer. MatchOption answer (HasNoneBefore steps.now sizes (2 ∷ i ∷ j ∷ (rank_of a + 1) ∷ [])) (IsFirstFound steps.now sizes)) }
{
    match by_two(alloc, steps, sizes, i, j, a, 1)? {
        Some(found) => Ok(Some(found)),
        None => by_two(alloc, steps, sizes, i, j, a, -1),
    }
}

/// The first ranking by two sizes.
fn by_pair(
    alloc: Global,
    steps: &[Step<'_>],
    sizes: usize,
    i: usize,
    j: usize,
) -> Result<Option<Found>, AllocError>
    requires sizes { sizes < 2 ^ 32 }
    requires first { i < j }
    requires second { j < sizes }
    requires before { HasNoneBefore steps.now sizes (2 ∷ i ∷ j ∷ []) }
    ensures { IfOk result (λ answer. MatchOption answer (HasNoneBefore steps.now sizes (2 ∷ i ∷ (j + 1) ∷ [])) (IsFirstFound steps.now sizes)) }
{
    match by_half_pair(alloc, steps, sizes, i, j, 1)? {
        Some(found) => Ok(Some(found)),
        None => by_half_pair(alloc, steps, sizes, i, j, -1),
    }
}

/// The first ranking by a size and a later one.
fn by_pairs_of(
    alloc: Global,
    steps: &[Step<'_>],
    sizes: usize,
    i: usize,
) -> Result<Option<Found>, AllocError>
    requires sizes { sizes < 2 ^ 32 }
    requires place { i < sizes }
    requires before { HasNoneBefore steps.now sizes (2 ∷ i ∷ []) }
    ensures { IfOk result (λ answer. MatchOption answer (HasNoneBefore steps.now sizes (2 ∷ (i + 1) ∷ [])) (IsFirstFound steps.now sizes)) }
{
    for j in i + 1..sizes {
        if let Some(found) = by_pair(alloc, steps, sizes, i, j)? {
            return Ok(Some(found));
        }
    }
    Ok(None)
}

/// The first ranking by two sizes.
fn by_pairs(alloc: Global, steps: &[Step<'_>], sizes: usize) -> Result<Option<Found>, AllocError>
    requires sizes { sizes < 2 ^ 32 }
    requires before { HasNoneBefore steps.now sizes (2 ∷ 0 ∷ []) }
    ensures { IfOk result (λ answer. MatchOption answer (HasNoRanking steps.now sizes) (IsFirstFound steps.now sizes)) }
{
    for i in 0..sizes {
        if let Some(found) = by_pairs_of(alloc, steps, sizes, i)? {
            return Ok(Some(found));
        }
    }
    Ok(None)
}

/// The first ranking by one size.
fn by_singles(alloc: Global, steps: &[Step<'_>], sizes: usize) -> Result<Option<Found>, AllocError>
    requires sizes { sizes < 2 ^ 32 }
    requires before { HasNoneBefore steps.now sizes (1 ∷ 0 ∷ []) }
    ensures { IfOk result (λ answer. MatchOption answer (HasNoneBefore steps.now sizes (2 ∷ 0 ∷ [])) (IsFirstFound steps.now sizes)) }
{
    for i in 0..sizes {
        if let Some(found) = by_single(alloc, steps, sizes, i)? {
            return Ok(Some(found));
        }
    }
    Ok(None)
}

/// The first ranking by one size or two.
fn by_sizes(alloc: Global, steps: &[Step<'_>], sizes: usize) -> Result<Option<Found>, AllocError>
    requires sizes { sizes < 2 ^ 32 }
    requires before { HasNoneBefore steps.now sizes (1 ∷ 0 ∷ []) }
    ensures { IfOk result (λ answer. MatchOption answer (HasNoRanking steps.now sizes) (IsFirstFound steps.now sizes)) }
{
    match by_singles(alloc, steps, sizes)? {
        Some(found) => Ok(Some(found)),
        None => by_pairs(alloc, steps, sizes),
    }
}

/// The first ranking of the steps, each of which has so many sizes, in the order of functions by their coefficients; None
/// exactly where there is none, so also where no step is live.
pub(crate) fn first_ranking(
    alloc: Global,
    steps: &[Step<'_>],
    sizes: usize,
) -> Result<Option<Found>, AllocError>
    requires { sizes < 2 ^ 32 }
    ensures { IfOk result (λ answer. MatchOption answer (HasNoRanking steps.now sizes) (IsFirstFound steps.now sizes)) }
{
    match by_none(alloc, steps, sizes)? {
        Some(found) => Ok(Some(found)),
        None => by_sizes(alloc, steps, sizes),
    }
}
