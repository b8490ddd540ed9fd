//! The first small ranking of steps, with what proves each step: the search of `functions`, and behind it four searches of
//! each live step's index.

ghost use Rattle.std.specs.Prelude.{◌≡◌, ◌<◌, ◌^◌, ◌*ℤ◌, ◌↔◌, pos, [], ◌∷◌, length, All, IsTrue, IfOk, MatchOption};
ghost use Rattle.std.specs.List.{AllZip};
ghost use Rattle.lin_rows.specs.Rows.{lins};
ghost use Rattle.lin_rows.specs.Transitions.{lin_times};
ghost use Rattle.small_cert.specs.Least.{HasNoLeast};
ghost use Rattle.small_levels.specs.Falls.{AreUnits, IsUnit};
ghost use Rattle.small_levels.specs.Leveled.{IsLive, AreDead};
ghost use Rattle.small_levels.specs.Measured.{HasNoLevels, times_in};
ghost use Rattle.small_rank.specs.Answer.{sizes_of, ProvesStep, IsSmallRank, HasNoSmallRank};
ghost use Rattle.small_rank.specs.inside.Search.{IsFirstFound};
ghost use Rattle.small_rank.specs.inside.Steps.{ProvesLeastOf, HasLevelsOn};

use crate::functions::{Found, first_ranking, zero};
use lin_rows::{Lin, Mults, Sequence, Transition};
use q128::Q;
use small_levels::{Factor, Step, fall_coefficients};
use std::alloc::{AllocError, Global};

/// What proves a ranking of a step.
#[derive(Drop)]
pub enum StepProof {
    /// The step's rows contradict each other.
    Dead(Mults),
    /// The function isn't negative before the step with the least constant, and falls by the greatest number.
    Live { gate: Mults, fall: Mults },
}

/// A ranking: with the constant c the function f isn't negative before each live step, and it falls by d at least with each.
#[derive(Drop)]
pub struct SmallRank {
    /// The function, its constant and its fall before they are made whole.
    pub function: Lin,
    pub gate: Q,
    pub fall: Q,
    /// What makes them whole.
    pub factor: Factor,
    /// The same times the factor.
    pub f: Lin,
    pub c: i128,
    pub d: i128,
    /// What proves each step, in order.
    pub steps: Sequence<StepProof>,
}

/// The steps, indexed.
fn indexed<'a>(alloc: Global, steps: &'a [Transition]) -> Result<Vec<Step<'a>>, AllocError>
    requires { All (λ t. length t.rows < 2 ^ 32) steps.now }
    ensures { IfOk result (λ all. all.items ≡ steps.entry.now) }
{
    let mut all = Vec::new(alloc);
    for step in steps {
        all.push(Step::of(alloc, step)?)?;
    }
    Ok(all)
}

/// Multipliers of the least constant of coefficients, of which there is one.
fn least_mults(alloc: Global, step: &Step<'_>, coefficients: &[i128]) -> Result<Mults, AllocError>
    requires short { length coefficients.now < 2 ^ 32 }
    requires least { HasNoLeast (lins step.now.rows) coefficients.now → ⊥ }
    ensures { IfOk result (λ n. ProvesLeastOf step.now coefficients.now n) }
{
    let least = step.least(alloc, coefficients)?.unwrap();
    least.mults(alloc)
}

/// What proves a live step.
fn live_proof(alloc: Global, step: &Step<'_>, f: &Lin) -> Result<StepProof, AllocError>
    requires units { AreUnits f.now }
    requires constant { f.now.constant ≡ pos 0 }
    requires live { IsLive step.now }
    requires levels { HasNoLevels (step.now ∷ []) f.now → ⊥ }
    ensures { IfOk result (λ p. ProvesStep f.now p step.now) }
{
    let _places = f.len();
    let gate = least_mults(alloc, step, f.coefficients())?;
    let coefficients = fall_coefficients(alloc, f, step.next())?.unwrap();
    let fall = least_mults(alloc, step, &coefficients)?;
    Ok(StepProof::Live { gate, fall })
}

/// What proves a step.
fn proof_of(alloc: Global, step: &Step<'_>, f: &Lin) -> Result<StepProof, AllocError>
    requires units { AreUnits f.now }
    requires constant { f.now.constant ≡ pos 0 }
    requires levels { IsLive step.now → HasNoLevels (step.now ∷ []) f.now → ⊥ }
    ensures { IfOk result (λ p. ProvesStep f.now p step.now) }
{
    match step.dead() {
        Some(mults) => Ok(StepProof::Dead(mults.clone()?)),
        None => live_proof(alloc, step, f),
    }
}

/// What proves each step.
fn proofs_of(alloc: Global, steps: &[Step<'_>], f: &Lin) -> Result<Sequence<StepProof>, AllocError>
    requires units { AreUnits f.now }
    requires constant { f.now.constant ≡ pos 0 }
    requires levels { HasLevelsOn steps.now f.now }
    ensures { IfOk result (λ proofs. AllZip (ProvesStep f.now) proofs steps.now) }
{
    let mut proofs = Sequence::new(alloc);
    for step in steps {
        proofs.push(proof_of(alloc, step, f)?)?;
    }
    Ok(proofs)
}

/// A coefficient times the factor.
fn scaled(factor: Factor, unit: i128) -> i128
    requires { IsUnit unit }
    ensures { result ≡ pos (times_in factor) *ℤ unit }
{
    factor.times() * unit
}

/// The function times the factor.
fn multiple_of(alloc: Global, f: &Lin, factor: Factor) -> Result<Lin, AllocError>
    requires units { AreUnits f.now }
    requires constant { f.now.constant ≡ pos 0 }
    ensures { IfOk result (λ r. r ≡ lin_times (pos (times_in factor)) f.now) }
{
    let _places = f.len();
    let mut list = Vec::new(alloc);
    for c in f.coefficients() {
        list.push(scaled(factor, *c))?;
    }
    Lin::new(alloc, &list, 0)
}

/// Whether no step is live.
fn are_dead(steps: &[Step<'_>]) -> bool
    ensures { IsTrue result ↔ AreDead steps.now }
{
    for step in steps {
        if !step.is_dead() {
            return false;
        }
    }
    true
}

/// The ranking where no step is live: f is 0, c is -1 and d is 1.
fn dead_rank(alloc: Global, steps: &[Step<'_>], sizes: usize) -> Result<SmallRank, AllocError>
    requires many { sizes < 2 ^ 32 }
    requires sizes { sizes ≡ sizes_of steps.now }
    requires dead { AreDead steps.now }
    ensures { IfOk result (λ r. IsSmallRank steps.now r) }
{
    let function = zero(alloc, sizes)?;
    let proofs = proofs_of(alloc, steps, &function)?;
    Ok(SmallRank {
        f: function.clone()?,
        function,
        gate: Q::whole(-1),
        fall: Q::whole(1),
        factor: Factor::One,
        c: -1,
        d: 1,
        steps: proofs,
    })
}

/// The ranking by a function that was found.
fn live_rank(alloc: Global, steps: &[Step<'_>], found: Found) -> Result<SmallRank, AllocError>
    requires { IsFirstFound steps.now (sizes_of steps.now) found }
    ensures { IfOk result (λ r. IsSmallRank steps.now r) }
{
    let measure = found.measure;
    let f = multiple_of(alloc, &found.function, measure.factor)?;
    let proofs = proofs_of(alloc, steps, &found.function)?;
    Ok(SmallRank {
        function: found.function,
        gate: measure.gate,
        fall: measure.fall,
        factor: measure.factor,
        f,
        c: measure.c,
        d: measure.d,
        steps: proofs,
    })
}

/// How many sizes the steps have.
fn sizes_in(steps: &[Transition]) -> usize
    ensures { result ≡ sizes_of steps.now }
{
    match steps.first() {
        Some(step) => step.next.len(),
        None => 0,
    }
}

/// The first small ranking of indexed steps.
fn rank_of(alloc: Global, steps: &[Step<'_>], sizes: usize) -> Result<Option<SmallRank>, AllocError>
    requires many { sizes < 2 ^ 32 }
    requires sizes { sizes ≡ sizes_of steps.now }
    ensures { IfOk result (λ answer. MatchOption answer (HasNoSmallRank steps.now) (IsSmallRank steps.now)) }
{
    if are_dead(steps) {
        return Ok(Some(dead_rank(alloc, steps, sizes)?));
    }
    match first_ranking(alloc, steps, sizes)? {
        Some(found) => Ok(Some(live_rank(alloc, steps, found)?)),
        None => Ok(None),
    }
}

/// The first small ranking of the steps, or None exactly where there is none. The sizes are the first variables, as many
/// as each step has next values; where numbers of 32 bits don't count them, memory is wanting.
pub fn small_rank(alloc: Global, steps: &[Transition]) -> Result<Option<SmallRank>, AllocError>
    requires rows { All (λ t. length t.rows < 2 ^ 32) steps.now }
    requires next { All (λ t. length t.next ≡ sizes_of steps.now) steps.now }
    ensures { IfOk result (λ answer. MatchOption answer (HasNoSmallRank steps.now) (IsSmallRank steps.now)) }
{
    let sizes = sizes_in(steps);
    if sizes > u32::MAX as usize {
        return Err(AllocError);
    }
    rank_of(alloc, &indexed(alloc, steps)?, sizes)
}
