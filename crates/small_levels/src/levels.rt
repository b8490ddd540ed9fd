ghost use Rattle.std.specs.Prelude.{◌≡◌, ◌<◌, ◌^◌, ◌⊎◌, ◌-ℤ◌, ◌*ℤ◌, ◌≤ℤ◌, pos, [], ◌∷◌, ◌++◌, All, length, List, IfOk, MatchOption};
ghost use Rattle.lin_rows.specs.declared.row.Transition.{Transition};
ghost use Rattle.lin_rows.specs.Linear.{Linear};
ghost use Rattle.small_levels.specs.Leveled.{IsLive};
ghost use Rattle.small_levels.specs.Numbers.{value_of, IsModest};
ghost use Rattle.small_levels.specs.Falls.{AreUnits};
ghost use Rattle.small_levels.specs.Measured.{AreLevels, AreKnown, HasNoLevels, halves_in};

use crate::falls::{fall_coefficients, fall_part};
use crate::steps::Step;
use crate::wide::Wide;
use lin_rows::Lin;
use small_cert::{Least, Multiple};
use std::alloc::{AllocError, Global};

/// The least constant with which a function isn't negative before steps, and what it falls by at least, in halves.
#[derive(Clone, Copy)]
pub struct Levels {
    pub gate: Wide,
    pub fall: Wide,
}

/// A least constant in halves.
fn halves_of(least: Least) -> Wide
    ensures { value_of result ≡ halves_in least }
{
    let sum = Wide::of(least.sum);
    match least.multiple {
        Multiple::Once => sum.plus(sum),
        Multiple::Twice => sum,
    }
}

/// What the function falls by at least, in halves: twice its constant, less that of the difference.
fn fall_of(constant: Wide, least: Least) -> Wide
    requires { IsModest (pos 4 *ℤ value_of constant) }
    ensures { value_of result ≡ (pos 2 *ℤ value_of constant) -ℤ halves_in least }
{
    constant.plus(constant).minus(halves_of(least))
}

/// The levels of one step.
fn levels_of(alloc: Global, step: &Step<'_>, f: &Lin) -> Result<Option<Levels>, AllocError>
    requires units { AreUnits f.now }
    requires constant { f.now.constant ≡ pos 0 }
    requires live { IsLive step.now }
    ensures { IfOk result (λ answer. MatchOption answer (HasNoLevels (step.now ∷ []) f.now) (AreLevels (step.now ∷ []) f.now)) }
{
    let _places = f.len();
    let gate = match step.least(alloc, f.coefficients())? {
        Some(gate) => gate,
        None => return Ok(None),
    };
    let coefficients = match fall_coefficients(alloc, f, step.next())? {
        Some(coefficients) => coefficients,
        None => return Ok(None),
    };
    match step.least(alloc, &coefficients)? {
        Some(fall) => Ok(Some(Levels {
            gate: halves_of(gate),
            fall: fall_of(fall_part(f, step.next(), None), fall),
        })),
        None => Ok(None),
    }
}

/// The greater gate and the lesser fall.
fn joined(known: Option<Levels>, more: Levels) -> Levels
    ensures { (steps : List Transition) (step : Transition) (f : Linear) → AreKnown steps f known → AreLevels (step ∷ []) f more → AreLevels (steps ++ step ∷ []) f result }
{
    match known {
        Some(levels) => Levels {
            gate: greater(levels.gate, more.gate),
            fall: lesser(levels.fall, more.fall),
        },
        None => more,
    }
}

fn greater(a: Wide, b: Wide) -> Wide
    ensures low { value_of a ≤ℤ value_of result }
    ensures high { value_of b ≤ℤ value_of result }
    ensures one { (result ≡ a) ⊎ (result ≡ b) }
{
    if a.is_at_most(b) { b } else { a }
}

fn lesser(a: Wide, b: Wide) -> Wide
    ensures low { value_of result ≤ℤ value_of a }
    ensures high { value_of result ≤ℤ value_of b }
    ensures one { (result ≡ a) ⊎ (result ≡ b) }
{
    if a.is_at_most(b) { a } else { b }
}

/// What is known when a step is added, or None where it is live and has no levels.
fn added(
    alloc: Global,
    step: &Step<'_>,
    f: &Lin,
    known: Option<Levels>,
) -> Result<Option<Option<Levels>>, AllocError>
    requires units { AreUnits f.now }
    requires constant { f.now.constant ≡ pos 0 }
    ensures { IfOk result (λ answer. MatchOption answer (IsLive step.now × HasNoLevels (step.now ∷ []) f.now)
        (λ more. (steps : List Transition) → AreKnown steps f.now known → AreKnown (steps ++ step.now ∷ []) f.now more)) }
{
    if step.is_dead() {
        return Ok(Some(known));
    }
    match levels_of(alloc, step, f)? {
        Some(more) => Ok(Some(Some(joined(known, more)))),
        None => Ok(None),
    }
}

/// The levels of the live steps, or None where a live step has none, or no step is live.
pub fn levels_over(alloc: Global, steps: &[Step<'_>], f: &Lin) -> Result<Option<Levels>, AllocError>
    requires units { AreUnits f.now }
    requires constant { f.now.constant ≡ pos 0 }
    ensures { IfOk result (λ answer. MatchOption answer (HasNoLevels steps.now f.now) (AreLevels steps.now f.now)) }
{
    let mut known = None;
    for step in steps {
        match added(alloc, step, f, known)? {
            Some(more) => known = more,
            None => return Ok(None),
        }
    }
    Ok(known)
}
