ghost use Rattle.std.specs.Prelude.{◌≡◌, ◌*ℤ◌, ℤ, pos, MatchOption};
ghost use Rattle.q128.specs.Fraction.{whole, IsQuotient};
ghost use Rattle.q128.specs.Laws.{IsNarrow};
ghost use Rattle.small_levels.specs.Numbers.{value_of};
ghost use Rattle.small_levels.specs.Measured.{times_in, IsTimes, MakesInteger, IsFactorOf, IsMade, HasNoMeasure};

use crate::levels::Levels;
use crate::wide::Wide;
use q128::Q;

/// The constant and the fall of a ranking, and the same times their least common factor.
#[derive(Clone, Copy)]
pub struct Measure {
    pub gate: Q,
    pub fall: Q,
    pub factor: Factor,
    pub c: i128,
    pub d: i128,
}

/// What makes halves whole.
#[derive(Clone, Copy)]
pub enum Factor {
    One,
    Two,
}

impl Factor {
    /// The factor as a number.
    pub fn times(self) -> i128
        ensures { result ≡ pos (times_in self) }
    {
        match self {
            Factor::One => 1,
            Factor::Two => 2,
        }
    }
}

/// The least factor that makes both whole.
fn factor_of(levels: Levels) -> Factor
    ensures { IsFactorOf levels result }
{
    if levels.gate.is_even() && levels.fall.is_even() {
        Factor::One
    } else {
        Factor::Two
    }
}

/// The number of halves times the factor, as a whole number where it fits.
fn whole_of(halves: Wide, factor: Factor) -> Option<i128>
    requires { MakesInteger factor (value_of halves) }
    ensures { MatchOption result ((n : ℤ) → IsTimes factor (value_of halves) n → IsNarrow n → ⊥) (IsTimes factor (value_of halves)) }
{
    match factor {
        Factor::One => halves.halved().narrow(),
        Factor::Two => halves.narrow(),
    }
}

/// The number divided by the factor.
fn share_of(number: i128, factor: Factor) -> Q
    ensures { IsQuotient result (whole number) (whole (pos (times_in factor))) }
{
    Q::new(number, factor.times()).unwrap()
}

/// What is made of levels, where the fall is positive and the whole numbers fit.
pub fn measure_of(levels: Levels) -> Option<Measure>
    ensures { MatchOption result (HasNoMeasure levels) (IsMade levels) }
{
    if levels.fall.is_at_most(Wide::of(0)) {
        return None;
    }
    let factor = factor_of(levels);
    let c = whole_of(levels.gate, factor)?;
    let d = whole_of(levels.fall, factor)?;
    Some(Measure {
        gate: share_of(c, factor),
        fall: share_of(d, factor),
        factor,
        c,
        d,
    })
}
