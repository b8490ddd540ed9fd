//! Whole numbers of more than 128 bits, in which differences of expressions are made exactly.

ghost use Rattle.std.specs.Prelude.{◌≡◌, ◌≢◌, ◌<◌, ◌^◌, ◌↔◌, ◌+ℤ◌, ◌-ℤ◌, ◌*ℤ◌, ◌≤ℤ◌, ℤ, pos, IsTrue, MatchOption};
ghost use Rattle.q128.specs.Laws.{IsNarrow};
ghost use Rattle.small_levels.specs.Numbers.{value_of, IsModest};

/// 2^64.
const LIMIT: i128 = 0x1_0000_0000_0000_0000;

/// `high * 2^64 + low`.
#[derive(Clone, Copy)]
pub struct Wide {
    high: i128,
    low: u64,
}

impl Wide {
    /// A number of 128 bits.
    pub fn of(number: i128) -> Wide
        ensures { value_of result ≡ number }
    {
        Wide {
            high: number.div_euclid(LIMIT),
            low: number.rem_euclid(LIMIT) as u64,
        }
    }

    /// The sum of both.
    pub fn plus(self, other: Wide) -> Wide
        requires first { IsModest (value_of self) }
        requires second { IsModest (value_of other) }
        ensures { value_of result ≡ value_of self +ℤ value_of other }
    {
        if self.low <= u64::MAX - other.low {
            Wide {
                high: self.high + other.high,
                low: self.low + other.low,
            }
        } else {
            Wide {
                high: self.high + other.high + 1,
                low: self.low - (u64::MAX - other.low) - 1,
            }
        }
    }

    /// The difference of both.
    pub fn minus(self, other: Wide) -> Wide
        requires first { IsModest (value_of self) }
        requires second { IsModest (value_of other) }
        ensures { value_of result ≡ value_of self -ℤ value_of other }
    {
        if other.low <= self.low {
            Wide {
                high: self.high - other.high,
                low: self.low - other.low,
            }
        } else {
            Wide {
                high: self.high - other.high - 1,
                low: u64::MAX - other.low + self.low + 1,
            }
        }
    }

    /// Whether it is at most the other.
    pub fn is_at_most(self, other: Wide) -> bool
        ensures { IsTrue result ↔ (value_of self ≤ℤ value_of other) }
    {
        self.high < other.high || (self.high == other.high && self.low <= other.low)
    }

    /// Whether 2 divides it.
    pub fn is_even(self) -> bool
        ensures { IsTrue result ↔ ((z : ℤ) × (value_of self ≡ pos 2 *ℤ z)) }
    {
        self.low % 2 == 0
    }

    /// Half of it, rounded down.
    pub fn halved(self) -> Wide
        ensures { (z : ℤ) → value_of self ≡ pos 2 *ℤ z → value_of result ≡ z }
    {
        let high = self.high.div_euclid(2);
        let rest: u64 = if self.high.rem_euclid(2) == 1 {
            0x8000_0000_0000_0000
        } else {
            0
        };
        Wide {
            high,
            low: self.low / 2 + rest,
        }
    }

    /// The number, where 128 bits hold it.
    pub fn narrow(self) -> Option<i128>
        ensures { MatchOption result (IsNarrow (value_of self) → ⊥) (λ n. n ≡ value_of self) }
    {
        if -0x8000_0000_0000_0000 <= self.high && self.high < 0x8000_0000_0000_0000 {
            Some(self.high * LIMIT + self.low as i128)
        } else {
            None
        }
    }
}
