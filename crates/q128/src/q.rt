ghost use Rattle.std.specs.Prelude.{◌≡◌, ◌≢◌, pos, ◌*ℤ◌, ◌↔◌, IfOk};
ghost use Rattle.std.specs.Option.{ok_or};
ghost use Rattle.q128.specs.Fraction.{den_of, whole, order_of, IsLowest, IsSame, IsQuotient, plus, minus, times};
ghost use Rattle.q128.specs.Rule.{new_rule, add_rule, negate_rule, sub_rule, mul_rule, inverse_rule, div_rule};

use crate::gcd::greatest_common_divisor;
use crate::narrow::negative;
use crate::parts::{inverse_parts, new_parts, product_parts, sum_parts};
use crate::wide::order;
use std::cmp::Ordering;
use std::marker::Model;

/// A fraction in lowest terms with a positive denominator: each rational that fits is exactly one `Q`.
#[derive(Clone, Copy, Debug, PartialEq, Eq)]
pub struct Q {
    numerator: i128,
    denominator: u128,
}

impl Model for Q {
    ghost use Rattle.std.specs.Prelude.{◌-◌, suc};
    ghost use Rattle.q128.specs.Fraction.{Fraction};

    ghost Value = { Fraction };

    ghost use Rattle.q128.specs.Fits.{IsQ};

    ghost view = { λ q. record { num = q.numerator; den_less_one = q.denominator - 1 } };

    ghost invariant = { λ q. IsQ q.numerator q.denominator };

    ghost inverse = { λ f. record { numerator = f.num; denominator = suc f.den_less_one } };
}

/// The operation that made a number that is too wide.
#[derive(Clone, Copy, Debug, PartialEq, Eq)]
pub enum QOp {
    Add,
    Sub,
    Mul,
    Div,
}

/// Two fractions, and the operation on them whose numbers leave `i128`.
#[derive(Clone, Copy, Debug, PartialEq, Eq)]
pub struct TooWide {
    pub a: Q,
    pub b: Q,
    pub op: QOp,
}

impl Q {
    /// The whole number as a fraction.
    pub fn whole(number: i128) -> Q
        ensures { result ≡ whole number }
    {
        Q {
            numerator: number,
            denominator: 1,
        }
    }

    /// `num / den`, in lowest terms. `TooWide` has `num/1`, `den/1` and `Div`.
    pub fn new(num: i128, den: i128) -> Result<Q, TooWide>
        requires { den ≢ pos 0 }
        // The value, or the fault, exactly by the rule.
        ensures answer { result ≡ ok_or (new_rule num den) (record { a = whole num; b = whole den; op = QOp.Div }) }
        // The value is num / den.
        ensures exact { IfOk result (λ q. q.num *ℤ den ≡ num *ℤ den_of q) }
    {
        Q::ratio(num, den).ok_or(TooWide {
            a: Q::whole(num),
            b: Q::whole(den),
            op: QOp::Div,
        })
    }

    /// The numerator.
    pub fn numerator(&self) -> i128
        ensures value { result ≡ self.now.num }
        ensures lowest { IsLowest self.now }
    {
        self.numerator
    }

    /// The denominator, which is positive.
    pub fn denominator(&self) -> i128
        ensures { result ≡ den_of self.now }
    {
        self.denominator as i128
    }

    /// `self + other`. `TooWide` comes exactly where a number of the rule leaves `i128`.
    pub fn add(self, other: Q) -> Result<Q, TooWide>
        ensures answer { result ≡ ok_or (add_rule self other) (record { a = self; b = other; op = QOp.Add }) }
        ensures exact { IfOk result (λ q. IsSame q (plus self other)) }
    {
        self.sum_with(other).ok_or(TooWide {
            a: self,
            b: other,
            op: QOp::Add,
        })
    }

    /// `self - other`. `TooWide` comes exactly where a number of the rule leaves `i128`.
    pub fn sub(self, other: Q) -> Result<Q, TooWide>
        ensures answer { result ≡ ok_or (sub_rule self other) (record { a = self; b = other; op = QOp.Sub }) }
        ensures exact { IfOk result (λ q. IsSame q (minus self other)) }
    {
        self.less(other).ok_or(TooWide {
            a: self,
            b: other,
            op: QOp::Sub,
        })
    }

    /// `self * other`. `TooWide` comes exactly where a number of the rule leaves `i128`.
    pub fn mul(self, other: Q) -> Result<Q, TooWide>
        ensures answer { result ≡ ok_or (mul_rule self other) (record { a = self; b = other; op = QOp.Mul }) }
        ensures exact { IfOk result (λ q. IsSame q (times self other)) }
    {
        self.product_with(other).ok_or(TooWide {
            a: self,
            b: other,
            op: QOp::Mul,
        })
    }

    /// `self / other`. `TooWide` comes exactly where a number of the rule leaves `i128`.
    pub fn div(self, other: Q) -> Result<Q, TooWide>
        requires { other.num ≢ pos 0 }
        ensures answer { result ≡ ok_or (div_rule self other) (record { a = self; b = other; op = QOp.Div }) }
        ensures exact { IfOk result (λ q. IsQuotient q self other) }
    {
        self.over(other).ok_or(TooWide {
            a: self,
            b: other,
            op: QOp::Div,
        })
    }

    /// How the two rationals are ordered, exactly, whatever their numbers are.
    pub fn cmp(&self, other: &Q) -> Ordering
        ensures order { result ≡ order_of self.now other.now }
        // Each rational is one `Q`.
        ensures equal { (result ≡ Ordering.Equal) ↔ (self.now ≡ other.now) }
    {
        self.order_with(other)
    }

    fn order_with(&self, other: &Q) -> Ordering
        ensures order { result ≡ order_of self.now other.now }
        ensures self_lowest { IsLowest self.now }
        ensures other_lowest { IsLowest other.now }
    {
        order(
            self.numerator,
            self.denominator,
            other.numerator,
            other.denominator,
        )
    }

    #[tactic(auto, unfolding(crate::specs::Rule::new_rule))]
    fn ratio(num: i128, den: i128) -> Option<Q>
        requires { den ≢ pos 0 }
        ensures { result ≡ new_rule num den }
    {
        let g = greatest_common_divisor(num.unsigned_abs(), den.unsigned_abs());
        let (numerator, denominator) = new_parts(num, den, g)?;
        Some(Q {
            numerator,
            denominator,
        })
    }

    #[tactic(auto, unfolding(crate::specs::Rule::add_rule))]
    fn sum_with(self, other: Q) -> Option<Q>
        ensures { result ≡ add_rule self other }
    {
        let g = greatest_common_divisor(self.denominator, other.denominator);
        let (numerator, denominator) = sum_parts(
            self.numerator,
            self.denominator,
            other.numerator,
            other.denominator,
            g,
        )?;
        Some(Q {
            numerator,
            denominator,
        })
    }

    #[tactic(auto, unfolding(crate::specs::Rule::negate_rule))]
    fn opposite(self) -> Option<Q>
        ensures { result ≡ negate_rule self }
    {
        let numerator = negative(self.numerator)?;
        Some(Q {
            numerator,
            denominator: self.denominator,
        })
    }

    #[tactic(auto, unfolding(crate::specs::Rule::sub_rule))]
    fn less(self, other: Q) -> Option<Q>
        ensures { result ≡ sub_rule self other }
    {
        let opposite = other.opposite()?;
        self.sum_with(opposite)
    }

    #[tactic(auto, unfolding(crate::specs::Rule::mul_rule))]
    fn product_with(self, other: Q) -> Option<Q>
        ensures { result ≡ mul_rule self other }
    {
        let g = greatest_common_divisor(self.numerator.unsigned_abs(), other.denominator);
        let h = greatest_common_divisor(other.numerator.unsigned_abs(), self.denominator);
        let (numerator, denominator) = product_parts(
            self.numerator,
            self.denominator,
            other.numerator,
            other.denominator,
            g,
            h,
        )?;
        Some(Q {
            numerator,
            denominator,
        })
    }

    #[tactic(auto, unfolding(crate::specs::Rule::inverse_rule))]
    fn inverse(self) -> Option<Q>
        requires { self.num ≢ pos 0 }
        ensures { result ≡ inverse_rule self }
    {
        let (numerator, denominator) = inverse_parts(self.numerator, self.denominator)?;
        Some(Q {
            numerator,
            denominator,
        })
    }

    #[tactic(auto, unfolding(crate::specs::Rule::div_rule))]
    fn over(self, other: Q) -> Option<Q>
        requires { other.num ≢ pos 0 }
        ensures { result ≡ div_rule self other }
    {
        let inverse = other.inverse()?;
        self.product_with(inverse)
    }
}
