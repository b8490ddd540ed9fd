//! The two numbers of each answer, by the rule.

ghost use Rattle.std.specs.Prelude.{◌≡◌, ◌≢◌, ◌<◌, ◌≤◌, ◌^◌, pos};
ghost use Rattle.q128.specs.Rule as rule;

use crate::gcd::greatest_common_divisor;
use crate::narrow::{fitting, negative, product, quotient, signed_product, size_product, sum};

/// `a/b` in lowest terms and with a positive denominator. `g` divides both.
#[tactic(auto, unfolding(crate::specs::Rule::signed))]
pub fn new_parts(a: i128, b: i128, g: u128) -> Option<(i128, u128)>
    requires low { 0 < g }
    requires high { g ≤ 2 ^ 127 }
    ensures { result ≡ rule.new_parts a b g }
{
    let top = quotient(a, g);
    let bottom = quotient(b, g);
    if bottom >= 0 {
        return Some((top, bottom as u128));
    }
    let numerator = negative(top)?;
    let denominator = fitting(bottom.unsigned_abs())?;
    Some((numerator, denominator))
}

/// `a/b + c/d`, where `g` is the greatest common divisor of `b` and `d`.
#[tactic(auto, unfolding(crate::specs::Rule::add_parts))]
pub fn sum_parts(a: i128, b: u128, c: i128, d: u128, g: u128) -> Option<(i128, u128)>
    requires first { b < 2 ^ 127 }
    requires second { d < 2 ^ 127 }
    requires low { 0 < g }
    requires high { g ≤ d }
    ensures { result ≡ rule.add_parts a b c d g }
{
    let left = product(a, d / g)?;
    let right = product(c, b / g)?;
    let top = sum(left, right)?;
    let bottom = size_product(b / g, d)?;
    let k = greatest_common_divisor(top.unsigned_abs(), g);
    Some((quotient(top, k), bottom / k))
}

/// `a/b * c/d`, where `g` divides `a` and `d`, and `h` divides `c` and `b`.
#[tactic(auto, unfolding(crate::specs::Rule::mul_parts))]
pub fn product_parts(a: i128, b: u128, c: i128, d: u128, g: u128, h: u128) -> Option<(i128, u128)>
    requires g_low { 0 < g }
    requires g_high { g ≤ 2 ^ 127 }
    requires h_low { 0 < h }
    requires h_high { h ≤ 2 ^ 127 }
    ensures { result ≡ rule.mul_parts a b c d g h }
{
    let top = signed_product(quotient(a, g), quotient(c, h))?;
    let bottom = size_product(b / h, d / g)?;
    Some((top, bottom))
}

/// The inverse of `a/b`.
#[tactic(auto, unfolding(crate::specs::Rule::inverse_parts))]
pub fn inverse_parts(a: i128, b: u128) -> Option<(i128, u128)>
    requires nonzero { a ≢ pos 0 }
    requires bounded { b < 2 ^ 127 }
    ensures { result ≡ rule.inverse_parts a b }
{
    if a > 0 {
        return Some((b as i128, a as u128));
    }
    let denominator = fitting(a.unsigned_abs())?;
    Some((-(b as i128), denominator))
}
