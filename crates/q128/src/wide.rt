//! Products of 256 bits, to compare fractions by.

ghost use Rattle.std.specs.Prelude.{◌≡◌, ◌+◌, ◌*◌, ◌≤◌, ◌<◌, ◌^◌, pos, ◌*ℤ◌};
ghost use Rattle.std.specs.Ordering.{nat_cmp, int_cmp};

use std::cmp::Ordering;

/// 2^64.
const HALF: u128 = 0x1_0000_0000_0000_0000;

/// The high and the low 128 bits of a product.
fn wide_product(a: u128, b: u128) -> (u128, u128)
    requires first { a ≤ 2 ^ 127 }
    requires second { b ≤ 2 ^ 127 }
    ensures value { result.0 * 2 ^ 128 + result.1 ≡ a * b }
{
    let (a_high, a_low) = (a / HALF, a % HALF);
    let (b_high, b_low) = (b / HALF, b % HALF);
    let low = a_low * b_low;
    let cross = a_high * b_low + low / HALF;
    let other = a_low * b_high + cross % HALF;
    (
        a_high * b_high + cross / HALF + other / HALF,
        other % HALF * HALF + low % HALF,
    )
}

/// How `a * b` and `c * d` are ordered.
pub fn order_of_products(a: u128, b: u128, c: u128, d: u128) -> Ordering
    requires first { a ≤ 2 ^ 127 }
    requires second { b ≤ 2 ^ 127 }
    requires third { c ≤ 2 ^ 127 }
    requires fourth { d ≤ 2 ^ 127 }
    ensures { result ≡ nat_cmp (a * b) (c * d) }
{
    let (left_high, left_low) = wide_product(a, b);
    let (right_high, right_low) = wide_product(c, d);
    match left_high.cmp(&right_high) {
        Ordering::Equal => left_low.cmp(&right_low),
        order => order,
    }
}

/// How the fractions `a/b` and `c/d` are ordered, of which the denominators are positive.
pub fn order(a: i128, b: u128, c: i128, d: u128) -> Ordering
    requires b_low { 0 < b }
    requires b_high { b < 2 ^ 127 }
    requires d_low { 0 < d }
    requires d_high { d < 2 ^ 127 }
    ensures { result ≡ int_cmp (a *ℤ pos d) (c *ℤ pos b) }
{
    if a < 0 && c < 0 {
        order_of_products(c.unsigned_abs(), b, a.unsigned_abs(), d)
    } else if a < 0 {
        Ordering::Less
    } else if c < 0 {
        Ordering::Greater
    } else {
        order_of_products(a.unsigned_abs(), d, c.unsigned_abs(), b)
    }
}
