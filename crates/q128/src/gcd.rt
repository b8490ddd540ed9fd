//! The greatest common divisor.

ghost use Rattle.std.specs.Prelude.{◌≡◌, ◌<◌, ◌≤◌};
ghost use Rattle.q128.specs.Rule.{gcd};

/// The greatest common divisor, 0 of 0 and 0.
pub fn greatest_common_divisor(a: u128, b: u128) -> u128
    ensures value { result ≡ gcd a b }
    ensures low { 0 < b → 0 < result }
    ensures high { 0 < b → result ≤ b }
{
    let mut x = a;
    let mut y = b;
    while y != 0 {
        let rest = x % y;
        x = y;
        y = rest;
    }
    x
}
