//! Keys of expressions, by which sums are found.

ghost use Rattle.std.specs.Prelude.{◌≡◌, ℕ, ℤ, pos, ◌+ℤ◌, ◌*ℤ◌};
ghost use Rattle.small_sums.specs.Keys.{base, digits, IsResidue};

/// 2^64.
const LIMIT: u128 = 0x1_0000_0000_0000_0000;

/// The factor from one digit to the next.
const BASE: u128 = 11400714819323198485;

/// What is left of a number below 2^128 when multiples of 2^64 are taken away.
fn low(number: u128) -> u64
    ensures { IsResidue (pos number) result }
{
    (number % LIMIT) as u64
}

/// What is left of a number when multiples of 2^64 are taken away.
fn residue(number: i128) -> u64
    ensures { IsResidue number result }
{
    if number >= 0 {
        low(number as u128)
    } else {
        u64::MAX - low(!number as u128)
    }
}

/// The key with a digit put in front.
fn with_digit(digit: i128, key: u64) -> u64
    ensures { (z : ℤ) → IsResidue z key → IsResidue (digit +ℤ base *ℤ z) result }
{
    low(residue(digit) as u128 + BASE * key as u128)
}

/// The key of coefficients.
pub fn key_of(coefficients: &[i128]) -> u64
    ensures { IsResidue (digits coefficients.now) result }
{
    let mut key = 0;
    for i in (0..coefficients.len()).rev() {
        key = with_digit(coefficients[i], key);
    }
    key
}

/// The key of twice the expression.
pub fn doubled(key: u64) -> u64
    ensures { (z : ℤ) → IsResidue z key → IsResidue (pos 2 *ℤ z) result }
{
    low(key as u128 + key as u128)
}

/// The key of what is left of a total when a part is taken away.
pub fn rest_of(total: u64, part: u64) -> u64
    ensures { (z x y : ℤ) (rest : ℕ) → IsResidue z total → IsResidue x part → IsResidue y rest → z ≡ x +ℤ y → rest ≡ result }
{
    if part <= total {
        total - part
    } else {
        u64::MAX - part + total + 1
    }
}
