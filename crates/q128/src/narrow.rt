//! Products, sums and changes of sign that answer None where they leave `i128`, and exact quotients.

ghost use Rattle.std.specs.Prelude.{◌≡◌, ◌<◌, ◌≤◌, ◌*◌, ◌^◌, pos, neg_ℤ, ◌+ℤ◌, ◌*ℤ◌, int_div};
ghost use Rattle.q128.specs.Rule.{narrow, narrow_natural};

/// 2^127, one more than `i128` holds.
pub const LIMIT: u128 = 0x8000_0000_0000_0000_0000_0000_0000_0000;

/// The product of a number and a size.
#[tactic(auto, using(crate::proofs::Checked::narrow_iff))]
pub fn product(number: i128, size: u128) -> Option<i128>
    requires { size < 2 ^ 127 }
    ensures { result ≡ narrow (number *ℤ pos size) }
{
    number.checked_mul(size as i128)
}

/// The product of two numbers.
#[tactic(auto, using(crate::proofs::Checked::narrow_iff))]
pub fn signed_product(a: i128, b: i128) -> Option<i128>
    ensures { result ≡ narrow (a *ℤ b) }
{
    a.checked_mul(b)
}

/// The sum of two numbers.
#[tactic(auto, using(crate::proofs::Checked::narrow_iff))]
pub fn sum(a: i128, b: i128) -> Option<i128>
    ensures { result ≡ narrow (a +ℤ b) }
{
    a.checked_add(b)
}

/// The number with its sign changed.
#[tactic(auto, using(crate::proofs::Checked::narrow_iff))]
pub fn negative(number: i128) -> Option<i128>
    ensures { result ≡ narrow (neg_ℤ number) }
{
    number.checked_neg()
}

/// A size, where `i128` holds it.
#[tactic(auto, unfolding(crate::specs::Rule::narrow_natural))]
pub fn fitting(size: u128) -> Option<u128>
    ensures { result ≡ narrow_natural size }
{
    if size < LIMIT { Some(size) } else { None }
}

/// The product of two sizes, where `i128` holds it.
#[tactic(auto, unfolding(crate::specs::Rule::narrow_natural))]
pub fn size_product(a: u128, b: u128) -> Option<u128>
    ensures { result ≡ narrow_natural (a * b) }
{
    match a.checked_mul(b) {
        Some(size) => fitting(size),
        None => None,
    }
}

/// A number divided by a size. 2^127 itself is no `i128`, and it divides -2^127 and 0 alone.
pub fn quotient(number: i128, size: u128) -> i128
    requires low { 0 < size }
    requires high { size ≤ 2 ^ 127 }
    ensures { result ≡ int_div number (pos size) }
{
    if size < LIMIT {
        number / size as i128
    } else if number == i128::MIN {
        -1
    } else {
        0
    }
}
