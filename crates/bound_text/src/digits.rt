ghost use Rattle.std.specs.Prelude.{◌≡◌, ◌≤◌, true};
ghost use Rattle.bound_text.specs.inside.Runs.{is_digit, digit_onto, at_least_one};

pub(crate) fn is_digit(byte: u8) -> bool
    ensures { result ≡ is_digit byte }
{
    48 <= byte && byte <= 57
}

/// The number with one digit more, the greatest number where `u128` doesn't hold it.
pub(crate) fn digit_onto(n: u128, byte: u8) -> u128
    requires { is_digit byte ≡ true }
    ensures { result ≡ digit_onto n byte }
{
    let digit = (byte - 48) as u128;
    match n.checked_mul(10) {
        Some(tens) => tens.checked_add(digit).unwrap_or(u128::MAX),
        None => u128::MAX,
    }
}

pub(crate) fn at_least_one(n: u128) -> u128
    ensures value { result ≡ at_least_one n }
    ensures positive { 1 ≤ result }
{
    if n == 0 { 1 } else { n }
}
