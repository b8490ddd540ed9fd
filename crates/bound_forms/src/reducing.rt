ghost use Rattle.std.specs.Prelude.{◌≡◌, ◌≤◌, ◌<◌, ◌^◌, pos, map, take, int_div, length, IfOk};
ghost use Rattle.bound_forms.specs.Lowest.{trimmed, common_divisor, lowest};
ghost use Rattle.bound_forms.specs.Answered.{GivesLowest};

use crate::fault::BoundFault;
use crate::limits::within_limit;
use bound_terms::Nat;
use lin_rows::Lin;
use q128::greatest_common_divisor;
use std::alloc::{AllocError, Global};

/// How many coefficients stand before the zeros at the end.
pub(crate) fn trimmed_len(l: &Lin) -> u32
    ensures within { result ≤ length l.now.coefficients }
    ensures value { take result l.now.coefficients ≡ trimmed l.now.coefficients }
{
    let mut len = l.len();
    while len > 0 && l.get(len - 1) == 0 {
        len -= 1;
    }
    len
}

/// What divides a number and all of several.
fn common_divisor(d: u128, coefficients: &[i128]) -> u128
    requires { 1 ≤ d }
    ensures value { result ≡ common_divisor d coefficients.now }
    ensures low { 1 ≤ result }
    ensures high { result ≤ d }
{
    let mut divisor = d;
    for c in coefficients {
        divisor = greatest_common_divisor(c.unsigned_abs(), divisor);
    }
    divisor
}

/// 2^127, one more than `i128` holds.
const HALF: u128 = 1 << 127;

/// A number divided by a size that isn't past 2^127, which itself is no `i128`.
fn quotient_within(number: i128, size: u128) -> i128
    requires low { 0 < size }
    requires high { size ≤ 2 ^ 127 }
    ensures { result ≡ int_div number (pos size) }
{
    if size < HALF {
        number / size as i128
    } else if number == i128::MIN {
        -1
    } else {
        0
    }
}

/// A number divided by a size.
fn quotient(number: i128, size: u128) -> i128
    requires { 1 ≤ size }
    ensures { result ≡ int_div number (pos size) }
{
    if size > HALF {
        0
    } else {
        quotient_within(number, size)
    }
}

fn quotients(alloc: Global, coefficients: &[i128], size: u128) -> Result<Vec<i128>, AllocError>
    requires { 1 ≤ size }
    ensures { IfOk result (λ qs. qs.items ≡ map (λ c. int_div c (pos size)) coefficients.now) }
{
    let mut quotients = Vec::new(alloc);
    for c in coefficients {
        quotients.push(quotient(*c, size))?;
    }
    Ok(quotients)
}

/// The expression and its divisor in lowest terms, without zeros at the end. `Coefficient` comes where the divisor is past
/// 2^127 - 1 then.
pub fn lowest(alloc: Global, n: &Nat) -> Result<Nat, BoundFault>
    ensures { GivesLowest result (lowest n.now) }
{
    let l = n.expression();
    let coefficients = l.coefficients();
    let trimmed = &coefficients[..trimmed_len(l) as usize];
    let first = greatest_common_divisor(l.constant().unsigned_abs(), n.divisor());
    let size = common_divisor(first, coefficients);
    let numbers = quotients(alloc, trimmed, size)?;
    let divisor = within_limit(n.divisor() / size)?;
    let expression = Lin::new(alloc, numbers.as_slice(), quotient(l.constant(), size))?;
    Ok(Nat::new(expression, divisor))
}
