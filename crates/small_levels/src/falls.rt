//! The difference of a function's values before and after a step. Its numbers may leave 128 bits where what is made of them
//! doesn't.

ghost use Rattle.std.specs.Prelude.{◌≡◌, ◌<◌, ◌≤◌, ◌^◌, ◌-ℤ◌, ◌*ℤ◌, ◌+ℤ◌, ℤ, pos, All, length, IfOk, MatchOption};
ghost use Rattle.lin_rows.specs.Transitions.{drop_of};
ghost use Rattle.small_levels.specs.Numbers.{value_of, IsModest};
ghost use Rattle.small_levels.specs.Falls.{AreUnits, IsUnit, part_of, first_of, IsFallList, HasNoFallList};

use crate::wide::Wide;
use lin_rows::Lin;
use std::alloc::{AllocError, Global};

/// The coefficient of a variable, or the constant.
fn part(l: &Lin, at: Option<u32>) -> i128
    ensures { result ≡ part_of l.now at }
{
    match at {
        Some(v) => l.get(v),
        None => l.constant(),
    }
}

/// The coefficient of a variable in a function, whose constant has no part in a difference.
fn first(f: &Lin, at: Option<u32>) -> i128
    ensures { result ≡ first_of f.now at }
{
    match at {
        Some(v) => f.get(v),
        None => 0,
    }
}

/// `from - unit * number`.
fn lowered(from: Wide, unit: i128, number: i128) -> Wide
    requires unit { IsUnit unit }
    requires from { IsModest (value_of from) }
    ensures { value_of result ≡ value_of from -ℤ (unit *ℤ number) }
{
    if unit == 0 {
        from
    } else if unit == 1 {
        from.minus(Wide::of(number))
    } else {
        from.plus(Wide::of(number))
    }
}

/// A coefficient, or the constant, of the difference.
pub fn fall_part(f: &Lin, next: &[Lin], at: Option<u32>) -> Wide
    requires { AreUnits f.now }
    ensures value { value_of result ≡ part_of (drop_of f.now next.now (pos 0)) at }
    ensures modest { IsModest (pos 4 *ℤ value_of result) }
{
    let mut fall = Wide::of(first(f, at));
    let count = (f.len() as usize).min(next.len());
    for j in 0..count {
        fall = lowered(fall, f.get(j as u32), part(&next[j], at));
    }
    fall
}

/// How many coefficients the longest of the expressions has.
fn longest(lins: &[Lin], least: u32) -> u32
    ensures least { least ≤ result }
    ensures each { All (λ l. length l.coefficients ≤ result) lins.now }
{
    let mut longest = least;
    for lin in lins {
        longest = lin.len().max(longest);
    }
    longest
}

/// The coefficients of the difference, where they all fit.
pub fn fall_coefficients(
    alloc: Global,
    f: &Lin,
    next: &[Lin],
) -> Result<Option<Vec<i128>>, AllocError>
    requires { AreUnits f.now }
    ensures { IfOk result (λ answer. MatchOption answer (HasNoFallList f.now next.now) (λ v. IsFallList f.now next.now v.items)) }
{
    let places = longest(next, f.len());
    let mut all = Vec::new(alloc);
    for v in 0..places {
        match fall_part(f, next, Some(v)).narrow() {
            Some(coefficient) => all.push(coefficient)?,
            None => return Ok(None),
        }
    }
    Ok(Some(all))
}
