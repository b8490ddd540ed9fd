ghost use Rattle.std.specs.Prelude.{◌≡◌, not, neg_ℤ, false};
ghost use Rattle.op_table.specs.declared.acts.Width.TheVariants as widths;
ghost use Rattle.word_steps.specs.Numbers.{combined, compared, distance, exact, fits, shifted, throws, wrapped, wraps};

use op_table::acts::{Arithmetic, Logic, Shift};

// What an operation gives in a long, and whether the exact result is told not to fit (JVMS 6.5.ladd and its kin).
pub(crate) fn compute(op: Arithmetic, x: i64, y: i64) -> (i64, bool)
    requires { throws op y ≡ false }
    ensures value { result.0 ≡ wrapped widths.Long (exact op x y) }
    ensures wraps { result.1 ≡ wraps op widths.Long (exact op x y) }
{
    match op {
        Arithmetic::Add => x.overflowing_add(y),
        Arithmetic::Subtract => x.overflowing_sub(y),
        Arithmetic::Multiply => x.overflowing_mul(y),
        Arithmetic::Divide => (x.wrapping_div(y), false),
        Arithmetic::Remainder => (x.wrapping_rem(y), false),
    }
}

// The negative in a long, and whether the exact one doesn't fit (JVMS 6.5.lneg).
pub(crate) fn negate(x: i64) -> (i64, bool)
    ensures value { result.0 ≡ wrapped widths.Long (neg_ℤ x) }
    ensures wraps { result.1 ≡ not (fits widths.Long (neg_ℤ x)) }
{
    x.overflowing_neg()
}

// A number moved by the low six bits of an int (JVMS 6.5.lshl and its kin).
pub(crate) fn shift(way: Shift, x: i64, by: i32) -> i64
    ensures { result ≡ shifted way widths.Long x (distance widths.Long by) }
{
    let places = by.cast_unsigned() % 64;
    match way {
        Shift::Left => x << places,
        Shift::Right => x >> places,
        Shift::UnsignedRight => (x.cast_unsigned() >> places).cast_signed(),
    }
}

// What the bits of two longs make (JVMS 6.5.land and its kin).
pub(crate) fn combine(logic: Logic, x: i64, y: i64) -> i64
    ensures { result ≡ combined logic widths.Long x y }
{
    match logic {
        Logic::And => x & y,
        Logic::Or => x | y,
        Logic::Xor => x ^ y,
    }
}

// 1 where the first long is greater, -1 where it is less, and else 0 (JVMS 6.5.lcmp).
pub(crate) fn compare(x: i64, y: i64) -> i32
    ensures { result ≡ compared x y }
{
    if x > y {
        1
    } else if x < y {
        -1
    } else {
        0
    }
}

// What is left of a long in an int (JVMS 6.5.l2i).
#[tactic(auto, using(crate::proofs::Division::low_wraps))]
pub(crate) fn low_int(x: i64) -> i32
    ensures { result ≡ wrapped widths.Int x }
{
    let low = (x.cast_unsigned() % 4_294_967_296) as u32;
    low.cast_signed()
}
