ghost use Rattle.std.specs.Prelude.{◌≡◌, ◌⊎◌, not, pos, neg_ℤ, false};
ghost use Rattle.op_table.specs.declared.acts.Width.TheVariants as widths;
ghost use Rattle.word_steps.specs.Numbers.{combined, distance, exact, fits, narrowed, shifted, signed_below, throws, wrapped, wraps};

use op_table::acts::{Arithmetic, Logic, Shift, Small};

// What an operation gives in an int, and whether the exact result is told not to fit (JVMS 6.5.iadd and its kin).
pub(crate) fn compute(op: Arithmetic, x: i32, y: i32) -> (i32, bool)
    requires { throws op y ≡ false }
    ensures value { result.0 ≡ wrapped widths.Int (exact op x y) }
    ensures wraps { result.1 ≡ wraps op widths.Int (exact op x y) }
{
    match op {
        Arithmetic::Add => x.overflowing_add(y),
        Arithmetic::Subtract => x.overflowing_sub(y),
        Arithmetic::Multiply => x.overflowing_mul(y),
        Arithmetic::Divide => (x.wrapping_div(y), false),
        Arithmetic::Remainder => (x.wrapping_rem(y), false),
    }
}

// The negative in an int, and whether the exact one doesn't fit (JVMS 6.5.ineg).
pub(crate) fn negate(x: i32) -> (i32, bool)
    ensures value { result.0 ≡ wrapped widths.Int (neg_ℤ x) }
    ensures wraps { result.1 ≡ not (fits widths.Int (neg_ℤ x)) }
{
    x.overflowing_neg()
}

// A number moved by the low five bits of another (JVMS 6.5.ishl and its kin).
pub(crate) fn shift(way: Shift, x: i32, by: i32) -> i32
    ensures { result ≡ shifted way widths.Int x (distance widths.Int by) }
{
    let places = by.cast_unsigned() % 32;
    match way {
        Shift::Left => x << places,
        Shift::Right => x >> places,
        Shift::UnsignedRight => (x.cast_unsigned() >> places).cast_signed(),
    }
}

// What the bits of two ints make (JVMS 6.5.iand and its kin).
pub(crate) fn combine(logic: Logic, x: i32, y: i32) -> i32
    ensures { result ≡ combined logic widths.Int x y }
{
    match logic {
        Logic::And => x & y,
        Logic::Or => x | y,
        Logic::Xor => x ^ y,
    }
}

// What is left of an int in a byte, a char or a short (JVMS 6.5.i2b and its kin).
pub(crate) fn narrow(small: Small, x: i32) -> i32
    ensures { result ≡ narrowed small x }
{
    match small {
        Small::Byte => low_bits(x, 256),
        Small::Char => x.rem_euclid(65536),
        Small::Short => low_bits(x, 65536),
    }
}

// What is left below a power of two, with a sign.
fn low_bits(x: i32, limit: i32) -> i32
    requires { (limit ≡ pos 256) ⊎ (limit ≡ pos 65536) }
    ensures { result ≡ signed_below limit x }
{
    let low = x.rem_euclid(limit);
    if low < limit / 2 { low } else { low - limit }
}
