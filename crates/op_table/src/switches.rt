ghost use Rattle.std.specs.Prelude.{◌≡◌, ◌+◌, ◌*◌, ◌<◌, ◌≤◌, Some, ◌-ℤ◌, length};
ghost use Rattle.op_table.specs.Grammar.{are_rising, lookup_switch, padding, pairs_of, table_of, table_switch, value_of, whole};

use crate::bytes::int_at;
use crate::{Args, Instr, Op, OpFault};

// How many bytes stand between the opcode of a switch and its operands.
pub(crate) fn padding(pc: u32) -> usize
    ensures value { result ≡ padding pc }
    ensures bound { result ≤ 3 }
{
    (3 - pc % 4) as usize
}

// The instruction, whose operands begin the bytes.
pub(crate) fn read_table(pc: u32, op: Op, bytes: &[u8]) -> Result<Instr, OpFault>
    requires { length bytes.now < 65536 }
    ensures { result ≡ table_switch pc op bytes.now }
{
    if bytes.len() < 12 {
        return Err(OpFault::Short { pc });
    }
    match span(int_at(bytes, 4), int_at(bytes, 8)) {
        None => Err(OpFault::BadSwitch { pc }),
        Some(span) => read_jumps(pc, op, bytes, span),
    }
}

// The instruction, whose greatest value is so far above the least.
fn read_jumps(pc: u32, op: Op, bytes: &[u8], span: u32) -> Result<Instr, OpFault>
    requires small { length bytes.now < 65536 }
    requires head { 12 ≤ length bytes.now }
    ensures { result ≡ table_of pc op bytes.now (Some span) }
{
    if ((bytes.len() - 12) as u64) < 4 * (u64::from(span) + 1) {
        return Err(OpFault::Short { pc });
    }
    let count = span + 1;
    let args = Args::Switch {
        default: int_at(bytes, 0),
        low: int_at(bytes, 4),
        count,
        pairs: false,
    };
    let len = 13 + padding(pc) as u32 + 4 * count;
    Ok(Instr {
        op,
        wide: false,
        len,
        args,
    })
}

// How far the greatest value is above the least: none where it is below.
fn span(low: i32, high: i32) -> Option<u32>
    ensures { result ≡ whole (high -ℤ low) }
{
    if high < low {
        None
    } else {
        Some(high.abs_diff(low))
    }
}

// The instruction, whose operands begin the bytes.
pub(crate) fn read_lookup(pc: u32, op: Op, bytes: &[u8]) -> Result<Instr, OpFault>
    requires { length bytes.now < 65536 }
    ensures { result ≡ lookup_switch pc op bytes.now }
{
    if bytes.len() < 8 {
        return Err(OpFault::Short { pc });
    }
    match count_of(int_at(bytes, 4)) {
        None => Err(OpFault::BadSwitch { pc }),
        Some(count) => read_pairs(pc, op, bytes, count),
    }
}

// The instruction, which has so many pairs.
fn read_pairs(pc: u32, op: Op, bytes: &[u8], count: u32) -> Result<Instr, OpFault>
    requires small { length bytes.now < 65536 }
    requires head { 8 ≤ length bytes.now }
    ensures { result ≡ pairs_of pc op bytes.now (Some count) }
{
    let pairs = &bytes[8..];
    if (pairs.len() as u64) < 8 * u64::from(count) {
        return Err(OpFault::Short { pc });
    }
    if !are_rising(pairs, count) {
        return Err(OpFault::BadSwitch { pc });
    }
    let args = Args::Switch {
        default: int_at(bytes, 0),
        low: 0,
        count,
        pairs: true,
    };
    let len = 9 + padding(pc) as u32 + 8 * count;
    Ok(Instr {
        op,
        wide: false,
        len,
        args,
    })
}

// A number of pairs: none where it is below 0.
fn count_of(count: i32) -> Option<u32>
    ensures { result ≡ whole count }
{
    if count < 0 {
        None
    } else {
        Some(count.unsigned_abs())
    }
}

// Whether the values of the first pairs rise.
fn are_rising(pairs: &[u8], count: u32) -> bool
    requires { 8 * count ≤ length pairs.now }
    ensures { result ≡ are_rising count pairs.now }
{
    for k in 1..count as usize {
        if value_of(pairs, k) <= value_of(pairs, k - 1) {
            return false;
        }
    }
    true
}

// The value of a pair.
fn value_of(pairs: &[u8], i: usize) -> i32
    requires { 8 * (i + 1) ≤ length pairs.now }
    ensures { result ≡ value_of i pairs.now }
{
    int_at(pairs, 8 * i)
}
