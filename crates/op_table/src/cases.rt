ghost use Rattle.std.specs.Prelude.{◌≡◌, ◌+◌, ◌*◌, ◌<◌, ◌≤◌, ◌+ℤ◌, ◌≤ℤ◌, pos, Some, drop, length};
ghost use Rattle.op_table.specs.Cases.{case_at, case_in, cases_of};
ghost use Rattle.op_table.specs.Grammar.{instr_at, int_at, laid_out, padding, value_of};
ghost use Rattle.op_table.specs.Layouts.{layout_of};

use crate::bytes::{behind, int_at};
use crate::layout::{Layout, layout_of};
use crate::switches::padding;

/// A case of the switch at a place of the code: its value, and the distance of its jump in bytes from
/// the switch's first (JVMS 6.5.tableswitch, 6.5.lookupswitch).
#[tactic(auto, unfolding(crate::specs::Grammar::instr_at, crate::specs::Cases::case_at))]
pub fn case(code: &[u8], pc: u32, i: u32) -> (i32, i32)
    requires inside { pc < length code.now }
    requires small { length code.now ≤ 65535 }
    requires known { i < cases_of (instr_at code.now pc) }
    ensures { result ≡ case_at code.now pc i }
{
    match &code[pc as usize..] {
        [] => (0, 0),
        [opcode, bytes @ ..] => read_case(pc, *opcode, bytes, i),
    }
}

// The case of the opcode's instruction, by the bytes behind it.
fn read_case(pc: u32, opcode: u8, bytes: &[u8], i: u32) -> (i32, i32)
    requires small { length bytes.now < 65536 }
    requires known { i < cases_of (laid_out pc opcode bytes.now (layout_of opcode)) }
    ensures { result ≡ case_in (drop (padding pc) bytes.now) i (laid_out pc opcode bytes.now (layout_of opcode)) }
{
    match layout_of(opcode) {
        Some(layout) => laid_out_case(pc, opcode, bytes, layout, i),
        None => (0, 0),
    }
}

fn laid_out_case(pc: u32, _opcode: u8, bytes: &[u8], layout: Layout, i: u32) -> (i32, i32)
    requires small { length bytes.now < 65536 }
    requires known { i < cases_of (laid_out pc _opcode bytes.now (Some layout)) }
    ensures { result ≡ case_in (drop (padding pc) bytes.now) i (laid_out pc _opcode bytes.now (Some layout)) }
{
    let operands = behind(bytes, padding(pc));
    match layout {
        Layout::TableSwitch => table_case(operands, i),
        Layout::LookupSwitch => pair_at(behind(operands, 8), i),
        Layout::Plain(_) | Layout::Wide => (0, 0),
    }
}

// The case of a `tableswitch`.
fn table_case(operands: &[u8], i: u32) -> (i32, i32)
    requires small { length operands.now < 65536 }
    requires room { 12 + 4 * (i + 1) ≤ length operands.now }
    requires below { (int_at 4 operands.now +ℤ pos i) ≤ℤ int_at 8 operands.now }
    ensures value { result.0 ≡ int_at 4 operands.now +ℤ pos i }
    ensures jump { result.1 ≡ int_at (12 + 4 * i) operands.now }
{
    let (low, high) = (int_at(operands, 4), int_at(operands, 8));
    prove!(i64::from(low) + i64::from(i) <= i64::from(high));
    (low + i as i32, int_at(operands, 12 + 4 * i as usize))
}

// A pair of a `lookupswitch`.
fn pair_at(pairs: &[u8], i: u32) -> (i32, i32)
    requires { 8 * (i + 1) ≤ length pairs.now }
    ensures value { result.0 ≡ value_of i pairs.now }
    ensures jump { result.1 ≡ int_at (4 + 8 * i) pairs.now }
{
    let place = 8 * i as usize;
    (int_at(pairs, place), int_at(pairs, 4 + place))
}
