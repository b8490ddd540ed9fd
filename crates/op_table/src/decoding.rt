ghost use Rattle.std.specs.Prelude.{◌≡◌, ◌<◌, ◌≤◌, length};
ghost use Rattle.op_table.specs.Grammar.{instr_at, laid_out};
ghost use Rattle.op_table.specs.Layouts.{layout_of};

use crate::bytes::behind;
use crate::layout::{Layout, layout_of};
use crate::operands::{read_plain, read_widened};
use crate::switches::{padding, read_lookup, read_table};
use crate::{Instr, Op, OpFault};

/// The instruction at a place of the code, or why none stands there (JVMS 6.5).
#[tactic(auto, unfolding(crate::specs::Grammar::instr_at))]
pub fn decode(code: &[u8], pc: u32) -> Result<Instr, OpFault>
    requires inside { pc < length code.now }
    requires small { length code.now ≤ 65535 }
    ensures { result ≡ instr_at code.now pc }
{
    match &code[pc as usize..] {
        [] => Err(OpFault::Short { pc }),
        [opcode, bytes @ ..] => read_opcode(pc, *opcode, bytes),
    }
}

// The instruction of an opcode, by the bytes behind it.
fn read_opcode(pc: u32, opcode: u8, bytes: &[u8]) -> Result<Instr, OpFault>
    requires { length bytes.now < 65536 }
    ensures { result ≡ laid_out pc opcode bytes.now (layout_of opcode) }
{
    let Some(layout) = layout_of(opcode) else {
        return Err(OpFault::UnknownOp { pc, byte: opcode });
    };
    let op = Op::known(opcode);
    match layout {
        Layout::Plain(operand) => read_plain(pc, op, false, 1, bytes, operand),
        Layout::TableSwitch => read_table(pc, op, behind(bytes, padding(pc))),
        Layout::LookupSwitch => read_lookup(pc, op, behind(bytes, padding(pc))),
        Layout::Wide => read_widened(pc, bytes),
    }
}
