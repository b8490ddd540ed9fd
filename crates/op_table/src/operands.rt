ghost use Rattle.std.specs.Prelude.{◌≡◌, ◌≤◌, length, OnSome};
ghost use Rattle.std.specs.Option.{option_and_then};
ghost use Rattle.op_table.specs.Layouts.{layout_of, wide_form};
ghost use Rattle.op_table.specs.Grammar.{args_in, plain, plain_if, size_of, widened};

use crate::bytes::{byte_in, int_at, short_in, signed_byte_in, signed_short_in};
use crate::layout::{Operand, layout_of, wide_form};
use crate::{Args, Instr, Op, OpFault};

// The instruction whose operands begin the bytes, where they are all there. So many bytes of it stand
// before them.
pub(crate) fn read_plain(
    pc: u32,
    op: Op,
    wide: bool,
    before: u32,
    bytes: &[u8],
    operand: Operand,
) -> Result<Instr, OpFault>
    requires { before ≤ 2 }
    ensures { result ≡ plain pc op wide before bytes.now operand }
{
    let size = size_of(operand);
    if bytes.len() < size as usize {
        return Err(OpFault::Short { pc });
    }
    Ok(Instr {
        op,
        wide,
        len: before + size,
        args: read_args(bytes, operand),
    })
}

// How many bytes the operands take.
fn size_of(operand: Operand) -> u32
    ensures value { result ≡ size_of operand }
    ensures bound { result ≤ 4 }
{
    match operand {
        Operand::Bare => 0,
        Operand::Byte | Operand::Kind | Operand::Local | Operand::ByteIndex => 1,
        Operand::Short | Operand::Increment | Operand::WideLocal | Operand::Index | Operand::Jump =>
            2,
        Operand::IndexAndByte => 3,
        Operand::WideIncrement | Operand::IndexAndShort | Operand::FarJump => 4,
    }
}

// What the operands say.
fn read_args(bytes: &[u8], operand: Operand) -> Args
    requires { size_of operand ≤ length bytes.now }
    ensures { result ≡ args_in bytes.now operand }
{
    match operand {
        Operand::Bare => Args::None,
        Operand::Byte => Args::Num(i32::from(signed_byte_in(bytes))),
        Operand::Short => Args::Num(i32::from(signed_short_in(bytes))),
        Operand::Kind => Args::Num(i32::from(byte_in(bytes))),
        Operand::Local => Args::Local(u16::from(byte_in(bytes))),
        Operand::Increment => Args::Inc(
            u16::from(byte_in(bytes)),
            i16::from(signed_byte_in(&bytes[1..])),
        ),
        Operand::WideLocal => Args::Local(short_in(bytes)),
        Operand::WideIncrement => Args::Inc(short_in(bytes), signed_short_in(&bytes[2..])),
        Operand::ByteIndex => Args::Index(u16::from(byte_in(bytes))),
        Operand::Index | Operand::IndexAndByte | Operand::IndexAndShort => Args::Index(short_in(
            bytes,
        )),
        Operand::Jump => Args::Jump(i32::from(signed_short_in(bytes))),
        Operand::FarJump => Args::Jump(int_at(bytes, 0)),
    }
}

// The instruction behind `wide`.
pub(crate) fn read_widened(pc: u32, bytes: &[u8]) -> Result<Instr, OpFault>
    ensures { result ≡ widened pc bytes.now }
{
    let [number, bytes @ ..] = bytes else {
        return Err(OpFault::Short { pc });
    };
    let Some(operand) = wide_operand(*number) else {
        return Err(OpFault::UnknownOp { pc, byte: *number });
    };
    read_plain(pc, Op::known(*number), true, 2, bytes, operand)
}

// The operands behind `wide` and an opcode: none where it can't be widened.
fn wide_operand(opcode: u8) -> Option<Operand>
    ensures value { result ≡ option_and_then wide_form (layout_of opcode) }
    ensures bound { OnSome result (opcode ≤ 201) }
{
    wide_form(layout_of(opcode)?)
}
