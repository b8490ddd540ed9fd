use crate::Op;

/// An instruction that stands in code (JVMS 6.5).
#[derive(Clone, Copy, Debug, PartialEq, Eq)]
pub struct Instr {
    /// The opcode; behind `wide`, the one that `wide` stands before.
    pub op: Op,
    /// Whether `wide` stands before the opcode.
    pub wide: bool,
    /// How many bytes it takes, operands and `wide` included.
    pub len: u32,
    pub args: Args,
}

/// What the operands of an instruction say.
#[derive(Clone, Copy, Debug, PartialEq, Eq)]
pub enum Args {
    /// No operand, or one that the opcode itself stands for.
    None,
    /// The number of `bipush`, `sipush` and `newarray`.
    Num(i32),
    /// A local.
    Local(u16),
    /// A local, and what is added to it.
    Inc(u16, i16),
    /// A place of the constant pool.
    Index(u16),
    /// The distance of a jump, in bytes from the instruction's first.
    Jump(i32),
    /// A switch of `count` cases. Distances are in bytes from the instruction's first. A `tableswitch` has
    /// the values from `low` on; a `lookupswitch` has `pairs`, and 0 for `low`.
    Switch {
        default: i32,
        low: i32,
        count: u32,
        pairs: bool,
    },
}

/// Why no instruction stands at a place of the code.
#[derive(Clone, Copy, Debug, PartialEq, Eq)]
pub enum OpFault {
    /// The instruction passes the end of the code.
    Short { pc: u32 },
    /// The byte is no opcode, or `wide` stands before it and it can't be widened.
    UnknownOp { pc: u32, byte: u8 },
    /// The greatest value of a `tableswitch` is below its least, a `lookupswitch` has fewer than 0 pairs, or
    /// the values of its pairs don't rise.
    BadSwitch { pc: u32 },
}
