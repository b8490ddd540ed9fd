use class_pool::Sequence;
use op_table::Instr;

/// An instruction that stands in code, and the place of its first byte.
#[derive(Clone, Copy)]
pub struct Placed {
    pub pc: u32,
    pub instr: Instr,
}

/// The instructions of a method's code in order, and the place behind them at which none stands, before the end.
#[derive(Drop)]
pub struct Placement {
    pub instructions: Sequence<Placed>,
    pub broken: Option<u32>,
}

/// An instruction with its place and the places of those that can come next, which rise.
#[derive(Drop)]
pub struct Instruction {
    pub pc: u32,
    pub instr: Instr,
    pub successors: Sequence<u32>,
}

/// A block: instructions of which each but the last leads to the next one alone, and of which only the first can be
/// jumped to. By the places of the first and the last one in the list of the method's instructions.
#[derive(Drop)]
pub struct Block {
    /// Where the first one stands in the code.
    pub pc: u32,
    pub first: u32,
    pub last: u32,
    /// Where the blocks begin that can come next, which rise: each once, however many ways lead there.
    pub successors: Sequence<u32>,
}
