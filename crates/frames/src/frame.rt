use crate::{Locals, Stack, Value};
use world::MemberId;

/// The frame of a method (JVMS 2.6).
#[derive(Drop)]
pub struct Frame {
    pub method: MemberId,
    /// Where the instruction that comes next stands in the method's code.
    pub pc: u32,
    pub locals: Locals,
    pub stack: Stack<Value>,
}
