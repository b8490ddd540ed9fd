ghost use Rattle.std.specs.Prelude.{◌≡◌, ◌≤◌, length, IfOk, Contains};
ghost use Rattle.code_blocks.specs.Laws.{IsLaidOut};
ghost use Rattle.method_body.specs.Bodies.{HasSoundCode, IsBody};

use class_pool::Sequence;
use class_reader::{ClassRecord, Code, Method};
use code_blocks::{Block, Instruction, blocks, code_is_laid_out, instructions};
use std::alloc::{AllocError, Global};
use std::marker::Model;

/// A method of a class with its code: each jump of it leads to an instruction, and it doesn't go on behind its end.
/// Contracts see the class, the method, the code, the instructions in order with their successors, and the blocks that
/// successors lead to from the beginning.
#[derive(Drop)]
pub struct Body<'c> {
    class: &'c ClassRecord,
    method: &'c Method,
    code: &'c Code,
    instructions: Vec<Instruction>,
    blocks: Sequence<Block>,
}

impl<'c> Model for Body<'c> {
    ghost use Rattle.method_body.specs.Bodies.{MethodBody, IsBody};

    ghost Value = { MethodBody };

    ghost view = { λ b. record { class = b.class.now; method = b.method.now; code = b.code.now; instructions = b.instructions.items; blocks = b.blocks } };

    ghost invariant = { λ b. IsBody (record { class = b.class.now; method = b.method.now; code = b.code.now; instructions = b.instructions.items; blocks = b.blocks }) };
}

impl<'c> Body<'c> {
    /// The body of a method of the class, which has this sound code.
    pub fn new(
        alloc: Global,
        class: &'c ClassRecord,
        method: &'c Method,
        code: &'c Code,
    ) -> Result<Body<'c>, AllocError>
        requires declared { Contains class.now.methods method.now }
        requires sound { HasSoundCode method.now code.now }
        ensures class { IfOk result (λ b. b.class ≡ class.now) }
        ensures method { IfOk result (λ b. b.method ≡ method.now) }
        ensures code { IfOk result (λ b. b.code ≡ code.now) }
    {
        code_is_laid_out();
        let bytes = code.bytes.as_slice();
        let instructions = instructions(alloc, bytes)?;
        let blocks = blocks(alloc, bytes.len() as u32, instructions.as_slice())?;
        Ok(Body {
            class,
            method,
            code,
            instructions,
            blocks,
        })
    }

    /// The class that declares the method, whose constant pool the instructions' operands name entries of.
    pub fn class(&self) -> &ClassRecord
        ensures { result.now ≡ self.now.class }
    {
        self.class
    }

    /// The method: its flags, its name and its descriptor.
    pub fn method(&self) -> &Method
        ensures { result.now ≡ self.now.method }
    {
        self.method
    }

    /// The method's code: its bytes, and how many words its locals and its operand stack take at most.
    pub fn code(&self) -> &Code
        ensures { result.now ≡ self.now.code }
    {
        self.code
    }

    /// The instructions in order, each with the places of those that can come next.
    pub fn instructions(&self) -> &[Instruction]
        ensures { result.now ≡ self.now.instructions }
    {
        self.instructions.as_slice()
    }

    /// The blocks in order that successors lead to from the beginning of the code.
    pub fn blocks(&self) -> &[Block]
        ensures { result.now ≡ self.now.blocks }
    {
        self.blocks.as_slice()
    }

    /// A law: what a body is. Does nothing.
    pub fn well_made(&self)
        ensures body { IsBody self.now }
        ensures laid_out { IsLaidOut self.now.instructions }
    {
        code_is_laid_out();
        let _ = &self.blocks;
    }
}
