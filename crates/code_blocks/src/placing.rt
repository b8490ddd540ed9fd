//! The instructions of code, one behind another.

ghost use Rattle.std.specs.Prelude.{◌≡◌, ◌≤◌, length, IfOk};
ghost use Rattle.code_blocks.specs.Placing.{placement_of};

use crate::instruction::{Placed, Placement};
use class_pool::Sequence;
use op_table::{decode, instrs_fit};
use std::alloc::{AllocError, Global};

/// The instructions of a method's code in order, and the place behind them at which none stands, before the end.
pub fn placed(alloc: Global, code: &[u8]) -> Result<Placement, AllocError>
    requires { length code.now ≤ 65535 }
    ensures { IfOk result (λ p. p ≡ placement_of code.now) }
{
    instrs_fit();
    let mut instructions = Sequence::new(alloc);
    let mut pc: u32 = 0;
    for _ in 0..code.len() {
        if !((pc as usize) < code.len()) {
            return Ok(Placement {
                instructions,
                broken: None,
            });
        }
        match decode(code, pc) {
            Ok(instr) => {
                let len = instr.len;
                instructions.push(Placed { pc, instr })?;
                pc += len;
            }
            Err(_) => {
                return Ok(Placement {
                    instructions,
                    broken: Some(pc),
                });
            }
        }
    }
    Ok(Placement {
        instructions,
        broken: None,
    })
}
