//! Whether code is sound: of instructions alone, each jump leads to one, and it doesn't go on behind its end.
ghost use Rattle.std.specs.Prelude.{◌≡◌, ◌≤◌, ◌+◌, Ok, length, IfOk, IsTrue};
ghost use Rattle.op_table.specs.Grammar.{instr_at};
ghost use Rattle.code_blocks.specs.Placing.{placed, ArePlaces, is_last};
ghost use Rattle.code_blocks.specs.Successors.{goes_behind, has_bad_target};
ghost use Rattle.code_blocks.specs.Laws.{IsSound};
ghost use Rattle.op_table.specs.Actions.{action_of};
ghost use Rattle.kind_cases.specs.Soundness.{stands};

use code_blocks::{Placed, Places, code_is_laid_out, has_bad_target, placed};
use op_table::action_of;
use op_table::acts::Action;
use std::alloc::{AllocError, Global};

fn goes_behind(action: Action) -> bool
    ensures { result ≡ goes_behind action }
{
    !matches!(
        action,
        Action::Goto(_)
            | Action::Switch { .. }
            | Action::Return(_)
            | Action::ReturnNothing
            | Action::Throw
    )
}

// Whether the instruction stands in sound code as it should.
fn is_well_placed(
    alloc: Global,
    code: &[u8],
    p: &Placed,
    places: &Places,
) -> Result<bool, AllocError>
    requires small { length code.now ≤ 65535 }
    requires stands { instr_at code.now p.now.pc ≡ Ok p.now.instr }
    requires inside { p.now.pc + p.now.instr.len ≤ length code.now }
    requires long { 1 ≤ p.now.instr.len }
    requires places { ArePlaces (placed code.now) places.now }
    ensures { IfOk result (λ well. well ≡ stands code.now p.now) }
{
    if has_bad_target(alloc, code, p, places)? {
        return Ok(false);
    }
    let ends = (p.pc + p.instr.len) as usize >= code.len();
    Ok(!ends || !goes_behind(action_of(&p.instr)))
}

/// Whether the code is sound.
pub fn is_sound(alloc: Global, code: &[u8]) -> Result<bool, AllocError>
    requires { length code.now ≤ 65535 }
    ensures { IfOk result (λ sound. IsTrue sound → IsSound code.now) }
{
    code_is_laid_out();
    let placement = placed(alloc, code)?;
    if placement.broken.is_some() {
        return Ok(false);
    }
    let instructions = placement.instructions.as_slice();
    let places = Places::of(alloc, code.len(), instructions)?;
    for p in instructions {
        if !is_well_placed(alloc, code, p, &places)? {
            return Ok(false);
        }
    }
    Ok(true)
}
