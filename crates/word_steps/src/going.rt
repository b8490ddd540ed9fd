//! Instructions that change words alone, made where there is room for what they push (JVMS 4.7.3).

ghost use Rattle.std.specs.Prelude.{◌≡◌, OnErr, IfOk};
ghost use Rattle.word_steps.specs.Computing.{words_after};
ghost use Rattle.word_steps.specs.inside.Change.{IsPossible, changed, settled};

use crate::change::{Change, apply, is_held, is_told};
use crate::computing::change_of;
use class_pool::Pool;
use class_reader::Code;
use frames::{Failure, Frame, Going, Stop};
use op_table::acts::Action;
use std::alloc::AllocError;

/// Does an instruction that changes words alone, behind which the code goes on at next. An `Err` changes nothing.
pub fn go_on(
    pool: &Pool,
    action: Action,
    code: &Code,
    next: u32,
    frame: &mut Frame,
) -> Result<Going, AllocError>
    ensures made { IfOk result (λ going.
        settled code.now next frame.old (words_after pool.now action frame.old.locals frame.old.stack) ≡ (going, frame.new)) }
    ensures err { OnErr result (frame.new ≡ frame.old) }
{
    match change_of(pool, action, frame) {
        Err(failure) => Ok(Going::Fails(failure)),
        Ok(change) => change_words(change, code, next, frame),
    }
}

#[tactic(auto, using(crate::proofs::Changes::settled_by))]
// Changes the words where there is room for them, and goes on. An `Err` changes nothing.
fn change_words(
    change: Change,
    code: &Code,
    next: u32,
    frame: &mut Frame,
) -> Result<Going, AllocError>
    requires { IsPossible change frame.old.locals frame.old.stack }
    ensures made { IfOk result (λ going.
        settled code.now next frame.old (changed change frame.old.locals frame.old.stack) ≡ (going, frame.new)) }
    ensures err { OnErr result (frame.new ≡ frame.old) }
{
    let held = is_held(change, frame, code.max_stack);
    let inside = (next as usize) < code.bytes.len();
    if !(held && inside) {
        return Ok(Going::Fails(Failure::Stops(Stop::Shape)));
    }
    let told = is_told(change, frame);
    apply(change, frame)?;
    frame.pc = next;
    Ok(if told { Going::Wraps } else { Going::Goes })
}
