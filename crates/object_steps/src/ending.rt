//! How an instruction on objects and arrays goes on, where there is room for what it leaves (JVMS 4.7.3).

ghost use Rattle.std.specs.Prelude.{◌≡◌, ◌≤◌, ◌+◌, ◌-◌, ◌&&◌, nat_le, nat_lt, length, drop, OnErr, IfOk};
ghost use Rattle.frames.specs.Outcome.{HasGone};
ghost use Rattle.object_steps.specs.After.{does, reads};

use frames::{Failure, Fetched, Going, Here, Stop, Value, has_space, put, width_of};
use std::alloc::AllocError;

pub(crate) const MISFIT: Failure = Failure::Stops(Stop::Shape);

pub(crate) const MISFITS: Going = Going::Fails(MISFIT);

// Whether the frame can go on behind the instruction when so many words are taken and others given.
pub(crate) fn has_room(fetched: &Fetched<'_>, here: &Here, taken: usize, given: usize) -> bool
    requires { taken ≤ length here.now.frame.stack }
    ensures { result ≡ (nat_le (length here.now.frame.stack - taken + given) fetched.now.standing.code.max_stack && nat_lt fetched.now.next (length fetched.now.standing.code.bytes)) }
{
    let limit = usize::from(fetched.code.max_stack);
    has_space(here.frame.stack.len(), taken, given, limit)
        && (fetched.next as usize) < fetched.code.bytes.len()
}

// Puts a value that was read in the place of so many words, and goes on; or fails as it is told. An `Err` changes
// nothing.
#[tactic(auto, using(word_steps::proofs::Changes::pushed_long))]
pub(crate) fn push_read(
    read: Result<Value, Failure>,
    taken: usize,
    fetched: &Fetched<'_>,
    here: &mut Here,
) -> Result<Going, AllocError>
    requires next { fetched.now.next ≡ here.old.frame.pc + fetched.now.standing.instr.len }
    requires taken { IfOk read (λ _. taken ≤ length here.old.frame.stack) }
    ensures gone { IfOk result (λ going. HasGone going here.old here.new (does fetched.now.standing here.old (reads here.old (drop taken here.old.frame.stack) read))) }
    ensures err { OnErr result (here.new ≡ here.old) }
{
    let value = match read {
        Err(failure) => return Ok(Going::Fails(failure)),
        Ok(value) => value,
    };
    if !has_room(fetched, here, taken, width_of(value)) {
        return Ok(MISFITS);
    }
    put(taken, value, &mut here.frame.stack)?;
    here.frame.pc = fetched.next;
    Ok(Going::Goes)
}
