//! What an instruction is to do to the words of a frame.

ghost use Rattle.std.specs.Prelude.{◌≡◌, ◌≤◌, ◌+◌, ◌-◌, nat_le, length, drop, Some, OnOk, OnErr, IsSome};
ghost use Rattle.frames.specs.Words.{pushed, shuffled, top_size, below_size, width_of};
ghost use Rattle.word_steps.specs.inside.Change.{changed, moved_size, word_at, taken_by, given_by, IsHeld, IsPossible, IsTold, IsChanged};

use crate::moves::{move_words, moved_words, taken_words};
use frames::{Frame, Value, has_space, put, width_of};
use op_table::acts::Shuffle;
use std::alloc::AllocError;

// What an instruction is to do to the words of a frame.
#[derive(Clone, Copy)]
pub(crate) enum Change {
    Keeps,
    // Puts a value in the place of so many words.
    Pushes {
        drops: usize,
        value: Value,
        wraps: bool,
    },
    // Takes so many words off, and puts a value into a local.
    Stores {
        drops: usize,
        local: u16,
        value: Value,
    },
    Moves(Shuffle),
    // Puts an int into a local.
    Sets {
        local: u16,
        number: i32,
        wraps: bool,
    },
}

// Whether the exact result is told not to fit its type.
#[tactic(auto, using(crate::proofs::Changes::told_store, crate::proofs::Changes::told_move))]
pub(crate) fn is_told(change: Change, frame: &Frame) -> bool
    ensures { IsTold result (changed change frame.now.locals frame.now.stack) }
{
    match change {
        Change::Pushes { wraps, .. } | Change::Sets { wraps, .. } => wraps,
        _ => false,
    }
}

// Whether the stack has at most so many words after a change.
#[tactic(auto, using(crate::proofs::Changes::held_after, crate::proofs::Changes::taken_within))]
pub(crate) fn is_held(change: Change, frame: &Frame, limit: u16) -> bool
    requires { IsPossible change frame.now.locals frame.now.stack }
    ensures { IsHeld result limit (changed change frame.now.locals frame.now.stack) }
{
    has_space(
        frame.stack.len(),
        taken_by(change),
        given_by(change),
        usize::from(limit),
    )
}

// How many words a change takes off the stack.
fn taken_by(change: Change) -> usize
    ensures { result ≡ taken_by change }
{
    match change {
        Change::Keeps | Change::Sets { .. } => 0,
        Change::Pushes { drops, .. } | Change::Stores { drops, .. } => drops,
        Change::Moves(shuffle) => taken_words(shuffle),
    }
}

// How many words a change puts on the stack.
fn given_by(change: Change) -> usize
    ensures { result ≡ given_by change }
{
    match change {
        Change::Keeps | Change::Stores { .. } | Change::Sets { .. } => 0,
        Change::Pushes { value, .. } => width_of(value),
        Change::Moves(shuffle) => moved_words(shuffle),
    }
}

// Changes the words of the frame. An `Err` changes nothing.
pub(crate) fn apply(change: Change, frame: &mut Frame) -> Result<(), AllocError>
    requires { IsPossible change frame.old.locals frame.old.stack }
    ensures ok { OnOk result (IsChanged frame.old frame.new (changed change frame.old.locals frame.old.stack)) }
    ensures err { OnErr result (frame.new ≡ frame.old) }
{
    match change {
        Change::Keeps => Ok(()),
        Change::Pushes { drops, value, .. } => put(drops, value, &mut frame.stack),
        Change::Stores {
            drops,
            local,
            value,
        } => {
            frame.stack.replace(drops, [].as_slice())?;
            frame.locals.store(local, value);
            Ok(())
        }
        Change::Moves(shuffle) => move_words(shuffle, &mut frame.stack),
        Change::Sets { local, number, .. } => {
            frame.locals.set(usize::from(local), Value::Int(number));
            Ok(())
        }
    }
}
