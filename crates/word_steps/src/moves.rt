//! Moves of words on the operand stack (JVMS 6.5.pop to 6.5.swap).

ghost use Rattle.std.specs.Prelude.{◌≡◌, ◌≤◌, ◌+◌, drop, is_some, Some, OnOk, OnErr, IsSome};
ghost use Rattle.frames.specs.Words.{below_size, is_whole, shuffled, top_size};
ghost use Rattle.word_steps.specs.inside.Change.{is_lowest, moved_size, word_at};

use frames::{Stack, Value};
use op_table::acts::Shuffle;
use std::alloc::AllocError;

// Whether the words on top can be moved: no long is taken apart.
pub(crate) fn can_move(shuffle: Shuffle, stack: &Stack<Value>) -> bool
    ensures { result ≡ is_some (shuffled shuffle stack.now) }
{
    let (top, below) = (top_size(shuffle), below_size(shuffle));
    is_whole(top, 0, stack) && is_whole(below, top, stack)
}

// How many words the group on top has.
fn top_size(shuffle: Shuffle) -> usize
    ensures size { result ≡ top_size shuffle }
    ensures few { result ≤ 2 }
{
    match shuffle {
        Shuffle::Pop | Shuffle::Dup | Shuffle::DupX1 | Shuffle::DupX2 | Shuffle::Swap => 1,
        Shuffle::Pop2 | Shuffle::Dup2 | Shuffle::Dup2X1 | Shuffle::Dup2X2 => 2,
    }
}

// How many words the group below it has.
fn below_size(shuffle: Shuffle) -> usize
    ensures size { result ≡ below_size shuffle }
    ensures few { result ≤ 2 }
{
    match shuffle {
        Shuffle::Pop | Shuffle::Pop2 | Shuffle::Dup | Shuffle::Dup2 => 0,
        Shuffle::DupX1 | Shuffle::Dup2X1 | Shuffle::Swap => 1,
        Shuffle::DupX2 | Shuffle::Dup2X2 => 2,
    }
}

#[tactic(auto, using(crate::proofs::Groups::whole_at))]
// Whether so many words, so many below the top, are there and don't take a long apart.
fn is_whole(count: usize, depth: usize, stack: &Stack<Value>) -> bool
    requires few { count ≤ 2 }
    requires near { depth ≤ 2 }
    ensures { result ≡ is_whole count (drop depth stack.now) }
{
    count == 0 || is_lowest(stack.get(depth + count - 1))
}

// Whether a word can be the lowest of a group.
fn is_lowest(word: Option<Value>) -> bool
    ensures { result ≡ is_lowest word }
{
    match word {
        None | Some(Value::Pad) => false,
        Some(_) => true,
    }
}

// How many words a move takes off the stack.
pub(crate) fn taken_words(shuffle: Shuffle) -> usize
    ensures { result ≡ top_size shuffle + below_size shuffle }
{
    match shuffle {
        Shuffle::Pop | Shuffle::Dup => 1,
        Shuffle::Pop2 | Shuffle::DupX1 | Shuffle::Dup2 | Shuffle::Swap => 2,
        Shuffle::DupX2 | Shuffle::Dup2X1 => 3,
        Shuffle::Dup2X2 => 4,
    }
}

// How many words a move puts on the stack.
pub(crate) fn moved_words(shuffle: Shuffle) -> usize
    ensures { result ≡ moved_size shuffle }
{
    match shuffle {
        Shuffle::Pop | Shuffle::Pop2 => 0,
        Shuffle::Dup | Shuffle::Swap => 2,
        Shuffle::DupX1 => 3,
        Shuffle::DupX2 | Shuffle::Dup2 => 4,
        Shuffle::Dup2X1 => 5,
        Shuffle::Dup2X2 => 6,
    }
}

#[tactic(auto, using(crate::proofs::Changes::moved))]
// Moves the words on top. An `Err` changes nothing.
pub(crate) fn move_words(shuffle: Shuffle, stack: &mut Stack<Value>) -> Result<(), AllocError>
    requires { IsSome (shuffled shuffle stack.old) }
    ensures ok { OnOk result (shuffled shuffle stack.old ≡ Some stack.new) }
    ensures err { OnErr result (stack.new ≡ stack.old) }
{
    let (a, b, c, d) = (
        word(stack, 0),
        word(stack, 1),
        word(stack, 2),
        word(stack, 3),
    );
    match shuffle {
        Shuffle::Pop => stack.replace(1, [].as_slice()),
        Shuffle::Pop2 => stack.replace(2, [].as_slice()),
        Shuffle::Dup => stack.replace(1, [a, a].as_slice()),
        Shuffle::DupX1 => stack.replace(2, [a, b, a].as_slice()),
        Shuffle::DupX2 => stack.replace(3, [a, c, b, a].as_slice()),
        Shuffle::Dup2 => stack.replace(2, [b, a, b, a].as_slice()),
        Shuffle::Dup2X1 => stack.replace(3, [b, a, c, b, a].as_slice()),
        Shuffle::Dup2X2 => stack.replace(4, [b, a, d, c, b, a].as_slice()),
        Shuffle::Swap => stack.replace(2, [a, b].as_slice()),
    }
}

// The word that lies so many below the top: where there is none, one that holds nothing.
fn word(stack: &Stack<Value>, depth: usize) -> Value
    ensures { result ≡ word_at stack.now depth }
{
    stack.get(depth).unwrap_or(Value::Pad)
}
