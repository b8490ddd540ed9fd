//! What a call takes from the operand stack (JVMS 2.6.1).

ghost use Rattle.std.specs.Prelude.{◌≡◌, option_map};
ghost use Rattle.frames.specs.Heap.{is_of_type};
ghost use Rattle.descriptors.specs.Pieces.{types_of, parameters_of};
ghost use Rattle.steps.specs.Calling.{are_arguments, are_words, next_value, receiver_words};
ghost use Rattle.frames.specs.Words.{is_reference};
ghost use Rattle.steps.specs.inside.Stepping.{are_received, behind_value};

use descriptors::{behind_open, first_type};
use frames::{Heap, Value, is_of_type, is_reference};
use op_table::acts::Call;
use world::World;

// The value that words in the order of locals begin with, and the words behind it.
fn next_value(words: &[Value]) -> Option<(Value, &[Value])>
    ensures { option_map (λ r. record { value = r.0; rest = r.1.now }) result ≡ next_value words.now }
{
    match words {
        [] => None,
        [Value::Long(n), Value::Pad, rest @ ..] => Some((Value::Long(*n), rest)),
        [Value::Long(_), ..] => None,
        [word, rest @ ..] => Some((*word, rest)),
    }
}

// The words behind the first value, where it is of the type.
fn behind_value<'w>(
    world: &World,
    heap: &Heap,
    desc: &[u8],
    words: &'w [Value],
) -> Option<&'w [Value]>
    ensures { option_map (λ r. r.now) result ≡ behind_value (is_of_type world.now heap.now desc.now) (next_value words.now) }
{
    let Some((value, rest)) = next_value(words) else {
        return None;
    };
    if is_of_type(world, heap, desc, value) {
        Some(rest)
    } else {
        None
    }
}

// Whether words are those of values of the types, in order.
#[tactic(auto, using(crate::proofs::Arguments::none_left, crate::proofs::Arguments::some_left, crate::proofs::Arguments::no_type))]
fn are_arguments(world: &World, heap: &Heap, types: &[u8], words: &[Value]) -> bool
    ensures { result ≡ are_arguments world.now heap.now (types_of types.now) words.now }
{
    let mut left = types;
    let mut rest = words;
    while let Some((desc, behind)) = first_type(left) {
        let Some(after) = behind_value(world, heap, desc, rest) else {
            return false;
        };
        rest = after;
        left = behind;
    }
    rest.is_empty()
}

// A receiver stands before the arguments, where the call isn't static.
pub(crate) fn receiver_words(kind: Call) -> usize
    ensures { result ≡ receiver_words kind }
{
    match kind {
        Call::Static => 0,
        _ => 1,
    }
}

// Whether words are a reference and those of values of the types.
fn are_received(world: &World, heap: &Heap, types: &[u8], words: &[Value]) -> bool
    ensures { result ≡ are_received world.now heap.now (types_of types.now) words.now }
{
    match words {
        [] => false,
        [first, rest @ ..] => is_reference(*first) && are_arguments(world, heap, types, rest),
    }
}

// Whether words are those of a call of a method with this descriptor.
pub(crate) fn are_words(
    world: &World,
    heap: &Heap,
    kind: Call,
    desc: &[u8],
    words: &[Value],
) -> bool
    ensures { result ≡ are_words world.now heap.now kind (parameters_of desc.now) words.now }
{
    let types = behind_open(desc);
    match kind {
        Call::Static => are_arguments(world, heap, types, words),
        Call::Virtual => are_received(world, heap, types, words),
        Call::Special => are_received(world, heap, types, words),
        Call::Interface => are_received(world, heap, types, words),
    }
}
