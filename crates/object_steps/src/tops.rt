//! References and indices on the operand stack (JVMS 2.6.2).

ghost use Rattle.std.specs.Prelude.{◌≡◌, ◌≤◌};
ghost use Rattle.object_steps.specs.inside.Steps.{HasPlace, HasReference, place_in, reference_in};

use frames::{Stack, Value};

// The word, where it is a reference.
fn reference_in(word: Option<Value>) -> Option<Value>
    ensures { result ≡ reference_in word }
{
    match word {
        Some(Value::Null) => Some(Value::Null),
        Some(Value::Ref(r)) => Some(Value::Ref(r)),
        _ => None,
    }
}

// The reference that lies so many words below the top.
#[tactic(auto, using(crate::proofs::OnTop::reference_at))]
pub(crate) fn reference_at(depth: usize, stack: &Stack<Value>) -> Option<Value>
    ensures { HasReference result depth stack.now }
{
    reference_in(stack.get(depth))
}

// A reference and an index, by the words on top.
fn place_in(top: Option<Value>, below: Option<Value>) -> Option<(Value, i32)>
    ensures { result ≡ place_in top below }
{
    match (top, below) {
        (Some(Value::Int(i)), Some(Value::Null)) => Some((Value::Null, i)),
        (Some(Value::Int(i)), Some(Value::Ref(r))) => Some((Value::Ref(r), i)),
        _ => None,
    }
}

// The reference and the index on top of it that lie so many words below the top.
#[tactic(auto, using(crate::proofs::OnTop::place_at))]
pub(crate) fn place_at(depth: usize, stack: &Stack<Value>) -> Option<(Value, i32)>
    requires { depth ≤ 2 }
    ensures { HasPlace result depth stack.now }
{
    place_in(stack.get(depth), stack.get(depth + 1))
}
