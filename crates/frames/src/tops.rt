//! What lies on top of an operand stack, and the int of a local (JVMS 2.6.2).

ghost use Rattle.std.specs.Prelude.{◌≡◌};
ghost use Rattle.op_table.specs.declared.acts.Kind.TheVariants as kinds;
ghost use Rattle.op_table.specs.declared.acts.Width.TheVariants as widths;
ghost use Rattle.frames.specs.Words.{loaded, popped, popped_number, popped_two};
ghost use Rattle.frames.specs.Tops.{HasInt, HasOne, HasTwo, HasValue, both, int_on, long_on, kind_words};

use crate::{Locals, Stack, Value};
use op_table::acts::Kind;

// The int in a word.
fn as_int(word: Option<Value>) -> Option<i32>
    ensures { result ≡ int_on word }
{
    match word {
        Some(Value::Int(n)) => Some(n),
        _ => None,
    }
}

// The long in two words, the first of which lies on top.
fn as_long(top: Option<Value>, below: Option<Value>) -> Option<i64>
    ensures { result ≡ long_on top below }
{
    match (top, below) {
        (Some(Value::Pad), Some(Value::Long(n))) => Some(n),
        _ => None,
    }
}

/// The int on top.
#[tactic(auto, using(crate::proofs::OnTop::one_int))]
pub fn one_int(stack: &Stack<Value>) -> Option<i32>
    ensures { HasOne result 1 stack.now (popped_number widths.Int stack.now) }
{
    as_int(stack.get(0))
}

/// The long on top.
#[tactic(auto, using(crate::proofs::OnTop::one_long))]
pub fn one_long(stack: &Stack<Value>) -> Option<i64>
    ensures { HasOne result 2 stack.now (popped_number widths.Long stack.now) }
{
    as_long(stack.get(0), stack.get(1))
}

/// The two ints on top, the lower one first.
pub fn two_ints(stack: &Stack<Value>) -> Option<(i32, i32)>
    ensures { HasTwo result 2 stack.now (popped_two widths.Int widths.Int stack.now) }
{
    match (as_int(stack.get(1)), as_int(stack.get(0))) {
        (Some(first), Some(second)) => Some((first, second)),
        _ => None,
    }
}

/// The two longs on top, the lower one first.
#[tactic(auto, using(crate::proofs::OnTop::two_longs))]
pub fn two_longs(stack: &Stack<Value>) -> Option<(i64, i64)>
    ensures { HasTwo result 4 stack.now (popped_two widths.Long widths.Long stack.now) }
{
    both(
        as_long(stack.get(0), stack.get(1)),
        as_long(stack.get(2), stack.get(3)),
    )
}

// Two numbers, the one on top first, where both are there.
fn both(second: Option<i64>, first: Option<i64>) -> Option<(i64, i64)>
    ensures { result ≡ both second first }
{
    match (second, first) {
        (Some(second), Some(first)) => Some((first, second)),
        _ => None,
    }
}

/// The int of a local.
#[tactic(auto, using(crate::proofs::OnTop::loaded_int))]
pub fn int_in(locals: &Locals, local: u16) -> Option<i32>
    ensures { HasInt result local locals.now (loaded kinds.Int locals.now local) }
{
    as_int(locals.get(usize::from(local)))
}

/// The int on top, behind the long below it.
pub fn long_and_int(stack: &Stack<Value>) -> Option<(i64, i32)>
    ensures { HasTwo result 3 stack.now (popped_two widths.Long widths.Int stack.now) }
{
    match (as_long(stack.get(1), stack.get(2)), as_int(stack.get(0))) {
        (Some(first), Some(second)) => Some((first, second)),
        _ => None,
    }
}

/// How many words a value of the kind takes.
pub fn words_of(kind: Kind) -> usize
    ensures { result ≡ kind_words kind }
{
    match kind {
        Kind::Long => 2,
        Kind::Int | Kind::Reference => 1,
    }
}

/// The value of the kind on top.
pub fn value_on(kind: Kind, stack: &Stack<Value>) -> Option<Value>
    ensures { HasValue result (kind_words kind) stack.now (popped kind stack.now) }
{
    match (kind, stack.get(0)?, stack.get(1)) {
        (Kind::Int, Value::Int(n), _) => Some(Value::Int(n)),
        (Kind::Long, Value::Pad, Some(Value::Long(n))) => Some(Value::Long(n)),
        (Kind::Reference, Value::Null, _) => Some(Value::Null),
        (Kind::Reference, Value::Ref(r), _) => Some(Value::Ref(r)),
        _ => None,
    }
}
