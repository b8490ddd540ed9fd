//! Returns, and what is thrown (JVMS 6.5.ireturn, 6.5.athrow).

ghost use Rattle.std.specs.Prelude.{◌≡◌, ◌≤◌, ◌<◌, [], length, option_map, OnOk, OnErr};
ghost use Rattle.steps.specs.Step.{resumed, with_result};
ghost use Rattle.steps.specs.Calling.{return_nothing, return_value, throw_top};
ghost use Rattle.frames.specs.Outcome.{failed, has_room};
ghost use Rattle.steps.specs.inside.Stepping.{IsBack, back_of, left_by};

use class_reader::Code;
use descriptors::result_of;
use frames::{
    Failure, Fetched, Frame, Here, Raised, Stack, Stop, Value, has_space, is_of_type, put,
    value_on, width_of,
};
use op_table::acts::Kind;
use std::alloc::AllocError;
use word_steps::narrowed_to;
use world::World;

const MISFIT: Failure = Failure::Stops(Stop::Shape);

// What a return leads to.
#[derive(Clone, Copy)]
pub(crate) enum Back {
    // No frame waits.
    Ends,
    // The frame that waits has no room for the result.
    Misfits,
    // It goes on at this place.
    Resumes(u32),
}

// The result of a return of a value, or why there is none.
#[tactic(auto, unfolding(crate::specs::Calling::return_value))]
pub(crate) fn return_value(
    world: &World,
    fetched: &Fetched<'_>,
    here: &Here,
    kind: Kind,
) -> Result<Option<Value>, Failure>
    ensures { return_value world.now fetched.now.standing here.now kind ≡ left_by result }
{
    let desc = result_of(fetched.method.desc.as_slice());
    let Some(value) = value_on(kind, &here.frame.stack) else {
        return Err(MISFIT);
    };
    if is_of_type(world, &here.heap, desc, value) {
        Ok(Some(narrowed_to(desc, value)))
    } else {
        Err(MISFIT)
    }
}

// A return of nothing, or why it can't be made.
pub(crate) fn return_nothing(fetched: &Fetched<'_>) -> Result<Option<Value>, Failure>
    ensures { return_nothing fetched.now.standing ≡ left_by result }
{
    if result_of(fetched.method.desc.as_slice()) == b"V".as_slice() {
        Ok(None)
    } else {
        Err(MISFIT)
    }
}

// What is thrown by the reference on top.
pub(crate) fn throw_top(here: &Here) -> Failure
    ensures { throw_top here.now.frame.stack ≡ failed result }
{
    match here.frame.stack.get(0) {
        Some(Value::Null) => Failure::Throws(Raised::NullPointer),
        Some(Value::Ref(number)) => Failure::Throws(Raised::Given(number)),
        _ => MISFIT,
    }
}

// How many words a result takes.
fn result_width(value: Option<Value>) -> usize
    ensures width { result ≡ length (with_result value []) }
    ensures few { result ≤ 2 }
{
    match value {
        None => 0,
        Some(value) => width_of(value),
    }
}

// Whether the stack has at most so many words with a result on it, and an instruction can stand at the place.
fn has_room(code: &Code, place: u32, stack: &Stack<Value>, value: Option<Value>) -> bool
    ensures { result ≡ has_room code.now place (with_result value stack.now) }
{
    has_space(
        stack.len(),
        0,
        result_width(value),
        usize::from(code.max_stack),
    ) && (place as usize) < code.bytes.len()
}

// The place behind its call at which a frame that waits can go on with the result.
#[tactic(auto, unfolding(crate::specs::Step::resumed))]
fn place_behind(world: &World, caller: &Frame, value: Option<Value>) -> Option<u32>
    ensures { result ≡ option_map (λ frame. frame.pc) (resumed world.now caller.now value) }
{
    let fetched = Fetched::of(world, caller)?;
    if has_room(fetched.code, fetched.next, &caller.stack, value) {
        Some(fetched.next)
    } else {
        None
    }
}

// What a return of a value leads to.
pub(crate) fn back_of(world: &World, value: Option<Value>, callers: &Stack<Frame>) -> Back
    ensures { result ≡ back_of world.now value callers.now }
{
    match callers.top() {
        None => Back::Ends,
        Some(caller) => match place_behind(world, caller, value) {
            Some(place) => Back::Resumes(place),
            None => Back::Misfits,
        },
    }
}

// Puts a result on the stack. An `Err` changes nothing.
fn put_result(value: Option<Value>, stack: &mut Stack<Value>) -> Result<(), AllocError>
    ensures ok { OnOk result (stack.new ≡ with_result value stack.old) }
    ensures err { OnErr result (stack.new ≡ stack.old) }
{
    match value {
        None => Ok(()),
        Some(value) => put(0, value, stack),
    }
}

// The frame that waited last goes on at this place, with the result. An `Err` changes nothing.
pub(crate) fn resume(
    value: Option<Value>,
    place: u32,
    callers: &mut Stack<Frame>,
    frame: &mut Frame,
) -> Result<(), AllocError>
    requires { 0 < length callers.old }
    ensures ok { OnOk result (IsBack value place callers.old frame.new callers.new) }
    ensures err { OnErr result ((callers.new ≡ callers.old) × (frame.new ≡ frame.old)) }
{
    callers.swap_top(frame);
    if let Err(error) = put_result(value, &mut frame.stack) {
        callers.swap_top(frame);
        return Err(error);
    }
    frame.pc = place;
    callers.cut(1);
    Ok(())
}
