//! Calls (JVMS 6.5.invokevirtual).

ghost use Rattle.std.specs.Prelude.{◌≡◌, ◌≤◌, length, Ok, IfOk};
ghost use Rattle.std.specs.Option.{option_copied};
ghost use Rattle.world.specs.Tables.{HasMethod};
ghost use Rattle.frames.specs.Heap.{class_of, is_of_class};
ghost use Rattle.frames.specs.Standing.{IsFetched};
ghost use Rattle.steps.specs.Calling.{call, call_meant, has_locals, is_outside, new_frame, on_receiver, selects, target};
ghost use Rattle.steps.specs.inside.Stepping.{Gives, HasEntered, Selects, frame_in, frame_of};

use crate::halt::Halt;
use crate::handing::{are_words, receiver_words};
use crate::links::{UNLINKED, link, look_up, select};
use class_reader::{Code, Method, is_abstract, is_native};
use descriptors::parameter_words;
use frames::{Cell, Failure, Fetched, Frame, Heap, Here, Locals, Raised, Stack, Stop, Value};
use linking::Meant;
use op_table::acts::Call;
use std::alloc::{AllocError, Global};
use world::{MemberId, World};

const MISFIT: Halt = Halt::Fails(Failure::Stops(Stop::Shape));

// A call in the current class, and what it means.
#[derive(Clone, Copy)]
struct Callee {
    current: u32,
    kind: Call,
    meant: Meant,
}

// The frame that is entered, and how many words it takes over.
#[derive(Drop)]
pub(crate) struct Entered {
    pub(crate) frame: Frame,
    pub(crate) words: usize,
}

// Whether an object or array is of the class with the number.
fn is_of_class(world: &World, class: u32, cell: Option<&Cell>) -> bool
    ensures { result ≡ is_of_class world.now class (option_copied cell.entry) }
{
    match cell {
        Some(Cell::Object { class: own, .. }) => world.is_below(*own, class),
        Some(Cell::Array { .. }) => class == 0,
        None => false,
    }
}

// The class of an object.
fn class_of(cell: Option<&Cell>) -> Option<u32>
    ensures { result ≡ class_of (option_copied cell.entry) }
{
    match cell {
        Some(Cell::Object { class, .. }) => Some(*class),
        _ => None,
    }
}

// The method that is looked up, or the one that the receiver's class selects.
fn selects(
    alloc: Global,
    world: &World,
    callee: Callee,
    class: Option<u32>,
) -> Result<MemberId, Halt>
    requires { HasMethod world.now callee.meant.method }
    ensures { Selects result (selects world.now callee.current callee.kind callee.meant class) }
{
    match callee.kind {
        Call::Special => look_up(alloc, world, callee.current, callee.kind, callee.meant),
        Call::Static => Ok(callee.meant.method),
        Call::Virtual | Call::Interface => match class {
            Some(class) => select(alloc, world, callee.meant.method, class),
            None => Err(UNLINKED),
        },
    }
}

// The method that runs on a receiver: null throws, and one that isn't of the class that is named stops.
fn on_receiver(
    alloc: Global,
    world: &World,
    heap: &Heap,
    callee: Callee,
    receiver: Value,
) -> Result<MemberId, Halt>
    requires { HasMethod world.now callee.meant.method }
    ensures { Selects result (on_receiver world.now heap.now callee.current callee.kind callee.meant receiver) }
{
    match receiver {
        Value::Ref(number) => {
            let cell = heap.get(number);
            if is_of_class(world, callee.meant.class, cell) {
                selects(alloc, world, callee, class_of(cell))
            } else {
                Err(Halt::Fails(Failure::Stops(Stop::Receiver)))
            }
        }
        Value::Null => Err(Halt::Fails(Failure::Throws(Raised::NullPointer))),
        _ => Err(MISFIT),
    }
}

// The method that runs on these words, the receiver first.
fn target(
    alloc: Global,
    world: &World,
    heap: &Heap,
    callee: Callee,
    words: &[Value],
) -> Result<MemberId, Halt>
    requires { HasMethod world.now callee.meant.method }
    ensures { Selects result (target world.now heap.now callee.current callee.kind callee.meant words.now) }
{
    match callee.kind {
        Call::Static => Ok(callee.meant.method),
        _ => match words {
            [receiver, ..] => on_receiver(alloc, world, heap, callee, *receiver),
            [] => Err(MISFIT),
        },
    }
}

// Whether the locals hold the words, and an instruction can stand at the beginning.
fn has_locals(code: &Code, words: &[Value]) -> bool
    ensures { result ≡ has_locals code.now words.now }
{
    words.len() <= usize::from(code.max_locals) && code.bytes.len() > 0
}

// Whether a method without code isn't analysed: it is native, and not abstract, too.
fn is_outside(flags: u16) -> bool
    ensures { result ≡ is_outside flags }
{
    is_native(flags) && !is_abstract(flags)
}

// The frame of a code that takes over words, where it holds them.
fn frame_in(alloc: Global, method: &Method, id: MemberId, words: &[Value]) -> Result<Frame, Halt>
    ensures { Gives result (frame_in (is_outside method.now.flags) method.now.code id words.now) }
{
    match &method.code {
        None => Err(Halt::Fails(Failure::Stops(if is_outside(method.flags) {
            Stop::Support
        } else {
            Stop::Link
        }))),
        Some(code) => {
            if has_locals(code, words) {
                let frame = new_frame(alloc, id, code, words)?;
                Ok(frame)
            } else {
                Err(MISFIT)
            }
        }
    }
}

// The frame with the words in its first locals (JVMS 2.6).
fn new_frame(
    alloc: Global,
    method: MemberId,
    code: &Code,
    words: &[Value],
) -> Result<Frame, AllocError>
    requires { length words.now ≤ code.now.max_locals }
    ensures { IfOk result (λ frame. frame ≡ new_frame method code.now words.now) }
{
    let words = Vec::from_slice(alloc, words)?;
    Ok(Frame {
        method,
        pc: 0,
        locals: Locals::of_words(words, usize::from(code.max_locals))?,
        stack: Stack::new(alloc),
    })
}

// The frame of a method that takes over words. A native method isn't analysed, and an abstract one has no code.
fn frame_of(alloc: Global, world: &World, method: MemberId, words: &[Value]) -> Result<Frame, Halt>
    ensures { Gives result (frame_of world.now method words.now) }
{
    match world.find_method(method) {
        None => Err(UNLINKED),
        Some(found) => frame_in(alloc, found, method, words),
    }
}

// The frame that a call enters, by the words on the stack.
fn hand_over(
    alloc: Global,
    world: &World,
    here: &Here,
    kind: Call,
    meant: Meant,
) -> Result<Entered, Halt>
    requires { HasMethod world.now meant.method }
    ensures { HasEntered result here.now (call_meant world.now here.now kind (Ok meant)) }
{
    let desc = world.method_at(meant.method).desc.as_slice();
    let count = receiver_words(kind) + parameter_words(desc);
    if here.frame.stack.len() < count {
        return Err(MISFIT);
    }
    let words = here.frame.stack.front(count);
    if !are_words(world, &here.heap, kind, desc, words) {
        return Err(MISFIT);
    }
    let callee = Callee {
        current: here.frame.method.class,
        kind,
        meant,
    };
    let method = target(alloc, world, &here.heap, callee, words)?;
    let frame = frame_of(alloc, world, method, words)?;
    Ok(Entered {
        frame,
        words: count,
    })
}

// The frame that a call of a member reference enters, or why it enters none.
#[tactic(auto, unfolding(crate::specs::Calling::call))]
pub(crate) fn call(
    alloc: Global,
    world: &World,
    fetched: &Fetched<'_>,
    here: &Here,
    kind: Call,
    index: u16,
) -> Result<Entered, Halt>
    requires { IsFetched world.now fetched.now here.now }
    ensures { HasEntered result here.now (call world.now fetched.now.standing here.now kind index) }
{
    let meant = link(alloc, world, kind, &fetched.class.pool, index)?;
    hand_over(alloc, world, here, kind, meant)
}
