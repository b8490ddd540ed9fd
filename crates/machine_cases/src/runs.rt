//! Runs of methods of given classes, step by step to the end: a method, its arguments, the word `in`, and the
//! classes' names. The answer tells each step that wrapped, how the run ended, and how all stands then.

use crate::entry::entered;
use crate::values::put_value_or_none;
use case_texts::Case;
use cost_model::CostModel;
use machine::{Event, Stack, State, Status, Stop, Thrown, Value};
use world::World;
use world_cases::{put_method, world_of};

/// How many steps a run has at most, and how much it spends, and how many objects it has.
const MOST: u32 = 1000;

fn thrown_word(thrown: Thrown) -> &'static str {
    match thrown {
        Thrown::NullPointer => "thrown null_pointer",
        Thrown::ArrayIndex => "thrown array_index",
        Thrown::NegativeSize => "thrown negative_size",
        Thrown::ArrayStore => "thrown array_store",
        Thrown::ClassCast => "thrown class_cast",
        Thrown::Arithmetic => "thrown arithmetic",
        Thrown::Given => "thrown given",
    }
}

fn stop_word(stop: Stop) -> &'static str {
    match stop {
        Stop::Shape => "stopped shape",
        Stop::Link => "stopped link",
        Stop::Receiver => "stopped receiver",
        Stop::Support => "stopped support",
    }
}

fn event_word(event: Event) -> &'static str {
    match event {
        Event::Went => "went",
        Event::Wrapped => "wrapped",
        Event::Ended => "ended",
        Event::Thrown(thrown) => thrown_word(thrown),
        Event::Stopped(stop) => stop_word(stop),
    }
}

/// Makes a step, where the run is small.
fn step(case: &mut Case<'_>, world: &World, state: &mut State) -> Option<Event> {
    if state.here.heap.len() >= MOST as usize || state.spent >= u128::from(MOST) {
        return None;
    }
    let event = state.step(case.alloc(), world, &CostModel::counting());
    case.made(event)
}

/// Whether another step is the same as the last, which is the end of the run.
fn has_ended(case: &mut Case<'_>, world: &World, state: &mut State, last: Event) -> bool {
    step(case, world, state) == Some(last) && state.status != Status::Running
}

/// Makes all steps, adds the word of each that wrapped and of the last, and gives the last.
fn run(case: &mut Case<'_>, world: &World, state: &mut State) -> Option<Event> {
    for _ in 0..MOST {
        let event = step(case, world, state)?;
        if event != Event::Went {
            case.put_word(event_word(event));
            if event != Event::Wrapped {
                return Some(event);
            }
        }
    }
    None
}

/// The value on top, of which a long takes two words.
fn top_of(stack: &Stack<Value>) -> Option<Value> {
    match stack.get(0) {
        Some(Value::Pad) => stack.get(1),
        top => top,
    }
}

/// Where the run stands: the method, the place in its code, the top of the stack, what was spent, and how many
/// callers wait and objects there are.
fn put_standing(case: &mut Case<'_>, world: &World, state: &State) {
    case.put(" at ");
    put_method(case, world, state.here.frame.method);
    case.show_word(&state.here.frame.pc);
    case.put(" top ");
    put_value_or_none(case, top_of(&state.here.frame.stack));
    case.put(" spent ");
    case.show(&state.spent);
    case.put(" callers ");
    case.show(&state.callers.len());
    case.put(" objects ");
    case.show(&state.here.heap.len());
}

/// Runs to the end, and tells how all stands then.
fn tell(case: &mut Case<'_>, world: &World, state: &mut State) {
    match run(case, world, state) {
        Some(last) if has_ended(case, world, state, last) => put_standing(case, world, state),
        _ => case.malformed("a run is too long, or goes on behind its end"),
    }
}

pub fn answer(case: &mut Case<'_>) {
    let Some(world) = world_of(case) else {
        return;
    };
    if let Some(mut state) = entered(case, &world) {
        tell(case, &world, &mut state);
    }
}
