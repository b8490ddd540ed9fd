//! With which arguments a method of given classes is entered, and how its run begins: a method `CLASS.NAME:DESCRIPTOR`, its
//! arguments, the word `in`, and the classes' names. The answer has the words of the locals, and the values of all statics.

use crate::heaps::heap_of;
use crate::values::{put_value, put_value_or_none, values_of};
use case_texts::Case;
use machine::{EnterFault, Locals, State, enter};
use world::World;
use world_cases::{target_of, world_of};

/// Why a method isn't entered.
fn put_fault(case: &mut Case<'_>, fault: EnterFault) {
    match fault {
        EnterFault::NoMethod => case.put("no method"),
        EnterFault::BadArg { i } => {
            case.put("bad ");
            case.show(&i);
        }
        EnterFault::Memory => case.put("memory"),
    }
}

/// The configuration in which the run of the method begins. Where there is none, the answer is the fault.
pub fn entered(case: &mut Case<'_>, world: &World) -> Option<State> {
    let target = target_of(case)?;
    let arguments = case.rest();
    let arguments = values_of(case, arguments);
    let heap = heap_of(case, world);
    match enter(case.alloc(), world, &target, arguments, heap) {
        Ok(state) => Some(state),
        Err(fault) => {
            put_fault(case, fault);
            None
        }
    }
}

fn put_locals(case: &mut Case<'_>, locals: &Locals) {
    for local in 0..locals.len() {
        case.put(" ");
        put_value_or_none(case, locals.get(local));
    }
}

pub fn answer(case: &mut Case<'_>) {
    let Some(world) = world_of(case) else {
        return;
    };
    if let Some(state) = entered(case, &world) {
        case.put("entered");
        put_locals(case, &state.here.frame.locals);
        case.put(" |");
        for (_, value) in state.here.statics.as_slice() {
            case.put(" ");
            put_value(case, *value);
        }
    }
}
