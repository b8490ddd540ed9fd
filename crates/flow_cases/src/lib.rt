//! What cases on flows are answered: a flow whose facts are lists, of a length of its own at each point.
#![tactic(auto)]

mod edge;
mod marks;
mod program;
mod reading;
mod slots;

ghost use Rattle.std.specs.Prelude.{◌≡◌, length};

use case_texts::Case;
use fix_engine::{Solution, solve};
use marks::Marks;
use program::Program;
use slots::Slots;

/// The facts of a solution, by point.
fn put_facts(case: &mut Case<'_>, points: u32, solution: &Solution<Slots>)
    requires { points ≡ length solution.now }
{
    for point in 0..points {
        case.part(" ");
        reading::put_slots(case, solution.at(point));
    }
}

/// The facts of the least solution.
fn put_least(case: &mut Case<'_>, program: &Program) {
    let flow = Marks::of(program);
    match solve(case.alloc(), &flow) {
        Ok(solution) => put_facts(case, program.points(), &solution),
        Err(fault) => case.keep(Err(fault)),
    }
}

/// Answers the case, and tells whether the subject is this one.
pub fn answer(subject: &str, case: &mut Case<'_>) -> bool {
    if subject != "flows" {
        return false;
    }
    if let Some(program) = reading::program_of(case) {
        put_least(case, &program);
    }
    true
}
